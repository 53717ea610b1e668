//! A row that is committed alone.

ghost use Rattle.std.specs.Prelude.{◌≡◌};
ghost use Rattle.cell_table.specs.declared.view.Stage.TheVariants.{Resting};
ghost use Rattle.cell.specs.Attempts.{Granted, IsLifeOf, IsNackOf, IsNearGrant, grant_made};
ghost use Rattle.cell_table.specs.Seats.{Sits, HasRow, StaysSeated};
ghost use Rattle.cell_table.specs.Sight.{LearnsOf};
ghost use Rattle.cell_table.specs.Views.{worked};

use crate::nacks::cause_of;
use crate::reading::{last_stamp, offer_of};
use atomic_table::Seat;
use cell_table::{Board, View};
use protocol_ledger::Resident;
use protocol_values::{Joined, Row};

/// What became of a grant.
#[derive(Clone, Copy, Debug, PartialEq, Eq)]
pub enum Grant {
    /// This call committed the row alone.
    Given,
    /// The row has no such offer, or the offer is no always, no nack that is enabled, and no end of a thread
    /// that has ended.
    NotEnabled,
    /// The row did not wait: a look tells what it is.
    Late,
}

/// Commits the row alone by its offer n, where that is an always, an enabled nack, or the end of a thread that
/// has ended, and the row waits.
pub(crate) fn grant_row<M: Resident>(
    board: &Board<M>,
    seat: &mut Seat<Option<M>, View<M>>,
    row: Row,
    n: u8,
) -> Grant
    requires sits { Sits board.now seat.old × HasRow board.now row }
    requires resting { seat.old.me.0.stage ≡ Resting }
    ensures sits { StaysSeated board.now seat.old seat.new }
    ensures stays { seat.new.me.0 ≡ worked Resting seat.new.me.0.seen (grant_made row n result seat.old.me.0.made) seat.old.me.0 }
    ensures learns { LearnsOf (IsNearGrant seat.new.me.0.seen row n) (IsNackOf seat.new.me.0.seen row n) (IsLifeOf seat.new.me.0.seen row n) seat.old.me.0.seen seat.new.me.0.seen }
    ensures granted { Granted seat.old.me.0.seen seat.new.me.0.seen row n result }
{
    let Some(offer) = offer_of(board, seat, row, n) else {
        return Grant::NotEnabled;
    };
    let Some(cause) = cause_of(board, seat, offer.base) else {
        return Grant::NotEnabled;
    };
    let last = last_stamp(board, seat, row);
    let joined = Joined {
        own: n,
        partner: None,
        stamp: last.max(cause).saturating_add(1),
    };
    match board.give(seat, row, joined) {
        Ok(()) => Grant::Given,
        Err(_) => Grant::Late,
    }
}
