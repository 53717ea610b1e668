//! A committed row is taken, and its thread goes on.

ghost use Rattle.std.specs.Prelude.{◌≡◌, IfSome, IfNone};
ghost use Rattle.cell.specs.Attempts.{Hands, ResultsTold, Took, take_made};
ghost use Rattle.cell_table.specs.declared.view.Stage.TheVariants.{Resting};
ghost use Rattle.cell_table.specs.Seats.{Sits, HasRow, StaysAtTable};
ghost use Rattle.cell_table.specs.Sight.{Has, Learns, SawCommitted};
ghost use Rattle.cell_table.specs.Views.{with_results, worked};

use atomic_table::Seat;
use cell_table::{Board, View};
use protocol_ledger::Resident;
use protocol_values::{Cell, Joined, Row};

/// Takes the row, where it is committed and nobody has taken it.
pub(crate) fn take_row<M: Resident>(
    board: &Board<M>,
    seat: &mut Seat<Option<M>, View<M>>,
    row: Row,
) -> Option<Joined>
    requires sits { Sits board.now seat.old × HasRow board.now row }
    requires resting { seat.old.me.0.stage ≡ Resting }
    ensures sits { StaysAtTable board.now seat.old seat.new }
    ensures stays { seat.new.me.0 ≡ with_results seat.new.me.0.results (worked seat.old.me.0.stage seat.new.me.0.seen (take_made row result seat.old.me.0.made) seat.old.me.0) }
    ensures results { ResultsTold row result seat.old.me.0.results seat.new.me.0.results }
    ensures out { Hands M.stands board.now.shape.first.value.items seat.old.me.0.seen seat.new.me.0.seen row result seat.new.me.0.results seat.old.me.1 seat.new.me.1 }
    ensures some { IfSome result (Took board.now.shape.rows seat.old.me.0.seen seat.new.me.0.seen row) }
    ensures none { IfNone result (Learns (λ q. q ≡ row) seat.old.me.0.seen seat.new.me.0.seen × (SawCommitted seat.old.me.0.seen row → Has seat.new.me.0.seen.taken row)) }
{
    let Cell::Synched(joined) = board.look(seat, row) else {
        return None;
    };
    match board.take_committed(seat, row, joined) {
        Ok(()) => Some(joined),
        Err(_) => None,
    }
}
