//! A rendezvous of two rows: by looks first, then by a claim, and a join that is sealed or a claim
//! that is given up.

ghost use Rattle.std.specs.Prelude.{◌≡◌, ◌⊎◌, ◌<◌, IfSome, IfNone};
ghost use Rattle.protocol_values.specs.Words.{IsJoinedInRange};
ghost use Rattle.cell_table.specs.declared.view.Stage.TheVariants.{Resting};
ghost use Rattle.cell.specs.declared.attempt.Attempt.TheVariants.{Unfit};
ghost use Rattle.cell.specs.Attempts.{Attempted, CanMeet, Fits, IsLifeNear, IsNear, OffersFit, attempt_made};
ghost use Rattle.cell_table.specs.Seats.{Sits, HasRow, StaysSeated};
ghost use Rattle.cell_table.specs.Sight.{Has, CanJoin, LearnsOf};
ghost use Rattle.cell_table.specs.Views.{at_stage, worked};

use crate::reading::{direction_of, last_stamp, opened_direction};
use atomic_table::Seat;
use cell_table::{Board, View};
use protocol_ledger::Resident;
use protocol_values::{Cell, Joined, Row};

/// The kinds with which a gate is called: before a claim, a yield, a join and a seal.
pub const CLAIM: u8 = 5;

pub const YIELD: u8 = 6;

pub const JOIN: u8 = 7;

pub const SEAL: u8 = 8;

/// Called before each cell step of an attempt, with the kind of the step.
pub trait StepGate {
    fn step(&self, kind: u8);
}

/// A gate that does nothing.
#[derive(Clone, Copy, Debug)]
pub struct NoGate;

impl StepGate for NoGate {
    fn step(&self, _kind: u8) {}
}

/// What became of an attempt.
#[derive(Clone, Copy, Debug, PartialEq, Eq)]
pub enum Attempt {
    /// Both rows are committed with each other, at this stamp.
    Met(u32),
    /// The other row was committed already. One's own waits again.
    Gone,
    /// One's own row was committed already.
    Mine,
    /// The other row was claimed. One's own waits again.
    Busy,
    /// The rows are of one thread, or the offers are not a send and a receive on one channel.
    Unfit,
}

/// Tries to commit a held opened row with another row, each under one of its offers.
pub(crate) fn attempt_rows<M: Resident, G: StepGate>(
    board: &Board<M>,
    seat: &mut Seat<Option<M>, View<M>>,
    gate: &G,
    mine: (Row, u8),
    other: (Row, u8),
) -> Attempt
    requires sits { Sits board.now seat.old × HasRow board.now mine.0 × HasRow board.now other.0 }
    requires held { Has seat.old.me.0.seen.held mine.0 × Has seat.old.me.0.seen.opened mine.0 × (seat.old.me.0.stage ≡ Resting) }
    ensures sits { StaysSeated board.now seat.old seat.new }
    ensures stays { seat.new.me.0 ≡ worked Resting seat.new.me.0.seen (attempt_made mine.0 mine.1 other.0 other.1 result seat.old.me.0.made) seat.old.me.0 }
    ensures learns { LearnsOf (IsNear mine.0 other.0) (λ n. ⊥) (IsLifeNear mine.0 other.0) seat.old.me.0.seen seat.new.me.0.seen }
    ensures fits { Fits seat.new.me.0.seen mine.0 mine.1 other.0 other.1 result }
    ensures offers { OffersFit seat.new.me.0.seen mine.0 mine.1 other.0 other.1 result }
    ensures attempted { Attempted seat.old.me.0.seen seat.new.me.0.seen mine.0 mine.1 other.0 other.1 result }
{
    match fit(board, seat, mine, other) {
        Some(joined) => meet(board, seat, gate, mine, other.0, joined),
        None => Attempt::Unfit,
    }
}

/// How the other row would be committed, where the two rows can meet under these offers.
fn fit<M: Resident>(
    board: &Board<M>,
    seat: &mut Seat<Option<M>, View<M>>,
    mine: (Row, u8),
    other: (Row, u8),
) -> Option<Joined>
    requires sits { Sits board.now seat.old × HasRow board.now mine.0 × HasRow board.now other.0 }
    requires opened { Has seat.old.me.0.seen.opened mine.0 }
    ensures sits { StaysSeated board.now seat.old seat.new }
    ensures stays { seat.new.me.0 ≡ at_stage seat.old.me.0.stage seat.new.me.0.seen seat.old.me.0 }
    ensures learns { LearnsOf (IsNear mine.0 other.0) (λ n. ⊥) (IsLifeNear mine.0 other.0) seat.old.me.0.seen seat.new.me.0.seen }
    ensures can { IfSome result (λ j. CanJoin seat.new.me.0.seen mine.0 mine.1 other.0 other.1 j × IsJoinedInRange j) }
    ensures unfit { IfNone result (¬ CanMeet seat.new.me.0.seen mine.0 mine.1 other.0 other.1) }
{
    let (my_row, own) = mine;
    let (row, partner) = other;
    if my_row.thread == row.thread {
        return None;
    }
    let my_direction = opened_direction(board, seat, my_row, own)?;
    let direction = direction_of(board, seat, row, partner)?;
    if !my_direction.meets(direction) {
        return None;
    }
    let my_last = last_stamp(board, seat, my_row);
    let last = last_stamp(board, seat, row);
    Some(Joined {
        own: partner,
        partner: Some(mine),
        stamp: my_last.max(last).saturating_add(1),
    })
}

/// Claims the row `mine`, and then joins the other and seals, or gives up.
fn meet<M: Resident, G: StepGate>(
    board: &Board<M>,
    seat: &mut Seat<Option<M>, View<M>>,
    gate: &G,
    mine: (Row, u8),
    other: Row,
    joined: Joined,
) -> Attempt
    requires sits { Sits board.now seat.old × HasRow board.now mine.0 × HasRow board.now other }
    requires held { Has seat.old.me.0.seen.held mine.0 × Has seat.old.me.0.seen.opened mine.0 × (seat.old.me.0.stage ≡ Resting) }
    requires can { CanJoin seat.old.me.0.seen mine.0 mine.1 other joined.own joined × IsJoinedInRange joined }
    ensures sits { StaysSeated board.now seat.old seat.new }
    ensures stays { seat.new.me.0 ≡ worked Resting seat.new.me.0.seen (attempt_made mine.0 mine.1 other joined.own result seat.old.me.0.made) seat.old.me.0 }
    ensures learns { LearnsOf (IsNear mine.0 other) (λ n. ⊥) (IsLifeNear mine.0 other) seat.old.me.0.seen seat.new.me.0.seen }
    ensures attempted { Attempted seat.old.me.0.seen seat.new.me.0.seen mine.0 mine.1 other joined.own result × (¬ (result ≡ Unfit)) }
{
    let (row, own) = mine;
    gate.step(CLAIM);
    if board.claim(seat, row).is_err() {
        return Attempt::Mine;
    }
    gate.step(JOIN);
    match board.join(seat, row, own, other, joined.own, joined) {
        Ok(()) => {
            gate.step(SEAL);
            board.seal(seat, row, own, other, joined);
            Attempt::Met(joined.stamp)
        }
        Err(found) => {
            gate.step(YIELD);
            board.give_up(seat, row);
            match found {
                Cell::Claimed => Attempt::Busy,
                Cell::Fresh | Cell::Waiting | Cell::Synched(_) | Cell::Taken(_) => Attempt::Gone,
            }
        }
    }
}
