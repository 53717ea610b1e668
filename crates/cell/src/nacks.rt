//! Nacks: where they are bound, and which are enabled.

ghost use Rattle.std.specs.Prelude.{◌≡◌, ℕ, ◌<◌, ◌≤◌, IfSome, IfNone, Some, IsFalse, length};
ghost use Rattle.protocol_values.specs.declared.Base.TheVariants.{OnEnd, OnNack};
ghost use Rattle.protocol_values.specs.declared.Binding.{Binding};
ghost use Rattle.protocol_values.specs.declared.Joined.{Joined};
ghost use Rattle.protocol_values.specs.declared.NackName.{NackName};
ghost use Rattle.protocol_ledger.specs.Tables.{bound_row};
ghost use Rattle.protocol_ledger.specs.Worlds.{nack_of_row};
ghost use Rattle.cell.specs.Attempts.{Bound, BoundBefore, IsBoundRow, SaysOf, bind_made};
ghost use Rattle.cell_table.specs.Nacks.{IsCauseRow, IsReadyAlone, SawCause, SawEnabled};
ghost use Rattle.cell_table.specs.declared.view.Stage.TheVariants.{Resting};
ghost use Rattle.cell_table.specs.Seats.{HasNack, HasRow, Sits, StaysSeated};
ghost use Rattle.cell_table.specs.Sight.{Has, Learns, LearnsOf, SawEnded};
ghost use Rattle.cell_table.specs.Views.{at_stage, worked};

use crate::reading::{end_stamp, opened_offer};
use atomic_table::Seat;
use cell_table::{Board, View};
use protocol_ledger::Resident;
use protocol_values::{Base, Binding, Cell, Joined, NackName, NackWord, Row};

/// What the nack's word says, by a look at it. A nack that the table has not is not bound.
pub(crate) fn word_of<M: Resident>(
    board: &Board<M>,
    seat: &mut Seat<Option<M>, View<M>>,
    nack: NackName,
) -> NackWord
    requires { Sits board.now seat.old }
    ensures sits { StaysSeated board.now seat.old seat.new }
    ensures stays { seat.new.me.0 ≡ at_stage seat.old.me.0.stage seat.new.me.0.seen seat.old.me.0 }
    ensures learns { LearnsOf (λ q. ⊥) (λ n. n ≡ nack) (λ p. ⊥) seat.old.me.0.seen seat.new.me.0.seen }
    ensures says { SaysOf board.now seat.new.me.0.seen nack result }
    ensures same { (b : Binding) → Has seat.old.me.0.seen.bound (nack, b) → result ≡ NackWord.Bound b }
    ensures same_stamp { (stamp : ℕ) → Has seat.old.me.0.seen.carried (nack, stamp) → result ≡ NackWord.Carried stamp }
{
    if !board.has_nack(nack) {
        return NackWord::Unbound;
    }
    board.look_nack(seat, nack)
}

/// Binds nack k of the row's thread to the row, which is held and not opened yet, and to one of
/// its scopes. False where the nack was bound before, or is carried.
pub(crate) fn bind<M: Resident>(
    board: &Board<M>,
    seat: &mut Seat<Option<M>, View<M>>,
    k: u8,
    row: Row,
    scope: u8,
) -> bool
    requires sits { Sits board.now seat.old × HasRow board.now row }
    requires resting { seat.old.me.0.stage ≡ Resting }
    requires held { Has seat.old.me.0.seen.held row × (¬ Has seat.old.me.0.seen.opened row) }
    requires alive { ¬ SawEnded seat.old.me.0.seen row.thread }
    requires range { (k < 64) × (scope < 4) }
    ensures sits { StaysSeated board.now seat.old seat.new }
    ensures stays { seat.new.me.0 ≡ worked seat.old.me.0.stage seat.new.me.0.seen (bind_made k row scope result seat.old.me.0.made) seat.old.me.0 }
    ensures learns { LearnsOf (λ q. ⊥) (λ n. n ≡ nack_of_row row k) (λ p. ⊥) seat.old.me.0.seen seat.new.me.0.seen }
    ensures bound { Bound seat.old.me.0.seen seat.new.me.0.seen k row scope result }
    ensures earlier { IsFalse result → 0 < length board.now.shape.first.value.items → BoundBefore M.stands board.now.shape.first.value.items seat.old.me.0.results seat.new.me.0.seen k row }
{
    let nack = NackName {
        thread: row.thread,
        k,
    };
    let bound = Binding {
        sync: row.sync as u16,
        scope,
    };
    match board.bind_nack(seat, nack, bound) {
        Ok(()) => true,
        Err(_) => false,
    }
}

/// The stamp of what lets a base event commit its row alone: 0 for an always, for a nack that is enabled
/// that of the row which enabled it, and for a thread that has ended its last one.
pub(crate) fn cause_of<M: Resident>(
    board: &Board<M>,
    seat: &mut Seat<Option<M>, View<M>>,
    base: Base,
) -> Option<u32>
    requires sits { Sits board.now seat.old }
    ensures sits { StaysSeated board.now seat.old seat.new }
    ensures stays { seat.new.me.0 ≡ at_stage seat.old.me.0.stage seat.new.me.0.seen seat.old.me.0 }
    ensures learns { LearnsOf (IsCauseRow seat.new.me.0.seen base) (λ n. base ≡ OnNack n) (λ p. base ≡ OnEnd p) seat.old.me.0.seen seat.new.me.0.seen }
    ensures some { IfSome result (λ stamp. SawCause seat.new.me.0.seen base stamp) }
    ensures none { IfNone result (¬ IsReadyAlone seat.old.me.0.seen base) }
{
    match base {
        Base::Always(_) => Some(0),
        Base::OnNack(nack) => enabled_at(board, seat, nack),
        Base::OnEnd(thread) => end_stamp(board, seat, thread),
        Base::Send(..) | Base::Recv(_) | Base::Never => None,
    }
}

/// The stamp at which the nack was enabled: that of the row which enabled it, or that with which it is carried.
fn enabled_at<M: Resident>(
    board: &Board<M>,
    seat: &mut Seat<Option<M>, View<M>>,
    nack: NackName,
) -> Option<u32>
    requires sits { Sits board.now seat.old }
    ensures sits { StaysSeated board.now seat.old seat.new }
    ensures stays { seat.new.me.0 ≡ at_stage seat.old.me.0.stage seat.new.me.0.seen seat.old.me.0 }
    ensures learns { LearnsOf (IsBoundRow seat.new.me.0.seen nack) (λ n. n ≡ nack) (λ p. ⊥) seat.old.me.0.seen seat.new.me.0.seen }
    ensures some { IfSome result (SawCause seat.new.me.0.seen (OnNack nack)) }
    ensures none { IfNone result (¬ IsReadyAlone seat.old.me.0.seen (OnNack nack)) }
{
    match word_of(board, seat, nack) {
        NackWord::Unbound | NackWord::Carried(0) => None,
        NackWord::Carried(stamp) => Some(stamp),
        NackWord::Bound(bound) => enabled_by(board, seat, nack, bound),
    }
}

/// The stamp of the row that enabled the nack: the nack is bound to it, and it chose an offer outside the nack's scope.
fn enabled_by<M: Resident>(
    board: &Board<M>,
    seat: &mut Seat<Option<M>, View<M>>,
    nack: NackName,
    bound: Binding,
) -> Option<u32>
    requires sits { Sits board.now seat.old × HasRow board.now (bound_row nack bound) }
    requires bound { Has seat.old.me.0.seen.bound (nack, bound) }
    ensures sits { StaysSeated board.now seat.old seat.new }
    ensures stays { seat.new.me.0 ≡ at_stage seat.old.me.0.stage seat.new.me.0.seen seat.old.me.0 }
    ensures learns { Learns (λ q. q ≡ bound_row nack bound) seat.old.me.0.seen seat.new.me.0.seen }
    ensures some { IfSome result (λ stamp. (j : Joined) × SawEnabled seat.new.me.0.seen nack j × (stamp ≡ j.stamp)) }
    ensures none { IfNone result ((j : Joined) → ¬ SawEnabled seat.old.me.0.seen nack j) }
{
    let row = Row {
        thread: nack.thread,
        sync: bound.sync as u32,
    };
    let joined = committed(board, seat, row)?;
    let chosen = opened_offer(board, seat, row, joined.own)?;
    if chosen.has_scope(bound.scope) {
        return None;
    }
    Some(joined.stamp)
}

/// How the row is committed, if it is.
fn committed<M: Resident>(
    board: &Board<M>,
    seat: &mut Seat<Option<M>, View<M>>,
    row: Row,
) -> Option<Joined>
    requires { Sits board.now seat.old × HasRow board.now row }
    ensures sits { StaysSeated board.now seat.old seat.new }
    ensures stays { seat.new.me.0 ≡ at_stage seat.old.me.0.stage seat.new.me.0.seen seat.old.me.0 }
    ensures learns { Learns (λ q. q ≡ row) seat.old.me.0.seen seat.new.me.0.seen }
    ensures some { IfSome result (λ j. Has seat.new.me.0.seen.joined (row, j) × Has seat.new.me.0.seen.opened row) }
    ensures same { (j : Joined) → Has seat.old.me.0.seen.joined (row, j) → result ≡ Some j }
{
    match board.look(seat, row) {
        Cell::Synched(joined) | Cell::Taken(joined) => Some(joined),
        Cell::Fresh | Cell::Waiting | Cell::Claimed => None,
    }
}
