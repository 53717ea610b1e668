//! What each atomic step tells the pass that makes it. The rule of the table is `Keeps`; what it holds of a pass is
//! `Knows` (`specs/Views`), and of machines `Housed` (`specs/Rule`). With each step stands the clause of these that it
//! leans on; that the rule then holds again is proved where `steps` makes it (`proofs/Allowing`).

ghost use Rattle.cell_table.specs.Rule.{dealt_one, dealt_pass, heard_pass, left_pass, spent_pass, told_last, told_pass};
ghost use Rattle.cell_table.specs.Told.{claimed, drafted, finished, glanced, granted, has_begun, has_read, joined, looked, looked_life, looked_nack, opened, sealed, taken, tried_bind, tried_start, turned_to, yielded};

use crate::view::View;
use atomic_table::{Join as JoinSeats, Play, Split};
use protocol_ledger::Resident;

/// The row's cell is read: what was seen of it before stays, by `opened`, `joined` and `taken`, and only its holder
/// has claimed it, by `calm`.
pub struct Look;

impl<M> Play<Option<M>, View<M>> for Look {
    ghost then = { looked };
}

/// A word is read, and nothing is learnt by it, but that what the pass has seen is of one world: all of `Knows`.
pub struct Glance;

impl<M> Play<Option<M>, View<M>> for Glance {
    ghost then = { glanced };
}

/// A word of an opened row is read: it stays so, by `opened` and `read`.
pub struct Read;

impl<M> Play<Option<M>, View<M>> for Read {
    ghost then = { has_read };
}

/// A word of a held Fresh row is written: nobody else holds the row, by `mine`, and none has read it, by `fresh`.
pub struct Draft;

impl<M> Play<Option<M>, View<M>> for Draft {
    ghost then = { drafted };
}

/// What stood for a thread at first is taken out of its slot, by a look at the thread's first row: it lies there until
/// then, by `waiting` of `Housed`.
pub struct Begin;

impl<M> Play<Option<M>, View<M>> for Begin {
    ghost then = { has_begun };
}

/// A held Fresh row is opened, by `mine` and `fresh`. Its machine goes home, which is ready for it (`IsReady`).
pub struct Open;

impl<M> Play<Option<M>, View<M>> for Open {
    ghost then = { opened };
}

/// A claimed row is given up, and is Waiting again: no row names it, by `staged`.
pub struct GiveUp;

impl<M> Play<Option<M>, View<M>> for GiveUp {
    ghost then = { yielded };
}

/// A held row is claimed, where it is Waiting: by `mine`.
pub struct Claim;

impl<M> Play<Option<M>, View<M>> for Claim {
    ghost then = { claimed };
}

/// Another row is joined with the claimed one, where it is Waiting: the claimed one is named by none yet, by `staged`.
pub struct Join;

impl<M> Play<Option<M>, View<M>> for Join {
    ghost then = { joined };
}

/// A claimed row is committed, as the row that it joined says: that row still says so, by `staged`.
pub struct Seal;

impl<M> Play<Option<M>, View<M>> for Seal {
    ghost then = { sealed };
}

/// A row is committed alone, where it is Waiting: whoever holds it, what lets it commit has been seen (`CanGrant`).
pub struct Give;

impl<M> Play<Option<M>, View<M>> for Give {
    ghost then = { granted };
}

/// A committed row is taken, where it is Synched: its machine is at home until then, by `at_home` of `Housed`.
pub struct Take;

impl<M: Resident> Play<Option<M>, View<M>> for Take {
    ghost then = { taken M.stands };
}

/// The word of a nack is read: what was seen of it before stays, by `bound`.
pub struct LookNack;

impl<M> Play<Option<M>, View<M>> for LookNack {
    ghost then = { looked_nack };
}

/// The word of a thread's life is read: what was seen of it before stays, by `started` and `ended`.
pub struct LookLife;

impl<M> Play<Option<M>, View<M>> for LookLife {
    ghost then = { looked_life };
}

/// The pass turns to a place at which it stands: of a thread it stands at one place at most, since all rows before it are
/// taken.
pub struct Stand;

impl<M> Play<Option<M>, View<M>> for Stand {
    ghost then = { turned_to };
}

/// A thread is started, where it had not been: nobody held its first row then, and no row of it was opened. Whoever
/// starts it holds that row.
pub struct Start;

impl<M> Play<Option<M>, View<M>> for Start {
    ghost then = { tried_start };
}

/// A thread is ended: nobody else stands at a place of it, and whoever does has not seen it end, so it has not, by `lasts`
/// and `lively`.
pub struct Finish;

impl<M> Play<Option<M>, View<M>> for Finish {
    ghost then = { finished };
}

/// A nack is bound to a held Fresh row, where it was not bound: whoever holds the row sees all that are bound to it, by
/// `binds`.
pub struct Bind;

impl<M: Resident> Play<Option<M>, View<M>> for Bind {
    ghost then = { tried_bind M.stands };
}

/// The first pass deals the rows of the next seat to a pass of their own: they are its to deal, by `undealt`.
pub struct Deal;

impl<M> Split<View<M>> for Deal {
    ghost left = { dealt_one };

    ghost right = { dealt_pass };
}

/// A pass tells what it has seen: the right part has seen it too, holds no row, and stands aside.
pub struct Tell;

impl<M> Split<View<M>> for Tell {
    ghost left = { λ v. v };

    ghost right = { told_pass };
}

/// A pass leaves the table: it makes no more steps, and the right part has its seat, and the steps that it made.
pub struct Leave;

impl<M> Split<View<M>> for Leave {
    ghost left = { left_pass };

    ghost right = { told_last };
}

impl<M> JoinSeats<View<M>> for Tell {
    ghost both = { heard_pass };

    ghost spent = { spent_pass };
}
