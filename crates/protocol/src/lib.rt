//! The protocol as a pure machine: worlds, the steps and schedules that they play, and schedules as text.
#![tactic(auto)]

ghost use Rattle.protocol_ledger.specs.Growing.{CommitsStay, SchedulesAreLawful, TablesGrow};
ghost use Rattle.protocol_ledger.specs.Ledgers.{IsLawful, ledger_of};
ghost use Rattle.protocol_ledger.specs.Openings.{Begins, IsOpening, start_opening};
ghost use Rattle.protocol_ledger.specs.Standing.{HaveResults, OneResults};
ghost use Rattle.protocol_ledger.specs.Worlds.{Plays, IsRefused, start_world, World};
ghost use Rattle.protocol_values.specs.declared.Step.{Step};
ghost use Rattle.protocol_values.specs.declared.Seat.{Seat};
ghost use Rattle.std.specs.Prelude.{◌≡◌, ℕ, ◌≤◌, List};

mod line;
mod schedule;
mod state;
mod world;

pub use crate::schedule::{ReadFault, Schedule, Size, read_schedule, schedule_text_laws};
pub use crate::world::{World, play};
use protocol_values::{Seat, Step};
use thiserror::Error;

/// What starting or playing a world can refuse.
#[derive(Clone, Copy, Debug, PartialEq, Eq, Error)]
pub enum ProtoFault {
    /// No memory was left.
    #[error("out of memory")]
    Memory,
    /// The step with this number, from 0, was not allowed.
    #[error("step {0} is not allowed")]
    NotAllowed(usize),
}

/// Whatever steps are allowed in turn, the ledger of the words is lawful: from any opening from which a table can
/// go on. A first table goes on from one in which threads wait or run with no stamp, and no nack is bound.
pub fn every_schedule_is_lawful()
    ensures lawful { SchedulesAreLawful }
    ensures at_first { (threads rows seats later : ℕ) (steps : List (Seat × Step)) (w : World)
        → threads ≤ 64
        → rows ≤ 1024
        → Plays (start_world threads rows seats later) steps w
        → IsLawful (ledger_of w.table) }
    ensures opens { (threads rows later : ℕ)
        → 1 ≤ threads
        → threads ≤ 64
        → rows ≤ 1024
        → IsOpening (start_opening threads later) rows }
    ensures starts { (threads rows seats later : ℕ)
        → Begins (start_opening threads later) rows seats (start_world threads rows seats later) }
{}

/// A schedule leads to one world, or is refused at one step, and never both.
pub fn one_answer()
    ensures one_world { (start u v : World) (steps : List (Seat × Step)) → Plays start steps u → Plays start steps v → u ≡ v }
    ensures not_both { (start v : World) (steps : List (Seat × Step)) (index : ℕ)
        → Plays start steps v
        → IsRefused start steps index
        → ⊥ }
    ensures one_step { (start : World) (steps : List (Seat × Step)) (i j : ℕ)
        → IsRefused start steps i
        → IsRefused start steps j
        → i ≡ j }
{}

/// However a schedule goes on, what is opened, committed and bound stays so: the offers of an opened row, the way
/// in which a row is committed, each commit of the ledger, and the row to which a nack is bound. To a row that
/// is opened no nack is bound any more.
pub fn what_is_committed_stays()
    ensures tables { TablesGrow }
    ensures commits { CommitsStay }
{}

/// A row that is in a commit of a lawful ledger has its thread's results up to it, one for each row, and as many
/// results of a thread are the same ones: the number of the offer that each row took, and the message it got.
pub fn results_of_rows()
    ensures there { HaveResults }
    ensures one { OneResults }
{}
