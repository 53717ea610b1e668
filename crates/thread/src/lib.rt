//! Suspended machines: a process runs from one sync to the next.
#![tactic(auto)]

ghost use denote.Param.Send.{IsSend};
ghost use Rattle.std.specs.Prelude.{◌<◌, ◌≤◌};
ghost use Rattle.script_tree.specs.Limits.{BlockIsIn, Known};
ghost use Rattle.script_tree.specs.Trees.{block_of};
ghost use Rattle.thread.specs.Machines.{IsAfter, Thread, offers_in};
ghost use Rattle.thread.specs.Printing.{DoesBehind};
ghost use Rattle.thread.specs.Ranges.{OffersAreIn, ResultsAreIn};
ghost use Rattle.thread.specs.contracts.machine.Machine as machine;

mod branch;
mod commit;
mod counted;
mod end;
mod hashing;
mod holding;
pub mod log;
mod machine;
mod memory;
mod needs;
mod resolving;
mod results;
mod stack;
mod statement;
mod value;

pub use branch::Branch;
pub use end::End;
pub use machine::{Machine, Turn};

/// Whatever a machine offers names only nacks and threads that the words have room for, if its results
/// and its text do.
pub fn offers_are_in_range()
    ensures { (m : Thread) (k : Known) → IsAfter m → m.thread < 64 → k.processes ≤ 64 → BlockIsIn k (block_of m.body) → ResultsAreIn m.results → OffersAreIn (offers_in m.phase) }
{}

/// What was printed before stands in front of what a process prints, and changes nothing else.
pub fn printing_law()
    ensures { DoesBehind }
{}

/// A machine may be moved to another thread.
pub fn machines_cross_threads()
    ensures { IsSend machine.the_row }
{}

/// Why a thread stopped before the end of its process.
#[derive(Clone, Copy, Debug, PartialEq, Eq)]
pub enum Fault {
    /// A variable was read before it was set.
    Unset = 1,
    /// A value was of another kind than is wanted there.
    Kind = 2,
    /// A number was below 0 or above 4294967295, or a 65th nack was to be made.
    Range = 3,
    /// A message had more atoms than there were names for it, or fewer.
    Shape = 4,
}
