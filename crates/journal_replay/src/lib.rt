//! Sequential CML: lists of commits, replayed by suspended machines.
//!
//! Proved:
//! - `replay` is Ok exactly where the commits are a run of the processes, want of memory aside, and else
//!   names the first commit with which they are none.
//! - A process that some text spawns takes part from where its spawner, once started, first spawned it.
//! - `State::next_commits` lists the commits that may come next, each of them and no other.
//! - `gather` stands where a run leads, by machines that have gone part of it, and `retrace` by none.
#![tactic(auto)]

mod gathering;
mod nexts;
mod open_offers;
mod part;
mod placed;
mod runs;
mod search;
mod state;
mod threads;
mod waiters;

pub use crate::gathering::{gather, retrace};
pub use crate::part::takes_part;
pub use crate::placed::is_placed;
pub use crate::runs::{replay, replay_lawful, restamp, settle};
pub use crate::state::{ReplayFault, State};
pub use crate::threads::spawners;
