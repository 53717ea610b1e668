//! One worker of a run: the turns of threads over the shared cells, and what follows each of them.
#![tactic(auto)]

mod activity;
mod binding;
mod crew;
mod following;
mod gate;
mod halt;
mod kept;
mod nacks;
mod notes;
mod ranges;
mod resident;
mod turns;
mod worker;

pub use crate::activity::Activity;
pub use crate::crew::{Crew, Shared};
pub use crate::gate::Gate;
pub use crate::halt::Halt;
pub use crate::notes::Notes;
pub use crate::resident::{Rest, Suspended};
pub use crate::worker::{Leavings, Worked, Worker};
