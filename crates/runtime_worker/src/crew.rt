//! What all workers of a run work with. What they do with it stands in the order of a run: `worker` is what each of them
//! does, `turns` one turn of a thread, and `following` what is behind a commit.

use crate::activity::Activity;
use crate::notes::Notes;
use crate::resident::Suspended;
use cell::Cells;
use meet::Meet;
use meet_queues::Ready;
use std::alloc::Global;

/// What all workers share, beside the cells.
#[derive(Drop)]
pub struct Shared {
    pub alloc: Global,
    pub meet: Meet,
    pub ready: Ready,
    pub activity: Activity,
    pub notes: Notes,
}

/// The workers of a run, as one of them sees all: the runtime, the table, what they share beside it, the gate that they
/// call, and how many threads the run has.
#[derive(Drop)]
pub struct Crew<'a, R, G> {
    pub rt: &'a R,
    pub cells: &'a Cells<Suspended>,
    pub shared: &'a Shared,
    pub gate: &'a G,
    pub threads: u8,
}
