//! A process as flat code: each place of its blocks by a number, and for each sync a plan of what is
//! done to resolve its event.
//!
//! The tree of the process stays, and its expressions are evaluated where they stand in it. The code
//! is an index of the tree: it says where each block goes on, so that whoever runs it keeps numbers
//! and no parts of the tree.
#![tactic(auto)]

mod compiling;

pub use compiling::compile;
use script_tree::{Block, Event, Names};
use std::sync::Arc;

/// A place in a process: what is left of a block there, and where it leads.
#[derive(Drop)]
pub struct Place {
    pub block: Arc<Block>,
    /// The place behind the first statement.
    pub next: u32,
    /// The place of a branch's first block, or the number of the plan of a sync or of a loop's sync.
    pub first: u32,
    /// The place of a branch's second block.
    pub second: u32,
}

/// A part of what is done to resolve an event.
#[derive(Drop)]
pub enum Stage {
    /// The base event is evaluated, and offered in the scopes of this mask.
    Offer(Arc<Event>, u8),
    /// The block of a guard or a nack runs.
    Body(u32),
    /// The thread's next nack is made, and set to this variable.
    Nack(usize),
}

/// What a sync does.
#[derive(Drop)]
pub struct Plan {
    pub names: Option<Names>,
    pub event: Arc<Event>,
    pub stages: Vec<Stage>,
    /// The place behind the sync.
    pub then: u32,
    /// The line at which the sync begins.
    pub line: u32,
}

/// The code of a process.
#[derive(Drop)]
pub struct Code {
    pub places: Vec<Place>,
    pub plans: Vec<Plan>,
    /// The place where the process begins.
    pub start: u32,
}
