//! The shared cells: the protocol's steps, made by threads on atomic words.
//!
//! The words and their rule are `cell_table`'s, and so are the atomic steps. The calls here make several of them.
#![tactic(auto)]

mod attempt;
mod cells;
mod closing;
mod drafting;
mod granting;
mod lives;
mod nacks;
mod reading;
mod rows;
mod taking;

pub use crate::attempt::{Attempt, CLAIM, JOIN, NoGate, SEAL, StepGate, YIELD};
pub use crate::cells::{Cells, Pass};
pub use crate::granting::Grant;
