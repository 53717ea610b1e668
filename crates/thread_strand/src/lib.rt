//! A process as a thread of a run, which goes on result by result.
#![tactic(auto)]

mod fired;
mod strand;

pub use crate::fired::Fired;
pub use crate::strand::{Known, Strand};
