//! Why a run stands where it does: of each process that waits, the line of its sync and its offers, and with
//! whom each of them could meet; of one that faulted, where and why; of one that is spent, where; of one that has
//! not started, that. Where no commit may come next, those that wait for one another are named together.
//!
//! What is told is a function of how the processes stand and of the script's text (`specs/Whys.antt`).
#![tactic(auto)]

mod faults;
mod served;
mod text;
mod variables;

pub use crate::faults::faults_text;
pub use crate::text::why_text;
