//! Tables of words, and the ledgers of commits that they name.
#![tactic(auto)]

mod commits;
mod layout;
mod ledger;
mod opening;
mod reached;
mod resident;
mod sheet;
mod stamps;

pub use crate::layout::{Layout, Starts};
pub use crate::ledger::Ledger;
pub use crate::opening::{Life, NackState, Opening};
pub use crate::resident::{Bare, Resident};
pub use crate::sheet::{
    LIVES, NACKS, OFFERS, ROW_LEN, Sheet, next_words, start_of, start_words, waits,
};
