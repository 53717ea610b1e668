//! The search for a row to meet, by the directory of who offers where, over the cells: it waits for nobody, and of two rows
//! whose offers meet one sees the other.
#![tactic(auto)]

mod found;
mod own;
mod scan;

pub use crate::found::Found;
pub use crate::own::{commit_alone, leave, own_directions, saw_committed};
pub use crate::scan::{nobody_is_left, publish, scan_offers, search_once};
