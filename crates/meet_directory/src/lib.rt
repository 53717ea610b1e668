//! The directory of who offers where. It has a word for each thread, which counts the rows that the thread has opened, and
//! a word for each side (a channel and a direction), with a bit for each thread that ever offered there. Words only grow.
//!
//! Whoever opens a row publishes it here, then looks for others: of two rows that were published and then looked for
//! others, one saw the other.
#![tactic(auto)]

mod directory;
mod plays;
mod steps;
mod view;

pub use crate::directory::{Directory, DirectoryPass, Law};
pub use crate::steps::{next_thread, one_saw_the_other};
pub use crate::view::{Glimpse, View};
