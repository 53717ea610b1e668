//! What a script can come to, who is stranded, who is left behind, who faults and what is printed, each as text.
//!
//! - `outcomes_text`: all that a script can come to, with the journal that leads to one outcome, or comes round
//!   (`listing.rt`). What is told is a function of what was found (`specs/Told.antt`).
//! - `outcomes_laws`: what that means of all runs. `asked_of`: what words ask for of the outcomes (`searching.rt`).
//! - `left_text`, `fault_text`, `printed_text`, `prints_text`: who can never end any more, who faults, and whether
//!   processes print values, with the journal that leads there (`left.rt`, `faults.rt`, `printed.rt`); `sought_laws`: what
//!   that means of all runs (`sought.rt`).
#![tactic(auto)]

mod asked;
mod ending;
mod faults;
mod finding;
mod left;
mod listing;
mod printed;
mod searching;
mod shown;
mod sought;
mod stranding;

pub use crate::faults::fault_text;
pub use crate::finding::Finding;
pub use crate::left::left_text;
pub use crate::listing::{OutcomesText, outcomes_laws, outcomes_text};
pub use crate::printed::{printed_text, prints_text};
pub use crate::searching::asked_of;
pub use crate::sought::{SoughtText, sought_laws};
