//! Where each process of a run stands: how it ended or what its open sync offers, at which line of the script's text,
//! and with which variables; and which processes wait for one another, at which lines.
//!
//! Who waits for whom is told by the offers that the text of a process writes: a channel that a variable holds is not
//! seen (`specs/Writing.antt`, `specs/Knots.antt`).
#![tactic(auto)]

mod edges;
mod knot;
mod laws;
mod parts;
mod results;
mod site;
mod stand;
mod trouble;
mod value;
mod walk;
mod walking;
mod writing;

pub use crate::knot::WaitGraph;
pub use crate::laws::stand_laws;
pub use crate::parts::process_texts;
pub use crate::site::{Site, is_open, offers_on, others, sites_at};
pub use crate::stand::Stand;
pub use crate::trouble::{Kind, Trouble};
pub use crate::writing::{WrittenOffer, same_side};
