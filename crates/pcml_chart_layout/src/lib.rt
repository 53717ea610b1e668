//! Where everything stands in a chart: the columns of the processes and their lines of life, the gaps between them,
//! as wide as the texts in them need, and the labels of the commits.
//!
//! - `Layout::new` reckons them once, and writes each label once.
//! - `Columns` are those of the processes alone, and `label_text` the label of a commit, for who lays out nothing.
//! - `Foot` is how a process stands, as the foot of its line of life tells it.
//! - No text crosses a line of life (`layout_laws`).
#![tactic(auto)]

mod columns;
mod foot;
mod label;
mod laws;
mod layout;
mod lines;
mod name;
mod places;
mod seen;
mod spot;
mod widths;

pub use crate::columns::Columns;
pub use crate::foot::{Foot, feet_of, offer_text, offers_of, stand_text};
pub use crate::label::label_text;
pub use crate::laws::layout_laws;
pub use crate::layout::Layout;
pub use crate::name::thread_name;
pub use crate::places::{bottom, height};
pub use crate::seen::{is_cut, push_seen};
pub use crate::spot::Spot;
