//! A journal as a picture: a message sequence chart, as SVG text, or as the text of a Mermaid diagram.
//!
//! - `chart_text` draws the commits of a range of stamps between the lines of life of their processes.
//! - A process has a column of its own, or shares one with others; the columns are as wide as their labels need
//!   (`pcml_chart_layout`).
//! - What it draws is a function of the commits, of where they lead, and of the names of the script
//!   (`specs/Chart.antt`). `mermaid_text` tells the same by the same words (`specs/Mermaid.antt`).
#![tactic(auto)]

mod chart;
mod foot;
mod frame;
mod mark;
mod mermaid;
mod range;
mod row;
mod text;

pub use crate::chart::{chart_laws, chart_text};
pub use crate::mermaid::mermaid_text;
