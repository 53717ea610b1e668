//! Runs of a script over the shared cells: the headline, `run`, which `runtime_run` has, and runs in seasons.
#![tactic(auto)]

mod between;
mod season;
mod seasons;

pub use crate::seasons::{SeasonFault, run_seasons, run_seasons_gated};
