//! A run over one table: workers that run a script's processes over the shared cells, and the headline: `run`.
#![tactic(auto)]

mod bound;
mod fault;
mod gate;
mod leaving;
mod running;
mod waits;
mod workers;

pub use crate::bound::{layout_for, offers_used, rows_each, rows_used};
pub use crate::fault::RunFault;
pub use crate::gate::{OpenGate, TurnsOnly};
pub use crate::running::{
    first_machines, later, run, run_gated, work, work_table, work_with_machines,
};
