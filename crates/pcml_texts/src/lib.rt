//! The texts that need no running, from bytes, scripts and numbers: how large a script is, and of a journal where it
//! leads, its chart, why the processes stand there, what may come next, and how often each took part. No file's name and no word of a command line comes so far down, and a fault is one of the crate
//! whose work failed, or `ChartFault`.
#![tactic(auto)]

mod chart;
mod check;
mod next;
mod reach;
mod replay;
mod stats;
mod why;

pub use crate::chart::{ChartFault, chart_journal};
pub use crate::check::check_text;
pub use crate::next::next_journal;
pub use crate::replay::{Judged, Replayed, judge_journal, replay_laws, replay_text};
pub use crate::stats::stats_journal;
pub use crate::why::{faults_standing, why_journal, why_standing};
