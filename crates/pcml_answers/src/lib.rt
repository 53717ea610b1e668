//! Answers to what is asked of a script and of its journals, each as a text or as what the text tells.
//!
//! - `named_processes`, `named_or_all`: which processes names stand for (`need.rt`); `named_print`, `named_prints`: which
//!   process and value (`prints.rt`).
//! - `stats_text`: how often each process and channel took part in a journal (`stats.rt`).
//! - `find_reason`, `push_reason`: why a commit may not come next (`unlawful.rt`). Where a reason holds of a commit it may
//!   not come next (`reason_law`).
//! - `next_text`: the commits that may come next where a run led (`coming.rt`).
//! - `push_name`, `push_process`, `standing_lines`: lines of processes, behind a run and behind a journal too
//!   (`processes.rt`).
#![tactic(auto)]

mod coming;
mod counts;
mod need;
mod prints;
mod processes;
mod reason;
mod stats;
mod stats_lines;
mod tallying;
mod unlawful;
mod unlawful_row;
mod unlawful_text;

pub use crate::coming::next_text;
pub use crate::need::{NamesFault, named_or_all, named_processes};
pub use crate::prints::{Print, PrintsFault, named_print, named_prints};
pub use crate::processes::{push_name, push_process, standing_lines};
pub use crate::reason::{Reason, reason_law};
pub use crate::stats::{stats_laws, stats_text};
pub use crate::unlawful::find_reason;
pub use crate::unlawful_text::push_reason;
