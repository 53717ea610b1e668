//! The program as a library: `command` does what the words of a command line ask for, over any files and any
//! two streams. The text of each request is made by a call of its own, from bytes and scripts, in a module of the
//! request's name (`meeting` for `meet`): which words ask for it, and from which files the bytes come, only
//! `program` and `from_files` know.
#![tactic(auto)]

mod answer;
mod behind;
mod explain;
mod fault;
mod from_files;
mod meeting;
mod play;
mod program;
mod run;
mod searching;
mod seeking;
mod version;

pub use crate::explain::explain_text;
pub use crate::fault::Fault;
pub use crate::meeting::{MeetFault, meet_text};
pub use crate::play::{PlayFault, play_laws, play_text};
pub use crate::program::{BAD_WORDS, command, tell};
pub use crate::run::{RunText, run_parts, run_seasons_parts, seasons_law};
pub use crate::version::version_text;
