//! The files of the program: where a script, a schedule or a journal is read, where a journal is kept, and
//! the output that an answer is written to.
#![tactic(auto)]

mod output;
mod place;
mod source;
mod system;

pub use crate::output::{Unwritten, emit};
pub use crate::source::{MOST_BYTES, Source, SourceFault};
pub use crate::system::SystemFiles;
