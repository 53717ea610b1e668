//! Why a text is no script.

use thiserror::Error;

/// Why a text could not be read as a script, with the line, from 1. A text that is too long is told as that.
/// Of all other faults of a text the one at the earliest token is told, and of two at one token the one that
/// stands first here. Want of memory may be told of any text.
#[derive(Clone, Copy, Debug, PartialEq, Eq, Error)]
pub enum ScriptFault {
    #[error("out of memory")]
    Memory,
    /// The grammar does not allow the token there, or the text ends too early.
    #[error("line {0}: not of the grammar")]
    Syntax(usize),
    /// A name that is read is neither a declared channel nor bound before in its process; or, where a
    /// process is named, it is that of none whose block has ended before.
    #[error("line {0}: the name is unknown")]
    UnknownName(usize),
    /// A name is declared or bound that stands for something else, or twice in one list; or a process is
    /// spawned a second time.
    #[error("line {0}: the name stands for something already")]
    Twice(usize),
    /// More than the limits allow.
    #[error("line {0}: too many")]
    TooMany(usize),
    /// The body of a loop, whose word stands on the line, does not begin with a sync.
    #[error("line {0}: the loop does not begin with a sync")]
    LoopWithoutSync(usize),
    /// The text has more than 65,536 bytes. This fault comes before all those with a line.
    #[error("the text is too long")]
    TooLong,
}
