//! Why reading stops.

ghost use Rattle.std.specs.Prelude.{◌≡◌};
ghost use Rattle.script_reader.specs.declared.fault.Stop.TheVariants.{Memory, At};

use std::alloc::{AllocError, AllocFailed};

/// What is wrong at a token. Of two problems at one token the one that stands first here is told.
#[derive(Clone, Copy, Debug, PartialEq, Eq)]
pub enum Problem {
    /// The grammar does not allow the token there, or the text ends too early.
    Syntax,
    /// A name that is read is neither a declared channel nor bound before in its process; or, where a
    /// process is named, it is that of none whose block has ended before.
    UnknownName,
    /// A name is declared or bound that stands for something else, or twice in one list; or a process is
    /// spawned a second time.
    Twice,
    /// More than the limits allow.
    TooMany,
    /// The body of a loop does not begin with a sync.
    LoopWithoutSync,
}

/// What is wrong, and how many tokens are left from where it is told.
#[derive(Clone, Copy, Debug, PartialEq, Eq)]
pub struct Fault {
    pub problem: Problem,
    pub left: usize,
}

/// Why a reader that asks for memory stopped: at a token, or because memory was refused. A reader that asks
/// for none has a `Fault` as its error.
#[derive(Clone, Copy, Debug, PartialEq, Eq)]
pub enum Stop {
    Memory,
    At(Fault),
}

impl From<Fault> for Stop {
    ghost from_gives = { λ fault stop. stop ≡ At fault };

    fn from(fault: Fault) -> Stop {
        Stop::At(fault)
    }
}

impl From<AllocError> for Stop {
    ghost from_gives = { λ _ stop. stop ≡ Memory };

    fn from(_error: AllocError) -> Stop {
        Stop::Memory
    }
}

impl<T: Drop> From<AllocFailed<T>> for Stop {
    ghost from_gives = { λ _ stop. stop ≡ Memory };

    fn from(_error: AllocFailed<T>) -> Stop {
        Stop::Memory
    }
}
