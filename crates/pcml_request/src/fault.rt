//! Why words are not understood.

ghost use Rattle.std.specs.Prelude.{◌≡◌};
ghost use Rattle.pcml_request.specs.declared.fault.WordsFault.TheVariants.{Memory};

use std::alloc::AllocError;

/// Why nothing is asked for.
#[derive(Debug, Drop)]
pub enum WordsFault {
    Memory,
    /// Words that are not understood, or a wish for help: what is to be said of it, in whole lines.
    NotUnderstood(String),
}

impl From<AllocError> for WordsFault {
    ghost from_gives = { λ _ fault. fault ≡ Memory };

    fn from(_error: AllocError) -> WordsFault {
        WordsFault::Memory
    }
}
