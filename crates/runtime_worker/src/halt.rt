//! Why workers stop before their end.

ghost use Rattle.std.specs.Prelude.{◌≡◌};
ghost use Rattle.runtime_worker.specs.declared.halt.Halt.TheVariants.{Memory};

use std::alloc::{AllocError, AllocFailed};

/// Why the workers stopped before their end.
#[derive(Clone, Copy, Debug, Drop)]
pub enum Halt {
    Memory,
    NoWorker,
}

impl From<AllocError> for Halt {
    ghost from_gives = { λ _ halt. halt ≡ Memory };

    fn from(_error: AllocError) -> Halt {
        Halt::Memory
    }
}

impl<T: Drop> From<AllocFailed<T>> for Halt {
    ghost from_gives = { λ _ halt. halt ≡ Memory };

    fn from(_error: AllocFailed<T>) -> Halt {
        Halt::Memory
    }
}
