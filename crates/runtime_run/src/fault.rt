//! Why a run gave no answer.

use runtime_worker::Halt;
use thiserror::Error;

/// Why `run` or `work` gave no answer. After a fault nothing of the run is kept, and no worker runs on.
#[derive(Clone, Copy, Debug, PartialEq, Eq, Error)]
pub enum RunFault {
    #[error("out of memory")]
    Memory,
    /// The number of workers is not 1 to 16.
    #[error("the number of workers is not 1 to 16")]
    Workers,
    /// The number of rows is not 1 to 1024.
    #[error("the number of rows is not 1 to 1024")]
    Rows,
    /// A worker could not be started.
    #[error("a worker could not be started")]
    NoWorker,
}

/// Of two reasons the one that is told: want of memory before a worker that could not be started.
pub(crate) fn told_first(before: Option<Halt>, halt: Halt) -> Halt {
    match (before, halt) {
        (Some(Halt::Memory), _) | (_, Halt::Memory) => Halt::Memory,
        (Some(Halt::NoWorker) | None, Halt::NoWorker) => Halt::NoWorker,
    }
}
