//! How a thread ends.

ghost use Rattle.std.specs.Prelude.{◌≡◌};
ghost use Rattle.thread.specs.Ends.{end_text, is_ended, is_spent, is_waiting};

use crate::Fault;

/// How a thread stands where a run leads.
#[derive(Clone, Copy, Debug, PartialEq, Eq)]
pub enum End {
    /// Its process came to an end.
    Ended,
    /// It offers a sync that was not committed.
    Waiting,
    /// It reached a sync, and made as many before as it may.
    Spent,
    /// It stopped at a fault.
    Faulted(Fault),
    /// No process that has started has spawned it.
    Unstarted,
}

impl End {
    /// Whether its process came to an end. One that faulted did not.
    pub fn is_ended(self) -> bool
        ensures { result ≡ is_ended self }
    {
        matches!(self, End::Ended)
    }

    /// Whether it offers a sync that was not committed. One that is spent offers none.
    pub fn is_waiting(self) -> bool
        ensures { result ≡ is_waiting self }
    {
        matches!(self, End::Waiting)
    }

    /// Whether it reached a sync, and made as many before as it may.
    pub fn is_spent(self) -> bool
        ensures { result ≡ is_spent self }
    {
        matches!(self, End::Spent)
    }

    /// The words for an end, as they stand in the line of a process.
    pub fn text(self) -> &'static str
        ensures { result.now ≡ end_text self }
    {
        match self {
            End::Ended => "ended",
            End::Waiting => "waiting",
            End::Spent => "spent",
            End::Faulted(Fault::Unset) => "faulted unset",
            End::Faulted(Fault::Kind) => "faulted kind",
            End::Faulted(Fault::Range) => "faulted range",
            End::Faulted(Fault::Shape) => "faulted shape",
            End::Unstarted => "unstarted",
        }
    }
}
