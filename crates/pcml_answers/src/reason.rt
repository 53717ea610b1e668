//! Reasons.

ghost use Rattle.pcml_answers.specs.Reasons.{ReasonRefuses};

use protocol_values::{Base, NackName, Row};

/// Why a commit may not come next: one part of the rule that does not hold of it.
#[derive(Clone, Copy, Debug, PartialEq, Eq)]
pub enum Reason {
    /// Both its rows are of this thread.
    OneThread(u8),
    /// Its thread has not started.
    Unstarted(u8),
    /// Its thread has ended.
    Ended(u8),
    /// Its thread has faulted.
    Faulted(u8),
    /// Its thread has made as many syncs as it may.
    Spent(u8),
    /// Its row is not the next sync of the thread: that one has this number.
    Sync {
        row: Row,
        next: usize,
    },
    /// Its row is the next sync of the thread, which has so many offers, and none of this number.
    NoOffer {
        at: (Row, u8),
        count: usize,
    },
    /// Its row is the next sync of the thread, which offers one thing under this number, where the commit needs
    /// another.
    OtherOffer {
        at: (Row, u8),
        offered: Base,
        needed: Base,
    },
    /// The nack that it stands for is not enabled.
    NotFired(NackName),
    /// The thread whose end it stands for has not ended.
    NotEnded(u8),
    /// It may come next with this stamp, and has another.
    Stamp(u32),
}

/// Whatever is a reason, where there is one the commit may not come next.
pub fn reason_law()
    ensures { ReasonRefuses }
{}
