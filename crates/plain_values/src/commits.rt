//! Rows, and how they were committed.

ghost use Rattle.std.specs.Prelude.{◌≡◌};
ghost use Rattle.protocol_values.specs.declared.Commit.TheVariants.{Alone};
ghost use Rattle.plain_values.specs.Plain.{IsCommit, IsJoined, plain_row, row_in};

use crate::values::{PlainMessage, number_of};
use protocol_values::{Cause, Commit, Joined, Message, Row};

/// A sync of a thread.
#[repr(C)]
#[derive(Clone, Copy, Debug, Drop)]
pub struct PlainRow {
    pub thread: u32,
    pub sync: u32,
}

/// How a row was committed: by which offer, at which stamp, and with which offer of which row, where `paired` is 1.
#[repr(C)]
#[derive(Clone, Copy, Debug, Drop)]
pub struct PlainJoined {
    pub own: u32,
    pub stamp: u32,
    pub paired: u32,
    pub partner: PlainRow,
    pub theirs: u32,
}

/// One commit: kind 0 a pair, 1 an always, 2 a nack, 3 an end. `of` is the channel, the nack or the thread. A row that
/// was committed alone stands in both places.
#[repr(C)]
#[derive(Clone, Copy, Debug, Drop)]
pub struct PlainCommit {
    pub kind: u32,
    pub stamp: u32,
    pub sender: PlainRow,
    pub receiver: PlainRow,
    pub sent: u32,
    pub received: u32,
    pub of: u32,
    pub message: PlainMessage,
}

impl PlainRow {
    /// The row. A thread above 255 is as thread 255: no table has either.
    pub fn read(self) -> Row
        ensures { result ≡ row_in self }
    {
        Row {
            thread: self.thread.min(255) as u8,
            sync: self.sync,
        }
    }

    pub fn of(row: Row) -> PlainRow
        ensures { result ≡ plain_row row }
    {
        PlainRow {
            thread: u32::from(row.thread),
            sync: row.sync,
        }
    }
}

impl PlainJoined {
    /// Of a row that was committed alone the partner is row 0 of thread 0.
    pub fn of(joined: Joined) -> PlainJoined
        ensures { IsJoined result joined }
    {
        let (paired, row, theirs) = match joined.partner {
            Some((row, theirs)) => (1, row, u32::from(theirs)),
            None => (0, Row { thread: 0, sync: 0 }, 0),
        };
        PlainJoined {
            own: u32::from(joined.own),
            stamp: joined.stamp,
            paired,
            partner: PlainRow::of(row),
            theirs,
        }
    }
}

impl PlainCommit {
    pub fn of(commit: Commit) -> PlainCommit
        ensures { IsCommit result commit }
    {
        match commit {
            Commit::Pair {
                sender,
                receiver,
                chan,
                msg,
                stamp,
            } => PlainCommit {
                kind: 0,
                stamp,
                sender: PlainRow::of(sender.0),
                receiver: PlainRow::of(receiver.0),
                sent: u32::from(sender.1),
                received: u32::from(receiver.1),
                of: u32::from(chan),
                message: PlainMessage::of(msg),
            },
            Commit::Alone { at, cause, stamp } => PlainCommit::alone(at, cause, stamp),
        }
    }

    fn alone(at: (Row, u8), cause: Cause, stamp: u32) -> PlainCommit
        ensures { IsCommit result (Alone at cause stamp) }
    {
        let (kind, of, message) = match cause {
            Cause::Always(message) => (1, 0, message),
            Cause::Nack(nack) => (2, number_of(nack), Message::Empty),
            Cause::End(thread) => (3, u32::from(thread), Message::Empty),
        };
        let row = PlainRow::of(at.0);
        let offer = u32::from(at.1);
        PlainCommit {
            kind,
            stamp,
            sender: row,
            receiver: row,
            sent: offer,
            received: offer,
            of,
            message: PlainMessage::of(message),
        }
    }
}
