//! The values that the protocol speaks of, and the words in which the table keeps them.
#![tactic(auto)]

ghost use Rattle.std.specs.Prelude.{◌≡◌, ◌<◌};
ghost use Rattle.protocol_values.specs.Commits.{gives, message_by, order_of, stamp_of};
ghost use Rattle.protocol_values.specs.Equality.{IsEquality};
ghost use Rattle.protocol_values.specs.Values.{bases_meet, directions_meet, is_on, joined_of, next_row};
ghost use Rattle.protocol_values.specs.Scopes.{has_scope};

mod packing;

pub use packing::{
    is_word_for, pack_atom, pack_cell, pack_count, pack_course, pack_head, pack_nack, pack_offer,
    read_cell, read_head, read_offer, unpack_atom, unpack_cell, unpack_count, unpack_course,
    unpack_head, unpack_nack, unpack_offer,
};

/// What a message is made of, and what an offer is: two are equal by `==` exactly where they are the same.
pub fn equality_laws()
    ensures atoms { IsEquality ⟦<Atom as PartialEq>⟧.eq }
    ensures messages { IsEquality ⟦<Message as PartialEq>⟧.eq }
    ensures bases { IsEquality ⟦<Base as PartialEq>⟧.eq }
{}

/// A nack by its thread and its number in that thread, each 0 to 63.
#[derive(Clone, Copy, Debug, PartialEq, Eq)]
pub struct NackName {
    pub thread: u8,
    pub k: u8,
}

/// What a message is made of: a number, a channel or a nack.
#[derive(Clone, Copy, Debug, PartialEq, Eq)]
pub enum Atom {
    Num(u32),
    Chan(u8),
    Nack(NackName),
}

/// Up to three atoms, in order.
#[derive(Clone, Copy, Debug, PartialEq, Eq)]
pub enum Message {
    Empty,
    One(Atom),
    Two(Atom, Atom),
    Three(Atom, Atom, Atom),
}

/// A base event, as a sync offers it.
#[derive(Clone, Copy, Debug, PartialEq, Eq)]
pub enum Base {
    Send(u8, Message),
    Recv(u8),
    Always(Message),
    OnNack(NackName),
    /// The end of this thread, 0 to 63.
    OnEnd(u8),
    Never,
}

/// One of the two sides of a channel.
#[derive(Clone, Copy, Debug, PartialEq, Eq)]
pub enum Side {
    Sends,
    Receives,
}

impl Base {
    /// Whether these are a send and a receive on one channel.
    pub fn meets(self, other: Base) -> bool
        ensures { result ≡ bases_meet self other }
    {
        match (self, other) {
            (Base::Send(chan, _), Base::Recv(other)) | (Base::Recv(chan), Base::Send(other, _)) => {
                chan == other
            }
            _ => false,
        }
    }

    /// Whether it stands on this side of the channel.
    pub fn is_on(self, side: Side, chan: u8) -> bool
        ensures { result ≡ is_on side chan self }
    {
        match (side, self) {
            (Side::Sends, Base::Send(sent, _)) => sent == chan,
            (Side::Receives, Base::Recv(received)) => received == chan,
            _ => false,
        }
    }
}

/// One offer of a sync. Bit s of `scopes` is set where scope s of the sync encloses the offer;
/// scopes are 0 to 3.
#[derive(Clone, Copy, Debug, PartialEq, Eq)]
pub struct Offer {
    pub base: Base,
    pub scopes: u8,
}

impl Offer {
    /// Whether this scope of the sync, 0 to 7, encloses the offer.
    pub fn has_scope(&self, scope: u8) -> bool
        requires { scope < 8 }
        ensures { result ≡ has_scope self.now.scopes scope }
    {
        (self.scopes >> scope) % 2 == 1
    }
}

/// The offer of `never`, in no scope: what the unused places of a list in place hold.
impl Default for Offer {
    ghost use Rattle.protocol_values.specs.declared.Base.TheVariants.{Never};

    ghost is_default = { λ o. o ≡ record { base = Never; scopes = 0 } };

    fn default() -> Self {
        Offer {
            base: Base::Never,
            scopes: 0,
        }
    }
}

/// The most syncs that a thread of a journal makes: 65,535 tables of 1,024 rows.
pub const MOST_ROWS: u32 = 67_107_840;

/// One sync of a thread: thread 0 to 63, sync 0 to 1023 in a table and 0 to 67107839 in a journal.
#[derive(Clone, Copy, Debug, PartialEq, Eq)]
pub struct Row {
    pub thread: u8,
    pub sync: u32,
}

impl Row {
    /// The next row of the thread.
    pub fn next(self) -> Row
        requires { self.sync < 4294967295 }
        ensures { result ≡ next_row self }
    {
        Row {
            thread: self.thread,
            sync: self.sync + 1,
        }
    }
}

/// How a row was committed: its own offer, the row and the offer that it met (none where it was
/// committed alone), and the stamp, which is at least 1.
#[derive(Clone, Copy, Debug, PartialEq, Eq)]
pub struct Joined {
    pub own: u8,
    pub partner: Option<(Row, u8)>,
    pub stamp: u32,
}

/// The state of a row.
#[derive(Clone, Copy, Debug, PartialEq, Eq)]
pub enum Cell {
    Fresh,
    Waiting,
    Claimed,
    Synched(Joined),
    Taken(Joined),
}

impl Cell {
    /// How a row with this cell was committed.
    pub fn joined(self) -> Option<Joined>
        ensures { result ≡ joined_of self }
    {
        match self {
            Cell::Synched(joined) | Cell::Taken(joined) => Some(joined),
            Cell::Fresh | Cell::Waiting | Cell::Claimed => None,
        }
    }
}

/// What the head word of an offer says of its base event, without the atoms.
#[derive(Clone, Copy, Debug, PartialEq, Eq)]
pub enum Direction {
    Never,
    Send { chan: u8, atoms: u8 },
    Recv { chan: u8 },
    Always { atoms: u8 },
    OnNack(NackName),
    /// The end of this thread, 0 to 63.
    OnEnd(u8),
}

impl Direction {
    /// Whether these are a send and a receive on one channel.
    pub fn meets(self, other: Direction) -> bool
        ensures { result ≡ directions_meet self other }
    {
        match (self, other) {
            (Direction::Send { chan, .. }, Direction::Recv { chan: other })
            | (Direction::Recv { chan }, Direction::Send { chan: other, .. }) => chan == other,
            _ => false,
        }
    }
}

/// The head word of an offer: its direction and the scopes round it.
#[derive(Clone, Copy, Debug, PartialEq, Eq)]
pub struct Head {
    pub direction: Direction,
    pub scopes: u8,
}

/// Where a nack is bound: the sync of its thread, and the scope of that sync.
#[derive(Clone, Copy, Debug, PartialEq, Eq)]
pub struct Binding {
    pub sync: u16,
    pub scope: u8,
}

/// What the word of a nack says of it.
#[derive(Clone, Copy, Debug, PartialEq, Eq)]
pub enum NackWord {
    /// It is bound to no sync.
    Unbound,
    /// It is bound to a sync of this table.
    Bound(Binding),
    /// An earlier table settled it: it is enabled at this stamp, or never where the stamp is 0.
    Carried(u32),
}

/// Where a thread is on its course. A start stamp is the last stamp of the thread that started it when that
/// came to the `spawn`, and 0 of a thread that nobody has to start.
#[derive(Clone, Copy, Debug, PartialEq, Eq)]
pub enum Course {
    Unstarted,
    /// Started, at this stamp.
    Running(u32),
    /// Started at this stamp, and ended or faulted in place of this sync, 0 to 1024.
    Ended(u32, u16),
}

/// Why a row was committed alone.
#[derive(Clone, Copy, Debug, PartialEq, Eq)]
pub enum Cause {
    Always(Message),
    Nack(NackName),
    /// This thread has ended.
    End(u8),
}

impl Cause {
    /// What the row is given: an always gives its message, a nack and an end the empty one.
    pub fn message(self) -> Message
        ensures { result ≡ message_by self }
    {
        match self {
            Cause::Always(message) => message,
            Cause::Nack(_) | Cause::End(_) => Message::Empty,
        }
    }
}

/// What a commit gives one of its rows: the number of the offer that was taken, and the message.
#[derive(Clone, Copy, Debug, PartialEq, Eq)]
pub struct RowResult {
    pub at: (Row, u8),
    pub message: Message,
}

/// One rendezvous, or one commit that stands alone. A row goes with the number of its offer.
#[derive(Clone, Copy, Debug, PartialEq, Eq)]
pub enum Commit {
    Pair {
        sender: (Row, u8),
        receiver: (Row, u8),
        chan: u8,
        msg: Message,
        stamp: u32,
    },
    Alone {
        at: (Row, u8),
        cause: Cause,
        stamp: u32,
    },
}

impl Commit {
    /// Its stamp, which is at least 1.
    pub fn stamp(&self) -> u32
        ensures { result ≡ stamp_of self.now }
    {
        match self {
            Commit::Pair { stamp, .. } | Commit::Alone { stamp, .. } => *stamp,
        }
    }

    /// What the row that it names first is given, and of a pair what its receiver is given.
    pub fn gives(&self) -> (RowResult, Option<RowResult>)
        ensures { result ≡ gives self.now }
    {
        match *self {
            Commit::Pair {
                sender,
                receiver,
                msg,
                ..
            } => (
                RowResult {
                    at: sender,
                    message: Message::Empty,
                },
                Some(RowResult {
                    at: receiver,
                    message: msg,
                }),
            ),
            Commit::Alone { at, cause, .. } => (
                RowResult {
                    at,
                    message: cause.message(),
                },
                None,
            ),
        }
    }

    /// By what the commits of a journal are in order: the stamp, and the thread named first.
    pub fn order(&self) -> (u32, u8)
        ensures { result ≡ order_of self.now }
    {
        match self {
            Commit::Pair { sender, stamp, .. } => (*stamp, sender.0.thread),
            Commit::Alone { at, stamp, .. } => (*stamp, at.0.thread),
        }
    }
}

/// Who makes a step: one of 1 to 16 seats, numbered from 0.
#[derive(Clone, Copy, Debug, PartialEq, Eq)]
pub struct Seat(pub u8);

/// A step of the protocol. Places are those of a row's words: 0 the cell, 1 the number of offers,
/// 2 + 4n the head of offer n, and the three after it its atoms.
#[derive(Clone, Copy, Debug, PartialEq, Eq)]
pub enum Step {
    /// Writes one word of a row that is still Fresh.
    Draft {
        row: Row,
        place: u8,
        value: u64,
    },
    /// Makes a Fresh row Waiting: its offers stand from now on.
    Open {
        row: Row,
    },
    /// Reads a row's cell.
    Look {
        row: Row,
    },
    /// Reads another word of an opened row.
    Read {
        row: Row,
        place: u8,
    },
    /// Takes one's own waiting row out of the others' reach.
    Claim {
        row: Row,
    },
    /// Gives a claimed row back.
    Yield {
        row: Row,
    },
    /// Commits another thread's waiting row with one's own claimed row.
    Join {
        mine: Row,
        own: u8,
        other: Row,
        partner: u8,
    },
    /// Commits the claimed row with the row that was joined with it.
    Seal {
        row: Row,
    },
    /// Commits a waiting row alone, by its offer with this number.
    Grant {
        row: Row,
        offer: u8,
    },
    /// Takes a committed row: the seat holds the thread's next row from now on.
    Take {
        row: Row,
    },
    /// Binds nack k of the row's thread to the row's sync and one of its scopes.
    Bind {
        k: u8,
        row: Row,
        scope: u8,
    },
    /// Starts another thread from a row that is held; the seat holds that thread's row 0 from now on. The
    /// row's sync is 0 to 1024.
    Start {
        row: Row,
        thread: u8,
    },
    /// Ends the row's thread. The row's sync is 0 to 1024.
    Finish {
        row: Row,
    },
}
