//! A row of the second reading: how far it is; and what words say.

use protocol_values::{Atom, Message, NackName, Row};

/// The bits of an offer's head that hold the channel, the nack, the thread, the number of atoms and the
/// scopes.
const CHANNEL: u64 = 0x7f8;

const NACK: u64 = 0x7f_f800;

const THREAD: u64 = 0x1_f800;

const ATOMS: u64 = 0x180_0000;

const SCOPES: u64 = 0x1e00_0000;

#[derive(Clone, Copy, PartialEq, Eq)]
pub(crate) enum Stage {
    Fresh,
    Waiting,
    Claimed,
    Synched,
    Taken,
}

/// What an offer waits for.
#[derive(Clone, Copy)]
pub(crate) enum Way {
    Never,
    Send(u8),
    Recv(u8),
    Always,
    OnNack(NackName),
    OnEnd(u8),
}

/// How far a row is, and with whom.
#[derive(Clone, Copy)]
pub(crate) struct PlainRow {
    pub(crate) row: Row,
    pub(crate) holder: Option<u8>,
    pub(crate) stage: Stage,
    pub(crate) own: u8,
    pub(crate) partner: Option<(Row, u8)>,
    pub(crate) stamp: u32,
}

impl PlainRow {
    pub(crate) fn is_committed(&self) -> bool {
        self.stage == Stage::Synched || self.stage == Stage::Taken
    }
}

pub(crate) fn fresh_row(thread: u8, sync: u32, holder: Option<u8>) -> PlainRow {
    PlainRow {
        row: Row { thread, sync },
        holder,
        stage: Stage::Fresh,
        own: 0,
        partner: None,
        stamp: 0,
    }
}

pub(crate) fn do_meet(own: Option<Way>, other: Option<Way>) -> bool {
    match (own, other) {
        (Some(Way::Send(sent)), Some(Way::Recv(received))) => sent == received,
        (Some(Way::Recv(received)), Some(Way::Send(sent))) => sent == received,
        _ => false,
    }
}

pub(crate) fn scope_bit(scope: u8) -> u64 {
    match scope {
        0 => 0x200_0000,
        1 => 0x400_0000,
        2 => 0x800_0000,
        _ => 0x1000_0000,
    }
}

/// Whether the word may stand at this place, from 1 on, of a row.
pub(crate) fn is_word(place: u8, word: u64) -> bool {
    match place {
        1 => word <= 8,
        2 | 6 | 10 | 14 | 18 | 22 | 26 | 30 => is_head(word),
        _ => is_atom(word),
    }
}

/// Only the bits that its direction uses may be set in a head.
fn is_head(word: u64) -> bool {
    let used = match word & 7 {
        0 => 0,
        1 => CHANNEL | ATOMS,
        2 => CHANNEL,
        3 => ATOMS,
        4 => NACK,
        5 => THREAD,
        _ => return false,
    };
    let all = 7 | used | SCOPES;
    word | all == all
}

fn is_atom(word: u64) -> bool {
    match word & 3 {
        0 => word <= 0x3_ffff_ffff,
        1 => word <= 0x3ff,
        2 => word <= 0x3fff,
        _ => false,
    }
}

pub(crate) fn way_of(head: u64) -> Way {
    let chan = ((head >> 3) & 255) as u8;
    match head & 7 {
        1 => Way::Send(chan),
        2 => Way::Recv(chan),
        3 => Way::Always,
        4 => Way::OnNack(NackName {
            thread: ((head >> 11) & 63) as u8,
            k: ((head >> 17) & 63) as u8,
        }),
        5 => Way::OnEnd(((head >> 11) & 63) as u8),
        _ => Way::Never,
    }
}

/// What the atoms of an offer with this head say.
pub(crate) fn message_of(head: u64, first: u64, second: u64, third: u64) -> Message {
    match (head & ATOMS) >> 23 {
        0 => Message::Empty,
        1 => Message::One(atom_of(first)),
        2 => Message::Two(atom_of(first), atom_of(second)),
        _ => Message::Three(atom_of(first), atom_of(second), atom_of(third)),
    }
}

fn atom_of(word: u64) -> Atom {
    match word & 3 {
        0 => Atom::Num(((word >> 2) & 0xffff_ffff) as u32),
        1 => Atom::Chan(((word >> 2) & 255) as u8),
        _ => Atom::Nack(NackName {
            thread: ((word >> 8) & 63) as u8,
            k: ((word >> 2) & 63) as u8,
        }),
    }
}
