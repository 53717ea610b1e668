//! A table's size, and what a pass has seen. No value of `Stage`, `Seen` or `View` is made: contracts
//! alone read them.

use protocol_ledger::{Layout, Life, NackState, Opening};
use protocol_values::{Binding, Joined, Message, NackName, Row, Step};
use std::collections::LinkedList;
use std::snapshot::Snapshot;

/// How large a table is, from what it goes on, and what stood for its threads at first.
#[derive(Drop)]
pub struct Shape<M> {
    pub threads: u64,
    pub rows: u64,
    /// For how many offers a row has room, and for how many rows each thread has words.
    pub layout: Layout,
    pub passes: u64,
    /// Which threads run, wait to be started or have ended, with their stamps, and the nacks that were settled.
    pub opening: Snapshot<Opening>,
    /// Thread by thread; an empty list where nothing stands for them.
    pub first: Snapshot<Vec<Option<M>>>,
}

/// Where a call is between two steps.
#[derive(Debug, Drop)]
pub enum Stage {
    Resting,
    /// It has claimed the row.
    Claims(Row),
    /// It has claimed the first row, and joined the second so.
    Joins(Row, Row, Joined),
    /// The pass makes no steps: it deals the rows, or is what one pass tells another.
    Aside,
    /// The pass has left the table: it makes no more steps.
    Left,
}

/// What a pass has seen. It only grows, but for the drafts of a held row that is not opened yet.
#[derive(Debug, Drop)]
pub struct Seen {
    /// The rows that the pass holds. Those that it did not see opened are Fresh.
    pub held: LinkedList<Row>,
    /// The words that it drafted: of a row, at a place.
    pub drafts: LinkedList<(Row, u8, u64)>,
    /// The rows that it saw opened.
    pub opened: LinkedList<Row>,
    /// The words of opened rows that it read.
    pub words: LinkedList<(Row, u8, u64)>,
    /// The rows that it saw committed, and how.
    pub joined: LinkedList<(Row, Joined)>,
    /// The rows that it saw taken.
    pub taken: LinkedList<Row>,
    /// The nacks that it bound or saw bound, and where.
    pub bound: LinkedList<(NackName, Binding)>,
    /// The nacks that it saw carried, and their stamps.
    pub carried: LinkedList<(NackName, u32)>,
    /// The first rows of threads whose first value it fetched.
    pub begun: LinkedList<Row>,
    /// The threads behind whose last row it stands: it took that row, and there is none behind it.
    pub lasts: LinkedList<u8>,
    /// The threads that it saw started, and the stamps of their starts.
    pub started: LinkedList<(u8, u32)>,
    /// The threads that it saw ended, and the syncs at which they did.
    pub ended: LinkedList<(u8, u16)>,
}

/// What the table's rule knows of a pass.
#[derive(Debug, Drop)]
pub struct View<M> {
    /// The table's size.
    pub threads: u64,
    pub rows: u64,
    pub layout: Layout,
    pub passes: u64,
    /// The opening's threads and nacks.
    pub lives: LinkedList<(Life, u32)>,
    pub nacks: LinkedList<NackState>,
    /// The values that stood for the threads at first, thread by thread; an empty list where none stand for them.
    pub first: LinkedList<Option<M>>,
    /// The results of threads that the pass has seen: of each, those of its first rows.
    pub results: LinkedList<(u8, LinkedList<(u8, Message)>)>,
    /// The seats below this one have their rows already; this pass deals the others.
    pub dealt: u64,
    /// The seat of the protocol that makes this pass's steps.
    pub seat: u8,
    pub stage: Stage,
    /// The place from which it starts threads, once it has turned to one.
    pub from: Row,
    pub seen: Seen,
    /// The steps of the protocol that the pass has made, the last one first.
    pub made: LinkedList<Step>,
    /// Of the passes that left the table to this one: their seats, and the steps that they made.
    pub gathered: LinkedList<(u8, LinkedList<Step>)>,
}
