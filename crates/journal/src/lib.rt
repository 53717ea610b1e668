//! Journals: commits, of a ledger or of several, led on to the end of their run and put in order.
//!
//! Proved:
//! - `complete` is Ok exactly where the ledger's commits, in order, are a run of the processes, want of
//!   memory aside, and else names the first commit with which they are none. The record's journal has
//!   them and those of the tail, is in order, a run, and maximal; the ends and what was printed are those
//!   to which it leads.
//! - `conclude` makes such a record of a ledger of processes by the machines that made it, without a replay, and
//!   `conclude_run` of any run of which an opening tells; `retrace_run` makes it of a run of which nothing else is known.
//! - `received_from` gives the messages of the pairs on a channel with one sender, in their order. Of a
//!   run these are what the receivers got, and what the sender sent, in its own order
//!   (`journal_order::message_laws`); of a record this is told by `complete`.
//!
//! What replays and settles, and what it answers, is passed on from `journal_replay`. The text of a journal is
//! read and written by `journal_text`.
#![tactic(auto)]

mod concluding;
mod messages;
mod record;

pub use crate::concluding::{conclude, conclude_run, retrace_run};
pub use crate::messages::received_from;
pub use crate::record::{Record, complete};
