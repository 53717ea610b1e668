//! A select engine for Concurrent ML's events: which syncs wait, and which may be answered.
//!
//! It is plain data, to stand behind one lock. Nobody who could meet is left waiting.
#![tactic(auto)]

mod calls;
mod held;
mod lines;
mod offers;
mod order;
mod places;
mod table;

pub use crate::calls::Engine;
pub use crate::offers::{
    Answer, Answered, ChannelKey, Entered, Kind, LatchKey, Offer, Refusal, SyncKey,
};
