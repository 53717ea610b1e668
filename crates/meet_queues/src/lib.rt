//! The queues that rows are handed over by: lanes of offers that wait, which several passes put into and take
//! from, and queues of rows that are ready, a deque for each worker, from which the others steal, with an
//! injector that takes what a deque refuses.
//!
//! One rule stands behind all of them: each entry that is put is got once at most, and one's entries in the
//! order in which they were put.
#![tactic(auto)]

mod ends;
mod entries;
mod lane;
mod lane_rule;
mod laws;
mod making;
mod ready;
mod ready_rule;
mod splits;

pub use crate::ends::ReadyEnd;
pub use crate::entries::{Entry, QueueView};
pub use crate::lane::{Lane, LanePass};
pub use crate::lane_rule::{LaneRule, WaitingOffer};
pub use crate::laws::each_entry_is_handed_over_once;
pub use crate::ready::Ready;
pub use crate::ready_rule::{ReadyRule, Stolen};
pub use crate::splits::{Dealt, Settled};
