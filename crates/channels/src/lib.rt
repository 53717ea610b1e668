//! One channel: who waits to send on it, and who to receive, the oldest first.
//!
//! It is plain data. Whoever could meet is never left standing.
#![tactic(auto)]

mod buffered;
mod channel;
mod held;
mod line;
mod pulls;
mod waiting;

pub use crate::buffered::{Buffered, HoldFault, TakeFault};
pub use crate::channel::Channel;
pub use crate::held::Held;
pub use crate::line::Line;
pub use crate::pulls::{Pull, Pulls};
pub use crate::waiting::{Side, StandFault, Waiting, Who};
