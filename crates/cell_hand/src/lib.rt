//! A pass together with its table, for callers that can prove nothing: each call tests what the table asks of it, and names
//! what does not hold.
#![tactic(auto)]

mod drafting;
mod ends;
mod hand;
mod kept;
mod meeting;
mod reading;
mod refusal;

pub use crate::hand::Hand;
pub use crate::kept::Kept;
pub use crate::refusal::Refusal;
