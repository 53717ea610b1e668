//! The protocol's values as structs of numbers, for other languages.
#![tactic(auto)]

mod commits;
mod values;

pub use crate::commits::{PlainCommit, PlainJoined, PlainRow};
pub use crate::values::{PlainAtom, PlainMessage, PlainOffer, read_nack, read_offers};
