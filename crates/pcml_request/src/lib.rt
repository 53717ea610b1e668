//! What the words of the command line ask for.
#![tactic(auto)]

mod arguments;
mod commands;
mod fault;
mod request;
mod words;

pub use crate::fault::WordsFault;
pub use crate::request::{
    Drawing, Form, OfJournal, OutcomesAsked, Question, Request, Running, Seeking, Sought, Wanted,
    all_rows,
};
pub use crate::words::read_words;
