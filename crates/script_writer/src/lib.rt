//! The canonical text of scripts.
//!
//! `names` writes names, expressions and lists (`exprs`), events and statements (`process`), and whole
//! scripts (`writing`), each behind what is written already. Lists of terms, members and statements are
//! written by loops, so that only depth takes stack.
//!
//! Proved:
//! - `write` gives `Canon` of its script: the tokens of what is written plainly, with names in place of
//!   numbers and parentheses only round a right operand that is itself a sum. This text spells the script,
//!   and is read as it where it has at most 65,536 bytes.
//! - The canonical text of any script that some text spells, spells it and is read as it where it is not too long;
//!   and no other script has that text (`writing_laws`).
//! - Each call ends, by the size of the tree that it goes down.
#![tactic(auto)]

mod exprs;
mod names;
mod process;
mod writing;

pub use writing::{write, writing_laws};
