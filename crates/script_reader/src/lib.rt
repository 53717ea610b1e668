//! Names, expressions, events, statements and blocks of a script, read from the front of its tokens.
//!
//! Single tokens are taken by `step`, names are read and bound by `names` in a `scope`, expressions, tests and
//! lists are read by `expr`, the rest by `process`. Each function that reads gives what a function on lists of
//! tokens gives, or the first problem with its place, unless memory runs out. On lists of tokens it is proved
//! that what is read keeps the limits, was written so, and is read wherever it is written so; the contracts of
//! `script` rest on that.
#![tactic(auto)]

ghost use Rattle.script_reader.specs.Laws.{ExprsAreFound, ExprsAreReadAgain};

pub mod expr;
pub mod fault;
pub mod names;
pub mod process;
pub mod scope;
pub mod step;
pub mod table;

pub use process::{Loops, read_block};

/// An expression is read from tokens exactly where they begin with what is written for it.
pub fn expression_laws()
    ensures found { ExprsAreFound }
    ensures again { ExprsAreReadAgain }
{}
