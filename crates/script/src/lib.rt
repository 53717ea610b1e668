//! The script language: how texts are read.
//!
//! Tokens come from `script_token`, names, expressions, events, statements and blocks are read by
//! `script_reader`, and what is read is a tree of `script_tree`. This crate reads declarations and whole texts, from
//! left to right.
//!
//! Proved:
//! - `parse` is Ok exactly where the bytes spell a script and are not too many, unless memory runs out,
//!   and gives that script; no bytes spell two (`script_text_laws`). What texts spell is said by the trees
//!   of `script_grammar`, with no reading in them.
//! - `parse` answers what `text_at` says of the bytes: a fault and its line are those of a reading of the
//!   tokens from left to right.
//! - A fault with a line is the first of a text that is not too long, as the notes of `script_faults` and the
//!   grammar say it (`FirstFaults`): whatever is written and begins with the tokens up to the fault's has
//!   it. And the first fault of a text that is not too long is told, unless memory runs out.
//! - `first_fault` tells of tokens what a reading of them from left to right does.
//! - The lines in the trees of a script are those of its text: the statements of its processes are those that are
//!   written there, each with its word, in the same order and at the same lines (`AreLined`).
//! - What is read keeps the limits: each process has them by its own invariant (`script_tree::Proc`).
//! - The counts and the names of a script are those of the script that was read.
//! - Each call ends. Reading goes down by what is left of 49 levels, and loops over statements,
//!   members and terms, as does the drop of their lists.
#![tactic(auto)]

ghost use Rattle.script.specs.FirstFaults.{ScriptsAreAnswered};
ghost use Rattle.script.specs.Names.{DeclaresNames};
ghost use Rattle.script.specs.Spelling.{SpellsOnlyOne};

mod copying;
mod fault;
mod lining;
mod reading;
mod script;

pub use fault::ScriptFault;
pub use reading::{first_fault, line_left, parse};
pub use script::Script;

/// No bytes spell two scripts. A script that is written is read where no fault stands in it, and else its
/// first fault is told; of any tokens the fault that is told is the one that is demanded, and no other is
/// demanded of them. The names that a script declares are names, and no two of its channels or of its
/// processes share one.
pub fn script_text_laws()
    ensures one { SpellsOnlyOne }
    ensures faults { ScriptsAreAnswered }
    ensures names { DeclaresNames }
{}
