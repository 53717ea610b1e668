//! The faults of what is written in a script, apart from how it is read. No code runs here.
//!
//! The definitions stand in `specs`: for each token of what is written a note with the fault that stands
//! there (`Notes`, `BlockNotes`), and which fault of some tokens is to be told (`Laws`): that at the
//! earliest place, and of two at one token the one with the lower number.
//!
//! Proved, of expressions, tests, lists, names that are bound, events, statements and blocks: reading from
//! left to right tells just that fault. Of declarations and whole scripts `script` proves the same.
#![tactic(auto)]

ghost use Rattle.script_faults.specs.Laws.{ExprsAreAnswered, TestsAreAnswered, ListsAreAnswered, NamesAreAnswered, EventsAreAnswered, StmtsAreAnswered, BlocksAreAnswered};

/// What is written is read where no fault stands in it, and else its first fault is told. Of any tokens
/// the fault that is told is the one that is demanded, and no other is demanded of them.
pub fn fault_laws()
    ensures exprs { ExprsAreAnswered }
    ensures tests { TestsAreAnswered }
    ensures lists { ListsAreAnswered }
    ensures names { NamesAreAnswered }
    ensures events { EventsAreAnswered }
    ensures stmts { StmtsAreAnswered }
    ensures blocks { BlocksAreAnswered }
{}
