//! The syntax tree of a script's processes, and the limits that each process keeps.
#![tactic(auto)]

ghost use denote.Param.Send.{IsSend, IsSync};
ghost use Rattle.script_tree.specs.contracts.process.Proc as proc;

pub mod process;
mod spawning;
pub mod tree;

pub use process::Proc;
pub use spawning::spawned;
pub use tree::{
    Block, Event, Events, Expr, Exprs, LoopBody, Name, Names, Operand, Relation, Sign, Stmt, Term,
    Terms, Test,
};

/// A process may be moved to another thread, and be read by several at once.
pub fn processes_cross_threads()
    ensures moved { IsSend proc.the_row }
    ensures shared { IsSync proc.the_row }
{}
