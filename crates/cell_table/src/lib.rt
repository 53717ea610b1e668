//! The table of the shared cells: its rule, and the atomic steps that the rule admits.
//!
//! The table has one rule: a list of the protocol's steps leads from the start to the words as they
//! stand, and what each pass has seen is true of the world that the list leads to. Each function of
//! `steps` makes one atomic step; that the rule admits it is proved where it is made.
#![tactic(auto)]

ghost use Rattle.std.specs.Prelude.{Option};
ghost use Rattle.atomic_table.specs.Table.{State};
ghost use Rattle.cell_table.specs.declared.view.Shape.{Shape};
ghost use Rattle.cell_table.specs.declared.view.View.{View};
ghost use Rattle.cell_table.specs.Laws.{IsLawfulMoment};

mod board;
mod closing;
mod life;
mod plays;
mod start;
mod steps;
mod telling;
mod view;

pub use crate::board::Board;
use crate::board::Law;
pub use crate::view::{Seen, Shape, View};
use atomic_table::TableRule;
use protocol_ledger::Resident;

/// What the rule of the table, the very one that it has (`holds` of `Law`), says of any moment between
/// two atomic steps, whatever threads call. `IsLawfulMoment` lists it.
pub fn every_moment_is_lawful<M: Resident>()
    ensures { (shape : Shape M) (s : State (Option M) (View M)) → ⟦<Law as TableRule<Option<M>, View<M>, Shape<M>>>⟧.holds shape s → IsLawfulMoment M.stands shape s }
{}
