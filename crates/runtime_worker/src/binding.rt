//! The nacks of a row's scopes are bound to it.

ghost use Rattle.std.specs.Prelude.{◌≡◌, ◌≢◌, length};
ghost use Rattle.protocol_values.specs.declared.Binding.{Binding};
ghost use Rattle.protocol_values.specs.declared.NackName.{NackName};
ghost use Rattle.protocol_ledger.specs.Tables.{bound_row};
ghost use Rattle.thread.specs.Machines.{IsOpen, nacks_in};
ghost use Rattle.cell.specs.Calls.{IsPassOf, IsRowOf};
ghost use Rattle.cell_table.specs.Sight.{Has};
ghost use Rattle.runtime_worker.specs.Machines.{AreBound, IsNow, IsTable, LeavesOthers, OnlyBinds};

use crate::resident::Suspended;
use cell::{Cells, Pass};
use protocol_values::Row;

/// Binds the nacks of the machine's event, scope by scope, to the row, which is held and not opened yet. `bind` cannot
/// answer false of one: a thread takes its nacks in turn, so those that its earlier rows bound are others.
#[inline(always)]
pub(crate) fn bind_all(
    cells: &Cells<Suspended>,
    pass: &mut Pass<Suspended>,
    row: Row,
    suspended: &Suspended,
)
    requires here { IsPassOf cells.now pass.old × IsRowOf cells.now row × IsTable cells.now }
    requires fresh { Has pass.old.seen.held row × (¬ Has pass.old.seen.opened row) }
    requires free { (n : NackName) (b : Binding) → Has pass.old.seen.bound (n, b) → bound_row n b ≢ row }
    requires stands { IsNow cells.now.first pass.old row suspended.now }
    requires open { IsOpen suspended.now.machine.value.phase }
    ensures here { IsPassOf cells.now pass.new }
    ensures only { OnlyBinds pass.old pass.new }
    ensures others { LeavesOthers row.thread pass.old.seen pass.new.seen }
    ensures bound { AreBound row (nacks_in suspended.now.machine.value.phase) (length (nacks_in suspended.now.machine.value.phase)) pass.old.seen pass.new.seen }
{
    let mut scope = 0u8;
    for k in suspended.machine.nacks() {
        cells.bind(pass, *k, row, scope);
        scope += 1;
    }
}
