//! A set of rows of a table. Its room is taken when it is made.

ghost use Rattle.std.specs.Prelude.{◌≡◌, ◌*◌, ◌<◌, ◌↔◌, IfOk, IsTrue, List, [], ◌∷◌, length};
ghost use Rattle.protocol_values.specs.declared.Row.{Row};
ghost use Rattle.protocol_ledger.specs.Tables.{number_of};
ghost use Rattle.cell.specs.Flags.{AreFlags};
ghost use Rattle.cell_table.specs.Sight.{Has};

use protocol_values::Row;
use std::alloc::{AllocError, Global};

/// A flag for each row of the table, one thread's rows after another's.
#[derive(Debug, Drop)]
pub(crate) struct RowSet {
    pub(crate) threads: u8,
    pub(crate) rows: u16,
    pub(crate) flags: Vec<bool>,
    ghost sized: { length flags.items ≡ threads * rows },
}

impl RowSet {
    /// No row.
    pub(crate) fn new(alloc: Global, threads: u8, rows: u16) -> Result<RowSet, AllocError>
        ensures size { IfOk result (λ s. (s.threads ≡ threads) × (s.rows ≡ rows)) }
        ensures none { IfOk result (λ s. AreFlags s.threads s.rows s.flags.items []) }
    {
        let flags = vec![in alloc; false; usize::from(threads) * usize::from(rows)]?;
        Ok(RowSet {
            threads,
            rows,
            flags,
        })
    }

    /// Adds the row.
    pub(crate) fn insert(&mut self, row: Row)
        requires { (row.thread < self.old.threads) × (row.sync < self.old.rows) }
        ensures size { (self.new.threads ≡ self.old.threads) × (self.new.rows ≡ self.old.rows) }
        ensures more { (held : List Row) → AreFlags self.old.threads self.old.rows self.old.flags.items held → AreFlags self.new.threads self.new.rows self.new.flags.items (row ∷ held) }
    {
        let at = self.number(row);
        self.flags[at] = true;
    }

    /// Whether the set has the row.
    pub(crate) fn contains(&self, row: Row) -> bool
        ensures { (held : List Row) → AreFlags self.now.threads self.now.rows self.now.flags.items held → IsTrue result ↔ Has held row }
    {
        if row.thread >= self.threads || row.sync >= u32::from(self.rows) {
            return false;
        }
        let at = self.number(row);
        self.flags[at]
    }

    // the row's place among all rows
    fn number(&self, row: Row) -> usize
        requires { (row.thread < self.now.threads) × (row.sync < self.now.rows) }
        ensures { (result ≡ number_of self.now.rows row) × (result < self.now.threads * self.now.rows) }
    {
        usize::from(row.thread) * usize::from(self.rows) + row.sync as usize
    }
}
