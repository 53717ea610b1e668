//! Threads start and end, and so does a table.

ghost use Rattle.std.specs.Prelude.{◌≡◌, ℕ, IfErr, IfOk, Some};
ghost use Rattle.protocol_values.specs.declared.Joined.{Joined};
ghost use Rattle.protocol_values.specs.declared.Offer.{Offer};
ghost use Rattle.protocol_values.specs.declared.Row.{Row};
ghost use Rattle.protocol_ledger.specs.Ledgers.{IsLawful, joined_in, offer_in};
ghost use Rattle.cell_table.specs.Sight.{Has, SeesOffer};
ghost use Rattle.cell_hand.specs.Calls.{Finishes, Starts};

use crate::hand::{Hand, Table};
use crate::refusal::Refusal;
use protocol_ledger::Ledger;
use protocol_values::Row;
use std::sync::Arc;

impl Hand {
    /// Starts the thread from a held row of another thread that is not opened. False where it had started before.
    pub fn start(&mut self, row: Row, thread: u8) -> Result<bool, Refusal>
        ensures { Starts self.old self.new row thread result }
    {
        if row.thread == thread {
            return Err(Refusal::Range);
        }
        if !self.table.cells.has(Row { thread, sync: 0 }) {
            return Err(Refusal::NoRow);
        }
        self.test_fresh(row)?;
        Ok(self.table.cells.start(&mut self.pass, row, thread))
    }

    /// Ends the thread of a held row that is not opened: no row of it is drafted, bound or opened from then on.
    pub fn finish(&mut self, row: Row) -> Result<(), Refusal>
        ensures { Finishes self.old self.new row result }
    {
        self.test_fresh(row)?;
        self.table.cells.finish(&mut self.pass, row);
        Ok(())
    }

    /// Ends the table. Where other hands of it are left, this one is given back.
    pub fn close(self) -> Result<Ledger, Hand>
        ensures size { IfOk result (λ l. (l.threads ≡ self.table.threads) × (l.rows ≡ self.table.rows)) }
        ensures lawful { IfOk result IsLawful }
        ensures joined { IfOk result (λ l. (r : Row) (j : Joined) → Has self.pass.seen.joined (r, j) → joined_in l r ≡ Some j) }
        ensures offers { IfOk result (λ l. (r : Row) (n : ℕ) (o : Offer) → SeesOffer self.pass.seen r n o → offer_in l r n ≡ Some o) }
        ensures kept { IfErr result (λ hand. hand ≡ self) }
    {
        let Hand { table, pass, scan } = self;
        match Arc::try_unwrap(table) {
            Ok(Table { cells, .. }) => Ok(cells.close(pass)),
            Err(table) => Err(Hand { table, pass, scan }),
        }
    }
}
