//! A row before it stands.

ghost use Rattle.std.specs.Prelude.{◌≡◌, ◌<◌, ◌≤◌, [], ◌∷◌, length};
ghost use Rattle.cell_table.specs.Sight.{AreOffers, Has};
ghost use Rattle.cell_hand.specs.Calls.{Binds, Drafts, IsDrafted, Opens};
ghost use Rattle.cell_hand.specs.Hands.{CanAttempt, CanDraft, Made};
ghost use Rattle.protocol_values.specs.declared.Step.TheVariants.{Open};

use crate::hand::Hand;
use crate::refusal::Refusal;
use protocol_values::{Offer, Row};

impl Hand {
    /// Writes the offers of a held row that is not opened yet, in place of those that were written before: no more than the
    /// table's rows have room for.
    pub fn draft(&mut self, row: Row, offers: &[Offer]) -> Result<(), Refusal>
        requires offers { AreOffers offers.now }
        ensures { Drafts self.old self.new row offers.now result }
    {
        self.test_room(offers)?;
        self.test_fresh(row)?;
        self.write(row, offers);
        Ok(())
    }

    pub(crate) fn write(&mut self, row: Row, offers: &[Offer])
        requires fresh { CanDraft self.old row }
        requires offers { AreOffers offers.now × (length offers.now ≤ self.old.table.layout.offers) }
        ensures { IsDrafted self.old self.new row offers.now }
    {
        self.table.cells.draft(&mut self.pass, row, offers);
    }

    /// Binds nack k of the row's thread to the row, which is held and not opened yet, and to its scope. False where the nack
    /// was bound before: it stays as it was.
    pub fn bind(&mut self, k: u8, row: Row, scope: u8) -> Result<bool, Refusal>
        requires range { (k < 64) × (scope < 4) }
        ensures { Binds self.old self.new k row scope result }
    {
        self.test_fresh(row)?;
        Ok(self.table.cells.bind(&mut self.pass, k, row, scope))
    }

    /// Opens a held row: its offers stand from now on.
    pub fn open(&mut self, row: Row) -> Result<(), Refusal>
        ensures { Opens self.old self.new row result }
    {
        self.test_fresh(row)?;
        self.open_fresh(row);
        Ok(())
    }

    pub(crate) fn open_fresh(&mut self, row: Row)
        requires fresh { CanDraft self.old row }
        ensures made { Made self.old self.new (Open row ∷ []) }
        ensures opened { Has self.new.pass.seen.opened row × CanAttempt self.new row }
    {
        self.table.cells.open(&mut self.pass, row);
    }
}
