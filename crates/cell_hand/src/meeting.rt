//! Commits.

ghost use Rattle.std.specs.Prelude.{◌≡◌, None, Some, if◌then◌else◌};
ghost use Rattle.cell_hand.specs.Calls.{Attempts, Begins, Grants, IsSearched, IsWoken, Reaches, Searches, Takes, Wakes};
ghost use Rattle.cell_table.specs.Sight.{AreOffers};
ghost use Rattle.meet_scan.specs.declared.found.Found.TheVariants.{Already};
ghost use Rattle.cell.specs.Calls.{IsPassOf, IsRowOf};
ghost use Rattle.meet_scan.specs.Searches.{Grows};
ghost use Rattle.meet_scan.specs.Steps.{SearchMade, found_or_left};
ghost use Rattle.cell_hand.specs.Hands.{CanAttempt};

use crate::hand::Hand;
use crate::refusal::Refusal;
use cell::{Attempt, Cells, Grant, NoGate, Pass};
use meet_scan::{Found, saw_committed, search_once};
use protocol_ledger::Bare;
use protocol_values::{Cell, Joined, Offer, Row};

impl Hand {
    /// Tries to commit the held opened row `mine` with `other`, by offer `own` of the one and `partner` of the other. No row
    /// stays claimed.
    pub fn attempt(
        &mut self,
        mine: Row,
        own: u8,
        other: Row,
        partner: u8,
    ) -> Result<Attempt, Refusal>
        ensures { Attempts self.old self.new mine own other partner result }
    {
        if !self.table.cells.has(other) {
            return Err(Refusal::NoRow);
        }
        self.test_opened(mine)?;
        Ok(
            self.table
                .cells
                .attempt(&mut self.pass, &NoGate, mine, own, other, partner),
        )
    }

    /// Commits the row alone by its offer n, where that is an always, an enabled nack, or the end of a thread that has
    /// ended, and the row waits. Any pass may hold the row.
    pub fn grant(&mut self, row: Row, n: u8) -> Result<Grant, Refusal>
        ensures { Grants self.old self.new row n result }
    {
        if !self.table.cells.has(row) {
            return Err(Refusal::NoRow);
        }
        Ok(self.table.cells.grant(&mut self.pass, row, n))
    }

    /// Takes the row, where it is committed and nobody has taken it: the pass holds the thread's next row from then on.
    /// Any pass may hold the row.
    pub fn take(&mut self, row: Row) -> Result<Option<Joined>, Refusal>
        ensures { Takes self.old self.new row result }
    {
        if !self.table.cells.has(row) {
            return Err(Refusal::NoRow);
        }
        Ok(self.table.cells.take(&mut self.pass, row))
    }

    /// Searches for a row that this held opened one can meet, first for that of thread `first`, if the table has such a
    /// thread. It waits for nobody. None: one of them was claimed, and the search is to be made again. An offer that needs no
    /// partner is granted only if so asked.
    pub fn search(&mut self, row: Row, first: u8, alone: bool) -> Result<Option<Found>, Refusal>
        ensures { Searches self.old self.new row first alone result }
    {
        self.test_opened(row)?;
        Ok(self.search_opened(row, first, alone))
    }

    pub(crate) fn search_opened(&mut self, row: Row, first: u8, alone: bool) -> Option<Found>
        requires opened { CanAttempt self.old row }
        ensures { IsSearched self.old self.new row first alone result }
    {
        search_once(
            &self.table.directory,
            &mut self.scan,
            &self.table.cells,
            &mut self.pass,
            &NoGate,
            row,
            first,
            alone,
        )
    }

    /// Takes the row before this one, where the pass does not hold it yet, drafts the offers, opens the row and searches.
    pub fn begin(
        &mut self,
        row: Row,
        offers: &[Offer],
        first: u8,
        alone: bool,
    ) -> Result<Option<Found>, Refusal>
        requires offers { AreOffers offers.now }
        ensures { Begins self.old self.new row offers.now first alone result }
    {
        self.test_room(offers)?;
        self.reach(row)?;
        self.write(row, offers);
        self.open_fresh(row);
        Ok(self.search_opened(row, first, alone))
    }

    /// Has the pass hold the row, not opened: by a take of the row before it, where it is held by none.
    fn reach(&mut self, row: Row) -> Result<(), Refusal>
        ensures { Reaches self.old self.new row result }
    {
        if !self.table.cells.has(row) {
            return Err(Refusal::NoRow);
        }
        if self.pass.holds(row) {
            return self.test_fresh(row);
        }
        if row.sync == 0 {
            return Err(Refusal::NotHeld);
        }
        let before = Row {
            thread: row.thread,
            sync: row.sync - 1,
        };
        let Some(_) = self.table.cells.take(&mut self.pass, before) else {
            return Err(Refusal::NotHeld);
        };
        Ok(())
    }

    /// Commits the row alone, where one of its offers lets it. Any pass may hold the row: so are those woken who wait for a
    /// nack or an end. None: it was claimed, and is to be woken again.
    pub fn wake(&mut self, row: Row) -> Result<Option<Found>, Refusal>
        ensures { Wakes self.old self.new row result }
    {
        if !self.table.cells.has(row) {
            return Err(Refusal::NoRow);
        }
        Ok(wake_row(&self.table.cells, &mut self.pass, row))
    }
}

/// Tries each offer of the row.
fn wake_row(cells: &Cells<Bare>, pass: &mut Pass<Bare>, row: Row) -> Option<Found>
    requires here { IsPassOf cells.now pass.old × IsRowOf cells.now row }
    ensures here { IsPassOf cells.now pass.new }
    ensures grows { Grows pass.old.seen pass.new.seen }
    ensures made { SearchMade row (found_or_left result) pass.old.made pass.new.made }
    ensures woken { IsWoken pass.old.seen pass.new.seen row result }
{
    for n in 0..8 {
        match cells.grant(pass, row, n) {
            Grant::Given => return Some(Found::Alone),
            Grant::NotEnabled => {}
            Grant::Late => return is_already(saw_committed(cells, pass, row)),
        }
    }
    Some(Found::Waits)
}

/// What keeps a row from being committed alone: it is committed, or it was claimed.
fn is_already(committed: bool) -> Option<Found>
    ensures { result ≡ if committed then Some Already else None }
{
    committed.then_some(Found::Already)
}
