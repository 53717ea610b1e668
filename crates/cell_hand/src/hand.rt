//! A hand, and the tests that its calls make.

ghost use Rattle.std.specs.Prelude.{◌≡◌, ◌≢◌, ◌⊎◌, ◌<◌, ◌≤◌, ℕ, All, IfErr, IfOk, IsTrue, MatchBool, ◌↔◌, Some, length, slice_get};
ghost use Rattle.protocol_values.specs.declared.Joined.{Joined};
ghost use Rattle.protocol_values.specs.declared.Row.{Row};
ghost use Rattle.protocol_ledger.specs.Ledgers.{IsLawful, joined_in};
ghost use Rattle.cell.specs.Calls.{HoldsAt, IsPassOf, IsRowOf, PassView};
ghost use Rattle.meet_directory.specs.Seats.{Sits};
ghost use Rattle.cell_table.specs.Sight.{Has};
ghost use Rattle.cell_hand.specs.Hands.{CanAttempt, CanDraft, HandOf, Looked, NotFresh, NotHere, NotOpened};
ghost use Rattle.cell_hand.specs.Calls.{AreHands, CanDeal, IsDealt};
ghost use Rattle.cell_hand.specs.declared.refusal.Refusal.TheVariants.{Memory, NoRow, NotHeld, Range};

use crate::refusal::Refusal;
use cell::{Cells, Pass};
use meet_directory::{Directory, DirectoryPass};
use protocol_ledger::{Bare, Ledger};
use protocol_values::{Cell, Course, Offer, Row};
use std::alloc::Global;
use std::marker::Model;
use std::sync::Arc;

/// Two sides for each channel.
const SIDES: u32 = 512;

/// What the hands of one table share.
#[derive(Drop)]
pub(crate) struct Table {
    pub(crate) cells: Cells<Bare>,
    pub(crate) directory: Directory,
}

/// A pass, its place at the directory, and its share of the table.
#[derive(Drop)]
pub struct Hand {
    pub(crate) table: Arc<Table>,
    pub(crate) pass: Pass<Bare>,
    pub(crate) scan: DirectoryPass,
}

impl Model for Hand {
    ghost use Rattle.cell_hand.specs.Hands.{HandOf, IsHand};

    ghost Value = { HandOf };

    ghost view = { λ h. record { table = h.table.value.cells; pass = h.pass; board = h.table.value.directory; scan = h.scan } };

    ghost invariant = { λ h. IsHand (record { table = h.table.value.cells; pass = h.pass; board = h.table.value.directory; scan = h.scan }) };
}

/// How large a table may be.
fn can_deal(threads: u8, rows: u16, offers: u8, passes: u8) -> bool
    ensures { MatchBool result (CanDeal threads rows offers passes) (¬ CanDeal threads rows offers passes) }
{
    1 <= threads
        && threads <= 64
        && 1 <= rows
        && rows <= 1024
        && 1 <= offers
        && offers <= 8
        && 1 <= passes
        && passes <= 16
}

impl Hand {
    /// A table of so many threads and rows, and a hand for each of its passes: 1 to 64 threads, 1 to 1024 rows with room for
    /// 1 to 8 offers each, 1 to 16 passes. Row 0 of thread t is held by hand `t mod passes`, unless t is in the mask `later`:
    /// then it waits to be started.
    pub fn deal(
        alloc: Global,
        threads: u8,
        rows: u16,
        offers: u8,
        later: u64,
        passes: u8,
    ) -> Result<Vec<Hand>, Refusal>
        ensures count { IfOk result (λ hands. length hands.items ≡ passes) }
        ensures dealt { IfOk result (λ hands. (number : ℕ) (h : HandOf) → slice_get hands.items number ≡ Some h → IsDealt threads rows offers later passes number h) }
        ensures range { IfOk result (λ _. CanDeal threads rows offers passes) }
        ensures refused { IfErr result (λ e. (e ≡ Memory) ⊎ ((e ≡ Range) × (¬ CanDeal threads rows offers passes))) }
    {
        if !can_deal(threads, rows, offers, passes) {
            return Err(Refusal::Range);
        }
        let Ok((cells, passes)) = Cells::new_short(alloc, threads, rows, offers, passes, later)
        else {
            return Err(Refusal::Memory);
        };
        let Ok((directory, scan)) = Directory::new(alloc, SIDES) else {
            return Err(Refusal::Memory);
        };
        let Ok(table) = Arc::new(alloc, Table { cells, directory }) else {
            return Err(Refusal::Memory);
        };
        Hand::share(alloc, &table, passes, scan)
    }

    /// A hand for each of the passes.
    fn share(
        alloc: Global,
        table: &Arc<Table>,
        passes: Vec<Pass<Bare>>,
        scan: DirectoryPass,
    ) -> Result<Vec<Hand>, Refusal>
        requires here { All (λ p. IsPassOf table.now.value.cells p) passes.items }
        requires sits { Sits table.now.value.directory scan × (512 ≤ table.now.value.directory.sides) }
        ensures hands { IfOk result (λ hands. AreHands table.now.value.cells passes.items hands.items) }
        ensures refused { IfErr result (λ e. e ≡ Memory) }
    {
        let mut scan = scan;
        let mut hands = Vec::new(alloc);
        for pass in passes {
            let hand = Hand::of(table, &mut scan, pass)?;
            let Ok(()) = hands.push(hand) else {
                return Err(Refusal::Memory);
            };
        }
        Ok(hands)
    }

    fn of(table: &Arc<Table>, scan: &mut DirectoryPass, pass: Pass<Bare>) -> Result<Hand, Refusal>
        requires here { IsPassOf table.now.value.cells pass }
        requires sits { Sits table.now.value.directory scan.old × (512 ≤ table.now.value.directory.sides) }
        ensures hand { IfOk result (λ h. (h.table ≡ table.now.value.cells) × (h.pass ≡ pass)) }
        ensures sits { Sits table.now.value.directory scan.new }
        ensures refused { IfErr result (λ e. e ≡ Memory) }
    {
        let Ok(table) = Arc::try_clone(table) else {
            return Err(Refusal::Memory);
        };
        let place = table.directory.another(scan);
        Ok(Hand {
            table,
            pass,
            scan: place,
        })
    }

    /// Whether the pass holds the row, or, where the row's number is that of the table's rows, stands behind the last row
    /// of the thread.
    pub fn holds(&self, row: Row) -> bool
        ensures { IsTrue result ↔ HoldsAt self.now.pass row }
    {
        self.pass.holds(row)
    }

    /// Tests that a row has room for so many offers.
    pub(crate) fn test_room(&self, offers: &[Offer]) -> Result<(), Refusal>
        ensures room { IfOk result (λ _. length offers.now ≤ self.now.table.layout.offers) }
        ensures refused { IfErr result (λ e. (self.now.table.layout.offers < length offers.now) × (e ≡ Range)) }
    {
        if !self.table.cells.has_room(offers.len()) {
            return Err(Refusal::Range);
        }
        Ok(())
    }

    /// Tests that the table has the row and the pass holds it.
    fn test_held(&self, row: Row) -> Result<(), Refusal>
        ensures held { IfOk result (λ _. IsRowOf self.now.table row × Has self.now.pass.seen.held row) }
        ensures refused { IfErr result (NotHere self.now row) }
    {
        if !self.table.cells.has(row) {
            return Err(Refusal::NoRow);
        }
        if !self.pass.holds(row) {
            return Err(Refusal::NotHeld);
        }
        Ok(())
    }

    /// Tests that the row can be drafted, bound and opened.
    pub(crate) fn test_fresh(&mut self, row: Row) -> Result<(), Refusal>
        ensures looked { Looked self.old self.new }
        ensures fresh { IfOk result (λ _. CanDraft self.new row × CanDraft self.old row) }
        ensures refused { IfErr result (NotFresh self.old self.new row) }
    {
        self.test_held(row)?;
        let Cell::Fresh = self.table.cells.look(&mut self.pass, row) else {
            return Err(Refusal::Opened);
        };
        if let Course::Ended(..) = self.table.cells.course(&mut self.pass, row.thread) {
            return Err(Refusal::Ended);
        }
        Ok(())
    }

    /// Tests that the row can be met.
    pub(crate) fn test_opened(&mut self, row: Row) -> Result<(), Refusal>
        ensures looked { Looked self.old self.new }
        ensures opened { IfOk result (λ _. CanAttempt self.new row) }
        ensures refused { IfErr result (NotOpened self.old row) }
    {
        self.test_held(row)?;
        match self.table.cells.look(&mut self.pass, row) {
            Cell::Fresh => Err(Refusal::Fresh),
            Cell::Waiting | Cell::Claimed | Cell::Synched(_) | Cell::Taken(_) => Ok(()),
        }
    }
}
