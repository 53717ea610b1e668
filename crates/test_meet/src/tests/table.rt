//! A table to play at, and the calls that the tests repeat.

ghost use Rattle.std.specs.Prelude.{◌≡◌, ◌+◌, ◌<◌, ◌≤◌, ℕ, [], ◌∷◌, All, Some, IfOk, length, slice_get};
ghost use Rattle.protocol_values.specs.Words.{IsOfferInRange};
ghost use Rattle.cell.specs.Calls.{IsPassOf, IsRowOf, PassView};
ghost use Rattle.cell_table.specs.Rule.{dealt_rows, seen_nothing};
ghost use Rattle.cell_table.specs.Sight.{AreOffers, Has, SawEnded};
ghost use Rattle.protocol_ledger.specs.Worlds.{first_row};
ghost use Rattle.meet.specs.Rooms.{IsMeetPassOf};

use cell::{Cells, Pass, StepGate, YIELD};
use meet::{Meet, MeetPass};
use protocol_ledger::Bare;
use protocol_values::{Atom, Base, Message, NackName, Offer, Row};
use std::alloc::{AllocError, Global};
use std::cell::Cell as Kept;

/// Nack 0 of thread 0.
pub(super) const NACK: NackName = NackName { thread: 0, k: 0 };

/// Counts the attempts that yield: the other row was committed.
#[derive(Drop)]
pub(super) struct Yields {
    pub(super) count: Kept<u32>,
}

impl StepGate for Yields {
    fn step(&self, kind: u8) {
        if kind == YIELD {
            self.count.set(self.count.get().saturating_add(1));
        }
    }
}

/// The first row of a thread.
pub(super) fn row(thread: u8) -> Row
    ensures { result ≡ first_row thread }
{
    Row { thread, sync: 0 }
}

/// To send a number on a channel.
pub(super) fn send(channel: u8, number: u32) -> Offer
    ensures { IsOfferInRange result }
{
    Offer {
        base: Base::Send(channel, Message::One(Atom::Num(number))),
        scopes: 0,
    }
}

/// To receive on a channel, inside these scopes.
pub(super) fn receive(channel: u8, scopes: u8) -> Offer
    requires { scopes ≤ 15 }
    ensures { IsOfferInRange result }
{
    Offer {
        base: Base::Recv(channel),
        scopes,
    }
}

/// An always of the empty message.
pub(super) fn always() -> Offer
    ensures { IsOfferInRange result }
{
    Offer {
        base: Base::Always(Message::Empty),
        scopes: 0,
    }
}

/// To wait for nack 0 of thread 0.
pub(super) fn cancelled() -> Offer
    ensures { IsOfferInRange result }
{
    Offer {
        base: Base::OnNack(NackName { thread: 0, k: 0 }),
        scopes: 0,
    }
}

/// To wait for the end of a thread.
pub(super) fn joined(thread: u8) -> Offer
    requires { thread < 64 }
    ensures { IsOfferInRange result }
{
    Offer {
        base: Base::OnEnd(thread),
        scopes: 0,
    }
}

/// A table of threads with a row each, and the pass that holds all rows.
pub(super) fn table(alloc: Global, threads: u8) -> Result<(Cells<Bare>, Pass<Bare>), AllocError>
    requires { (1 ≤ threads) × (threads ≤ 16) }
    ensures size { IfOk result (λ t. (t.0.threads ≡ threads) × (t.0.rows ≡ 1)) }
    ensures here { IfOk result (λ t. IsPassOf t.0 t.1) }
    ensures seen { IfOk result (λ t. t.1.seen ≡ seen_nothing (dealt_rows threads 1 0)) }
{
    let (cells, mut passes) = Cells::new(alloc, threads, 1, 1)?;
    let Some(pass) = passes.pop() else {
        unreachable!()
    };
    Ok((cells, pass))
}

/// A table of threads with so many rows each, and the pass that holds all first rows.
pub(super) fn table_of_all(
    alloc: Global,
    threads: u8,
    rows: u16,
) -> Result<(Cells<Bare>, Pass<Bare>), AllocError>
    requires threads { (1 ≤ threads) × (threads ≤ 64) }
    requires rows { (1 ≤ rows) × (rows ≤ 1024) }
    ensures { IfOk result (λ t. IsPassOf t.0 t.1) }
{
    let (cells, mut passes) = Cells::new(alloc, threads, rows, 1)?;
    let Some(pass) = passes.pop() else {
        unreachable!()
    };
    Ok((cells, pass))
}

/// A table of threads with so many rows each, and for each thread a pass that holds its first row.
fn table_of_threads(
    alloc: Global,
    threads: u8,
    rows: u16,
) -> Result<(Cells<Bare>, Vec<Pass<Bare>>), AllocError>
    requires threads { (1 ≤ threads) × (threads ≤ 16) }
    requires rows { (1 ≤ rows) × (rows ≤ 1024) }
    ensures size { IfOk result (λ t. (t.0.threads ≡ threads) × (t.0.rows ≡ rows) × (length t.1.items ≡ threads)) }
    ensures passes { IfOk result (λ t. (number : ℕ) (pass : PassView) → slice_get t.1.items number ≡ Some pass → IsPassOf t.0 pass × Has pass.seen.held (first_row number) × (pass.seen.opened ≡ []) × (pass.seen.ended ≡ [])) }
{
    let (cells, passes) = Cells::new(alloc, threads, rows, threads)?;
    Ok((cells, passes))
}

/// Takes the last pass: it holds the row of the last thread, and has not opened it.
fn deal(cells: &Cells<Bare>, passes: &mut Vec<Pass<Bare>>, thread: u8) -> Pass<Bare>
    requires count { length passes.old.items ≡ thread + 1 }
    requires passes { (number : ℕ) (pass : PassView) → slice_get passes.old.items number ≡ Some pass → IsPassOf cells.now pass × Has pass.seen.held (first_row number) × (pass.seen.opened ≡ []) × (pass.seen.ended ≡ []) }
    ensures count { length passes.new.items ≡ thread }
    ensures passes { (number : ℕ) (pass : PassView) → slice_get passes.new.items number ≡ Some pass → IsPassOf cells.now pass × Has pass.seen.held (first_row number) × (pass.seen.opened ≡ []) × (pass.seen.ended ≡ []) }
    ensures here { IsPassOf cells.now result }
    ensures row { Has result.seen.held (first_row thread) × (result.seen.opened ≡ []) × (result.seen.ended ≡ []) }
{
    let Some(pass) = passes.pop() else {
        unreachable!()
    };
    pass
}

/// A table of two threads with so many rows each, and for each a pass that holds its first row.
pub(super) fn table_of_two(
    alloc: Global,
    rows: u16,
) -> Result<(Cells<Bare>, Pass<Bare>, Pass<Bare>), AllocError>
    requires { (1 ≤ rows) × (rows ≤ 1024) }
    ensures size { IfOk result (λ t. (t.0.threads ≡ 2) × (t.0.rows ≡ rows)) }
    ensures first { IfOk result (λ t. IsPassOf t.0 t.1 × Has t.1.seen.held (first_row 0) × (t.1.seen.opened ≡ []) × (t.1.seen.ended ≡ [])) }
    ensures second { IfOk result (λ t. IsPassOf t.0 t.2 × Has t.2.seen.held (first_row 1) × (t.2.seen.opened ≡ []) × (t.2.seen.ended ≡ [])) }
{
    let (cells, mut passes) = table_of_threads(alloc, 2, rows)?;
    let second = deal(&cells, &mut passes, 1);
    let first = deal(&cells, &mut passes, 0);
    Ok((cells, first, second))
}

/// The rooms of so many channels, and of so many threads, with one pass of them.
pub(super) fn rooms(
    alloc: Global,
    channels: u16,
    threads: u8,
) -> Result<(Meet, MeetPass), AllocError>
    ensures { IfOk result (λ m. IsMeetPassOf m.0 m.1) }
{
    let (meet, mut all) = Meet::new(alloc, channels, threads, 1)?;
    let lanes = last(&meet, &mut all);
    Ok((meet, lanes))
}

/// Takes the last of the passes of the rooms.
pub(super) fn last(meet: &Meet, all: &mut Vec<MeetPass>) -> MeetPass
    requires some { 0 < length all.old.items }
    requires passes { All (IsMeetPassOf meet.now) all.old.items }
    ensures count { length all.old.items ≡ length all.new.items + 1 }
    ensures passes { All (IsMeetPassOf meet.now) all.new.items }
    ensures here { IsMeetPassOf meet.now result }
{
    let Some(lanes) = all.pop() else {
        unreachable!()
    };
    lanes
}

/// Drafts these offers for a held row, where rows have room for them, and opens it.
pub(super) fn enter(cells: &Cells<Bare>, pass: &mut Pass<Bare>, row: Row, offers: &[Offer])
    requires here { IsPassOf cells.now pass.old × IsRowOf cells.now row }
    requires fresh { Has pass.old.seen.held row × (¬ Has pass.old.seen.opened row) }
    requires alive { ¬ SawEnded pass.old.seen row.thread }
    requires offers { AreOffers offers.now }
    ensures here { IsPassOf cells.now pass.new }
    ensures held { pass.new.seen.held ≡ pass.old.seen.held }
    ensures opened { pass.new.seen.opened ≡ row ∷ pass.old.seen.opened }
    ensures ended { pass.new.seen.ended ≡ pass.old.seen.ended }
{
    if cells.has_room(offers.len()) {
        cells.draft(pass, row, offers);
    }
    cells.open(pass, row);
}
