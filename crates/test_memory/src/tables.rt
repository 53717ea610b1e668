//! The shared table, and the lanes in which rows wait for each other.

ghost use Rattle.std.specs.Prelude.{◌≡◌, ◌∷◌, [], ◌≤◌, IfOk};
ghost use Rattle.protocol_values.specs.Words.{IsOfferInRange};
ghost use Rattle.cell.specs.Calls.{IsPassOf, IsRowOf};
ghost use Rattle.cell_table.specs.Rule.{dealt_rows, seen_nothing};
ghost use Rattle.cell_table.specs.Sight.{AreOffers, Has, SawEnded};
ghost use Rattle.protocol_ledger.specs.Worlds.{first_row};
ghost use Rattle.meet.specs.Rooms.{IsMeetPassOf};
ghost use Rattle.meet_scan.specs.Searches.{Grows};

use crate::hoard::Hoard;
use crate::sweep::{Answer, Call, judged};
use anyhow::Result;
use cell::{Cells, NoGate, Pass};
use meet::{Meet, MeetPass};
use meet_scan::Found;
use protocol_ledger::Bare;
use protocol_values::{Atom, Base, Commit, Message, NackName, Offer, Row};
use std::alloc::{AllocError, Global};
use std::sync::Wait;

/// The channels of the tables here.
const CHANNELS: u16 = 4;

/// Nack 0 of thread 0.
const NACK: NackName = NackName { thread: 0, k: 0 };

/// To make a table.
#[derive(Drop)]
pub(crate) struct MakingCells {
    pub(crate) alloc: Global,
}

impl Call for MakingCells {
    fn attempt(&mut self, hoard: &mut Hoard, amount: usize) -> Result<Answer> {
        hoard.leave(amount)?;
        let made = Cells::new(self.alloc, 2, 4, 2);
        hoard.release();
        let Ok((cells, passes)) = made else {
            return Ok(Answer::Refused);
        };
        let last = Row { thread: 1, sync: 3 };
        Ok(judged(cells.has(last) && passes.len() == 2))
    }
}

/// To make the lanes of a table.
#[derive(Drop)]
pub(crate) struct MakingMeet {
    pub(crate) alloc: Global,
}

impl Call for MakingMeet {
    fn attempt(&mut self, hoard: &mut Hoard, amount: usize) -> Result<Answer> {
        hoard.leave(amount)?;
        let made = Meet::new(self.alloc, CHANNELS, 2, 2);
        hoard.release();
        let Ok((_meet, passes)) = made else {
            return Ok(Answer::Refused);
        };
        Ok(judged(passes.len() == 2))
    }
}

/// The first row of a thread.
fn row(thread: u8) -> Row
    ensures { result ≡ first_row thread }
{
    Row { thread, sync: 0 }
}

/// To send a number on a channel.
fn send(channel: u8) -> Offer
    ensures { IsOfferInRange result }
{
    Offer {
        base: Base::Send(channel, Message::One(Atom::Num(42))),
        scopes: 0,
    }
}

/// To receive on a channel, inside these scopes.
fn receive(channel: u8, scopes: u8) -> Offer
    requires { scopes ≤ 15 }
    ensures { IsOfferInRange result }
{
    Offer {
        base: Base::Recv(channel),
        scopes,
    }
}

/// An always of the empty message.
fn always() -> Offer
    ensures { IsOfferInRange result }
{
    Offer {
        base: Base::Always(Message::Empty),
        scopes: 0,
    }
}

/// To wait for the nack.
fn cancelled() -> Offer
    ensures { IsOfferInRange result }
{
    Offer {
        base: Base::OnNack(NackName { thread: 0, k: 0 }),
        scopes: 0,
    }
}

/// A table of two threads with a row each, and the pass that holds both rows.
fn table(alloc: Global) -> Result<(Cells<Bare>, Pass<Bare>), AllocError>
    ensures size { IfOk result (λ t. (t.0.threads ≡ 2) × (t.0.rows ≡ 1)) }
    ensures here { IfOk result (λ t. IsPassOf t.0 t.1) }
    ensures seen { IfOk result (λ t. t.1.seen ≡ seen_nothing (dealt_rows 2 1 0)) }
{
    let (cells, mut passes) = Cells::new(alloc, 2, 1, 1)?;
    let Some(pass) = passes.pop() else {
        unreachable!()
    };
    Ok((cells, pass))
}

/// The lanes of the table, and their one pass.
fn lanes(alloc: Global) -> Result<(Meet, MeetPass), AllocError>
    ensures { IfOk result (λ m. IsMeetPassOf m.0 m.1) }
{
    let (meet, mut all) = Meet::new(alloc, CHANNELS, 2, 1)?;
    let Some(lanes) = all.pop() else {
        unreachable!()
    };
    Ok((meet, lanes))
}

/// Drafts these offers for a held row, where rows have room for them, and opens it.
fn enter(cells: &Cells<Bare>, pass: &mut Pass<Bare>, row: Row, offers: &[Offer])
    requires here { IsPassOf cells.now pass.old × IsRowOf cells.now row }
    requires fresh { Has pass.old.seen.held row × (¬ Has pass.old.seen.opened row) }
    requires alive { ¬ SawEnded pass.old.seen row.thread }
    requires offers { AreOffers offers.now }
    ensures here { IsPassOf cells.now pass.new }
    ensures held { pass.new.seen.held ≡ pass.old.seen.held }
    ensures opened { pass.new.seen.opened ≡ row ∷ pass.old.seen.opened }
    ensures ended { pass.new.seen.ended ≡ pass.old.seen.ended }
{
    if cells.has_room(offers.len()) {
        cells.draft(pass, row, offers);
    }
    cells.open(pass, row);
}

/// The commits that the table comes to.
fn commits_of(cells: Cells<Bare>, pass: Pass<Bare>) -> Result<Vec<Commit>, AllocError>
    requires { IsPassOf cells pass }
{
    let ledger = cells.close(pass);
    ledger.commits()
}

/// The send on the last channel meets the receive.
fn is_meeting(commits: &[Commit]) -> bool {
    let meeting = Commit::Pair {
        sender: (Row { thread: 0, sync: 0 }, 2),
        receiver: (Row { thread: 1, sync: 0 }, 0),
        chan: 3,
        msg: Message::One(Atom::Num(42)),
        stamp: 1,
    };
    commits == [meeting].as_slice()
}

/// How often a row is searched: its entries fill more than a block of a lane then.
const SEARCHES: u32 = 40;

/// Searches for the first row again and again.
fn search_often<R: Wait>(
    rt: &R,
    meet: &Meet,
    cells: &Cells<Bare>,
    pass: &mut Pass<Bare>,
    lanes: &mut MeetPass,
) -> Result<(), AllocError>
    requires here { IsPassOf cells.now pass.old × IsRowOf cells.now (first_row 0) }
    requires opened { Has pass.old.seen.held (first_row 0) × Has pass.old.seen.opened (first_row 0) }
    requires lanes { IsMeetPassOf meet.now lanes.old }
    ensures here { IsPassOf cells.now pass.new }
    ensures grows { Grows pass.old.seen pass.new.seen }
    ensures lanes { IsMeetPassOf meet.now lanes.new }
{
    for _ in 0..SEARCHES {
        meet.search(rt, cells, pass, lanes, &NoGate, row(0))?;
    }
    Ok(())
}

/// To search for a row that meets nothing yet, again and again: its offers are put in. The other row meets it then, also
/// where memory was refused: hints alone are lost.
#[derive(Drop)]
pub(crate) struct PuttingIn<'a, R> {
    pub(crate) rt: &'a R,
}

impl<R: AllocGlobal + Wait> Call for PuttingIn<'_, R> {
    fn attempt(&mut self, hoard: &mut Hoard, amount: usize) -> Result<Answer> {
        let rt = self.rt;
        let (cells, mut pass) = table(rt.alloc())?;
        let (meet, mut lanes) = lanes(rt.alloc())?;
        let offers = [send(0), receive(0, 0), send(3)];
        enter(&cells, &mut pass, row(0), &offers);
        enter(&cells, &mut pass, row(1), &[receive(3, 0)]);
        hoard.leave(amount)?;
        let first = search_often(rt, &meet, &cells, &mut pass, &mut lanes);
        hoard.release();
        let second = meet.search(rt, &cells, &mut pass, &mut lanes, &NoGate, row(1))?;
        let commits = commits_of(cells, pass)?;
        if second != Found::Met(row(0)) || !is_meeting(commits.as_slice()) {
            return Ok(Answer::Other);
        }
        match first {
            Ok(()) => Ok(judged(true)),
            Err(_) => Ok(Answer::Refused),
        }
    }
}

fn refused_or_same(refused: bool) -> Answer {
    if refused {
        Answer::Refused
    } else {
        Answer::Same
    }
}

/// To wake a row that waits for a nack.
#[derive(Drop)]
pub(crate) struct Waking<'a, R> {
    pub(crate) rt: &'a R,
}

/// Binds the nack to the first row and scope 0, and opens the row with a receive inside the scope and an
/// always outside it. Opens the other row to wait for the nack.
fn enter_bound(cells: &Cells<Bare>, pass: &mut Pass<Bare>) -> bool
    requires here { IsPassOf cells.now pass.old × IsRowOf cells.now (first_row 0) × IsRowOf cells.now (first_row 1) }
    requires held { Has pass.old.seen.held (first_row 0) × Has pass.old.seen.held (first_row 1) }
    requires fresh { (pass.old.seen.opened ≡ []) × (pass.old.seen.ended ≡ []) }
    ensures here { IsPassOf cells.now pass.new }
    ensures held { pass.new.seen.held ≡ pass.old.seen.held }
    ensures opened { pass.new.seen.opened ≡ first_row 1 ∷ first_row 0 ∷ [] }
{
    let bound = cells.bind(pass, 0, row(0), 0);
    let offers = [receive(0, 1), always()];
    enter(cells, pass, row(0), &offers);
    enter(cells, pass, row(1), &[cancelled()]);
    bound
}

impl<R: AllocGlobal + Wait> Call for Waking<'_, R> {
    // A waking that was refused memory may have lost the row that waits, or granted it and not named it.
    fn attempt(&mut self, hoard: &mut Hoard, amount: usize) -> Result<Answer> {
        let rt = self.rt;
        let alloc = rt.alloc();
        let (cells, mut pass) = table(alloc)?;
        let (meet, mut lanes) = lanes(alloc)?;
        let bound = enter_bound(&cells, &mut pass);
        let waits = meet.search(rt, &cells, &mut pass, &mut lanes, &NoGate, row(1))?;
        let alone = meet.search(rt, &cells, &mut pass, &mut lanes, &NoGate, row(0))?;
        let before = bound && waits == Found::Waits && alone == Found::Alone;
        hoard.leave(amount)?;
        let woken = meet.wake(rt, alloc, &cells, &mut pass, &mut lanes, &NoGate, NACK);
        hoard.release();
        let refused = woken.is_err();
        let named = match woken {
            Ok(rows) => rows.as_slice() == [row(1)].as_slice(),
            Err(_) => true,
        };
        let commits = commits_of(cells, pass)?;
        let all = commits.len() == 2 || (refused && commits.len() == 1);
        if !before || !named || !all {
            return Ok(Answer::Other);
        }
        Ok(refused_or_same(refused))
    }
}
