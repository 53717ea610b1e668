//! What one pass does, one act after another, as a constant table lists them, and what is to come of each.
//! Whether an act may be done is looked up as it runs, so a table of them costs no proof.

ghost use Rattle.protocol_values.specs.Words.{IsOfferInRange};
ghost use Rattle.cell.specs.Calls.{IsPassOf, IsRowOf};
ghost use Rattle.cell_table.specs.Sight.{Has, SawEnded};
ghost use Rattle.meet.specs.Rooms.{IsMeetPassOf};

use super::table::{always, cancelled, enter, joined, receive, send};
use cell::{Cells, NoGate, Pass};
use meet::{Meet, MeetPass};
use meet_scan::Found;
use protocol_ledger::Bare;
use protocol_values::{Cell, Course, Message, NackName, Offer, Row};
use std::alloc::AllocError;
use std::fmt::Debug;
use std::process::Abort;
use std::sync::Wait;

/// An offer.
#[derive(Clone, Copy)]
pub(super) enum Single {
    /// To send a number on a channel.
    Send(u8, u32),
    /// To receive on a channel.
    Receive(u8),
    /// To receive on channel 0, inside scope 0.
    ReceiveInside,
    Always,
    /// To wait for nack 0 of thread 0.
    Cancelled,
    /// To wait for the end of thread 0.
    Joined,
}

/// The offers of a row.
#[derive(Clone, Copy)]
pub(super) enum Offers {
    One(Single),
    Two(Single, Single),
    Three(Single, Single, Single),
}

/// What the pass does, with what it is to be answered.
#[derive(Clone, Copy)]
pub(super) enum Act {
    /// Opens the row with these offers.
    Enter(Row, Offers),
    /// Binds nack 0 of the row's thread to the row and scope 0.
    Bind(Row),
    Search(Row, Found),
    Wake(NackName, &'static [Row]),
    /// Ends the row's thread there.
    Finish(Row),
    WakeEnd(u8, &'static [Row]),
    Result(Row, Option<Message>),
}

/// Stops the test where the values differ, and prints both.
pub(super) fn check_same<T: PartialEq + Debug + Drop>(
    rt: &impl Abort,
    found: T,
    wanted: T,
    what: &str,
) {
    assert!(rt; found == wanted, "{what}: {found:?} is not {wanted:?}");
}

/// As `check_same`, of what a row gave.
fn check_row<T: PartialEq + Debug + Drop>(
    rt: &impl Abort,
    row: Row,
    found: T,
    wanted: T,
    what: &str,
) {
    assert!(rt;
        found == wanted,
        "{what} of {row:?}: {found:?} is not {wanted:?}"
    );
}

/// Ends the table: its ledger has so many commits.
pub(super) fn check_closed(
    rt: &impl Abort,
    cells: Cells<Bare>,
    pass: Pass<Bare>,
    commits: usize,
) -> Result<(), AllocError>
    requires { IsPassOf cells pass }
{
    let ledger = cells.close(pass);
    check_same(rt, ledger.commits()?.len(), commits, "how many commits");
    Ok(())
}

fn offer_of(single: Single) -> Offer
    ensures { IsOfferInRange result }
{
    match single {
        Single::Send(channel, number) => send(channel, number),
        Single::Receive(channel) => receive(channel, 0),
        Single::ReceiveInside => receive(0, 1),
        Single::Always => always(),
        Single::Cancelled => cancelled(),
        Single::Joined => joined(0),
    }
}

/// The row is one of the table.
fn expect_row(rt: &impl Abort, cells: &Cells<Bare>, row: Row)
    ensures { IsRowOf cells.now row }
{
    if !cells.has(row) {
        panic!(rt; "no row of the table");
    }
}

/// The pass holds the row of the table, and has not opened it.
fn expect_fresh(rt: &impl Abort, cells: &Cells<Bare>, pass: &mut Pass<Bare>, row: Row)
    requires { IsPassOf cells.now pass.old }
    ensures here { IsPassOf cells.now pass.new × IsRowOf cells.now row }
    ensures fresh { Has pass.new.seen.held row × (¬ Has pass.new.seen.opened row) }
    ensures alive { ¬ SawEnded pass.new.seen row.thread }
{
    if !cells.has(row) || !pass.holds(row) {
        panic!(rt; "no row that the pass holds");
    }
    let Course::Running(_) = cells.course(pass, row.thread) else {
        panic!(rt; "the thread has ended")
    };
    let Cell::Fresh = cells.look(pass, row) else {
        panic!(rt; "the row is open")
    };
}

/// The pass holds the row of the table, and it is open.
fn expect_opened(rt: &impl Abort, cells: &Cells<Bare>, pass: &mut Pass<Bare>, row: Row)
    requires { IsPassOf cells.now pass.old }
    ensures here { IsPassOf cells.now pass.new × IsRowOf cells.now row }
    ensures opened { Has pass.new.seen.held row × Has pass.new.seen.opened row }
{
    if !cells.has(row) || !pass.holds(row) {
        panic!(rt; "no row that the pass holds");
    }
    match cells.look(pass, row) {
        Cell::Fresh => panic!(rt; "the row is not open"),
        Cell::Waiting => {}
        Cell::Claimed => {}
        Cell::Synched(_) => {}
        Cell::Taken(_) => {}
    }
}

fn enter_all(rt: &impl Abort, cells: &Cells<Bare>, pass: &mut Pass<Bare>, row: Row, offers: Offers)
    requires { IsPassOf cells.now pass.old }
    ensures { IsPassOf cells.now pass.new }
{
    expect_fresh(rt, cells, pass, row);
    match offers {
        Offers::One(offer) => enter(cells, pass, row, &[offer_of(offer)]),
        Offers::Two(first, second) => {
            enter(cells, pass, row, &[offer_of(first), offer_of(second)]);
        }
        Offers::Three(first, second, third) => {
            let offers = [offer_of(first), offer_of(second), offer_of(third)];
            enter(cells, pass, row, &offers);
        }
    }
}

fn wake<R: AllocGlobal + Abort + Wait>(
    rt: &R,
    meet: &Meet,
    cells: &Cells<Bare>,
    lanes: &mut MeetPass,
    pass: &mut Pass<Bare>,
    nack: NackName,
    wanted: &[Row],
) -> Result<(), AllocError>
    requires { IsPassOf cells.now pass.old × IsMeetPassOf meet.now lanes.old }
    ensures { IsPassOf cells.now pass.new × IsMeetPassOf meet.now lanes.new }
{
    let woken = meet.wake(rt, rt.alloc(), cells, pass, lanes, &NoGate, nack)?;
    check_same(rt, woken.as_slice(), wanted, "who is woken");
    Ok(())
}

fn wake_end<R: AllocGlobal + Abort + Wait>(
    rt: &R,
    meet: &Meet,
    cells: &Cells<Bare>,
    lanes: &mut MeetPass,
    pass: &mut Pass<Bare>,
    thread: u8,
    wanted: &[Row],
) -> Result<(), AllocError>
    requires { IsPassOf cells.now pass.old × IsMeetPassOf meet.now lanes.old }
    ensures { IsPassOf cells.now pass.new × IsMeetPassOf meet.now lanes.new }
{
    let woken = meet.wake_end(rt, rt.alloc(), cells, pass, lanes, &NoGate, thread)?;
    check_same(rt, woken.as_slice(), wanted, "who is woken");
    Ok(())
}

fn carry_out<R: AllocGlobal + Abort + Wait>(
    rt: &R,
    meet: &Meet,
    cells: &Cells<Bare>,
    lanes: &mut MeetPass,
    pass: &mut Pass<Bare>,
    act: Act,
) -> Result<(), AllocError>
    requires { IsPassOf cells.now pass.old × IsMeetPassOf meet.now lanes.old }
    ensures { IsPassOf cells.now pass.new × IsMeetPassOf meet.now lanes.new }
{
    match act {
        Act::Enter(row, offers) => enter_all(rt, cells, pass, row, offers),
        Act::Bind(row) => {
            expect_fresh(rt, cells, pass, row);
            check_row(rt, row, cells.bind(pass, 0, row, 0), true, "the nack");
        }
        Act::Search(row, wanted) => {
            expect_opened(rt, cells, pass, row);
            let found = meet.search(rt, cells, pass, lanes, &NoGate, row)?;
            check_row(rt, row, found, wanted, "the search");
        }
        Act::Wake(nack, wanted) => wake(rt, meet, cells, lanes, pass, nack, wanted)?,
        Act::Finish(row) => {
            expect_fresh(rt, cells, pass, row);
            cells.finish(pass, row);
        }
        Act::WakeEnd(thread, wanted) => wake_end(rt, meet, cells, lanes, pass, thread, wanted)?,
        Act::Result(row, wanted) => {
            expect_row(rt, cells, row);
            check_row(rt, row, cells.result(pass, row), wanted, "the result");
        }
    }
    Ok(())
}

/// The pass does all of it, in this order.
pub(super) fn play<R: AllocGlobal + Abort + Wait>(
    rt: &R,
    meet: &Meet,
    cells: &Cells<Bare>,
    lanes: &mut MeetPass,
    pass: &mut Pass<Bare>,
    acts: &[Act],
) -> Result<(), AllocError>
    requires { IsPassOf cells.now pass.old × IsMeetPassOf meet.now lanes.old }
    ensures { IsPassOf cells.now pass.new × IsMeetPassOf meet.now lanes.new }
{
    for act in acts.iter() {
        carry_out(rt, meet, cells, lanes, pass, *act)?;
    }
    Ok(())
}
