//! 30,000 rendezvous of rows that offer on one more channel, where nobody receives: that lane stays short.

ghost use Rattle.std.specs.Prelude.{IsTrue};
ghost use Rattle.cell.specs.Calls.{IsPassOf, IsRowOf};
ghost use Rattle.cell_table.specs.Sight.{AreOffers, Has};
ghost use Rattle.meet.specs.Rooms.{IsMeetPassOf};

use super::table::{Yields, receive, rooms, send, table_of_all};
use cell::{Cells, NoGate, Pass};
use meet::{Meet, MeetPass};
use meet_scan::Found;
use protocol_ledger::Bare;
use protocol_values::{Cell, Course, Offer, Row};
use std::alloc::AllocError;
use std::cell::Cell as Kept;
use std::sync::Wait;
use std::test::Fail;

/// Each of so many pairs of threads meets on a channel of its own.
const PAIRS: u8 = 32;

/// So often.
const ROUNDS: u32 = 940;

/// The channel of which nobody receives.
const SPARE: u8 = 32;

/// Opens the row with these offers, if the pass holds it and it is not open.
fn opens(cells: &Cells<Bare>, pass: &mut Pass<Bare>, row: Row, offers: &[Offer]) -> bool
    requires here { IsPassOf cells.now pass.old }
    requires offers { AreOffers offers.now }
    ensures here { IsPassOf cells.now pass.new }
    ensures opened { IsTrue result → IsRowOf cells.now row × Has pass.new.seen.held row × Has pass.new.seen.opened row }
{
    if !pass.holds(row) || !cells.has(row) || !cells.has_room(offers.len()) {
        return false;
    }
    let Course::Running(_) = cells.course(pass, row.thread) else {
        return false;
    };
    let Cell::Fresh = cells.look(pass, row) else {
        return false;
    };
    cells.draft(pass, row, offers);
    cells.open(pass, row);
    true
}

/// Takes the committed row, so that its thread can go on.
fn takes(cells: &Cells<Bare>, pass: &mut Pass<Bare>, row: Row) -> bool
    requires { IsPassOf cells.now pass.old }
    ensures { IsPassOf cells.now pass.new }
{
    if !cells.has(row) {
        return false;
    }
    cells.take(pass, row).is_some()
}

/// The pair meets on its channel, and both threads go on. Whether it came so.
fn meets<R: Wait>(
    rt: &R,
    meet: &Meet,
    cells: &Cells<Bare>,
    lanes: &mut MeetPass,
    pass: &mut Pass<Bare>,
    pair: u8,
    sync: u32,
) -> Result<bool, AllocError>
    requires here { IsPassOf cells.now pass.old × IsMeetPassOf meet.now lanes.old }
    ensures here { IsPassOf cells.now pass.new × IsMeetPassOf meet.now lanes.new }
{
    let sending = Row { thread: pair, sync };
    let receiving = Row {
        thread: pair.saturating_add(PAIRS),
        sync,
    };
    if !opens(cells, pass, sending, &[send(pair, 42), send(SPARE, 42)]) {
        return Ok(false);
    }
    if meet.search(rt, cells, pass, lanes, &NoGate, sending)? != Found::Waits {
        return Ok(false);
    }
    if !opens(cells, pass, receiving, &[receive(pair, 0)]) {
        return Ok(false);
    }
    if meet.search(rt, cells, pass, lanes, &NoGate, receiving)? != Found::Met(sending) {
        return Ok(false);
    }
    if !takes(cells, pass, sending) {
        return Ok(false);
    }
    Ok(takes(cells, pass, receiving))
}

/// All pairs meet once. Whether they did.
fn all_meet<R: Wait>(
    rt: &R,
    meet: &Meet,
    cells: &Cells<Bare>,
    lanes: &mut MeetPass,
    pass: &mut Pass<Bare>,
    sync: u32,
) -> Result<bool, AllocError>
    requires here { IsPassOf cells.now pass.old × IsMeetPassOf meet.now lanes.old }
    ensures here { IsPassOf cells.now pass.new × IsMeetPassOf meet.now lanes.new }
{
    for pair in 0..PAIRS {
        if !meets(rt, meet, cells, lanes, pass, pair, sync)? {
            return Ok(false);
        }
    }
    Ok(true)
}

/// All pairs meet so often. Whether all went so.
fn meet_often<R: Wait>(
    rt: &R,
    meet: &Meet,
    cells: &Cells<Bare>,
    lanes: &mut MeetPass,
    pass: &mut Pass<Bare>,
) -> Result<bool, AllocError>
    requires here { IsPassOf cells.now pass.old × IsMeetPassOf meet.now lanes.old }
    ensures here { IsPassOf cells.now pass.new × IsMeetPassOf meet.now lanes.new }
{
    for sync in 0..ROUNDS {
        if !all_meet(rt, meet, cells, lanes, pass, sync)? {
            return Ok(false);
        }
    }
    Ok(true)
}

/// How many entries the lane has by then: a row that receives there attempts each, and each yields, for its row is
/// committed. Nothing where the row did not wait.
fn entries_left<R: Wait>(
    rt: &R,
    meet: &Meet,
    cells: &Cells<Bare>,
    lanes: &mut MeetPass,
    pass: &mut Pass<Bare>,
) -> Result<Option<u32>, AllocError>
    requires here { IsPassOf cells.now pass.old × IsMeetPassOf meet.now lanes.old }
    ensures here { IsPassOf cells.now pass.new × IsMeetPassOf meet.now lanes.new }
{
    let last = Row {
        thread: PAIRS,
        sync: ROUNDS,
    };
    if !opens(cells, pass, last, &[receive(SPARE, 0)]) {
        return Ok(None);
    }
    let yields = Yields {
        count: Kept::new(0),
    };
    if meet.search(rt, cells, pass, lanes, &yields, last)? != Found::Waits {
        return Ok(None);
    }
    Ok(Some(yields.count.get()))
}

// Nobody looks at the lane before the last row does.
#[test]
fn a_lane_that_nobody_looks_at_stays_short(rt: HostRuntime) -> Result<(), Fail> {
    let (cells, mut pass) = table_of_all(rt.alloc(), 64, 1024)?;
    let (meet, mut lanes) = rooms(rt.alloc(), 33, 64)?;
    let all_met = meet_often(&rt, &meet, &cells, &mut lanes, &mut pass)?;
    assert!(rt; all_met, "a pair did not meet");
    let Some(count) = entries_left(&rt, &meet, &cells, &mut lanes, &mut pass)? else {
        panic!(&rt; "the last row did not wait")
    };
    assert!(rt; count >= 1 && count <= 128, "{} entries", count);
    Ok(())
}
