//! A lane that many rows pass keeps few of them. No clause says so, for what stands in lanes are hints.

ghost use Rattle.std.specs.Prelude.{◌≡◌, ◌+◌, ◌<◌, ◌≤◌, IfOk, IsTrue};
ghost use Rattle.protocol_values.specs.declared.Row.{Row};
ghost use Rattle.cell.specs.Calls.{IsPassOf};
ghost use Rattle.cell_table.specs.Sight.{Has, SawEnded};
ghost use Rattle.meet.specs.Rooms.{IsMeetPassOf};

use super::table::{Yields, enter, receive, rooms, send, table_of_two};
use cell::{Cells, NoGate, Pass};
use meet::{Meet, MeetPass};
use meet_scan::Found;
use protocol_ledger::Bare;
use protocol_values::Row;
use std::alloc::AllocError;
use std::cell::Cell as Kept;
use std::sync::Wait;
use std::test::Fail;

/// How many rows wait in the lane, one after another.
const ROWS: u16 = 1_000;

/// The first thread's row waits on two channels, and the second thread's meets it on the first of them.
/// Both threads go on. Whether it came so.
fn meet_on_first<R: Wait>(
    rt: &R,
    meet: &Meet,
    cells: &Cells<Bare>,
    lanes: &mut MeetPass,
    waiter: &mut Pass<Bare>,
    sender: &mut Pass<Bare>,
    sync: u32,
) -> Result<bool, AllocError>
    requires here { IsPassOf cells.now waiter.old × IsPassOf cells.now sender.old × (cells.now.threads ≡ 2) × (sync + 1 < cells.now.rows) × (cells.now.rows ≤ 1024) }
    requires waiter { Has waiter.old.seen.held (record { thread = 0; sync = sync }) × (¬ Has waiter.old.seen.opened (record { thread = 0; sync = sync })) × (¬ SawEnded waiter.old.seen 0) }
    requires sender { Has sender.old.seen.held (record { thread = 1; sync = sync }) × (¬ Has sender.old.seen.opened (record { thread = 1; sync = sync })) × (¬ SawEnded sender.old.seen 1) }
    requires lanes { IsMeetPassOf meet.now lanes.old }
    ensures here { IsPassOf cells.now waiter.new × IsPassOf cells.now sender.new }
    ensures waiter { IfOk result (λ met. IsTrue met → Has waiter.new.seen.held (record { thread = 0; sync = sync + 1 }) × (¬ Has waiter.new.seen.opened (record { thread = 0; sync = sync + 1 })) × (¬ SawEnded waiter.new.seen 0)) }
    ensures sender { IfOk result (λ met. IsTrue met → Has sender.new.seen.held (record { thread = 1; sync = sync + 1 }) × (¬ Has sender.new.seen.opened (record { thread = 1; sync = sync + 1 })) × (¬ SawEnded sender.new.seen 1)) }
    ensures lanes { IsMeetPassOf meet.now lanes.new }
{
    let waiting = Row { thread: 0, sync };
    enter(cells, waiter, waiting, &[receive(0, 0), receive(1, 0)]);
    if meet.search(rt, cells, waiter, lanes, &NoGate, waiting)? != Found::Waits {
        return Ok(false);
    }
    let sending = Row { thread: 1, sync };
    enter(cells, sender, sending, &[send(0, 42)]);
    if meet.search(rt, cells, sender, lanes, &NoGate, sending)? != Found::Met(waiting) {
        return Ok(false);
    }
    if cells.take(waiter, waiting).is_none() {
        return Ok(false);
    }
    Ok(cells.take(sender, sending).is_some())
}

/// So goes each row of the two threads but the last. Whether all came so.
fn meet_all<R: Wait>(
    rt: &R,
    meet: &Meet,
    cells: &Cells<Bare>,
    lanes: &mut MeetPass,
    waiter: &mut Pass<Bare>,
    sender: &mut Pass<Bare>,
) -> Result<bool, AllocError>
    requires here { IsPassOf cells.now waiter.old × IsPassOf cells.now sender.old × (cells.now.threads ≡ 2) × (cells.now.rows ≡ 1001) }
    requires waiter { Has waiter.old.seen.held (record { thread = 0; sync = 0 }) × (¬ Has waiter.old.seen.opened (record { thread = 0; sync = 0 })) × (¬ SawEnded waiter.old.seen 0) }
    requires sender { Has sender.old.seen.held (record { thread = 1; sync = 0 }) × (¬ Has sender.old.seen.opened (record { thread = 1; sync = 0 })) × (¬ SawEnded sender.old.seen 1) }
    requires lanes { IsMeetPassOf meet.now lanes.old }
    ensures here { IsPassOf cells.now waiter.new × IsPassOf cells.now sender.new }
    ensures sender { IfOk result (λ met. IsTrue met → Has sender.new.seen.held (record { thread = 1; sync = 1000 }) × (¬ Has sender.new.seen.opened (record { thread = 1; sync = 1000 })) × (¬ SawEnded sender.new.seen 1)) }
    ensures lanes { IsMeetPassOf meet.now lanes.new }
{
    for sync in 0..u32::from(ROWS) {
        if !meet_on_first(rt, meet, cells, lanes, waiter, sender, sync)? {
            return Ok(false);
        }
    }
    Ok(true)
}

// The last row attempts each entry of the second channel's lane, and the rows of all are committed.
#[test]
fn a_lane_keeps_few_entries_of_committed_rows(rt: HostRuntime) -> Result<(), Fail> {
    let (cells, mut waiter, mut sender) = table_of_two(rt.alloc(), ROWS + 1)?;
    let (meet, mut lanes) = rooms(rt.alloc(), 2, 2)?;
    let all_met = meet_all(&rt, &meet, &cells, &mut lanes, &mut waiter, &mut sender)?;
    assert!(rt; all_met);
    let last = Row {
        thread: 1,
        sync: u32::from(ROWS),
    };
    enter(&cells, &mut sender, last, &[send(1, 42)]);
    let yields = Yields {
        count: Kept::new(0),
    };
    assert!(rt; meet.search(&rt, &cells, &mut sender, &mut lanes, &yields, last)? == Found::Waits);
    assert!(rt; yields.count.get() <= 64, "{} entries", yields.count.get());
    Ok(())
}
