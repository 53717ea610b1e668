//! Two threads that search at once: no pair is missed, as a law says, and nobody who waits for a nack or for an end is.
//! Of the latter no clause says so, for what stands in lanes are hints.

ghost use Rattle.std.specs.Prelude.{◌≡◌, [], IfOk};
ghost use Rattle.protocol_values.specs.Words.{IsOfferInRange};
ghost use Rattle.cell.specs.Calls.{IsPassOf, IsRowOf};
ghost use Rattle.cell_table.specs.Sight.{Has};
ghost use Rattle.protocol_ledger.specs.Worlds.{first_row};
ghost use Rattle.meet.specs.Rooms.{IsMeetPassOf};

use super::table::{NACK, cancelled, enter, joined, last, receive, row, send, table_of_two};
use super::wakings::enter_bound;
use cell::{Cells, NoGate, Pass};
use meet::{Meet, MeetPass};
use meet_scan::Found;
use protocol_ledger::Bare;
use protocol_values::Offer;
use std::alloc::{AllocError, Global};
use std::sync::Wait;
use std::sync::atomic::{AtomicU64, Ordering};
use std::test::Fail;
use std::thread;

/// How many tables are played, one after another.
const TABLES: u32 = 300;

/// How often a thread looks whether the other has arrived.
const TURNS: u32 = 10_000;

/// The rooms of so many channels and of two threads, and a pass of them for each thread.
pub(super) fn rooms(alloc: Global, channels: u16) -> Result<(Meet, MeetPass, MeetPass), AllocError>
    ensures { IfOk result (λ m. IsMeetPassOf m.0 m.1 × IsMeetPassOf m.0 m.2) }
{
    let (meet, mut all) = Meet::new(alloc, channels, 2, 2)?;
    let second = last(&meet, &mut all);
    let first = last(&meet, &mut all);
    Ok((meet, first, second))
}

/// Waits a little for the other thread, so that they play at once.
fn line_up(arrived: &AtomicU64) {
    arrived.fetch_add(1, Ordering::SeqCst);
    for _ in 0..TURNS {
        if arrived.load(Ordering::SeqCst) >= 2 {
            return;
        }
        thread::yield_now();
    }
}

/// Opens the thread's row with this offer, and searches.
fn search<R: Wait>(
    rt: &R,
    meet: &Meet,
    cells: &Cells<Bare>,
    mut pass: Pass<Bare>,
    mut lanes: MeetPass,
    thread: u8,
    offer: Offer,
    arrived: &AtomicU64,
) -> (Result<Found, AllocError>, Pass<Bare>)
    requires here { IsPassOf cells.now pass × IsRowOf cells.now (first_row thread) }
    requires fresh { Has pass.seen.held (first_row thread) × (pass.seen.opened ≡ []) × (pass.seen.ended ≡ []) }
    requires offer { IsOfferInRange offer }
    requires lanes { IsMeetPassOf meet.now lanes }
    ensures here { IsPassOf cells.now result.1 }
{
    line_up(arrived);
    enter(cells, &mut pass, row(thread), &[offer]);
    let found = meet.search(rt, cells, &mut pass, &mut lanes, &NoGate, row(thread));
    (found, pass)
}

/// Commits the first thread's row outside the scope of its nack, and wakes who waits for that. How
/// many were woken.
fn commit_and_wake<R: Wait>(
    rt: &R,
    alloc: Global,
    meet: &Meet,
    cells: &Cells<Bare>,
    mut pass: Pass<Bare>,
    mut lanes: MeetPass,
    arrived: &AtomicU64,
) -> (Result<usize, AllocError>, Pass<Bare>)
    requires here { IsPassOf cells.now pass × IsRowOf cells.now (first_row 0) }
    requires opened { Has pass.seen.held (first_row 0) × Has pass.seen.opened (first_row 0) }
    requires lanes { IsMeetPassOf meet.now lanes }
    ensures here { IsPassOf cells.now result.1 }
{
    line_up(arrived);
    if let Err(failed) = meet.search(rt, cells, &mut pass, &mut lanes, &NoGate, row(0)) {
        return (Err(failed), pass);
    }
    let woken = meet.wake(rt, alloc, cells, &mut pass, &mut lanes, &NoGate, NACK);
    (woken.map(|rows| rows.len()), pass)
}

/// Ends the first thread, and wakes who waits for that. How many were woken.
fn finish_and_wake<R: Wait>(
    rt: &R,
    alloc: Global,
    meet: &Meet,
    cells: &Cells<Bare>,
    mut pass: Pass<Bare>,
    mut lanes: MeetPass,
    arrived: &AtomicU64,
) -> (Result<usize, AllocError>, Pass<Bare>)
    requires here { IsPassOf cells.now pass × IsRowOf cells.now (first_row 0) }
    requires fresh { Has pass.seen.held (first_row 0) × (pass.seen.opened ≡ []) × (pass.seen.ended ≡ []) }
    requires lanes { IsMeetPassOf meet.now lanes }
    ensures here { IsPassOf cells.now result.1 }
{
    line_up(arrived);
    cells.finish(&mut pass, row(0));
    let woken = meet.wake_end(rt, alloc, cells, &mut pass, &mut lanes, &NoGate, 0);
    (woken.map(|rows| rows.len()), pass)
}

// Every other table has no room for the channel, so the directory alone finds the pair.
#[test]
fn no_pair_is_missed(rt: HostRuntime) -> Result<(), Fail> {
    for table in 0..TABLES {
        let (cells, sender, receiver) = table_of_two(rt.alloc(), 1)?;
        let (meet, first, second) = rooms(rt.alloc(), (table % 2) as u16)?;
        let arrived = AtomicU64::new(0);
        let ((sent, mut sender), (received, mut receiver)) = thread::join(
            &rt,
            || -> (Result<Found, AllocError>, Pass<Bare>)
                requires here { IsPassOf cells sender × IsRowOf cells (first_row 0) }
                requires lanes { IsMeetPassOf meet first }
                requires fresh { Has sender.seen.held (first_row 0) × (sender.seen.opened ≡ []) × (sender.seen.ended ≡ []) }
                ensures here { IsPassOf cells result.1 }
            { search(&rt, &meet, &cells, sender, first, 0, send(0, 42), &arrived) },
            || -> (Result<Found, AllocError>, Pass<Bare>)
                requires here { IsPassOf cells receiver × IsRowOf cells (first_row 1) }
                requires lanes { IsMeetPassOf meet second }
                requires fresh { Has receiver.seen.held (first_row 1) × (receiver.seen.opened ≡ []) × (receiver.seen.ended ≡ []) }
                ensures here { IsPassOf cells result.1 }
            {
                search(
                    &rt,
                    &meet,
                    &cells,
                    receiver,
                    second,
                    1,
                    receive(0, 0),
                    &arrived,
                )
            },
        );
        let found = (sent?, received?);
        assert!(rt; found.0 == Found::Met(row(1)) || found.1 == Found::Met(row(0)));
        cells.tell(&mut receiver, &mut sender);
        let ledger = cells.close(sender);
        assert!(rt; ledger.commits()?.len() == 1);
    }
    Ok(())
}

#[test]
fn nobody_who_waits_for_a_nack_is_missed(rt: HostRuntime) -> Result<(), Fail> {
    for _ in 0..TABLES {
        let (cells, mut committer, waiter) = table_of_two(rt.alloc(), 1)?;
        let (meet, first, second) = rooms(rt.alloc(), 1)?;
        let arrived = AtomicU64::new(0);
        assert!(rt; enter_bound(&cells, &mut committer));
        let ((woken, mut committer), (found, mut waiter)) = thread::join(
            &rt,
            || -> (Result<usize, AllocError>, Pass<Bare>)
                requires here { IsPassOf cells committer × IsRowOf cells (first_row 0) }
                requires lanes { IsMeetPassOf meet first }
                requires opened { Has committer.seen.held (first_row 0) × Has committer.seen.opened (first_row 0) }
                ensures here { IsPassOf cells result.1 }
            { commit_and_wake(&rt, rt.alloc(), &meet, &cells, committer, first, &arrived) },
            || -> (Result<Found, AllocError>, Pass<Bare>)
                requires here { IsPassOf cells waiter × IsRowOf cells (first_row 1) }
                requires lanes { IsMeetPassOf meet second }
                requires fresh { Has waiter.seen.held (first_row 1) × (waiter.seen.opened ≡ []) × (waiter.seen.ended ≡ []) }
                ensures here { IsPassOf cells result.1 }
            { search(&rt, &meet, &cells, waiter, second, 1, cancelled(), &arrived) },
        );
        let (woken, found) = (woken?, found?);
        assert!(rt; (found == Found::Alone) == (woken == 0));
        cells.tell(&mut waiter, &mut committer);
        let ledger = cells.close(committer);
        assert!(rt; ledger.commits()?.len() == 2);
    }
    Ok(())
}

#[test]
fn nobody_who_waits_for_an_end_is_missed(rt: HostRuntime) -> Result<(), Fail> {
    for _ in 0..TABLES {
        let (cells, ender, waiter) = table_of_two(rt.alloc(), 1)?;
        let (meet, first, second) = rooms(rt.alloc(), 1)?;
        let arrived = AtomicU64::new(0);
        let ((woken, mut ender), (found, mut waiter)) = thread::join(
            &rt,
            || -> (Result<usize, AllocError>, Pass<Bare>)
                requires here { IsPassOf cells ender × IsRowOf cells (first_row 0) }
                requires lanes { IsMeetPassOf meet first }
                requires fresh { Has ender.seen.held (first_row 0) × (ender.seen.opened ≡ []) × (ender.seen.ended ≡ []) }
                ensures here { IsPassOf cells result.1 }
            { finish_and_wake(&rt, rt.alloc(), &meet, &cells, ender, first, &arrived) },
            || -> (Result<Found, AllocError>, Pass<Bare>)
                requires here { IsPassOf cells waiter × IsRowOf cells (first_row 1) }
                requires lanes { IsMeetPassOf meet second }
                requires fresh { Has waiter.seen.held (first_row 1) × (waiter.seen.opened ≡ []) × (waiter.seen.ended ≡ []) }
                ensures here { IsPassOf cells result.1 }
            { search(&rt, &meet, &cells, waiter, second, 1, joined(0), &arrived) },
        );
        let (woken, found) = (woken?, found?);
        assert!(rt; (found == Found::Alone) == (woken == 0));
        cells.tell(&mut waiter, &mut ender);
        let ledger = cells.close(ender);
        assert!(rt; ledger.commits()?.len() == 1);
    }
    Ok(())
}
