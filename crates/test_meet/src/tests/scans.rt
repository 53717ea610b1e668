//! Searches by the directory alone, on one thread, and what one pass tells another.

ghost use Rattle.std.specs.Prelude.{◌≡◌, ◌<◌, ◌≤◌, []};
ghost use Rattle.cell.specs.Calls.{IsPassOf};
ghost use Rattle.cell_table.specs.Sight.{AreOffers, Has};
ghost use Rattle.meet_directory.specs.Seats.{Sits};
ghost use Rattle.protocol_ledger.specs.Worlds.{first_row};

use super::table::{always, enter, receive, row, send, table_of_two};
use super::threads::rooms;
use cell::{Cells, NoGate, Pass};
use meet_directory::{Directory, DirectoryPass};
use meet_scan::{Found, search_once};
use protocol_ledger::Bare;
use protocol_values::Offer;
use std::test::Fail;

/// How many sides the directory has: two for each channel that an offer can name.
const SIDES: u32 = 512;

/// A search begins with no thread.
const NOBODY: u8 = 64;

/// Opens the first row of the thread with these offers, and searches once.
fn search(
    directory: &Directory,
    scan: &mut DirectoryPass,
    cells: &Cells<Bare>,
    pass: &mut Pass<Bare>,
    thread: u8,
    offers: &[Offer],
) -> Option<Found>
    requires here { IsPassOf cells.now pass.old × (cells.now.threads ≡ 2) × (cells.now.rows ≡ 1) × (thread < 2) }
    requires fresh { Has pass.old.seen.held (first_row thread) × (pass.old.seen.opened ≡ []) × (pass.old.seen.ended ≡ []) }
    requires offers { AreOffers offers.now }
    requires sits { Sits directory.now scan.old × (512 ≤ directory.now.sides) }
    ensures here { IsPassOf cells.now pass.new }
    ensures opened { Has pass.new.seen.held (first_row thread) × Has pass.new.seen.opened (first_row thread) }
    ensures sits { Sits directory.now scan.new }
{
    enter(cells, pass, row(thread), offers);
    search_once(
        directory,
        scan,
        cells,
        pass,
        &NoGate,
        row(thread),
        NOBODY,
        true,
    )
}

// The row that was found says so when it is searched again.
#[test]
fn the_second_of_two_rows_finds_the_first(rt: HostRuntime) -> Result<(), Fail> {
    let (cells, mut first, mut second) = table_of_two(rt.alloc(), 1)?;
    let (directory, mut mine) = Directory::new(rt.alloc(), SIDES)?;
    let mut theirs = directory.another(&mut mine);
    let receives = [receive(0, 0), receive(1, 0)];
    let waits = search(&directory, &mut mine, &cells, &mut first, 0, &receives);
    assert!(rt; waits == Some(Found::Waits));
    let sends = [receive(0, 0), send(1, 42)];
    let finds = search(&directory, &mut theirs, &cells, &mut second, 1, &sends);
    assert!(rt; finds == Some(Found::Met(row(0))));
    let again = search_once(
        &directory,
        &mut mine,
        &cells,
        &mut first,
        &NoGate,
        row(0),
        NOBODY,
        true,
    );
    assert!(rt; again == Some(Found::Already));
    Ok(())
}

#[test]
fn rows_that_do_not_meet_are_left(rt: HostRuntime) -> Result<(), Fail> {
    let (cells, mut first, mut second) = table_of_two(rt.alloc(), 1)?;
    let (directory, mut mine) = Directory::new(rt.alloc(), SIDES)?;
    let mut theirs = directory.another(&mut mine);
    let sends = [send(0, 42), receive(1, 0)];
    let waits = search(&directory, &mut mine, &cells, &mut first, 0, &sends);
    assert!(rt; waits == Some(Found::Waits));
    let others = [send(0, 43), receive(1, 0)];
    let finds = search(&directory, &mut theirs, &cells, &mut second, 1, &others);
    assert!(rt; finds == Some(Found::Waits));
    Ok(())
}

#[test]
fn an_always_is_committed_alone(rt: HostRuntime) -> Result<(), Fail> {
    let (cells, mut first, _second) = table_of_two(rt.alloc(), 1)?;
    let (directory, mut mine) = Directory::new(rt.alloc(), SIDES)?;
    let offers = [receive(0, 0), always()];
    let found = search(&directory, &mut mine, &cells, &mut first, 0, &offers);
    assert!(rt; found == Some(Found::Alone));
    Ok(())
}

#[test]
fn who_was_told_searches_on(rt: HostRuntime) -> Result<(), Fail> {
    let (cells, mut first, mut second) = table_of_two(rt.alloc(), 1)?;
    let (meet, mut mine, mut theirs) = rooms(rt.alloc(), 1)?;
    enter(&cells, &mut first, row(0), &[receive(0, 0)]);
    let waits = meet.search(&rt, &cells, &mut first, &mut mine, &NoGate, row(0))?;
    assert!(rt; waits == Found::Waits);
    meet.tell(&mut mine, &mut theirs);
    enter(&cells, &mut second, row(1), &[send(0, 42)]);
    let finds = meet.search(&rt, &cells, &mut second, &mut theirs, &NoGate, row(1))?;
    assert!(rt; finds == Found::Met(row(0)));
    Ok(())
}
