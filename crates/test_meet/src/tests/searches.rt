//! Searches of one thread, for rows that it holds all.

ghost use Rattle.std.specs.Prelude.{◌≤◌};

use super::acts::{Act, Offers, Single, check_closed, play};
use super::table::{rooms, table};
use meet_scan::Found;
use protocol_values::{Atom, Message, Row};
use std::alloc::AllocError;
use std::process::Abort;
use std::sync::Wait;
use std::test::Fail;

const FIRST: Row = Row { thread: 0, sync: 0 };

const SECOND: Row = Row { thread: 1, sync: 0 };

const THIRD: Row = Row { thread: 2, sync: 0 };

const FOURTH: Row = Row { thread: 3, sync: 0 };

/// The acts at a table of so many threads, with the rooms of so many channels. So many commits come of them.
pub(super) fn check_acts<R: AllocGlobal + Abort + Wait>(
    rt: &R,
    threads: u8,
    channels: u16,
    nacks: u8,
    acts: &[Act],
    commits: usize,
) -> Result<(), AllocError>
    requires { (1 ≤ threads) × (threads ≤ 16) }
{
    let (cells, mut pass) = table(rt.alloc(), threads)?;
    let (meet, mut lanes) = rooms(rt.alloc(), channels, nacks)?;
    play(rt, &meet, &cells, &mut lanes, &mut pass, acts)?;
    check_closed(rt, cells, pass, commits)
}

const PAIR: [Act; 7] = [
    Act::Enter(FIRST, Offers::Two(Single::Receive(0), Single::Send(1, 42))),
    Act::Enter(SECOND, Offers::Two(Single::Send(0, 7), Single::Receive(1))),
    Act::Search(FIRST, Found::Waits),
    Act::Search(SECOND, Found::Met(FIRST)),
    Act::Result(FIRST, Some(Message::One(Atom::Num(7)))),
    Act::Result(SECOND, Some(Message::Empty)),
    Act::Search(FIRST, Found::Already),
];

#[test]
fn a_send_meets_a_receive(rt: HostRuntime) -> Result<(), Fail> {
    check_acts(&rt, 2, 2, 2, &PAIR, 1)?;
    Ok(())
}

const ALIKE: [Act; 7] = [
    Act::Enter(FIRST, Offers::Two(Single::Send(0, 1), Single::Receive(0))),
    Act::Enter(SECOND, Offers::One(Single::Send(1, 2))),
    Act::Enter(THIRD, Offers::One(Single::Send(1, 3))),
    Act::Search(FIRST, Found::Waits),
    Act::Search(SECOND, Found::Waits),
    Act::Search(THIRD, Found::Waits),
    Act::Search(FIRST, Found::Waits),
];

#[test]
fn a_row_meets_neither_itself_nor_its_own_direction(rt: HostRuntime) -> Result<(), Fail> {
    check_acts(&rt, 3, 2, 3, &ALIKE, 0)?;
    Ok(())
}

const OLDEST: [Act; 8] = [
    Act::Enter(FIRST, Offers::Two(Single::Receive(0), Single::Always)),
    Act::Enter(SECOND, Offers::One(Single::Send(0, 1))),
    Act::Enter(THIRD, Offers::One(Single::Send(0, 2))),
    Act::Enter(FOURTH, Offers::One(Single::Receive(0))),
    Act::Search(FIRST, Found::Alone),
    Act::Search(THIRD, Found::Waits),
    Act::Search(SECOND, Found::Waits),
    Act::Search(FOURTH, Found::Met(THIRD)),
];

#[test]
fn the_oldest_that_waits_is_met(rt: HostRuntime) -> Result<(), Fail> {
    check_acts(&rt, 4, 1, 4, &OLDEST, 2)?;
    Ok(())
}

const TAKEN_UP: [Act; 9] = [
    Act::Enter(FIRST, Offers::One(Single::Send(0, 1))),
    Act::Enter(SECOND, Offers::One(Single::Send(0, 2))),
    Act::Enter(THIRD, Offers::One(Single::Receive(0))),
    Act::Enter(FOURTH, Offers::One(Single::Receive(0))),
    Act::Search(FIRST, Found::Waits),
    Act::Search(SECOND, Found::Waits),
    Act::Search(THIRD, Found::Met(FIRST)),
    Act::Search(THIRD, Found::Already),
    Act::Search(FOURTH, Found::Met(SECOND)),
];

// The third row meets the first; its second search takes up what the second row put in, and meets nothing.
#[test]
fn what_a_committed_row_took_up_waits_on(rt: HostRuntime) -> Result<(), Fail> {
    check_acts(&rt, 4, 1, 4, &TAKEN_UP, 2)?;
    Ok(())
}

const UNFIT: [Act; 5] = [
    Act::Enter(
        FIRST,
        Offers::Three(Single::Send(0, 1), Single::Send(0, 2), Single::Receive(0)),
    ),
    Act::Enter(SECOND, Offers::One(Single::Receive(0))),
    Act::Search(FIRST, Found::Waits),
    Act::Search(SECOND, Found::Met(FIRST)),
    Act::Result(SECOND, Some(Message::One(Atom::Num(1)))),
];

// The first row takes up both its own sends, which it cannot meet.
#[test]
fn what_did_not_fit_waits_on_in_its_order(rt: HostRuntime) -> Result<(), Fail> {
    check_acts(&rt, 2, 1, 2, &UNFIT, 1)?;
    Ok(())
}

const NO_ROOM: [Act; 4] = [
    Act::Enter(FIRST, Offers::Two(Single::Send(1, 1), Single::Cancelled)),
    Act::Enter(
        SECOND,
        Offers::Two(Single::Receive(1), Single::Send(255, 1)),
    ),
    Act::Search(FIRST, Found::Waits),
    Act::Search(SECOND, Found::Met(FIRST)),
];

#[test]
fn what_has_no_room_is_found_by_the_directory(rt: HostRuntime) -> Result<(), Fail> {
    check_acts(&rt, 2, 1, 0, &NO_ROOM, 1)?;
    Ok(())
}
