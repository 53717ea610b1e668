//! Rows that wait for a nack, or for the end of a thread.

ghost use Rattle.std.specs.Prelude.{◌≡◌, [], ◌∷◌};
ghost use Rattle.cell.specs.Calls.{IsPassOf, IsRowOf};
ghost use Rattle.cell_table.specs.Sight.{AreOffers, Has};
ghost use Rattle.protocol_ledger.specs.Worlds.{first_row};

use super::acts::{Act, Offers, Single};
use super::searches::check_acts;
use super::table::{NACK, always, enter, receive, row};
use cell::{Cells, Pass};
use meet_scan::Found;
use protocol_ledger::Bare;
use protocol_values::{Message, NackName, Offer, Row};
use std::test::Fail;

/// A receive inside scope 0, and an always outside it.
fn two() -> [Offer; 2]
    ensures { AreOffers result }
{
    [receive(0, 1), always()]
}

/// Binds the first nack of thread 0 to its first row and scope 0, and opens the row with a receive
/// inside the scope and an always outside it.
pub(super) fn enter_bound(cells: &Cells<Bare>, pass: &mut Pass<Bare>) -> bool
    requires here { IsPassOf cells.now pass.old × IsRowOf cells.now (first_row 0) }
    requires fresh { Has pass.old.seen.held (first_row 0) × (pass.old.seen.opened ≡ []) × (pass.old.seen.ended ≡ []) }
    ensures here { IsPassOf cells.now pass.new }
    ensures held { pass.new.seen.held ≡ pass.old.seen.held }
    ensures opened { pass.new.seen.opened ≡ first_row 0 ∷ [] }
{
    let bound = cells.bind(pass, 0, row(0), 0);
    if !bound {
        cells.open(pass, row(0));
        return false;
    }
    enter(cells, pass, row(0), &two());
    true
}

const FIRST: Row = Row { thread: 0, sync: 0 };

const SECOND: Row = Row { thread: 1, sync: 0 };

const THIRD: Row = Row { thread: 2, sync: 0 };

const WAITER_IS_WOKEN: [Act; 8] = [
    Act::Bind(FIRST),
    Act::Enter(FIRST, Offers::Two(Single::ReceiveInside, Single::Always)),
    Act::Enter(SECOND, Offers::One(Single::Cancelled)),
    Act::Search(SECOND, Found::Waits),
    Act::Search(FIRST, Found::Alone),
    Act::Wake(NACK, &[SECOND]),
    Act::Result(SECOND, Some(Message::Empty)),
    Act::Wake(NACK, &[]),
];

#[test]
fn woken(rt: HostRuntime) -> Result<(), Fail> {
    check_acts(&rt, 2, 1, 2, &WAITER_IS_WOKEN, 2)?;
    Ok(())
}

const ENABLED: [Act; 12] = [
    Act::Bind(FIRST),
    Act::Enter(FIRST, Offers::Two(Single::ReceiveInside, Single::Always)),
    Act::Enter(SECOND, Offers::Two(Single::Cancelled, Single::Cancelled)),
    Act::Enter(THIRD, Offers::Two(Single::Receive(0), Single::Cancelled)),
    Act::Search(SECOND, Found::Waits),
    Act::Search(THIRD, Found::Waits),
    Act::Wake(NACK, &[]),
    Act::Search(FIRST, Found::Alone),
    Act::Wake(NackName { thread: 0, k: 1 }, &[]),
    Act::Wake(NackName { thread: 3, k: 64 }, &[]),
    Act::Wake(NACK, &[SECOND, THIRD]),
    Act::Result(THIRD, Some(Message::Empty)),
];

#[test]
fn only_an_enabled_nack_wakes(rt: HostRuntime) -> Result<(), Fail> {
    check_acts(&rt, 3, 1, 3, &ENABLED, 3)?;
    Ok(())
}

const ENDED: [Act; 10] = [
    Act::Enter(SECOND, Offers::One(Single::Joined)),
    Act::Enter(THIRD, Offers::Two(Single::Receive(0), Single::Joined)),
    Act::Search(SECOND, Found::Waits),
    Act::Search(THIRD, Found::Waits),
    Act::WakeEnd(0, &[]),
    Act::Finish(FIRST),
    Act::WakeEnd(1, &[]),
    Act::WakeEnd(64, &[]),
    Act::WakeEnd(0, &[SECOND, THIRD]),
    Act::Result(THIRD, Some(Message::Empty)),
];

#[test]
fn only_an_end_wakes_who_waits_for_it(rt: HostRuntime) -> Result<(), Fail> {
    check_acts(&rt, 3, 1, 3, &ENDED, 2)?;
    Ok(())
}

const ENDED_BEFORE: [Act; 4] = [
    Act::Finish(FIRST),
    Act::Enter(SECOND, Offers::One(Single::Joined)),
    Act::Search(SECOND, Found::Alone),
    Act::WakeEnd(0, &[]),
];

#[test]
fn who_comes_behind_an_end_waits_for_nothing(rt: HostRuntime) -> Result<(), Fail> {
    check_acts(&rt, 2, 1, 2, &ENDED_BEFORE, 1)?;
    Ok(())
}
