//! Worked schedules, and worlds at the ends of their ranges.

ghost use Rattle.std.specs.Prelude.{◌≤◌};

use protocol::{ProtoFault, World, play};
use protocol_ledger::Ledger;
use protocol_values::{Atom, Cause, Commit, Message, Row, Seat, Step};
use std::alloc::{AllocError, AllocGlobal, Global};
use std::fmt::Debug;
use std::process::Abort;
use std::test::Fail;

pub(crate) type Move = (Seat, Step);

/// Stops the test where the values differ, and prints both.
pub(crate) fn check_same<T: PartialEq + Debug + Drop>(
    rt: &impl Abort,
    found: T,
    wanted: T,
    what: &str,
) {
    assert!(rt; found == wanted, "{what}: {found:?} is not {wanted:?}");
}

/// A world of so many threads and rows, with a seat for each thread, plays the steps.
fn played(alloc: Global, threads: u8, rows: u16, steps: &[Move]) -> Result<Ledger, ProtoFault>
    requires threads { (1 ≤ threads) × (threads ≤ 16) }
    requires rows { (1 ≤ rows) × (rows ≤ 1024) }
{
    let world = World::start(alloc, threads, rows, threads)?;
    Ok(play(world, steps)?.ledger())
}

fn joined(alloc: Global, front: &[Move], back: &[Move]) -> Result<Vec<Move>, AllocError> {
    let mut steps = Vec::new(alloc);
    for step in front.iter() {
        steps.push(*step)?;
    }
    for step in back.iter() {
        steps.push(*step)?;
    }
    Ok(steps)
}

pub(crate) fn check_ledger(
    rt: &(impl Abort + AllocGlobal),
    ledger: &Ledger,
    commits: &[Commit],
    pending: u32,
) -> Result<(), AllocError> {
    check_same(rt, ledger.commits()?.as_slice(), commits, "the commits");
    check_same(rt, ledger.pending(), pending, "the pending");
    Ok(())
}

pub(crate) const SENDER: Row = Row { thread: 0, sync: 0 };

pub(crate) const RECEIVER: Row = Row { thread: 1, sync: 0 };

pub(crate) fn draft(seat: u8, row: Row, place: u8, value: u64) -> (Seat, Step) {
    (Seat(seat), Step::Draft { row, place, value })
}

/// Two rows that offer a send of 42 and a receive on channel 0, both open and both claimed.
pub(crate) fn crossed() -> [(Seat, Step); 9] {
    [
        draft(0, SENDER, 1, 1),
        draft(0, SENDER, 2, 8_388_609),
        draft(0, SENDER, 3, 168),
        (Seat(0), Step::Open { row: SENDER }),
        draft(1, RECEIVER, 1, 1),
        draft(1, RECEIVER, 2, 2),
        (Seat(1), Step::Open { row: RECEIVER }),
        (Seat(0), Step::Claim { row: SENDER }),
        (Seat(1), Step::Claim { row: RECEIVER }),
    ]
}

pub(crate) const JOIN: Step = Step::Join {
    mine: SENDER,
    own: 0,
    other: RECEIVER,
    partner: 0,
};

pub(crate) const JOIN_BACK: Step = Step::Join {
    mine: RECEIVER,
    own: 0,
    other: SENDER,
    partner: 0,
};

pub(crate) const RENDEZVOUS: Commit = Commit::Pair {
    sender: (SENDER, 0),
    receiver: (RECEIVER, 0),
    chan: 0,
    msg: Message::One(Atom::Num(42)),
    stamp: 1,
};

const SEAL: Step = Step::Seal { row: SENDER };

const YIELD: Step = Step::Yield { row: RECEIVER };

/// After these steps the one commit is there, and so many rows are to be sealed.
fn check_rendezvous(
    rt: &(impl Abort + AllocGlobal),
    back: &[Move],
    pending: u32,
) -> Result<(), Fail> {
    let steps = joined(rt.alloc(), &crossed(), back)?;
    let ledger = played(rt.alloc(), 2, 1, &steps)?;
    check_ledger(rt, &ledger, &[RENDEZVOUS], pending)?;
    check_same(
        rt,
        ledger.commit_of(SENDER),
        Some(RENDEZVOUS),
        "the sender's",
    );
    check_same(
        rt,
        ledger.commit_of(RECEIVER),
        Some(RENDEZVOUS),
        "the receiver's",
    );
    Ok(())
}

#[test]
fn a_pair_counts_from_the_join_on(rt: HostRuntime) -> Result<(), Fail> {
    check_rendezvous(&rt, &[(Seat(1), YIELD), (Seat(0), JOIN)], 1)?;
    check_rendezvous(
        &rt,
        &[(Seat(1), YIELD), (Seat(0), JOIN), (Seat(0), SEAL)],
        0,
    )
}

/// The last thread's first row is opened, looked at and read, and there are no commits.
fn check_last_row(
    rt: &(impl Abort + AllocGlobal),
    threads: u8,
    rows: u16,
    seats: u8,
) -> Result<(), Fail>
    requires threads { (1 ≤ threads) × (threads ≤ 64) }
    requires rows { (1 ≤ rows) × (rows ≤ 1024) }
    requires seats { (1 ≤ seats) × (seats ≤ 16) }
{
    let row = Row {
        thread: threads - 1,
        sync: 0,
    };
    let seat = Seat((threads - 1) % seats);
    let steps = [
        (seat, Step::Open { row }),
        (seat, Step::Look { row }),
        (seat, Step::Read { row, place: 33 }),
    ];
    let ledger = play(World::start(rt.alloc(), threads, rows, seats)?, &steps)?.ledger();
    check_ledger(rt, &ledger, &[], 0)?;
    check_same(rt, ledger.commit_of(row), None, "the last row's");
    Ok(())
}

#[test]
fn worlds_start_at_the_ends_of_their_ranges(rt: HostRuntime) -> Result<(), Fail> {
    check_last_row(&rt, 1, 1, 1)?;
    check_last_row(&rt, 64, 1024, 16)?;
    check_last_row(&rt, 1, 1024, 16)?;
    check_last_row(&rt, 64, 1, 1)
}

/// The place behind the first thread's only row.
const BEHIND: Row = Row { thread: 0, sync: 1 };

fn start(row: Row, thread: u8) -> (Seat, Step) {
    (Seat(0), Step::Start { row, thread })
}

fn finish(row: Row) -> (Seat, Step) {
    (Seat(0), Step::Finish { row })
}

pub(crate) fn open(row: Row) -> (Seat, Step) {
    (Seat(0), Step::Open { row })
}

fn grant(row: Row) -> (Seat, Step) {
    (Seat(0), Step::Grant { row, offer: 0 })
}

/// Two threads with a row each, of which the second waits to be started, and one seat.
fn waiting_world(alloc: Global) -> Result<World, ProtoFault> {
    World::start_later(alloc, 2, 1, 1, 2)
}

fn check_refused(
    rt: &(impl Abort + AllocGlobal),
    steps: &[Move],
    index: usize,
) -> Result<(), Fail> {
    let refused = match play(waiting_world(rt.alloc())?, steps) {
        Err(ProtoFault::NotAllowed(at)) => Some(at),
        _ => None,
    };
    check_same(rt, refused, Some(index), "the refused step");
    Ok(())
}

/// The second thread ends, and the first waits for it.
pub(crate) fn ended_first(rt: &(impl Abort + AllocGlobal)) -> Result<Ledger, Fail> {
    let steps = [
        start(SENDER, 1),
        finish(RECEIVER),
        draft(0, SENDER, 1, 1),
        draft(0, SENDER, 2, 2053),
        open(SENDER),
        grant(SENDER),
    ];
    Ok(play(waiting_world(rt.alloc())?, &steps)?.ledger())
}

#[test]
fn an_end_is_granted_once_it_is_there(rt: HostRuntime) -> Result<(), Fail> {
    let offered = [
        draft(0, SENDER, 1, 1),
        draft(0, SENDER, 2, 2053),
        open(SENDER),
        grant(SENDER),
    ];
    check_refused(&rt, &offered, 3)?;
    let begun = [start(SENDER, 1)];
    check_refused(&rt, &joined(rt.alloc(), &begun, &offered)?, 4)?;
    let ledger = ended_first(&rt)?;
    let end = Commit::Alone {
        at: (SENDER, 0),
        cause: Cause::End(1),
        stamp: 1,
    };
    check_ledger(&rt, &ledger, &[end], 0)?;
    Ok(())
}

/// The first thread's row is committed and taken, and the second thread is started behind it.
fn started_behind() -> [(Seat, Step); 6] {
    [
        draft(0, SENDER, 1, 1),
        draft(0, SENDER, 2, 3),
        open(SENDER),
        grant(SENDER),
        (Seat(0), Step::Take { row: SENDER }),
        start(BEHIND, 1),
    ]
}

/// Behind these steps the second thread's row is committed for this cause, and by stamp 2.
fn check_second(rt: &(impl Abort + AllocGlobal), back: &[Move], cause: Cause) -> Result<(), Fail> {
    let steps = joined(rt.alloc(), &started_behind(), back)?;
    let ledger = play(waiting_world(rt.alloc())?, &steps)?.ledger();
    let commit = Commit::Alone {
        at: (RECEIVER, 0),
        cause,
        stamp: 2,
    };
    check_same(rt, ledger.commits()?.len(), 2, "the number of commits");
    check_same(rt, ledger.commit_of(RECEIVER), Some(commit), "the second");
    Ok(())
}

#[test]
fn a_start_counts_for_what_follows_it(rt: HostRuntime) -> Result<(), Fail> {
    let always = [
        draft(0, RECEIVER, 1, 1),
        draft(0, RECEIVER, 2, 3),
        open(RECEIVER),
        grant(RECEIVER),
    ];
    check_second(&rt, &always, Cause::Always(Message::Empty))?;
    let end = [
        finish(BEHIND),
        draft(0, RECEIVER, 1, 1),
        draft(0, RECEIVER, 2, 5),
        open(RECEIVER),
        grant(RECEIVER),
    ];
    check_second(&rt, &end, Cause::End(0))
}

#[test]
fn a_thread_that_has_ended_does_nothing(rt: HostRuntime) -> Result<(), Fail> {
    let bind = Step::Bind {
        k: 0,
        row: SENDER,
        scope: 0,
    };
    let steps = [
        draft(0, SENDER, 1, 1),
        (Seat(0), bind),
        open(SENDER),
        finish(SENDER),
        start(SENDER, 1),
    ];
    for step in steps.iter() {
        check_refused(&rt, &[finish(SENDER), *step], 1)?;
    }
    Ok(())
}

#[test]
fn a_start_is_refused_where_it_leads_nowhere(rt: HostRuntime) -> Result<(), Fail> {
    check_refused(&rt, &[start(SENDER, 0)], 0)?;
    check_refused(&rt, &[start(SENDER, 2)], 0)?;
    check_refused(&rt, &[start(BEHIND, 1)], 0)?;
    check_refused(&rt, &[start(SENDER, 1), start(SENDER, 1)], 1)
}

#[test]
fn words_that_name_nothing_make_an_empty_ledger(rt: HostRuntime) -> Result<(), Fail> {
    let words = vec![in rt.alloc(); 0; 99]?;
    let ledger = Ledger::of_words(1, 1, words, 0);
    assert!(rt; ledger.commits()?.is_empty());
    Ok(())
}
