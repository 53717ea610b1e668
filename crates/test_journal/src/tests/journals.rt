//! Journals of ledgers.

ghost use Rattle.std.specs.Prelude.{◌≤◌};

use super::{INDEPENDENT, ONE_SEND, check_same};
use journal::{Record, complete, received_from};
use journal_replay::ReplayFault;
use protocol::{World, play};
use protocol_ledger::Ledger;
use protocol_values::{Atom, Commit, Message, Row, Seat, Step};
use script::parse;
use std::alloc::Global;
use std::process::Abort;
use std::test::Fail;
use thread::End;

/// Process a sends 43 to b.
const OTHER_SEND: &str =
    "channel c; process a { sync send c (43); } process b { x <- sync recv c; print x; }";

/// a sends 42 to b, which sends to e.
const DEPENDENT: &str =
    "channel c; channel d; process a { sync send c (42); } process b { x <- sync recv c; sync send d (x + 1); } process e { y <- sync recv d; print y; }";

/// a sends three numbers to b.
const THREE_SENDS: &str =
    "channel c; process a { sync send c (1); sync send c (2); sync send c (3); } process b { loop 3 { x <- sync recv c; print x; } }";

/// a and b send to e, each on the same two channels.
const TWO_SENDERS: &str =
    "channel c; channel d; process a { sync send c (1); sync send d (2); sync send c (3); } process b { sync send c (4); sync send d (5); } process e { loop 5 { x <- sync choose [recv c, recv d]; print x; } }";

const SENDER: Row = Row { thread: 0, sync: 0 };

const RECEIVER: Row = Row { thread: 1, sync: 0 };

fn row(thread: u8, sync: u32) -> Row {
    Row { thread, sync }
}

fn one(number: u32) -> Message {
    Message::One(Atom::Num(number))
}

fn pair(stamp: u32, sender: Row, receiver: Row, chan: u8, number: u32) -> Commit {
    Commit::Pair {
        sender: (sender, 0),
        receiver: (receiver, 0),
        chan,
        msg: one(number),
        stamp,
    }
}

/// The ledger of a world in which nothing was done.
fn empty_ledger(alloc: Global) -> Result<Ledger, Fail> {
    Ok(World::start(alloc, 4, 8, 2)?.ledger())
}

/// The ledger in which 42 was sent from row 0.0 to row 1.0, and the sender's cell tells of it or not yet.
fn rendezvous(alloc: Global, is_sealed: bool) -> Result<Ledger, Fail> {
    let steps = [
        (
            Seat(0),
            Step::Draft {
                row: SENDER,
                place: 1,
                value: 1,
            },
        ),
        (
            Seat(0),
            Step::Draft {
                row: SENDER,
                place: 2,
                value: 8_388_609,
            },
        ),
        (
            Seat(0),
            Step::Draft {
                row: SENDER,
                place: 3,
                value: 168,
            },
        ),
        (Seat(0), Step::Open { row: SENDER }),
        (
            Seat(1),
            Step::Draft {
                row: RECEIVER,
                place: 1,
                value: 1,
            },
        ),
        (
            Seat(1),
            Step::Draft {
                row: RECEIVER,
                place: 2,
                value: 2,
            },
        ),
        (Seat(1), Step::Open { row: RECEIVER }),
        (Seat(0), Step::Claim { row: SENDER }),
        (
            Seat(0),
            Step::Join {
                mine: SENDER,
                own: 0,
                other: RECEIVER,
                partner: 0,
            },
        ),
        (Seat(0), Step::Seal { row: SENDER }),
    ];
    let made = if is_sealed {
        steps.len()
    } else {
        steps.len() - 1
    };
    Ok(play(World::start(alloc, 2, 1, 2)?, &steps[..made])?.ledger())
}

fn one_rendezvous(alloc: Global) -> Result<Ledger, Fail> {
    rendezvous(alloc, true)
}

fn completed(alloc: Global, text: &str, rows: u32, ledger: &Ledger) -> Result<Record, Fail>
    requires { rows ≤ 67107840 }
{
    let script = parse(alloc, text.as_bytes())?;
    match complete(alloc, script.processes(), rows, ledger) {
        Ok(record) => Ok(record),
        Err(ReplayFault::Memory) => Err(Fail::from("Memory")),
        Err(ReplayFault::Unlawful(_)) => Err(Fail::from("unlawful")),
    }
}

/// How a process of the record ended, and what it printed.
fn check_end(
    rt: &impl Abort,
    record: &Record,
    thread: usize,
    end: End,
    printed: &[Atom],
) -> Result<(), Fail> {
    match record.ends.get(thread) {
        Some(found) => assert!(rt; *found == end),
        None => return Err(Fail::from("no such end")),
    }
    match record.outputs.get(thread) {
        Some(found) => assert!(rt; found.as_slice() == printed),
        None => return Err(Fail::from("no such output")),
    }
    Ok(())
}

#[test]
fn a_ledger_that_is_complete(rt: HostRuntime) -> Result<(), Fail> {
    let alloc = rt.alloc();
    let record = completed(alloc, ONE_SEND, 256, &one_rendezvous(alloc)?)?;
    check_same(
        &rt,
        record.journal.as_slice(),
        [pair(1, SENDER, RECEIVER, 0, 42)].as_slice(),
    );
    check_same(&rt, record.tail, 0);
    check_same(&rt, record.ends.len(), 2);
    check_same(&rt, record.outputs.len(), 2);
    check_end(&rt, &record, 0, End::Ended, &[])?;
    check_end(&rt, &record, 1, End::Ended, &[Atom::Num(42)])
}

#[test]
fn a_pair_that_is_joined_is_in_the_ledger(rt: HostRuntime) -> Result<(), Fail> {
    let alloc = rt.alloc();
    let record = completed(alloc, ONE_SEND, 256, &rendezvous(alloc, false)?)?;
    check_same(&rt, record.journal.len(), 1);
    check_same(&rt, record.tail, 0);
    check_end(&rt, &record, 1, End::Ended, &[Atom::Num(42)])
}

#[test]
fn what_the_ledger_lacks_is_the_tail(rt: HostRuntime) -> Result<(), Fail> {
    let alloc = rt.alloc();
    let commits = [
        pair(1, SENDER, RECEIVER, 0, 42),
        pair(2, row(1, 1), row(2, 0), 1, 43),
    ];
    let begun = completed(alloc, DEPENDENT, 256, &one_rendezvous(alloc)?)?;
    check_same(&rt, begun.journal.as_slice(), commits.as_slice());
    check_same(&rt, begun.tail, 1);
    check_end(&rt, &begun, 2, End::Ended, &[Atom::Num(43)])?;
    let unbegun = completed(alloc, DEPENDENT, 256, &empty_ledger(alloc)?)?;
    check_same(&rt, unbegun.journal.as_slice(), commits.as_slice());
    check_same(&rt, unbegun.tail, 2);
    let spent = completed(alloc, DEPENDENT, 1, &empty_ledger(alloc)?)?;
    check_same(&rt, spent.journal.len(), 1);
    check_end(&rt, &spent, 1, End::Spent, &[])?;
    check_end(&rt, &spent, 2, End::Waiting, &[])
}

#[test]
fn commits_of_one_stamp_stand_by_their_senders(rt: HostRuntime) -> Result<(), Fail> {
    let alloc = rt.alloc();
    let record = completed(alloc, INDEPENDENT, 256, &empty_ledger(alloc)?)?;
    check_same(
        &rt,
        record.journal.as_slice(),
        [
            pair(1, row(0, 0), row(1, 0), 0, 1),
            pair(1, row(2, 0), row(3, 0), 1, 2),
        ]
        .as_slice(),
    );
    Ok(())
}

#[test]
fn a_ledger_of_another_script_is_refused(rt: HostRuntime) -> Result<(), Fail> {
    let alloc = rt.alloc();
    let script = parse(alloc, OTHER_SEND.as_bytes())?;
    match complete(alloc, script.processes(), 256, &one_rendezvous(alloc)?) {
        Ok(_) => Err(Fail::from("lawful")),
        Err(fault) => {
            check_same(&rt, fault, ReplayFault::Unlawful(0));
            Ok(())
        }
    }
}

/// The ledger in which two threads were granted an always of the empty message, each its first sync.
fn two_alone(alloc: Global) -> Result<Ledger, Fail> {
    let mut world = World::start(alloc, 2, 1, 2)?;
    for (seat, row) in [(Seat(0), SENDER), (Seat(1), RECEIVER)] {
        let steps = [
            (
                seat,
                Step::Draft {
                    row,
                    place: 1,
                    value: 1,
                },
            ),
            (
                seat,
                Step::Draft {
                    row,
                    place: 2,
                    value: 3,
                },
            ),
            (seat, Step::Open { row }),
            (seat, Step::Grant { row, offer: 0 }),
        ];
        world = play(world, &steps)?;
    }
    Ok(world.ledger())
}

#[test]
fn the_first_commit_that_is_not_lawful_is_named(rt: HostRuntime) -> Result<(), Fail> {
    let alloc = rt.alloc();
    let text = "channel c; process a { sync always (); } process b { sync recv c; }";
    let script = parse(alloc, text.as_bytes())?;
    match complete(alloc, script.processes(), 256, &two_alone(alloc)?) {
        Ok(_) => Err(Fail::from("lawful")),
        Err(fault) => {
            check_same(&rt, fault, ReplayFault::Unlawful(1));
            Ok(())
        }
    }
}

#[test]
fn no_process_at_all(rt: HostRuntime) -> Result<(), Fail> {
    let alloc = rt.alloc();
    let record = completed(alloc, "", 256, &empty_ledger(alloc)?)?;
    check_same(&rt, record.journal.len(), 0);
    check_same(&rt, record.ends.len(), 0);
    check_same(&rt, record.tail, 0);
    Ok(())
}

#[test]
fn messages_are_received_in_sending_order(rt: HostRuntime) -> Result<(), Fail> {
    let alloc = rt.alloc();
    let record = completed(alloc, THREE_SENDS, 256, &empty_ledger(alloc)?)?;
    let messages = received_from(alloc, &record.journal, 0, 0)?;
    check_same(
        &rt,
        messages.as_slice(),
        [one(1), one(2), one(3)].as_slice(),
    );
    check_same(&rt, received_from(alloc, &record.journal, 1, 0)?.len(), 0);
    check_same(&rt, received_from(alloc, &record.journal, 0, 1)?.len(), 0);
    let crossing = completed(alloc, TWO_SENDERS, 256, &empty_ledger(alloc)?)?;
    let journal = &crossing.journal;
    check_same(
        &rt,
        received_from(alloc, journal, 0, 0)?.as_slice(),
        [one(1), one(3)].as_slice(),
    );
    check_same(
        &rt,
        received_from(alloc, journal, 1, 0)?.as_slice(),
        [one(2)].as_slice(),
    );
    check_same(
        &rt,
        received_from(alloc, journal, 0, 1)?.as_slice(),
        [one(4)].as_slice(),
    );
    check_same(
        &rt,
        received_from(alloc, journal, 1, 1)?.as_slice(),
        [one(5)].as_slice(),
    );
    Ok(())
}
