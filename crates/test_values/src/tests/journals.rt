use super::checks::check_same;
use journal_text::{read_journal, write_journal, write_numbered};
use protocol_values::{Atom, Cause, Commit, Message, NackName, Row};
use script::{Script, parse};
use std::alloc::Global;
use std::process::Abort;
use std::test::Fail;

const NAMES: &str = "channel c; channel ch; process a { } process ab { } process b { }";

const JOURNAL: &str =
    "1 a.0.0 -> b.67107839.7 c (42)\n1 ab.0.0 always ()\n4294967295 b.1.2 cancelled ab.63\n2 ab.1.0 -> a.1.1 ch (0, #ch, !a.0)\n";

fn names(alloc: Global) -> Result<Script, Fail> {
    let script = parse(alloc, NAMES.as_bytes())?;
    Ok(script)
}

/// The commits of the journal.
const COMMITS: [Commit; 4] = [
    Commit::Pair {
        sender: (Row { thread: 0, sync: 0 }, 0),
        receiver: (
            Row {
                thread: 2,
                sync: 67107839,
            },
            7,
        ),
        chan: 0,
        msg: Message::One(Atom::Num(42)),
        stamp: 1,
    },
    Commit::Alone {
        at: (Row { thread: 1, sync: 0 }, 0),
        cause: Cause::Always(Message::Empty),
        stamp: 1,
    },
    Commit::Alone {
        at: (Row { thread: 2, sync: 1 }, 2),
        cause: Cause::Nack(NackName { thread: 1, k: 63 }),
        stamp: u32::MAX,
    },
    Commit::Pair {
        sender: (Row { thread: 1, sync: 1 }, 0),
        receiver: (Row { thread: 0, sync: 1 }, 1),
        chan: 1,
        msg: Message::Three(
            Atom::Num(0),
            Atom::Chan(1),
            Atom::Nack(NackName { thread: 0, k: 0 }),
        ),
        stamp: 2,
    },
];

/// Commits with the largest numbers.
const LARGEST: [Commit; 3] = [
    Commit::Pair {
        sender: (Row { thread: 0, sync: 0 }, 0),
        receiver: (
            Row {
                thread: 63,
                sync: 67107839,
            },
            7,
        ),
        chan: 255,
        msg: Message::Three(
            Atom::Num(0),
            Atom::Chan(255),
            Atom::Nack(NackName { thread: 63, k: 63 }),
        ),
        stamp: 1,
    },
    Commit::Alone {
        at: (
            Row {
                thread: 63,
                sync: 67107839,
            },
            7,
        ),
        cause: Cause::Always(Message::Empty),
        stamp: u32::MAX,
    },
    Commit::Alone {
        at: (Row { thread: 0, sync: 0 }, 0),
        cause: Cause::Nack(NackName { thread: 63, k: 63 }),
        stamp: 2,
    },
];

#[test]
fn every_kind_of_line_is_read(rt: HostRuntime) -> Result<(), Fail> {
    let alloc = rt.alloc();
    let script = names(alloc)?;
    let commits = read_journal(alloc, &script, JOURNAL.as_bytes())?;
    check_same(&rt, commits.as_slice(), &COMMITS, "the journal");
    Ok(())
}

#[test]
fn what_is_written_is_the_text(rt: HostRuntime) -> Result<(), Fail> {
    let text = write_numbered(rt.alloc(), &LARGEST)?;
    let expected =
        "1 0.0.0 -> 63.67107839.7 255 (0, #255, !63.63)\n4294967295 63.67107839.7 always ()\n2 0.0.0 cancelled 63.63\n";
    assert!(rt; text.as_slice() == expected.as_bytes());
    Ok(())
}

#[test]
fn what_is_read_is_written_again(rt: HostRuntime) -> Result<(), Fail> {
    let alloc = rt.alloc();
    let script = names(alloc)?;
    let commits = read_journal(alloc, &script, JOURNAL.as_bytes())?;
    let text = write_journal(alloc, &script, commits.as_slice())?;
    assert!(rt; text.as_slice() == JOURNAL.as_bytes());
    Ok(())
}
