//! Sequential runs: what follows what, and where a script ends.

ghost use Rattle.std.specs.Prelude.{◌≤◌};

use super::{ONE_SEND, SERVER, check_same};
use journal_replay::{ReplayFault, State, is_placed, replay, settle};
use protocol_values::{Atom, Cause, Commit, Message, NackName, Row};
use script::parse;
use std::alloc::Global;
use std::process::Abort;
use std::test::Fail;
use thread::End;

/// Two nacks, of which the outer one encloses what is chosen.
const NESTED: &str =
    "channel w; channel v; channel u; channel c; process a { sync nack m { sync send w (m); } choose [nack n { sync send v (n); } recv c, always ()]; } process p { m <- sync recv w; sync cancelled m; } process q { n <- sync recv v; sync send u (n); sync cancelled n; } process r { n <- sync recv u; sync cancelled n; }";

fn at(thread: u8, sync: u32, offer: u8) -> (Row, u8) {
    (Row { thread, sync }, offer)
}

fn one(number: u32) -> Message {
    Message::One(Atom::Num(number))
}

fn pair(stamp: u32, sender: (Row, u8), receiver: (Row, u8), chan: u8, msg: Message) -> Commit {
    Commit::Pair {
        sender,
        receiver,
        chan,
        msg,
        stamp,
    }
}

fn always(stamp: u32, at: (Row, u8), msg: Message) -> Commit {
    Commit::Alone {
        at,
        cause: Cause::Always(msg),
        stamp,
    }
}

fn cancelled(stamp: u32, at: (Row, u8), thread: u8, k: u8) -> Commit {
    Commit::Alone {
        at,
        cause: Cause::Nack(NackName { thread, k }),
        stamp,
    }
}

/// The first commit that may not come next has to be this one.
fn check_unlawful(
    rt: &(impl Abort + AllocGlobal),
    text: &str,
    rows: u32,
    commits: &[Commit],
    index: usize,
) -> Result<(), Fail>
    requires { rows ≤ 67107840 }
{
    let alloc = rt.alloc();
    let script = parse(alloc, text.as_bytes())?;
    match replay(alloc, script.processes(), rows, commits) {
        Ok(_) => Err(Fail::from("lawful")),
        Err(ReplayFault::Memory) => Err(Fail::from("Memory")),
        Err(ReplayFault::Unlawful(found)) => {
            check_same(rt, found, index);
            Ok(())
        }
    }
}

/// How a thread of the state stands, and what it printed.
fn check_end(
    rt: &impl Abort,
    state: &State,
    thread: usize,
    end: End,
    printed: &[Atom],
) -> Result<(), Fail> {
    if thread >= state.threads() {
        return Err(Fail::from("no such thread"));
    }
    assert!(rt; state.end(thread) == end);
    assert!(rt; state.output(thread) == printed);
    Ok(())
}

#[test]
fn what_no_thread_offers_is_unlawful(rt: HostRuntime) -> Result<(), Fail> {
    let sender = at(0, 0, 0);
    let receiver = at(1, 0, 0);
    let commits = [
        pair(1, at(9, 0, 0), receiver, 0, one(42)),
        pair(1, at(0, 2000, 0), receiver, 0, one(42)),
        pair(1, at(0, 0, 200), receiver, 0, one(42)),
        pair(1, sender, receiver, 7, one(42)),
        pair(0, sender, receiver, 0, one(42)),
        pair(4294967295, sender, receiver, 0, one(42)),
        pair(1, receiver, sender, 0, one(42)),
        pair(1, sender, sender, 0, one(42)),
        always(1, sender, one(42)),
        cancelled(1, sender, 0, 0),
    ];
    for commit in commits {
        check_unlawful(&rt, ONE_SEND, 256, &[commit], 0)?;
    }
    Ok(())
}

/// Settles the text from the empty journal, and gives what was added.
fn settled(alloc: Global, text: &str, rows: u32) -> Result<(State, Vec<Commit>), Fail>
    requires { rows ≤ 67107840 }
{
    let script = parse(alloc, text.as_bytes())?;
    match replay(alloc, script.processes(), rows, &[]) {
        Ok(state) => {
            let settled = settle(alloc, state)?;
            Ok(settled)
        }
        Err(ReplayFault::Memory) => Err(Fail::from("Memory")),
        Err(ReplayFault::Unlawful(_)) => Err(Fail::from("unlawful")),
    }
}

#[test]
fn settling_adds_what_is_enabled(rt: HostRuntime) -> Result<(), Fail> {
    let alloc = rt.alloc();
    let sends =
        "channel c; process a { sync send c (1); sync send c (2); sync send c (3); } process b { loop 3 { x <- sync recv c; print x; } }";
    let (state, added) = settled(alloc, sends, 256)?;
    check_same(&rt, added.len(), 3);
    let printed = [Atom::Num(1), Atom::Num(2), Atom::Num(3)];
    check_end(&rt, &state, 1, End::Ended, &printed)?;
    let (_, nested) = settled(alloc, NESTED, 256)?;
    check_same(&rt, nested.len(), 6);
    let (_, served) = settled(alloc, SERVER, 256)?;
    check_same(&rt, served.len(), 3);
    let alone = "channel c; process a { sync choose [send c (1), recv c]; }";
    let (_, none) = settled(alloc, alone, 256)?;
    check_same(&rt, none.len(), 0);
    let (spent, three) = settled(alloc, "process a { forever { sync always (); } }", 3)?;
    check_same(&rt, three.len(), 3);
    check_end(&rt, &spent, 0, End::Spent, &[])
}

#[test]
fn a_sync_has_a_number_above_65535(rt: HostRuntime) -> Result<(), Fail> {
    let alloc = rt.alloc();
    let text = "process a { forever { sync always (); } }";
    let (spent, added) = settled(alloc, text, 65538)?;
    let last = always(65538, at(0, 65537, 0), Message::Empty);
    check_same(&rt, added.len(), 65538);
    check_same(&rt, added.last(), Some(&last));
    check_end(&rt, &spent, 0, End::Spent, &[])?;
    check_unlawful(&rt, text, 65537, added.as_slice(), 65537)?;
    check_unlawful(&rt, text, 67107840, &[last], 0)
}

#[test]
fn starts_and_ends_count(rt: HostRuntime) -> Result<(), Fail> {
    let alloc = rt.alloc();
    let joins =
        "process k { sync always (); } process a { sync always (); spawn k; sync joined k; }";
    let (state, added) = settled(alloc, joins, 256)?;
    let joined = Commit::Alone {
        at: at(1, 1, 0),
        cause: Cause::End(0),
        stamp: 3,
    };
    let empty = Message::Empty;
    let commits = [
        always(1, at(1, 0, 0), empty),
        always(2, at(0, 0, 0), empty),
        joined,
    ];
    check_same(&rt, added.as_slice(), commits.as_slice());
    check_same(&rt, state.ended(0), Some(2));
    check_same(&rt, state.ended(1), Some(3));
    let (waits, none) = settled(alloc, "process k { } process a { end; spawn k; }", 256)?;
    check_same(&rt, none.len(), 0);
    check_same(&rt, waits.ended(0), None);
    check_same(&rt, waits.ended(1), Some(0));
    check_end(&rt, &waits, 0, End::Unstarted, &[])
}

// Alone, the process behind would stand where the one is that it spawns.
#[test]
fn a_spawner_stands_behind(rt: HostRuntime) -> Result<(), Fail> {
    let script = parse(rt.alloc(), b"process k { } process a { spawn k; }")?;
    let processes = script.processes();
    assert!(rt; processes.len() == 2);
    check_same(&rt, is_placed(processes), true);
    check_same(&rt, is_placed(&processes[..1]), true);
    check_same(&rt, is_placed(&processes[1..]), false);
    Ok(())
}
