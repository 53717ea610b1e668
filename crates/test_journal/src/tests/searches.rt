//! What a script can come to, as values.

ghost use Rattle.std.specs.Prelude.{◌≤◌};
ghost use Rattle.protocol_values.specs.Commits.{most_rows};

use super::check_same;
use journal_replay::replay;
use outcomes::{Asked, Extent, Outcomes, Told, Unwatched, find_outcomes};
use protocol_values::{Atom, Commit, Message, Row};
use reachable::{AllFaults, AllLeft, Faults, Left, Printed, find_fault, find_left, find_printed};
use script::parse;
use std::alloc::Global;
use std::process::Abort;
use std::test::Fail;
use thread::End;

/// Two send, and one receives once.
const EITHER: &str =
    "channel c; process a { sync send c (1); } process b { sync send c (2); } process d { x <- sync recv c; print x; }";

/// The commit in which this thread sends this number to the last one.
fn sent(thread: u8, number: u32) -> Commit {
    let first = |thread| (Row { thread, sync: 0 }, 0);
    Commit::Pair {
        sender: first(thread),
        receiver: first(2),
        chan: 0,
        msg: Message::One(Atom::Num(number)),
        stamp: 1,
    }
}

fn found(alloc: Global, limit: usize) -> Result<Outcomes, Fail>
    requires { 1 ≤ limit }
{
    let script = parse(alloc, EITHER.as_bytes())?;
    let asked = Asked {
        named: vec![in alloc; true; 3]?,
        told: Told::Each,
        first: false,
    };
    let processes = script.processes();
    Ok(find_outcomes(alloc, processes, 256, limit, &asked, &mut Unwatched)?)
}

/// One of the outcomes has these ends, and the number as the last process's output, and its journal is this commit.
fn check_has(
    rt: &(impl Abort + AllocGlobal),
    found: &Outcomes,
    ends: [End; 3],
    number: u32,
    commit: Commit,
) -> Result<(), Fail> {
    for outcome in found.outcomes.iter() {
        if outcome.ends.as_slice() == ends.as_slice() {
            check_same(rt, outcome.journal.as_slice(), [commit].as_slice());
            check_same(rt, outcome.outputs.len(), 3);
            let last = outcome.outputs.last().ok_or("no output")?;
            check_same(rt, last.as_slice(), [Atom::Num(number)].as_slice());
            return Ok(());
        }
    }
    Err(Fail::from("no such outcome"))
}

#[test]
fn either_is_left_waiting(rt: HostRuntime) -> Result<(), Fail> {
    let found = found(rt.alloc(), 256)?;
    check_same(&rt, found.extent, Extent::Whole);
    check_same(&rt, found.visited, 3);
    check_same(&rt, found.outcomes.len(), 2);
    let first = [End::Ended, End::Waiting, End::Ended];
    check_has(&rt, &found, first, 1, sent(0, 1))?;
    let second = [End::Waiting, End::Ended, End::Ended];
    check_has(&rt, &found, second, 2, sent(1, 2))
}

#[test]
fn a_search_is_cut_at_its_limit(rt: HostRuntime) -> Result<(), Fail> {
    let found = found(rt.alloc(), 2)?;
    check_same(&rt, found.extent, Extent::Cut);
    check_same(&rt, found.visited, 2);
    Ok(())
}

/// A clock ticks for ever; one sends to another.
const BESIDE_A_CLOCK: &str =
    "channel c; process clock { forever { sync always (); } } process a { sync send c (1); } process b { x <- sync recv c; }";

fn left(
    rt: &(impl Abort + AllocGlobal),
    text: &str,
    limit: usize,
    marks: [bool; 3],
) -> Result<AllLeft, Fail>
    requires some { 1 ≤ limit }
    requires most { limit ≤ most_rows }
{
    let script = parse(rt.alloc(), text.as_bytes())?;
    let processes = script.processes();
    if processes.len() != 3 {
        return Err(Fail::from("these are not three processes"));
    }
    Ok(find_left(rt.alloc(), processes, limit, &marks, &mut Unwatched)?)
}

#[test]
fn who_was_not_met_is_left_behind(rt: HostRuntime) -> Result<(), Fail> {
    let found = left(&rt, EITHER, 256, [true, true, true])?;
    check_same(&rt, found.visited, 3);
    let Left::Behind(first) = found.left else {
        return Err(Fail::from("nobody is left behind"));
    };
    check_same(&rt, first.process, 1);
    check_same(&rt, first.journal.as_slice(), [sent(0, 1)].as_slice());
    Ok(())
}

#[test]
fn a_clock_is_left_behind_alone(rt: HostRuntime) -> Result<(), Fail> {
    let others = left(&rt, BESIDE_A_CLOCK, 256, [false, true, true])?;
    check_same(&rt, matches!(others.left, Left::Nobody), true);
    let all = left(&rt, BESIDE_A_CLOCK, 256, [true, true, true])?;
    let Left::Behind(clock) = all.left else {
        return Err(Fail::from("nobody is left behind"));
    };
    check_same(&rt, clock.process, 0);
    check_same(&rt, clock.journal.len(), 0);
    let cut = left(&rt, BESIDE_A_CLOCK, 1, [false, true, true])?;
    check_same(&rt, matches!(cut.left, Left::Unknown), true);
    Ok(())
}

/// A clock ticks for ever. One prints a number, and sends another; who receives it prints it, and takes it for a channel.
const FAULT_BESIDE_A_CLOCK: &str =
    "channel c; process clock { forever { sync always (); } } process a { print 5; sync send c (1); } process b { x <- sync recv c; print x; sync recv x; }";

/// Who faults there, where at most so many configurations are seen.
fn faults(rt: &impl AllocGlobal, limit: usize) -> Result<AllFaults, Fail>
    requires some { 1 ≤ limit }
    requires most { limit ≤ most_rows }
{
    let script = parse(rt.alloc(), FAULT_BESIDE_A_CLOCK.as_bytes())?;
    Ok(find_fault(rt.alloc(), script.processes(), limit, &mut Unwatched)?)
}

#[test]
fn who_takes_a_number_for_a_channel_faults(rt: HostRuntime) -> Result<(), Fail> {
    let Faults::First(first) = faults(&rt, 256)?.faults else {
        return Err(Fail::from("nobody faults"));
    };
    check_same(&rt, first.process, 2);
    check_same(&rt, first.journal.len(), 1);
    let cut = faults(&rt, 1)?;
    check_same(&rt, matches!(cut.faults, Faults::Unknown), true);
    let script = parse(rt.alloc(), BESIDE_A_CLOCK.as_bytes())?;
    let none = find_fault(rt.alloc(), script.processes(), 256, &mut Unwatched)?;
    check_same(&rt, matches!(none.faults, Faults::Nobody), true);
    Ok(())
}

/// How many commits lead to where the process has printed the number there, if any do.
fn printed(rt: &impl AllocGlobal, process: usize, number: u32) -> Result<Option<usize>, Fail> {
    let script = parse(rt.alloc(), FAULT_BESIDE_A_CLOCK.as_bytes())?;
    let processes = script.processes();
    if process >= processes.len() {
        return Err(Fail::from("there is no such process"));
    }
    let atom = Atom::Num(number);
    let found = find_printed(rt.alloc(), processes, 256, process, atom, &mut Unwatched)?;
    match found.printed {
        Printed::Behind(journal) => Ok(Some(journal.len())),
        Printed::Never => Ok(None),
        Printed::Unknown => Err(Fail::from("not all was seen")),
    }
}

#[test]
fn what_is_printed_is_found_beside_a_clock(rt: HostRuntime) -> Result<(), Fail> {
    check_same(&rt, printed(&rt, 1, 5)?, Some(0));
    check_same(&rt, printed(&rt, 2, 1)?, Some(1));
    check_same(&rt, printed(&rt, 2, 5)?, None);
    check_same(&rt, printed(&rt, 0, 5)?, None);
    Ok(())
}

#[test]
fn next_are_all_that_may_come(rt: HostRuntime) -> Result<(), Fail> {
    let alloc = rt.alloc();
    let script = parse(alloc, EITHER.as_bytes())?;
    let Ok(start) = replay(alloc, script.processes(), 256, &[]) else {
        return Err(Fail::from("no start"));
    };
    let next = start.next_commits(alloc)?;
    check_same(&rt, next.as_slice(), [sent(0, 1), sent(1, 2)].as_slice());
    let one = [sent(0, 1)];
    let Ok(end) = replay(alloc, script.processes(), 256, &one) else {
        return Err(Fail::from("no end"));
    };
    let none = end.next_commits(alloc)?;
    check_same(&rt, none.len(), 0);
    Ok(())
}
