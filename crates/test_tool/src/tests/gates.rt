//! What gates see and hold up: two turns at once, two seals at once, and runs that are slow everywhere.

use super::check_same;
use super::scripts::{EITHER_WAY, EXAMPLES, Example, TWO_PAIRS, WITHOUT_COMMITS};
use cell::{SEAL, StepGate};
use journal::Record;
use protocol_values::Commit;
use runtime::run_seasons_gated;
use runtime_run::{OpenGate, RunFault, run, run_gated, work};
use runtime_worker::Gate;
use script::{Script, parse};
use std::process::Abort;
use std::sync::Wait;
use std::sync::atomic::{AtomicBool, AtomicU32, Ordering};
use std::test::Fail;
use std::thread;
use std::thread::Threads;

/// How often a gate that waits for another call looks for it at most.
const PATIENCE: u32 = 50_000_000;

const WORKERS: [u8; 3] = [1, 2, 16];

/// Holds the first turn until a turn of another thread has ended.
#[derive(Drop)]
struct FirstWaits {
    begun: AtomicBool,
    other_ended: AtomicBool,
    gave_up: AtomicBool,
}

impl Gate for FirstWaits {
    fn before(&self, _worker: u8, _thread: u8) {
        if self.begun.swap(true, Ordering::SeqCst) {
            return;
        }
        for _ in 0..PATIENCE {
            if self.other_ended.load(Ordering::SeqCst) {
                return;
            }
            thread::yield_now();
        }
        self.gave_up.store(true, Ordering::SeqCst);
    }

    // Of the first turn's own end this is called after it was let go on.
    fn after(&self, _worker: u8, _thread: u8) {
        self.other_ended.store(true, Ordering::SeqCst);
    }
}

impl StepGate for FirstWaits {
    fn step(&self, _kind: u8) {}
}

// The first turn goes on only once another one has begun and ended: were all turns made by one worker, or
// one after another, it would give up.
#[test]
fn two_turns_at_once(rt: HostRuntime) -> Result<(), Fail> {
    let script = parse(rt.alloc(), TWO_PAIRS.as_bytes())?;
    let gate = FirstWaits {
        begun: AtomicBool::new(false),
        other_ended: AtomicBool::new(false),
        gave_up: AtomicBool::new(false),
    };
    let record = run_gated(&rt, rt.alloc(), &script, 2, 1, &gate)?;
    assert!(rt; !gate.gave_up.load(Ordering::SeqCst));
    check_same(&rt, record.journal.len(), 2, "the commits");
    Ok(())
}

/// Holds the first seal until a second one is about to be made.
#[derive(Drop)]
struct FirstSealWaits {
    seals: AtomicU32,
    gave_up: AtomicBool,
}

impl FirstSealWaits {
    fn new() -> FirstSealWaits {
        FirstSealWaits {
            seals: AtomicU32::new(0),
            gave_up: AtomicBool::new(false),
        }
    }
}

impl Gate for FirstSealWaits {
    fn before(&self, _worker: u8, _thread: u8) {}

    fn after(&self, _worker: u8, _thread: u8) {}
}

impl StepGate for FirstSealWaits {
    fn step(&self, kind: u8) {
        if kind != SEAL || self.seals.fetch_add(1, Ordering::SeqCst) > 0 {
            return;
        }
        for _ in 0..PATIENCE {
            if self.seals.load(Ordering::SeqCst) > 1 {
                return;
            }
            thread::yield_now();
        }
        self.gave_up.store(true, Ordering::SeqCst);
    }
}

impl FirstSealWaits {
    /// Both seals came, and neither in vain.
    fn check(&self, rt: &impl Abort) {
        assert!(rt; !self.gave_up.load(Ordering::SeqCst));
        check_same(rt, self.seals.load(Ordering::SeqCst), 2, "the seals");
    }
}

/// The journal of a run.
fn journal_of_two_seals<R: Abort + AllocGlobal + Threads + Wait + Sync>(
    rt: &R,
    script: &Script,
) -> Result<Vec<Commit>, Fail> {
    let gate = FirstSealWaits::new();
    let record = run_gated(rt, rt.alloc(), script, 4, 256, &gate)?;
    gate.check(rt);
    Ok(record.journal)
}

/// The journal of a run in seasons.
fn seasons_of_two_seals<R: Abort + AllocGlobal + Threads + Wait + Sync>(
    rt: &R,
    script: &Script,
) -> Result<Vec<Commit>, Fail> {
    let gate = FirstSealWaits::new();
    let record = run_seasons_gated(rt, rt.alloc(), script, 4, 256, 1, &gate)?;
    gate.check(rt);
    Ok(record.journal)
}

/// What the workers alone commit.
fn commits_of_two_seals<R: Abort + AllocGlobal + Threads + Wait + Sync>(
    rt: &R,
    script: &Script,
) -> Result<Vec<Commit>, Fail> {
    assert!(rt; !script.processes().is_empty());
    let gate = FirstSealWaits::new();
    let ledger = work(rt, rt.alloc(), script, 4, 256, &gate)?;
    gate.check(rt);
    Ok(ledger.commits()?)
}

// Two attempts are half done at once: were the script played elsewhere, or by one worker, or attempts made one
// after another, the first seal would wait in vain.
#[test]
fn two_seals_at_once(rt: HostRuntime) -> Result<(), Fail> {
    let script = parse(rt.alloc(), TWO_PAIRS.as_bytes())?;
    let journal = journal_of_two_seals(&rt, &script)?;
    check_same(&rt, journal.len(), 2, "the commits");
    let in_seasons = seasons_of_two_seals(&rt, &script)?;
    check_same(
        &rt,
        in_seasons == journal,
        true,
        "the commits of a season are these",
    );
    let commits = commits_of_two_seals(&rt, &script)?;
    check_same(&rt, commits, journal, "what the workers commit");
    Ok(())
}

/// Counts the seals.
#[derive(Drop)]
struct Seals {
    made: AtomicU32,
}

impl Gate for Seals {
    fn before(&self, _worker: u8, _thread: u8) {}

    fn after(&self, _worker: u8, _thread: u8) {}
}

impl StepGate for Seals {
    fn step(&self, kind: u8) {
        if kind == SEAL {
            self.made.fetch_add(1, Ordering::SeqCst);
        }
    }
}

fn count_pairs(journal: &[Commit]) -> usize {
    journal
        .iter()
        .filter(|commit| matches!(commit, Commit::Pair { .. }))
        .count()
}

/// As many seals as the journal has commits of two rows.
fn check_seals<R: Abort + AllocGlobal + Threads + Wait + Sync>(
    rt: &R,
    script: &Script,
    workers: u8,
    rows: u16,
    name: &str,
) -> Result<(), Fail> {
    let gate = Seals {
        made: AtomicU32::new(0),
    };
    let record = run_gated(rt, rt.alloc(), script, workers, rows, &gate)?;
    let made: usize = gate.made.load(Ordering::SeqCst).try_into()?;
    check_same(rt, made, count_pairs(&record.journal), name);
    Ok(())
}

fn check_seals_of<R: Abort + AllocGlobal + Threads + Wait + Sync>(
    rt: &R,
    example: &Example,
) -> Result<(), Fail> {
    let rows: u16 = example.rows.parse()?;
    let script = parse(rt.alloc(), example.script.as_bytes())?;
    for workers in &WORKERS {
        check_seals(rt, &script, *workers, rows, example.name)?;
    }
    Ok(())
}

// Each commit of two rows is sealed once, by one of the workers.
#[test]
fn a_seal_for_each_pair(rt: HostRuntime) -> Result<(), Fail> {
    for example in EXAMPLES.iter() {
        check_seals_of(&rt, example)?;
    }
    Ok(())
}

/// Two processes that meet three times.
const THREE_MEETINGS: &str =
    "channel c; process a { loop 3 { sync send c (1); } } process b { loop 3 { x <- sync recv c; } }";

// So in seasons of one row each: were a season not played, its commit would not be sealed.
#[test]
fn a_seal_for_each_season(rt: HostRuntime) -> Result<(), Fail> {
    let script = parse(rt.alloc(), THREE_MEETINGS.as_bytes())?;
    for workers in &WORKERS {
        let gate = Seals {
            made: AtomicU32::new(0),
        };
        let record = run_seasons_gated(&rt, rt.alloc(), &script, *workers, 1, 3, &gate)?;
        check_same(&rt, count_pairs(&record.journal), 3, "the pairs");
        check_same(&rt, gate.made.load(Ordering::SeqCst), 3, "the seals");
    }
    Ok(())
}

/// Turns a million times at every call, unless it is hurried, which nobody does.
#[derive(Drop)]
struct Slow {
    hurried: AtomicBool,
}

impl Slow {
    fn turn(&self) {
        for _ in 0..1_000_000u32 {
            if self.hurried.load(Ordering::SeqCst) {
                return;
            }
        }
    }
}

impl Gate for Slow {
    fn before(&self, _worker: u8, _thread: u8) {
        self.turn();
    }

    fn after(&self, _worker: u8, _thread: u8) {
        self.turn();
    }
}

impl StepGate for Slow {
    fn step(&self, _kind: u8) {
        self.turn();
    }
}

fn slow_run<R: AllocGlobal + Threads + Wait + Sync>(
    rt: &R,
    script: &Script,
    workers: u8,
    rows: u16,
) -> Result<Record, RunFault> {
    let slow = Slow {
        hurried: AtomicBool::new(false),
    };
    run_gated(rt, rt.alloc(), script, workers, rows, &slow)
}

/// The slow run gives what was expected, and no tail.
fn check_slow<R: Abort + AllocGlobal + Threads + Wait + Sync>(
    rt: &R,
    script: &Script,
    workers: u8,
    rows: u16,
    expected: &Record,
    name: &str,
) -> Result<(), RunFault> {
    let record = slow_run(rt, script, workers, rows)?;
    assert!(rt; record.journal == expected.journal, "{}", name);
    assert!(rt; record.ends == expected.ends, "{}", name);
    assert!(rt; record.outputs == expected.outputs, "{}", name);
    check_same(rt, record.tail, 0, name);
    Ok(())
}

fn check_slow_example<R: Abort + AllocGlobal + Threads + Wait + Sync>(
    rt: &R,
    example: &Example,
) -> Result<(), Fail> {
    let rows: u16 = example.rows.parse()?;
    let script = parse(rt.alloc(), example.script.as_bytes())?;
    let expected = run(rt, rt.alloc(), &script, 1, rows, &OpenGate)?;
    for workers in &WORKERS {
        check_slow(rt, &script, *workers, rows, &expected, example.name)?;
    }
    Ok(())
}

// Where each run of a script gives the same, so it does with workers that are slow everywhere.
#[test]
fn slow_gates_change_nothing(rt: HostRuntime) -> Result<(), Fail> {
    for example in WITHOUT_COMMITS.iter().chain(EXAMPLES.iter()) {
        check_slow_example(&rt, example)?;
    }
    Ok(())
}

// Where either of two processes may send, one of them does.
#[test]
fn slow_gates_leave_one_sender(rt: HostRuntime) -> Result<(), Fail> {
    let script = parse(rt.alloc(), EITHER_WAY.as_bytes())?;
    for workers in &WORKERS {
        let record = slow_run(&rt, &script, *workers, 256)?;
        check_same(&rt, record.journal.len(), 1, "the commits");
        check_same(&rt, record.tail, 0, "the tail");
    }
    Ok(())
}
