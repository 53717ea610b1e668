//! What the workers do by themselves.

use super::check_same;
use super::scripts::{EXAMPLES, Example, TWO_PAIRS, TWO_WAIT};
use journal_text::read_journal;
use protocol_values::Commit;
use runtime::{SeasonFault, run_seasons};
use runtime_run::{OpenGate, RunFault, run, work, work_with_machines};
use script::{Script, parse};
use std::alloc::{AllocError, Global};
use std::process::Abort;
use std::sync::Wait;
use std::test::Fail;
use std::thread::Threads;

/// The workers make these commits, in this order.
fn check_workers<R: Abort + AllocGlobal + Threads + Wait + Sync>(
    rt: &R,
    script: &Script,
    workers: u8,
    rows: u16,
    expected: &[Commit],
    name: &str,
) -> Result<(), Fail> {
    assert!(rt; !script.processes().is_empty());
    let ledger = work(rt, rt.alloc(), script, workers, rows, &OpenGate)?;
    check_same(rt, ledger.commits()?.as_slice(), expected, name);
    Ok(())
}

fn check_example<R: Abort + AllocGlobal + Threads + Wait + Sync>(
    rt: &R,
    example: &Example,
) -> Result<(), Fail> {
    let rows: u16 = example.rows.parse()?;
    let script = parse(rt.alloc(), example.script.as_bytes())?;
    let expected = read_journal(rt.alloc(), &script, example.journal.as_bytes())?;
    for workers in &[1, 2, 16] {
        check_workers(rt, &script, *workers, rows, &expected, example.name)?;
    }
    Ok(())
}

// All commits are made by the workers, and none by settling.
#[test]
fn workers_alone(rt: HostRuntime) -> Result<(), Fail> {
    for example in EXAMPLES.iter() {
        check_example(&rt, example)?;
    }
    Ok(())
}

// A search that only looks before it puts its offers in misses a partner that does so at the same time. Each
// row is put in before its search looks for the last time.
#[test]
fn looks_before_putting(rt: HostRuntime) -> Result<(), Fail> {
    let script = parse(rt.alloc(), TWO_PAIRS.as_bytes())?;
    for _ in 0..1000 {
        let record = run(&rt, rt.alloc(), &script, 16, 1, &OpenGate)?;
        check_same(&rt, record.journal.len(), 2, "the commits");
        check_same(&rt, record.tail, 0, "the tail");
    }
    Ok(())
}

/// A process that starts another one, which starts a third, and so on, so many in all; each waits for the end
/// of the one that it started.
fn chain(alloc: Global, starts: u64) -> Result<String, AllocError> {
    let mut text = String::new(alloc);
    text.push_str("process p0 { }\n")?;
    for before in 0..starts {
        let next = before + 1;
        write!(
            text,
            "process p{next} {{ spawn p{before}; sync joined p{before}; }}\n"
        )?;
    }
    Ok(text)
}

// Each process is started in its turn, and each end wakes who waits for it.
#[test]
fn starts_and_ends_in_a_chain(rt: HostRuntime) -> Result<(), Fail> {
    let text = chain(rt.alloc(), 62)?;
    let script = parse(rt.alloc(), text.as_bytes())?;
    for _ in 0..1000 {
        let record = run(&rt, rt.alloc(), &script, 16, 1, &OpenGate)?;
        check_same(&rt, record.journal.len(), 62, "the commits");
        check_same(&rt, record.tail, 0, "the tail");
    }
    Ok(())
}

/// 32 processes that send so often, and 32 that receive, each pair on a channel of its own.
fn pairs(alloc: Global, rounds: u64) -> Result<String, AllocError> {
    let mut text = String::new(alloc);
    for pair in 0..32u64 {
        write!(text, "channel c{pair};\n")?;
    }
    for pair in 0..32u64 {
        write!(
            text,
            "process s{pair} {{ loop {rounds} {{ sync send c{pair} (1); }} }}\n"
        )?;
        write!(
            text,
            "process r{pair} {{ loop {rounds} {{ sync recv c{pair}; }} }}\n"
        )?;
    }
    Ok(text)
}

// Whether the processes have ended (in as many rows as they make syncs), stand behind their last rows, or wait.
#[test]
fn leaves_all_machines(rt: HostRuntime) -> Result<(), Fail> {
    let text = pairs(rt.alloc(), 100)?;
    for text in &[text.as_str(), TWO_WAIT] {
        let script = parse(rt.alloc(), text.as_bytes())?;
        for workers in &[1, 4] {
            for rows in &[100, 50] {
                let (_, machines) = work_with_machines(
                    &rt,
                    rt.alloc(),
                    &script,
                    *workers,
                    *rows,
                    &OpenGate,
                )?;
                check_same(&rt, machines.len(), script.processes().len(), "the places");
                assert!(rt; machines.iter().all(|machine| machine.is_some()));
            }
        }
    }
    Ok(())
}

/// So many rows in each of so many seasons, of 60 syncs a process.
const SEASONS: [(u16, u32); 4] = [(1, 60), (7, 9), (16, 4), (60, 1)];

// All commits are made by the workers, however few rows a season has, and their journal replays as a run.
#[test]
fn seasons_go_on(rt: HostRuntime) -> Result<(), Fail> {
    let alloc = rt.alloc();
    let text = pairs(alloc, 60)?;
    let script = parse(alloc, text.as_bytes())?;
    for workers in &[1, 2, 16] {
        for (rows, seasons) in &SEASONS {
            let record = run_seasons(&rt, alloc, &script, *workers, *rows, *seasons, &OpenGate)?;
            check_same(&rt, record.journal.len(), 1920, "the commits");
            check_same(&rt, record.tail, 0, "the tail");
            let fewer = run_seasons(
                &rt,
                alloc,
                &script,
                *workers,
                *rows,
                *seasons - 1,
                &OpenGate,
            );
            let fault = if *seasons == 1 {
                SeasonFault::SeasonCount
            } else {
                SeasonFault::Seasons
            };
            check_same(
                &rt,
                fewer.err(),
                Some(fault),
                "the fault of a season too few",
            );
        }
    }
    Ok(())
}

/// Workers, rows and seasons outside their limits.
const SEASONS_OUTSIDE: [(u8, u16, u32, SeasonFault); 4] = [
    (0, 0, 0, SeasonFault::Workers),
    (16, 1025, 0, SeasonFault::Rows),
    (1, 1, 0, SeasonFault::SeasonCount),
    (1, 1, 65536, SeasonFault::SeasonCount),
];

#[test]
fn seasons_outside_their_limits_are_refused(rt: HostRuntime) -> Result<(), Fail> {
    let alloc = rt.alloc();
    let script = parse(alloc, TWO_PAIRS.as_bytes())?;
    for (workers, rows, seasons, fault) in &SEASONS_OUTSIDE {
        let ran = run_seasons(&rt, alloc, &script, *workers, *rows, *seasons, &OpenGate).err();
        check_same(&rt, ran, Some(*fault), "the fault of a run in seasons");
    }
    Ok(())
}

/// Workers and rows outside their limits.
const OUTSIDE: [(u8, u16, RunFault); 4] = [
    (0, 1, RunFault::Workers),
    (17, 0, RunFault::Workers),
    (1, 0, RunFault::Rows),
    (16, 1025, RunFault::Rows),
];

#[test]
fn refuses_numbers_outside_their_limits(rt: HostRuntime) -> Result<(), Fail> {
    let alloc = rt.alloc();
    let script = parse(alloc, TWO_PAIRS.as_bytes())?;
    assert!(rt; !script.processes().is_empty());
    for (workers, rows, fault) in &OUTSIDE {
        let ran = run(&rt, alloc, &script, *workers, *rows, &OpenGate).err();
        check_same(&rt, ran, Some(*fault), "the fault of run");
        let worked = work(&rt, alloc, &script, *workers, *rows, &OpenGate).err();
        check_same(&rt, worked, Some(*fault), "the fault of work");
    }
    Ok(())
}

/// What went wrong in a run. The match has no other arm: a fifth fault would not compile.
fn text_of(fault: RunFault) -> &'static str {
    match fault {
        RunFault::Memory => "out of memory",
        RunFault::Workers => "the number of workers is not 1 to 16",
        RunFault::Rows => "the number of rows is not 1 to 1024",
        RunFault::NoWorker => "a worker could not be started",
    }
}

const FAULTS: [RunFault; 4] = [
    RunFault::Memory,
    RunFault::Workers,
    RunFault::Rows,
    RunFault::NoWorker,
];

#[test]
fn a_run_has_four_faults(rt: HostRuntime) -> Result<(), Fail> {
    for fault in &FAULTS {
        let told = format!(in rt.alloc(); "{fault}")?;
        check_same(&rt, told.as_str(), text_of(*fault), "the text of the fault");
    }
    Ok(())
}
