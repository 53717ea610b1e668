//! `test_memory`: makes calls with more and more memory left, from none on, by 32 to 256 bytes more each
//! time, and sees that each gives the error for want of memory, or its answer with ample memory. Requests
//! that are smaller than a step may be refused together. With a word, it tells on the error stream how often
//! each call was refused.
#![tactic(auto)]

mod examples;
mod hoard;
mod journals;
mod runs;
mod sweep;
mod tables;
mod texts;

use crate::examples::{
    CLIENT_SERVER, Example, NESTED_NACKS, ROWS, STARTS, THREE_SENDS, WITH_A_BAD_LINE, WITH_A_FAULT,
};
use crate::hoard::{Hoard, Slack};
use crate::journals::{Completing, Enabling, ReadingJournal, Replaying, Settling, WritingJournal};
use crate::runs::{Running, sweep_runs};
use crate::sweep::Sweeper;
use crate::tables::{MakingCells, MakingMeet, PuttingIn, Waking};
use crate::texts::{Reading, Writing};
use anyhow::{Result, bail};
use journal::{Record, complete};
use journal_replay::{State, replay};
use journal_text::read_journal;
use protocol_ledger::Ledger;
use protocol_values::Commit;
use runtime_run::{OpenGate, run, work};
use script::{Script, parse};
use script_writer::write;
use std::alloc::Global;
use std::env;
use std::rt::Env;
use std::sync::Wait;
use std::thread::{Threads, join};

/// By so many bytes more memory is left each time.
const FINE: usize = 32;

const MIDDLING: usize = 128;

const COARSE: usize = 256;

const MOST_WORKERS: u8 = 16;

/// What is read and written as a script.
fn sweep_texts<R: Print + Eprint + AllocGlobal>(
    sweeper: &mut Sweeper<'_, R>,
    script: &Script,
) -> Result<()> {
    let alloc = sweeper.rt.alloc();
    let mut reading = Reading::new(alloc, CLIENT_SERVER.text)?;
    sweeper.sweep("parse", FINE, &mut reading)?;
    let mut faulty = Reading::new(alloc, WITH_A_FAULT)?;
    sweeper.sweep("parse with a fault", FINE, &mut faulty)?;
    let expected = write(alloc, script)?;
    let mut writing = Writing {
        alloc,
        script,
        expected,
    };
    sweeper.sweep("write", FINE, &mut writing)
}

/// What is read and written as a journal.
fn sweep_journal_texts<R: Print + Eprint + AllocGlobal>(
    sweeper: &mut Sweeper<'_, R>,
    script: &Script,
) -> Result<()> {
    let alloc = sweeper.rt.alloc();
    let mut reading = ReadingJournal {
        alloc,
        script,
        text: CLIENT_SERVER.journal,
        expected: read_journal(alloc, script, CLIENT_SERVER.journal.as_bytes()),
    };
    sweeper.sweep("read_journal", FINE, &mut reading)?;
    let mut faulty = ReadingJournal {
        alloc,
        script,
        text: WITH_A_BAD_LINE,
        expected: read_journal(alloc, script, WITH_A_BAD_LINE.as_bytes()),
    };
    sweeper.sweep("read_journal with a bad line", FINE, &mut faulty)?;
    let mut writing = WritingJournal {
        alloc,
        script,
        text: CLIENT_SERVER.journal,
    };
    sweeper.sweep("write_journal", FINE, &mut writing)
}

/// Where the commits lead the script.
fn replayed(alloc: Global, script: &Script, commits: &[Commit]) -> Result<State> {
    match replay(alloc, script.processes(), u32::from(ROWS), commits) {
        Ok(state) => Ok(state),
        Err(_) => bail!("the commits are no run"),
    }
}

/// The ledger that one worker leaves.
fn ledger_of<R: AllocGlobal + Threads + Wait + Sync>(rt: &R, script: &Script) -> Result<Ledger> {
    if script.processes().is_empty() {
        bail!("no process");
    }
    Ok(work(rt, rt.alloc(), script, 1, ROWS, &OpenGate)?)
}

/// What the ledger's commits come to.
fn completed(alloc: Global, script: &Script, ledger: &Ledger) -> Result<Record> {
    match complete(alloc, script.processes(), u32::from(ROWS), ledger) {
        Ok(record) => Ok(record),
        Err(_) => bail!("the ledger's commits are no run"),
    }
}

/// What leads a script to where commits lead it, and on to its end.
fn sweep_journals<R: Print + Eprint + AllocGlobal + Threads + Wait + Sync>(
    sweeper: &mut Sweeper<'_, R>,
    script: &Script,
) -> Result<()> {
    let alloc = sweeper.rt.alloc();
    let journal = read_journal(alloc, script, CLIENT_SERVER.journal.as_bytes())?;
    let commits = journal.as_slice();
    let mut replaying = Replaying {
        alloc,
        script,
        commits,
        expected: replayed(alloc, script, commits)?,
    };
    sweeper.sweep("replay", FINE, &mut replaying)?;
    let mut enabling = Enabling {
        alloc,
        script,
        commits: &commits[..1],
        expected: commits.get(1).copied(),
    };
    sweeper.sweep("enabled", MIDDLING, &mut enabling)?;
    let mut settling = Settling {
        alloc,
        script,
        commits,
        expected: replayed(alloc, script, commits)?,
    };
    sweeper.sweep("settle", MIDDLING, &mut settling)?;
    let ledger = ledger_of(sweeper.rt, script)?;
    let expected = completed(alloc, script, &ledger)?;
    let mut completing = Completing {
        alloc,
        script,
        ledger,
        expected,
    };
    sweeper.sweep("complete", MIDDLING, &mut completing)
}

/// The shared table, and the lanes of those who wait at it.
fn sweep_tables<R: Print + Eprint + AllocGlobal + Wait>(
    sweeper: &mut Sweeper<'_, R>,
) -> Result<()> {
    let alloc = sweeper.rt.alloc();
    let rt = sweeper.rt;
    sweeper.sweep("Cells::new", FINE, &mut MakingCells { alloc })?;
    sweeper.sweep("Meet::new", MIDDLING, &mut MakingMeet { alloc })?;
    sweeper.sweep("search", FINE, &mut PuttingIn { rt })?;
    sweeper.sweep("wake", FINE, &mut Waking { rt })
}

/// A run of the script on so many workers.
fn sweep_run<R: Print + Eprint + AllocGlobal + Threads + Wait + Sync>(
    sweeper: &mut Sweeper<'_, R>,
    example: &Example,
    workers: u8,
    step: usize,
) -> Result<()> {
    let rt = sweeper.rt;
    let alloc = rt.alloc();
    let script = parse(alloc, example.text.as_bytes())?;
    let expected = run(rt, alloc, &script, workers, ROWS, &OpenGate)?;
    let example = example.name;
    let name = format!(in alloc; "run of {example} on {workers}")?;
    let running = Running {
        name: name.as_str(),
        script: &script,
        workers,
        expected: &expected,
    };
    sweep_runs(sweeper, &running, step)
}

/// All sweeps, with this slack as what the program has.
fn sweep_all<R: Print + Eprint + Env + AllocGlobal + Threads + Wait + Sync>(
    rt: &R,
    slack: Slack,
) -> Result<()> {
    let alloc = rt.alloc();
    let counts = env::args(rt)?.len() > 1;
    let script = parse(alloc, CLIENT_SERVER.text.as_bytes())?;
    // The threads of this run leave their stacks behind for those that are started when memory is scarce.
    run(rt, alloc, &script, MOST_WORKERS, ROWS, &OpenGate)?;
    let hoard = Hoard::new(rt, slack)?;
    let mut sweeper = Sweeper { rt, hoard, counts };
    sweep_texts(&mut sweeper, &script)?;
    sweep_journal_texts(&mut sweeper, &script)?;
    sweep_journals(&mut sweeper, &script)?;
    sweep_tables(&mut sweeper)?;
    for example in [THREE_SENDS, CLIENT_SERVER, NESTED_NACKS, STARTS] {
        sweep_run(&mut sweeper, &example, 1, MIDDLING)?;
        sweep_run(&mut sweeper, &example, 2, COARSE)?;
    }
    Ok(())
}

fn main(rt: HostRuntime) -> Result<()> {
    let slack = Slack::new(rt.alloc())?;
    // The calls are made in a second thread, whose part of the heap is not that of the slack.
    join(&rt, || sweep_all(&rt, slack), || ()).0
}
