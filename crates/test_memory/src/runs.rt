//! Runs of whole scripts.

use crate::examples::ROWS;
use crate::journals::same_record;
use crate::sweep::{Answer, MOST_AMOUNTS, Sweeper, Tally, judged};
use anyhow::{Result, bail};
use journal::Record;
use runtime_run::{OpenGate, RunFault, run};
use script::Script;
use std::sync::Wait;
use std::thread::Threads;

/// The run that a script comes to, by its name.
#[derive(Drop)]
pub(crate) struct Running<'a> {
    pub(crate) name: &'a str,
    pub(crate) script: &'a Script,
    pub(crate) workers: u8,
    pub(crate) expected: &'a Record,
}

/// Whether a run with ample memory gives what is expected.
pub(crate) fn runs_as_ever<R: AllocGlobal + Threads + Wait + Sync>(
    rt: &R,
    running: &Running<'_>,
) -> Result<bool> {
    let workers = running.workers;
    let record = run(rt, rt.alloc(), running.script, workers, ROWS, &OpenGate)?;
    Ok(same_record(&record, running.expected))
}

/// Runs the script with so many bytes left. After a run that was refused memory, the next one with ample
/// memory gives its answer all the same: no worker runs on.
fn attempt_run<R: Print + Eprint + AllocGlobal + Threads + Wait + Sync>(
    sweeper: &mut Sweeper<'_, R>,
    running: &Running<'_>,
    amount: usize,
) -> Result<Answer> {
    let rt = sweeper.rt;
    let workers = running.workers;
    sweeper.hoard.leave(amount)?;
    let ran = run(rt, rt.alloc(), running.script, workers, ROWS, &OpenGate);
    sweeper.hoard.release();
    match ran {
        Ok(record) => Ok(judged(same_record(&record, running.expected))),
        Err(RunFault::Memory | RunFault::NoWorker) => {
            if runs_as_ever(rt, running)? {
                Ok(Answer::Refused)
            } else {
                Ok(Answer::Other)
            }
        }
        Err(_) => Ok(Answer::Other),
    }
}

/// Runs the script with more and more memory left, by so many bytes more each time.
pub(crate) fn sweep_runs<R: Print + Eprint + AllocGlobal + Threads + Wait + Sync>(
    sweeper: &mut Sweeper<'_, R>,
    running: &Running<'_>,
    step: usize,
) -> Result<()> {
    let mut tally = Tally::new();
    for turn in 0..MOST_AMOUNTS {
        let amount = step.saturating_mul(turn);
        let answer = attempt_run(sweeper, running, amount)?;
        if tally.is_last(&answer) {
            return sweeper.tell(running.name, &tally, amount);
        }
    }
    let name = running.name;
    bail!("{name}: no answer")
}
