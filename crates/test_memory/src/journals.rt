//! Journals that are read, written, replayed and led to their end.

use crate::examples::ROWS;
use crate::hoard::Hoard;
use crate::sweep::{Answer, Call, judged};
use anyhow::Result;
use journal::{Record, complete};
use journal_replay::{ReplayFault, State, replay, settle};
use journal_text::{JournalFault, read_journal, write_journal};
use protocol_ledger::Ledger;
use protocol_values::Commit;
use script::Script;
use std::alloc::Global;

/// To read a journal that has a bad line, or has these commits.
#[derive(Drop)]
pub(crate) struct ReadingJournal<'a> {
    pub(crate) alloc: Global,
    pub(crate) script: &'a Script,
    pub(crate) text: &'a str,
    pub(crate) expected: Result<Vec<Commit>, JournalFault>,
}

impl ReadingJournal<'_> {
    fn is_expected(&self, read: &Result<Vec<Commit>, JournalFault>) -> bool {
        match (read, &self.expected) {
            (Ok(commits), Ok(expected)) => commits.as_slice() == expected.as_slice(),
            (Err(JournalFault::BadLine(line)), Err(JournalFault::BadLine(expected))) => {
                *line == *expected
            }
            _ => false,
        }
    }
}

impl Call for ReadingJournal<'_> {
    fn attempt(&mut self, hoard: &mut Hoard, amount: usize) -> Result<Answer> {
        hoard.leave(amount)?;
        let read = read_journal(self.alloc, self.script, self.text.as_bytes());
        hoard.release();
        if matches!(&read, Err(JournalFault::Memory)) {
            return Ok(Answer::Refused);
        }
        Ok(judged(self.is_expected(&read)))
    }
}

/// To write a journal of the script, which is read first.
#[derive(Drop)]
pub(crate) struct WritingJournal<'a> {
    pub(crate) alloc: Global,
    pub(crate) script: &'a Script,
    pub(crate) text: &'a str,
}

impl Call for WritingJournal<'_> {
    fn attempt(&mut self, hoard: &mut Hoard, amount: usize) -> Result<Answer> {
        let commits = read_journal(self.alloc, self.script, self.text.as_bytes())?;
        hoard.leave(amount)?;
        let written = write_journal(self.alloc, self.script, commits.as_slice());
        hoard.release();
        let Ok(text) = written else {
            return Ok(Answer::Refused);
        };
        Ok(judged(text.as_slice() == self.text.as_bytes()))
    }
}

/// To replay commits that lead to this state.
#[derive(Drop)]
pub(crate) struct Replaying<'a> {
    pub(crate) alloc: Global,
    pub(crate) script: &'a Script,
    pub(crate) commits: &'a [Commit],
    pub(crate) expected: State,
}

impl Call for Replaying<'_> {
    fn attempt(&mut self, hoard: &mut Hoard, amount: usize) -> Result<Answer> {
        hoard.leave(amount)?;
        let replayed = replay(
            self.alloc,
            self.script.processes(),
            u32::from(ROWS),
            self.commits,
        );
        hoard.release();
        match replayed {
            Ok(state) => Ok(judged(same_state(&state, &self.expected))),
            Err(ReplayFault::Memory) => Ok(Answer::Refused),
            Err(ReplayFault::Unlawful(_)) => Ok(Answer::Other),
        }
    }
}

/// To find a commit that may come next where these commits lead.
#[derive(Drop)]
pub(crate) struct Enabling<'a> {
    pub(crate) alloc: Global,
    pub(crate) script: &'a Script,
    pub(crate) commits: &'a [Commit],
    pub(crate) expected: Option<Commit>,
}

impl Call for Enabling<'_> {
    fn attempt(&mut self, hoard: &mut Hoard, amount: usize) -> Result<Answer> {
        let Ok(state) = replay(
            self.alloc,
            self.script.processes(),
            u32::from(ROWS),
            self.commits,
        ) else {
            return Ok(Answer::Other);
        };
        hoard.leave(amount)?;
        let enabled = state.enabled(self.alloc);
        hoard.release();
        let Ok(commit) = enabled else {
            return Ok(Answer::Refused);
        };
        Ok(judged(commit == self.expected))
    }
}

/// To lead a script from its beginning to its end, by all these commits.
#[derive(Drop)]
pub(crate) struct Settling<'a> {
    pub(crate) alloc: Global,
    pub(crate) script: &'a Script,
    pub(crate) commits: &'a [Commit],
    pub(crate) expected: State,
}

impl Call for Settling<'_> {
    fn attempt(&mut self, hoard: &mut Hoard, amount: usize) -> Result<Answer> {
        let Ok(state) = replay(self.alloc, self.script.processes(), u32::from(ROWS), &[]) else {
            return Ok(Answer::Other);
        };
        hoard.leave(amount)?;
        let settled = settle(self.alloc, state);
        hoard.release();
        let Ok((state, added)) = settled else {
            return Ok(Answer::Refused);
        };
        let same = same_state(&state, &self.expected);
        Ok(judged(same && added.as_slice() == self.commits))
    }
}

/// To complete a ledger.
#[derive(Drop)]
pub(crate) struct Completing<'a> {
    pub(crate) alloc: Global,
    pub(crate) script: &'a Script,
    pub(crate) ledger: Ledger,
    pub(crate) expected: Record,
}

impl Call for Completing<'_> {
    fn attempt(&mut self, hoard: &mut Hoard, amount: usize) -> Result<Answer> {
        hoard.leave(amount)?;
        let completed = complete(
            self.alloc,
            self.script.processes(),
            u32::from(ROWS),
            &self.ledger,
        );
        hoard.release();
        match completed {
            Ok(record) => Ok(judged(same_record(&record, &self.expected))),
            Err(ReplayFault::Memory) => Ok(Answer::Refused),
            Err(ReplayFault::Unlawful(_)) => Ok(Answer::Other),
        }
    }
}

/// Whether the threads of both states stand alike and printed the same.
fn same_state(a: &State, b: &State) -> bool {
    if a.threads() != b.threads() {
        return false;
    }
    for thread in 0..a.threads() {
        if a.end(thread) != b.end(thread) || a.output(thread) != b.output(thread) {
            return false;
        }
    }
    true
}

/// Whether both records tell the same.
pub(crate) fn same_record(a: &Record, b: &Record) -> bool {
    if a.outputs.len() != b.outputs.len() || a.tail != b.tail {
        return false;
    }
    for (printed, other) in a.outputs.iter().zip(&b.outputs) {
        if printed.as_slice() != other.as_slice() {
            return false;
        }
    }
    a.journal.as_slice() == b.journal.as_slice() && a.ends.as_slice() == b.ends.as_slice()
}
