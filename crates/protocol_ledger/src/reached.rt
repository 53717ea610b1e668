//! How far each thread of a ledger got, by one walk along the ledger's commits.

ghost use Rattle.std.specs.Prelude.{◌↔◌, IfOk, Contains};
ghost use Rattle.protocol_ledger.specs.Ledgers.{HasCommit, IsLawful};
ghost use Rattle.protocol_ledger.specs.Openings.{AreStarts, HaveReached, Notes, NotesCommit};

use crate::ledger::Ledger;
use crate::opening::stamp_of;
use crate::sheet::start_of;
use protocol_values::{Commit, Row};
use std::alloc::AllocError;

/// How far a thread got.
#[derive(Clone, Copy, Debug)]
pub(crate) struct Reached {
    /// The last stamp: that of its last commit, or of its start where it has none.
    pub(crate) stamp: u32,
    /// How many rows it has up to that of its last commit.
    pub(crate) rows: usize,
}

impl Ledger {
    /// How far each thread got, by the ledger's commits.
    pub(crate) fn reached(&self, commits: &[Commit]) -> Result<Vec<Reached>, AllocError>
        requires { (c : Commit) → Contains commits.now c ↔ HasCommit self.now c }
        ensures { IfOk result (λ reached. HaveReached self.now reached.items) }
    {
        let mut reached = self.starts()?;
        for commit in commits {
            note_commit(&mut reached, *commit);
        }
        Ok(reached)
    }

    /// How far each thread had got with no commit.
    fn starts(&self) -> Result<Vec<Reached>, AllocError>
        ensures starts { IfOk result (λ reached. AreStarts self.now reached.items) }
        ensures lawful { IsLawful self.now }
    {
        let mut starts = Vec::with_capacity(self.sheet.allocator(), self.sheet.threads)?;
        for thread in 0..self.sheet.threads {
            let stamp = start_of(self.sheet.course(thread as u8));
            starts.push(Reached { stamp, rows: 0 })?;
        }
        Ok(starts)
    }
}

/// Notes the commit for each of its threads.
fn note_commit(reached: &mut Vec<Reached>, commit: Commit)
    ensures { NotesCommit commit reached.old.items reached.new.items }
{
    let stamp = stamp_of(commit);
    match commit {
        Commit::Pair {
            sender,
            receiver,
            ..
        } => {
            note(reached, sender.0, stamp);
            note(reached, receiver.0, stamp);
        }
        Commit::Alone { at, .. } => note(reached, at.0, stamp),
    }
}

/// Notes for its thread that the row is in a commit with this stamp.
fn note(reached: &mut Vec<Reached>, row: Row, stamp: u32)
    ensures { Notes row stamp reached.old.items reached.new.items }
{
    let thread = usize::from(row.thread);
    let sync = row.sync as usize;
    if thread < reached.len() && reached[thread].rows <= sync {
        reached[thread] = Reached {
            stamp,
            rows: sync + 1,
        };
    }
}
