//! What a ledger tells of its end: each thread's life and last stamp, and what became of each nack.

ghost use Rattle.std.specs.Prelude.{◌≡◌, ◌+◌, ◌*◌, ◌<◌, ◌≤◌, ◌↔◌, Contains, IfOk, IsTrue, length};
ghost use Rattle.protocol_ledger.specs.Ledgers.{HasCommit, Involves, IsLawful, Takes};
ghost use Rattle.protocol_values.specs.Commits.{stamp_of};
ghost use Rattle.protocol_ledger.specs.Openings.{HaveReached, IsOpening, IsPast, LeadsOn, TellsEnd, TellNacks, TellsNack, TellsNacks, TellsThreads, course_for, first_life, greatest, life_of, opening_of, stamp_in, start_opening, word_for};

use crate::ledger::Ledger;
use crate::reached::Reached;
use crate::sheet::{NACKS, encloses, waits};
use protocol_values::{Commit, Course, NackName, NackWord, Row};
use std::alloc::{AllocError, Global};

/// Whether a thread waits to be started, has started, or has ended.
#[derive(Clone, Copy, Debug, PartialEq, Eq)]
pub enum Life {
    Unstarted,
    Running,
    Ended,
}

/// What became of a nack.
#[derive(Clone, Copy, Debug, PartialEq, Eq)]
pub enum NackState {
    /// It is bound to no row.
    Unbound,
    /// It is bound to a row that is in no commit yet.
    Unsettled,
    /// Its row's commit took an offer inside the nack's scope, so the nack is never enabled.
    Dead,
    /// Its row's commit, which has this stamp, took an offer outside the nack's scope.
    Enabled(u32),
}

/// What a ledger tells of its end, from which a later table goes on.
#[derive(Debug, Drop)]
pub struct Opening {
    /// Each thread's life, and its last stamp: that of its last commit, or of its start where it has none.
    pub threads: Vec<(Life, u32)>,
    /// 64 nacks a thread, thread by thread.
    pub nacks: Vec<NackState>,
}

impl Opening {
    /// The opening of a first table of at most 64 threads: those of the mask `later` wait to be started, all others run
    /// with no stamp, and no nack is bound.
    pub fn first(alloc: Global, threads: u8, later: u64) -> Result<Opening, AllocError>
        requires { threads ≤ 64 }
        ensures { IfOk result (λ o. opening_of o ≡ start_opening threads later) }
    {
        let mut lives = Vec::with_capacity(alloc, usize::from(threads))?;
        for thread in 0..threads {
            lives.push(first_life(later, thread))?;
        }
        Ok(Opening {
            threads: lives,
            nacks: vec![in alloc; NackState::Unbound; usize::from(threads) * NACKS]?,
        })
    }

    /// The greatest stamp, 0 where there is none.
    pub fn greatest(&self) -> u32
        ensures { result ≡ greatest (opening_of self.now) }
    {
        let last = self
            .threads
            .iter()
            .map(|thread| thread.1)
            .max()
            .unwrap_or(0);
        let enabled = self
            .nacks
            .iter()
            .map(|state| state.stamp())
            .max()
            .unwrap_or(0);
        last.max(enabled)
    }

    /// Whether a table of so many rows a thread can go on from it: it has 1 to 64 threads, and 64 nacks for each, no
    /// thread that waits to be started has a stamp, each enabled nack has one, and the greatest stamp plus the
    /// number of all threads' rows is at most 4294967295.
    pub fn leads_on(&self, rows: u16) -> bool
        ensures { IsTrue result ↔ IsOpening (opening_of self.now) rows }
    {
        let count = self.threads.len();
        if count < 1 || count > 64 || self.nacks.len() != count * NACKS {
            return false;
        }
        let waits = |thread: &(Life, u32)| thread.0 != Life::Unstarted || thread.1 == 0;
        if !self.threads.iter().all(waits) {
            return false;
        }
        if !self
            .nacks
            .iter()
            .all(|state| *state != NackState::Enabled(0))
        {
            return false;
        }
        u64::from(self.greatest()) + count as u64 * u64::from(rows) <= u64::from(u32::MAX)
    }
}

impl NackState {
    /// The stamp at which the nack was enabled, and 0 where it was not.
    fn stamp(self) -> u32
        ensures { result ≡ stamp_in self }
    {
        match self {
            NackState::Unbound | NackState::Unsettled | NackState::Dead => 0,
            NackState::Enabled(stamp) => stamp,
        }
    }

    /// What the nack's word says in a table that goes on: one that is not settled is bound anew.
    pub(crate) fn word(self) -> NackWord
        ensures { result ≡ word_for self }
    {
        match self {
            NackState::Unbound | NackState::Unsettled => NackWord::Unbound,
            NackState::Dead => NackWord::Carried(0),
            NackState::Enabled(stamp) => NackWord::Carried(stamp),
        }
    }
}

impl Life {
    /// Where a thread with this last stamp is on its course in a table that goes on.
    pub(crate) fn course(self, stamp: u32) -> Course
        ensures { result ≡ course_for self stamp }
    {
        match self {
            Life::Unstarted => Course::Unstarted,
            Life::Running => Course::Running(stamp),
            Life::Ended => Course::Ended(stamp, 0),
        }
    }
}

impl Ledger {
    /// What the ledger tells of its end. A table can go on from it while the stamps to come have room.
    pub fn opening(&self) -> Result<Opening, AllocError>
        ensures end { IfOk result (λ o. TellsEnd self.now o.threads.items o.nacks.items) }
        ensures greatest { IfOk result (λ o. IsLawful self.now → greatest (opening_of o) ≤ self.now.opening + self.now.threads * self.now.rows) }
        ensures leads_on { IfOk result (λ o. IsLawful self.now → LeadsOn self.now (opening_of o)) }
    {
        self.opening_by(&self.commits()?)
    }

    /// What the ledger tells of its end, by its commits, for who has listed them already.
    pub fn opening_by(&self, commits: &[Commit]) -> Result<Opening, AllocError>
        requires { (c : Commit) → Contains commits.now c ↔ HasCommit self.now c }
        ensures end { IfOk result (λ o. TellsEnd self.now o.threads.items o.nacks.items) }
        ensures greatest { IfOk result (λ o. IsLawful self.now → greatest (opening_of o) ≤ self.now.opening + self.now.threads * self.now.rows) }
        ensures leads_on { IfOk result (λ o. IsLawful self.now → LeadsOn self.now (opening_of o)) }
    {
        let reached = self.reached(commits)?;
        Ok(Opening {
            threads: self.ends(&reached)?,
            nacks: self.nack_states(&reached)?,
        })
    }

    /// Each thread's life and last stamp.
    fn ends(&self, reached: &[Reached]) -> Result<Vec<(Life, u32)>, AllocError>
        requires { HaveReached self.now reached.now }
        ensures { IfOk result (λ ends. TellsThreads self.now ends.items) }
    {
        let mut ends = Vec::with_capacity(self.sheet.allocator(), reached.len())?;
        for (thread, reached) in reached.iter().enumerate() {
            let life = life_of(self.sheet.course(thread as u8));
            ends.push((life, reached.stamp))?;
        }
        Ok(ends)
    }

    /// What became of the nacks, 64 a thread, thread by thread.
    fn nack_states(&self, reached: &[Reached]) -> Result<Vec<NackState>, AllocError>
        requires { HaveReached self.now reached.now }
        ensures { IfOk result (λ states. TellsNacks self.now states.items) }
    {
        let alloc = self.sheet.allocator();
        let mut states = vec![in alloc; NackState::Unbound; reached.len() * NACKS]?;
        for (thread, reached) in reached.iter().enumerate() {
            self.tell_nacks(thread as u8, reached.rows, &mut states);
        }
        Ok(states)
    }

    /// Tells what became of the nacks of a thread that got to so many rows. Most are not bound, which their words alone
    /// tell, and stay as they are.
    fn tell_nacks(&self, thread: u8, rows: usize, states: &mut [NackState])
        requires thread { thread < self.now.threads }
        requires past { IsPast self.now thread rows }
        requires room { thread * 64 + 64 ≤ length states.old }
        requires told { TellNacks self.now (thread * 64) states.old }
        ensures count { length states.new ≡ length states.old }
        ensures told { TellNacks self.now (thread * 64 + 64) states.new }
    {
        let first = usize::from(thread) * NACKS;
        for (k, word) in self.sheet.nack_words(thread).iter().enumerate() {
            if *word != 0 {
                states[first + k] = self.nack_state(NackName { thread, k: k as u8 }, rows);
            }
        }
    }

    /// What became of a nack of a thread that got to so many rows.
    fn nack_state(&self, nack: NackName, rows: usize) -> NackState
        requires { IsPast self.now nack.thread rows }
        ensures { TellsNack self.now nack result }
    {
        let bound = match self.sheet.nack(nack) {
            NackWord::Unbound => return NackState::Unbound,
            NackWord::Carried(0) => return NackState::Dead,
            NackWord::Carried(stamp) => return NackState::Enabled(stamp),
            NackWord::Bound(bound) => bound,
        };
        if usize::from(bound.sync) >= rows {
            return NackState::Unsettled;
        }
        let row = Row {
            thread: nack.thread,
            sync: bound.sync as u32,
        };
        let Some(commit) = self.commit_of(row) else {
            return NackState::Unsettled;
        };
        if encloses(bound.scope, self.sheet.offer(row, taken(commit, row))) {
            NackState::Dead
        } else {
            NackState::Enabled(stamp_of(commit))
        }
    }
}

pub(crate) fn stamp_of(commit: Commit) -> u32
    ensures { result ≡ stamp_of commit }
{
    commit.order().0
}

/// Which offer of the row the commit took.
fn taken(commit: Commit, row: Row) -> u8
    requires { Involves commit row }
    ensures { Takes commit row result }
{
    match commit {
        Commit::Pair {
            sender,
            receiver,
            ..
        } => {
            if sender.0 == row {
                sender.1
            } else {
                receiver.1
            }
        }
        Commit::Alone { at, .. } => at.1,
    }
}

// the life of a thread in a first table, and its stamp
fn first_life(later: u64, thread: u8) -> (Life, u32)
    requires { thread < 64 }
    ensures { result ≡ first_life later thread }
{
    if waits(later, usize::from(thread)) {
        (Life::Unstarted, 0)
    } else {
        (Life::Running, 0)
    }
}

fn life_of(course: Course) -> Life
    ensures { result ≡ life_of course }
{
    match course {
        Course::Unstarted => Life::Unstarted,
        Course::Running(_) => Life::Running,
        Course::Ended(..) => Life::Ended,
    }
}
