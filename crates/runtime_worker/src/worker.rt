//! One worker: the first turns of its threads, and then turn after turn of whichever thread is ready.

ghost use Rattle.meet_queues.specs.Ends.{IsEndOf};
ghost use Rattle.runtime_worker.specs.Workers.{IsLeavingsOf, IsNewWorkerOf, IsWorkerOf};

use crate::crew::Crew;
use crate::gate::Gate;
use crate::halt::Halt;
use crate::kept::{Kept, MOST_KEPT};
use crate::resident::{Rest, Suspended};
use crate::turns::Committed;
use cell::{Pass, StepGate};
use crossbeam_utils::Backoff;
use meet::MeetPass;
use meet_queues::ReadyEnd;
use protocol_values::Row;
use std::sync::Wait;

/// With so few rows at least a worker shares what it has kept. A token that goes round leaves two rows ready at once, of
/// which another worker would gain nothing: all that they touch would have to come over, to and fro.
const LEAST_TO_SHARE: usize = 3;

/// With each so many turns a worker looks into the ready queues, though it has kept rows: so no row is left there for
/// ever.
const TURNS_BETWEEN_LOOKS: u32 = 64;

/// What a worker has for itself: its pass of the cells, the machines at rest, its passes of the lanes, its end of the
/// ready queues, and its number.
#[derive(Drop)]
pub struct Worker {
    pub pass: Pass<Suspended>,
    pub rests: Vec<Rest>,
    pub lanes: MeetPass,
    pub end: ReadyEnd,
    pub number: u8,
}

/// What a worker leaves: its pass, and the machines at rest.
#[derive(Drop)]
pub struct Leavings {
    pub pass: Pass<Suspended>,
    pub rests: Vec<Rest>,
}

/// What a worker gives back: what it leaves, and whether it came to the end.
#[derive(Drop)]
pub struct Worked {
    pub left: Leavings,
    pub done: Result<(), Halt>,
}

impl<R: Wait, G: Gate + StepGate> Crew<'_, R, G> {
    /// All turns of one worker. Where it halts, all workers stop.
    pub fn work_on(&self, worker: Worker) -> Worked
        requires { IsNewWorkerOf self.now.cells.now self.now.shared.now worker }
        ensures { IsLeavingsOf self.now.cells.now result.left }
    {
        let mut worker = worker;
        let done = self.all_turns(&mut worker);
        if done.is_err() {
            self.shared.activity.stop();
        }
        let Worker { pass, rests, .. } = worker;
        Worked {
            left: Leavings { pass, rests },
            done,
        }
    }

    /// The first turns of the worker's threads, and then whatever is ready.
    fn all_turns(&self, worker: &mut Worker) -> Result<(), Halt>
        requires { IsNewWorkerOf self.now.cells.now self.now.shared.now worker.old }
        ensures { IsWorkerOf self.now worker.new }
    {
        self.begin_all(worker)?;
        let mut kept = Kept::new();
        let mut turns = 0u32;
        for _ in self.rt.forever() {
            // Before the first of these turns too: what was committed behind the first turns lies there.
            if turns % TURNS_BETWEEN_LOOKS == 0 {
                self.fetch_ready(&mut worker.end, &mut kept);
            }
            turns = turns.wrapping_add(1);
            let Some(row) = self.next_row(&mut worker.end, &mut kept) else {
                return Ok(());
            };
            let committed = self.advance(worker, row)?;
            self.keep(&mut worker.end, &mut kept, committed)?;
        }
        unreachable!()
    }

    /// Keeps a row of the ready queues, if there is one, and all that stands in the worker's own deque, as far as there is
    /// room.
    #[inline(never)]
    fn fetch_ready(&self, end: &mut ReadyEnd, kept: &mut Kept)
        requires { IsEndOf self.now.shared.now.ready end.old }
        ensures { IsEndOf self.now.shared.now.ready end.new }
    {
        for _ in 0..MOST_KEPT {
            if kept.is_full() {
                return;
            }
            let Some(row) = self.shared.ready.get(self.rt, end) else {
                return;
            };
            kept.push(row);
            if end.is_clear() {
                return;
            }
        }
    }

    /// The row of the next turn: the oldest that was kept, or else one that is ready. There is none where all workers
    /// are to stop.
    #[inline(always)]
    fn next_row(&self, end: &mut ReadyEnd, kept: &mut Kept) -> Option<Row>
        requires { IsEndOf self.now.shared.now.ready end.old }
        ensures { IsEndOf self.now.shared.now.ready end.new }
    {
        if self.shared.activity.is_stopped() {
            return None;
        }
        if let Some(row) = kept.pop() {
            return Some(row);
        }
        if let Some(row) = self.shared.ready.get(self.rt, end) {
            return Some(row);
        }
        self.wait_for_row(end)
    }

    /// Waits for a row that is ready, where none was found: the worker is idle but for its looks. It snoozes between the
    /// first ones, and sleeps between the others. There is none where all workers are to stop.
    #[inline(never)]
    fn wait_for_row(&self, end: &mut ReadyEnd) -> Option<Row>
        requires { IsEndOf self.now.shared.now.ready end.old }
        ensures { IsEndOf self.now.shared.now.ready end.new }
    {
        let backoff = Backoff::new();
        for _ in self.rt.forever() {
            let row = if backoff.is_completed() {
                self.sleep(end)
            } else {
                self.snooze(end, &backoff)
            };
            if row.is_some() || self.shared.activity.is_stopped() {
                return row;
            }
        }
        unreachable!()
    }

    /// The worker is idle for a snooze, and looks.
    fn snooze(&self, end: &mut ReadyEnd, backoff: &Backoff) -> Option<Row>
        requires { IsEndOf self.now.shared.now.ready end.old }
        ensures { IsEndOf self.now.shared.now.ready end.new }
    {
        if self.shared.activity.rest() {
            return None;
        }
        backoff.snooze();
        self.shared.activity.wake();
        self.shared.ready.get(self.rt, end)
    }

    /// The worker announces that it is about to sleep, and looks once more; then it is idle, sleeps until it is called,
    /// and looks.
    fn sleep(&self, end: &mut ReadyEnd) -> Option<Row>
        requires { IsEndOf self.now.shared.now.ready end.old }
        ensures { IsEndOf self.now.shared.now.ready end.new }
    {
        let key = self.shared.activity.announce();
        if let Some(row) = self.shared.ready.get(self.rt, end) {
            return Some(row);
        }
        if self.shared.activity.rest() {
            return None;
        }
        key.wait(self.rt);
        self.shared.activity.wake();
        self.shared.ready.get(self.rt, end)
    }

    /// The rows that a turn committed are kept for the next turns, behind those that are kept already. Where another
    /// worker is idle, rows are shared.
    #[inline(always)]
    fn keep(&self, end: &mut ReadyEnd, kept: &mut Kept, committed: Committed) -> Result<(), Halt>
        requires { IsEndOf self.now.shared.now.ready end.old }
        ensures { IsEndOf self.now.shared.now.ready end.new }
    {
        self.keep_all(end, kept, committed)?;
        if kept.len() < LEAST_TO_SHARE || !self.shared.activity.has_idle() {
            return Ok(());
        }
        self.share(end, kept)
    }

    /// These rows are kept.
    #[inline(always)]
    fn keep_all(
        &self,
        end: &mut ReadyEnd,
        kept: &mut Kept,
        committed: Committed,
    ) -> Result<(), Halt>
        requires { IsEndOf self.now.shared.now.ready end.old }
        ensures { IsEndOf self.now.shared.now.ready end.new }
    {
        match committed {
            Committed::Nothing => Ok(()),
            Committed::Alone(row) => self.keep_row(end, kept, row),
            Committed::Pair(row, partner) => {
                self.keep_row(end, kept, row)?;
                self.keep_row(end, kept, partner)
            }
        }
    }

    /// The row is kept, or put into the ready queues where there is no room.
    #[inline(always)]
    fn keep_row(&self, end: &mut ReadyEnd, kept: &mut Kept, row: Row) -> Result<(), Halt>
        requires { IsEndOf self.now.shared.now.ready end.old }
        ensures { IsEndOf self.now.shared.now.ready end.new }
    {
        if kept.is_full() {
            return self.put_ready(end, row);
        }
        kept.push(row);
        Ok(())
    }

    /// Half of the rows that are kept, the oldest, are put into the ready queues, from which others may take them, where
    /// what was shared before is taken.
    #[inline(never)]
    fn share(&self, end: &mut ReadyEnd, kept: &mut Kept) -> Result<(), Halt>
        requires { IsEndOf self.now.shared.now.ready end.old }
        ensures { IsEndOf self.now.shared.now.ready end.new }
    {
        if !end.is_clear() {
            return Ok(());
        }
        for _ in 0..kept.len() / 2 {
            let Some(row) = kept.pop() else {
                return Ok(());
            };
            self.put_ready(end, row)?;
        }
        Ok(())
    }
}
