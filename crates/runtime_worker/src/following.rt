//! Behind a commit: the rows that wait for nacks that it enabled are woken, and what is committed is put into the ready
//! queues.

ghost use Rattle.cell.specs.Calls.{IsPassOf, KeepsResults};
ghost use Rattle.meet_queues.specs.Ends.{IsEndOf};
ghost use Rattle.runtime_worker.specs.Workers.{IsWorkerOf};

use crate::crew::Crew;
use crate::halt::Halt;
use crate::nacks::Nacks;
use crate::resident::Suspended;
use crate::turns::Committed;
use crate::worker::Worker;
use cell::{Cells, Pass, StepGate};
use meet_queues::ReadyEnd;
use protocol_values::{Cell, NackName, Offer, Row};
use std::sync::Wait;

impl<R: Wait, G: StepGate> Crew<'_, R, G> {
    /// Wakes the rows that wait for nacks that the commit of the two rows enabled. Neither is ready
    /// yet: from when a row is put into the ready queues another worker may go on with its thread, and then the
    /// nacks of its next sync are noted.
    #[inline(always)]
    pub(crate) fn follow_pair(
        &self,
        worker: &mut Worker,
        row: Row,
        nacks: Nacks,
        partner: Row,
    ) -> Result<(), Halt>
        requires { IsWorkerOf self.now worker.old }
        ensures { IsWorkerOf self.now worker.new }
    {
        if nacks.is_empty() && !self.shared.notes.has_nacks(partner.thread) {
            return Ok(());
        }
        let others = self.shared.notes.nacks(self.rt, partner.thread);
        self.wake_enabled(worker, &[(row, nacks), (partner, others)])?;
        Ok(())
    }

    /// Wakes the rows that wait for nacks which a row enabled that was committed alone. That row is not ready yet, as in
    /// `follow_pair`.
    #[inline(always)]
    pub(crate) fn follow_alone(
        &self,
        worker: &mut Worker,
        row: Row,
        nacks: Nacks,
    ) -> Result<(), Halt>
        requires { IsWorkerOf self.now worker.old }
        ensures { IsWorkerOf self.now worker.new }
    {
        if nacks.is_empty() {
            return Ok(());
        }
        self.wake_enabled(worker, &[(row, nacks)])?;
        Ok(())
    }

    /// Wakes the rows that wait for those of these rows' nacks that their commit enabled.
    #[inline(never)]
    fn wake_enabled(&self, worker: &mut Worker, committed: &[(Row, Nacks)]) -> Result<(), Halt>
        requires { IsWorkerOf self.now worker.old }
        ensures { IsWorkerOf self.now worker.new }
    {
        let mut enabled = Vec::new(self.shared.alloc);
        for (row, nacks) in committed {
            add_enabled(self.cells, &mut worker.pass, *row, *nacks, &mut enabled)?;
        }
        self.wake_all(worker, enabled)
    }

    /// Wakes the rows that wait for the end of the thread, which has ended.
    pub(crate) fn wake_end(&self, worker: &mut Worker, thread: u8) -> Result<(), Halt>
        requires { IsWorkerOf self.now worker.old }
        ensures { IsWorkerOf self.now worker.new }
    {
        let woken = self.shared.meet.wake_end(
            self.rt,
            self.shared.alloc,
            self.cells,
            &mut worker.pass,
            &mut worker.lanes,
            self.gate,
            thread,
        )?;
        let mut enabled = Vec::new(self.shared.alloc);
        self.follow_woken(worker, &woken, &mut enabled)?;
        self.wake_all(worker, enabled)
    }

    /// Wakes the rows that wait for these nacks, and follows them in turn: their commits enable nacks too.
    fn wake_all(&self, worker: &mut Worker, nacks: Vec<NackName>) -> Result<(), Halt>
        requires { IsWorkerOf self.now worker.old }
        ensures { IsWorkerOf self.now worker.new }
    {
        let mut nacks = nacks;
        for _ in self.rt.forever() {
            let Some(nack) = nacks.pop() else {
                return Ok(());
            };
            let woken = self.shared.meet.wake(
                self.rt,
                self.shared.alloc,
                self.cells,
                &mut worker.pass,
                &mut worker.lanes,
                self.gate,
                nack,
            )?;
            self.follow_woken(worker, &woken, &mut nacks)?;
        }
        unreachable!()
    }

    /// Puts the rows that were woken into the ready queues, and adds the nacks that their commits enabled.
    fn follow_woken(
        &self,
        worker: &mut Worker,
        woken: &[Row],
        enabled: &mut Vec<NackName>,
    ) -> Result<(), Halt>
        requires { IsWorkerOf self.now worker.old }
        ensures { IsWorkerOf self.now worker.new }
    {
        for row in woken {
            let others = self.shared.notes.nacks(self.rt, row.thread);
            add_enabled(self.cells, &mut worker.pass, *row, others, enabled)?;
            self.put_ready(&mut worker.end, *row)?;
        }
        Ok(())
    }

    /// Puts the rows that a turn committed into the ready queues.
    #[inline(always)]
    pub(crate) fn put_committed(&self, end: &mut ReadyEnd, committed: Committed) -> Result<(), Halt>
        requires { IsEndOf self.now.shared.now.ready end.old }
        ensures { IsEndOf self.now.shared.now.ready end.new }
    {
        match committed {
            Committed::Nothing => Ok(()),
            Committed::Alone(row) => self.put_ready(end, row),
            Committed::Pair(row, partner) => {
                self.put_ready(end, row)?;
                self.put_ready(end, partner)
            }
        }
    }

    /// Puts the row into the ready queues, and calls a worker that sleeps. Where the end has put as many as it can count,
    /// the row is left out: what stands in the queues are hints.
    #[inline(always)]
    pub(crate) fn put_ready(&self, end: &mut ReadyEnd, row: Row) -> Result<(), Halt>
        requires { IsEndOf self.now.shared.now.ready end.old }
        ensures { IsEndOf self.now.shared.now.ready end.new }
    {
        if end.count() < u64::MAX {
            self.shared.ready.put(self.rt, end, row)?;
            self.shared.activity.call();
        }
        Ok(())
    }
}

/// Adds those of the row's nacks that its commit enabled: of the scopes that do not enclose the offer that
/// the row chose.
fn add_enabled(
    cells: &Cells<Suspended>,
    pass: &mut Pass<Suspended>,
    row: Row,
    nacks: Nacks,
    enabled: &mut Vec<NackName>,
) -> Result<(), Halt>
    requires { IsPassOf cells.now pass.old }
    ensures here { IsPassOf cells.now pass.new }
    ensures results { KeepsResults pass.old pass.new }
{
    if nacks.is_empty() {
        return Ok(());
    }
    let Some(chosen) = chosen_offer(cells, pass, row) else {
        return Ok(());
    };
    for scope in 0..4u8 {
        let Some(k) = nacks.numbers[usize::from(scope)] else {
            return Ok(());
        };
        if !chosen.has_scope(scope) {
            let thread = row.thread;
            enabled.push(NackName { thread, k })?;
        }
    }
    Ok(())
}

/// The offer by which the row was committed.
fn chosen_offer(cells: &Cells<Suspended>, pass: &mut Pass<Suspended>, row: Row) -> Option<Offer>
    requires { IsPassOf cells.now pass.old }
    ensures here { IsPassOf cells.now pass.new }
    ensures results { KeepsResults pass.old pass.new }
{
    if !cells.has(row) {
        return None;
    }
    let (Cell::Synched(joined) | Cell::Taken(joined)) = cells.look(pass, row) else {
        return None;
    };
    cells.offer(pass, row, joined.own)
}
