//! One turn of a thread, by a worker. The functions stand in the order of a run: a thread's first turn begins it, if its
//! machine has the whole process before it, and enters its first row, which is searched for behind the first turns of
//! all; a later turn advances a row that is ready, resumes its thread, and enters and searches for the next row. Where a
//! turn starts other threads, their first turns follow before anything is searched for.
//!
//! Invariants:
//! - A machine is in one place: in its thread's slot, with the worker whose turn it is, or at rest with a worker.
//! - A row is opened only where its nacks are bound, its offers drafted, and its machine parked: `open` sends that home.
//! - Nothing is searched for, and nobody woken, while a thread that was started is still to begin, or a row to be opened.

ghost use Rattle.std.specs.Prelude.{◌≡◌, ◌≢◌, ◌≤◌, [], ℕ, Contains, IfOk, IfSome, None, OnOk, length};
ghost use Rattle.protocol_values.specs.declared.Binding.{Binding};
ghost use Rattle.protocol_values.specs.declared.NackName.{NackName};
ghost use Rattle.protocol_ledger.specs.Tables.{bound_row};
ghost use Rattle.protocol_values.specs.Values.{next_row};
ghost use Rattle.thread.specs.Machines.{HasStopped, IsOpen, Tells};
ghost use Rattle.thread.specs.Ranges.{MessageIsIn};
ghost use Rattle.cell.specs.Calls.{Holds, IsPassOf, KeepsResults, IsRowOf, IsStandOf};
ghost use Rattle.cell_table.specs.Sight.{Has, IsStand, SawEnded};
ghost use Rattle.protocol_ledger.specs.Worlds.{first_row};
ghost use Rattle.runtime_worker.specs.Machines.{AreAtRest, AreToBegin, IsNow, IsTable, IsToResume, IsUntouched, KeepsRows, LeavesOthers, SpawnedSince};
ghost use Rattle.runtime_worker.specs.Workers.{IsWorkerOf};

use crate::binding::bind_all;
use crate::crew::Crew;
use crate::gate::Gate;
use crate::halt::Halt;
use crate::nacks::Nacks;
use crate::ranges::offers_fit;
use crate::resident::{Rest, Suspended};
use crate::worker::Worker;
use cell::{Pass, StepGate};
use meet_scan::Found;
use protocol_values::{Cell, Joined, Message, Row};
use std::sync::Wait;
use thread::Turn;

/// The rows that a turn committed.
#[derive(Clone, Copy)]
pub(crate) enum Committed {
    Nothing,
    Alone(Row),
    Pair(Row, Row),
}

/// A row that was taken: how it was committed, and the message that it got.
#[derive(Clone, Copy)]
struct Taken {
    row: Row,
    joined: Joined,
    message: Message,
}

/// What a turn's end came to: the nacks of the row that it opened, if it opened one, and whether the thread ended.
#[derive(Clone, Copy)]
struct Entered {
    opened: Option<Nacks>,
    ended: bool,
}

/// A thread that had its first turn, and what that came to.
#[derive(Clone, Copy)]
struct Begun {
    thread: u8,
    entered: Entered,
}

impl<R: Wait, G: Gate + StepGate> Crew<'_, R, G> {
    /// The first turns of the threads whose first rows the worker's pass holds, and of those that these start. All of
    /// these rows are opened before the first of them is searched for.
    pub(crate) fn begin_all(&self, worker: &mut Worker) -> Result<(), Halt>
        requires here { IsWorkerOf self.now worker.old }
        requires untouched { (r : Row) → IsUntouched worker.old.pass.seen r }
        ensures { IsWorkerOf self.now worker.new }
    {
        let mut threads = Vec::new(self.shared.alloc);
        // The list is taken from its end: so the first thread begins first.
        for behind in 0..self.threads {
            let thread = self.threads - 1 - behind;
            let row = Row { thread, sync: 0 };
            if worker.pass.holds(row) && self.cells.has(row) {
                threads.push(thread)?;
            }
        }
        let begun = self.begin_each(worker, threads)?;
        self.follow_begun(worker, &begun)
    }

    /// The first turns of these threads, the last one's first, and of those that they start.
    fn begin_each(&self, worker: &mut Worker, threads: Vec<u8>) -> Result<Vec<Begun>, Halt>
        requires here { IsWorkerOf self.now worker.old }
        requires threads { AreToBegin self.now.cells.now.threads worker.old.pass.seen threads.items }
        ensures here { IsWorkerOf self.now worker.new }
        ensures rows { KeepsRows worker.old.pass.seen worker.new.pass.seen }
    {
        let mut threads = threads;
        let mut begun = Vec::new(self.shared.alloc);
        for _ in self.rt.forever() {
            let Some(thread) = threads.pop() else {
                return Ok(begun);
            };
            self.gate.before(worker.number, thread);
            let row = Row { thread, sync: 0 };
            let entered = self.begin(&mut worker.pass, row, &mut worker.rests, &mut threads);
            self.gate.after(worker.number, thread);
            let entered = entered?;
            begun.push(Begun { thread, entered })?;
        }
        unreachable!()
    }

    /// Runs the thread to its first stop, and enters its first row. The threads that it starts join the list. A machine
    /// that stands at an open sync has stopped already: it has spawned nothing since, and is not begun again.
    fn begin(
        &self,
        pass: &mut Pass<Suspended>,
        row: Row,
        rests: &mut Vec<Rest>,
        threads: &mut Vec<u8>,
    ) -> Result<Entered, Halt>
        requires here { IsPassOf self.now.cells.now pass.old × IsRowOf self.now.cells.now row × IsTable self.now.cells.now }
        requires rests { AreAtRest self.now.cells.now.first pass.old.results rests.old.items }
        requires first { (row.sync ≡ 0) × Has pass.old.seen.held row }
        requires untouched { IsUntouched pass.old.seen row }
        requires threads { AreToBegin self.now.cells.now.threads pass.old.seen threads.old.items × ((t : ℕ) → Contains threads.old.items t → t ≢ row.thread) }
        ensures here { IsPassOf self.now.cells.now pass.new }
        ensures rests { AreAtRest self.now.cells.now.first pass.new.results rests.new.items }
        ensures rows { KeepsRows pass.old.seen pass.new.seen }
        ensures threads { OnOk result (AreToBegin self.now.cells.now.threads pass.new.seen threads.new.items) }
    {
        let mut suspended = self.cells.fetch(pass, row);
        let had = suspended.machine.spawned().len();
        let turn = if suspended.machine.is_offering() {
            suspended.machine.turn()
        } else {
            suspended.machine.begin()?
        };
        self.enter(pass, row, suspended, turn, had, rests, threads)
    }

    /// What a machine comes to behind a turn: it starts the threads that it spawned since it had spawned so many, which
    /// join the list; then it opens the place's row with what it offers, or ends its thread. A machine whose thread does
    /// no more is at rest.
    #[inline(always)]
    fn enter(
        &self,
        pass: &mut Pass<Suspended>,
        place: Row,
        suspended: Suspended,
        turn: Turn,
        had: usize,
        rests: &mut Vec<Rest>,
        threads: &mut Vec<u8>,
    ) -> Result<Entered, Halt>
        requires here { IsPassOf self.now.cells.now pass.old × IsStandOf self.now.cells.now place × IsTable self.now.cells.now }
        requires rests { AreAtRest self.now.cells.now.first pass.old.results rests.old.items }
        requires stands { IsStand self.now.cells.now.rows pass.old.seen place }
        requires free { (n : NackName) (b : Binding) → Has pass.old.seen.bound (n, b) → bound_row n b ≢ place }
        requires out { Holds pass.old place None }
        requires turn { Tells turn suspended.machine.value.phase }
        requires now { IsNow self.now.cells.now.first pass.old place suspended }
        requires since { SpawnedSince suspended place.thread had × (had ≤ length suspended.machine.value.spawned) }
        requires threads { AreToBegin self.now.cells.now.threads pass.old.seen threads.old.items × ((t : ℕ) → Contains threads.old.items t → t ≢ place.thread) }
        ensures here { IsPassOf self.now.cells.now pass.new }
        ensures rests { AreAtRest self.now.cells.now.first pass.new.results rests.new.items }
        ensures rows { KeepsRows pass.old.seen pass.new.seen }
        ensures threads { OnOk result (AreToBegin self.now.cells.now.threads pass.new.seen threads.new.items) }
        ensures opened { IfOk result (λ e. IfSome e.opened (λ nacks. IsRowOf self.now.cells.now place × Has pass.new.seen.held place × Has pass.new.seen.opened place)) }
    {
        self.start_spawned(pass, place, &suspended, had, threads)?;
        let thread = place.thread;
        match turn {
            Turn::Offering => {
                if self.cells.has(place) {
                    let opened = Some(self.offer(pass, place, suspended));
                    return Ok(Entered {
                        opened,
                        ended: false,
                    });
                }
                rests.push(Rest { thread, suspended })?;
                Ok(Entered {
                    opened: None,
                    ended: false,
                })
            }
            Turn::Ended | Turn::Faulted(_) => {
                self.cells.finish(pass, place);
                rests.push(Rest { thread, suspended })?;
                Ok(Entered {
                    opened: None,
                    ended: true,
                })
            }
        }
    }

    /// Starts, from the place at which its thread stands, the threads that the machine spawned since it had spawned so
    /// many. They join the list, but for one that has been started before: that cannot be, since a process is spawned
    /// by one other, and once.
    #[inline(always)]
    fn start_spawned(
        &self,
        pass: &mut Pass<Suspended>,
        place: Row,
        suspended: &Suspended,
        had: usize,
        threads: &mut Vec<u8>,
    ) -> Result<(), Halt>
        requires here { IsPassOf self.now.cells.now pass.old × IsStandOf self.now.cells.now place × IsTable self.now.cells.now }
        requires stands { IsStand self.now.cells.now.rows pass.old.seen place }
        requires now { IsNow self.now.cells.now.first pass.old place suspended.now × HasStopped suspended.now.machine.value.phase }
        requires free { (n : NackName) (b : Binding) → Has pass.old.seen.bound (n, b) → bound_row n b ≢ place }
        requires since { SpawnedSince suspended.now place.thread had × (had ≤ length suspended.now.machine.value.spawned) }
        requires threads { AreToBegin self.now.cells.now.threads pass.old.seen threads.old.items × ((t : ℕ) → Contains threads.old.items t → t ≢ place.thread) }
        ensures here { IsPassOf self.now.cells.now pass.new }
        ensures stands { IsStand self.now.cells.now.rows pass.new.seen place }
        ensures now { IsNow self.now.cells.now.first pass.new place suspended.now }
        ensures rows { KeepsRows pass.old.seen pass.new.seen }
        ensures free { (n : NackName) (b : Binding) → Has pass.new.seen.bound (n, b) → bound_row n b ≢ place }
        ensures results { KeepsResults pass.old pass.new }
        ensures threads { OnOk result (AreToBegin self.now.cells.now.threads pass.new.seen threads.new.items × ((t : ℕ) → Contains threads.new.items t → t ≢ place.thread)) }
    {
        for other in &suspended.machine.spawned()[had..] {
            if self.cells.start(pass, place, *other) {
                threads.push(*other)?;
            }
        }
        Ok(())
    }

    /// Opens the row with what the machine offers, which has come to an event, and the machine goes home. The answer is
    /// its nacks.
    #[inline(always)]
    fn offer(&self, pass: &mut Pass<Suspended>, place: Row, suspended: Suspended) -> Nacks
        requires here { IsPassOf self.now.cells.now pass.old × IsRowOf self.now.cells.now place × IsTable self.now.cells.now }
        requires stands { IsStand self.now.cells.now.rows pass.old.seen place }
        requires free { (n : NackName) (b : Binding) → Has pass.old.seen.bound (n, b) → bound_row n b ≢ place }
        requires out { Holds pass.old place None }
        requires open { IsOpen suspended.machine.value.phase }
        requires now { IsNow self.now.cells.now.first pass.old place suspended }
        ensures here { IsPassOf self.now.cells.now pass.new }
        ensures others { LeavesOthers place.thread pass.old.seen pass.new.seen }
        ensures rows { KeepsRows pass.old.seen pass.new.seen }
        ensures results { pass.new.results ≡ pass.old.results }
        ensures opened { Has pass.new.seen.held place × Has pass.new.seen.opened place }
    {
        let nacks = Nacks::of(suspended.machine.nacks());
        bind_all(self.cells, pass, place, &suspended);
        self.shared.notes.note(self.rt, place.thread, nacks);
        offers_fit(suspended.machine.offers());
        self.cells.draft(pass, place, suspended.machine.offers());
        self.cells.park(pass, place, suspended);
        self.cells.open(pass, place);
        nacks
    }

    /// Behind first turns: for each row that was opened a row is searched for that it can meet, and what comes to be
    /// committed is put into the ready queues; then who waits for the end of a thread that has ended is woken.
    fn follow_begun(&self, worker: &mut Worker, begun: &[Begun]) -> Result<(), Halt>
        requires { IsWorkerOf self.now worker.old }
        ensures { IsWorkerOf self.now worker.new }
    {
        for first in begun {
            self.search_first(worker, first.thread)?;
        }
        for first in begun {
            if first.entered.ended {
                self.wake_end(worker, first.thread)?;
            }
        }
        Ok(())
    }

    /// Searches for a row that the thread's first one can meet, where the pass holds that and has opened it. What
    /// comes to be committed is put into the ready queues.
    fn search_first(&self, worker: &mut Worker, thread: u8) -> Result<(), Halt>
        requires { IsWorkerOf self.now worker.old }
        ensures { IsWorkerOf self.now worker.new }
    {
        let row = Row { thread, sync: 0 };
        if !worker.pass.holds(row) || !self.cells.has(row) {
            return Ok(());
        }
        match self.cells.look(&mut worker.pass, row) {
            Cell::Fresh => Ok(()),
            Cell::Waiting | Cell::Claimed | Cell::Synched(_) | Cell::Taken(_) => {
                let nacks = self.shared.notes.nacks(self.rt, thread);
                let done = self.meet(worker, row, Some(nacks))?;
                self.put_committed(&mut worker.end, done)
            }
        }
    }

    /// Looks for a row that the opened row, of these nacks, can meet. The answer is what came to be committed
    /// here.
    #[inline(always)]
    fn meet(&self, worker: &mut Worker, row: Row, opened: Option<Nacks>) -> Result<Committed, Halt>
        requires here { IsWorkerOf self.now worker.old }
        requires opened { IfSome opened (λ nacks. IsRowOf self.now.cells.now row × Has worker.old.pass.seen.held row × Has worker.old.pass.seen.opened row) }
        ensures { IsWorkerOf self.now worker.new }
    {
        let Some(nacks) = opened else {
            return Ok(Committed::Nothing);
        };
        let found = self.shared.meet.search(
            self.rt,
            self.cells,
            &mut worker.pass,
            &mut worker.lanes,
            self.gate,
            row,
        )?;
        match found {
            Found::Met(other) => {
                self.follow_pair(worker, row, nacks, other)?;
                Ok(Committed::Pair(row, other))
            }
            Found::Alone => {
                self.follow_alone(worker, row, nacks)?;
                Ok(Committed::Alone(row))
            }
            // whoever committed the row follows it
            Found::Already | Found::Waits => Ok(Committed::Nothing),
        }
    }

    /// Takes the row, if nobody has, and goes on with its thread, behind its last row too. The answer is what the turn
    /// committed, which is to go on.
    pub(crate) fn advance(&self, worker: &mut Worker, row: Row) -> Result<Committed, Halt>
        requires { IsWorkerOf self.now worker.old }
        ensures { IsWorkerOf self.now worker.new }
    {
        if !self.cells.has(row) {
            return Ok(Committed::Nothing);
        }
        // Before the row is taken: of the next row, which is held then, nothing more is read.
        let Some(message) = self.cells.result(&mut worker.pass, row) else {
            return Ok(Committed::Nothing);
        };
        let Some(joined) = self.cells.take(&mut worker.pass, row) else {
            return Ok(Committed::Nothing);
        };
        self.gate.before(worker.number, row.thread);
        let taken = Taken {
            row,
            joined,
            message,
        };
        let done = self.turn(worker, taken, row.next());
        self.gate.after(worker.number, row.thread);
        done
    }

    /// One turn of the thread of the row that was taken, and the first turns of the threads that it starts.
    #[inline(always)]
    fn turn(&self, worker: &mut Worker, taken: Taken, next: Row) -> Result<Committed, Halt>
        requires here { IsWorkerOf self.now worker.old × IsRowOf self.now.cells.now taken.row }
        requires next { next ≡ next_row taken.row }
        requires stands { IsStand self.now.cells.now.rows worker.old.pass.seen next }
        requires free { (n : NackName) (b : Binding) → Has worker.old.pass.seen.bound (n, b) → bound_row n b ≢ next }
        requires alive { ¬ SawEnded worker.old.pass.seen next.thread }
        requires resumes { IsToResume self.now.cells.now.first worker.old.pass taken }
        requires message { MessageIsIn taken.message }
        ensures { IsWorkerOf self.now worker.new }
    {
        let mut threads = Vec::new(self.shared.alloc);
        let entered = self.resume(
            &mut worker.pass,
            taken,
            next,
            &mut worker.rests,
            &mut threads,
        )?;
        // Most turns start and end nobody.
        if threads.is_empty() && !entered.ended {
            return self.meet(worker, next, entered.opened);
        }
        let begun = self.begin_each(worker, threads)?;
        let done = self.meet(worker, next, entered.opened)?;
        self.follow_begun(worker, &begun)?;
        if entered.ended {
            self.wake_end(worker, next.thread)?;
        }
        Ok(done)
    }

    /// Goes on with the thread of the row that was taken, and enters its next row. The threads that it starts join the
    /// list.
    #[inline(always)]
    fn resume(
        &self,
        pass: &mut Pass<Suspended>,
        taken: Taken,
        next: Row,
        rests: &mut Vec<Rest>,
        threads: &mut Vec<u8>,
    ) -> Result<Entered, Halt>
        requires here { IsPassOf self.now.cells.now pass.old × IsRowOf self.now.cells.now taken.row × IsTable self.now.cells.now }
        requires rests { AreAtRest self.now.cells.now.first pass.old.results rests.old.items }
        requires next { next ≡ next_row taken.row }
        requires stands { IsStand self.now.cells.now.rows pass.old.seen next }
        requires free { (n : NackName) (b : Binding) → Has pass.old.seen.bound (n, b) → bound_row n b ≢ next }
        requires alive { ¬ SawEnded pass.old.seen next.thread }
        requires resumes { IsToResume self.now.cells.now.first pass.old taken }
        requires message { MessageIsIn taken.message }
        requires threads { threads.old.items ≡ [] }
        ensures here { IsPassOf self.now.cells.now pass.new }
        ensures rests { AreAtRest self.now.cells.now.first pass.new.results rests.new.items }
        ensures rows { KeepsRows pass.old.seen pass.new.seen }
        ensures threads { OnOk result (AreToBegin self.now.cells.now.threads pass.new.seen threads.new.items) }
        ensures opened { IfOk result (λ e. IfSome e.opened (λ nacks. IsRowOf self.now.cells.now next × Has pass.new.seen.held next × Has pass.new.seen.opened next)) }
    {
        let mut suspended = self.cells.fetch(pass, next);
        let had = suspended.machine.spawned().len();
        let turn = suspended.machine.resume(taken.joined.own, taken.message)?;
        self.enter(pass, next, suspended, turn, had, rests, threads)
    }
}
