//! All workers of a run: they are made, started, and joined.

ghost use Rattle.std.specs.Prelude.{◌≡◌, [], All, IfNone, IfOk, IfSome};
ghost use Rattle.meet.specs.Rooms.{IsMeetPassOf};
ghost use Rattle.meet_queues.specs.Ends.{IsEndOf};
ghost use Rattle.runtime_worker.specs.Workers.{IsLeavingsOf, IsNewPassOf, IsNewWorkerOf};
ghost use Rattle.runtime_run.specs.Workers.{AreParted};

use crate::fault::told_first;
use cell::{Cells, Pass, StepGate};
use core::thread::Stack;
use meet::MeetPass;
use meet_queues::ReadyEnd;
use runtime_worker::{Crew, Gate, Halt, Leavings, Rest, Suspended, Worked, Worker};
use std::alloc::{AllocError, Global};
use std::snapshot::Snapshot;
use std::sync::Wait;
use std::thread;
use std::thread::{Promise, PromisedHandle, Scope, Threads};

/// The bytes of stack that a worker's thread gets, whatever the process gives its first thread. What a worker
/// does takes stack only where a script is deep, and a script is no deeper than 48.
const WORKER_STACK: usize = 512 * 1024;

/// A worker leaves a pass of this table, and machines at rest.
#[derive(Drop)]
struct GivesBack {
    cells: Snapshot<Cells<Suspended>>,
}

impl Promise<Worked> for GivesBack {
    ghost kept_by = { λ side worked. IsLeavingsOf side.cells.value worked.left };
}

fn gives_back(cells: &Cells<Suspended>) -> GivesBack
    ensures { result.cells.value ≡ cells.now }
{
    GivesBack {
        cells: Snapshot::of(cells),
    }
}

type Handle = PromisedHandle<Worked, GivesBack>;

/// The workers, each with a pass, lanes and an end of its own.
pub(crate) fn workers_of<R, G>(
    crew: &Crew<'_, R, G>,
    passes: Vec<Pass<Suspended>>,
    lanes: Vec<MeetPass>,
    ends: Vec<ReadyEnd>,
) -> Result<Vec<Worker>, Halt>
    requires passes { All (λ p. IsNewPassOf crew.now.cells.now p) passes.items }
    requires lanes { All (λ l. IsMeetPassOf crew.now.shared.now.meet l) lanes.items }
    requires ends { All (λ e. IsEndOf crew.now.shared.now.ready e) ends.items }
    ensures { IfOk result (λ workers. All (λ w. IsNewWorkerOf crew.now.cells.now crew.now.shared.now w) workers.items) }
{
    let mut lanes = lanes;
    let mut ends = ends;
    let mut workers = Vec::with_capacity(crew.shared.alloc, passes.len())?;
    let mut number = 0u8;
    for pass in passes {
        let Some(lanes) = lanes.pop() else {
            return Err(Halt::NoWorker);
        };
        let Some(end) = ends.pop() else {
            return Err(Halt::NoWorker);
        };
        let rests = Vec::new(crew.shared.alloc);
        workers.push(Worker {
            pass,
            rests,
            lanes,
            end,
            number,
        })?;
        number = number.saturating_add(1);
    }
    Ok(workers)
}

/// All workers work, and give their passes back. For one worker no thread is started.
pub(crate) fn all_work<R: Threads + Wait + Sync, G: Gate + StepGate + Sync>(
    crew: &Crew<'_, R, G>,
    workers: Vec<Worker>,
) -> Result<Vec<Leavings>, Halt>
    requires { All (λ w. IsNewWorkerOf crew.now.cells.now crew.now.shared.now w) workers.items }
    ensures { IfOk result (λ back. All (λ l. IsLeavingsOf crew.now.cells.now l) back.items) }
{
    if workers.len() == 1 {
        return work_alone(crew, workers);
    }
    // What a closure that captures a crew ensures is not known where it is called: so the crew's parts are captured.
    let Crew {
        rt,
        cells,
        shared,
        gate,
        threads,
    } = *crew;
    let handles = Vec::with_capacity(shared.alloc, workers.len())?;
    thread::scope(
        thread::scope_env(),
        rt,
        |scope| -> Result<Vec<Leavings>, Halt>
            requires workers { All (λ w. IsNewWorkerOf cells.now shared.now w) workers.items }
            requires handles { handles.items ≡ [] }
            ensures { IfOk result (λ back. All (λ l. IsLeavingsOf cells.entry.now l) back.items) }
        {
            let crew = Crew {
                rt,
                cells,
                shared,
                gate,
                threads,
            };
            let (handles, halted) = start_all(scope, &crew, workers, handles);
            if halted.is_some() {
                shared.activity.stop();
            }
            join_all(rt, shared.alloc, cells, handles, halted)
        },
    )
}

/// Starts the workers, one behind the other, until one of them cannot be started.
fn start_all<'s, E, R: Threads + Wait + Sync, G: Gate + StepGate + Sync>(
    scope: &Scope<'s, E>,
    crew: &Crew<'s, R, G>,
    workers: Vec<Worker>,
    handles: Vec<Handle>,
) -> (Vec<Handle>, Option<Halt>)
    requires workers { All (λ w. IsNewWorkerOf crew.now.cells.now crew.now.shared.now w) workers.items }
    requires handles { handles.items ≡ [] }
    ensures { All (λ h. h.promise.cells.value ≡ crew.now.cells.now) result.0.items }
{
    let mut handles = handles;
    for worker in workers {
        let Ok(handle) = start(scope, crew, worker) else {
            return (handles, Some(Halt::NoWorker));
        };
        if handles.push(handle).is_err() {
            return (handles, Some(Halt::Memory));
        }
    }
    (handles, None)
}

/// Starts a thread of the scope in which the worker works.
fn start<'s, E, R: Threads + Wait + Sync, G: Gate + StepGate + Sync>(
    scope: &Scope<'s, E>,
    crew: &Crew<'s, R, G>,
    worker: Worker,
) -> Result<Handle, AllocError>
    requires { IsNewWorkerOf crew.now.cells.now crew.now.shared.now worker }
    ensures { IfOk result (λ h. h.promise.cells.value ≡ crew.now.cells.now) }
{
    let Crew {
        rt,
        cells,
        shared,
        gate,
        threads,
    } = *crew;
    let handle = Stack::new().stack_size(WORKER_STACK).spawn_scoped_with(
        scope,
        gives_back(cells),
        move || -> Worked
            requires here { IsNewWorkerOf cells.now shared.now worker }
            ensures { IsLeavingsOf cells.entry.now result.left }
        {
            let crew = Crew {
                rt,
                cells,
                shared,
                gate,
                threads,
            };
            crew.work_on(worker)
        },
    )?;
    Ok(handle)
}

/// One worker works in the calling thread.
fn work_alone<R: Wait, G: Gate + StepGate>(
    crew: &Crew<'_, R, G>,
    workers: Vec<Worker>,
) -> Result<Vec<Leavings>, Halt>
    requires { All (λ w. IsNewWorkerOf crew.now.cells.now crew.now.shared.now w) workers.items }
    ensures { IfOk result (λ back. All (λ l. IsLeavingsOf crew.now.cells.now l) back.items) }
{
    let mut workers = workers;
    let mut back = Vec::with_capacity(crew.shared.alloc, 1)?;
    let Some(worker) = workers.pop() else {
        return Ok(back);
    };
    let Worked { left, done } = crew.work_on(worker);
    done?;
    back.push(left)?;
    Ok(back)
}

/// All workers are waited for. They give back what they leave, unless one of them halted.
fn join_all<R: Threads>(
    rt: &R,
    alloc: Global,
    cells: &Cells<Suspended>,
    handles: Vec<Handle>,
    halted: Option<Halt>,
) -> Result<Vec<Leavings>, Halt>
    requires { All (λ h. h.promise.cells.value ≡ cells.now) handles.items }
    ensures { IfOk result (λ back. All (λ l. IsLeavingsOf cells.now l) back.items) }
{
    let mut halted = halted;
    let mut back = Vec::new(alloc);
    for handle in handles {
        let Worked { left, done } = handle.join(rt);
        if let Err(halt) = done {
            halted = Some(told_first(halted, halt));
        }
        if back.push(left).is_err() {
            halted = Some(Halt::Memory);
        }
    }
    match halted {
        Some(halt) => Err(halt),
        None => Ok(back),
    }
}

/// The passes, and the machines at rest apart from them.
pub(crate) fn parted(
    alloc: Global,
    left: Vec<Leavings>,
) -> Result<(Vec<Pass<Suspended>>, Vec<Rest>), AllocError>
    ensures { IfOk result (λ apart. AreParted left.items apart.0.items apart.1.items) }
{
    let mut passes = Vec::with_capacity(alloc, left.len())?;
    let mut rests = Vec::new(alloc);
    for Leavings { pass, rests: more } in left {
        let mut more = more;
        passes.push(pass)?;
        rests.append(&mut more)?;
    }
    Ok((passes, rests))
}
