//! A run: its table and its workers are made, the workers work, and what they leave is led on to its end.

ghost use Rattle.std.specs.Prelude.{◌≡◌, ◌≢◌, ◌<◌, ◌≤◌, ◌↔◌, [], ℕ, All, Err, IfOk, Some, length, map};
ghost use Rattle.script_tree.specs.Processes.{proc_of, tree_of};
ghost use Rattle.protocol_values.specs.declared.NackName.{NackName};
ghost use Rattle.protocol_ledger.specs.Acting.{ActsAs, EndsAt, HasStart, acts_in, before_of};
ghost use Rattle.protocol_ledger.specs.Ledgers.{Ledger, IsLawful, carried_in, course_in};
ghost use Rattle.protocol_ledger.specs.Openings.{HadEnded, HadStarted, greatest, state_in, word_for};
ghost use Rattle.protocol_ledger.specs.Tables.{carried_by};
ghost use Rattle.cell.specs.Calls.{IsNackOf, opening_at};
ghost use Rattle.script.specs.Lines.{trees_of_script};
ghost use Rattle.script.specs.Scripts.{script_of};
ghost use Rattle.journal_ledger.specs.Ledgers.{IsLedgerOf};
ghost use Rattle.journal.specs.Concluding.{AreStanding, RunTrees};
ghost use Rattle.journal.specs.Records.{Completes};
ghost use Rattle.journal_replay.specs.Lines.{trees_in};
ghost use Rattle.runtime_run.specs.Headline.{TellsMaximalRun};
ghost use Rattle.runtime_run.specs.Limits.{AreRows, AreWorkers};
ghost use Rattle.runtime_worker.specs.Machines.{AreNew, IsTable, doings};
ghost use Rattle.runtime_worker.specs.Workers.{IsNewPassOf};
ghost use Rattle.runtime_run.specs.Machines.{AreLeftBy, MarksSpawned, machine_in};
ghost use Rattle.runtime_run.specs.declared.fault.RunFault.TheVariants.{Workers, Rows};

use crate::bound::{layout_for, rows_used};
use crate::fault::RunFault;
use crate::gate::TurnsOnly;
use crate::leaving::machines_of;
use crate::waits::{Awaited, rooms_for};
use crate::workers::{all_work, parted, workers_of};
use cell::{Cells, Pass, StepGate};
use journal::{Record, conclude};
use meet::Meet;
use meet_queues::Ready;
use protocol_ledger::{Ledger, start_words};
use runtime_worker::{Activity, Crew, Gate, Halt, Notes, Shared, Suspended};
use script::Script;
use script_tree::{Proc, spawned};
use std::alloc::{AllocError, Global};
use std::sync::Wait;
use std::thread::Threads;
use thread::Machine;

fn told(halt: Halt) -> RunFault
    ensures { (result ≢ Workers) × (result ≢ Rows) }
{
    match halt {
        Halt::Memory => RunFault::Memory,
        Halt::NoWorker => RunFault::NoWorker,
    }
}

/// The limits of a run: those of the workers come first.
fn check_limits(workers: u8, rows: u16) -> Result<(), RunFault>
    ensures within { IfOk result (λ u. AreWorkers workers × AreRows rows) }
    ensures workers { (result ≡ Err Workers) ↔ (¬ AreWorkers workers) }
    ensures rows { (result ≡ Err Rows) ↔ (AreWorkers workers × (¬ AreRows rows)) }
{
    if workers < 1 || workers > 16 {
        return Err(RunFault::Workers);
    }
    if rows < 1 || rows > 1024 {
        return Err(RunFault::Rows);
    }
    Ok(())
}

/// A machine for each process, each before its process.
pub fn first_machines(alloc: Global, processes: &[Proc]) -> Result<Vec<Suspended>, Halt>
    requires { length processes.now ≤ 64 }
    ensures new { IfOk result (λ first. AreNew (map proc_of processes.now) (map Some first.items)) }
    ensures trees { IfOk result (λ first. RunTrees (map tree_of processes.now) (map machine_in (map Some first.items))) }
{
    let mut first = Vec::with_capacity(alloc, processes.len())?;
    for (thread, process) in processes.iter().enumerate() {
        let machine = Machine::counting(alloc, process, thread as u8)?;
        first.push(Suspended {
            machine: Box::new(alloc, machine)?,
        })?;
    }
    Ok(first)
}

/// The processes that one of these spawns: bit t is set where one spawns process t.
pub fn later(processes: &[Proc]) -> u64
    ensures { MarksSpawned (map proc_of processes.now) result }
{
    let mut later = 0;
    for process in processes {
        later |= spawned(process.body());
    }
    later
}

/// The workers over this table, which is closed at their end, and the machines as they leave them. Each row of it was
/// opened as the machine of its thread offers there.
pub fn work_table<R: Threads + Wait + Sync, G: Gate + StepGate + Sync>(
    rt: &R,
    alloc: Global,
    script: &Script,
    cells: Cells<Suspended>,
    passes: Vec<Pass<Suspended>>,
    workers: u8,
    gate: &G,
) -> Result<(Ledger, Vec<Option<Machine>>), Halt>
    requires table { IsTable cells }
    requires passes { All (λ p. IsNewPassOf cells p) passes.items }
    ensures lawful { IfOk result (λ o. IsLawful o.0) }
    ensures size { IfOk result (λ o. (o.0.threads ≡ cells.threads) × (o.0.rows ≡ cells.rows)) }
    ensures opening { IfOk result (λ o. o.0.opening ≡ greatest (opening_at cells)) }
    ensures before { IfOk result (λ o. (t stamp : ℕ) → HadStarted (opening_at cells) t stamp → HasStart (course_in o.0 t) stamp) }
    ensures over { IfOk result (λ o. (t : ℕ) → HadEnded (opening_at cells) t → EndsAt (course_in o.0 t) 0) }
    ensures carried { IfOk result (λ o. (n : NackName) → IsNackOf cells n → carried_in o.0 n ≡ carried_by (word_for (state_in (opening_at cells) n))) }
    ensures acts { IfOk result (λ o. ActsAs (before_of (opening_at cells)) (acts_in doings cells.first) o.0) }
    ensures machines { IfOk result (λ o. AreLeftBy cells.first o.0 o.1.items) }
{
    let threads = script.processes().len() as u8;
    let nacks = rooms_for(script.processes(), Awaited::Nack, threads);
    let ends_of = rooms_for(script.processes(), Awaited::End, threads);
    let channels = script.channels() as u16;
    let (meet, lanes) = Meet::with_rooms(alloc, channels, nacks, ends_of, workers)?;
    let (ready, ends) = Ready::new(alloc, workers)?;
    let shared = Shared {
        alloc,
        meet,
        ready,
        activity: Activity::new(usize::from(workers)),
        notes: Notes::new(alloc, usize::from(threads))?,
    };
    let crew = Crew {
        rt,
        cells: &cells,
        shared: &shared,
        gate,
        threads,
    };
    let workers = workers_of(&crew, passes, lanes, ends)?;
    let left = all_work(&crew, workers)?;
    let (passes, rests) = parted(alloc, left)?;
    if passes.is_empty() {
        return Err(Halt::NoWorker);
    }
    let (ledger, homes) = cells.close_all(passes);
    let machines = machines_of(alloc, homes, rests)?;
    Ok((ledger, machines))
}

/// The workers over a table of their own, and the machines as they leave them. The table has no more rows than the
/// processes can use, its threads have words for no more than each can use, and its rows have room for no more offers. Each
/// of its rows was opened as its process offers there.
fn work_within<R: Threads + Wait + Sync, G: Gate + StepGate + Sync>(
    rt: &R,
    alloc: Global,
    script: &Script,
    workers: u8,
    rows: u16,
    gate: &G,
) -> Result<(Ledger, Vec<Option<Machine>>), Halt>
    requires workers { AreWorkers workers }
    requires rows { AreRows rows }
    requires some { 1 ≤ length (script_of script.now).processes }
    ensures lawful { IfOk result (λ o. IsLawful o.0) }
    ensures run { IfOk result (λ o. IsLedgerOf (script_of script.now).processes o.0 × (o.0.rows ≤ rows)) }
    ensures machines { IfOk result (λ o. AreStanding (script_of script.now).processes o.0 o.1.items) }
    ensures trees { IfOk result (λ o. RunTrees (trees_of_script script.now) o.1.items) }
{
    let processes = script.processes();
    let first = first_machines(alloc, processes)?;
    let used = rows_used(processes, rows);
    let layout = layout_for(processes, &[], used);
    let (cells, passes) = Cells::with_machines_of(
        alloc,
        first,
        used,
        layout,
        workers,
        later(processes),
    )?;
    let left = work_table(rt, alloc, script, cells, passes, workers, gate)?;
    Ok(left)
}

/// A ledger with no commit.
fn no_commits(alloc: Global) -> Result<Ledger, RunFault>
    ensures lawful { IfOk result (λ l. IsLawful l × IsLedgerOf [] l × (l.rows ≡ 1)) }
    ensures faults { (result ≢ Err Workers) × (result ≢ Err Rows) }
{
    match start_words(alloc, 1, 1, 0) {
        Ok(words) => Ok(Ledger::of_words(1, 1, words, 0)),
        Err(_) => Err(RunFault::Memory),
    }
}

/// The workers alone, as `work`, and the machines as they leave them: for each thread that began one that stands after
/// all of its results, or all but the last. A machine that a worker lost is not there. Where the script has no process
/// nothing is started.
pub fn work_with_machines<R: Threads + Wait + Sync, G: Gate + StepGate + Sync>(
    rt: &R,
    alloc: Global,
    script: &Script,
    workers: u8,
    rows: u16,
    gate: &G,
) -> Result<(Ledger, Vec<Option<Machine>>), RunFault>
    ensures lawful { IfOk result (λ o. IsLawful o.0) }
    ensures run { IfOk result (λ o. IsLedgerOf (script_of script.now).processes o.0 × (o.0.rows ≤ rows)) }
    ensures machines { IfOk result (λ o. AreStanding (script_of script.now).processes o.0 o.1.items) }
    ensures trees { IfOk result (λ o. RunTrees (trees_of_script script.now) o.1.items) }
    ensures workers { (result ≡ Err Workers) ↔ (¬ AreWorkers workers) }
    ensures rows { (result ≡ Err Rows) ↔ (AreWorkers workers × (¬ AreRows rows)) }
{
    check_limits(workers, rows)?;
    if script.processes().is_empty() {
        return Ok((no_commits(alloc)?, Vec::new(alloc)));
    }
    match work_within(rt, alloc, script, workers, rows, gate) {
        Ok(left) => Ok(left),
        Err(halt) => Err(told(halt)),
    }
}

/// The workers alone: the ledger of the table that they leave. However their steps fall, each of its rows offers what
/// its process offers after the results of the thread's rows before, so its commits in order are a run of the script.
/// It waits for its workers, which wait for one another and for the gate, which is called round each turn and before
/// each step of an attempt.
pub fn work<R: Threads + Wait + Sync, G: Gate + StepGate + Sync>(
    rt: &R,
    alloc: Global,
    script: &Script,
    workers: u8,
    rows: u16,
    gate: &G,
) -> Result<Ledger, RunFault>
    requires { 1 ≤ length (script_of script.now).processes }
    ensures lawful { IfOk result IsLawful }
    ensures run { IfOk result (λ l. IsLedgerOf (script_of script.now).processes l × (l.rows ≤ rows)) }
    ensures workers { (result ≡ Err Workers) ↔ (¬ AreWorkers workers) }
    ensures rows { (result ≡ Err Rows) ↔ (AreWorkers workers × (¬ AreRows rows)) }
{
    let (ledger, _) = work_with_machines(rt, alloc, script, workers, rows, gate)?;
    Ok(ledger)
}

/// `run` with a gate that is called before each step of an attempt, too, with the step's kind: an attempt is
/// the only thing that workers do which others can see half done. The same promise holds whatever the gate does,
/// if it returns.
pub fn run_gated<R: Threads + Wait + Sync, G: Gate + StepGate + Sync>(
    rt: &R,
    alloc: Global,
    script: &Script,
    workers: u8,
    rows: u16,
    gate: &G,
) -> Result<Record, RunFault>
    ensures headline { IfOk result (TellsMaximalRun (script_of script.now).processes rows) }
    ensures completes { IfOk result (λ r. (l : Ledger) × IsLawful l × IsLedgerOf (script_of script.now).processes l × (l.rows ≤ rows) × Completes (script_of script.now).processes rows l r) }
    ensures trees { IfOk result (λ r. trees_in r.state ≡ trees_of_script script.now) }
    ensures workers { (result ≡ Err Workers) ↔ (¬ AreWorkers workers) }
    ensures rows { (result ≡ Err Rows) ↔ (AreWorkers workers × (¬ AreRows rows)) }
{
    let (ledger, machines) = work_with_machines(rt, alloc, script, workers, rows, gate)?;
    let rows = rows as u32;
    match conclude(alloc, script.processes(), rows, &ledger, machines) {
        Ok(record) => Ok(record),
        Err(AllocError) => Err(RunFault::Memory),
    }
}

/// However the workers' steps fall, a run's commits in stamp order are a maximal run of the script in
/// sequential CML: each sync commits at most one offer, each committed send meets exactly one receive of
/// another thread on its channel, giving it its message, one thread's messages on a channel are received
/// in sending order, and a nack is answered only where its sync committed outside its scope.
///
/// The commits are those of `work`, completed: `tail` counts the ones that the workers left to be added.
/// Where the script has no process nothing is started. It waits as `work` does.
pub fn run<R: Threads + Wait + Sync, G: Gate + Sync>(
    rt: &R,
    alloc: Global,
    script: &Script,
    workers: u8,
    rows: u16,
    gate: &G,
) -> Result<Record, RunFault>
    ensures headline { IfOk result (TellsMaximalRun (script_of script.now).processes rows) }
    ensures completes { IfOk result (λ r. (l : Ledger) × IsLawful l × IsLedgerOf (script_of script.now).processes l × (l.rows ≤ rows) × Completes (script_of script.now).processes rows l r) }
    ensures trees { IfOk result (λ r. trees_in r.state ≡ trees_of_script script.now) }
    ensures workers { (result ≡ Err Workers) ↔ (¬ AreWorkers workers) }
    ensures rows { (result ≡ Err Rows) ↔ (AreWorkers workers × (¬ AreRows rows)) }
{
    run_gated(rt, alloc, script, workers, rows, &TurnsOnly { turns: gate })
}
