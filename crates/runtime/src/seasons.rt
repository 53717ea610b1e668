//! A run in seasons: the workers' seasons one after another, and the commits of all of them led on to their end together.

ghost use Rattle.std.specs.Prelude.{◌≡◌, ◌≢◌, ◌↔◌, ◌*◌, ◌≤◌, Err, IfErr, IfOk, IfSome, IsTrue, List, length};
ghost use Rattle.protocol_values.specs.Commits.{most_rows};
ghost use Rattle.protocol_values.specs.declared.Commit.{Commit};
ghost use Rattle.script.specs.Lines.{trees_of_script};
ghost use Rattle.script.specs.Scripts.{script_of};
ghost use Rattle.journal_replay.specs.Lines.{trees_in};
ghost use Rattle.journal.specs.Records.{CompletesRun};
ghost use Rattle.runtime_run.specs.Headline.{TellsFreeRun};
ghost use Rattle.runtime_run.specs.Limits.{AreRows, AreSeasons, AreWorkers};
ghost use Rattle.runtime.specs.Played.{ArePlayedWithin, HasSpent, NeedsSeasons};
ghost use Rattle.runtime.specs.Season.{EndRuns, EndsRun};
ghost use Rattle.runtime.specs.Seasons.{EndSeasons, IsHalt, RefusesCommits};
ghost use Rattle.runtime.specs.declared.seasons.SeasonFault.TheVariants.{Workers, Rows, Seasons, SeasonCount, Lost, Unlawful};

use crate::season::{AtEnd, Next, first_season, follow, play_season};
use cell::StepGate;
use journal::{Record, conclude_run, retrace_run};
use protocol_values::Commit;
use runtime_run::{TurnsOnly, rows_used};
use runtime_worker::{Gate, Halt};
use script::Script;
use std::alloc::{AllocError, Global};
use std::sync::Wait;
use std::thread::Threads;
use thiserror::Error;
use thread::End;

/// Why a run in seasons gave no answer. After a fault nothing of the run is kept, and no worker runs on.
#[derive(Clone, Copy, Debug, PartialEq, Eq, Error)]
pub enum SeasonFault {
    #[error("out of memory")]
    Memory,
    /// The number of workers is not 1 to 16.
    #[error("the number of workers is not 1 to 16")]
    Workers,
    /// The number of rows is not 1 to 1024.
    #[error("the number of rows is not 1 to 1024")]
    Rows,
    /// Not answered: a thread of which a season leaves no machine is run from its beginning.
    #[error("a thread that has not ended has no machine behind a season")]
    Lost,
    /// Not answered: the commits of all seasons are a run of the script.
    #[error("the commits of all seasons are no run of the script")]
    Unlawful,
    /// A worker could not be started.
    #[error("a worker could not be started")]
    NoWorker,
    /// A season more than the stated number is needed, or a process stands at a sync with as many results as all
    /// seasons have rows.
    #[error("more seasons are needed")]
    Seasons,
    /// The number of seasons is not 1 to 65535.
    #[error("the number of seasons is not 1 to 65535")]
    SeasonCount,
}

/// The commits of all seasons, which are a run, led on to their end, by what is known of it.
fn led_on(
    alloc: Global,
    script: &Script,
    rows: u32,
    commits: Vec<Commit>,
    standing: Option<AtEnd>,
) -> Result<Record, AllocError>
    requires rows { rows ≤ most_rows }
    requires run { EndsRun (script_of script.now).processes rows commits.items standing }
    ensures completes { IfOk result (CompletesRun (script_of script.now).processes rows commits.items) }
    ensures trees { IfOk result (λ r. EndRuns (trees_of_script script.now) standing → trees_in r.state ≡ trees_of_script script.now) }
{
    let processes = script.processes();
    let Some(AtEnd { opening, machines }) = standing else {
        return retrace_run(alloc, processes, rows, commits);
    };
    conclude_run(alloc, processes, rows, commits, &opening, machines)
}

/// The record of a run without a limit on syncs, of these commits of all seasons, which are a run. The rows are those of
/// all seasons, 1 to `MOST_ROWS`.
///
/// It is refused where memory ran out, and where a process, behind what was added, stands at a sync with as many
/// results as there are rows.
pub(crate) fn concluded(
    alloc: Global,
    script: &Script,
    rows: u32,
    commits: Vec<Commit>,
    standing: Option<AtEnd>,
) -> Result<Record, SeasonFault>
    requires rows { rows ≤ most_rows }
    requires run { EndsRun (script_of script.now).processes rows commits.items standing }
    ensures headline { IfOk result (TellsFreeRun (script_of script.now).processes) }
    ensures completes { IfOk result (CompletesRun (script_of script.now).processes rows commits.items) }
    ensures trees { IfOk result (λ r. EndRuns (trees_of_script script.now) standing → trees_in r.state ≡ trees_of_script script.now) }
    ensures refuses { IfErr result (RefusesCommits (script_of script.now).processes rows commits.items) }
{
    match led_on(alloc, script, rows, commits, standing) {
        Ok(record) => {
            if has_spent(&record.ends) {
                return Err(SeasonFault::Seasons);
            }
            Ok(record)
        }
        Err(AllocError) => Err(SeasonFault::Memory),
    }
}

/// Whether a process stands at a sync with as many results as it has rows.
fn has_spent(ends: &[End]) -> bool
    ensures { IsTrue result ↔ HasSpent ends.now }
{
    for end in ends {
        if end.is_spent() {
            return true;
        }
    }
    false
}

fn told(halt: Halt) -> SeasonFault
    ensures { IsHalt result }
{
    match halt {
        Halt::Memory => SeasonFault::Memory,
        Halt::NoWorker => SeasonFault::NoWorker,
    }
}

/// The limits of a run in seasons: those of the workers come first, and then those of the rows.
fn check_limits(workers: u8, rows: u16, seasons: u32) -> Result<(), SeasonFault>
    ensures within { IfOk result (λ u. AreWorkers workers × AreRows rows × AreSeasons seasons) }
    ensures workers { (result ≡ Err Workers) ↔ (¬ AreWorkers workers) }
    ensures rows { (result ≡ Err Rows) ↔ (AreWorkers workers × (¬ AreRows rows)) }
    ensures seasons { (result ≡ Err SeasonCount) ↔ (AreWorkers workers × AreRows rows × (¬ AreSeasons seasons)) }
    ensures needed { result ≢ Err Seasons }
    ensures never { IfErr result (λ fault. (fault ≢ Lost) × (fault ≢ Unlawful)) }
{
    if workers < 1 || workers > 16 {
        return Err(SeasonFault::Workers);
    }
    if rows < 1 || rows > 1024 {
        return Err(SeasonFault::Rows);
    }
    if seasons < 1 || seasons > 65535 {
        return Err(SeasonFault::SeasonCount);
    }
    Ok(())
}

/// The commits of all seasons, as the run numbers them, and what is known where they lead, or nothing where one more
/// season is needed. A season ends when no worker finds a turn to make any more.
fn work_seasons<R: Threads + Wait + Sync, G: Gate + StepGate + Sync>(
    rt: &R,
    alloc: Global,
    script: &Script,
    workers: u8,
    rows: u16,
    seasons: u32,
    gate: &G,
) -> Result<Option<(Vec<Commit>, Option<AtEnd>)>, Halt>
    requires workers { AreWorkers workers }
    requires rows { AreRows rows }
    requires seasons { AreSeasons seasons }
    requires some { 1 ≤ length (script_of script.now).processes }
    ensures ends { IfOk result (EndSeasons (script_of script.now).processes rows seasons) }
    ensures trees { IfOk result (λ end. IfSome end (λ e. EndRuns (trees_of_script script.now) e.1)) }
{
    let used = rows_used(script.processes(), rows);
    let mut season = first_season(alloc, script, workers, used)?;
    loop {
        let closed = play_season(rt, alloc, script, season, workers, gate)?;
        match follow(alloc, script, closed, workers, used, seasons)? {
            Next::Season(next) => season = next,
            Next::End(commits, standing) => return Ok(Some((commits, standing))),
            Next::Spent => return Ok(None),
        }
    }
}

/// `run_seasons` with a gate of steps, as `run_gated` has one.
pub fn run_seasons_gated<R: Threads + Wait + Sync, G: Gate + StepGate + Sync>(
    rt: &R,
    alloc: Global,
    script: &Script,
    workers: u8,
    rows: u16,
    seasons: u32,
    gate: &G,
) -> Result<Record, SeasonFault>
    ensures headline { IfOk result (TellsFreeRun (script_of script.now).processes) }
    ensures completes { IfOk result (λ r. (commits : List Commit) × CompletesRun (script_of script.now).processes (seasons * rows) commits r × ArePlayedWithin (script_of script.now).processes rows seasons commits) }
    ensures trees { IfOk result (λ r. trees_in r.state ≡ trees_of_script script.now) }
    ensures workers { (result ≡ Err Workers) ↔ (¬ AreWorkers workers) }
    ensures rows { (result ≡ Err Rows) ↔ (AreWorkers workers × (¬ AreRows rows)) }
    ensures seasons { (result ≡ Err SeasonCount) ↔ (AreWorkers workers × AreRows rows × (¬ AreSeasons seasons)) }
    ensures needed { (result ≡ Err Seasons) → NeedsSeasons (script_of script.now).processes rows seasons }
    ensures never { IfErr result (λ fault. (fault ≢ Lost) × (fault ≢ Unlawful)) }
{
    check_limits(workers, rows, seasons)?;
    let all = seasons * u32::from(rows);
    if script.processes().is_empty() {
        return concluded(alloc, script, all, Vec::new(alloc), None);
    }
    match work_seasons(rt, alloc, script, workers, rows, seasons, gate) {
        Ok(Some((commits, standing))) => concluded(alloc, script, all, commits, standing),
        Ok(None) => Err(SeasonFault::Seasons),
        Err(halt) => Err(told(halt)),
    }
}

/// Runs the script as `run` does, and goes on when its rows are spent: however the workers' steps fall, in whichever
/// seasons these are, the commits in stamp order are a run of the script in sequential CML that can go no further,
/// however many syncs it may make. No process is spent.
///
/// A season's table has so many rows a process. Where some process has committed all of its own and stands at a
/// further sync, the table is closed behind its last turn, and the next one begins where the processes stand: of these
/// there are so many seasons at most, 1 to 65535, and a run that needs more is refused. That the commits of all
/// seasons are a run is proved, and not checked: of the faults `Lost` and `Unlawful` none is answered. `tail` counts the
/// commits that were added behind the seasons. It waits as `work` does.
pub fn run_seasons<R: Threads + Wait + Sync, G: Gate + Sync>(
    rt: &R,
    alloc: Global,
    script: &Script,
    workers: u8,
    rows: u16,
    seasons: u32,
    gate: &G,
) -> Result<Record, SeasonFault>
    ensures headline { IfOk result (TellsFreeRun (script_of script.now).processes) }
    ensures completes { IfOk result (λ r. (commits : List Commit) × CompletesRun (script_of script.now).processes (seasons * rows) commits r × ArePlayedWithin (script_of script.now).processes rows seasons commits) }
    ensures trees { IfOk result (λ r. trees_in r.state ≡ trees_of_script script.now) }
    ensures workers { (result ≡ Err Workers) ↔ (¬ AreWorkers workers) }
    ensures rows { (result ≡ Err Rows) ↔ (AreWorkers workers × (¬ AreRows rows)) }
    ensures seasons { (result ≡ Err SeasonCount) ↔ (AreWorkers workers × AreRows rows × (¬ AreSeasons seasons)) }
    ensures needed { (result ≡ Err Seasons) → NeedsSeasons (script_of script.now).processes rows seasons }
    ensures never { IfErr result (λ fault. (fault ≢ Lost) × (fault ≢ Unlawful)) }
{
    run_seasons_gated(
        rt,
        alloc,
        script,
        workers,
        rows,
        seasons,
        &TurnsOnly { turns: gate },
    )
}
