//! One season: its table is played and closed, each machine has the results of its rows, and the next table begins.

ghost use Rattle.std.specs.Prelude.{◌≡◌, ◌≤◌, ◌<◌, ◌+◌, ◌*◌, ℕ, IfOk, List, length, map};
ghost use Rattle.script_tree.specs.Processes.{Proc};
ghost use Rattle.script_tree.specs.declared.tree.Block.{Block as Tree};
ghost use Rattle.script.specs.Lines.{trees_of_script};
ghost use Rattle.script.specs.Scripts.{script_of};
ghost use Rattle.runtime_run.specs.Limits.{AreRows, AreWorkers};
ghost use Rattle.runtime.specs.Season.{ClosedRuns, HaveCaughtUp, IsClosed, IsSeason, LeadsTo, NextRuns, SeasonRuns};

use crate::between::{
    add_renumbered, are_spent, catch_up_all, counts_of, go_on_all, keep_all, none_each,
};
use cell::{Cells, Pass, StepGate};
use protocol_ledger::{Ledger, Opening};
use protocol_values::Commit;
use runtime_run::{first_machines, later, layout_for, work_table};
use runtime_worker::{Gate, Halt, Suspended};
use script::Script;
use std::alloc::{AllocError, Global};
use std::sync::Wait;
use std::thread::Threads;
use thread::Machine;

/// A season before its first turn.
#[derive(Drop)]
pub(crate) struct Season {
    /// How many seasons were before.
    pub(crate) done: u32,
    /// The commits of the seasons before, as the run numbers them.
    pub(crate) journal: Vec<Commit>,
    pub(crate) cells: Cells<Suspended>,
    pub(crate) passes: Vec<Pass<Suspended>>,
    /// How many results each thread had before.
    pub(crate) had: Vec<usize>,
    /// The machines of threads that had ended.
    pub(crate) resting: Vec<Option<Machine>>,
}

/// A season behind its last turn.
#[derive(Drop)]
pub(crate) struct ClosedSeason {
    /// How many seasons were before.
    pub(crate) done: u32,
    /// The commits of these seasons and of this one, as the run numbers them.
    pub(crate) journal: Vec<Commit>,
    pub(crate) ledger: Ledger,
    /// The ledger's commits in order.
    pub(crate) commits: Vec<Commit>,
    /// What the ledger tells of its end.
    pub(crate) opening: Opening,
    /// The machines as the table left them.
    pub(crate) machines: Vec<Option<Machine>>,
    /// How many results each thread had before.
    pub(crate) had: Vec<usize>,
    /// The machines of threads that had ended before.
    pub(crate) resting: Vec<Option<Machine>>,
}

/// What is known where a run has come to its end, or cannot go on.
#[derive(Drop)]
pub(crate) struct AtEnd {
    /// What the last ledger told of its end.
    pub(crate) opening: Opening,
    /// The machines that are at hand.
    pub(crate) machines: Vec<Option<Machine>>,
}

/// What follows a season: another one, the end of the workers' run, or nothing, where another one is needed and none is
/// left. Where a machine was lost nothing is known of the end but the commits.
#[derive(Drop)]
pub(crate) enum Next {
    Season(Season),
    End(Vec<Commit>, Option<AtEnd>),
    Spent,
}

/// The first season of the script.
pub(crate) fn first_season(
    alloc: Global,
    script: &Script,
    workers: u8,
    rows: u16,
) -> Result<Season, Halt>
    requires workers { AreWorkers workers }
    requires rows { AreRows rows }
    requires some { 1 ≤ length (script_of script.now).processes }
    ensures season { IfOk result (λ s. IsSeason (script_of script.now).processes s × (s.done ≡ 0) × (s.cells.rows ≡ rows)) }
    ensures trees { IfOk result (SeasonRuns (trees_of_script script.now)) }
{
    let processes = script.processes();
    let first = first_machines(alloc, processes)?;
    let had = vec![in alloc; 0usize; first.len()]?;
    let resting = none_each(alloc, processes.len())?;
    let layout = layout_for(processes, &had, rows);
    let (cells, passes) = Cells::with_machines_of(
        alloc,
        first,
        rows,
        layout,
        workers,
        later(processes),
    )?;
    Ok(Season {
        done: 0,
        journal: Vec::new(alloc),
        cells,
        passes,
        had,
        resting,
    })
}

/// Plays the season to its end, where no worker finds a turn to make any more.
pub(crate) fn play_season<R: Threads + Wait + Sync, G: Gate + StepGate + Sync>(
    rt: &R,
    alloc: Global,
    script: &Script,
    season: Season,
    workers: u8,
    gate: &G,
) -> Result<ClosedSeason, Halt>
    requires workers { AreWorkers workers }
    requires season { IsSeason (script_of script.now).processes season }
    requires few { season.done < 65535 }
    ensures closed { IfOk result (λ c. IsClosed (script_of script.now).processes c × (c.done ≡ season.done) × (c.ledger.rows ≡ season.cells.rows)) }
    ensures trees { IfOk result (λ c. (trees : List Tree) → SeasonRuns trees season → ClosedRuns trees c) }
{
    let Season {
        done,
        mut journal,
        cells,
        passes,
        had,
        resting,
    } = season;
    let (ledger, machines) = work_table(rt, alloc, script, cells, passes, workers, gate)?;
    let commits = ledger.commits()?;
    let opening = ledger.opening_by(&commits)?;
    add_renumbered(&mut journal, &had, &commits)?;
    Ok(ClosedSeason {
        done,
        journal,
        ledger,
        commits,
        opening,
        machines,
        had,
        resting,
    })
}

/// What follows the season, of so many. It is the last one unless some thread has committed all of its rows and stands
/// at a further sync.
pub(crate) fn follow(
    alloc: Global,
    script: &Script,
    closed: ClosedSeason,
    workers: u8,
    rows: u16,
    seasons: u32,
) -> Result<Next, AllocError>
    requires workers { AreWorkers workers }
    requires rows { AreRows rows }
    requires closed { IsClosed (script_of script.now).processes closed }
    requires same { closed.ledger.rows ≡ rows }
    requires few { seasons ≤ 65535 }
    ensures leads { IfOk result (LeadsTo (script_of script.now).processes closed.done rows seasons) }
    ensures trees { IfOk result (λ n. ClosedRuns (trees_of_script script.now) closed → NextRuns (trees_of_script script.now) n) }
{
    let mut closed = closed;
    if !catch_up_all(&mut closed.machines, &closed.had, &closed.commits)? {
        return Ok(Next::End(closed.journal, None));
    }
    if !are_spent(&closed.machines, &closed.had, rows) {
        return Ok(end_of(closed));
    }
    if closed.done + 1 >= seasons {
        return Ok(Next::Spent);
    }
    next_season(alloc, script, closed, workers, rows)
}

/// The end of the workers' run behind the last season, whose machines have caught up.
fn end_of(closed: ClosedSeason) -> Next
    ensures leads { (ps : List Proc) (seasons : ℕ) → IsClosed ps closed → LeadsTo ps closed.done closed.ledger.rows seasons result }
    ensures trees { (trees : List Tree) → ClosedRuns trees closed → NextRuns trees result }
{
    let ClosedSeason {
        journal,
        opening,
        machines,
        mut resting,
        ..
    } = closed;
    keep_all(&mut resting, machines);
    let standing = AtEnd {
        opening,
        machines: resting,
    };
    Next::End(journal, Some(standing))
}

/// The season behind another one, whose machines have caught up. Its stamps have room: each of 65,535 seasons counts no
/// more than 65,536.
fn next_season(
    alloc: Global,
    script: &Script,
    closed: ClosedSeason,
    workers: u8,
    rows: u16,
) -> Result<Next, AllocError>
    requires workers { AreWorkers workers }
    requires rows { AreRows rows }
    requires closed { IsClosed (script_of script.now).processes closed }
    requires caught { HaveCaughtUp closed }
    requires same { closed.ledger.rows ≡ rows }
    requires few { closed.done < 65534 }
    ensures leads { IfOk result (LeadsTo (script_of script.now).processes closed.done rows (closed.done + 2)) }
    ensures trees { IfOk result (λ n. ClosedRuns (trees_of_script script.now) closed → NextRuns (trees_of_script script.now) n) }
{
    let ClosedSeason {
        done,
        journal,
        opening: Opening { threads, nacks },
        machines,
        mut resting,
        ..
    } = closed;
    let Some(table) = go_on_all(alloc, script.processes(), &threads, machines)? else {
        return Ok(Next::End(journal, None));
    };
    keep_all(&mut resting, table.ended);
    let opening = Opening {
        threads: table.threads,
        nacks,
    };
    let had = counts_of(alloc, &table.first)?;
    let layout = layout_for(script.processes(), &had, rows);
    let (cells, passes) = Cells::next_of(alloc, &opening, table.first, rows, layout, workers)?;
    Ok(Next::Season(Season {
        done: done + 1,
        journal,
        cells,
        passes,
        had,
        resting,
    }))
}
