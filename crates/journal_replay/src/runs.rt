//! Runs, replayed commit by commit and led on to their end.

ghost use Rattle.std.specs.Prelude.{◌≡◌, ◌≤◌, ◌⊎◌, IfOk, length, map, take, MatchResult};
ghost use Rattle.protocol_values.specs.Commits.{most_rows};
ghost use Rattle.script_tree.specs.Processes.{proc_of, tree_of};
ghost use Rattle.script_tree.specs.Spawning.{IsPlaced};
ghost use Rattle.journal_replay.specs.Replays.{Refuses, Settles, StandsAfter};
ghost use Rattle.journal_replay.specs.Lines.{trees_in};
ghost use Rattle.journal_replay.specs.Runs.{BreaksOffAt};
ghost use Rattle.journal_replay.specs.Stamping.{AreLegal, AreRestamped};

use crate::open_offers::OpenOffers;
use crate::state::{ReplayFault, State};
use crate::threads::Threads;
use protocol_values::Commit;
use script_tree::Proc;
use std::alloc::{AllocError, Global};

/// Adds the commits one after another, from the beginning of the processes, each of which makes at
/// most `rows` syncs, 1 to `MOST_ROWS`. Who spawns a process stands behind it, as in a script.
pub fn replay(
    alloc: Global,
    processes: &[Proc],
    rows: u32,
    commits: &[Commit],
) -> Result<State, ReplayFault>
    requires few { length processes.now ≤ 64 }
    requires rows { rows ≤ most_rows }
    requires placed { IsPlaced (map proc_of processes.now) }
    ensures stands { MatchResult result (StandsAfter (map proc_of processes.now) rows commits.now) (Refuses (map proc_of processes.now) rows commits.now) }
    ensures trees { IfOk result (λ state. trees_in state ≡ map tree_of processes.now) }
{
    let (state, lawful) = replay_lawful(alloc, processes, rows, commits)?;
    if lawful < commits.len() {
        return Err(ReplayFault::Unlawful(lawful));
    }
    Ok(state)
}

/// Adds the commits one after another as far as they are a run: where those lead, and how many they are. Behind them
/// stands the first commit with which they are none.
pub fn replay_lawful(
    alloc: Global,
    processes: &[Proc],
    rows: u32,
    commits: &[Commit],
) -> Result<(State, usize), AllocError>
    requires few { length processes.now ≤ 64 }
    requires rows { rows ≤ most_rows }
    requires placed { IsPlaced (map proc_of processes.now) }
    ensures stands { IfOk result (λ led. StandsAfter (map proc_of processes.now) rows (take led.1 commits.now) led.0) }
    ensures far { IfOk result (λ led. (led.1 ≡ length commits.now) ⊎ BreaksOffAt (map proc_of processes.now) rows commits.now led.1) }
    ensures trees { IfOk result (λ led. trees_in led.0 ≡ map tree_of processes.now) }
{
    let mut threads = Threads::start(alloc, processes, rows)?;
    for (index, commit) in commits.iter().enumerate() {
        if !threads.may_follow(commit) {
            return Ok((State { threads }, index));
        }
        threads.apply(commit)?;
    }
    Ok((State { threads }, commits.len()))
}

/// Adds the commits one after another, each with the stamp that it has there: the stamps that they come with count for
/// nothing. It tells where they lead, and the run that they are with their stamps.
pub fn restamp(
    alloc: Global,
    processes: &[Proc],
    rows: u32,
    commits: &[Commit],
) -> Result<(State, Vec<Commit>), AllocError>
    requires few { length processes.now ≤ 64 }
    requires rows { rows ≤ most_rows }
    requires placed { IsPlaced (map proc_of processes.now) }
    requires legal { AreLegal (map proc_of processes.now) rows commits.now }
    ensures stands { IfOk result (λ run. StandsAfter (map proc_of processes.now) rows run.1.items run.0) }
    ensures same { IfOk result (λ run. AreRestamped commits.now run.1.items) }
{
    let mut threads = Threads::start(alloc, processes, rows)?;
    let mut run = Vec::new(alloc);
    for (index, commit) in commits.iter().enumerate() {
        let Some(next) = threads.stamped(commit) else {
            unreachable!()
        };
        threads.apply(&next)?;
        run.push(next)?;
    }
    Ok((State { threads }, run))
}

/// Adds commits that may come next, until there is none. Which ones is open.
pub fn settle(alloc: Global, state: State) -> Result<(State, Vec<Commit>), AllocError>
    ensures settles { IfOk result (λ settled. Settles state settled.0 settled.1.items) }
    ensures trees { IfOk result (λ settled. trees_in settled.0 ≡ trees_in state) }
{
    let mut threads = state.threads;
    let mut open_offers = OpenOffers::of(alloc, &threads)?;
    let mut added = Vec::new(alloc);
    while let Some(commit) = open_offers.find(&threads) {
        let woke = threads.apply(&commit)?;
        open_offers.follow(&threads, &commit, woke)?;
        added.push(commit)?;
    }
    Ok((State { threads }, added))
}
