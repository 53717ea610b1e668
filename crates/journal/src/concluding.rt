//! What the commits of a ledger, or of a run, come to, by the machines that made them.

ghost use Rattle.std.specs.Prelude.{◌≡◌, ◌+◌, ◌*◌, ◌≤◌, ◌<◌, ℕ, IfOk, None, length, map, slice_index_or};
ghost use Rattle.journal_ledger.specs.Behind.{TellsRun};
ghost use Rattle.journal_ledger.specs.Ledgers.{IsLedgerOf};
ghost use Rattle.journal_replay.specs.Lines.{trees_in};
ghost use Rattle.journal_replay.specs.Runs.{IsRun};
ghost use Rattle.protocol_ledger.specs.Openings.{opening_of};
ghost use Rattle.protocol_values.specs.Commits.{IsInOrder, most_rows};
ghost use Rattle.protocol_ledger.specs.declared.opening.NackState.TheVariants.{Unbound};
ghost use Rattle.script_tree.specs.Processes.{proc_of, tree_of};
ghost use Rattle.script_tree.specs.Spawning.{IsPlaced};
ghost use Rattle.journal.specs.Concluding.{AreGone, AreStanding, EachKnownBy, RunTrees, fired_in, last_in};
ghost use Rattle.journal.specs.Records.{Completes, CompletesOrdered, CompletesRun, IsOrdering};

use crate::record::{Record, record_of};
use journal_replay::{gather, retrace};
use protocol_ledger::{Ledger, Life, NackState, Opening};
use protocol_values::Commit;
use script_tree::Proc;
use std::alloc::{AllocError, Global};
use thread::Machine;
use thread_strand::{Fired, Known};

/// How many nacks a thread can have.
const NACKS: usize = 64;

/// The record of a ledger of these processes, by the machines that are at hand: one that stands after some of its
/// thread's results is given the rest, and what the ledger tells of its end is not looked for among the commits. So it
/// costs no replay; a thread of which there is no machine is run from its beginning.
pub fn conclude(
    alloc: Global,
    processes: &[Proc],
    rows: u32,
    ledger: &Ledger,
    machines: Vec<Option<Machine>>,
) -> Result<Record, AllocError>
    requires few { length processes.now ≤ 64 }
    requires rows { rows ≤ most_rows }
    requires placed { IsPlaced (map proc_of processes.now) }
    requires of { IsLedgerOf (map proc_of processes.now) ledger.now × (ledger.now.rows ≤ rows) }
    requires machines { AreStanding (map proc_of processes.now) ledger.now machines.items }
    ensures completes { IfOk result (Completes (map proc_of processes.now) rows ledger.now) }
    ensures trees { IfOk result (λ r. RunTrees (map tree_of processes.now) machines.items → trees_in r.state ≡ map tree_of processes.now) }
{
    let commits = ledger.commits()?;
    let opening = ledger.opening_by(&commits)?;
    conclude_ordered(alloc, processes, rows, commits, &opening, machines)
}

/// The record of commits in any order which are a run, such as those of several tables one after another: by an opening
/// that tells of the run, and by the machines that are at hand. It puts the commits in order first.
pub fn conclude_run(
    alloc: Global,
    processes: &[Proc],
    rows: u32,
    commits: Vec<Commit>,
    opening: &Opening,
    machines: Vec<Option<Machine>>,
) -> Result<Record, AllocError>
    requires few { length processes.now ≤ 64 }
    requires rows { rows ≤ most_rows }
    requires placed { IsPlaced (map proc_of processes.now) }
    requires run { IsRun (map proc_of processes.now) rows commits.items }
    requires told { TellsRun (map proc_of processes.now) commits.items (opening_of opening.now) }
    requires machines { AreGone (map proc_of processes.now) commits.items machines.items }
    ensures completes { IfOk result (CompletesRun (map proc_of processes.now) rows commits.items) }
    ensures trees { IfOk result (λ r. RunTrees (map tree_of processes.now) machines.items → trees_in r.state ≡ map tree_of processes.now) }
{
    let commits = ordered(commits)?;
    conclude_ordered(alloc, processes, rows, commits, opening, machines)
}

/// The record of commits in any order which are a run, where nothing but these is known: each process is run from its
/// beginning.
pub fn retrace_run(
    alloc: Global,
    processes: &[Proc],
    rows: u32,
    commits: Vec<Commit>,
) -> Result<Record, AllocError>
    requires few { length processes.now ≤ 64 }
    requires rows { rows ≤ most_rows }
    requires placed { IsPlaced (map proc_of processes.now) }
    requires run { IsRun (map proc_of processes.now) rows commits.items }
    ensures completes { IfOk result (CompletesRun (map proc_of processes.now) rows commits.items) }
    ensures trees { IfOk result (λ r. trees_in r.state ≡ map tree_of processes.now) }
{
    let commits = ordered(commits)?;
    let state = retrace(alloc, processes, rows, &commits)?;
    record_of(alloc, commits, state)
}

/// The commits by stamp, and then by the thread named first.
fn ordered(mut commits: Vec<Commit>) -> Result<Vec<Commit>, AllocError>
    ensures { IfOk result (λ o. IsOrdering commits.items o.items) }
{
    commits.sort_by_key(|commit| commit.order())?;
    Ok(commits)
}

/// `conclude_run` of commits that are in order.
fn conclude_ordered(
    alloc: Global,
    processes: &[Proc],
    rows: u32,
    commits: Vec<Commit>,
    opening: &Opening,
    machines: Vec<Option<Machine>>,
) -> Result<Record, AllocError>
    requires few { length processes.now ≤ 64 }
    requires rows { rows ≤ most_rows }
    requires placed { IsPlaced (map proc_of processes.now) }
    requires in_order { IsInOrder commits.items }
    requires run { IsRun (map proc_of processes.now) rows commits.items }
    requires told { TellsRun (map proc_of processes.now) commits.items (opening_of opening.now) }
    requires machines { AreGone (map proc_of processes.now) commits.items machines.items }
    ensures completes { IfOk result (CompletesOrdered (map proc_of processes.now) rows commits.items) }
    ensures trees { IfOk result (λ r. RunTrees (map tree_of processes.now) machines.items → trees_in r.state ≡ map tree_of processes.now) }
{
    let known = known_by(alloc, opening, machines)?;
    let state = gather(alloc, processes, rows, &commits, known)?;
    record_of(alloc, commits, state)
}

/// What is known of each thread by its machine, and by what a ledger tells of its end.
fn known_by(
    alloc: Global,
    opening: &Opening,
    machines: Vec<Option<Machine>>,
) -> Result<Vec<Known>, AllocError>
    requires { length machines.items ≤ 64 }
    ensures { IfOk result (λ known. EachKnownBy opening.now.threads.items opening.now.nacks.items machines.items known.items) }
{
    let mut known = Vec::with_capacity(alloc, machines.len())?;
    for machine in machines {
        let thread = known.len();
        known.push(Known {
            machine,
            last: last_in(opening, thread),
            fired: fired_in(alloc, opening, thread)?,
        })?;
    }
    Ok(known)
}

/// The last stamp of the thread, if it has started.
fn last_in(opening: &Opening, thread: usize) -> Option<u32>
    ensures { result ≡ last_in opening.now.threads.items thread }
{
    match opening.threads.get(thread) {
        Some((Life::Running | Life::Ended, stamp)) => Some(*stamp),
        Some((Life::Unstarted, _)) | None => None,
    }
}

/// Of each of the thread's nacks that is fired the stamp of the commit that fired it.
fn fired_in(alloc: Global, opening: &Opening, thread: usize) -> Result<Fired, AllocError>
    requires { thread < 64 }
    ensures { IfOk result (λ fired. (k : ℕ) → slice_index_or fired k None ≡ fired_in opening.now.nacks.items thread k) }
{
    let mut fired = Fired::new(alloc);
    for (k, state) in nacks_of(opening, thread).iter().enumerate() {
        if let NackState::Enabled(stamp) = *state {
            fired.add(k as u8, stamp)?;
        }
    }
    Ok(fired)
}

/// What is told of the thread's nacks, of which those behind the last told are unbound.
fn nacks_of(opening: &Opening, thread: usize) -> &[NackState]
    requires { thread < 64 }
    ensures few { length result.now ≤ 64 }
    ensures states { (k : ℕ) → k < 64 → slice_index_or result.now k Unbound ≡ slice_index_or opening.now.nacks.items (thread * 64 + k) Unbound }
{
    let count = opening.nacks.len();
    let first = (thread * NACKS).min(count);
    let end = (first + NACKS).min(count);
    &opening.nacks[first..end]
}
