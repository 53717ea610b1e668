//! What `run` prints.

ghost use Rattle.std.specs.Prelude.{◌≡◌, ◌≢◌, ◌↔◌, ◌≤◌, ◌*◌, Err, IfErr, IfOk, length, map};
ghost use Rattle.std.specs.List.{AllByRecursion};
ghost use Rattle.std.specs.String.{string_bytes};
ghost use Rattle.script.specs.Lines.{trees_of_script};
ghost use Rattle.script.specs.Scripts.{script_of};
ghost use Rattle.journal_replay.specs.Lines.{trees_in};
ghost use Rattle.journal_replay.specs.Replays.{StandsAfter};
ghost use Rattle.journal_text.specs.Journals.{HasLine};
ghost use Rattle.journal_text.specs.Names.{names_of, named};
ghost use Rattle.runtime_run.specs.Limits.{AreRows, AreSeasons, AreWorkers};
ghost use Rattle.runtime.specs.Played.{NeedsSeasons};
ghost use Rattle.runtime_run.specs.declared.fault.RunFault.TheVariants.{Workers, Rows};
ghost use Rattle.runtime.specs.declared.seasons.SeasonFault.TheVariants as faults;
ghost use Rattle.pcml_tool.specs.Seasons.{SeasonsAreTold};
ghost use Rattle.pcml_tool.specs.Run.{tail_line, TellsFreelyOf, TellsRecord, TellsRunOf};
ghost use Rattle.pcml_answers.specs.Standings.{TellsStandings};

use journal::Record;
use journal_replay::State;
use journal_text::write_journal;
use pcml_answers::standing_lines;
use protocol_values::Commit;
use runtime::{SeasonFault, run_seasons};
use runtime_run::{OpenGate, RunFault, run};
use script::Script;
use std::alloc::{AllocError, Global};
use std::sync::Wait;
use std::thread::Threads;
use thread::End;

fn tail_line(alloc: Global, commits: usize, tail: usize) -> Result<String, AllocError>
    ensures { IfOk result (λ line. string_bytes line ≡ tail_line commits tail) }
{
    format!(in alloc; "commits {commits} tail {tail}\n")
}

/// What a run prints, in two parts, and what it was.
#[derive(Drop)]
pub struct RunText {
    /// A line for each commit of the journal.
    pub lines: Vec<u8>,
    /// A line for each process, and the counts.
    pub rest: Vec<u8>,
    /// The journal's commits.
    pub commits: Vec<Commit>,
    /// Where they lead.
    pub state: State,
    /// How each process ended.
    pub ends: Vec<End>,
}

/// The journal, and behind it a line for each process and the counts.
fn record_text(alloc: Global, script: &Script, ran: Record) -> Result<RunText, AllocError>
    requires lines { AllByRecursion (HasLine (names_of (script_of script.now))) ran.journal.items }
    requires ends { length ran.ends.items ≡ length (script_of script.now).processes }
    requires outputs { length ran.outputs.items ≡ length (script_of script.now).processes }
    ensures tells { IfOk result (λ t. TellsRecord (script_of script.now) ran t.lines.items t.rest.items) }
    ensures same { IfOk result (λ t. (t.commits.items ≡ ran.journal.items) × (t.ends.items ≡ ran.ends.items) × (t.state ≡ ran.state)) }
{
    let lines = write_journal(alloc, script, ran.journal.as_slice())?;
    let mut rest = standing_lines(alloc, script, ran.ends.as_slice(), ran.outputs.as_slice())?;
    let last = tail_line(alloc, ran.journal.len(), ran.tail)?;
    rest.push_str(&last)?;
    let Record {
        journal: commits,
        state,
        ends,
        ..
    } = ran;
    Ok(RunText {
        lines,
        rest: rest.into_bytes(),
        commits,
        state,
        ends,
    })
}

/// What comes of running the script's processes on so many workers, in so many rows each, in two parts. It
/// waits for its workers.
pub fn run_parts<R: Threads + Wait + Sync>(
    rt: &R,
    alloc: Global,
    script: &Script,
    workers: u8,
    rows: u16,
) -> Result<RunText, RunFault>
    ensures ran { IfOk result (λ t. TellsRunOf (script_of script.now) rows t.commits.items t.ends.items t.lines.items t.rest.items) }
    ensures ends { IfOk result (λ t. length t.ends.items ≡ length (script_of script.now).processes) }
    ensures leads { IfOk result (λ t. StandsAfter (script_of script.now).processes rows t.commits.items t.state × (trees_in t.state ≡ trees_of_script script.now)) }
    ensures workers { (result ≡ Err Workers) ↔ (¬ AreWorkers workers) }
    ensures rows { (result ≡ Err Rows) ↔ (AreWorkers workers × (¬ AreRows rows)) }
{
    let record = run(rt, alloc, script, workers, rows, &OpenGate)?;
    match record_text(alloc, script, record) {
        Ok(text) => Ok(text),
        Err(_) => Err(RunFault::Memory),
    }
}

/// What comes of running the script's processes in at most so many seasons, of so many rows each: of a run that ends
/// for no want of syncs. It waits for its workers.
pub fn run_seasons_parts<R: Threads + Wait + Sync>(
    rt: &R,
    alloc: Global,
    script: &Script,
    workers: u8,
    rows: u16,
    seasons: u16,
) -> Result<RunText, SeasonFault>
    ensures ran { IfOk result (λ t. TellsFreelyOf (script_of script.now) rows seasons t.commits.items t.ends.items t.lines.items t.rest.items) }
    ensures ends { IfOk result (λ t. length t.ends.items ≡ length (script_of script.now).processes) }
    ensures leads { IfOk result (λ t. StandsAfter (script_of script.now).processes (seasons * rows) t.commits.items t.state × (trees_in t.state ≡ trees_of_script script.now)) }
    ensures workers { (result ≡ Err faults.Workers) ↔ (¬ AreWorkers workers) }
    ensures rows { (result ≡ Err faults.Rows) ↔ (AreWorkers workers × (¬ AreRows rows)) }
    ensures seasons { (result ≡ Err faults.SeasonCount) ↔ (AreWorkers workers × AreRows rows × (¬ AreSeasons seasons)) }
    ensures needed { result ≡ Err faults.Seasons → NeedsSeasons (script_of script.now).processes rows seasons }
    ensures never { IfErr result (λ fault. (fault ≢ faults.Lost) × (fault ≢ faults.Unlawful)) }
{
    let record = run_seasons(rt, alloc, script, workers, rows, seasons as u32, &OpenGate)?;
    match record_text(alloc, script, record) {
        Ok(text) => Ok(text),
        Err(_) => Err(SeasonFault::Memory),
    }
}

/// Where a search of runs of any length tells all outcomes, a run in seasons that ends comes to one of them.
pub fn seasons_law()
    ensures { SeasonsAreTold }
{}
