//! What `replay` prints.

ghost use Rattle.std.specs.Prelude.{◌≡◌, ◌≤◌, IfOk, IfErr, OnOk, length};
ghost use Rattle.protocol_values.specs.Commits.{most_rows};
ghost use Rattle.std.specs.String.{string_bytes};
ghost use Rattle.script.specs.Scripts.{script_of};
ghost use Rattle.journal_text.specs.Answers.{Explains};
ghost use Rattle.journal_replay.specs.Replays.{thread_count};
ghost use Rattle.pcml_texts.specs.Replay.{lawful_line, reach_text, TellsJudged, TellsProcesses, TellsReplayed, TellsState, IsReplayedToOne, IsReplayedOrNoRun, HasOneUnlawfulLine};
ghost use Rattle.journal_text.specs.Names.{named};
ghost use Rattle.script.specs.Appending.{Adds};

use crate::reach::{Reached, reach};
use journal_replay::State;
use journal_text::JournalFault;
use pcml_answers::push_process;
use script::Script;
use std::alloc::{AllocError, Global};

/// What comes of a journal, as text.
#[derive(Debug, Drop)]
pub enum Replayed {
    /// It is a run. The text tells how each process stands, and whether a commit may come next.
    Lawful(Vec<u8>),
    /// The text tells the first line with which it is no run.
    Unlawful(Vec<u8>),
}

/// What comes of a journal: its text, with what that says at its end as values.
#[derive(Drop)]
pub enum Judged {
    /// It is a run. It is maximal where no commit may come next.
    Lawful { text: Vec<u8>, is_maximal: bool },
    /// The first line with which it is no run, from 1.
    Unlawful { text: Vec<u8>, line: usize },
}

/// A line for each process.
fn process_lines(alloc: Global, script: &Script, state: &State) -> Result<String, AllocError>
    requires { thread_count state.now ≡ length (script_of script.now).processes }
    ensures { IfOk result (λ lines. TellsProcesses (named (script_of script.now)) state.now (string_bytes lines)) }
{
    let mut lines = String::new(alloc);
    for thread in 0..state.threads() {
        push_process(
            &mut lines,
            script,
            thread,
            state.end(thread),
            state.output(thread),
        )?;
    }
    Ok(lines)
}

fn reach_text(maximal: bool) -> &'static str
    ensures { result.now ≡ reach_text maximal }
{
    if maximal { "maximal" } else { "open" }
}

fn push_lawful_line(out: &mut String, commits: usize, maximal: bool) -> Result<(), AllocError>
    ensures { OnOk result (Adds out.old out.new (lawful_line commits maximal)) }
{
    write!(out, "lawful {commits} ")?;
    out.push_str(reach_text(maximal))?;
    out.push_str("\n")
}

/// How the processes stand after so many commits, and whether another may come next.
fn state_text(
    alloc: Global,
    script: &Script,
    state: &State,
    commits: usize,
    maximal: bool,
) -> Result<Vec<u8>, AllocError>
    requires { thread_count state.now ≡ length (script_of script.now).processes }
    ensures { IfOk result (λ text. TellsState (named (script_of script.now)) state.now commits maximal text.items) }
{
    let mut text = process_lines(alloc, script, state)?;
    push_lawful_line(&mut text, commits, maximal)?;
    Ok(text.into_bytes())
}

/// Where the journal in the bytes leads the script's processes, of so many rows each, 1 to `MOST_ROWS`.
pub fn judge_journal(
    alloc: Global,
    script: &Script,
    journal: &[u8],
    rows: u32,
) -> Result<Judged, JournalFault>
    requires { rows ≤ most_rows }
    ensures judged { IfOk result (TellsJudged (script_of script.now) rows journal.now) }
    ensures fault { IfErr result (Explains (script_of script.now) journal.now) }
{
    match reach(alloc, script, journal, rows)? {
        Reached::Run(commits, state) => {
            let next = state.enabled(alloc)?;
            let is_maximal = next.is_none();
            let text = state_text(alloc, script, &state, commits.len(), is_maximal)?;
            Ok(Judged::Lawful { text, is_maximal })
        }
        Reached::NoRun(broken) => Ok(Judged::Unlawful {
            line: broken.index + 1,
            text: broken.text.into_bytes(),
        }),
    }
}

/// The text of where the journal leads the script's processes, or of the first line with which it is no run.
pub fn replay_text(
    alloc: Global,
    script: &Script,
    journal: &[u8],
    rows: u32,
) -> Result<Replayed, JournalFault>
    requires { rows ≤ most_rows }
    ensures replayed { IfOk result (TellsReplayed (script_of script.now) rows journal.now) }
    ensures fault { IfErr result (Explains (script_of script.now) journal.now) }
{
    match judge_journal(alloc, script, journal, rows)? {
        Judged::Lawful { text, .. } => Ok(Replayed::Lawful(text)),
        Judged::Unlawful { text, .. } => Ok(Replayed::Unlawful(text)),
    }
}

/// The bytes of a journal are replayed to one text, or else one line is the first with which they are no
/// run: so each answer of `replay_text` but for want of memory is the only one.
pub fn replay_laws()
    ensures one { IsReplayedToOne }
    ensures apart { IsReplayedOrNoRun }
    ensures first { HasOneUnlawfulLine }
{}
