//! A journal read and replayed, for each request that asks where one leads.

ghost use Rattle.std.specs.Prelude.{◌≡◌, ◌≤◌, IfOk, IfErr};
ghost use Rattle.protocol_values.specs.Commits.{most_rows};
ghost use Rattle.std.specs.String.{string_bytes};
ghost use Rattle.script.specs.Lines.{trees_of_script};
ghost use Rattle.script.specs.Scripts.{script_of};
ghost use Rattle.journal_text.specs.Answers.{Explains};
ghost use Rattle.pcml_texts.specs.Replay.{Reaches, unlawful_line};
ghost use Rattle.pcml_texts.specs.Why.{RunsTrees};

use journal_replay::{State, replay_lawful};
use journal_text::{JournalFault, read_journal};
use protocol_values::Commit;
use script::Script;
use std::alloc::{AllocError, Global};

/// Where a journal leads.
#[derive(Drop)]
pub(crate) enum Reached {
    /// It is a run, of these commits, and leads to that state.
    Run(Vec<Commit>, State),
    /// It is no run.
    NoRun(Broken),
}

/// A journal that is no run: its first commits are one, and lead to the state, and with the commit of this number, from
/// 0, they are none. The text tells the line of that commit.
#[derive(Drop)]
pub(crate) struct Broken {
    pub(crate) commits: Vec<Commit>,
    pub(crate) state: State,
    pub(crate) index: usize,
    pub(crate) text: String,
}

fn unlawful_line(alloc: Global, line: usize) -> Result<String, AllocError>
    ensures { IfOk result (λ text. string_bytes text ≡ unlawful_line line) }
{
    format!(in alloc; "unlawful at line {line}\n")
}

/// Where the journal in the bytes leads the script's processes, of so many rows each, 1 to `MOST_ROWS`.
pub(crate) fn reach(
    alloc: Global,
    script: &Script,
    journal: &[u8],
    rows: u32,
) -> Result<Reached, JournalFault>
    requires { rows ≤ most_rows }
    ensures reached { IfOk result (Reaches (script_of script.now) rows journal.now) }
    ensures trees { IfOk result (RunsTrees (trees_of_script script.now)) }
    ensures fault { IfErr result (Explains (script_of script.now) journal.now) }
{
    let commits = read_journal(alloc, script, journal)?;
    let (state, index) = replay_lawful(alloc, script.processes(), rows, commits.as_slice())?;
    if index >= commits.len() {
        return Ok(Reached::Run(commits, state));
    }
    let text = unlawful_line(alloc, index + 1)?;
    Ok(Reached::NoRun(Broken {
        commits,
        state,
        index,
        text,
    }))
}
