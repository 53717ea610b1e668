//! What `chart` prints.

ghost use Rattle.std.specs.Prelude.{◌≡◌, ◌≤◌, IfOk, IfErr, length};
ghost use Rattle.protocol_values.specs.Commits.{most_rows};
ghost use Rattle.std.specs.Option.{option_copied};
ghost use Rattle.script.specs.Scripts.{script_of};
ghost use Rattle.journal_replay.specs.Replays.{thread_count};
ghost use Rattle.pcml_texts.specs.Chart.{Draws, ExplainsChart, IsCharted, of_journal, of_names};
ghost use Rattle.pcml_texts.specs.declared.chart.ChartFault.TheVariants.{Memory};

use crate::reach::{Reached, reach};
use journal_replay::State;
use journal_text::JournalFault;
use pcml_answers::{NamesFault, named_or_all};
use pcml_chart::{chart_text, mermaid_text};
use pcml_request::{Drawing, Form};
use protocol_values::Commit;
use script::Script;
use std::alloc::{AllocError, Global};

/// Why there is no chart of a journal.
#[derive(Debug, Drop)]
pub enum ChartFault {
    Memory,
    /// The first line, from 1, that is no line of a journal.
    BadLine(usize),
    /// The first line, from 1, with which the journal is no run.
    NoRun(usize),
    /// The first of the names that no process has.
    Unnamed(String),
}

impl From<JournalFault> for ChartFault {
    ghost from_gives = { λ journal fault. fault ≡ of_journal journal };

    fn from(fault: JournalFault) -> ChartFault {
        match fault {
            JournalFault::Memory => ChartFault::Memory,
            JournalFault::BadLine(line) => ChartFault::BadLine(line),
        }
    }
}

impl From<AllocError> for ChartFault {
    ghost from_gives = { λ _ fault. fault ≡ Memory };

    fn from(_error: AllocError) -> ChartFault {
        ChartFault::Memory
    }
}

impl From<NamesFault> for ChartFault {
    ghost from_gives = { λ names fault. fault ≡ of_names names };

    fn from(fault: NamesFault) -> ChartFault {
        match fault {
            NamesFault::Memory => ChartFault::Memory,
            NamesFault::Unnamed(name) => ChartFault::Unnamed(name),
        }
    }
}

/// The chart of the commits in the form.
fn drawn(
    alloc: Global,
    script: &Script,
    state: &State,
    own: &[bool],
    commits: &[Commit],
    drawing: &Drawing<'_>,
) -> Result<Vec<u8>, AllocError>
    requires threads { thread_count state.now ≡ length (script_of script.now).processes }
    requires columns { length own.now ≡ length (script_of script.now).processes }
    ensures { IfOk result (λ text. Draws drawing.now.form (script_of script.now) state.now own.now commits.now drawing.now.from drawing.now.to text.items) }
{
    let Drawing { from, to, form, .. } = *drawing;
    match form {
        Form::Svg => Ok(chart_text(alloc, script, state, own, commits, from, to)?.into_bytes()),
        Form::Mermaid => mermaid_text(alloc, script, state, own, commits, from, to),
    }
}

/// The chart of the journal in the bytes, of processes of so many rows each, 1 to `MOST_ROWS`, in a form: its commits
/// with a stamp from `from` to `to`, or to an earlier one where they are more than 1,250. Where names are given, with
/// commas between, only their processes have columns of their own.
pub fn chart_journal(
    alloc: Global,
    script: &Script,
    journal: &[u8],
    rows: u32,
    drawing: &Drawing<'_>,
) -> Result<Vec<u8>, ChartFault>
    requires { rows ≤ most_rows }
    ensures charted { IfOk result (λ text. IsCharted (script_of script.now) rows journal.now (option_copied drawing.now.only) drawing.now.from drawing.now.to drawing.now.form text.items) }
    ensures fault { IfErr result (ExplainsChart (script_of script.now) rows journal.now (option_copied drawing.now.only)) }
{
    match reach(alloc, script, journal, rows)? {
        Reached::Run(commits, state) => {
            let own = named_or_all(alloc, script, drawing.only)?;
            let text = drawn(alloc, script, &state, &own, commits.as_slice(), drawing)?;
            Ok(text)
        }
        Reached::NoRun(broken) => Err(ChartFault::NoRun(broken.index + 1)),
    }
}
