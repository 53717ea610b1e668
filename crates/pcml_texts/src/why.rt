//! What `why` prints.

ghost use Rattle.std.specs.Prelude.{◌≡◌, ◌+◌, ◌≤◌, ℕ, IfOk, IfErr};
ghost use Rattle.protocol_values.specs.Commits.{most_rows};
ghost use Rattle.std.specs.List.{AllByRecursion};
ghost use Rattle.std.specs.String.{string_bytes};
ghost use Rattle.script.specs.Lines.{trees_of_script};
ghost use Rattle.script.specs.Scripts.{script_of};
ghost use Rattle.journal_replay.specs.Lines.{trees_in};
ghost use Rattle.journal_replay.specs.Replays.{StandsAfter};
ghost use Rattle.journal_text.specs.Answers.{Explains};
ghost use Rattle.journal_text.specs.Journals.{HasLine};
ghost use Rattle.journal_text.specs.Names.{names_of};
ghost use Rattle.pcml_why.specs.Faults.{TellsFaults};
ghost use Rattle.pcml_texts.specs.Replay.{IsBroken};
ghost use Rattle.pcml_texts.specs.Why.{IsWhyOf, TellsReason, TellsWhy};

use crate::reach::{Broken, Reached, reach};
use crate::replay::Replayed;
use journal_replay::State;
use journal_text::JournalFault;
use pcml_answers::{find_reason, push_reason};
use pcml_why::{faults_text, why_text};
use protocol_values::Commit;
use script::Script;
use std::alloc::{AllocError, Global};

/// The line of the commit with which the commits are no run, and behind it why that commit may not come next.
fn reason_text(
    alloc: Global,
    script: &Script,
    broken: Broken,
    rows: u32,
) -> Result<Vec<u8>, AllocError>
    requires lines { AllByRecursion (HasLine (names_of (script_of script.now))) broken.commits.items }
    requires breaks { IsBroken (script_of script.now).processes rows broken }
    ensures { IfOk result (λ text. TellsReason (script_of script.now) rows broken.commits.items broken.index text.items) }
{
    let reason = find_reason(&broken.state, &broken.commits, broken.index);
    let mut text = broken.text;
    push_reason(&mut text, script, rows, reason)?;
    Ok(text.into_bytes())
}

/// Why the processes of the script, of so many rows each, stand where these commits lead, which the state tells.
pub fn why_standing(
    alloc: Global,
    script: &Script,
    text: &[u8],
    commits: &[Commit],
    state: &State,
    rows: u32,
) -> Result<Vec<u8>, AllocError>
    requires { StandsAfter (script_of script.now).processes rows commits.now state.now }
    ensures { IfOk result (λ told. IsWhyOf (script_of script.now) (trees_in state.now) text.now rows commits.now told.items) }
{
    let told = why_text(alloc, script, state, commits, text, rows)?;
    Ok(told.into_bytes())
}

/// What went wrong in the processes of the script that faulted where these commits lead, which the state tells: a line for
/// each of them.
pub fn faults_standing(
    alloc: Global,
    script: &Script,
    commits: &[Commit],
    state: &State,
) -> Result<Vec<u8>, AllocError>
    requires { (rows : ℕ) × StandsAfter (script_of script.now).processes rows commits.now state.now }
    ensures { IfOk result (λ told. TellsFaults (script_of script.now) state.now commits.now told.items) }
{
    let told = faults_text(alloc, script, state, commits)?;
    Ok(told.into_bytes())
}

/// Where the processes of the script, of so many rows each, 1 to `MOST_ROWS`, stand after the journal in the
/// bytes, at which lines of the script's text, and with whom each could go on; or with which line it is no run, and why.
pub fn why_journal(
    alloc: Global,
    script: &Script,
    text: &[u8],
    journal: &[u8],
    rows: u32,
) -> Result<Replayed, JournalFault>
    requires { rows ≤ most_rows }
    ensures told { IfOk result (TellsWhy (script_of script.now) (trees_of_script script.now) text.now rows journal.now) }
    ensures fault { IfErr result (Explains (script_of script.now) journal.now) }
{
    match reach(alloc, script, journal, rows)? {
        Reached::Run(commits, state) => {
            let told = why_standing(alloc, script, text, &commits, &state, rows)?;
            Ok(Replayed::Lawful(told))
        }
        Reached::NoRun(broken) => {
            let told = reason_text(alloc, script, broken, rows)?;
            Ok(Replayed::Unlawful(told))
        }
    }
}
