//! Journals as text: a line for each commit.
//!
//! - `write_journal` writes commits with the names that a script declares, `write_numbered` with numbers
//!   in place of the names.
//! - `read_journal` reads them again: Ok exactly where the bytes are the text of commits, else it names the
//!   first line that is not of the form (`journal_text_laws`).
//! - `push_thread`, `push_atom`, `push_message` and the like append names and values to a text, as they stand in a
//!   journal, `push_offer` an offer. A name that is not declared is left out.
//! - `run_text_law`: the commits of a run have lines, and what is printed has names. `start_law`: which processes have
//!   started.
#![tactic(auto)]

ghost use Rattle.std.specs.Prelude.{◌≡◌, ◌+◌, ◌*◌, ◌≤◌, IfOk, IfErr, length, map};
ghost use Rattle.std.specs.List.{AllByRecursion};
ghost use Rattle.journal_text.specs.Answers.{Explains};
ghost use Rattle.journal_text.specs.Journals.{HasLine, Spells};
ghost use Rattle.journal_text.specs.Labels.{naming_of, reach};
ghost use Rattle.journal_text.specs.Names.{names_of, numbers};
ghost use Rattle.journal_text.specs.Texts.{commits_text};
ghost use Rattle.journal_text.specs.declared.JournalFault.TheVariants.{Memory};
ghost use Rattle.script.specs.Scripts.{script_of};

mod ending;
mod labels;
mod laws;
mod line;
mod listing;
mod name;
mod names;
mod offer;
mod value;
mod writing;

pub use crate::ending::{push_printed, push_syncs};
use crate::labels::Labels;
pub use crate::laws::{journal_text_laws, run_text_law, start_law};
use crate::line::Front;
pub use crate::name::{push_channel, push_nack, push_thread};
use crate::names::Names;
pub use crate::offer::push_offer;
pub use crate::value::{push_atom, push_cause, push_message};
use crate::writing::{LINE_LEN, LINE_NAMES, LONGEST_NUMBER, put_line};
use protocol_values::Commit;
use script::Script;
use std::alloc::{AllocError, AllocFailed, Global};
use thiserror::Error;

/// Why a journal could not be read.
#[derive(Debug, Drop, Error)]
pub enum JournalFault {
    #[error("out of memory")]
    Memory,
    /// The first line that is not of the form, from 1.
    #[error("line {0} is not of the form")]
    BadLine(usize),
}

impl<T: Drop> From<AllocFailed<T>> for JournalFault {
    ghost from_gives = { λ _ e. e ≡ Memory };

    fn from(_e: AllocFailed<T>) -> JournalFault {
        JournalFault::Memory
    }
}

impl From<AllocError> for JournalFault {
    ghost from_gives = { λ _ e. e ≡ Memory };

    fn from(_e: AllocError) -> JournalFault {
        JournalFault::Memory
    }
}

/// Room for a line, with the labels or with numbers.
fn blank_line(alloc: Global, labels: Option<&Labels<'_>>) -> Result<Vec<u8>, AllocError>
    ensures { IfOk result (λ line. 6 * reach labels.entry + 88 ≤ length line.items) }
{
    let longest = match labels {
        Some(labels) => labels.longest,
        None => LONGEST_NUMBER,
    };
    let name = vec![in alloc; 0u8; longest]?;
    let mut line = vec![in alloc; 0u8; LINE_LEN]?;
    for _ in 0..LINE_NAMES {
        line.extend_from_slice(&name)?;
    }
    Ok(line)
}

/// How long a line is, more or less. So much room is asked for at once, for each line.
const USUAL_LINE: usize = 48;

/// The lines of the commits in their order, with the labels, or with numbers where there are none.
fn write_lines(
    alloc: Global,
    labels: Option<&Labels<'_>>,
    commits: &[Commit],
) -> Result<Vec<u8>, AllocError>
    ensures { IfOk result (λ text. text.items ≡ commits_text (naming_of labels.entry) commits.now) }
{
    let mut line = blank_line(alloc, labels)?;
    let room = commits.len().saturating_mul(USUAL_LINE);
    let mut out = Vec::with_capacity(alloc, room)?;
    for commit in commits {
        let from = put_line(&mut line, labels, commit);
        out.extend_from_slice(&line[from..])?;
    }
    Ok(out)
}

/// The text of the commits in their order, a line for each, with the names of the script. Each has to have
/// a line: its threads and channels are declared, and its numbers are in range.
pub fn write_journal(
    alloc: Global,
    script: &Script,
    commits: &[Commit],
) -> Result<Vec<u8>, AllocError>
    requires { AllByRecursion (HasLine (names_of (script_of script.now))) commits.now }
    ensures { IfOk result (λ text. Spells (script_of script.now) text.items commits.now) }
{
    let labels = Labels::new(alloc, script)?;
    write_lines(alloc, Some(&labels), commits)
}

/// The text of the commits in their order, a line for each, with numbers for the names of threads and
/// channels.
pub fn write_numbered(alloc: Global, commits: &[Commit]) -> Result<Vec<u8>, AllocError>
    ensures { IfOk result (λ text. text.items ≡ commits_text numbers commits.now) }
{
    write_lines(alloc, None, commits)
}

/// The commits that the bytes spell in the names of the script. A fault names the first line that is not
/// of the form.
pub fn read_journal(
    alloc: Global,
    script: &Script,
    bytes: &[u8],
) -> Result<Vec<Commit>, JournalFault>
    ensures found { IfOk result (λ cs. Spells (script_of script.now) bytes.now cs.items) }
    ensures fault { IfErr result (Explains (script_of script.now) bytes.now) }
{
    let names = Names::new(alloc, script)?;
    let mut commits = Vec::new(alloc);
    let mut front = Front { bytes };
    while !front.bytes.is_empty() {
        let Some(commit) = front.line(&names) else {
            return Err(JournalFault::BadLine(commits.len() + 1));
        };
        commits.push(commit)?;
    }
    Ok(commits)
}
