//! What `stats` prints.

ghost use Rattle.std.specs.Prelude.{◌≤◌, IfOk, IfErr};
ghost use Rattle.protocol_values.specs.Commits.{most_rows};
ghost use Rattle.script.specs.Scripts.{script_of};
ghost use Rattle.journal_text.specs.Answers.{Explains};
ghost use Rattle.pcml_texts.specs.Stats.{TellsStats};

use crate::reach::{Reached, reach};
use crate::replay::Replayed;
use journal_text::JournalFault;
use pcml_answers::stats_text;
use script::Script;
use std::alloc::Global;

/// How often each process and each channel of the script took part in the journal in the bytes, which is a run of its
/// processes of so many rows each, 1 to `MOST_ROWS`.
pub fn stats_journal(
    alloc: Global,
    script: &Script,
    journal: &[u8],
    rows: u32,
) -> Result<Replayed, JournalFault>
    requires { rows ≤ most_rows }
    ensures told { IfOk result (TellsStats (script_of script.now) rows journal.now) }
    ensures fault { IfErr result (Explains (script_of script.now) journal.now) }
{
    match reach(alloc, script, journal, rows)? {
        Reached::Run(commits, _) => {
            let text = stats_text(alloc, script, commits.as_slice())?;
            Ok(Replayed::Lawful(text.into_bytes()))
        }
        Reached::NoRun(broken) => Ok(Replayed::Unlawful(broken.text.into_bytes())),
    }
}
