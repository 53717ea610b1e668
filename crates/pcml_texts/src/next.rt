//! What `next` prints.

ghost use Rattle.std.specs.Prelude.{◌≤◌, IfOk, IfErr};
ghost use Rattle.protocol_values.specs.Commits.{most_rows};
ghost use Rattle.script.specs.Scripts.{script_of};
ghost use Rattle.journal_text.specs.Answers.{Explains};
ghost use Rattle.pcml_texts.specs.Next.{TellsNextOf};

use crate::reach::{Reached, reach};
use crate::replay::Replayed;
use journal_text::JournalFault;
use pcml_answers::next_text;
use script::Script;
use std::alloc::Global;

/// The lines of the commits that may come next where the journal in the bytes leads the script's processes, of so
/// many rows each, 1 to `MOST_ROWS`.
pub fn next_journal(
    alloc: Global,
    script: &Script,
    journal: &[u8],
    rows: u32,
) -> Result<Replayed, JournalFault>
    requires { rows ≤ most_rows }
    ensures told { IfOk result (TellsNextOf (script_of script.now) rows journal.now) }
    ensures fault { IfErr result (Explains (script_of script.now) journal.now) }
{
    match reach(alloc, script, journal, rows)? {
        Reached::Run(_, state) => {
            let text = next_text(alloc, script, &state)?;
            Ok(Replayed::Lawful(text))
        }
        Reached::NoRun(broken) => Ok(Replayed::Unlawful(broken.text.into_bytes())),
    }
}
