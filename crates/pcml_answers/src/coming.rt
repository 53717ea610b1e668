//! The text of what may come next.

ghost use Rattle.std.specs.Prelude.{ℕ, List, IfOk};
ghost use Rattle.script.specs.Scripts.{script_of};
ghost use Rattle.protocol_values.specs.declared.Commit.{Commit};
ghost use Rattle.journal_replay.specs.Replays.{StandsAfter};
ghost use Rattle.pcml_answers.specs.Coming.{TellsComing};

use journal_replay::State;
use journal_text::write_journal;
use script::Script;
use std::alloc::{AllocError, Global};

/// The lines of the commits that may come next where the state stands, in the journal's order. The state stands behind
/// some run of the script.
pub fn next_text(alloc: Global, script: &Script, state: &State) -> Result<Vec<u8>, AllocError>
    requires { (rows : ℕ) × (commits : List Commit) × StandsAfter (script_of script.now).processes rows commits state.now }
    ensures { IfOk result (λ text. (rows : ℕ) (commits : List Commit) → StandsAfter (script_of script.now).processes rows commits state.now → TellsComing (script_of script.now) rows commits text.items) }
{
    let told = state.next_commits(alloc)?;
    write_journal(alloc, script, told.as_slice())
}
