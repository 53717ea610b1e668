//! How often each process and each channel of a script took part in a journal.

ghost use Rattle.std.specs.Prelude.{◌≡◌, IfOk};
ghost use Rattle.std.specs.String.{string_bytes};
ghost use Rattle.script.specs.Scripts.{script_of};
ghost use Rattle.journal_text.specs.Names.{named};
ghost use Rattle.pcml_answers.specs.Counts.{SumsAgree};
ghost use Rattle.pcml_answers.specs.Stats.{stats_text};

use crate::stats_lines::{push_channels, push_processes, push_total};
use crate::tallying::tally_journal;
use protocol_values::Commit;
use script::Script;
use std::alloc::{AllocError, Global};

/// A line for each process, a line for each channel, and how many commits there are, with their greatest stamp.
pub fn stats_text(alloc: Global, script: &Script, journal: &[Commit]) -> Result<String, AllocError>
    ensures { IfOk result (λ text. string_bytes text ≡ stats_text (named (script_of script.now)) (script_of script.now) journal.now) }
{
    let tallies = tally_journal(alloc, script, journal)?;
    let mut out = String::new(alloc);
    push_processes(&mut out, script, &tallies.processes)?;
    push_channels(&mut out, script, &tallies.uses)?;
    push_total(&mut out, journal.len(), tallies.stamps)?;
    Ok(out)
}

/// Of a journal whose commits are of the first so many processes and channels, the processes send as often as they
/// receive and as the channels are used, and each other commit is of one process alone.
pub fn stats_laws()
    ensures { SumsAgree }
{}
