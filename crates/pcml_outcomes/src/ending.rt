//! How runs end, and a run that comes round.

ghost use Rattle.std.specs.Prelude.{◌≡◌, OnOk};
ghost use Rattle.std.specs.Option.{option_copied};
ghost use Rattle.script.specs.Appending.{Adds};
ghost use Rattle.pcml_outcomes.specs.Told.{ending_text, round_in, told_ending};

use outcomes::{Ending, Extent, Outcomes, Round};
use std::alloc::AllocError;

/// How runs end, where that is told: of runs of any length, where all was seen.
pub(crate) fn told_ending<'a>(rows: Option<u32>, found: &'a Outcomes) -> Option<&'a Ending>
    ensures { option_copied result ≡ told_ending rows found.now }
{
    match (rows, found.extent) {
        (None, Extent::Whole) => Some(&found.ending),
        _ => None,
    }
}

/// Appends how runs end, where that is told.
pub(crate) fn push_ending(out: &mut String, ending: Option<&Ending>) -> Result<(), AllocError>
    ensures { OnOk result (Adds out.old out.new (ending_text (option_copied ending.entry))) }
{
    match ending {
        Some(Ending::Within(most)) => write!(out, ", every run ends within {most} commits"),
        Some(Ending::ForEver(_)) => out.push_str(", some runs go on for ever"),
        Some(Ending::Unknown) | None => Ok(()),
    }
}

/// A run that comes round, where runs go on for ever.
pub(crate) fn round_in<'a>(ending: Option<&'a Ending>) -> Option<&'a Round>
    ensures { option_copied result ≡ round_in (option_copied ending.entry) }
{
    match ending {
        Some(Ending::ForEver(Some(round))) => Some(round),
        _ => None,
    }
}
