//! The run whose journal is kept.

ghost use Rattle.std.specs.Prelude.{◌≡◌, ◌<◌, IfOk, IfSome, length};
ghost use Rattle.std.specs.Option.{option_copied};
ghost use Rattle.std.specs.List.{AllByRecursion, find};
ghost use Rattle.script.specs.Scripts.{script_of};
ghost use Rattle.journal_text.specs.Journals.{HasLine};
ghost use Rattle.journal_text.specs.Names.{names_of};
ghost use Rattle.pcml_outcomes.specs.Told.{IsNumber, SpellsKept, asked_for, bytes_of, circle_of, is_shown, round_for, run_of, stranded_for};

use crate::shown::is_shown;
use journal_text::write_journal;
use outcomes::{Asked, Outcome, Round};
use protocol_values::Commit;
use reachable::Stranded;
use script::Script;
use std::alloc::{AllocError, Global};

fn first_shown<'a>(outcomes: &'a [Outcome], asked: &Asked) -> Option<&'a Outcome>
    ensures { option_copied result ≡ find (is_shown asked.now) outcomes.now }
{
    for index in 0..outcomes.len() {
        let outcome = &outcomes[index];
        if is_shown(outcome, asked) {
            return Some(outcome);
        }
    }
    None
}

/// The outcome of this number, from 1, or where none is named the first that is told.
pub(crate) fn asked_for<'a>(
    outcomes: &'a [Outcome],
    asked: &Asked,
    of: Option<u32>,
) -> Option<&'a Outcome>
    requires { IsNumber of }
    ensures { option_copied result ≡ asked_for of asked.now outcomes.now }
{
    match of {
        Some(number) => outcomes.get(number as usize - 1),
        None => first_shown(outcomes, asked),
    }
}

/// The one that is stranded, where no outcome is asked for by its number, and there is none.
pub(crate) fn stranded_for<'a>(
    of: Option<u32>,
    outcome: Option<&Outcome>,
    stranded: Option<&'a Stranded>,
) -> Option<&'a Stranded>
    ensures { option_copied result ≡ stranded_for of (option_copied outcome.entry) (option_copied stranded.entry) }
{
    match (of, outcome) {
        (None, None) => stranded,
        _ => None,
    }
}

/// The run that comes round, where no outcome is asked for by its number, and there is none, nor one that is stranded.
pub(crate) fn round_for<'a>(
    of: Option<u32>,
    outcome: Option<&Outcome>,
    stranded: Option<&Stranded>,
    round: Option<&'a Round>,
) -> Option<&'a Round>
    ensures { option_copied result ≡ round_for of (option_copied outcome.entry) (option_copied stranded.entry) (option_copied round.entry) }
{
    match (of, outcome, stranded) {
        (None, None, None) => round,
        _ => None,
    }
}

/// The commits of the run that leads to the outcome, or where there is none to where one is stranded, or of the one that
/// comes round.
pub(crate) fn run_of<'a>(
    outcome: Option<&'a Outcome>,
    stranded: Option<&'a Stranded>,
    round: Option<&'a Round>,
) -> Option<&'a [Commit]>
    ensures { option_copied result ≡ run_of (option_copied outcome.entry) (option_copied stranded.entry) (option_copied round.entry) }
{
    match (outcome, stranded, round) {
        (Some(outcome), _, _) => Some(outcome.journal.as_slice()),
        (None, Some(stranded), _) => Some(stranded.journal.as_slice()),
        (None, None, Some(round)) => Some(round.journal.as_slice()),
        (None, None, None) => None,
    }
}

/// The number of the commit with which the circle begins, from 1, as the lines of the journal count.
pub(crate) fn circle_of(round: Option<&Round>) -> Option<usize>
    requires { IfSome (option_copied round) (λ r. r.from < length r.journal.items) }
    ensures { result ≡ circle_of (option_copied round.entry) }
{
    match round {
        Some(round) => Some(round.from + 1),
        None => None,
    }
}

/// The run as text, where there is one.
pub(crate) fn journal_of(
    alloc: Global,
    script: &Script,
    run: Option<&[Commit]>,
) -> Result<Option<Vec<u8>>, AllocError>
    requires lines { IfSome (option_copied run) (AllByRecursion (HasLine (names_of (script_of script.now)))) }
    ensures { IfOk result (λ text. SpellsKept (script_of script.now) (option_copied run.entry) (bytes_of text)) }
{
    match run {
        Some(run) => {
            let text = write_journal(alloc, script, run)?;
            Ok(Some(text))
        }
        None => Ok(None),
    }
}
