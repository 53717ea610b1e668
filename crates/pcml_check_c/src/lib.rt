//! The checkers as calls of C: is a text a script, why not, what does a journal say, what can a script come to, and a
//! journal as a chart. `lib/include/pcml_check.h` declares them.
//!
//! Each call gives a code, and where one is due a fault and a line as the program tells them. The text goes into the
//! caller's buffer as `snprintf` does it: as much as fits before a NUL, and the length of the whole is told.
//!
//! No call has a `requires`: what it asks of numbers and names it tests. What C alone can keep stands in the header.
#![tactic(auto)]

ghost use Rattle.std.specs.Prelude.{◌≡◌, IfErr, IfOk, Result};
ghost use Rattle.pcml_check_c.specs.Answers.{IsHandedOut};
ghost use Rattle.pcml_check_c.specs.Journals.{IsDrawn, IsJudged, RefusesChart, RefusesJournal};
ghost use Rattle.pcml_check_c.specs.Outcomes.{IsSearched, RefusesOutcomes};
ghost use Rattle.pcml_check_c.specs.Seeking.{IsFaultSought, IsLeftSought, IsPrintSought, RefusesFaults, RefusesLeft, RefusesPrint};
ghost use Rattle.pcml_check_c.specs.Scripts.{IsCounted, IsExplained, RefusesMemory, RefusesScript};
ghost use Rattle.pcml_check_c.specs.declared.refusal.Refusal.{Refusal};
ghost use Rattle.pcml_check_c.specs.declared.told.Told.{Told};

mod answer;
mod journals;
mod names;
mod refusal;
mod scripts;
mod searching;
mod seeking;
mod told;

pub use crate::answer::Answer;
use crate::answer::hand_out;
use crate::journals::{drawn, judged};
pub use crate::refusal::Refusal;
use crate::scripts::{counted, explained};
use crate::searching::searched;
use crate::seeking::{faults_sought, left_sought, print_sought};
pub use crate::told::{Code, Told};
use std::alloc::Global;

/// The version of the library, in two digits for each of its three numbers.
#[unsafe(no_mangle)]
pub extern "C" fn pcml_check_version() -> u32
    ensures { result ≡ 10300 }
{
    10300
}

/// How many processes and channels the script has, or its first fault.
#[unsafe(no_mangle)]
pub extern "C" fn pcml_check(alloc: Global, script: &[u8], text: &mut [u8]) -> Answer
    ensures { (told : Result Told Refusal) × IfOk told (IsCounted script.now) × IfErr told (RefusesScript script.now)
        × IsHandedOut told text.old text.new result }
{
    hand_out(counted(alloc, script), text)
}

/// Why the text is no script.
#[unsafe(no_mangle)]
pub extern "C" fn pcml_why_script(alloc: Global, script: &[u8], text: &mut [u8]) -> Answer
    ensures { (told : Result Told Refusal) × IfOk told (IsExplained script.now) × IfErr told RefusesMemory
        × IsHandedOut told text.old text.new result }
{
    hand_out(explained(alloc, script), text)
}

/// Where the journal leads the script's processes, of so many rows each.
#[unsafe(no_mangle)]
pub extern "C" fn pcml_check_journal(
    alloc: Global,
    script: &[u8],
    journal: &[u8],
    rows: u32,
    text: &mut [u8],
) -> Answer
    ensures { (told : Result Told Refusal) × IfOk told (IsJudged script.now journal.now rows) × IfErr told (RefusesJournal script.now journal.now rows)
        × IsHandedOut told text.old text.new result }
{
    hand_out(judged(alloc, script, journal, rows), text)
}

/// What the script can come to, of so many rows a process, or with 0 in runs of any length, as far as so many
/// configurations show it. Where names are needed, only the outcomes are told in which one of their processes has not
/// ended; where names are given, only their processes make one outcome another. No bytes are no names.
#[unsafe(no_mangle)]
pub extern "C" fn pcml_outcomes(
    alloc: Global,
    script: &[u8],
    rows: u32,
    limit: u32,
    need: &[u8],
    only: &[u8],
    text: &mut [u8],
) -> Answer
    ensures { (told : Result Told Refusal) × IfOk told (IsSearched script.now rows limit need.now only.now) × IfErr told (RefusesOutcomes script.now rows limit need.now only.now)
        × IsHandedOut told text.old text.new result }
{
    hand_out(searched(alloc, script, rows, limit, need, only), text)
}

/// Whether some run, whether it ends or not, leads to where a process of these names can never end any more, as far as so
/// many states show it.
#[unsafe(no_mangle)]
pub extern "C" fn pcml_left(
    alloc: Global,
    script: &[u8],
    limit: u32,
    names: &[u8],
    text: &mut [u8],
) -> Answer
    ensures { (told : Result Told Refusal) × IfOk told (IsLeftSought script.now limit names.now) × IfErr told (RefusesLeft script.now limit names.now)
        × IsHandedOut told text.old text.new result }
{
    hand_out(left_sought(alloc, script, limit, names), text)
}

/// Whether some run, whether it ends or not, leads to a process that has faulted.
#[unsafe(no_mangle)]
pub extern "C" fn pcml_faults(alloc: Global, script: &[u8], limit: u32, text: &mut [u8]) -> Answer
    ensures { (told : Result Told Refusal) × IfOk told (IsFaultSought script.now limit) × IfErr told (RefusesFaults script.now limit)
        × IsHandedOut told text.old text.new result }
{
    hand_out(faults_sought(alloc, script, limit), text)
}

/// Whether in some run, whether it ends or not, the process of a name prints a value, both as `NAME=VALUE`.
#[unsafe(no_mangle)]
pub extern "C" fn pcml_never(
    alloc: Global,
    script: &[u8],
    limit: u32,
    print: &[u8],
    text: &mut [u8],
) -> Answer
    ensures { (told : Result Told Refusal) × IfOk told (IsPrintSought script.now limit print.now) × IfErr told (RefusesPrint script.now limit print.now)
        × IsHandedOut told text.old text.new result }
{
    hand_out(print_sought(alloc, script, limit, print), text)
}

/// The chart of the journal's commits with a stamp from one to another, as a picture or as a diagram. Where names are
/// given, only their processes have columns of their own.
#[unsafe(no_mangle)]
pub extern "C" fn pcml_chart(
    alloc: Global,
    script: &[u8],
    journal: &[u8],
    rows: u32,
    only: &[u8],
    from: u32,
    to: u32,
    form: u32,
    text: &mut [u8],
) -> Answer
    ensures { (told : Result Told Refusal) × IfOk told (IsDrawn script.now journal.now rows only.now from to form) × IfErr told (RefusesChart script.now journal.now rows only.now form)
        × IsHandedOut told text.old text.new result }
{
    hand_out(
        drawn(alloc, script, journal, rows, only, from, to, form),
        text,
    )
}
