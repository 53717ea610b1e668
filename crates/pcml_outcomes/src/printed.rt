//! The text of whether a process prints a value, and of several values.

ghost use Rattle.std.specs.Prelude.{◌≡◌, ◌≤◌, IfOk, IfSome, OnOk};
ghost use Rattle.std.specs.List.{AllByRecursion};
ghost use Rattle.std.specs.Option.{option_copied};
ghost use Rattle.protocol_values.specs.Commits.{most_rows};
ghost use Rattle.script.specs.Appending.{Adds};
ghost use Rattle.script.specs.Scripts.{script_of};
ghost use Rattle.journal_text.specs.Journals.{HasLine};
ghost use Rattle.journal_text.specs.Names.{named, names_of};
ghost use Rattle.pcml_answers.specs.Prints.{IsProcess};
ghost use Rattle.pcml_outcomes.specs.Printed.{IsWithPart, IsPrinted, TellsPrinted, TellsPrints, end_of, graver, printed_finding, printed_line, printed_run, word_of};

use crate::asked::journal_of;
use crate::finding::Finding;
use crate::sought::SoughtText;
use journal_text::push_atom;
use outcomes::Watch;
use pcml_answers::{Print, push_name};
use protocol_values::Commit;
use reachable::{AllPrinted, Printed, find_printed};
use script::Script;
use std::alloc::{AllocError, Global};

/// The word for what was found.
fn word_of(printed: &Printed) -> &'static str
    ensures { result.now ≡ word_of printed.now }
{
    match printed {
        Printed::Behind(_) => "printed ",
        Printed::Never | Printed::Unknown => "never ",
    }
}

/// What ends its line.
fn end_of(printed: &Printed) -> &'static str
    ensures { result.now ≡ end_of printed.now }
{
    match printed {
        Printed::Behind(_) => "\n",
        Printed::Never => " all\n",
        Printed::Unknown => " cut\n",
    }
}

/// Appends whether the process prints the value, and how many states were seen.
fn push_printed(
    out: &mut String,
    script: &Script,
    print: Print,
    found: &AllPrinted,
) -> Result<(), AllocError>
    requires { IsProcess (script_of script.now) print }
    ensures { OnOk result (Adds out.old out.new (printed_line (named (script_of script.now)) print found.now.printed found.now.visited)) }
{
    out.push_str(word_of(&found.printed))?;
    push_name(out, script, print.process)?;
    out.push_str(" ")?;
    push_atom(out, script, print.value)?;
    let visited = found.visited;
    write!(out, " states {visited}")?;
    out.push_str(end_of(&found.printed))
}

/// The run to where it has.
fn printed_run<'a>(printed: &'a Printed) -> Option<&'a [Commit]>
    ensures { option_copied result ≡ printed_run printed.now }
{
    match printed {
        Printed::Behind(journal) => Some(journal.as_slice()),
        Printed::Never | Printed::Unknown => None,
    }
}

fn printed_finding(printed: &Printed) -> Finding
    ensures { result ≡ printed_finding printed.now }
{
    match printed {
        Printed::Behind(_) => Finding::Stuck,
        Printed::Never => Finding::Clear,
        Printed::Unknown => Finding::Open,
    }
}

/// The graver of two findings.
fn graver(first: Finding, other: Finding) -> Finding
    ensures { result ≡ graver first other }
{
    match (first, other) {
        (Finding::Clear, other) => other,
        (Finding::Open, Finding::Clear) => Finding::Open,
        (Finding::Open, other) => other,
        (Finding::Stranded, _) => Finding::Stranded,
        (Finding::Stuck, _) => Finding::Stuck,
    }
}

/// Whether the script's process prints the value.
fn found_printed<W: Watch>(
    alloc: Global,
    script: &Script,
    limit: usize,
    print: Print,
    watch: &mut W,
) -> Result<AllPrinted, AllocError>
    requires limit { 1 ≤ limit }
    requires most { limit ≤ most_rows }
    requires process { IsProcess (script_of script.now) print }
    ensures found { IfOk result (IsPrinted (script_of script.now) limit print) }
    ensures lines { IfOk result (λ found. IfSome (printed_run found.printed) (AllByRecursion (HasLine (names_of (script_of script.now))))) }
{
    let (process, value) = (print.process, print.value);
    let found = find_printed(alloc, script.processes(), limit, process, value, watch)?;
    Ok(found)
}

/// Whether the process prints the value in runs of any length, whether they end or not, as far as at most `limit` states
/// show it, with the journal that leads there.
pub fn printed_text<W: Watch>(
    alloc: Global,
    script: &Script,
    limit: usize,
    print: Print,
    watch: &mut W,
) -> Result<SoughtText, AllocError>
    requires limit { 1 ≤ limit }
    requires most { limit ≤ most_rows }
    requires process { IsProcess (script_of script.now) print }
    ensures { IfOk result (TellsPrinted (script_of script.now) limit print) }
{
    let found = found_printed(alloc, script, limit, print, watch)?;
    let mut text = String::new(alloc);
    push_printed(&mut text, script, print, &found)?;
    let journal = journal_of(alloc, script, printed_run(&found.printed))?;
    Ok(SoughtText {
        text: text.into_bytes(),
        journal,
        finding: printed_finding(&found.printed),
    })
}

/// What was told, and behind it what is told of one more: its journal where none was kept, and the graver finding.
fn with_part(told: SoughtText, part: SoughtText) -> Result<SoughtText, AllocError>
    ensures { IfOk result (IsWithPart told part) }
{
    let mut text = told.text;
    text.extend_from_slice(&part.text)?;
    Ok(SoughtText {
        text,
        journal: told.journal.or(part.journal),
        finding: graver(told.finding, part.finding),
    })
}

/// Whether the processes print the values, each in turn: a line for each, and the journal that leads to the first that is
/// printed.
pub fn prints_text<W: Watch>(
    alloc: Global,
    script: &Script,
    limit: usize,
    prints: &[Print],
    watch: &mut W,
) -> Result<SoughtText, AllocError>
    requires limit { 1 ≤ limit }
    requires most { limit ≤ most_rows }
    requires processes { AllByRecursion (IsProcess (script_of script.now)) prints.now }
    ensures { IfOk result (TellsPrints (script_of script.now) limit prints.now) }
{
    let mut told = SoughtText {
        text: Vec::new(alloc),
        journal: None,
        finding: Finding::Clear,
    };
    for print in prints {
        let part = printed_text(alloc, script, limit, *print, watch)?;
        told = with_part(told, part)?;
    }
    Ok(told)
}
