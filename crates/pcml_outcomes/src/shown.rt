//! Which outcomes are told, and their lines.

ghost use Rattle.std.specs.Prelude.{◌≡◌, ◌+◌, ◌<◌, IfOk, OnOk, length};
ghost use Rattle.std.specs.Fmt.{decimal};
ghost use Rattle.std.specs.List.{flat_map};
ghost use Rattle.std.specs.String.{string_bytes};
ghost use Rattle.script.specs.Appending.{Adds};
ghost use Rattle.script.specs.Scripts.{script_of};
ghost use Rattle.journal_text.specs.Names.{named};
ghost use Rattle.outcomes.specs.Asking.{is_told, marked};
ghost use Rattle.outcomes.specs.Outcomes.{ends_in, outputs_in};
ghost use Rattle.pcml_answers.specs.Standings.{process_lines};
ghost use Rattle.pcml_outcomes.specs.Told.{AreOf, IsOf, extent_text, is_shown, last_line, outcome_line, outcome_text, seen_word, shown, standings};

use crate::ending::{push_ending, told_ending};
use outcomes::{Asked, Extent, Outcome, Outcomes};
use pcml_answers::push_process;
use script::Script;
use std::alloc::{AllocError, Global};

/// Whether the outcome is told.
pub(crate) fn is_shown(outcome: &Outcome, asked: &Asked) -> bool
    ensures { result ≡ is_shown asked.now outcome.now }
{
    asked.is_told(&outcome.ends)
}

/// How many outcomes are told.
pub(crate) fn count_shown(outcomes: &[Outcome], asked: &Asked) -> usize
    ensures { result ≡ length (shown asked.now outcomes.now) }
{
    let mut count = 0;
    for index in 0..outcomes.len() {
        if is_shown(&outcomes[index], asked) {
            count += 1;
        }
    }
    count
}

fn push_outcome_line(out: &mut String, number: usize) -> Result<(), AllocError>
    ensures { OnOk result (Adds out.old out.new (outcome_line number)) }
{
    write!(out, "outcome {number}\n")
}

/// Appends a line for each process that is named.
fn push_named(
    out: &mut String,
    script: &Script,
    marks: &[bool],
    outcome: &Outcome,
) -> Result<(), AllocError>
    requires of { IsOf (script_of script.now) outcome.now }
    requires marks { length marks.now ≡ length (script_of script.now).processes }
    ensures { OnOk result (Adds out.old out.new (process_lines (named (script_of script.now)) (marked marks.now (standings (ends_in outcome.now) (outputs_in outcome.now))))) }
{
    for thread in 0..outcome.ends.len() {
        if marks[thread] {
            let printed = outcome.outputs[thread].as_slice();
            push_process(out, script, thread, outcome.ends[thread], printed)?;
        }
    }
    Ok(())
}

/// Appends the number of the outcome, and a line for each process that is named.
fn push_outcome(
    out: &mut String,
    script: &Script,
    marks: &[bool],
    number: usize,
    outcome: &Outcome,
) -> Result<(), AllocError>
    requires of { IsOf (script_of script.now) outcome.now }
    requires marks { length marks.now ≡ length (script_of script.now).processes }
    ensures { OnOk result (Adds out.old out.new (outcome_text (named (script_of script.now)) marks.now (number, outcome.now))) }
{
    push_outcome_line(out, number)?;
    push_named(out, script, marks, outcome)
}

/// The lines of the outcomes that are told.
pub(crate) fn shown_lines(
    alloc: Global,
    script: &Script,
    outcomes: &[Outcome],
    asked: &Asked,
) -> Result<String, AllocError>
    requires of { AreOf (script_of script.now) outcomes.now }
    requires marks { length asked.now.named.items ≡ length (script_of script.now).processes }
    ensures { IfOk result (λ lines. string_bytes lines ≡ flat_map (outcome_text (named (script_of script.now)) asked.now.named.items) (shown asked.now outcomes.now)) }
{
    let mut lines = String::new(alloc);
    for index in 0..outcomes.len() {
        let outcome = &outcomes[index];
        if is_shown(outcome, asked) {
            push_outcome(&mut lines, script, &asked.named, index + 1, outcome)?;
        }
    }
    Ok(lines)
}

/// What was counted: configurations, or the states of runs of any length, all or those that were followed.
fn seen_word(rows: Option<u32>, followed: bool) -> &'static str
    ensures { result.now ≡ seen_word rows followed }
{
    match rows {
        Some(_) => "configurations",
        None if followed => "states followed",
        None => "states",
    }
}

/// Appends whether that is all there is, and within how many syncs a process where some had none left.
fn push_extent(
    out: &mut String,
    rows: Option<u32>,
    extent: Extent,
    bounded: bool,
) -> Result<(), AllocError>
    ensures { OnOk result (Adds out.old out.new (extent_text rows extent bounded)) }
{
    match (extent, rows) {
        (Extent::First, _) => out.push_str("first"),
        (Extent::Cut, _) => out.push_str("cut"),
        (Extent::Whole, Some(rows)) if bounded => write!(out, "all within {rows} syncs"),
        (Extent::Whole, _) => out.push_str("all"),
    }
}

/// Appends how many outcomes are told, how many configurations or states were seen, whether that is all, and how runs
/// end.
pub(crate) fn push_last_line(
    out: &mut String,
    rows: Option<u32>,
    told: usize,
    found: &Outcomes,
) -> Result<(), AllocError>
    ensures { OnOk result (Adds out.old out.new (last_line rows told found.now)) }
{
    let visited = found.visited;
    let seen = seen_word(rows, found.followed);
    write!(out, "outcomes {told} {seen} {visited} ")?;
    push_extent(out, rows, found.extent, found.is_bounded)?;
    push_ending(out, told_ending(rows, found))?;
    out.push_str("\n")
}
