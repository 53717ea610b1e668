//! Who may be stranded: whether it is looked for, the lines, and what that says.

ghost use Rattle.std.specs.Prelude.{◌≡◌, ◌<◌, ◌≤◌, IfOk, OnOk, length};
ghost use Rattle.std.specs.Option.{option_copied};
ghost use Rattle.protocol_values.specs.Commits.{most_rows};
ghost use Rattle.script.specs.Appending.{Adds};
ghost use Rattle.script.specs.Scripts.{script_of};
ghost use Rattle.journal_text.specs.Names.{named};
ghost use Rattle.pcml_outcomes.specs.Stranding.{AreLost, AreTold, HaveRuns, asks_who_waits, is_told, is_unlooked, judged, line_told, lines_of, looks_on, nearer, needed_line, nobody, soonest, soonest_in, sooner, sought, told_lines};

use crate::finding::Finding;
use outcomes::{Asked, Ending, Extent, Outcomes, Told, Watch};
use pcml_answers::push_name;
use reachable::{AllStranded, Stranded, find_stranded};
use script::Script;
use std::alloc::{AllocError, Global};

/// Whether it is looked for who is stranded, where the outcomes say this.
pub(crate) fn looks_on(rows: Option<u32>, told: &Told, found: &Outcomes, first: Finding) -> bool
    ensures { result ≡ looks_on rows told.now found.now.extent found.now.ending first }
{
    match (rows, told, found.extent, &found.ending, first) {
        (None, _, Extent::Whole, Ending::ForEver(_), _) => true,
        (None, Told::Lacking(_), Extent::Cut, _, Finding::Open) => true,
        _ => false,
    }
}

fn asks_who_waits(told: &Told) -> bool
    ensures { result ≡ asks_who_waits told.now }
{
    matches!(told, Told::Waiting)
}

/// Of whom it is looked for.
fn sought(asked: &Asked) -> &[bool]
    ensures { result.now ≡ sought asked.now.told asked.now.named.items }
{
    match &asked.told {
        Told::Lacking(needed) => needed,
        Told::Each | Told::Waiting => &asked.named,
    }
}

/// Who of the script's processes may be stranded.
pub(crate) fn found_stranded<W: Watch>(
    alloc: Global,
    script: &Script,
    limit: usize,
    asked: &Asked,
    watch: &mut W,
) -> Result<AllStranded, AllocError>
    requires limit { 1 ≤ limit }
    requires most { limit ≤ most_rows }
    requires marks { length (sought asked.now.told asked.now.named.items) ≡ length (script_of script.now).processes }
    ensures lost { IfOk result (AreLost (script_of script.now) limit asked.now) }
    ensures told { IfOk result (λ all. AreTold (script_of script.now) all.stranded.items) }
    ensures runs { IfOk result (λ all. HaveRuns (script_of script.now) all.stranded.items) }
{
    let waits = asks_who_waits(&asked.told);
    let found = find_stranded(
        alloc,
        script.processes(),
        limit,
        sought(asked),
        waits,
        watch,
    )?;
    Ok(found)
}

/// Whether it is told: the run goes on there, or no outcome is told.
fn is_told(one: &Stranded, is_alone: bool) -> bool
    ensures { result ≡ is_told is_alone one.now }
{
    one.goes_on || is_alone
}

/// The one, or the other where its run is shorter.
fn nearer<'a>(one: &'a Stranded, other: Option<&'a Stranded>) -> Option<&'a Stranded>
    ensures { option_copied result ≡ nearer one.now (option_copied other.entry) }
{
    match other {
        Some(other) if other.journal.len() < one.journal.len() => Some(other),
        Some(_) | None => Some(one),
    }
}

/// The same, where the one is told.
fn sooner<'a>(
    one: &'a Stranded,
    is_alone: bool,
    other: Option<&'a Stranded>,
) -> Option<&'a Stranded>
    ensures { option_copied result ≡ sooner is_alone one.now (option_copied other.entry) }
{
    if is_told(one, is_alone) {
        nearer(one, other)
    } else {
        other
    }
}

/// Of those that are told the one whose run is the shortest.
fn soonest<'a>(stranded: &'a [Stranded], is_alone: bool) -> Option<&'a Stranded>
    ensures { option_copied result ≡ soonest is_alone stranded.now }
{
    let mut first = None;
    let mut at = stranded.len();
    while at > 0 {
        at -= 1;
        first = sooner(&stranded[at], is_alone, first);
    }
    first
}

pub(crate) fn soonest_in<'a>(all: Option<&'a AllStranded>, is_alone: bool) -> Option<&'a Stranded>
    ensures { option_copied result ≡ soonest_in is_alone (option_copied all.entry) }
{
    match all {
        Some(all) => soonest(&all.stranded, is_alone),
        None => None,
    }
}

/// Appends the line of one, where it is told.
fn push_told(
    out: &mut String,
    script: &Script,
    one: &Stranded,
    is_alone: bool,
) -> Result<(), AllocError>
    requires { one.now.process < length (script_of script.now).processes }
    ensures { OnOk result (Adds out.old out.new (line_told (named (script_of script.now)) is_alone one.now)) }
{
    if !is_told(one, is_alone) {
        return Ok(());
    }
    out.push_str("stranded ")?;
    push_name(out, script, one.process)?;
    let commits = one.journal.len();
    write!(out, " after {commits} commits\n")
}

/// Appends a line for each that is told.
fn push_each(
    out: &mut String,
    script: &Script,
    stranded: &[Stranded],
    is_alone: bool,
) -> Result<(), AllocError>
    requires { AreTold (script_of script.now) stranded.now }
    ensures { OnOk result (Adds out.old out.new (told_lines (named (script_of script.now)) is_alone stranded.now)) }
{
    for index in 0..stranded.len() {
        push_told(out, script, &stranded[index], is_alone)?;
    }
    Ok(())
}

/// Appends the line of the soonest of those that have to end, where there is one.
fn push_needed(
    out: &mut String,
    script: &Script,
    all: &AllStranded,
    is_alone: bool,
) -> Result<(), AllocError>
    requires { AreTold (script_of script.now) all.now.stranded.items }
    ensures { OnOk result (Adds out.old out.new (needed_line (named (script_of script.now)) all.now.visited (soonest is_alone all.now.stranded.items))) }
{
    let Some(one) = soonest(&all.stranded, is_alone) else {
        return Ok(());
    };
    let visited = all.visited;
    out.push_str("stranded ")?;
    push_name(out, script, one.process)?;
    write!(out, " states {visited}\n")
}

/// Appends the lines of those that may be stranded, where no outcome is told or some are.
pub(crate) fn push_stranded(
    out: &mut String,
    script: &Script,
    told: &Told,
    is_alone: bool,
    all: &AllStranded,
) -> Result<(), AllocError>
    requires { AreTold (script_of script.now) all.now.stranded.items }
    ensures { OnOk result (Adds out.old out.new (lines_of (named (script_of script.now)) told.now is_alone all.now)) }
{
    match told {
        Told::Lacking(_) => push_needed(out, script, all, is_alone),
        Told::Each | Told::Waiting => push_each(out, script, &all.stranded, is_alone),
    }
}

fn nobody(all: &AllStranded) -> bool
    ensures { result ≡ nobody all.now }
{
    all.stranded.is_empty()
}

/// What the outcomes and those that may be stranded say together.
pub(crate) fn judged(told: &Told, first: Finding, all: Option<&AllStranded>) -> Finding
    ensures { result ≡ judged told.now first (option_copied all.entry) }
{
    let Some(all) = all else {
        return first;
    };
    match (first, told) {
        (Finding::Stuck, _) => Finding::Stuck,
        (_, Told::Each) => first,
        (_, Told::Waiting) if all.is_whole && nobody(all) => first,
        (_, Told::Waiting) => Finding::Open,
        (_, Told::Lacking(_)) if !nobody(all) => Finding::Stranded,
        (_, Told::Lacking(_)) if all.is_whole => Finding::Clear,
        (_, Told::Lacking(_)) => Finding::Open,
    }
}

/// Whether not all was seen where it was looked for.
pub(crate) fn is_unlooked(all: Option<&AllStranded>) -> bool
    ensures { result ≡ is_unlooked (option_copied all.entry) }
{
    match all {
        Some(all) => !all.is_whole,
        None => false,
    }
}
