//! How wide the gaps between the lines of life are: as the labels in them need.

ghost use Rattle.std.specs.Prelude.{◌≡◌, ◌<◌, ◌≤◌, ◌+◌, IfOk, OnOk, get_or, length, map};
ghost use Rattle.std.specs.Fmt.{decimal};
ghost use Rattle.std.specs.String.{string_bytes};
ghost use Rattle.script.specs.Scripts.{script_of};
ghost use Rattle.journal_text.specs.Names.{named};
ghost use Rattle.pcml_chart_layout.specs.Labels.{label_text};
ghost use Rattle.pcml_chart_layout.specs.Places.{owners};
ghost use Rattle.pcml_chart_layout.specs.Widths.{Lists, Raises, commit_length, gap_widths, if_at, longest_in, longest_round, name_and_foot_length, others_length, page_width, process_length, room};

use crate::columns::Columns;
use crate::foot::{Foot, foot_length};
use crate::label::{gap_of, label_text};
use crate::lines::Lines;
use crate::name::thread_name;
use crate::seen::seen_length;
use protocol_values::Commit;
use script::Script;
use std::alloc::{AllocError, Global};

/// At the place stands the greater of both.
fn raise(lengths: &mut [u8], place: usize, long: u8)
    requires { place < length lengths.old }
    ensures { Raises (λ k. if_at k place long) lengths.old lengths.new }
{
    lengths[place] = lengths[place].max(long);
}

fn at(lengths: &[u8], place: usize) -> u8
    ensures { result ≡ get_or lengths.now place 0 }
{
    if place < lengths.len() {
        lengths[place]
    } else {
        0
    }
}

/// How many digits a number has.
fn digit_count(number: u32) -> u8
    ensures { result ≡ length (decimal number) }
{
    let mut count = 1;
    let mut rest = number;
    while 10 <= rest {
        rest /= 10;
        count += 1;
    }
    count
}

/// The label of a commit, with what it and the stamp have in the gaps.
fn raise_commit(
    alloc: Global,
    script: &Script,
    columns: &Columns<'_>,
    lengths: &mut [u8],
    commit: &Commit,
) -> Result<String, AllocError>
    requires { length lengths.old ≡ owners columns.now.own.now + 2 }
    ensures label { IfOk result (λ label. string_bytes label ≡ label_text (named (script_of script.now)) columns.now.own.now commit.now) }
    ensures raised { OnOk result (Raises (λ k. commit_length (named (script_of script.now)) columns.now.own.now k commit.now) lengths.old lengths.new) }
{
    let label = label_text(alloc, script, columns, commit)?;
    raise(lengths, 0, digit_count(commit.order().0));
    raise(lengths, gap_of(columns, commit), seen_length(&label));
    Ok(label)
}

/// The longest that stands in each gap, and the labels of the commits.
fn longest_in(
    alloc: Global,
    script: &Script,
    columns: &Columns<'_>,
    commits: &[Commit],
) -> Result<(Vec<u8>, Vec<String>), AllocError>
    ensures lengths { IfOk result (λ found. Lists (longest_in (named (script_of script.now)) columns.now.own.now commits.now) found.0.items) }
    ensures labels { IfOk result (λ found. map string_bytes found.1.items ≡ map (label_text (named (script_of script.now)) columns.now.own.now) commits.now) }
{
    let mut lengths = vec![in alloc; 0u8; columns.owners() + 2]?;
    let mut labels = Vec::with_capacity(alloc, commits.len())?;
    for commit in commits {
        labels.push(raise_commit(alloc, script, columns, &mut lengths, commit)?)?;
    }
    Ok((lengths, labels))
}

/// The longer one of the name and the foot of a process.
fn name_and_foot_length(
    alloc: Global,
    script: &Script,
    feet: &[Foot<'_>],
    thread: u8,
) -> Result<u8, AllocError>
    requires { thread < length feet.now }
    ensures { IfOk result (λ long. long ≡ name_and_foot_length (named (script_of script.now)) feet.now thread) }
{
    let name = thread_name(alloc, script, thread)?;
    let foot = foot_length(alloc, script, &feet[usize::from(thread)])?;
    Ok(seen_length(&name).max(foot))
}

/// What a process has round the lines.
fn raise_process(
    alloc: Global,
    script: &Script,
    columns: &Columns<'_>,
    feet: &[Foot<'_>],
    lengths: &mut [u8],
    thread: u8,
) -> Result<(), AllocError>
    requires there { thread < length feet.now }
    requires long { length lengths.old ≡ owners columns.now.own.now + 2 }
    ensures { OnOk result (Raises (λ k. process_length (named (script_of script.now)) columns.now.own.now feet.now k thread) lengths.old lengths.new) }
{
    if !columns.is_own(usize::from(thread)) {
        return Ok(());
    }
    let long = name_and_foot_length(alloc, script, feet, thread)?;
    raise(lengths, columns.of(thread), long);
    Ok(())
}

/// What the others have round theirs.
fn raise_others(columns: &Columns<'_>, lengths: &mut [u8])
    requires { length lengths.old ≡ owners columns.now.own.now + 2 }
    ensures { Raises (others_length columns.now.own.now) lengths.old lengths.new }
{
    if columns.has_others() {
        raise(lengths, columns.others(), 6);
    }
}

/// The longest that stands round the line of each column.
fn longest_round(
    alloc: Global,
    script: &Script,
    columns: &Columns<'_>,
    feet: &[Foot<'_>],
) -> Result<Vec<u8>, AllocError>
    requires { length feet.now ≡ length columns.now.own.now }
    ensures { IfOk result (λ lengths. Lists (longest_round (named (script_of script.now)) columns.now.own.now feet.now) lengths.items) }
{
    let mut lengths = vec![in alloc; 0u8; columns.owners() + 2]?;
    for thread in 0..columns.processes() {
        raise_process(alloc, script, columns, feet, &mut lengths, thread as u8)?;
    }
    raise_others(columns, &mut lengths);
    Ok(lengths)
}

/// What a gap needs with labels so long in it, between lines with texts so long round them.
fn room(label: u8, left: u8, right: u8) -> u16
    ensures { result ≡ room label left right }
{
    let labels = 8 * u16::from(label) + 18;
    let names = 4 * (u16::from(left) + u16::from(right)) + 16;
    labels.max(names).max(40)
}

/// The widths of the gaps, beside each column and one more to the right; and the labels of the commits.
pub(crate) fn gaps_and_labels(
    alloc: Global,
    script: &Script,
    columns: &Columns<'_>,
    feet: &[Foot<'_>],
    commits: &[Commit],
) -> Result<(Vec<u16>, Vec<String>), AllocError>
    requires { length feet.now ≡ length columns.now.own.now }
    ensures gaps { IfOk result (λ found. found.0.items ≡ gap_widths (named (script_of script.now)) columns.now.own.now feet.now commits.now) }
    ensures labels { IfOk result (λ found. map string_bytes found.1.items ≡ map (label_text (named (script_of script.now)) columns.now.own.now) commits.now) }
{
    let (within, labels) = longest_in(alloc, script, columns, commits)?;
    let round = longest_round(alloc, script, columns, feet)?;
    let count = columns.owners() + 2;
    let mut gaps = Vec::with_capacity(alloc, count)?;
    for place in 0..count {
        gaps.push(room(at(&within, place), at(&round, place), at(&round, place + 1)))?;
    }
    Ok((gaps, labels))
}

/// The right border of the page, or what a heading so long needs.
pub(crate) fn page_width(columns: &Columns<'_>, lines: &Lines, heading: usize) -> u64
    ensures { result ≡ page_width columns.now.own.now lines.now.gaps.items heading }
{
    let text = 8 * heading.min(107) as u64 + 16;
    lines.at(columns.count() + 1).max(text)
}
