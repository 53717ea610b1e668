//! The rows of a chart, one for each commit that is shown.

ghost use Rattle.std.specs.Prelude.{◌≡◌, ◌<◌, ◌≤◌, ◌^◌, OnOk, length};
ghost use Rattle.pcml_chart_layout.specs.Laid.{AreLabels, laid, written};
ghost use Rattle.pcml_chart.specs.Chart.{marks};
ghost use Rattle.pcml_chart.specs.Drawn.{stamps_of};
ghost use Rattle.pcml_chart.specs.Rows.{border, border_above, is_first, row, stamp_at, stamp_mark, stamp_text};
ghost use Rattle.journal_text.specs.Names.{Naming};
ghost use Rattle.script.specs.Appending.{Adds};

use crate::mark::{push_beside, push_figure};
use crate::text::{push_beginning, push_text_end};
use journal_replay::State;
use pcml_chart_layout::{Layout, Spot, height};
use protocol_values::Commit;
use std::alloc::AllocError;

fn stamp_at(commits: &[Commit], place: usize) -> u32
    requires { place < length commits.now }
    ensures { result ≡ stamp_at commits.now place }
{
    commits[place].order().0
}

/// Whether the commit at the place is the first of its stamp.
fn is_first(commits: &[Commit], place: usize) -> bool
    requires { place < length commits.now }
    ensures { result ≡ is_first commits.now place }
{
    place == 0 || stamp_at(commits, place - 1) != stamp_at(commits, place)
}

/// A line across the page.
fn push_border(out: &mut String, width: u64, y: u64) -> Result<(), AllocError>
    ensures { OnOk result (Adds out.old out.new (border width y)) }
{
    write!(out, "<path class='t' d='M0 {y}H{width}'/>\n")
}

/// The border between a stamp and the one before.
fn push_border_above(out: &mut String, width: u64, place: usize) -> Result<(), AllocError>
    requires { place ≤ 1250 }
    ensures { OnOk result (Adds out.old out.new (border_above width place)) }
{
    if place == 0 {
        return Ok(());
    }
    push_border(out, width, height(place) - 18)
}

/// The stamp at the left margin.
fn push_stamp(out: &mut String, y: u64, stamp: u32) -> Result<(), AllocError>
    requires low { 5 ≤ y }
    requires high { y < 2 ^ 60 }
    ensures { OnOk result (Adds out.old out.new (stamp_text y stamp)) }
{
    push_beginning(out, Spot::Behind(8), y)?;
    write!(out, "{stamp}")?;
    push_text_end(out)
}

/// The border and the stamp, at the first commit of each stamp.
fn push_stamp_mark(
    out: &mut String,
    width: u64,
    commits: &[Commit],
    place: usize,
) -> Result<(), AllocError>
    requires few { length commits.now ≤ 1250 }
    requires place { place < length commits.now }
    ensures { OnOk result (Adds out.old out.new (stamp_mark width commits.now place)) }
{
    if !is_first(commits, place) {
        return Ok(());
    }
    push_border_above(out, width, place)?;
    push_stamp(out, height(place), stamp_at(commits, place))
}

fn push_row(
    out: &mut String,
    state: &State,
    layout: &Layout<'_>,
    commits: &[Commit],
    place: usize,
) -> Result<(), AllocError>
    requires few { length commits.now ≤ 1250 }
    requires place { place < length commits.now }
    requires labels { length (written layout.now) ≡ length commits.now }
    ensures { (names : Naming) → AreLabels names (laid layout.now).own commits.now (written layout.now) → OnOk result (Adds out.old out.new (row names (stamps_of state.now) (laid layout.now) commits.now place)) }
{
    let y = height(place);
    let commit = &commits[place];
    push_stamp_mark(out, layout.width(), commits, place)?;
    push_figure(out, state, layout, commits, y, commit)?;
    push_beside(out, layout, y, commit, layout.label(place))
}

/// A row for each of the commits of the layout, in their order.
pub(crate) fn push_rows(
    out: &mut String,
    state: &State,
    layout: &Layout<'_>,
    commits: &[Commit],
) -> Result<(), AllocError>
    requires few { length commits.now ≤ 1250 }
    requires labels { length (written layout.now) ≡ length commits.now }
    ensures { (names : Naming) → AreLabels names (laid layout.now).own commits.now (written layout.now) → OnOk result (Adds out.old out.new (marks names (stamps_of state.now) (laid layout.now) commits.now)) }
{
    for place in 0..commits.len() {
        push_row(out, state, layout, commits, place)?;
    }
    Ok(())
}
