//! What is drawn for a commit.

ghost use Rattle.std.specs.Prelude.{◌≡◌, ◌<◌, ◌≤◌, ◌^◌, OnOk, length};
ghost use Rattle.journal_replay.specs.Replays.{ended_by, fired_by};
ghost use Rattle.pcml_chart_layout.specs.Laid.{laid};
ghost use Rattle.pcml_chart.specs.Drawn.{stamps_of};
ghost use Rattle.pcml_chart.specs.Marks.{arrow, beside_mark, cause_line, dashes, dashes_to, dot, end_line, figure, height_of, nack_line, place_of};
ghost use Rattle.script.specs.Appending.{Adds};

use crate::text::{push_beginning, push_label, push_text_end};
use journal_replay::{State, takes_part};
use pcml_chart_layout::{Layout, height};
use protocol_values::{Cause, Commit, NackName};
use std::alloc::AllocError;

/// The top of the lines of life.
const TOP: u64 = 52;

#[tactic(auto, unfolding(crate::specs::Marks::arrow))]
fn push_arrow(out: &mut String, x: u64, other: u64, y: u64) -> Result<(), AllocError>
    ensures { OnOk result (Adds out.old out.new (arrow x other y)) }
{
    write!(out, "<path class='a' d='M{x} {y}H{other}'/>\n")
}

fn push_dot(out: &mut String, x: u64, y: u64) -> Result<(), AllocError>
    ensures { OnOk result (Adds out.old out.new (dot x y)) }
{
    write!(out, "<circle r='4' cx='{x}' cy='{y}'/>\n")
}

fn push_dashes(out: &mut String, x: u64, y: u64, other: u64, low: u64) -> Result<(), AllocError>
    ensures { OnOk result (Adds out.old out.new (dashes x y other low)) }
{
    write!(out, "<path class='n' d='M{x} {y}L{other} {low}'/>\n")
}

/// The place of the commit of this stamp in which the thread takes part.
fn place_of(commits: &[Commit], thread: u8, stamp: u32) -> Option<usize>
    ensures { result ≡ place_of commits.now thread stamp }
{
    commits.iter().position(|commit| commit.order().0 == stamp && takes_part(thread, commit))
}

/// The height of that commit, or the top where none is shown.
fn height_of(commits: &[Commit], thread: u8, stamp: u32) -> u64
    requires { length commits.now ≤ 1250 }
    ensures { result ≡ height_of commits.now thread stamp }
{
    match place_of(commits, thread, stamp) {
        Some(place) => height(place),
        None => TOP,
    }
}

/// The dashed line from a height on the line of one thread to a mark on that of the other.
fn push_dashes_to(
    out: &mut String,
    layout: &Layout<'_>,
    thread: u8,
    high: u64,
    at: u8,
    y: u64,
) -> Result<(), AllocError>
    ensures { OnOk result (Adds out.old out.new (dashes_to (laid layout.now) thread high at y)) }
{
    if layout.is_own(usize::from(thread)) || layout.is_own(usize::from(at)) {
        push_dashes(out, layout.line_of(thread), high, layout.line_of(at), y)
    } else {
        Ok(())
    }
}

/// The dashed line to a commit alone by the nack, from where the nack was enabled.
fn push_nack_line(
    out: &mut String,
    state: &State,
    layout: &Layout<'_>,
    commits: &[Commit],
    nack: NackName,
    at: u8,
    y: u64,
) -> Result<(), AllocError>
    requires { length commits.now ≤ 1250 }
    ensures { OnOk result (Adds out.old out.new (nack_line (laid layout.now) commits.now nack (fired_by state.now nack) at y)) }
{
    match state.fired(nack) {
        Some(stamp) => {
            let high = height_of(commits, nack.thread, stamp);
            push_dashes_to(out, layout, nack.thread, high, at, y)
        }
        None => Ok(()),
    }
}

/// The dashed line to a commit alone by the end of a thread, from the last commit that counts for that end.
fn push_end_line(
    out: &mut String,
    state: &State,
    layout: &Layout<'_>,
    commits: &[Commit],
    thread: u8,
    at: u8,
    y: u64,
) -> Result<(), AllocError>
    requires { length commits.now ≤ 1250 }
    ensures { OnOk result (Adds out.old out.new (end_line (laid layout.now) commits.now thread (ended_by state.now thread) at y)) }
{
    match state.ended(thread) {
        Some(stamp) => {
            if stamp == 0 {
                return Ok(());
            }
            let high = height_of(commits, thread, stamp);
            push_dashes_to(out, layout, thread, high, at, y)
        }
        None => Ok(()),
    }
}

fn push_cause_line(
    out: &mut String,
    state: &State,
    layout: &Layout<'_>,
    commits: &[Commit],
    cause: Cause,
    at: u8,
    y: u64,
) -> Result<(), AllocError>
    requires { length commits.now ≤ 1250 }
    ensures { OnOk result (Adds out.old out.new (cause_line (stamps_of state.now) (laid layout.now) commits.now cause at y)) }
{
    match cause {
        Cause::Always(_) => Ok(()),
        Cause::Nack(nack) => push_nack_line(out, state, layout, commits, nack, at, y),
        Cause::End(thread) => push_end_line(out, state, layout, commits, thread, at, y),
    }
}

/// An arrow, or a dot with the dashed line of its cause.
pub(crate) fn push_figure(
    out: &mut String,
    state: &State,
    layout: &Layout<'_>,
    commits: &[Commit],
    y: u64,
    commit: &Commit,
) -> Result<(), AllocError>
    requires { length commits.now ≤ 1250 }
    ensures { OnOk result (Adds out.old out.new (figure (stamps_of state.now) (laid layout.now) commits.now y commit.now)) }
{
    match *commit {
        Commit::Pair {
            sender,
            receiver,
            ..
        } => {
            let (one, other) = (sender.0.thread, receiver.0.thread);
            let x = layout.line_of(one);
            if layout.column(one) == layout.column(other) {
                push_dot(out, x, y)
            } else {
                push_arrow(out, x, layout.line_of(other), y)
            }
        }
        Commit::Alone { at, cause, .. } => {
            push_cause_line(out, state, layout, commits, cause, at.0.thread, y)?;
            push_dot(out, layout.line_of(at.0.thread), y)
        }
    }
}

/// The text beside it.
pub(crate) fn push_beside(
    out: &mut String,
    layout: &Layout<'_>,
    y: u64,
    commit: &Commit,
    text: &str,
) -> Result<(), AllocError>
    requires low { 5 ≤ y }
    requires high { y < 2 ^ 60 }
    ensures { OnOk result (Adds out.old out.new (beside_mark (laid layout.now) y commit.now text.now)) }
{
    push_beginning(out, layout.spot_of(commit), y)?;
    push_label(out, text)?;
    push_text_end(out)
}
