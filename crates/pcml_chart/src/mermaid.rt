//! The chart as the text of a Mermaid sequence diagram, which GitHub and others draw.

ghost use Rattle.std.specs.Prelude.{◌≡◌, ◌++◌, ◌<◌, ◌≤◌, IfOk, OnOk, length, nat_le};
ghost use Rattle.std.specs.List.{flat_map};
ghost use Rattle.script.specs.Scripts.{script_of};
ghost use Rattle.journal_replay.specs.Replays.{thread_count};
ghost use Rattle.journal_text.specs.Names.{named};
ghost use Rattle.pcml_chart_layout.specs.Laid.{own_of};
ghost use Rattle.pcml_chart.specs.Chart.{each_below};
ghost use Rattle.pcml_chart.specs.Mermaid.{IsMermaid, arrow, beginning, column_start, commit_line, diagram, escape, escaped, foot_note, foot_of, note, offer_line, others, participant, participant_of, participants, title};

use crate::frame::heading_text;
use crate::range::{greatest, range_end, shown};
use journal_replay::State;
use pcml_chart_layout::{
    Columns, Foot, feet_of, label_text, offer_text, offers_of, stand_text, thread_name,
};
use protocol_values::{Commit, Offer};
use script::Script;
use std::alloc::{AllocError, Global};

/// What Mermaid would read as its own stands there by its number.
fn push_escape(out: &mut Vec<u8>, byte: u8) -> Result<(), AllocError>
    ensures { OnOk result (out.new.items ≡ out.old.items ++ escape byte) }
{
    match byte {
        b'#' => out.extend_from_slice(b"#35;"),
        b':' => out.extend_from_slice(b"#58;"),
        _ => out.extend_from_slice(&[byte]),
    }
}

fn push_escaped(out: &mut Vec<u8>, text: &[u8]) -> Result<(), AllocError>
    ensures { OnOk result (out.new.items ≡ out.old.items ++ escaped text.now) }
{
    for byte in text {
        push_escape(out, *byte)?;
    }
    Ok(())
}

#[tactic(auto, unfolding(crate::specs::Mermaid::title))]
fn push_title(alloc: Global, out: &mut Vec<u8>, words: &str) -> Result<(), AllocError>
    ensures { OnOk result (out.new.items ≡ out.old.items ++ title words.now) }
{
    let line = format!(in alloc; "sequenceDiagram\n  title {words}\n")?;
    out.extend_from_slice(line.as_bytes())
}

#[tactic(auto, unfolding(crate::specs::Mermaid::column_start))]
fn push_column_start(alloc: Global, out: &mut Vec<u8>, place: usize) -> Result<(), AllocError>
    ensures { OnOk result (out.new.items ≡ out.old.items ++ column_start place) }
{
    let head = format!(in alloc; "  participant P{place} as ")?;
    out.extend_from_slice(head.as_bytes())
}

/// A column and what it is called.
fn push_participant(
    alloc: Global,
    out: &mut Vec<u8>,
    place: usize,
    name: &str,
) -> Result<(), AllocError>
    ensures { OnOk result (out.new.items ≡ out.old.items ++ participant place name.now) }
{
    push_column_start(alloc, out, place)?;
    out.extend_from_slice(name.as_bytes())?;
    out.extend_from_slice(b"\n")
}

/// That of a process with a column of its own.
fn push_participant_of(
    alloc: Global,
    out: &mut Vec<u8>,
    script: &Script,
    columns: &Columns<'_>,
    thread: u8,
) -> Result<(), AllocError>
    ensures { OnOk result (out.new.items ≡ out.old.items ++ participant_of (named (script_of script.now)) (own_of columns.now) thread) }
{
    if !columns.is_own(usize::from(thread)) {
        return Ok(());
    }
    let name = thread_name(alloc, script, thread)?;
    push_participant(alloc, out, columns.of(thread), &name)
}

/// That of the others.
fn push_others(alloc: Global, out: &mut Vec<u8>, columns: &Columns<'_>) -> Result<(), AllocError>
    ensures { OnOk result (out.new.items ≡ out.old.items ++ others (own_of columns.now)) }
{
    if !columns.has_others() {
        return Ok(());
    }
    push_participant(alloc, out, columns.others(), "others")
}

fn push_participants(
    alloc: Global,
    out: &mut Vec<u8>,
    script: &Script,
    columns: &Columns<'_>,
) -> Result<(), AllocError>
    ensures { OnOk result (out.new.items ≡ out.old.items ++ participants (named (script_of script.now)) (own_of columns.now)) }
{
    for thread in 0..columns.processes() {
        push_participant_of(alloc, out, script, columns, thread as u8)?;
    }
    push_others(alloc, out, columns)
}

/// Begins a note at a column.
#[tactic(auto, unfolding(crate::specs::Mermaid::note))]
fn push_note(alloc: Global, out: &mut Vec<u8>, place: usize) -> Result<(), AllocError>
    ensures { OnOk result (out.new.items ≡ out.old.items ++ note place) }
{
    let head = format!(in alloc; "  Note over P{place}: ")?;
    out.extend_from_slice(head.as_bytes())
}

/// Begins an arrow from a column to another.
#[tactic(auto, unfolding(crate::specs::Mermaid::arrow))]
fn push_arrow(
    alloc: Global,
    out: &mut Vec<u8>,
    place: usize,
    other: usize,
) -> Result<(), AllocError>
    ensures { OnOk result (out.new.items ≡ out.old.items ++ arrow place other) }
{
    let head = format!(in alloc; "  P{place}->>P{other}: ")?;
    out.extend_from_slice(head.as_bytes())
}

fn push_beginning(
    alloc: Global,
    out: &mut Vec<u8>,
    columns: &Columns<'_>,
    commit: &Commit,
) -> Result<(), AllocError>
    ensures { OnOk result (out.new.items ≡ out.old.items ++ beginning (own_of columns.now) commit.now) }
{
    match commit {
        Commit::Pair {
            sender,
            receiver,
            ..
        } => {
            let place = columns.of(sender.0.thread);
            let other = columns.of(receiver.0.thread);
            if place == other {
                push_note(alloc, out, place)
            } else {
                push_arrow(alloc, out, place, other)
            }
        }
        Commit::Alone { at, .. } => push_note(alloc, out, columns.of(at.0.thread)),
    }
}

/// An arrow with the channel and the message, or a note with the cause.
fn push_commit(
    alloc: Global,
    out: &mut Vec<u8>,
    script: &Script,
    columns: &Columns<'_>,
    commit: &Commit,
) -> Result<(), AllocError>
    ensures { OnOk result (out.new.items ≡ out.old.items ++ commit_line (named (script_of script.now)) (own_of columns.now) commit.now) }
{
    let label = label_text(alloc, script, columns, commit)?;
    push_beginning(alloc, out, columns, commit)?;
    push_escaped(out, label.as_bytes())?;
    out.extend_from_slice(b"\n")
}

fn push_commits(
    alloc: Global,
    out: &mut Vec<u8>,
    script: &Script,
    columns: &Columns<'_>,
    commits: &[Commit],
) -> Result<(), AllocError>
    ensures { OnOk result (out.new.items ≡ out.old.items ++ flat_map (commit_line (named (script_of script.now)) (own_of columns.now)) commits.now) }
{
    for commit in commits {
        push_commit(alloc, out, script, columns, commit)?;
    }
    Ok(())
}

/// A line below, with what is offered.
fn push_offer_line(
    alloc: Global,
    out: &mut Vec<u8>,
    script: &Script,
    offer: &Offer,
) -> Result<(), AllocError>
    ensures { OnOk result (out.new.items ≡ out.old.items ++ offer_line (named (script_of script.now)) offer.now) }
{
    let text = offer_text(alloc, script, offer)?;
    out.extend_from_slice(b"<br/>")?;
    push_escaped(out, text.as_bytes())
}

fn push_offer_lines(
    alloc: Global,
    out: &mut Vec<u8>,
    script: &Script,
    offers: &[Offer],
) -> Result<(), AllocError>
    ensures { OnOk result (out.new.items ≡ out.old.items ++ flat_map (offer_line (named (script_of script.now))) offers.now) }
{
    for offer in offers {
        push_offer_line(alloc, out, script, offer)?;
    }
    Ok(())
}

/// How a process stands, as a note at its column.
fn push_foot_note(
    alloc: Global,
    out: &mut Vec<u8>,
    script: &Script,
    place: usize,
    foot: &Foot<'_>,
) -> Result<(), AllocError>
    ensures { OnOk result (out.new.items ≡ out.old.items ++ foot_note (named (script_of script.now)) place foot.now) }
{
    let stand = stand_text(alloc, script, foot)?;
    push_note(alloc, out, place)?;
    push_escaped(out, stand.as_bytes())?;
    push_offer_lines(alloc, out, script, offers_of(foot))?;
    out.extend_from_slice(b"\n")
}

fn push_foot(
    alloc: Global,
    out: &mut Vec<u8>,
    script: &Script,
    columns: &Columns<'_>,
    feet: &[Foot<'_>],
    thread: u8,
) -> Result<(), AllocError>
    requires { thread < length feet.now }
    ensures { OnOk result (out.new.items ≡ out.old.items ++ foot_of (named (script_of script.now)) (own_of columns.now) feet.now thread) }
{
    let place = usize::from(thread);
    if !columns.is_own(place) {
        return Ok(());
    }
    push_foot_note(alloc, out, script, columns.of(thread), &feet[place])
}

fn push_feet(
    alloc: Global,
    out: &mut Vec<u8>,
    script: &Script,
    columns: &Columns<'_>,
    feet: &[Foot<'_>],
) -> Result<(), AllocError>
    requires { length feet.now ≡ length (own_of columns.now) }
    ensures { OnOk result (out.new.items ≡ out.old.items ++ each_below (length (own_of columns.now)) (foot_of (named (script_of script.now)) (own_of columns.now) feet.now)) }
{
    for thread in 0..columns.processes() {
        push_foot(alloc, out, script, columns, feet, thread as u8)?;
    }
    Ok(())
}

fn diagram(
    alloc: Global,
    script: &Script,
    own: &[bool],
    feet: &[Foot<'_>],
    commits: &[Commit],
    words: &str,
) -> Result<Vec<u8>, AllocError>
    requires threads { length own.now ≤ 64 }
    requires count { length feet.now ≡ length own.now }
    ensures { IfOk result (λ text. text.items ≡ diagram (named (script_of script.now)) own.now feet.now commits.now words.now) }
{
    let columns = Columns::new(alloc, own)?;
    let mut out = Vec::new(alloc);
    push_title(alloc, &mut out, words)?;
    push_participants(alloc, &mut out, script, &columns)?;
    push_commits(alloc, &mut out, script, &columns, commits)?;
    push_feet(alloc, &mut out, script, &columns, feet)?;
    Ok(out)
}

/// What `chart_text` draws, as the text of a Mermaid sequence diagram: of the same commits, and with the same words.
pub fn mermaid_text(
    alloc: Global,
    script: &Script,
    state: &State,
    own: &[bool],
    commits: &[Commit],
    from: u32,
    to: u32,
) -> Result<Vec<u8>, AllocError>
    requires threads { thread_count state.now ≡ length (script_of script.now).processes }
    requires columns { length own.now ≡ length (script_of script.now).processes }
    ensures { IfOk result (λ text. IsMermaid (script_of script.now) state.now own.now commits.now from to text.items) }
{
    let below = range_end(commits, from, to);
    let found = shown(alloc, commits, from, below)?;
    let feet = feet_of(alloc, state)?;
    let words = heading_text(
        alloc,
        found.len(),
        commits.len(),
        from,
        greatest(&found),
        below <= u64::from(to),
    )?;
    diagram(alloc, script, own, &feet, &found, &words)
}
