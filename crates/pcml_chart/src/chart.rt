//! The whole chart.

ghost use Rattle.std.specs.Prelude.{◌≡◌, ◌≤◌, IfOk, length};
ghost use Rattle.std.specs.String.{string_bytes};
ghost use Rattle.script.specs.Scripts.{script_of};
ghost use Rattle.journal_replay.specs.Replays.{thread_count};
ghost use Rattle.pcml_chart_layout.specs.Feet.{lines_below};
ghost use Rattle.pcml_chart_layout.specs.Laid.{AreLabels, laid, tall, written};
ghost use Rattle.pcml_chart_layout.specs.Places.{bottom, page_height};
ghost use Rattle.pcml_chart.specs.Apart.{MarksAreApart};
ghost use Rattle.pcml_chart.specs.Chart.{IsChart, heading, laid_out, picture_text};
ghost use Rattle.pcml_chart.specs.Drawn.{picture_of, stamps_of};
ghost use Rattle.pcml_chart.specs.Plain.{NamesArePlain, MessagesArePlain, CausesArePlain, PrintedIsPlain, OffersArePlain};
ghost use Rattle.pcml_chart.specs.Marks.{Stamps};
ghost use Rattle.journal_text.specs.Names.{Naming, named};

use crate::foot::push_feet;
use crate::frame::{heading_text, push_front, push_heading, push_lifelines, push_page_end};
use crate::range::{greatest, range_end, shown};
use crate::row::push_rows;
use journal_replay::State;
use pcml_chart_layout::{Foot, Layout, bottom, feet_of};
use protocol_values::Commit;
use script::Script;
use std::alloc::{AllocError, Global};

/// What is drawn, besides the names.
#[derive(Drop)]
struct Drawing<'a> {
    own: &'a [bool],
    feet: &'a [Foot<'a>],
    commits: &'a [Commit],
    total: usize,
    from: u32,
    is_cut: bool,
}

fn heading(alloc: Global, drawing: &Drawing<'_>) -> Result<String, AllocError>
    ensures { IfOk result (λ text. (names : Naming) (stamps : Stamps) → string_bytes text ≡ heading (picture_of names stamps drawing.now)) }
{
    heading_text(
        alloc,
        drawing.commits.len(),
        drawing.total,
        drawing.from,
        greatest(drawing.commits),
        drawing.is_cut,
    )
}

/// The picture in a layout, with this heading.
fn laid_out(
    alloc: Global,
    script: &Script,
    state: &State,
    drawing: &Drawing<'_>,
    words: &str,
    layout: &Layout<'_>,
) -> Result<String, AllocError>
    requires own { (laid layout.now).own ≡ drawing.now.own.now }
    requires labels { AreLabels (named (script_of script.now)) drawing.now.own.now drawing.now.commits.now (written layout.now) }
    requires tall { tall layout.now ≡ page_height (bottom (length drawing.now.commits.now)) (lines_below drawing.now.own.now drawing.now.feet.now) }
    requires count { length drawing.now.feet.now ≡ length drawing.now.own.now }
    requires few { length drawing.now.commits.now ≤ 1250 }
    requires words { words.now ≡ heading (picture_of (named (script_of script.now)) (stamps_of state.now) drawing.now) }
    ensures { IfOk result (λ text. string_bytes text ≡ laid_out (picture_of (named (script_of script.now)) (stamps_of state.now) drawing.now) (laid layout.now)) }
{
    let low = bottom(drawing.commits.len());
    let mut out = String::new(alloc);
    push_front(&mut out, layout.width(), layout.height())?;
    push_heading(&mut out, words)?;
    push_lifelines(alloc, &mut out, script, layout, low)?;
    push_rows(&mut out, state, layout, drawing.commits)?;
    push_feet(alloc, &mut out, script, layout, drawing.feet, low)?;
    push_page_end(&mut out)?;
    Ok(out)
}

fn picture_text(
    alloc: Global,
    script: &Script,
    state: &State,
    drawing: &Drawing<'_>,
) -> Result<String, AllocError>
    requires threads { length drawing.now.own.now ≤ 64 }
    requires count { length drawing.now.feet.now ≡ length drawing.now.own.now }
    requires few { length drawing.now.commits.now ≤ 1250 }
    ensures { IfOk result (λ text. string_bytes text ≡ picture_text (picture_of (named (script_of script.now)) (stamps_of state.now) drawing.now)) }
{
    let heading = heading(alloc, drawing)?;
    let layout = Layout::new(
        alloc,
        script,
        drawing.own,
        drawing.feet,
        drawing.commits,
        heading.len(),
    )?;
    laid_out(alloc, script, state, drawing, &heading, &layout)
}

/// The chart of the commits with a stamp from `from` to `to`, as SVG. The state is where all the commits
/// lead the script's processes. A process that `own` tells has a column of its own, and the others share
/// one. Where more than 1,250 commits are in the range, the range is cut.
pub fn chart_text(
    alloc: Global,
    script: &Script,
    state: &State,
    own: &[bool],
    commits: &[Commit],
    from: u32,
    to: u32,
) -> Result<String, AllocError>
    requires threads { thread_count state.now ≡ length (script_of script.now).processes }
    requires columns { length own.now ≡ length (script_of script.now).processes }
    ensures { IfOk result (λ text. IsChart (script_of script.now) state.now own.now commits.now from to (string_bytes text)) }
{
    let below = range_end(commits, from, to);
    let found = shown(alloc, commits, from, below)?;
    let feet = feet_of(alloc, state)?;
    let drawing = Drawing {
        own,
        feet: &feet,
        commits: &found,
        total: commits.len(),
        from,
        is_cut: below <= u64::from(to),
    };
    picture_text(alloc, script, state, &drawing)
}

/// No two commits are drawn at one height: of two that are shown, the mark of the later stands behind that of the
/// other, and lower.
///
/// Nothing that is written between the marks can be read as markup: in the names of a script that some text
/// spells, in the messages and causes of commits that have a line, and in outputs and offers of such values, no
/// byte is `<`, `>`, `&`, `;`, `%`, a quote or a line end.
pub fn chart_laws()
    ensures apart { MarksAreApart }
    ensures names { NamesArePlain }
    ensures messages { MessagesArePlain }
    ensures causes { CausesArePlain }
    ensures printed { PrintedIsPlain }
    ensures offers { OffersArePlain }
{}
