//! Texts in a chart.

ghost use Rattle.std.specs.Prelude.{◌≡◌, ◌<◌, ◌≤◌, ◌^◌, OnOk};
ghost use Rattle.pcml_chart.specs.Texts.{beginning, centered, label, starting, text_end, title};
ghost use Rattle.script.specs.Appending.{Adds};

use pcml_chart_layout::{Spot, is_cut, push_seen};
use std::alloc::AllocError;

/// Begins a text round the place.
#[tactic(auto, unfolding(crate::specs::Texts::centered))]
pub(crate) fn push_centered(out: &mut String, x: u64, y: u64) -> Result<(), AllocError>
    ensures { OnOk result (Adds out.old out.new (centered x y)) }
{
    write!(out, "<text x='{x}' y='{y}'>")
}

/// Begins a text from the place on.
#[tactic(auto, unfolding(crate::specs::Texts::starting))]
pub(crate) fn push_starting(out: &mut String, x: u64, y: u64) -> Result<(), AllocError>
    ensures { OnOk result (Adds out.old out.new (starting x y)) }
{
    write!(out, "<text class='s' x='{x}' y='{y}'>")
}

/// Begins a text at a mark of this height.
pub(crate) fn push_beginning(out: &mut String, spot: Spot, y: u64) -> Result<(), AllocError>
    requires low { 5 ≤ y }
    requires high { y < 2 ^ 60 }
    ensures { OnOk result (Adds out.old out.new (beginning spot y)) }
{
    match spot {
        Spot::Behind(x) => push_starting(out, x, y + 4),
        Spot::Round(x) => push_centered(out, x, y - 5),
    }
}

#[tactic(auto, unfolding(crate::specs::Texts::text_end))]
pub(crate) fn push_text_end(out: &mut String) -> Result<(), AllocError>
    ensures { OnOk result (Adds out.old out.new text_end) }
{
    out.push_str("</text>\n")
}

#[tactic(auto, unfolding(crate::specs::Texts::title))]
fn push_title(out: &mut String, whole: &str) -> Result<(), AllocError>
    ensures { OnOk result (Adds out.old out.new (title whole.now)) }
{
    out.push_str("<title>")?;
    out.push_str(whole)?;
    out.push_str("</title>")
}

/// The text, cut where it is long, with the whole in a title.
pub(crate) fn push_label(out: &mut String, text: &str) -> Result<(), AllocError>
    ensures { OnOk result (Adds out.old out.new (label text.now)) }
{
    push_seen(out, text)?;
    if is_cut(text) {
        push_title(out, text)
    } else {
        Ok(())
    }
}
