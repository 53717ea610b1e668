//! The feet of the lines of life: how each process stands, with what it printed or what it offers.

ghost use Rattle.std.specs.Prelude.{◌≡◌, ◌<◌, ◌^◌, OnOk, length};
ghost use Rattle.std.specs.List.{flat_map};
ghost use Rattle.script.specs.Scripts.{script_of};
ghost use Rattle.pcml_chart_layout.specs.Laid.{laid};
ghost use Rattle.pcml_chart.specs.Chart.{feet_below, foot_mark};
ghost use Rattle.pcml_chart.specs.Feet.{foot_text, line_end, line_start, offer_line};
ghost use Rattle.journal_text.specs.Names.{named};
ghost use Rattle.script.specs.Appending.{Adds};

use crate::text::{push_centered, push_label, push_text_end};
use pcml_chart_layout::{Foot, Layout, offer_text, offers_of, stand_text};
use protocol_values::Offer;
use script::Script;
use std::alloc::{AllocError, Global};

/// Begins a line below.
#[tactic(auto, unfolding(crate::specs::Feet::line_start))]
fn push_line_start(out: &mut String, x: u64) -> Result<(), AllocError>
    ensures { OnOk result (Adds out.old out.new (line_start x)) }
{
    write!(out, "<tspan x='{x}' dy='16'>")
}

#[tactic(auto, unfolding(crate::specs::Feet::line_end))]
fn push_line_end(out: &mut String) -> Result<(), AllocError>
    ensures { OnOk result (Adds out.old out.new line_end) }
{
    out.push_str("</tspan>")
}

fn push_offer_line(
    alloc: Global,
    out: &mut String,
    script: &Script,
    x: u64,
    offer: &Offer,
) -> Result<(), AllocError>
    ensures { OnOk result (Adds out.old out.new (offer_line (named (script_of script.now)) x offer.now)) }
{
    let text = offer_text(alloc, script, offer)?;
    push_line_start(out, x)?;
    push_label(out, &text)?;
    push_line_end(out)
}

/// A line for each of the offers.
fn push_offer_lines(
    alloc: Global,
    out: &mut String,
    script: &Script,
    x: u64,
    offers: &[Offer],
) -> Result<(), AllocError>
    ensures { OnOk result (Adds out.old out.new (flat_map (offer_line (named (script_of script.now)) x) offers.now)) }
{
    for offer in offers {
        push_offer_line(alloc, out, script, x, offer)?;
    }
    Ok(())
}

fn push_foot(
    alloc: Global,
    out: &mut String,
    script: &Script,
    x: u64,
    y: u64,
    foot: &Foot<'_>,
) -> Result<(), AllocError>
    ensures { OnOk result (Adds out.old out.new (foot_text (named (script_of script.now)) x y foot.now)) }
{
    let stand = stand_text(alloc, script, foot)?;
    push_centered(out, x, y)?;
    push_label(out, &stand)?;
    push_offer_lines(alloc, out, script, x, offers_of(foot))?;
    push_text_end(out)
}

/// How a process with a column of its own stands, below its line.
fn push_foot_mark(
    alloc: Global,
    out: &mut String,
    script: &Script,
    layout: &Layout<'_>,
    feet: &[Foot<'_>],
    low: u64,
    thread: u8,
) -> Result<(), AllocError>
    requires there { thread < length feet.now }
    requires low { low < 2 ^ 60 }
    ensures { OnOk result (Adds out.old out.new (foot_mark (named (script_of script.now)) (laid layout.now) feet.now low thread)) }
{
    let place = usize::from(thread);
    if !layout.is_own(place) {
        return Ok(());
    }
    push_foot(
        alloc,
        out,
        script,
        layout.line_of(thread),
        low + 18,
        &feet[place],
    )
}

/// How each of these processes stands.
pub(crate) fn push_feet(
    alloc: Global,
    out: &mut String,
    script: &Script,
    layout: &Layout<'_>,
    feet: &[Foot<'_>],
    low: u64,
) -> Result<(), AllocError>
    requires count { length feet.now ≡ length (laid layout.now).own }
    requires low { low < 2 ^ 60 }
    ensures { OnOk result (Adds out.old out.new (feet_below (named (script_of script.now)) (laid layout.now) feet.now low)) }
{
    for thread in 0..layout.processes() {
        push_foot_mark(alloc, out, script, layout, feet, low, thread as u8)?;
    }
    Ok(())
}
