//! What stands round the marks: the page, the heading, and the lines of life with how many commits are shown.

ghost use Rattle.std.specs.Prelude.{◌≡◌, IfOk, OnOk};
ghost use Rattle.std.specs.String.{string_bytes};
ghost use Rattle.script.specs.Scripts.{script_of};
ghost use Rattle.pcml_chart_layout.specs.Laid.{laid};
ghost use Rattle.pcml_chart.specs.Chart.{arrow_head, arrow_tail, background, cut_text, heading_of, heading_text, life, lifeline, lifelines, line, others_line, page, page_end, page_front, stamps_text, style};
ghost use Rattle.journal_text.specs.Names.{named};
ghost use Rattle.script.specs.Appending.{Adds};

use crate::text::{push_centered, push_label, push_starting, push_text_end};
use pcml_chart_layout::{Layout, thread_name};
use script::Script;
use std::alloc::{AllocError, Global};

fn push_page(out: &mut String, width: u64, tall: u64) -> Result<(), AllocError>
    ensures { OnOk result (Adds out.old out.new (page width tall)) }
{
    write!(
        out,
        "<svg xmlns='http://www.w3.org/2000/svg' width='{width}' height='{tall}' viewBox='0 0 {width} {tall}' font-family='monospace' font-size='12' text-anchor='middle'>\n"
    )
}

#[tactic(auto, unfolding(crate::specs::Chart::style))]
fn push_style(out: &mut String) -> Result<(), AllocError>
    ensures { OnOk result (Adds out.old out.new style) }
{
    out.push_str(
        "<style>text{stroke:white;stroke-width:3px;paint-order:stroke}.s{text-anchor:start}path{stroke:black;fill:none}.t{stroke:#ccc}.n{stroke-dasharray:4 4}.a{marker-start:url(#tail);marker-end:url(#head)}</style>\n",
    )
}

#[tactic(auto, unfolding(crate::specs::Chart::arrow_tail))]
fn push_arrow_tail(out: &mut String) -> Result<(), AllocError>
    ensures { OnOk result (Adds out.old out.new arrow_tail) }
{
    out.push_str(
        "<defs><marker id='tail' viewBox='-4 -4 8 8' markerWidth='8' markerHeight='8'><circle r='2.5' fill='white' stroke='black'/></marker>",
    )
}

#[tactic(auto, unfolding(crate::specs::Chart::arrow_head))]
fn push_arrow_head(out: &mut String) -> Result<(), AllocError>
    ensures { OnOk result (Adds out.old out.new arrow_head) }
{
    out.push_str(
        "<marker id='head' viewBox='0 0 9 8' refX='9' refY='4' markerWidth='9' markerHeight='8' orient='auto'><path d='M0 0L9 4L0 8z' style='fill:black;stroke:none'/></marker></defs>\n",
    )
}

#[tactic(auto, unfolding(crate::specs::Chart::background))]
fn push_background(out: &mut String) -> Result<(), AllocError>
    ensures { OnOk result (Adds out.old out.new background) }
{
    out.push_str("<rect width='100%' height='100%' fill='white'/>\n")
}

/// A page of this size.
pub(crate) fn push_front(out: &mut String, width: u64, tall: u64) -> Result<(), AllocError>
    ensures { OnOk result (Adds out.old out.new (page_front width tall)) }
{
    push_page(out, width, tall)?;
    push_style(out)?;
    push_arrow_tail(out)?;
    push_arrow_head(out)?;
    push_background(out)
}

fn push_stamps(out: &mut String, count: usize, from: u32, last: u32) -> Result<(), AllocError>
    ensures { OnOk result (Adds out.old out.new (stamps_text count from last)) }
{
    if count == 0 {
        return Ok(());
    }
    write!(out, ", stamps {from} to {last}")
}

fn cut_text(is_cut: bool) -> &'static str
    ensures { result.now ≡ cut_text is_cut }
{
    if is_cut { ", cut at 1250 commits" } else { "" }
}

/// How many commits are shown of how many, and which stamps.
pub(crate) fn heading_text(
    alloc: Global,
    count: usize,
    total: usize,
    from: u32,
    last: u32,
    is_cut: bool,
) -> Result<String, AllocError>
    ensures { IfOk result (λ text. string_bytes text ≡ heading_text count total from last is_cut) }
{
    let mut text = String::new(alloc);
    write!(&mut text, "{count} of {total} commits")?;
    push_stamps(&mut text, count, from, last)?;
    text.push_str(cut_text(is_cut))?;
    Ok(text)
}

pub(crate) fn push_heading(out: &mut String, text: &str) -> Result<(), AllocError>
    ensures { OnOk result (Adds out.old out.new (heading_of text.now)) }
{
    push_starting(out, 8, 18)?;
    out.push_str(text)?;
    push_text_end(out)
}

#[tactic(auto, unfolding(crate::specs::Chart::line))]
fn push_line(out: &mut String, x: u64, low: u64) -> Result<(), AllocError>
    ensures { OnOk result (Adds out.old out.new (line x low)) }
{
    write!(out, "<path d='M{x} 52V{low}'/>\n")
}

/// A name, and its line.
fn push_life(out: &mut String, name: &str, x: u64, low: u64) -> Result<(), AllocError>
    ensures { OnOk result (Adds out.old out.new (life name.now x low)) }
{
    push_centered(out, x, 42)?;
    push_label(out, name)?;
    push_text_end(out)?;
    push_line(out, x, low)
}

/// The line of life of a process with a column of its own.
fn push_lifeline(
    alloc: Global,
    out: &mut String,
    script: &Script,
    layout: &Layout<'_>,
    low: u64,
    thread: u8,
) -> Result<(), AllocError>
    ensures { OnOk result (Adds out.old out.new (lifeline (named (script_of script.now)) (laid layout.now) low thread)) }
{
    if !layout.is_own(usize::from(thread)) {
        return Ok(());
    }
    let name = thread_name(alloc, script, thread)?;
    push_life(out, &name, layout.line_of(thread), low)
}

/// That of the others.
fn push_others_line(out: &mut String, layout: &Layout<'_>, low: u64) -> Result<(), AllocError>
    ensures { OnOk result (Adds out.old out.new (others_line (laid layout.now) low)) }
{
    if !layout.has_others() {
        return Ok(());
    }
    push_life(out, "others", layout.others_line(), low)
}

/// The lines of life of the columns.
pub(crate) fn push_lifelines(
    alloc: Global,
    out: &mut String,
    script: &Script,
    layout: &Layout<'_>,
    low: u64,
) -> Result<(), AllocError>
    ensures { OnOk result (Adds out.old out.new (lifelines (named (script_of script.now)) (laid layout.now) low)) }
{
    for thread in 0..layout.processes() {
        push_lifeline(alloc, out, script, layout, low, thread as u8)?;
    }
    push_others_line(out, layout, low)
}

pub(crate) fn push_page_end(out: &mut String) -> Result<(), AllocError>
    ensures { OnOk result (Adds out.old out.new page_end) }
{
    out.push_str("</svg>\n")
}
