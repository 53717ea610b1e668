//! What is told of a journal.

ghost use Rattle.std.specs.Prelude.{◌≡◌, ◌≤◌, IfErr, IfOk};
ghost use Rattle.pcml_check_c.specs.Journals.{IsDrawn, IsForm, IsJudged, RefusesChart, RefusesJournal};
ghost use Rattle.pcml_check_c.specs.declared.refusal.Refusal.TheVariants.{Form as BadForm};

use crate::names::names_in;
use crate::refusal::Refusal;
use crate::told::{Code, Told};
use pcml_request::{Drawing, Form};
use pcml_texts::{ChartFault, Judged, chart_journal, judge_journal};
use protocol_values::MOST_ROWS;
use script::parse;
use std::alloc::Global;

/// Where the journal leads the script's processes.
pub(crate) fn judged(
    alloc: Global,
    script: &[u8],
    journal: &[u8],
    rows: u32,
) -> Result<Told, Refusal>
    ensures told { IfOk result (IsJudged script.now journal.now rows) }
    ensures refused { IfErr result (RefusesJournal script.now journal.now rows) }
{
    if rows < 1 || rows > MOST_ROWS {
        return Err(Refusal::Rows);
    }
    let script = parse(alloc, script)?;
    match judge_journal(alloc, &script, journal, rows)? {
        Judged::Lawful {
            text,
            is_maximal: true,
        } => Ok(Told {
            code: Code::Done,
            line: 0,
            text,
        }),
        Judged::Lawful { text, .. } => Ok(Told {
            code: Code::Open,
            line: 0,
            text,
        }),
        Judged::Unlawful { text, line } => Ok(Told {
            code: Code::Unlawful,
            line,
            text,
        }),
    }
}

/// The form of the number: 0 for a picture, 1 for a diagram.
fn form_of(number: u32) -> Result<Form, Refusal>
    ensures form { IfOk result (IsForm number) }
    ensures refused { IfErr result (λ refusal. (refusal ≡ BadForm) × (2 ≤ number)) }
{
    match number {
        0 => Ok(Form::Svg),
        1 => Ok(Form::Mermaid),
        _ => Err(Refusal::Form),
    }
}

/// The chart of the journal.
pub(crate) fn drawn(
    alloc: Global,
    script: &[u8],
    journal: &[u8],
    rows: u32,
    only: &[u8],
    from: u32,
    to: u32,
    form: u32,
) -> Result<Told, Refusal>
    ensures told { IfOk result (IsDrawn script.now journal.now rows only.now from to form) }
    ensures refused { IfErr result (RefusesChart script.now journal.now rows only.now form) }
{
    if rows < 1 || rows > MOST_ROWS {
        return Err(Refusal::Rows);
    }
    let as_form = form_of(form)?;
    let names = names_in(only)?;
    let script = parse(alloc, script)?;
    let drawing = Drawing {
        from,
        to,
        only: names,
        form: as_form,
    };
    match chart_journal(alloc, &script, journal, rows, &drawing) {
        Ok(text) => Ok(Told {
            code: Code::Done,
            line: 0,
            text,
        }),
        Err(ChartFault::NoRun(line)) => Ok(Told {
            code: Code::Unlawful,
            line,
            text: Vec::new(alloc),
        }),
        Err(ChartFault::Memory) => Err(Refusal::Memory),
        Err(ChartFault::BadLine(line)) => Err(Refusal::BadLine(line)),
        Err(ChartFault::Unnamed(name)) => Err(Refusal::Unnamed(name)),
    }
}
