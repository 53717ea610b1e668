//! What is told of all that a script can come to.

ghost use Rattle.std.specs.Prelude.{◌≡◌, IfErr, IfOk};
ghost use Rattle.pcml_check_c.specs.Outcomes.{IsSearched, RefusesOutcomes, code_of_finding, rows_of};

use crate::names::{names_in, wanted_by};
use crate::refusal::Refusal;
use crate::told::{Code, Told};
use outcomes::Unwatched;
use pcml_outcomes::{Finding, asked_of, outcomes_text};
use script::parse;
use std::alloc::Global;

/// The most rows of a process.
const MOST_ROWS: u32 = 1024;
/// The most configurations that are looked at.
pub(crate) const MOST_CONFIGURATIONS: u32 = 4194304;

fn code_of_finding(finding: Finding) -> Code
    ensures { result ≡ code_of_finding finding }
{
    match finding {
        Finding::Clear => Code::Done,
        Finding::Stuck => Code::Stuck,
        Finding::Stranded => Code::Stranded,
        Finding::Open => Code::Open,
    }
}

/// The rows of a process, where there is a number of them: 0 is any number.
fn rows_of(rows: u32) -> Option<u32>
    ensures { result ≡ rows_of rows }
{
    if rows == 0 { None } else { Some(rows) }
}

/// What the script can come to.
pub(crate) fn searched(
    alloc: Global,
    script: &[u8],
    rows: u32,
    limit: u32,
    need: &[u8],
    only: &[u8],
) -> Result<Told, Refusal>
    ensures told { IfOk result (IsSearched script.now rows limit need.now only.now) }
    ensures refused { IfErr result (RefusesOutcomes script.now rows limit need.now only.now) }
{
    if rows > MOST_ROWS {
        return Err(Refusal::Rows);
    }
    if limit < 1 || limit > MOST_CONFIGURATIONS {
        return Err(Refusal::Limit);
    }
    let needed = names_in(need)?;
    let names = names_in(only)?;
    let script = parse(alloc, script)?;
    let asked = asked_of(alloc, &script, wanted_by(needed), names, false)?;
    let rows = rows_of(rows);
    let limit = limit as usize;
    let listed = outcomes_text(alloc, &script, rows, limit, &asked, None, &mut Unwatched)?;
    Ok(Told {
        code: code_of_finding(listed.finding),
        line: 0,
        text: listed.text,
    })
}
