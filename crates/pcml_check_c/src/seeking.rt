//! What is told of what is sought in all runs.

ghost use Rattle.std.specs.Prelude.{◌≡◌, IfErr, IfOk};
ghost use Rattle.std.specs.Str.{IsUtf8};
ghost use Rattle.pcml_check_c.specs.Outcomes.{IsLimit};
ghost use Rattle.pcml_check_c.specs.Seeking.{IsFaultSought, IsLeftSought, IsPrintSought, RefusesFaults, RefusesLeft, RefusesPrint, Shows, code_of_sought};
ghost use Rattle.pcml_check_c.specs.declared.refusal.Refusal.TheVariants.{Limit, NoText};

use crate::refusal::Refusal;
use crate::searching::MOST_CONFIGURATIONS;
use crate::told::{Code, Told};
use outcomes::Unwatched;
use pcml_answers::{named_prints, named_processes};
use pcml_outcomes::{Finding, SoughtText, fault_text, left_text, prints_text};
use script::parse;
use std::alloc::Global;

fn code_of_sought(finding: Finding) -> Code
    ensures { result ≡ code_of_sought finding }
{
    match finding {
        Finding::Clear => Code::Done,
        Finding::Stuck | Finding::Stranded => Code::Found,
        Finding::Open => Code::Open,
    }
}

/// What is told of it to C: the journal stays behind.
fn told_of(sought: SoughtText) -> Told
    ensures { Shows sought result }
{
    Told {
        code: code_of_sought(sought.finding),
        line: 0,
        text: sought.text,
    }
}

/// The number of states that may be seen.
fn limit_of(limit: u32) -> Result<usize, Refusal>
    ensures found { IfOk result (λ found. (found ≡ limit) × IsLimit limit) }
    ensures refused { IfErr result (λ refusal. (refusal ≡ Limit) × (¬ IsLimit limit)) }
{
    if limit < 1 || limit > MOST_CONFIGURATIONS {
        return Err(Refusal::Limit);
    }
    Ok(limit as usize)
}

fn text_in(bytes: &[u8]) -> Result<&str, Refusal>
    ensures text { IfOk result (λ text. text.now ≡ bytes.now) }
    ensures refused { IfErr result (λ refusal. (refusal ≡ NoText) × (¬ IsUtf8 bytes.now)) }
{
    str::from_utf8(bytes).map_err(|_| Refusal::NoText)
}

/// Who of the processes of these names can never end any more.
pub(crate) fn left_sought(
    alloc: Global,
    script: &[u8],
    limit: u32,
    names: &[u8],
) -> Result<Told, Refusal>
    ensures told { IfOk result (IsLeftSought script.now limit names.now) }
    ensures refused { IfErr result (RefusesLeft script.now limit names.now) }
{
    let most = limit_of(limit)?;
    let text = text_in(names)?;
    let script = parse(alloc, script)?;
    let marks = named_processes(alloc, &script, text)?;
    let sought = left_text(alloc, &script, most, &marks, &mut Unwatched)?;
    Ok(told_of(sought))
}

/// Who faults.
pub(crate) fn faults_sought(alloc: Global, script: &[u8], limit: u32) -> Result<Told, Refusal>
    ensures told { IfOk result (IsFaultSought script.now limit) }
    ensures refused { IfErr result (RefusesFaults script.now limit) }
{
    let most = limit_of(limit)?;
    let script = parse(alloc, script)?;
    let sought = fault_text(alloc, &script, most, &mut Unwatched)?;
    Ok(told_of(sought))
}

/// Whether a process prints a value.
pub(crate) fn print_sought(
    alloc: Global,
    script: &[u8],
    limit: u32,
    print: &[u8],
) -> Result<Told, Refusal>
    ensures told { IfOk result (IsPrintSought script.now limit print.now) }
    ensures refused { IfErr result (RefusesPrint script.now limit print.now) }
{
    let most = limit_of(limit)?;
    let text = text_in(print)?;
    let script = parse(alloc, script)?;
    let prints = named_prints(alloc, &script, &[text])?;
    let sought = prints_text(alloc, &script, most, &prints, &mut Unwatched)?;
    Ok(told_of(sought))
}
