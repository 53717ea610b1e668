//! What is asked for of the outcomes, and what is answered.

ghost use Rattle.std.specs.Prelude.{◌≡◌, IfErr, IfOk, OnOk, is_some, length};
ghost use Rattle.std.specs.Option.{option_copied};
ghost use Rattle.script.specs.Scripts.{script_of};
ghost use Rattle.pcml_outcomes.specs.Stranding.{sought};
ghost use Rattle.pcml_outcomes.specs.Told.{NamesNeeded, bytes_of};
ghost use Rattle.pcml_tool.specs.Command.{IsOfKeeping, KeepsAsked, printed_of};
ghost use Rattle.pcml_tool.specs.Searching.{FailsAsked, IsAskedBy, verdict_of};

use crate::answer::{Advice, Answer, Behind, Verdict, printed_of};
use crate::fault::Fault;
use outcomes::Asked;
use pcml_files::Source;
use pcml_outcomes::{Finding, OutcomesText};
use pcml_request::OutcomesAsked;
use script::Script;
use std::alloc::Global;

/// What is told behind an answer for which not all was seen, of so many rows a process.
const CUT: &str =
    "cut: not all configurations were seen. A larger --limit (up to 4194304) sees more; fewer --rows or messages make fewer. --need and --only tell less of what was seen.\n";

/// The same of runs of any length.
const CUT_STATES: &str =
    "cut: not all states were seen. A larger --limit (up to 4194304) sees more; --only or fewer messages make fewer. --rows looks at runs of so many syncs a process alone.\n";

/// What a search asks for. Of the names of the processes that have to end, and then of those that are named alone, the
/// first that no process has is a fault.
pub(crate) fn asked_of(
    alloc: Global,
    script: &Script,
    search: &OutcomesAsked<'_>,
) -> Result<Asked, Fault>
    ensures asked { IfOk result (IsAskedBy (script_of script.now) search.now) }
    ensures needed { IfOk result NamesNeeded }
    ensures marks { IfOk result (λ asked. length asked.named.items ≡ length (script_of script.now).processes) }
    ensures sought { IfOk result (λ asked. length (sought asked.told asked.named.items) ≡ length (script_of script.now).processes) }
    ensures fault { IfErr result (FailsAsked (script_of script.now) search.now) }
{
    let asked = pcml_outcomes::asked_of(alloc, script, search.wanted, search.only, search.first)?;
    Ok(asked)
}

/// What the finding says of what was asked, where the journal of an outcome was asked for or not, and is there or not.
pub(crate) fn verdict_of(finding: Finding, is_asked: bool, is_there: bool) -> Verdict
    ensures { result ≡ verdict_of finding is_asked is_there }
{
    match finding {
        Finding::Stuck | Finding::Stranded => Verdict::Lacking,
        Finding::Clear if !is_asked || is_there => Verdict::Done,
        Finding::Clear | Finding::Open => Verdict::Denied,
    }
}

/// What is told behind an answer for which not all was seen.
fn cut_text(is_cut: bool, rows: Option<u16>) -> &'static str {
    match rows {
        Some(_) if is_cut => CUT,
        None if is_cut => CUT_STATES,
        Some(_) | None => "",
    }
}

/// In more than how many states it was not looked for who is stranded, where that is not known.
fn unlooked(is_unlooked: bool, verdict: Verdict, limit: u32) -> Option<u32> {
    match verdict {
        Verdict::Lacking => None,
        _ if is_unlooked => Some(limit),
        _ => None,
    }
}

/// Keeps the journal that is asked for in a file, where one is named and there is such a journal, and gives what is
/// answered.
pub(crate) fn keep_outcome<S: Source>(
    source: &mut S,
    listed: OutcomesText,
    search: &OutcomesAsked<'_>,
) -> Result<Answer, Fault>
    ensures kept { OnOk result (KeepsAsked (S.holds source.old) (S.holds source.new) (option_copied search.now.journal) (bytes_of listed.journal)) }
    ensures verdict { IfOk result (λ answer. answer.verdict ≡ verdict_of listed.finding (is_some search.now.of) (is_some (bytes_of listed.journal))) }
    ensures printed { IfOk result (λ answer. answer.text.items ≡ printed_of search.now.alone (bytes_of listed.journal) listed.text.items) }
    ensures fault { IfErr result (IsOfKeeping search.now.journal) }
{
    let OutcomesText {
        text,
        journal: lines,
        goes_on,
        finding,
        is_cut,
        is_unlooked,
    } = listed;
    let is_there = lines.is_some();
    if let (Some(lines), Some(name)) = (&lines, search.journal) {
        source.store(name, lines)?;
    }
    let verdict = verdict_of(finding, search.of.is_some(), is_there);
    let is_kept = search.alone || search.journal.is_some();
    Ok(Answer {
        verdict,
        text: printed_of(search.alone, lines, text),
        advice: Advice::Outcomes(Behind {
            goes_on: if is_kept { goes_on } else { None },
            text: cut_text(is_cut, search.rows),
            unlooked: unlooked(is_unlooked, verdict, search.limit),
        }),
    })
}
