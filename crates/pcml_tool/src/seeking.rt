//! What is sought in all runs.

ghost use Rattle.std.specs.Prelude.{◌≡◌, ◌≤◌, IfErr, IfOk, OnOk, false, is_some};
ghost use Rattle.std.specs.Option.{option_copied};
ghost use Rattle.script.specs.Scripts.{script_of};
ghost use Rattle.pcml_request.specs.declared.request.Request.TheVariants.{Seek};
ghost use Rattle.pcml_request.specs.Requests.{CanBeAnswered};
ghost use Rattle.pcml_outcomes.specs.Told.{bytes_of};
ghost use Rattle.pcml_tool.specs.Command.{AnswersSought, FailsSought, FailsSoughtIn, IsOfKeeping, KeepsAsked, TellsSought, printed_of};
ghost use Rattle.pcml_tool.specs.Searching.{verdict_of};

use crate::answer::{Advice, Answer, printed_of};
use crate::fault::Fault;
use crate::from_files::read_script;
use crate::searching::verdict_of;
use outcomes::Watch;
use pcml_answers::{named_prints, named_processes};
use pcml_files::Source;
use pcml_outcomes::{Finding, SoughtText, fault_text, left_text, prints_text};
use pcml_request::{Seeking, Sought};
use script::Script;
use std::alloc::Global;

/// What is told behind an answer for which not all was seen.
const CUT: &str =
    "cut: not all states were seen. A larger --limit (up to 4194304) sees more; fewer messages make fewer.\n";

/// What is told behind who is left behind.
const ALWAYS_LEFT: &str =
    "left: a process that never ends by itself is always left behind; --need asks who can still move\n";

fn advice_of(sought: &Sought<'_>, finding: Finding) -> Advice {
    match (finding, sought) {
        (Finding::Open, _) => Advice::Text(CUT),
        (Finding::Stuck, Sought::Left(_)) => Advice::Text(ALWAYS_LEFT),
        _ => Advice::Nothing,
    }
}

/// Keeps the journal in a file, where one is named and there is such a journal, and gives what is answered.
fn keep_sought<S: Source>(
    source: &mut S,
    told: SoughtText,
    seeking: &Seeking<'_>,
) -> Result<Answer, Fault>
    ensures kept { OnOk result (KeepsAsked (S.holds source.old) (S.holds source.new) (option_copied seeking.now.journal) (bytes_of told.journal)) }
    ensures verdict { IfOk result (λ answer. answer.verdict ≡ verdict_of told.finding false (is_some (bytes_of told.journal))) }
    ensures printed { IfOk result (λ answer. answer.text.items ≡ printed_of seeking.now.alone (bytes_of told.journal) told.text.items) }
    ensures fault { IfErr result (IsOfKeeping seeking.now.journal) }
{
    let SoughtText {
        text,
        journal,
        finding,
    } = told;
    let is_there = journal.is_some();
    if let (Some(lines), Some(name)) = (&journal, seeking.journal) {
        source.store(name, lines)?;
    }
    Ok(Answer {
        verdict: verdict_of(finding, false, is_there),
        text: printed_of(seeking.alone, journal, text),
        advice: advice_of(&seeking.sought, finding),
    })
}

/// What is told of what is sought in the script.
fn told_of<W: Watch>(
    alloc: Global,
    script: &Script,
    seeking: &Seeking<'_>,
    watch: &mut W,
) -> Result<SoughtText, Fault>
    requires { CanBeAnswered (Seek seeking.now) }
    ensures told { IfOk result (TellsSought (script_of script.now) seeking.now.limit seeking.now.sought) }
    ensures fault { IfErr result (FailsSoughtIn (script_of script.now) seeking.now.sought) }
{
    let limit = seeking.limit as usize;
    match &seeking.sought {
        Sought::Left(names) => {
            let marks = named_processes(alloc, script, names)?;
            Ok(left_text(alloc, script, limit, &marks, watch)?)
        }
        Sought::Fault => Ok(fault_text(alloc, script, limit, watch)?),
        Sought::Printed(texts) => {
            let prints = named_prints(alloc, script, texts)?;
            Ok(prints_text(alloc, script, limit, &prints, watch)?)
        }
    }
}

/// What is answered of what is sought; the journal that leads there is kept, where that is asked for.
pub(crate) fn answer_sought<S: Source, W: Watch>(
    alloc: Global,
    seeking: Seeking<'_>,
    source: &mut S,
    watch: &mut W,
) -> Result<Answer, Fault>
    requires { CanBeAnswered (Seek seeking) }
    ensures done { IfOk result (λ answer. AnswersSought (S.holds source.old) (S.holds source.new) seeking.entry answer.verdict answer.text.items) }
    ensures fault { IfErr result (FailsSought (S.holds source.old) seeking.entry) }
{
    let script = read_script(alloc, source, seeking.script)?;
    let told = told_of(alloc, &script, &seeking, watch)?;
    watch.end();
    let answer = keep_sought(source, told, &seeking)?;
    Ok(answer)
}
