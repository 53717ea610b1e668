//! The program, over any files and any two streams.

ghost use Rattle.std.specs.Prelude.{Some, ◌≡◌, ◌≤◌, ◌⊎◌, ◌++◌, List, ℕ, IfOk, IfErr, IfSome, OnOk, length};
ghost use Rattle.script.specs.Lines.{trees_of_script};
ghost use Rattle.script.specs.Scripts.{script_of};
ghost use Rattle.std.specs.Io.KnownBytes.{Appends};
ghost use Rattle.journal_replay.specs.Lines.{trees_in};
ghost use Rattle.journal_replay.specs.Replays.{StandsAfter};
ghost use Rattle.std.specs.Option.{option_copied};
ghost use Rattle.pcml_request.specs.declared.request.Request.{Request};
ghost use Rattle.pcml_request.specs.declared.request.Request.TheVariants.{Outcomes, Run};
ghost use Rattle.pcml_files.specs.declared.source.SourceFault.TheVariants as files;
ghost use Rattle.pcml_tool.specs.declared.fault.Fault.TheVariants as faults;
ghost use Rattle.pcml_tool.specs.declared.answer.Verdict.TheVariants.{Done, Lacking};
ghost use Rattle.pcml_request.specs.Requests.{CanBeAnswered, all_rows};
ghost use Rattle.pcml_tool.specs.Command.{Answers, AnswersOutcomes, AnswersRun, AreNeeded, AreTreesOf, Began, Fails, FailsNamed, FailsOutcomes, FailsRun, FailsRunning, IsOfKeeping, TellsWhyAsked, marks_of, printed, printed_of, verdict_by};
ghost use Rattle.pcml_tool.specs.Faults.{status_of};
ghost use Rattle.pcml_tool.specs.Run.{TellsAsked};

use crate::answer::{Advice, Answer, BehindRun, Verdict};
use crate::behind::{FilesRead, files_of, is_of_reading, tell_behind};
use crate::fault::Fault;
use crate::from_files::{
    answer_journal, check_file, play_file, read_script, read_source, why_file, why_short_file,
};
use crate::searching::{asked_of, keep_outcome};
use crate::seeking::answer_sought;
use crate::{RunText, explain_text, meet_text, run_parts, run_seasons_parts, version_text};
use outcomes::{Watch, has_unended};
use pcml_answers::named_processes;
use pcml_files::{MOST_BYTES, Source, emit};
use pcml_outcomes::outcomes_text;
use pcml_request::{OutcomesAsked, Request, Running, WordsFault, all_rows, read_words};
use pcml_texts::{faults_standing, why_standing};
use script::Script;
use std::alloc::Global;
use std::io::Write;
use std::sync::Wait;
use std::thread::Threads;
use thread::End;

const DONE: u8 = 0;

const UNLAWFUL: u8 = 1;

const DENIED: u8 = 1;

const LACKING: u8 = 3;

/// The status after words that are not understood.
pub const BAD_WORDS: u8 = 2;

/// What comes of a run: in seasons, where a number of these is named.
fn run_asked<R: Threads + Wait + Sync>(
    rt: &R,
    alloc: Global,
    script: &Script,
    workers: u8,
    rows: u16,
    seasons: Option<u16>,
) -> Result<RunText, Fault>
    ensures ran { IfOk result (λ t. TellsAsked (script_of script.now) rows seasons t.commits.items t.ends.items t.lines.items t.rest.items) }
    ensures ends { IfOk result (λ t. length t.ends.items ≡ length (script_of script.now).processes) }
    ensures leads { IfOk result (λ t. StandsAfter (script_of script.now).processes (all_rows rows seasons) t.commits.items t.state × (trees_in t.state ≡ trees_of_script script.now)) }
    ensures fault { IfErr result (FailsRun (script_of script.now) workers rows seasons) }
{
    match seasons {
        Some(seasons) => Ok(run_seasons_parts(rt, alloc, script, workers, rows, seasons)?),
        None => Ok(run_parts(rt, alloc, script, workers, rows)?),
    }
}

/// Of each process whether it has to end, where names are needed.
fn needed_by(alloc: Global, script: &Script, need: Option<&str>) -> Result<Option<Vec<bool>>, Fault>
    ensures needed { IfOk result (λ needed. AreNeeded (script_of script.now) (option_copied need.entry) (marks_of needed)) }
    ensures fault { IfErr result (FailsNamed (script_of script.now) (option_copied need.entry)) }
{
    match need {
        Some(names) => Ok(Some(named_processes(alloc, script, names)?)),
        None => Ok(None),
    }
}

/// Whether what has to end has ended, by the ends of the processes.
fn verdict_by(ends: &[End], needed: &Option<Vec<bool>>) -> Verdict
    ensures { result ≡ verdict_by (marks_of needed.now) ends.now }
{
    match needed {
        Some(marks) if has_unended(marks, ends) => Verdict::Lacking,
        Some(_) | None => Verdict::Done,
    }
}

/// What `why` tells of a run, where that is asked for.
fn why_asked(
    alloc: Global,
    script: &Script,
    text: &[u8],
    ran: &RunText,
    rows: u32,
    why: bool,
) -> Result<Vec<u8>, Fault>
    requires stands { StandsAfter (script_of script.now).processes rows ran.now.commits.items ran.now.state }
    requires runs { trees_in ran.now.state ≡ trees_of_script script.now }
    requires trees { AreTreesOf text.now (script_of script.now) (trees_of_script script.now) }
    ensures told { IfOk result (λ told. TellsWhyAsked why (script_of script.now) text.now rows ran.now.commits.items told.items) }
    ensures fault { IfErr result (λ fault. fault ≡ faults.Memory) }
{
    if why {
        Ok(why_standing(alloc, script, text, &ran.commits, &ran.state, rows)?)
    } else {
        Ok(Vec::new(alloc))
    }
}

/// What went wrong in the processes that faulted, a line for each: unless `why` tells it.
fn faults_behind(alloc: Global, script: &Script, ran: &RunText, why: bool) -> Result<Vec<u8>, Fault>
    requires { (rows : ℕ) × StandsAfter (script_of script.now).processes rows ran.now.commits.items ran.now.state }
    ensures { IfErr result (λ fault. fault ≡ faults.Memory) }
{
    if !why && ran.ends.iter().any(|end| matches!(end, End::Faulted(_))) {
        Ok(faults_standing(alloc, script, &ran.commits, &ran.state)?)
    } else {
        Ok(Vec::new(alloc))
    }
}

/// Keeps the lines of a run in a file, where one is named, and gives what is printed. That is the lines alone; or the
/// lines, unless it is quiet, the rest, and why the processes stand so. There is room for all before the file is written.
fn keep_run<S: Source>(
    source: &mut S,
    ran: RunText,
    why: &[u8],
    asked: &Running<'_>,
) -> Result<Vec<u8>, Fault>
    ensures printed { IfOk result (λ text. text.items ≡ printed_of asked.now.alone (Some ran.lines.items) (printed asked.now.quiet ran.lines.items ran.rest.items ++ why.now)) }
    ensures kept { OnOk result (IfSome asked.now.journal (λ name. S.holds source.new name.now ran.lines.items)) }
    ensures fault { IfErr result (IsOfKeeping asked.now.journal) }
{
    let RunText { lines, rest, .. } = ran;
    let mut text = lines;
    text.reserve(rest.len() + why.len())?;
    if let Some(name) = asked.journal {
        source.store(name, &text)?;
    }
    if asked.alone {
        return Ok(text);
    }
    if asked.quiet {
        text.clear();
    }
    text.extend_from_slice(&rest)?;
    text.extend_from_slice(why)?;
    Ok(text)
}

/// So many bytes are asked for and given back before a run. The C library gives a larger block back to the system when it is
/// freed, until one of up to 32 MiB was. From then on it keeps what a run frees, and the next list has its pages.
const KEPT_BYTES: usize = (32 << 20) - (64 << 10);

/// Makes the C library keep what is freed. Where it has no such memory, or is another one, nothing is lost.
fn keep_memory(alloc: Global) {
    let _ = Vec::<u8>::with_capacity(alloc, KEPT_BYTES);
}

/// What is answered of a run of a script; the journal is kept, where that is asked for.
fn answer_run<R: Threads + Wait + Sync, S: Source>(
    rt: &R,
    alloc: Global,
    asked: Running<'_>,
    source: &mut S,
) -> Result<Answer, Fault>
    requires { CanBeAnswered (Run asked) }
    ensures done { IfOk result (λ answer. AnswersRun (S.holds source.old) (S.holds source.new) asked.entry answer.verdict answer.text.items) }
    ensures fault { IfErr result (FailsRunning (S.holds source.old) asked.entry) }
{
    let (source_text, script) = read_source(alloc, source, asked.script)?;
    let needed = needed_by(alloc, &script, asked.need)?;
    keep_memory(alloc);
    let ran = run_asked(rt, alloc, &script, asked.workers, asked.rows, asked.seasons)?;
    let verdict = verdict_by(&ran.ends, &needed);
    let rows = all_rows(asked.rows, asked.seasons);
    let why = why_asked(alloc, &script, &source_text, &ran, rows, asked.why)?;
    let behind = BehindRun {
        faults: faults_behind(alloc, &script, &ran, asked.why)?,
        is_long: asked.journal.is_some() && ran.lines.len() > MOST_BYTES,
        spent: ran.ends.iter().filter(|end| end.is_spent()).count(),
    };
    let text = keep_run(source, ran, &why, &asked)?;
    Ok(Answer {
        verdict,
        text,
        advice: Advice::Run(behind),
    })
}

/// The rows of a process, where a number is named.
fn rows_of(rows: Option<u16>) -> Option<u32>
    ensures { result ≡ rows }
{
    match rows {
        Some(rows) => Some(u32::from(rows)),
        None => None,
    }
}

/// What is answered of all that a script can come to; the journal of an outcome is kept, where that is asked for.
fn answer_search<S: Source, W: Watch>(
    alloc: Global,
    search: OutcomesAsked<'_>,
    source: &mut S,
    watch: &mut W,
) -> Result<Answer, Fault>
    requires { CanBeAnswered (Outcomes search) }
    ensures done { IfOk result (λ answer. AnswersOutcomes (S.holds source.old) (S.holds source.new) search.entry answer.verdict answer.text.items) }
    ensures fault { IfErr result (FailsOutcomes (S.holds source.old) search.entry) }
{
    let script = read_script(alloc, source, search.script)?;
    let asked = asked_of(alloc, &script, &search)?;
    let rows = rows_of(search.rows);
    let limit = search.limit as usize;
    let listed = outcomes_text(alloc, &script, rows, limit, &asked, search.of, watch)?;
    watch.end();
    let answer = keep_outcome(source, listed, &search)?;
    Ok(answer)
}

/// What is answered to a request.
fn answer<R: Threads + Wait + Sync, S: Source, W: Watch>(
    rt: &R,
    alloc: Global,
    asked: Request<'_>,
    source: &mut S,
    watch: &mut W,
) -> Result<Answer, Fault>
    requires { CanBeAnswered asked }
    ensures done { IfOk result (λ answer. Answers (S.holds source.old) (S.holds source.new) asked.entry answer.verdict answer.text.items) }
    ensures fault { IfErr result (Fails (S.holds source.old) asked.entry) }
{
    match asked {
        Request::Run(asked) => answer_run(rt, alloc, asked, source),
        Request::Outcomes(search) => answer_search(alloc, search, source, watch),
        Request::Seek(seeking) => answer_sought(alloc, seeking, source, watch),
        Request::OfJournal(asked) => answer_journal(alloc, asked, source),
        Request::WhyScript(name) => why_file(alloc, source, name),
        Request::WhyShort(name) => why_short_file(alloc, source, name),
        Request::Check(name) => Ok(Answer {
            verdict: Verdict::Done,
            text: check_file(alloc, source, name)?,
            advice: Advice::Nothing,
        }),
        Request::Explain(topic) => Ok(Answer {
            verdict: Verdict::Done,
            text: explain_text(alloc, topic)?,
            advice: Advice::Nothing,
        }),
        Request::Version => Ok(Answer {
            verdict: Verdict::Done,
            text: version_text(alloc)?,
            advice: Advice::Nothing,
        }),
        Request::Meet(value) => Ok(Answer {
            verdict: Verdict::Done,
            text: meet_text(rt, alloc, value)?,
            advice: Advice::Nothing,
        }),
        Request::Play(name) => Ok(Answer {
            verdict: Verdict::Done,
            text: play_file(alloc, source, name)?,
            advice: Advice::Nothing,
        }),
    }
}

/// Answers a request on the output. After a fault nothing was written, but for that of the output,
/// which may have taken a beginning of the answer. What is told behind it goes to the error stream.
fn respond<R: Threads + Wait + Sync, S: Source, O: Write, E: Write, W: Watch>(
    rt: &R,
    alloc: Global,
    asked: Request<'_>,
    source: &mut S,
    out: &mut O,
    err: &mut E,
    watch: &mut W,
) -> Result<Verdict, Fault>
    requires { CanBeAnswered asked }
    ensures done { IfOk result (λ verdict. (text : List ℕ) × Answers (S.holds source.old) (S.holds source.new) asked.entry verdict text
        × Appends (O.contents out.old) (O.contents out.new) text) }
    ensures fault { IfErr result (λ fault.
        ((fault ≡ faults.File files.Unwritten) × Began (S.holds source.old) (S.holds source.new) asked.entry (O.contents out.old) (O.contents out.new))
        ⊎ (Fails (S.holds source.old) asked.entry fault × (out.new ≡ out.old))) }
{
    let Answer {
        verdict,
        text,
        advice,
    } = answer(rt, alloc, asked, source, watch)?;
    emit(out, text.as_slice())?;
    advice.tell(err);
    Ok(verdict)
}

/// Does what the words behind the program's name ask for, and answers the status.
///
/// It is 0 where all went well. It is 1 after a fault, for a journal that is no run, and where it is told why a text is no
/// script; also where what was asked of a script's outcomes is not so or not known. It is 2 after words that are not
/// understood, a name that no process has, and a wish for help. It is 3 where a process that had to end has not, does not
/// in some outcome, or is left behind, and where one has faulted.
///
/// A fault is a line on the error stream, behind which stands what is wrong with a file. Whether that stream takes it
/// changes nothing. Who watches is told how far a search is.
pub fn command<R: Threads + Wait + Sync, S: Source, O: Write, E: Write, W: Watch>(
    rt: &R,
    alloc: Global,
    words: &[&str],
    source: &mut S,
    out: &mut O,
    err: &mut E,
    watch: &mut W,
) -> u8
    ensures status { result ≤ 3 }
    // Where all went well, the output has grown by the answer to some request.
    ensures done { result ≡ 0 → (asked : Request) × (text : List ℕ) × Answers (S.holds source.old) (S.holds source.new) asked Done text
        × Appends (O.contents out.old) (O.contents out.new) text }
    // Where not, it has grown by a beginning of such an answer at most.
    ensures fault { result ≡ 1 → (asked : Request) × Began (S.holds source.old) (S.holds source.new) asked (O.contents out.old) (O.contents out.new) }
    ensures bad_words { result ≡ 2 → out.new ≡ out.old }
    // A process that had to end has not, or can never end any more: the output has grown by the whole answer.
    ensures lacking { result ≡ 3 → (asked : Request) × (text : List ℕ) × Answers (S.holds source.old) (S.holds source.new) asked Lacking text
        × Appends (O.contents out.old) (O.contents out.new) text }
{
    let asked = match read_words(alloc, words) {
        Ok(asked) => asked,
        Err(WordsFault::Memory) => return tell(err, Fault::Memory),
        Err(WordsFault::NotUnderstood(text)) => {
            let _ = write!(err, "{text}");
            return BAD_WORDS;
        }
    };
    let files = files_of(&asked);
    match respond(rt, alloc, asked, source, out, err, watch) {
        Ok(Verdict::Done) => DONE,
        Ok(Verdict::Unlawful) => UNLAWFUL,
        Ok(Verdict::Denied) => DENIED,
        Ok(Verdict::Lacking) => LACKING,
        Err(fault) => {
            watch.end();
            tell_whole(alloc, source, files, err, fault)
        }
    }
}

/// Tells a fault, and where it is of reading these files, behind its line what is wrong with them. It answers the fault's
/// status.
fn tell_whole<S: Source, E: Write>(
    alloc: Global,
    source: &mut S,
    named: FilesRead<'_>,
    err: &mut E,
    fault: Fault,
) -> u8
    ensures status { result ≡ status_of fault }
    // What was written stands where it stood.
    ensures kept { fault ≡ faults.File files.Unwritten → source.new ≡ source.old }
{
    let _ = writeln!(err, "{fault}");
    if !is_of_reading(&fault) {
        return fault.status();
    }
    tell_behind(alloc, source, named, &fault, err);
    fault.status()
}

/// Tells the fault on a line of its own, and answers its status.
pub fn tell<E: Write>(err: &mut E, fault: Fault) -> u8
    ensures { result ≡ status_of fault }
{
    let _ = writeln!(err, "{fault}");
    fault.status()
}
