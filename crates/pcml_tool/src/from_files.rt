//! What comes of the files that a request names.

ghost use Rattle.std.specs.Prelude.{◌≡◌, ◌≤◌, List, ℕ, IfOk, IfErr};
ghost use Rattle.protocol_values.specs.Commits.{most_rows};
ghost use Rattle.std.specs.Option.{option_copied, option_map};
ghost use Rattle.script.specs.Lines.{trees_of_script};
ghost use Rattle.script.specs.Scripts.{script_of};
ghost use Rattle.script.specs.Spelling.{Spells};
ghost use Rattle.pcml_tool.specs.declared.fault.Fault.TheVariants.{Memory};
ghost use Rattle.pcml_texts.specs.Check.{IsChecked};
ghost use Rattle.pcml_tool.specs.Play.{IsPlayed};
ghost use Rattle.pcml_tool.specs.Command.{AnswersJournal, AnswersWhyScript, AnswersWhyShort, AreTreesOf, IsJudged, FailsJournal, FailsOf, FailsParse, FailsPlay, FailsRead, FailsWhyScript, HoldsJournal, IsToldShort, IsToldWhyNot, OfSchedule, TellsOf};
ghost use Rattle.pcml_files.specs.Files.{Fits};

use crate::answer::{Advice, Answer, Verdict};
use crate::fault::Fault;
use crate::play_text;
use pcml_files::{MOST_BYTES, Source};
use pcml_request::{OfJournal, Question, all_rows};
use pcml_texts::{
    Replayed, chart_journal, check_text, next_journal, replay_text, stats_journal, why_journal,
};
use script::{Script, parse};
use script_mistakes::{why_not, why_short};
use std::alloc::Global;

/// The bytes of the schedule or the journal in a file.
fn read_bounded<S: Source>(source: &mut S, name: &str) -> Result<Vec<u8>, Fault>
    ensures read { IfOk result (λ bytes. S.holds source.old name.now bytes.items × Fits bytes.items) }
    ensures fault { IfErr result (FailsRead (S.holds source.old name.now)) }
    ensures kept { (name bytes : List ℕ) → S.holds source.new name bytes → S.holds source.old name bytes }
{
    let bytes = source.read(name)?;
    if bytes.len() > MOST_BYTES {
        return Err(Fault::TooLarge);
    }
    Ok(bytes)
}

/// The bytes of the journal in a file, and none where no file is named.
fn read_journal<S: Source>(
    alloc: Global,
    source: &mut S,
    name: Option<&str>,
) -> Result<Vec<u8>, Fault>
    ensures read { IfOk result (λ bytes. HoldsJournal (S.holds source.old) (option_copied name.entry) bytes.items × Fits bytes.items) }
    ensures fault { IfErr result (FailsRead (HoldsJournal (S.holds source.old) (option_copied name.entry))) }
{
    match name {
        Some(name) => read_bounded(source, name),
        None => Ok(Vec::new(alloc)),
    }
}

/// The text of a script in a file, and the script.
pub(crate) fn read_source<S: Source>(
    alloc: Global,
    source: &mut S,
    name: &str,
) -> Result<(Vec<u8>, Script), Fault>
    ensures read { IfOk result (λ read. S.holds source.old name.now read.0.items × Spells read.0.items (script_of read.1)) }
    ensures trees { IfOk result (λ read. AreTreesOf read.0.items (script_of read.1) (trees_of_script read.1)) }
    ensures fault { IfErr result (FailsParse (S.holds source.old) name.now) }
    ensures kept { (name bytes : List ℕ) → S.holds source.new name bytes → S.holds source.old name bytes }
{
    let bytes = source.read(name)?;
    let script = parse(alloc, bytes.as_slice())?;
    Ok((bytes, script))
}

/// The script in a file.
pub(crate) fn read_script<S: Source>(
    alloc: Global,
    source: &mut S,
    name: &str,
) -> Result<Script, Fault>
    ensures read { IfOk result (λ script. (bytes : List ℕ) × S.holds source.old name.now bytes × Spells bytes (script_of script)) }
    ensures fault { IfErr result (FailsParse (S.holds source.old) name.now) }
    ensures kept { (name bytes : List ℕ) → S.holds source.new name bytes → S.holds source.old name bytes }
{
    let (_, script) = read_source(alloc, source, name)?;
    Ok(script)
}

/// What comes of the schedule in a file.
pub(crate) fn play_file<S: Source>(
    alloc: Global,
    source: &mut S,
    name: &str,
) -> Result<Vec<u8>, Fault>
    ensures played { IfOk result (λ text. OfSchedule (S.holds source.old) name.now (λ bytes. IsPlayed bytes text.items)) }
    ensures fault { IfErr result (FailsPlay (S.holds source.old) name.now) }
{
    let bytes = read_bounded(source, name)?;
    Ok(play_text(alloc, bytes.as_slice())?)
}

/// How many processes and channels the script in a file has.
pub(crate) fn check_file<S: Source>(
    alloc: Global,
    source: &mut S,
    name: &str,
) -> Result<Vec<u8>, Fault>
    ensures checked { IfOk result (λ text. (bytes : List ℕ) × S.holds source.old name.now bytes × IsChecked bytes text.items) }
    ensures fault { IfErr result (FailsParse (S.holds source.old) name.now) }
{
    let bytes = source.read(name)?;
    Ok(check_text(alloc, bytes.as_slice())?)
}

/// What comes of a journal, with its verdict.
fn judged(replayed: Replayed) -> Answer
    ensures { IsJudged replayed result.verdict result.text.items }
{
    let (verdict, text) = match replayed {
        Replayed::Lawful(text) => (Verdict::Done, text),
        Replayed::Unlawful(text) => (Verdict::Unlawful, text),
    };
    Answer {
        verdict,
        text,
        advice: Advice::Nothing,
    }
}

/// What is told of the script and the journal, by what is asked of them.
fn told_of(
    alloc: Global,
    script: &Script,
    text: &[u8],
    journal: &[u8],
    rows: u32,
    question: Question<'_>,
) -> Result<Replayed, Fault>
    requires rows { rows ≤ most_rows }
    requires trees { AreTreesOf text.now (script_of script.now) (trees_of_script script.now) }
    ensures told { IfOk result (TellsOf question.entry (script_of script.now) text.now rows journal.now) }
    ensures fault { IfErr result (FailsOf question.entry (script_of script.now) rows journal.now) }
{
    match question {
        Question::Replay => Ok(replay_text(alloc, script, journal, rows)?),
        Question::Why => Ok(why_journal(alloc, script, text, journal, rows)?),
        Question::Chart(drawing) => {
            let text = chart_journal(alloc, script, journal, rows, &drawing)?;
            Ok(Replayed::Lawful(text))
        }
        Question::Next => Ok(next_journal(alloc, script, journal, rows)?),
        Question::Stats => Ok(stats_journal(alloc, script, journal, rows)?),
    }
}

/// What is answered of the script in a file and the journal in another.
pub(crate) fn answer_journal<S: Source>(
    alloc: Global,
    asked: OfJournal<'_>,
    source: &mut S,
) -> Result<Answer, Fault>
    requires { asked.rows ≤ 1024 }
    ensures done { IfOk result (λ answer. AnswersJournal (S.holds source.old) asked.entry answer.verdict answer.text.items) }
    ensures fault { IfErr result (FailsJournal (S.holds source.old) asked.entry) }
{
    let (text, script) = read_source(alloc, source, asked.script)?;
    let journal = read_journal(alloc, source, asked.journal)?;
    let rows = all_rows(asked.rows, asked.seasons);
    let told = told_of(alloc, &script, &text, &journal, rows, asked.question)?;
    Ok(judged(told))
}

/// What is told of why a text is no script, with the verdict.
fn told_why_not(alloc: Global, text: Option<Vec<u8>>) -> Result<Answer, Fault>
    ensures told { IfOk result (λ answer. IsToldWhyNot (option_map (λ t. t.items) text) answer.verdict answer.text.items) }
    ensures fault { IfErr result (λ fault. fault ≡ Memory) }
{
    match text {
        Some(text) => Ok(Answer {
            verdict: Verdict::Denied,
            text,
            advice: Advice::Nothing,
        }),
        None => Ok(Answer {
            verdict: Verdict::Done,
            text: Vec::from_slice(alloc, b"this is a script\n")?,
            advice: Advice::Nothing,
        }),
    }
}

/// Why the text in a file is no script.
pub(crate) fn why_file<S: Source>(
    alloc: Global,
    source: &mut S,
    name: &str,
) -> Result<Answer, Fault>
    ensures done { IfOk result (λ answer. AnswersWhyScript (S.holds source.old) name.now answer.verdict answer.text.items) }
    ensures fault { IfErr result FailsWhyScript }
{
    let bytes = source.read(name)?;
    told_why_not(alloc, why_not(alloc, &bytes)?)
}

/// Why the text in a file is no script, in one line that begins with the file's name; nothing, where the text is a
/// script.
pub(crate) fn why_short_file<S: Source>(
    alloc: Global,
    source: &mut S,
    name: &str,
) -> Result<Answer, Fault>
    ensures done { IfOk result (λ answer. AnswersWhyShort (S.holds source.old) name.now answer.verdict answer.text.items) }
    ensures fault { IfErr result FailsWhyScript }
{
    let bytes = source.read(name)?;
    Ok(told_short(alloc, why_short(alloc, name, &bytes)?))
}

/// What is told of it, with the verdict.
fn told_short(alloc: Global, text: Option<Vec<u8>>) -> Answer
    ensures { IsToldShort (option_map (λ t. t.items) text) result.verdict result.text.items }
{
    let (verdict, text) = match text {
        Some(text) => (Verdict::Denied, text),
        None => (Verdict::Done, Vec::new(alloc)),
    };
    Answer {
        verdict,
        text,
        advice: Advice::Nothing,
    }
}
