//! The text of who is left behind.

ghost use Rattle.std.specs.Prelude.{◌≡◌, ◌<◌, ◌≤◌, IfOk, IfSome, OnOk, length};
ghost use Rattle.std.specs.List.{AllByRecursion};
ghost use Rattle.std.specs.Option.{option_copied};
ghost use Rattle.protocol_values.specs.Commits.{most_rows};
ghost use Rattle.script.specs.Appending.{Adds};
ghost use Rattle.script.specs.Scripts.{script_of};
ghost use Rattle.journal_text.specs.Journals.{HasLine};
ghost use Rattle.journal_text.specs.Names.{named, names_of};
ghost use Rattle.reachable.specs.declared.left.Left.TheVariants.{Behind};
ghost use Rattle.reachable.specs.declared.left.LeftBehind.{LeftBehind as LeftBehindPart};
ghost use Rattle.pcml_outcomes.specs.Left.{AreLeft, TellsLeft, left_finding, left_line, left_run};

use crate::asked::journal_of;
use crate::finding::Finding;
use crate::sought::SoughtText;
use outcomes::Watch;
use pcml_answers::push_name;
use protocol_values::Commit;
use reachable::{AllLeft, Left, find_left};
use script::Script;
use std::alloc::{AllocError, Global};

/// Appends who is left behind, and how many states were seen.
fn push_left(out: &mut String, script: &Script, found: &AllLeft) -> Result<(), AllocError>
    requires { (left : LeftBehindPart) → found.now.left ≡ Behind left → left.process < length (script_of script.now).processes }
    ensures { OnOk result (Adds out.old out.new (left_line (named (script_of script.now)) found.now.left found.now.visited)) }
{
    let visited = found.visited;
    match &found.left {
        Left::Behind(left) => {
            out.push_str("left ")?;
            push_name(out, script, left.process)?;
            write!(out, " states {visited}\n")
        }
        Left::Nobody => write!(out, "left none states {visited} all\n"),
        Left::Unknown => write!(out, "left unknown states {visited} cut\n"),
    }
}

/// The run from where it never ends.
fn left_run<'a>(left: &'a Left) -> Option<&'a [Commit]>
    ensures { option_copied result ≡ left_run left.now }
{
    match left {
        Left::Behind(left) => Some(left.journal.as_slice()),
        Left::Nobody | Left::Unknown => None,
    }
}

fn left_finding(left: &Left) -> Finding
    ensures { result ≡ left_finding left.now }
{
    match left {
        Left::Behind(_) => Finding::Stuck,
        Left::Nobody => Finding::Clear,
        Left::Unknown => Finding::Open,
    }
}

/// Who of the script's processes is left behind.
fn found_left<W: Watch>(
    alloc: Global,
    script: &Script,
    limit: usize,
    marks: &[bool],
    watch: &mut W,
) -> Result<AllLeft, AllocError>
    requires limit { 1 ≤ limit }
    requires most { limit ≤ most_rows }
    requires marks { length marks.now ≡ length (script_of script.now).processes }
    ensures found { IfOk result (AreLeft (script_of script.now) limit marks.now) }
    ensures lines { IfOk result (λ found. IfSome (left_run found.left) (AllByRecursion (HasLine (names_of (script_of script.now))))) }
{
    let found = find_left(alloc, script.processes(), limit, marks, watch)?;
    Ok(found)
}

/// Who of the marked processes is left behind in runs of any length, as far as at most `limit` states show it, with the
/// journal that leads to where it never ends. There is a mark for each process.
pub fn left_text<W: Watch>(
    alloc: Global,
    script: &Script,
    limit: usize,
    marks: &[bool],
    watch: &mut W,
) -> Result<SoughtText, AllocError>
    requires limit { 1 ≤ limit }
    requires most { limit ≤ most_rows }
    requires marks { length marks.now ≡ length (script_of script.now).processes }
    ensures { IfOk result (TellsLeft (script_of script.now) limit marks.now) }
{
    let found = found_left(alloc, script, limit, marks, watch)?;
    let mut text = String::new(alloc);
    push_left(&mut text, script, &found)?;
    let journal = journal_of(alloc, script, left_run(&found.left))?;
    Ok(SoughtText {
        text: text.into_bytes(),
        journal,
        finding: left_finding(&found.left),
    })
}
