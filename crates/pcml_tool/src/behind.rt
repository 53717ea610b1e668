//! What is told behind a fault: why a file cannot be read, or what is wrong with a script.

ghost use Rattle.std.specs.Prelude.{◌≢◌, IfOk, IfSome, IsTrue};
ghost use Rattle.pcml_files.specs.declared.source.SourceFault.TheVariants as files;
ghost use Rattle.pcml_tool.specs.Behind.{AreReadBy};
ghost use Rattle.pcml_tool.specs.Command.{AnswersWhyScript};
ghost use Rattle.pcml_tool.specs.declared.answer.Verdict.TheVariants.{Denied};
ghost use Rattle.pcml_tool.specs.declared.fault.Fault.TheVariants as faults;

use crate::answer::{Answer, Verdict};
use crate::fault::Fault;
use crate::from_files::why_file;
use pcml_files::{MOST_BYTES, Source, SourceFault};
use pcml_request::{OfJournal, OutcomesAsked, Request, Running, Seeking};
use std::alloc::Global;
use std::io::Write;

/// The files that a request reads: that of a script whose first fault it does not tell itself, and another one.
#[derive(Clone, Copy)]
pub(crate) struct FilesRead<'a> {
    script: Option<&'a str>,
    other: Option<&'a str>,
}

/// The files that the request reads.
pub(crate) fn files_of<'a>(asked: &Request<'a>) -> FilesRead<'a>
    ensures { AreReadBy asked.now result }
{
    let (script, other) = match asked {
        Request::Run(Running { script, .. })
        | Request::Outcomes(OutcomesAsked { script, .. })
        | Request::Seek(Seeking { script, .. })
        | Request::Check(script) => (Some(*script), None),
        Request::OfJournal(
            OfJournal {
                script,
                journal,
                ..
            },
        ) => (Some(*script), *journal),
        Request::Play(file) | Request::WhyScript(file) | Request::WhyShort(file) => {
            (None, Some(*file))
        }
        Request::Meet(_) | Request::Explain(_) | Request::Version => (None, None),
    };
    FilesRead { script, other }
}

/// Whether something can be told behind the fault: nothing was written then.
pub(crate) fn is_of_reading(fault: &Fault) -> bool
    ensures { IsTrue result → fault.now ≢ faults.File files.Unwritten }
{
    match fault {
        Fault::File(SourceFault::Unread) | Fault::TooLarge | Fault::Script(_) => true,
        _ => false,
    }
}

/// Tells why the file cannot be read, where it cannot.
fn tell_unread<S: Source, E: Write>(source: &S, name: Option<&str>, err: &mut E) {
    let Some(name) = name else { return };
    if let Err(error) = source.can_be_read_again(name) {
        let _ = writeln!(err, "cannot read {name}: {error}");
    }
}

/// Tells which file has more bytes than are read.
fn tell_large<E: Write>(name: &str, err: &mut E) {
    let name = if name == "-" {
        "the standard input"
    } else {
        name
    };
    let _ = writeln!(err, "{name} has more than {MOST_BYTES} bytes");
}

/// What `why FILE` tells of the text in the file, where that is no script.
fn first_fault<S: Source>(
    alloc: Global,
    source: &mut S,
    name: &str,
) -> Result<Option<Vec<u8>>, Fault>
    ensures { IfOk result (λ told. IfSome told (λ text. AnswersWhyScript (S.holds source.old) name.now Denied text.items)) }
{
    match why_file(alloc, source, name)? {
        Answer {
            verdict: Verdict::Denied,
            text,
            ..
        } => Ok(Some(text)),
        _ => Ok(None),
    }
}

/// Whether the text in the file begins as a journal does, and so is no script.
fn begins_as_journal<S: Source>(source: &mut S, name: &str) -> bool {
    match source.read(name) {
        Ok(text) => matches!(text.first(), Some(b'0'..=b'9')),
        Err(_) => false,
    }
}

/// Tells what is wrong with the text in the file, where that is no script, and whether it was named in another's place.
fn tell_script<S: Source, E: Write>(
    alloc: Global,
    source: &mut S,
    name: &str,
    is_first: bool,
    err: &mut E,
) {
    let Ok(Some(told)) = first_fault(alloc, source, name) else {
        return;
    };
    let _ = err.write_all(&told);
    if is_first && begins_as_journal(source, name) {
        let _ = writeln!(
            err,
            "help: {name} begins as a journal does, and the script is named first"
        );
    }
}

/// Tells what stands behind a fault of reading these files. Whether the stream takes it changes nothing.
pub(crate) fn tell_behind<S: Source, E: Write>(
    alloc: Global,
    source: &mut S,
    files: FilesRead<'_>,
    fault: &Fault,
    err: &mut E,
) {
    match (fault, files.script, files.other) {
        (Fault::Script(_), Some(name), other) => {
            if let Ok(true) = source.can_be_read_again(name) {
                tell_script(alloc, source, name, other.is_some(), err);
            }
        }
        (Fault::TooLarge, _, Some(name)) => tell_large(name, err),
        (_, script, other) => {
            tell_unread(source, script, err);
            tell_unread(source, other, err);
        }
    }
}
