//! Which processes and which values texts name.

ghost use Rattle.std.specs.Prelude.{◌≡◌, ◌<◌, IfErr, IfNone, IfOk, IfSome, OnOk, Some, length, map};
ghost use Rattle.std.specs.String.{string_bytes};
ghost use Rattle.script.specs.Appending.{Adds};
ghost use Rattle.script.specs.Scripts.{script_of};
ghost use Rattle.journal_text.specs.Names.{named};
ghost use Rattle.pcml_answers.specs.Prints.{HasWords, IsProcess, MisnamesPrints, NamePrints, NamesNone, NamesPrint, only_value, print_text, value_line};
ghost use Rattle.pcml_answers.specs.declared.prints.Print.{Print as PrintPart};
ghost use Rattle.pcml_answers.specs.declared.prints.PrintsFault.TheVariants.{Memory};

use crate::processes::push_name;
use journal_text::{JournalFault, push_atom, read_journal};
use protocol_values::{Atom, Cause, Commit, Message};
use script::Script;
use std::alloc::{AllocError, AllocFailed, Global};

/// A process, and a value that it may print.
#[derive(Clone, Copy, Debug)]
pub struct Print {
    /// The number of the process.
    pub process: usize,
    pub value: Atom,
}

/// Why texts name no prints.
#[derive(Debug, Drop)]
pub enum PrintsFault {
    Memory,
    /// A text that names no process and value.
    Unprinted(String),
}

impl<T: Drop> From<AllocFailed<T>> for PrintsFault {
    ghost from_gives = { λ _ e. e ≡ Memory };

    fn from(_e: AllocFailed<T>) -> PrintsFault {
        PrintsFault::Memory
    }
}

impl From<AllocError> for PrintsFault {
    ghost from_gives = { λ _ e. e ≡ Memory };

    fn from(_e: AllocError) -> PrintsFault {
        PrintsFault::Memory
    }
}

/// The line of a journal in which the process of this name takes this value alone.
fn value_line(alloc: Global, name: &str, value: &str) -> Result<String, AllocError>
    ensures { IfOk result (λ line. string_bytes line ≡ value_line name.now value.now) }
{
    format!(in alloc; "1 {name}.0.0 always ({value})\n")
}

/// The process that a journal of one such line tells of, and the value.
fn only_value(commits: &[Commit]) -> Option<Print>
    ensures { result ≡ only_value commits.now }
{
    match commits {
        [
            Commit::Alone {
                at: (row, _),
                cause: Cause::Always(Message::One(value)),
                ..
            },
        ] => Some(Print {
            process: usize::from(row.thread),
            value: *value,
        }),
        _ => None,
    }
}

/// The process and the value of these names, as a journal's line has them: so what is printed is read as it is written.
fn read_print(
    alloc: Global,
    script: &Script,
    name: &str,
    value: &str,
) -> Result<Option<Print>, AllocError>
    ensures process { IfOk result (λ read. IfSome read (IsProcess (script_of script.now))) }
    ensures none { IfOk result (λ read. (print : PrintPart) → HasWords (script_of script.now) name.now value.now print → read ≡ Some print) }
{
    let line = value_line(alloc, name, value)?;
    match read_journal(alloc, script, line.as_bytes()) {
        Ok(commits) => Ok(only_value(&commits)),
        Err(JournalFault::Memory) => Err(AllocError),
        Err(JournalFault::BadLine(_)) => Ok(None),
    }
}

/// Appends the process and the value, as `NAME=VALUE`.
fn push_print(out: &mut String, script: &Script, print: Print) -> Result<(), AllocError>
    requires { IsProcess (script_of script.now) print }
    ensures { OnOk result (Adds out.old out.new (print_text (named (script_of script.now)) print)) }
{
    push_name(out, script, print.process)?;
    out.push_str("=")?;
    push_atom(out, script, print.value)
}

/// The process and the value that `NAME=VALUE` names, with the value as `print` writes it; none where it names none.
pub fn named_print(alloc: Global, script: &Script, text: &str) -> Result<Option<Print>, AllocError>
    ensures named { IfOk result (λ found. IfSome found (NamesPrint (script_of script.now) text.now)) }
    ensures none { IfOk result (λ found. IfNone found (NamesNone (script_of script.now) text.now)) }
{
    let Some((name, value)) = text.split_once('=') else {
        return Ok(None);
    };
    let Some(print) = read_print(alloc, script, name, value)? else {
        return Ok(None);
    };
    let mut spelled = String::new(alloc);
    push_print(&mut spelled, script, print)?;
    if spelled.as_str() == text {
        Ok(Some(print))
    } else {
        Ok(None)
    }
}

/// What each of the texts names, in their order. The first that names nothing is a fault.
pub fn named_prints(
    alloc: Global,
    script: &Script,
    texts: &[&str],
) -> Result<Vec<Print>, PrintsFault>
    ensures named { IfOk result (λ prints. NamePrints (script_of script.now) (map (λ t. t.now) texts.now) prints.items) }
    ensures fault { IfErr result (MisnamesPrints (script_of script.now) (map (λ t. t.now) texts.now)) }
{
    let mut prints = Vec::with_capacity(alloc, texts.len())?;
    for text in texts {
        let Some(print) = named_print(alloc, script, text)? else {
            return Err(PrintsFault::Unprinted(String::from_str(alloc, text)?));
        };
        prints.push(print)?;
    }
    Ok(prints)
}
