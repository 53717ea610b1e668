//! Which processes names stand for.

ghost use Rattle.std.specs.Prelude.{◌≡◌, IfErr, IfOk, map};
ghost use Rattle.std.specs.List.{list_any};
ghost use Rattle.std.specs.Option.{option_copied};
ghost use Rattle.script_token.specs.Tokens.{same};
ghost use Rattle.script.specs.Scripts.{script_of};
ghost use Rattle.pcml_answers.specs.Needs.{Misnames, MisnamesAny, Names, NamesOrAll, are_in, first_unnamed, is_in, is_process, names_all, unnamed_in};
ghost use Rattle.pcml_answers.specs.declared.need.NamesFault.TheVariants.{Memory};

use script::Script;
use std::alloc::{AllocError, Global};

/// What stands for all processes, where it stands alone.
const ALL: &[u8] = b"all";

/// Why names stand for no processes.
#[derive(Debug, Drop)]
pub enum NamesFault {
    Memory,
    /// The first of the names that no process has.
    Unnamed(String),
}

impl From<AllocError> for NamesFault {
    ghost from_gives = { λ _ fault. fault ≡ Memory };

    fn from(_error: AllocError) -> NamesFault {
        NamesFault::Memory
    }
}

fn names_all(names: &[u8]) -> bool
    ensures { result ≡ names_all names.now }
{
    names == ALL
}

/// Whether a process has this name.
fn is_process(script: &Script, name: &[u8]) -> bool
    ensures { result ≡ is_process (script_of script.now) name.now }
{
    let processes = script.processes();
    for process in processes {
        if process.name().as_bytes() == name {
            return true;
        }
    }
    false
}

/// The first of the names that no process has.
fn unnamed_in<'a>(script: &Script, names: &'a [u8]) -> Option<&'a [u8]>
    ensures { option_copied result ≡ unnamed_in (script_of script.now) names.now }
{
    let mut begun = 0;
    for at in 0..names.len() {
        if names[at] == b',' {
            let name = &names[begun..at];
            if !is_process(script, name) {
                return Some(name);
            }
            begun = at + 1;
        }
    }
    let last = &names[begun..];
    if is_process(script, last) {
        None
    } else {
        Some(last)
    }
}

/// Whether the name is one of these, between which commas stand.
fn is_in(name: &[u8], names: &[u8]) -> bool
    ensures { result ≡ is_in name.now names.now }
{
    let mut begun = 0;
    for at in 0..names.len() {
        if names[at] == b',' {
            if &names[begun..at] == name {
                return true;
            }
            begun = at + 1;
        }
    }
    &names[begun..] == name
}

/// Of each process whether its name is one of these.
fn are_in(alloc: Global, script: &Script, names: &[u8]) -> Result<Vec<bool>, AllocError>
    ensures { IfOk result (λ named. named.items ≡ are_in (script_of script.now) names.now) }
{
    let mut named = Vec::new(alloc);
    let processes = script.processes();
    for process in processes {
        named.push(is_in(process.name().as_bytes(), names))?;
    }
    Ok(named)
}

/// Of each process whether it is one of those that the names stand for: processes' names with commas between, or `all`
/// alone for all of them. A process that is named `all` is named by `all,all`.
pub fn named_processes(alloc: Global, script: &Script, names: &str) -> Result<Vec<bool>, NamesFault>
    ensures named { IfOk result (λ named. Names (script_of script.now) names.now named.items) }
    ensures fault { IfErr result (Misnames (script_of script.now) names.now) }
{
    let bytes = names.as_bytes();
    if names_all(bytes) {
        return Ok(vec![in alloc; true; script.processes().len()]?);
    }
    match unnamed_in(script, bytes) {
        Some(name) => Err(NamesFault::Unnamed(String::from_utf8_lossy(alloc, name)?)),
        None => Ok(are_in(alloc, script, bytes)?),
    }
}

/// Of each process whether the names stand for it, as `named_processes` says; where no names are given, they stand for
/// all.
pub fn named_or_all(
    alloc: Global,
    script: &Script,
    names: Option<&str>,
) -> Result<Vec<bool>, NamesFault>
    ensures named { IfOk result (λ named. NamesOrAll (script_of script.now) (option_copied names.entry) named.items) }
    ensures fault { IfErr result (MisnamesAny (script_of script.now) (option_copied names.entry)) }
{
    match names {
        Some(names) => named_processes(alloc, script, names),
        None => Ok(vec![in alloc; true; script.processes().len()]?),
    }
}
