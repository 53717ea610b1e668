//! The names that a script declares.

ghost use Rattle.std.specs.Prelude.{◌≡◌, ◌≤◌, IfOk, length};
ghost use Rattle.script_reader.specs.Places.{texts};
ghost use Rattle.journal_text.specs.Answers.{listed};
ghost use Rattle.journal_text.specs.Names.{names_of};
ghost use Rattle.script.specs.Scripts.{script_of};

use crate::listing::Listing;
use script::Script;
use std::alloc::{AllocError, Global};

/// The names of a script's processes and channels, by their numbers.
#[derive(Drop)]
pub(crate) struct Names<'a> {
    pub(crate) threads: Listing<'a>,
    pub(crate) channels: Listing<'a>,
}

pub(crate) fn thread_names<'a>(
    alloc: Global,
    script: &'a Script,
) -> Result<Vec<&'a str>, AllocError>
    ensures value { IfOk result (λ names. texts names.items ≡ (names_of (script_of script.now)).threads) }
    ensures few { IfOk result (λ names. length names.items ≤ 256) }
{
    let mut names = Vec::new(alloc);
    for process in script.processes() {
        names.push(process.name())?;
    }
    Ok(names)
}

pub(crate) fn channel_names<'a>(
    alloc: Global,
    script: &'a Script,
) -> Result<Vec<&'a str>, AllocError>
    ensures value { IfOk result (λ names. texts names.items ≡ (names_of (script_of script.now)).channels) }
    ensures few { IfOk result (λ names. length names.items ≤ 256) }
{
    let mut names = Vec::new(alloc);
    for c in 0..script.channels() {
        names.push(script.channel_name(c))?;
    }
    Ok(names)
}

impl Names<'_> {
    pub(crate) fn new<'a>(alloc: Global, script: &'a Script) -> Result<Names<'a>, AllocError>
        ensures { IfOk result (λ names. listed names ≡ names_of (script_of script.now)) }
    {
        let threads = thread_names(alloc, script)?;
        let channels = channel_names(alloc, script)?;
        Ok(Names {
            threads: Listing::new(alloc, threads)?,
            channels: Listing::new(alloc, channels)?,
        })
    }
}
