//! Whole scripts.

ghost use Rattle.std.specs.Prelude.{◌≡◌, IfOk, OnOk};
ghost use Rattle.std.specs.String.{string_bytes};
ghost use Rattle.script_tree.specs.Processes.{proc_of};
ghost use Rattle.script.specs.Scripts.{script_of};
ghost use Rattle.script_writer.specs.Canon.{Canon};
ghost use Rattle.script_writer.specs.Laws.{IsSpelledBy, IsReadFrom, IsSpelledByCanon, IsReadAgain, HasItsOwnCanon};
ghost use Rattle.script_writer.specs.Plain.{process_names};
ghost use Rattle.script_writer.specs.Texts.{channels_text, process_text, processes_text};
ghost use Rattle.script.specs.Appending.{Adds};

use crate::names::Source;
use crate::process::put_block;
use script::Script;
use script_tree::Proc;
use std::alloc::{AllocError, Global};

fn put_channels(out: &mut String, script: &Script) -> Result<(), AllocError>
    ensures { OnOk result (Adds out.old out.new (channels_text (script_of script.now).channels)) }
{
    for channel in 0..script.channels() {
        out.push_str("channel ")?;
        out.push_str(script.channel_name(channel))?;
        out.push_str(" ;\n")?;
    }
    Ok(())
}

fn put_process(out: &mut String, script: &Script, process: &Proc) -> Result<(), AllocError>
    ensures { OnOk result (Adds out.old out.new (process_text (script_of script.now).channels (process_names (script_of script.now).processes) (proc_of process.now))) }
{
    out.push_str("process ")?;
    out.push_str(process.name())?;
    out.push_str(" ")?;
    put_block(out, &Source { script, process }, process.body())
}

fn put_processes(out: &mut String, script: &Script) -> Result<(), AllocError>
    ensures { OnOk result (Adds out.old out.new (processes_text (script_of script.now).channels (process_names (script_of script.now).processes) (script_of script.now).processes)) }
{
    let processes = script.processes();
    for process in processes {
        put_process(out, script, process)?;
    }
    Ok(())
}

/// The canonical text of a script, which spells it, and is read as it where it has at most 65,536 bytes.
pub fn write(alloc: Global, script: &Script) -> Result<String, AllocError>
    ensures canon { IfOk result (λ text. string_bytes text ≡ Canon (script_of script.now)) }
    ensures spelled { IfOk result (λ text. IsSpelledBy (string_bytes text) (script_of script.now)) }
    ensures again { IfOk result (λ text. IsReadFrom (string_bytes text) (script_of script.now)) }
{
    let mut out = String::new(alloc);
    put_channels(&mut out, script)?;
    put_processes(&mut out, script)?;
    Ok(out)
}

/// The canonical text of a script that some text spells, spells it and is read as it where it is not too
/// long, and no other script has it.
pub fn writing_laws()
    ensures spelled { IsSpelledByCanon }
    ensures again { IsReadAgain }
    ensures own { HasItsOwnCanon }
{}
