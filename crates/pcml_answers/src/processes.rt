//! The lines of processes.

ghost use Rattle.std.specs.Prelude.{◌≡◌, ◌<◌, IfOk, OnOk, length, map};
ghost use Rattle.std.specs.String.{string_bytes};
ghost use Rattle.script.specs.Scripts.{script_of};
ghost use Rattle.pcml_answers.specs.Standings.{TellsStandings, process_line};
ghost use Rattle.journal_text.specs.Names.{named};
ghost use Rattle.script.specs.Appending.{Adds};

use journal_text::push_printed;
use protocol_values::Atom;
use script::Script;
use std::alloc::{AllocError, Global};
use thread::End;

/// Appends the name of a process.
pub fn push_name(out: &mut String, script: &Script, thread: usize) -> Result<(), AllocError>
    requires { thread < length (script_of script.now).processes }
    ensures { OnOk result (Adds out.old out.new ((named (script_of script.now)).thread thread)) }
{
    out.push_str(script.process_name(thread))
}

/// Appends the line of a process: its name, how it ended, and what it printed.
pub fn push_process(
    out: &mut String,
    script: &Script,
    thread: usize,
    end: End,
    printed: &[Atom],
) -> Result<(), AllocError>
    requires { thread < length (script_of script.now).processes }
    ensures { OnOk result (Adds out.old out.new (process_line (named (script_of script.now)) (record { thread = thread; end = end; printed = printed.now }))) }
{
    push_name(out, script, thread)?;
    out.push_str(" ")?;
    out.push_str(end.text())?;
    push_printed(out, script, printed)?;
    out.push_str("\n")
}

/// A line for each process, by how it ended and what it printed.
pub fn standing_lines(
    alloc: Global,
    script: &Script,
    ends: &[End],
    outputs: &[Vec<Atom>],
) -> Result<String, AllocError>
    requires ends { length ends.now ≡ length (script_of script.now).processes }
    requires outputs { length outputs.now ≡ length (script_of script.now).processes }
    ensures { IfOk result (λ lines. TellsStandings (named (script_of script.now)) ends.now (map (λ v. v.items) outputs.now) (string_bytes lines)) }
{
    let mut lines = String::new(alloc);
    for thread in 0..ends.len() {
        let printed = outputs[thread].as_slice();
        push_process(&mut lines, script, thread, ends[thread], printed)?;
    }
    Ok(lines)
}
