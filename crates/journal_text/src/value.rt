//! Atoms, messages and causes as they stand in a journal.

ghost use Rattle.std.specs.Prelude.{OnOk};
ghost use Rattle.journal_text.specs.Texts.{atom_text, cause_text, message_text};
ghost use Rattle.script.specs.Appending.{Adds};
ghost use Rattle.script.specs.Scripts.{script_of};
ghost use Rattle.journal_text.specs.Names.{named};

use crate::name::{push_channel, push_nack, push_thread};
use protocol_values::{Atom, Cause, Message};
use script::Script;
use std::alloc::AllocError;

/// Appends the atom as it stands in a journal, with the names of the script.
pub fn push_atom(out: &mut String, script: &Script, atom: Atom) -> Result<(), AllocError>
    ensures { OnOk result (Adds out.old out.new (atom_text (named (script_of script.now)) atom)) }
{
    match atom {
        Atom::Num(number) => write!(out, "{number}"),
        Atom::Chan(chan) => {
            out.push_str("#")?;
            push_channel(out, script, chan)
        }
        Atom::Nack(nack) => {
            out.push_str("!")?;
            push_nack(out, script, nack)
        }
    }
}

/// The message as it stands in a journal.
pub fn push_message(out: &mut String, script: &Script, message: Message) -> Result<(), AllocError>
    ensures { OnOk result (Adds out.old out.new (message_text (named (script_of script.now)) message)) }
{
    out.push_str("(")?;
    match message {
        Message::Empty => {}
        Message::One(first) => push_atom(out, script, first)?,
        Message::Two(first, second) => {
            push_atom(out, script, first)?;
            out.push_str(", ")?;
            push_atom(out, script, second)?;
        }
        Message::Three(first, second, third) => {
            push_atom(out, script, first)?;
            out.push_str(", ")?;
            push_atom(out, script, second)?;
            out.push_str(", ")?;
            push_atom(out, script, third)?;
        }
    }
    out.push_str(")")
}

/// Why a row was committed alone, as it stands in a journal.
pub fn push_cause(out: &mut String, script: &Script, cause: Cause) -> Result<(), AllocError>
    ensures { OnOk result (Adds out.old out.new (cause_text (named (script_of script.now)) cause)) }
{
    match cause {
        Cause::Always(message) => {
            out.push_str("always ")?;
            push_message(out, script, message)
        }
        Cause::Nack(nack) => {
            out.push_str("cancelled ")?;
            push_nack(out, script, nack)
        }
        Cause::End(thread) => {
            out.push_str("joined ")?;
            push_thread(out, script, thread)
        }
    }
}
