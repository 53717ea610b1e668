//! What a process did that goes no further, in words.

ghost use Rattle.std.specs.Prelude.{◌≡◌, OnOk};
ghost use Rattle.journal_text.specs.Endings.{printed_text, syncs_text, syncs_word};
ghost use Rattle.journal_text.specs.Names.{named};
ghost use Rattle.script.specs.Appending.{Adds};
ghost use Rattle.script.specs.Scripts.{script_of};

use crate::value::push_atom;
use protocol_values::Atom;
use script::Script;
use std::alloc::AllocError;

fn syncs_word(rows: u32) -> &'static str
    ensures { result.now ≡ syncs_word rows }
{
    if rows == 1 { " sync\n" } else { " syncs\n" }
}

/// Appends how many syncs a process made that is spent.
#[tactic(auto, unfolding(crate::specs::Endings::syncs_text))]
pub fn push_syncs(out: &mut String, rows: u32) -> Result<(), AllocError>
    ensures { OnOk result (Adds out.old out.new (syncs_text rows)) }
{
    write!(out, ": it made {rows}")?;
    out.push_str(syncs_word(rows))
}

/// Appends what a process printed: each atom behind a space.
pub fn push_printed(out: &mut String, script: &Script, printed: &[Atom]) -> Result<(), AllocError>
    ensures { OnOk result (Adds out.old out.new (printed_text (named (script_of script.now)) printed.now)) }
{
    for atom in printed {
        out.push_str(" ")?;
        push_atom(out, script, *atom)?;
    }
    Ok(())
}
