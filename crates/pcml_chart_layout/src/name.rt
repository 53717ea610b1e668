//! The names of processes.

ghost use Rattle.std.specs.Prelude.{◌≡◌, IfOk};
ghost use Rattle.std.specs.String.{string_bytes};
ghost use Rattle.script.specs.Scripts.{script_of};
ghost use Rattle.journal_text.specs.Names.{named};

use journal_text::push_thread;
use script::Script;
use std::alloc::{AllocError, Global};

/// The name of the process, or nothing where the script has no such process.
pub fn thread_name(alloc: Global, script: &Script, thread: u8) -> Result<String, AllocError>
    ensures { IfOk result (λ text. string_bytes text ≡ (named (script_of script.now)).thread thread) }
{
    let mut text = String::new(alloc);
    push_thread(&mut text, script, thread)?;
    Ok(text)
}
