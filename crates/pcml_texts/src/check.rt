//! What `check` prints.

ghost use Rattle.std.specs.Prelude.{◌≡◌, IfOk, IfErr};
ghost use Rattle.std.specs.String.{string_bytes};
ghost use Rattle.script.specs.FirstFaults.{Tells};
ghost use Rattle.pcml_texts.specs.Check.{check_line, IsChecked};

use script::{ScriptFault, parse};
use std::alloc::{AllocError, Global};

fn check_line(alloc: Global, processes: usize, channels: usize) -> Result<String, AllocError>
    ensures { IfOk result (λ line. string_bytes line ≡ check_line processes channels) }
{
    format!(in alloc; "processes {processes} channels {channels}\n")
}

/// How many processes and channels the script in the bytes has, or its fault.
pub fn check_text(alloc: Global, bytes: &[u8]) -> Result<Vec<u8>, ScriptFault>
    ensures checked { IfOk result (λ text. IsChecked bytes.now text.items) }
    ensures fault { IfErr result (Tells bytes.now) }
{
    let script = parse(alloc, bytes)?;
    let Ok(line) = check_line(alloc, script.processes().len(), script.channels()) else {
        return Err(ScriptFault::Memory);
    };
    Ok(line.into_bytes())
}
