//! What is told of a text that is to be a script.

ghost use Rattle.std.specs.Prelude.{IfErr, IfOk};
ghost use Rattle.pcml_check_c.specs.Scripts.{IsCounted, IsExplained, RefusesMemory, RefusesScript};

use crate::refusal::Refusal;
use crate::told::{Code, Told};
use pcml_texts::check_text;
use script_mistakes::why_not;
use std::alloc::Global;

/// How many processes and channels the script has.
pub(crate) fn counted(alloc: Global, script: &[u8]) -> Result<Told, Refusal>
    ensures told { IfOk result (IsCounted script.now) }
    ensures refused { IfErr result (RefusesScript script.now) }
{
    let text = check_text(alloc, script)?;
    Ok(Told {
        code: Code::Done,
        line: 0,
        text,
    })
}

/// Why the text is no script.
pub(crate) fn explained(alloc: Global, script: &[u8]) -> Result<Told, Refusal>
    ensures told { IfOk result (IsExplained script.now) }
    ensures refused { IfErr result RefusesMemory }
{
    match why_not(alloc, script)? {
        Some(text) => Ok(Told {
            code: Code::NoScript,
            line: 0,
            text,
        }),
        None => Ok(Told {
            code: Code::Done,
            line: 0,
            text: Vec::from_slice(alloc, b"this is a script\n")?,
        }),
    }
}
