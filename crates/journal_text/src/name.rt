//! Names of threads, channels and nacks.

ghost use Rattle.std.specs.Prelude.{OnOk};
ghost use Rattle.journal_text.specs.Texts.{nack_text};
ghost use Rattle.script.specs.Appending.{Adds};
ghost use Rattle.script.specs.Scripts.{script_of};
ghost use Rattle.journal_text.specs.Names.{named};

use protocol_values::NackName;
use script::Script;
use std::alloc::AllocError;

/// The name of the thread, or nothing where the script has no such thread.
pub fn push_thread(out: &mut String, script: &Script, thread: u8) -> Result<(), AllocError>
    ensures { OnOk result (Adds out.old out.new ((named (script_of script.now)).thread thread)) }
{
    if usize::from(thread) < script.processes().len() {
        out.push_str(script.process_name(usize::from(thread)))?;
    }
    Ok(())
}

/// The name of the channel, or nothing where the script has no such channel.
pub fn push_channel(out: &mut String, script: &Script, chan: u8) -> Result<(), AllocError>
    ensures { OnOk result (Adds out.old out.new ((named (script_of script.now)).channel chan)) }
{
    if usize::from(chan) < script.channels() {
        out.push_str(script.channel_name(usize::from(chan)))?;
    }
    Ok(())
}

/// The name of the thread that holds the nack, and its number.
pub fn push_nack(out: &mut String, script: &Script, nack: NackName) -> Result<(), AllocError>
    ensures { OnOk result (Adds out.old out.new (nack_text (named (script_of script.now)) nack)) }
{
    push_thread(out, script, nack.thread)?;
    write!(out, ".{}", nack.k)
}
