//! The lines of processes and channels, and the last one.

ghost use Rattle.std.specs.Prelude.{◌≡◌, OnOk, length, slice_index, slice_index_or};
ghost use Rattle.script.specs.Appending.{Adds};
ghost use Rattle.script.specs.Scripts.{script_of};
ghost use Rattle.journal_text.specs.Names.{named};
ghost use Rattle.pcml_answers.specs.Stats.{counts_text, each_below, total_text, uses_text};
ghost use Rattle.pcml_answers.specs.Tallies.{channel_text, nothing, process_text};

use crate::tallying::Tally;
use journal_text::{push_channel, push_thread};
use script::Script;
use std::alloc::AllocError;

fn push_counts(
    out: &mut String,
    sends: usize,
    receives: usize,
    alone: usize,
    last: u32,
) -> Result<(), AllocError>
    ensures { OnOk result (Adds out.old out.new (counts_text sends receives alone last)) }
{
    write!(
        out,
        " sends {sends} receives {receives} alone {alone} last {last}\n"
    )
}

fn push_process(
    out: &mut String,
    script: &Script,
    thread: u8,
    tally: Tally,
) -> Result<(), AllocError>
    ensures { OnOk result (Adds out.old out.new (process_text (named (script_of script.now)) thread tally)) }
{
    push_thread(out, script, thread)?;
    push_counts(out, tally.sends, tally.receives, tally.alone, tally.last)
}

/// A line for each process of the script.
pub(crate) fn push_processes(
    out: &mut String,
    script: &Script,
    tallies: &[Tally],
) -> Result<(), AllocError>
    requires { length tallies.now ≡ length (script_of script.now).processes }
    ensures { OnOk result (Adds out.old out.new (each_below (length (script_of script.now).processes) (λ t. process_text (named (script_of script.now)) t (slice_index_or tallies.now t nothing)))) }
{
    for thread in 0..script.processes().len() {
        push_process(out, script, thread as u8, tallies[thread])?;
    }
    Ok(())
}

fn push_uses(out: &mut String, uses: usize) -> Result<(), AllocError>
    ensures { OnOk result (Adds out.old out.new (uses_text uses)) }
{
    write!(out, " {uses}\n")
}

fn push_one_channel(
    out: &mut String,
    script: &Script,
    chan: u8,
    uses: usize,
) -> Result<(), AllocError>
    ensures { OnOk result (Adds out.old out.new (channel_text (named (script_of script.now)) chan uses)) }
{
    out.push_str("channel ")?;
    push_channel(out, script, chan)?;
    push_uses(out, uses)
}

/// A line for each channel of the script.
pub(crate) fn push_channels(
    out: &mut String,
    script: &Script,
    uses: &[usize],
) -> Result<(), AllocError>
    requires { length uses.now ≡ length (script_of script.now).channels }
    ensures { OnOk result (Adds out.old out.new (each_below (length (script_of script.now).channels) (λ c. channel_text (named (script_of script.now)) c (slice_index uses.now c)))) }
{
    for chan in 0..script.channels() {
        push_one_channel(out, script, chan as u8, uses[chan])?;
    }
    Ok(())
}

/// How many commits there are, and their greatest stamp.
pub(crate) fn push_total(out: &mut String, commits: usize, stamps: u32) -> Result<(), AllocError>
    ensures { OnOk result (Adds out.old out.new (total_text commits stamps)) }
{
    write!(out, "commits {commits} stamps {stamps}\n")
}
