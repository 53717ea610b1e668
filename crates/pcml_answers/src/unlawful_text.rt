//! The words of a reason.

ghost use Rattle.std.specs.Prelude.{◌++◌, OnOk};
ghost use Rattle.script.specs.Appending.{Adds};
ghost use Rattle.script.specs.Scripts.{script_of};
ghost use Rattle.journal_text.specs.Names.{named};
ghost use Rattle.pcml_answers.specs.Texts.{count_text, late_text, next_text, other_text, reason_text, row_text};

use crate::reason::Reason;
use journal_text::{push_nack, push_offer, push_syncs, push_thread};
use protocol_values::{Base, Row};
use script::Script;
use std::alloc::AllocError;

/// The name of a thread, and words behind it.
fn push_words(out: &mut String, script: &Script, thread: u8, words: &str) -> Result<(), AllocError>
    ensures { OnOk result (Adds out.old out.new ((named (script_of script.now)).thread thread ++ words.now)) }
{
    push_thread(out, script, thread)?;
    out.push_str(words)
}

fn push_row(out: &mut String, script: &Script, thread: u8, sync: usize) -> Result<(), AllocError>
    ensures { OnOk result (Adds out.old out.new (row_text (named (script_of script.now)) thread sync)) }
{
    push_thread(out, script, thread)?;
    write!(out, ".{sync}")
}

/// That the row is not the next sync of its thread.
fn push_late(out: &mut String, script: &Script, row: Row) -> Result<(), AllocError>
    ensures { OnOk result (Adds out.old out.new (late_text (named (script_of script.now)) row)) }
{
    push_row(out, script, row.thread, row.sync as usize)?;
    out.push_str(" is not the next sync of ")?;
    push_thread(out, script, row.thread)
}

/// That the row is not the next sync of its thread, and which one is.
fn push_next(out: &mut String, script: &Script, row: Row, next: usize) -> Result<(), AllocError>
    ensures { OnOk result (Adds out.old out.new (next_text (named (script_of script.now)) row next)) }
{
    push_late(out, script, row)?;
    out.push_str(", ")?;
    push_row(out, script, row.thread, next)?;
    out.push_str(" is\n")
}

/// How many offers the row has, where it has none of this number.
fn push_count(
    out: &mut String,
    script: &Script,
    at: (Row, u8),
    count: usize,
) -> Result<(), AllocError>
    ensures { OnOk result (Adds out.old out.new (count_text (named (script_of script.now)) at count)) }
{
    let (row, number) = at;
    push_row(out, script, row.thread, row.sync as usize)?;
    write!(out, " has no offer {number}: it has {count}\n")
}

/// What the row offers under this number, and what it does not.
fn push_other(
    out: &mut String,
    script: &Script,
    at: (Row, u8),
    offered: Base,
    needed: Base,
) -> Result<(), AllocError>
    ensures { OnOk result (Adds out.old out.new (other_text (named (script_of script.now)) at offered needed)) }
{
    let (row, number) = at;
    write!(out, "offer {number} of ")?;
    push_row(out, script, row.thread, row.sync as usize)?;
    out.push_str(" is ")?;
    push_offer(out, script, offered)?;
    out.push_str(", not ")?;
    push_offer(out, script, needed)?;
    out.push_str("\n")
}

/// Appends the line that tells the reason, of processes of so many rows each.
pub fn push_reason(
    out: &mut String,
    script: &Script,
    rows: u32,
    reason: Reason,
) -> Result<(), AllocError>
    ensures { OnOk result (Adds out.old out.new (reason_text (named (script_of script.now)) rows reason)) }
{
    match reason {
        Reason::OneThread(thread) => push_words(out, script, thread, " would meet itself\n"),
        Reason::Unstarted(thread) => push_words(out, script, thread, " has not started\n"),
        Reason::Ended(thread) => push_words(out, script, thread, " ended before\n"),
        Reason::Faulted(thread) => push_words(out, script, thread, " faulted before\n"),
        Reason::Spent(thread) => {
            push_words(out, script, thread, " is spent")?;
            push_syncs(out, rows)
        }
        Reason::Sync { row, next } => push_next(out, script, row, next),
        Reason::NoOffer { at, count } => push_count(out, script, at, count),
        Reason::OtherOffer {
            at,
            offered,
            needed,
        } => push_other(out, script, at, offered, needed),
        Reason::NotFired(nack) => {
            out.push_str("the nack ")?;
            push_nack(out, script, nack)?;
            out.push_str(" is not enabled\n")
        }
        Reason::NotEnded(thread) => push_words(out, script, thread, " has not ended\n"),
        Reason::Stamp(stamp) => write!(out, "the stamp has to be {stamp}\n"),
    }
}
