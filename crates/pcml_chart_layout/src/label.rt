//! What stands beside a commit.

ghost use Rattle.std.specs.Prelude.{◌≡◌, ◌≤◌, ◌+◌, IfOk, OnOk};
ghost use Rattle.std.specs.String.{string_bytes};
ghost use Rattle.script.specs.Scripts.{script_of};
ghost use Rattle.pcml_chart_layout.specs.Labels.{gap_of, is_arrow, label_text, parties, sent_text, whose};
ghost use Rattle.pcml_chart_layout.specs.Places.{owners};
ghost use Rattle.journal_text.specs.Names.{named};
ghost use Rattle.script.specs.Appending.{Adds};

use crate::columns::Columns;
use crate::places::beside;
use journal_text::{push_cause, push_channel, push_message, push_thread};
use protocol_values::{Commit, Message};
use script::Script;
use std::alloc::{AllocError, Global};

/// The channel and the message of an arrow.
fn push_sent(out: &mut String, script: &Script, chan: u8, msg: Message) -> Result<(), AllocError>
    ensures { OnOk result (Adds out.old out.new (sent_text (named (script_of script.now)) chan msg)) }
{
    push_channel(out, script, chan)?;
    out.push_str(" ")?;
    push_message(out, script, msg)
}

/// Whose mark it is, where the column does not tell it.
fn push_whose(
    out: &mut String,
    script: &Script,
    columns: &Columns<'_>,
    thread: u8,
) -> Result<(), AllocError>
    ensures { OnOk result (Adds out.old out.new (whose (named (script_of script.now)) columns.now.own.now thread)) }
{
    if columns.is_own(usize::from(thread)) {
        return Ok(());
    }
    push_thread(out, script, thread)?;
    out.push_str(": ")
}

/// From whom to whom, where the columns do not tell it.
fn push_parties(
    out: &mut String,
    script: &Script,
    columns: &Columns<'_>,
    one: u8,
    other: u8,
) -> Result<(), AllocError>
    ensures { OnOk result (Adds out.old out.new (parties (named (script_of script.now)) columns.now.own.now one other)) }
{
    if columns.of(one) == columns.of(other) {
        push_thread(out, script, one)?;
        out.push_str("->")?;
        push_thread(out, script, other)?;
        out.push_str(" ")
    } else {
        push_whose(out, script, columns, one)?;
        push_whose(out, script, columns, other)
    }
}

/// What stands beside the commit.
pub fn label_text(
    alloc: Global,
    script: &Script,
    columns: &Columns<'_>,
    commit: &Commit,
) -> Result<String, AllocError>
    ensures { IfOk result (λ text. string_bytes text ≡ label_text (named (script_of script.now)) columns.now.own.now commit.now) }
{
    let mut text = String::new(alloc);
    match *commit {
        Commit::Pair {
            sender,
            receiver,
            chan,
            msg,
            ..
        } => {
            push_parties(
                &mut text,
                script,
                columns,
                sender.0.thread,
                receiver.0.thread,
            )?;
            push_sent(&mut text, script, chan, msg)?;
        }
        Commit::Alone { at, cause, .. } => {
            push_whose(&mut text, script, columns, at.0.thread)?;
            push_cause(&mut text, script, cause)?;
        }
    }
    Ok(text)
}

pub(crate) fn is_arrow(columns: &Columns<'_>, commit: &Commit) -> bool
    ensures { result ≡ is_arrow columns.now.own.now commit.now }
{
    match commit {
        Commit::Pair {
            sender,
            receiver,
            ..
        } => columns.of(sender.0.thread) != columns.of(receiver.0.thread),
        Commit::Alone { .. } => false,
    }
}

/// The gap in which the label of a commit stands.
pub(crate) fn gap_of(columns: &Columns<'_>, commit: &Commit) -> usize
    ensures value { result ≡ gap_of columns.now.own.now commit.now }
    ensures within { result ≤ owners columns.now.own.now + 1 }
{
    match commit {
        Commit::Pair {
            sender,
            receiver,
            ..
        } => beside(columns.of(sender.0.thread), columns.of(receiver.0.thread)),
        Commit::Alone { at, .. } => columns.of(at.0.thread),
    }
}
