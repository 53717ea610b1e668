//! Events, statements and blocks.

ghost use Rattle.std.specs.Prelude.{OnOk};
ghost use Rattle.std.specs.Option.{option_map};
ghost use Rattle.script_tree.specs.Trees.{names_of as numbers_of, exprs_of, event_of, events_of, stmt_of, block_of, turn_of, Chooses, Wraps};
ghost use Rattle.script_writer.specs.Texts.{event_text, events_text, stmt_text, stmts_text, block_text, sync_text, turn_text};
ghost use Rattle.script_writer.specs.Sources.{source_names};
ghost use Rattle.script.specs.Appending.{Adds};

use crate::exprs::{put_expr, put_list, put_test};
use crate::names::{Source, put_as, put_name, put_process_name, put_received, put_variable};
use script_tree::{Block, Event, Events, Exprs, LoopBody, Names, Stmt};
use std::alloc::AllocError;

#[cycle(tree)]
fn put_event(out: &mut String, source: &Source<'_>, event: &Event) -> Result<(), AllocError>
    ensures { OnOk result (Adds out.old out.new (event_text (source_names source.now) (event_of event.now))) }
{
    match event {
        Event::Send(channel, list) => {
            out.push_str("send ")?;
            put_name(out, source, *channel)?;
            put_list(out, source, list)
        }
        Event::Recv(channel) => {
            out.push_str("recv ")?;
            put_name(out, source, *channel)
        }
        Event::Always(list) => {
            out.push_str("always ")?;
            put_list(out, source, list)
        }
        Event::Never => out.push_str("never "),
        Event::Cancelled(nack) => {
            out.push_str("cancelled ")?;
            put_name(out, source, *nack)
        }
        Event::Joined(process) => {
            out.push_str("joined ")?;
            put_process_name(out, source, usize::from(*process))
        }
        Event::Choose(members) => put_choice(out, source, members),
        Event::Wrap(inner, names, list) => put_wrap(out, source, inner, *names, list),
        Event::Guard(body, inner) => {
            out.push_str("guard ")?;
            put_block(out, source, body)?;
            put_event(out, source, inner)
        }
        Event::Nack(name, body, inner) => {
            out.push_str("nack ")?;
            put_variable(out, source, *name)?;
            put_block(out, source, body)?;
            put_event(out, source, inner)
        }
    }
}

/// An event, wrapped to give this list.
#[cycle(tree)]
fn put_wrap(
    out: &mut String,
    source: &Source<'_>,
    inner: &Event,
    names: Option<Names>,
    list: &Exprs,
) -> Result<(), AllocError>
    ensures { OnOk result (Adds out.old out.new (event_text (source_names source.now) (Wraps (event_of inner.now) (option_map numbers_of names) (exprs_of list.now)))) }
{
    out.push_str("wrap ")?;
    put_event(out, source, inner)?;
    put_as(out, source, names)?;
    out.push_str("to ")?;
    put_list(out, source, list)
}

/// A choice of these members.
#[cycle(tree)]
fn put_choice(out: &mut String, source: &Source<'_>, members: &Events) -> Result<(), AllocError>
    ensures { OnOk result (Adds out.old out.new (event_text (source_names source.now) (Chooses (events_of members.now)))) }
{
    out.push_str("choose [ ")?;
    put_events(out, source, members)?;
    out.push_str("] ")
}

/// The members of a choice.
#[cycle(tree)]
fn put_events(out: &mut String, source: &Source<'_>, events: &Events) -> Result<(), AllocError>
    ensures { OnOk result (Adds out.old out.new (events_text (source_names source.now) (events_of events.now))) }
{
    let Events::More(first, others) = events else {
        return Ok(());
    };
    put_event(out, source, first)?;
    let mut rest: &Events = others;
    while let Events::More(event, next) = rest {
        out.push_str(", ")?;
        put_event(out, source, event)?;
        rest = next;
    }
    Ok(())
}

#[cycle(tree)]
fn put_sync(
    out: &mut String,
    source: &Source<'_>,
    event: &Event,
    names: Option<Names>,
) -> Result<(), AllocError>
    ensures { OnOk result (Adds out.old out.new (sync_text (source_names source.now) (option_map numbers_of names) (event_of event.now))) }
{
    put_received(out, source, names)?;
    out.push_str("sync ")?;
    put_event(out, source, event)?;
    out.push_str(";\n")
}

#[cycle(tree)]
fn put_stmt(out: &mut String, source: &Source<'_>, stmt: &Stmt) -> Result<(), AllocError>
    ensures { OnOk result (Adds out.old out.new (stmt_text (source_names source.now) (stmt_of stmt.now))) }
{
    match stmt {
        Stmt::Let(name, value) => {
            out.push_str("let ")?;
            put_variable(out, source, *name)?;
            out.push_str("= ")?;
            put_expr(out, source, value)?;
            out.push_str(";\n")
        }
        Stmt::Print(value) => {
            out.push_str("print ")?;
            put_expr(out, source, value)?;
            out.push_str(";\n")
        }
        Stmt::Sync(names, event) => put_sync(out, source, event, *names),
        Stmt::If(test, first, second) => {
            out.push_str("if ")?;
            put_test(out, source, test)?;
            put_block(out, source, first)?;
            out.push_str("else ")?;
            put_block(out, source, second)
        }
        Stmt::Loop(times, turn) => {
            write!(out, "loop {times} ")?;
            put_turn(out, source, turn)
        }
        Stmt::Forever(turn) => {
            out.push_str("forever ")?;
            put_turn(out, source, turn)
        }
        Stmt::End => out.push_str("end ;\n"),
        Stmt::Spawn(process) => {
            out.push_str("spawn ")?;
            put_process_name(out, source, usize::from(*process))?;
            out.push_str(";\n")
        }
    }
}

/// The statements of a block, without the braces round them.
#[cycle(tree)]
fn put_stmts(out: &mut String, source: &Source<'_>, block: &Block) -> Result<(), AllocError>
    ensures { OnOk result (Adds out.old out.new (stmts_text (source_names source.now) (block_of block.now))) }
{
    let mut rest = block;
    while let Block::Then(stmt, _, next) = rest {
        put_stmt(out, source, stmt)?;
        rest = next;
    }
    Ok(())
}

#[cycle(tree)]
pub(crate) fn put_block(
    out: &mut String,
    source: &Source<'_>,
    block: &Block,
) -> Result<(), AllocError>
    ensures { OnOk result (Adds out.old out.new (block_text (source_names source.now) (block_of block.now))) }
{
    out.push_str("{\n")?;
    put_stmts(out, source, block)?;
    out.push_str("}\n")
}

/// The body of a loop.
#[cycle(tree)]
fn put_turn(out: &mut String, source: &Source<'_>, turn: &LoopBody) -> Result<(), AllocError>
    ensures { OnOk result (Adds out.old out.new (turn_text (source_names source.now) (turn_of turn.now))) }
{
    out.push_str("{\n")?;
    put_sync(out, source, &turn.event, turn.names)?;
    put_stmts(out, source, &turn.rest)?;
    out.push_str("}\n")
}
