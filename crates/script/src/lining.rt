//! Trees with the lines of their statements. A tree that was read has none yet.
//!
//! Each statement is written with one word, and so is the sync that a loop's turns begin with. The words of a text come
//! in the order of its statements, so the lines of its words are given out one after another.
//!
//! Blocks and choices are gone through by loops, so that only depth takes stack.

ghost use Rattle.std.specs.Prelude.{◌≡◌, ◌+◌, ◌++◌, IfOk, OnOk, map, get_or};
ghost use Rattle.script_tree.specs.Lined.{block_of, event_of, events_of, stmt_of};
ghost use Rattle.script_tree.specs.Trees.{block_of as plain_block, event_of as plain_event, events_of as plain_events, stmt_of as plain_stmt, turn_of as plain_turn};
ghost use Rattle.script_token.specs.Lexemes.{seen, seen_at};
ghost use Rattle.script.specs.Lines.{is_statement, line_of, text_words, word_at};
ghost use Rattle.script.specs.Lining.{count_block, count_event, count_members, count_stmt, count_turn, lined_block, lined_event, lined_members, lined_stmt, lined_turn, turn_of};

use crate::copying::{copy_expr, copy_exprs, copy_test};
use script_token::{Placed, Symbol, Token};
use script_tree::{Block, Event, Events, LoopBody, Stmt};
use std::alloc::{AllocError, Global};
use std::sync::Arc;

/// Whether a statement is written with the word.
fn is_statement(symbol: Symbol) -> bool
    ensures { result ≡ is_statement symbol }
{
    matches!(
        symbol,
        Symbol::Let
            | Symbol::Print
            | Symbol::Sync
            | Symbol::If
            | Symbol::Loop
            | Symbol::Forever
            | Symbol::End
            | Symbol::Spawn
    )
}

/// Adds the line of the token, where a statement is written with it. No memory holds a text of more than 4294967295
/// lines.
fn push_line(lines: &mut Vec<u32>, placed: &Placed<'_>) -> Result<(), AllocError>
    ensures { OnOk result (lines.new.items ≡ lines.old.items ++ map line_of (word_at (seen_at placed.now))) }
{
    let Token::Symbol(symbol) = placed.token else {
        return Ok(());
    };
    if !is_statement(symbol) {
        return Ok(());
    }
    let line = u32::try_from(placed.line).ok().ok_or(AllocError)?;
    lines.push(line)?;
    Ok(())
}

/// The lines of the words with which statements are written.
pub(crate) fn statement_lines(alloc: Global, tokens: &[Placed<'_>]) -> Result<Vec<u32>, AllocError>
    ensures { IfOk result (λ lines. lines.items ≡ map line_of (text_words (seen tokens.now))) }
{
    let mut lines = Vec::new(alloc);
    for placed in tokens {
        push_line(&mut lines, placed)?;
    }
    Ok(lines)
}

/// The next line, or 0 where none is left.
fn take(lines: &[u32], next: &mut usize) -> Result<u32, AllocError>
    ensures line { IfOk result (λ line. line ≡ get_or lines.now next.old 0) }
    ensures next { IfOk result (λ line. next.new ≡ next.old + 1) }
{
    let line = lines.get(*next).copied().unwrap_or(0);
    *next = next.checked_add(1).ok_or(AllocError)?;
    Ok(line)
}

/// The block, the same but for its lines, which are the next.
#[tactic(auto, using(crate::proofs::Given::tree_plain))]
pub(crate) fn with_lines(
    alloc: Global,
    lines: &[u32],
    next: &mut usize,
    block: &Block,
) -> Result<Arc<Block>, AllocError>
    ensures same { IfOk result (λ all. plain_block all.value ≡ plain_block block.now) }
    ensures lines { IfOk result (λ all. block_of all.value ≡ lined_block lines.now next.old (plain_block block.now)) }
    ensures next { OnOk result (next.new ≡ next.old + count_block (plain_block block.now)) }
{
    let all = line_block(alloc, lines, next, block)?;
    Ok(all)
}

/// The block with its lines.
#[cycle(lining)]
fn line_block(
    alloc: Global,
    lines: &[u32],
    next: &mut usize,
    block: &Block,
) -> Result<Arc<Block>, AllocError>
    ensures block { IfOk result (λ all. block_of all.value ≡ lined_block lines.now next.old (plain_block block.now)) }
    ensures next { IfOk result (λ all. next.new ≡ next.old + count_block (plain_block block.now)) }
{
    let mut parts = Vec::new(alloc);
    let mut rest = block;
    while let Block::Then(stmt, _, more) = rest {
        let line = take(lines, next)?;
        let part = line_stmt(alloc, lines, next, stmt)?;
        parts.push((part, line))?;
        rest = more;
    }
    let mut all = Arc::new(alloc, Block::Done)?;
    while let Some((part, line)) = parts.pop() {
        all = Arc::new(alloc, Block::Then(part, line, all))?;
    }
    Ok(all)
}

/// The statement, whose own line has been taken.
#[cycle(lining)]
fn line_stmt(
    alloc: Global,
    lines: &[u32],
    next: &mut usize,
    stmt: &Stmt,
) -> Result<Stmt, AllocError>
    ensures stmt { IfOk result (λ all. stmt_of all ≡ lined_stmt lines.now next.old (plain_stmt stmt.now)) }
    ensures next { IfOk result (λ all. next.new ≡ next.old + count_stmt (plain_stmt stmt.now)) }
{
    match stmt {
        Stmt::Let(name, value) => {
            let value = copy_expr(value)?;
            Ok(Stmt::Let(*name, value))
        }
        Stmt::Print(value) => {
            let value = copy_expr(value)?;
            Ok(Stmt::Print(value))
        }
        Stmt::Sync(names, event) => {
            let event = line_event(alloc, lines, next, event)?;
            Ok(Stmt::Sync(*names, event))
        }
        Stmt::If(test, first, second) => {
            let test = copy_test(test)?;
            let first = line_block(alloc, lines, next, first)?;
            let second = line_block(alloc, lines, next, second)?;
            Ok(Stmt::If(test, first, second))
        }
        Stmt::Loop(times, turn) => {
            let turn = line_turn(alloc, lines, next, turn)?;
            Ok(Stmt::Loop(*times, turn))
        }
        Stmt::Forever(turn) => {
            let turn = line_turn(alloc, lines, next, turn)?;
            Ok(Stmt::Forever(turn))
        }
        Stmt::End => Ok(Stmt::End),
        Stmt::Spawn(process) => Ok(Stmt::Spawn(*process)),
    }
}

/// The turn of a loop, whose sync has the next line.
#[cycle(lining)]
fn line_turn(
    alloc: Global,
    lines: &[u32],
    next: &mut usize,
    turn: &LoopBody,
) -> Result<Arc<LoopBody>, AllocError>
    ensures turn { IfOk result (λ all. turn_of all.value ≡ lined_turn lines.now next.old (plain_turn turn.now)) }
    ensures next { IfOk result (λ all. next.new ≡ next.old + count_turn (plain_turn turn.now)) }
{
    let line = take(lines, next)?;
    let event = line_event(alloc, lines, next, &turn.event)?;
    let rest = line_block(alloc, lines, next, &turn.rest)?;
    let all = LoopBody {
        names: turn.names,
        event,
        rest,
        line,
    };
    let all = Arc::new(alloc, all)?;
    Ok(all)
}

/// The event, with the lines of the blocks within it.
#[cycle(lining)]
fn line_event(
    alloc: Global,
    lines: &[u32],
    next: &mut usize,
    event: &Arc<Event>,
) -> Result<Arc<Event>, AllocError>
    ensures event { IfOk result (λ all. event_of all.value ≡ lined_event lines.now next.old (plain_event event.now.value)) }
    ensures next { IfOk result (λ all. next.new ≡ next.old + count_event (plain_event event.now.value)) }
{
    match &**event {
        Event::Choose(members) => {
            let members = line_members(alloc, lines, next, members)?;
            let all = Arc::new(alloc, Event::Choose(members))?;
            Ok(all)
        }
        Event::Wrap(inner, names, list) => {
            let inner = line_event(alloc, lines, next, inner)?;
            let list = copy_exprs(list)?;
            let all = Arc::new(alloc, Event::Wrap(inner, *names, list))?;
            Ok(all)
        }
        Event::Guard(body, inner) => {
            let body = line_block(alloc, lines, next, body)?;
            let inner = line_event(alloc, lines, next, inner)?;
            let all = Arc::new(alloc, Event::Guard(body, inner))?;
            Ok(all)
        }
        Event::Nack(name, body, inner) => {
            let body = line_block(alloc, lines, next, body)?;
            let inner = line_event(alloc, lines, next, inner)?;
            let all = Arc::new(alloc, Event::Nack(*name, body, inner))?;
            Ok(all)
        }
        Event::Send(_, _)
        | Event::Recv(_)
        | Event::Always(_)
        | Event::Never
        | Event::Cancelled(_)
        | Event::Joined(_) => {
            let all = Arc::try_clone(event)?;
            Ok(all)
        }
    }
}

/// The members of a choice.
#[cycle(lining)]
fn line_members(
    alloc: Global,
    lines: &[u32],
    next: &mut usize,
    members: &Arc<Events>,
) -> Result<Arc<Events>, AllocError>
    ensures members { IfOk result (λ all. events_of all.value ≡ lined_members lines.now next.old (plain_events members.now.value)) }
    ensures next { IfOk result (λ all. next.new ≡ next.old + count_members (plain_events members.now.value)) }
{
    let mut parts = Vec::new(alloc);
    let mut rest = members;
    while let Events::More(member, others) = &**rest {
        parts.push(line_event(alloc, lines, next, member)?)?;
        rest = others;
    }
    let mut all = Arc::new(alloc, Events::Nothing)?;
    while let Some(part) = parts.pop() {
        all = Arc::new(alloc, Events::More(part, all))?;
    }
    Ok(all)
}
