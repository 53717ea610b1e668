//! Events, statements and blocks, read from the front. What was read goes into its share at once: a tree
//! that lay about while the next step may fail would be dropped there case by case, and proved so.
//!
//! Trees that are read have no lines yet, but 0 for each. `script` writes the lines.

ghost use Rattle.std.specs.Prelude.{◌≡◌, ◌<◌, ◌-◌, IfOk, OnOk, map};
ghost use Rattle.std.specs.Option.{option_map};
ghost use Rattle.script_reader.specs.Steps.{Gives, Tells, bare, here};
ghost use Rattle.script_tree.specs.Trees.{event_of, events_of, stmt_of, block_of, turn_of, names_of};
ghost use Rattle.script_reader.specs.Blocks.{chain, body, base_at, nack_word_at, send_at, recv_at, always_at, never_at, cancelled_at, joined_at, as_names_at, members_with, choose_with, wrap_with, guard_with, nack_with, event_at, synced_with, sync_with, let_at, print_at, end_at, spawn_at, branch_with, times_at, counted_with, forever_with, are_allowed, stmt_at, stmts_with, block_at, is_no_sync, turn_at};

use crate::expr::{read_expr, read_list, read_test};
use crate::fault::{Fault, Problem, Stop};
use crate::names::{bind_name, bind_names, read_name, read_process, spawn_process};
use crate::scope::{Counts, Scope};
use crate::step::{accept, begin, expect, fault, is_next, left, name_at, number_at, stop};
use script_token::{Placed, Symbol};
use script_tree::{Block, Event, Events, LoopBody, Names, Stmt};
use std::alloc::{AllocError, Global};
use std::sync::Arc;

/// The most base events of a sync.
const BASES: u8 = 8;

/// The most nacks of a sync.
const NACKS: u8 = 4;

/// Whether loops may stand in a block. They may not in that of a guard or a nack.
#[derive(Clone, Copy, Debug, PartialEq, Eq)]
pub enum Loops {
    Allowed,
    Forbidden,
}

fn are_allowed(loops: Loops) -> bool
    ensures { result ≡ are_allowed loops }
{
    matches!(loops, Loops::Allowed)
}

fn link_events(alloc: Global, mut events: Vec<Event>) -> Result<Events, AllocError>
    ensures { IfOk result (λ e. events_of e ≡ chain (map event_of events.items)) }
{
    let mut linked = Events::Nothing;
    while let Some(event) = events.pop() {
        let first = Arc::new(alloc, event)?;
        linked = Events::More(first, Arc::new(alloc, linked)?);
    }
    Ok(linked)
}

fn link_stmts(alloc: Global, mut stmts: Vec<Stmt>) -> Result<Block, AllocError>
    ensures { IfOk result (λ b. block_of b ≡ body (map stmt_of stmts.items)) }
{
    let mut linked = Block::Done;
    while let Some(stmt) = stmts.pop() {
        linked = Block::Then(stmt, 0, Arc::new(alloc, linked)?);
    }
    Ok(linked)
}

/// The word of a base event, which is counted.
#[tactic(auto, unfolding(crate::specs::Blocks::base_at))]
fn base<'a>(
    scope: &mut Scope<'a>,
    tokens: &'a [Placed<'a>],
    nesting: usize,
) -> Result<&'a [Placed<'a>], Fault>
    ensures { Tells (λ x. (here scope.new, bare x.now)) result (base_at nesting (here scope.old) (bare tokens.now)) }
{
    if scope.counts.bases >= BASES {
        return Err(fault(Problem::TooMany, tokens));
    }
    let rest = accept(tokens, nesting)?;
    scope.counts.bases += 1;
    Ok(rest)
}

/// The word `nack`, which is counted.
#[tactic(auto, unfolding(crate::specs::Blocks::nack_word_at))]
fn nack_word<'a>(
    scope: &mut Scope<'a>,
    tokens: &'a [Placed<'a>],
    nesting: usize,
) -> Result<&'a [Placed<'a>], Fault>
    ensures value { Tells (λ x. (here scope.new, bare x.now)) result (nack_word_at nesting (here scope.old) (bare tokens.now)) }
    ensures deep { OnOk result (0 < nesting) }
{
    if scope.counts.nacks >= NACKS {
        return Err(fault(Problem::TooMany, tokens));
    }
    let rest = accept(tokens, nesting)?;
    scope.counts.nacks += 1;
    Ok(rest)
}

#[tactic(auto, unfolding(crate::specs::Blocks::send_at))]
fn send<'a>(
    alloc: Global,
    scope: &mut Scope<'a>,
    tokens: &'a [Placed<'a>],
    nesting: usize,
) -> Result<(Event, &'a [Placed<'a>]), Stop>
    ensures { Gives (λ x. (event_of x.0, here scope.new, bare x.1.now)) result (send_at nesting (here scope.old) (bare tokens.now)) }
{
    let rest = base(scope, tokens, nesting)?;
    let (channel, rest) = read_name(scope, rest, nesting)?;
    let (list, rest) = read_list(alloc, scope, rest, nesting)?;
    Ok((Event::Send(channel, list), rest))
}

#[tactic(auto, unfolding(crate::specs::Blocks::recv_at))]
fn recv<'a>(
    scope: &mut Scope<'a>,
    tokens: &'a [Placed<'a>],
    nesting: usize,
) -> Result<(Event, &'a [Placed<'a>]), Fault>
    ensures { Tells (λ x. (event_of x.0, here scope.new, bare x.1.now)) result (recv_at nesting (here scope.old) (bare tokens.now)) }
{
    let rest = base(scope, tokens, nesting)?;
    let (channel, rest) = read_name(scope, rest, nesting)?;
    Ok((Event::Recv(channel), rest))
}

#[tactic(auto, unfolding(crate::specs::Blocks::always_at))]
fn always<'a>(
    alloc: Global,
    scope: &mut Scope<'a>,
    tokens: &'a [Placed<'a>],
    nesting: usize,
) -> Result<(Event, &'a [Placed<'a>]), Stop>
    ensures { Gives (λ x. (event_of x.0, here scope.new, bare x.1.now)) result (always_at nesting (here scope.old) (bare tokens.now)) }
{
    let rest = base(scope, tokens, nesting)?;
    let (list, rest) = read_list(alloc, scope, rest, nesting)?;
    Ok((Event::Always(list), rest))
}

#[tactic(auto, unfolding(crate::specs::Blocks::never_at))]
fn never<'a>(
    scope: &mut Scope<'a>,
    tokens: &'a [Placed<'a>],
    nesting: usize,
) -> Result<(Event, &'a [Placed<'a>]), Fault>
    ensures { Tells (λ x. (event_of x.0, here scope.new, bare x.1.now)) result (never_at nesting (here scope.old) (bare tokens.now)) }
{
    let rest = base(scope, tokens, nesting)?;
    Ok((Event::Never, rest))
}

#[tactic(auto, unfolding(crate::specs::Blocks::cancelled_at))]
fn cancelled<'a>(
    scope: &mut Scope<'a>,
    tokens: &'a [Placed<'a>],
    nesting: usize,
) -> Result<(Event, &'a [Placed<'a>]), Fault>
    ensures { Tells (λ x. (event_of x.0, here scope.new, bare x.1.now)) result (cancelled_at nesting (here scope.old) (bare tokens.now)) }
{
    let rest = base(scope, tokens, nesting)?;
    let (nack, rest) = read_name(scope, rest, nesting)?;
    Ok((Event::Cancelled(nack), rest))
}

#[tactic(auto, unfolding(crate::specs::Blocks::joined_at))]
fn joined<'a>(
    scope: &mut Scope<'a>,
    tokens: &'a [Placed<'a>],
    nesting: usize,
) -> Result<(Event, &'a [Placed<'a>]), Fault>
    ensures { Tells (λ x. (event_of x.0, here scope.new, bare x.1.now)) result (joined_at nesting (here scope.old) (bare tokens.now)) }
{
    let rest = base(scope, tokens, nesting)?;
    let (process, rest) = read_process(scope, rest, nesting)?;
    Ok((Event::Joined(process), rest))
}

/// The names behind `as`, if there are any.
#[tactic(auto, unfolding(crate::specs::Blocks::as_names_at))]
fn as_names<'a>(
    scope: &mut Scope<'a>,
    tokens: &'a [Placed<'a>],
    nesting: usize,
) -> Result<(Option<Names>, &'a [Placed<'a>]), Stop>
    ensures { Gives (λ x. (option_map names_of x.0, here scope.new, bare x.1.now)) result (as_names_at nesting (here scope.old) (bare tokens.now)) }
{
    if !is_next(tokens, Symbol::As) {
        return Ok((None, tokens));
    }
    let rest = accept(tokens, nesting)?;
    let (names, rest) = bind_names(scope, rest, nesting)?;
    Ok((Some(names), rest))
}

/// An event.
#[cycle(reading)]
#[tactic(auto, using(crate::proofs::Blocking::event_at_is), unfolding(crate::specs::Blocks::event_with))]
fn read_event<'a>(
    alloc: Global,
    scope: &mut Scope<'a>,
    tokens: &'a [Placed<'a>],
    nesting: usize,
) -> Result<(Event, &'a [Placed<'a>]), Stop>
    ensures { Gives (λ x. (event_of x.0, here scope.new, bare x.1.now)) result (event_at nesting (here scope.old) (bare tokens.now)) }
{
    if is_next(tokens, Symbol::Send) {
        return send(alloc, scope, tokens, nesting);
    }
    if is_next(tokens, Symbol::Recv) {
        return Ok(recv(scope, tokens, nesting)?);
    }
    if is_next(tokens, Symbol::Always) {
        return always(alloc, scope, tokens, nesting);
    }
    if is_next(tokens, Symbol::Never) {
        return Ok(never(scope, tokens, nesting)?);
    }
    if is_next(tokens, Symbol::Cancelled) {
        return Ok(cancelled(scope, tokens, nesting)?);
    }
    if is_next(tokens, Symbol::Joined) {
        return Ok(joined(scope, tokens, nesting)?);
    }
    if is_next(tokens, Symbol::Choose) {
        return choose(alloc, scope, tokens, nesting);
    }
    if is_next(tokens, Symbol::Wrap) {
        return wrap(alloc, scope, tokens, nesting);
    }
    if is_next(tokens, Symbol::Guard) {
        return guard(alloc, scope, tokens, nesting);
    }
    if is_next(tokens, Symbol::Nack) {
        return nack(alloc, scope, tokens, nesting);
    }
    Err(stop(Problem::Syntax, tokens))
}

#[cycle(reading)]
#[tactic(auto, unfolding(crate::specs::Blocks::choose_with))]
fn choose<'a>(
    alloc: Global,
    scope: &mut Scope<'a>,
    tokens: &'a [Placed<'a>],
    nesting: usize,
) -> Result<(Event, &'a [Placed<'a>]), Stop>
    ensures { Gives (λ x. (event_of x.0, here scope.new, bare x.1.now)) result (choose_with (event_at (nesting - 1)) nesting (here scope.old) (bare tokens.now)) }
{
    let rest = accept(tokens, nesting)?;
    let rest = expect(rest, nesting, Symbol::OpenBracket)?;
    let (events, rest) = members(alloc, scope, rest, nesting - 1)?;
    let rest = expect(rest, nesting - 1, Symbol::CloseBracket)?;
    let events = link_events(alloc, events)?;
    Ok((Event::Choose(Arc::new(alloc, events)?), rest))
}

/// The members of a choice, up to the closing mark.
#[cycle(reading)]
#[tactic(auto, unfolding(crate::specs::Blocks::members_with))]
fn members<'a>(
    alloc: Global,
    scope: &mut Scope<'a>,
    tokens: &'a [Placed<'a>],
    nesting: usize,
) -> Result<(Vec<Event>, &'a [Placed<'a>]), Stop>
    ensures { Gives (λ x. (map event_of x.0.items, here scope.new, bare x.1.now)) result (members_with (event_at nesting) nesting (here scope.old) (bare tokens.now)) }
{
    let mut events = Vec::new(alloc);
    if is_next(tokens, Symbol::CloseBracket) {
        return Ok((events, tokens));
    }
    let (event, mut rest) = read_event(alloc, scope, tokens, nesting)?;
    events.push(event)?;
    for _turn in 0..tokens.len() {
        if !is_next(rest, Symbol::Comma) {
            return Ok((events, rest));
        }
        let after = accept(rest, nesting)?;
        let (event, after) = read_event(alloc, scope, after, nesting)?;
        events.push(event)?;
        rest = after;
    }
    Ok((events, rest))
}

#[cycle(reading)]
#[tactic(auto, unfolding(crate::specs::Blocks::wrap_with))]
fn wrap<'a>(
    alloc: Global,
    scope: &mut Scope<'a>,
    tokens: &'a [Placed<'a>],
    nesting: usize,
) -> Result<(Event, &'a [Placed<'a>]), Stop>
    ensures { Gives (λ x. (event_of x.0, here scope.new, bare x.1.now)) result (wrap_with (event_at (nesting - 1)) nesting (here scope.old) (bare tokens.now)) }
{
    let rest = accept(tokens, nesting)?;
    let (event, rest) = read_event(alloc, scope, rest, nesting - 1)?;
    let event = Arc::new(alloc, event)?;
    let (names, rest) = as_names(scope, rest, nesting - 1)?;
    let rest = expect(rest, nesting - 1, Symbol::To)?;
    let (list, rest) = read_list(alloc, scope, rest, nesting - 1)?;
    Ok((Event::Wrap(event, names, list), rest))
}

#[cycle(reading)]
#[tactic(auto, unfolding(crate::specs::Blocks::guard_with))]
fn guard<'a>(
    alloc: Global,
    scope: &mut Scope<'a>,
    tokens: &'a [Placed<'a>],
    nesting: usize,
) -> Result<(Event, &'a [Placed<'a>]), Stop>
    ensures { Gives (λ x. (event_of x.0, here scope.new, bare x.1.now)) result (guard_with (event_at (nesting - 1)) (block_at (nesting - 1)) nesting (here scope.old) (bare tokens.now)) }
{
    let rest = accept(tokens, nesting)?;
    let (body, rest) = read_block(alloc, scope, rest, nesting - 1, Loops::Forbidden)?;
    let body = Arc::new(alloc, body)?;
    let (event, rest) = read_event(alloc, scope, rest, nesting - 1)?;
    let event = Arc::new(alloc, event)?;
    Ok((Event::Guard(body, event), rest))
}

#[cycle(reading)]
#[tactic(auto, unfolding(crate::specs::Blocks::nack_with))]
fn nack<'a>(
    alloc: Global,
    scope: &mut Scope<'a>,
    tokens: &'a [Placed<'a>],
    nesting: usize,
) -> Result<(Event, &'a [Placed<'a>]), Stop>
    ensures { Gives (λ x. (event_of x.0, here scope.new, bare x.1.now)) result (nack_with (event_at (nesting - 1)) (block_at (nesting - 1)) nesting (here scope.old) (bare tokens.now)) }
{
    let rest = nack_word(scope, tokens, nesting)?;
    let (name, rest) = bind_name(scope, rest, nesting - 1, None)?;
    let (body, rest) = read_block(alloc, scope, rest, nesting - 1, Loops::Forbidden)?;
    let body = Arc::new(alloc, body)?;
    let (event, rest) = read_event(alloc, scope, rest, nesting - 1)?;
    let event = Arc::new(alloc, event)?;
    Ok((Event::Nack(name, body, event), rest))
}

/// The event of a sync, whose base events and nacks are its own, and the mark that ends it.
#[cycle(reading)]
#[tactic(auto, unfolding(crate::specs::Blocks::synced_with))]
fn synced<'a>(
    alloc: Global,
    scope: &mut Scope<'a>,
    tokens: &'a [Placed<'a>],
    nesting: usize,
) -> Result<(Arc<Event>, &'a [Placed<'a>]), Stop>
    ensures { Gives (λ x. (event_of x.0.value, here scope.new, bare x.1.now)) result (synced_with (event_at nesting) nesting (here scope.old) (bare tokens.now)) }
{
    let rest = expect(tokens, nesting, Symbol::Sync)?;
    let around = scope.counts;
    scope.counts = Counts { bases: 0, nacks: 0 };
    let (event, rest) = read_event(alloc, scope, rest, nesting)?;
    scope.counts = around;
    let event = Arc::new(alloc, event)?;
    let rest = expect(rest, nesting, Symbol::Semicolon)?;
    Ok((event, rest))
}

/// A sync, and the names that its result is bound to.
#[cycle(reading)]
#[tactic(auto, unfolding(crate::specs::Blocks::sync_with))]
fn read_sync<'a>(
    alloc: Global,
    scope: &mut Scope<'a>,
    tokens: &'a [Placed<'a>],
    nesting: usize,
) -> Result<(Option<Names>, Arc<Event>, &'a [Placed<'a>]), Stop>
    ensures { Gives (λ x. ((option_map names_of x.0, event_of x.1.value), here scope.new, bare x.2.now)) result (sync_with (event_at nesting) nesting (here scope.old) (bare tokens.now)) }
{
    if is_next(tokens, Symbol::Sync) {
        let (event, rest) = synced(alloc, scope, tokens, nesting)?;
        return Ok((None, event, rest));
    }
    let (names, rest) = bind_names(scope, tokens, nesting)?;
    let rest = expect(rest, nesting, Symbol::Arrow)?;
    let (event, rest) = synced(alloc, scope, rest, nesting)?;
    Ok((Some(names), event, rest))
}

#[tactic(auto, unfolding(crate::specs::Blocks::let_at))]
fn let_stmt<'a>(
    alloc: Global,
    scope: &mut Scope<'a>,
    tokens: &'a [Placed<'a>],
    nesting: usize,
) -> Result<(Stmt, &'a [Placed<'a>]), Stop>
    ensures { Gives (λ x. (stmt_of x.0, here scope.new, bare x.1.now)) result (let_at nesting (here scope.old) (bare tokens.now)) }
{
    let rest = accept(tokens, nesting)?;
    let (name, rest) = bind_name(scope, rest, nesting, None)?;
    let rest = expect(rest, nesting, Symbol::Equal)?;
    let (value, rest) = read_expr(alloc, scope, rest, nesting)?;
    let rest = expect(rest, nesting, Symbol::Semicolon)?;
    Ok((Stmt::Let(name, value), rest))
}

#[tactic(auto, unfolding(crate::specs::Blocks::print_at))]
fn print_stmt<'a>(
    alloc: Global,
    scope: &Scope<'a>,
    tokens: &'a [Placed<'a>],
    nesting: usize,
) -> Result<(Stmt, &'a [Placed<'a>]), Stop>
    ensures { Gives (λ x. (stmt_of x.0, bare x.1.now)) result (print_at nesting (here scope.now) (bare tokens.now)) }
{
    let rest = accept(tokens, nesting)?;
    let (value, rest) = read_expr(alloc, scope, rest, nesting)?;
    let rest = expect(rest, nesting, Symbol::Semicolon)?;
    Ok((Stmt::Print(value), rest))
}

#[tactic(auto, unfolding(crate::specs::Blocks::end_at))]
fn end_stmt<'a>(tokens: &'a [Placed<'a>], nesting: usize) -> Result<(Stmt, &'a [Placed<'a>]), Fault>
    ensures { Tells (λ x. (stmt_of x.0, bare x.1.now)) result (end_at nesting (bare tokens.now)) }
{
    let rest = accept(tokens, nesting)?;
    let rest = expect(rest, nesting, Symbol::Semicolon)?;
    Ok((Stmt::End, rest))
}

#[tactic(auto, unfolding(crate::specs::Blocks::spawn_at))]
fn spawn_stmt<'a>(
    scope: &mut Scope<'a>,
    tokens: &'a [Placed<'a>],
    nesting: usize,
) -> Result<(Stmt, &'a [Placed<'a>]), Stop>
    ensures { Gives (λ x. (stmt_of x.0, here scope.new, bare x.1.now)) result (spawn_at nesting (here scope.old) (bare tokens.now)) }
{
    let rest = accept(tokens, nesting)?;
    let (process, rest) = spawn_process(scope, rest, nesting)?;
    let rest = expect(rest, nesting, Symbol::Semicolon)?;
    Ok((Stmt::Spawn(process), rest))
}

/// A statement.
#[cycle(reading)]
#[tactic(auto, unfolding(crate::specs::Blocks::stmt_at, crate::specs::Blocks::stmt_with))]
fn read_stmt<'a>(
    alloc: Global,
    scope: &mut Scope<'a>,
    tokens: &'a [Placed<'a>],
    nesting: usize,
    loops: Loops,
) -> Result<(Stmt, &'a [Placed<'a>]), Stop>
    ensures { Gives (λ x. (stmt_of x.0, here scope.new, bare x.1.now)) result (stmt_at nesting loops (here scope.old) (bare tokens.now)) }
{
    if name_at(tokens).is_some() || is_next(tokens, Symbol::Sync) {
        let (names, event, rest) = read_sync(alloc, scope, tokens, nesting)?;
        return Ok((Stmt::Sync(names, event), rest));
    }
    if is_next(tokens, Symbol::Let) {
        return let_stmt(alloc, scope, tokens, nesting);
    }
    if is_next(tokens, Symbol::Print) {
        let (stmt, rest) = print_stmt(alloc, scope, tokens, nesting)?;
        return Ok((stmt, rest));
    }
    if is_next(tokens, Symbol::If) {
        return branch(alloc, scope, tokens, nesting, loops);
    }
    if is_next(tokens, Symbol::End) {
        let (stmt, rest) = end_stmt(tokens, nesting)?;
        return Ok((stmt, rest));
    }
    if is_next(tokens, Symbol::Spawn) {
        return spawn_stmt(scope, tokens, nesting);
    }
    if !are_allowed(loops) {
        return Err(stop(Problem::Syntax, tokens));
    }
    if is_next(tokens, Symbol::Loop) {
        return counted(alloc, scope, tokens, nesting);
    }
    if is_next(tokens, Symbol::Forever) {
        return forever(alloc, scope, tokens, nesting);
    }
    Err(stop(Problem::Syntax, tokens))
}

#[cycle(reading)]
#[tactic(auto, unfolding(crate::specs::Blocks::forever_with))]
fn forever<'a>(
    alloc: Global,
    scope: &mut Scope<'a>,
    tokens: &'a [Placed<'a>],
    nesting: usize,
) -> Result<(Stmt, &'a [Placed<'a>]), Stop>
    ensures { Gives (λ x. (stmt_of x.0, here scope.new, bare x.1.now)) result (forever_with (turn_at nesting) nesting (here scope.old) (bare tokens.now)) }
{
    let rest = accept(tokens, nesting)?;
    let (turn, rest) = read_turn(alloc, scope, rest, nesting, left(tokens))?;
    Ok((Stmt::Forever(Arc::new(alloc, turn)?), rest))
}

#[cycle(reading)]
#[tactic(auto, unfolding(crate::specs::Blocks::branch_with))]
fn branch<'a>(
    alloc: Global,
    scope: &mut Scope<'a>,
    tokens: &'a [Placed<'a>],
    nesting: usize,
    loops: Loops,
) -> Result<(Stmt, &'a [Placed<'a>]), Stop>
    ensures { Gives (λ x. (stmt_of x.0, here scope.new, bare x.1.now)) result (branch_with (block_at nesting) nesting loops (here scope.old) (bare tokens.now)) }
{
    let rest = accept(tokens, nesting)?;
    let (test, rest) = read_test(alloc, scope, rest, nesting)?;
    let (first, rest) = read_block(alloc, scope, rest, nesting, loops)?;
    let first = Arc::new(alloc, first)?;
    let rest = expect(rest, nesting, Symbol::Else)?;
    let (second, rest) = read_block(alloc, scope, rest, nesting, loops)?;
    let second = Arc::new(alloc, second)?;
    Ok((Stmt::If(test, first, second), rest))
}

/// How often a loop runs.
#[tactic(auto, unfolding(crate::specs::Blocks::times_at))]
fn times<'a>(tokens: &'a [Placed<'a>], nesting: usize) -> Result<(u32, &'a [Placed<'a>]), Fault>
    ensures { Tells (λ x. (x.0, bare x.1.now)) result (times_at nesting (bare tokens.now)) }
{
    let Some(times) = number_at(tokens) else {
        return Err(fault(Problem::Syntax, tokens));
    };
    let rest = accept(tokens, nesting)?;
    Ok((times, rest))
}

#[cycle(reading)]
#[tactic(auto, unfolding(crate::specs::Blocks::counted_with))]
fn counted<'a>(
    alloc: Global,
    scope: &mut Scope<'a>,
    tokens: &'a [Placed<'a>],
    nesting: usize,
) -> Result<(Stmt, &'a [Placed<'a>]), Stop>
    ensures { Gives (λ x. (stmt_of x.0, here scope.new, bare x.1.now)) result (counted_with (turn_at nesting) nesting (here scope.old) (bare tokens.now)) }
{
    let rest = accept(tokens, nesting)?;
    let (times, rest) = times(rest, nesting)?;
    let (turn, rest) = read_turn(alloc, scope, rest, nesting, left(tokens))?;
    Ok((Stmt::Loop(times, Arc::new(alloc, turn)?), rest))
}

/// Whether a block ends here, or a statement begins that is no sync.
#[tactic(auto, unfolding(crate::specs::Blocks::is_no_sync))]
fn is_no_sync(tokens: &[Placed<'_>]) -> bool
    ensures { result ≡ is_no_sync (bare tokens.now) }
{
    is_next(tokens, Symbol::CloseBrace)
        || is_next(tokens, Symbol::Let)
        || is_next(tokens, Symbol::Print)
        || is_next(tokens, Symbol::If)
        || is_next(tokens, Symbol::Loop)
        || is_next(tokens, Symbol::Forever)
        || is_next(tokens, Symbol::End)
        || is_next(tokens, Symbol::Spawn)
}

/// The body of a loop, from whose word on so many tokens are left.
#[cycle(reading)]
#[tactic(auto, using(crate::proofs::Blocking::turn_at_is), unfolding(crate::specs::Blocks::turn_with))]
fn read_turn<'a>(
    alloc: Global,
    scope: &mut Scope<'a>,
    tokens: &'a [Placed<'a>],
    nesting: usize,
    word: usize,
) -> Result<(LoopBody, &'a [Placed<'a>]), Stop>
    ensures { Gives (λ x. (turn_of x.0, here scope.new, bare x.1.now)) result (turn_at nesting word (here scope.old) (bare tokens.now)) }
{
    let rest = expect(tokens, nesting, Symbol::OpenBrace)?;
    if is_no_sync(rest) {
        accept(rest, nesting - 1)?;
        return Err(Stop::At(Fault {
            problem: Problem::LoopWithoutSync,
            left: word,
        }));
    }
    let (names, event, rest) = read_sync(alloc, scope, rest, nesting - 1)?;
    let (stmts, rest) = statements(alloc, scope, rest, nesting - 1, Loops::Allowed)?;
    let rest = expect(rest, nesting - 1, Symbol::CloseBrace)?;
    let stmts = link_stmts(alloc, stmts)?;
    let rest_of_turn = Arc::new(alloc, stmts)?;
    let turn = LoopBody {
        names,
        event,
        rest: rest_of_turn,
        line: 0,
    };
    Ok((turn, rest))
}

/// Statements, up to the closing mark.
#[cycle(reading)]
#[tactic(auto, unfolding(crate::specs::Blocks::stmts_with))]
fn statements<'a>(
    alloc: Global,
    scope: &mut Scope<'a>,
    tokens: &'a [Placed<'a>],
    nesting: usize,
    loops: Loops,
) -> Result<(Vec<Stmt>, &'a [Placed<'a>]), Stop>
    ensures { Gives (λ x. (map stmt_of x.0.items, here scope.new, bare x.1.now)) result (stmts_with (stmt_at nesting) loops (here scope.old) (bare tokens.now)) }
{
    let mut stmts = Vec::new(alloc);
    let (mut rest, count) = begin(tokens);
    for _turn in 0..count {
        if is_next(rest, Symbol::CloseBrace) {
            return Ok((stmts, rest));
        }
        let (stmt, after) = read_stmt(alloc, scope, rest, nesting, loops)?;
        stmts.push(stmt)?;
        rest = after;
    }
    Ok((stmts, rest))
}

/// A block.
#[cycle(reading)]
#[tactic(auto, using(crate::proofs::Blocking::block_at_is), unfolding(crate::specs::Blocks::block_with))]
pub fn read_block<'a>(
    alloc: Global,
    scope: &mut Scope<'a>,
    tokens: &'a [Placed<'a>],
    nesting: usize,
    loops: Loops,
) -> Result<(Block, &'a [Placed<'a>]), Stop>
    ensures { Gives (λ x. (block_of x.0, here scope.new, bare x.1.now)) result (block_at nesting loops (here scope.old) (bare tokens.now)) }
{
    let rest = expect(tokens, nesting, Symbol::OpenBrace)?;
    let (stmts, rest) = statements(alloc, scope, rest, nesting - 1, loops)?;
    let rest = expect(rest, nesting - 1, Symbol::CloseBrace)?;
    let block = link_stmts(alloc, stmts)?;
    Ok((block, rest))
}
