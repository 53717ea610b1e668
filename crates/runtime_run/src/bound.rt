//! How many rows a table needs, and for how many offers a row needs room.
//!
//! A thread's syncs take its rows one after another, those in the blocks of its guards and nacks too. So a
//! thread uses no more rows than its process comes to syncs: for so many it has words. The longest process says how
//! many rows the table has. What is counted is a bound: of a branch the side with more syncs, of a block also what
//! stands behind an `end`.
//!
//! So no process makes more syncs than are counted, unless the count is 4294967295, which says nothing. On this hangs when
//! a run asks for more seasons: a table that has fewer rows than are stated is never spent. And on it hangs that each row
//! that a worker opens has words. Of a row that the table has not the workers open none, and what a thread offers behind
//! its last row its machine tells.
//!
//! A sync makes an offer for each base event of its event, and how many these are the text says. So the offers are
//! counted exactly: the most that some sync makes, also one in the body of a guard or a nack. On this a promise
//! does hang: a row has to have room for all that a machine offers at once.

ghost use Rattle.std.specs.Prelude.{◌≡◌, ◌+◌, ◌<◌, ◌≤◌, ◌↔◌, ℕ, length, map, slice_index};
ghost use Rattle.protocol_ledger.specs.Short.{Fits as IsLayoutFor};
ghost use Rattle.script_tree.specs.Limits.{base_count};
ghost use Rattle.script_tree.specs.Processes.{proc_of};
ghost use Rattle.script_tree.specs.Trees.{block_of, event_of, stmt_of, turn_of};
ghost use Rattle.runtime_run.specs.Syncs.{AllSyncAtMost, AreRowsFor, BlockSyncsAtMost, EventSyncsAtMost, StmtSyncsAtMost, TurnSyncsAtMost};
ghost use Rattle.runtime_worker.specs.Widths.{AllOfferAtMost, BodiesOfferAtMost, OffersAtMost, StmtOffersAtMost, TurnOffersAtMost};

use protocol_ledger::Layout;
use script_tree::{Block, Event, Events, LoopBody, Proc, Stmt};

/// The syncs of the statements.
#[cycle(counting)]
fn block_syncs(block: &Block) -> u32
    ensures { result < 4294967295 → BlockSyncsAtMost result (block_of block.now) }
{
    let mut count = 0u32;
    let mut rest = block;
    while let Block::Then(statement, _, behind) = rest {
        count = count.saturating_add(statement_syncs(statement));
        rest = behind;
    }
    count
}

#[cycle(counting)]
fn statement_syncs(statement: &Stmt) -> u32
    ensures { result < 4294967295 → StmtSyncsAtMost result (stmt_of statement.now) }
{
    match statement {
        Stmt::Let(_, _) | Stmt::Print(_) | Stmt::End | Stmt::Spawn(_) => 0,
        Stmt::Sync(_, event) => 1u32.saturating_add(event_syncs(event)),
        Stmt::If(_, first, second) => block_syncs(first).max(block_syncs(second)),
        Stmt::Loop(times, turn) => turn_syncs(turn).saturating_mul(*times),
        Stmt::Forever(_) => u32::MAX,
    }
}

/// The syncs of one turn of a loop, with the one that it begins with.
#[cycle(counting)]
fn turn_syncs(turn: &LoopBody) -> u32
    ensures { result < 4294967295 → TurnSyncsAtMost result (turn_of turn.now) }
{
    1u32.saturating_add(event_syncs(&turn.event))
        .saturating_add(block_syncs(&turn.rest))
}

/// The syncs of the blocks that run before the event is offered, each once.
#[cycle(counting)]
fn event_syncs(event: &Event) -> u32
    ensures { result < 4294967295 → EventSyncsAtMost result (event_of event.now) }
{
    match event {
        Event::Choose(members) => {
            let mut count = 0u32;
            let mut rest: &Events = members;
            while let Events::More(member, others) = rest {
                count = count.saturating_add(event_syncs(member));
                rest = others;
            }
            count
        }
        Event::Wrap(inner, _, _) => event_syncs(inner),
        Event::Guard(body, inner) => block_syncs(body).saturating_add(event_syncs(inner)),
        Event::Nack(_, body, inner) => block_syncs(body).saturating_add(event_syncs(inner)),
        Event::Send(_, _)
        | Event::Recv(_)
        | Event::Always(_)
        | Event::Never
        | Event::Cancelled(_)
        | Event::Joined(_) => 0,
    }
}

/// As many rows as the processes can use, and no more than are stated.
pub fn rows_used(processes: &[Proc], stated: u16) -> u16
    requires { 1 ≤ stated }
    ensures range { (1 ≤ result) × (result ≤ stated) }
    ensures enough { result < stated → AllSyncAtMost result (map proc_of processes.now) }
{
    let mut most = 0u32;
    for process in processes {
        most = most.max(block_syncs(process.body()));
    }
    most.clamp(1, u32::from(stated)) as u16
}

/// As many rows as the process can use that has made so many syncs before, one at least, and no more than are stated.
fn rows_for(process: &Proc, had: usize, stated: u16) -> u16
    requires { 1 ≤ stated }
    ensures range { (1 ≤ result) × (result ≤ stated) }
    ensures enough { result < stated → BlockSyncsAtMost (had + result) (proc_of process.now).body }
{
    let most = block_syncs(process.body());
    if most == u32::MAX {
        return stated;
    }
    let left = (most as usize).saturating_sub(had);
    left.clamp(1, usize::from(stated)) as u16
}

/// How many syncs the thread made before: none where the list is too short.
fn made_before(had: &[usize], thread: usize) -> usize
    ensures { result ≡ slice_index had.now thread }
{
    match had.get(thread) {
        Some(count) => *count,
        None => 0,
    }
}

/// As many rows as each process can use that has made so many syncs before, and no more than are stated.
pub fn rows_each(processes: &[Proc], had: &[usize], stated: u16) -> [u16; 64]
    requires stated { 1 ≤ stated }
    requires few { length processes.now ≤ 64 }
    ensures { AreRowsFor (map proc_of processes.now) had.now stated result }
{
    let mut rows = [stated; 64];
    for (thread, process) in processes.iter().enumerate() {
        rows[thread] = rows_for(process, made_before(had, thread), stated);
    }
    rows
}

/// The base events of an event: a sync on it offers each.
fn base_events(event: &Event) -> u8
    requires { base_count (event_of event.now) ≤ 8 }
    ensures { result ≡ base_count (event_of event.now) }
{
    match event {
        Event::Choose(members) => {
            let mut count = 0;
            let mut rest: &Events = members;
            while let Events::More(member, others) = rest {
                count += base_events(member);
                rest = others;
            }
            count
        }
        Event::Wrap(inner, _, _) => base_events(inner),
        Event::Guard(_, inner) => base_events(inner),
        Event::Nack(_, _, inner) => base_events(inner),
        Event::Send(_, _)
        | Event::Recv(_)
        | Event::Always(_)
        | Event::Never
        | Event::Cancelled(_)
        | Event::Joined(_) => 1,
    }
}

/// The most offers that a sync of the statements makes.
#[cycle(offering)]
fn block_offers(block: &Block) -> u8
    requires { OffersAtMost 8 (block_of block.now) }
    ensures { (k : ℕ) → OffersAtMost k (block_of block.now) ↔ (result ≤ k) }
{
    let mut most = 0;
    let mut rest = block;
    while let Block::Then(statement, _, behind) = rest {
        most = most.max(statement_offers(statement));
        rest = behind;
    }
    most
}

#[cycle(offering)]
fn statement_offers(statement: &Stmt) -> u8
    requires { StmtOffersAtMost 8 (stmt_of statement.now) }
    ensures { (k : ℕ) → StmtOffersAtMost k (stmt_of statement.now) ↔ (result ≤ k) }
{
    match statement {
        Stmt::Let(_, _) | Stmt::Print(_) | Stmt::End | Stmt::Spawn(_) => 0,
        Stmt::Sync(_, event) => base_events(event).max(body_offers(event)),
        Stmt::If(_, first, second) => block_offers(first).max(block_offers(second)),
        Stmt::Loop(_, turn) => turn_offers(turn),
        Stmt::Forever(turn) => turn_offers(turn),
    }
}

/// The most in one turn of a loop, with the sync that it begins with.
#[cycle(offering)]
fn turn_offers(turn: &LoopBody) -> u8
    requires { TurnOffersAtMost 8 (turn_of turn.now) }
    ensures { (k : ℕ) → TurnOffersAtMost k (turn_of turn.now) ↔ (result ≤ k) }
{
    base_events(&turn.event)
        .max(body_offers(&turn.event))
        .max(block_offers(&turn.rest))
}

/// The most in the bodies of the event's guards and nacks.
#[cycle(offering)]
fn body_offers(event: &Event) -> u8
    requires { BodiesOfferAtMost 8 (event_of event.now) }
    ensures { (k : ℕ) → BodiesOfferAtMost k (event_of event.now) ↔ (result ≤ k) }
{
    match event {
        Event::Choose(members) => {
            let mut most = 0;
            let mut rest: &Events = members;
            while let Events::More(member, others) = rest {
                most = most.max(body_offers(member));
                rest = others;
            }
            most
        }
        Event::Wrap(inner, _, _) => body_offers(inner),
        Event::Guard(body, inner) => block_offers(body).max(body_offers(inner)),
        Event::Nack(_, body, inner) => block_offers(body).max(body_offers(inner)),
        Event::Send(_, _)
        | Event::Recv(_)
        | Event::Always(_)
        | Event::Never
        | Event::Cancelled(_)
        | Event::Joined(_) => 0,
    }
}

/// For how many offers a row needs room: the most that some sync of the processes makes, and 1 at least.
pub fn offers_used(processes: &[Proc]) -> u8
    ensures range { (1 ≤ result) × (result ≤ 8) }
    ensures enough { AllOfferAtMost result (map proc_of processes.now) }
    ensures least { (k : ℕ) → 1 ≤ k → AllOfferAtMost k (map proc_of processes.now) → result ≤ k }
{
    let mut most = 1;
    for process in processes {
        most = most.max(block_offers(process.body()));
    }
    most
}

/// How a table of so many rows is laid out for processes that have made so many syncs before: its rows have room for what a
/// sync offers, and each thread has words for as many syncs as it may still make.
pub fn layout_for(processes: &[Proc], had: &[usize], rows: u16) -> Layout
    requires rows { 1 ≤ rows }
    requires few { length processes.now ≤ 64 }
    ensures room { AllOfferAtMost result.offers (map proc_of processes.now) }
    ensures words { AreRowsFor (map proc_of processes.now) had.now rows result.lens }
    ensures fits { IsLayoutFor result rows }
{
    Layout {
        offers: usize::from(offers_used(processes)),
        lens: rows_each(processes, had, rows),
    }
}
