//! Which processes a text spawns.

ghost use Rattle.std.specs.Prelude.{◌≡◌, ◌<◌, ℕ};
ghost use Rattle.script_tree.specs.Spawning.{has_bit, spawns_block, spawns_event, spawns_stmt, spawns_turn};
ghost use Rattle.script_tree.specs.Trees.{block_of, event_of, stmt_of, turn_of};

use crate::tree::{Block, Event, Events, LoopBody, Stmt};

/// The processes that the statements spawn, also within their events: bit t is set where they spawn process t. A
/// number from 64 on, which no process has, is left out.
#[cycle(spawning)]
pub fn spawned(block: &Block) -> u64
    ensures { (t : ℕ) → t < 64 → has_bit result t ≡ spawns_block t (block_of block.now) }
{
    let mut mask = 0;
    let mut rest = block;
    while let Block::Then(stmt, _, behind) = rest {
        mask |= spawned_by(stmt);
        rest = behind;
    }
    mask
}

#[cycle(spawning)]
fn spawned_by(stmt: &Stmt) -> u64
    ensures { (t : ℕ) → t < 64 → has_bit result t ≡ spawns_stmt t (stmt_of stmt.now) }
{
    match stmt {
        Stmt::Spawn(process) if *process < 64 => 1 << *process,
        Stmt::Spawn(_) | Stmt::Let(_, _) | Stmt::Print(_) | Stmt::End => 0,
        Stmt::Sync(_, event) => spawned_within(event),
        Stmt::If(_, first, second) => spawned(first) | spawned(second),
        Stmt::Loop(_, turn) => spawned_in_turn(turn),
        Stmt::Forever(turn) => spawned_in_turn(turn),
    }
}

/// Those that a loop's turn spawns.
#[cycle(spawning)]
fn spawned_in_turn(turn: &LoopBody) -> u64
    ensures { (t : ℕ) → t < 64 → has_bit result t ≡ spawns_turn t (turn_of turn.now) }
{
    spawned_within(&turn.event) | spawned(&turn.rest)
}

/// Those that the blocks of an event's guards and nacks spawn.
#[cycle(spawning)]
fn spawned_within(event: &Event) -> u64
    ensures { (t : ℕ) → t < 64 → has_bit result t ≡ spawns_event t (event_of event.now) }
{
    match event {
        Event::Choose(members) => {
            let mut mask = 0;
            let mut rest: &Events = members;
            while let Events::More(member, others) = rest {
                mask |= spawned_within(member);
                rest = others;
            }
            mask
        }
        Event::Wrap(inner, _, _) => spawned_within(inner),
        Event::Guard(body, inner) => spawned(body) | spawned_within(inner),
        Event::Nack(_, body, inner) => spawned(body) | spawned_within(inner),
        Event::Send(_, _)
        | Event::Recv(_)
        | Event::Always(_)
        | Event::Never
        | Event::Cancelled(_)
        | Event::Joined(_) => 0,
    }
}
