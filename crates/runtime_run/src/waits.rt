//! For what the processes of a run wait besides messages. Where no sync waits for a nack, or none for an end, the run needs
//! no rooms for such waiters. What stands in rooms are hints: of a run that lacked them more commits would be left to the
//! tail.

ghost use Rattle.std.specs.Prelude.{◌≡◌, if◌then◌else◌, map};
ghost use Rattle.std.specs.List.{list_any};
ghost use Rattle.script_tree.specs.Processes.{proc_of};
ghost use Rattle.script_tree.specs.Trees.{block_of, event_of, stmt_of, turn_of};
ghost use Rattle.runtime_run.specs.Waiting.{awaits, waits_block, waits_event, waits_stmt, waits_turn};

use script_tree::{Block, Event, Events, LoopBody, Proc, Stmt};

/// What an event can wait for besides a message.
#[derive(Clone, Copy)]
pub(crate) enum Awaited {
    Nack,
    End,
}

/// Whether an event that takes a nack, or else the end of a process, waits for this.
fn awaits(what: Awaited, nack: bool) -> bool
    ensures { result ≡ awaits what nack }
{
    match what {
        Awaited::Nack => nack,
        Awaited::End => !nack,
    }
}

/// For how many of so many threads there are to be rooms for those who wait for this: for all, or for none.
pub(crate) fn rooms_for(processes: &[Proc], what: Awaited, threads: u8) -> u8
    ensures { result ≡ (if list_any (λ p. waits_block what p.body) (map proc_of processes.now) then threads else 0) }
{
    if some_waits(processes, what) {
        threads
    } else {
        0
    }
}

/// Whether some sync of the processes waits for this.
fn some_waits(processes: &[Proc], what: Awaited) -> bool
    ensures { result ≡ list_any (λ p. waits_block what p.body) (map proc_of processes.now) }
{
    for process in processes {
        if block_waits(process.body(), what) {
            return true;
        }
    }
    false
}

#[cycle(waiting)]
fn block_waits(block: &Block, what: Awaited) -> bool
    ensures { result ≡ waits_block what (block_of block.now) }
{
    let mut rest = block;
    while let Block::Then(statement, _, behind) = rest {
        if statement_waits(statement, what) {
            return true;
        }
        rest = behind;
    }
    false
}

#[cycle(waiting)]
fn statement_waits(statement: &Stmt, what: Awaited) -> bool
    ensures { result ≡ waits_stmt what (stmt_of statement.now) }
{
    match statement {
        Stmt::Let(_, _) | Stmt::Print(_) | Stmt::End | Stmt::Spawn(_) => false,
        Stmt::Sync(_, event) => event_waits(event, what),
        Stmt::If(_, first, second) => block_waits(first, what) || block_waits(second, what),
        Stmt::Loop(_, turn) => turn_waits(turn, what),
        Stmt::Forever(turn) => turn_waits(turn, what),
    }
}

#[cycle(waiting)]
fn turn_waits(turn: &LoopBody, what: Awaited) -> bool
    ensures { result ≡ waits_turn what (turn_of turn.now) }
{
    event_waits(&turn.event, what) || block_waits(&turn.rest, what)
}

#[cycle(waiting)]
fn event_waits(event: &Event, what: Awaited) -> bool
    ensures { result ≡ waits_event what (event_of event.now) }
{
    match event {
        Event::Choose(members) => {
            let mut rest: &Events = members;
            while let Events::More(member, others) = rest {
                if event_waits(member, what) {
                    return true;
                }
                rest = others;
            }
            false
        }
        Event::Wrap(inner, _, _) => event_waits(inner, what),
        Event::Guard(body, inner) => block_waits(body, what) || event_waits(inner, what),
        Event::Nack(_, body, inner) => block_waits(body, what) || event_waits(inner, what),
        Event::Cancelled(_) => awaits(what, true),
        Event::Joined(_) => awaits(what, false),
        Event::Send(_, _) | Event::Recv(_) | Event::Always(_) | Event::Never => false,
    }
}
