use super::checks::check_same;
use script_tree::{Block, Event, Events, Expr, Operand, Proc, Sign, Stmt, Term, Terms, spawned};
use std::alloc::{AllocError, Global};
use std::process::Abort;
use std::sync::Arc;
use std::test::Fail;

const MANY: usize = 30000;

fn long_block(alloc: Global) -> Result<Block, AllocError> {
    let mut block = Block::Done;
    for _ in 0..MANY {
        block = Block::Then(Stmt::End, 1, Arc::new(alloc, block)?);
    }
    Ok(block)
}

fn long_choice(alloc: Global) -> Result<Event, AllocError> {
    let mut members = Events::Nothing;
    for _ in 0..MANY {
        let member = Arc::new(alloc, Event::Choose(Arc::new(alloc, Events::Nothing)?))?;
        members = Events::More(member, Arc::new(alloc, members)?);
    }
    Ok(Event::Choose(Arc::new(alloc, members)?))
}

fn long_sum(alloc: Global) -> Result<Expr, AllocError> {
    let mut terms = Terms::Nothing;
    for _ in 0..MANY {
        let one = Term::Operand(Operand::Number(1));
        terms = Terms::More(Sign::Plus, one, Arc::new(alloc, terms)?);
    }
    Ok(Expr {
        first: Operand::Number(0),
        more: terms,
    })
}

#[test]
fn long_lists_drop(rt: HostRuntime) -> Result<(), Fail> {
    let alloc = rt.alloc();
    let _ = long_choice(alloc)?;
    let print = Stmt::Print(long_sum(alloc)?);
    let _ = Block::Then(print, 1, Arc::new(alloc, long_block(alloc)?)?);
    Ok(())
}

fn crosses_threads<T: Send + Sync>(_value: &T) {}

fn process_of_one_variable(alloc: Global) -> Result<Proc, AllocError> {
    let body = Arc::new(alloc, Block::Done)?;
    let mut variables = Vec::new(alloc);
    variables.push(String::from_str(alloc, "x")?)?;
    let name = String::from_str(alloc, "a")?;
    Ok(Proc::new(name, body, variables, 2, 0))
}

#[test]
fn processes(rt: HostRuntime) -> Result<(), Fail> {
    let process = process_of_one_variable(rt.alloc())?;
    crosses_threads(&process);
    check_same(&rt, process.name(), "a", "the name");
    check_same(&rt, process.channels(), 2, "the channels");
    check_same(&rt, process.earlier(), 0, "the processes before it");
    check_same(&rt, process.variables(), 1, "the variables");
    check_same(&rt, process.variable_name(0), Some("x"), "variable 0");
    check_same(&rt, process.variable_name(1), None, "variable 1");
    let body: &Block = process.body();
    assert!(rt; matches!(body, Block::Done));
    Ok(())
}

/// `sync guard { spawn process; } never; spawn 63;`
fn spawning_twice(alloc: Global, process: u8) -> Result<Block, AllocError> {
    let guarded = Block::Then(Stmt::Spawn(process), 1, Arc::new(alloc, Block::Done)?);
    let never = Arc::new(alloc, Event::Never)?;
    let event = Event::Guard(Arc::new(alloc, guarded)?, never);
    let sync = Stmt::Sync(None, Arc::new(alloc, event)?);
    let rest = Block::Then(Stmt::Spawn(63), 1, Arc::new(alloc, Block::Done)?);
    Ok(Block::Then(sync, 1, Arc::new(alloc, rest)?))
}

#[test]
fn spawned_processes(rt: HostRuntime) -> Result<(), Fail> {
    let alloc = rt.alloc();
    check_same(&rt, spawned(&Block::Done), 0, "nobody");
    let block = spawning_twice(alloc, 3)?;
    check_same(&rt, spawned(&block), (1 << 63) + 8, "3 and 63");
    let long = long_block(alloc)?;
    check_same(&rt, spawned(&long), 0, "nobody in a long block");
    Ok(())
}
