//! From a process's tree to its code.
//!
//! What a place or a plan leads to is put into the code before it, so the code is whole at each
//! moment. Blocks and choices are gone through by loops, so that only depth takes stack.

ghost use Rattle.std.specs.Prelude.{◌≡◌, ◌+◌, ◌≤◌, ◌++◌, List, Some, IfOk, slice_get};
ghost use Rattle.std.specs.Option.{option_map};
ghost use Rattle.script_tree.specs.Trees.{names_of};
ghost use Rattle.thread_code.specs.Codes.{AreStages, Grows, HasPlan, IsAt, IsCodeOf, IsLinked, Leads, LeadsTo};
ghost use Rattle.thread_code.specs.Fitting.{BlockFits, EventFits};
ghost use Rattle.script_tree.specs.Lined.{Block as Tree, IsSmall, block_of, event_of, events_of, nack_count, stmt_of};
ghost use Rattle.thread_code.specs.Stages.{Stage as Part, stages};

use crate::{Code, Place, Plan, Stage};
use script_tree::{Block, Event, Events, Names, Stmt};
use std::alloc::{AllocError, Global};
use std::sync::Arc;

/// The number of what comes next behind so many. No memory holds more than 4294967295 of them.
fn number(count: usize) -> Result<u32, AllocError>
    ensures { IfOk result (λ number. number ≡ count) }
{
    u32::try_from(count).map_err(|_| AllocError)
}

fn add_place(code: &mut Code, place: Place) -> Result<u32, AllocError>
    requires linked { IsLinked code.old }
    requires leads { Leads code.old place }
    ensures grows { IfOk result (λ at. Grows code.old code.new) }
    ensures linked { IfOk result (λ at. IsLinked code.new) }
    ensures there { IfOk result (λ at. IsAt code.new at (block_of place.block.value)) }
{
    let at = number(code.places.len())?;
    code.places.push(place)?;
    Ok(at)
}

fn add_plan(code: &mut Code, plan: Plan) -> Result<u32, AllocError>
    requires linked { IsLinked code.old }
    ensures grows { IfOk result (λ at. Grows code.old code.new) }
    ensures linked { IfOk result (λ at. IsLinked code.new) }
    ensures there { IfOk result (λ at. slice_get code.new.plans.items at ≡ Some plan) }
{
    let at = number(code.plans.len())?;
    code.plans.push(plan)?;
    Ok(at)
}

/// Adds a block, and answers with its place.
#[cycle(adding)]
fn add_block(alloc: Global, code: &mut Code, block: &Arc<Block>) -> Result<u32, AllocError>
    requires linked { IsLinked code.old }
    requires fits { BlockFits (block_of block.now.value) }
    ensures grows { IfOk result (λ at. Grows code.old code.new) }
    ensures linked { IfOk result (λ at. IsLinked code.new) }
    ensures there { IfOk result (λ at. IsAt code.new at (block_of block.now.value)) }
{
    let mut parts = Vec::new(alloc);
    let mut rest = block;
    while let Block::Then(_, _, behind) = &**rest {
        parts.push(Arc::try_clone(rest)?)?;
        rest = behind;
    }
    let end = Place {
        block: Arc::try_clone(rest)?,
        next: 0,
        first: 0,
        second: 0,
    };
    let mut at = add_place(code, end)?;
    while let Some(part) = parts.pop() {
        at = add_statement(alloc, code, part, at)?;
    }
    Ok(at)
}

/// Adds what begins with a statement whose next place is known.
#[cycle(adding)]
fn add_statement(
    alloc: Global,
    code: &mut Code,
    block: Arc<Block>,
    next: u32,
) -> Result<u32, AllocError>
    requires linked { IsLinked code.old }
    requires fits { BlockFits (block_of block.value) }
    requires next { LeadsTo code.old next (block_of block.value) }
    ensures grows { IfOk result (λ at. Grows code.old code.new) }
    ensures linked { IfOk result (λ at. IsLinked code.new) }
    ensures there { IfOk result (λ at. IsAt code.new at (block_of block.value)) }
{
    let mut place = Place {
        block,
        next,
        first: 0,
        second: 0,
    };
    match &*place.block {
        Block::Then(Stmt::If(_, first, second), _, _) => {
            let first = add_block(alloc, code, first)?;
            let second = add_block(alloc, code, second)?;
            place.first = first;
            place.second = second;
            let at = add_place(code, place)?;
            Ok(at)
        }
        Block::Then(Stmt::Sync(names, event), line, _) => {
            place.first = add_sync(alloc, code, *names, event, next, *line)?;
            let at = add_place(code, place)?;
            Ok(at)
        }
        Block::Then(Stmt::Loop(_, turn), _, _) | Block::Then(Stmt::Forever(turn), _, _) => {
            let rest = add_block(alloc, code, &turn.rest)?;
            place.first = add_sync(alloc, code, turn.names, &turn.event, rest, turn.line)?;
            let at = add_place(code, place)?;
            Ok(at)
        }
        _ => {
            let at = add_place(code, place)?;
            Ok(at)
        }
    }
}

/// Adds the plan of a sync, behind which the place `then` stands, and answers with its number.
#[cycle(adding)]
fn add_sync(
    alloc: Global,
    code: &mut Code,
    names: Option<Names>,
    event: &Arc<Event>,
    then: u32,
    line: u32,
) -> Result<u32, AllocError>
    requires linked { IsLinked code.old }
    requires fits { EventFits (event_of event.now.value) × IsSmall (event_of event.now.value) }
    ensures grows { IfOk result (λ number. Grows code.old code.new) }
    ensures linked { IfOk result (λ number. IsLinked code.new) }
    ensures plan { IfOk result (λ number. (rest : Tree) → IsAt code.old then rest → HasPlan code.new number line (option_map names_of names) (event_of event.now.value) rest) }
{
    let mut stages = Vec::new(alloc);
    add_stages(alloc, code, &mut stages, event, 0, 0)?;
    stages.shrink_to_fit();
    let plan = Plan {
        names,
        event: Arc::try_clone(event)?,
        stages,
        then,
        line,
    };
    let number = add_plan(code, plan)?;
    Ok(number)
}

/// Adds the stages of an event that lies in the scopes `around`, and whose first scope has the
/// number `next`. The answer is the number of the first scope behind it.
#[cycle(adding)]
fn add_stages(
    alloc: Global,
    code: &mut Code,
    list: &mut Vec<Stage>,
    event: &Arc<Event>,
    around: u8,
    mut next: u8,
) -> Result<u8, AllocError>
    requires linked { IsLinked code.old }
    requires fits { EventFits (event_of event.now.value) }
    requires few { next + nack_count (event_of event.now.value) ≤ 8 }
    ensures grows { IfOk result (λ number. Grows code.old code.new) }
    ensures linked { IfOk result (λ number. IsLinked code.new) }
    ensures next { IfOk result (λ number. number ≡ next + nack_count (event_of event.now.value)) }
    ensures stages { IfOk result (λ number. (before : List Part) → AreStages code.old list.old.items before → AreStages code.new list.new.items (before ++ stages around next (event_of event.now.value))) }
{
    match &**event {
        Event::Choose(members) => {
            let mut rest: &Events = members;
            while let Events::More(member, others) = rest {
                next = add_stages(alloc, code, list, member, around, next)?;
                rest = others;
            }
            Ok(next)
        }
        Event::Wrap(inner, _, _) => {
            let next = add_stages(alloc, code, list, inner, around, next)?;
            Ok(next)
        }
        Event::Guard(body, inner) => {
            let body = add_block(alloc, code, body)?;
            list.push(Stage::Body(body))?;
            let next = add_stages(alloc, code, list, inner, around, next)?;
            Ok(next)
        }
        Event::Nack(name, body, inner) => {
            let body = add_block(alloc, code, body)?;
            list.push(Stage::Nack(*name))?;
            list.push(Stage::Body(body))?;
            let next = add_stages(alloc, code, list, inner, around | (1 << next), next + 1)?;
            Ok(next)
        }
        Event::Send(_, _)
        | Event::Recv(_)
        | Event::Always(_)
        | Event::Never
        | Event::Cancelled(_)
        | Event::Joined(_) => {
            list.push(Stage::Offer(Arc::try_clone(event)?, around))?;
            Ok(next)
        }
    }
}

/// The code of the body of a process. Each statement, and each part of an event, takes a few words.
pub fn compile(alloc: Global, body: &Arc<Block>) -> Result<Code, AllocError>
    requires { BlockFits (block_of body.now.value) }
    ensures { IfOk result (λ code. IsCodeOf code (block_of body.now.value)) }
{
    let mut code = Code {
        places: Vec::new(alloc),
        plans: Vec::new(alloc),
        start: 0,
    };
    code.start = add_block(alloc, &mut code, body)?;
    code.places.shrink_to_fit();
    code.plans.shrink_to_fit();
    Ok(code)
}
