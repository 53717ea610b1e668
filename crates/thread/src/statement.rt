//! Statements, a step at a time.

ghost use Rattle.std.specs.Prelude.{◌≡◌, ◌++◌, ◌∷◌, IfOk, List, [], length};
ghost use Rattle.thread_code.specs.Codes.{IsLinked};
ghost use Rattle.thread.specs.After.{Chosen};
ghost use Rattle.thread.specs.Fitting.{NowFits, StepFits};
ghost use Rattle.thread.specs.Memories.{SpawnsOn};
ghost use Rattle.thread.specs.Reaches.{Falls, now_reach};
ghost use Rattle.thread.specs.Stacks.{now_on, state_of, step_on};
ghost use Rattle.thread.specs.declared.stack.Frame.TheVariants as frames;
ghost use Rattle.thread.specs.declared.stack.Now.TheVariants as now;
ghost use Rattle.thread.specs.declared.stack.Step.TheVariants as steps;

use crate::memory::Memory;
use crate::stack::{Frame, Now, Offered, Stack, Step, Stop, place_at};
use crate::value::{holds, value_of};
use script_tree::{Block, Stmt};
use std::alloc::AllocError;
use thread_code::Code;

/// A sync of this plan that begins now.
#[inline(always)]
fn offered(stack: &Stack, plan: u32) -> Offered
    ensures { result ≡ record { plan = plan; stage = 0; offers = length stack.now.offers.items; nacks = length stack.now.nacks.items } }
{
    Offered {
        plan,
        stage: 0,
        offers: stack.offers.len(),
        nacks: stack.nacks.len(),
    }
}

/// Begins the turns of a loop, behind which the block goes on at this place.
fn turns(stack: &mut Stack, next: u32, frame: Frame) -> Result<Step, AllocError>
    ensures begins { IfOk result (λ step. step ≡ steps.On now.Back) }
    ensures frames { IfOk result (λ step. stack.new.frames.items ≡ (stack.old.frames.items ++ frames.Rest next ∷ []) ++ frame ∷ []) }
    ensures offers { stack.new.offers ≡ stack.old.offers }
    ensures nacks { stack.new.nacks ≡ stack.old.nacks }
{
    stack.frames.push(Frame::Rest(next))?;
    stack.frames.push(frame)?;
    Ok(Step::On(Now::Back))
}

/// Runs the first statement at a place, or begins it.
#[inline(always)]
pub(crate) fn run(
    code: &Code,
    at: u32,
    memory: &mut Memory,
    stack: &mut Stack,
) -> Result<Step, AllocError>
    requires linked { IsLinked code.now }
    requires fits { NowFits code.now stack.old (now.At at) }
    ensures does { IfOk result (λ step. (rs : List Chosen) → step_on code.now stack.new step (state_of memory.new rs) ≡ now_on code.now stack.old (now.At at) (state_of memory.old rs)) }
    ensures falls { IfOk result (Falls code.now (now_reach code.now stack.old (now.At at)) stack.new) }
    ensures fits { IfOk result (StepFits code.now stack.new) }
    ensures spawned { IfOk result (λ step. SpawnsOn memory.old memory.new) }
{
    let place = place_at(code, at);
    let Block::Then(stmt, line, _) = &*place.block else {
        return Ok(back(code, memory, stack));
    };
    match stmt {
        Stmt::Let(name, value) => {
            memory.line = *line;
            match value_of(value, &memory.variables) {
                Ok(atom) => {
                    memory.set(*name, atom);
                    Ok(Step::On(Now::At(place.next)))
                }
                Err(fault) => Ok(Step::To(Stop::Faulted(fault))),
            }
        }
        Stmt::Sync(_, _) => {
            memory.line = *line;
            Ok(Step::On(Now::Open(offered(stack, place.first))))
        }
        _ => run_other(code, at, memory, stack),
    }
}

/// Runs the first statement at a place, or begins it, whichever it is. `run` has the two that most turns run in line: so
/// what the others need costs them nothing.
#[inline(never)]
fn run_other(
    code: &Code,
    at: u32,
    memory: &mut Memory,
    stack: &mut Stack,
) -> Result<Step, AllocError>
    requires linked { IsLinked code.now }
    requires fits { NowFits code.now stack.old (now.At at) }
    ensures does { IfOk result (λ step. (rs : List Chosen) → step_on code.now stack.new step (state_of memory.new rs) ≡ now_on code.now stack.old (now.At at) (state_of memory.old rs)) }
    ensures falls { IfOk result (Falls code.now (now_reach code.now stack.old (now.At at)) stack.new) }
    ensures fits { IfOk result (StepFits code.now stack.new) }
    ensures spawned { IfOk result (λ step. SpawnsOn memory.old memory.new) }
{
    let place = place_at(code, at);
    let Block::Then(stmt, line, _) = &*place.block else {
        return Ok(back(code, memory, stack));
    };
    memory.line = *line;
    match stmt {
        Stmt::Let(name, value) => match value_of(value, &memory.variables) {
            Ok(atom) => {
                memory.set(*name, atom);
                Ok(Step::On(Now::At(place.next)))
            }
            Err(fault) => Ok(Step::To(Stop::Faulted(fault))),
        },
        Stmt::Print(value) => match value_of(value, &memory.variables) {
            Ok(atom) => {
                memory.printed.push(atom)?;
                Ok(Step::On(Now::At(place.next)))
            }
            Err(fault) => Ok(Step::To(Stop::Faulted(fault))),
        },
        Stmt::Sync(_, _) => Ok(Step::On(Now::Open(offered(stack, place.first)))),
        Stmt::If(test, _, _) => match holds(test, &memory.variables) {
            Ok(true) => {
                stack.frames.push(Frame::Rest(place.next))?;
                Ok(Step::On(Now::At(place.first)))
            }
            Ok(false) => {
                stack.frames.push(Frame::Rest(place.next))?;
                Ok(Step::On(Now::At(place.second)))
            }
            Err(fault) => Ok(Step::To(Stop::Faulted(fault))),
        },
        Stmt::Loop(times, _) => turns(stack, place.next, Frame::Times(*times, place.first)),
        Stmt::Forever(_) => turns(stack, place.next, Frame::Endless(place.first)),
        Stmt::End => Ok(Step::To(Stop::Ended)),
        Stmt::Spawn(process) => {
            memory.spawn(*process)?;
            Ok(Step::On(Now::At(place.next)))
        }
    }
}

/// Goes back to the innermost frame. A loop with a turn left stays where it is.
#[inline(always)]
pub(crate) fn back(code: &Code, memory: &Memory, stack: &mut Stack) -> Step
    requires fits { NowFits code.now stack.old now.Back }
    ensures does { (rs : List Chosen) → step_on code.now stack.new result (state_of memory.now rs) ≡ now_on code.now stack.old now.Back (state_of memory.now rs) }
    ensures falls { Falls code.now (now_reach code.now stack.old now.Back) stack.new result }
    ensures fits { StepFits code.now stack.new result }
{
    let Some(last) = stack.frames.len().checked_sub(1) else {
        return Step::To(Stop::Ended);
    };
    match stack.frames[last] {
        Frame::Rest(at) => {
            stack.frames.truncate(last);
            Step::On(Now::At(at))
        }
        Frame::Times(times, plan) => match times.checked_sub(1) {
            None => {
                stack.frames.truncate(last);
                Step::On(Now::Back)
            }
            Some(left) => {
                stack.frames[last] = Frame::Times(left, plan);
                Step::On(Now::Open(offered(stack, plan)))
            }
        },
        Frame::Endless(plan) => Step::On(Now::Open(offered(stack, plan))),
        Frame::Event(offered) => {
            stack.frames.truncate(last);
            Step::On(Now::Open(offered))
        }
    }
}
