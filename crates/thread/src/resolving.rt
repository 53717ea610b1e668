//! Events, a stage at a time: their guards run, and their channels and lists are evaluated.

ghost use Rattle.std.specs.Prelude.{◌≡◌, IfOk, List};
ghost use Rattle.thread_code.specs.Codes.{IsLinked};
ghost use Rattle.script_tree.specs.Trees.{exprs_of};
ghost use Rattle.script_tree.specs.Lined.{event_of};
ghost use Rattle.thread.specs.After.{Chosen, channel_value, nack_value, send_value, recv_value, always_value, cancelled_value};
ghost use Rattle.thread.specs.Fitting.{NowFits, StepFits};
ghost use Rattle.thread.specs.Reaches.{Falls, now_reach};
ghost use Rattle.thread.specs.Resolving.{base_value};
ghost use Rattle.thread.specs.Stacks.{now_on, state_of, step_on};
ghost use Rattle.thread.specs.declared.stack.Now.TheVariants as now;

use crate::Fault;
use crate::memory::Memory;
use crate::stack::{Frame, Now, Offered, Stack, Step, Stop, plan_of};
use crate::value::{message_of, value_of_name};
use protocol_values::{Atom, Base, NackName, Offer};
use script_tree::{Event, Exprs, Name};
use std::alloc::AllocError;
use thread_code::{Code, Stage};

#[inline(always)]
fn channel_of(name: Name, variables: &[Option<Atom>]) -> Result<u8, Fault>
    ensures { result ≡ channel_value variables.now name }
{
    match value_of_name(name, variables)? {
        Atom::Chan(channel) => Ok(channel),
        _ => Err(Fault::Kind),
    }
}

fn nack_of(name: Name, variables: &[Option<Atom>]) -> Result<NackName, Fault>
    ensures { result ≡ nack_value variables.now name }
{
    match value_of_name(name, variables)? {
        Atom::Nack(nack) => Ok(nack),
        _ => Err(Fault::Kind),
    }
}

#[inline(always)]
fn send(channel: Name, list: &Exprs, variables: &[Option<Atom>]) -> Result<Base, Fault>
    ensures { result ≡ send_value variables.now channel (exprs_of list.now) }
{
    let channel = channel_of(channel, variables)?;
    let message = message_of(list, variables)?;
    Ok(Base::Send(channel, message))
}

#[inline(always)]
fn recv(channel: Name, variables: &[Option<Atom>]) -> Result<Base, Fault>
    ensures { result ≡ recv_value variables.now channel }
{
    let channel = channel_of(channel, variables)?;
    Ok(Base::Recv(channel))
}

#[inline(never)]
fn always(list: &Exprs, variables: &[Option<Atom>]) -> Result<Base, Fault>
    ensures { result ≡ always_value variables.now (exprs_of list.now) }
{
    let message = message_of(list, variables)?;
    Ok(Base::Always(message))
}

#[inline(never)]
fn cancelled(nack: Name, variables: &[Option<Atom>]) -> Result<Base, Fault>
    ensures { result ≡ cancelled_value variables.now nack }
{
    let nack = nack_of(nack, variables)?;
    Ok(Base::OnNack(nack))
}

/// What a base event comes to.
#[inline(always)]
fn base_of(event: &Event, variables: &[Option<Atom>]) -> Result<Base, Fault>
    ensures { result ≡ base_value variables.now (event_of event.now) }
{
    match event {
        Event::Send(channel, list) => send(*channel, list, variables),
        Event::Recv(channel) => recv(*channel, variables),
        Event::Always(list) => always(list, variables),
        Event::Cancelled(nack) => cancelled(*nack, variables),
        Event::Joined(process) => Ok(Base::OnEnd(*process)),
        Event::Never
        | Event::Choose(_)
        | Event::Wrap(_, _, _)
        | Event::Guard(_, _)
        | Event::Nack(_, _, _) => Ok(Base::Never),
    }
}

/// Goes through the stages of a sync's event, from the next one up to one whose block runs first; behind
/// the last one the sync is open.
#[inline(always)]
pub(crate) fn resolve(
    code: &Code,
    mut offered: Offered,
    memory: &mut Memory,
    stack: &mut Stack,
) -> Result<Step, AllocError>
    requires linked { IsLinked code.now }
    requires fits { NowFits code.now stack.old (now.Open offered) }
    ensures does { IfOk result (λ step. (rs : List Chosen) → step_on code.now stack.new step (state_of memory.new rs) ≡ now_on code.now stack.old (now.Open offered) (state_of memory.old rs)) }
    ensures falls { IfOk result (Falls code.now (now_reach code.now stack.old (now.Open offered)) stack.new) }
    ensures fits { IfOk result (StepFits code.now stack.new) }
    ensures spawned { memory.new.spawned ≡ memory.old.spawned }
{
    let begun = plan_of(code, offered.plan);
    memory.line = begun.line;
    loop {
        let plan = plan_of(code, offered.plan);
        let Some(stage) = plan.stages.get(offered.stage) else {
            return Ok(Step::To(Stop::Offering(offered)));
        };
        let next = Offered {
            stage: offered.stage + 1,
            ..offered
        };
        match stage {
            Stage::Offer(event, scopes) => match base_of(event, &memory.variables) {
                Ok(base) => {
                    let scopes = *scopes;
                    stack.offers.push(Offer { base, scopes })?;
                    offered = next;
                }
                Err(fault) => return Ok(Step::To(Stop::Faulted(fault))),
            },
            Stage::Body(at) => {
                stack.frames.push(Frame::Event(next))?;
                return Ok(Step::On(Now::At(*at)));
            }
            Stage::Nack(name) => {
                if memory.nacks >= 64 {
                    return Ok(Step::To(Stop::Faulted(Fault::Range)));
                }
                let k = memory.nacks;
                let thread = memory.thread;
                memory.nacks = k + 1;
                memory.set(*name, Atom::Nack(NackName { thread, k }));
                stack.nacks.push(k)?;
                return Ok(Step::On(Now::Open(next)));
            }
        }
    }
}
