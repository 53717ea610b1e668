//! What a commit does: the wraps round the chosen offer change its message, and names are set.

ghost use Rattle.std.specs.Prelude.{◌≡◌, ◌<◌, ◌∷◌, List, Some, length};
ghost use Rattle.std.specs.Option.{option_map};
ghost use Rattle.thread_code.specs.Codes.{IsLinked};
ghost use Rattle.script_tree.specs.Trees.{exprs_of, names_of};
ghost use Rattle.script_tree.specs.Lined.{event_of};
ghost use Rattle.thread.specs.After.{Chosen};
ghost use Rattle.thread.specs.Standing.{wrapped_once};
ghost use Rattle.thread.specs.Fitting.{StepFits, StopFits};
ghost use Rattle.thread.specs.Passages.{Passes};
ghost use Rattle.thread.specs.Stacks.{lists_of, message_after, own, state_of, step_of, step_on, stop_on};
ghost use Rattle.thread.specs.declared.stack.Stop.TheVariants as stop;

use crate::Fault;
use crate::memory::Memory;
use crate::stack::{Offered, Stack, plan_of};
use crate::value::message_of;
use protocol_values::Message;
use script_tree::{Event, Events, Exprs, Names};
use thread_code::Code;

/// Where the base event that was chosen lies: within the event that was searched, so that its message
/// came through, or so many base events behind it.
pub(crate) enum Passage {
    Through(Message),
    Past(u8),
}

/// Sets the names of a wrap, and gives what its list comes to.
fn wrap(
    names: Option<Names>,
    list: &Exprs,
    message: Message,
    memory: &mut Memory,
) -> Result<Message, Fault>
    ensures does { (rs : List Chosen) → wrapped_once (Some (record { names = option_map names_of names; list = exprs_of list.now })) message (state_of memory.old rs) ≡ message_after result memory.new rs }
    ensures spawned { memory.new.spawned ≡ memory.old.spawned }
{
    match memory.set_names(names, message) {
        Ok(()) => message_of(list, &memory.variables),
        Err(fault) => Err(fault),
    }
}

/// Takes a message from base event n, if it lies within the event, out through the wraps round that.
fn pass(event: &Event, mut n: u8, message: Message, memory: &mut Memory) -> Result<Passage, Fault>
    ensures does { Passes (event_of event.now) n message memory.old memory.new result }
    ensures spawned { memory.new.spawned ≡ memory.old.spawned }
{
    match event {
        Event::Choose(members) => {
            let mut rest: &Events = members;
            while let Events::More(member, others) = rest {
                match pass(member, n, message, memory)? {
                    Passage::Through(changed) => return Ok(Passage::Through(changed)),
                    Passage::Past(left) => n = left,
                }
                rest = others;
            }
            Ok(Passage::Past(n))
        }
        Event::Wrap(inner, names, list) => match pass(inner, n, message, memory)? {
            Passage::Through(inner) => match wrap(*names, list, inner, memory) {
                Ok(changed) => Ok(Passage::Through(changed)),
                Err(fault) => Err(fault),
            },
            Passage::Past(left) => Ok(Passage::Past(left)),
        },
        Event::Guard(_, inner) => pass(inner, n, message, memory),
        Event::Nack(_, _, inner) => pass(inner, n, message, memory),
        _ => match n.checked_sub(1) {
            None => Ok(Passage::Through(message)),
            Some(left) => Ok(Passage::Past(left)),
        },
    }
}

/// Passes the message out of the event, as `pass` does, with no call where the event is a base event.
#[inline(always)]
fn leave(event: &Event, n: u8, message: Message, memory: &mut Memory) -> Result<Passage, Fault>
    ensures does { Passes (event_of event.now) n message memory.old memory.new result }
    ensures spawned { memory.new.spawned ≡ memory.old.spawned }
{
    match event {
        Event::Choose(_) | Event::Wrap(_, _, _) | Event::Guard(_, _) | Event::Nack(_, _, _) => {
            pass(event, n, message, memory)
        }
        _ => match n.checked_sub(1) {
            None => Ok(Passage::Through(message)),
            Some(left) => Ok(Passage::Past(left)),
        },
    }
}

/// Commits an open sync by one of its offers, and gives the place behind it.
#[inline(always)]
pub(crate) fn commit(
    code: &Code,
    offered: Offered,
    chosen: u8,
    message: Message,
    memory: &mut Memory,
    stack: &mut Stack,
) -> Result<u32, Fault>
    requires linked { IsLinked code.now }
    requires fits { StopFits code.now stack.old (stop.Offering offered) }
    requires there { chosen < length (own offered (lists_of stack.old)).offers }
    ensures does { (rs : List Chosen) → step_on code.now stack.new (step_of result) (state_of memory.new rs) ≡ stop_on code.now stack.old (stop.Offering offered) (state_of memory.old ((chosen, message) ∷ rs)) }
    ensures fits { StepFits code.now stack.new (step_of result) }
    ensures spawned { memory.new.spawned ≡ memory.old.spawned }
{
    stack.offers.truncate(offered.offers);
    stack.nacks.truncate(offered.nacks);
    let plan = plan_of(code, offered.plan);
    match leave(&plan.event, chosen, message, memory) {
        Ok(Passage::Through(message)) => match memory.set_names(plan.names, message) {
            Ok(()) => Ok(plan.then),
            Err(fault) => Err(fault),
        },
        Ok(Passage::Past(_)) => unreachable!(),
        Err(fault) => Err(fault),
    }
}
