//! The ready queues: rows are put and got.

ghost use Rattle.std.specs.Prelude.{◌≡◌, ◌<◌, ◌^◌, ◌-◌, [], ◌∷◌, MatchOption, MatchResult, All, map};
ghost use Rattle.crossbeam_deque.specs.Handles.{view};
ghost use Rattle.crossbeam_deque.specs.Injected.{injector_view, IsInjectorPassOf};
ghost use Rattle.meet_queues.specs.Hands.{WasEmpty, gets};
ghost use Rattle.meet_queues.specs.Ends.{IsEndOf, IsOther, GotOne, HasPut, HasPutNothing, HasGot, all_got, got_of, end_count, end_number, own_hand, shared_hand};

use crate::ends::{Other, ReadyEnd};
use crate::entries::{Entry, QueueView};
use crate::ready_rule::{Got, Put, ReadyRule};
use crossbeam_deque::{Injector, InjectorPass, Steal};
use protocol_values::Row;
use std::alloc::{AllocError, Global};
use std::sync::Wait;

/// What the ends share: the injector.
#[derive(Drop)]
pub struct Ready {
    pub(crate) inlet: Injector<Entry<Row>, Global, QueueView<Row>, ReadyRule>,
}

impl Ready {
    /// Puts the row at the back of the end's own deque; what that refuses goes to the back of the injector.
    /// The error is want of memory, after which nothing is put.
    pub fn put<R: Wait>(&self, rt: &R, end: &mut ReadyEnd, row: Row) -> Result<(), AllocError>
        requires here { IsEndOf self.now end.old }
        requires count { end_count end.old < 2 ^ 64 - 1 }
        ensures here { IsEndOf self.now end.new × (end_number end.new ≡ end_number end.old) }
        ensures put { MatchResult result (λ _. HasPut end.old end.new row) (λ _. HasPutNothing end.old end.new × (all_got end.new ≡ all_got end.old)) }
    {
        let entry = Entry {
            item: row,
            end: end.number,
            count: end.count,
        };
        let Err(entry) = end.own.push_as::<Put>(entry) else {
            end.count += 1;
            return Ok(());
        };
        let Ok(()) = self.inlet.push_as::<Put, R>(rt, &mut end.inlet, entry) else {
            return Err(AllocError);
        };
        end.count += 1;
        Ok(())
    }

    /// A row from the end's own deque, else from the injector, else from another end's deque.
    pub fn get<R: Wait>(&self, rt: &R, end: &mut ReadyEnd) -> Option<Row>
        requires here { IsEndOf self.now end.old }
        ensures here { IsEndOf self.now end.new × (end_number end.new ≡ end_number end.old) }
        ensures puts_nothing { HasPutNothing end.old end.new }
        ensures got { MatchOption result ((all_got end.new ≡ all_got end.old) × WasEmpty (own_hand end.old)) (λ row. HasGot end.old end.new row) }
    {
        if let Some(entry) = end.own.pop_as::<Got>() {
            return Some(entry.item);
        }
        if let Some(entry) = self.take_shared(rt, &mut end.inlet) {
            return Some(entry.item);
        }
        let entry = steal_any(&mut end.others)?;
        Some(entry.item)
    }

    /// The entry at the front of the injector. It tries again while others are at work there.
    fn take_shared<R: Wait>(
        &self,
        rt: &R,
        inlet: &mut InjectorPass<Entry<Row>, QueueView<Row>>,
    ) -> Option<Entry<Row>>
        requires { IsInjectorPassOf self.now.inlet inlet.old }
        ensures here { IsInjectorPassOf self.now.inlet inlet.new }
        ensures got { MatchOption result (injector_view inlet.new ≡ injector_view inlet.old) (λ e. injector_view inlet.new ≡ gets (injector_view inlet.old) (e ∷ [])) }
    {
        for _ in rt.forever() {
            match self.inlet.steal_as::<Got, R>(rt, inlet) {
                Steal::Success(entry) => return Some(entry),
                Steal::Empty => return None,
                Steal::Retry => {}
            }
        }
        unreachable!()
    }
}

/// The entry at the front of another end's deque, unless it is empty or others are at work there.
fn steal(other: &mut Other) -> Option<Entry<Row>>
    requires { IsOther other.old }
    ensures here { IsOther other.new }
    ensures got { MatchOption result (view other.new.hand ≡ view other.old.hand) (λ e. view other.new.hand ≡ gets (view other.old.hand) (e ∷ [])) }
{
    match other.deque.steal_as::<Got>(&mut other.hand) {
        Steal::Success(entry) => Some(entry),
        Steal::Empty | Steal::Retry => None,
    }
}

/// An entry of another end's deque, of the first that gives one.
fn steal_any(others: &mut Vec<Other>) -> Option<Entry<Row>>
    requires { All IsOther others.old.items }
    ensures here { All IsOther others.new.items }
    ensures got { MatchOption result (map got_of others.new.items ≡ map got_of others.old.items) (λ e. GotOne (map got_of others.old.items) (map got_of others.new.items) e) }
{
    for at in 0..others.len() {
        if let Some(entry) = steal(&mut others[at]) {
            return Some(entry);
        }
    }
    None
}
