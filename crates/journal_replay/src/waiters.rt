//! Offers that wait.

ghost use Rattle.std.specs.Prelude.{◌≡◌, ◌++◌, ◌∷◌, [], ◌<◌, ℕ, List, MatchOption, OnOk, Option, Some, slice_get, length, take, ◌-◌};
ghost use Rattle.protocol_values.specs.declared.Base.{Base};
ghost use Rattle.protocol_values.specs.declared.Message.{Message};
ghost use Rattle.protocol_values.specs.declared.Row.{Row};
ghost use Rattle.journal_replay.specs.Searching.{HasRoom, KeepsBrought, KeepsSide, NoneBrought, TakesOther, base_on};
ghost use Rattle.journal_replay.specs.Standing.{MayBe};

use crate::threads::Threads;
use protocol_values::{Base, Commit, Message, Row, Side};
use std::alloc::{AllocError, Global};
use std::marker::Model;

/// What a base event on this side of the channel sends: nothing, for a receive.
pub(crate) fn message_on(base: Base, side: Side, chan: u8) -> Option<Message>
    ensures { MatchOption result ((m : Message) → base ≡ base_on side chan m → ⊥) (λ m. base ≡ base_on side chan m) }
{
    match (side, base) {
        (Side::Sends, Base::Send(at, msg)) if at == chan => Some(msg),
        (Side::Receives, Base::Recv(at)) if at == chan => Some(Message::Empty),
        _ => None,
    }
}

/// Offers by row and number. A row may be committed by now, and its offers closed.
#[derive(Drop)]
pub(crate) struct Waiters {
    places: Vec<(Row, u8)>,
}

impl Model for Waiters {
    ghost use Rattle.std.specs.Prelude.{List, ℕ};
    ghost use Rattle.protocol_values.specs.declared.Row.{Row};

    ghost Value = { List (Row × ℕ) };

    ghost view = { λ w. w.places.items };
}

impl Waiters {
    pub(crate) fn new(alloc: Global) -> Waiters
        ensures { result ≡ [] }
    {
        Waiters {
            places: Vec::new(alloc),
        }
    }

    /// Adds an offer at the end.
    pub(crate) fn add(&mut self, at: (Row, u8)) -> Result<(), AllocError>
        ensures { OnOk result (self.new ≡ self.old ++ at ∷ []) }
    {
        self.places.push(at)?;
        Ok(())
    }

    pub(crate) fn last(&self) -> Option<(Row, u8)>
        ensures { result ≡ slice_get self.now (length self.now - 1) }
    {
        self.places.last().copied()
    }

    pub(crate) fn remove_last(&mut self)
        ensures { self.new ≡ take (length self.old - 1) self.old }
    {
        self.places.pop();
    }

    /// An offer of another thread on this side of the channel, with what it sends. Offers that are
    /// found closed are removed.
    pub(crate) fn partner(
        &mut self,
        threads: &Threads,
        side: Side,
        chan: u8,
        thread: u8,
    ) -> Option<((Row, u8), Message)>
        ensures kept { KeepsSide threads.now.strands.items threads.now.rows side chan self.old self.new }
        ensures found { TakesOther threads.now.strands.items threads.now.rows side chan thread self.old result }
    {
        let mut index = self.places.len();
        while index > 0 {
            index -= 1;
            let at = self.places[index];
            match threads.message_at(at, side, chan) {
                None => {
                    self.places.swap_remove(index);
                }
                Some(message) if at.0.thread != thread => return Some((at, message)),
                Some(_) => {}
            }
        }
        None
    }

    /// A commit by a nack that is fired, or by the end of a thread, for which an offer waits. Offers that are found
    /// closed are removed.
    pub(crate) fn by_cause(&mut self, threads: &Threads) -> Option<Commit>
        requires { HasRoom threads.now.strands.items }
        ensures kept { KeepsBrought threads.now.strands.items threads.now.rows self.old self.new }
        ensures found { MatchOption result (NoneBrought threads.now.strands.items threads.now.rows self.old) (MayBe threads.now.strands.items threads.now.rows) }
    {
        let mut index = self.places.len();
        while index > 0 {
            index -= 1;
            let at = self.places[index];
            match threads.cause_at(at) {
                None => {
                    self.places.swap_remove(index);
                }
                Some(cause) => {
                    if let Some(commit) = threads.alone(at, cause) {
                        return Some(commit);
                    }
                }
            }
        }
        None
    }
}
