//! A channel with room for messages, on which one may also wait to be told.

ghost use Rattle.std.specs.Prelude.{◌≡◌, ◌++◌, ◌∷◌, [], false, true, IfErr, IfNone, IfOk, IfSome, None, Some, OnErr, OnOk, filter, length, map, option_to_list, slice_get, take};
ghost use Rattle.std.specs.Fn.{CalledAt};
ghost use Rattle.std.specs.List.{list_any};
ghost use Rattle.std.specs.List.Retain.{IsFiltered};
ghost use Rattle.channels.specs.Buffers.{Holds, IsServed, Promises, RefusesHold, RefusesStand, RefusesTake, Takes, Tells, is_missed, is_other_pull, is_reached, is_ready, untold};
ghost use Rattle.channels.specs.declared.pulls.Pull.{Pull};
ghost use Rattle.channels.specs.declared.waiting.Side.TheVariants.{Receive};
ghost use Rattle.channels.specs.States.{line, with_line};

use crate::channel::Channel;
use crate::held::Held;
use crate::pulls::{Pull, Pulls};
use crate::waiting::{Side, StandFault, Waiting};
use std::alloc::Global;
use std::marker::Model;

/// Who waits to send, to receive and to be told, and what is held.
#[derive(Drop)]
pub struct Buffered {
    lines: Channel,
    held: Held,
    pulls: Pulls,
}

/// Why a message is not held.
#[derive(Clone, Copy, PartialEq, Eq, Debug)]
pub enum HoldFault {
    /// The channel is closed.
    Closed,
    /// Somebody stands to receive: he has to be asked first.
    Ready,
    /// There is no room.
    Full,
    /// There is no memory.
    Memory,
}

/// Why no message is taken.
#[derive(Clone, Copy, PartialEq, Eq, Debug)]
pub enum TakeFault {
    /// None is held.
    Empty,
    /// Somebody stands to send, whose message is to be held next: he has to be asked first.
    Ready,
}

impl Model for Buffered {
    ghost use Rattle.channels.specs.Buffers.{Buffer, Promises};

    ghost Value = { Buffer };

    ghost view = { λ b. record { lines = b.lines; held = b.held; pulls = b.pulls } };

    ghost invariant = { λ b. Promises (record { lines = b.lines; held = b.held; pulls = b.pulls }) };
}

impl Buffered {
    /// An open channel with room for so many messages: 0 is a rendezvous, and `usize::MAX` is without bound.
    pub fn new(alloc: Global, room: usize) -> Buffered
        ensures promise { Promises result }
        ensures new { result ≡ record { lines = record { sends = []; receives = []; closed = false }; held = record { values = []; room = room }; pulls = [] } }
    {
        Buffered {
            lines: Channel::new(alloc),
            held: Held::new(alloc, room),
            pulls: Pulls::new(alloc),
        }
    }

    /// Takes the oldest of a side out of its line. He is the caller's, to answer or to forget.
    #[inline]
    pub fn oldest(&mut self, side: Side) -> Option<Waiting>
        ensures promise { Promises self.new }
        ensures oldest { line side self.old.lines ≡ option_to_list result ++ line side self.new.lines }
        ensures none { IfNone result (line side self.old.lines ≡ []) }
        ensures rest { self.new ≡ record self.old { lines = with_line side self.old.lines (line side self.new.lines) } }
    {
        self.lines.oldest(side)
    }

    /// Holds a message behind all others.
    #[inline]
    pub fn hold(&mut self, value: u64) -> Result<(), HoldFault>
        ensures promise { Promises self.new }
        ensures ok { OnOk result (Holds self.old self.new value) }
        ensures err { IfErr result (RefusesHold self.old) }
        ensures same { OnErr result (self.new ≡ self.old) }
    {
        if self.lines.is_closed() {
            return Err(HoldFault::Closed);
        }
        if self.lines.len(Side::Receive) > 0 {
            return Err(HoldFault::Ready);
        }
        if !self.held.has_room() {
            return Err(HoldFault::Full);
        }
        self.held.put(value).map_err(|_| HoldFault::Memory)
    }

    /// Takes the oldest message. The next one, if there is one, is that of the sender who stood longest: it is held behind
    /// all others.
    #[inline]
    pub fn take(&mut self, next: Option<u64>) -> Result<u64, TakeFault>
        ensures promise { Promises self.new }
        ensures ok { IfOk result (Takes self.old self.new next) }
        ensures err { IfErr result (RefusesTake self.old next) }
        ensures same { OnErr result (self.new ≡ self.old) }
    {
        match next {
            Some(next) => self.held.exchange(next).ok_or(TakeFault::Empty),
            None => self.take_last(),
        }
    }

    /// Takes the oldest message, where nobody stands to send.
    fn take_last(&mut self) -> Result<u64, TakeFault>
        ensures promise { Promises self.new }
        ensures ok { IfOk result (Takes self.old self.new None) }
        ensures err { IfErr result (RefusesTake self.old None) }
        ensures same { OnErr result (self.new ≡ self.old) }
    {
        if self.held.is_empty() {
            return Err(TakeFault::Empty);
        }
        if self.lines.len(Side::Send) > 0 {
            return Err(TakeFault::Ready);
        }
        match self.held.take() {
            Some(value) => Ok(value),
            None => Err(TakeFault::Empty),
        }
    }

    /// Whether somebody of the side would find what he looks for: room or a message, or somebody of another ticket.
    #[inline]
    pub fn is_ready(&self, side: Side, waiting: Waiting) -> bool
        ensures { result ≡ is_ready self.now side waiting }
    {
        match side {
            Side::Send => {
                self.held.has_room() || self.lines.has_other(Side::Receive, waiting.ticket)
            }
            Side::Receive => {
                !self.held.is_empty() || self.lines.has_other(Side::Send, waiting.ticket)
            }
        }
    }

    /// Lets somebody stand behind all of his side. After an error the channel is as it was.
    #[inline]
    pub fn stand(&mut self, side: Side, waiting: Waiting) -> Result<(), StandFault>
        ensures promise { Promises self.new }
        ensures ok { OnOk result ((self.old.lines.closed ≡ false) × (is_ready self.old side waiting ≡ false) × (self.new ≡ record self.old { lines = with_line side self.old.lines (line side self.old.lines ++ waiting ∷ []) })) }
        ensures err { IfErr result (RefusesStand self.old side waiting) }
        ensures same { OnErr result (self.new ≡ self.old) }
    {
        if self.lines.is_closed() {
            return Err(StandFault::Closed);
        }
        if self.is_ready(side, waiting) {
            return Err(StandFault::Ready);
        }
        self.lines.stand(side, waiting)
    }

    /// Lets somebody wait to be told that there is something to receive. After an error the channel is as it was.
    #[inline]
    pub fn pull(&mut self, waiting: Waiting) -> Result<(), StandFault>
        ensures promise { Promises self.new }
        ensures served { IsServed self.old → IsServed self.new }
        ensures ok { OnOk result ((self.old.lines.closed ≡ false) × (is_ready self.old Receive waiting ≡ false) × (self.new ≡ record self.old { pulls = self.old.pulls ++ record { waiting = waiting; told = false } ∷ [] })) }
        ensures err { IfErr result (RefusesStand self.old Receive waiting) }
        ensures same { OnErr result (self.new ≡ self.old) }
    {
        if self.lines.is_closed() {
            return Err(StandFault::Closed);
        }
        if self.is_ready(Side::Receive, waiting) {
            return Err(StandFault::Ready);
        }
        self.pulls.add(waiting).map_err(|_| StandFault::Memory)
    }

    /// Tells the oldest for whom something is there, unless one was told for whom something is there. Whoever calls it after
    /// each change leaves nobody untold: he wakes whom it names.
    pub fn tell(&mut self) -> Option<Waiting>
        ensures promise { Promises self.new }
        ensures served { IsServed self.new }
        ensures tells { Tells self.old self.new result }
    {
        if self.pulls.is_empty() {
            return None;
        }
        let index = self.first_missed()?;
        if self.is_reached() {
            return None;
        }
        Some(self.pulls.tell(index))
    }

    /// The oldest that was not told and for whom something is there.
    fn first_missed(&self) -> Option<usize>
        ensures some { IfSome result (λ index. (list_any (is_missed self.now) (take index self.now.pulls) ≡ false) × ((pull : Pull) × (slice_get self.now.pulls index ≡ Some pull) × (is_missed self.now pull ≡ true))) }
        ensures none { IfNone result (list_any (is_missed self.now) self.now.pulls ≡ false) }
    {
        for (index, pull) in self.pulls.as_slice().iter().enumerate() {
            if self.is_missed(*pull) {
                return Some(index);
            }
        }
        None
    }

    fn is_missed(&self, pull: Pull) -> bool
        ensures { result ≡ is_missed self.now pull }
    {
        !pull.told && self.is_ready(Side::Receive, pull.waiting)
    }

    fn reaches(&self, pull: Pull) -> bool
        ensures { result ≡ is_reached self.now pull }
    {
        pull.told && self.is_ready(Side::Receive, pull.waiting)
    }

    /// Whether one was told for whom something is there.
    fn is_reached(&self) -> bool
        ensures { result ≡ list_any (is_reached self.now) self.now.pulls }
    {
        for pull in self.pulls.as_slice() {
            if self.reaches(*pull) {
                return true;
            }
        }
        false
    }

    /// Those of the ticket have looked and found nothing: they wait on in their places, to be told anew.
    pub fn wait_on(&mut self, ticket: u64)
        ensures promise { Promises self.new }
        ensures waits { self.new ≡ record self.old { pulls = map (untold ticket) self.old.pulls } }
    {
        self.pulls.untell(ticket);
    }

    /// Those of the ticket wait no longer to be told.
    pub fn forget(&mut self, ticket: u64)
        ensures promise { Promises self.new }
        ensures forgets { self.new ≡ record self.old { pulls = filter (is_other_pull ticket) self.old.pulls } }
    {
        self.pulls.forget(ticket);
    }

    /// Whether the line of a side is at its limit, so that it is to be sifted.
    #[inline]
    pub fn is_full(&self, side: Side) -> bool {
        self.lines.is_full(side)
    }

    /// Drops those of a side of whom `is_live` says that they wait no longer.
    pub fn sift<F: FnMut(&Waiting) -> bool>(&mut self, side: Side, is_live: F)
        requires { F.IsAlwaysCallable is_live }
        ensures promise { Promises self.new }
        ensures sifted { IsFiltered (CalledAt F.FnMut) is_live (line side self.old.lines) (line side self.new.lines) }
        ensures rest { self.new ≡ record self.old { lines = with_line side self.old.lines (line side self.new.lines) } }
    {
        self.lines.sift(side, is_live);
    }

    /// Closes the channel. Those who stand or wait, and what is held, stay until they are taken out.
    pub fn close(&mut self)
        ensures promise { Promises self.new }
        ensures closed { self.new ≡ record self.old { lines = record self.old.lines { closed = true } } }
    {
        self.lines.close();
    }

    /// Whether the channel is closed.
    pub fn is_closed(&self) -> bool
        ensures { result ≡ self.now.lines.closed }
    {
        self.lines.is_closed()
    }

    /// How many stand in the line of a side, with those who wait no longer.
    pub fn len(&self, side: Side) -> usize
        ensures { result ≡ length (line side self.now.lines) }
    {
        self.lines.len(side)
    }

    /// How many messages are held.
    pub fn held(&self) -> usize
        ensures { result ≡ length self.now.held.values }
    {
        self.held.len()
    }

    /// How many wait to be told, told or not.
    pub fn pulls(&self) -> usize
        ensures { result ≡ length self.now.pulls }
    {
        self.pulls.len()
    }
}
