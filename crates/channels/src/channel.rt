//! A channel: a line for each side.

ghost use Rattle.std.specs.Prelude.{◌≡◌, ◌++◌, ◌∷◌, [], IfErr, IfNone, OnErr, OnOk, false, true, length, option_to_list};
ghost use Rattle.std.specs.Fn.{CalledAt};
ghost use Rattle.std.specs.List.Retain.{IsFiltered};
ghost use Rattle.channels.specs.Lines.{has_other};
ghost use Rattle.channels.specs.States.{CanStand, Promise, Refuses, StopsAt, line, with_line};

use crate::line::Line;
use crate::waiting::{Side, StandFault, Waiting};
use std::alloc::Global;
use std::marker::Model;

/// Who waits to send and who to receive. No two of them could meet.
#[derive(Drop)]
pub struct Channel {
    sends: Line,
    receives: Line,
    closed: bool,
}

impl Model for Channel {
    ghost use Rattle.channels.specs.States.{Promise, State};

    ghost Value = { State };

    ghost view = { λ c. record { sends = c.sends; receives = c.receives; closed = c.closed } };

    ghost invariant = { λ c. Promise (record { sends = c.sends; receives = c.receives; closed = c.closed }) };
}

impl Channel {
    /// An open channel on which nobody waits.
    pub fn new(alloc: Global) -> Channel
        ensures { result ≡ record { sends = []; receives = []; closed = false } }
    {
        Channel {
            sends: Line::new(alloc),
            receives: Line::new(alloc),
            closed: false,
        }
    }

    /// Takes the oldest of a side out of its line. He is the caller's, to answer or to forget.
    #[inline]
    pub fn oldest(&mut self, side: Side) -> Option<Waiting>
        ensures promise { Promise self.new }
        ensures oldest { line side self.old ≡ option_to_list result ++ line side self.new }
        ensures none { IfNone result (line side self.old ≡ []) }
        ensures rest { self.new ≡ with_line side self.old (line side self.new) }
    {
        match side {
            Side::Send => self.sends.take_oldest(),
            Side::Receive => self.receives.take_oldest(),
        }
    }

    /// Lets somebody stand behind all of his side. After an error the channel is as it was.
    #[inline]
    pub fn stand(&mut self, side: Side, waiting: Waiting) -> Result<(), StandFault>
        ensures promise { Promise self.new }
        ensures ok { OnOk result (CanStand self.old side waiting × (self.new ≡ with_line side self.old (line side self.old ++ waiting ∷ []))) }
        ensures err { IfErr result (Refuses self.old side waiting) }
        ensures same { OnErr result (self.new ≡ self.old) }
    {
        if self.closed {
            return Err(StandFault::Closed);
        }
        match side {
            Side::Send => stand(&mut self.sends, &self.receives, waiting),
            Side::Receive => stand(&mut self.receives, &self.sends, waiting),
        }
    }

    /// Whether the line of a side is at its limit, so that it is to be sifted.
    #[inline]
    pub fn is_full(&self, side: Side) -> bool {
        match side {
            Side::Send => self.sends.is_full(),
            Side::Receive => self.receives.is_full(),
        }
    }

    /// Drops those of a side of whom `is_live` says that they wait no longer.
    pub fn sift<F: FnMut(&Waiting) -> bool>(&mut self, side: Side, is_live: F)
        requires { F.IsAlwaysCallable is_live }
        ensures promise { Promise self.new }
        ensures sifted { IsFiltered (CalledAt F.FnMut) is_live (line side self.old) (line side self.new) }
        ensures rest { self.new ≡ with_line side self.old (line side self.new) }
    {
        match side {
            Side::Send => self.sends.sift(is_live),
            Side::Receive => self.receives.sift(is_live),
        }
    }

    /// Whether somebody of another ticket stands on a side.
    #[inline]
    pub fn has_other(&self, side: Side, ticket: u64) -> bool
        ensures { result ≡ has_other ticket (line side self.now) }
    {
        match side {
            Side::Send => self.sends.has_other(ticket),
            Side::Receive => self.receives.has_other(ticket),
        }
    }

    /// Closes the channel. Those who stand in its lines stay until they are taken out.
    pub fn close(&mut self)
        ensures promise { Promise self.new }
        ensures closed { self.new ≡ record { sends = self.old.sends; receives = self.old.receives; closed = true } }
    {
        self.closed = true;
    }

    /// Whether the channel is closed.
    pub fn is_closed(&self) -> bool
        ensures { result ≡ self.now.closed }
    {
        self.closed
    }

    /// How many stand in the line of a side, with those who wait no longer.
    pub fn len(&self, side: Side) -> usize
        ensures { result ≡ length (line side self.now) }
    {
        match side {
            Side::Send => self.sends.len(),
            Side::Receive => self.receives.len(),
        }
    }
}

/// Lets somebody stand in his line, unless somebody of another ticket stands in the opposite one.
#[inline]
fn stand(line: &mut Line, others: &Line, waiting: Waiting) -> Result<(), StandFault>
    ensures ok { OnOk result ((has_other waiting.ticket others.now ≡ false) × (line.new ≡ line.old ++ waiting ∷ [])) }
    ensures err { IfErr result (StopsAt others.now waiting) }
    ensures same { OnErr result (line.new ≡ line.old) }
{
    if others.has_other(waiting.ticket) {
        return Err(StandFault::Ready);
    }
    line.add(waiting).map_err(|_| StandFault::Memory)
}
