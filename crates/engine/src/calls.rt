//! The engine.

ghost use Rattle.std.specs.Prelude.{◌≡◌, ◌↔◌, [], IfErr, IfOk, IsTrue, OnErr, OnOk, false};
ghost use Rattle.engine.specs.Calls.{AreTaken, ChannelOpens, ClosesChannel, ClosesLatch, Declines, Enters, Fires, IsWaiting, LatchOpens, Polls, Refuses, Withdraws, with_latch};
ghost use Rattle.engine.specs.States.{IsKnown, IsOpen, Promise};
ghost use Rattle.engine.specs.declared.offers.Offer.TheVariants.{Latch};
ghost use Rattle.engine.specs.declared.offers.Refusal.TheVariants.{Unknown};

use crate::offers::{Answer, Answered, ChannelKey, Entered, LatchKey, Offer, Refusal, SyncKey};
use crate::table::Table;
use std::alloc::{AllocError, Global};
use std::marker::Model;

/// The syncs that wait, and what is open. Nobody who could go on is left waiting.
#[derive(Drop)]
pub struct Engine {
    table: Table,
}

impl Model for Engine {
    ghost use Rattle.engine.specs.States.{State};
    ghost use Rattle.engine.specs.Tables.{Sound, state_of};

    ghost Value = { State };

    ghost view = { λ e. state_of e.table };

    ghost invariant = { λ e. Sound e.table };
}

impl Engine {
    /// Nobody waits, and nothing is open.
    pub fn new(alloc: Global) -> Engine
        ensures promise { Promise result }
        ensures empty { result ≡ record { channels = []; latches = []; places = []; next = 0 } }
    {
        Engine {
            table: Table::new(alloc),
        }
    }

    /// Opens a channel. An error says that there is no memory.
    pub fn open_channel(&mut self) -> Result<ChannelKey, AllocError>
        ensures promise { Promise self.new }
        ensures ok { IfOk result (ChannelOpens self.old self.new) }
        ensures err { OnErr result (self.new ≡ self.old) }
    {
        self.table.open_channel()
    }

    /// Opens a latch, which is not fired. An error says that there is no memory.
    pub fn open_latch(&mut self) -> Result<LatchKey, AllocError>
        ensures promise { Promise self.new }
        ensures ok { IfOk result (LatchOpens self.old self.new) }
        ensures err { OnErr result (self.new ≡ self.old) }
    {
        self.table.open_latch()
    }

    /// Whether the channel of the offer is open, or its latch.
    pub fn knows(&self, offer: Offer) -> bool
        ensures { IsTrue result ↔ IsKnown self.now offer }
    {
        self.table.is_known(offer)
    }

    /// Answers one of the offers that is ready, if any is. The number draws in which order they are tried.
    #[inline]
    pub fn poll(&mut self, offers: &[Offer], number: u64) -> Result<Option<Answer>, Refusal>
        ensures promise { Promise self.new }
        ensures ok { IfOk result (λ answer. AreTaken self.old offers.now × Polls self.old self.new offers.now answer) }
        ensures err { IfErr result (λ refusal. (self.new ≡ self.old) × Refuses self.old offers.now refusal) }
    {
        self.table.poll(offers, number)
    }

    /// Answers one of the offers that is ready. If none is, the sync waits. The number draws in which order they are tried.
    #[inline]
    pub fn enter(&mut self, offers: &[Offer], number: u64) -> Result<Entered, Refusal>
        ensures promise { Promise self.new }
        ensures ok { IfOk result (λ entered. AreTaken self.old offers.now × Enters self.old self.new offers.now entered) }
        ensures err { IfErr result (Declines self.old self.new offers.now) }
    {
        self.table.enter(offers, number)
    }

    /// Answers the oldest sync that waits for the latch. Once none does, the latch is fired: call it until it says `None`.
    pub fn fire(&mut self, latch: LatchKey) -> Result<Option<Answered>, Refusal>
        ensures promise { Promise self.new }
        ensures ok { IfOk result (λ taken. IsKnown self.old (Latch latch) × Fires self.old self.new latch taken) }
        ensures err { IfErr result (λ refusal. (refusal ≡ Unknown) × (self.new ≡ self.old) × (¬ IsKnown self.old (Latch latch))) }
    {
        if !self.knows(Offer::Latch(latch)) {
            return Err(Refusal::Unknown);
        }
        Ok(self.table.fire(latch))
    }

    /// The latch is fired no longer, for its next use.
    pub fn renew(&mut self, latch: LatchKey) -> Result<(), Refusal>
        ensures promise { Promise self.new }
        ensures ok { OnOk result (IsKnown self.old (Latch latch) × (self.new ≡ with_latch self.old latch false)) }
        ensures err { IfErr result (λ refusal. (refusal ≡ Unknown) × (self.new ≡ self.old) × (¬ IsKnown self.old (Latch latch))) }
    {
        if !self.knows(Offer::Latch(latch)) {
            return Err(Refusal::Unknown);
        }
        self.table.renew(latch);
        Ok(())
    }

    /// Answers the oldest sync that waits at the channel: to send, or else to receive. Once none does, the channel is closed:
    /// call it until it says `None`.
    pub fn close_channel(&mut self, key: ChannelKey) -> Result<Option<Answered>, Refusal>
        ensures promise { Promise self.new }
        ensures ok { IfOk result (λ taken. IsOpen self.old key × ClosesChannel self.old self.new key taken) }
        ensures err { IfErr result (λ refusal. (refusal ≡ Unknown) × (self.new ≡ self.old) × (¬ IsOpen self.old key)) }
    {
        if !self.knows(Offer::Send(key)) {
            return Err(Refusal::Unknown);
        }
        Ok(self.table.close_channel(key))
    }

    /// Answers the oldest sync that waits for the latch. Once none does, the latch is closed: call it until it says `None`.
    pub fn close_latch(&mut self, key: LatchKey) -> Result<Option<Answered>, Refusal>
        ensures promise { Promise self.new }
        ensures ok { IfOk result (λ taken. IsKnown self.old (Latch key) × ClosesLatch self.old self.new key taken) }
        ensures err { IfErr result (λ refusal. (refusal ≡ Unknown) × (self.new ≡ self.old) × (¬ IsKnown self.old (Latch key))) }
    {
        if !self.knows(Offer::Latch(key)) {
            return Err(Refusal::Unknown);
        }
        Ok(self.table.close_latch(key))
    }

    /// Whether the sync waits.
    pub fn waits(&self, sync: SyncKey) -> bool
        ensures { IsWaiting self.now sync result }
    {
        self.table.waits(sync)
    }

    /// The sync waits no longer. Says whether it did.
    pub fn withdraw(&mut self, sync: SyncKey) -> bool
        ensures promise { Promise self.new }
        ensures withdraws { Withdraws self.old self.new sync result }
    {
        self.table.withdraw(sync)
    }
}
