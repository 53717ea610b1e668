//! The syncs that wait, and what is open.

ghost use Rattle.std.specs.Prelude.{◌≡◌, ◌≢◌, ◌<◌, ◌≤◌, ◌^◌, ◌+◌, ◌↔◌, [], ℕ, Some, None, OnErr, OnOk, IfOk, IfErr, IsTrue, true, false, length, map, slice_get};
ghost use Rattle.engine.specs.Calls.{AreTaken, ChannelOpens, ClosesChannel, ClosesLatch, Comes, Declines, Enters, Fires, IsWaiting, Keeps, LatchOpens, Polls, Refuses, Takes, Tries, Withdraws, with_latch};
ghost use Rattle.engine.specs.Lines.{Adds, Lined, Pops, Sifts, WaitsAt};
ghost use Rattle.engine.specs.Orders.{IsWithin, TriesEach};
ghost use Rattle.engine.specs.Places.{shown};
ghost use Rattle.engine.specs.States.{AreKnown, IsKnown, IsOpen, LatchIs, NoneReady, Waits};
ghost use Rattle.engine.specs.declared.offers.Offer.TheVariants as variant;
ghost use Rattle.engine.specs.Tables.{IsPlaced, SameBut, SameWait, Sits, Sound, line_at, state_of, sync_of};

use crate::held::{Latch, Offered};
use crate::lines::{stand, take_live};
use crate::offers::{
    Answer, Answered, ChannelKey, Entered, Kind, LatchKey, Offer, Refusal, SyncKey,
};
use crate::order::Order;
use crate::places::Places;
use channels::{Channel, Side, StandFault, Waiting, Who};
use std::alloc::{AllocError, Global};

/// The syncs that wait, and what is open.
#[derive(Drop)]
pub(crate) struct Table {
    pub(crate) syncs: Places<Offered>,
    pub(crate) channels: Places<Channel>,
    pub(crate) latches: Places<Latch>,
    /// The generation of what is opened, or comes to wait, next.
    pub(crate) next: u64,
    pub(crate) alloc: Global,
}

/// A sync takes a place.
fn sit(
    syncs: &mut Places<Offered>,
    alloc: Global,
    generation: u64,
    offers: &[Offer],
) -> Result<u32, AllocError>
    ensures ok { IfOk result (λ index. Sits (map (shown sync_of) syncs.old.slots.items) (map (shown sync_of) syncs.new.slots.items) index (record { generation = generation; offers = offers.now })) }
    ensures err { OnErr result (SameWait (map (shown sync_of) syncs.old.slots.items) (map (shown sync_of) syncs.new.slots.items)) }
{
    let index = syncs.free_place(Offered::new(alloc))?;
    syncs.slots[index as usize].value.fill(offers)?;
    syncs.begin(index, generation);
    Ok(index)
}

impl Table {
    /// Nobody waits, and nothing is open.
    pub(crate) fn new(alloc: Global) -> Table
        ensures sound { Sound result }
        ensures empty { state_of result ≡ record { channels = []; latches = []; places = []; next = 0 } }
    {
        Table {
            syncs: Places::new(alloc),
            channels: Places::new(alloc),
            latches: Places::new(alloc),
            next: 0,
            alloc,
        }
    }

    /// Opens a channel.
    pub(crate) fn open_channel(&mut self) -> Result<ChannelKey, AllocError>
        requires { Sound self.old }
        ensures sound { Sound self.new }
        ensures ok { IfOk result (ChannelOpens (state_of self.old) (state_of self.new)) }
        ensures err { OnErr result (state_of self.new ≡ state_of self.old) }
    {
        let generation = self.next;
        let Some(next) = generation.checked_add(1) else {
            return Err(AllocError);
        };
        let index = self.channels.open(generation, Channel::new(self.alloc))?;
        self.next = next;
        Ok(ChannelKey { index, generation })
    }

    /// Opens a latch.
    pub(crate) fn open_latch(&mut self) -> Result<LatchKey, AllocError>
        requires { Sound self.old }
        ensures sound { Sound self.new }
        ensures ok { IfOk result (LatchOpens (state_of self.old) (state_of self.new)) }
        ensures err { OnErr result (state_of self.new ≡ state_of self.old) }
    {
        let generation = self.next;
        let Some(next) = generation.checked_add(1) else {
            return Err(AllocError);
        };
        let index = self.latches.open(generation, Latch::new(self.alloc))?;
        self.next = next;
        Ok(LatchKey { index, generation })
    }

    /// Whether the channel is open, or the latch.
    #[inline]
    pub(crate) fn is_known(&self, offer: Offer) -> bool
        ensures { IsTrue result ↔ IsKnown (state_of self.now) offer }
    {
        match offer {
            Offer::Send(key) | Offer::Receive(key) => self
                .channels
                .holds(key.index, key.generation),
            Offer::Latch(key) => self.latches.holds(key.index, key.generation),
            Offer::Always => true,
        }
    }

    /// Whether each offer is of what is open.
    #[inline]
    fn are_known(&self, offers: &[Offer]) -> bool
        ensures { IsTrue result ↔ AreKnown (state_of self.now) offers.now }
    {
        for offer in offers {
            if !self.is_known(*offer) {
                return false;
            }
        }
        true
    }

    /// How many offers there are, if each is of what is open, and they are few enough.
    #[inline]
    fn count(&self, offers: &[Offer]) -> Result<u32, Refusal>
        ensures ok { IfOk result (λ count. (count ≡ length offers.now) × AreTaken (state_of self.now) offers.now) }
        ensures err { IfErr result (Refuses (state_of self.now) offers.now) }
    {
        if !self.are_known(offers) {
            return Err(Refusal::Unknown);
        }
        if offers.len() > u32::MAX as usize {
            return Err(Refusal::TooMany);
        }
        Ok(offers.len() as u32)
    }

    /// Takes the oldest out of the line of an offer whose sync waits. Those before him are dropped.
    #[inline(always)]
    fn take_from_line(&mut self, theirs: Offer) -> Option<Waiting>
        requires { IsKnown (state_of self.old) theirs }
        ensures pops { Pops (state_of self.old).places (line_at self.old theirs) (line_at self.new theirs) result }
        ensures same { SameBut self.old self.new theirs }
    {
        match theirs {
            Offer::Send(key) => {
                let slot = &mut self.channels.slots[key.index as usize];
                take_live(&mut slot.value, Side::Send, &self.syncs)
            }
            Offer::Receive(key) => {
                let slot = &mut self.channels.slots[key.index as usize];
                take_live(&mut slot.value, Side::Receive, &self.syncs)
            }
            Offer::Latch(key) => {
                let slot = &mut self.latches.slots[key.index as usize];
                take_live(&mut slot.value.line, Side::Receive, &self.syncs)
            }
            Offer::Always => None,
        }
    }

    /// Lets somebody stand in the line of an offer.
    #[inline]
    fn stand_in_line(&mut self, offer: Offer, waiting: Waiting) -> Result<(), StandFault>
        requires known { IsKnown (state_of self.old) offer }
        requires needs { offer ≢ variant.Always }
        ensures ok { OnOk result (Adds (state_of self.old).places (line_at self.old offer) (line_at self.new offer) waiting) }
        ensures err { OnErr result (Sifts (state_of self.old).places (line_at self.old offer) (line_at self.new offer)) }
        ensures same { SameBut self.old self.new offer }
    {
        match offer {
            Offer::Send(key) => {
                let slot = &mut self.channels.slots[key.index as usize];
                stand(&mut slot.value, Side::Send, waiting, &self.syncs)
            }
            Offer::Receive(key) => {
                let slot = &mut self.channels.slots[key.index as usize];
                stand(&mut slot.value, Side::Receive, waiting, &self.syncs)
            }
            Offer::Latch(key) => {
                let slot = &mut self.latches.slots[key.index as usize];
                stand(&mut slot.value.line, Side::Receive, waiting, &self.syncs)
            }
            Offer::Always => unreachable!(),
        }
    }

    /// The oldest sync that waits with this offer leaves.
    #[inline(always)]
    fn take(&mut self, theirs: Offer) -> Option<Answered>
        requires sound { Sound self.old }
        requires known { IsKnown (state_of self.old) theirs }
        ensures sound { Sound self.new }
        ensures takes { Takes (state_of self.old) (state_of self.new) theirs result }
    {
        let waiting = self.take_from_line(theirs)?;
        self.syncs.leave(waiting.who.place);
        let sync = SyncKey {
            index: waiting.who.place,
            generation: waiting.ticket,
        };
        Some(Answered {
            sync,
            own: waiting.who.own as usize,
        })
    }

    /// Whether the latch, which is open, is fired.
    #[inline]
    fn is_fired(&self, latch: LatchKey) -> bool
        requires { IsKnown (state_of self.now) (variant.Latch latch) }
        ensures { LatchIs (state_of self.now) latch result }
    {
        self.latches.slots[latch.index as usize].value.fired
    }

    /// Answers this offer, if it is ready.
    #[inline(always)]
    fn answer(&mut self, own: usize, offer: Offer) -> Option<Answer>
        requires sound { Sound self.old }
        requires known { IsKnown (state_of self.old) offer }
        ensures sound { Sound self.new }
        ensures tries { Tries (state_of self.old) (state_of self.new) own offer result }
    {
        let kind = match offer {
            Offer::Always => Kind::Always,
            Offer::Latch(latch) => {
                if !self.is_fired(latch) {
                    return None;
                }
                Kind::Latch
            }
            Offer::Send(_) | Offer::Receive(_) => {
                let taken = self.take(offer.other_side()?)?;
                Kind::Partner {
                    sync: taken.sync,
                    other: taken.own,
                }
            }
        };
        Some(Answer { own, kind })
    }

    /// Answers the first offer in this order that is ready.
    #[inline]
    fn first_ready(&mut self, offers: &[Offer], mut order: Order) -> Option<Answer>
        requires sound { Sound self.old }
        requires known { AreKnown (state_of self.old) offers.now }
        requires count { order.count ≡ length offers.now }
        requires within { 0 < order.count → IsWithin order }
        requires each { TriesEach order }
        ensures sound { Sound self.new }
        ensures polls { Polls (state_of self.old) (state_of self.new) offers.now result }
    {
        for _time in 0..offers.len() {
            let own = order.next() as usize;
            if let Some(answer) = self.answer(own, offers[own]) {
                return Some(answer);
            }
        }
        None
    }

    /// Answers one of the offers that is ready, if any is. For one offer no order is drawn.
    #[inline]
    fn ready(&mut self, offers: &[Offer], count: u32, number: u64) -> Option<Answer>
        requires sound { Sound self.old }
        requires known { AreKnown (state_of self.old) offers.now }
        requires count { count ≡ length offers.now }
        ensures sound { Sound self.new }
        ensures polls { Polls (state_of self.old) (state_of self.new) offers.now result }
    {
        if let [offer] = offers {
            return self.answer(0, *offer);
        }
        self.first_ready(offers, Order::drawn(count, number))
    }

    /// Answers one of the offers that is ready.
    pub(crate) fn poll(&mut self, offers: &[Offer], number: u64) -> Result<Option<Answer>, Refusal>
        requires { Sound self.old }
        ensures sound { Sound self.new }
        ensures ok { IfOk result (λ answer. AreTaken (state_of self.old) offers.now × Polls (state_of self.old) (state_of self.new) offers.now answer) }
        ensures err { IfErr result (λ refusal. (state_of self.new ≡ state_of self.old) × Refuses (state_of self.old) offers.now refusal) }
    {
        let count = self.count(offers)?;
        Ok(self.ready(offers, count, number))
    }

    /// A sync takes a place, and is to stand in the lines.
    #[inline]
    fn place(&mut self, offers: &[Offer]) -> Result<SyncKey, AllocError>
        requires { Sound self.old }
        ensures ok { IfOk result (λ key. IsPlaced self.old self.new key offers.now) }
        ensures sound { OnErr result (Sound self.new) }
        ensures err { OnErr result (Keeps (state_of self.old) (state_of self.new)) }
    {
        let generation = self.next;
        let Some(next) = generation.checked_add(1) else {
            return Err(AllocError);
        };
        let index = sit(&mut self.syncs, self.alloc, generation, offers)?;
        self.next = next;
        Ok(SyncKey { index, generation })
    }

    /// Lets the sync stand in the line of each of its offers.
    #[inline]
    fn stand_in_lines(&mut self, offers: &[Offer], sync: SyncKey) -> Result<(), StandFault>
        requires lined { Lined (state_of self.old).places (state_of self.old).next (line_at self.old) sync.index 0 }
        requires next { sync.generation + 1 ≡ (state_of self.old).next }
        requires waits { Waits (state_of self.old) sync offers.now }
        requires known { AreKnown (state_of self.old) offers.now }
        requires none { (own : ℕ) (o : Offer) → slice_get offers.now own ≡ Some o → o ≢ variant.Always }
        requires few { length offers.now < 2 ^ 32 }
        ensures ok { OnOk result (Lined (state_of self.old).places (state_of self.old).next (line_at self.new) sync.index (length offers.now)) }
        ensures err { OnErr result ((from : ℕ) × Lined (state_of self.old).places (state_of self.old).next (line_at self.new) sync.index from) }
        ensures state { state_of self.new ≡ state_of self.old }
    {
        for own in 0..offers.len() {
            let waiting = Waiting {
                ticket: sync.generation,
                who: Who {
                    place: sync.index,
                    own: own as u32,
                },
            };
            self.stand_in_line(offers[own], waiting)?;
        }
        Ok(())
    }

    /// A sync comes to wait.
    fn add(&mut self, offers: &[Offer]) -> Result<SyncKey, AllocError>
        requires sound { Sound self.old }
        requires taken { AreTaken (state_of self.old) offers.now }
        requires none { NoneReady (state_of self.old) offers.now }
        ensures sound { Sound self.new }
        ensures ok { IfOk result (λ key. Comes (state_of self.old) (state_of self.new) key offers.now) }
        ensures err { OnErr result (Keeps (state_of self.old) (state_of self.new)) }
    {
        let sync = self.place(offers)?;
        match self.stand_in_lines(offers, sync) {
            Ok(()) => Ok(sync),
            Err(_) => {
                self.syncs.leave(sync.index);
                Err(AllocError)
            }
        }
    }

    /// Answers one of the offers that is ready, or else lets the sync wait.
    pub(crate) fn enter(&mut self, offers: &[Offer], number: u64) -> Result<Entered, Refusal>
        requires { Sound self.old }
        ensures sound { Sound self.new }
        ensures ok { IfOk result (λ entered. AreTaken (state_of self.old) offers.now × Enters (state_of self.old) (state_of self.new) offers.now entered) }
        ensures err { IfErr result (Declines (state_of self.old) (state_of self.new) offers.now) }
    {
        let count = self.count(offers)?;
        if let Some(answer) = self.ready(offers, count, number) {
            return Ok(Entered::Now(answer));
        }
        match self.add(offers) {
            Ok(sync) => Ok(Entered::Waits(sync)),
            Err(_) => Err(Refusal::Memory),
        }
    }

    /// Sets whether the latch, which is open, is fired.
    fn set_fired(&mut self, latch: LatchKey, fired: bool)
        requires { IsKnown (state_of self.old) (variant.Latch latch) }
        ensures state { state_of self.new ≡ with_latch (state_of self.old) latch fired }
        ensures lines { (o : Offer) → line_at self.new o ≡ line_at self.old o }
    {
        self.latches.slots[latch.index as usize].value.fired = fired;
    }

    /// Answers the oldest sync that waits for the latch, which is open. If none does, the latch is fired.
    pub(crate) fn fire(&mut self, latch: LatchKey) -> Option<Answered>
        requires sound { Sound self.old }
        requires known { IsKnown (state_of self.old) (variant.Latch latch) }
        ensures sound { Sound self.new }
        ensures fires { Fires (state_of self.old) (state_of self.new) latch result }
    {
        match self.take(Offer::Latch(latch)) {
            Some(answered) => Some(answered),
            None => {
                self.set_fired(latch, true);
                None
            }
        }
    }

    /// The latch, which is open, is fired no longer.
    pub(crate) fn renew(&mut self, latch: LatchKey)
        requires sound { Sound self.old }
        requires known { IsKnown (state_of self.old) (variant.Latch latch) }
        ensures sound { Sound self.new }
        ensures renews { state_of self.new ≡ with_latch (state_of self.old) latch false }
    {
        self.set_fired(latch, false);
    }

    /// Answers the oldest sync that waits at the channel, which is open. If none does, the channel is closed.
    pub(crate) fn close_channel(&mut self, key: ChannelKey) -> Option<Answered>
        requires sound { Sound self.old }
        requires known { IsOpen (state_of self.old) key }
        ensures sound { Sound self.new }
        ensures closes { ClosesChannel (state_of self.old) (state_of self.new) key result }
    {
        if let Some(answered) = self.take(Offer::Send(key)) {
            return Some(answered);
        }
        if let Some(answered) = self.take(Offer::Receive(key)) {
            return Some(answered);
        }
        self.channels.leave(key.index);
        None
    }

    /// Answers the oldest sync that waits for the latch, which is open. If none does, the latch is closed.
    pub(crate) fn close_latch(&mut self, key: LatchKey) -> Option<Answered>
        requires sound { Sound self.old }
        requires known { IsKnown (state_of self.old) (variant.Latch key) }
        ensures sound { Sound self.new }
        ensures closes { ClosesLatch (state_of self.old) (state_of self.new) key result }
    {
        if let Some(answered) = self.take(Offer::Latch(key)) {
            return Some(answered);
        }
        self.latches.leave(key.index);
        None
    }

    /// Whether the sync waits.
    #[inline]
    pub(crate) fn waits(&self, sync: SyncKey) -> bool
        ensures { IsWaiting (state_of self.now) sync result }
    {
        self.syncs.holds(sync.index, sync.generation)
    }

    /// The sync waits no longer. Says whether it did.
    pub(crate) fn withdraw(&mut self, sync: SyncKey) -> bool
        requires { Sound self.old }
        ensures sound { Sound self.new }
        ensures withdraws { Withdraws (state_of self.old) (state_of self.new) sync result }
    {
        if !self.waits(sync) {
            return false;
        }
        self.syncs.leave(sync.index);
        true
    }
}
