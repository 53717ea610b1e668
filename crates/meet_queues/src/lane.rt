//! Entries are put into a lane and taken from it.

ghost use Rattle.std.specs.Prelude.{◌≡◌, ◌<◌, ◌^◌, ◌-◌, ◌+◌, All, IfOk, IsTrue, MatchOption, MatchResult, List, length};
ghost use Rattle.meet_queues.specs.declared.entries.Entry.{Entry};
ghost use Rattle.meet_queues.specs.Hands.{Held, WasEmpty};
ghost use Rattle.meet_queues.specs.Positions.{AllAt};
ghost use Rattle.meet_queues.specs.Lanes.{HasPut, HasTaken, IsLanePassOf, IsNewPass, IsSame, Offered, hand_of, pass_count};

use crate::entries::{Entry, QueueView};
use crate::lane_rule::{LaneRule, Put, Taken, WaitingOffer};
use crate::splits::Dealt;
use crossbeam_queue::{RuledSegQueue, SegPass};
use protocol_values::Row;
use std::alloc::{AllocError, Global};
use std::sync::Wait;

/// A queue of waiting offers, oldest first, for any number of passes at once.
pub struct Lane {
    queue: RuledSegQueue<Entry<WaitingOffer>, QueueView<WaitingOffer>, LaneRule, Global>,
}

impl Drop for Lane {
    fn drop(self) {
        let Self { queue } = self;
        queue.destroy();
    }
}

/// What one caller has of a lane: it puts and takes with it.
#[derive(Drop)]
pub struct LanePass {
    number: u8,
    count: u64,
    hand: SegPass<Entry<WaitingOffer>, QueueView<WaitingOffer>>,
}

impl LanePass {
    /// How many entries the pass has put.
    pub fn count(&self) -> u64
        ensures { result ≡ pass_count self.now }
    {
        self.count
    }
}

impl Lane {
    /// An empty lane, with so many passes, numbered from 0 on.
    pub fn new(alloc: Global, passes: u8) -> Result<(Lane, Vec<LanePass>), AllocError>
        ensures passes { IfOk result (λ r. (length r.1.items ≡ passes) × All (IsLanePassOf r.0) r.1.items) }
        ensures new { IfOk result (λ r. AllAt IsNewPass r.1.items) }
    {
        let (queue, mut dealer) = RuledSegQueue::with_rule(alloc)?;
        let lane = Lane { queue };
        let mut all = Vec::with_capacity(alloc, usize::from(passes))?;
        for number in 0..passes {
            let hand = lane.queue.another::<Dealt>(&mut dealer);
            all.push(LanePass {
                number,
                count: 0,
                hand,
            })?;
        }
        Ok((lane, all))
    }

    /// Puts offer `n` of the row at the back. The error is want of memory, after which nothing is put.
    pub fn put<R: Wait>(
        &self,
        rt: &R,
        pass: &mut LanePass,
        row: Row,
        n: u8,
    ) -> Result<(), AllocError>
        requires here { IsLanePassOf self.now pass.old }
        requires count { pass_count pass.old < 2 ^ 64 - 1 }
        ensures here { IsLanePassOf self.now pass.new }
        ensures put { MatchResult result (λ _. HasPut pass.old pass.new (row, n)) (λ _. IsSame pass.old pass.new) }
    {
        let entry = Entry {
            item: (row, n),
            end: pass.number,
            count: pass.count,
        };
        let Ok(()) = self.queue.push_as::<Put, R>(rt, &mut pass.hand, entry) else {
            return Err(AllocError);
        };
        pass.count += 1;
        Ok(())
    }

    /// Takes the entry at the front. It waits for whoever is putting that entry at the moment.
    pub fn take_front<R: Wait>(&self, rt: &R, pass: &mut LanePass) -> Option<WaitingOffer>
        requires here { IsLanePassOf self.now pass.old }
        ensures here { IsLanePassOf self.now pass.new }
        ensures taken { MatchOption result (IsSame pass.old pass.new × WasEmpty (hand_of pass.old)) (λ w. HasTaken pass.old pass.new w) }
    {
        let entry = self.queue.pop_as::<Taken, R>(rt, &mut pass.hand)?;
        Some(entry.item)
    }

    /// Whether no entry stands in the lane at a moment of the call, by one look at each of its ends.
    pub fn is_empty(&self, pass: &mut LanePass) -> bool
        requires here { IsLanePassOf self.now pass.old }
        ensures here { IsLanePassOf self.now pass.new × IsSame pass.old pass.new }
        ensures empty { IsTrue result → WasEmpty (hand_of pass.old) }
    {
        self.queue.is_empty_as::<Taken>(&mut pass.hand)
    }
    /// How many entries stand in the lane at a moment of the call.
    pub fn len<R: Wait>(&self, rt: &R, pass: &mut LanePass) -> usize
        requires here { IsLanePassOf self.now pass.old }
        ensures here { IsLanePassOf self.now pass.new × IsSame pass.old pass.new }
        ensures length { (entries : List (Entry Offered)) × (length entries ≡ result) × Held (hand_of pass.old) entries }
    {
        self.queue.len_as::<Taken, R>(rt, &mut pass.hand)
    }
}
