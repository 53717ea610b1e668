//! Rooms: lanes of waiting offers, each with counts that tell who has entries of it in hand. Where rows wait for a nack or an
//! end, the waking goes by these counts.

ghost use Rattle.std.specs.Prelude.{◌≡◌, ◌<◌, ◌++◌, ◌∷◌, [], All, IfOk, MatchResult, length};
ghost use Rattle.cell.specs.Calls.{IsPassOf};
ghost use Rattle.meet_queues.specs.Lanes.{IsLanePassOf, IsSame};
ghost use Rattle.meet.specs.Rooms.{AllJoin, EachPutsOn, EachServes, Joins, PutAt, PutsBack, PutsOn, Serves};
ghost use Rattle.meet_scan.specs.Searches.{Grows};
ghost use Rattle.meet_scan.specs.Steps.{OnlyLooks};

use crate::queue::Queue;
use cell::{Cells, Pass};
use crossbeam_utils::CachePadded;
use meet_queues::{Lane, LanePass, WaitingOffer};
use protocol_ledger::Resident;
use std::alloc::{AllocError, Global};
use std::sync::Wait;
use std::sync::atomic::{AtomicU64, AtomicUsize, Ordering};

/// How long a lane is at least before it is swept.
const FEW: usize = 64;

/// How often entries were taken up from a lane and given back, and from which length on it is swept.
#[derive(Drop)]
struct Counts {
    taken_up: AtomicU64,
    given_back: AtomicU64,
    most: AtomicUsize,
}

/// A lane of offers of one kind, with its counts. Two rooms have no line of the cache in common, since whoever searches in
/// one writes there.
#[derive(Drop)]
pub(crate) struct Room {
    pub(crate) lane: Lane,
    counts: CachePadded<Counts>,
}

/// One caller's passes of all rooms, and the entries that it has in hand.
#[derive(Drop)]
pub(crate) struct RoomsPass {
    pub(crate) passes: Vec<LanePass>,
    pub(crate) in_hand: Queue,
}

impl Room {
    fn new(lane: Lane) -> Room
        ensures { result.lane ≡ lane }
    {
        let counts = Counts {
            taken_up: AtomicU64::new(0),
            given_back: AtomicU64::new(0),
            most: AtomicUsize::new(FEW),
        };
        Room {
            lane,
            counts: CachePadded::new(counts),
        }
    }

    /// Tells the others that entries of the lane may be in hand from now on.
    pub(crate) fn take_up(&self) {
        self.counts.taken_up.fetch_add(1, Ordering::SeqCst);
    }

    /// Tells the others that what was live of them stands in the lane again.
    pub(crate) fn give_back(&self) {
        self.counts.given_back.fetch_add(1, Ordering::SeqCst);
    }

    /// How often entries were given back.
    pub(crate) fn returns(&self) -> u64 {
        self.counts.given_back.load(Ordering::SeqCst)
    }

    /// Whether others may have had entries in hand since so many returns were read: the caller itself took
    /// up entries so many times in between.
    pub(crate) fn was_shared(&self, returns: u64, own: u64) -> bool {
        // Where nobody else had any at a moment in between, as many were given back then as taken up, but
        // for the caller's; neither count falls.
        self.counts
            .taken_up
            .load(Ordering::SeqCst)
            .wrapping_sub(returns)
            > own
    }

    /// Whether nothing stood in the lane at a moment of the call, nor was in anybody's hand then.
    pub(crate) fn is_still(&self, lane: &mut LanePass) -> bool
        requires { IsLanePassOf self.now.lane lane.old }
        ensures { IsLanePassOf self.now.lane lane.new × IsSame lane.old lane.new }
    {
        let returns = self.returns();
        self.lane.is_empty(lane) && !self.was_shared(returns, 0)
    }

    /// Puts the entry at the back. A pass that has put as many as its count can tell puts it nowhere.
    fn put<R: Wait>(
        &self,
        rt: &R,
        lane: &mut LanePass,
        entry: WaitingOffer,
    ) -> Result<(), AllocError>
        requires { IsLanePassOf self.now.lane lane.old }
        ensures here { IsLanePassOf self.now.lane lane.new }
        ensures put { MatchResult result (λ _. Joins lane.old lane.new entry) (λ _. IsSame lane.old lane.new) }
    {
        if lane.count() == u64::MAX {
            return Ok(());
        }
        self.lane.put(rt, lane, entry.0, entry.1)
    }

    /// Puts the entries at the back, in their order.
    fn put_all<R: Wait>(
        &self,
        rt: &R,
        lane: &mut LanePass,
        entries: &[WaitingOffer],
    ) -> Result<(), AllocError>
        requires { IsLanePassOf self.now.lane lane.old }
        ensures here { IsLanePassOf self.now.lane lane.new }
        ensures put { IfOk result (λ _. AllJoin lane.old lane.new entries.now) }
        ensures more { PutsOn lane.old lane.new }
    {
        for entry in entries {
            self.put(rt, lane, *entry)?;
        }
        Ok(())
    }

    /// Whether so many entries stand in the lane that it is to be swept.
    fn is_long<R: Wait>(&self, rt: &R, lane: &mut LanePass) -> bool
        requires { IsLanePassOf self.now.lane lane.old }
        ensures { IsLanePassOf self.now.lane lane.new × IsSame lane.old lane.new }
    {
        !self.lane.is_empty(lane)
            && self.lane.len(rt, lane) >= self.counts.most.load(Ordering::SeqCst)
    }

    /// After a sweep that left so many: the lane is swept again when it is twice as long, and some.
    fn note_left(&self, left: usize) {
        let most = left.saturating_mul(2).saturating_add(FEW);
        self.counts.most.store(most, Ordering::SeqCst);
    }
}

/// So many rooms, all empty, with so many passes of them.
pub(crate) fn open_rooms(
    alloc: Global,
    count: usize,
    passes: u8,
) -> Result<(Vec<Room>, Vec<RoomsPass>), AllocError>
    ensures { IfOk result (λ r. (length r.0.items ≡ count) × (length r.1.items ≡ passes) × EachServes r.0.items r.1.items) }
{
    let mut rooms = Vec::with_capacity(alloc, count)?;
    let mut all = Vec::with_capacity(alloc, usize::from(passes))?;
    for _ in 0..passes {
        all.push(RoomsPass {
            passes: Vec::with_capacity(alloc, count)?,
            in_hand: Queue::new(alloc),
        })?;
    }
    for _ in 0..count {
        let (lane, lane_passes) = Lane::new(alloc, passes)?;
        add_room(&mut rooms, &mut all, Room::new(lane), lane_passes)?;
    }
    Ok((rooms, all))
}

/// The room joins the others, and each caller gets one of its passes.
fn add_room(
    rooms: &mut Vec<Room>,
    all: &mut Vec<RoomsPass>,
    room: Room,
    lane_passes: Vec<LanePass>,
) -> Result<(), AllocError>
    requires each { EachServes rooms.old.items all.old.items }
    requires new { (length lane_passes.items ≡ length all.old.items) × All (IsLanePassOf room.lane) lane_passes.items }
    ensures each { IfOk result (λ _. (length all.new.items ≡ length all.old.items) × EachServes rooms.new.items all.new.items) }
    ensures more { IfOk result (λ _. rooms.new.items ≡ rooms.old.items ++ room ∷ []) }
{
    let mut lane_passes = lane_passes;
    for at in 0..all.len() {
        let Some(lane) = lane_passes.pop() else {
            unreachable!()
        };
        all[at].passes.push(lane)?;
    }
    rooms.push(room)?;
    Ok(())
}

/// What one goes through the rooms with: the runtime, the table, and all rooms.
#[derive(Drop)]
pub(crate) struct Rooms<'a, R, M: Resident> {
    pub(crate) rt: &'a R,
    pub(crate) cells: &'a Cells<M>,
    pub(crate) rooms: &'a [Room],
}

impl<R: Wait, M: Resident> Rooms<'_, R, M> {
    /// Puts the entry into the room of this number.
    pub(crate) fn put_into(
        &self,
        pass: &mut Pass<M>,
        lanes: &mut RoomsPass,
        at: usize,
        entry: WaitingOffer,
    ) -> Result<(), AllocError>
        requires cells { IsPassOf self.now.cells.now pass.old }
        requires lanes { Serves self.now.rooms.now lanes.old.passes.items × (at < length self.now.rooms.now) }
        ensures here { IsPassOf self.now.cells.now pass.new }
        ensures grows { Grows pass.old.seen pass.new.seen }
        ensures looks { OnlyLooks pass.old pass.new }
        ensures lanes { Serves self.now.rooms.now lanes.new.passes.items }
        ensures more { EachPutsOn lanes.old.passes.items lanes.new.passes.items }
        ensures put { IfOk result (λ _. PutAt at entry lanes.old.passes.items lanes.new.passes.items) }
    {
        self.sweep_if_long(pass, lanes, at)?;
        put_one(self.rt, self.rooms, lanes, at, entry)
    }

    /// Removes the entries of committed rows from the room's lane, where that has grown long.
    fn sweep_if_long(
        &self,
        pass: &mut Pass<M>,
        lanes: &mut RoomsPass,
        at: usize,
    ) -> Result<(), AllocError>
        requires cells { IsPassOf self.now.cells.now pass.old }
        requires lanes { Serves self.now.rooms.now lanes.old.passes.items × (at < length self.now.rooms.now) }
        ensures here { IsPassOf self.now.cells.now pass.new }
        ensures grows { Grows pass.old.seen pass.new.seen }
        ensures looks { OnlyLooks pass.old pass.new }
        ensures lanes { Serves self.now.rooms.now lanes.new.passes.items }
        ensures more { EachPutsOn lanes.old.passes.items lanes.new.passes.items }
    {
        if !is_long(self.rt, self.rooms, lanes, at) {
            return Ok(());
        }
        self.sweep(pass, lanes, at)
    }

    /// Removes the entries of committed rows from the room's lane. The others stay in their order.
    fn sweep(&self, pass: &mut Pass<M>, lanes: &mut RoomsPass, at: usize) -> Result<(), AllocError>
        requires cells { IsPassOf self.now.cells.now pass.old }
        requires lanes { Serves self.now.rooms.now lanes.old.passes.items × (at < length self.now.rooms.now) }
        ensures here { IsPassOf self.now.cells.now pass.new }
        ensures grows { Grows pass.old.seen pass.new.seen }
        ensures looks { OnlyLooks pass.old pass.new }
        ensures lanes { Serves self.now.rooms.now lanes.new.passes.items }
        ensures more { EachPutsOn lanes.old.passes.items lanes.new.passes.items }
    {
        self.rooms[at].take_up();
        let taken = take_all(self.rt, self.rooms, lanes, at);
        lanes.in_hand.tidy(self.cells, pass);
        self.rooms[at].note_left(lanes.in_hand.entries().len());
        let put = self.put_back(pass, lanes, at);
        self.rooms[at].give_back();
        taken?;
        put
    }

    /// Puts the entries in hand whose rows are not committed back into the room's lane, in their order. Without memory those
    /// that are left are lost.
    pub(crate) fn put_back(
        &self,
        pass: &mut Pass<M>,
        lanes: &mut RoomsPass,
        at: usize,
    ) -> Result<(), AllocError>
        requires cells { IsPassOf self.now.cells.now pass.old }
        requires lanes { Serves self.now.rooms.now lanes.old.passes.items × (at < length self.now.rooms.now) }
        ensures here { IsPassOf self.now.cells.now pass.new }
        ensures grows { Grows pass.old.seen pass.new.seen }
        ensures looks { OnlyLooks pass.old pass.new }
        ensures lanes { Serves self.now.rooms.now lanes.new.passes.items }
        ensures more { EachPutsOn lanes.old.passes.items lanes.new.passes.items }
        ensures put { IfOk result (λ _. PutsBack self.now.cells.now pass.old.seen pass.new.seen at lanes.old lanes.new) }
    {
        lanes.in_hand.tidy(self.cells, pass);
        let put = self.rooms[at].put_all(self.rt, &mut lanes.passes[at], lanes.in_hand.entries());
        lanes.in_hand.clear();
        put
    }

    /// Puts the entries in hand back, if there are any: mostly the first that was taken is met. Without memory those that are
    /// left are lost.
    #[inline(always)]
    pub(crate) fn put_any_back(&self, pass: &mut Pass<M>, lanes: &mut RoomsPass, at: usize)
        requires cells { IsPassOf self.now.cells.now pass.old }
        requires lanes { Serves self.now.rooms.now lanes.old.passes.items × (at < length self.now.rooms.now) }
        ensures here { IsPassOf self.now.cells.now pass.new }
        ensures grows { Grows pass.old.seen pass.new.seen }
        ensures looks { OnlyLooks pass.old pass.new }
        ensures lanes { Serves self.now.rooms.now lanes.new.passes.items }
        ensures more { EachPutsOn lanes.old.passes.items lanes.new.passes.items }
    {
        if lanes.in_hand.entries().is_empty() {
            return;
        }
        let _ = self.put_back(pass, lanes, at);
    }
}

/// Whether the room's lane is to be swept.
fn is_long<R: Wait>(rt: &R, rooms: &[Room], lanes: &mut RoomsPass, at: usize) -> bool
    requires { Serves rooms.now lanes.old.passes.items × (at < length rooms.now) }
    ensures lanes { Serves rooms.now lanes.new.passes.items }
    ensures more { EachPutsOn lanes.old.passes.items lanes.new.passes.items }
{
    rooms[at].is_long(rt, &mut lanes.passes[at])
}

/// Puts the entry at the back of the room's lane.
fn put_one<R: Wait>(
    rt: &R,
    rooms: &[Room],
    lanes: &mut RoomsPass,
    at: usize,
    entry: WaitingOffer,
) -> Result<(), AllocError>
    requires { Serves rooms.now lanes.old.passes.items × (at < length rooms.now) }
    ensures lanes { Serves rooms.now lanes.new.passes.items }
    ensures more { EachPutsOn lanes.old.passes.items lanes.new.passes.items }
    ensures put { IfOk result (λ _. PutAt at entry lanes.old.passes.items lanes.new.passes.items) }
{
    rooms[at].put(rt, &mut lanes.passes[at], entry)
}

/// Takes all entries of the room's lane in hand.
fn take_all<R: Wait>(
    rt: &R,
    rooms: &[Room],
    lanes: &mut RoomsPass,
    at: usize,
) -> Result<(), AllocError>
    requires { Serves rooms.now lanes.old.passes.items × (at < length rooms.now) }
    ensures lanes { Serves rooms.now lanes.new.passes.items }
    ensures more { EachPutsOn lanes.old.passes.items lanes.new.passes.items }
{
    for _ in rt.forever() {
        let Some((row, n)) = take_from(rt, rooms, lanes, at) else {
            return Ok(());
        };
        lanes.in_hand.add(row, n)?;
    }
    unreachable!()
}

/// Takes the entry at the front of the room's lane.
pub(crate) fn take_from<R: Wait>(
    rt: &R,
    rooms: &[Room],
    lanes: &mut RoomsPass,
    at: usize,
) -> Option<WaitingOffer>
    requires { Serves rooms.now lanes.old.passes.items × (at < length rooms.now) }
    ensures lanes { Serves rooms.now lanes.new.passes.items }
    ensures more { EachPutsOn lanes.old.passes.items lanes.new.passes.items }
{
    let room = &rooms[at];
    room.lane.take_front(rt, &mut lanes.passes[at])
}

/// Whether nothing stands in the room's lane.
pub(crate) fn is_empty(rooms: &[Room], lanes: &mut RoomsPass, at: usize) -> bool
    requires { Serves rooms.now lanes.old.passes.items × (at < length rooms.now) }
    ensures lanes { Serves rooms.now lanes.new.passes.items }
    ensures more { EachPutsOn lanes.old.passes.items lanes.new.passes.items }
{
    let room = &rooms[at];
    room.lane.is_empty(&mut lanes.passes[at])
}

/// Whether nothing stood in the room's lane at a moment, nor was in anybody's hand then.
pub(crate) fn is_still(rooms: &[Room], lanes: &mut RoomsPass, at: usize) -> bool
    requires { Serves rooms.now lanes.old.passes.items × (at < length rooms.now) }
    ensures lanes { Serves rooms.now lanes.new.passes.items }
    ensures more { EachPutsOn lanes.old.passes.items lanes.new.passes.items }
{
    rooms[at].is_still(&mut lanes.passes[at])
}
