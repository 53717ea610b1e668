//! The waking of rows that wait for a nack or for a thread's end.

ghost use Rattle.std.specs.Prelude.{◌≡◌, ◌≢◌, ◌<◌, ◌∷◌, All, IfErr, IfOk, IfSome, IsTrue, List, MatchBool, length};
ghost use Rattle.std.specs.List.{AllPairs};
ghost use Rattle.protocol_values.specs.declared.Row.{Row};
ghost use Rattle.protocol_values.specs.declared.Step.TheVariants.{Grant as GrantRow};
ghost use Rattle.protocol_values.specs.declared.Base.TheVariants.{OnEnd, OnNack};
ghost use Rattle.cell.specs.Calls.{IsPassOf, IsRowOf, KeepsResults, PassOf};
ghost use Rattle.meet_scan.specs.Searches.{Grows};
ghost use Rattle.meet_scan.specs.Steps.{OnlyLooks};
ghost use Rattle.meet.specs.Rooms.{IsMeetPassOf, Serves};
ghost use Rattle.meet.specs.Wakings.{GrantsEach, IsBaseOf, IsWoken, Wakes};

use crate::meet::{Meet, MeetPass};
use crate::rooms::{Rooms, RoomsPass, is_still, take_from};
use cell::{Cells, Grant, Pass, StepGate};
use meet_scan::saw_committed;
use protocol_ledger::Resident;
use protocol_values::{Base, NackName, Row};
use std::alloc::{AllocError, Global};
use std::sync::Wait;
use std::thread;

impl Meet {
    /// Grants the rows that wait for an enabled nack, and names them. A row that is claimed is tried
    /// again. A grant is a single step and no attempt, so the gate is never called.
    ///
    /// No clause says that each row that waits is granted, nor that the call returns: it looks again at the
    /// lane while others have entries of it in hand. After want of memory rows may be granted that nobody
    /// names.
    pub fn wake<R: Wait, G: StepGate, M: Resident>(
        &self,
        rt: &R,
        alloc: Global,
        cells: &Cells<M>,
        pass: &mut Pass<M>,
        lanes: &mut MeetPass,
        _gate: &G,
        nack: NackName,
    ) -> Result<Vec<Row>, AllocError>
        requires here { IsPassOf cells.now pass.old }
        requires lanes { IsMeetPassOf self.now lanes.old }
        ensures here { IsPassOf cells.now pass.new }
        ensures grows { Grows pass.old.seen pass.new.seen }
        ensures woken { IfOk result (λ rows. All (IsWoken pass.old.seen pass.new.seen (OnNack nack)) rows.items) }
        ensures once { IfOk result (λ rows. AllPairs (λ a b. a ≢ b) rows.items) }
        ensures made { IfOk result (λ rows. GrantsEach rows.items pass.old.made pass.new.made) }
        ensures failed { IfErr result (λ _. (rows : List Row) × Wakes (OnNack nack) pass.old pass.new rows) }
        ensures results { KeepsResults pass.old pass.new }
        ensures lanes { IsMeetPassOf self.now lanes.new }
        ensures same { lanes.new.scan ≡ lanes.old.scan }
    {
        let at = self.nack_room(nack);
        let rooms = Rooms {
            rt,
            cells,
            rooms: &self.rooms,
        };
        rooms.wake_room(alloc, pass, &mut lanes.rooms, at, Base::OnNack(nack))
    }

    /// Grants the rows that wait for the end of a thread, where the thread has ended, and names them. As `wake`.
    pub fn wake_end<R: Wait, G: StepGate, M: Resident>(
        &self,
        rt: &R,
        alloc: Global,
        cells: &Cells<M>,
        pass: &mut Pass<M>,
        lanes: &mut MeetPass,
        _gate: &G,
        thread: u8,
    ) -> Result<Vec<Row>, AllocError>
        requires here { IsPassOf cells.now pass.old }
        requires lanes { IsMeetPassOf self.now lanes.old }
        ensures here { IsPassOf cells.now pass.new }
        ensures grows { Grows pass.old.seen pass.new.seen }
        ensures woken { IfOk result (λ rows. All (IsWoken pass.old.seen pass.new.seen (OnEnd thread)) rows.items) }
        ensures once { IfOk result (λ rows. AllPairs (λ a b. a ≢ b) rows.items) }
        ensures made { IfOk result (λ rows. GrantsEach rows.items pass.old.made pass.new.made) }
        ensures failed { IfErr result (λ _. (rows : List Row) × Wakes (OnEnd thread) pass.old pass.new rows) }
        ensures results { KeepsResults pass.old pass.new }
        ensures lanes { IsMeetPassOf self.now lanes.new }
        ensures same { lanes.new.scan ≡ lanes.old.scan }
    {
        let at = self.end_room(thread);
        let rooms = Rooms {
            rt,
            cells,
            rooms: &self.rooms,
        };
        rooms.wake_room(alloc, pass, &mut lanes.rooms, at, Base::OnEnd(thread))
    }
}

impl<R: Wait, M: Resident> Rooms<'_, R, M> {
    /// Grants the rows of the room that wait by this base event, where it lets them be committed alone.
    fn wake_room(
        &self,
        alloc: Global,
        pass: &mut Pass<M>,
        lanes: &mut RoomsPass,
        at: Option<usize>,
        base: Base,
    ) -> Result<Vec<Row>, AllocError>
        requires here { IsPassOf self.now.cells.now pass.old }
        requires lanes { Serves self.now.rooms.now lanes.old.passes.items × IfSome at (λ n. n < length self.now.rooms.now) }
        ensures here { IsPassOf self.now.cells.now pass.new }
        ensures grows { Grows pass.old.seen pass.new.seen }
        ensures woken { IfOk result (λ rows. All (IsWoken pass.old.seen pass.new.seen base) rows.items) }
        ensures once { IfOk result (λ rows. AllPairs (λ a b. a ≢ b) rows.items) }
        ensures made { IfOk result (λ rows. GrantsEach rows.items pass.old.made pass.new.made) }
        ensures failed { IfErr result (λ _. (rows : List Row) × Wakes base pass.old pass.new rows) }
        ensures results { KeepsResults pass.old pass.new }
        ensures lanes { Serves self.now.rooms.now lanes.new.passes.items }
    {
        let mut woken = Vec::new(alloc);
        let Some(at) = at else {
            return Ok(woken);
        };
        let room = &self.rooms[at];
        for _ in self.rt.forever() {
            if is_still(self.rooms, lanes, at) {
                return Ok(woken);
            }
            let returns = room.returns();
            room.take_up();
            let each = self.wake_each(pass, lanes, at, base, &mut woken);
            let shared = room.was_shared(returns, 1);
            let put = self.put_back(pass, lanes, at);
            room.give_back();
            put?;
            each?;
            if !shared {
                return Ok(woken);
            }
            thread::yield_now();
        }
        unreachable!()
    }

    /// Takes the entries of the room's lane one after another, and grants those that wait by this base
    /// event, which join the list. The others are in hand then.
    fn wake_each(
        &self,
        pass: &mut Pass<M>,
        lanes: &mut RoomsPass,
        at: usize,
        base: Base,
        woken: &mut Vec<Row>,
    ) -> Result<(), AllocError>
        requires here { IsPassOf self.now.cells.now pass.old }
        requires lanes { Serves self.now.rooms.now lanes.old.passes.items × (at < length self.now.rooms.now) }
        ensures here { IsPassOf self.now.cells.now pass.new }
        ensures grows { Grows pass.old.seen pass.new.seen }
        ensures woken { IfOk result (λ _. (from : PassOf M) → Grows from.seen pass.old.seen → Wakes base from pass.old woken.old.items → Wakes base from pass.new woken.new.items) }
        ensures failed { IfErr result (λ _. (from : PassOf M) → Grows from.seen pass.old.seen → Wakes base from pass.old woken.old.items → (rows : List Row) × Wakes base from pass.new rows) }
        ensures results { KeepsResults pass.old pass.new }
        ensures lanes { Serves self.now.rooms.now lanes.new.passes.items }
    {
        for _ in self.rt.forever() {
            let Some(other) = take_from(self.rt, self.rooms, lanes, at) else {
                return Ok(());
            };
            if wake_entry(self.rt, self.cells, pass, base, other) {
                woken.push(other.0)?;
            } else {
                lanes.in_hand.add(other.0, other.1)?;
            }
        }
        unreachable!()
    }
}

/// Grants the entry's row, where it waits by this base event. Where it is claimed, it is tried again.
/// Whether this call granted it.
fn wake_entry<R: Wait, M: Resident>(
    rt: &R,
    cells: &Cells<M>,
    pass: &mut Pass<M>,
    base: Base,
    entry: (Row, u8),
) -> bool
    requires here { IsPassOf cells.now pass.old }
    ensures here { IsPassOf cells.now pass.new }
    ensures grows { Grows pass.old.seen pass.new.seen }
    ensures woken { IsTrue result → IsWoken pass.old.seen pass.new.seen base entry.0 }
    ensures made { MatchBool result (pass.new.made ≡ GrantRow entry.0 entry.1 ∷ pass.old.made) (pass.new.made ≡ pass.old.made) }
    ensures results { KeepsResults pass.old pass.new }
{
    let (row, n) = entry;
    if !cells.has(row) || !waits_for(cells, pass, row, n, base) {
        return false;
    }
    for _ in rt.forever() {
        match cells.grant(pass, row, n) {
            Grant::Given => return true,
            Grant::NotEnabled => return false,
            Grant::Late => {
                if saw_committed(cells, pass, row) {
                    return false;
                }
                thread::yield_now();
            }
        }
    }
    unreachable!()
}

/// Whether offer n of the row is this base event.
fn waits_for<M: Resident>(cells: &Cells<M>, pass: &mut Pass<M>, row: Row, n: u8, base: Base) -> bool
    requires here { IsPassOf cells.now pass.old × IsRowOf cells.now row }
    ensures here { IsPassOf cells.now pass.new }
    ensures grows { Grows pass.old.seen pass.new.seen }
    ensures looks { OnlyLooks pass.old pass.new }
    ensures waits { IsTrue result → IsBaseOf pass.new.seen row n base }
{
    match cells.offer(pass, row, n) {
        Some(offer) => offer.base == base,
        None => false,
    }
}
