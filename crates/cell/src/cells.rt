//! The shared table and its passes, as callers use them. A pass is at rest between two calls, which its invariant
//! says; within a call its seat may stand between a claim and a seal, so what a call does is written over the board
//! and the seat, in the modules beside this one, and told here again of the pass.
//!
//! Invariants:
//! - A pass that is in no call rests: it has claimed no row.
//! - `rows` of a pass are the places at which it stands: the rows that it holds, and those behind last rows.
//! - `spare` has as many words as the table, and `places` of a pass one place for each slot: the end asks for no memory.

ghost use Rattle.std.specs.Prelude.{◌≡◌, ◌≢◌, ◌⊎◌, ◌+◌, ◌<◌, ◌≤◌, ◌∷◌, ◌++◌, [], ℕ, List, None, Some, false, true, IfOk, IfSome, IfNone, SomeIff, IsTrue, ◌↔◌, length, map, slice_get, IsFalse};
ghost use Rattle.protocol_values.specs.declared.Direction.{Direction};
ghost use Rattle.protocol_values.specs.declared.Joined.{Joined};
ghost use Rattle.protocol_values.specs.declared.Message.{Message};
ghost use Rattle.protocol_values.specs.declared.Offer.{Offer};
ghost use Rattle.protocol_values.specs.declared.Row.{Row};
ghost use Rattle.protocol_values.specs.declared.Cell.TheVariants.{Claimed};
ghost use Rattle.protocol_values.specs.declared.Course.TheVariants.{Unstarted};
ghost use Rattle.protocol_values.specs.declared.Step.TheVariants.{Finish, Open, Take};
ghost use Rattle.protocol_values.specs.declared.Step.{Step};
ghost use Rattle.protocol_values.specs.declared.NackName.{NackName};
ghost use Rattle.protocol_values.specs.declared.Binding.{Binding};
ghost use Rattle.protocol_ledger.specs.Ledgers.{IsLawful, binding_in, carried_in, course_in, joined_in, offer_in};
ghost use Rattle.protocol_ledger.specs.Openings.{HadEnded, HadStarted, IsOpening, greatest, opening_of, start_opening, state_in, word_for};
ghost use Rattle.protocol_ledger.specs.Tables.{carried_by};
ghost use Rattle.protocol_ledger.specs.Standing.{AreResults, Result};
ghost use Rattle.protocol_ledger.specs.Worlds.{nack_of_row};
ghost use Rattle.cell.specs.Attempts.{
  Attempted,
  Bound,
  BoundBefore,
  Finished,
  Fits,
  Granted,
  Hands,
  IsLifeNear,
  IsLifeOf,
  IsNackOf as IsNackOfOffer,
  IsNear,
  IsNearGrant,
  OffersFit,
  OnlyDrafts,
  ResultsTold,
  Started,
  Took,
  attempt_made,
  bind_made,
  grant_made,
  start_made,
  take_made,
};
ghost use Rattle.protocol_ledger.specs.Short.{Fits as IsLayoutFor, HasWords, even, rows_of};
ghost use Rattle.cell.specs.Calls.{AllHaveWords, CanFetch, Fetched, HasSteps, Holds, HoldNothing, HoldsAt, IsFollowing, IsHousing, IsNackOf, IsParked, IsPassOf, IsRowOf, IsStandOf, KeepsResults, PassOf, PassView, opening_at};
ghost use Rattle.cell_table.specs.Closings.{HandsOut, HandsOutWaiting, IsHandedOut};
ghost use Rattle.cell_table.specs.Told.{GoesHome};
ghost use Rattle.cell_table.specs.Rule.{AreMachines, IsFinishing, IsReady, IsStarting, dealt_from, dealt_rows, falls_to, heard, seen_nothing, told_of};
ghost use Rattle.atomic_table.specs.Table.{rest, turned};
ghost use Rattle.cell_table.specs.Nacks.{IsSeenBound};
ghost use Rattle.cell.specs.Flags.{AreFlags};
ghost use Rattle.cell_table.specs.Sight.{
  AreOffers,
  Has,
  HaveDirection,
  HaveOffer,
  IsDraft,
  IsExpected,
  IsExpectedCourse,
  IsKnownOpen,
  IsPartnerOf,
  IsResult,
  IsStand,
  LackOffer,
  Learns,
  LearnsOf,
  Redrafts,
  SawCommitted,
  SawEnded,
  SeesDirection,
  SeesNoOffer,
  SeesOffer,
  see_cell,
  see_course,
  see_opened,
};
ghost use Rattle.protocol_ledger.specs.Acting.{ActsAs, EndsAt, HasStart, acts_in, before_of};

use crate::attempt::{Attempt, StepGate, attempt_rows};
use crate::drafting::draft_offers;
use crate::granting::{Grant, grant_row};
use crate::lives::{finish_at, start_from};
use crate::rows::RowSet;
use crate::taking::take_row;
use crate::{nacks, reading};
use atomic_table::Seat;
use cell_table::{Board, Shape, View};
use protocol_ledger::{Bare, Layout, Ledger, Life, OFFERS, Opening, Resident, next_words};
use protocol_values::{Cell, Course, Direction, Joined, Message, NackName, NackWord, Offer, Row};
use std::alloc::{AllocError, Global};
use std::marker::Model;
use std::snapshot::Snapshot;

/// The shared table: threads may share it, and none of its calls waits.
#[derive(Drop)]
pub struct Cells<M: Resident> {
    board: Board<M>,
    /// Room for the table's words, so that the end needs no memory.
    spare: Vec<u64>,
}

impl<M: Resident> Model for Cells<M> {
    ghost use Rattle.std.specs.Prelude.{◌≡◌, ◌<◌, ◌≤◌, true, false, length};
    ghost use Rattle.cell.specs.Calls.{AllHaveWords, GridOf};

    ghost Value = { GridOf M };

    ghost view = { λ c. record { id = c.board.words.shared.table_id; threads = c.board.shape.threads; rows = c.board.shape.rows; layout = c.board.shape.layout; passes = c.board.shape.passes; lives = c.board.shape.opening.value.threads.items; nacks = c.board.shape.opening.value.nacks.items; first = c.board.shape.first.value.items } };

    ghost invariant = { λ c. (length c.spare.items ≡ c.board.words.shared.table_id.words) × (0 < length c.board.shape.first.value.items → M.houses ≡ true) × (1 ≤ c.board.shape.rows) × (c.board.shape.threads ≤ 64) × (M.short ≡ false → AllHaveWords c.board.shape.layout c.board.shape.threads c.board.shape.rows) };
}

/// What a thread calls the table with. It holds rows, and its value is what it has seen.
#[derive(Drop)]
pub struct Pass<M> {
    seat: Seat<Option<M>, View<M>>,
    rows: RowSet,
    /// Room for what the slots hold at the end.
    places: Vec<Option<M>>,
}

impl<M> Model for Pass<M> {
    ghost use Rattle.std.specs.Prelude.{◌≡◌, ◌+◌};
    ghost use Rattle.cell_table.specs.declared.view.Stage.TheVariants.{Resting};
    ghost use Rattle.std.specs.Prelude.{length};
    ghost use Rattle.cell.specs.Calls.{HoldNothing, PassOf};
    ghost use Rattle.cell.specs.Flags.{AreFlags, places_of};

    ghost Value = { PassOf M };

    ghost view = { λ p. record { of = record { id = p.seat.table_id; threads = p.seat.me.0.threads; rows = p.seat.me.0.rows; layout = p.seat.me.0.layout; passes = p.seat.me.0.passes; lives = p.seat.me.0.lives; nacks = p.seat.me.0.nacks; first = p.seat.me.0.first }; seen = p.seat.me.0.seen; made = p.seat.me.0.made; results = p.seat.me.0.results; out = p.seat.me.1 } };

    ghost invariant = { λ p. (p.seat.me.0.stage ≡ Resting) × (p.seat.me.0.threads ≡ p.rows.threads) × (p.seat.me.0.rows + 1 ≡ p.rows.rows) × AreFlags p.rows.threads p.rows.rows p.rows.flags.items (places_of p.seat.me.0.rows p.seat.me.0.seen) × (length p.places.items ≡ length p.seat.me.0.first) × HoldNothing p.places.items };
}

/// A pass to which others leave the table at its end. It makes no more steps.
#[derive(Drop)]
pub(crate) struct Gatherer<M> {
    seat: Seat<Option<M>, View<M>>,
    /// Room for what the slots hold at the end.
    places: Vec<Option<M>>,
}

impl<M> Model for Gatherer<M> {
    ghost use Rattle.std.specs.Prelude.{◌≡◌, length};
    ghost use Rattle.cell_table.specs.declared.view.Stage.TheVariants.{Resting};
    ghost use Rattle.cell.specs.Calls.{GathererOf, HoldNothing};

    ghost Value = { GathererOf M };

    ghost view = { λ p. record { pass = record { of = record { id = p.seat.table_id; threads = p.seat.me.0.threads; rows = p.seat.me.0.rows; layout = p.seat.me.0.layout; passes = p.seat.me.0.passes; lives = p.seat.me.0.lives; nacks = p.seat.me.0.nacks; first = p.seat.me.0.first }; seen = p.seat.me.0.seen; made = p.seat.me.0.made; results = p.seat.me.0.results; out = p.seat.me.1 }; gathered = p.seat.me.0.gathered } };

    ghost invariant = { λ p. (p.seat.me.0.stage ≡ Resting) × (length p.places.items ≡ length p.seat.me.0.first) × HoldNothing p.places.items };
}

impl<M> Pass<M> {
    /// The pass, to which others may leave the table from now on.
    pub(crate) fn into_gatherer(self) -> Gatherer<M>
        ensures { result.pass ≡ self }
    {
        let Pass { seat, places, .. } = self;
        Gatherer { seat, places }
    }

    /// Whether the pass holds the row, or, where the row's number is that of the table's rows, stands behind the last row
    /// of the thread.
    pub fn holds(&self, row: Row) -> bool
        ensures { IsTrue result ↔ HoldsAt self.now row }
    {
        self.rows.contains(row)
    }

    /// Of the slots that are out with the pass, the one that came out last goes behind the others, so that `fetch`
    /// and `park` reach the next one. It does nothing when it runs.
    pub fn turn_slots(&mut self)
        ensures out { self.new.out ≡ turned self.old.out }
        ensures same { (self.new.of ≡ self.old.of) × (self.new.seen ≡ self.old.seen) × (self.new.made ≡ self.old.made) × (self.new.results ≡ self.old.results) }
    {
        self.seat.turn();
    }
}

impl Cells<Bare> {
    /// A table over no machines, for 1 to 64 threads of 1 to 1024 rows, and 1 to 16 passes. Row 0 of thread t is held
    /// by pass `t mod passes`. All memory that the calls need is taken here.
    pub fn new(
        alloc: Global,
        threads: u8,
        rows: u16,
        passes: u8,
    ) -> Result<(Cells<Bare>, Vec<Pass<Bare>>), AllocError>
        requires threads { (1 ≤ threads) × (threads ≤ 64) }
        requires rows { (1 ≤ rows) × (rows ≤ 1024) }
        requires passes { (1 ≤ passes) × (passes ≤ 16) }
        ensures size { IfOk result (λ t. (t.0.threads ≡ threads) × (t.0.rows ≡ rows) × (t.0.passes ≡ passes) × (length t.1.items ≡ passes)) }
        ensures room { IfOk result (λ t. t.0.layout.offers ≡ 8) }
        ensures first { IfOk result (λ t. t.0.first ≡ []) }
        ensures opening { IfOk result (λ t. opening_at t.0 ≡ start_opening threads 0) }
        ensures passes { IfOk result (λ t. (number : ℕ) (pass : PassView) → slice_get t.1.items number ≡ Some pass → IsPassOf t.0 pass × (pass.seen ≡ seen_nothing (dealt_rows threads passes number)) × (pass.made ≡ [])) }
        ensures results { IfOk result (λ t. (number : ℕ) (pass : PassView) → slice_get t.1.items number ≡ Some pass → (pass.results ≡ []) × (pass.out ≡ [])) }
    {
        Cells::new_later(alloc, threads, rows, passes, 0)
    }

    /// A table over no machines in which a thread whose bit is set in the mask `later` waits to be started, and no pass
    /// holds its row 0. All else is as by `new`. Bits of threads that the table has not change nothing.
    pub fn new_later(
        alloc: Global,
        threads: u8,
        rows: u16,
        passes: u8,
        later: u64,
    ) -> Result<(Cells<Bare>, Vec<Pass<Bare>>), AllocError>
        requires threads { (1 ≤ threads) × (threads ≤ 64) }
        requires rows { (1 ≤ rows) × (rows ≤ 1024) }
        requires passes { (1 ≤ passes) × (passes ≤ 16) }
        ensures size { IfOk result (λ t. (t.0.threads ≡ threads) × (t.0.rows ≡ rows) × (t.0.passes ≡ passes) × (length t.1.items ≡ passes)) }
        ensures room { IfOk result (λ t. t.0.layout.offers ≡ 8) }
        ensures first { IfOk result (λ t. t.0.first ≡ []) }
        ensures opening { IfOk result (λ t. opening_at t.0 ≡ start_opening threads later) }
        ensures passes { IfOk result (λ t. (number : ℕ) (pass : PassView) → slice_get t.1.items number ≡ Some pass → IsPassOf t.0 pass × (pass.seen ≡ seen_nothing (dealt_from (start_opening threads later) threads passes number)) × (pass.made ≡ [])) }
        ensures results { IfOk result (λ t. (number : ℕ) (pass : PassView) → slice_get t.1.items number ≡ Some pass → (pass.results ≡ []) × (pass.out ≡ [])) }
    {
        Cells::new_short(alloc, threads, rows, OFFERS as u8, passes, later)
    }

    /// A table over no machines whose rows have room for `offers` offers, 0 to 8, and in which the threads of the mask
    /// `later` wait to be started: a row takes 2 words, and 4 for each offer, where those of the other tables take 34.
    pub fn new_short(
        alloc: Global,
        threads: u8,
        rows: u16,
        offers: u8,
        passes: u8,
        later: u64,
    ) -> Result<(Cells<Bare>, Vec<Pass<Bare>>), AllocError>
        requires threads { (1 ≤ threads) × (threads ≤ 64) }
        requires rows { (1 ≤ rows) × (rows ≤ 1024) }
        requires offers { offers ≤ 8 }
        requires passes { (1 ≤ passes) × (passes ≤ 16) }
        ensures size { IfOk result (λ t. (t.0.threads ≡ threads) × (t.0.rows ≡ rows) × (t.0.passes ≡ passes) × (length t.1.items ≡ passes)) }
        ensures layout { IfOk result (λ t. t.0.layout ≡ even offers rows) }
        ensures room { IfOk result (λ t. t.0.layout.offers ≡ offers) }
        ensures first { IfOk result (λ t. t.0.first ≡ []) }
        ensures opening { IfOk result (λ t. opening_at t.0 ≡ start_opening threads later) }
        ensures passes { IfOk result (λ t. (number : ℕ) (pass : PassView) → slice_get t.1.items number ≡ Some pass → IsPassOf t.0 pass × (pass.seen ≡ seen_nothing (dealt_from (start_opening threads later) threads passes number)) × (pass.made ≡ [])) }
        ensures results { IfOk result (λ t. (number : ℕ) (pass : PassView) → slice_get t.1.items number ≡ Some pass → (pass.results ≡ []) × (pass.out ≡ [])) }
    {
        let opening = Opening::first(alloc, threads, later)?;
        let layout = Layout::even(usize::from(offers), rows);
        Cells::next_of(alloc, &opening, Vec::new(alloc), rows, layout, passes)
    }
}

impl<M: Resident + Drop> Cells<M> {
    /// A table of machines, one for each of 1 to 64 threads: what stands for it at first. After a want of memory the
    /// machines are gone. All memory that the calls need is taken here.
    pub fn with_machines(
        alloc: Global,
        first: Vec<M>,
        rows: u16,
        passes: u8,
    ) -> Result<(Cells<M>, Vec<Pass<M>>), AllocError>
        requires housed { M.houses ≡ true }
        requires threads { (1 ≤ length first.items) × (length first.items ≤ 64) }
        requires rows { (1 ≤ rows) × (rows ≤ 1024) }
        requires passes { (1 ≤ passes) × (passes ≤ 16) }
        ensures size { IfOk result (λ t. (t.0.threads ≡ length first.items) × (t.0.rows ≡ rows) × (t.0.passes ≡ passes) × (length t.1.items ≡ passes)) }
        ensures room { IfOk result (λ t. t.0.layout.offers ≡ 8) }
        ensures first { IfOk result (λ t. t.0.first ≡ map Some first.items) }
        ensures opening { IfOk result (λ t. opening_at t.0 ≡ start_opening (length first.items) 0) }
        ensures passes { IfOk result (λ t. (number : ℕ) (pass : PassOf M) → slice_get t.1.items number ≡ Some pass → IsPassOf t.0 pass × (pass.seen ≡ seen_nothing (dealt_rows (length first.items) passes number)) × (pass.made ≡ [])) }
        ensures results { IfOk result (λ t. (number : ℕ) (pass : PassOf M) → slice_get t.1.items number ≡ Some pass → (pass.results ≡ []) × (pass.out ≡ [])) }
    {
        Cells::with_machines_later(alloc, first, rows, passes, 0)
    }

    /// A table of machines in which a thread whose bit is set in the mask `later` waits to be started, and no pass
    /// holds its row 0. Until then its machine lies in its slot. Bits of threads that the table has not change nothing.
    pub fn with_machines_later(
        alloc: Global,
        first: Vec<M>,
        rows: u16,
        passes: u8,
        later: u64,
    ) -> Result<(Cells<M>, Vec<Pass<M>>), AllocError>
        requires housed { M.houses ≡ true }
        requires threads { (1 ≤ length first.items) × (length first.items ≤ 64) }
        requires rows { (1 ≤ rows) × (rows ≤ 1024) }
        requires passes { (1 ≤ passes) × (passes ≤ 16) }
        ensures size { IfOk result (λ t. (t.0.threads ≡ length first.items) × (t.0.rows ≡ rows) × (t.0.passes ≡ passes) × (length t.1.items ≡ passes)) }
        ensures room { IfOk result (λ t. t.0.layout.offers ≡ 8) }
        ensures first { IfOk result (λ t. t.0.first ≡ map Some first.items) }
        ensures opening { IfOk result (λ t. opening_at t.0 ≡ start_opening (length first.items) later) }
        ensures passes { IfOk result (λ t. (number : ℕ) (pass : PassOf M) → slice_get t.1.items number ≡ Some pass → IsPassOf t.0 pass × (pass.seen ≡ seen_nothing (dealt_from (start_opening (length first.items) later) (length first.items) passes number)) × (pass.made ≡ [])) }
        ensures results { IfOk result (λ t. (number : ℕ) (pass : PassOf M) → slice_get t.1.items number ≡ Some pass → (pass.results ≡ []) × (pass.out ≡ [])) }
    {
        Cells::with_machines_short(alloc, first, rows, OFFERS as u8, passes, later)
    }

    /// A table of machines whose rows have room for `offers` offers, 0 to 8, and in which the threads of the mask
    /// `later` wait to be started: a row takes 2 words, and 4 for each offer, where those of the other tables take 34.
    pub fn with_machines_short(
        alloc: Global,
        first: Vec<M>,
        rows: u16,
        offers: u8,
        passes: u8,
        later: u64,
    ) -> Result<(Cells<M>, Vec<Pass<M>>), AllocError>
        requires housed { M.houses ≡ true }
        requires threads { (1 ≤ length first.items) × (length first.items ≤ 64) }
        requires rows { (1 ≤ rows) × (rows ≤ 1024) }
        requires offers { offers ≤ 8 }
        requires passes { (1 ≤ passes) × (passes ≤ 16) }
        ensures size { IfOk result (λ t. (t.0.threads ≡ length first.items) × (t.0.rows ≡ rows) × (t.0.passes ≡ passes) × (length t.1.items ≡ passes)) }
        ensures layout { IfOk result (λ t. t.0.layout ≡ even offers rows) }
        ensures room { IfOk result (λ t. t.0.layout.offers ≡ offers) }
        ensures first { IfOk result (λ t. t.0.first ≡ map Some first.items) }
        ensures opening { IfOk result (λ t. opening_at t.0 ≡ start_opening (length first.items) later) }
        ensures passes { IfOk result (λ t. (number : ℕ) (pass : PassOf M) → slice_get t.1.items number ≡ Some pass → IsPassOf t.0 pass × (pass.seen ≡ seen_nothing (dealt_from (start_opening (length first.items) later) (length first.items) passes number)) × (pass.made ≡ [])) }
        ensures results { IfOk result (λ t. (number : ℕ) (pass : PassOf M) → slice_get t.1.items number ≡ Some pass → (pass.results ≡ []) × (pass.out ≡ [])) }
    {
        let layout = Layout::even(usize::from(offers), rows);
        Cells::with_machines_of(alloc, first, rows, layout, passes, later)
    }

    /// The same of a table that is laid out so: each thread has words for one row at least. One that has none for a row is
    /// not to open it.
    pub fn with_machines_of(
        alloc: Global,
        first: Vec<M>,
        rows: u16,
        layout: Layout,
        passes: u8,
        later: u64,
    ) -> Result<(Cells<M>, Vec<Pass<M>>), AllocError>
        requires housed { M.houses ≡ true }
        requires threads { (1 ≤ length first.items) × (length first.items ≤ 64) }
        requires rows { (1 ≤ rows) × (rows ≤ 1024) }
        requires layout { IsLayoutFor layout rows × ((t : ℕ) → t < length first.items → 1 ≤ rows_of layout t) }
        requires whole { M.short ≡ false → AllHaveWords layout (length first.items) rows }
        requires passes { (1 ≤ passes) × (passes ≤ 16) }
        ensures size { IfOk result (λ t. (t.0.threads ≡ length first.items) × (t.0.rows ≡ rows) × (t.0.passes ≡ passes) × (length t.1.items ≡ passes)) }
        ensures layout { IfOk result (λ t. t.0.layout ≡ layout) }
        ensures first { IfOk result (λ t. t.0.first ≡ map Some first.items) }
        ensures opening { IfOk result (λ t. opening_at t.0 ≡ start_opening (length first.items) later) }
        ensures passes { IfOk result (λ t. (number : ℕ) (pass : PassOf M) → slice_get t.1.items number ≡ Some pass → IsPassOf t.0 pass × (pass.seen ≡ seen_nothing (dealt_from (start_opening (length first.items) later) (length first.items) passes number)) × (pass.made ≡ [])) }
        ensures results { IfOk result (λ t. (number : ℕ) (pass : PassOf M) → slice_get t.1.items number ≡ Some pass → (pass.results ≡ []) × (pass.out ≡ [])) }
    {
        let opening = Opening::first(alloc, first.len() as u8, later)?;
        let slots = slots_of(alloc, first)?;
        Cells::next_of(alloc, &opening, slots, rows, layout, passes)
    }

    /// A table that goes on from an opening: row 0 of a thread that runs is held by pass `t mod passes`, that of a thread
    /// that waits or has ended by none, a started thread's start stamp is its last stamp, and each nack that was settled
    /// is carried. In a table of machines there is one for each thread that has not ended: what stands for it at first.
    /// Over no machines the list is empty. After a want of memory the machines are gone. All memory that the calls
    /// need is taken here.
    pub fn next(
        alloc: Global,
        opening: &Opening,
        first: Vec<Option<M>>,
        rows: u16,
        passes: u8,
    ) -> Result<(Cells<M>, Vec<Pass<M>>), AllocError>
        requires housed { 0 < length first.items → M.houses ≡ true }
        requires opening { IsOpening (opening_of opening.now) rows }
        requires machines { AreMachines (opening_of opening.now) first.items }
        requires rows { (1 ≤ rows) × (rows ≤ 1024) }
        requires passes { (1 ≤ passes) × (passes ≤ 16) }
        ensures size { IfOk result (λ t. (t.0.threads ≡ length opening.now.threads.items) × (t.0.rows ≡ rows) × (t.0.passes ≡ passes) × (length t.1.items ≡ passes)) }
        ensures room { IfOk result (λ t. t.0.layout.offers ≡ 8) }
        ensures first { IfOk result (λ t. t.0.first ≡ first.items) }
        ensures opening { IfOk result (λ t. opening_at t.0 ≡ opening_of opening.now) }
        ensures passes { IfOk result (λ t. (number : ℕ) (pass : PassOf M) → slice_get t.1.items number ≡ Some pass → IsPassOf t.0 pass × (pass.seen ≡ seen_nothing (dealt_from (opening_of opening.now) (length opening.now.threads.items) passes number)) × (pass.made ≡ [])) }
        ensures results { IfOk result (λ t. (number : ℕ) (pass : PassOf M) → slice_get t.1.items number ≡ Some pass → (pass.results ≡ []) × (pass.out ≡ [])) }
    {
        let layout = Layout::even(OFFERS, rows);
        Cells::next_of(alloc, opening, first, rows, layout, passes)
    }

    /// Starts the thread from a place of another thread at which the pass stands: a held row that is Fresh, or the place
    /// behind the last row. True where this call started it: at that place's last stamp, and the pass holds the
    /// thread's row 0 from then on. False where it had started before. In a table of machines somebody stands for the
    /// place's thread who starts the other one there, and not before.
    pub fn start(&self, pass: &mut Pass<M>, row: Row, thread: u8) -> bool
        requires here { IsPassOf self.now pass.old × IsStandOf self.now row }
        requires stands { IsStand self.now.rows pass.old.seen row × (¬ SawEnded pass.old.seen row.thread) }
        requires other { (thread < self.now.threads) × (row.thread ≢ thread) }
        requires starting { M.houses ≡ true → IsHousing self.now → IsStarting M.stands self.now.first pass.old.results row thread }
        ensures here { IsPassOf self.now pass.new }
        ensures started { Started pass.old.seen pass.new.seen row thread result }
        ensures made { pass.new.made ≡ start_made row thread result pass.old.made }
        ensures results { KeepsResults pass.old pass.new }
    {
        let Pass { seat, rows, .. } = pass;
        let started = start_from(&self.board, seat, row, thread);
        if started {
            rows.insert(Row { thread, sync: 0 });
        }
        started
    }

    /// Ends the thread of a place at which the pass stands: a held row that is Fresh, or the place behind the
    /// last row. No row of the thread is drafted, bound or opened from then on. In a table of machines somebody stands
    /// for the thread who has ended there.
    pub fn finish(&self, pass: &mut Pass<M>, row: Row)
        requires here { IsPassOf self.now pass.old × IsStandOf self.now row }
        requires stands { IsStand self.now.rows pass.old.seen row × (¬ SawEnded pass.old.seen row.thread) }
        requires finishing { M.houses ≡ true → IsHousing self.now → IsFinishing M.stands self.now.first pass.old.results row }
        ensures here { IsPassOf self.now pass.new }
        ensures finished { Finished pass.old.seen pass.new.seen row }
        ensures made { pass.new.made ≡ Finish row ∷ pass.old.made }
        ensures results { KeepsResults pass.old pass.new }
    {
        finish_at(&self.board, &mut pass.seat, row);
    }

    /// A table that goes on from an opening, as by `next`, and is laid out so: each thread has words for one row at least.
    /// One that has none for a row is not to open it.
    pub fn next_of(
        alloc: Global,
        opening: &Opening,
        first: Vec<Option<M>>,
        rows: u16,
        layout: Layout,
        passes: u8,
    ) -> Result<(Cells<M>, Vec<Pass<M>>), AllocError>
        requires housed { 0 < length first.items → M.houses ≡ true }
        requires opening { IsOpening (opening_of opening.now) rows }
        requires machines { AreMachines (opening_of opening.now) first.items }
        requires rows { (1 ≤ rows) × (rows ≤ 1024) }
        requires layout { IsLayoutFor layout rows × ((t : ℕ) → t < length opening.now.threads.items → 1 ≤ rows_of layout t) }
        requires whole { M.short ≡ false → AllHaveWords layout (length opening.now.threads.items) rows }
        requires passes { (1 ≤ passes) × (passes ≤ 16) }
        ensures size { IfOk result (λ t. (t.0.threads ≡ length opening.now.threads.items) × (t.0.rows ≡ rows) × (t.0.passes ≡ passes) × (length t.1.items ≡ passes)) }
        ensures layout { IfOk result (λ t. t.0.layout ≡ layout) }
        ensures first { IfOk result (λ t. t.0.first ≡ first.items) }
        ensures opening { IfOk result (λ t. opening_at t.0 ≡ opening_of opening.now) }
        ensures passes { IfOk result (λ t. (number : ℕ) (pass : PassOf M) → slice_get t.1.items number ≡ Some pass → IsPassOf t.0 pass × (pass.seen ≡ seen_nothing (dealt_from (opening_of opening.now) (length opening.now.threads.items) passes number)) × (pass.made ≡ [])) }
        ensures results { IfOk result (λ t. (number : ℕ) (pass : PassOf M) → slice_get t.1.items number ≡ Some pass → (pass.results ≡ []) × (pass.out ≡ [])) }
    {
        let shape = Shape {
            threads: opening.threads.len() as u64,
            rows: u64::from(rows),
            layout,
            passes: u64::from(passes),
            opening: Snapshot::of(opening),
            first: Snapshot::of(&first),
        };
        let count = first.len();
        let spare = next_words(alloc, opening, usize::from(rows), layout)?;
        let (board, mut dealer) = Board::start(
            alloc,
            shape,
            opening.greatest(),
            spare.as_slice(),
            first,
        )?;
        let mut dealt = Vec::with_capacity(alloc, usize::from(passes))?;
        for number in 0..passes {
            let seat = board.deal(&mut dealer, u64::from(number));
            let rows = first_rows(alloc, opening, rows, passes, number)?;
            let places = no_places(alloc, count)?;
            dealt.push(Pass { seat, rows, places })?;
        }
        Ok((Cells { board, spare }, dealt))
    }

    /// Ends the table: its ledger has all that the pass has seen or was told. What lies in its slots goes with it.
    pub fn close(self, pass: Pass<M>) -> Ledger
        requires here { IsPassOf self pass }
        ensures size { (result.threads ≡ self.threads) × (result.rows ≡ self.rows) }
        ensures lawful { IsLawful result }
        ensures opening { result.opening ≡ greatest (opening_at self) }
        ensures before { (t stamp : ℕ) → HadStarted (opening_at self) t stamp → HasStart (course_in result t) stamp }
        ensures over { (t : ℕ) → HadEnded (opening_at self) t → EndsAt (course_in result t) 0 }
        ensures carried { (n : NackName) → IsNackOf self n → carried_in result n ≡ carried_by (word_for (state_in (opening_at self) n)) }
        ensures outside { (t : ℕ) → self.threads ≤ t → course_in result t ≡ Unstarted }
        ensures started { (t stamp : ℕ) → Has pass.seen.started (t, stamp) → HasStart (course_in result t) stamp }
        ensures ended { (t g : ℕ) → Has pass.seen.ended (t, g) → EndsAt (course_in result t) g }
        ensures seen { (r : Row) (j : Joined) → Has pass.seen.joined (r, j) → joined_in result r ≡ Some j }
        ensures offers { (r : Row) (n : ℕ) (o : Offer) → SeesOffer pass.seen r n o → offer_in result r n ≡ Some o }
        ensures lacks { (r : Row) (n : ℕ) → SeesNoOffer pass.seen r n → offer_in result r n ≡ None }
        ensures bound { (n : NackName) (b : Binding) → Has pass.seen.bound (n, b) → binding_in result n ≡ Some b }
        ensures results { (t : ℕ) (results : List Result) → Has pass.results (t, results) → AreResults result t results }
        ensures own { (r : Row) (j : Joined) (offers : List Offer) → IsDraft pass.seen r offers → joined_in result r ≡ Some j → (j.own < length offers) × (offer_in result r j.own ≡ slice_get offers j.own) }
        ensures acts { IsHousing self → ActsAs (before_of (opening_at self)) (acts_in M.stands self.first) result }
    {
        self.close_with(pass.into_gatherer()).0
    }

    /// Ends the table, by a pass to which others may have left it. The ledger has all that the pass has seen or was
    /// told. With it goes out what stands for the threads of which a row is opened that nobody has taken: it offers
    /// what that row offers. One place for each thread, in a table of machines. What lies in other slots goes with the
    /// table.
    pub(crate) fn close_with(self, by: Gatherer<M>) -> (Ledger, Vec<Option<M>>)
        requires here { IsPassOf self by.pass }
        ensures size { (result.0.threads ≡ self.threads) × (result.0.rows ≡ self.rows) }
        ensures lawful { IsLawful result.0 }
        ensures opening { result.0.opening ≡ greatest (opening_at self) }
        ensures before { (t stamp : ℕ) → HadStarted (opening_at self) t stamp → HasStart (course_in result.0 t) stamp }
        ensures over { (t : ℕ) → HadEnded (opening_at self) t → EndsAt (course_in result.0 t) 0 }
        ensures carried { (n : NackName) → IsNackOf self n → carried_in result.0 n ≡ carried_by (word_for (state_in (opening_at self) n)) }
        ensures outside { (t : ℕ) → self.threads ≤ t → course_in result.0 t ≡ Unstarted }
        ensures started { (t stamp : ℕ) → Has by.pass.seen.started (t, stamp) → HasStart (course_in result.0 t) stamp }
        ensures ended { (t g : ℕ) → Has by.pass.seen.ended (t, g) → EndsAt (course_in result.0 t) g }
        ensures seen { (r : Row) (j : Joined) → Has by.pass.seen.joined (r, j) → joined_in result.0 r ≡ Some j }
        ensures offers { (r : Row) (n : ℕ) (o : Offer) → SeesOffer by.pass.seen r n o → offer_in result.0 r n ≡ Some o }
        ensures lacks { (r : Row) (n : ℕ) → SeesNoOffer by.pass.seen r n → offer_in result.0 r n ≡ None }
        ensures bound { (n : NackName) (b : Binding) → Has by.pass.seen.bound (n, b) → binding_in result.0 n ≡ Some b }
        ensures results { (t : ℕ) (results : List Result) → Has by.pass.results (t, results) → AreResults result.0 t results }
        ensures own { (r : Row) (j : Joined) (offers : List Offer) → IsDraft by.pass.seen r offers → joined_in result.0 r ≡ Some j → (j.own < length offers) × (offer_in result.0 r j.own ≡ slice_get offers j.own) }
        ensures count { length result.1.items ≡ length self.first }
        ensures machines { IsHousing self → HandsOut M.stands self.first result.0 result.1.items }
        ensures waiting { IsHousing self → HandsOutWaiting result.0 result.1.items }
        ensures few { length by.gathered + 1 ≤ self.passes }
        ensures opened { self.passes ≤ length by.gathered + 1 → (r : Row) (n : ℕ) (o : Offer) → offer_in result.0 r n ≡ Some o → (steps : List Step) × HasSteps by steps × Has steps (Open r) }
        ensures handed { IsHousing self → self.passes ≤ length by.gathered + 1 → (r : Row) (steps : List Step) → HasSteps by steps → Has steps (Open r) → ((others : List Step) → HasSteps by others → Has others (Take r) → ⊥) → IsHandedOut result.1.items r.thread }
        ensures acts { IsHousing self → ActsAs (before_of (opening_at self)) (acts_in M.stands self.first) result.0 }
    {
        let Cells { board, spare } = self;
        let Gatherer { seat, places } = by;
        board.close(seat, spare, places)
    }

    /// Tells `to` all that `from` has seen, as `tell` does, and `from` leaves the table by it: `to` has gathered its seat
    /// from now on, and the steps that it made.
    pub(crate) fn leave(&self, from: Pass<M>, to: &mut Gatherer<M>)
        requires here { IsPassOf self.now from × IsPassOf self.now to.old.pass }
        ensures here { IsPassOf self.now to.new.pass }
        ensures made { to.new.pass.made ≡ to.old.pass.made }
        ensures told { to.new.pass.seen ≡ heard to.old.pass.seen (told_of from.seen) }
        ensures results { to.new.pass.results ≡ to.old.pass.results ++ from.results }
        ensures gathered { (seat : ℕ) × (to.new.gathered ≡ to.old.gathered ++ (seat, from.made) ∷ []) }
    {
        let Pass { mut seat, .. } = from;
        self.board.leave(&mut seat, &mut to.seat);
    }
}

impl<M: Resident> Cells<M> {
    /// Whether the table has the row.
    pub fn has(&self, row: Row) -> bool
        ensures { IsTrue result ↔ IsRowOf self.now row }
    {
        self.board.has(row)
    }

    /// Whether a row has room for so many offers.
    pub fn has_room(&self, count: usize) -> bool
        ensures { IsTrue result ↔ count ≤ self.now.layout.offers }
    {
        self.board.has_room(count)
    }

    /// That a table has at most 64 threads. It does nothing when it runs.
    #[inline(always)]
    pub fn has_few_threads(&self)
        ensures { self.now.threads ≤ 64 }
    {
        let _ = &self.board;
    }

    /// Opens a held row that is Fresh: its offers stand from now on. In a table of machines the row's machine
    /// was parked for it, and nothing was drafted or bound for it since.
    pub fn open(&self, pass: &mut Pass<M>, row: Row)
        requires here { IsPassOf self.now pass.old × IsRowOf self.now row }
        requires words { M.short ≡ true → HasWords self.now.layout row }
        requires fresh { Has pass.old.seen.held row × (¬ Has pass.old.seen.opened row) }
        requires alive { ¬ SawEnded pass.old.seen row.thread }
        requires parked { M.houses ≡ true → IsParked M.stands self.now pass.old row }
        ensures here { IsPassOf self.now pass.new }
        ensures opened { pass.new.seen ≡ see_opened row pass.old.seen }
        ensures made { pass.new.made ≡ Open row ∷ pass.old.made }
        ensures results { pass.new.results ≡ pass.old.results }
        ensures home { GoesHome self.now.first pass.old.out pass.new.out }
    {
        self.board.open(&mut pass.seat, row);
    }

    /// The row's cell.
    #[inline(always)]
    pub fn look(&self, pass: &mut Pass<M>, row: Row) -> Cell
        requires here { IsPassOf self.now pass.old × IsRowOf self.now row }
        ensures here { IsPassOf self.now pass.new }
        ensures saw { pass.new.seen ≡ see_cell row result pass.old.seen }
        ensures expected { IsExpected pass.old.seen row result }
        ensures unclaimed { Has pass.old.seen.held row → result ≢ Claimed }
        ensures made { pass.new.made ≡ pass.old.made }
        ensures results { KeepsResults pass.old pass.new }
    {
        self.board.look(&mut pass.seat, row)
    }

    /// Where the thread is on its course.
    pub fn course(&self, pass: &mut Pass<M>, thread: u8) -> Course
        requires here { IsPassOf self.now pass.old × (thread < self.now.threads) }
        ensures here { IsPassOf self.now pass.new }
        ensures saw { pass.new.seen ≡ see_course thread result pass.old.seen }
        ensures expected { IsExpectedCourse self.now.rows pass.old.seen thread result }
        ensures made { pass.new.made ≡ pass.old.made }
        ensures results { KeepsResults pass.old pass.new }
    {
        self.board.look_life(&mut pass.seat, thread)
    }

    /// Offer n of the row: none where the row is Fresh or has no offer n.
    pub fn offer(&self, pass: &mut Pass<M>, row: Row, n: u8) -> Option<Offer>
        requires here { IsPassOf self.now pass.old × IsRowOf self.now row }
        ensures here { IsPassOf self.now pass.new }
        ensures learns { Learns (λ q. q ≡ row) pass.old.seen pass.new.seen }
        ensures some { IfSome result (λ o. Has pass.new.seen.opened row × HaveOffer pass.new.seen.words row n o) }
        ensures none { IfNone result (IsKnownOpen pass.old.seen row → LackOffer pass.new.seen.words row n) }
        ensures same { (o : Offer) → SeesOffer pass.new.seen row n o → result ≡ Some o }
        ensures made { pass.new.made ≡ pass.old.made }
        ensures results { KeepsResults pass.old pass.new }
        ensures unopened { Has pass.old.seen.held row → ¬ Has pass.old.seen.opened row → (result ≡ None) × (pass.new.seen ≡ pass.old.seen) }
    {
        reading::offer_of(&self.board, &mut pass.seat, row, n)
    }

    /// The direction of offer n of a row that was seen opened: none where it has no offer n. It takes one
    /// look at the number of offers and one at the offer's head.
    pub fn direction(&self, pass: &mut Pass<M>, row: Row, n: u8) -> Option<Direction>
        requires here { IsPassOf self.now pass.old × IsRowOf self.now row }
        requires opened { Has pass.old.seen.opened row }
        ensures here { IsPassOf self.now pass.new }
        ensures learns { Learns (λ q. q ≡ row) pass.old.seen pass.new.seen }
        ensures some { IfSome result (λ d. HaveDirection pass.new.seen.words row n d) }
        ensures none { IfNone result (LackOffer pass.new.seen.words row n) }
        ensures same { (d : Direction) → SeesDirection pass.new.seen row n d → result ≡ Some d }
        ensures made { pass.new.made ≡ pass.old.made }
        ensures results { KeepsResults pass.old pass.new }
    {
        reading::opened_direction(&self.board, &mut pass.seat, row, n)
    }

    /// What the row's thread gets, where the row is committed.
    pub fn result(&self, pass: &mut Pass<M>, row: Row) -> Option<Message>
        requires here { IsPassOf self.now pass.old × IsRowOf self.now row }
        ensures here { IsPassOf self.now pass.new }
        ensures learns { Learns (IsPartnerOf pass.new.seen row) pass.old.seen pass.new.seen }
        ensures some { IfSome result (IsResult pass.new.seen row) }
        ensures none { IfNone result (¬ SawCommitted pass.old.seen row) }
        ensures same { (got : Message) → IsResult pass.old.seen row got → result ≡ Some got }
        ensures made { pass.new.made ≡ pass.old.made }
        ensures results { KeepsResults pass.old pass.new }
        ensures unopened { Has pass.old.seen.held row → ¬ Has pass.old.seen.opened row → (result ≡ None) × (pass.new.seen ≡ pass.old.seen) }
    {
        reading::result_of(&self.board, &mut pass.seat, row)
    }

    /// Tries to commit the held opened row `mine` with `other`, by offer `own` of the one and
    /// `partner` of the other. No row stays claimed.
    pub fn attempt<G: StepGate>(
        &self,
        pass: &mut Pass<M>,
        gate: &G,
        mine: Row,
        own: u8,
        other: Row,
        partner: u8,
    ) -> Attempt
        requires here { IsPassOf self.now pass.old × IsRowOf self.now mine × IsRowOf self.now other }
        requires opened { Has pass.old.seen.held mine × Has pass.old.seen.opened mine }
        ensures here { IsPassOf self.now pass.new }
        ensures learns { LearnsOf (IsNear mine other) (λ n. ⊥) (IsLifeNear mine other) pass.old.seen pass.new.seen }
        ensures fits { Fits pass.new.seen mine own other partner result }
        ensures offers { OffersFit pass.new.seen mine own other partner result }
        ensures attempted { Attempted pass.old.seen pass.new.seen mine own other partner result }
        ensures made { pass.new.made ≡ attempt_made mine own other partner result pass.old.made }
        ensures results { KeepsResults pass.old pass.new }
    {
        attempt_rows(
            &self.board,
            &mut pass.seat,
            gate,
            (mine, own),
            (other, partner),
        )
    }

    /// Binds nack k of the row's thread to the row, which is held and not opened yet, and to its scope
    /// 0 to 3. False where the nack was bound before: it stays bound as it was; and where it is carried.
    pub fn bind(&self, pass: &mut Pass<M>, k: u8, row: Row, scope: u8) -> bool
        requires here { IsPassOf self.now pass.old × IsRowOf self.now row }
        requires fresh { Has pass.old.seen.held row × (¬ Has pass.old.seen.opened row) }
        requires alive { ¬ SawEnded pass.old.seen row.thread }
        requires range { (k < 64) × (scope < 4) }
        ensures here { IsPassOf self.now pass.new }
        ensures learns { LearnsOf (λ q. ⊥) (λ n. n ≡ nack_of_row row k) (λ p. ⊥) pass.old.seen pass.new.seen }
        ensures bound { Bound pass.old.seen pass.new.seen k row scope result }
        ensures earlier { IsFalse result → IsHousing self.now → BoundBefore M.stands self.now.first pass.old.results pass.new.seen k row }
        ensures made { pass.new.made ≡ bind_made k row scope result pass.old.made }
        ensures results { KeepsResults pass.old pass.new }
    {
        nacks::bind(&self.board, &mut pass.seat, k, row, scope)
    }

    /// The row and the scope to which the nack is bound. A nack of a thread that the table has not, or
    /// with a number above 63, is not bound, nor is one that is carried.
    pub fn bound(&self, pass: &mut Pass<M>, nack: NackName) -> Option<(Row, u8)>
        requires here { IsPassOf self.now pass.old }
        ensures here { IsPassOf self.now pass.new }
        ensures learns { LearnsOf (λ q. ⊥) (λ n. n ≡ nack) (λ p. ⊥) pass.old.seen pass.new.seen }
        ensures some { IfSome result (λ p. IsSeenBound pass.new.seen nack p.0 p.1 × IsRowOf self.now p.0 × (p.1 < 4)) }
        ensures there { IfSome result (λ p. IsNackOf self.now nack) }
        ensures same { (r : Row) (scope : ℕ) → IsSeenBound pass.old.seen nack r scope → result ≡ Some (r, scope) }
        ensures settled { (stamp : ℕ) → Has pass.old.seen.carried (nack, stamp) → result ≡ None }
        ensures made { pass.new.made ≡ pass.old.made }
        ensures results { KeepsResults pass.old pass.new }
    {
        match nacks::word_of(&self.board, &mut pass.seat, nack) {
            NackWord::Bound(bound) => {
                let row = Row {
                    thread: nack.thread,
                    sync: bound.sync as u32,
                };
                Some((row, bound.scope))
            }
            NackWord::Unbound | NackWord::Carried(_) => None,
        }
    }

    /// Commits the row alone by its offer n, where that is an always, an enabled nack, or the end of a thread that
    /// has ended, and the row waits. The row may be held by any pass.
    pub fn grant(&self, pass: &mut Pass<M>, row: Row, n: u8) -> Grant
        requires here { IsPassOf self.now pass.old × IsRowOf self.now row }
        ensures here { IsPassOf self.now pass.new }
        ensures learns { LearnsOf (IsNearGrant pass.new.seen row n) (IsNackOfOffer pass.new.seen row n) (IsLifeOf pass.new.seen row n) pass.old.seen pass.new.seen }
        ensures granted { Granted pass.old.seen pass.new.seen row n result }
        ensures made { pass.new.made ≡ grant_made row n result pass.old.made }
        ensures results { KeepsResults pass.old pass.new }
    {
        grant_row(&self.board, &mut pass.seat, row, n)
    }

    /// Takes the row, where it is committed and nobody has taken it: the pass holds the thread's next
    /// row from then on, or stands behind the last one. The row may be held by any pass.
    pub fn take(&self, pass: &mut Pass<M>, row: Row) -> Option<Joined>
        requires here { IsPassOf self.now pass.old × IsRowOf self.now row }
        ensures here { IsPassOf self.now pass.new }
        ensures some { IfSome result (Took self.now.rows pass.old.seen pass.new.seen row) }
        ensures none { IfNone result (Learns (λ q. q ≡ row) pass.old.seen pass.new.seen × (SawCommitted pass.old.seen row → Has pass.new.seen.taken row)) }
        ensures made { pass.new.made ≡ take_made row result pass.old.made }
        ensures results { ResultsTold row result pass.old.results pass.new.results }
        ensures out { Hands M.stands self.now.first pass.old.seen pass.new.seen row result pass.new.results pass.old.out pass.new.out }
    {
        let Pass { seat, rows, .. } = pass;
        let joined = take_row(&self.board, seat, row)?;
        rows.insert(row.next());
        Some(joined)
    }

    /// Writes a list of at most 8 offers for a held row that is not opened yet, in place of the list that was written
    /// before. The rows have room for them.
    pub fn draft(&self, pass: &mut Pass<M>, row: Row, offers: &[Offer])
        requires here { IsPassOf self.now pass.old × IsRowOf self.now row }
        requires words { M.short ≡ true → HasWords self.now.layout row }
        requires fresh { Has pass.old.seen.held row × (¬ Has pass.old.seen.opened row) }
        requires alive { ¬ SawEnded pass.old.seen row.thread }
        requires offers { AreOffers offers.now }
        requires room { length offers.now ≤ self.now.layout.offers }
        ensures here { IsPassOf self.now pass.new }
        ensures others { Redrafts (λ q p. q ≡ row) pass.old.seen pass.new.seen }
        ensures drafted { IsDraft pass.new.seen row offers.now }
        ensures made { OnlyDrafts row pass.old.made pass.new.made }
        ensures results { KeepsResults pass.old pass.new }
    {
        draft_offers(&self.board, &mut pass.seat, row, offers);
    }

    /// Tells `to` all that `from` has seen, and the offers that it drafted for its opened rows.
    pub fn tell(&self, from: &mut Pass<M>, to: &mut Pass<M>)
        requires here { IsPassOf self.now from.old × IsPassOf self.now to.old }
        ensures here { IsPassOf self.now from.new × IsPassOf self.now to.new }
        ensures kept { from.new.seen ≡ from.old.seen }
        ensures made { (from.new.made ≡ from.old.made) × (to.new.made ≡ to.old.made) }
        ensures told { to.new.seen ≡ heard to.old.seen (told_of from.old.seen) }
        ensures results { (from.new.results ≡ from.old.results) × (to.new.results ≡ to.old.results ++ from.old.results) }
        ensures out { (from.new.out ≡ from.old.out) × (to.new.out ≡ to.old.out) }
        ensures offers { (r : Row) (n : ℕ) (o : Offer) → SeesOffer from.old.seen r n o → SeesOffer to.new.seen r n o }
        ensures lacks { (r : Row) (n : ℕ) → SeesNoOffer from.old.seen r n → SeesNoOffer to.new.seen r n }
        ensures bound { (n : NackName) (b : Binding) → Has from.old.seen.bound (n, b) → Has to.new.seen.bound (n, b) }
        ensures carried { (n : NackName) (stamp : ℕ) → Has from.old.seen.carried (n, stamp) → Has to.new.seen.carried (n, stamp) }
    {
        self.board.tell(&mut from.seat, &mut to.seat);
    }

    /// Hands out what stands for the thread of the place at which the pass stands: for the first row of a thread what
    /// stood for it at first, and for another row, and the place behind the last one, what came out of its slot when the
    /// row before was taken, if that slot is the front one of those that are out. The pass has it alone.
    pub fn fetch(&self, pass: &mut Pass<M>, row: Row) -> M
        requires here { IsPassOf self.now pass.old × IsStandOf self.now row }
        requires stands { IsStand self.now.rows pass.old.seen row }
        requires can { CanFetch self.now pass.old row }
        ensures here { IsPassOf self.now pass.new }
        ensures fetched { Fetched self.now pass.old pass.new row result }
        ensures made { (pass.new.made ≡ pass.old.made) × (pass.new.results ≡ pass.old.results) }
    {
        if row.sync == 0 {
            self.board.begin(&mut pass.seat, row);
        }
        self.board.lift(&mut pass.seat, row)
    }

    /// Lays down what stands for the thread of the place now, after the results of the rows before, as the pass has
    /// them. For a row that is to be opened what it offers was drafted, and its nacks, and no others, are bound to the
    /// row. Behind the last row nothing is: there it stays out with the pass.
    pub fn park(&self, pass: &mut Pass<M>, row: Row, value: M)
        requires here { IsPassOf self.now pass.old × IsStandOf self.now row }
        requires fetched { Holds pass.old row None }
        requires ready { row.sync < self.now.rows → IsReady M.stands self.now.first pass.old.results pass.old.seen row value }
        requires follows { row.sync ≡ self.now.rows → IsFollowing M.stands self.now.first pass.old.results row value }
        ensures here { IsPassOf self.now pass.new }
        ensures parked { pass.new.out ≡ (row.thread, Some value) ∷ rest pass.old.out }
        ensures seen { pass.new.seen ≡ pass.old.seen }
        ensures made { (pass.new.made ≡ pass.old.made) × (pass.new.results ≡ pass.old.results) }
    {
        self.board.lay(&mut pass.seat, row, value);
    }
}

/// A slot for each of these, in which it lies.
fn slots_of<M: Drop>(alloc: Global, first: Vec<M>) -> Result<Vec<Option<M>>, AllocError>
    ensures { IfOk result (λ slots. slots.items ≡ map Some first.items) }
{
    first.into_iter().map(Some).collect(alloc)
}

/// So many places, with nothing in them.
fn no_places<M: Drop>(alloc: Global, count: usize) -> Result<Vec<Option<M>>, AllocError>
    ensures count { IfOk result (λ places. length places.items ≡ count) }
    ensures nothing { IfOk result (λ places. HoldNothing places.items) }
{
    let mut places = Vec::with_capacity(alloc, count)?;
    for _ in 0..count {
        places.push(None)?;
    }
    Ok(places)
}

/// The rows that pass `number` holds at the start, with room for the places behind the last ones.
fn first_rows(
    alloc: Global,
    opening: &Opening,
    rows: u16,
    passes: u8,
    number: u8,
) -> Result<RowSet, AllocError>
    requires threads { length opening.now.threads.items ≤ 64 }
    requires rows { (1 ≤ rows) × (rows ≤ 1024) }
    requires passes { 1 ≤ passes }
    ensures size { IfOk result (λ s. (s.threads ≡ length opening.now.threads.items) × (s.rows ≡ rows + 1)) }
    ensures dealt { IfOk result (λ s. AreFlags s.threads s.rows s.flags.items (dealt_from (opening_of opening.now) (length opening.now.threads.items) passes number)) }
{
    let threads = opening.threads.len() as u8;
    let mut first = RowSet::new(alloc, threads, rows + 1)?;
    for thread in 0..threads {
        if falls_to(opening, passes, number, thread) {
            first.insert(Row { thread, sync: 0 });
        }
    }
    Ok(first)
}

/// Whether the thread runs at first, and falls to pass `number`.
fn falls_to(opening: &Opening, passes: u8, number: u8, thread: u8) -> bool
    requires passes { 1 ≤ passes }
    requires thread { thread < length opening.now.threads.items }
    ensures { result ≡ falls_to (opening_of opening.now) passes number thread }
{
    match opening.threads[usize::from(thread)].0 {
        Life::Running => thread % passes == number,
        Life::Unstarted | Life::Ended => false,
    }
}
