//! The end of a table: its words become a ledger.

ghost use Rattle.std.specs.Prelude.{◌≡◌, ◌+◌, ◌*◌, ◌<◌, ◌≤◌, ℕ, IfNone, IfSome, List, length, None, Some, slice_get};
ghost use Rattle.protocol_ledger.specs.Openings.{HadEnded, HadStarted, greatest, state_in, word_for};
ghost use Rattle.protocol_ledger.specs.Short.{AreStarts, Fits, HasWords, words_below};
ghost use Rattle.protocol_ledger.specs.Tables.{carried_by, cell_at};
ghost use Rattle.cell_table.specs.Closings.{AreInTurn, HandsOut, HandsOutWaiting, HasAll, IsHandedOut, IsHomeOf, IsOpenAt, MadeBy, words_of};
ghost use Rattle.std.specs.Slots.{slots_items, slots_len, IsFull};
ghost use Rattle.protocol_values.specs.declared.Course.TheVariants.{Unstarted};
ghost use Rattle.protocol_values.specs.declared.Joined.{Joined};
ghost use Rattle.protocol_values.specs.declared.Offer.{Offer};
ghost use Rattle.protocol_values.specs.declared.Row.{Row};
ghost use Rattle.protocol_values.specs.declared.Step.{Step};
ghost use Rattle.protocol_values.specs.declared.Step.TheVariants.{Open, Take};
ghost use Rattle.cell_table.specs.declared.view.Stage.TheVariants.{Resting};
ghost use Rattle.protocol_values.specs.declared.NackName.{NackName};
ghost use Rattle.protocol_values.specs.declared.Binding.{Binding};
ghost use Rattle.protocol_ledger.specs.Ledgers.{IsLawful, binding_in, carried_in, course_in, joined_in, offer_in};
ghost use Rattle.protocol_ledger.specs.Standing.{AreResults, Result};
ghost use Rattle.cell_table.specs.Views.{opening_in};
ghost use Rattle.cell_table.specs.Seats.{Sits};
ghost use Rattle.cell_table.specs.Sight.{Has, IsDraft, SeesNoOffer, SeesOffer};
ghost use Rattle.protocol_ledger.specs.Acting.{ActsAs, EndsAt, HasStart, acts_in, before_of};

use crate::board::Board;
use crate::view::{Shape, View};
use atomic_table::{Closed, Seat};
use protocol_ledger::{Ledger, Resident, Starts};
use protocol_values::{Cell, Row, unpack_cell};
use std::alloc::Global;

impl<M: Resident + Drop> Board<M> {
    /// The ledger of the words at the end, and what stands for the threads of which a row is opened that nobody has
    /// taken: it lies in the thread's slot then, and offers what that row offers. The words are copied into `spare`, as
    /// many words, and what is handed out goes into `places`, as many as there are slots: whoever made the table has
    /// kept both from the start for this, so the end needs no memory.
    pub fn close(
        self,
        seat: Seat<Option<M>, View<M>>,
        spare: Vec<u64>,
        places: Vec<Option<M>>,
    ) -> (Ledger, Vec<Option<M>>)
        requires sits { Sits self seat }
        requires spare { length spare.items ≡ self.words.shared.table_id.words }
        requires places { length places.items ≡ self.words.shared.table_id.slots }
        requires empty { (t : ℕ) (value : M) → slice_get places.items t ≡ Some (Some value) → ⊥ }
        ensures size { (result.0.threads ≡ self.shape.threads) × (result.0.rows ≡ self.shape.rows) }
        ensures opening { result.0.opening ≡ greatest (opening_in self.shape) }
        ensures lawful { IsLawful result.0 }
        ensures before { (t stamp : ℕ) → HadStarted (opening_in self.shape) t stamp → HasStart (course_in result.0 t) stamp }
        ensures over { (t : ℕ) → HadEnded (opening_in self.shape) t → EndsAt (course_in result.0 t) 0 }
        ensures outside { (t : ℕ) → self.shape.threads ≤ t → course_in result.0 t ≡ Unstarted }
        ensures started { (t stamp : ℕ) → Has seat.me.0.seen.started (t, stamp) → HasStart (course_in result.0 t) stamp }
        ensures ended { (t g : ℕ) → Has seat.me.0.seen.ended (t, g) → EndsAt (course_in result.0 t) g }
        ensures seen { (r : Row) (j : Joined) → Has seat.me.0.seen.joined (r, j) → joined_in result.0 r ≡ Some j }
        ensures offers { (r : Row) (n : ℕ) (o : Offer) → SeesOffer seat.me.0.seen r n o → offer_in result.0 r n ≡ Some o }
        ensures lacks { (r : Row) (n : ℕ) → SeesNoOffer seat.me.0.seen r n → offer_in result.0 r n ≡ None }
        ensures bound { (n : NackName) (b : Binding) → Has seat.me.0.seen.bound (n, b) → binding_in result.0 n ≡ Some b }
        ensures carried { (n : NackName) → n.thread < self.shape.threads → n.k < 64 → carried_in result.0 n ≡ carried_by (word_for (state_in (opening_in self.shape) n)) }
        ensures results { (t : ℕ) (results : List Result) → Has seat.me.0.results (t, results) → AreResults result.0 t results }
        ensures own { (r : Row) (j : Joined) (offers : List Offer) → IsDraft seat.me.0.seen r offers → joined_in result.0 r ≡ Some j → (j.own < length offers) × (offer_in result.0 r j.own ≡ slice_get offers j.own) }
        ensures machines { 0 < length self.shape.first.value.items → HandsOut M.stands self.shape.first.value.items result.0 result.1.items }
        ensures waiting { 0 < length self.shape.first.value.items → HandsOutWaiting result.0 result.1.items }
        ensures few { seat.me.0.stage ≡ Resting → length seat.me.0.gathered + 1 ≤ seat.me.0.passes }
        ensures opened { HasAll seat.me.0 → (r : Row) (n : ℕ) (o : Offer) → offer_in result.0 r n ≡ Some o → (steps : List Step) × MadeBy seat.me.0 steps × Has steps (Open r) }
        ensures handed { 0 < length self.shape.first.value.items → HasAll seat.me.0 → (r : Row) (steps : List Step) → MadeBy seat.me.0 steps → Has steps (Open r) → ((others : List Step) → MadeBy seat.me.0 others → Has others (Take r) → ⊥) → IsHandedOut result.1.items r.thread }
        ensures count { length result.1.items ≡ length places.items }
        ensures acts { 0 < length self.shape.first.value.items → ActsAs (before_of (opening_in self.shape)) (acts_in M.stands self.shape.first.value.items) result.0 }
    {
        let Board {
            words,
            shape,
            stamps,
            starts,
            ..
        } = self;
        let closed = words.close_with(seat);
        let words = copy_words(&closed, spare);
        let machines = take_home(closed, words.as_slice(), &shape, &starts, places);
        let ledger = Ledger::of_short_words(
            shape.threads as u8,
            shape.rows as u16,
            shape.layout,
            words,
            stamps,
        );
        (ledger, machines)
    }
}

/// What lies in the slots of threads of which a row is opened that nobody has taken. What lies in others goes.
fn take_home<M: Drop>(
    closed: Closed<Option<M>, Global>,
    words: &[u64],
    shape: &Shape<M>,
    starts: &Starts,
    places: Vec<Option<M>>,
) -> Vec<Option<M>>
    requires full { IsFull closed.slots }
    requires shape { (shape.now.threads ≤ 64) × (shape.now.rows ≤ 1024) × Fits shape.now.layout shape.now.rows × (length words.now ≡ words_below shape.now.layout shape.now.threads) }
    requires starts { AreStarts shape.now.layout starts.now }
    requires turns { AreInTurn shape.now words.now }
    requires slots { slots_len closed.slots ≤ shape.now.threads }
    requires places { length places.items ≡ slots_len closed.slots }
    requires empty { (t : ℕ) (value : M) → slice_get places.items t ≡ Some (Some value) → ⊥ }
    ensures home { (t : ℕ) (value : M) → slice_get result.items t ≡ Some (Some value) → IsHomeOf shape.now words.now (slots_items closed.slots) t value }
    ensures all { (t : ℕ) (value : M) → IsHomeOf shape.now words.now (slots_items closed.slots) t value → slice_get result.items t ≡ Some (Some value) }
    ensures count { length result.items ≡ length places.items }
{
    let mut closed = closed;
    let mut places = places;
    let mut at = 0;
    while at < closed.slot_count() {
        let value = closed.take(at);
        places[at] = at_home(words, shape, starts, at as u8, value);
        at += 1;
    }
    closed.free();
    places
}

/// What lies in the slot of the thread, where a row of it is opened that nobody has taken.
fn at_home<M: Drop>(
    words: &[u64],
    shape: &Shape<M>,
    starts: &Starts,
    thread: u8,
    value: Option<M>,
) -> Option<M>
    requires shape { (shape.now.threads ≤ 64) × (shape.now.rows ≤ 1024) × Fits shape.now.layout shape.now.rows × (length words.now ≡ words_below shape.now.layout shape.now.threads) }
    requires starts { AreStarts shape.now.layout starts.now }
    requires turns { AreInTurn shape.now words.now }
    requires thread { thread < shape.now.threads }
    ensures home { (m : M) → result ≡ Some m → (value ≡ Some m) × ((g : ℕ) × IsOpenAt shape.now words.now thread g) }
    ensures all { (g : ℕ) → IsOpenAt shape.now words.now thread g → result ≡ value }
{
    match open_row(words, shape, starts, thread) {
        Some(_) => value,
        None => None,
    }
}

/// The thread's row that is opened and that nobody has taken, if it has one. The rows that were taken are its first
/// ones, and those that are not opened its last ones, so it is found by halves.
fn open_row<M>(words: &[u64], shape: &Shape<M>, starts: &Starts, thread: u8) -> Option<u32>
    requires shape { (shape.now.threads ≤ 64) × (shape.now.rows ≤ 1024) × Fits shape.now.layout shape.now.rows × (length words.now ≡ words_below shape.now.layout shape.now.threads) }
    requires starts { AreStarts shape.now.layout starts.now }
    requires turns { AreInTurn shape.now words.now }
    requires thread { thread < shape.now.threads }
    ensures found { IfSome result (λ g. IsOpenAt shape.now words.now thread g) }
    ensures none { IfNone result ((g : ℕ) → IsOpenAt shape.now words.now thread g → ⊥) }
{
    let mut from = 0;
    let mut to = u32::from(shape.layout.lens[usize::from(thread)]);
    while from < to {
        let sync = from + (to - from) / 2;
        match cell_there(words, shape, starts, Row { thread, sync }) {
            Cell::Taken(_) => from = sync + 1,
            Cell::Fresh => to = sync,
            Cell::Waiting | Cell::Claimed | Cell::Synched(_) => return Some(sync),
        }
    }
    None
}

/// The row's cell, by these words.
#[tactic(auto, using(crate::proofs::Endings::cell_from))]
fn cell_there<M>(words: &[u64], shape: &Shape<M>, starts: &Starts, row: Row) -> Cell
    requires shape { (shape.now.threads ≤ 64) × (shape.now.rows ≤ 1024) × Fits shape.now.layout shape.now.rows × (length words.now ≡ words_below shape.now.layout shape.now.threads) }
    requires starts { AreStarts shape.now.layout starts.now }
    requires row { (row.thread < shape.now.threads) × HasWords shape.now.layout row }
    ensures { result ≡ cell_at (words_of shape.now words.now) row }
{
    let place = shape.layout.place(starts, row, 0);
    match unpack_cell(words[place]) {
        Some(cell) => cell,
        None => Cell::Fresh,
    }
}

/// The table's words, copied into `spare`, the words that were kept for the end, which are as many.
fn copy_words<M>(closed: &Closed<Option<M>, Global>, spare: Vec<u64>) -> Vec<u64>
    requires full { IsFull closed.now.words }
    requires spare { length spare.items ≡ slots_len closed.now.words }
    ensures { result.items ≡ slots_items closed.now.words }
{
    let mut words = spare;
    for at in 0..words.len() {
        words[at] = closed.word(at);
    }
    words
}
