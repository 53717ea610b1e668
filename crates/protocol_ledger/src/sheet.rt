//! The words of a table, and what its rows read as.

ghost use Rattle.std.specs.Prelude.{◌≡◌, ◌+◌, ◌*◌, ◌≤◌, ◌<◌, ℕ, IfOk, IfSome, IsFalse, IsTrue, Some, is_some, true, length, map, max, replicate, slice_index, vec_len};
ghost use Rattle.std.proofs.Props.{props};
ghost use Rattle.protocol_ledger.specs.Short.{AreStarts, Fits, words_below};

use crate::layout::{Layout, Starts};
use crate::opening::Opening;
use protocol_values::{
    Base, Binding, Cell, Course, Joined, NackName, NackWord, Offer, Row, pack_cell, pack_course,
    pack_nack, read_offer, unpack_cell, unpack_count, unpack_course, unpack_nack, unpack_offer,
};
use std::alloc::{AllocError, Global};

/// The words of a row that has room for all offers that a row can have.
pub const ROW_LEN: usize = 34;

/// The offers that such a row has room for.
pub const OFFERS: usize = 8;

/// The nacks of a thread, of one word each.
pub const NACKS: usize = 64;

/// The word of a thread's life.
pub const LIVES: usize = 1;

/// A table's words, thread by thread: a thread's rows first, then its nacks, and then its life. Rows and threads may be
/// short: then the words that they have not are 0.
#[derive(Debug, Drop)]
pub struct Sheet {
    pub threads: usize,
    /// How many rows a thread has.
    pub rows: usize,
    /// Which of them have words.
    pub layout: Layout,
    /// Where each thread's words start.
    pub starts: Starts,
    pub words: Vec<u64>,
    /// The greatest stamp of what went before the table.
    pub opening: u32,
    ghost sized: { length words.items ≡ words_below layout threads },
    ghost few_threads: { threads ≤ 64 },
    ghost few_rows: { rows ≤ 1024 },
    ghost fits: { Fits layout rows } by { Prim.hlevel props },
    ghost located: { AreStarts layout starts } by { Prim.hlevel props },
}

impl Sheet {
    ghost use Rattle.protocol_values.specs.Words.{IsBindingInRange, IsCellInRange, IsCourseInRange, IsNackWordInRange};
    ghost use Rattle.protocol_ledger.specs.Short.{HasWords, even, row_len, rows_of, short_course_place, short_nack_place, short_place};
    ghost use Rattle.protocol_ledger.specs.Tables.{is_row, number_of, is_nack, nack_at, nack_says, word_at, cell_at, count_at, course_at, marks_at, offer_at, joined_at, last_stamp, binding_at, carried_at, end_by, nack_by, nack_via, cause_of};
    ghost use Rattle.protocol_ledger.specs.Openings.{AreFirstWords, IsOpening, greatest, opening_of};
    ghost use Rattle.protocol_ledger.specs.Worlds.{with_course, with_word, with_cell, with_nack};
    ghost use Rattle.protocol_ledger.specs.Sheets.{table_of};

    /// The words of a table at the start, in which the threads of the mask `later` wait to be started.
    pub fn new(alloc: Global, threads: usize, rows: usize, later: u64) -> Result<Sheet, AllocError>
        requires few_threads { threads ≤ 64 }
        requires few_rows { rows ≤ 1024 }
        ensures words { IfOk result (λ b. (table_of b).words ≡ with_lives later rows threads (replicate (threads * (rows * 34 + 65)) 0)) }
        ensures threads { IfOk result (λ b. b.threads ≡ threads) }
        ensures rows { IfOk result (λ b. b.rows ≡ rows) }
        ensures layout { IfOk result (λ b. b.layout ≡ even 8 rows) }
        ensures opening { IfOk result (λ b. b.opening ≡ 0) }
    {
        let words = start_words(alloc, threads, rows, later)?;
        let layout = Layout::even(OFFERS, rows as u16);
        Ok(Sheet {
            threads,
            rows,
            layout,
            starts: layout.starts(),
            words,
            opening: 0,
        })
    }

    /// The words of a table that goes on from an opening.
    pub fn next(alloc: Global, opening: &Opening, rows: usize) -> Result<Sheet, AllocError>
        requires opening { IsOpening (opening_of opening.now) rows }
        requires few_rows { rows ≤ 1024 }
        ensures words { IfOk result (λ b. AreFirstWords (opening_of opening.now) (table_of b)) }
        ensures threads { IfOk result (λ b. b.threads ≡ length opening.now.threads.items) }
        ensures rows { IfOk result (λ b. b.rows ≡ rows) }
        ensures layout { IfOk result (λ b. b.layout ≡ even 8 rows) }
        ensures opening { IfOk result (λ b. b.opening ≡ greatest (opening_of opening.now)) }
    {
        let layout = Layout::even(OFFERS, rows as u16);
        let words = next_words(alloc, opening, rows, layout)?;
        Ok(Sheet {
            threads: opening.threads.len(),
            rows,
            layout,
            starts: layout.starts(),
            words,
            opening: opening.greatest(),
        })
    }

    /// What allots its words.
    pub(crate) fn allocator(&self) -> Global {
        *self.words.allocator()
    }

    /// Whether the table has the row.
    #[tactic(auto, unfolding(crate::specs::Tables::is_row))]
    pub fn contains(&self, row: Row) -> bool
        ensures { result ≡ is_row (table_of self.now) row }
    {
        usize::from(row.thread) < self.threads && (row.sync as usize) < self.rows
    }

    /// The row's place among all rows.
    pub fn number(&self, row: Row) -> usize
        requires { is_row (table_of self.now) row ≡ true }
        ensures value { result ≡ number_of self.now.rows row }
        ensures inside { result < self.now.threads * self.now.rows }
    {
        usize::from(row.thread) * self.rows + row.sync as usize
    }

    /// How many rows the table has.
    pub fn len(&self) -> usize
        ensures { result ≡ self.now.threads * self.now.rows }
    {
        self.threads * self.rows
    }

    /// Whether there are words for the row.
    fn has_words(&self, row: Row) -> bool
        ensures has { IsTrue result → (row.thread < self.now.threads) × HasWords self.now.layout row }
        ensures lacks { IsFalse result → row.thread < self.now.threads → rows_of self.now.layout row.thread ≤ row.sync }
    {
        let thread = usize::from(row.thread);
        thread < self.threads && row.sync < u32::from(self.layout.lens[thread])
    }

    /// Where the row's word at a place lies.
    fn place(&self, row: Row, place: usize) -> usize
        requires thread { row.thread < self.now.threads }
        requires words { HasWords self.now.layout row }
        requires place { place < row_len self.now.layout.offers }
        ensures value { result ≡ short_place self.now.layout row place }
        ensures inside { result < vec_len self.now.words }
    {
        self.layout.place(&self.starts, row, place)
    }

    /// The row's word at a place, 0 where a short row has none.
    pub(crate) fn word(&self, row: Row, place: usize) -> u64
        requires row { is_row (table_of self.now) row ≡ true }
        requires place { place < 34 }
        ensures { result ≡ word_at (table_of self.now) row place }
    {
        if !self.has_words(row) || place >= self.layout.row_len() {
            return 0;
        }
        let at = self.place(row, place);
        self.words[at]
    }

    /// The word of the cell of a row that has words.
    pub(crate) fn cell_word(&self, row: Row) -> u64
        requires thread { row.thread < self.now.threads }
        requires words { HasWords self.now.layout row }
        ensures { result ≡ word_at (table_of self.now) row 0 }
    {
        let at = self.place(row, 0);
        self.words[at]
    }

    /// The row's cell. A row that the table has not is Fresh.
    #[tactic(auto, unfolding(crate::specs::Tables::cell_at))]
    pub fn cell(&self, row: Row) -> Cell
        ensures { result ≡ cell_at (table_of self.now) row }
    {
        if !self.has_words(row) {
            return Cell::Fresh;
        }
        let at = self.place(row, 0);
        unpack_cell(self.words[at]).unwrap_or(Cell::Fresh)
    }

    /// How many offers an opened row has: 0 to 8.
    #[tactic(auto, unfolding(crate::specs::Tables::count_at))]
    fn count(&self, row: Row) -> u8
        ensures { result ≡ count_at (table_of self.now) row }
    {
        match self.cell(row) {
            Cell::Fresh => 0,
            _ => unpack_count(self.word(row, 1)).unwrap_or(0),
        }
    }

    /// Offer n of an opened row.
    #[tactic(auto, unfolding(crate::specs::Tables::offer_at))]
    pub fn offer(&self, row: Row, n: u8) -> Option<Offer>
        ensures { result ≡ offer_at (table_of self.now) row n }
    {
        if n >= self.count(row) {
            return None;
        }
        let head = 2 + 4 * usize::from(n);
        unpack_offer(
            self.word(row, head),
            self.word(row, head + 1),
            self.word(row, head + 2),
            self.word(row, head + 3),
        )
    }

    /// Offer n of a row that is known to have it: nothing is tested, and only the atoms that the
    /// offer has are unpacked.
    #[inline(always)]
    pub(crate) fn known_offer(&self, row: Row, n: u8) -> Offer
        requires { is_some (offer_at (table_of self.now) row n) ≡ true }
        ensures { offer_at (table_of self.now) row n ≡ Some result }
    {
        if usize::from(n) >= self.layout.offers {
            return read_offer(0, 0, 0, 0);
        }
        let head = self.place(row, 2 + 4 * usize::from(n));
        read_offer(
            self.words[head],
            self.words[head + 1],
            self.words[head + 2],
            self.words[head + 3],
        )
    }

    /// How a committed row was committed.
    pub fn joined(&self, row: Row) -> Option<Joined>
        ensures { result ≡ joined_at (table_of self.now) row }
    {
        self.cell(row).joined()
    }

    /// Where the word of the thread's life lies.
    fn course_place(&self, thread: u8) -> usize
        requires { thread < self.now.threads }
        ensures value { result ≡ short_course_place self.now.layout thread }
        ensures inside { result < vec_len self.now.words }
    {
        self.layout.behind(&self.starts, usize::from(thread)) + NACKS
    }

    /// Where the thread is on its course. One that the table has not never starts.
    #[tactic(auto, unfolding(crate::specs::Tables::course_at))]
    pub fn course(&self, thread: u8) -> Course
        ensures { result ≡ course_at (table_of self.now) thread }
    {
        if usize::from(thread) >= self.threads {
            return Course::Unstarted;
        }
        let at = self.course_place(thread);
        unpack_course(self.words[at]).unwrap_or(Course::Unstarted)
    }

    /// The last stamp that counts for what a thread does at this place: that of the row before, or of its start.
    pub fn last_stamp(&self, row: Row) -> u32
        ensures { result ≡ last_stamp (marks_at (table_of self.now)) (joined_at (table_of self.now)) row }
    {
        if row.sync == 0 {
            return start_of(self.course(row.thread));
        }
        let before = Row {
            thread: row.thread,
            sync: row.sync - 1,
        };
        match self.joined(before) {
            Some(joined) => joined.stamp,
            None => 0,
        }
    }

    /// Whether the table has the nack.
    #[tactic(auto, unfolding(crate::specs::Tables::is_nack))]
    fn contains_nack(&self, nack: NackName) -> bool
        ensures { result ≡ is_nack (table_of self.now) nack }
    {
        usize::from(nack.thread) < self.threads && usize::from(nack.k) < NACKS
    }

    /// Where the nack's word lies.
    fn nack_place(&self, nack: NackName) -> usize
        requires { is_nack (table_of self.now) nack ≡ true }
        ensures value { result ≡ short_nack_place self.now.layout nack }
        ensures inside { result < vec_len self.now.words }
    {
        self.layout.behind(&self.starts, usize::from(nack.thread)) + usize::from(nack.k)
    }

    /// The words of the thread's nacks, in their order.
    pub(crate) fn nack_words(&self, thread: u8) -> &[u64]
        requires { thread < self.now.threads }
        ensures count { length result.now ≡ 64 }
        ensures words { (k : ℕ) → k < 64 → slice_index result.now k ≡ nack_at (table_of self.now) (record { thread = thread; k = k }) }
    {
        let first = self.nack_place(NackName { thread, k: 0 });
        &self.words[first..first + NACKS]
    }

    /// What the nack's word says. A nack that the table has not is not bound.
    #[tactic(auto, unfolding(crate::specs::Tables::nack_says, crate::specs::Tables::nack_at))]
    pub fn nack(&self, nack: NackName) -> NackWord
        ensures value { result ≡ nack_says (table_of self.now) nack }
        ensures in_range { IsNackWordInRange result }
    {
        if !self.contains_nack(nack) {
            return NackWord::Unbound;
        }
        let at = self.nack_place(nack);
        let word = self.words[at];
        if word == 0 {
            return NackWord::Unbound;
        }
        unpack_nack(word).unwrap_or(NackWord::Unbound)
    }

    /// The stamp at which the nack was enabled: an earlier table's, or that of its own row, where it
    /// took an offer outside the nack's scope.
    #[tactic(auto, unfolding(crate::specs::Tables::nack_by, crate::specs::Tables::binding_at, crate::specs::Tables::carried_at))]
    fn enabled_at(&self, nack: NackName) -> Option<u32>
        ensures { result ≡ nack_by (joined_at (table_of self.now)) (offer_at (table_of self.now)) (marks_at (table_of self.now)) nack }
    {
        match self.nack(nack) {
            NackWord::Unbound | NackWord::Carried(0) => None,
            NackWord::Carried(stamp) => Some(stamp),
            NackWord::Bound(bound) => Some(self.enabled_by(nack, bound)?.stamp),
        }
    }

    /// How the row to which the nack is bound is committed, where it took an offer outside the nack's
    /// scope.
    fn enabled_by(&self, nack: NackName, bound: Binding) -> Option<Joined>
        requires { IsBindingInRange bound }
        ensures { result ≡ nack_via (joined_at (table_of self.now)) (offer_at (table_of self.now)) nack (Some bound) }
    {
        let row = Row {
            thread: nack.thread,
            sync: bound.sync as u32,
        };
        let joined = self.joined(row)?;
        if encloses(bound.scope, self.offer(row, joined.own)) {
            return None;
        }
        Some(joined)
    }

    /// The last stamp of a thread that has ended.
    #[tactic(auto, unfolding(crate::specs::Tables::end_by))]
    fn ended_by(&self, thread: u8) -> Option<u32>
        ensures { result ≡ end_by (marks_at (table_of self.now)) (joined_at (table_of self.now)) thread }
    {
        match self.course(thread) {
            Course::Unstarted | Course::Running(_) => None,
            Course::Ended(_, sync) => {
                let sync = sync as u32;
                Some(self.last_stamp(Row { thread, sync }))
            }
        }
    }

    /// The stamp of what lets the offer commit its row alone, 0 for an always.
    pub fn cause(&self, offer: Option<Offer>) -> Option<u32>
        ensures { result ≡ cause_of (joined_at (table_of self.now)) (offer_at (table_of self.now)) (marks_at (table_of self.now)) offer }
    {
        match offer?.base {
            Base::Always(_) => Some(0),
            Base::OnNack(nack) => self.enabled_at(nack),
            Base::OnEnd(thread) => self.ended_by(thread),
            Base::Send(..) | Base::Recv(_) | Base::Never => None,
        }
    }

    /// Binds the nack.
    pub fn set_nack(&mut self, nack: NackName, bound: Binding)
        requires nack { is_nack (table_of self.old) nack ≡ true }
        requires range { IsBindingInRange bound }
        ensures written { table_of self.new ≡ with_nack (table_of self.old) nack bound }
        ensures threads { self.new.threads ≡ self.old.threads }
        ensures rows { self.new.rows ≡ self.old.rows }
        ensures layout { self.new.layout ≡ self.old.layout }
        ensures opening { self.new.opening ≡ self.old.opening }
    {
        let at = self.nack_place(nack);
        self.words[at] = pack_nack(NackWord::Bound(bound));
    }

    /// Writes where the thread is on its course.
    pub fn set_course(&mut self, thread: u8, course: Course)
        requires thread { thread < self.old.threads }
        requires range { IsCourseInRange course }
        ensures written { table_of self.new ≡ with_course (table_of self.old) thread course }
        ensures threads { self.new.threads ≡ self.old.threads }
        ensures rows { self.new.rows ≡ self.old.rows }
        ensures layout { self.new.layout ≡ self.old.layout }
        ensures opening { self.new.opening ≡ self.old.opening }
    {
        let at = self.course_place(thread);
        self.words[at] = pack_course(course);
    }

    /// Writes the row's word at a place.
    pub fn set_word(&mut self, row: Row, place: usize, word: u64)
        requires row { is_row (table_of self.old) row ≡ true }
        requires words { HasWords self.old.layout row }
        requires place { place < row_len self.old.layout.offers }
        ensures written { table_of self.new ≡ with_word (table_of self.old) row place word }
        ensures rows { self.new.rows ≡ self.old.rows }
        ensures layout { self.new.layout ≡ self.old.layout }
    {
        let at = self.place(row, place);
        self.words[at] = word;
    }

    /// Writes the row's cell.
    #[tactic(auto, unfolding(crate::specs::Worlds::with_cell))]
    pub fn set_cell(&mut self, row: Row, cell: Cell)
        requires row { is_row (table_of self.old) row ≡ true }
        requires words { HasWords self.old.layout row }
        requires range { IsCellInRange cell }
        ensures written { table_of self.new ≡ with_cell (table_of self.old) row cell }
        ensures threads { self.new.threads ≡ self.old.threads }
        ensures rows { self.new.rows ≡ self.old.rows }
        ensures layout { self.new.layout ≡ self.old.layout }
        ensures opening { self.new.opening ≡ self.old.opening }
    {
        self.set_word(row, 0, pack_cell(cell));
    }
}

ghost use Rattle.protocol_ledger.specs.Tables.{encloses, is_fresh, start_of};
ghost use Rattle.protocol_ledger.specs.Openings.{AreFirstWords, IsOpening, opening_of, table_with};
ghost use Rattle.protocol_ledger.specs.Short.{wide_table};
ghost use Rattle.protocol_ledger.specs.Worlds.{waits, with_lives};

/// The words of a table at the start: all 0, but the lives of the threads that have started, at stamp 0.
/// Those of the mask `later` wait to be started.
pub fn start_words(
    alloc: Global,
    threads: usize,
    rows: usize,
    later: u64,
) -> Result<Vec<u64>, AllocError>
    requires few_threads { threads ≤ 64 }
    requires few_rows { rows ≤ 1024 }
    ensures { IfOk result (λ v. v.items ≡ with_lives later rows threads (replicate (threads * (rows * 34 + 65)) 0)) }
{
    let len = rows * ROW_LEN + NACKS + LIVES;
    let mut words = vec![in alloc; 0; threads * len]?;
    for thread in 0..threads {
        if !waits(later, thread) {
            words[thread * len + rows * ROW_LEN + NACKS] = pack_course(Course::Running(0));
        }
    }
    Ok(words)
}

/// The words of a table that goes on from an opening, and is laid out so: those of its rows 0, the life of each thread
/// with its last stamp, and carried what became of each nack.
pub fn next_words(
    alloc: Global,
    opening: &Opening,
    rows: usize,
    layout: Layout,
) -> Result<Vec<u64>, AllocError>
    requires opening { IsOpening (opening_of opening.now) rows }
    requires few_rows { rows ≤ 1024 }
    requires fits { Fits layout rows }
    ensures sized { IfOk result (λ v. length v.items ≡ words_below layout (length opening.now.threads.items)) }
    ensures first { IfOk result (λ v. AreFirstWords (opening_of opening.now) (wide_table layout (table_with (opening_of opening.now) rows v.items))) }
{
    let starts = layout.starts();
    let mut words = vec![in alloc; 0; starts[opening.threads.len()] as usize]?;
    for (thread, (life, stamp)) in opening.threads.iter().enumerate() {
        let behind = layout.behind(&starts, thread);
        words[behind + NACKS] = pack_course(life.course(*stamp));
    }
    for (number, state) in opening.nacks.iter().enumerate() {
        let behind = layout.behind(&starts, number / NACKS);
        words[behind + number % NACKS] = pack_nack(state.word());
    }
    Ok(words)
}

/// Whether the thread of this number waits to be started.
pub fn waits(later: u64, thread: usize) -> bool
    requires { thread < 64 }
    ensures { result ≡ waits later thread }
{
    (later >> thread) % 2 == 1
}

/// The stamp that counts for what a thread does first, and 0 where it has not started.
pub fn start_of(course: Course) -> u32
    ensures { result ≡ start_of course }
{
    match course {
        Course::Unstarted => 0,
        Course::Running(start) | Course::Ended(start, _) => start,
    }
}

pub(crate) fn is_fresh(cell: Cell) -> bool
    ensures { result ≡ is_fresh cell }
{
    matches!(cell, Cell::Fresh)
}

/// Whether the scope encloses the offer.
pub(crate) fn encloses(scope: u8, offer: Option<Offer>) -> bool
    requires { scope < 8 }
    ensures { result ≡ encloses scope offer }
{
    match offer {
        Some(offer) => offer.has_scope(scope),
        None => false,
    }
}
