//! One function for each atomic step, and what the table has.

ghost use Rattle.std.specs.Prelude.{◌≡◌, ◌≢◌, ◌*◌, ◌+◌, ◌<◌, ◌≤◌, ◌↔◌, ℕ, List, ◌∷◌, length, slice_get, true, unwrap_or, IfOk, IfErr, IsTrue, None, Some};
ghost use Rattle.protocol_ledger.specs.Standing.{Result};
ghost use Rattle.protocol_values.specs.Words.{count_of, is_word_for, IsBindingInRange, IsJoinedInRange};
ghost use Rattle.protocol_values.specs.declared.Binding.{Binding};
ghost use Rattle.protocol_values.specs.declared.NackName.{NackName};
ghost use Rattle.protocol_values.specs.declared.NackWord.TheVariants.{Unbound};
ghost use Rattle.protocol_values.specs.declared.Cell.TheVariants.{Waiting, Synched};
ghost use Rattle.protocol_values.specs.declared.Step.TheVariants.{
  Claim as ClaimStep,
  Grant as GrantStep,
  Open as OpenStep,
  Seal as SealStep,
  Take as TakeStep,
  Yield as YieldStep,
};
ghost use Rattle.protocol_ledger.specs.Short.{HasWords, row_len, short_nack_place, short_place};
ghost use Rattle.protocol_ledger.specs.Tables.{bound_row};
ghost use Rattle.protocol_values.specs.Values.{next_row};
ghost use Rattle.protocol_ledger.specs.Worlds.{mirrored};
ghost use Rattle.cell_table.specs.declared.view.Stage.TheVariants.{Resting, Claims, Joins};
ghost use Rattle.atomic_table.specs.Table.{rest};
ghost use Rattle.cell_table.specs.Rule.{IsReady};
ghost use Rattle.cell_table.specs.Told.{Agrees, AgreesNack, ComesOut, FoundNack, GoesHome, began, cell_read, joining, nack_read, settled};
ghost use Rattle.cell_table.specs.Seats.{Sits, HasNack, HasRow, StaysAtTable, StaysSeated};
ghost use Rattle.cell_table.specs.Nacks.{CanGrant};
ghost use Rattle.cell_table.specs.Sight.{Has, CanJoin, SawEnded};
ghost use Rattle.cell_table.specs.Views.{bind_of, bound_nack, did, saw, saw_nack, took_with, read_word, turned, word_drafted};

use crate::board::Board;
use crate::plays::{
    Begin, Bind, Claim, Draft, Give, GiveUp, Join, Look, LookNack, Open, Read, Seal, Take,
};
use crate::view::View;
use atomic_table::Seat;
use protocol_ledger::{NACKS, Resident};
use protocol_values::{
    Binding, Cell, Joined, NackName, NackWord, Row, pack_cell, pack_nack, read_cell, unpack_cell,
    unpack_nack,
};

impl<M: Resident> Board<M> {
    /// Whether the table has the row.
    pub fn has(&self, row: Row) -> bool
        ensures { IsTrue result ↔ HasRow self.now row }
    {
        u64::from(row.thread) < self.shape.threads && u64::from(row.sync) < self.shape.rows
    }

    /// Whether the table has the nack.
    pub fn has_nack(&self, nack: NackName) -> bool
        ensures { IsTrue result ↔ HasNack self.now nack }
    {
        u64::from(nack.thread) < self.shape.threads && usize::from(nack.k) < NACKS
    }

    /// Whether a row has room for so many offers.
    pub fn has_room(&self, count: usize) -> bool
        ensures { IsTrue result ↔ count ≤ self.now.shape.layout.offers }
    {
        count <= self.shape.layout.offers
    }

    // how many words a row has
    pub(crate) fn row_len(&self) -> usize
        ensures { result ≡ row_len self.now.shape.layout.offers }
    {
        self.row_words
    }

    /// Whether there are words for the row.
    #[inline(always)]
    pub fn has_words(&self, row: Row) -> bool
        requires { HasRow self.now row }
        ensures { IsTrue result ↔ HasWords self.now.shape.layout row }
    {
        row.sync < u32::from(self.shape.layout.lens[usize::from(row.thread)])
    }

    // where the word of a row at a place lies
    #[inline(always)]
    fn place(&self, row: Row, place: u8) -> usize
        requires { HasRow self.now row × HasWords self.now.shape.layout row × (place < row_len self.now.shape.layout.offers) }
        ensures { (result ≡ short_place self.now.shape.layout row place) × (result < self.now.words.shared.table_id.words) }
    {
        self.starts[usize::from(row.thread)] as usize
            + row.sync as usize * self.row_len()
            + usize::from(place)
    }

    /// Where the row's words begin.
    #[inline(always)]
    pub fn first_place(&self, row: Row) -> usize
        requires { HasRow self.now row × HasWords self.now.shape.layout row }
        ensures { result ≡ short_place self.now.shape.layout row 0 }
    {
        self.place(row, 0)
    }

    // where the word of a row at a place lies, whose words begin there
    #[inline(always)]
    fn place_behind(&self, first: usize, row: Row, place: u8) -> usize
        requires there { HasRow self.now row × HasWords self.now.shape.layout row × (place < row_len self.now.shape.layout.offers) }
        requires first { first ≡ short_place self.now.shape.layout row 0 }
        ensures { (result ≡ short_place self.now.shape.layout row place) × (result < self.now.words.shared.table_id.words) }
    {
        let _ = row;
        first + usize::from(place)
    }

    // where the word of a nack lies
    fn nack_place(&self, nack: NackName) -> usize
        requires { HasNack self.now nack }
        ensures { (result ≡ short_nack_place self.now.shape.layout nack) × (result < self.now.words.shared.table_id.words) }
    {
        self.shape
            .layout
            .behind(&self.starts, usize::from(nack.thread))
            + usize::from(nack.k)
    }

    /// Reads what the nack's word says.
    pub fn look_nack(&self, seat: &mut Seat<Option<M>, View<M>>, nack: NackName) -> NackWord
        requires { Sits self.now seat.old × HasNack self.now nack }
        ensures sits { StaysSeated self.now seat.old seat.new }
        ensures saw { seat.new.me.0 ≡ saw_nack nack result seat.old.me.0 }
        ensures agrees { AgreesNack seat.old.me.0 nack result }
    {
        nack_in(
            self.words
                .shared
                .load::<LookNack>(seat, self.nack_place(nack)),
        )
    }

    /// Binds a nack to a held row of its thread that is not opened yet, where it is neither bound nor carried; else
    /// says what its word is.
    pub fn bind_nack(
        &self,
        seat: &mut Seat<Option<M>, View<M>>,
        nack: NackName,
        bound: Binding,
    ) -> Result<(), NackWord>
        requires sits { Sits self.now seat.old × HasNack self.now nack × HasRow self.now (bound_row nack bound) }
        requires resting { seat.old.me.0.stage ≡ Resting }
        requires held { Has seat.old.me.0.seen.held (bound_row nack bound) × (¬ Has seat.old.me.0.seen.opened (bound_row nack bound)) }
        requires alive { ¬ SawEnded seat.old.me.0.seen nack.thread }
        requires range { IsBindingInRange bound }
        ensures sits { StaysSeated self.now seat.old seat.new }
        ensures bound { IfOk result (λ _. (seat.new.me.0 ≡ did (bind_of nack bound) (bound_nack nack bound seat.old.me.0)) × ((b : Binding) → ¬ Has seat.old.me.0.seen.bound (nack, b)) × ((stamp : ℕ) → ¬ Has seat.old.me.0.seen.carried (nack, stamp))) }
        ensures found { IfErr result (λ word. (word ≢ Unbound) × (seat.new.me.0 ≡ saw_nack nack word seat.old.me.0) × FoundNack M.stands seat.old.me.0 nack bound word) }
    {
        let free = pack_nack(NackWord::Unbound);
        let word = pack_nack(NackWord::Bound(bound));
        let found = self
            .words
            .shared
            .compare_exchange::<Bind>(seat, self.nack_place(nack), free, word);
        match nack_in(found) {
            NackWord::Unbound => Ok(()),
            other => Err(other),
        }
    }

    /// Reads the row's cell. A row that has no words is Fresh.
    #[inline(always)]
    pub fn look(&self, seat: &mut Seat<Option<M>, View<M>>, row: Row) -> Cell
        requires { Sits self.now seat.old × HasRow self.now row }
        ensures sits { StaysSeated self.now seat.old seat.new }
        ensures saw { seat.new.me.0 ≡ saw row result seat.old.me.0 }
        ensures agrees { Agrees seat.old.me.0 row result }
    {
        if !self.has_words(row) {
            self.glance(seat);
            return Cell::Fresh;
        }
        read_cell(self.words.shared.load::<Look>(seat, self.place(row, 0)))
    }

    /// Reads a word of a row that was seen opened, whose words begin there.
    pub fn read(
        &self,
        seat: &mut Seat<Option<M>, View<M>>,
        row: Row,
        first: usize,
        place: u8,
    ) -> u64
        requires sits { Sits self.now seat.old × HasRow self.now row }
        requires words { HasWords self.now.shape.layout row }
        requires first { first ≡ short_place self.now.shape.layout row 0 }
        requires place { (1 ≤ place) × (place < row_len self.now.shape.layout.offers) × Has seat.old.me.0.seen.opened row }
        ensures sits { StaysSeated self.now seat.old seat.new }
        ensures read { seat.new.me.0 ≡ read_word row place result seat.old.me.0 }
        ensures few { place ≡ 1 → unwrap_or (count_of result) 0 ≤ self.now.shape.layout.offers }
    {
        self.words
            .shared
            .load::<Read>(seat, self.place_behind(first, row, place))
    }

    /// Writes a word of a held row that is not opened yet, whose words begin there: no greater number of offers than a row
    /// has room for.
    pub fn draft(
        &self,
        seat: &mut Seat<Option<M>, View<M>>,
        row: Row,
        first: usize,
        place: u8,
        word: u64,
    )
        requires sits { Sits self.now seat.old × HasRow self.now row }
        requires words { HasWords self.now.shape.layout row }
        requires first { first ≡ short_place self.now.shape.layout row 0 }
        requires place { (1 ≤ place) × (place < row_len self.now.shape.layout.offers) × (is_word_for place word ≡ true) }
        requires few { place ≡ 1 → unwrap_or (count_of word) 0 ≤ self.now.shape.layout.offers }
        requires resting { seat.old.me.0.stage ≡ Resting }
        requires held { Has seat.old.me.0.seen.held row × (¬ Has seat.old.me.0.seen.opened row) }
        requires alive { ¬ SawEnded seat.old.me.0.seen row.thread }
        ensures sits { StaysSeated self.now seat.old seat.new }
        ensures drafted { seat.new.me.0 ≡ word_drafted row place word seat.old.me.0 }
    {
        self.words
            .shared
            .store::<Draft>(seat, self.place_behind(first, row, place), word);
    }

    /// Opens a held row that is Fresh.
    pub fn open(&self, seat: &mut Seat<Option<M>, View<M>>, row: Row)
        requires sits { Sits self.now seat.old × HasRow self.now row }
        requires words { HasWords self.now.shape.layout row }
        requires held { Has seat.old.me.0.seen.held row × (¬ Has seat.old.me.0.seen.opened row) × (seat.old.me.0.stage ≡ Resting) }
        requires alive { ¬ SawEnded seat.old.me.0.seen row.thread }
        requires parked { 0 < length self.now.shape.first.value.items → (value : M) × (seat.old.me.1 ≡ (row.thread, Some value) ∷ rest seat.old.me.1) × IsReady M.stands self.now.shape.first.value.items seat.old.me.0.results seat.old.me.0.seen row value }
        ensures sits { StaysAtTable self.now seat.old seat.new }
        ensures opened { seat.new.me.0 ≡ did (OpenStep row) (turned Resting row seat.old.me.0) }
        ensures home { GoesHome self.now.shape.first.value.items seat.old.me.1 seat.new.me.1 }
    {
        self.words
            .shared
            .store::<Open>(seat, self.place(row, 0), pack_cell(Cell::Waiting));
    }

    /// Takes what stood for the row's thread at first out of its slot. The row is the thread's first, and held.
    pub fn begin(&self, seat: &mut Seat<Option<M>, View<M>>, row: Row)
        requires sits { Sits self.now seat.old × HasRow self.now row }
        requires words { HasWords self.now.shape.layout row }
        requires first { (row.sync ≡ 0) × Has seat.old.me.0.seen.held row × (¬ Has seat.old.me.0.seen.begun row) }
        requires some { 0 < length self.now.shape.first.value.items }
        ensures sits { StaysAtTable self.now seat.old seat.new }
        ensures began { seat.new.me.0 ≡ began row seat.old.me.0 }
        ensures out { (value : M) × (slice_get self.now.shape.first.value.items row.thread ≡ Some (Some value)) × (seat.new.me.1 ≡ (row.thread, Some value) ∷ seat.old.me.1) }
    {
        self.words.shared.load::<Begin>(seat, self.place(row, 0));
    }

    /// Takes the value out of the slot of the row's thread, the front one of those that are out.
    pub fn lift(&self, seat: &mut Seat<Option<M>, View<M>>, row: Row) -> M
        requires sits { Sits self.now seat.old }
        requires out { (value : M) × (seat.old.me.1 ≡ (row.thread, Some value) ∷ rest seat.old.me.1) }
        ensures sits { StaysAtTable self.now seat.old seat.new }
        ensures same { seat.new.me.0 ≡ seat.old.me.0 }
        ensures lifted { (seat.old.me.1 ≡ (row.thread, Some result) ∷ rest seat.old.me.1) × (seat.new.me.1 ≡ (row.thread, None) ∷ rest seat.old.me.1) }
    {
        match self
            .words
            .shared
            .exchange(seat, usize::from(row.thread), None)
        {
            Some(value) => value,
            None => unreachable!(),
        }
    }

    /// Lays the value into the slot of the row's thread, the front one of those that are out, which is empty.
    pub fn lay(&self, seat: &mut Seat<Option<M>, View<M>>, row: Row, value: M)
        requires sits { Sits self.now seat.old }
        requires out { seat.old.me.1 ≡ (row.thread, None) ∷ rest seat.old.me.1 }
        ensures sits { StaysAtTable self.now seat.old seat.new }
        ensures same { seat.new.me.0 ≡ seat.old.me.0 }
        ensures laid { seat.new.me.1 ≡ (row.thread, Some value) ∷ rest seat.old.me.1 }
    {
        let before = self
            .words
            .shared
            .exchange(seat, usize::from(row.thread), Some(value));
        let None = before else { unreachable!() };
    }

    /// Claims a held row, where it is Waiting; else says what it is.
    pub fn claim(&self, seat: &mut Seat<Option<M>, View<M>>, row: Row) -> Result<(), Cell>
        requires sits { Sits self.now seat.old × HasRow self.now row }
        requires words { HasWords self.now.shape.layout row }
        requires held { Has seat.old.me.0.seen.held row × (seat.old.me.0.stage ≡ Resting) }
        ensures sits { StaysSeated self.now seat.old seat.new }
        ensures claimed { IfOk result (λ _. seat.new.me.0 ≡ did (ClaimStep row) (turned (Claims row) row seat.old.me.0)) }
        ensures found { IfErr result (λ cell. (cell ≢ Waiting) × (seat.new.me.0 ≡ saw row cell seat.old.me.0) × Agrees seat.old.me.0 row cell) }
    {
        let waiting = pack_cell(Cell::Waiting);
        let claimed = pack_cell(Cell::Claimed);
        let found = self
            .words
            .shared
            .compare_exchange::<Claim>(seat, self.place(row, 0), waiting, claimed);
        exchanged(found, waiting)
    }

    /// Gives up the row that this call has claimed.
    pub fn give_up(&self, seat: &mut Seat<Option<M>, View<M>>, row: Row)
        requires sits { Sits self.now seat.old × HasRow self.now row }
        requires words { HasWords self.now.shape.layout row }
        requires held { Has seat.old.me.0.seen.held row × (seat.old.me.0.stage ≡ Claims row) }
        ensures sits { StaysSeated self.now seat.old seat.new }
        ensures waits { seat.new.me.0 ≡ did (YieldStep row) (turned Resting row seat.old.me.0) }
    {
        self.words
            .shared
            .store::<GiveUp>(seat, self.place(row, 0), pack_cell(Cell::Waiting));
    }

    /// Joins another row with the claimed one, where it is Waiting; else says what it is.
    pub fn join(
        &self,
        seat: &mut Seat<Option<M>, View<M>>,
        mine: Row,
        own: u8,
        row: Row,
        partner: u8,
        joined: Joined,
    ) -> Result<(), Cell>
        requires sits { Sits self.now seat.old × HasRow self.now row }
        requires words { HasWords self.now.shape.layout row }
        requires held { Has seat.old.me.0.seen.held mine × (seat.old.me.0.stage ≡ Claims mine) }
        requires can { CanJoin seat.old.me.0.seen mine own row partner joined × IsJoinedInRange joined }
        ensures sits { StaysSeated self.now seat.old seat.new }
        ensures joined { IfOk result (λ _. seat.new.me.0 ≡ joining mine own row joined seat.old.me.0) }
        ensures found { IfErr result (λ cell. (cell ≢ Waiting) × (seat.new.me.0 ≡ saw row cell seat.old.me.0) × Agrees seat.old.me.0 row cell) }
    {
        let waiting = pack_cell(Cell::Waiting);
        let synched = pack_cell(Cell::Synched(joined));
        let found = self
            .words
            .shared
            .compare_exchange::<Join>(seat, self.place(row, 0), waiting, synched);
        exchanged(found, waiting)
    }

    /// Commits a row alone, where it is Waiting; else says what it is.
    pub fn give(
        &self,
        seat: &mut Seat<Option<M>, View<M>>,
        row: Row,
        joined: Joined,
    ) -> Result<(), Cell>
        requires sits { Sits self.now seat.old × HasRow self.now row }
        requires words { HasWords self.now.shape.layout row }
        requires resting { seat.old.me.0.stage ≡ Resting }
        requires can { CanGrant seat.old.me.0.seen row joined.own joined × IsJoinedInRange joined }
        ensures sits { StaysSeated self.now seat.old seat.new }
        ensures given { IfOk result (λ _. (seat.new.me.0 ≡ did (GrantStep row joined.own) (settled row joined seat.old.me.0)) × Agrees seat.old.me.0 row Waiting) }
        ensures found { IfErr result (λ cell. (cell ≢ Waiting) × (seat.new.me.0 ≡ saw row cell seat.old.me.0) × Agrees seat.old.me.0 row cell) }
    {
        let waiting = pack_cell(Cell::Waiting);
        let granted = pack_cell(Cell::Synched(joined));
        let found = self
            .words
            .shared
            .compare_exchange::<Give>(seat, self.place(row, 0), waiting, granted);
        exchanged(found, waiting)
    }

    /// Takes a row that is committed so, where nobody has taken it; else says what it is. The pass
    /// holds the thread's next row then, if there is one.
    pub fn take_committed(
        &self,
        seat: &mut Seat<Option<M>, View<M>>,
        row: Row,
        joined: Joined,
    ) -> Result<(), Cell>
        requires sits { Sits self.now seat.old × HasRow self.now row }
        requires words { HasWords self.now.shape.layout row }
        requires resting { seat.old.me.0.stage ≡ Resting }
        requires range { IsJoinedInRange joined }
        ensures sits { StaysAtTable self.now seat.old seat.new }
        ensures took { IfOk result (λ _. (results : List Result) × (length results ≡ row.sync + 1) × (seat.new.me.0 ≡ did (TakeStep row) (took_with row joined results seat.old.me.0)) × ComesOut M.stands self.now.shape.first.value.items seat.old.me.0.seen seat.new.me.0.seen row joined.own results seat.old.me.1 seat.new.me.1 × Agrees seat.old.me.0 row (Synched joined) × (¬ Has seat.old.me.0.seen.opened (next_row row)) × (¬ SawEnded seat.old.me.0.seen row.thread) × ((n : NackName) (b : Binding) → Has seat.old.me.0.seen.bound (n, b) → bound_row n b ≢ next_row row)) }
        ensures found { IfErr result (λ cell. (cell ≢ Synched joined) × (seat.new.me ≡ (saw row cell seat.old.me.0, seat.old.me.1)) × Agrees seat.old.me.0 row cell) }
    {
        let committed = pack_cell(Cell::Synched(joined));
        let taken = pack_cell(Cell::Taken(joined));
        let found = self
            .words
            .shared
            .compare_exchange::<Take>(seat, self.place(row, 0), committed, taken);
        exchanged(found, committed)
    }

    /// Commits the claimed row, as the row says that this call has joined with it.
    pub fn seal(
        &self,
        seat: &mut Seat<Option<M>, View<M>>,
        row: Row,
        own: u8,
        other: Row,
        joined: Joined,
    )
        requires sits { Sits self.now seat.old × HasRow self.now row }
        requires words { HasWords self.now.shape.layout row }
        requires held { Has seat.old.me.0.seen.held row × (seat.old.me.0.stage ≡ Joins row other joined) }
        requires partner { (joined.partner ≡ Some (row, own)) × IsJoinedInRange (mirrored other joined own) }
        ensures sits { StaysSeated self.now seat.old seat.new }
        ensures sealed { seat.new.me.0 ≡ did (SealStep row) (settled row (mirrored other joined own) seat.old.me.0) }
    {
        let committed = Joined {
            own,
            partner: Some((other, joined.own)),
            stamp: joined.stamp,
        };
        self.words.shared.store::<Seal>(
            seat,
            self.place(row, 0),
            pack_cell(Cell::Synched(committed)),
        );
    }
}

// what an exchange came to: it was made where the word was the expected one; else the cell that was found
#[inline(always)]
fn exchanged(found: u64, expected: u64) -> Result<(), Cell>
    ensures made { IfOk result (λ _. found ≡ expected) }
    ensures refused { IfErr result (λ cell. (found ≢ expected) × (cell ≡ cell_read found)) }
{
    if found == expected {
        Ok(())
    } else {
        Err(cell_in(found))
    }
}

// the cell that a word of the table stands for
#[inline(never)]
fn cell_in(word: u64) -> Cell
    ensures { result ≡ cell_read word }
{
    match unpack_cell(word) {
        Some(cell) => cell,
        None => Cell::Fresh,
    }
}

// what a word of the table says of a nack
fn nack_in(word: u64) -> NackWord
    ensures { result ≡ nack_read word }
{
    match unpack_nack(word) {
        Some(says) => says,
        None => NackWord::Unbound,
    }
}
