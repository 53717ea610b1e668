//! A world's state, and the steps on it.

ghost use Rattle.std.specs.Prelude.{Some, ◌≡◌, ◌*◌, ◌<◌, ◌≤◌, ◌↔◌, IfOk, IsTrue, true, length, map, replicate};
ghost use Rattle.protocol_ledger.specs.Short.{even};

use protocol_ledger::{Life, NACKS, Opening, ROW_LEN, Sheet, start_of, waits};
use protocol_values::{
    Binding, Cell, Course, Joined, NackName, NackWord, Offer, Row, Seat, Step, is_word_for,
};
use std::alloc::{AllocError, Global};

/// A world: the sheet, for each row the seat that holds it and the row that is committed with it as
/// its partner, so that neither is searched for, and for each thread the seat that stands behind its
/// last row.
#[derive(Debug, Drop)]
pub(crate) struct State {
    pub(crate) sheet: Sheet,
    pub(crate) seats: usize,
    pub(crate) holders: Vec<Option<u8>>,
    pub(crate) namers: Vec<Option<Row>>,
    pub(crate) lasts: Vec<Option<u8>>,
    ghost some_rows: { 1 ≤ sheet.rows },
    ghost whole: { sheet.layout ≡ even 8 sheet.rows },
    ghost held: { length holders.items ≡ sheet.threads * sheet.rows },
    ghost named: { length namers.items ≡ sheet.threads * sheet.rows },
    ghost behind: { length lasts.items ≡ sheet.threads },
}

impl State {
    ghost use Rattle.protocol_values.specs.declared.Step.TheVariants.{Draft, Open, Look, Read, Claim, Yield, Join, Seal, Grant, Take, Bind, Start, Finish};
    ghost use Rattle.protocol_values.specs.declared.Cell.TheVariants.{Waiting};
    ghost use Rattle.protocol_ledger.specs.Openings.{Begins, IsOpening, opening_of};
    ghost use Rattle.protocol_ledger.specs.Tables.{is_row, cell_at, offer_at, offers_meet, cause_at};
    ghost use Rattle.protocol_ledger.specs.Worlds.{start_world, Holds, IsAlive, StandsAt, holder_at, last_holder, namer_at, joined_with, granted_by, handed, handed_last, Condition};
    ghost use Rattle.protocol_ledger.specs.Sheets.{table_of};
    ghost use Rattle.protocol.specs.States.{world_of, IsSound, Tries, Decides};

    /// The state of a world at the start.
    pub(crate) fn start(
        alloc: Global,
        threads: usize,
        rows: usize,
        seats: usize,
        later: u64,
    ) -> Result<State, AllocError>
        requires few_threads { threads ≤ 64 }
        requires some_rows { 1 ≤ rows }
        requires few_rows { rows ≤ 1024 }
        requires some_seats { 1 ≤ seats }
        requires few_seats { seats ≤ 16 }
        ensures world { IfOk result (λ s. world_of s ≡ start_world threads rows seats later) }
        ensures sound { IfOk result IsSound }
    {
        let sheet = Sheet::new(alloc, threads, rows, later)?;
        let holders = first_holders(alloc, &sheet, seats, later)?;
        let namers = no_namers(alloc, sheet.len())?;
        let lasts = nobody_behind(alloc, threads)?;
        Ok(State {
            sheet,
            seats,
            holders,
            namers,
            lasts,
        })
    }

    /// The state of a world that goes on from an opening.
    pub(crate) fn next(
        alloc: Global,
        opening: &Opening,
        rows: usize,
        seats: usize,
    ) -> Result<State, AllocError>
        requires opening { IsOpening (opening_of opening.now) rows }
        requires some_rows { 1 ≤ rows }
        requires few_rows { rows ≤ 1024 }
        requires some_seats { 1 ≤ seats }
        requires few_seats { seats ≤ 16 }
        ensures world { IfOk result (λ s. Begins (opening_of opening.now) rows seats (world_of s)) }
        ensures sound { IfOk result IsSound }
    {
        let sheet = Sheet::next(alloc, opening, rows)?;
        let holders = next_holders(alloc, &sheet, seats, opening)?;
        let namers = no_namers(alloc, sheet.len())?;
        let lasts = nobody_behind(alloc, sheet.threads)?;
        Ok(State {
            sheet,
            seats,
            holders,
            namers,
            lasts,
        })
    }

    /// The seat that holds the row.
    #[tactic(auto, unfolding(protocol_ledger::specs::Worlds::holder_at))]
    fn holder(&self, row: Row) -> Option<u8>
        ensures { result ≡ holder_at (world_of self.now) row }
    {
        if !self.sheet.contains(row) {
            return None;
        }
        let at = self.sheet.number(row);
        self.holders[at]
    }

    /// Whether the seat holds the row.
    fn holds(&self, seat: Seat, row: Row) -> bool
        ensures { IsTrue result ↔ Holds (world_of self.now) seat row }
    {
        self.holder(row) == Some(seat.0)
    }

    /// Whether the thread has not ended.
    fn is_alive(&self, thread: u8) -> bool
        ensures { IsTrue result ↔ IsAlive (world_of self.now) thread }
    {
        !matches!(self.sheet.course(thread), Course::Ended(_, _))
    }

    /// The seat that stands behind the thread's last row.
    fn last_holder(&self, thread: u8) -> Option<u8>
        requires { thread < self.now.sheet.threads }
        ensures { result ≡ last_holder (world_of self.now) thread }
    {
        self.lasts[usize::from(thread)]
    }

    /// Whether the seat stands at this place of a thread: it holds the row, which is Fresh, or it took the
    /// thread's last row.
    fn stands_at(&self, seat: Seat, row: Row) -> bool
        ensures { IsTrue result ↔ StandsAt (world_of self.now) seat row }
    {
        if (row.sync as usize) < self.sheet.rows {
            return self.holds(seat, row) && matches!(self.sheet.cell(row), Cell::Fresh);
        }
        if usize::from(row.thread) >= self.sheet.threads {
            return false;
        }
        if (row.sync as usize) > self.sheet.rows {
            return false;
        }
        self.last_holder(row.thread) == Some(seat.0)
    }

    /// The row that is committed with this one as its partner.
    fn namer(&self, row: Row) -> Option<Row>
        requires sound { IsSound self.now }
        requires row { is_row (table_of self.now.sheet) row ≡ true }
        ensures { result ≡ namer_at (world_of self.now) row }
    {
        let at = self.sheet.number(row);
        self.namers[at]
    }

    /// Makes the step where it is allowed, and else changes nothing.
    pub(crate) fn step(&mut self, seat: Seat, step: Step) -> bool
        requires { IsSound self.old }
        ensures decided { Decides (world_of self.old) seat step result (world_of self.new) }
        ensures sound { IsSound self.new }
    {
        if usize::from(seat.0) >= self.seats {
            return false;
        }
        match step {
            Step::Draft { row, place, value } => self.draft(seat, row, place, value),
            Step::Open { row } => self.open(seat, row),
            Step::Look { row } => self.look(seat, row),
            Step::Read { row, place } => self.read(seat, row, place),
            Step::Claim { row } => self.claim(seat, row),
            Step::Yield { row } => self.give_back(seat, row),
            Step::Join {
                mine,
                own,
                other,
                partner,
            } => self.join(seat, mine, own, other, partner),
            Step::Seal { row } => self.seal(seat, row),
            Step::Grant { row, offer } => self.grant(seat, row, offer),
            Step::Take { row } => self.take(seat, row),
            Step::Bind { k, row, scope } => self.bind(seat, k, row, scope),
            Step::Start { row, thread } => self.start_thread(seat, row, thread),
            Step::Finish { row } => self.finish(seat, row),
        }
    }

    fn draft(&mut self, seat: Seat, row: Row, place: u8, value: u64) -> bool
        requires { IsSound self.old }
        ensures tried { Tries (world_of self.old) seat (Draft row place value) result (world_of self.new) }
        ensures sound { IsSound self.new }
    {
        if !self.holds(seat, row) {
            return false;
        }
        let Cell::Fresh = self.sheet.cell(row) else {
            return false;
        };
        if !self.is_alive(row.thread) {
            return false;
        }
        if place < 1 || usize::from(place) >= ROW_LEN {
            return false;
        }
        if !is_word_for(place, value) {
            return false;
        }
        self.sheet.set_word(row, usize::from(place), value);
        true
    }

    fn open(&mut self, seat: Seat, row: Row) -> bool
        requires { IsSound self.old }
        ensures tried { Tries (world_of self.old) seat (Open row) result (world_of self.new) }
        ensures sound { IsSound self.new }
    {
        if !self.holds(seat, row) {
            return false;
        }
        let Cell::Fresh = self.sheet.cell(row) else {
            return false;
        };
        if !self.is_alive(row.thread) {
            return false;
        }
        self.sheet.set_cell(row, Cell::Waiting);
        true
    }

    fn claim(&mut self, seat: Seat, row: Row) -> bool
        requires { IsSound self.old }
        ensures tried { Tries (world_of self.old) seat (Claim row) result (world_of self.new) }
        ensures sound { IsSound self.new }
    {
        if !self.holds(seat, row) {
            return false;
        }
        let Cell::Waiting = self.sheet.cell(row) else {
            return false;
        };
        self.sheet.set_cell(row, Cell::Claimed);
        true
    }

    fn give_back(&mut self, seat: Seat, row: Row) -> bool
        requires { IsSound self.old }
        ensures tried { Tries (world_of self.old) seat (Yield row) result (world_of self.new) }
        ensures sound { IsSound self.new }
    {
        if !self.holds(seat, row) {
            return false;
        }
        let Cell::Claimed = self.sheet.cell(row) else {
            return false;
        };
        if self.namer(row).is_some() {
            return false;
        }
        self.sheet.set_cell(row, Cell::Waiting);
        true
    }

    fn look(&self, seat: Seat, row: Row) -> bool
        ensures { IsTrue result ↔ Condition (world_of self.now) seat (Look row) }
    {
        self.sheet.contains(row)
    }

    fn read(&self, seat: Seat, row: Row, place: u8) -> bool
        ensures { IsTrue result ↔ Condition (world_of self.now) seat (Read row place) }
    {
        !matches!(self.sheet.cell(row), Cell::Fresh) && 1 <= place && usize::from(place) < ROW_LEN
    }

    fn join(&mut self, seat: Seat, mine: Row, own: u8, other: Row, partner: u8) -> bool
        requires { IsSound self.old }
        ensures tried { Tries (world_of self.old) seat (Join mine own other partner) result (world_of self.new) }
        ensures sound { IsSound self.new }
    {
        if !self.holds(seat, mine) {
            return false;
        }
        let Cell::Claimed = self.sheet.cell(mine) else {
            return false;
        };
        if self.namer(mine).is_some() {
            return false;
        }
        let Cell::Waiting = self.sheet.cell(other) else {
            return false;
        };
        if mine.thread == other.thread {
            return false;
        }
        if !offers_meet(
            self.sheet.offer(mine, own),
            self.sheet.offer(other, partner),
        ) {
            return false;
        }
        let joined = self.joined_with(mine, own, other, partner);
        let at = self.sheet.number(mine);
        self.sheet.set_cell(other, Cell::Synched(joined));
        self.namers[at] = Some(other);
        true
    }

    /// The other row's side of a join.
    #[tactic(auto, unfolding(protocol_ledger::specs::Worlds::joined_with))]
    fn joined_with(&self, mine: Row, own: u8, other: Row, partner: u8) -> Joined
        requires sound { IsSound self.now }
        requires waits { cell_at (table_of self.now.sheet) other ≡ Waiting }
        requires meet { offers_meet (offer_at (table_of self.now.sheet) mine own) (offer_at (table_of self.now.sheet) other partner) ≡ true }
        ensures { result ≡ joined_with (table_of self.now.sheet) mine own other partner }
    {
        let mine_stamp = self.sheet.last_stamp(mine);
        let other_stamp = self.sheet.last_stamp(other);
        Joined {
            own: partner,
            partner: Some((mine, own)),
            stamp: 1 + mine_stamp.max(other_stamp),
        }
    }

    fn seal(&mut self, seat: Seat, row: Row) -> bool
        requires { IsSound self.old }
        ensures tried { Tries (world_of self.old) seat (Seal row) result (world_of self.new) }
        ensures sound { IsSound self.new }
    {
        if !self.holds(seat, row) {
            return false;
        }
        let Cell::Claimed = self.sheet.cell(row) else {
            return false;
        };
        let Some(other) = self.namer(row) else {
            return false;
        };
        let Some(joined) = side_of(other, self.sheet.joined(other)) else {
            return false;
        };
        let at = self.sheet.number(other);
        self.sheet.set_cell(row, Cell::Synched(joined));
        self.namers[at] = Some(row);
        true
    }

    fn grant(&mut self, seat: Seat, row: Row, offer: u8) -> bool
        requires { IsSound self.old }
        ensures tried { Tries (world_of self.old) seat (Grant row offer) result (world_of self.new) }
        ensures sound { IsSound self.new }
    {
        let Cell::Waiting = self.sheet.cell(row) else {
            return false;
        };
        let Some(cause) = self.sheet.cause(self.sheet.offer(row, offer)) else {
            return false;
        };
        let joined = self.granted_by(row, offer, cause);
        self.sheet.set_cell(row, Cell::Synched(joined));
        true
    }

    /// How the row is committed alone, by an offer with this cause.
    #[tactic(auto, unfolding(protocol_ledger::specs::Worlds::granted_by))]
    fn granted_by(&self, row: Row, offer: u8, cause: u32) -> Joined
        requires sound { IsSound self.now }
        requires waits { cell_at (table_of self.now.sheet) row ≡ Waiting }
        requires cause { cause_at (table_of self.now.sheet) row offer ≡ Some cause }
        ensures { result ≡ granted_by (table_of self.now.sheet) row offer }
    {
        let last = self.sheet.last_stamp(row);
        Joined {
            own: offer,
            partner: None,
            stamp: 1 + last.max(cause),
        }
    }

    fn take(&mut self, seat: Seat, row: Row) -> bool
        requires { IsSound self.old }
        ensures tried { Tries (world_of self.old) seat (Take row) result (world_of self.new) }
        ensures sound { IsSound self.new }
    {
        let Cell::Synched(joined) = self.sheet.cell(row) else {
            return false;
        };
        self.sheet.set_cell(row, Cell::Taken(joined));
        self.hand(seat, row);
        true
    }

    fn bind(&mut self, seat: Seat, k: u8, row: Row, scope: u8) -> bool
        requires { IsSound self.old }
        ensures tried { Tries (world_of self.old) seat (Bind k row scope) result (world_of self.new) }
        ensures sound { IsSound self.new }
    {
        if !self.holds(seat, row) {
            return false;
        }
        let Cell::Fresh = self.sheet.cell(row) else {
            return false;
        };
        if !self.is_alive(row.thread) {
            return false;
        }
        if usize::from(k) >= NACKS || scope >= 4 {
            return false;
        }
        let nack = NackName {
            thread: row.thread,
            k,
        };
        let NackWord::Unbound = self.sheet.nack(nack) else {
            return false;
        };
        let bound = Binding {
            sync: row.sync as u16,
            scope,
        };
        self.sheet.set_nack(nack, bound);
        true
    }

    fn start_thread(&mut self, seat: Seat, row: Row, thread: u8) -> bool
        requires { IsSound self.old }
        ensures tried { Tries (world_of self.old) seat (Start row thread) result (world_of self.new) }
        ensures sound { IsSound self.new }
    {
        if !self.stands_at(seat, row) {
            return false;
        }
        if !self.is_alive(row.thread) {
            return false;
        }
        if usize::from(thread) >= self.sheet.threads {
            return false;
        }
        if row.thread == thread {
            return false;
        }
        let Course::Unstarted = self.sheet.course(thread) else {
            return false;
        };
        let stamp = self.sheet.last_stamp(row);
        let first = Row { thread, sync: 0 };
        let at = self.sheet.number(first);
        self.sheet.set_course(thread, Course::Running(stamp));
        self.holders[at] = Some(seat.0);
        true
    }

    fn finish(&mut self, seat: Seat, row: Row) -> bool
        requires { IsSound self.old }
        ensures tried { Tries (world_of self.old) seat (Finish row) result (world_of self.new) }
        ensures sound { IsSound self.new }
    {
        if !self.stands_at(seat, row) {
            return false;
        }
        if !self.is_alive(row.thread) {
            return false;
        }
        let start = start_of(self.sheet.course(row.thread));
        self.sheet
            .set_course(row.thread, Course::Ended(start, row.sync as u16));
        true
    }

    /// Lets the seat hold the row behind this one, or the place behind the last row.
    #[tactic(auto, unfolding(protocol_ledger::specs::Worlds::handed, protocol_ledger::specs::Worlds::handed_last))]
    fn hand(&mut self, seat: Seat, row: Row)
        requires { is_row (table_of self.old.sheet) row ≡ true }
        ensures sheet { self.new.sheet ≡ self.old.sheet }
        ensures seats { self.new.seats ≡ self.old.seats }
        ensures namers { self.new.namers.items ≡ self.old.namers.items }
        ensures holders { self.new.holders.items ≡ handed (table_of self.old.sheet) self.old.holders.items seat row }
        ensures lasts { self.new.lasts.items ≡ handed_last (table_of self.old.sheet) self.old.lasts.items seat row }
    {
        let next = row.next();
        if self.sheet.contains(next) {
            let at = self.sheet.number(next);
            self.holders[at] = Some(seat.0);
        }
        if next.sync as usize == self.sheet.rows {
            self.lasts[usize::from(row.thread)] = Some(seat.0);
        }
    }
}

ghost use Rattle.protocol_ledger.specs.Tables.{all_rows, offers_meet};
ghost use Rattle.protocol_ledger.specs.Openings.{held_first, opening_of};
ghost use Rattle.protocol_ledger.specs.Worlds.{first_holder, side_of};

/// The holders at the start, row by row.
fn first_holders(
    alloc: Global,
    sheet: &Sheet,
    seats: usize,
    later: u64,
) -> Result<Vec<Option<u8>>, AllocError>
    requires some_seats { 1 ≤ seats }
    requires few_seats { seats ≤ 16 }
    ensures { IfOk result (λ v. v.items ≡ map (first_holder seats later) (all_rows sheet.now.threads sheet.now.rows)) }
{
    let mut holders = Vec::new(alloc);
    for thread in 0..sheet.threads {
        for sync in 0..sheet.rows {
            let row = Row {
                thread: thread as u8,
                sync: sync as u32,
            };
            holders.push(first_holder(seats, later, row))?;
        }
    }
    Ok(holders)
}

/// The holders where a table goes on from an opening, row by row.
fn next_holders(
    alloc: Global,
    sheet: &Sheet,
    seats: usize,
    opening: &Opening,
) -> Result<Vec<Option<u8>>, AllocError>
    requires some_seats { 1 ≤ seats }
    requires few_seats { seats ≤ 16 }
    ensures { IfOk result (λ v. v.items ≡ map (held_first (opening_of opening.now) seats) (all_rows sheet.now.threads sheet.now.rows)) }
{
    let mut holders = Vec::new(alloc);
    for thread in 0..sheet.threads {
        for sync in 0..sheet.rows {
            let row = Row {
                thread: thread as u8,
                sync: sync as u32,
            };
            holders.push(held_first(opening, seats, row))?;
        }
    }
    Ok(holders)
}

/// The seat that holds the row where a table goes on: row 0 of a thread that runs.
fn held_first(opening: &Opening, seats: usize, row: Row) -> Option<u8>
    requires some_seats { 1 ≤ seats }
    requires few_seats { seats ≤ 16 }
    ensures { result ≡ held_first (opening_of opening.now) seats row }
{
    match opening.threads.get(usize::from(row.thread)) {
        Some((Life::Running, _)) if row.sync == 0 => {
            Some((usize::from(row.thread) % seats) as u8)
        }
        _ => None,
    }
}

/// Nobody names anybody.
fn no_namers(alloc: Global, len: usize) -> Result<Vec<Option<Row>>, AllocError>
    ensures { IfOk result (λ v. v.items ≡ replicate len None) }
{
    vec![in alloc; None; len]
}

/// Nobody stands behind a last row.
fn nobody_behind(alloc: Global, threads: usize) -> Result<Vec<Option<u8>>, AllocError>
    ensures { IfOk result (λ v. v.items ≡ replicate threads None) }
{
    vec![in alloc; None; threads]
}

/// The seat that holds the row at the start.
fn first_holder(seats: usize, later: u64, row: Row) -> Option<u8>
    requires row { row.thread < 64 }
    requires some_seats { 1 ≤ seats }
    requires few_seats { seats ≤ 16 }
    ensures { result ≡ first_holder seats later row }
{
    if waits(later, usize::from(row.thread)) {
        None
    } else if row.sync == 0 {
        Some((usize::from(row.thread) % seats) as u8)
    } else {
        None
    }
}

/// Whether two offers are a send and a receive on one channel; an offer that is not there meets none.
fn offers_meet(own: Option<Offer>, other: Option<Offer>) -> bool
    ensures { result ≡ offers_meet own other }
{
    let (Some(own), Some(other)) = (own, other) else {
        return false;
    };
    own.base.meets(other.base)
}

/// A joined row as its partner sees it.
fn side_of(row: Row, joined: Option<Joined>) -> Option<Joined>
    ensures { result ≡ side_of row joined }
{
    let joined = joined?;
    let (_, own) = joined.partner?;
    Some(Joined {
        own,
        partner: Some((row, joined.own)),
        stamp: joined.stamp,
    })
}
