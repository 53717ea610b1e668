//! The rules of the steps, read a second time and in the plainest way, so that tests can compare with
//! them. Steps and commits have the product's types; nothing here calls a function of the product.

ghost use Rattle.std.specs.Prelude.{◌≤◌};

use crate::plain_row::{
    PlainRow, Stage, Way, do_meet, fresh_row, is_word, message_of, scope_bit, way_of,
};
use protocol_values::{Cause, Commit, Message, NackName, Row, Seat, Step};

/// Of a thread: the stamp of its start, the sync at which it ended, and the seat that took its last row.
#[derive(Clone, Copy)]
struct Life {
    start: Option<u32>,
    end: Option<u32>,
    behind: Option<u8>,
}

/// What a thread did before the world: it waits to be started, it runs, or it has ended, with its last
/// stamp.
#[derive(Clone, Copy)]
pub(crate) enum Past {
    Waits,
    Runs(u32),
    Over(u32),
}

impl Past {
    fn life(self) -> Life {
        let (start, end) = match self {
            Past::Waits => (None, None),
            Past::Runs(stamp) => (Some(stamp), None),
            Past::Over(stamp) => (Some(stamp), Some(0)),
        };
        Life {
            start,
            end,
            behind: None,
        }
    }

    /// The holder of the thread's first row, where it would be this seat.
    fn holder(self, seat: u8) -> Option<u8> {
        match self {
            Past::Runs(_) => Some(seat),
            Past::Waits | Past::Over(_) => None,
        }
    }
}

/// A nack that is bound has its sync and its scope. What an earlier table settled was enabled at a stamp,
/// or is dead.
#[derive(Clone, Copy)]
enum PlainNack {
    Unbound,
    Bound(u32, u8),
    Settled(Option<u32>),
}

/// A world of three threads with two rows each, whose words stand apart; place 0 of them is not used.
#[derive(Clone, Copy)]
pub(crate) struct PlainWorld {
    seats: u8,
    rows: [PlainRow; 6],
    words: [[u64; 34]; 6],
    nacks: [PlainNack; 192],
    lives: [Life; 3],
}

impl PlainWorld {
    /// All rows Fresh and no nack bound; row 0 of a thread t that runs is held by seat t mod `seats`, and
    /// that of another thread by nobody.
    pub(crate) fn start(seats: u8, pasts: [Past; 3]) -> PlainWorld
        requires some_seats { 1 ≤ seats }
    {
        let [first, second, third] = pasts;
        PlainWorld {
            seats,
            rows: [
                fresh_row(0, 0, first.holder(0)),
                fresh_row(0, 1, None),
                fresh_row(1, 0, second.holder(1 % seats)),
                fresh_row(1, 1, None),
                fresh_row(2, 0, third.holder(2 % seats)),
                fresh_row(2, 1, None),
            ],
            words: [[0; 34]; 6],
            nacks: [PlainNack::Unbound; 192],
            lives: [first.life(), second.life(), third.life()],
        }
    }

    /// An earlier table settled the nack: it was enabled at the stamp, or is dead.
    pub(crate) fn settle(&mut self, nack: NackName, stamp: Option<u32>) {
        if let Some(place) = self.nacks.get_mut(nack_place(nack)) {
            *place = PlainNack::Settled(stamp);
        }
    }

    /// Plays the steps up to the first that is not allowed, and tells its number.
    pub(crate) fn play(&mut self, steps: &[(Seat, Step)]) -> Option<usize> {
        for (index, (seat, step)) in steps.iter().enumerate() {
            if !self.step(*seat, *step) {
                return Some(index);
            }
        }
        None
    }

    fn step(&mut self, seat: Seat, step: Step) -> bool {
        if seat.0 >= self.seats {
            return false;
        }
        match step {
            Step::Draft { row, place, value } => self.draft(seat, row, place, value),
            Step::Open { row } => {
                self.may_write(seat, row) && self.change(seat, row, Stage::Fresh, Stage::Waiting)
            }
            Step::Look { row } => self.row(row).is_some(),
            Step::Read { row, place } => self.is_open(row) && 1 <= place && place <= 33,
            Step::Claim { row } => self.change(seat, row, Stage::Waiting, Stage::Claimed),
            Step::Yield { row } => {
                self.namer(row).is_none() && self.change(seat, row, Stage::Claimed, Stage::Waiting)
            }
            Step::Join {
                mine,
                own,
                other,
                partner,
            } => self.join(seat, mine, own, other, partner),
            Step::Seal { row } => self.seal(seat, row),
            Step::Grant { row, offer } => self.grant(row, offer),
            Step::Take { row } => self.take(seat, row),
            Step::Bind { k, row, scope } => self.bind(seat, k, row, scope),
            Step::Start { row, thread } => self.begin(seat, row, thread),
            Step::Finish { row } => self.end(seat, row),
        }
    }

    fn row(&self, row: Row) -> Option<PlainRow> {
        self.rows.get(place_of(row)).copied()
    }

    fn put(&mut self, line: PlainRow) {
        if let Some(place) = self.rows.get_mut(place_of(line.row)) {
            *place = line;
        }
    }

    fn held(&self, seat: Seat, row: Row) -> Option<PlainRow> {
        let line = self.row(row)?;
        if line.holder == Some(seat.0) {
            Some(line)
        } else {
            None
        }
    }

    fn life(&self, thread: u8) -> Option<Life> {
        self.lives.get(usize::from(thread)).copied()
    }

    fn put_life(&mut self, thread: u8, life: Life) {
        if let Some(place) = self.lives.get_mut(usize::from(thread)) {
            *place = life;
        }
    }

    fn has_ended(&self, thread: u8) -> bool {
        match self.life(thread) {
            Some(life) => life.end.is_some(),
            None => false,
        }
    }

    /// Whether the seat has the row, not opened yet, of a thread that goes on.
    fn may_write(&self, seat: Seat, row: Row) -> bool {
        match self.held(seat, row) {
            Some(line) => line.stage == Stage::Fresh && !self.has_ended(row.thread),
            None => false,
        }
    }

    /// Whether the seat has the thread between two syncs, at this one.
    fn is_between(&self, seat: Seat, row: Row) -> bool {
        if row.sync != 2 {
            return self.may_write(seat, row);
        }
        match self.life(row.thread) {
            Some(life) => life.behind == Some(seat.0) && life.end.is_none(),
            None => false,
        }
    }

    fn is_open(&self, row: Row) -> bool {
        match self.row(row) {
            Some(line) => line.stage != Stage::Fresh,
            None => false,
        }
    }

    /// The committed row that names this one as its partner.
    fn namer(&self, row: Row) -> Option<PlainRow> {
        for line in self.rows.iter() {
            if let Some((named, _)) = line.partner {
                if line.is_committed() && named == row {
                    return Some(*line);
                }
            }
        }
        None
    }

    /// The head word of an offer that the row has.
    fn head(&self, row: Row, offer: u8) -> Option<u64> {
        let words = self.words.get(place_of(row))?;
        if u64::from(offer) < words[1] {
            words.get(2 + 4 * usize::from(offer)).copied()
        } else {
            None
        }
    }

    fn way(&self, row: Row, offer: u8) -> Option<Way> {
        let head = self.head(row, offer)?;
        Some(way_of(head))
    }

    fn message(&self, row: Row, offer: u8) -> Option<Message> {
        let head = self.head(row, offer)?;
        let words = self.words.get(place_of(row))?;
        let at = 2 + 4 * usize::from(offer);
        let first = words.get(at + 1).copied()?;
        let second = words.get(at + 2).copied()?;
        let third = words.get(at + 3).copied()?;
        Some(message_of(head, first, second, third))
    }

    fn start_stamp(&self, thread: u8) -> u32 {
        match self.life(thread) {
            Some(
                Life {
                    start: Some(start),
                    ..
                },
            ) => start,
            _ => 0,
        }
    }

    fn last_stamp(&self, row: Row) -> u32 {
        if row.sync == 0 {
            return self.start_stamp(row.thread);
        }
        let before = Row {
            thread: row.thread,
            sync: row.sync.wrapping_sub(1),
        };
        match self.row(before) {
            Some(line) => line.stamp,
            None => 0,
        }
    }

    /// The stamp of the commit that enabled the nack.
    fn enabled(&self, nack: NackName) -> Option<u32> {
        let (sync, scope) = match self.nacks.get(nack_place(nack)).copied()? {
            PlainNack::Unbound => return None,
            PlainNack::Bound(sync, scope) => (sync, scope),
            PlainNack::Settled(stamp) => return stamp,
        };
        let line = self.row(Row {
            thread: nack.thread,
            sync,
        })?;
        let head = self.head(line.row, line.own)?;
        if line.is_committed() && head & scope_bit(scope) == 0 {
            Some(line.stamp)
        } else {
            None
        }
    }

    /// The stamp that the thread had when it ended.
    fn ended(&self, thread: u8) -> Option<u32> {
        let life = self.life(thread)?;
        let sync = life.end?;
        Some(self.last_stamp(Row { thread, sync }))
    }

    fn draft(&mut self, seat: Seat, row: Row, place: u8, value: u64) -> bool {
        if !self.may_write(seat, row) || place < 1 || !is_word(place, value) {
            return false;
        }
        let Some(words) = self.words.get_mut(place_of(row)) else {
            return false;
        };
        let Some(word) = words.get_mut(usize::from(place)) else {
            return false;
        };
        *word = value;
        true
    }

    fn change(&mut self, seat: Seat, row: Row, from: Stage, to: Stage) -> bool {
        let Some(mut line) = self.held(seat, row) else {
            return false;
        };
        if line.stage != from {
            return false;
        }
        line.stage = to;
        self.put(line);
        true
    }

    fn join(&mut self, seat: Seat, mine: Row, own: u8, other: Row, partner: u8) -> bool {
        let Some(claimed) = self.held(seat, mine) else {
            return false;
        };
        let Some(mut joined) = self.row(other) else {
            return false;
        };
        if claimed.stage != Stage::Claimed || joined.stage != Stage::Waiting {
            return false;
        }
        if self.namer(mine).is_some() || mine.thread == other.thread {
            return false;
        }
        if !do_meet(self.way(mine, own), self.way(other, partner)) {
            return false;
        }
        joined.stage = Stage::Synched;
        joined.own = partner;
        joined.partner = Some((mine, own));
        joined.stamp = above(self.last_stamp(mine), self.last_stamp(other));
        self.put(joined);
        true
    }

    fn seal(&mut self, seat: Seat, row: Row) -> bool {
        let Some(mut line) = self.held(seat, row) else {
            return false;
        };
        let Some(other) = self.namer(row) else {
            return false;
        };
        let Some((_, own)) = other.partner else {
            return false;
        };
        if line.stage != Stage::Claimed {
            return false;
        }
        line.stage = Stage::Synched;
        line.own = own;
        line.partner = Some((other.row, other.own));
        line.stamp = other.stamp;
        self.put(line);
        true
    }

    fn grant(&mut self, row: Row, offer: u8) -> bool {
        let Some(mut line) = self.row(row) else {
            return false;
        };
        if line.stage != Stage::Waiting {
            return false;
        }
        let cause = match self.way(row, offer) {
            Some(Way::Always) => Some(0),
            Some(Way::OnNack(nack)) => self.enabled(nack),
            Some(Way::OnEnd(thread)) => self.ended(thread),
            Some(Way::Send(_) | Way::Recv(_) | Way::Never) | None => None,
        };
        let Some(cause) = cause else {
            return false;
        };
        line.stage = Stage::Synched;
        line.own = offer;
        line.stamp = above(self.last_stamp(row), cause);
        self.put(line);
        true
    }

    fn take(&mut self, seat: Seat, row: Row) -> bool {
        let Some(mut line) = self.row(row) else {
            return false;
        };
        if line.stage != Stage::Synched {
            return false;
        }
        line.stage = Stage::Taken;
        self.put(line);
        let next = Row {
            thread: row.thread,
            sync: row.sync.wrapping_add(1),
        };
        self.hand(seat, next);
        true
    }

    /// The seat goes on with the thread from here, which may be behind its last row.
    fn hand(&mut self, seat: Seat, next: Row) {
        if let Some(mut line) = self.row(next) {
            line.holder = Some(seat.0);
            self.put(line);
        } else if let Some(mut life) = self.life(next.thread) {
            life.behind = Some(seat.0);
            self.put_life(next.thread, life);
        }
    }

    fn bind(&mut self, seat: Seat, k: u8, row: Row, scope: u8) -> bool {
        if !self.may_write(seat, row) || scope > 3 {
            return false;
        }
        let nack = NackName {
            thread: row.thread,
            k,
        };
        let Some(state) = self.nacks.get_mut(nack_place(nack)) else {
            return false;
        };
        let PlainNack::Unbound = *state else {
            return false;
        };
        *state = PlainNack::Bound(row.sync, scope);
        true
    }

    fn begin(&mut self, seat: Seat, row: Row, thread: u8) -> bool {
        let Some(mut life) = self.life(thread) else {
            return false;
        };
        if !self.is_between(seat, row) || row.thread == thread || life.start.is_some() {
            return false;
        }
        life.start = Some(self.last_stamp(row));
        self.put_life(thread, life);
        self.hand(seat, Row { thread, sync: 0 });
        true
    }

    fn end(&mut self, seat: Seat, row: Row) -> bool {
        let Some(mut life) = self.life(row.thread) else {
            return false;
        };
        if !self.is_between(seat, row) {
            return false;
        }
        life.end = Some(row.sync);
        self.put_life(row.thread, life);
        true
    }

    /// How many claimed rows are named as a partner.
    pub(crate) fn pending(&self) -> u32 {
        let mut count: u32 = 0;
        for line in self.rows.iter() {
            if line.stage == Stage::Claimed && self.namer(line.row).is_some() {
                count = count.wrapping_add(1);
            }
        }
        count
    }

    /// The commit of the row, also of one that is joined and not yet sealed.
    pub(crate) fn commit_of(&self, row: Row) -> Option<Commit> {
        let line = self.row(row)?;
        if line.is_committed() {
            return self.commit_by(&line);
        }
        let namer = self.namer(row)?;
        self.commit_by(&namer)
    }

    fn commit_by(&self, line: &PlainRow) -> Option<Commit> {
        let here = (line.row, line.own);
        let way = self.way(line.row, line.own)?;
        let Some(there) = line.partner else {
            return self.alone(line, way);
        };
        let (sender, receiver) = match way {
            Way::Send(_) => (here, there),
            _ => (there, here),
        };
        let Some(Way::Send(chan)) = self.way(sender.0, sender.1) else {
            return None;
        };
        Some(Commit::Pair {
            sender,
            receiver,
            chan,
            msg: self.message(sender.0, sender.1)?,
            stamp: line.stamp,
        })
    }

    fn alone(&self, line: &PlainRow, way: Way) -> Option<Commit> {
        let cause = match way {
            Way::Always => Cause::Always(self.message(line.row, line.own)?),
            Way::OnNack(nack) => Cause::Nack(nack),
            Way::OnEnd(thread) => Cause::End(thread),
            Way::Send(_) | Way::Recv(_) | Way::Never => return None,
        };
        Some(Commit::Alone {
            at: (line.row, line.own),
            cause,
            stamp: line.stamp,
        })
    }
}

/// Where the row stands among the six, and 6 for any other.
fn place_of(row: Row) -> usize {
    if row.thread < 3 && row.sync < 2 {
        2 * usize::from(row.thread) + row.sync as usize
    } else {
        6
    }
}

/// Where the nack stands among the 192, and 192 for any other.
fn nack_place(nack: NackName) -> usize {
    if nack.thread < 3 && nack.k < 64 {
        64 * usize::from(nack.thread) + usize::from(nack.k)
    } else {
        192
    }
}

fn above(one: u32, other: u32) -> u32 {
    one.max(other).saturating_add(1)
}
