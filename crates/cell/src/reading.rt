//! What a pass reads of a row by several looks.

ghost use Rattle.std.specs.Prelude.{ℕ, ◌≡◌, ◌≢◌, ◌⊎◌, ◌+◌, ◌*◌, ◌<◌, ◌≤◌, true, IfSome, IfNone, IsTrue, None, Some, is_some};
ghost use Rattle.protocol_values.specs.Words.{atom_of};
ghost use Rattle.protocol_values.specs.declared.Direction.{Direction};
ghost use Rattle.protocol_values.specs.declared.Message.{Message};
ghost use Rattle.protocol_values.specs.declared.Base.TheVariants.{Recv, Send};
ghost use Rattle.protocol_values.specs.declared.Offer.{Offer};
ghost use Rattle.protocol_values.specs.declared.Row.{Row};
ghost use Rattle.protocol_ledger.specs.Short.{short_place};
ghost use Rattle.protocol_ledger.specs.Tables.{names};
ghost use Rattle.cell_table.specs.Seats.{Sits, HasRow, StaysSeated};
ghost use Rattle.cell_table.specs.Sight.{Has, HaveDirection, HaveOffer, HasSeenLast, IsBefore, IsKnownOpen, IsPartnerOf, IsReached, IsResult, LackOffer, SawCommitted, SawEnded, SeesDirection, SeesOffer, Learns, LearnsOf, atoms_told};
ghost use Rattle.cell_table.specs.Views.{at_stage};

use atomic_table::Seat;
use cell_table::{Board, View};
use protocol_ledger::Resident;
use protocol_values::{
    Base, Cell, Course, Direction, Joined, Message, Offer, Row, read_head, read_offer, unpack_count,
};

/// Offer n of the row, where it is opened and has one.
#[inline(always)]
pub(crate) fn offer_of<M: Resident>(
    board: &Board<M>,
    seat: &mut Seat<Option<M>, View<M>>,
    row: Row,
    n: u8,
) -> Option<Offer>
    requires { Sits board.now seat.old × HasRow board.now row }
    ensures sits { StaysSeated board.now seat.old seat.new }
    ensures stays { seat.new.me.0 ≡ at_stage seat.old.me.0.stage seat.new.me.0.seen seat.old.me.0 }
    ensures learns { Learns (λ q. q ≡ row) seat.old.me.0.seen seat.new.me.0.seen }
    ensures some { IfSome result (λ o. Has seat.new.me.0.seen.opened row × HaveOffer seat.new.me.0.seen.words row n o) }
    ensures none { IfNone result (IsKnownOpen seat.old.me.0.seen row → LackOffer seat.new.me.0.seen.words row n) }
    ensures same { (o : Offer) → SeesOffer seat.new.me.0.seen row n o → result ≡ Some o }
    ensures unopened { Has seat.old.me.0.seen.held row → ¬ Has seat.old.me.0.seen.opened row → (result ≡ None) × (seat.new.me.0.seen ≡ seat.old.me.0.seen) }
{
    if board.look(seat, row) == Cell::Fresh {
        return None;
    }
    opened_offer(board, seat, row, n)
}

/// Offer n of a row that was seen opened, where it has one.
#[inline(always)]
pub(crate) fn opened_offer<M: Resident>(
    board: &Board<M>,
    seat: &mut Seat<Option<M>, View<M>>,
    row: Row,
    n: u8,
) -> Option<Offer>
    requires { Sits board.now seat.old × HasRow board.now row × Has seat.old.me.0.seen.opened row }
    ensures sits { StaysSeated board.now seat.old seat.new }
    ensures stays { seat.new.me.0 ≡ at_stage seat.old.me.0.stage seat.new.me.0.seen seat.old.me.0 }
    ensures learns { Learns (λ q. q ≡ row) seat.old.me.0.seen seat.new.me.0.seen }
    ensures some { IfSome result (λ o. Has seat.new.me.0.seen.opened row × HaveOffer seat.new.me.0.seen.words row n o) }
    ensures none { IfNone result (LackOffer seat.new.me.0.seen.words row n) }
    ensures same { (o : Offer) → SeesOffer seat.new.me.0.seen row n o → result ≡ Some o }
{
    let begin = board.first_place(row);
    let count = unpack_count(board.read(seat, row, begin, 1))?;
    if n >= count {
        return None;
    }
    let head = board.read(seat, row, begin, 2 + 4 * n);
    let atoms = atoms_told(read_head(head).direction);
    let first = read_atom(board, seat, row, begin, n, 1, atoms >= 1);
    let second = read_atom(board, seat, row, begin, n, 2, atoms >= 2);
    let third = read_atom(board, seat, row, begin, n, 3, atoms >= 3);
    Some(read_offer(head, first, second, third))
}

/// The word of atom k, 1 to 3, of offer n of a row that was seen opened, where the offer has it: else 0,
/// and nothing is read.
fn read_atom<M: Resident>(
    board: &Board<M>,
    seat: &mut Seat<Option<M>, View<M>>,
    row: Row,
    begin: usize,
    n: u8,
    k: u8,
    has: bool,
) -> u64
    requires sits { Sits board.now seat.old × HasRow board.now row × Has seat.old.me.0.seen.opened row }
    requires place { (n < board.now.shape.layout.offers) × (1 ≤ k) × (k < 4) }
    requires begin { begin ≡ short_place board.now.shape.layout row 0 }
    ensures sits { StaysSeated board.now seat.old seat.new }
    ensures stays { seat.new.me.0 ≡ at_stage seat.old.me.0.stage seat.new.me.0.seen seat.old.me.0 }
    ensures learns { Learns (λ q. q ≡ row) seat.old.me.0.seen seat.new.me.0.seen }
    ensures read { IsTrue has → Has seat.new.me.0.seen.words (row, 2 + k + 4 * n, result) }
    ensures atom { is_some (atom_of result) ≡ true }
{
    if has {
        board.read(seat, row, begin, 2 + k + 4 * n)
    } else {
        0
    }
}

/// The direction of offer n of the row, where it is opened and has one.
pub(crate) fn direction_of<M: Resident>(
    board: &Board<M>,
    seat: &mut Seat<Option<M>, View<M>>,
    row: Row,
    n: u8,
) -> Option<Direction>
    requires { Sits board.now seat.old × HasRow board.now row }
    ensures sits { StaysSeated board.now seat.old seat.new }
    ensures stays { seat.new.me.0 ≡ at_stage seat.old.me.0.stage seat.new.me.0.seen seat.old.me.0 }
    ensures learns { Learns (λ q. q ≡ row) seat.old.me.0.seen seat.new.me.0.seen }
    ensures some { IfSome result (λ d. Has seat.new.me.0.seen.opened row × HaveDirection seat.new.me.0.seen.words row n d) }
    ensures same { (d : Direction) → SeesDirection seat.new.me.0.seen row n d → result ≡ Some d }
{
    if board.look(seat, row) == Cell::Fresh {
        return None;
    }
    opened_direction(board, seat, row, n)
}

/// The direction of offer n of a row that was seen opened, where it has one. Its head alone is read.
#[inline(always)]
pub(crate) fn opened_direction<M: Resident>(
    board: &Board<M>,
    seat: &mut Seat<Option<M>, View<M>>,
    row: Row,
    n: u8,
) -> Option<Direction>
    requires { Sits board.now seat.old × HasRow board.now row × Has seat.old.me.0.seen.opened row }
    ensures sits { StaysSeated board.now seat.old seat.new }
    ensures stays { seat.new.me.0 ≡ at_stage seat.old.me.0.stage seat.new.me.0.seen seat.old.me.0 }
    ensures learns { Learns (λ q. q ≡ row) seat.old.me.0.seen seat.new.me.0.seen }
    ensures some { IfSome result (λ d. Has seat.new.me.0.seen.opened row × HaveDirection seat.new.me.0.seen.words row n d) }
    ensures none { IfNone result (LackOffer seat.new.me.0.seen.words row n) }
    ensures same { (d : Direction) → SeesDirection seat.new.me.0.seen row n d → result ≡ Some d }
{
    let begin = board.first_place(row);
    let count = unpack_count(board.read(seat, row, begin, 1))?;
    if n >= count {
        return None;
    }
    let head = board.read(seat, row, begin, 2 + 4 * n);
    Some(read_head(head).direction)
}

/// The stamp of the start of the place's thread, which has started.
fn start_stamp<M: Resident>(board: &Board<M>, seat: &mut Seat<Option<M>, View<M>>, row: Row) -> u32
    requires sits { Sits board.now seat.old × (row.thread < board.now.shape.threads) }
    requires reached { IsReached board.now.shape.rows seat.old.me.0.seen row }
    ensures sits { StaysSeated board.now seat.old seat.new }
    ensures stays { seat.new.me.0 ≡ at_stage seat.old.me.0.stage seat.new.me.0.seen seat.old.me.0 }
    ensures learns { LearnsOf (λ q. ⊥) (λ n. ⊥) (λ p. p ≡ row.thread) seat.old.me.0.seen seat.new.me.0.seen }
    ensures started { Has seat.new.me.0.seen.started (row.thread, result) }
{
    match board.look_life(seat, row.thread) {
        Course::Running(start) | Course::Ended(start, _) => start,
        Course::Unstarted => unreachable!(),
    }
}

/// The stamp of the row before this place in its thread, of which the place is not the first. All rows before it
/// were taken.
fn stamp_before<M: Resident>(board: &Board<M>, seat: &mut Seat<Option<M>, View<M>>, row: Row) -> u32
    requires sits { Sits board.now seat.old × (row.thread < board.now.shape.threads) × (row.sync ≤ board.now.shape.rows) }
    requires behind { row.sync ≢ 0 }
    requires reached { IsReached board.now.shape.rows seat.old.me.0.seen row }
    ensures sits { StaysSeated board.now seat.old seat.new }
    ensures stays { seat.new.me.0 ≡ at_stage seat.old.me.0.stage seat.new.me.0.seen seat.old.me.0 }
    ensures learns { Learns (IsBefore row) seat.old.me.0.seen seat.new.me.0.seen }
    ensures last { HasSeenLast seat.new.me.0.seen row result }
{
    let before = Row {
        thread: row.thread,
        sync: row.sync - 1,
    };
    match board.look(seat, before) {
        Cell::Synched(joined) | Cell::Taken(joined) => joined.stamp,
        Cell::Fresh | Cell::Waiting | Cell::Claimed => unreachable!(),
    }
}

/// The stamp of the row before this one in its thread, and of a first row that of its thread's start. The row was
/// seen opened, so the one before it is committed, and its thread has started.
pub(crate) fn last_stamp<M: Resident>(
    board: &Board<M>,
    seat: &mut Seat<Option<M>, View<M>>,
    row: Row,
) -> u32
    requires sits { Sits board.now seat.old × HasRow board.now row }
    requires opened { Has seat.old.me.0.seen.opened row }
    ensures sits { StaysSeated board.now seat.old seat.new }
    ensures stays { seat.new.me.0 ≡ at_stage seat.old.me.0.stage seat.new.me.0.seen seat.old.me.0 }
    ensures learns { LearnsOf (IsBefore row) (λ n. ⊥) (λ p. p ≡ row.thread) seat.old.me.0.seen seat.new.me.0.seen }
    ensures last { HasSeenLast seat.new.me.0.seen row result }
{
    if row.sync == 0 {
        start_stamp(board, seat, row)
    } else {
        stamp_before(board, seat, row)
    }
}

/// The last stamp at this place of a thread that was seen started at `start`: that of the row before, and of a first row
/// the start's.
pub(crate) fn last_at<M: Resident>(
    board: &Board<M>,
    seat: &mut Seat<Option<M>, View<M>>,
    row: Row,
    start: u32,
) -> u32
    requires sits { Sits board.now seat.old × (row.thread < board.now.shape.threads) × (row.sync ≤ board.now.shape.rows) }
    requires reached { IsReached board.now.shape.rows seat.old.me.0.seen row }
    requires started { Has seat.old.me.0.seen.started (row.thread, start) }
    ensures sits { StaysSeated board.now seat.old seat.new }
    ensures stays { seat.new.me.0 ≡ at_stage seat.old.me.0.stage seat.new.me.0.seen seat.old.me.0 }
    ensures learns { Learns (IsBefore row) seat.old.me.0.seen seat.new.me.0.seen }
    ensures last { HasSeenLast seat.new.me.0.seen row result }
{
    if row.sync == 0 {
        start
    } else {
        stamp_before(board, seat, row)
    }
}

/// The last stamp of a thread that has ended, at its end.
pub(crate) fn end_stamp<M: Resident>(
    board: &Board<M>,
    seat: &mut Seat<Option<M>, View<M>>,
    thread: u8,
) -> Option<u32>
    requires { Sits board.now seat.old }
    ensures sits { StaysSeated board.now seat.old seat.new }
    ensures stays { seat.new.me.0 ≡ at_stage seat.old.me.0.stage seat.new.me.0.seen seat.old.me.0 }
    ensures learns { LearnsOf (λ q. (g : ℕ) × Has seat.new.me.0.seen.ended (thread, g) × IsBefore (record { thread = thread; sync = g }) q) (λ n. ⊥) (λ p. p ≡ thread) seat.old.me.0.seen seat.new.me.0.seen }
    ensures some { IfSome result (λ stamp. (g : ℕ) × Has seat.new.me.0.seen.ended (thread, g) × HasSeenLast seat.new.me.0.seen (record { thread = thread; sync = g }) stamp) }
    ensures none { IfNone result (¬ SawEnded seat.old.me.0.seen thread) }
{
    if !board.has_thread(thread) {
        return None;
    }
    let Course::Ended(start, sync) = board.look_life(seat, thread) else {
        return None;
    };
    let sync = sync as u32;
    Some(last_at(board, seat, Row { thread, sync }, start))
}

/// What the row's thread gets, where the row is committed.
pub(crate) fn result_of<M: Resident>(
    board: &Board<M>,
    seat: &mut Seat<Option<M>, View<M>>,
    row: Row,
) -> Option<Message>
    requires { Sits board.now seat.old × HasRow board.now row }
    ensures sits { StaysSeated board.now seat.old seat.new }
    ensures stays { seat.new.me.0 ≡ at_stage seat.old.me.0.stage seat.new.me.0.seen seat.old.me.0 }
    ensures learns { Learns (IsPartnerOf seat.new.me.0.seen row) seat.old.me.0.seen seat.new.me.0.seen }
    ensures some { IfSome result (IsResult seat.new.me.0.seen row) }
    ensures none { IfNone result (¬ SawCommitted seat.old.me.0.seen row) }
    ensures same { (got : Message) → IsResult seat.old.me.0.seen row got → result ≡ Some got }
    ensures unopened { Has seat.old.me.0.seen.held row → ¬ Has seat.old.me.0.seen.opened row → (result ≡ None) × (seat.new.me.0.seen ≡ seat.old.me.0.seen) }
{
    match board.look(seat, row) {
        Cell::Synched(joined) | Cell::Taken(joined) => gained(board, seat, row, joined),
        Cell::Fresh | Cell::Waiting | Cell::Claimed => None,
    }
}

/// What the thread of a committed row gets.
#[inline(always)]
fn gained<M: Resident>(
    board: &Board<M>,
    seat: &mut Seat<Option<M>, View<M>>,
    row: Row,
    joined: Joined,
) -> Option<Message>
    requires sits { Sits board.now seat.old × HasRow board.now row }
    requires committed { Has seat.old.me.0.seen.joined (row, joined) × Has seat.old.me.0.seen.opened row }
    ensures sits { StaysSeated board.now seat.old seat.new }
    ensures stays { seat.new.me.0 ≡ at_stage seat.old.me.0.stage seat.new.me.0.seen seat.old.me.0 }
    ensures learns { Learns (λ q. (q ≡ row) ⊎ (names (Some joined) q ≡ true)) seat.old.me.0.seen seat.new.me.0.seen }
    ensures got { (got : Message) × (result ≡ Some got) × IsResult seat.new.me.0.seen row got }
{
    match opened_offer(board, seat, row, joined.own)?.base {
        Base::Always(message) => Some(message),
        Base::Recv(_) => received(board, seat, row, joined),
        Base::Send(..) | Base::OnNack(_) | Base::OnEnd(_) | Base::Never => Some(Message::Empty),
    }
}

/// What the partner of a committed row sent to it.
#[inline(always)]
fn received<M: Resident>(
    board: &Board<M>,
    seat: &mut Seat<Option<M>, View<M>>,
    row: Row,
    joined: Joined,
) -> Option<Message>
    requires sits { Sits board.now seat.old × HasRow board.now row }
    requires committed { Has seat.old.me.0.seen.joined (row, joined) }
    requires receives { (mine : Offer) × (chan : ℕ) × HaveOffer seat.old.me.0.seen.words row joined.own mine × (mine.base ≡ Recv chan) }
    ensures sits { StaysSeated board.now seat.old seat.new }
    ensures stays { seat.new.me.0 ≡ at_stage seat.old.me.0.stage seat.new.me.0.seen seat.old.me.0 }
    ensures learns { Learns (λ q. names (Some joined) q ≡ true) seat.old.me.0.seen seat.new.me.0.seen }
    ensures sent { (partner : Row × ℕ) × (chan : ℕ) × (theirs : Offer) × (got : Message) × (result ≡ Some got) × (joined.partner ≡ Some partner) × HaveOffer seat.new.me.0.seen.words partner.0 partner.1 theirs × (theirs.base ≡ Send chan got) }
{
    let _ = row;
    let (partner, offer) = joined.partner?;
    match offer_of(board, seat, partner, offer)?.base {
        Base::Send(_, message) => Some(message),
        _ => None,
    }
}

/// How many atoms an offer in this direction has.
pub(crate) fn atoms_told(direction: Direction) -> u8
    ensures { result ≡ atoms_told direction }
{
    match direction {
        Direction::Send { atoms, .. } | Direction::Always { atoms } => atoms,
        Direction::Recv { .. } | Direction::OnNack(_) | Direction::OnEnd(_) | Direction::Never => 0,
    }
}
