//! The scan of the directory: every row that one's own can meet is looked at, whatever the queues show.

ghost use Rattle.std.specs.Prelude.{◌≡◌, ◌≢◌, ◌<◌, ◌≤◌, ℕ, IfNone, IfSome, IsTrue, Some};
ghost use Rattle.cell_table.specs.Nacks.{CanStandAlone};
ghost use Rattle.cell.specs.Calls.{IsPassOf, IsRowOf, KeepsResults};
ghost use Rattle.cell_table.specs.Sight.{Coherent, Has, HaveDirection};
ghost use Rattle.cell_table.specs.declared.view.Seen.{Seen};
ghost use Rattle.meet_directory.specs.Directory.{NoPairMissed, Offered, Published};
ghost use Rattle.meet_directory.specs.Seats.{Sits};
ghost use Rattle.meet_directory.specs.declared.view.View.{View};
ghost use Rattle.meet_scan.specs.Leaving.{ArePublished, AreRead, CannotPass, ComesTo, IsDoneWith, IsHeldUp, IsHeldUpBy, IsLeft, IsLeftFor, IsLeftRow, IsTried, KnowsMore, MeetsAt, MeetsNone, MeetsOnly, NoPairLeft, NobodyLeft, PassedBy, ScansTo, TriesFirst, sides_of};
ghost use Rattle.meet_scan.specs.Searches.{Finds, FoundAt, Grows, StandsByNone};
ghost use Rattle.meet_scan.specs.Steps.{OnlyLooks, SearchMade, found_or_left};

use crate::found::Found;
use crate::own::{commit_alone, leave, own_directions};
use cell::{Attempt, Cells, Pass, StepGate};
use meet_directory::{Directory, DirectoryPass, next_thread};
use protocol_ledger::Resident;
use protocol_values::{Cell, Direction, Row};

/// The first offer of an opened row that meets one in this direction.
#[inline(always)]
fn meeting_offer<M: Resident>(
    cells: &Cells<M>,
    pass: &mut Pass<M>,
    row: Row,
    direction: Direction,
) -> Option<u8>
    requires here { IsPassOf cells.now pass.old × IsRowOf cells.now row }
    requires opened { Has pass.old.seen.opened row }
    ensures here { IsPassOf cells.now pass.new }
    ensures grows { Grows pass.old.seen pass.new.seen }
    ensures looks { OnlyLooks pass.old pass.new }
    ensures some { IfSome result (MeetsAt pass.new.seen row direction) }
    ensures none { IfNone result (MeetsNone pass.new.seen row direction) }
{
    for n in 0..8 {
        if direction.meets(cells.direction(pass, row, n)?) {
            return Some(n);
        }
    }
    None
}

/// Tries to meet the row, under the first offer of it that meets one's own. None: it was claimed.
#[inline(always)]
fn scan_row<G: StepGate, M: Resident>(
    cells: &Cells<M>,
    pass: &mut Pass<M>,
    gate: &G,
    mine: (Row, u8),
    direction: Direction,
    other: Row,
) -> Option<Found>
    requires here { IsPassOf cells.now pass.old × IsRowOf cells.now mine.0 × IsRowOf cells.now other }
    requires opened { Has pass.old.seen.held mine.0 × Has pass.old.seen.opened mine.0 }
    requires read { HaveDirection pass.old.seen.words mine.0 mine.1 direction }
    requires apart { mine.0.thread ≢ other.thread }
    ensures here { IsPassOf cells.now pass.new }
    ensures grows { Grows pass.old.seen pass.new.seen }
    ensures results { KeepsResults pass.old pass.new }
    ensures made { SearchMade mine.0 (found_or_left result) pass.old.made pass.new.made }
    ensures found { IfSome result (ComesTo pass.new.seen mine.0 (PassedBy pass.new.seen other direction × Has pass.new.seen.opened other)) }
    ensures only { IfSome result (MeetsOnly other.thread) }
    ensures again { IfNone result (CannotPass cells.now pass.old.seen pass.new.seen mine.0 other) }
{
    match cells.look(pass, other) {
        Cell::Synched(_) | Cell::Taken(_) => Some(Found::Waits),
        // who published it had opened it, so it is found so
        Cell::Fresh => None,
        Cell::Waiting | Cell::Claimed => {
            let Some(partner) = meeting_offer(cells, pass, other, direction) else {
                return Some(Found::Waits);
            };
            match cells.attempt(pass, gate, mine.0, mine.1, other, partner) {
                Attempt::Met(_) => Some(Found::Met(other)),
                Attempt::Mine => Some(Found::Already),
                Attempt::Gone => Some(Found::Waits),
                Attempt::Busy => None,
                Attempt::Unfit => unreachable!(),
            }
        }
    }
}

/// Tries to meet the thread's newest row. None: it was claimed.
#[inline(always)]
fn scan_thread<G: StepGate, M: Resident>(
    directory: &Directory,
    scan: &mut DirectoryPass,
    cells: &Cells<M>,
    pass: &mut Pass<M>,
    gate: &G,
    mine: (Row, u8),
    direction: Direction,
    sides: (u32, u32),
    other: u8,
) -> Option<Found>
    requires here { IsPassOf cells.now pass.old × IsRowOf cells.now mine.0 }
    requires opened { Has pass.old.seen.held mine.0 × Has pass.old.seen.opened mine.0 }
    requires read { HaveDirection pass.old.seen.words mine.0 mine.1 direction }
    requires sits { Sits directory.now scan.old }
    requires other { (other < 64) × (mine.0.thread ≢ other) }
    requires published { Published scan.old.me.0.marks mine.0.thread mine.0.sync sides.0 }
    ensures here { IsPassOf cells.now pass.new }
    ensures grows { Grows pass.old.seen pass.new.seen }
    ensures results { KeepsResults pass.old pass.new }
    ensures sits { Sits directory.now scan.new }
    ensures more { KnowsMore scan.old.me.0 scan.new.me.0 }
    ensures made { SearchMade mine.0 (found_or_left result) pass.old.made pass.new.made }
    ensures found { IfSome result (ComesTo pass.new.seen mine.0 (IsDoneWith scan.new.me.0 pass.new.seen mine.0 direction sides.0 sides.1 other)) }
    ensures only { IfSome result (MeetsOnly other) }
    ensures again { IfNone result (IsHeldUpBy cells.now scan.new.me.0 pass.old.seen pass.new.seen mine.0 other) }
{
    let count = directory.scan_newest(scan, other);
    if count == 0 {
        return Some(Found::Waits);
    }
    if count > 4294967296 {
        return None;
    }
    let newest = Row {
        thread: other,
        sync: (count - 1) as u32,
    };
    // who published it had it of the table, so it is of it
    if !cells.has(newest) {
        return None;
    }
    scan_row(cells, pass, gate, mine, direction, newest)
}

/// Tries to meet the newest row of each thread that has ever offered on the opposite side. None: one was claimed, and
/// the others came to nothing.
fn scan_side<G: StepGate, M: Resident>(
    directory: &Directory,
    scan: &mut DirectoryPass,
    cells: &Cells<M>,
    pass: &mut Pass<M>,
    gate: &G,
    mine: (Row, u8),
    direction: Direction,
    sides: (u32, u32),
) -> Option<Found>
    requires here { IsPassOf cells.now pass.old × IsRowOf cells.now mine.0 }
    requires opened { Has pass.old.seen.held mine.0 × Has pass.old.seen.opened mine.0 }
    requires read { HaveDirection pass.old.seen.words mine.0 mine.1 direction }
    requires sits { Sits directory.now scan.old }
    requires side { sides.1 < directory.now.sides }
    requires published { Published scan.old.me.0.marks mine.0.thread mine.0.sync sides.0 }
    ensures here { IsPassOf cells.now pass.new }
    ensures grows { Grows pass.old.seen pass.new.seen }
    ensures results { KeepsResults pass.old pass.new }
    ensures sits { Sits directory.now scan.new }
    ensures more { KnowsMore scan.old.me.0 scan.new.me.0 }
    ensures made { SearchMade mine.0 (found_or_left result) pass.old.made pass.new.made }
    ensures found { IfSome result (ComesTo pass.new.seen mine.0 (IsLeft scan.new.me.0 pass.new.seen mine.0 direction sides.0 sides.1)) }
    ensures again { IfNone result (IsHeldUp cells.now scan.new.me.0 pass.old.seen pass.new.seen mine.0) }
{
    let word = directory.scan_side(scan, sides.1);
    let mut is_claimed = false;
    let mut from = 0;
    while let Some(other) = next_thread(word, from) {
        from = other + 1;
        if other == mine.0.thread {
            continue;
        }
        match scan_thread(
            directory, scan, cells, pass, gate, mine, direction, sides, other,
        ) {
            Some(Found::Waits) => continue,
            Some(Found::Met(other)) => return Some(Found::Met(other)),
            Some(Found::Alone) => return Some(Found::Alone),
            Some(Found::Already) => return Some(Found::Already),
            None => {
                is_claimed = true;
                continue;
            }
        }
    }
    (!is_claimed).then_some(Found::Waits)
}

/// The side of an offer in this direction, and the opposite one.
fn sides(direction: Direction) -> Option<(u32, u32)>
    ensures { result ≡ sides_of direction }
{
    match direction {
        Direction::Send { chan, .. } => Some((2 * u32::from(chan), 2 * u32::from(chan) + 1)),
        Direction::Recv { chan } => Some((2 * u32::from(chan) + 1, 2 * u32::from(chan))),
        Direction::Never | Direction::Always { .. } | Direction::OnNack(_) | Direction::OnEnd(_) =>
            None,
    }
}

/// Publishes an opened row, with all its offers.
pub fn publish(
    directory: &Directory,
    scan: &mut DirectoryPass,
    row: Row,
    directions: &[Option<Direction>; 8],
)
    requires sits { Sits directory.now scan.old }
    requires all { (row.thread < 64) × (512 ≤ directory.now.sides) }
    ensures sits { Sits directory.now scan.new }
    ensures more { KnowsMore scan.old.me.0 scan.new.me.0 }
    ensures out { ArePublished scan.new.me.0.marks row directions.now }
{
    directory.open(scan, row.thread, row.sync);
    for n in 0..8_usize {
        if let Some(direction) = directions[n] {
            offer(directory, scan, row.thread, direction);
        }
    }
}

/// Puts the thread on the side of an offer in this direction, if it has one.
fn offer(directory: &Directory, scan: &mut DirectoryPass, thread: u8, direction: Direction)
    requires sits { Sits directory.now scan.old }
    requires all { (thread < 64) × (512 ≤ directory.now.sides) }
    ensures sits { Sits directory.now scan.new }
    ensures more { KnowsMore scan.old.me.0 scan.new.me.0 }
    ensures offered { (l m : ℕ) → sides_of direction ≡ Some (l, m) → Offered scan.new.me.0.marks thread l }
{
    if let Some(own) = sides(direction) {
        directory.offer(scan, thread, own.0);
    }
}

/// Looks for what one offer of the published row can be committed with, alone too if so asked. None: a row was claimed that
/// it may meet.
fn scan_offer<G: StepGate, M: Resident>(
    directory: &Directory,
    scan: &mut DirectoryPass,
    cells: &Cells<M>,
    pass: &mut Pass<M>,
    gate: &G,
    mine: (Row, u8),
    direction: Direction,
    alone: bool,
) -> Option<Found>
    requires here { IsPassOf cells.now pass.old × IsRowOf cells.now mine.0 }
    requires opened { Has pass.old.seen.held mine.0 × Has pass.old.seen.opened mine.0 }
    requires read { HaveDirection pass.old.seen.words mine.0 mine.1 direction }
    requires sits { Sits directory.now scan.old × (512 ≤ directory.now.sides) }
    requires published { (l m : ℕ) → sides_of direction ≡ Some (l, m) → Published scan.old.me.0.marks mine.0.thread mine.0.sync l }
    ensures here { IsPassOf cells.now pass.new }
    ensures grows { Grows pass.old.seen pass.new.seen }
    ensures results { KeepsResults pass.old pass.new }
    ensures sits { Sits directory.now scan.new }
    ensures more { KnowsMore scan.old.me.0 scan.new.me.0 }
    ensures made { SearchMade mine.0 (found_or_left result) pass.old.made pass.new.made }
    ensures found { IfSome result (ComesTo pass.new.seen mine.0 (IsLeftFor scan.new.me.0 pass.new.seen mine.0 direction × (IsTrue alone → ¬ CanStandAlone pass.old.seen mine.0 mine.1))) }
    ensures again { IfNone result (IsHeldUp cells.now scan.new.me.0 pass.old.seen pass.new.seen mine.0) }
{
    match sides(direction) {
        Some(both) => scan_side(directory, scan, cells, pass, gate, mine, direction, both),
        None if alone => Some(commit_alone(cells, pass, mine).unwrap_or(Found::Waits)),
        None => Some(Found::Waits),
    }
}

/// Looks, offer by offer, for what the published row can be committed with, alone too if so asked. None: a row was claimed
/// that it may meet, and nothing came of the others.
pub fn scan_offers<G: StepGate, M: Resident>(
    directory: &Directory,
    scan: &mut DirectoryPass,
    cells: &Cells<M>,
    pass: &mut Pass<M>,
    gate: &G,
    row: Row,
    directions: &[Option<Direction>; 8],
    alone: bool,
) -> Option<Found>
    requires here { IsPassOf cells.now pass.old × IsRowOf cells.now row }
    requires opened { Has pass.old.seen.held row × Has pass.old.seen.opened row }
    requires read { AreRead pass.old.seen row directions.now }
    requires sits { Sits directory.now scan.old × (512 ≤ directory.now.sides) }
    requires out { ArePublished scan.old.me.0.marks row directions.now }
    ensures here { IsPassOf cells.now pass.new }
    ensures grows { Grows pass.old.seen pass.new.seen }
    ensures results { KeepsResults pass.old pass.new }
    ensures sits { Sits directory.now scan.new }
    ensures more { KnowsMore scan.old.me.0 scan.new.me.0 }
    ensures made { SearchMade row (found_or_left result) pass.old.made pass.new.made }
    ensures found { IfSome result (ComesTo pass.new.seen row (IsLeftRow scan.new.me.0 pass.new.seen row × (IsTrue alone → StandsByNone pass.old.seen row directions.now))) }
    ensures again { IfNone result (IsHeldUp cells.now scan.new.me.0 pass.old.seen pass.new.seen row) }
{
    let mut is_claimed = false;
    for n in 0..8 {
        let Some(direction) = directions[usize::from(n)] else {
            return (!is_claimed).then_some(Found::Waits);
        };
        match scan_offer(
            directory,
            scan,
            cells,
            pass,
            gate,
            (row, n),
            direction,
            alone,
        ) {
            Some(Found::Waits) => continue,
            Some(Found::Met(other)) => return Some(Found::Met(other)),
            Some(Found::Alone) => return Some(Found::Alone),
            Some(Found::Already) => return Some(Found::Already),
            None => {
                is_claimed = true;
                continue;
            }
        }
    }
    (!is_claimed).then_some(Found::Waits)
}

/// Tries to meet the newest row of this other thread by each offer of the published row. None: nothing came of it.
#[inline(never)]
fn scan_wished<G: StepGate, M: Resident>(
    directory: &Directory,
    scan: &mut DirectoryPass,
    cells: &Cells<M>,
    pass: &mut Pass<M>,
    gate: &G,
    row: Row,
    directions: &[Option<Direction>; 8],
    first: u8,
) -> Option<Found>
    requires here { IsPassOf cells.now pass.old × IsRowOf cells.now row }
    requires opened { Has pass.old.seen.held row × Has pass.old.seen.opened row }
    requires read { AreRead pass.old.seen row directions.now }
    requires sits { Sits directory.now scan.old }
    requires out { ArePublished scan.old.me.0.marks row directions.now }
    requires other { (first < 64) × (row.thread ≢ first) }
    ensures here { IsPassOf cells.now pass.new }
    ensures grows { Grows pass.old.seen pass.new.seen }
    ensures results { KeepsResults pass.old pass.new }
    ensures sits { Sits directory.now scan.new }
    ensures more { KnowsMore scan.old.me.0 scan.new.me.0 }
    ensures made { SearchMade row (found_or_left result) pass.old.made pass.new.made }
    ensures found { IfSome result (FoundAt pass.new.seen row) }
    ensures only { IfSome result (MeetsOnly first) }
    ensures tried { IfNone result (IsTried cells.now scan.new.me.0 pass.old.seen pass.new.seen row first) }
{
    for n in 0..8 {
        let Some(direction) = directions[usize::from(n)] else {
            return None;
        };
        let Some(both) = sides(direction) else {
            continue;
        };
        match scan_thread(
            directory,
            scan,
            cells,
            pass,
            gate,
            (row, n),
            direction,
            both,
            first,
        ) {
            Some(Found::Waits) => continue,
            Some(Found::Met(other)) => return Some(Found::Met(other)),
            Some(Found::Alone) => return Some(Found::Alone),
            Some(Found::Already) => return Some(Found::Already),
            None => continue,
        }
    }
    None
}

/// Tries to meet the newest row of thread `first`, if there is such a thread and it is not the row's own. None: nothing
/// came of it.
#[inline(always)]
fn scan_first<G: StepGate, M: Resident>(
    directory: &Directory,
    scan: &mut DirectoryPass,
    cells: &Cells<M>,
    pass: &mut Pass<M>,
    gate: &G,
    row: Row,
    directions: &[Option<Direction>; 8],
    first: u8,
) -> Option<Found>
    requires here { IsPassOf cells.now pass.old × IsRowOf cells.now row }
    requires opened { Has pass.old.seen.held row × Has pass.old.seen.opened row }
    requires read { AreRead pass.old.seen row directions.now }
    requires sits { Sits directory.now scan.old }
    requires out { ArePublished scan.old.me.0.marks row directions.now }
    ensures here { IsPassOf cells.now pass.new }
    ensures grows { Grows pass.old.seen pass.new.seen }
    ensures results { KeepsResults pass.old pass.new }
    ensures sits { Sits directory.now scan.new }
    ensures more { KnowsMore scan.old.me.0 scan.new.me.0 }
    ensures made { SearchMade row (found_or_left result) pass.old.made pass.new.made }
    ensures found { IfSome result (FoundAt pass.new.seen row) }
    ensures only { IfSome result (MeetsOnly first) }
    ensures tried { IfNone result (IsTried cells.now scan.new.me.0 pass.old.seen pass.new.seen row first) }
{
    if first >= 64 || first == row.thread {
        return None;
    }
    scan_wished(directory, scan, cells, pass, gate, row, directions, first)
}

/// As `scan_offers`, but the newest row of thread `first` is tried before all others.
fn scan_from<G: StepGate, M: Resident>(
    directory: &Directory,
    scan: &mut DirectoryPass,
    cells: &Cells<M>,
    pass: &mut Pass<M>,
    gate: &G,
    row: Row,
    directions: &[Option<Direction>; 8],
    first: u8,
    alone: bool,
) -> Option<Found>
    requires here { IsPassOf cells.now pass.old × IsRowOf cells.now row }
    requires opened { Has pass.old.seen.held row × Has pass.old.seen.opened row }
    requires read { AreRead pass.old.seen row directions.now }
    requires sits { Sits directory.now scan.old × (512 ≤ directory.now.sides) }
    requires out { ArePublished scan.old.me.0.marks row directions.now }
    ensures here { IsPassOf cells.now pass.new }
    ensures grows { Grows pass.old.seen pass.new.seen }
    ensures results { KeepsResults pass.old pass.new }
    ensures sits { Sits directory.now scan.new }
    ensures more { KnowsMore scan.old.me.0 scan.new.me.0 }
    ensures made { SearchMade row (found_or_left result) pass.old.made pass.new.made }
    ensures found { IfSome result (ComesTo pass.new.seen row (IsLeftRow scan.new.me.0 pass.new.seen row × (IsTrue alone → StandsByNone pass.old.seen row directions.now))) }
    ensures first { IfSome result (TriesFirst cells.now scan.new.me.0 pass.old.seen pass.new.seen row first) }
    ensures again { IfNone result (IsHeldUp cells.now scan.new.me.0 pass.old.seen pass.new.seen row) }
{
    match scan_first(directory, scan, cells, pass, gate, row, directions, first) {
        Some(found) => Some(found),
        None => scan_offers(directory, scan, cells, pass, gate, row, directions, alone),
    }
}

/// Searches for a row that this one can meet, by the directory alone, and waits for nobody: it publishes the row, and
/// looks once at each row that it may meet, at that of thread `first` before all others; where the table has no such thread,
/// or it is the row's own, none goes before. None: one of them was claimed, and the search is to be made again. Its caller
/// has a scheduler of his own.
///
/// An offer that needs no partner is granted only if so asked: else it is left to a grant of the caller's own.
pub fn search_once<G: StepGate, M: Resident>(
    directory: &Directory,
    scan: &mut DirectoryPass,
    cells: &Cells<M>,
    pass: &mut Pass<M>,
    gate: &G,
    row: Row,
    first: u8,
    alone: bool,
) -> Option<Found>
    requires here { IsPassOf cells.now pass.old × IsRowOf cells.now row }
    requires opened { Has pass.old.seen.held row × Has pass.old.seen.opened row }
    requires sits { Sits directory.now scan.old × (512 ≤ directory.now.sides) }
    ensures here { IsPassOf cells.now pass.new }
    ensures grows { Grows pass.old.seen pass.new.seen }
    ensures results { KeepsResults pass.old pass.new }
    ensures sits { Sits directory.now scan.new }
    ensures more { KnowsMore scan.old.me.0 scan.new.me.0 }
    ensures made { SearchMade row (found_or_left result) pass.old.made pass.new.made }
    ensures found { IfSome result (ScansTo scan.new.me.0 pass.old.seen pass.new.seen row) }
    ensures alone { IsTrue alone → IfSome result (Finds pass.old.seen pass.new.seen row) }
    ensures first { IfSome result (TriesFirst cells.now scan.new.me.0 pass.old.seen pass.new.seen row first) }
    ensures again { IfNone result (IsHeldUp cells.now scan.new.me.0 pass.old.seen pass.new.seen row) }
{
    let directions = own_directions(cells, pass, row);
    cells.has_few_threads();
    publish(directory, scan, row, &directions);
    match scan_from(
        directory,
        scan,
        cells,
        pass,
        gate,
        row,
        &directions,
        first,
        alone,
    )? {
        Found::Waits => Some(leave(cells, pass, row)),
        found => Some(found),
    }
}

/// Of two threads that offer events that meet, and whose searches have both come to an end, one has been committed:
/// whoever was told all that the two searches saw, at the directory and in the table, has seen that one of the two rows
/// is committed, or was taken.
pub fn nobody_is_left()
    ensures { (threads rows : ℕ) (v : View) (s : Seen) → NoPairMissed v → Coherent threads rows s → NobodyLeft v s × NoPairLeft v s }
{}
