//! What a search reads of its own row, and does with it alone.

ghost use Rattle.std.specs.Prelude.{◌<◌, ℕ, IfNone, IfSome, MatchBool};
ghost use Rattle.protocol_values.specs.declared.Direction.{Direction};
ghost use Rattle.cell.specs.Calls.{IsPassOf, IsRowOf, KeepsResults};
ghost use Rattle.cell_table.specs.Nacks.{CanStandAlone};
ghost use Rattle.cell_table.specs.Sight.{Has, SawCommitted, SeesDirection};
ghost use Rattle.meet_scan.specs.Leaving.{AreRead};
ghost use Rattle.meet_scan.specs.Searches.{FoundAt, Grows, LacksAt, Leaves, Lists};
ghost use Rattle.meet_scan.specs.Steps.{OnlyLooks, SearchMade, found_or_left};

use crate::found::Found;
use cell::{Cells, Grant, Pass};
use protocol_ledger::Resident;
use protocol_values::{Cell, Direction, Row};

/// The directions of the opened row's offers, in their order.
pub fn own_directions<M: Resident>(
    cells: &Cells<M>,
    pass: &mut Pass<M>,
    row: Row,
) -> [Option<Direction>; 8]
    requires here { IsPassOf cells.now pass.old × IsRowOf cells.now row }
    requires opened { Has pass.old.seen.opened row }
    ensures here { IsPassOf cells.now pass.new }
    ensures grows { Grows pass.old.seen pass.new.seen }
    ensures looks { OnlyLooks pass.old pass.new }
    ensures seen { (n : ℕ) (d : Direction) → Lists result n d → SeesDirection pass.new.seen row n d }
    ensures read { AreRead pass.new.seen row result }
    ensures whole { (n : ℕ) (d : Direction) → SeesDirection pass.old.seen row n d → Lists result n d }
    ensures short { (n : ℕ) → LacksAt result n → (k : ℕ) (d : Direction) → SeesDirection pass.old.seen row k d → k < n }
{
    let mut directions = [None; 8];
    for n in 0..8 {
        let Some(direction) = cells.direction(pass, row, n) else {
            return directions;
        };
        directions[usize::from(n)] = Some(direction);
    }
    directions
}

/// Grants one's own row, where its offer lets it be committed alone.
pub fn commit_alone<M: Resident>(
    cells: &Cells<M>,
    pass: &mut Pass<M>,
    mine: (Row, u8),
) -> Option<Found>
    requires here { IsPassOf cells.now pass.old × IsRowOf cells.now mine.0 }
    requires held { Has pass.old.seen.held mine.0 }
    ensures here { IsPassOf cells.now pass.new }
    ensures grows { Grows pass.old.seen pass.new.seen }
    ensures found { IfSome result (FoundAt pass.new.seen mine.0) }
    ensures none { IfNone result (¬ CanStandAlone pass.old.seen mine.0 mine.1) }
    ensures made { SearchMade mine.0 (found_or_left result) pass.old.made pass.new.made }
    ensures results { KeepsResults pass.old pass.new }
{
    match cells.grant(pass, mine.0, mine.1) {
        Grant::Given => Some(Found::Alone),
        Grant::NotEnabled => None,
        Grant::Late => Some(Found::Already),
    }
}

/// Leaves the row to others, where none has committed it yet.
#[inline(always)]
pub fn leave<M: Resident>(cells: &Cells<M>, pass: &mut Pass<M>, row: Row) -> Found
    requires here { IsPassOf cells.now pass.old × IsRowOf cells.now row }
    ensures here { IsPassOf cells.now pass.new }
    ensures grows { Grows pass.old.seen pass.new.seen }
    ensures looks { OnlyLooks pass.old pass.new }
    ensures left { Leaves pass.old.seen pass.new.seen row result }
{
    if saw_committed(cells, pass, row) {
        Found::Already
    } else {
        Found::Waits
    }
}

/// Whether the row is seen committed. Not where it is no row of the table.
pub fn saw_committed<M: Resident>(cells: &Cells<M>, pass: &mut Pass<M>, row: Row) -> bool
    requires here { IsPassOf cells.now pass.old }
    ensures here { IsPassOf cells.now pass.new }
    ensures grows { Grows pass.old.seen pass.new.seen }
    ensures looks { OnlyLooks pass.old pass.new }
    ensures committed { MatchBool result (SawCommitted pass.new.seen row) (IsRowOf cells.now row → ¬ SawCommitted pass.old.seen row) }
{
    if !cells.has(row) {
        return false;
    }
    match cells.look(pass, row) {
        Cell::Synched(_) | Cell::Taken(_) => true,
        Cell::Fresh | Cell::Waiting | Cell::Claimed => false,
    }
}
