//! What a hand reads of the table.

ghost use Rattle.std.specs.Prelude.{◌≡◌};
ghost use Rattle.cell_hand.specs.Calls.{Answers, Bounds, Courses, Looks, Reads, Results};

use crate::hand::Hand;
use crate::refusal::Refusal;
use protocol_values::{Cell, Course, Joined, Message, NackName, Offer, Row};

impl Hand {
    /// The row's cell.
    pub fn look(&mut self, row: Row) -> Result<Cell, Refusal>
        ensures { Looks self.old self.new row result }
    {
        if !self.table.cells.has(row) {
            return Err(Refusal::NoRow);
        }
        Ok(self.table.cells.look(&mut self.pass, row))
    }

    /// Where the thread is on its course.
    pub fn course(&mut self, thread: u8) -> Result<Course, Refusal>
        ensures { Courses self.old self.new thread result }
    {
        if !self.table.cells.has(Row { thread, sync: 0 }) {
            return Err(Refusal::NoRow);
        }
        Ok(self.table.cells.course(&mut self.pass, thread))
    }

    /// The row and the scope to which the nack is bound.
    pub fn bound(&mut self, nack: NackName) -> Option<(Row, u8)>
        ensures { Bounds self.old self.new nack result }
    {
        self.table.cells.bound(&mut self.pass, nack)
    }

    /// Offer n of the row: none where the row is not opened, or has no offer n.
    pub fn offer(&mut self, row: Row, n: u8) -> Result<Option<Offer>, Refusal>
        ensures { Reads self.old self.new row n result }
    {
        if !self.table.cells.has(row) {
            return Err(Refusal::NoRow);
        }
        Ok(self.table.cells.offer(&mut self.pass, row, n))
    }

    /// What the row's thread gets: none where the row is not committed.
    pub fn result(&mut self, row: Row) -> Result<Option<Message>, Refusal>
        ensures { Results self.old self.new row result }
    {
        if !self.table.cells.has(row) {
            return Err(Refusal::NoRow);
        }
        Ok(self.table.cells.result(&mut self.pass, row))
    }

    /// How the row was committed, and what its thread gets: none where it is not committed.
    pub fn answer(&mut self, row: Row) -> Result<Option<(Joined, Message)>, Refusal>
        ensures { Answers self.old self.new row result }
    {
        if !self.table.cells.has(row) {
            return Err(Refusal::NoRow);
        }
        let Some(joined) = self.table.cells.look(&mut self.pass, row).joined() else {
            return Ok(None);
        };
        let Some(message) = self.table.cells.result(&mut self.pass, row) else {
            unreachable!()
        };
        Ok(Some((joined, message)))
    }
}
