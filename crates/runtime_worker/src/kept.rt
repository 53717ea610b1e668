//! The rows that a worker keeps for its next turns.

ghost use Rattle.std.specs.Prelude.{◌≡◌, ◌<◌, ◌≤◌, ◌↔◌, [], ◌∷◌, ◌++◌, IsTrue, drop, length, slice_get};

use protocol_values::Row;
use std::marker::Model;

/// How many rows are kept at most. A script has as many threads at most, each with one row that is ready.
pub(crate) const MOST_KEPT: usize = 64;

/// Rows that are ready, in a ring: the first that was put in is the first that is taken out.
#[derive(Drop)]
pub(crate) struct Kept {
    rows: [Row; MOST_KEPT],
    oldest: usize,
    count: usize,
}

// Clauses see the rows, the oldest first.
impl Model for Kept {
    ghost use Rattle.std.specs.Prelude.{◌≡◌, ◌<◌, ◌≤◌, List, length};
    ghost use Rattle.protocol_values.specs.declared.Row.{Row};
    ghost use Rattle.runtime_worker.specs.Windows.{window};

    ghost Value = { List Row };

    ghost view = { λ k. window k.oldest k.count k.rows };

    ghost invariant = { λ k. (k.oldest < 64) × (k.count ≤ 64) × (length k.rows ≡ 64) };
}

impl Kept {
    /// No row.
    pub(crate) fn new() -> Kept
        ensures { result ≡ [] }
    {
        Kept {
            rows: [Row { thread: 0, sync: 0 }; MOST_KEPT],
            oldest: 0,
            count: 0,
        }
    }

    /// How many rows are kept.
    #[inline(always)]
    pub(crate) fn len(&self) -> usize
        ensures { result ≡ length self.now }
    {
        self.count
    }

    /// Whether there is no room for one more.
    #[inline(always)]
    pub(crate) fn is_full(&self) -> bool
        ensures full { IsTrue result ↔ (length self.now ≡ 64) }
        ensures within { length self.now ≤ 64 }
    {
        self.count == MOST_KEPT
    }

    /// Puts the row behind the others.
    #[inline(always)]
    pub(crate) fn push(&mut self, row: Row)
        requires { length self.old < 64 }
        ensures { self.new ≡ self.old ++ row ∷ [] }
    {
        self.rows[(self.oldest + self.count) % MOST_KEPT] = row;
        self.count += 1;
    }

    /// Takes out the oldest row.
    #[inline(always)]
    pub(crate) fn pop(&mut self) -> Option<Row>
        ensures oldest { result ≡ slice_get self.old 0 }
        ensures rest { self.new ≡ drop 1 self.old }
    {
        if self.count == 0 {
            return None;
        }
        let row = self.rows[self.oldest];
        self.oldest = (self.oldest + 1) % MOST_KEPT;
        self.count -= 1;
        Some(row)
    }
}
