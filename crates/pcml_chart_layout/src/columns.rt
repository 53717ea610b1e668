//! The columns: one of its own for each process that has one, and behind these one for all others.

ghost use Rattle.std.specs.Prelude.{◌≡◌, ◌≤◌, length, map};
ghost use Rattle.std.specs.List.{range_with_len};
ghost use Rattle.pcml_chart_layout.specs.Places.{column, owners};

use crate::places::{column, owners};
use std::alloc::{AllocError, Global};

/// Which processes have a column of their own, how many these are, and the column of each process.
#[derive(Drop)]
pub struct Columns<'a> {
    own: &'a [bool],
    owning: usize,
    places: Vec<usize>,
    ghost few: { length own.now ≤ 64 },
    ghost counted: { owning ≡ owners own.now },
    ghost placed: { places.items ≡ map (column own.now) (range_with_len 0 (length own.now)) },
}

impl<'a> Columns<'a> {
    ghost use Rattle.std.specs.Prelude.{◌+◌, IfOk};
    ghost use Rattle.pcml_chart_layout.specs.Places.{columns, has_others, is_own, others_column};

    pub fn new(alloc: Global, own: &'a [bool]) -> Result<Columns<'a>, AllocError>
        requires { length own.now ≤ 64 }
        ensures { IfOk result (λ made. made.own.now ≡ own.now) }
    {
        let mut places = Vec::with_capacity(alloc, own.len())?;
        for thread in 0..own.len() {
            places.push(column(own, thread))?;
        }
        Ok(Columns {
            own,
            owning: owners(own),
            places,
        })
    }

    /// How many processes there are.
    pub fn processes(&self) -> usize
        ensures { result ≡ length self.now.own.now }
    {
        self.own.len()
    }

    /// How many processes have a column of their own.
    pub(crate) fn owners(&self) -> usize
        ensures value { result ≡ owners self.now.own.now }
        ensures few { result ≤ 64 }
    {
        self.owning
    }

    /// Whether the process has.
    pub fn is_own(&self, thread: usize) -> bool
        ensures { result ≡ is_own self.now.own.now thread }
    {
        crate::places::is_own(self.own, thread)
    }

    /// Whether there are others, which share the last column.
    pub fn has_others(&self) -> bool
        ensures { result ≡ has_others self.now.own.now }
    {
        self.owning < self.own.len()
    }

    /// The column of the others.
    pub fn others(&self) -> usize
        ensures { result ≡ others_column self.now.own.now }
    {
        self.owning + 1
    }

    pub(crate) fn count(&self) -> usize
        ensures { result ≡ columns self.now.own.now }
    {
        if self.has_others() {
            self.owning + 1
        } else {
            self.owning
        }
    }

    /// The column of the process, from 1 on.
    pub fn of(&self, thread: u8) -> usize
        ensures value { result ≡ column self.now.own.now thread }
        ensures within { result ≤ owners self.now.own.now + 1 }
    {
        let place = usize::from(thread);
        if place < self.places.len() {
            self.places[place]
        } else {
            self.others()
        }
    }
}
