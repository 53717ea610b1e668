//! One function for each atomic step.

ghost use Rattle.std.specs.Prelude.{◌≡◌, ◌⊎◌, ◌+◌, ◌<◌, ◌≤◌, ◌↔◌, ◌^◌, ℕ, [], ◌∷◌, ◌++◌, IfOk, IsTrue, List, MatchOption, length};
ghost use lib.ListN.{get_elem?};
ghost use mathlib.Core.Option.{some};
ghost use Rattle.atomic_table.specs.Table.{State};
ghost use Rattle.meet_directory.specs.declared.view.View.{View};
ghost use Rattle.meet_directory.specs.declared.view.Glimpse.{Glimpse};
ghost use Rattle.meet_directory.specs.Directory.{Coherent, Has, HasBit, IsNextBit, NoBitBetween, NoPairMissed, NothingOverlooked, Offered, OneSaw, heard, marked, nothing, saw};
ghost use Rattle.meet_directory.specs.Seats.{Sits};

use crate::directory::{Directory, DirectoryPass, Law};
use crate::plays::{Enter, Glance, Mark, See, Tell};
use crate::view::View;
use atomic_table::{Table, TableRule};
use std::alloc::{AllocError, Global};
use std::vec::Vec;

/// The words that count rows come first, one for each of the most threads that there may be.
const THREADS: usize = 64;

impl Directory {
    /// A directory of so many sides, where nobody has opened a row or offered, and its first pass.
    pub fn new(alloc: Global, sides: u32) -> Result<(Directory, DirectoryPass), AllocError>
        ensures directory { IfOk result (λ r. r.0.sides ≡ sides) }
        ensures pass { IfOk result (λ r. Sits r.0 r.1 × (r.1.me.0 ≡ nothing)) }
    {
        let words = Vec::from_elem(alloc, 0_u64, THREADS + sides as usize)?;
        let slots: Vec<()> = Vec::new(alloc);
        let sides = u64::from(sides);
        match Table::new(alloc, words.as_slice(), slots, &sides) {
            Ok((words, pass)) => Ok((Directory { words, sides }, pass)),
            Err(_) => Err(AllocError),
        }
    }

    /// Another pass, which knows of nothing.
    pub fn another(&self, pass: &mut DirectoryPass) -> DirectoryPass
        requires sits { Sits self.now pass.old }
        ensures sits { Sits self.now pass.new × (pass.new.id ≡ pass.old.id) × (pass.new.me ≡ pass.old.me) }
        ensures new { Sits self.now result × (result.me.0 ≡ nothing) }
    {
        self.words.shared.split_seat::<Enter>(pass)
    }

    /// The thread has opened this row, and those before it.
    pub fn open(&self, pass: &mut DirectoryPass, thread: u8, row: u32)
        requires sits { Sits self.now pass.old }
        requires thread { thread < 64 }
        ensures sits { Sits self.now pass.new × (pass.new.id ≡ pass.old.id) }
        ensures opened { pass.new.me.0 ≡ marked thread (row + 1) pass.old.me.0 }
    {
        let _ = self
            .words
            .shared
            .fetch_max::<Mark>(pass, usize::from(thread), u64::from(row) + 1);
    }

    /// The thread offers on the side. Where it has done so before, one load is all.
    pub fn offer(&self, pass: &mut DirectoryPass, thread: u8, side: u32)
        requires sits { Sits self.now pass.old }
        requires thread { thread < 64 }
        requires side { side < self.now.sides }
        ensures sits { Sits self.now pass.new × (pass.new.id ≡ pass.old.id) }
        ensures offered { Offered pass.new.me.0.marks thread side }
        ensures looks { (a : Glimpse) → Has pass.old.me.0.looks a → Has pass.new.me.0.looks a }
        ensures marks { (m : ℕ × ℕ) → Has pass.old.me.0.marks m → Has pass.new.me.0.marks m }
    {
        let word = THREADS + side as usize;
        let found = self.words.shared.load::<See>(pass, word);
        if !has_bit(found, thread) {
            let _ = self
                .words
                .shared
                .fetch_or::<Mark>(pass, word, bit_of(thread));
        }
    }

    /// Which threads have ever offered on the side.
    pub fn scan_side(&self, pass: &mut DirectoryPass, side: u32) -> u64
        requires sits { Sits self.now pass.old }
        requires side { side < self.now.sides }
        ensures sits { Sits self.now pass.new × (pass.new.id ≡ pass.old.id) }
        ensures saw { pass.new.me.0 ≡ saw (64 + side) result pass.old.me.0 }
    {
        self.words.shared.load::<See>(pass, THREADS + side as usize)
    }

    /// How many rows the thread has opened.
    pub fn scan_newest(&self, pass: &mut DirectoryPass, thread: u8) -> u64
        requires sits { Sits self.now pass.old }
        requires thread { thread < 64 }
        ensures sits { Sits self.now pass.new × (pass.new.id ≡ pass.old.id) }
        ensures saw { pass.new.me.0 ≡ saw thread result pass.old.me.0 }
    {
        self.words.shared.load::<See>(pass, usize::from(thread))
    }

    /// What `from` knows, `to` knows from now on; and of two rows that were published and then looked for each other,
    /// both of which it knows of, it knows that one saw the other.
    pub fn tell(&self, from: &mut DirectoryPass, to: &mut DirectoryPass)
        requires sits { Sits self.now from.old × Sits self.now to.old }
        ensures sits { Sits self.now from.new × Sits self.now to.new × (from.new.id ≡ from.old.id) × (to.new.id ≡ to.old.id) }
        ensures from { from.new.me ≡ from.old.me }
        ensures looks { (a : Glimpse) → Has from.old.me.0.looks a ⊎ Has to.old.me.0.looks a → Has to.new.me.0.looks a }
        ensures marks { (m : ℕ × ℕ) → Has from.old.me.0.marks m ⊎ Has to.old.me.0.marks m → Has to.new.me.0.marks m }
        ensures no_pair_missed { NoPairMissed to.new.me.0 }
        ensures nothing_overlooked { NothingOverlooked to.new.me.0 }
    {
        let told = self.words.shared.split_seat::<Tell>(from);
        self.words.shared.join_seat::<Tell>(to, told);
        self.words.shared.load::<Glance>(to, 0);
    }
}

// the bit of the thread
fn bit_of(thread: u8) -> u64
    requires { thread < 64 }
    ensures { result ≡ 2 ^ thread }
{
    1 << thread
}

// whether the bit of the thread is set
fn has_bit(word: u64, thread: u8) -> bool
    requires { thread < 64 }
    ensures { IsTrue result ↔ HasBit word thread }
{
    word >> thread & 1 == 1
}

/// The first thread from this one on whose bit is set, of a side's word.
pub fn next_thread(word: u64, from: u8) -> Option<u8>
    requires { from ≤ 64 }
    ensures { MatchOption result (NoBitBetween word from 64) (IsNextBit word from) }
{
    if from == 64 {
        return None;
    }
    let rest = word >> from;
    if rest == 0 {
        return None;
    }
    Some(from + rest.trailing_zeros() as u8)
}

/// What the rule of the directory says of any moment between two atomic steps: of any two looks of any two passes, one saw
/// what the other pass had written before its look.
pub fn one_saw_the_other()
    ensures { (sides : ℕ) (s : State (Unit {0}) View) → ⟦<Law as TableRule<(), View, u64>>⟧.holds sides s → (i j : ℕ) (u v : View) (a b : Glimpse) → get_elem? s.views i ≡ some u → get_elem? s.views j ≡ some v → Has u.looks a → Has v.looks b → OneSaw a b }
{}
