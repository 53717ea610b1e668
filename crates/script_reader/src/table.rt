//! Names, each with its number, in the order in which they came.

ghost use Rattle.std.specs.Prelude.{◌≡◌, ◌≤◌, ℕ, ◌+◌, List, [], ◌∷◌, ◌++◌, length, None, IfOk, OnOk};
ghost use Rattle.std.specs.BTreeMap.{get_by};
ghost use Rattle.std.specs.Cmp.Lexicographic.{slice_cmp};
ghost use Rattle.std.specs.Ordering.{nat_cmp};
ghost use Rattle.script_reader.specs.Places.{texts};
ghost use Rattle.script_grammar.specs.Meaning.{place};

use std::alloc::{AllocError, Global};
use std::collections::BTreeMap;

/// Names that are all different. The first has the number 0.
#[derive(Drop)]
pub struct Table<'a> {
    names: Vec<&'a str>,
    numbers: BTreeMap<&'a str, usize>,
    ghost linked: { (name : List ℕ) → get_by (λ k. slice_cmp nat_cmp name k.now) numbers ≡ place name (texts names.items) },
}

impl<'a> Table<'a> {
    pub fn new(alloc: Global) -> Table<'a>
        ensures { result.names.items ≡ [] }
    {
        Table {
            names: Vec::new(alloc),
            numbers: BTreeMap::new(alloc),
        }
    }

    pub fn len(&self) -> usize
        ensures { result ≡ length (texts self.now.names.items) }
    {
        self.names.len()
    }

    /// The number of a name, if it is one of these.
    pub fn number(&self, name: &str) -> Option<usize>
        ensures { result ≡ place name.now (texts self.now.names.items) }
    {
        self.numbers.get(name).copied()
    }

    /// Appends a name.
    pub fn add(&mut self, name: &'a str) -> Result<(), AllocError>
        requires { place name.now (texts self.old.names.items) ≡ None }
        ensures value { OnOk result (texts self.new.names.items ≡ texts self.old.names.items ++ name.now ∷ []) }
        ensures count { length (texts self.new.names.items) ≤ length (texts self.old.names.items) + 1 }
    {
        self.names.reserve(1)?;
        self.numbers.insert(name, self.names.len())?;
        self.names.push(name)?;
        Ok(())
    }

    /// The names themselves.
    pub fn names(&self, alloc: Global) -> Result<Vec<&'a str>, AllocError>
        ensures { IfOk result (λ names. names.items ≡ self.now.names.items) }
    {
        Vec::from_slice(alloc, &self.names)
    }
}
