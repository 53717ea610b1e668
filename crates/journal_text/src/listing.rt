//! Names that are found by their text in one step: the bytes of a name come to one of some slots, and
//! the names of a slot are chained.

ghost use Rattle.std.specs.Prelude.{◌≡◌, ◌<◌, ◌≤◌, IfOk, length};
ghost use Rattle.std.proofs.Props.{props};
ghost use Rattle.script_reader.specs.Places.{texts};
ghost use Rattle.script_grammar.specs.Meaning.{place};
ghost use Rattle.journal_text.specs.Slots.{hash_step, hash_of, slot_of, AreHeads, AreLinks, AreApart};

use std::alloc::{AllocError, Global};

const SLOTS: usize = 1024;

/// Odd, and near the golden part of 2^64: it spreads hashes that differ in their low bits alone.
const SPREAD: u64 = 11_400_714_819_323_198_485;

/// The hash with one more byte.
#[inline(always)]
pub(crate) fn next_hash(hash: u64, byte: u8) -> u64
    ensures { result ≡ hash_step hash byte }
{
    hash.wrapping_mul(8).wrapping_add(u64::from(byte))
}

/// A text that may be a name, and its hash.
#[derive(Clone, Copy)]
pub(crate) struct Word<'a> {
    pub(crate) text: &'a [u8],
    pub(crate) hash: u64,
    ghost hashed: { hash ≡ hash_of text.now },
}

impl<'a> Word<'a> {
    fn new(text: &'a [u8]) -> Word<'a>
        ensures { result.text.now ≡ text.now }
    {
        let mut hash = 0;
        for byte in text {
            hash = next_hash(hash, *byte);
        }
        Word { text, hash }
    }

    #[inline(always)]
    #[tactic(auto, unfolding(crate::specs::Slots::slot_at))]
    fn slot(self) -> usize
        ensures value { result ≡ slot_of self.entry.text.now }
        ensures small { result < 1024 }
    {
        (self.hash.wrapping_mul(SPREAD) >> 54) as usize
    }
}

/// Names that are all different, by their numbers.
#[derive(Drop)]
pub(crate) struct Listing<'a> {
    pub(crate) names: Vec<&'a str>,
    /// The last name of each slot, counted from 1.
    heads: Vec<u16>,
    /// Of each name the one before it in its slot, counted from 1.
    links: Vec<u16>,
    ghost few: { length names.items ≤ 256 },
    ghost apart: { AreApart (texts names.items) } by { Prim.hlevel props },
    ghost headed: { AreHeads (texts names.items) (length names.items) heads.items } by { Prim.hlevel props },
    ghost linked: { AreLinks (texts names.items) (length names.items) links.items } by { Prim.hlevel props },
}

impl<'a> Listing<'a> {
    pub(crate) fn new(alloc: Global, names: Vec<&'a str>) -> Result<Listing<'a>, AllocError>
        requires few { length names.items ≤ 256 }
        requires apart { AreApart (texts names.items) }
        ensures { IfOk result (λ listing. listing.names.items ≡ names.entry.items) }
    {
        let mut heads = vec![in alloc; 0u16; SLOTS]?;
        let mut links = Vec::with_capacity(alloc, names.len())?;
        for (number, name) in names.iter().enumerate() {
            let slot = Word::new(name.as_bytes()).slot();
            links.push(heads[slot])?;
            heads[slot] = number as u16 + 1;
        }
        Ok(Listing {
            names,
            heads,
            links,
        })
    }

    /// The number of the name with this text.
    #[inline(always)]
    pub(crate) fn number(&self, word: Word<'_>) -> Option<u8>
        ensures { result ≡ place word.entry.text.now (texts self.now.names.items) }
    {
        let mut next = self.heads[word.slot()];
        while next > 0 {
            let number = usize::from(next) - 1;
            if self.names[number].as_bytes() == word.text {
                return Some(number as u8);
            }
            next = self.links[number];
        }
        None
    }
}
