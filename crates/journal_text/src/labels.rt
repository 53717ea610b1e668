//! The names that a script declares, as they are written.

ghost use Rattle.std.specs.Prelude.{◌≡◌, ◌≤◌, ◌-◌, IfOk, drop, length};
ghost use Rattle.std.specs.List.{AllByRecursion};
ghost use Rattle.std.proofs.Props.{props};
ghost use Rattle.script_reader.specs.Places.{texts};
ghost use Rattle.journal_text.specs.Blocks.{AreEnds};
ghost use Rattle.journal_text.specs.Names.{AreWithin};

use crate::names::{channel_names, thread_names};
use script::Script;
use std::alloc::{AllocError, Global};

/// How many bytes of a name are copied at once.
pub(crate) const BLOCK: usize = 32;

/// The bytes of a block, behind which a name ends that is not longer.
pub(crate) type Block = [u8; BLOCK];

/// Names by their numbers, with a block for each, none of them longer than the longest, which is that of a block at least.
#[derive(Drop)]
pub(crate) struct Labels<'a> {
    pub(crate) threads: Vec<&'a str>,
    pub(crate) channels: Vec<&'a str>,
    pub(crate) thread_blocks: Vec<Block>,
    pub(crate) channel_blocks: Vec<Block>,
    pub(crate) longest: usize,
    ghost threads_fit: { AreWithin longest (texts threads.items) } by { Prim.hlevel props },
    ghost channels_fit: { AreWithin longest (texts channels.items) } by { Prim.hlevel props },
    ghost threads_end: { AreEnds (texts threads.items) thread_blocks.items } by { Prim.hlevel props },
    ghost channels_end: { AreEnds (texts channels.items) channel_blocks.items } by { Prim.hlevel props },
    ghost block_fits: { 32 ≤ longest } by { Prim.hlevel props },
}

/// The length of the longest name, and that of a block where all are shorter.
fn longest(names: &[&str]) -> usize
    ensures fit { AreWithin result (texts names.now) }
    ensures block { 32 ≤ result }
{
    let mut longest = BLOCK;
    for name in names {
        if name.len() > longest {
            longest = name.len();
        }
    }
    longest
}

/// A block that ends with the name, where that is not longer.
fn block_of(name: &[u8]) -> Block
    ensures { length name.now ≤ 32 → drop (32 - length name.now) result ≡ name.now }
{
    let mut block = [0; BLOCK];
    if name.len() <= BLOCK {
        block[BLOCK - name.len()..].copy_from_slice(name);
    }
    block
}

/// A block for each name.
fn blocks(alloc: Global, names: &[&str]) -> Result<Vec<Block>, AllocError>
    ensures { IfOk result (λ blocks. AreEnds (texts names.now) blocks.items) }
{
    let mut blocks = Vec::new(alloc);
    for name in names {
        blocks.push(block_of(name.as_bytes()))?;
    }
    Ok(blocks)
}

impl Labels<'_> {
    ghost use Rattle.journal_text.specs.Labels.{labelled};
    ghost use Rattle.journal_text.specs.Names.{names_of};
    ghost use Rattle.script.specs.Scripts.{script_of};

    pub(crate) fn new<'a>(alloc: Global, script: &'a Script) -> Result<Labels<'a>, AllocError>
        ensures { IfOk result (λ labels. labelled labels ≡ names_of (script_of script.now)) }
    {
        let threads = thread_names(alloc, script)?;
        let channels = channel_names(alloc, script)?;
        let longest = longest(&threads).max(longest(&channels));
        let thread_blocks = blocks(alloc, &threads)?;
        let channel_blocks = blocks(alloc, &channels)?;
        Ok(Labels {
            threads,
            channels,
            thread_blocks,
            channel_blocks,
            longest,
        })
    }
}
