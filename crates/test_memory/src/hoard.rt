//! Nearly all memory that the process can get, held back, so that a call runs out of it.
//!
//! A hoard is a list of blocks that nobody writes to. They are asked for in sizes that halve, each as often
//! as it is granted: first the address space of the process goes, in some thousand large blocks of which the
//! system gives no page but the first, and then what is left between them. After that each further request
//! is refused. Some blocks that were taken before, and are given back then, are what the program still has.
//!
//! Each thread asks a part of the C library's heap of its own, and only then the one of the first thread. So
//! three threads take all there is at once: two that end then, whose parts two later threads get, and the one
//! that the calls are made in. What the program still has is of the first thread's part, which all may ask.
//!
//! It rests on the C library's allocator: that a freed block is given out again, that a block below 128 KiB
//! stays with the process when it is freed, that blocks of at most 1,032 bytes go to lists by their size when
//! they are freed, and on the parts of its heap. Where that is not so, a call meets a refusal at fewer places
//! or never comes to its answer, and no answer is wrong.

use std::alloc::{AllocError, Global};
use std::sync::atomic::{AtomicUsize, Ordering};
use std::thread;
use std::thread::{Threads, join};

/// What the program still has: so many blocks of so many bytes. Freed blocks in the lists by size, at most 7 of
/// each of 64 sizes, part it into pieces; one of them is always larger than what a call needs.
const SLACK_BLOCKS: usize = 1_024;

const SLACK_BLOCK: usize = 65_536;

/// The most blocks that one thread holds all the time, or while memory is scarce.
const MOST_BLOCKS: usize = 65_536;

/// How many threads take memory at once, and how often one of them looks whether the others have come.
const TAKERS: usize = 3;

const LOOKS: u32 = 1_000_000;

/// The largest size that is asked for, and how often it is halved, down to 2 KiB.
const LARGEST: usize = 1 << 46;

const HALVINGS: usize = 36;

/// The largest size that is asked for of what the program has, and how often it is halved, down to 2 KiB.
const LARGEST_FILLING: usize = 1 << 22;

const FILLING_HALVINGS: usize = 12;

/// The largest size of which the C library keeps freed blocks in a list, and how many such sizes there are.
const LARGEST_LISTED: usize = 1_032;

const LISTED_SIZES: usize = 64;

/// A size of which it does not.
const NOT_LISTED: usize = 1_040;

/// What the program still has, once all else is held. It has to be made in the first thread.
#[derive(Drop)]
pub(crate) struct Slack {
    blocks: Vec<Vec<u8>>,
}

impl Slack {
    pub(crate) fn new(alloc: Global) -> Result<Slack, AllocError> {
        let mut blocks = Vec::with_capacity(alloc, SLACK_BLOCKS)?;
        for _ in 0..SLACK_BLOCKS {
            blocks.push(Vec::<u8>::with_capacity(alloc, SLACK_BLOCK)?)?;
        }
        Ok(Slack { blocks })
    }
}

#[derive(Drop)]
pub(crate) struct Hoard {
    alloc: Global,
    held: [Vec<Vec<u8>>; TAKERS],
    filling: Vec<Vec<u8>>,
}

impl Hoard {
    /// Takes what there is, and gives the slack free.
    pub(crate) fn new<R: AllocGlobal + Threads>(rt: &R, slack: Slack) -> Result<Hoard, AllocError> {
        let alloc = rt.alloc();
        let filling = Vec::with_capacity(alloc, MOST_BLOCKS)?;
        let first = Vec::with_capacity(alloc, MOST_BLOCKS)?;
        let second = Vec::with_capacity(alloc, MOST_BLOCKS)?;
        let third = Vec::with_capacity(alloc, MOST_BLOCKS)?;
        let come = AtomicUsize::new(0);
        let (first, (second, third)) = join(
            rt,
            || take_everything(alloc, first, &come),
            || {
                join(
                    rt,
                    || take_everything(alloc, second, &come),
                    || take_everything(alloc, third, &come),
                )
            },
        );
        drop(slack);
        Ok(Hoard {
            alloc,
            held: [first, second, third],
            filling,
        })
    }

    /// Leaves about so many bytes, in one piece.
    pub(crate) fn leave(&mut self, amount: usize) -> Result<(), AllocError> {
        let all = Vec::<u8>::with_capacity(self.alloc, amount.saturating_add(NOT_LISTED))?;
        take_all(
            self.alloc,
            LARGEST_FILLING,
            FILLING_HALVINGS,
            &mut self.filling,
        );
        // The piece is cut from a larger one: a small one that is freed would go to the list of its size.
        drop(all);
        let rest = Vec::with_capacity(self.alloc, NOT_LISTED)?;
        self.filling.push(rest)?;
        Ok(())
    }

    /// Memory is ample again.
    pub(crate) fn release(&mut self) {
        self.filling.clear();
    }
}

/// Waits for the other threads, and takes all that is granted, with them.
fn take_everything(alloc: Global, blocks: Vec<Vec<u8>>, come: &AtomicUsize) -> Vec<Vec<u8>> {
    let mut blocks = blocks;
    // With its first block the thread gets a part of the heap.
    take_one(alloc, NOT_LISTED, &mut blocks);
    come.fetch_add(1, Ordering::SeqCst);
    for _ in 0..LOOKS {
        if come.load(Ordering::SeqCst) >= TAKERS {
            break;
        }
        thread::yield_now();
    }
    take_all(alloc, LARGEST, HALVINGS, &mut blocks);
    blocks
}

/// Blocks of so many bytes, of half as many, and so on, and then of each listed size, each as often as it is
/// granted.
fn take_all(alloc: Global, largest: usize, halvings: usize, blocks: &mut Vec<Vec<u8>>) {
    let mut size = largest;
    for _ in 0..halvings {
        take(alloc, size, blocks);
        size /= 2;
    }
    size = LARGEST_LISTED;
    for _ in 0..LISTED_SIZES {
        take(alloc, size, blocks);
        size = size.saturating_sub(16);
    }
}

/// Blocks of one size, as many as are granted and the list has room for.
fn take(alloc: Global, size: usize, blocks: &mut Vec<Vec<u8>>) {
    for _ in blocks.len()..blocks.capacity() {
        if !take_one(alloc, size, blocks) {
            return;
        }
    }
}

/// A block, if it is granted.
fn take_one(alloc: Global, size: usize, blocks: &mut Vec<Vec<u8>>) -> bool {
    match Vec::with_capacity(alloc, size) {
        Ok(block) => blocks.push(block).is_ok(),
        Err(_) => false,
    }
}
