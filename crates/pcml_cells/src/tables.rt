//! Tables: begun, left, ended.

ghost use Rattle.std.specs.Prelude.{◌≡◌, ◌≢◌, ◌⊎◌, ℕ, IfOk, None, Some, length, map, slice_get};
ghost use Rattle.pcml_cells.specs.declared.handle.Handle.{Handle as HandleOf};
ghost use Rattle.cell_hand.specs.declared.kept.Kept.TheVariants.{Hand as ByHand};
ghost use Rattle.cell_hand.specs.Calls.{CanDeal};
ghost use Rattle.pcml_cells.specs.Answers.{AreDealt, AreWritten, Closed, Lists, ListsOf};

use crate::handle::Handle;
use crate::numbers::{CLOSED, EMPTY, RANGE, refused};
use cell_hand::{Hand, Kept, Refusal};
use plain_values::PlainCommit;
use protocol_values::Commit;
use std::alloc::{AllocError, Global};

/// A table of 1 to 64 threads of 1 to 1024 rows, with as many passes as there are handles, 1 to 16. The threads of the mask
/// `later` wait to be started. Where it is refused, no handle changes.
#[unsafe(no_mangle)]
pub extern "C" fn pcml_cells_new(
    alloc: Global,
    threads: u32,
    rows: u32,
    later: u64,
    passes: &mut [Handle],
) -> u32
    ensures dealt { result ≡ 0 → AreDealt threads rows 8 later passes.new }
    ensures refused { result ≢ 0 → (passes.new ≡ passes.old) × ((result ≡ 17) ⊎ ((result ≡ 18) × (¬ CanDeal threads rows 8 (length passes.old)))) }
{
    pcml_cells_new_short(alloc, threads, rows, 8, later, passes)
}

/// A table as by `pcml_cells_new`, whose rows have room for 1 to 8 offers: a row takes 2 words, and 4 for each.
#[unsafe(no_mangle)]
pub extern "C" fn pcml_cells_new_short(
    alloc: Global,
    threads: u32,
    rows: u32,
    offers: u32,
    later: u64,
    passes: &mut [Handle],
) -> u32
    ensures dealt { result ≡ 0 → AreDealt threads rows offers later passes.new }
    ensures refused { result ≢ 0 → (passes.new ≡ passes.old) × ((result ≡ 17) ⊎ ((result ≡ 18) × (¬ CanDeal threads rows offers (length passes.old)))) }
{
    if threads > 64 {
        return RANGE;
    }
    if rows > 1024 {
        return RANGE;
    }
    if offers > 8 {
        return RANGE;
    }
    if passes.len() > 16 {
        return RANGE;
    }
    let count = passes.len() as u8;
    let hands = match Hand::deal(
        alloc,
        threads as u8,
        rows as u16,
        offers as u8,
        later,
        count,
    ) {
        Ok(hands) => hands,
        Err(refusal) => return refused(refusal),
    };
    let Ok(boxes) = boxes_of(alloc, hands) else {
        return refused(Refusal::Memory);
    };
    keep_all(passes, boxes);
    0
}

/// Each hand in a box of its own.
fn boxes_of(alloc: Global, hands: Vec<Hand>) -> Result<Vec<Box<Kept>>, AllocError>
    ensures { IfOk result (λ boxes. map (λ b. b.value) boxes.items ≡ map ByHand hands.items) }
{
    let mut boxes = Vec::with_capacity(alloc, hands.len())?;
    for hand in hands {
        let Ok(kept) = Box::new(alloc, Kept::Hand(hand)) else {
            return Err(AllocError);
        };
        boxes.push(kept)?;
    }
    Ok(boxes)
}

/// Each handle keeps the box at its place, and what it kept before goes.
fn keep_all(passes: &mut [Handle], boxes: Vec<Box<Kept>>)
    requires count { length boxes.items ≡ length passes.old }
    ensures count { length passes.new ≡ length passes.old }
    ensures kept { (n : ℕ) (place : HandleOf) → slice_get passes.new n ≡ Some place → place.kept ≡ slice_get (map (λ b. b.value) boxes.items) n }
{
    let mut rest = boxes.into_iter();
    for n in 0..passes.len() {
        let Some(kept) = rest.next() else {
            unreachable!()
        };
        passes[n].keep(kept);
    }
}

/// The pass goes. The last one takes the table with it.
#[unsafe(no_mangle)]
pub extern "C" fn pcml_pass_free(alloc: Global, pass: &mut Handle)
    ensures { pass.new.kept ≡ None }
{
    drop(pass.take(alloc));
}

/// Ends the table by its last pass, which keeps the ledger from now on. Where others are left, nothing changes. It needs no
/// memory.
#[unsafe(no_mangle)]
pub extern "C" fn pcml_close(alloc: Global, pass: &mut Handle) -> u32
    ensures { Closed pass.old.kept pass.new.kept result }
{
    let Some(mut kept) = pass.take(alloc) else {
        return EMPTY;
    };
    let (after, answer) = match std::mem::replace(&mut *kept, Kept::Nothing) {
        Kept::Hand(hand) => match hand.close() {
            Ok(ledger) => (Kept::Ledger(ledger), 0),
            Err(hand) => (Kept::Hand(hand), refused(Refusal::Shared)),
        },
        Kept::Ledger(ledger) => (Kept::Ledger(ledger), CLOSED),
        Kept::Nothing => (Kept::Nothing, EMPTY),
    };
    *kept = after;
    pass.keep(kept);
    answer
}

/// Writes the commits of an ended table in their order, as many as there is room for, and how many there are. Where memory
/// is refused, the pass keeps the ledger.
#[unsafe(no_mangle)]
pub extern "C" fn pcml_commits(
    alloc: Global,
    pass: &mut Handle,
    commits: &mut [PlainCommit],
    count: &mut usize,
) -> u32
    ensures listed { Lists pass.old.kept commits.new count.new result }
    ensures same { pass.new.kept ≡ pass.old.kept }
    ensures untouched { result ≢ 0 → (commits.new ≡ commits.old) × (count.new ≡ count.old) }
{
    let Some(kept) = pass.take(alloc) else {
        return EMPTY;
    };
    let answer = list(&kept, commits, count);
    pass.keep(kept);
    answer
}

fn list(kept: &Kept, commits: &mut [PlainCommit], count: &mut usize) -> u32
    ensures listed { ListsOf kept.now commits.new count.new result }
    ensures untouched { result ≢ 0 → (commits.new ≡ commits.old) × (count.new ≡ count.old) }
{
    match kept {
        Kept::Hand(_) => refused(Refusal::Shared),
        Kept::Ledger(ledger) => match ledger.commits() {
            Ok(all) => {
                write_commits(&all, commits);
                *count = all.len();
                0
            }
            Err(_) => refused(Refusal::Memory),
        },
        Kept::Nothing => EMPTY,
    }
}

/// As many as there is room for.
fn write_commits(all: &[Commit], commits: &mut [PlainCommit])
    ensures { AreWritten all.now commits.new }
{
    let most = commits.len().min(all.len());
    for n in 0..most {
        commits[n] = PlainCommit::of(all[n]);
    }
}
