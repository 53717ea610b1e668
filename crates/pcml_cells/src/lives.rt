//! Threads start and end.

ghost use Rattle.std.specs.Prelude.{◌≡◌, min};
ghost use Rattle.plain_values.specs.Plain.{row_in};
ghost use Rattle.cell_hand.specs.Calls.{Finishes, Starts};
ghost use Rattle.pcml_cells.specs.Answers.{Does, Numbered, Told, done_number, first_number};

use crate::handle::Handle;
use crate::numbers::{CLOSED, EMPTY, done, first, small};
use cell_hand::Kept;
use plain_values::PlainRow;
use std::alloc::Global;

/// Starts a thread from a held row of another one that is not opened. 0 started by this call, 1 before.
#[unsafe(no_mangle)]
pub extern "C" fn pcml_start(alloc: Global, pass: &mut Handle, row: PlainRow, thread: u32) -> u32
    ensures { Told pass.old.kept pass.new.kept result (λ h k. Numbered first_number (Starts h k (row_in row) (min thread 255)) result) }
{
    let Some(mut kept) = pass.take(alloc) else {
        return EMPTY;
    };
    let answer = start(&mut kept, row, thread);
    pass.keep(kept);
    answer
}

fn start(kept: &mut Kept, row: PlainRow, thread: u32) -> u32
    ensures { Does kept.old kept.new result (λ h k. Numbered first_number (Starts h k (row_in row) (min thread 255)) result) }
{
    match kept {
        Kept::Hand(hand) => first(hand.start(row.read(), small(thread))),
        Kept::Ledger(_) => CLOSED,
        Kept::Nothing => EMPTY,
    }
}

/// Ends the thread of a held row that is not opened.
#[unsafe(no_mangle)]
pub extern "C" fn pcml_finish(alloc: Global, pass: &mut Handle, row: PlainRow) -> u32
    ensures { Told pass.old.kept pass.new.kept result (λ h k. Numbered done_number (Finishes h k (row_in row)) result) }
{
    let Some(mut kept) = pass.take(alloc) else {
        return EMPTY;
    };
    let answer = finish(&mut kept, row);
    pass.keep(kept);
    answer
}

fn finish(kept: &mut Kept, row: PlainRow) -> u32
    ensures { Does kept.old kept.new result (λ h k. Numbered done_number (Finishes h k (row_in row)) result) }
{
    match kept {
        Kept::Hand(hand) => done(hand.finish(row.read())),
        Kept::Ledger(_) => CLOSED,
        Kept::Nothing => EMPTY,
    }
}
