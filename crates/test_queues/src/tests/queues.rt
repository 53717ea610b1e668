//! Queues with their ends, and the calls that the tests repeat.

ghost use Rattle.std.specs.Prelude.{◌≡◌, ◌+◌, ◌<◌, All, IfOk, length};
ghost use Rattle.meet_queues.specs.Ends.{IsEndOf};

use meet_queues::{Ready, ReadyEnd};
use protocol_values::Row;
use std::alloc::{AllocError, Global};
use std::ops::Range;
use std::sync::Wait;

/// The row of this number.
pub(super) fn row(number: u16) -> Row {
    Row {
        thread: (number % 64) as u8,
        sync: u32::from(number / 64),
    }
}

/// The number of this row.
pub(super) fn number(row: Row) -> usize {
    usize::from(row.thread) + 64 * row.sync as usize
}

/// Takes the last end.
pub(super) fn last(ready: &Ready, ends: &mut Vec<ReadyEnd>) -> ReadyEnd
    requires some { 0 < length ends.old.items }
    requires ends { All (IsEndOf ready.now) ends.old.items }
    ensures count { length ends.old.items ≡ length ends.new.items + 1 }
    ensures ends { All (IsEndOf ready.now) ends.new.items }
    ensures here { IsEndOf ready.now result }
{
    let Some(end) = ends.pop() else {
        unreachable!()
    };
    end
}

/// Queues with one end.
pub(super) fn alone(alloc: Global) -> Result<(Ready, ReadyEnd), AllocError>
    ensures { IfOk result (λ r. IsEndOf r.0 r.1) }
{
    let (ready, mut ends) = Ready::new(alloc, 1)?;
    let end = last(&ready, &mut ends);
    Ok((ready, end))
}

/// Puts the row. Whether it was put.
pub(super) fn put<R: Wait>(rt: &R, ready: &Ready, end: &mut ReadyEnd, row: Row) -> bool
    requires { IsEndOf ready.now end.old }
    ensures { IsEndOf ready.now end.new }
{
    end.count() < u64::MAX && ready.put(rt, end, row).is_ok()
}

/// Puts the rows of these numbers, in order. Whether all were put.
pub(super) fn put_rows<R: Wait>(
    rt: &R,
    ready: &Ready,
    end: &mut ReadyEnd,
    numbers: Range<u16>,
) -> bool
    requires { IsEndOf ready.now end.old }
    ensures { IsEndOf ready.now end.new }
{
    for number in numbers {
        if !put(rt, ready, end, row(number)) {
            return false;
        }
    }
    true
}

/// Gets rows until there are none: their numbers, in the order in which they came.
pub(super) fn get_rows<R: Wait>(
    rt: &R,
    alloc: Global,
    ready: &Ready,
    end: &mut ReadyEnd,
) -> Result<Vec<usize>, AllocError>
    requires { IsEndOf ready.now end.old }
    ensures { IsEndOf ready.now end.new }
{
    let mut numbers = Vec::new(alloc);
    for _ in rt.forever() {
        let Some(row) = ready.get(rt, end) else {
            return Ok(numbers);
        };
        numbers.push(number(row))?;
    }
    unreachable!()
}
