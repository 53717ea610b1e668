//! Lanes with their passes, and the calls that the tests repeat.

ghost use Rattle.std.specs.Prelude.{◌≡◌, ◌+◌, ◌<◌, All, IfOk, length};
ghost use Rattle.meet_queues.specs.Lanes.{IsLanePassOf};

use meet_queues::{Lane, LanePass};
use protocol_values::Row;
use std::alloc::{AllocError, Global};
use std::ops::Range;
use std::sync::Wait;

/// The row of this number.
pub(super) fn row(number: u16) -> Row {
    Row {
        thread: (number % 64) as u8,
        sync: u32::from(number / 64),
    }
}

/// The number of this row.
pub(super) fn number(row: Row) -> usize {
    usize::from(row.thread) + 64 * row.sync as usize
}

/// Takes the last pass.
pub(super) fn last(lane: &Lane, passes: &mut Vec<LanePass>) -> LanePass
    requires some { 0 < length passes.old.items }
    requires passes { All (IsLanePassOf lane.now) passes.old.items }
    ensures count { length passes.old.items ≡ length passes.new.items + 1 }
    ensures passes { All (IsLanePassOf lane.now) passes.new.items }
    ensures here { IsLanePassOf lane.now result }
{
    let Some(pass) = passes.pop() else {
        unreachable!()
    };
    pass
}

/// A lane with two passes.
pub(super) fn pair(alloc: Global) -> Result<(Lane, LanePass, LanePass), AllocError>
    ensures { IfOk result (λ r. IsLanePassOf r.0 r.1 × IsLanePassOf r.0 r.2) }
{
    let (lane, mut passes) = Lane::new(alloc, 2)?;
    let second = last(&lane, &mut passes);
    let first = last(&lane, &mut passes);
    Ok((lane, first, second))
}

/// Puts the offer of the row. Whether it was put.
pub(super) fn put<R: Wait>(rt: &R, lane: &Lane, pass: &mut LanePass, row: Row, n: u8) -> bool
    requires { IsLanePassOf lane.now pass.old }
    ensures { IsLanePassOf lane.now pass.new }
{
    pass.count() < u64::MAX && lane.put(rt, pass, row, n).is_ok()
}

/// Puts the rows of these numbers, in order. Whether all were put.
pub(super) fn put_rows<R: Wait>(
    rt: &R,
    lane: &Lane,
    pass: &mut LanePass,
    numbers: Range<u16>,
) -> bool
    requires { IsLanePassOf lane.now pass.old }
    ensures { IsLanePassOf lane.now pass.new }
{
    for number in numbers {
        if !put(rt, lane, pass, row(number), 0) {
            return false;
        }
    }
    true
}

/// Takes rows until there are none: their numbers, in the order in which they came.
pub(super) fn take_rows<R: Wait>(
    rt: &R,
    alloc: Global,
    lane: &Lane,
    pass: &mut LanePass,
) -> Result<Vec<usize>, AllocError>
    requires { IsLanePassOf lane.now pass.old }
    ensures { IsLanePassOf lane.now pass.new }
{
    let mut numbers = Vec::new(alloc);
    for _ in rt.forever() {
        let Some((row, _)) = lane.take_front(rt, pass) else {
            return Ok(numbers);
        };
        numbers.push(number(row))?;
    }
    unreachable!()
}
