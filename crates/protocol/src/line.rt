//! The lines of a schedule's text, each read from the front of the bytes.

ghost use Rattle.digits.specs.Reading.{Gives, number_at};
ghost use Rattle.protocol.specs.Reading.{sync_at, row_at, stand_at, placed_at, draft_at, read_at, join_at, grant_at, bind_at, start_at, finish_at, row_step_at, step_at, step_line_at, seats_at, world_line_at};

use crate::Size;
use digits::{count, number};
use protocol_values::{Row, Seat, Step};

const LINE_END: u8 = b'\n';

fn byte_number(bytes: &[u8], limit: u8, end: u8) -> Option<(u8, &[u8])>
    ensures { Gives (λ x. (x.0, x.1.now)) result (number_at limit end bytes.now) }
{
    let (value, rest) = number(bytes, u64::from(limit), end)?;
    Some((value as u8, rest))
}

/// A thread, a point, and a sync up to the last.
#[tactic(auto, unfolding(crate::specs::Reading::sync_at))]
fn sync_of(bytes: &[u8], last: u16, end: u8) -> Option<(Row, &[u8])>
    ensures { Gives (λ x. (x.0, x.1.now)) result (sync_at last end bytes.now) }
{
    let (thread, rest) = byte_number(bytes, 63, b'.')?;
    let (sync, rest) = number(rest, u64::from(last), end)?;
    let row = Row {
        thread,
        sync: sync as u32,
    };
    Some((row, rest))
}

fn row_of(bytes: &[u8], end: u8) -> Option<(Row, &[u8])>
    ensures { Gives (λ x. (x.0, x.1.now)) result (row_at end bytes.now) }
{
    sync_of(bytes, 1023, end)
}

/// Where a thread stands: one of its rows, or the one behind its last.
fn stand(bytes: &[u8], end: u8) -> Option<(Row, &[u8])>
    ensures { Gives (λ x. (x.0, x.1.now)) result (stand_at end bytes.now) }
{
    sync_of(bytes, 1024, end)
}

/// A row and a number behind it.
#[tactic(auto, unfolding(crate::specs::Reading::placed_at))]
fn placed(bytes: &[u8], limit: u8, end: u8) -> Option<((Row, u8), &[u8])>
    ensures { Gives (λ x. (x.0, x.1.now)) result (placed_at limit end bytes.now) }
{
    let (row, rest) = row_of(bytes, b' ')?;
    let (place, rest) = byte_number(rest, limit, end)?;
    Some(((row, place), rest))
}

#[tactic(auto, unfolding(crate::specs::Reading::draft_at))]
fn draft(bytes: &[u8]) -> Option<(Step, &[u8])>
    ensures { Gives (λ x. (x.0, x.1.now)) result (draft_at bytes.now) }
{
    let ((row, place), rest) = placed(bytes, 33, b' ')?;
    let (value, rest) = number(rest, u64::MAX, LINE_END)?;
    Some((Step::Draft { row, place, value }, rest))
}

#[tactic(auto, unfolding(crate::specs::Reading::read_at))]
fn read(bytes: &[u8]) -> Option<(Step, &[u8])>
    ensures { Gives (λ x. (x.0, x.1.now)) result (read_at bytes.now) }
{
    let ((row, place), rest) = placed(bytes, 33, LINE_END)?;
    Some((Step::Read { row, place }, rest))
}

#[tactic(auto, unfolding(crate::specs::Reading::join_at))]
fn join(bytes: &[u8]) -> Option<(Step, &[u8])>
    ensures { Gives (λ x. (x.0, x.1.now)) result (join_at bytes.now) }
{
    let ((mine, own), rest) = placed(bytes, 7, b' ')?;
    let ((other, partner), rest) = placed(rest, 7, LINE_END)?;
    let step = Step::Join {
        mine,
        own,
        other,
        partner,
    };
    Some((step, rest))
}

#[tactic(auto, unfolding(crate::specs::Reading::grant_at))]
fn grant(bytes: &[u8]) -> Option<(Step, &[u8])>
    ensures { Gives (λ x. (x.0, x.1.now)) result (grant_at bytes.now) }
{
    let ((row, offer), rest) = placed(bytes, 7, LINE_END)?;
    Some((Step::Grant { row, offer }, rest))
}

#[tactic(auto, unfolding(crate::specs::Reading::bind_at))]
fn bind(bytes: &[u8]) -> Option<(Step, &[u8])>
    ensures { Gives (λ x. (x.0, x.1.now)) result (bind_at bytes.now) }
{
    let (k, rest) = byte_number(bytes, 63, b' ')?;
    let ((row, scope), rest) = placed(rest, 3, LINE_END)?;
    Some((Step::Bind { k, row, scope }, rest))
}

#[tactic(auto, unfolding(crate::specs::Reading::start_at))]
fn start(bytes: &[u8]) -> Option<(Step, &[u8])>
    ensures { Gives (λ x. (x.0, x.1.now)) result (start_at bytes.now) }
{
    let (row, rest) = stand(bytes, b' ')?;
    let (thread, rest) = byte_number(rest, 63, LINE_END)?;
    Some((Step::Start { row, thread }, rest))
}

#[tactic(auto, unfolding(crate::specs::Reading::finish_at))]
fn finish(bytes: &[u8]) -> Option<(Step, &[u8])>
    ensures { Gives (λ x. (x.0, x.1.now)) result (finish_at bytes.now) }
{
    let (row, rest) = stand(bytes, LINE_END)?;
    Some((Step::Finish { row }, rest))
}

/// A step that is done to a row alone.
#[tactic(auto, unfolding(crate::specs::Reading::row_step_at))]
fn row_step(bytes: &[u8]) -> Option<(Step, &[u8])>
    ensures { Gives (λ x. (x.0, x.1.now)) result (row_step_at bytes.now) }
{
    if let Some(rest) = bytes.strip_prefix(b"open ") {
        let (row, rest) = row_of(rest, LINE_END)?;
        return Some((Step::Open { row }, rest));
    }
    if let Some(rest) = bytes.strip_prefix(b"look ") {
        let (row, rest) = row_of(rest, LINE_END)?;
        return Some((Step::Look { row }, rest));
    }
    if let Some(rest) = bytes.strip_prefix(b"claim ") {
        let (row, rest) = row_of(rest, LINE_END)?;
        return Some((Step::Claim { row }, rest));
    }
    if let Some(rest) = bytes.strip_prefix(b"yield ") {
        let (row, rest) = row_of(rest, LINE_END)?;
        return Some((Step::Yield { row }, rest));
    }
    if let Some(rest) = bytes.strip_prefix(b"seal ") {
        let (row, rest) = row_of(rest, LINE_END)?;
        return Some((Step::Seal { row }, rest));
    }
    if let Some(rest) = bytes.strip_prefix(b"take ") {
        let (row, rest) = row_of(rest, LINE_END)?;
        return Some((Step::Take { row }, rest));
    }
    None
}

#[tactic(auto, unfolding(crate::specs::Reading::step_at))]
fn step(bytes: &[u8]) -> Option<(Step, &[u8])>
    ensures { Gives (λ x. (x.0, x.1.now)) result (step_at bytes.now) }
{
    if let Some(rest) = bytes.strip_prefix(b"draft ") {
        return draft(rest);
    }
    if let Some(rest) = bytes.strip_prefix(b"read ") {
        return read(rest);
    }
    if let Some(rest) = bytes.strip_prefix(b"join ") {
        return join(rest);
    }
    if let Some(rest) = bytes.strip_prefix(b"grant ") {
        return grant(rest);
    }
    if let Some(rest) = bytes.strip_prefix(b"bind ") {
        return bind(rest);
    }
    if let Some(rest) = bytes.strip_prefix(b"start ") {
        return start(rest);
    }
    if let Some(rest) = bytes.strip_prefix(b"finish ") {
        return finish(rest);
    }
    row_step(bytes)
}

/// The line of a step, and the bytes behind it.
#[tactic(auto, unfolding(crate::specs::Reading::step_line_at))]
pub fn step_line(bytes: &[u8]) -> Option<((Seat, Step), &[u8])>
    ensures { Gives (λ x. (x.0, x.1.now)) result (step_line_at bytes.now) }
{
    let (seat, rest) = byte_number(bytes, 15, b' ')?;
    let (step, rest) = step(rest)?;
    Some(((Seat(seat), step), rest))
}

/// The seats; and, where the line does not end behind them, how many of the threads are started.
#[tactic(auto, unfolding(crate::specs::Reading::seats_at, crate::specs::Reading::seats_alone_at, crate::specs::Reading::seats_started_at))]
fn seats(bytes: &[u8], threads: u8) -> Option<((u8, Option<u8>), &[u8])>
    ensures { Gives (λ x. (x.0, x.1.now)) result (seats_at threads bytes.now) }
{
    if let Some((seats, rest)) = count(bytes, 16, LINE_END) {
        return Some(((seats as u8, None), rest));
    }
    let (seats, rest) = count(bytes, 16, b' ')?;
    let (started, rest) = count(rest, u64::from(threads), LINE_END)?;
    Some(((seats as u8, Some(started as u8)), rest))
}

/// The line of the world, and the bytes behind it.
#[tactic(auto, unfolding(crate::specs::Reading::world_line_at))]
pub fn world_line(bytes: &[u8]) -> Option<(Size, &[u8])>
    ensures { Gives (λ x. (x.0, x.1.now)) result (world_line_at bytes.now) }
{
    let rest = bytes.strip_prefix(b"world ")?;
    let (threads, rest) = count(rest, 64, b' ')?;
    let (rows, rest) = count(rest, 1024, b' ')?;
    let threads = threads as u8;
    let ((seats, started), rest) = seats(rest, threads)?;
    let size = Size {
        threads,
        rows: rows as u16,
        seats,
        started,
    };
    Some((size, rest))
}
