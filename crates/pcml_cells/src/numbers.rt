//! The numbers that calls answer: 0 to 15 say what came of a call, and from 16 on nothing was done.

ghost use Rattle.std.specs.Prelude.{◌≡◌, min};
ghost use Rattle.pcml_cells.specs.Answers.{CLOSED as closed, EMPTY as empty, attempt_number, cell_number, course_number, done_number, first_number, found_number, grant_number, number_of, refusal_number, some_number};

use cell::{Attempt, Grant};
use cell_hand::Refusal;
use meet_scan::Found;
use protocol_values::{Cell, Course, Joined};

/// The pass is empty.
pub(crate) const EMPTY: u32 = 16;

/// The table has ended.
pub(crate) const CLOSED: u32 = 25;

pub(crate) const RANGE: u32 = 18;

/// A thread that no table has.
pub(crate) const NO_THREAD: u32 = 255;

/// An offer's number, a thread's and the like: those above 255 are as 255, which no row and no table has either.
pub(crate) fn small(number: u32) -> u8
    ensures { result ≡ min number 255 }
{
    number.min(255) as u8
}

pub(crate) fn refused(refusal: Refusal) -> u32
    ensures { result ≡ refusal_number refusal }
{
    match refusal {
        Refusal::Memory => 17,
        Refusal::Range => RANGE,
        Refusal::NoRow => 19,
        Refusal::NotHeld => 20,
        Refusal::Opened => 21,
        Refusal::Fresh => 22,
        Refusal::Ended => 23,
        Refusal::Shared => 24,
    }
}

pub(crate) fn done(answer: Result<(), Refusal>) -> u32
    ensures { result ≡ number_of done_number answer }
{
    match answer {
        Ok(()) => 0,
        Err(refusal) => refused(refusal),
    }
}

/// 0 by this call, 1 before.
pub(crate) fn first(answer: Result<bool, Refusal>) -> u32
    ensures { result ≡ number_of first_number answer }
{
    match answer {
        Ok(true) => 0,
        Ok(false) => 1,
        Err(refusal) => refused(refusal),
    }
}

pub(crate) fn celled(answer: Result<Cell, Refusal>) -> u32
    ensures { result ≡ number_of cell_number answer }
{
    match answer {
        Ok(Cell::Fresh) => 0,
        Ok(Cell::Waiting) => 1,
        Ok(Cell::Claimed) => 2,
        Ok(Cell::Synched(_)) => 3,
        Ok(Cell::Taken(_)) => 4,
        Err(refusal) => refused(refusal),
    }
}

pub(crate) fn coursed(answer: Result<Course, Refusal>) -> u32
    ensures { result ≡ number_of course_number answer }
{
    match answer {
        Ok(Course::Unstarted) => 0,
        Ok(Course::Running(_)) => 1,
        Ok(Course::Ended(..)) => 2,
        Err(refusal) => refused(refusal),
    }
}

pub(crate) fn attempted(answer: Result<Attempt, Refusal>) -> u32
    ensures { result ≡ number_of attempt_number answer }
{
    match answer {
        Ok(Attempt::Met(_)) => 0,
        Ok(Attempt::Gone) => 1,
        Ok(Attempt::Mine) => 2,
        Ok(Attempt::Busy) => 3,
        Ok(Attempt::Unfit) => 4,
        Err(refusal) => refused(refusal),
    }
}

pub(crate) fn granted(answer: Result<Grant, Refusal>) -> u32
    ensures { result ≡ number_of grant_number answer }
{
    match answer {
        Ok(Grant::Given) => 0,
        Ok(Grant::NotEnabled) => 1,
        Ok(Grant::Late) => 2,
        Err(refusal) => refused(refusal),
    }
}

pub(crate) fn found(answer: Result<Option<Found>, Refusal>) -> u32
    ensures { result ≡ number_of found_number answer }
{
    match answer {
        Ok(Some(Found::Met(_))) => 0,
        Ok(Some(Found::Alone)) => 1,
        Ok(Some(Found::Already)) => 2,
        Ok(Some(Found::Waits)) => 3,
        Ok(None) => 4,
        Err(refusal) => refused(refusal),
    }
}

/// 0 taken, 1 not.
pub(crate) fn taken(answer: Result<Option<Joined>, Refusal>) -> u32
    ensures { result ≡ number_of some_number answer }
{
    match answer {
        Ok(Some(_)) => 0,
        Ok(None) => 1,
        Err(refusal) => refused(refusal),
    }
}
