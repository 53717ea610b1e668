//! What leaves through pointers, with the number of the answer: where nothing came, nothing is written.

ghost use Rattle.std.specs.Prelude.{◌≡◌, ◌≢◌, IfSome};
ghost use Rattle.plain_values.specs.Plain.{IsJoined, IsMessage, IsOffer, plain_row};
ghost use Rattle.pcml_cells.specs.Answers.{Tells, TellsJoined, TellsMet, cell_number, found_number, number_of, some_number};

use crate::numbers::refused;
use cell_hand::Refusal;
use meet_scan::Found;
use plain_values::{PlainJoined, PlainMessage, PlainOffer, PlainRow};
use protocol_values::{Cell, Joined, Message, Offer, Row};

/// How the row was committed, where it is.
pub(crate) fn tell_joined(cell: Result<Cell, Refusal>, joined: &mut PlainJoined) -> u32
    ensures number { result ≡ number_of cell_number cell }
    ensures told { TellsJoined joined.old joined.new cell }
    ensures untouched { result ≢ 3 → result ≢ 4 → joined.new ≡ joined.old }
{
    match cell {
        Ok(Cell::Fresh) => 0,
        Ok(Cell::Waiting) => 1,
        Ok(Cell::Claimed) => 2,
        Ok(Cell::Synched(how)) => {
            *joined = PlainJoined::of(how);
            3
        }
        Ok(Cell::Taken(how)) => {
            *joined = PlainJoined::of(how);
            4
        }
        Err(refusal) => refused(refusal),
    }
}

/// With whom a search met.
pub(crate) fn tell_met(came: Result<Option<Found>, Refusal>, met: &mut PlainRow) -> u32
    ensures number { result ≡ number_of found_number came }
    ensures told { TellsMet met.new came }
    ensures untouched { result ≢ 0 → met.new ≡ met.old }
{
    match came {
        Ok(Some(Found::Met(other))) => {
            *met = PlainRow::of(other);
            0
        }
        Ok(Some(Found::Alone)) => 1,
        Ok(Some(Found::Already)) => 2,
        Ok(Some(Found::Waits)) => 3,
        Ok(None) => 4,
        Err(refusal) => refused(refusal),
    }
}

/// Where a nack is bound.
pub(crate) fn tell_place(place: Option<(Row, u8)>, row: &mut PlainRow, scope: &mut u32) -> u32
    ensures number { result ≡ some_number place }
    ensures told { IfSome place (λ p. (row.new ≡ plain_row p.0) × (scope.new ≡ p.1)) }
    ensures untouched { result ≢ 0 → (row.new ≡ row.old) × (scope.new ≡ scope.old) }
{
    match place {
        Some((at, enclosing)) => {
            *row = PlainRow::of(at);
            *scope = u32::from(enclosing);
            0
        }
        None => 1,
    }
}

pub(crate) fn tell_offer(found: Result<Option<Offer>, Refusal>, offer: &mut PlainOffer) -> u32
    ensures number { result ≡ number_of some_number found }
    ensures told { Tells (IsOffer offer.new) found }
    ensures untouched { result ≢ 0 → offer.new ≡ offer.old }
{
    match found {
        Ok(Some(it)) => {
            *offer = PlainOffer::of(it);
            0
        }
        Ok(None) => 1,
        Err(refusal) => refused(refusal),
    }
}

pub(crate) fn tell_message(got: Result<Option<Message>, Refusal>, message: &mut PlainMessage) -> u32
    ensures number { result ≡ number_of some_number got }
    ensures told { Tells (IsMessage message.new) got }
    ensures untouched { result ≢ 0 → message.new ≡ message.old }
{
    match got {
        Ok(Some(it)) => {
            *message = PlainMessage::of(it);
            0
        }
        Ok(None) => 1,
        Err(refusal) => refused(refusal),
    }
}

pub(crate) fn tell_answer(
    answer: Result<Option<(Joined, Message)>, Refusal>,
    joined: &mut PlainJoined,
    message: &mut PlainMessage,
) -> u32
    ensures number { result ≡ number_of some_number answer }
    ensures told { Tells (λ t. IsJoined joined.new t.0 × IsMessage message.new t.1) answer }
    ensures untouched { result ≢ 0 → (joined.new ≡ joined.old) × (message.new ≡ message.old) }
{
    match answer {
        Ok(Some((how, got))) => {
            *joined = PlainJoined::of(how);
            *message = PlainMessage::of(got);
            0
        }
        Ok(None) => 1,
        Err(refusal) => refused(refusal),
    }
}
