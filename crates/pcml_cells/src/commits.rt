//! Commits: attempted, granted, searched for, woken, taken.

ghost use Rattle.std.specs.Prelude.{◌≡◌, ◌≢◌, min};
ghost use Rattle.plain_values.specs.Plain.{row_in};
ghost use Rattle.cell_hand.specs.Calls.{Attempts, Grants, Takes, Wakes};
ghost use Rattle.pcml_cells.specs.Answers.{Began, Does, NO_THREAD as no_thread, Numbered, Searched, Told, attempt_number, found_number, grant_number, some_number};

use crate::handle::Handle;
use crate::numbers::{CLOSED, EMPTY, NO_THREAD, RANGE, attempted, found, granted, small, taken};
use crate::telling::tell_met;
use cell_hand::Kept;
use plain_values::{PlainOffer, PlainRow, read_offers};
use std::alloc::Global;

/// Tries to commit a held opened row with another one, by an offer of each. 0 met, 1 the other was committed before, 2 one's
/// own was, 3 the other was claimed, 4 they do not fit.
#[unsafe(no_mangle)]
pub extern "C" fn pcml_attempt(
    alloc: Global,
    pass: &mut Handle,
    mine: PlainRow,
    own: u32,
    other: PlainRow,
    partner: u32,
) -> u32
    ensures { Told pass.old.kept pass.new.kept result (λ h k. Numbered attempt_number (Attempts h k (row_in mine) (min own 255) (row_in other) (min partner 255)) result) }
{
    let Some(mut kept) = pass.take(alloc) else {
        return EMPTY;
    };
    let answer = attempt(&mut kept, mine, own, other, partner);
    pass.keep(kept);
    answer
}

fn attempt(kept: &mut Kept, mine: PlainRow, own: u32, other: PlainRow, partner: u32) -> u32
    ensures { Does kept.old kept.new result (λ h k. Numbered attempt_number (Attempts h k (row_in mine) (min own 255) (row_in other) (min partner 255)) result) }
{
    match kept {
        Kept::Hand(hand) => attempted(hand.attempt(
            mine.read(),
            small(own),
            other.read(),
            small(partner),
        )),
        Kept::Ledger(_) => CLOSED,
        Kept::Nothing => EMPTY,
    }
}

/// Commits the row alone by this offer. 0 given, 1 the offer does not let it, 2 the row does not wait.
#[unsafe(no_mangle)]
pub extern "C" fn pcml_grant(alloc: Global, pass: &mut Handle, row: PlainRow, offer: u32) -> u32
    ensures { Told pass.old.kept pass.new.kept result (λ h k. Numbered grant_number (Grants h k (row_in row) (min offer 255)) result) }
{
    let Some(mut kept) = pass.take(alloc) else {
        return EMPTY;
    };
    let answer = grant(&mut kept, row, offer);
    pass.keep(kept);
    answer
}

fn grant(kept: &mut Kept, row: PlainRow, offer: u32) -> u32
    ensures { Does kept.old kept.new result (λ h k. Numbered grant_number (Grants h k (row_in row) (min offer 255)) result) }
{
    match kept {
        Kept::Hand(hand) => granted(hand.grant(row.read(), small(offer))),
        Kept::Ledger(_) => CLOSED,
        Kept::Nothing => EMPTY,
    }
}

/// Takes a committed row. 0 taken by this call, 1 not committed, or taken before.
#[unsafe(no_mangle)]
pub extern "C" fn pcml_take(alloc: Global, pass: &mut Handle, row: PlainRow) -> u32
    ensures { Told pass.old.kept pass.new.kept result (λ h k. Numbered some_number (Takes h k (row_in row)) result) }
{
    let Some(mut kept) = pass.take(alloc) else {
        return EMPTY;
    };
    let answer = take(&mut kept, row);
    pass.keep(kept);
    answer
}

fn take(kept: &mut Kept, row: PlainRow) -> u32
    ensures { Does kept.old kept.new result (λ h k. Numbered some_number (Takes h k (row_in row)) result) }
{
    match kept {
        Kept::Hand(hand) => taken(hand.take(row.read())),
        Kept::Ledger(_) => CLOSED,
        Kept::Nothing => EMPTY,
    }
}

/// Searches for a row that this held opened one can meet; an offer that needs no partner is granted only where `alone` is
/// true. 0 met, with that row, 1 committed alone, 2 committed before, 3 left to others, 4 to be searched again: a row that it
/// may meet was claimed.
#[unsafe(no_mangle)]
pub extern "C" fn pcml_search(
    alloc: Global,
    pass: &mut Handle,
    row: PlainRow,
    alone: bool,
    met: &mut PlainRow,
) -> u32
    ensures told { Told pass.old.kept pass.new.kept result (λ h k. Searched h k (row_in row) no_thread alone met.new result) }
    ensures untouched { result ≢ 0 → met.new ≡ met.old }
{
    pcml_search_from(alloc, pass, row, NO_THREAD, alone, met)
}

/// Searches as `pcml_search` does, but the newest row of thread `first` is tried before all others. One's own thread,
/// or one that the table has not, goes before none.
#[unsafe(no_mangle)]
pub extern "C" fn pcml_search_from(
    alloc: Global,
    pass: &mut Handle,
    row: PlainRow,
    first: u32,
    alone: bool,
    met: &mut PlainRow,
) -> u32
    ensures told { Told pass.old.kept pass.new.kept result (λ h k. Searched h k (row_in row) (min first 255) alone met.new result) }
    ensures untouched { result ≢ 0 → met.new ≡ met.old }
{
    let Some(mut kept) = pass.take(alloc) else {
        return EMPTY;
    };
    let answer = search(&mut kept, row, first, alone, met);
    pass.keep(kept);
    answer
}

fn search(kept: &mut Kept, row: PlainRow, first: u32, alone: bool, met: &mut PlainRow) -> u32
    ensures told { Does kept.old kept.new result (λ h k. Searched h k (row_in row) (min first 255) alone met.new result) }
    ensures untouched { result ≢ 0 → met.new ≡ met.old }
{
    match kept {
        Kept::Hand(hand) => tell_met(hand.search(row.read(), small(first), alone), met),
        Kept::Ledger(_) => CLOSED,
        Kept::Nothing => EMPTY,
    }
}

/// Commits the row alone, if one of its offers lets it. 1 committed by this call, 2 before, 3 no offer lets it, 4 it was
/// claimed, and is to be woken again.
#[unsafe(no_mangle)]
pub extern "C" fn pcml_wake(alloc: Global, pass: &mut Handle, row: PlainRow) -> u32
    ensures { Told pass.old.kept pass.new.kept result (λ h k. Numbered found_number (Wakes h k (row_in row)) result) }
{
    let Some(mut kept) = pass.take(alloc) else {
        return EMPTY;
    };
    let answer = wake(&mut kept, row);
    pass.keep(kept);
    answer
}

fn wake(kept: &mut Kept, row: PlainRow) -> u32
    ensures { Does kept.old kept.new result (λ h k. Numbered found_number (Wakes h k (row_in row)) result) }
{
    match kept {
        Kept::Hand(hand) => found(hand.wake(row.read())),
        Kept::Ledger(_) => CLOSED,
        Kept::Nothing => EMPTY,
    }
}

/// Takes the row before this one, where the pass does not hold it yet, drafts the offers, opens the row and searches: the
/// answers are those of a search.
#[unsafe(no_mangle)]
pub extern "C" fn pcml_begin(
    alloc: Global,
    pass: &mut Handle,
    row: PlainRow,
    offers: &[PlainOffer],
    alone: bool,
    met: &mut PlainRow,
) -> u32
    ensures told { Told pass.old.kept pass.new.kept result (λ h k. Began h k (row_in row) offers.now no_thread alone met.new result) }
    ensures untouched { result ≢ 0 → met.new ≡ met.old }
{
    pcml_begin_from(alloc, pass, row, offers, NO_THREAD, alone, met)
}

/// Takes, drafts, opens and searches as `pcml_begin` does, but the newest row of thread `first` is tried before all
/// others.
#[unsafe(no_mangle)]
pub extern "C" fn pcml_begin_from(
    alloc: Global,
    pass: &mut Handle,
    row: PlainRow,
    offers: &[PlainOffer],
    first: u32,
    alone: bool,
    met: &mut PlainRow,
) -> u32
    ensures told { Told pass.old.kept pass.new.kept result (λ h k. Began h k (row_in row) offers.now (min first 255) alone met.new result) }
    ensures untouched { result ≢ 0 → met.new ≡ met.old }
{
    let Some(mut kept) = pass.take(alloc) else {
        return EMPTY;
    };
    let answer = begin(&mut kept, row, offers, first, alone, met);
    pass.keep(kept);
    answer
}

fn begin(
    kept: &mut Kept,
    row: PlainRow,
    offers: &[PlainOffer],
    first: u32,
    alone: bool,
    met: &mut PlainRow,
) -> u32
    ensures told { Does kept.old kept.new result (λ h k. Began h k (row_in row) offers.now (min first 255) alone met.new result) }
    ensures untouched { result ≢ 0 → met.new ≡ met.old }
{
    match kept {
        Kept::Hand(hand) => match read_offers(offers) {
            Some(all) => tell_met(
                hand.begin(row.read(), &all[..offers.len()], small(first), alone),
                met,
            ),
            None => RANGE,
        },
        Kept::Ledger(_) => CLOSED,
        Kept::Nothing => EMPTY,
    }
}
