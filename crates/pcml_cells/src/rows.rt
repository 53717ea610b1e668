//! Rows: drafted, bound, opened, read.

ghost use Rattle.std.specs.Prelude.{◌≡◌, ◌≢◌, ◌↔◌, ◌⊎◌, IsTrue, Some, None, min};
ghost use Rattle.plain_values.specs.Plain.{row_in};
ghost use Rattle.cell_hand.specs.Calls.{Courses, Looks, Opens};
ghost use Rattle.pcml_cells.specs.Answers.{Bound, Drafted, Joins, Numbered, Offered, Resulted, Answered, Does, Holds, HoldsIn, Told, cell_number, course_number, done_number, NackBound};

use crate::handle::Handle;
use crate::numbers::{CLOSED, EMPTY, RANGE, celled, coursed, done, first, small};
use crate::telling::{tell_answer, tell_joined, tell_message, tell_offer, tell_place};
use cell_hand::Kept;
use plain_values::{PlainJoined, PlainMessage, PlainOffer, PlainRow, read_nack, read_offers};
use std::alloc::Global;

/// Whether the pass holds the row, or, where the row's number is that of the table's rows, stands behind the thread's last
/// one.
#[unsafe(no_mangle)]
pub extern "C" fn pcml_holds(alloc: Global, pass: &mut Handle, row: PlainRow) -> bool
    ensures holds { IsTrue result ↔ Holds pass.old.kept (row_in row) }
    ensures same { pass.new.kept ≡ pass.old.kept }
{
    let Some(kept) = pass.take(alloc) else {
        return false;
    };
    let answer = holds(&kept, row);
    pass.keep(kept);
    answer
}

fn holds(kept: &Kept, row: PlainRow) -> bool
    ensures { IsTrue result ↔ HoldsIn kept.now (row_in row) }
{
    match kept {
        Kept::Hand(hand) => hand.holds(row.read()),
        Kept::Ledger(_) => false,
        Kept::Nothing => false,
    }
}

/// Writes the offers of a held row that is not opened, at most 8, in place of those that were written before.
#[unsafe(no_mangle)]
pub extern "C" fn pcml_draft(
    alloc: Global,
    pass: &mut Handle,
    row: PlainRow,
    offers: &[PlainOffer],
) -> u32
    ensures { Told pass.old.kept pass.new.kept result (λ h k. Drafted h k (row_in row) offers.now result) }
{
    let Some(mut kept) = pass.take(alloc) else {
        return EMPTY;
    };
    let answer = draft(&mut kept, row, offers);
    pass.keep(kept);
    answer
}

fn draft(kept: &mut Kept, row: PlainRow, offers: &[PlainOffer]) -> u32
    ensures { Does kept.old kept.new result (λ h k. Drafted h k (row_in row) offers.now result) }
{
    match kept {
        Kept::Hand(hand) => match read_offers(offers) {
            Some(all) => done(hand.draft(row.read(), &all[..offers.len()])),
            None => RANGE,
        },
        Kept::Ledger(_) => CLOSED,
        Kept::Nothing => EMPTY,
    }
}

/// Binds nack 0 to 63 of the row's thread to the row, which is held and not opened, and its scope 0 to 3. 0 bound by this
/// call, 1 bound before.
#[unsafe(no_mangle)]
pub extern "C" fn pcml_bind(
    alloc: Global,
    pass: &mut Handle,
    nack: u32,
    row: PlainRow,
    scope: u32,
) -> u32
    ensures { Told pass.old.kept pass.new.kept result (λ h k. Bound h k nack (row_in row) scope result) }
{
    let Some(mut kept) = pass.take(alloc) else {
        return EMPTY;
    };
    let answer = bind(&mut kept, nack, row, scope);
    pass.keep(kept);
    answer
}

fn bind(kept: &mut Kept, nack: u32, row: PlainRow, scope: u32) -> u32
    ensures { Does kept.old kept.new result (λ h k. Bound h k nack (row_in row) scope result) }
{
    match kept {
        Kept::Hand(hand) => {
            if nack > 63 {
                return RANGE;
            }
            if scope > 3 {
                return RANGE;
            }
            first(hand.bind(nack as u8, row.read(), scope as u8))
        }
        Kept::Ledger(_) => CLOSED,
        Kept::Nothing => EMPTY,
    }
}

/// Opens a held row that is not opened: its offers stand from now on.
#[unsafe(no_mangle)]
pub extern "C" fn pcml_open(alloc: Global, pass: &mut Handle, row: PlainRow) -> u32
    ensures { Told pass.old.kept pass.new.kept result (λ h k. Numbered done_number (Opens h k (row_in row)) result) }
{
    let Some(mut kept) = pass.take(alloc) else {
        return EMPTY;
    };
    let answer = open(&mut kept, row);
    pass.keep(kept);
    answer
}

fn open(kept: &mut Kept, row: PlainRow) -> u32
    ensures { Does kept.old kept.new result (λ h k. Numbered done_number (Opens h k (row_in row)) result) }
{
    match kept {
        Kept::Hand(hand) => done(hand.open(row.read())),
        Kept::Ledger(_) => CLOSED,
        Kept::Nothing => EMPTY,
    }
}

/// 0 fresh, 1 waiting, 2 claimed, 3 synched, 4 taken.
#[unsafe(no_mangle)]
pub extern "C" fn pcml_look(alloc: Global, pass: &mut Handle, row: PlainRow) -> u32
    ensures { Told pass.old.kept pass.new.kept result (λ h k. Numbered cell_number (Looks h k (row_in row)) result) }
{
    let Some(mut kept) = pass.take(alloc) else {
        return EMPTY;
    };
    let answer = look(&mut kept, row);
    pass.keep(kept);
    answer
}

fn look(kept: &mut Kept, row: PlainRow) -> u32
    ensures { Does kept.old kept.new result (λ h k. Numbered cell_number (Looks h k (row_in row)) result) }
{
    match kept {
        Kept::Hand(hand) => celled(hand.look(row.read())),
        Kept::Ledger(_) => CLOSED,
        Kept::Nothing => EMPTY,
    }
}

/// The state of the row, as `pcml_look` answers it, and how the row was committed, where it is.
#[unsafe(no_mangle)]
pub extern "C" fn pcml_joined_of(
    alloc: Global,
    pass: &mut Handle,
    row: PlainRow,
    joined: &mut PlainJoined,
) -> u32
    ensures told { Told pass.old.kept pass.new.kept result (λ h k. Joins h k (row_in row) joined.old joined.new result) }
    ensures untouched { result ≢ 3 → result ≢ 4 → joined.new ≡ joined.old }
{
    let Some(mut kept) = pass.take(alloc) else {
        return EMPTY;
    };
    let answer = joined_of(&mut kept, row, joined);
    pass.keep(kept);
    answer
}

fn joined_of(kept: &mut Kept, row: PlainRow, joined: &mut PlainJoined) -> u32
    ensures told { Does kept.old kept.new result (λ h k. Joins h k (row_in row) joined.old joined.new result) }
    ensures untouched { result ≢ 3 → result ≢ 4 → joined.new ≡ joined.old }
{
    match kept {
        Kept::Hand(hand) => tell_joined(hand.look(row.read()), joined),
        Kept::Ledger(_) => CLOSED,
        Kept::Nothing => EMPTY,
    }
}

/// 0 not started, 1 running, 2 ended.
#[unsafe(no_mangle)]
pub extern "C" fn pcml_course(alloc: Global, pass: &mut Handle, thread: u32) -> u32
    ensures { Told pass.old.kept pass.new.kept result (λ h k. Numbered course_number (Courses h k (min thread 255)) result) }
{
    let Some(mut kept) = pass.take(alloc) else {
        return EMPTY;
    };
    let answer = course(&mut kept, thread);
    pass.keep(kept);
    answer
}

fn course(kept: &mut Kept, thread: u32) -> u32
    ensures { Does kept.old kept.new result (λ h k. Numbered course_number (Courses h k (min thread 255)) result) }
{
    match kept {
        Kept::Hand(hand) => coursed(hand.course(small(thread))),
        Kept::Ledger(_) => CLOSED,
        Kept::Nothing => EMPTY,
    }
}

/// 0 where the nack is bound, to this row and scope. 1 else.
#[unsafe(no_mangle)]
pub extern "C" fn pcml_bound(
    alloc: Global,
    pass: &mut Handle,
    nack: u32,
    row: &mut PlainRow,
    scope: &mut u32,
) -> u32
    ensures told { Told pass.old.kept pass.new.kept result (λ h k. NackBound h k nack row.new scope.new result) }
    ensures untouched { result ≢ 0 → (row.new ≡ row.old) × (scope.new ≡ scope.old) }
{
    let Some(mut kept) = pass.take(alloc) else {
        return EMPTY;
    };
    let answer = bound(&mut kept, nack, row, scope);
    pass.keep(kept);
    answer
}

fn bound(kept: &mut Kept, nack: u32, row: &mut PlainRow, scope: &mut u32) -> u32
    ensures told { Does kept.old kept.new result (λ h k. NackBound h k nack row.new scope.new result) }
    ensures untouched { result ≢ 0 → (row.new ≡ row.old) × (scope.new ≡ scope.old) }
{
    match kept {
        Kept::Hand(hand) => match read_nack(nack) {
            Some(name) => tell_place(hand.bound(name), row, scope),
            None => RANGE,
        },
        Kept::Ledger(_) => CLOSED,
        Kept::Nothing => EMPTY,
    }
}

/// 0 where the row is opened and has an offer of this number: it is told. 1 else.
#[unsafe(no_mangle)]
pub extern "C" fn pcml_offer_of(
    alloc: Global,
    pass: &mut Handle,
    row: PlainRow,
    number: u32,
    offer: &mut PlainOffer,
) -> u32
    ensures told { Told pass.old.kept pass.new.kept result (λ h k. Offered h k (row_in row) (min number 255) offer.new result) }
    ensures untouched { result ≢ 0 → offer.new ≡ offer.old }
{
    let Some(mut kept) = pass.take(alloc) else {
        return EMPTY;
    };
    let answer = offer_of(&mut kept, row, number, offer);
    pass.keep(kept);
    answer
}

fn offer_of(kept: &mut Kept, row: PlainRow, number: u32, offer: &mut PlainOffer) -> u32
    ensures told { Does kept.old kept.new result (λ h k. Offered h k (row_in row) (min number 255) offer.new result) }
    ensures untouched { result ≢ 0 → offer.new ≡ offer.old }
{
    match kept {
        Kept::Hand(hand) => tell_offer(hand.offer(row.read(), small(number)), offer),
        Kept::Ledger(_) => CLOSED,
        Kept::Nothing => EMPTY,
    }
}

/// 0 where the row is committed: the message is what its thread gets. 1 else.
#[unsafe(no_mangle)]
pub extern "C" fn pcml_result(
    alloc: Global,
    pass: &mut Handle,
    row: PlainRow,
    message: &mut PlainMessage,
) -> u32
    ensures told { Told pass.old.kept pass.new.kept result (λ h k. Resulted h k (row_in row) message.new result) }
    ensures untouched { result ≢ 0 → message.new ≡ message.old }
{
    let Some(mut kept) = pass.take(alloc) else {
        return EMPTY;
    };
    let answer = result(&mut kept, row, message);
    pass.keep(kept);
    answer
}

fn result(kept: &mut Kept, row: PlainRow, message: &mut PlainMessage) -> u32
    ensures told { Does kept.old kept.new result (λ h k. Resulted h k (row_in row) message.new result) }
    ensures untouched { result ≢ 0 → message.new ≡ message.old }
{
    match kept {
        Kept::Hand(hand) => tell_message(hand.result(row.read()), message),
        Kept::Ledger(_) => CLOSED,
        Kept::Nothing => EMPTY,
    }
}

/// 0 where the row is committed: the message is what its thread gets, and `joined` is how the row was committed. 1
/// else.
#[unsafe(no_mangle)]
pub extern "C" fn pcml_answer(
    alloc: Global,
    pass: &mut Handle,
    row: PlainRow,
    joined: &mut PlainJoined,
    message: &mut PlainMessage,
) -> u32
    ensures told { Told pass.old.kept pass.new.kept result (λ h k. Answered h k (row_in row) joined.new message.new result) }
    ensures untouched { result ≢ 0 → (joined.new ≡ joined.old) × (message.new ≡ message.old) }
{
    let Some(mut kept) = pass.take(alloc) else {
        return EMPTY;
    };
    let answer = answer(&mut kept, row, joined, message);
    pass.keep(kept);
    answer
}

fn answer(
    kept: &mut Kept,
    row: PlainRow,
    joined: &mut PlainJoined,
    message: &mut PlainMessage,
) -> u32
    ensures told { Does kept.old kept.new result (λ h k. Answered h k (row_in row) joined.new message.new result) }
    ensures untouched { result ≢ 0 → (joined.new ≡ joined.old) × (message.new ≡ message.old) }
{
    match kept {
        Kept::Hand(hand) => tell_answer(hand.answer(row.read()), joined, message),
        Kept::Ledger(_) => CLOSED,
        Kept::Nothing => EMPTY,
    }
}
