//! The one rendezvous of `meet`: two threads over running cells.

ghost use Rattle.std.specs.Prelude.{◌≡◌, ℕ, [], ◌∷◌, IfOk, IfErr};
ghost use Rattle.protocol_values.specs.Words.{IsOfferInRange};
ghost use Rattle.protocol_values.specs.declared.Offer.{Offer};
ghost use Rattle.cell.specs.Calls.{IsPassOf, IsRowOf, opening_at};
ghost use Rattle.protocol_ledger.specs.Openings.{start_opening};
ghost use Rattle.cell_table.specs.Sight.{Has};
ghost use Rattle.pcml_tool.specs.Meet.{first_row, send_of, receive_offer, HasTakenPart, HasTwoOffers, IsReady, PrintsMeeting};

use cell::{Cells, NoGate, Pass};
use journal_text::write_numbered;
use protocol_ledger::{Bare, Ledger};
use protocol_values::{Atom, Base, Message, Offer, Row};
use std::alloc::{AllocError, Global};
use std::snapshot::Snapshot;
use std::sync::Wait;
use std::thread;
use std::thread::{Promise, Threads};
use thiserror::Error;

const SENDER: Row = Row { thread: 0, sync: 0 };

const RECEIVER: Row = Row { thread: 1, sync: 0 };

/// Why the two did not meet.
#[derive(Debug, Drop, Error)]
pub enum MeetFault {
    #[error("out of memory")]
    Memory,
    /// A thread could not be started.
    #[error("no thread")]
    NoThread,
}

impl From<AllocError> for MeetFault {
    ghost use Rattle.pcml_tool.specs.declared.meeting.MeetFault.TheVariants.{Memory};

    ghost from_gives = { λ _ fault. fault ≡ Memory };

    fn from(_error: AllocError) -> MeetFault {
        MeetFault::Memory
    }
}

/// The line of the one pair in which a thread sends the value to another; no line where they did not
/// meet.
pub fn meet_text<R: Threads + Wait>(rt: &R, alloc: Global, value: u32) -> Result<Vec<u8>, MeetFault>
    ensures { IfOk result (λ text. PrintsMeeting value text.items) }
{
    let (cells, sender, receiver) = two_passes(alloc)?;
    let (mut sender, receiver) = both_take_part(rt, &cells, sender, receiver, value)?;
    try_again(&cells, &mut sender);
    let ledger = end(cells, sender, receiver);
    let commits = ledger.commits()?;
    Ok(write_numbered(alloc, commits.as_slice())?)
}

/// Makes one more attempt for the sender, if its row is not committed.
fn try_again(cells: &Cells<Bare>, sender: &mut Pass<Bare>)
    requires here { IsPassOf cells.now sender.old × IsRowOf cells.now (first_row 0) × IsRowOf cells.now (first_row 1) }
    requires opened { Has sender.old.seen.held (first_row 0) × Has sender.old.seen.opened (first_row 0) }
    ensures { (offer : Offer) → HasTakenPart cells.now sender.old (first_row 0) offer → HasTakenPart cells.now sender.new (first_row 0) offer }
{
    if cells.look(sender, SENDER).joined().is_none() {
        cells.attempt(sender, &NoGate, SENDER, 0, RECEIVER, 0);
    }
}

/// The ledger at the end, after the receiver has told the sender what it has seen.
fn end(cells: Cells<Bare>, sender: Pass<Bare>, receiver: Pass<Bare>) -> Ledger
    requires here { IsPassOf cells sender × IsPassOf cells receiver }
    ensures { (value : ℕ) → (cells.threads ≡ 2) × (cells.rows ≡ 1) × (opening_at cells ≡ start_opening 2 0) → HasTakenPart cells sender (first_row 0) (send_of value) → HasTakenPart cells receiver (first_row 1) receive_offer → HasTwoOffers value result }
{
    let mut sender = sender;
    let mut receiver = receiver;
    cells.tell(&mut receiver, &mut sender);
    cells.close(sender)
}

/// Cells for two threads of one row, and a pass for each.
fn two_passes(alloc: Global) -> Result<(Cells<Bare>, Pass<Bare>, Pass<Bare>), AllocError>
    ensures size { IfOk result (λ t. (t.0.threads ≡ 2) × (t.0.rows ≡ 1) × (opening_at t.0 ≡ start_opening 2 0)) }
    ensures passes { IfOk result (λ t. IsReady t.0 t.1 (first_row 0) × IsReady t.0 t.2 (first_row 1)) }
{
    let (cells, mut passes) = Cells::new(alloc, 2, 1, 2)?;
    let Some(receiver) = passes.pop() else {
        unreachable!()
    };
    let Some(sender) = passes.pop() else {
        unreachable!()
    };
    Ok((cells, sender, receiver))
}

/// What a thread promises of the pass that it gives back: its row is opened with this one offer.
#[derive(Drop)]
struct TookPart {
    cells: Snapshot<Cells<Bare>>,
    row: Row,
    offer: Offer,
}

impl Promise<Pass<Bare>> for TookPart {
    ghost kept_by = { λ side pass. HasTakenPart side.cells.value pass side.row side.offer };
}

fn promise(cells: &Cells<Bare>, row: Row, offer: Offer) -> TookPart
    ensures { (result.cells.value ≡ cells.now) × (result.row ≡ row) × (result.offer ≡ offer) }
{
    TookPart {
        cells: Snapshot::of(cells),
        row,
        offer,
    }
}

/// Drafts and opens the pass's row, and makes one attempt.
fn take_part(
    cells: &Cells<Bare>,
    pass: Pass<Bare>,
    row: Row,
    offer: Offer,
    other: Row,
) -> Pass<Bare>
    requires ready { IsReady cells.now pass row × IsRowOf cells.now other }
    requires offer { IsOfferInRange offer }
    ensures { HasTakenPart cells.now result row offer }
{
    let mut pass = pass;
    cells.draft(&mut pass, row, &[offer]);
    cells.open(&mut pass, row);
    cells.attempt(&mut pass, &NoGate, row, 0, other, 0);
    pass
}

/// Both threads take part, each with its own pass, and give the passes back.
fn both_take_part<R: Threads + Wait>(
    rt: &R,
    cells: &Cells<Bare>,
    sender: Pass<Bare>,
    receiver: Pass<Bare>,
    value: u32,
) -> Result<(Pass<Bare>, Pass<Bare>), MeetFault>
    requires ready { IsReady cells.now sender (first_row 0) × IsReady cells.now receiver (first_row 1) }
    ensures { IfOk result (λ p. HasTakenPart cells.now p.0 (first_row 0) (send_of value) × HasTakenPart cells.now p.1 (first_row 1) receive_offer) }
{
    let send = send(value);
    let receive = receive();
    let sends = promise(cells, SENDER, send);
    let receives = promise(cells, RECEIVER, receive);
    thread::scope(
        thread::scope_env(),
        rt,
        |scope| -> Result<(Pass<Bare>, Pass<Bare>), MeetFault>
            requires ready { IsReady cells.now sender (first_row 0) × IsReady cells.now receiver (first_row 1) }
            requires offers { IsOfferInRange send × IsOfferInRange receive }
            requires sends { (sends.cells.value ≡ cells.now) × (sends.row ≡ first_row 0) × (sends.offer ≡ send) }
            requires receives { (receives.cells.value ≡ cells.now) × (receives.row ≡ first_row 1) × (receives.offer ≡ receive) }
            ensures { IfOk result (λ p. HasTakenPart cells.entry.now p.0 (first_row 0) send × HasTakenPart cells.entry.now p.1 (first_row 1) receive) }
        {
            let sending = scope.spawn_with(
                sends,
                move || -> Pass<Bare>
                    requires { IsReady cells.now sender (first_row 0) × IsRowOf cells.now (first_row 1) × IsOfferInRange send }
                    ensures { HasTakenPart cells.entry.now result (first_row 0) send }
                { take_part(cells, sender, SENDER, send, RECEIVER) },
            );
            let Ok(sending) = sending else {
                return Err(MeetFault::NoThread);
            };
            let receiving = scope.spawn_with(
                receives,
                move || -> Pass<Bare>
                    requires { IsReady cells.now receiver (first_row 1) × IsRowOf cells.now (first_row 0) × IsOfferInRange receive }
                    ensures { HasTakenPart cells.entry.now result (first_row 1) receive }
                { take_part(cells, receiver, RECEIVER, receive, SENDER) },
            );
            let Ok(receiving) = receiving else {
                return Err(MeetFault::NoThread);
            };
            Ok((sending.join(rt), receiving.join(rt)))
        },
    )
}

fn send(value: u32) -> Offer
    ensures { result ≡ send_of value }
{
    Offer {
        base: Base::Send(0, Message::One(Atom::Num(value))),
        scopes: 0,
    }
}

fn receive() -> Offer
    ensures { result ≡ receive_offer }
{
    Offer {
        base: Base::Recv(0),
        scopes: 0,
    }
}
