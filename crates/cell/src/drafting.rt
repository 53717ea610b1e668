//! The offers of a row, written word by word before it is opened.

ghost use Rattle.std.specs.Prelude.{◌≡◌, ◌+◌, ◌*◌, ◌<◌, ◌≤◌, IsTrue, is_some, length, true};
ghost use Rattle.protocol_values.specs.Words.{IsOfferInRange, atom_of};
ghost use Rattle.protocol_values.specs.declared.Offer.{Offer};
ghost use Rattle.cell.specs.Attempts.{OnlyDrafts};
ghost use Rattle.cell_table.specs.declared.view.Stage.TheVariants.{Resting};
ghost use Rattle.protocol_ledger.specs.Short.{HasWords, short_place};
ghost use Rattle.cell_table.specs.Seats.{Sits, HasRow, StaysSeated};
ghost use Rattle.cell_table.specs.Sight.{AreOffers, Has, HasDrafted, IsDraft, IsPlaceOf, Redrafts, SawEnded};
ghost use Rattle.cell_table.specs.Views.{worked};

use crate::reading::atoms_told;
use atomic_table::Seat;
use cell_table::{Board, View};
use protocol_ledger::Resident;
use protocol_values::{Offer, Row, pack_count, pack_offer, read_head};

/// Writes a list of offers for a held row that is not opened yet, in place of what was written before: no more than
/// rows have room for.
pub(crate) fn draft_offers<M: Resident>(
    board: &Board<M>,
    seat: &mut Seat<Option<M>, View<M>>,
    row: Row,
    offers: &[Offer],
)
    requires sits { Sits board.now seat.old × HasRow board.now row }
    requires words { HasWords board.now.shape.layout row }
    requires resting { seat.old.me.0.stage ≡ Resting }
    requires held { Has seat.old.me.0.seen.held row × (¬ Has seat.old.me.0.seen.opened row) }
    requires alive { ¬ SawEnded seat.old.me.0.seen row.thread }
    requires offers { AreOffers offers.now }
    requires room { length offers.now ≤ board.now.shape.layout.offers }
    ensures sits { StaysSeated board.now seat.old seat.new }
    ensures stays { seat.new.me.0 ≡ worked seat.old.me.0.stage seat.new.me.0.seen seat.new.me.0.made seat.old.me.0 }
    ensures made { OnlyDrafts row seat.old.me.0.made seat.new.me.0.made }
    ensures others { Redrafts (λ q p. q ≡ row) seat.old.me.0.seen seat.new.me.0.seen }
    ensures drafted { IsDraft seat.new.me.0.seen row offers.now }
{
    let begin = board.first_place(row);
    board.draft(seat, row, begin, 1, pack_count(offers.len() as u8));
    for (n, offer) in offers.iter().enumerate() {
        draft_offer(board, seat, row, begin, n as u8, *offer);
    }
}

/// Writes the words of offer n: its head, and as many atoms as it has.
fn draft_offer<M: Resident>(
    board: &Board<M>,
    seat: &mut Seat<Option<M>, View<M>>,
    row: Row,
    begin: usize,
    n: u8,
    offer: Offer,
)
    requires sits { Sits board.now seat.old × HasRow board.now row }
    requires words { HasWords board.now.shape.layout row }
    requires begin { begin ≡ short_place board.now.shape.layout row 0 }
    requires resting { seat.old.me.0.stage ≡ Resting }
    requires held { Has seat.old.me.0.seen.held row × (¬ Has seat.old.me.0.seen.opened row) }
    requires alive { ¬ SawEnded seat.old.me.0.seen row.thread }
    requires offer { (n < board.now.shape.layout.offers) × IsOfferInRange offer }
    ensures sits { StaysSeated board.now seat.old seat.new }
    ensures stays { seat.new.me.0 ≡ worked seat.old.me.0.stage seat.new.me.0.seen seat.new.me.0.made seat.old.me.0 }
    ensures made { OnlyDrafts row seat.old.me.0.made seat.new.me.0.made }
    ensures others { Redrafts (λ q p. (q ≡ row) × IsPlaceOf n p) seat.old.me.0.seen seat.new.me.0.seen }
    ensures drafted { HasDrafted seat.new.me.0.seen row n offer }
{
    let [head, first, second, third] = pack_offer(offer);
    let atoms = atoms_told(read_head(head).direction);
    board.draft(seat, row, begin, 2 + 4 * n, head);
    draft_atom(board, seat, row, begin, n, 1, first, atoms >= 1);
    draft_atom(board, seat, row, begin, n, 2, second, atoms >= 2);
    draft_atom(board, seat, row, begin, n, 3, third, atoms >= 3);
}

/// Writes atom k, 1 to 3, of offer n, where the offer has it.
fn draft_atom<M: Resident>(
    board: &Board<M>,
    seat: &mut Seat<Option<M>, View<M>>,
    row: Row,
    begin: usize,
    n: u8,
    k: u8,
    word: u64,
    has: bool,
)
    requires sits { Sits board.now seat.old × HasRow board.now row }
    requires words { HasWords board.now.shape.layout row }
    requires begin { begin ≡ short_place board.now.shape.layout row 0 }
    requires resting { seat.old.me.0.stage ≡ Resting }
    requires held { Has seat.old.me.0.seen.held row × (¬ Has seat.old.me.0.seen.opened row) }
    requires alive { ¬ SawEnded seat.old.me.0.seen row.thread }
    requires atom { (n < board.now.shape.layout.offers) × (1 ≤ k) × (k < 4) × (is_some (atom_of word) ≡ true) }
    ensures sits { StaysSeated board.now seat.old seat.new }
    ensures stays { seat.new.me.0 ≡ worked seat.old.me.0.stage seat.new.me.0.seen seat.new.me.0.made seat.old.me.0 }
    ensures made { OnlyDrafts row seat.old.me.0.made seat.new.me.0.made }
    ensures others { Redrafts (λ q p. (q ≡ row) × (p ≡ 2 + k + 4 * n)) seat.old.me.0.seen seat.new.me.0.seen }
    ensures drafted { IsTrue has → Has seat.new.me.0.seen.drafts (row, 2 + k + 4 * n, word) }
{
    if has {
        board.draft(seat, row, begin, 2 + k + 4 * n, word);
    }
}
