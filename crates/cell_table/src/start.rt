//! How a table begins, and how its rows are dealt.

ghost use Rattle.std.specs.Prelude.{◌≡◌, ◌+◌, ◌<◌, ◌≤◌, ℕ, [], IfOk, length};
ghost use Rattle.protocol_ledger.specs.Openings.{AreFirstWords, IsOpening, greatest};
ghost use Rattle.protocol_ledger.specs.Short.{Fits, rows_of, words_below};
ghost use Rattle.cell_table.specs.Closings.{words_of};
ghost use Rattle.cell_table.specs.Rule.{AreMachines, dealer, dealt_pass};
ghost use Rattle.cell_table.specs.Views.{opening_in};

use crate::board::{Board, Words};
use crate::plays::Deal;
use crate::view::{Shape, View};
use atomic_table::Seat;
use protocol_ledger::Resident;
use std::alloc::{AllocError, Global};

impl<M: Resident + Drop> Board<M> {
    /// A table of Fresh rows that goes on from an opening, whose greatest stamp is `stamps`, and the seat that deals
    /// them. `words` are the table's first ones. In a table of machines one lies in the slot of each thread that
    /// has not ended.
    pub fn start(
        alloc: Global,
        shape: Shape<M>,
        stamps: u32,
        words: &[u64],
        slots: Vec<Option<M>>,
    ) -> Result<(Board<M>, Seat<Option<M>, View<M>>), AllocError>
        requires shape { (shape.threads ≡ length (opening_in shape).threads) × (1 ≤ shape.rows) × (shape.rows ≤ 1024) × (1 ≤ shape.passes) }
        requires layout { Fits shape.layout shape.rows × ((t : ℕ) → t < shape.threads → 1 ≤ rows_of shape.layout t) }
        requires opening { IsOpening (opening_in shape) shape.rows × (stamps ≡ greatest (opening_in shape)) }
        requires sized { length words.now ≡ words_below shape.layout shape.threads }
        requires words { AreFirstWords (opening_in shape) (words_of shape words.now) }
        requires slots { slots.items ≡ shape.first.value.items }
        requires full { AreMachines (opening_in shape) shape.first.value.items }
        ensures board { IfOk result (λ b. (b.0.shape ≡ shape) × (b.1.table_id ≡ b.0.words.shared.table_id)) }
        ensures seat { IfOk result (λ b. b.1.me ≡ (dealer shape 0, [])) }
    {
        let layout = shape.layout;
        match Words::new(alloc, words, slots, &shape) {
            Ok((words, seat)) => Ok((
                Board {
                    words,
                    shape,
                    stamps,
                    row_words: layout.row_len(),
                    starts: layout.starts(),
                },
                seat,
            )),
            Err(_) => Err(AllocError),
        }
    }

    /// The seat of pass `number`, which holds the first rows of the threads that fall to it. The
    /// passes are dealt in order.
    pub fn deal(&self, seat: &mut Seat<Option<M>, View<M>>, number: u64) -> Seat<Option<M>, View<M>>
        requires seat { (seat.old.table_id ≡ self.now.words.shared.table_id) × (seat.old.me ≡ (dealer self.now.shape number, [])) }
        requires number { number < self.now.shape.passes }
        requires some_words { 1 ≤ self.now.shape.threads }
        ensures seat { (seat.new.table_id ≡ seat.old.table_id) × (seat.new.id ≡ seat.old.id) × (seat.new.me ≡ (dealer self.now.shape (number + 1), [])) }
        ensures pass { (result.table_id ≡ seat.old.table_id) × (result.me ≡ (dealt_pass (dealer self.now.shape number), [])) }
    {
        let _ = number;
        self.words.shared.split_seat::<Deal>(seat)
    }
}
