//! The table and its rule.

ghost use Rattle.std.specs.Prelude.{◌≡◌, ◌<◌, ◌≤◌, ℕ, length};
ghost use Rattle.protocol_ledger.specs.Openings.{IsOpening, greatest};
ghost use Rattle.std.proofs.Props.{props};
ghost use Rattle.protocol_ledger.specs.Short.{AreStarts, Fits, row_len, rows_of, words_below};
ghost use Rattle.cell_table.specs.Views.{opening_in};

use crate::view::{Shape, View};
use atomic_table::{Table, TableRule};
use protocol_ledger::{Resident, Starts};
use std::alloc::Global;

/// The rule of the cells.
pub struct Law;

impl<M: Resident> TableRule<Option<M>, View<M>, Shape<M>> for Law {
    ghost use Rattle.cell_table.specs.Rule.{Keeps, dealer};

    ghost holds = { λ shape s. Keeps M.stands shape s };

    ghost first = { λ shape. dealer shape 0 };
}

pub(crate) type Words<M> = Table<Option<M>, View<M>, Shape<M>, Law, Global>;

/// The words, and how many threads and rows they are for.
#[derive(Drop)]
pub struct Board<M: Resident> {
    pub(crate) words: Words<M>,
    pub(crate) shape: Shape<M>,
    /// The greatest stamp of the opening.
    pub(crate) stamps: u32,
    /// How many words a row has.
    pub(crate) row_words: usize,
    /// Where each thread's words start.
    pub(crate) starts: Starts,
    ghost keyed: { words.shared.key ≡ shape },
    ghost sized: { words.shared.table_id.words ≡ words_below shape.layout shape.threads },
    ghost row_length: { row_words ≡ row_len shape.layout.offers },
    ghost located: { AreStarts shape.layout starts } by { Prim.hlevel props },
    ghost fits: { Fits shape.layout shape.rows } by { Prim.hlevel props },
    ghost first_rows: { (t : ℕ) → t < shape.threads → 1 ≤ rows_of shape.layout t } by { Prim.hlevel props },
    ghost slots: { words.shared.table_id.slots ≡ length shape.first.value.items },
    ghost full: { 0 < length shape.first.value.items → length shape.first.value.items ≡ shape.threads },
    ghost opens: { IsOpening (opening_in shape) shape.rows × (length (opening_in shape).threads ≡ shape.threads) × (stamps ≡ greatest (opening_in shape)) },
    ghost small: { (1 ≤ shape.threads) × (shape.threads ≤ 64) × (1 ≤ shape.rows) × (shape.rows ≤ 1024) },
}
