//! The directory and its rule.

ghost use Rattle.std.specs.Prelude.{◌≡◌, ◌+◌, ◌<◌};

use crate::view::View;
use atomic_table::{Seat, Table, TableRule};
use std::alloc::Global;

/// The rule of the directory.
pub struct Law;

impl TableRule<(), View, u64> for Law {
    ghost use Rattle.meet_directory.specs.Directory.{Keeps, nothing};

    ghost holds = { Keeps };

    ghost first = { λ _. nothing };
}

/// A pass at the directory. It has no bytes.
pub type DirectoryPass = Seat<(), View>;

/// The words.
#[derive(Drop)]
pub struct Directory {
    pub(crate) words: Table<(), View, u64, Law, Global>,
    pub sides: u64,
    ghost keyed: { words.shared.key ≡ sides },
    ghost sized: { words.shared.table_id.words ≡ 64 + sides },
    ghost small: { sides < 4294967296 },
}
