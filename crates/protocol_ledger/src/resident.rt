//! What may lie in a table's slots.

/// A value that stands for a thread. It lies in the thread's slot from when its row is opened to when that row
/// is taken.
///
/// `stands` says of a value, where the values `first` stood for the threads at first, thread by thread, and none for one
/// that had ended, that it stands for this thread after these results (`follows`), what it offers there, with the nacks of which numbers for its scopes
/// (`offers`), that it has started another thread behind the last of them (`starts`), and that it has ended (`ends`).
pub trait Resident {
    ghost use Rattle.std.specs.Prelude.{Bool};
    ghost use Rattle.protocol_ledger.specs.Standing.{Stands};

    // whether such values lie in slots
    ghost houses: { Bool };

    // whether a table over such values may have threads that have words for few of their rows
    ghost short: { Bool };

    ghost stands: { Stands Self };
}

/// Of a table over this no value lies in a slot: it stands for no thread.
#[derive(Clone, Copy, Debug)]
pub struct Bare;

impl Resident for Bare {
    ghost use Rattle.std.specs.Prelude.{false};

    ghost houses = { false };

    ghost short = { false };

    ghost stands = { record { follows = λ first value thread results. ⊥; offers = λ first value thread results offers nacks. ⊥; starts = λ first value thread results other. ⊥; ends = λ first value thread results. ⊥ } };
}
