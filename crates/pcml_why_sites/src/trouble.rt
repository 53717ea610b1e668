//! What went wrong.

use protocol_values::Atom;
use script_tree::Name;

/// What is wanted of a value.
#[derive(Clone, Copy, Debug, PartialEq, Eq)]
pub enum Kind {
    Number,
    Channel,
    Nack,
}

/// What was there where something else was wanted.
#[derive(Clone, Copy, Debug, PartialEq, Eq)]
pub enum Trouble {
    /// The variable was not set.
    Unset {
        variable: usize,
    },
    /// The value, which stood under this name if it stood under one, is of another kind.
    NotOfKind {
        name: Option<Name>,
        value: Atom,
        wanted: Kind,
    },
    /// Left - right is below 0.
    Below {
        left: u32,
        right: u32,
    },
    /// Left + right is above 4294967295.
    Above {
        left: u32,
        right: u32,
    },
    /// A 65th nack was to be made.
    Nacks,
    /// So many values came for so many names.
    Count {
        values: u8,
        names: u8,
    },
}
