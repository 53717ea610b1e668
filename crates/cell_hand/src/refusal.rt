//! Why a call did nothing.

/// Why a call did nothing.
#[derive(Clone, Copy, Debug, PartialEq, Eq)]
pub enum Refusal {
    /// No memory was left.
    Memory,
    /// A number is outside its range.
    Range,
    /// The table has no such row.
    NoRow,
    /// The pass does not hold the row.
    NotHeld,
    /// The row was opened before.
    Opened,
    /// The row was not opened yet.
    Fresh,
    /// The row's thread has ended.
    Ended,
    /// Other passes of the table are left.
    Shared,
}
