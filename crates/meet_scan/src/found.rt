//! What a search came to.

use protocol_values::Row;

/// What a search came to.
#[derive(Clone, Copy, Debug, PartialEq, Eq)]
pub enum Found {
    /// The row met that row.
    Met(Row),
    /// The row was committed alone.
    Alone,
    /// The row had been committed by another.
    Already,
    /// The row waits.
    Waits,
}
