//! What a handle keeps.

use crate::hand::Hand;
use protocol_ledger::Ledger;

/// A hand, or the ledger of the table that the hand has ended.
#[derive(Drop)]
pub enum Kept {
    Hand(Hand),
    Ledger(Ledger),
    /// Nothing: no call leaves this behind.
    Nothing,
}
