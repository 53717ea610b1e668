//! What a pass has written and read there. No value of `Glimpse` or `View` is made: contracts
//! alone read them.

use std::collections::LinkedList;

/// One look at a word: what the pass had written by then, and what it found.
#[derive(Debug, Drop)]
pub struct Glimpse {
    pub marks: LinkedList<(u64, u64)>,
    pub word: u64,
    pub found: u64,
}

/// What the directory's rule knows of a pass.
#[derive(Debug, Drop)]
pub struct View {
    /// What it has written, or found written: of a word, a count that it has reached or a bit that is set.
    pub marks: LinkedList<(u64, u64)>,
    pub looks: LinkedList<Glimpse>,
}
