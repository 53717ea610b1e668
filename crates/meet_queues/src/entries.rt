//! Entries, and what a pass of their queue knows.

use std::collections::LinkedList;

/// What stands in a queue: an item, with the number of the end that put it and that end's count before it.
#[derive(Clone, Copy, Debug, PartialEq, Eq)]
pub struct Entry<T> {
    pub item: T,
    pub end: u8,
    pub count: u64,
}

/// What a hand, which is an end's pass of a queue, knows: its end's number, the next number where it deals
/// hands, what each count that it put is below, and what it put and got. No value of it is made.
pub struct QueueView<T> {
    pub number: Option<u8>,
    pub next: Option<u8>,
    pub below: u64,
    pub put: LinkedList<Entry<T>>,
    pub got: LinkedList<Entry<T>>,
}
