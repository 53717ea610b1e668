//! Where a text stands.

/// From a place on, or round it.
#[derive(Clone, Copy)]
pub enum Spot {
    Behind(u64),
    Round(u64),
}
