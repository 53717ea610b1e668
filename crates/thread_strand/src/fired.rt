//! Which nacks of a thread are fired, and when.

ghost use Rattle.std.specs.Prelude.{◌≡◌, ◌≢◌, ℕ, List, None, Option, OnOk, Some, replicate, slice_index_or};
ghost use Rattle.thread_strand.specs.Fired.{places_of};

use std::alloc::{AllocError, Global};
use std::marker::Model;

/// The nacks of a thread that are fired, each with the stamp of the commit that fired it. A clause sees a place for each
/// number that a nack could have; those that are fired are kept alone.
#[derive(Drop)]
pub struct Fired {
    list: Vec<(u8, u32)>,
}

impl Model for Fired {
    ghost Value = { List (Option ℕ) };

    ghost view = { λ f. places_of f.list.items };
}

impl Fired {
    /// None is fired.
    pub fn new(alloc: Global) -> Fired
        ensures { result ≡ replicate 256 None }
    {
        Fired {
            list: Vec::new(alloc),
        }
    }

    /// Notes a nack as fired at this stamp.
    pub fn add(&mut self, nack: u8, stamp: u32) -> Result<(), AllocError>
        ensures here { OnOk result (slice_index_or self.new nack None ≡ Some stamp) }
        ensures others { OnOk result ((k : ℕ) → k ≢ nack → slice_index_or self.new k None ≡ slice_index_or self.old k None) }
    {
        self.list.push((nack, stamp))?;
        Ok(())
    }

    /// The stamp at which the nack was fired.
    pub fn get(&self, nack: u8) -> Option<u32>
        ensures { result ≡ slice_index_or self.now nack None }
    {
        let mut found = None;
        for noted in &self.list {
            if noted.0 == nack {
                found = Some(noted.1);
            }
        }
        found
    }
}
