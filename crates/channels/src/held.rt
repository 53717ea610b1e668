//! Messages that were sent and that nobody has received, the oldest first.

ghost use Rattle.std.specs.Prelude.{◌≡◌, ◌++◌, ◌∷◌, ◌<◌, ◌≤◌, ◌==◌, [], List, ℕ, IfNone, IfSome, OnErr, OnOk, length, nat_lt};
ghost use Rattle.channels.specs.Buffers.{Store};

use std::alloc::{AllocError, Global};
use std::collections::VecDeque;
use std::marker::Model;

/// Messages, by their numbers, and for how many there is room.
#[derive(Drop)]
pub struct Held {
    values: VecDeque<u64>,
    room: usize,
}

impl Model for Held {
    ghost use Rattle.std.specs.Prelude.{◌≤◌, length};
    ghost use Rattle.channels.specs.Buffers.{Store};

    ghost Value = { Store };

    ghost view = { λ h. record { values = h.values.items; room = h.room } };

    ghost invariant = { λ h. length h.values.items ≤ h.room };
}

impl Held {
    /// Nothing is held. There is room for so many: 0 is none, and `usize::MAX` is without bound.
    pub fn new(alloc: Global, room: usize) -> Held
        ensures { result ≡ record { values = []; room = room } }
    {
        Held {
            values: VecDeque::new(alloc),
            room,
        }
    }

    /// How many are held.
    #[inline]
    pub fn len(&self) -> usize
        ensures { result ≡ length self.now.values }
    {
        self.values.len()
    }

    /// Whether none is held.
    #[inline]
    pub fn is_empty(&self) -> bool
        ensures { result ≡ (length self.now.values == 0) }
    {
        self.values.is_empty()
    }

    /// Whether there is room for one more.
    #[inline]
    pub fn has_room(&self) -> bool
        ensures { result ≡ nat_lt (length self.now.values) self.now.room }
    {
        self.values.len() < self.room
    }

    /// Holds one more. An error says that there is no memory.
    #[inline]
    pub fn put(&mut self, value: u64) -> Result<(), AllocError>
        requires { length self.old.values < self.old.room }
        ensures ok { OnOk result (self.new ≡ record self.old { values = self.old.values ++ value ∷ [] }) }
        ensures err { OnErr result (self.new ≡ self.old) }
    {
        self.values.push_back(value)?;
        Ok(())
    }

    /// Takes the oldest out.
    #[inline]
    pub fn take(&mut self) -> Option<u64>
        ensures some { IfSome result (λ oldest. (rest : List ℕ) × (self.old.values ≡ oldest ∷ rest) × (self.new ≡ record self.old { values = rest })) }
        ensures none { IfNone result ((self.old.values ≡ []) × (self.new ≡ self.old)) }
    {
        self.values.pop_front()
    }

    /// Takes the oldest out and holds another one, which needs no memory. Where none is held nothing changes.
    #[inline]
    pub fn exchange(&mut self, value: u64) -> Option<u64>
        ensures some { IfSome result (λ oldest. (rest : List ℕ) × (self.old.values ≡ oldest ∷ rest) × (self.new ≡ record self.old { values = rest ++ value ∷ [] })) }
        ensures none { IfNone result ((self.old.values ≡ []) × (self.new ≡ self.old)) }
    {
        let oldest = self.values.pop_front()?;
        self.values.push_back_reserved(value);
        Some(oldest)
    }
}
