//! Those who wait to be told that something is there.

ghost use Rattle.std.specs.Prelude.{◌≡◌, ◌==◌, ◌++◌, ◌∷◌, ◌<◌, [], false, true, OnErr, OnOk, filter, length, map, slice_get, slice_set, Some};
ghost use Rattle.channels.specs.declared.pulls.Pull.{Pull};
ghost use Rattle.channels.specs.Buffers.{is_other_pull, untold};

use crate::waiting::Waiting;
use std::alloc::{AllocError, Global};
use std::marker::Model;

/// Somebody who waits to be told.
#[derive(Clone, Copy, PartialEq, Eq, Debug)]
pub struct Pull {
    /// Who it is.
    pub waiting: Waiting,
    /// Whether he was told since he last looked.
    pub told: bool,
}

/// Those who wait to be told, the oldest first.
#[derive(Drop)]
pub struct Pulls {
    pub(crate) pulls: Vec<Pull>,
}

impl Model for Pulls {
    ghost use Rattle.std.specs.Prelude.{List};
    ghost use Rattle.channels.specs.declared.pulls.Pull.{Pull};

    ghost Value = { List Pull };

    ghost view = { λ p. p.pulls.items };
}

/// The same, not told if it is of the ticket.
fn untold(ticket: u64, pull: Pull) -> Pull
    ensures { result ≡ untold ticket pull }
{
    Pull {
        told: pull.told && pull.waiting.ticket != ticket,
        ..pull
    }
}

impl Pulls {
    /// Nobody waits.
    pub fn new(alloc: Global) -> Pulls
        ensures { result ≡ [] }
    {
        Pulls {
            pulls: Vec::new(alloc),
        }
    }

    /// How many wait, told or not.
    pub fn len(&self) -> usize
        ensures { result ≡ length self.now }
    {
        self.pulls.len()
    }

    /// All of them.
    #[inline]
    pub fn as_slice(&self) -> &[Pull]
        ensures { result.now ≡ self.now }
    {
        self.pulls.as_slice()
    }

    /// Somebody comes to wait, who is not told.
    pub fn add(&mut self, waiting: Waiting) -> Result<(), AllocError>
        ensures ok { OnOk result (self.new ≡ self.old ++ record { waiting = waiting; told = false } ∷ []) }
        ensures err { OnErr result (self.new ≡ self.old) }
    {
        self.pulls.push(Pull {
            waiting,
            told: false,
        })?;
        Ok(())
    }

    /// Those of the ticket wait no longer.
    pub fn forget(&mut self, ticket: u64)
        ensures { self.new ≡ filter (is_other_pull ticket) self.old }
    {
        self.pulls.retain(|pull| pull.waiting.ticket != ticket);
    }

    /// Those of the ticket have looked, and are to be told anew.
    pub fn untell(&mut self, ticket: u64)
        ensures { self.new ≡ map (untold ticket) self.old }
    {
        for pull in self.pulls.iter_mut() {
            *pull = untold(ticket, *pull);
        }
    }

    /// Whether nobody waits.
    #[inline]
    pub fn is_empty(&self) -> bool
        ensures { result ≡ (length self.now == 0) }
    {
        self.pulls.is_empty()
    }

    /// This one is told.
    pub fn tell(&mut self, index: usize) -> Waiting
        requires { index < length self.old }
        ensures { (old : Pull) × (slice_get self.old index ≡ Some old) × (result ≡ old.waiting) × (self.new ≡ slice_set self.old index (record { waiting = result; told = true })) }
    {
        let waiting = self.pulls[index].waiting;
        self.pulls[index] = Pull {
            waiting,
            told: true,
        };
        waiting
    }
}
