//! A line of those who wait, the oldest first.

ghost use Rattle.std.specs.Prelude.{◌≡◌, ◌++◌, ◌∷◌, [], IfNone, OnErr, OnOk, length, option_to_list};
ghost use Rattle.std.specs.Fn.{CalledAt};
ghost use Rattle.std.specs.List.Retain.{IsFiltered};
ghost use Rattle.channels.specs.Lines.{has_other};

use crate::waiting::Waiting;
use std::alloc::{AllocError, Global};
use std::collections::VecDeque;
use std::marker::Model;

/// Those who wait, the oldest first. Some may wait no longer: they are sifted out at a limit.
#[derive(Drop)]
pub struct Line {
    waiting: VecDeque<Waiting>,
    /// At so many the line is full.
    limit: usize,
}

impl Model for Line {
    ghost use Rattle.std.specs.Prelude.{List};
    ghost use Rattle.channels.specs.declared.waiting.Waiting.{Waiting};

    ghost Value = { List Waiting };

    ghost view = { λ l. l.waiting.items };
}

impl Line {
    /// How many a line holds at least before it is full.
    const FEW: usize = 8;

    /// Nobody waits.
    pub fn new(alloc: Global) -> Line
        ensures { result ≡ [] }
    {
        Line {
            waiting: VecDeque::new(alloc),
            limit: Line::FEW,
        }
    }

    /// How many stand in the line, with those who wait no longer.
    pub fn len(&self) -> usize
        ensures { result ≡ length self.now }
    {
        self.waiting.len()
    }

    /// Takes the oldest out.
    #[inline]
    #[tactic(auto, using(crate::proofs::Members::none_there))]
    pub fn take_oldest(&mut self) -> Option<Waiting>
        ensures oldest { self.old ≡ option_to_list result ++ self.new }
        ensures none { IfNone result (self.old ≡ []) }
    {
        self.waiting.pop_front()
    }

    /// Adds somebody behind all. An error says that there is no memory.
    #[inline]
    pub fn add(&mut self, waiting: Waiting) -> Result<(), AllocError>
        ensures ok { OnOk result (self.new ≡ self.old ++ waiting ∷ []) }
        ensures err { OnErr result (self.new ≡ self.old) }
    {
        self.waiting.push_back(waiting)?;
        Ok(())
    }

    /// Whether the line is at its limit: twice what the last sifting left, and at least 8.
    #[inline]
    pub fn is_full(&self) -> bool {
        self.waiting.len() >= self.limit
    }

    /// Drops those of whom `is_live` says that they wait no longer, and sets the limit anew.
    pub fn sift<F: FnMut(&Waiting) -> bool>(&mut self, is_live: F)
        requires { F.IsAlwaysCallable is_live }
        ensures { IsFiltered (CalledAt F.FnMut) is_live self.old self.new }
    {
        self.waiting.retain(is_live);
        self.limit = self.waiting.len().saturating_mul(2).max(Line::FEW);
    }

    /// Whether somebody of another ticket stands in the line.
    #[inline]
    pub fn has_other(&self, ticket: u64) -> bool
        ensures { result ≡ has_other ticket self.now }
    {
        self.waiting.iter().any(|waiting| waiting.ticket != ticket)
    }
}
