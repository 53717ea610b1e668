//! Calls that are made again and again, with a little more memory each time.

use crate::hoard::Hoard;
use anyhow::{Result, bail};

/// How often a call has to give its ample answer in a row, so that it asks for no more.
const ENOUGH: u32 = 8;

/// The most amounts of memory that are tried.
pub(crate) const MOST_AMOUNTS: usize = 40_000;

/// What a call gave.
#[derive(Drop)]
pub(crate) enum Answer {
    /// The error for want of memory.
    Refused,
    /// What it gives with ample memory.
    Same,
    Other,
}

/// A call that asks for memory.
pub(crate) trait Call {
    /// Makes what the call needs while memory is ample, makes the call with so many bytes left, and judges
    /// what it gave when memory is ample again.
    fn attempt(&mut self, hoard: &mut Hoard, amount: usize) -> Result<Answer>;
}

/// Tells the same answer as with ample memory from another one.
pub(crate) fn judged(same: bool) -> Answer {
    if same { Answer::Same } else { Answer::Other }
}

/// What the answers of a sweep were.
#[derive(Drop)]
pub(crate) struct Tally {
    refused: u32,
    same_in_a_row: u32,
    other: bool,
}

impl Tally {
    pub(crate) fn new() -> Tally {
        Tally {
            refused: 0,
            same_in_a_row: 0,
            other: false,
        }
    }

    /// Counts the answer. Whether the sweep is at its end: a wrong answer ends it too.
    pub(crate) fn is_last(&mut self, answer: &Answer) -> bool {
        match answer {
            Answer::Refused => {
                self.refused = self.refused.saturating_add(1);
                self.same_in_a_row = 0;
            }
            Answer::Same => self.same_in_a_row = self.same_in_a_row.saturating_add(1),
            Answer::Other => self.other = true,
        }
        self.other || self.same_in_a_row == ENOUGH
    }
}

/// Sweeps calls, and tells each on standard output.
#[derive(Drop)]
pub(crate) struct Sweeper<'a, R> {
    pub(crate) rt: &'a R,
    pub(crate) hoard: Hoard,
    /// Whether the error stream tells how often each call was refused.
    pub(crate) counts: bool,
}

impl<R: Print + Eprint> Sweeper<'_, R> {
    /// Makes the call with more and more memory left, from none on, each time by so many bytes more, until
    /// it asks for no more. It fails where an answer is neither the error for want of memory nor the one
    /// with ample memory, and where no request was refused.
    pub(crate) fn sweep<C: Call>(&mut self, name: &str, step: usize, call: &mut C) -> Result<()> {
        let mut tally = Tally::new();
        for turn in 0..MOST_AMOUNTS {
            let amount = step.saturating_mul(turn);
            let answer = call.attempt(&mut self.hoard, amount)?;
            if tally.is_last(&answer) {
                return self.tell(name, &tally, amount);
            }
        }
        bail!("{name}: no answer")
    }

    /// Tells how a sweep ended, with so many bytes left.
    pub(crate) fn tell(&self, name: &str, tally: &Tally, amount: usize) -> Result<()> {
        if tally.other {
            bail!("{name}: another answer with {amount} bytes left");
        }
        if tally.refused == 0 {
            bail!("{name}: no request was refused");
        }
        if self.counts {
            let refused = tally.refused;
            eprintln!(self.rt; "{name}: refused {refused} times, up to {amount} bytes")?;
        }
        println!(self.rt; "{name}: refused, then answered")?;
        Ok(())
    }
}
