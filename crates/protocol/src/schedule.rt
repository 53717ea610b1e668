//! Schedules as text: the size of a world, and the steps that seats make in it.

ghost use Rattle.std.specs.Prelude.{◌≡◌, IfOk, IfErr};
ghost use Rattle.protocol.specs.declared.schedule.ReadFault.TheVariants.{Memory};
ghost use Rattle.protocol.specs.Schedule.{Spells, SpellsOnlyOne, SpellsOrIsBad, HasOneFirstBadLine};
ghost use Rattle.protocol.specs.ReadFaults.{plan_of, Explains};

use crate::line::{step_line, world_line};
use protocol_values::{Seat, Step};
use std::alloc::{AllocFailed, Global};
use thiserror::Error;

/// How large a world is, and how many of its threads are started in it.
#[derive(Clone, Copy, Debug, PartialEq, Eq)]
pub struct Size {
    /// From 1 to 64.
    pub threads: u8,
    /// The rows of each thread, from 1 to 1024.
    pub rows: u16,
    /// From 1 to 16.
    pub seats: u8,
    /// How many threads are started at first, from 1 to `threads`; without a number all are.
    pub started: Option<u8>,
}

/// A world's size, and the steps in order, each with the seat that makes it.
#[derive(Debug, Drop)]
pub struct Schedule {
    pub size: Size,
    pub steps: Vec<(Seat, Step)>,
}

/// Why a schedule could not be read.
#[derive(Debug, Drop, Error)]
pub enum ReadFault {
    #[error("out of memory")]
    Memory,
    /// The first line that is not of the form, from 1.
    #[error("line {0} is not of the form")]
    BadStep(usize),
}

impl<T: Drop> From<AllocFailed<T>> for ReadFault {
    ghost from_gives = { λ _ e. e ≡ Memory };

    fn from(_e: AllocFailed<T>) -> ReadFault {
        ReadFault::Memory
    }
}

/// The schedule that the bytes spell, each of them. A fault names the first line that is not of the form.
pub fn read_schedule(alloc: Global, bytes: &[u8]) -> Result<Schedule, ReadFault>
    ensures found { IfOk result (λ s. Spells bytes.now (plan_of s)) }
    ensures fault { IfErr result (Explains bytes.now) }
{
    let Some((size, mut rest)) = world_line(bytes) else {
        return Err(ReadFault::BadStep(1));
    };
    let mut steps = Vec::new(alloc);
    while !rest.is_empty() {
        let Some((step, after)) = step_line(rest) else {
            return Err(ReadFault::BadStep(steps.len() + 2));
        };
        steps.push(step)?;
        rest = after;
    }
    Ok(Schedule { size, steps })
}

/// Bytes spell one schedule at most, or else one line is their first bad one: so each answer of
/// `read_schedule` but for want of memory is the only one.
pub fn schedule_text_laws()
    ensures one { SpellsOnlyOne }
    ensures apart { SpellsOrIsBad }
    ensures first { HasOneFirstBadLine }
{}
