//! What `play` prints.

ghost use Rattle.std.specs.Prelude.{◌≡◌, ◌≤◌, IfOk, IfErr, IfSome};
ghost use Rattle.std.specs.String.{string_bytes};
ghost use Rattle.protocol.specs.Schedule.{IsSize};
ghost use Rattle.pcml_tool.specs.Play.{later_of, start_of, comes_from, counts_line, Reports, IsPlayed, ExplainsPlay, IsPlayedOrFaulty, HasOneFirstRefused};
ghost use Rattle.pcml_tool.specs.declared.play.PlayFault.TheVariants.{Memory};

use journal_text::write_numbered;
use protocol::{ProtoFault, ReadFault, Size, World, play, read_schedule};
use protocol_ledger::Ledger;
use std::alloc::{AllocError, Global};
use thiserror::Error;

/// Why a schedule was not played.
#[derive(Debug, Drop, Error)]
pub enum PlayFault {
    #[error("out of memory")]
    Memory,
    /// The first line that is not of the form, from 1.
    #[error("line {0} is not of the form")]
    BadStep(usize),
    /// The first step that is not allowed, from 1.
    #[error("step {0} is not allowed")]
    NotAllowed(usize),
}

impl From<ReadFault> for PlayFault {
    ghost from_gives = { λ read fault. fault ≡ comes_from read };

    fn from(fault: ReadFault) -> PlayFault {
        match fault {
            ReadFault::Memory => PlayFault::Memory,
            ReadFault::BadStep(line) => PlayFault::BadStep(line),
        }
    }
}

impl From<AllocError> for PlayFault {
    ghost from_gives = { λ _ fault. fault ≡ Memory };

    fn from(_error: AllocError) -> PlayFault {
        PlayFault::Memory
    }
}

/// The threads that wait to be started, as a mask: bit t stands for thread t.
fn later_of(started: Option<u8>) -> u64
    requires { IfSome started (λ n. n ≤ 64) }
    ensures { result ≡ later_of started }
{
    match started {
        None | Some(64) => 0,
        Some(n) => u64::MAX - ((1 << n) - 1),
    }
}

/// The world in which a schedule of this size begins.
fn start(alloc: Global, size: Size) -> Result<World, AllocError>
    requires { IsSize size }
    ensures { IfOk result (λ world. world ≡ start_of size) }
{
    let later = later_of(size.started);
    match World::start_later(alloc, size.threads, size.rows, size.seats, later) {
        Ok(world) => Ok(world),
        Err(_) => Err(AllocError),
    }
}

fn counts_line(alloc: Global, commits: usize, pending: u32) -> Result<String, AllocError>
    ensures { IfOk result (λ line. string_bytes line ≡ counts_line commits pending) }
{
    format!(in alloc; "commits {commits} pending {pending}\n")
}

/// The ledger's commits in order, and how many there are and how many are pending.
fn report(alloc: Global, ledger: &Ledger) -> Result<Vec<u8>, AllocError>
    ensures { IfOk result (λ text. Reports ledger.now text.items) }
{
    let commits = ledger.commits()?;
    let mut text = write_numbered(alloc, commits.as_slice())?;
    let counts = counts_line(alloc, commits.len(), ledger.pending())?;
    text.extend_from_slice(counts.as_bytes())?;
    Ok(text)
}

/// What the ledger holds once the schedule in the bytes was played: all of it, or nothing but the
/// first fault.
pub fn play_text(alloc: Global, bytes: &[u8]) -> Result<Vec<u8>, PlayFault>
    ensures played { IfOk result (λ text. IsPlayed bytes.now text.items) }
    ensures fault { IfErr result (ExplainsPlay bytes.now) }
{
    let schedule = read_schedule(alloc, bytes)?;
    let world = start(alloc, schedule.size)?;
    match play(world, schedule.steps.as_slice()) {
        Ok(world) => Ok(report(alloc, &world.ledger())?),
        Err(ProtoFault::Memory) => Err(PlayFault::Memory),
        Err(ProtoFault::NotAllowed(index)) => Err(PlayFault::NotAllowed(index + 1)),
    }
}

/// Bytes are played, or else have a first bad line, or else a first step that is refused: so each
/// answer of `play_text` but for want of memory is the only one of its kind.
pub fn play_laws()
    ensures apart { IsPlayedOrFaulty }
    ensures first { HasOneFirstRefused }
{}
