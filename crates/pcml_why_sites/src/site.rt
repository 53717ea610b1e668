//! Where a process stands.

ghost use Rattle.std.specs.Prelude.{◌≡◌, ◌==◌, ◌&&◌, ◌≤◌, ℕ, IfOk, length, map};
ghost use Rattle.script_tree.specs.Processes.{proc_of};
ghost use Rattle.std.specs.List.{list_any};
ghost use Rattle.thread.specs.Ends.{is_waiting};
ghost use Rattle.journal_replay.specs.Replays.{StandsAfter, thread_count};
ghost use Rattle.script.specs.Scripts.{script_of};
ghost use Rattle.pcml_why_sites.specs.Offering.{is_open, offers_on, others};
ghost use Rattle.protocol_values.specs.Values.{is_on};
ghost use Rattle.pcml_why_sites.specs.Sites.{AreSites};

use crate::results::stand_after;
use crate::stand::Stand;
use journal_replay::State;
use protocol_values::{Atom, Commit, NackName, Offer, Side};
use script::Script;
use script_tree::Proc;
use std::alloc::{AllocError, Global};
use thread::End;

/// Where a process stands: its end, the line of its statement, its variables or what went wrong, and what its open sync
/// offers.
#[derive(Drop)]
pub struct Site<'a> {
    pub end: End,
    /// Of its open sync, or of the statement at which it faulted; 0 where it has ended or not started.
    pub line: usize,
    /// With which it stands, by their numbers: one that was not set has no value.
    pub variables: &'a [Option<Atom>],
    /// Of one that faulted, with what went wrong.
    pub stand: Stand,
    pub offers: &'a [Offer],
    pub nacks: &'a [u8],
}

/// Whether the process waits with an offer on this side of the channel.
pub fn offers_on(side: Side, chan: u8, site: &Site<'_>) -> bool
    ensures { result ≡ offers_on side chan site.now }
{
    if !site.end.is_waiting() {
        return false;
    }
    for offer in site.offers {
        if offer.base.is_on(side, chan) {
            return true;
        }
    }
    false
}

/// The processes that wait with an offer on this side of the channel, but for one; in their order.
pub fn others(
    alloc: Global,
    sites: &[Site<'_>],
    side: Side,
    chan: u8,
    thread: usize,
) -> Result<Vec<u8>, AllocError>
    requires { length sites.now ≤ 64 }
    ensures { IfOk result (λ found. found.items ≡ others sites.now side chan thread) }
{
    let mut found = Vec::new(alloc);
    for other in 0..sites.len() {
        if other != thread && offers_on(side, chan, &sites[other]) {
            found.push(other as u8)?;
        }
    }
    Ok(found)
}

/// Whether the process waits in a sync with this nack.
fn has_nack(site: &Site<'_>, nack: u8) -> bool
    ensures { result ≡ (is_waiting site.now.end && list_any (λ n. n == nack) site.now.nacks.now) }
{
    if !site.end.is_waiting() {
        return false;
    }
    for number in site.nacks {
        if *number == nack {
            return true;
        }
    }
    false
}

/// Whether the nack is of a sync that is open.
pub fn is_open(sites: &[Site<'_>], nack: NackName) -> bool
    ensures { result ≡ is_open sites.now nack }
{
    match sites.get(usize::from(nack.thread)) {
        Some(site) => has_nack(site, nack.k),
        None => false,
    }
}

/// Where each of the processes stands after the commits, as the state has it.
fn sites_of<'a>(
    alloc: Global,
    processes: &[Proc],
    commits: &[Commit],
    state: &'a State,
) -> Result<Vec<Site<'a>>, AllocError>
    requires few { thread_count state.now ≤ 64 }
    requires processes { thread_count state.now ≡ length processes.now }
    requires stands { (rows : ℕ) × StandsAfter (map proc_of processes.now) rows commits.now state.now }
    ensures { IfOk result (λ sites. AreSites (map proc_of processes.now) commits.now state.now sites.items) }
{
    let mut sites = Vec::new(alloc);
    for thread in 0..state.threads() {
        let (offers, nacks) = state.open(thread);
        let end = state.end(thread);
        let stand = stand_after(alloc, &processes[thread], thread as u8, commits, end)?;
        sites.push(Site {
            end,
            line: state.line(thread) as usize,
            variables: state.variables(thread),
            stand,
            offers,
            nacks,
        })?;
    }
    Ok(sites)
}

/// Where each process of the script stands after the commits, as the state has it.
pub fn sites_at<'a>(
    alloc: Global,
    script: &Script,
    commits: &[Commit],
    state: &'a State,
) -> Result<Vec<Site<'a>>, AllocError>
    requires few { thread_count state.now ≤ 64 }
    requires processes { thread_count state.now ≡ length (script_of script.now).processes }
    requires stands { (rows : ℕ) × StandsAfter (script_of script.now).processes rows commits.now state.now }
    ensures { IfOk result (λ sites. AreSites (script_of script.now).processes commits.now state.now sites.items) }
{
    sites_of(alloc, script.processes(), commits, state)
}
