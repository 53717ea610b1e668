//! Which processes wait for one another.

ghost use Rattle.std.specs.Prelude.{◌≡◌, ◌==◌, ◌&&◌, ◌<◌, ◌≤◌, ◌++◌, ℕ, IfOk, OnOk, MatchOption, length, get_or, true, false};
ghost use Rattle.std.specs.List.{list_any};
ghost use Rattle.script.specs.Scripts.{script_of};
ghost use Rattle.pcml_why_sites.specs.Writing.{seen_texts};
ghost use Rattle.pcml_why_sites.specs.Knots.{IsKnot, could_serve, has_former, has_next, is_held, is_pair, members_below, pairs_below, pairs_of, waits_for};
ghost use Rattle.journal_text.specs.Names.{named};

use crate::site::{Site, is_open};
use crate::writing::{WrittenOffer, could_offer};
use protocol_values::{Base, Offer, Side};
use script::Script;
use std::alloc::{AllocError, Global};

/// Where processes stand, and the offers that the text of each of them writes.
#[derive(Drop)]
pub struct WaitGraph<'a> {
    pub script: &'a Script,
    pub sites: &'a [Site<'a>],
    pub texts: &'a [Vec<WrittenOffer<'a>>],
}

/// The name of the channel; that of one that is not declared is empty.
pub(crate) fn channel_name(script: &Script, chan: u8) -> &str
    ensures { result.now ≡ (named (script_of script.now)).channel chan }
{
    if usize::from(chan) < script.channels() {
        script.channel_name(usize::from(chan))
    } else {
        ""
    }
}

impl<'a> WaitGraph<'a> {
    /// Whether process b could meet the offer, holds its nack in a sync that is open, or is the one whose end it
    /// waits for.
    pub(crate) fn could_serve(&self, b: usize, base: Base) -> bool
        requires { b < length self.now.texts.now }
        ensures { result ≡ could_serve (named (script_of self.now.script.now)) (seen_texts self.now.texts.now) self.now.sites.now b base }
    {
        match base {
            Base::Send(chan, _) => {
                could_offer(
                    Side::Receives,
                    channel_name(self.script, chan),
                    &self.texts[b],
                )
            }
            Base::Recv(chan) => {
                could_offer(Side::Sends, channel_name(self.script, chan), &self.texts[b])
            }
            Base::OnNack(nack) => usize::from(nack.thread) == b && is_open(self.sites, nack),
            Base::OnEnd(ended) => usize::from(ended) == b,
            Base::Always(_) | Base::Never => false,
        }
    }

    fn could_serve_some(&self, b: usize, offers: &[Offer]) -> bool
        requires { b < length self.now.texts.now }
        ensures { result ≡ list_any (λ o. could_serve (named (script_of self.now.script.now)) (seen_texts self.now.texts.now) self.now.sites.now b o.base) offers.now }
    {
        for offer in offers {
            if self.could_serve(b, offer.base) {
                return true;
            }
        }
        false
    }

    pub(crate) fn waits_for(&self, a: usize, b: usize) -> bool
        requires first { a < length self.now.sites.now }
        requires second { b < length self.now.sites.now }
        requires texts { length self.now.texts.now ≡ length self.now.sites.now }
        ensures { result ≡ waits_for (named (script_of self.now.script.now)) (seen_texts self.now.texts.now) self.now.sites.now a b }
    {
        if a == b {
            return false;
        }
        let first = &self.sites[a];
        let second = &self.sites[b];
        first.end.is_waiting() && second.end.is_waiting() && self.could_serve_some(b, first.offers)
    }

    fn push_waits(&self, pairs: &mut Vec<(u8, u8)>, a: usize) -> Result<(), AllocError>
        requires few { length self.now.sites.now ≤ 64 }
        requires first { a < length self.now.sites.now }
        requires texts { length self.now.texts.now ≡ length self.now.sites.now }
        ensures { OnOk result (pairs.new.items ≡ pairs.old.items ++ pairs_of (waits_for (named (script_of self.now.script.now)) (seen_texts self.now.texts.now) self.now.sites.now) a (length self.now.sites.now)) }
    {
        for b in 0..self.sites.len() {
            if self.waits_for(a, b) {
                pairs.push((a as u8, b as u8))?;
            }
        }
        Ok(())
    }

    fn pairs(&self, alloc: Global) -> Result<Vec<(u8, u8)>, AllocError>
        requires few { length self.now.sites.now ≤ 64 }
        requires texts { length self.now.texts.now ≡ length self.now.sites.now }
        ensures { IfOk result (λ pairs. pairs.items ≡ pairs_below (waits_for (named (script_of self.now.script.now)) (seen_texts self.now.texts.now) self.now.sites.now) (length self.now.sites.now) (length self.now.sites.now)) }
    {
        let mut pairs = Vec::new(alloc);
        for a in 0..self.sites.len() {
            self.push_waits(&mut pairs, a)?;
        }
        Ok(pairs)
    }

    /// The pairs of processes of which the first waits for the second.
    fn waits(&self, alloc: Global) -> Result<Vec<(u8, u8)>, AllocError>
        requires few { length self.now.sites.now ≤ 64 }
        requires texts { length self.now.texts.now ≡ length self.now.sites.now }
        ensures { IfOk result (λ pairs. (a b : ℕ) → is_pair pairs.items a b ≡ waits_for (named (script_of self.now.script.now)) (seen_texts self.now.texts.now) self.now.sites.now a b) }
    {
        self.pairs(alloc)
    }

    /// Those that wait for one another, in their order.
    pub fn knot(&self, alloc: Global) -> Result<Vec<u8>, AllocError>
        requires few { length self.now.sites.now ≤ 64 }
        requires texts { length self.now.texts.now ≡ length self.now.sites.now }
        ensures { IfOk result (λ knot. IsKnot (length self.now.sites.now) (waits_for (named (script_of self.now.script.now)) (seen_texts self.now.texts.now) self.now.sites.now) knot.items) }
    {
        let pairs = self.waits(alloc)?;
        greatest_knot(alloc, &pairs, self.sites.len())
    }
}

fn is_member(members: &[bool], thread: u8) -> bool
    ensures { result ≡ get_or members.now thread false }
{
    match members.get(usize::from(thread)) {
        Some(is_member) => *is_member,
        None => false,
    }
}

/// Whether a pair leads from a process to a member.
fn leads(members: &[bool], a: usize, from: u8, to: u8) -> bool
    ensures { result ≡ ((from == a) && get_or members.now to false) }
{
    usize::from(from) == a && is_member(members, to)
}

/// Whether it waits for a member.
fn has_next(pairs: &[(u8, u8)], members: &[bool], a: usize) -> bool
    ensures { result ≡ has_next pairs.now members.now a }
{
    for pair in pairs {
        if leads(members, a, pair.0, pair.1) {
            return true;
        }
    }
    false
}

/// Whether a member waits for it.
fn has_former(pairs: &[(u8, u8)], members: &[bool], a: usize) -> bool
    ensures { result ≡ has_former pairs.now members.now a }
{
    for pair in pairs {
        if leads(members, a, pair.1, pair.0) {
            return true;
        }
    }
    false
}

/// A member that waits for no member, or that no member waits for.
fn loose(pairs: &[(u8, u8)], members: &[bool]) -> Option<usize>
    ensures { MatchOption result ((a : ℕ) → a < length members.now → get_or members.now a false ≡ true → is_held pairs.now members.now a ≡ true) (λ a. (a < length members.now) × (get_or members.now a false ≡ true) × (is_held pairs.now members.now a ≡ false)) }
{
    for a in 0..members.len() {
        if members[a] && !(has_next(pairs, members, a) && has_former(pairs, members, a)) {
            return Some(a);
        }
    }
    None
}

/// The members, in their order.
fn listed(alloc: Global, members: &[bool]) -> Result<Vec<u8>, AllocError>
    requires { length members.now ≤ 64 }
    ensures { IfOk result (λ listed. listed.items ≡ members_below (λ a. get_or members.now a false) (length members.now)) }
{
    let mut listed = Vec::new(alloc);
    for a in 0..members.len() {
        if members[a] {
            listed.push(a as u8)?;
        }
    }
    Ok(listed)
}

/// The greatest set each of whose members waits for a member, and is waited for by one: what is left when
/// those that do not hold are taken away, one after another.
fn greatest_knot(alloc: Global, pairs: &[(u8, u8)], count: usize) -> Result<Vec<u8>, AllocError>
    requires { count ≤ 64 }
    ensures { IfOk result (λ knot. IsKnot count (is_pair pairs.now) knot.items) }
{
    let mut members = vec![in alloc; true; count]?;
    while let Some(a) = loose(pairs, &members) {
        members[a] = false;
    }
    listed(alloc, &members)
}
