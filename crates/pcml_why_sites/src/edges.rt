//! Who waits for whom among those that wait for one another, at which lines.

ghost use Rattle.std.specs.Prelude.{◌≡◌, ◌<◌, OnOk, length};
ghost use Rattle.script.specs.Scripts.{script_of};
ghost use Rattle.pcml_why_sites.specs.Writing.{seen_offers, seen_texts};
ghost use Rattle.pcml_why_sites.specs.Edges.{at_line, edge_if, edge_text, edges_of, edges_text, first_service, line_in, line_offering, service_text};
ghost use Rattle.pcml_why_sites.specs.Knots.{offers_at};
ghost use Rattle.std.specs.Prelude.{slice_get};
ghost use Rattle.journal_text.specs.Names.{named};
ghost use Rattle.script.specs.Appending.{Adds};

use crate::knot::{WaitGraph, channel_name};
use crate::site::Site;
use crate::writing::WrittenOffer;
use journal_text::{push_channel, push_thread};
use protocol_values::{Base, Offer, Side};
use std::alloc::AllocError;

/// The line of the first offer that is written on this side of the channel.
fn line_offering(side: Side, name: &str, text: &[WrittenOffer<'_>]) -> usize
    ensures { result ≡ line_offering side name.now (seen_offers text.now) }
{
    let mut rest = text;
    while let [first, more @ ..] = rest {
        if first.is_on(side, name) {
            return first.line;
        }
        rest = more;
    }
    0
}

/// The line at which the process stands.
fn line_in(sites: &[Site<'_>], process: usize) -> usize
    ensures { result ≡ line_in (slice_get sites.now process) }
{
    match sites.get(process) {
        Some(site) => site.line,
        None => 0,
    }
}

/// What the process offers where it waits.
fn offers_at<'a>(sites: &[Site<'a>], process: usize) -> &'a [Offer]
    ensures { result.now ≡ offers_at (slice_get sites.now process) }
{
    match sites.get(process) {
        Some(site) => {
            if site.end.is_waiting() {
                site.offers
            } else {
                &[]
            }
        }
        None => &[],
    }
}

#[tactic(auto, unfolding(crate::specs::Edges::at_line))]
fn push_at_line(out: &mut String, line: usize) -> Result<(), AllocError>
    ensures { OnOk result (Adds out.old out.new (at_line line)) }
{
    write!(out, " at line {line}")
}

impl WaitGraph<'_> {
    /// Appends with what the process could serve an offer, and at which line.
    fn push_service(&self, out: &mut String, process: usize, base: Base) -> Result<(), AllocError>
        requires { process < length self.now.texts.now }
        ensures { OnOk result (Adds out.old out.new (service_text (named (script_of self.now.script.now)) (seen_texts self.now.texts.now) self.now.sites.now process base)) }
    {
        match base {
            Base::Send(chan, _) => {
                let name = channel_name(self.script, chan);
                out.push_str("recv ")?;
                push_channel(out, self.script, chan)?;
                push_at_line(
                    out,
                    line_offering(Side::Receives, name, &self.texts[process]),
                )
            }
            Base::Recv(chan) => {
                let name = channel_name(self.script, chan);
                out.push_str("send ")?;
                push_channel(out, self.script, chan)?;
                push_at_line(out, line_offering(Side::Sends, name, &self.texts[process]))
            }
            Base::OnNack(_) => {
                out.push_str("its sync")?;
                push_at_line(out, line_in(self.sites, process))
            }
            Base::OnEnd(_) => {
                out.push_str("its end, it waits")?;
                push_at_line(out, line_in(self.sites, process))
            }
            Base::Always(_) | Base::Never => Ok(()),
        }
    }

    /// Appends with what the process could serve the first of the offers that it could serve.
    fn push_first_service(
        &self,
        out: &mut String,
        process: usize,
        offers: &[Offer],
    ) -> Result<(), AllocError>
        requires { process < length self.now.texts.now }
        ensures { OnOk result (Adds out.old out.new (first_service (named (script_of self.now.script.now)) (seen_texts self.now.texts.now) self.now.sites.now process offers.now)) }
    {
        let mut rest = offers;
        while let [first, more @ ..] = rest {
            if self.could_serve(process, first.base) {
                return self.push_service(out, process, first.base);
            }
            rest = more;
        }
        Ok(())
    }

    fn push_edge(&self, out: &mut String, a: u8, b: u8) -> Result<(), AllocError>
        requires { b < length self.now.texts.now }
        ensures { OnOk result (Adds out.old out.new (edge_text (named (script_of self.now.script.now)) (seen_texts self.now.texts.now) self.now.sites.now a b)) }
    {
        out.push_str("  ")?;
        push_thread(out, self.script, a)?;
        push_at_line(out, line_in(self.sites, usize::from(a)))?;
        out.push_str(" for ")?;
        push_thread(out, self.script, b)?;
        out.push_str(": ")?;
        self.push_first_service(out, usize::from(b), offers_at(self.sites, usize::from(a)))?;
        out.push_str("\n")
    }

    /// Appends a line, where the one waits for the other.
    fn push_edge_if(&self, out: &mut String, a: u8, b: u8) -> Result<(), AllocError>
        requires { length self.now.texts.now ≡ length self.now.sites.now }
        ensures { OnOk result (Adds out.old out.new (edge_if (named (script_of self.now.script.now)) (seen_texts self.now.texts.now) self.now.sites.now a b)) }
    {
        let (first, second) = (usize::from(a), usize::from(b));
        if first >= self.sites.len() || second >= self.sites.len() {
            return Ok(());
        }
        if !self.waits_for(first, second) {
            return Ok(());
        }
        self.push_edge(out, a, b)
    }

    fn push_edges_of(&self, out: &mut String, knot: &[u8], a: u8) -> Result<(), AllocError>
        requires { length self.now.texts.now ≡ length self.now.sites.now }
        ensures { OnOk result (Adds out.old out.new (edges_of (named (script_of self.now.script.now)) (seen_texts self.now.texts.now) self.now.sites.now knot.now a)) }
    {
        for b in knot {
            self.push_edge_if(out, a, *b)?;
        }
        Ok(())
    }

    /// Appends a line for each two of those that wait for one another of which the one waits for the other.
    pub fn push_edges(&self, out: &mut String, knot: &[u8]) -> Result<(), AllocError>
        requires { length self.now.texts.now ≡ length self.now.sites.now }
        ensures { OnOk result (Adds out.old out.new (edges_text (named (script_of self.now.script.now)) (seen_texts self.now.texts.now) self.now.sites.now knot.now)) }
    {
        for a in knot {
            self.push_edges_of(out, knot, *a)?;
        }
        Ok(())
    }
}
