//! On which sides of which channels nobody ever offers. The texts of all processes are walked for an answer: so it is kept
//! for all offers that wait there.

ghost use Rattle.std.specs.Prelude.{◌≡◌, IfOk, OnOk, map};
ghost use Rattle.configurations.specs.Serving.{nobody_serves};
ghost use Rattle.script_tree.specs.Processes.{proc_of};
ghost use Rattle.pcml_why.specs.Served.{AreAnswers, is_for, is_offered, partner_of};
ghost use Rattle.std.specs.List.{list_any};

use configurations::nobody_serves;
use pcml_why_sites::{Site, offers_on, same_side};
use protocol_values::{Base, Offer, Side};
use script_tree::Proc;
use std::alloc::{AllocError, Global};

/// Whether nobody ever offers on this side of the channel.
#[derive(Clone, Copy)]
pub(crate) struct Answer {
    pub(crate) side: Side,
    pub(crate) chan: u8,
    pub(crate) is_by_nobody: bool,
}

impl Answer {
    fn is_for(&self, side: Side, chan: u8) -> bool
        ensures { result ≡ is_for side chan self.now }
    {
        same_side(self.side, side) && self.chan == chan
    }
}

fn is_known(answers: &[Answer], side: Side, chan: u8) -> bool
    ensures { result ≡ list_any (is_for side chan) answers.now }
{
    for answer in answers {
        if answer.is_for(side, chan) {
            return true;
        }
    }
    false
}

/// The side of the channel on which the offer would be met.
fn partner_of(base: Base) -> Option<(Side, u8)>
    ensures { result ≡ partner_of base }
{
    match base {
        Base::Send(chan, _) => Some((Side::Receives, chan)),
        Base::Recv(chan) => Some((Side::Sends, chan)),
        Base::Always(_) | Base::OnNack(_) | Base::OnEnd(_) | Base::Never => None,
    }
}

/// Whether a process waits with an offer there.
fn is_offered(sites: &[Site<'_>], side: Side, chan: u8) -> bool
    ensures { result ≡ is_offered side chan sites.now }
{
    for site in sites {
        if offers_on(side, chan, site) {
            return true;
        }
    }
    false
}

/// Appends the answer for the side of the channel, where it is not known and nobody waits there.
fn push_answer(
    answers: &mut Vec<Answer>,
    processes: &[Proc],
    sites: &[Site<'_>],
    side: Side,
    chan: u8,
) -> Result<(), AllocError>
    ensures { OnOk result (AreAnswers (map proc_of processes.now) answers.old.items → AreAnswers (map proc_of processes.now) answers.new.items) }
{
    if is_known(answers, side, chan) || is_offered(sites, side, chan) {
        return Ok(());
    }
    answers.push(Answer {
        side,
        chan,
        is_by_nobody: nobody_serves(processes, side, chan),
    })?;
    Ok(())
}

/// Appends the answers for the offers.
fn push_answers(
    answers: &mut Vec<Answer>,
    processes: &[Proc],
    sites: &[Site<'_>],
    offers: &[Offer],
) -> Result<(), AllocError>
    ensures { OnOk result (AreAnswers (map proc_of processes.now) answers.old.items → AreAnswers (map proc_of processes.now) answers.new.items) }
{
    for offer in offers {
        if let Some((side, chan)) = partner_of(offer.base) {
            push_answer(answers, processes, sites, side, chan)?;
        }
    }
    Ok(())
}

/// The answers for the offers that wait and that no offer could meet.
pub(crate) fn answers_of(
    alloc: Global,
    processes: &[Proc],
    sites: &[Site<'_>],
) -> Result<Vec<Answer>, AllocError>
    ensures { IfOk result (λ answers. AreAnswers (map proc_of processes.now) answers.items) }
{
    let mut answers = Vec::new(alloc);
    for site in sites {
        if site.end.is_waiting() {
            push_answers(&mut answers, processes, sites, site.offers)?;
        }
    }
    Ok(answers)
}

/// Whether nobody ever offers on this side of the channel: by the answers, or where there is none, by the texts.
pub(crate) fn is_by_nobody(answers: &[Answer], processes: &[Proc], side: Side, chan: u8) -> bool
    requires { AreAnswers (map proc_of processes.now) answers.now }
    ensures { result ≡ nobody_serves (map proc_of processes.now) side chan }
{
    for answer in answers {
        if answer.is_for(side, chan) {
            return answer.is_by_nobody;
        }
    }
    nobody_serves(processes, side, chan)
}
