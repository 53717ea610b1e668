//! How each process stands, with what it printed or what it offers.

ghost use Rattle.std.specs.Prelude.{◌≡◌, ◌<◌, ◌≤◌, IfOk, length};
ghost use Rattle.std.specs.String.{string_bytes};
ghost use Rattle.script.specs.Scripts.{script_of};
ghost use Rattle.pcml_chart_layout.specs.Feet.{AreFeet, lines_below, offers_below, offers_of, stand_text};
ghost use Rattle.pcml_chart_layout.specs.Widths.{foot_length};
ghost use Rattle.journal_text.specs.Names.{named};
ghost use Rattle.journal_text.specs.Offers.{offer_text};

use crate::columns::Columns;
use crate::seen::seen_length;
use journal_replay::State;
use journal_text::{push_offer, push_printed};
use protocol_values::{Atom, Offer};
use script::Script;
use std::alloc::{AllocError, Global};
use thread::End;

/// How a process stands, what it printed, and what its open sync offers.
#[derive(Drop)]
pub struct Foot<'a> {
    end: End,
    printed: &'a [Atom],
    offers: &'a [Offer],
}

/// One for each process of the state, in their order.
pub fn feet_of<'a>(alloc: Global, state: &'a State) -> Result<Vec<Foot<'a>>, AllocError>
    ensures { IfOk result (λ feet. AreFeet state.now feet.items) }
{
    let mut feet = Vec::new(alloc);
    for thread in 0..state.threads() {
        let (offers, _) = state.open(thread);
        feet.push(Foot {
            end: state.end(thread),
            printed: state.output(thread),
            offers,
        })?;
    }
    Ok(feet)
}

/// What the process offers where it waits.
pub fn offers_of<'a>(foot: &Foot<'a>) -> &'a [Offer]
    ensures { result.now ≡ offers_of foot.now }
{
    if foot.end.is_waiting() {
        foot.offers
    } else {
        &[]
    }
}

/// How many offers stand below the foot of a process.
fn offers_below(columns: &Columns<'_>, feet: &[Foot<'_>], thread: usize) -> usize
    requires { thread < length feet.now }
    ensures { result ≡ offers_below columns.now.own.now feet.now thread }
{
    if columns.is_own(thread) {
        offers_of(&feet[thread]).len()
    } else {
        0
    }
}

/// How many lines stand below a foot at most.
pub(crate) fn lines_below(columns: &Columns<'_>, feet: &[Foot<'_>]) -> usize
    requires { length feet.now ≡ length columns.now.own.now }
    ensures { result ≡ lines_below columns.now.own.now feet.now }
{
    let mut most = 0;
    for thread in 0..columns.processes() {
        most = offers_below(columns, feet, thread).max(most);
    }
    most
}

/// How the process stands, and behind it what it printed where it ended.
pub fn stand_text(alloc: Global, script: &Script, foot: &Foot<'_>) -> Result<String, AllocError>
    ensures { IfOk result (λ text. string_bytes text ≡ stand_text (named (script_of script.now)) foot.now) }
{
    let mut text = String::new(alloc);
    text.push_str(foot.end.text())?;
    if foot.end.is_ended() {
        push_printed(&mut text, script, foot.printed)?;
    }
    Ok(text)
}

/// What the offer says.
pub fn offer_text(alloc: Global, script: &Script, offer: &Offer) -> Result<String, AllocError>
    ensures { IfOk result (λ text. string_bytes text ≡ offer_text (named (script_of script.now)) offer.now.base) }
{
    let mut text = String::new(alloc);
    push_offer(&mut text, script, offer.base)?;
    Ok(text)
}

/// The length of the longest line of a foot.
pub(crate) fn foot_length(alloc: Global, script: &Script, foot: &Foot<'_>) -> Result<u8, AllocError>
    ensures { IfOk result (λ long. long ≡ foot_length (named (script_of script.now)) foot.now) }
{
    let mut longest = 0;
    for offer in offers_of(foot) {
        longest = seen_length(&offer_text(alloc, script, offer)?).max(longest);
    }
    Ok(seen_length(&stand_text(alloc, script, foot)?).max(longest))
}
