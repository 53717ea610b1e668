//! The offers that the text of a process writes.

ghost use Rattle.std.specs.Prelude.{◌≡◌, ◌++◌, IfOk, OnOk, map};
ghost use Rattle.script_token.specs.Lexemes.{seen, seen_at};
ghost use Rattle.script_token.specs.Tokens.{view};
ghost use Rattle.pcml_why_sites.specs.Writing.{could_offer, is_on, same_side, seen_offer, seen_offers, side_of, written_at, written_in, written_on};

use protocol_values::Side;
use script_token::{Placed, Symbol, Token};
use std::alloc::{AllocError, Global};

/// An offer that a text writes: the word of its side stands directly before the name of its channel.
#[derive(Clone, Copy)]
pub struct WrittenOffer<'a> {
    pub(crate) side: Side,
    pub(crate) name: &'a str,
    pub(crate) line: usize,
}

/// The side of the offers that begin with this word.
fn side_of(token: &Token<'_>) -> Option<Side>
    ensures { result ≡ side_of (view token.now) }
{
    match token {
        Token::Symbol(Symbol::Send) => Some(Side::Sends),
        Token::Symbol(Symbol::Recv) => Some(Side::Receives),
        _ => None,
    }
}

fn push_named<'a>(
    written: &mut Vec<WrittenOffer<'a>>,
    side: Side,
    line: usize,
    token: Token<'a>,
) -> Result<(), AllocError>
    ensures { OnOk result (seen_offers written.new.items ≡ seen_offers written.old.items ++ written_on side line (view token.entry)) }
{
    match token {
        Token::Name(name) => written.push(WrittenOffer { side, name, line })?,
        _ => {}
    }
    Ok(())
}

/// Appends the offer that begins with this token, if one does.
fn push_written<'a>(
    written: &mut Vec<WrittenOffer<'a>>,
    first: Placed<'a>,
    more: &[Placed<'a>],
) -> Result<(), AllocError>
    ensures { OnOk result (seen_offers written.new.items ≡ seen_offers written.old.items ++ written_at (side_of (view first.entry.token)) first.entry.line (seen more.now)) }
{
    match side_of(&first.token) {
        Some(side) => match more {
            [next, ..] => push_named(written, side, first.line, next.token),
            [] => Ok(()),
        },
        None => Ok(()),
    }
}

/// The offers that are written there, in their order.
pub(crate) fn written_in<'a>(
    alloc: Global,
    tokens: &[Placed<'a>],
) -> Result<Vec<WrittenOffer<'a>>, AllocError>
    ensures { IfOk result (λ written. seen_offers written.items ≡ written_in (seen tokens.now)) }
{
    let mut written = Vec::new(alloc);
    let mut rest = tokens;
    while let [first, more @ ..] = rest {
        push_written(&mut written, *first, more)?;
        rest = more;
    }
    Ok(written)
}

/// Whether the two are one side.
pub fn same_side(first: Side, second: Side) -> bool
    ensures { result ≡ same_side first second }
{
    match (first, second) {
        (Side::Sends, Side::Sends) | (Side::Receives, Side::Receives) => true,
        (Side::Sends, Side::Receives) | (Side::Receives, Side::Sends) => false,
    }
}

impl WrittenOffer<'_> {
    /// Whether it is on this side of the channel of this name.
    pub(crate) fn is_on(&self, side: Side, name: &str) -> bool
        ensures { result ≡ is_on side name.now (seen_offer self.now) }
    {
        same_side(self.side, side) && self.name.as_bytes() == name.as_bytes()
    }
}

/// Whether an offer on this side of the channel is among them.
pub(crate) fn could_offer(side: Side, name: &str, text: &[WrittenOffer<'_>]) -> bool
    ensures { result ≡ could_offer side name.now (seen_offers text.now) }
{
    let mut rest = text;
    while let [first, more @ ..] = rest {
        if first.is_on(side, name) {
            return true;
        }
        rest = more;
    }
    false
}
