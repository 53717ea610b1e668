//! The part of each process in the text of a script.

ghost use Rattle.std.specs.Prelude.{◌≡◌, ◌≤◌, IfOk, length};
ghost use Rattle.std.specs.List.{after_first, before_first, position_or_len};
ghost use Rattle.script_token.specs.Lexemes.{seen};
ghost use Rattle.script_token.specs.Tokens.{view};
ghost use Rattle.pcml_why_sites.specs.Writing.{is_process, seen_texts, texts_below};

use crate::writing::{WrittenOffer, written_in};
use script_token::{Placed, Symbol, Token};
use std::alloc::{AllocError, Global};

fn is_process(token: &Token<'_>) -> bool
    ensures { result ≡ is_process (view token.now) }
{
    matches!(token, Token::Symbol(Symbol::Process))
}

/// Where the first word `process` stands, or how many tokens there are.
fn process_place(tokens: &[Placed<'_>]) -> usize
    ensures place { result ≡ position_or_len (λ p. is_process (view p.token)) tokens.now }
    ensures within { result ≤ length tokens.now }
{
    for (place, placed) in tokens.iter().enumerate() {
        if is_process(&placed.token) {
            return place;
        }
    }
    tokens.len()
}

fn before_process<'a>(tokens: &'a [Placed<'a>]) -> &'a [Placed<'a>]
    ensures { seen result.now ≡ before_first (λ p. is_process p.0) (seen tokens.now) }
{
    &tokens[..process_place(tokens)]
}

fn behind_process<'a>(tokens: &'a [Placed<'a>]) -> &'a [Placed<'a>]
    ensures { seen result.now ≡ after_first (λ p. is_process p.0) (seen tokens.now) }
{
    let place = process_place(tokens);
    if place < tokens.len() {
        &tokens[place + 1..]
    } else {
        &tokens[place..]
    }
}

/// The offers that the text of each of the first so many processes writes.
pub fn process_texts<'a>(
    alloc: Global,
    tokens: &'a [Placed<'a>],
    count: usize,
) -> Result<Vec<Vec<WrittenOffer<'a>>>, AllocError>
    ensures { IfOk result (λ texts. seen_texts texts.items ≡ texts_below (seen tokens.now) count) }
{
    let mut texts = Vec::new(alloc);
    let mut rest = tokens;
    for _process in 0..count {
        rest = behind_process(rest);
        texts.push(written_in(alloc, before_process(rest))?)?;
    }
    Ok(texts)
}
