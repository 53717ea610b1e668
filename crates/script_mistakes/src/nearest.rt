//! Which name is meant where one is unknown.

use crate::site::Site;
use script_reader::fault::Problem;
use script_token::{Placed, Symbol, Token};
use std::alloc::{AllocError, Global};
use strsim::levenshtein;

/// A name with more changes is another name.
const MOST_CHANGES: usize = 2;

/// Of names that are longer none is looked for.
const LONGEST: usize = 40;

/// How many names are tried at most.
const TRIES: usize = 16;

/// How many changes make one name of the other, where it is another, and few of them do.
fn changes(alloc: Global, name: &str, other: &str) -> Result<Option<usize>, AllocError> {
    if name.len() > LONGEST || other.len() > LONGEST || name == other {
        return Ok(None);
    }
    let changes = levenshtein(alloc, name, other)?;
    if changes > MOST_CHANGES || changes >= name.len() {
        return Ok(None);
    }
    Ok(Some(changes))
}

/// The name before the fault that is known there, and that the fewest changes make of this one.
pub(crate) fn nearest<'a>(
    alloc: Global,
    site: &Site<'a>,
    name: &str,
) -> Result<Option<&'a str>, AllocError> {
    let mut found = None;
    let mut least = MOST_CHANGES + 1;
    let mut tries = 0;
    for placed in &site.tokens[..site.place()] {
        let Token::Name(other) = placed.token else {
            continue;
        };
        let Some(count) = changes(alloc, name, other)? else {
            continue;
        };
        if count < least && tries < TRIES {
            tries += 1;
            if !site.has_with(alloc, Token::Name(other), Problem::UnknownName)? {
                found = Some(other);
                least = count;
            }
        }
    }
    Ok(found)
}

/// The word by which the name is declared behind the fault: `channel` or `process`, if it is.
pub(crate) fn declared_later(tokens: &[Placed<'_>], name: &str) -> Option<Symbol> {
    let mut word = None;
    for placed in tokens {
        match placed.token {
            Token::Name(other) => {
                if word.is_some() && name == other {
                    return word;
                }
                word = None;
            }
            Token::Symbol(symbol @ (Symbol::Channel | Symbol::Process)) => word = Some(symbol),
            Token::Symbol(_) | Token::Number(_) | Token::Bad => word = None,
        }
    }
    None
}
