//! Which limit is passed.

use crate::site::Site;
use script_reader::fault::Problem;
use script_token::{Symbol, Token};
use std::alloc::{AllocError, Global};

/// The most bytes of a name.
const NAME_LEN: usize = 32;

fn is_base(symbol: Symbol) -> bool {
    matches!(
        symbol,
        Symbol::Send
            | Symbol::Recv
            | Symbol::Always
            | Symbol::Never
            | Symbol::Cancelled
            | Symbol::Joined
    )
}

/// The limit on what is counted, unless another word that is not counted lies too deep there as well.
fn counted<'a>(
    alloc: Global,
    site: &Site<'a>,
    other: Symbol,
    words: &'static str,
) -> Result<&'static str, AllocError> {
    if site.has_with(alloc, Token::Symbol(other), Problem::TooMany)? {
        return Ok(DEPTH);
    }
    Ok(words)
}

const DEPTH: &str = "a token lies at most 48 levels deep";

/// The limit that is passed where one too many stands.
pub(crate) fn limit_words<'a>(alloc: Global, site: &Site<'a>) -> Result<&'static str, AllocError> {
    let Some(here) = site.here() else {
        return Ok(DEPTH);
    };
    match here.token {
        Token::Name(name) => {
            if name.len() > NAME_LEN {
                return Ok("a name has at most 32 bytes");
            }
        }
        Token::Symbol(Symbol::Nack) => {
            return counted(alloc, site, Symbol::Guard, "a sync has at most 4 nacks");
        }
        Token::Symbol(symbol) => {
            if is_base(symbol) {
                let words = "a sync has at most 8 base events";
                return counted(alloc, site, Symbol::Choose, words);
            }
        }
        Token::Number(_) | Token::Bad => {}
    }
    Ok(if site.is_before(Symbol::Channel) {
        "a script has at most 256 channels"
    } else if site.is_before(Symbol::Process) {
        "a script has at most 64 processes"
    } else if site.is_before(Symbol::Comma) {
        "a message has at most 3 atoms"
    } else {
        DEPTH
    })
}
