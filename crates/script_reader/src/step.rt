//! Single tokens, taken from the front. How deep a token lies is told by the nesting that is left: where
//! there is none, a token that the grammar allows is one too many.

ghost use Rattle.std.specs.Prelude.{◌≡◌, ◌==◌, ◌<◌, OnOk, length};
ghost use Rattle.std.specs.Option.{option_map};
ghost use Rattle.script_reader.specs.Steps.{Tells, bare, name_at, number_at, next_is, accept_at, expect_at};
ghost use Rattle.script_reader.specs.declared.fault.Stop.TheVariants.{At};

use crate::fault::{Fault, Problem, Stop};
use script_token::{Placed, Symbol, Token, is_same};

/// Where a loop over the tokens begins, and how many there are.
#[tactic(auto, using(crate::proofs::Fronts::length_bare))]
pub fn begin<'a>(tokens: &'a [Placed<'a>]) -> (&'a [Placed<'a>], usize)
    ensures rest { result.0.now ≡ tokens.now }
    ensures count { result.1 ≡ length (bare tokens.now) }
{
    (tokens, tokens.len())
}

/// How many tokens there are.
#[tactic(auto, using(crate::proofs::Fronts::length_bare))]
pub fn left(tokens: &[Placed<'_>]) -> usize
    ensures { result ≡ length (bare tokens.now) }
{
    tokens.len()
}

/// Whether no token is left.
#[tactic(auto, using(crate::proofs::Fronts::length_bare))]
pub fn is_end(tokens: &[Placed<'_>]) -> bool
    ensures { result ≡ (length (bare tokens.now) == 0) }
{
    left(tokens) == 0
}

/// A problem at the token in front.
#[tactic(auto, using(crate::proofs::Fronts::length_bare))]
pub fn fault(problem: Problem, tokens: &[Placed<'_>]) -> Fault
    ensures { result ≡ record { problem = problem; left = length (bare tokens.now) } }
{
    Fault {
        problem,
        left: tokens.len(),
    }
}

/// A reader stops at the token in front.
pub fn stop(problem: Problem, tokens: &[Placed<'_>]) -> Stop
    ensures { result ≡ At (record { problem = problem; left = length (bare tokens.now) }) }
{
    Stop::At(fault(problem, tokens))
}

/// The name in front.
pub fn name_at<'a>(tokens: &'a [Placed<'a>]) -> Option<&'a str>
    ensures { option_map (λ name. name.now) result ≡ name_at (bare tokens.now) }
{
    let placed = tokens.first()?;
    match placed.token {
        Token::Name(name) => Some(name),
        _ => None,
    }
}

/// The number in front.
pub fn number_at(tokens: &[Placed<'_>]) -> Option<u32>
    ensures { result ≡ number_at (bare tokens.now) }
{
    let placed = tokens.first()?;
    match placed.token {
        Token::Number(number) => Some(number),
        _ => None,
    }
}

/// Whether the keyword or the mark stands in front.
#[tactic(auto, unfolding(crate::specs::Steps::next_is))]
pub fn is_next(tokens: &[Placed<'_>], symbol: Symbol) -> bool
    ensures { result ≡ next_is symbol (bare tokens.now) }
{
    let Some(placed) = tokens.first() else {
        return false;
    };
    match placed.token {
        Token::Symbol(found) => is_same(symbol, found),
        _ => false,
    }
}

/// The tokens behind the one in front.
#[tactic(auto, unfolding(crate::specs::Steps::accept_at))]
pub fn accept<'a>(tokens: &'a [Placed<'a>], nesting: usize) -> Result<&'a [Placed<'a>], Fault>
    ensures value { Tells (λ x. bare x.now) result (accept_at nesting (bare tokens.now)) }
    ensures deep { OnOk result (0 < nesting) }
{
    let Some((_, rest)) = tokens.split_first() else {
        return Err(Fault {
            problem: Problem::Syntax,
            left: 0,
        });
    };
    if nesting == 0 {
        return Err(fault(Problem::TooMany, tokens));
    }
    Ok(rest)
}

/// The tokens behind the keyword or the mark, which has to stand in front.
#[tactic(auto, unfolding(crate::specs::Steps::expect_at))]
pub fn expect<'a>(
    tokens: &'a [Placed<'a>],
    nesting: usize,
    symbol: Symbol,
) -> Result<&'a [Placed<'a>], Fault>
    ensures value { Tells (λ x. bare x.now) result (expect_at nesting symbol (bare tokens.now)) }
    ensures deep { OnOk result (0 < nesting) }
{
    if !is_next(tokens, symbol) {
        return Err(fault(Problem::Syntax, tokens));
    }
    let rest = accept(tokens, nesting)?;
    Ok(rest)
}
