//! Expressions, tests and lists, read from the front.

ghost use Rattle.std.specs.Prelude.{◌≡◌, ◌-◌, IfOk, Ok, [], map};
ghost use Rattle.script_reader.specs.Steps.{Gives, Tells, bare, here};
ghost use Rattle.script_tree.specs.Trees.{terms_of, term_of, expr_of, exprs_of, test_of};
ghost use Rattle.script_reader.specs.Exprs.{parts_of, signed_of, operand_with, sign_at, sum_at, expr_at, relation_at, test_at, fourth_at, members_at, list_at};
ghost use Rattle.script_grammar.specs.Meaning.{linked, whole, parts_term};

use crate::fault::{Fault, Problem, Stop};
use crate::names::read_name;
use crate::scope::Scope;
use crate::step::{accept, expect, is_next, name_at, number_at, stop};
use script_token::{Placed, Symbol};
use script_tree::{Expr, Exprs, Operand, Relation, Sign, Term, Terms, Test};
use std::alloc::{AllocError, Global};
use std::sync::Arc;

/// An expression that is being read: its first operand, and the terms behind it so far.
#[derive(Drop)]
pub(crate) struct Sum {
    first: Operand,
    more: Vec<(Sign, Term)>,
}

/// The terms, linked.
fn link(alloc: Global, mut terms: Vec<(Sign, Term)>) -> Result<Terms, AllocError>
    ensures { IfOk result (λ t. terms_of t ≡ linked (map signed_of terms.items)) }
{
    let mut linked = Terms::Nothing;
    while let Some((sign, term)) = terms.pop() {
        linked = Terms::More(sign, term, Arc::new(alloc, linked)?);
    }
    Ok(linked)
}

/// The sum as an expression.
fn whole(alloc: Global, sum: Sum) -> Result<Expr, AllocError>
    ensures { IfOk result (λ e. expr_of e ≡ whole (parts_of sum)) }
{
    let Sum { first, more } = sum;
    let more = link(alloc, more)?;
    Ok(Expr { first, more })
}

/// The sum as a term behind a sign.
fn term_of(alloc: Global, sum: Sum) -> Result<Term, AllocError>
    ensures { IfOk result (λ t. term_of t ≡ parts_term (parts_of sum)) }
{
    if sum.more.is_empty() {
        return Ok(Term::Operand(sum.first));
    }
    let expr = whole(alloc, sum)?;
    Ok(Term::Sum(Arc::new(alloc, expr)?))
}

fn alone(alloc: Global, first: Operand) -> Sum
    ensures { parts_of result ≡ (first, []) }
{
    Sum {
        first,
        more: Vec::new(alloc),
    }
}

/// A number, a name, or an expression in parentheses.
#[cycle(sum)]
#[tactic(auto, unfolding(crate::specs::Exprs::operand_with))]
fn operand<'a>(
    alloc: Global,
    scope: &Scope<'a>,
    tokens: &'a [Placed<'a>],
    nesting: usize,
) -> Result<(Sum, &'a [Placed<'a>]), Stop>
    ensures { Gives (λ x. (parts_of x.0, bare x.1.now)) result (operand_with (sum_at (nesting - 1) (here scope.now)) nesting (here scope.now) (bare tokens.now)) }
{
    if let Some(number) = number_at(tokens) {
        let rest = accept(tokens, nesting)?;
        return Ok((alone(alloc, Operand::Number(number)), rest));
    }
    if name_at(tokens).is_some() {
        let (name, rest) = read_name(scope, tokens, nesting)?;
        return Ok((alone(alloc, Operand::Named(name)), rest));
    }
    if !is_next(tokens, Symbol::OpenParen) {
        return Err(stop(Problem::Syntax, tokens));
    }
    let rest = accept(tokens, nesting)?;
    let (sum, rest) = sum_of(alloc, scope, rest, nesting - 1)?;
    let rest = expect(rest, nesting - 1, Symbol::CloseParen)?;
    Ok((sum, rest))
}

/// The sign in front, if there is one.
fn sign(tokens: &[Placed<'_>]) -> Option<Sign>
    ensures { result ≡ sign_at (bare tokens.now) }
{
    if is_next(tokens, Symbol::Plus) {
        Some(Sign::Plus)
    } else if is_next(tokens, Symbol::Minus) {
        Some(Sign::Minus)
    } else {
        None
    }
}

/// A term, and the terms that follow.
#[cycle(sum)]
fn sum_of<'a>(
    alloc: Global,
    scope: &Scope<'a>,
    tokens: &'a [Placed<'a>],
    nesting: usize,
) -> Result<(Sum, &'a [Placed<'a>]), Stop>
    ensures { Gives (λ x. (parts_of x.0, bare x.1.now)) result (sum_at nesting (here scope.now) (bare tokens.now)) }
{
    let (mut sum, mut rest) = operand(alloc, scope, tokens, nesting)?;
    for _turn in 0..tokens.len() {
        let Some(sign) = sign(rest) else {
            return Ok((sum, rest));
        };
        let after = accept(rest, nesting)?;
        let (term, after) = operand(alloc, scope, after, nesting)?;
        sum.more.push((sign, term_of(alloc, term)?))?;
        rest = after;
    }
    Ok((sum, rest))
}

/// An expression.
#[tactic(auto, unfolding(crate::specs::Exprs::expr_at))]
pub fn read_expr<'a>(
    alloc: Global,
    scope: &Scope<'a>,
    tokens: &'a [Placed<'a>],
    nesting: usize,
) -> Result<(Expr, &'a [Placed<'a>]), Stop>
    ensures { Gives (λ x. (expr_of x.0, bare x.1.now)) result (expr_at nesting (here scope.now) (bare tokens.now)) }
{
    let (sum, rest) = sum_of(alloc, scope, tokens, nesting)?;
    let expr = whole(alloc, sum)?;
    Ok((expr, rest))
}

/// What stands between the two sides of a test.
#[tactic(auto, unfolding(crate::specs::Exprs::relation_at))]
fn relation<'a>(
    tokens: &'a [Placed<'a>],
    nesting: usize,
) -> Result<(Relation, &'a [Placed<'a>]), Fault>
    ensures { Tells (λ x. (x.0, bare x.1.now)) result (relation_at nesting (bare tokens.now)) }
{
    if is_next(tokens, Symbol::Equal) {
        let rest = accept(tokens, nesting)?;
        return Ok((Relation::Equal, rest));
    }
    let rest = expect(tokens, nesting, Symbol::Less)?;
    Ok((Relation::Less, rest))
}

/// A test.
#[tactic(auto, unfolding(crate::specs::Exprs::test_at))]
pub fn read_test<'a>(
    alloc: Global,
    scope: &Scope<'a>,
    tokens: &'a [Placed<'a>],
    nesting: usize,
) -> Result<(Test, &'a [Placed<'a>]), Stop>
    ensures { Gives (λ x. (test_of x.0, bare x.1.now)) result (test_at nesting (here scope.now) (bare tokens.now)) }
{
    let (left, rest) = read_expr(alloc, scope, tokens, nesting)?;
    let (relation, rest) = relation(rest, nesting)?;
    let (right, rest) = read_expr(alloc, scope, rest, nesting)?;
    let test = Test {
        left,
        relation,
        right,
    };
    Ok((test, rest))
}

/// What is wrong at the first token of a fourth member.
#[tactic(auto, unfolding(crate::specs::Exprs::fourth_at))]
fn fourth(scope: &Scope<'_>, tokens: &[Placed<'_>]) -> Problem
    ensures { result ≡ fourth_at (here scope.now) (bare tokens.now) }
{
    if let Some(name) = name_at(tokens) {
        if !scope.is_known(name) {
            return Problem::UnknownName;
        }
        return Problem::TooMany;
    }
    if number_at(tokens).is_some() || is_next(tokens, Symbol::OpenParen) {
        return Problem::TooMany;
    }
    Problem::Syntax
}

/// The members of a list, up to the closing mark.
#[tactic(auto, unfolding(crate::specs::Exprs::members_at))]
fn members<'a>(
    alloc: Global,
    scope: &Scope<'a>,
    tokens: &'a [Placed<'a>],
    nesting: usize,
) -> Result<(Exprs, &'a [Placed<'a>]), Stop>
    ensures { Gives (λ x. (exprs_of x.0, bare x.1.now)) result (members_at nesting (here scope.now) (bare tokens.now)) }
{
    if is_next(tokens, Symbol::CloseParen) {
        return Ok((Exprs::Empty, tokens));
    }
    let (first, rest) = read_expr(alloc, scope, tokens, nesting)?;
    if !is_next(rest, Symbol::Comma) {
        return Ok((Exprs::One(first), rest));
    }
    let rest = accept(rest, nesting)?;
    let (second, rest) = read_expr(alloc, scope, rest, nesting)?;
    if !is_next(rest, Symbol::Comma) {
        return Ok((Exprs::Two(first, second), rest));
    }
    let rest = accept(rest, nesting)?;
    let (third, rest) = read_expr(alloc, scope, rest, nesting)?;
    if !is_next(rest, Symbol::Comma) {
        return Ok((Exprs::Three(first, second, third), rest));
    }
    let rest = accept(rest, nesting)?;
    Err(stop(fourth(scope, rest), rest))
}

/// A list of expressions in parentheses.
#[tactic(auto, unfolding(crate::specs::Exprs::list_at))]
pub fn read_list<'a>(
    alloc: Global,
    scope: &Scope<'a>,
    tokens: &'a [Placed<'a>],
    nesting: usize,
) -> Result<(Exprs, &'a [Placed<'a>]), Stop>
    ensures { Gives (λ x. (exprs_of x.0, bare x.1.now)) result (list_at nesting (here scope.now) (bare tokens.now)) }
{
    let rest = expect(tokens, nesting, Symbol::OpenParen)?;
    let (list, rest) = members(alloc, scope, rest, nesting - 1)?;
    let rest = expect(rest, nesting - 1, Symbol::CloseParen)?;
    Ok((list, rest))
}
