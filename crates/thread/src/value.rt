//! What expressions, lists and tests come to.

ghost use Rattle.std.specs.Prelude.{◌≡◌, ◌∷◌, []};
ghost use Rattle.script_tree.specs.Trees.{term_of, expr_of, exprs_of, test_of};
ghost use Rattle.thread.specs.Values.{name_value, operand_value, combined, term_value, expr_value, list_value, is_same, compared, test_value};

use crate::Fault;
use protocol_values::{Atom, Message};
use script_tree::{Expr, Exprs, Name, Operand, Relation, Sign, Term, Terms, Test};

pub(crate) fn value_of_name(name: Name, variables: &[Option<Atom>]) -> Result<Atom, Fault>
    ensures { result ≡ name_value variables.now name }
{
    match name {
        Name::Channel(channel) => Ok(Atom::Chan(channel)),
        Name::Variable(variable) => match variables.get(variable) {
            Some(Some(atom)) => Ok(*atom),
            _ => Err(Fault::Unset),
        },
    }
}

fn value_of_operand(operand: Operand, variables: &[Option<Atom>]) -> Result<Atom, Fault>
    ensures { result ≡ operand_value variables.now operand }
{
    match operand {
        Operand::Number(number) => Ok(Atom::Num(number)),
        Operand::Named(name) => value_of_name(name, variables),
    }
}

/// The sum or the difference of two numbers.
fn combined(sign: Sign, left: Atom, right: Atom) -> Result<Atom, Fault>
    ensures { result ≡ combined sign left right }
{
    let (Atom::Num(left), Atom::Num(right)) = (left, right) else {
        return Err(Fault::Kind);
    };
    let number = match sign {
        Sign::Plus => left.checked_add(right),
        Sign::Minus => left.checked_sub(right),
    };
    match number {
        Some(number) => Ok(Atom::Num(number)),
        None => Err(Fault::Range),
    }
}

#[cycle(value)]
fn value_of_term(term: &Term, variables: &[Option<Atom>]) -> Result<Atom, Fault>
    ensures { result ≡ term_value variables.now (term_of term.now) }
{
    match term {
        Term::Operand(operand) => value_of_operand(*operand, variables),
        Term::Sum(sum) => value_of_sum(sum, variables),
    }
}

#[cycle(value)]
fn value_of_sum(expr: &Expr, variables: &[Option<Atom>]) -> Result<Atom, Fault>
    ensures { result ≡ expr_value variables.now (expr_of expr.now) }
{
    let mut value = value_of_operand(expr.first, variables)?;
    let mut terms = &expr.more;
    while let Terms::More(sign, term, more) = terms {
        let right = value_of_term(term, variables)?;
        value = combined(*sign, value, right)?;
        terms = more;
    }
    Ok(value)
}

/// What an expression comes to, with no call where it is one operand, or two.
#[inline(always)]
pub(crate) fn value_of(expr: &Expr, variables: &[Option<Atom>]) -> Result<Atom, Fault>
    ensures { result ≡ expr_value variables.now (expr_of expr.now) }
{
    let Terms::More(sign, term, more) = &expr.more else {
        return value_of_operand(expr.first, variables);
    };
    match (term, &**more) {
        (Term::Operand(right), Terms::Nothing) => {
            let left = value_of_operand(expr.first, variables)?;
            let right = value_of_operand(*right, variables)?;
            combined(*sign, left, right)
        }
        _ => value_of_sum(expr, variables),
    }
}

/// The message of two atoms.
#[inline(never)]
fn pair_of(a: &Expr, b: &Expr, variables: &[Option<Atom>]) -> Result<Message, Fault>
    ensures { result ≡ list_value variables.now (expr_of a.now ∷ expr_of b.now ∷ []) }
{
    let a = value_of(a, variables)?;
    let b = value_of(b, variables)?;
    Ok(Message::Two(a, b))
}

/// The message of three atoms.
#[inline(never)]
fn triple_of(a: &Expr, b: &Expr, c: &Expr, variables: &[Option<Atom>]) -> Result<Message, Fault>
    ensures { result ≡ list_value variables.now (expr_of a.now ∷ expr_of b.now ∷ expr_of c.now ∷ []) }
{
    let a = value_of(a, variables)?;
    let b = value_of(b, variables)?;
    let c = value_of(c, variables)?;
    Ok(Message::Three(a, b, c))
}

/// The message that a list comes to.
#[inline(always)]
pub(crate) fn message_of(list: &Exprs, variables: &[Option<Atom>]) -> Result<Message, Fault>
    ensures { result ≡ list_value variables.now (exprs_of list.now) }
{
    match list {
        Exprs::Empty => Ok(Message::Empty),
        Exprs::One(a) => {
            let a = value_of(a, variables)?;
            Ok(Message::One(a))
        }
        Exprs::Two(a, b) => pair_of(a, b, variables),
        Exprs::Three(a, b, c) => triple_of(a, b, c, variables),
    }
}

fn compared(relation: Relation, left: Atom, right: Atom) -> Result<bool, Fault>
    ensures { result ≡ compared relation left right }
{
    match relation {
        Relation::Equal => Ok(left == right),
        Relation::Less => match (left, right) {
            (Atom::Num(left), Atom::Num(right)) => Ok(left < right),
            _ => Err(Fault::Kind),
        },
    }
}

/// Whether a test holds.
pub(crate) fn holds(test: &Test, variables: &[Option<Atom>]) -> Result<bool, Fault>
    ensures { result ≡ test_value variables.now (test_of test.now) }
{
    let left = value_of(&test.left, variables)?;
    let right = value_of(&test.right, variables)?;
    compared(test.relation, left, right)
}
