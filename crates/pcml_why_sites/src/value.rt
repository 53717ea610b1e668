//! What expressions, lists and tests come to, or what is wrong.

ghost use Rattle.std.specs.Prelude.{◌≡◌, Some};
ghost use Rattle.script_tree.specs.Trees.{expr_of, exprs_of, term_of, terms_of, test_of};
ghost use Rattle.pcml_why_sites.specs.Standing.{always_value, cancelled_value, recv_value, send_value};
ghost use Rattle.pcml_why_sites.specs.Troubles.{channel_in, channel_value, computed, expr_value, list_value, nack_in, name_value, number_in, operand_name, operand_value, sum_name, term_name, term_value, test_value};

use crate::trouble::{Kind, Trouble};
use protocol_values::{Atom, Base, Message, NackName};
use script_tree::{Expr, Exprs, Name, Operand, Relation, Sign, Term, Terms, Test};

// NAMES AND OPERANDS

fn value_of_name(name: Name, variables: &[Option<Atom>]) -> Result<Atom, Trouble>
    ensures { result ≡ name_value variables.now name }
{
    match name {
        Name::Channel(channel) => Ok(Atom::Chan(channel)),
        Name::Variable(variable) => match variables.get(variable) {
            Some(Some(atom)) => Ok(*atom),
            _ => Err(Trouble::Unset { variable }),
        },
    }
}

fn value_of_operand(operand: Operand, variables: &[Option<Atom>]) -> Result<Atom, Trouble>
    ensures { result ≡ operand_value variables.now operand }
{
    match operand {
        Operand::Number(number) => Ok(Atom::Num(number)),
        Operand::Named(name) => value_of_name(name, variables),
    }
}

fn name_of_operand(operand: Operand) -> Option<Name>
    ensures { result ≡ operand_name operand }
{
    match operand {
        Operand::Number(_) => None,
        Operand::Named(name) => Some(name),
    }
}

/// The name that an expression is, if it is one.
fn name_of(first: Operand, more: &Terms) -> Option<Name>
    ensures { result ≡ sum_name first (terms_of more.now) }
{
    match more {
        Terms::Nothing => name_of_operand(first),
        Terms::More(_, _, _) => None,
    }
}

fn name_of_term(term: &Term) -> Option<Name>
    ensures { result ≡ term_name (term_of term.now) }
{
    match term {
        Term::Operand(operand) => name_of_operand(*operand),
        Term::Sum(sum) => name_of(sum.first, &sum.more),
    }
}

// THE KIND THAT IS WANTED

fn number_in(name: Option<Name>, value: Atom) -> Result<u32, Trouble>
    ensures { result ≡ number_in name value }
{
    match value {
        Atom::Num(number) => Ok(number),
        Atom::Chan(_) | Atom::Nack(_) => Err(Trouble::NotOfKind {
            name,
            value,
            wanted: Kind::Number,
        }),
    }
}

fn channel_in(name: Name, value: Atom) -> Result<u8, Trouble>
    ensures { result ≡ channel_in (Some name) value }
{
    match value {
        Atom::Chan(channel) => Ok(channel),
        Atom::Num(_) | Atom::Nack(_) => Err(Trouble::NotOfKind {
            name: Some(name),
            value,
            wanted: Kind::Channel,
        }),
    }
}

fn nack_in(name: Name, value: Atom) -> Result<NackName, Trouble>
    ensures { result ≡ nack_in (Some name) value }
{
    match value {
        Atom::Nack(nack) => Ok(nack),
        Atom::Num(_) | Atom::Chan(_) => Err(Trouble::NotOfKind {
            name: Some(name),
            value,
            wanted: Kind::Nack,
        }),
    }
}

// EXPRESSIONS

fn computed(sign: Sign, left: u32, right: u32) -> Result<Atom, Trouble>
    ensures { result ≡ computed sign left right }
{
    match sign {
        Sign::Plus => match left.checked_add(right) {
            Some(sum) => Ok(Atom::Num(sum)),
            None => Err(Trouble::Above { left, right }),
        },
        Sign::Minus => match left.checked_sub(right) {
            Some(difference) => Ok(Atom::Num(difference)),
            None => Err(Trouble::Below { left, right }),
        },
    }
}

#[cycle(value)]
fn value_of_term(term: &Term, variables: &[Option<Atom>]) -> Result<Atom, Trouble>
    ensures { result ≡ term_value variables.now (term_of term.now) }
{
    match term {
        Term::Operand(operand) => value_of_operand(*operand, variables),
        Term::Sum(sum) => value_of(sum, variables),
    }
}

#[cycle(value)]
pub(crate) fn value_of(expr: &Expr, variables: &[Option<Atom>]) -> Result<Atom, Trouble>
    ensures { result ≡ expr_value variables.now (expr_of expr.now) }
{
    let mut value = value_of_operand(expr.first, variables)?;
    let mut name = name_of_operand(expr.first);
    let mut terms = &expr.more;
    while let Terms::More(sign, term, more) = terms {
        let right = value_of_term(term, variables)?;
        let left = number_in(name, value)?;
        let right = number_in(name_of_term(term), right)?;
        value = computed(*sign, left, right)?;
        name = None;
        terms = more;
    }
    Ok(value)
}

// LISTS AND TESTS

/// The message that a list comes to.
pub(crate) fn message_of(list: &Exprs, variables: &[Option<Atom>]) -> Result<Message, Trouble>
    ensures { result ≡ list_value variables.now (exprs_of list.now) }
{
    match list {
        Exprs::Empty => Ok(Message::Empty),
        Exprs::One(a) => {
            let a = value_of(a, variables)?;
            Ok(Message::One(a))
        }
        Exprs::Two(a, b) => {
            let a = value_of(a, variables)?;
            let b = value_of(b, variables)?;
            Ok(Message::Two(a, b))
        }
        Exprs::Three(a, b, c) => {
            let a = value_of(a, variables)?;
            let b = value_of(b, variables)?;
            let c = value_of(c, variables)?;
            Ok(Message::Three(a, b, c))
        }
    }
}

/// Whether a test holds.
pub(crate) fn holds(test: &Test, variables: &[Option<Atom>]) -> Result<bool, Trouble>
    ensures { result ≡ test_value variables.now (test_of test.now) }
{
    let left = value_of(&test.left, variables)?;
    let right = value_of(&test.right, variables)?;
    match test.relation {
        Relation::Equal => Ok(left == right),
        Relation::Less => {
            let left = number_in(name_of(test.left.first, &test.left.more), left)?;
            let right = number_in(name_of(test.right.first, &test.right.more), right)?;
            Ok(left < right)
        }
    }
}

// BASE EVENTS

fn channel_of(name: Name, variables: &[Option<Atom>]) -> Result<u8, Trouble>
    ensures { result ≡ channel_value variables.now name }
{
    let value = value_of_name(name, variables)?;
    channel_in(name, value)
}

pub(crate) fn send(channel: Name, list: &Exprs, variables: &[Option<Atom>]) -> Result<Base, Trouble>
    ensures { result ≡ send_value variables.now channel (exprs_of list.now) }
{
    let channel = channel_of(channel, variables)?;
    let message = message_of(list, variables)?;
    Ok(Base::Send(channel, message))
}

pub(crate) fn recv(channel: Name, variables: &[Option<Atom>]) -> Result<Base, Trouble>
    ensures { result ≡ recv_value variables.now channel }
{
    let channel = channel_of(channel, variables)?;
    Ok(Base::Recv(channel))
}

pub(crate) fn always(list: &Exprs, variables: &[Option<Atom>]) -> Result<Base, Trouble>
    ensures { result ≡ always_value variables.now (exprs_of list.now) }
{
    let message = message_of(list, variables)?;
    Ok(Base::Always(message))
}

pub(crate) fn cancelled(nack: Name, variables: &[Option<Atom>]) -> Result<Base, Trouble>
    ensures { result ≡ cancelled_value variables.now nack }
{
    let value = value_of_name(nack, variables)?;
    let nack = nack_in(nack, value)?;
    Ok(Base::OnNack(nack))
}
