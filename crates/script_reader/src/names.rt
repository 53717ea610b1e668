//! Names that are read and bound.

ghost use Rattle.std.specs.Prelude.{◌≡◌};
ghost use Rattle.script_grammar.specs.Meaning.{is_listed, is_among};
ghost use Rattle.script_reader.specs.Steps.{Gives, Tells, bare, here, is_taken, listed, read_name_at, read_process_at, spawn_process_at, bind_name_at, fourth_name_at, bind_names_at};
ghost use Rattle.script_tree.specs.Trees.{names_of};

use crate::fault::{Fault, Problem, Stop};
use crate::scope::{NAME_LEN, Scope};
use crate::step::{accept, fault, is_next, name_at, stop};
use script_token::{Placed, Symbol};
use script_tree::{Name, Names};

/// A name that is read.
#[tactic(auto, unfolding(crate::specs::Steps::read_name_at))]
pub fn read_name<'a>(
    scope: &Scope<'a>,
    tokens: &'a [Placed<'a>],
    nesting: usize,
) -> Result<(Name, &'a [Placed<'a>]), Fault>
    ensures { Tells (λ x. (x.0, bare x.1.now)) result (read_name_at nesting (here scope.now) (bare tokens.now)) }
{
    let Some(name) = name_at(tokens) else {
        return Err(fault(Problem::Syntax, tokens));
    };
    let Some(name) = scope.meaning(name) else {
        return Err(fault(Problem::UnknownName, tokens));
    };
    let rest = accept(tokens, nesting)?;
    Ok((name, rest))
}

/// A process that is named.
#[tactic(auto, unfolding(crate::specs::Steps::read_process_at))]
pub fn read_process<'a>(
    scope: &Scope<'a>,
    tokens: &'a [Placed<'a>],
    nesting: usize,
) -> Result<(u8, &'a [Placed<'a>]), Fault>
    ensures { Tells (λ x. (x.0, bare x.1.now)) result (read_process_at nesting (here scope.now) (bare tokens.now)) }
{
    let Some(name) = name_at(tokens) else {
        return Err(fault(Problem::Syntax, tokens));
    };
    let Some(process) = scope.process(name) else {
        return Err(fault(Problem::UnknownName, tokens));
    };
    let rest = accept(tokens, nesting)?;
    Ok((process, rest))
}

/// A process that is named in order to be spawned, and is not spawned already.
#[tactic(auto, unfolding(crate::specs::Steps::spawn_process_at))]
pub fn spawn_process<'a>(
    scope: &mut Scope<'a>,
    tokens: &'a [Placed<'a>],
    nesting: usize,
) -> Result<(u8, &'a [Placed<'a>]), Stop>
    ensures { Gives (λ x. (x.0, here scope.new, bare x.1.now)) result (spawn_process_at nesting (here scope.old) (bare tokens.now)) }
{
    let Some(name) = name_at(tokens) else {
        return Err(stop(Problem::Syntax, tokens));
    };
    let Some(process) = scope.process(name) else {
        return Err(stop(Problem::UnknownName, tokens));
    };
    if scope.is_spawned(process) {
        return Err(stop(Problem::Twice, tokens));
    }
    let rest = accept(tokens, nesting)?;
    scope.spawned.push(process)?;
    Ok((process, rest))
}

/// Whether the variable is one of the list.
fn has(names: Names, variable: usize) -> bool
    ensures { result ≡ is_among (names_of names) variable }
{
    match names {
        Names::One(first) => variable == first,
        Names::Two(first, second) => variable == first || variable == second,
        Names::Three(first, second, third) => {
            variable == first || variable == second || variable == third
        }
    }
}

/// Whether the variable, if there is one, is of the list, if there is one.
fn is_listed(list: Option<Names>, variable: Option<usize>) -> bool
    ensures { result ≡ is_listed (listed list) variable }
{
    let Some(variable) = variable else {
        return false;
    };
    let Some(list) = list else {
        return false;
    };
    has(list, variable)
}

/// Whether the name stands for a channel, or for a variable of the list, if there is one.
fn is_taken(scope: &Scope<'_>, list: Option<Names>, name: &str) -> bool
    ensures { result ≡ is_taken (listed list) (here scope.now) name.now }
{
    scope.channels.number(name).is_some() || is_listed(list, scope.variables.number(name))
}

/// A name that is bound, behind those of its list.
#[tactic(auto, unfolding(crate::specs::Steps::bind_name_at))]
pub fn bind_name<'a>(
    scope: &mut Scope<'a>,
    tokens: &'a [Placed<'a>],
    nesting: usize,
    list: Option<Names>,
) -> Result<(usize, &'a [Placed<'a>]), Stop>
    ensures { Gives (λ x. (x.0, here scope.new, bare x.1.now)) result (bind_name_at nesting (listed list) (here scope.old) (bare tokens.now)) }
{
    let Some(name) = name_at(tokens) else {
        return Err(stop(Problem::Syntax, tokens));
    };
    if is_taken(scope, list, name) {
        return Err(stop(Problem::Twice, tokens));
    }
    if name.len() > NAME_LEN {
        return Err(stop(Problem::TooMany, tokens));
    }
    let rest = accept(tokens, nesting)?;
    let number = scope.bind(name)?;
    Ok((number, rest))
}

/// What is wrong at a fourth name.
#[tactic(auto, unfolding(crate::specs::Steps::fourth_name_at))]
fn fourth_name(scope: &Scope<'_>, tokens: &[Placed<'_>], list: Names) -> Problem
    ensures { result ≡ fourth_name_at (names_of list) (here scope.now) (bare tokens.now) }
{
    let Some(name) = name_at(tokens) else {
        return Problem::Syntax;
    };
    if is_taken(scope, Some(list), name) {
        return Problem::Twice;
    }
    Problem::TooMany
}

/// A list of names that are bound.
#[tactic(auto, unfolding(crate::specs::Steps::bind_names_at))]
pub fn bind_names<'a>(
    scope: &mut Scope<'a>,
    tokens: &'a [Placed<'a>],
    nesting: usize,
) -> Result<(Names, &'a [Placed<'a>]), Stop>
    ensures { Gives (λ x. (names_of x.0, here scope.new, bare x.1.now)) result (bind_names_at nesting (here scope.old) (bare tokens.now)) }
{
    let (first, rest) = bind_name(scope, tokens, nesting, None)?;
    let names = Names::One(first);
    if !is_next(rest, Symbol::Comma) {
        return Ok((names, rest));
    }
    let rest = accept(rest, nesting)?;
    let (second, rest) = bind_name(scope, rest, nesting, Some(names))?;
    let names = Names::Two(first, second);
    if !is_next(rest, Symbol::Comma) {
        return Ok((names, rest));
    }
    let rest = accept(rest, nesting)?;
    let (third, rest) = bind_name(scope, rest, nesting, Some(names))?;
    let names = Names::Three(first, second, third);
    if !is_next(rest, Symbol::Comma) {
        return Ok((names, rest));
    }
    let rest = accept(rest, nesting)?;
    Err(stop(fourth_name(scope, rest, names), rest))
}
