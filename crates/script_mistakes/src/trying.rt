//! What may stand behind the first tokens of a script.

ghost use Rattle.std.specs.Prelude.{◌≡◌, ◌≤◌, ◌-◌, ◌↔◌, Err, Some, IfOk, OnOk, IsTrue, length, take};
ghost use Rattle.script_token.specs.Tokens.{view};
ghost use Rattle.script_reader.specs.Steps.{bare};
ghost use Rattle.script_reader.specs.declared.fault.Problem.TheVariants.{Syntax};
ghost use Rattle.script.specs.Scripts.{script_at};
ghost use Rattle.script_mistakes.specs.Expected.{AreExpected, IsClean, MayFollow, MayStand};

use crate::kind::{KINDS, Kind, example, kind_at};
use script::first_fault;
use script_reader::fault::{Fault, Problem};
use script_token::{Placed, Token};
use std::alloc::{AllocError, Global};

/// Whether the fault is that the grammar does not allow the last token.
fn is_refused(fault: Option<Fault>) -> bool
    ensures { IsTrue result ↔ (fault ≡ Some (record { problem = Syntax; left = 1 })) }
{
    match fault {
        Some(fault) => matches!(fault.problem, Problem::Syntax) && fault.left == 1,
        None => false,
    }
}

/// Whether the token may stand behind those before, which are given back as they were.
fn may_follow<'a>(
    alloc: Global,
    before: &mut Vec<Placed<'a>>,
    token: Token<'a>,
) -> Result<bool, AllocError>
    requires clean { IsClean (bare before.old.items) }
    ensures kept { OnOk result (before.new.items ≡ before.old.items) }
    ensures may { IfOk result (λ may. IsTrue may ↔ MayFollow (bare before.old.items) (view token.entry)) }
{
    before.push(Placed { token, line: 0 })?;
    let fault = first_fault(alloc, before)?;
    let _token = before.pop();
    Ok(!is_refused(fault))
}

/// Whether one of the kind may stand behind the tokens before, which are given back as they were.
fn may_stand<'a>(
    alloc: Global,
    before: &mut Vec<Placed<'a>>,
    kind: Kind,
) -> Result<bool, AllocError>
    requires clean { IsClean (bare before.old.items) }
    ensures kept { OnOk result (before.new.items ≡ before.old.items) }
    ensures may { IfOk result (λ may. IsTrue may ↔ MayStand kind (bare before.old.items)) }
{
    match example(kind) {
        Some(token) => may_follow(alloc, before, token),
        None => match first_fault(alloc, before)? {
            None => Ok(true),
            Some(_) => Ok(false),
        },
    }
}

fn kinds_behind<'a>(alloc: Global, before: &mut Vec<Placed<'a>>) -> Result<Vec<Kind>, AllocError>
    requires { IsClean (bare before.old.items) }
    ensures { IfOk result (λ kinds. AreExpected kinds.items (bare before.old.items)) }
{
    let mut kinds = Vec::new(alloc);
    for number in 0..KINDS.len() {
        let kind = kind_at(number);
        if may_stand(alloc, before, kind)? {
            kinds.push(kind)?;
        }
    }
    Ok(kinds)
}

/// The kinds of what may stand where a reading of the tokens stops because the grammar does not allow the token
/// there, with so many tokens left from it: what may stand behind the tokens before that place.
pub fn expected(alloc: Global, tokens: &[Placed<'_>], left: usize) -> Result<Vec<Kind>, AllocError>
    requires { script_at (bare tokens.now) ≡ Err (Syntax, left) }
    ensures { IfOk result (λ kinds. AreExpected kinds.items (take (length (bare tokens.now) - left) (bare tokens.now))) }
{
    let mut before = Vec::from_slice(alloc, &tokens[..tokens.len() - left])?;
    kinds_behind(alloc, &mut before)
}
