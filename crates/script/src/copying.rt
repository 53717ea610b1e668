//! Copies of expressions. What lies behind an `Arc` is shared, so a copy takes a few words.

ghost use Rattle.std.specs.Prelude.{◌≡◌, IfOk};
ghost use Rattle.script_tree.specs.Trees.{expr_of, exprs_of, term_of, terms_of, test_of};

use script_tree::{Expr, Exprs, Term, Terms, Test};
use std::alloc::AllocError;
use std::sync::Arc;

fn copy_term(term: &Term) -> Result<Term, AllocError>
    ensures { IfOk result (λ copy. term_of copy ≡ term_of term.now) }
{
    match term {
        Term::Operand(operand) => Ok(Term::Operand(*operand)),
        Term::Sum(sum) => {
            let sum = Arc::try_clone(sum)?;
            Ok(Term::Sum(sum))
        }
    }
}

fn copy_terms(terms: &Terms) -> Result<Terms, AllocError>
    ensures { IfOk result (λ copy. terms_of copy ≡ terms_of terms.now) }
{
    match terms {
        Terms::Nothing => Ok(Terms::Nothing),
        Terms::More(sign, term, rest) => {
            let term = copy_term(term)?;
            let rest = Arc::try_clone(rest)?;
            Ok(Terms::More(*sign, term, rest))
        }
    }
}

pub(crate) fn copy_expr(expr: &Expr) -> Result<Expr, AllocError>
    ensures { IfOk result (λ copy. expr_of copy ≡ expr_of expr.now) }
{
    let more = copy_terms(&expr.more)?;
    Ok(Expr {
        first: expr.first,
        more,
    })
}

pub(crate) fn copy_exprs(list: &Exprs) -> Result<Exprs, AllocError>
    ensures { IfOk result (λ copy. exprs_of copy ≡ exprs_of list.now) }
{
    match list {
        Exprs::Empty => Ok(Exprs::Empty),
        Exprs::One(a) => {
            let a = copy_expr(a)?;
            Ok(Exprs::One(a))
        }
        Exprs::Two(a, b) => {
            let a = copy_expr(a)?;
            let b = copy_expr(b)?;
            Ok(Exprs::Two(a, b))
        }
        Exprs::Three(a, b, c) => {
            let a = copy_expr(a)?;
            let b = copy_expr(b)?;
            let c = copy_expr(c)?;
            Ok(Exprs::Three(a, b, c))
        }
    }
}

pub(crate) fn copy_test(test: &Test) -> Result<Test, AllocError>
    ensures { IfOk result (λ copy. test_of copy ≡ test_of test.now) }
{
    let left = copy_expr(&test.left)?;
    let right = copy_expr(&test.right)?;
    Ok(Test {
        left,
        relation: test.relation,
        right,
    })
}
