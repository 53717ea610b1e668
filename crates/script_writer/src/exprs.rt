//! Expressions, tests and lists.

ghost use Rattle.std.specs.Prelude.{OnOk};
ghost use Rattle.script_tree.specs.Trees.{term_of, terms_of, expr_of, exprs_of, test_of};
ghost use Rattle.script_writer.specs.Texts.{operand_text, sign_text, term_text, terms_text, expr_text, list_text, relation_text, test_text};
ghost use Rattle.script_writer.specs.Sources.{source_names};
ghost use Rattle.script.specs.Appending.{Adds};

use crate::names::{Source, put_name};
use script_tree::{Expr, Exprs, Operand, Relation, Sign, Term, Terms, Test};
use std::alloc::AllocError;

fn put_operand(out: &mut String, source: &Source<'_>, operand: Operand) -> Result<(), AllocError>
    ensures { OnOk result (Adds out.old out.new (operand_text (source_names source.now) operand)) }
{
    match operand {
        Operand::Number(number) => write!(out, "{number} "),
        Operand::Named(name) => put_name(out, source, name),
    }
}

fn put_sign(out: &mut String, sign: Sign) -> Result<(), AllocError>
    ensures { OnOk result (Adds out.old out.new (sign_text sign)) }
{
    match sign {
        Sign::Plus => out.push_str("+ "),
        Sign::Minus => out.push_str("- "),
    }
}

#[cycle(sum)]
fn put_term(out: &mut String, source: &Source<'_>, term: &Term) -> Result<(), AllocError>
    ensures { OnOk result (Adds out.old out.new (term_text (source_names source.now) (term_of term.now))) }
{
    match term {
        Term::Operand(operand) => put_operand(out, source, *operand),
        Term::Sum(sum) => {
            out.push_str("( ")?;
            put_expr(out, source, sum)?;
            out.push_str(") ")
        }
    }
}

#[cycle(sum)]
fn put_terms(out: &mut String, source: &Source<'_>, terms: &Terms) -> Result<(), AllocError>
    ensures { OnOk result (Adds out.old out.new (terms_text (source_names source.now) (terms_of terms.now))) }
{
    let mut rest = terms;
    while let Terms::More(sign, term, next) = rest {
        put_sign(out, *sign)?;
        put_term(out, source, term)?;
        rest = next;
    }
    Ok(())
}

#[cycle(sum)]
pub(crate) fn put_expr(out: &mut String, source: &Source<'_>, expr: &Expr) -> Result<(), AllocError>
    ensures { OnOk result (Adds out.old out.new (expr_text (source_names source.now) (expr_of expr.now))) }
{
    put_operand(out, source, expr.first)?;
    put_terms(out, source, &expr.more)
}

fn put_relation(out: &mut String, relation: Relation) -> Result<(), AllocError>
    ensures { OnOk result (Adds out.old out.new (relation_text relation)) }
{
    match relation {
        Relation::Equal => out.push_str("= "),
        Relation::Less => out.push_str("< "),
    }
}

pub(crate) fn put_test(out: &mut String, source: &Source<'_>, test: &Test) -> Result<(), AllocError>
    ensures { OnOk result (Adds out.old out.new (test_text (source_names source.now) (test_of test.now))) }
{
    put_expr(out, source, &test.left)?;
    put_relation(out, test.relation)?;
    put_expr(out, source, &test.right)
}

pub(crate) fn put_list(
    out: &mut String,
    source: &Source<'_>,
    list: &Exprs,
) -> Result<(), AllocError>
    ensures { OnOk result (Adds out.old out.new (list_text (source_names source.now) (exprs_of list.now))) }
{
    out.push_str("( ")?;
    match list {
        Exprs::Empty => {}
        Exprs::One(first) => put_expr(out, source, first)?,
        Exprs::Two(first, second) => {
            put_expr(out, source, first)?;
            out.push_str(", ")?;
            put_expr(out, source, second)?;
        }
        Exprs::Three(first, second, third) => {
            put_expr(out, source, first)?;
            out.push_str(", ")?;
            put_expr(out, source, second)?;
            out.push_str(", ")?;
            put_expr(out, source, third)?;
        }
    }
    out.push_str(") ")
}
