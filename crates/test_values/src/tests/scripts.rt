use script::{Script, parse};
use script_tree::{Block, Event, Expr, Name, Operand, Proc, Sign, Stmt, Term, Terms};
use std::process::Abort;
use std::test::Fail;

/// Whether the expression is `5 - ( 3 - 1 )`.
fn is_right_group(expr: &Expr) -> bool {
    let Terms::More(Sign::Minus, Term::Sum(inner), _) = &expr.more else {
        return false;
    };
    let Terms::More(Sign::Minus, Term::Operand(last), _) = &inner.more else {
        return false;
    };
    expr.first == Operand::Number(5)
        && inner.first == Operand::Number(3)
        && *last == Operand::Number(1)
}

/// Whether the expression is `5 - 3 - 1`.
fn is_row(expr: &Expr) -> bool {
    let Terms::More(Sign::Minus, Term::Operand(second), rest) = &expr.more else {
        return false;
    };
    let rest: &Terms = rest;
    let Terms::More(Sign::Minus, Term::Operand(third), _) = rest else {
        return false;
    };
    expr.first == Operand::Number(5)
        && *second == Operand::Number(3)
        && *third == Operand::Number(1)
}

fn first_stmt(script: &Script) -> Option<&Stmt> {
    let process = script.processes().first()?;
    let body: &Block = process.body();
    match body {
        Block::Then(stmt, _, _) => Some(stmt),
        Block::Done => None,
    }
}

#[test]
fn parentheses(rt: HostRuntime) -> Result<(), Fail> {
    let script = parse(rt.alloc(), b"process a{print (5-3)-1;}")?;
    assert!(rt; matches!(first_stmt(&script), Some(Stmt::Print(expr)) if is_row(expr)));
    let script = parse(rt.alloc(), b"process a{print 5-(3-1);}")?;
    assert!(rt; matches!(first_stmt(&script), Some(Stmt::Print(expr)) if is_right_group(expr)));
    Ok(())
}

fn has_names_of_numbers(script: &Script) -> bool {
    script.channels() == 2
        && script.channel_name(1) == "d"
        && script.processes().len() == 1
        && script.process_name(0) == "a"
}

fn has_variables(process: &Proc) -> bool {
    process.variable_name(1) == Some("y") && process.variables() == 2
}

#[test]
fn names_of_numbers(rt: HostRuntime) -> Result<(), Fail> {
    let text = b"channel c; channel d; process a { x, y <- sync recv d; }";
    let script = parse(rt.alloc(), text)?;
    assert!(rt; has_names_of_numbers(&script));
    assert!(rt; matches!(first_stmt(&script), Some(Stmt::Sync(Some(_), event)) if is_recv(event)));
    assert!(rt; script.processes().first().is_some_and(has_variables));
    Ok(())
}

fn is_recv(event: &Event) -> bool {
    matches!(event, Event::Recv(Name::Channel(1)))
}
