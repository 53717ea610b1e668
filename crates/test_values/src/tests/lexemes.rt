use script_token::{Placed, Symbol, Token, scan};
use std::process::Abort;
use std::test::Fail;

fn is_symbol(placed: &Placed<'_>, symbol: Symbol) -> bool {
    matches!(placed.token, Token::Symbol(found) if found == symbol)
}

fn is_name(placed: &Placed<'_>, name: &str) -> bool {
    matches!(placed.token, Token::Name(found) if found == name)
}

#[test]
fn tokens_with_their_lines(rt: HostRuntime) -> Result<(), Fail> {
    let tokens = scan(rt.alloc(), b"x<-sync\n\r\t recv_ 04;\n")?;
    assert!(rt; tokens.last_line == 3);
    let [name, arrow, sync, second, number, end] = tokens.placed.as_slice() else {
        panic!(rt; "other tokens")
    };
    assert!(rt; is_name(name, "x"));
    assert!(rt; is_symbol(arrow, Symbol::Arrow));
    assert!(rt; is_symbol(sync, Symbol::Sync) && sync.line == 1);
    assert!(rt; is_name(second, "recv_") && second.line == 2);
    assert!(rt; matches!(number.token, Token::Bad));
    assert!(rt; is_symbol(end, Symbol::Semicolon));
    Ok(())
}
