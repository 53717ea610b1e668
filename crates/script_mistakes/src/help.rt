//! What helps against a fault.

use crate::kind::Kind;
use crate::limit::limit_words;
use crate::nearest::{declared_later, nearest};
use crate::site::Site;
use crate::telling::spelling;
use script_reader::fault::Problem;
use script_token::{Placed, Symbol, Token};
use std::alloc::{AllocError, Global};

/// Whether the word begins an event.
fn is_event(symbol: Symbol) -> bool {
    matches!(
        symbol,
        Symbol::Send
            | Symbol::Recv
            | Symbol::Always
            | Symbol::Never
            | Symbol::Cancelled
            | Symbol::Joined
            | Symbol::Choose
            | Symbol::Wrap
            | Symbol::Guard
            | Symbol::Nack
    )
}

fn is_loop(symbol: Symbol) -> bool {
    matches!(symbol, Symbol::Loop | Symbol::Forever)
}

/// Whether it is a word, and no mark.
fn is_word(symbol: Symbol) -> bool {
    !matches!(
        symbol,
        Symbol::Semicolon
            | Symbol::Comma
            | Symbol::OpenBrace
            | Symbol::CloseBrace
            | Symbol::OpenParen
            | Symbol::CloseParen
            | Symbol::OpenBracket
            | Symbol::CloseBracket
            | Symbol::Equal
            | Symbol::Less
            | Symbol::Plus
            | Symbol::Minus
            | Symbol::Arrow
    )
}

/// Of what begins with this byte and is no token.
fn bad_words(byte: u8) -> &'static str {
    match byte {
        b'#' => "there are no comments",
        b'/' => "there are no comments, and the signs of numbers are `+` and `-` alone",
        b'*' | b'%' | b'^' => "the signs of numbers are `+` and `-` alone",
        b'>' => "a test has `=` or `<`: write `b < a` for `a > b`",
        b'!' => "a test has `=` or `<`: write `if a = b { } else { .. }` for `a != b`",
        b'&' | b'|' => "a test has one `=` or `<`, and nothing joins two tests",
        b'"' | b'\'' => "there are no texts: a message has numbers, channels and nacks",
        b'0'..=b'9' => "a number has no `0` in front, no letter behind, and is at most 4294967295",
        b'_' => "a name begins with a letter",
        0..=31 | 127 => "this byte is no text, and is shown as `?`",
        128..=255 => "a name has ASCII letters, digits and `_`",
        _ => "no word and no mark of the language begins so",
    }
}

/// How a message is sent and received.
const MESSAGE: &str =
    "a message is sent by `sync send c (1);`, and received by `x <- sync recv c;`";

/// Of a byte that begins no token, where it stands.
fn byte_words(site: &Site<'_>, byte: u8) -> &'static str {
    match byte {
        b'!' | b'?' if site.expects(Symbol::Arrow) => MESSAGE,
        b'|' | b'+' if site.expects(Symbol::Semicolon) => "a choice of events is `choose [.., ..]`",
        _ => bad_words(byte),
    }
}

/// Of a word of other languages, which is a name in this one.
fn foreign_words(name: &str) -> Option<&'static str> {
    let words = match name {
        "while" | "for" | "do" | "repeat" | "until" => {
            "a loop is `loop 3 { sync ..; }` or `forever { sync ..; }`"
        }
        "break" | "continue" => {
            "a loop goes round as often as it says; `end;` ends the whole process"
        }
        "return" | "exit" => "`end;` ends the process",
        "select" | "alt" => "a choice of events is `sync choose [.., ..]`",
        "go" | "fork" | "start" => "a process is started by `spawn p;`",
        "var" | "const" | "int" => "a variable is set by `let`",
        "printf" | "println" | "echo" | "write" => "a value is printed by `print x;`",
        "chan" | "channels" => "a channel is declared by `channel c;`",
        "proc" | "thread" | "func" | "fn" | "function" | "def" => {
            "a process is declared by `process p { .. }`"
        }
        _ => return None,
    };
    Some(words)
}

/// Of such a word, where a statement or the text begins with it.
fn foreign_help(site: &Site<'_>, token: Token<'_>) -> Option<&'static str> {
    match (site.before(), token) {
        (_, Token::Name(name)) if site.expects(Symbol::Process) => foreign_words(name),
        (
            Some(
                Placed {
                    token: Token::Name(name),
                    ..
                },
            ),
            _,
        ) if site.expects(Symbol::Arrow) => foreign_words(name),
        _ => None,
    }
}

/// Of a token that the grammar does not allow.
fn token_words(site: &Site<'_>, token: Token<'_>) -> Option<&'static str> {
    let foreign = foreign_help(site, token);
    if foreign.is_some() {
        return foreign;
    }
    let words = match token {
        Token::Bad => match site.bytes.get(site.at) {
            Some(byte) => Some(byte_words(site, *byte)),
            None => None,
        },
        Token::Name(_) if site.expects_only(Kind::Number) => {
            Some("how often a loop goes round is a number")
        }
        Token::Symbol(symbol) => mark_words(site, symbol).or(keyword_words(site, symbol)),
        Token::Name(_) | Token::Number(_) => None,
    };
    if words.is_some() {
        return words;
    }
    if site.expects_only(Kind::Symbol(Symbol::Else)) {
        return Some("each `if` has an `else`: write `else { }` where nothing is to be done");
    }
    if site.expects(Symbol::Arrow) {
        return Some("a statement that begins with a name is `names <- sync ..`");
    }
    None
}

/// Of a mark that the grammar does not allow.
fn mark_words(site: &Site<'_>, symbol: Symbol) -> Option<&'static str> {
    let words = if symbol == Symbol::Equal && site.is_before(Symbol::Equal) {
        "a test has one `=`"
    } else if symbol == Symbol::Equal && site.is_before(Symbol::Less) {
        "write `a < b + 1` for a at most b"
    } else if symbol == Symbol::Equal
        && site.expects(Symbol::Arrow)
        && site.is_behind(1, Symbol::Sync)
    {
        "what a sync gives is taken by `names <- sync ..`"
    } else if symbol == Symbol::Equal && site.expects(Symbol::Arrow) {
        "a variable is set by `let`"
    } else if symbol == Symbol::Minus && site.expects(Symbol::Let) {
        "there are no comments"
    } else if symbol == Symbol::Minus && site.expects_kind(Kind::Number) {
        "a number is 0 or more"
    } else {
        return None;
    };
    Some(words)
}

/// Of a keyword that the grammar does not allow.
fn keyword_words(site: &Site<'_>, symbol: Symbol) -> Option<&'static str> {
    let words = if symbol == Symbol::If && site.is_before(Symbol::Else) {
        "a block stands behind `else`: write `else { if .. }`"
    } else if symbol == Symbol::Sync && site.is_before(Symbol::Equal) {
        "what a sync gives is taken by `names <- sync ..`"
    } else if symbol == Symbol::Channel
        && (site.expects(Symbol::Let) || site.expects(Symbol::Process))
    {
        "channels are declared before all processes"
    } else if is_loop(symbol) && site.expects(Symbol::Let) {
        "no loop stands in the block of a guard or a nack"
    } else if is_event(symbol) && site.expects(Symbol::Sync) {
        "an event is offered by `sync`"
    } else {
        return None;
    };
    Some(words)
}

/// Of a block that is open where a process begins or the text ends.
fn open_help(alloc: Global, site: &Site<'_>) -> Result<String, AllocError> {
    match site.open_block() {
        Some(line) => format!(in alloc; "help: the block that line {line} opens has no `}}`\n"),
        None => Ok(String::new(alloc)),
    }
}

fn line(alloc: Global, words: &str) -> Result<String, AllocError> {
    format!(in alloc; "help: {words}\n")
}

/// Of a token that the grammar does not allow: a word that is taken for a name, or a `;` that is not there.
fn syntax_help(alloc: Global, site: &Site<'_>) -> Result<String, AllocError> {
    let Some(here) = site.here() else {
        return open_help(alloc, site);
    };
    if site.is_here(Symbol::Process) && site.expects(Symbol::Let) {
        return open_help(alloc, site);
    }
    if let Some(words) = token_words(site, here.token) {
        return line(alloc, words);
    }
    if let Token::Symbol(symbol) = here.token {
        if is_word(symbol) && site.expects_kind(Kind::Name) && !site.expects(Symbol::Let) {
            let word = spelling(symbol);
            return format!(in alloc; "help: `{word}` is a word of the language, and no name\n");
        }
    }
    if let Some(before) = site.before() {
        if before.line < here.line && site.expects(Symbol::Semicolon) {
            let last = before.line;
            return format!(in alloc; "help: line {last} may want a `;` at its end\n");
        }
    }
    Ok(String::new(alloc))
}

/// Of a name that is unknown.
fn name_help(alloc: Global, site: &Site<'_>) -> Result<String, AllocError> {
    let Some(here) = site.here() else {
        return Ok(String::new(alloc));
    };
    let Token::Name(name) = here.token else {
        return Ok(String::new(alloc));
    };
    match declared_later(&site.tokens[site.place()..], name) {
        Some(Symbol::Process) => {
            return line(alloc, "a process can be named behind its block alone");
        }
        Some(_) => return line(alloc, "channels are declared before all processes"),
        None => {}
    }
    match nearest(alloc, site, name)? {
        Some(other) => format!(in alloc;
            "help: the nearest name that is known here is `{other}`\n"
        ),
        None => Ok(String::new(alloc)),
    }
}

/// Whether a statement begins there that takes nothing from a sync.
fn begins_other(site: &Site<'_>) -> bool {
    let begins = site.is_before(Symbol::OpenBrace)
        || site.is_before(Symbol::CloseBrace)
        || site.is_before(Symbol::Semicolon);
    let takes = site.is_behind(1, Symbol::Arrow) && site.is_behind(2, Symbol::Sync);
    begins && !takes && !site.is_behind(1, Symbol::Comma)
}

fn twice_words(site: &Site<'_>) -> &'static str {
    if begins_other(site) {
        MESSAGE
    } else if site.is_before(Symbol::Spawn) {
        "a process is spawned once"
    } else if site.is_before(Symbol::Channel) || site.is_before(Symbol::Process) {
        "a name is declared once"
    } else {
        "a variable has no channel's name, and stands in a list once"
    }
}

/// What helps against the fault, as a line of its own; nothing, where nothing is known.
pub(crate) fn help(alloc: Global, site: &Site<'_>) -> Result<String, AllocError> {
    match site.fault.problem {
        Problem::Syntax => syntax_help(alloc, site),
        Problem::UnknownName => name_help(alloc, site),
        Problem::Twice => line(alloc, twice_words(site)),
        Problem::TooMany => line(alloc, limit_words(alloc, site)?),
        Problem::LoopWithoutSync => {
            line(
                alloc,
                "the first statement of its block has to be `sync` or `names <- sync`",
            )
        }
    }
}
