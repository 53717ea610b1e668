//! Tokens: what the lexemes of a text are.

ghost use Rattle.std.specs.Prelude.{◌≡◌, MatchOption, true, false};
ghost use Rattle.std.specs.List.{list_all};
ghost use Rattle.script_token.specs.Tokens.{token_of, keyword_of, statement_word, event_word, other_word, mark_of, number_of, numeral_from, digit_of, is_letter, is_word, is_name, view, same_symbol};

/// A keyword or a mark.
#[derive(Clone, Copy, Debug, PartialEq, Eq)]
pub enum Symbol {
    Channel,
    Process,
    Let,
    Print,
    Sync,
    If,
    Else,
    Loop,
    Forever,
    End,
    Send,
    Recv,
    Always,
    Never,
    Cancelled,
    Choose,
    Wrap,
    As,
    To,
    Guard,
    Nack,
    Spawn,
    Joined,
    Semicolon,
    Comma,
    OpenBrace,
    CloseBrace,
    OpenParen,
    CloseParen,
    OpenBracket,
    CloseBracket,
    Equal,
    Less,
    Plus,
    Minus,
    Arrow,
}

/// A token. A lexeme that is none, as a number with a leading zero, is `Bad`.
#[derive(Clone, Copy, Debug)]
pub enum Token<'a> {
    Symbol(Symbol),
    Name(&'a str),
    Number(u32),
    Bad,
}

/// The keyword that begins a statement or a declaration.
fn statement_word(text: &[u8]) -> Option<Symbol>
    ensures { result ≡ statement_word text.now }
{
    if text == b"channel".as_slice() {
        Some(Symbol::Channel)
    } else if text == b"process".as_slice() {
        Some(Symbol::Process)
    } else if text == b"let".as_slice() {
        Some(Symbol::Let)
    } else if text == b"print".as_slice() {
        Some(Symbol::Print)
    } else if text == b"sync".as_slice() {
        Some(Symbol::Sync)
    } else if text == b"if".as_slice() {
        Some(Symbol::If)
    } else if text == b"loop".as_slice() {
        Some(Symbol::Loop)
    } else if text == b"forever".as_slice() {
        Some(Symbol::Forever)
    } else if text == b"end".as_slice() {
        Some(Symbol::End)
    } else {
        None
    }
}

/// The keyword that begins an event.
fn event_word(text: &[u8]) -> Option<Symbol>
    ensures { result ≡ event_word text.now }
{
    if text == b"send".as_slice() {
        Some(Symbol::Send)
    } else if text == b"recv".as_slice() {
        Some(Symbol::Recv)
    } else if text == b"always".as_slice() {
        Some(Symbol::Always)
    } else if text == b"never".as_slice() {
        Some(Symbol::Never)
    } else if text == b"cancelled".as_slice() {
        Some(Symbol::Cancelled)
    } else if text == b"choose".as_slice() {
        Some(Symbol::Choose)
    } else if text == b"wrap".as_slice() {
        Some(Symbol::Wrap)
    } else if text == b"guard".as_slice() {
        Some(Symbol::Guard)
    } else if text == b"nack".as_slice() {
        Some(Symbol::Nack)
    } else {
        None
    }
}

/// A keyword that stands within, or is kept for later.
fn other_word(text: &[u8]) -> Option<Symbol>
    ensures { result ≡ other_word text.now }
{
    if text == b"else".as_slice() {
        Some(Symbol::Else)
    } else if text == b"as".as_slice() {
        Some(Symbol::As)
    } else if text == b"to".as_slice() {
        Some(Symbol::To)
    } else if text == b"spawn".as_slice() {
        Some(Symbol::Spawn)
    } else if text == b"joined".as_slice() {
        Some(Symbol::Joined)
    } else {
        None
    }
}

#[tactic(auto, unfolding(crate::specs::Tokens::keyword_of))]
fn keyword(text: &[u8]) -> Option<Symbol>
    ensures { result ≡ keyword_of text.now }
{
    if let Some(symbol) = statement_word(text) {
        return Some(symbol);
    }
    if let Some(symbol) = event_word(text) {
        return Some(symbol);
    }
    other_word(text)
}

fn mark(text: &[u8]) -> Option<Symbol>
    ensures { result ≡ mark_of text.now }
{
    match text {
        [b';'] => Some(Symbol::Semicolon),
        [b','] => Some(Symbol::Comma),
        [b'{'] => Some(Symbol::OpenBrace),
        [b'}'] => Some(Symbol::CloseBrace),
        [b'('] => Some(Symbol::OpenParen),
        [b')'] => Some(Symbol::CloseParen),
        [b'['] => Some(Symbol::OpenBracket),
        [b']'] => Some(Symbol::CloseBracket),
        [b'='] => Some(Symbol::Equal),
        [b'<'] => Some(Symbol::Less),
        [b'+'] => Some(Symbol::Plus),
        [b'-'] => Some(Symbol::Minus),
        [b'<', b'-'] => Some(Symbol::Arrow),
        _ => None,
    }
}

fn is_letter(byte: u8) -> bool
    ensures { result ≡ is_letter byte }
{
    matches!(byte, b'a'..=b'z' | b'A'..=b'Z')
}

/// Whether the byte may stand in a name or a number.
pub(crate) fn is_word(byte: u8) -> bool
    ensures { result ≡ is_word byte }
{
    is_letter(byte) || matches!(byte, b'0'..=b'9' | b'_')
}

fn digit(byte: u8) -> Option<u32>
    ensures { result ≡ digit_of byte }
{
    match byte {
        b'0'..=b'9' => Some(u32::from(byte - b'0')),
        _ => None,
    }
}

/// The number that the digits say, if it is at most 4294967295.
fn numeral(text: &[u8]) -> Option<u32>
    ensures { result ≡ numeral_from 0 text.now }
{
    let mut value: u32 = 0;
    for byte in text {
        let digit = digit(*byte)?;
        value = value.checked_mul(10)?.checked_add(digit)?;
    }
    Some(value)
}

/// The number that a lexeme says, without a leading zero.
fn number(text: &[u8]) -> Option<u32>
    ensures { result ≡ number_of text.now }
{
    if text.len() > 1 && text[0] == b'0' {
        return None;
    }
    numeral(text)
}

fn is_run(text: &[u8]) -> bool
    ensures { result ≡ list_all is_word text.now }
{
    text.iter().all(|byte| is_word(*byte))
}

fn is_name(text: &[u8]) -> bool
    ensures { result ≡ is_name text.now }
{
    !text.is_empty() && is_letter(text[0]) && is_run(text)
}

/// The lexeme as a name, if it is one.
fn name(text: &[u8]) -> Option<&str>
    ensures { MatchOption result (is_name text.now ≡ false) (λ name. (is_name text.now ≡ true) × (name.now ≡ text.now)) }
{
    if !is_name(text) {
        return None;
    }
    match str::from_utf8(text) {
        Ok(name) => Some(name),
        Err(_) => None,
    }
}

/// The token that a lexeme is.
#[tactic(auto, unfolding(crate::specs::Tokens::token_of))]
pub(crate) fn token_of(text: &[u8]) -> Token<'_>
    ensures { view result ≡ token_of text.now }
{
    if let Some(symbol) = keyword(text) {
        return Token::Symbol(symbol);
    }
    if let Some(symbol) = mark(text) {
        return Token::Symbol(symbol);
    }
    if let Some(name) = name(text) {
        return Token::Name(name);
    }
    match number(text) {
        Some(value) => Token::Number(value),
        None => Token::Bad,
    }
}

pub fn is_same(a: Symbol, b: Symbol) -> bool
    ensures { result ≡ same_symbol a b }
{
    a == b
}
