//! Kinds of what may stand at a place of a text.

ghost use Rattle.std.specs.Prelude.{◌≡◌, ◌<◌, get_or, length};
ghost use Rattle.std.specs.Option.{option_map};
ghost use Rattle.script_token.specs.Tokens.{view};
ghost use Rattle.script_mistakes.specs.Expected.{example};
ghost use Rattle.script_mistakes.specs.declared.kind.Kind.TheVariants.{Name};

use script_token::{Symbol, Token};

/// What may stand at a place of a text: a keyword or a mark, a name, a number, or the end of the text.
#[derive(Clone, Copy, Debug, PartialEq, Eq)]
pub enum Kind {
    Name,
    Number,
    Symbol(Symbol),
    End,
}

/// All kinds, in the order in which they are told.
pub(crate) const KINDS: [Kind; 39] = [
    Kind::Name,
    Kind::Number,
    Kind::Symbol(Symbol::Channel),
    Kind::Symbol(Symbol::Process),
    Kind::Symbol(Symbol::Let),
    Kind::Symbol(Symbol::Print),
    Kind::Symbol(Symbol::Sync),
    Kind::Symbol(Symbol::If),
    Kind::Symbol(Symbol::Else),
    Kind::Symbol(Symbol::Loop),
    Kind::Symbol(Symbol::Forever),
    Kind::Symbol(Symbol::End),
    Kind::Symbol(Symbol::Spawn),
    Kind::Symbol(Symbol::Send),
    Kind::Symbol(Symbol::Recv),
    Kind::Symbol(Symbol::Always),
    Kind::Symbol(Symbol::Never),
    Kind::Symbol(Symbol::Cancelled),
    Kind::Symbol(Symbol::Joined),
    Kind::Symbol(Symbol::Choose),
    Kind::Symbol(Symbol::Wrap),
    Kind::Symbol(Symbol::Guard),
    Kind::Symbol(Symbol::Nack),
    Kind::Symbol(Symbol::As),
    Kind::Symbol(Symbol::To),
    Kind::Symbol(Symbol::Semicolon),
    Kind::Symbol(Symbol::Comma),
    Kind::Symbol(Symbol::OpenBrace),
    Kind::Symbol(Symbol::CloseBrace),
    Kind::Symbol(Symbol::OpenParen),
    Kind::Symbol(Symbol::CloseParen),
    Kind::Symbol(Symbol::OpenBracket),
    Kind::Symbol(Symbol::CloseBracket),
    Kind::Symbol(Symbol::Equal),
    Kind::Symbol(Symbol::Less),
    Kind::Symbol(Symbol::Plus),
    Kind::Symbol(Symbol::Minus),
    Kind::Symbol(Symbol::Arrow),
    Kind::End,
];

/// The kind of this number among all kinds.
pub(crate) fn kind_at(number: usize) -> Kind
    requires { number < length KINDS }
    ensures { result ≡ get_or KINDS number Name }
{
    KINDS[number]
}

/// A token of the kind; none is at the end of the text.
pub(crate) fn example(kind: Kind) -> Option<Token<'static>>
    ensures { option_map view result ≡ example kind }
{
    match kind {
        Kind::Name => Some(Token::Name("name")),
        Kind::Number => Some(Token::Number(1)),
        Kind::Symbol(symbol) => Some(Token::Symbol(symbol)),
        Kind::End => None,
    }
}
