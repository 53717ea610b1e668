//! What is told of a text that is no script.

ghost use Rattle.std.specs.Prelude.{◌≡◌, ◌≤◌, ◌++◌, Err, IfOk, OnOk, length};
ghost use Rattle.std.specs.String.{string_bytes};
ghost use Rattle.std.specs.Option.{option_map};
ghost use Rattle.script_token.specs.Lexemes.{last_line, placed_tokens, seen};
ghost use Rattle.script_reader.specs.Steps.{bare, told};
ghost use Rattle.script.specs.Appending.{Adds};
ghost use Rattle.script.specs.Scripts.{script_at};
ghost use Rattle.script_mistakes.specs.Places.{excerpt_text, place_left};
ghost use Rattle.script_mistakes.specs.Words.{spelling};
ghost use Rattle.script_mistakes.specs.Telling.{HasExpected, TellsFault, TellsWhyNot, fault_line, head_text, kind_text, kinds_text, number_of, problem_words, stand_text};

use crate::help::help;
use crate::kind::Kind;
use crate::place::{column_at, place_left, push_excerpt};
use crate::site::Site;
use crate::trying::expected;
use script::{first_fault, line_left};
use script_reader::fault::{Fault, Problem};
use script_token::{Placed, Symbol, Tokens, scan, token_starts};
use std::alloc::{AllocError, Global};

/// The most bytes of a script.
pub(crate) const TEXT_LEN: usize = 65536;

pub(crate) fn number_of(problem: Problem) -> u8
    ensures { result ≡ number_of problem }
{
    match problem {
        Problem::Syntax => 11,
        Problem::UnknownName => 12,
        Problem::Twice => 13,
        Problem::TooMany => 14,
        Problem::LoopWithoutSync => 15,
    }
}

pub(crate) fn problem_words(problem: Problem, left: usize) -> &'static str
    ensures { result.now ≡ problem_words problem left }
{
    match problem {
        Problem::Syntax => {
            if left == 0 {
                "the text ends too early"
            } else {
                "the grammar does not allow this here"
            }
        }
        Problem::UnknownName => "nothing that is known here has this name",
        Problem::Twice => "this stands for something already",
        Problem::TooMany => "this is one too many",
        Problem::LoopWithoutSync => "the body of this loop does not begin with a sync",
    }
}

/// Appends a fault with its number, its line and its column, and what it is.
fn push_fault(
    out: &mut String,
    number: u8,
    line: usize,
    column: usize,
    words: &str,
) -> Result<(), AllocError>
    ensures { OnOk result (Adds out.old out.new (fault_line number line column words.now)) }
{
    write!(out, "fault {number} line {line} column {column}: {words}\n")
}

fn head(
    alloc: Global,
    bytes: &[u8],
    tokens: &Tokens<'_>,
    fault: Fault,
    at: usize,
) -> Result<String, AllocError>
    requires tokens { (seen tokens.now.placed.items ≡ placed_tokens bytes.now) × (tokens.now.last_line ≡ last_line bytes.now) }
    requires at { at ≡ place_left bytes.now fault.left }
    ensures { IfOk result (λ text. string_bytes text ≡ head_text bytes.now (told fault)) }
{
    let number = number_of(fault.problem);
    let line = line_left(tokens, fault.left);
    let column = column_at(bytes, at);
    let words = problem_words(fault.problem, fault.left);
    let mut text = String::new(alloc);
    push_fault(&mut text, number, line, column, words)?;
    Ok(text)
}

/// How a keyword or a mark is spelled.
pub(crate) fn spelling(symbol: Symbol) -> &'static str
    ensures { result.now ≡ spelling symbol }
{
    match symbol {
        Symbol::Channel => "channel",
        Symbol::Process => "process",
        Symbol::Let => "let",
        Symbol::Print => "print",
        Symbol::Sync => "sync",
        Symbol::If => "if",
        Symbol::Else => "else",
        Symbol::Loop => "loop",
        Symbol::Forever => "forever",
        Symbol::End => "end",
        Symbol::Send => "send",
        Symbol::Recv => "recv",
        Symbol::Always => "always",
        Symbol::Never => "never",
        Symbol::Cancelled => "cancelled",
        Symbol::Choose => "choose",
        Symbol::Wrap => "wrap",
        Symbol::As => "as",
        Symbol::To => "to",
        Symbol::Guard => "guard",
        Symbol::Nack => "nack",
        Symbol::Spawn => "spawn",
        Symbol::Joined => "joined",
        Symbol::Semicolon => ";",
        Symbol::Comma => ",",
        Symbol::OpenBrace => "{",
        Symbol::CloseBrace => "}",
        Symbol::OpenParen => "(",
        Symbol::CloseParen => ")",
        Symbol::OpenBracket => "[",
        Symbol::CloseBracket => "]",
        Symbol::Equal => "=",
        Symbol::Less => "<",
        Symbol::Plus => "+",
        Symbol::Minus => "-",
        Symbol::Arrow => "<-",
    }
}

fn push_kind(out: &mut String, kind: Kind) -> Result<(), AllocError>
    ensures { OnOk result (Adds out.old out.new (kind_text kind)) }
{
    match kind {
        Kind::Name => out.push_str("a name"),
        Kind::Number => out.push_str("a number"),
        Kind::Symbol(symbol) => {
            out.push_str("`")?;
            out.push_str(spelling(symbol))?;
            out.push_str("`")
        }
        Kind::End => out.push_str("the end of the text"),
    }
}

fn push_kinds(out: &mut String, kinds: &[Kind]) -> Result<(), AllocError>
    ensures { OnOk result (Adds out.old out.new (kinds_text kinds.now)) }
{
    let Some((first, others)) = kinds.split_first() else {
        return Ok(());
    };
    push_kind(out, *first)?;
    for other in others {
        out.push_str(", ")?;
        push_kind(out, *other)?;
    }
    Ok(())
}

/// The line of the kinds of what may stand at the fault; nothing, where there are none.
fn stand(alloc: Global, kinds: &[Kind]) -> Result<String, AllocError>
    ensures { IfOk result (λ text. string_bytes text ≡ stand_text kinds.now) }
{
    let mut text = String::new(alloc);
    if kinds.len() == 0 {
        return Ok(text);
    }
    text.push_str("here may stand: ")?;
    push_kinds(&mut text, kinds)?;
    text.push_str("\n")?;
    Ok(text)
}

/// The kinds of what may stand at the fault; none where the grammar allows what stands there.
fn kinds_there(alloc: Global, tokens: &[Placed<'_>], fault: Fault) -> Result<Vec<Kind>, AllocError>
    requires { script_at (bare tokens.now) ≡ Err (told fault) }
    ensures { IfOk result (λ kinds. HasExpected (bare tokens.now) (told fault) kinds.items) }
{
    match fault.problem {
        Problem::Syntax => expected(alloc, tokens, fault.left),
        Problem::UnknownName | Problem::Twice | Problem::TooMany | Problem::LoopWithoutSync => {
            Ok(Vec::new(alloc))
        }
    }
}

/// The head, the line in which the byte stands behind so many with a mark, the help, and what may stand there.
fn joined(
    head: String,
    bytes: &[u8],
    at: usize,
    help: &str,
    stand: &str,
) -> Result<Vec<u8>, AllocError>
    ensures { IfOk result (λ text. text.items ≡ string_bytes head ++ excerpt_text bytes.now at ++ help.now ++ stand.now) }
{
    let mut text = head.into_bytes();
    push_excerpt(&mut text, bytes, at)?;
    text.extend_from_slice(help.as_bytes())?;
    text.extend_from_slice(stand.as_bytes())?;
    Ok(text)
}

fn told_fault(
    alloc: Global,
    bytes: &[u8],
    tokens: &Tokens<'_>,
    fault: Fault,
) -> Result<Vec<u8>, AllocError>
    requires fits { length bytes.now ≤ 65536 }
    requires tokens { (seen tokens.now.placed.items ≡ placed_tokens bytes.now) × (tokens.now.last_line ≡ last_line bytes.now) }
    requires fault { script_at (bare tokens.now.placed.items) ≡ Err (told fault) }
    ensures { IfOk result (λ text. TellsFault bytes.now text.items) }
{
    let starts = token_starts(alloc, bytes)?;
    let at = place_left(bytes, &starts, fault.left);
    let kinds = kinds_there(alloc, &tokens.placed, fault)?;
    let site = Site {
        bytes,
        tokens: &tokens.placed,
        fault,
        at,
        kinds: &kinds,
    };
    let help = help(alloc, &site)?;
    let head = head(alloc, bytes, tokens, fault, at)?;
    let stand = stand(alloc, &kinds)?;
    joined(head, bytes, at, &help, &stand)
}

/// Why the bytes are no script, as lines; nothing, where they are one.
pub fn why_not(alloc: Global, bytes: &[u8]) -> Result<Option<Vec<u8>>, AllocError>
    ensures { IfOk result (λ text. TellsWhyNot bytes.now (option_map (λ t. t.items) text)) }
{
    if bytes.len() > TEXT_LEN {
        let text = b"fault 16: the text has more than 65536 bytes\n";
        return Ok(Some(Vec::from_slice(alloc, text)?));
    }
    let tokens = scan(alloc, bytes)?;
    match first_fault(alloc, &tokens.placed)? {
        Some(fault) => Ok(Some(told_fault(alloc, bytes, &tokens, fault)?)),
        None => Ok(None),
    }
}
