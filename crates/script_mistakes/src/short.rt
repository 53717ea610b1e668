//! What is told of a text that is no script in one line, as compilers tell it.

ghost use Rattle.std.specs.Prelude.{◌≡◌, ◌≤◌, Err, IfOk, OnOk, length};
ghost use Rattle.std.specs.Option.{option_map};
ghost use Rattle.script_token.specs.Lexemes.{last_line, placed_tokens, seen};
ghost use Rattle.script_reader.specs.Steps.{bare, told};
ghost use Rattle.script.specs.Appending.{Adds};
ghost use Rattle.script.specs.Scripts.{script_at};
ghost use Rattle.script_mistakes.specs.Short.{TellsFirst, TellsWhyShort, short_line, there_line};

use crate::place::{column_at, place_left};
use crate::telling::{TEXT_LEN, number_of, problem_words};
use script::{first_fault, line_left};
use script_reader::fault::Fault;
use script_token::{Tokens, scan, token_starts};
use std::alloc::{AllocError, Global};

/// Appends a line and a column of a file, and a fault with its number and what it is.
fn push_there(
    out: &mut String,
    line: usize,
    column: usize,
    number: u8,
    words: &str,
) -> Result<(), AllocError>
    ensures { OnOk result (Adds out.old out.new (there_line line column number words.now)) }
{
    write!(out, ":{line}:{column}: fault {number}: {words}\n")
}

/// Appends the name of a file, a line and a column of it, and a fault with its number and what it is.
fn push_short(
    out: &mut String,
    name: &str,
    line: usize,
    column: usize,
    number: u8,
    words: &str,
) -> Result<(), AllocError>
    ensures { OnOk result (Adds out.old out.new (short_line name.now line column number words.now)) }
{
    out.push_str(name)?;
    push_there(out, line, column, number, words)
}

fn short_fault(
    alloc: Global,
    name: &str,
    bytes: &[u8],
    tokens: &Tokens<'_>,
    fault: Fault,
) -> Result<Vec<u8>, AllocError>
    requires fits { length bytes.now ≤ 65536 }
    requires tokens { (seen tokens.now.placed.items ≡ placed_tokens bytes.now) × (tokens.now.last_line ≡ last_line bytes.now) }
    requires fault { script_at (bare tokens.now.placed.items) ≡ Err (told fault) }
    ensures { IfOk result (λ text. TellsFirst name.now bytes.now text.items) }
{
    let starts = token_starts(alloc, bytes)?;
    let at = place_left(bytes, &starts, fault.left);
    let line = line_left(tokens, fault.left);
    let column = column_at(bytes, at);
    let number = number_of(fault.problem);
    let words = problem_words(fault.problem, fault.left);
    let mut text = String::new(alloc);
    push_short(&mut text, name, line, column, number, words)?;
    Ok(text.into_bytes())
}

/// Why the bytes are no script, as one line that begins with this name of their file; nothing, where they are one.
pub fn why_short(alloc: Global, name: &str, bytes: &[u8]) -> Result<Option<Vec<u8>>, AllocError>
    ensures { IfOk result (λ text. TellsWhyShort name.now bytes.now (option_map (λ t. t.items) text)) }
{
    if bytes.len() > TEXT_LEN {
        let mut text = String::new(alloc);
        push_short(
            &mut text,
            name,
            1,
            1,
            16,
            "the text has more than 65536 bytes",
        )?;
        return Ok(Some(text.into_bytes()));
    }
    let tokens = scan(alloc, bytes)?;
    match first_fault(alloc, &tokens.placed)? {
        Some(fault) => Ok(Some(short_fault(alloc, name, bytes, &tokens, fault)?)),
        None => Ok(None),
    }
}
