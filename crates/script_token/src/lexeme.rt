//! A text, cut into lexemes, and its tokens with their lines.

ghost use Rattle.std.specs.Prelude.{◌≡◌, ◌≢◌, ◌+◌, ◌<◌, ◌≤◌, ◌^◌, ◌∷◌, ◌++◌, length, take, drop, slice_index, IfOk, OnOk, true, false};
ghost use Rattle.script_token.specs.Tokens.{is_word};
ghost use Rattle.script_token.specs.Lexemes.{lexemes, is_white, placed_tokens, last_line, seen, token_at, line_after, start_at, token_starts};

use crate::kind::{Token, is_word, token_of};
use std::alloc::{AllocError, Global};

/// A token and its line, from 1.
#[derive(Clone, Copy, Debug)]
pub struct Placed<'a> {
    pub token: Token<'a>,
    pub line: usize,
}

/// The tokens of a text, and the line at which it ends.
#[derive(Debug, Drop)]
pub struct Tokens<'a> {
    pub placed: Vec<Placed<'a>>,
    pub last_line: usize,
}

/// How many bytes of words stand in front.
fn run_len(bytes: &[u8]) -> usize
    requires some { 0 < length bytes.now }
    requires word { is_word (slice_index bytes.now 0) ≡ true }
    ensures front { lexemes bytes.now ≡ take result bytes.now ∷ lexemes (drop result bytes.now) }
    ensures some { 0 < result }
    ensures within { result ≤ length bytes.now }
{
    for (i, byte) in bytes.iter().enumerate() {
        if !is_word(*byte) {
            return i;
        }
    }
    bytes.len()
}

/// How many bytes the mark or the white space in front has.
fn mark_len(bytes: &[u8]) -> usize
    requires some { 0 < length bytes.now }
    requires mark { is_word (slice_index bytes.now 0) ≡ false }
    ensures front { lexemes bytes.now ≡ take result bytes.now ∷ lexemes (drop result bytes.now) }
    ensures some { 0 < result }
    ensures within { result ≤ length bytes.now }
{
    if bytes[0] != b'<' {
        return 1;
    }
    if bytes.len() == 1 {
        return 1;
    }
    if bytes[1] == b'-' { 2 } else { 1 }
}

/// How many bytes the first lexeme has.
fn lexeme_len(bytes: &[u8]) -> usize
    requires { 0 < length bytes.now }
    ensures front { lexemes bytes.now ≡ take result bytes.now ∷ lexemes (drop result bytes.now) }
    ensures some { 0 < result }
    ensures within { result ≤ length bytes.now }
{
    if is_word(bytes[0]) {
        return run_len(bytes);
    }
    mark_len(bytes)
}

fn is_white(byte: u8) -> bool
    ensures { result ≡ is_white byte }
{
    matches!(byte, b' ' | b'\t' | b'\n' | b'\r')
}

/// Appends the token that the lexeme at the line is, if it is one.
fn put_token<'a>(
    placed: &mut Vec<Placed<'a>>,
    lexeme: &'a [u8],
    line: usize,
) -> Result<(), AllocError>
    requires { 0 < length lexeme.now }
    ensures { OnOk result (seen placed.new.items ≡ seen placed.old.items ++ token_at line lexeme.now) }
{
    if is_white(lexeme[0]) {
        return Ok(());
    }
    let token = token_of(lexeme);
    placed.push(Placed { token, line })?;
    Ok(())
}

fn line_after(lexeme: &[u8], line: usize) -> usize
    requires some { 0 < length lexeme.now }
    requires small { line < 2 ^ 63 }
    ensures { result ≡ line_after line lexeme.now }
{
    if lexeme[0] == b'\n' { line + 1 } else { line }
}

/// The tokens of a text, in order.
pub fn scan(alloc: Global, bytes: &[u8]) -> Result<Tokens<'_>, AllocError>
    ensures tokens { IfOk result (λ t. seen t.placed.items ≡ placed_tokens bytes.now) }
    ensures last { IfOk result (λ t. t.last_line ≡ last_line bytes.now) }
{
    let mut placed = Vec::new(alloc);
    let mut last_line = 1;
    let mut rest = bytes;
    while !rest.is_empty() {
        let (lexeme, after) = rest.split_at(lexeme_len(rest));
        put_token(&mut placed, lexeme, last_line)?;
        last_line = line_after(lexeme, last_line);
        rest = after;
    }
    Ok(Tokens { placed, last_line })
}

/// Appends where the lexeme begins, if it is a token.
fn put_start(starts: &mut Vec<usize>, lexeme: &[u8], at: usize) -> Result<(), AllocError>
    requires { 0 < length lexeme.now }
    ensures { OnOk result (starts.new.items ≡ starts.old.items ++ start_at at lexeme.now) }
{
    if is_white(lexeme[0]) {
        return Ok(());
    }
    starts.push(at)?;
    Ok(())
}

/// Where each token of a text begins: how many bytes stand before it.
pub fn token_starts(alloc: Global, bytes: &[u8]) -> Result<Vec<usize>, AllocError>
    ensures { IfOk result (λ starts. starts.items ≡ token_starts bytes.now) }
{
    let mut starts = Vec::new(alloc);
    let mut at = 0;
    let mut rest = bytes;
    while !rest.is_empty() {
        let (lexeme, after) = rest.split_at(lexeme_len(rest));
        put_start(&mut starts, lexeme, at)?;
        at += lexeme.len();
        rest = after;
    }
    Ok(starts)
}
