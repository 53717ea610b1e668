//! Where a token stands in a text, and the line there.

ghost use Rattle.std.specs.Prelude.{◌≡◌, ◌++◌, ◌==◌, ◌<◌, ◌≤◌, ◌^◌, OnOk, drop, length, map, take};
ghost use Rattle.std.specs.List.{before_first, position_or_len};
ghost use Rattle.script_token.specs.Lexemes.{token_starts};
ghost use Rattle.script_mistakes.specs.Places.{blank, column_at, excerpt_text, next_column, place_left, shown};

use std::alloc::AllocError;

/// How many bytes stand before the token from which on so many are left, of tokens that begin there; all bytes, where
/// none is left.
pub(crate) fn place_left(bytes: &[u8], starts: &[usize], left: usize) -> usize
    requires { starts.now ≡ token_starts bytes.now }
    ensures { result ≡ place_left bytes.now left }
{
    if left == 0 || left > starts.len() {
        return bytes.len();
    }
    starts[starts.len() - left]
}

fn first_bytes(bytes: &[u8], count: usize) -> &[u8]
    ensures { result.now ≡ take count bytes.now }
{
    match bytes.get(..count) {
        Some(first) => first,
        None => bytes,
    }
}

fn last_bytes(bytes: &[u8], count: usize) -> &[u8]
    ensures { result.now ≡ drop count bytes.now }
{
    match bytes.get(count..) {
        Some(last) => last,
        None => &[],
    }
}

/// The column behind a byte in this column.
fn next_column(column: usize, byte: u8) -> usize
    requires { column < 2 ^ 63 }
    ensures { result ≡ next_column column byte }
{
    if byte == b'\n' { 1 } else { column + 1 }
}

/// The column, from 1, of the byte that stands behind so many.
pub(crate) fn column_at(bytes: &[u8], at: usize) -> usize
    ensures column { result ≡ column_at bytes.now at }
    ensures some { 0 < result }
{
    let before = first_bytes(bytes, at);
    let mut column = 1;
    for byte in before {
        column = next_column(column, *byte);
    }
    column
}

/// How many bytes stand before the first line end, or how many there are.
fn line_len(bytes: &[u8]) -> usize
    ensures place { result ≡ position_or_len (λ b. b == 10) bytes.now }
    ensures within { result ≤ length bytes.now }
{
    for (place, byte) in bytes.iter().enumerate() {
        if *byte == b'\n' {
            return place;
        }
    }
    bytes.len()
}

/// The bytes before the first line end.
fn first_line(bytes: &[u8]) -> &[u8]
    ensures { result.now ≡ before_first (λ b. b == 10) bytes.now }
{
    &bytes[..line_len(bytes)]
}

fn blank(byte: u8) -> u8
    ensures { result ≡ blank byte }
{
    if byte == b'\t' { b'\t' } else { b' ' }
}

fn push_blanks(out: &mut Vec<u8>, bytes: &[u8]) -> Result<(), AllocError>
    ensures { OnOk result (out.new.items ≡ out.old.items ++ map blank bytes.now) }
{
    for byte in bytes {
        out.push(blank(*byte))?;
    }
    Ok(())
}

/// How a byte of a line is shown: one that is no text would steer a terminal.
fn shown(byte: u8) -> u8
    ensures { result ≡ shown byte }
{
    if byte == b'\t' {
        b'\t'
    } else if byte == b'\r' {
        b' '
    } else if byte < 32 || byte == 127 {
        b'?'
    } else {
        byte
    }
}

fn push_shown(out: &mut Vec<u8>, bytes: &[u8]) -> Result<(), AllocError>
    ensures { OnOk result (out.new.items ≡ out.old.items ++ map shown bytes.now) }
{
    for byte in bytes {
        out.push(shown(*byte))?;
    }
    Ok(())
}

/// Appends the line in which the byte stands that is behind so many, and below it a mark under that byte.
pub(crate) fn push_excerpt(out: &mut Vec<u8>, bytes: &[u8], at: usize) -> Result<(), AllocError>
    ensures { OnOk result (out.new.items ≡ out.old.items ++ excerpt_text bytes.now at) }
{
    let before = column_at(bytes, at) - 1;
    let line = last_bytes(bytes, at.saturating_sub(before));
    push_shown(out, first_line(line))?;
    out.push(b'\n')?;
    push_blanks(out, first_bytes(line, before))?;
    out.extend_from_slice(b"^\n")
}
