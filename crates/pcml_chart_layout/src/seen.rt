//! What is seen of a text that may be long.

ghost use Rattle.std.specs.Prelude.{◌≡◌, ◌<◌, ◌≤◌, OnOk, length, nat_lt};
ghost use Rattle.pcml_chart_layout.specs.Seen.{begins, front, seen};
ghost use Rattle.script.specs.Appending.{Adds};

use std::alloc::AllocError;

/// How many characters of a text are seen at most.
const LONGEST: usize = 40;

/// Whether a character begins at the place.
fn begins(text: &str, place: usize) -> bool
    requires { place < length text.now }
    ensures { result ≡ begins text.now place }
{
    let byte = text.as_bytes()[place];
    byte < 128 || 192 <= byte
}

/// What is left of a text that is cut.
fn front(text: &str) -> &str
    requires { 40 < length text.now }
    ensures value { result.now ≡ front text.now }
    ensures short { length result.now ≤ 38 }
{
    if !begins(text, LONGEST - 2) {
        return "";
    }
    let (front, _) = text.split_at(LONGEST - 2);
    front
}

/// Whether the text is too long to be seen whole.
pub fn is_cut(text: &str) -> bool
    ensures { result ≡ nat_lt 40 (length text.now) }
{
    LONGEST < text.len()
}

/// How many characters are seen of the text.
pub(crate) fn seen_length(text: &str) -> u8
    ensures { result ≡ length (seen text.now) }
{
    if text.len() <= LONGEST {
        return text.len() as u8;
    }
    front(text).len() as u8 + 2
}

/// What is seen of the text.
pub fn push_seen(out: &mut String, text: &str) -> Result<(), AllocError>
    ensures { OnOk result (Adds out.old out.new (seen text.now)) }
{
    if text.len() <= LONGEST {
        return out.push_str(text);
    }
    out.push_str(front(text))?;
    out.push_str("..")
}
