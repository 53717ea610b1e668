//! A text, written to an output whole.

ghost use Rattle.std.specs.Prelude.{◌≡◌, ◌≤◌, ◌<◌, ℕ, None, IfSome, IfErr, OnOk, length, take};
ghost use Rattle.std.specs.Io.KnownBytes.{Appends, Keeps};

use std::io;
use std::io::Write;
use thiserror::Error;

/// An output that did not take a text whole.
#[derive(Clone, Copy, Debug, PartialEq, Eq, Error)]
#[error("an output could not be written")]
pub struct Unwritten;

/// One write, begun again where a signal interrupts it: how many bytes of the text the output took, and
/// none where it failed or took nothing.
fn write_some<O: Write>(out: &mut O, text: &[u8]) -> Option<usize>
    ensures some { IfSome result (λ count. (0 < count) × (count ≤ length text.now) × Appends (O.contents out.old) (O.contents out.new) (take count text.now)) }
    ensures none { result ≡ None → Keeps (O.contents out.old) (O.contents out.new) }
{
    for _ in 0..u64::MAX {
        match out.write(text) {
            Ok(count) => {
                if count == 0 {
                    return None;
                }
                return Some(count);
            }
            Err(error) if error.kind() == io::ErrorKind::Interrupted => {}
            Err(_) => return None,
        }
    }
    None
}

/// Writes the whole text. After a fault the output has taken a beginning of it, which may be all: a
/// write failed or took nothing, or the output would not let go of what it holds back.
pub fn emit<O: Write>(out: &mut O, text: &[u8]) -> Result<(), Unwritten>
    ensures done { OnOk result (Appends (O.contents out.old) (O.contents out.new) text.now) }
    ensures fault { IfErr result (λ _. (n : ℕ) × Appends (O.contents out.old) (O.contents out.new) (take n text.now)) }
{
    let mut taken = 0;
    while taken < text.len() {
        match write_some(out, &text[taken..]) {
            Some(count) => taken += count,
            None => return Err(Unwritten),
        }
    }
    match out.flush() {
        Ok(()) => Ok(()),
        Err(_) => Err(Unwritten),
    }
}
