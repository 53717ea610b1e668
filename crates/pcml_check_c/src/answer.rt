//! What goes out to C.

ghost use Rattle.std.specs.Prelude.{◌≡◌, Result, length};
ghost use Rattle.pcml_check_c.specs.Answers.{Gives, IsHandedOut, filled};

use crate::refusal::Refusal;
use crate::told::Told;

/// The answer to a call. The text is in the caller's buffer.
#[repr(C)]
#[derive(Clone, Copy, Drop)]
pub struct Answer {
    /// What came of the call, below 16, or why it was refused.
    pub code: u32,
    /// The number that the program tells a fault of a script or a journal by, else 0.
    pub fault: u32,
    /// The line of the fault, or the first with which a journal is no run, from 1; else 0.
    pub line: usize,
    /// The length of the whole text, without the NUL.
    pub text_len: usize,
}

/// Puts as much of the text as fits before a NUL into the buffer.
fn fill(room: &mut [u8], text: &[u8])
    ensures { room.new ≡ filled room.old text.now }
{
    if room.len() == 0 {
        return;
    }
    let len = text.len().min(room.len() - 1);
    room[..len].copy_from_slice(&text[..len]);
    room[len] = 0;
}

fn give(code: u32, fault: u32, line: usize, text: &[u8], room: &mut [u8]) -> Answer
    ensures { Gives code fault line text.now room.old room.new result }
{
    fill(room, text);
    Answer {
        code,
        fault,
        line,
        text_len: text.len(),
    }
}

/// Hands out what comes of a call, with the text in the buffer.
pub(crate) fn hand_out(told: Result<Told, Refusal>, room: &mut [u8]) -> Answer
    ensures { IsHandedOut told room.old room.new result }
{
    match told {
        Ok(Told { code, line, text }) => give(code.number(), 0, line, &text, room),
        Err(refusal) => give(
            refusal.code(),
            refusal.fault(),
            refusal.line(),
            refusal.text(),
            room,
        ),
    }
}
