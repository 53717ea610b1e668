//! Why a call is refused.

ghost use Rattle.std.specs.Prelude.{◌≡◌};
ghost use Rattle.pcml_check_c.specs.Answers.{code_of_refusal, fault_of, fault_of_script, line_of, line_of_script, of_journal, of_names, of_prints, text_of};
ghost use Rattle.pcml_check_c.specs.declared.refusal.Refusal.TheVariants.{Memory, Script};

use journal_text::JournalFault;
use pcml_answers::{NamesFault, PrintsFault};
use script::ScriptFault;
use std::alloc::AllocError;

/// Why a call is refused.
#[derive(Drop)]
pub enum Refusal {
    Memory,
    /// The text that was to be a script is none.
    Script(ScriptFault),
    /// The first line, from 1, that is no line of a journal.
    BadLine(usize),
    /// A number of rows that is out of range.
    Rows,
    /// A number of configurations that is out of range.
    Limit,
    /// A form that is none.
    Form,
    /// Names that are no text.
    NoText,
    /// The first of the names that no process has.
    Unnamed(String),
    /// A text that names no process and value.
    Unprinted(String),
}

fn fault_of_script(fault: &ScriptFault) -> u32
    ensures { result ≡ fault_of_script fault.now }
{
    match fault {
        ScriptFault::Memory => 0,
        ScriptFault::Syntax(_) => 11,
        ScriptFault::UnknownName(_) => 12,
        ScriptFault::Twice(_) => 13,
        ScriptFault::TooMany(_) => 14,
        ScriptFault::LoopWithoutSync(_) => 15,
        ScriptFault::TooLong => 16,
    }
}

fn line_of_script(fault: &ScriptFault) -> usize
    ensures { result ≡ line_of_script fault.now }
{
    match fault {
        ScriptFault::Memory | ScriptFault::TooLong => 0,
        ScriptFault::Syntax(line)
        | ScriptFault::UnknownName(line)
        | ScriptFault::Twice(line)
        | ScriptFault::TooMany(line)
        | ScriptFault::LoopWithoutSync(line) => *line,
    }
}

impl Refusal {
    /// The number that C knows it by.
    pub(crate) fn code(&self) -> u32
        ensures { result ≡ code_of_refusal self.now }
    {
        match self {
            Refusal::Memory | Refusal::Script(ScriptFault::Memory) => 16,
            Refusal::Script(_) => 17,
            Refusal::BadLine(_) => 18,
            Refusal::Rows => 19,
            Refusal::Limit => 20,
            Refusal::Form => 21,
            Refusal::NoText => 22,
            Refusal::Unnamed(_) => 23,
            Refusal::Unprinted(_) => 24,
        }
    }

    /// The number that the program tells the fault of a script or of a journal by.
    pub(crate) fn fault(&self) -> u32
        ensures { result ≡ fault_of self.now }
    {
        match self {
            Refusal::Script(fault) => fault_of_script(fault),
            Refusal::BadLine(_) => 21,
            _ => 0,
        }
    }

    pub(crate) fn line(&self) -> usize
        ensures { result ≡ line_of self.now }
    {
        match self {
            Refusal::Script(fault) => line_of_script(fault),
            Refusal::BadLine(line) => *line,
            _ => 0,
        }
    }

    pub(crate) fn text(&self) -> &[u8]
        ensures { result.now ≡ text_of self.now }
    {
        match self {
            Refusal::Unnamed(name) | Refusal::Unprinted(name) => name.as_bytes(),
            _ => b"",
        }
    }
}

impl From<AllocError> for Refusal {
    ghost from_gives = { λ _ refusal. refusal ≡ Memory };

    fn from(_error: AllocError) -> Refusal {
        Refusal::Memory
    }
}

impl From<ScriptFault> for Refusal {
    ghost from_gives = { λ script refusal. refusal ≡ Script script };

    fn from(fault: ScriptFault) -> Refusal {
        Refusal::Script(fault)
    }
}

impl From<JournalFault> for Refusal {
    ghost from_gives = { λ journal refusal. refusal ≡ of_journal journal };

    fn from(fault: JournalFault) -> Refusal {
        match fault {
            JournalFault::Memory => Refusal::Memory,
            JournalFault::BadLine(line) => Refusal::BadLine(line),
        }
    }
}

impl From<NamesFault> for Refusal {
    ghost from_gives = { λ names refusal. refusal ≡ of_names names };

    fn from(fault: NamesFault) -> Refusal {
        match fault {
            NamesFault::Memory => Refusal::Memory,
            NamesFault::Unnamed(name) => Refusal::Unnamed(name),
        }
    }
}

impl From<PrintsFault> for Refusal {
    ghost from_gives = { λ prints refusal. refusal ≡ of_prints prints };

    fn from(fault: PrintsFault) -> Refusal {
        match fault {
            PrintsFault::Memory => Refusal::Memory,
            PrintsFault::Unprinted(text) => Refusal::Unprinted(text),
        }
    }
}
