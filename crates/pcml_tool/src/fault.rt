//! The faults of the program, each with its number.

ghost use Rattle.std.specs.Prelude.{◌≡◌, IfSome, IsTrue};
ghost use Rattle.pcml_explain.specs.Topics.{is_fault};
ghost use Rattle.pcml_files.specs.declared.source.SourceFault.TheVariants as files;
ghost use Rattle.pcml_tool.specs.Faults.{number_of, number_of_file, number_of_run, number_of_script, number_of_seasons, status_of};
ghost use Rattle.pcml_tool.specs.declared.fault.Fault.TheVariants as faults;

use crate::{MeetFault, PlayFault};
use journal_text::JournalFault;
use pcml_answers::{NamesFault, PrintsFault};
use pcml_files::{SourceFault, Unwritten};
use pcml_texts::ChartFault;
use runtime::SeasonFault;
use runtime_run::RunFault;
use script::ScriptFault;
use std::alloc::AllocError;
use std::error::Error;
use std::fmt;

/// Why the program printed nothing, or not all: what the part of it says that failed. What it shows is the line on
/// the error stream: its number, which `pcml explain` takes, and the line or step of the text where it is.
#[derive(Debug, Drop)]
pub enum Fault {
    /// No memory was left.
    Memory,
    /// A journal or a schedule of more than 16,777,216 bytes, told before all else of it.
    TooLarge,
    /// A file that cannot be read, or an output that cannot be written.
    File(SourceFault),
    /// A text that is no script.
    Script(ScriptFault),
    /// A text that is no journal of its script.
    Journal(JournalFault),
    /// A journal of which there is no chart.
    Chart(ChartFault),
    /// Names of which one is no process's.
    Names(NamesFault),
    /// Texts of which one names no process with a value.
    Prints(PrintsFault),
    /// A pair that did not meet.
    Meet(MeetFault),
    /// A schedule that cannot be played.
    Play(PlayFault),
    /// A run that came to no end. No words of a command line ask for its faults 2 and 3.
    Run(RunFault),
    /// A run in seasons that came to no end. No words of a command line ask for its faults 2, 3 and 8.
    Seasons(SeasonFault),
}

impl Fault {
    /// The status that it is told with: 2, as words that are not understood, where a name is no process's, or with no value, and else 1.
    pub(crate) fn status(&self) -> u8
        ensures { result ≡ status_of self.now }
    {
        match self {
            Fault::Names(NamesFault::Unnamed(_)) | Fault::Chart(ChartFault::Unnamed(_)) => 2,
            Fault::Prints(PrintsFault::Unprinted(_)) => 2,
            _ => 1,
        }
    }

    /// The number that it is told with, if it is told with one. A name that is no process's is told as words that are
    /// not understood, and a journal that is no run as `replay` tells it.
    pub fn number(&self) -> Option<u16>
        ensures value { result ≡ number_of self.now }
        ensures known { IfSome result (λ number. IsTrue (is_fault number)) }
    {
        match self {
            Fault::Memory => Some(1),
            Fault::TooLarge => Some(23),
            Fault::File(fault) => Some(number_of_file(*fault)),
            Fault::Script(fault) => Some(number_of_script(*fault)),
            Fault::Journal(JournalFault::Memory) => Some(1),
            Fault::Journal(JournalFault::BadLine(_)) => Some(21),
            Fault::Chart(ChartFault::Memory) => Some(1),
            Fault::Chart(ChartFault::BadLine(_)) => Some(21),
            Fault::Chart(ChartFault::NoRun(_) | ChartFault::Unnamed(_)) => None,
            Fault::Names(NamesFault::Memory) => Some(1),
            Fault::Names(NamesFault::Unnamed(_)) => None,
            Fault::Prints(PrintsFault::Memory) => Some(1),
            Fault::Prints(PrintsFault::Unprinted(_)) => None,
            Fault::Meet(MeetFault::Memory) => Some(1),
            Fault::Meet(MeetFault::NoThread) => Some(6),
            Fault::Play(PlayFault::Memory) => Some(1),
            Fault::Play(PlayFault::NotAllowed(_)) => Some(2),
            Fault::Play(PlayFault::BadStep(_)) => Some(22),
            Fault::Run(fault) => Some(number_of_run(*fault)),
            Fault::Seasons(fault) => Some(number_of_seasons(*fault)),
        }
    }

    /// The number of the line or the step where it is, from 1, behind the word for it.
    fn place(&self) -> Option<(&'static str, usize)> {
        match self {
            Fault::Script(fault) => Some(("line", line_of_script(*fault)?)),
            Fault::Journal(JournalFault::BadLine(line)) => Some(("line", *line)),
            Fault::Chart(ChartFault::BadLine(line) | ChartFault::NoRun(line)) => {
                Some(("line", *line))
            }
            Fault::Play(PlayFault::BadStep(line)) => Some(("line", *line)),
            Fault::Play(PlayFault::NotAllowed(step)) => Some(("step", *step)),
            _ => None,
        }
    }

    /// The name that is no process's.
    fn unnamed(&self) -> Option<&str> {
        match self {
            Fault::Names(NamesFault::Unnamed(name)) | Fault::Chart(ChartFault::Unnamed(name)) => {
                Some(name.as_str())
            }
            _ => None,
        }
    }
}

fn number_of_file(fault: SourceFault) -> u16
    ensures value { result ≡ number_of_file fault }
    ensures known { IsTrue (is_fault result) }
{
    match fault {
        SourceFault::Memory => 1,
        SourceFault::Unread => 31,
        SourceFault::Unwritten => 32,
    }
}

fn number_of_script(fault: ScriptFault) -> u16
    ensures value { result ≡ number_of_script fault }
    ensures known { IsTrue (is_fault result) }
{
    match fault {
        ScriptFault::Memory => 1,
        ScriptFault::Syntax(_) => 11,
        ScriptFault::UnknownName(_) => 12,
        ScriptFault::Twice(_) => 13,
        ScriptFault::TooMany(_) => 14,
        ScriptFault::LoopWithoutSync(_) => 15,
        ScriptFault::TooLong => 16,
    }
}

/// The line of the text, from 1, where the fault has one.
fn line_of_script(fault: ScriptFault) -> Option<usize> {
    match fault {
        ScriptFault::Memory | ScriptFault::TooLong => None,
        ScriptFault::Syntax(line)
        | ScriptFault::UnknownName(line)
        | ScriptFault::Twice(line)
        | ScriptFault::TooMany(line)
        | ScriptFault::LoopWithoutSync(line) => Some(line),
    }
}

fn number_of_run(fault: RunFault) -> u16
    ensures value { result ≡ number_of_run fault }
    ensures known { IsTrue (is_fault result) }
{
    match fault {
        RunFault::Memory => 1,
        RunFault::Workers => 2,
        RunFault::Rows => 3,
        RunFault::NoWorker => 6,
    }
}

fn number_of_seasons(fault: SeasonFault) -> u16
    ensures value { result ≡ number_of_seasons fault }
    ensures known { IsTrue (is_fault result) }
{
    match fault {
        SeasonFault::Memory => 1,
        SeasonFault::Workers => 2,
        SeasonFault::Rows => 3,
        SeasonFault::Lost => 4,
        SeasonFault::Unlawful => 5,
        SeasonFault::NoWorker => 6,
        SeasonFault::Seasons => 7,
        SeasonFault::SeasonCount => 8,
    }
}

impl fmt::Display for Fault {
    fn fmt<W: fmt::Write>(&self, f: &mut fmt::Formatter<W>) -> fmt::Result {
        if let Some(name) = self.unnamed() {
            return write!(f, "error: no process is named '{name}'");
        }
        if let Fault::Prints(PrintsFault::Unprinted(text)) = self {
            return write!(
                f,
                "error: '{text}' is no process's name, = and a value as print writes it"
            );
        }
        match self.number() {
            Some(number) => write!(f, "fault {number}")?,
            None => write!(f, "unlawful at")?,
        }
        match self.place() {
            Some((word, number)) => write!(f, " {word} {number}"),
            None => Ok(()),
        }
    }
}

impl Error for Fault {}

impl From<AllocError> for Fault {
    ghost from_gives = { λ _ fault. fault ≡ faults.Memory };

    fn from(_error: AllocError) -> Fault {
        Fault::Memory
    }
}

impl From<Unwritten> for Fault {
    ghost from_gives = { λ _ fault. fault ≡ faults.File files.Unwritten };

    fn from(_fault: Unwritten) -> Fault {
        Fault::File(SourceFault::Unwritten)
    }
}

impl From<SourceFault> for Fault {
    ghost from_gives = { λ its fault. fault ≡ faults.File its };

    fn from(fault: SourceFault) -> Fault {
        Fault::File(fault)
    }
}

impl From<ScriptFault> for Fault {
    ghost from_gives = { λ its fault. fault ≡ faults.Script its };

    fn from(fault: ScriptFault) -> Fault {
        Fault::Script(fault)
    }
}

impl From<JournalFault> for Fault {
    ghost from_gives = { λ its fault. fault ≡ faults.Journal its };

    fn from(fault: JournalFault) -> Fault {
        Fault::Journal(fault)
    }
}

impl From<ChartFault> for Fault {
    ghost from_gives = { λ its fault. fault ≡ faults.Chart its };

    fn from(fault: ChartFault) -> Fault {
        Fault::Chart(fault)
    }
}

impl From<NamesFault> for Fault {
    ghost from_gives = { λ its fault. fault ≡ faults.Names its };

    fn from(fault: NamesFault) -> Fault {
        Fault::Names(fault)
    }
}

impl From<PrintsFault> for Fault {
    ghost from_gives = { λ its fault. fault ≡ faults.Prints its };

    fn from(fault: PrintsFault) -> Fault {
        Fault::Prints(fault)
    }
}

impl From<MeetFault> for Fault {
    ghost from_gives = { λ its fault. fault ≡ faults.Meet its };

    fn from(fault: MeetFault) -> Fault {
        Fault::Meet(fault)
    }
}

impl From<PlayFault> for Fault {
    ghost from_gives = { λ its fault. fault ≡ faults.Play its };

    fn from(fault: PlayFault) -> Fault {
        Fault::Play(fault)
    }
}

impl From<RunFault> for Fault {
    ghost from_gives = { λ its fault. fault ≡ faults.Run its };

    fn from(fault: RunFault) -> Fault {
        Fault::Run(fault)
    }
}

impl From<SeasonFault> for Fault {
    ghost from_gives = { λ its fault. fault ≡ faults.Seasons its };

    fn from(fault: SeasonFault) -> Fault {
        Fault::Seasons(fault)
    }
}
