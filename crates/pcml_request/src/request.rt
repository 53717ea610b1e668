//! What can be asked for.

ghost use Rattle.std.specs.Prelude.{◌≡◌, ◌≤◌};
ghost use Rattle.protocol_values.specs.Commits.{most_rows};
ghost use Rattle.pcml_request.specs.Requests.{all_rows};

use pcml_explain::Topic;

/// Which outcomes are to be told: each, those in which some named process is left waiting, or those in which one of the
/// processes of these names (separated by commas, or `all`) has not ended.
#[derive(Clone, Copy, Debug)]
pub enum Wanted<'a> {
    Each,
    Waiting,
    Lacking(&'a str),
}

/// What is to be found of all that the script in a file can come to, of so many rows a process, or of any number where
/// none is named, and where at most so many configurations are seen: the outcomes that are wanted, or where it is asked
/// the first of them alone. Where names are given (separated by commas, or `all`), only the processes of these names, and those that are wanted to
/// end, make one outcome another, and are told. The journal that leads to one of them goes to a file, where one is
/// named, or is printed `alone`: to the one of the number `of`, from 1, and else to the first that is told.
#[derive(Clone, Copy, Debug)]
pub struct OutcomesAsked<'a> {
    pub script: &'a str,
    pub rows: Option<u16>,
    pub limit: u32,
    pub wanted: Wanted<'a>,
    pub only: Option<&'a str>,
    pub first: bool,
    pub journal: Option<&'a str>,
    pub alone: bool,
    pub of: Option<u32>,
}

/// What is sought in all runs: a process of these names (separated by commas, or `all`) that can never end any more, one
/// that has faulted, or for each of these texts, `NAME=VALUE`, that the process of the name has printed the value.
#[derive(Debug, Drop)]
pub enum Sought<'a> {
    Left(&'a str),
    Fault,
    Printed(Vec<&'a str>),
}

/// What is sought in runs of any length of the script in a file, whether they end or not, where at most so many states
/// are seen. The journal that leads there goes to a file, where one is named, or is printed `alone`.
#[derive(Debug, Drop)]
pub struct Seeking<'a> {
    pub script: &'a str,
    pub limit: u32,
    pub sought: Sought<'a>,
    pub journal: Option<&'a str>,
    pub alone: bool,
}

/// How the script in a file is to be run: on so many workers, with so many rows a process, and where a number of
/// seasons is named, so many in each of these. The lines of the journal go to a file, where one is named, are left
/// out of what is printed, where it is quiet, or are printed `alone`. Where it is asked `why`, it is told too why each process stands where it
/// does. Where names are needed (separated by commas, or `all`), the processes of these names have to end.
#[derive(Clone, Copy, Debug)]
pub struct Running<'a> {
    pub script: &'a str,
    pub workers: u8,
    pub rows: u16,
    pub seasons: Option<u16>,
    pub journal: Option<&'a str>,
    pub alone: bool,
    pub quiet: bool,
    pub why: bool,
    pub need: Option<&'a str>,
}

/// As what a chart is drawn: a picture, or the text of a Mermaid diagram.
#[derive(Clone, Copy, Debug)]
pub enum Form {
    Svg,
    Mermaid,
}

/// How a chart is drawn: the commits with a stamp from one to another. Where names are given (separated by commas, or
/// `all`), only the processes of these names have columns of their own, and all others share one.
#[derive(Clone, Copy, Debug)]
pub struct Drawing<'a> {
    pub from: u32,
    pub to: u32,
    pub only: Option<&'a str>,
    pub form: Form,
}

/// What is asked of a script and a journal.
#[derive(Clone, Copy, Debug)]
pub enum Question<'a> {
    /// Where the journal leads.
    Replay,
    /// Why the processes stand where it leads them.
    Why,
    /// Its chart.
    Chart(Drawing<'a>),
    /// Which commits may come next.
    Next,
    /// How often each process and each channel took part.
    Stats,
}

/// What is asked of the script in a file and the journal in another, or one without commits where none is named, of so
/// many rows a process, and where a number of seasons is named, so many in each of these.
#[derive(Clone, Copy, Debug)]
pub struct OfJournal<'a> {
    pub script: &'a str,
    pub journal: Option<&'a str>,
    pub rows: u16,
    pub seasons: Option<u16>,
    pub question: Question<'a>,
}

/// What to print.
#[derive(Debug, Drop)]
pub enum Request<'a> {
    /// What comes of running a script.
    Run(Running<'a>),
    /// How many processes and channels the script in the file of this name has.
    Check(&'a str),
    /// What is asked of a script and a journal.
    OfJournal(OfJournal<'a>),
    /// Why the text in the file of this name is no script.
    WhyScript(&'a str),
    /// Why the text in the file of this name is no script, in one line, as compilers tell it.
    WhyShort(&'a str),
    /// What a script can come to.
    Outcomes(OutcomesAsked<'a>),
    /// What some run of it leads to.
    Seek(Seeking<'a>),
    /// What a fault or a word means, or the manual page.
    Explain(Topic),
    /// Which version of the program this is.
    Version,
    /// The pair in which this number is sent.
    Meet(u32),
    /// What comes of the schedule in the file of this name.
    Play(&'a str),
}

/// How many rows a process has in all seasons, of so many rows in each; in one where no number of seasons is named.
pub fn all_rows(rows: u16, seasons: Option<u16>) -> u32
    requires { rows ≤ 1024 }
    ensures value { result ≡ all_rows rows seasons }
    ensures few { result ≤ most_rows }
{
    match seasons {
        Some(seasons) => u32::from(seasons) * u32::from(rows),
        None => u32::from(rows),
    }
}
