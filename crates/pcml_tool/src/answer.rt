//! What is answered to a request.

ghost use Rattle.std.specs.Prelude.{◌≡◌};
ghost use Rattle.pcml_outcomes.specs.Told.{bytes_of};
ghost use Rattle.pcml_tool.specs.Command.{printed_of};

use std::io::Write;

/// What an answer says of its request.
#[derive(Clone, Copy, Debug)]
pub(crate) enum Verdict {
    Done,
    /// The journal that was to be replayed is no run.
    Unlawful,
    /// The text that was to be a script is none. Or what was asked of a script's outcomes is not so, or not known. Or the
    /// journal of an outcome was to be kept that is not there.
    Denied,
    /// A process that had to end has not, or does not in some outcome, or is left behind; or one has faulted.
    Lacking,
}

/// What is told behind the outcomes of a script.
#[derive(Clone, Copy, Debug)]
pub(crate) struct Behind {
    /// Where the journal that was kept comes round, the number of the commit with which its circle begins.
    pub(crate) goes_on: Option<usize>,
    pub(crate) text: &'static str,
    /// Where it is not known who is stranded, in more than how many states it was not looked for.
    pub(crate) unlooked: Option<u32>,
}

impl Behind {
    fn tell<E: Write>(self, err: &mut E) {
        if let Some(number) = self.goes_on {
            let _ = write!(err, "goes on at commit {number}\n");
        }
        let _ = write!(err, "{}", self.text);
        if let Some(limit) = self.unlooked {
            let _ = write!(
                err,
                "not looked for: who is stranded, that takes more than {limit} states\n"
            );
        }
    }
}

/// What is told behind a run whose journal was kept, and is longer than other commands read.
const LONG: &str =
    "the journal has more than 16777216 bytes: it was kept whole, and replay, why, chart, next and stats answer fault 23 to it. Fewer --rows or messages make a shorter one.\n";

/// What is told behind a run.
#[derive(Drop)]
pub(crate) struct BehindRun {
    /// A line for each process that faulted, with what went wrong.
    pub(crate) faults: Vec<u8>,
    /// Whether its journal was kept, and is longer than other commands read.
    pub(crate) is_long: bool,
    /// How many processes made as many syncs as they might.
    pub(crate) spent: usize,
}

impl BehindRun {
    fn tell<E: Write>(&self, err: &mut E) {
        let _ = err.write_all(&self.faults);
        if self.is_long {
            let _ = write!(err, "{LONG}");
        }
        if self.spent > 0 {
            let _ = write!(
                err,
                "spent: {} made as many syncs as they may; --rows (up to 1024) and --seasons allow more\n",
                self.spent
            );
        }
    }
}

/// What is printed of an answer with a journal: where it is asked for alone, its lines, or nothing where there is none.
pub(crate) fn printed_of(alone: bool, journal: Option<Vec<u8>>, text: Vec<u8>) -> Vec<u8>
    ensures { result.items ≡ printed_of alone (bytes_of journal) text.items }
{
    if !alone {
        return text;
    }
    match journal {
        Some(lines) => lines,
        None => {
            let mut text = text;
            text.clear();
            text
        }
    }
}

/// What is told behind an answer, on the error stream.
#[derive(Drop)]
pub(crate) enum Advice {
    Nothing,
    Text(&'static str),
    Run(BehindRun),
    Outcomes(Behind),
}

impl Advice {
    /// Tells it; whether the stream takes it changes nothing.
    pub(crate) fn tell<E: Write>(&self, err: &mut E) {
        match self {
            Advice::Nothing => {}
            Advice::Text(text) => {
                let _ = write!(err, "{text}");
            }
            Advice::Run(behind) => behind.tell(err),
            Advice::Outcomes(behind) => behind.tell(err),
        }
    }
}

/// What is answered.
#[derive(Drop)]
pub(crate) struct Answer {
    pub(crate) verdict: Verdict,
    /// What is printed.
    pub(crate) text: Vec<u8>,
    pub(crate) advice: Advice,
}
