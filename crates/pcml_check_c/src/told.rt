//! What comes of a call that is not refused.

ghost use Rattle.std.specs.Prelude.{◌≡◌};
ghost use Rattle.pcml_check_c.specs.Answers.{code_of};

/// What comes of it.
#[derive(Clone, Copy)]
pub enum Code {
    /// It is a script; the journal is a run that no commit may follow; the chart is drawn; or all outcomes were seen,
    /// and none is told of those that were looked for.
    Done,
    /// The journal is a run, and a commit may follow; or what was asked of the outcomes is not known.
    Open,
    /// The journal is no run.
    Unlawful,
    /// A process that has to end is stuck in some outcome.
    Stuck,
    /// The text is no script.
    NoScript,
    /// It is in none that was found, but a process that has to end is stranded in a run that goes on.
    Stranded,
    /// Some run leads to what was sought.
    Found,
}

impl Code {
    /// The number that C knows it by.
    pub(crate) fn number(self) -> u32
        ensures { result ≡ code_of self }
    {
        match self {
            Code::Done => 0,
            Code::Open => 1,
            Code::Unlawful => 2,
            Code::Stuck => 3,
            Code::NoScript => 4,
            Code::Stranded => 5,
            Code::Found => 6,
        }
    }
}

/// What is told: of a journal that is no run with the line, from 1, and else with line 0.
#[derive(Drop)]
pub struct Told {
    pub code: Code,
    pub line: usize,
    pub text: Vec<u8>,
}
