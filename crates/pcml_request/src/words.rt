//! What the words of a command line ask for.

ghost use Rattle.std.specs.Prelude.{◌≡◌, None, IfOk};
ghost use Rattle.pcml_request.specs.Requests.{CanBeAnswered};

use crate::commands::{STREAM, command_line, request_of};
use crate::fault::WordsFault;
use crate::request::{Drawing, OfJournal, OutcomesAsked, Question, Request, Running, Seeking};
use clap::error::ErrorKind;
use clap::{ArgMatches, Error};
use pcml_explain::explanation;
use std::alloc::Global;

/// Why numbers of the request are out of their range.
fn range_objection(asked: &Request<'_>) -> Option<&'static str>
    ensures { result ≡ None → CanBeAnswered asked.now }
{
    match asked {
        Request::Explain(topic) => match explanation(*topic) {
            Some(_) => None,
            None => Some("no fault has this number"),
        },
        Request::OfJournal(OfJournal { rows, .. })
        | Request::Run(Running { rows, .. })
        | Request::Outcomes(
            OutcomesAsked {
                rows: Some(rows),
                ..
            },
        ) if *rows > 1024 => { Some("a process makes at most 1024 syncs in a season") }
        Request::OfJournal(
            OfJournal {
                question: Question::Chart(Drawing { from, to, .. }),
                ..
            },
        ) if from > to => { Some("no stamp is from the one to the other") }
        Request::Outcomes(OutcomesAsked { limit: 0, .. })
        | Request::Seek(Seeking { limit: 0, .. }) => { Some("at least one configuration is seen") }
        Request::Outcomes(OutcomesAsked { limit, .. }) | Request::Seek(Seeking { limit, .. })
            if *limit > 4194304 => { Some("at most 4194304 configurations are seen") }
        Request::Outcomes(OutcomesAsked { of: Some(0), .. }) => Some(
            "the outcomes are numbered from 1",
        ),
        _ => None,
    }
}

/// Why files that the request names cannot be had as it names them.
fn file_objection(asked: &Request<'_>) -> Option<&'static str> {
    match asked {
        Request::OfJournal(
            OfJournal {
                script: STREAM,
                journal: Some(STREAM),
                ..
            },
        ) => Some("only one of the two files can be the standard input"),
        Request::Run(
            Running {
                alone: true,
                quiet: true,
                ..
            },
        ) => { Some("the journal alone goes to the standard output: leave out --quiet") }
        Request::Run(
            Running {
                alone: true,
                why: true,
                ..
            },
        ) => { Some("the journal alone goes to the standard output: leave out --why") }
        _ => None,
    }
}

/// Why what the words ask for cannot be had.
fn objection(asked: &Request<'_>) -> Option<&'static str>
    ensures { result ≡ None → CanBeAnswered asked.now }
{
    range_objection(asked).or(file_objection(asked))
}

/// The request that can be answered, or what is wrong with it.
fn answerable<'a>(
    alloc: Global,
    matches: &ArgMatches<'a>,
) -> Result<Request<'a>, (ErrorKind, &'static str)>
    ensures { IfOk result CanBeAnswered }
{
    let nothing = (ErrorKind::MissingSubcommand, "nothing is asked for");
    let Some((name, behind)) = matches.subcommand() else {
        return Err(nothing);
    };
    let unknown = (
        ErrorKind::ValueValidation,
        "it is no fault's number, and no word of these: unset, kind, range, shape, waiting, spent, unstarted, stranded, left, faulted, printed, deadlock, nack, journal, stamp, tail, lawful, maximal, outcome, configuration",
    );
    let Ok(read) = request_of(alloc, name, behind) else {
        return Err((ErrorKind::OutOfMemory, "out of memory"));
    };
    let asked = read.ok_or(unknown)?;
    match objection(&asked) {
        Some(why) => Err((ErrorKind::ValueValidation, why)),
        None => Ok(asked),
    }
}

/// What the words ask for, as `clap` has it. A wish for help is an error too.
fn understood<'a>(alloc: Global, words: &'a [&'a str]) -> Result<Request<'a>, Error>
    ensures { IfOk result CanBeAnswered }
{
    let mut command = command_line(alloc)?;
    let matches = command.try_get_matches_from_mut(words)?;
    match answerable(alloc, &matches) {
        Ok(asked) => Ok(asked),
        Err((kind, why)) => Err(command.error(kind, why)?),
    }
}

/// What the words ask for; they begin behind the program's name. A wish for help is a fault too, with the
/// help as its text.
pub fn read_words<'a>(alloc: Global, words: &'a [&'a str]) -> Result<Request<'a>, WordsFault>
    ensures { IfOk result CanBeAnswered }
{
    if let ["--version" | "-V"] = words {
        return Ok(Request::Version);
    }
    match understood(alloc, words) {
        Ok(asked) => Ok(asked),
        Err(error) if error.kind() == ErrorKind::OutOfMemory => Err(WordsFault::Memory),
        Err(error) => Err(WordsFault::NotUnderstood(format!(in alloc; "{error}")?)),
    }
}
