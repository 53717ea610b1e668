//! A command of the program for each request, and the request by the words behind it.

use crate::arguments::{
    arguments_of_journal, bound_argument, file_argument, flag_argument, kept_argument,
    limit_argument, of_argument, optional_file_argument, rows_argument, seasons_argument,
    stamp_argument,
};
use crate::request::{
    Drawing, Form, OfJournal, OutcomesAsked, Question, Request, Running, Seeking, Sought, Wanted,
};
use clap::{Arg, ArgAction, ArgMatches, Command, value_parser};
use pcml_explain::{Topic, Word};
use std::alloc::{AllocError, Global};

fn need_argument<'a>(alloc: Global, help: &'a str) -> Arg<'a> {
    Arg::new(alloc, "need")
        .long("need")
        .action(ArgAction::Set)
        .value_name("NAMES")
        .help(help)
}

fn run_command<'a>(alloc: Global) -> Result<Command<'a>, AllocError> {
    let workers = Arg::new(alloc, "workers")
        .long("workers")
        .action(ArgAction::Set)
        .value_name("N")
        .value_parser(value_parser!(u8).range(1..=16))
        .default_value("4")
        .help("How many workers run the processes, 1 to 16");
    let file = file_argument(alloc, "file", "FILE", "The script");
    let arguments = vec![in alloc;
        file,
        workers,
        rows_argument(alloc),
        seasons_argument(alloc),
        kept_argument(
            alloc,
            "Writes the journal to a file too; with - it alone is printed"
        ),
        flag_argument(alloc, "quiet", "Prints no journal"),
        flag_argument(
            alloc,
            "why",
            "Tells why each process stands where it does, too"
        ),
        need_argument(
            alloc,
            "Processes that have to end, with commas between, or all: else the status is 3"
        ),
    ]?;
    Command::new(alloc, "run")
        .about("Runs the processes of a script")
        .args(arguments)
}

/// The name of the standard streams where a file may be named.
pub(crate) const STREAM: &str = "-";

/// The file in which the words keep a journal, and whether it goes to the standard output alone.
fn kept_by<'a>(words: &ArgMatches<'a>) -> (Option<&'a str>, bool) {
    match words.get_str("journal") {
        Some(STREAM) => (None, true),
        journal => (journal, false),
    }
}

/// The request of `run`, by the words behind it.
fn run_request<'a>(run: &ArgMatches<'a>) -> Option<Request<'a>> {
    let (journal, alone) = kept_by(run);
    Some(Request::Run(Running {
        script: run.get_str("file")?,
        workers: run.get_one("workers")?,
        rows: run.get_one("rows")?,
        seasons: run.get_one("seasons"),
        journal,
        alone,
        quiet: run.get_flag("quiet"),
        why: run.get_flag("why"),
        need: run.get_str("need"),
    }))
}

fn check_command<'a>(alloc: Global) -> Result<Command<'a>, AllocError> {
    let file = file_argument(alloc, "file", "FILE", "The script");
    Command::new(alloc, "check")
        .about("Checks the text of a script")
        .arg(file)
}

fn why_command<'a>(alloc: Global) -> Result<Command<'a>, AllocError> {
    let file = file_argument(alloc, "file", "FILE", "The script");
    let journal = optional_file_argument(
        alloc,
        "journal",
        "JOURNAL",
        "The journal: without it, it is told why the text is no script",
    );
    let short = flag_argument(
        alloc,
        "short",
        "Without a journal: one line FILE:LINE:COLUMN: TEXT, and nothing where the text is a script",
    );
    let arguments = vec![in alloc;
        file,
        journal,
        rows_argument(alloc),
        seasons_argument(alloc),
        short.conflicts_with("journal")?,
    ]?;
    Command::new(alloc, "why")
        .about("Tells why each process stands where it does, or why a text is no script")
        .args(arguments)
}

/// What is asked of the script and the journal of these words, of so many rows, in seasons where they name a number.
fn of_journal<'a>(words: &ArgMatches<'a>, question: Question<'a>) -> Option<Request<'a>> {
    Some(Request::OfJournal(OfJournal {
        script: words.get_str("file")?,
        journal: words.get_str("journal"),
        rows: words.get_one("rows")?,
        seasons: words.get_one("seasons"),
        question,
    }))
}

/// The request of `why`, by the words behind it.
fn why_request<'a>(why: &ArgMatches<'a>) -> Option<Request<'a>> {
    if why.get_str("journal").is_some() {
        return of_journal(why, Question::Why);
    }
    let script = why.get_str("file")?;
    Some(if why.get_flag("short") {
        Request::WhyShort(script)
    } else {
        Request::WhyScript(script)
    })
}

fn only_argument<'a>(alloc: Global, help: &'a str) -> Arg<'a> {
    Arg::new(alloc, "only")
        .long("only")
        .action(ArgAction::Set)
        .value_name("NAMES")
        .help(help)
}

fn form_argument<'a>(alloc: Global) -> Arg<'a> {
    Arg::new(alloc, "as")
        .long("as")
        .action(ArgAction::Set)
        .value_name("FORM")
        .value_parser(["svg", "mermaid"].as_slice())
        .default_value("svg")
        .help("As what the chart is printed")
}

/// As what the words behind `chart` want it.
fn form_of<'a>(chart: &ArgMatches<'a>) -> Form {
    match chart.get_str("as") {
        Some("mermaid") => Form::Mermaid,
        _ => Form::Svg,
    }
}

fn chart_command<'a>(alloc: Global) -> Result<Command<'a>, AllocError> {
    let mut arguments = arguments_of_journal(alloc)?;
    arguments.push(stamp_argument(alloc, "from", "1", "The first stamp that is drawn"))?;
    arguments.push(stamp_argument(alloc, "to", "4294967295", "The last stamp that is drawn"))?;
    arguments.push(only_argument(
        alloc,
        "Processes with a column each, with commas between, or all: the others share one",
    ))?;
    arguments.push(form_argument(alloc))?;
    Command::new(alloc, "chart")
        .about("Draws a journal as a chart")
        .args(arguments)
}

/// The request of `chart`, by the words behind it.
fn chart_request<'a>(chart: &ArgMatches<'a>) -> Option<Request<'a>> {
    let drawing = Drawing {
        from: chart.get_one("from")?,
        to: chart.get_one("to")?,
        only: chart.get_str("only"),
        form: form_of(chart),
    };
    of_journal(chart, Question::Chart(drawing))
}

fn replay_command<'a>(alloc: Global) -> Result<Command<'a>, AllocError> {
    let arguments = arguments_of_journal(alloc)?;
    Command::new(alloc, "replay")
        .about("Replays a journal against its script")
        .args(arguments)
}

/// An argument that asks for something else than outcomes.
fn alone<'a>(argument: Arg<'a>) -> Result<Arg<'a>, AllocError> {
    argument
        .conflicts_with("rows")?
        .conflicts_with("waiting")?
        .conflicts_with("need")?
        .conflicts_with("only")?
        .conflicts_with("first")?
        .conflicts_with("of")
}

fn left_argument<'a>(alloc: Global) -> Result<Arg<'a>, AllocError> {
    let left = Arg::new(alloc, "left")
        .long("left")
        .action(ArgAction::Set)
        .value_name("NAMES")
        .help(
            "Processes, with commas between, or all: prints which of them can come to never end any more",
        );
    alone(left)
}

fn faults_argument<'a>(alloc: Global) -> Result<Arg<'a>, AllocError> {
    let faults = flag_argument(
        alloc,
        "faults",
        "Prints which process some run leads to a fault, whether the run ends or not",
    );
    alone(faults)?.conflicts_with("left")
}

fn never_argument<'a>(alloc: Global) -> Result<Arg<'a>, AllocError> {
    let never = Arg::new(alloc, "never")
        .long("never")
        .action(ArgAction::Append)
        .value_name("NAME=VALUE")
        .help(
            "Prints whether some run has the process print the value, whether the run ends or not; may be given again",
        );
    alone(never)?
        .conflicts_with("left")?
        .conflicts_with("faults")
}

fn outcomes_command<'a>(alloc: Global) -> Result<Command<'a>, AllocError> {
    let file = file_argument(alloc, "file", "FILE", "The script");
    let waiting = flag_argument(
        alloc,
        "waiting",
        "Prints only what leaves a process waiting",
    );
    let arguments = vec![in alloc;
        file,
        bound_argument(alloc),
        limit_argument(alloc),
        waiting.conflicts_with("need")?,
        need_argument(
            alloc,
            "Processes that have to end, with commas between, or all: prints only what keeps one from it"
        ),
        left_argument(alloc)?,
        faults_argument(alloc)?,
        never_argument(alloc)?,
        only_argument(
            alloc,
            "Processes that are told, with commas between, or all: the others make no other outcome"
        ),
        flag_argument(alloc, "first", "Stops at the first outcome that is printed"),
        kept_argument(
            alloc,
            "Writes a journal that leads to an outcome to a file; with - it alone is printed"
        ),
        of_argument(alloc)?,
    ]?;
    Command::new(alloc, "outcomes")
        .about("Tells all that a script can come to")
        .args(arguments)
}

/// Which outcomes the words behind `outcomes` want.
fn wanted_of<'a>(outcomes: &ArgMatches<'a>) -> Wanted<'a> {
    match outcomes.get_str("need") {
        Some(names) => Wanted::Lacking(names),
        None if outcomes.get_flag("waiting") => Wanted::Waiting,
        None => Wanted::Each,
    }
}

/// What the words behind `outcomes` seek in place of outcomes.
fn sought_of<'a>(
    alloc: Global,
    outcomes: &ArgMatches<'a>,
) -> Result<Option<Sought<'a>>, AllocError> {
    match (outcomes.get_str("left"), outcomes.get_strs("never")) {
        (Some(names), _) => Ok(Some(Sought::Left(names))),
        (None, Some(prints)) => Ok(Some(Sought::Printed(prints.to_vec(alloc)?))),
        (None, None) if outcomes.get_flag("faults") => Ok(Some(Sought::Fault)),
        (None, None) => Ok(None),
    }
}

/// The request of `outcomes` that seeks this.
fn seeking_request<'a>(outcomes: &ArgMatches<'a>, sought: Sought<'a>) -> Option<Request<'a>> {
    let (journal, alone) = kept_by(outcomes);
    Some(Request::Seek(Seeking {
        script: outcomes.get_str("file")?,
        limit: outcomes.get_one("limit")?,
        sought,
        journal,
        alone,
    }))
}

/// The request of `outcomes` that lists them.
fn search_request<'a>(outcomes: &ArgMatches<'a>) -> Option<Request<'a>> {
    let (journal, alone) = kept_by(outcomes);
    Some(Request::Outcomes(OutcomesAsked {
        script: outcomes.get_str("file")?,
        rows: outcomes.get_one("rows"),
        limit: outcomes.get_one("limit")?,
        wanted: wanted_of(outcomes),
        only: outcomes.get_str("only"),
        first: outcomes.get_flag("first"),
        journal,
        alone,
        of: outcomes.get_one("of"),
    }))
}

/// The request of `outcomes`, by the words behind it.
fn outcomes_request<'a>(
    alloc: Global,
    outcomes: &ArgMatches<'a>,
) -> Result<Option<Request<'a>>, AllocError> {
    match sought_of(alloc, outcomes)? {
        Some(sought) => Ok(seeking_request(outcomes, sought)),
        None => Ok(search_request(outcomes)),
    }
}

fn next_command<'a>(alloc: Global) -> Result<Command<'a>, AllocError> {
    let file = file_argument(alloc, "file", "FILE", "The script");
    let journal = optional_file_argument(
        alloc,
        "journal",
        "JOURNAL",
        "The journal: without it, one without commits",
    );
    let arguments = vec![in alloc; file, journal, rows_argument(alloc)]?;
    Command::new(alloc, "next")
        .about("Tells which commits may come next")
        .args(arguments)
}

/// The request of `next`, by the words behind it: it knows no seasons.
fn next_request<'a>(next: &ArgMatches<'a>) -> Option<Request<'a>> {
    Some(Request::OfJournal(OfJournal {
        script: next.get_str("file")?,
        journal: next.get_str("journal"),
        rows: next.get_one("rows")?,
        seasons: None,
        question: Question::Next,
    }))
}

fn stats_command<'a>(alloc: Global) -> Result<Command<'a>, AllocError> {
    let arguments = arguments_of_journal(alloc)?;
    Command::new(alloc, "stats")
        .about("Tells how often each process and channel took part in a journal")
        .args(arguments)
}

fn explain_command<'a>(alloc: Global) -> Result<Command<'a>, AllocError> {
    let topic = Arg::new(alloc, "topic")
        .action(ArgAction::Set)
        .value_name("N")
        .help("The fault's number, or the word: else all of them are listed");
    Command::new(alloc, "explain")
        .about("Explains a fault, or a word that is told")
        .arg(topic)
}

/// The request of `explain`, by the word behind it, where it is a number or a word that the program tells.
fn explain_request<'a>(explain: &ArgMatches<'a>) -> Option<Request<'a>> {
    let Some(topic) = explain.get_str("topic") else {
        return Some(Request::Explain(Topic::Contents));
    };
    if let Ok(number) = topic.parse::<u16>() {
        return Some(Request::Explain(Topic::Fault(number)));
    }
    Word::of(topic).map(|word| Request::Explain(Topic::Word(word)))
}

fn manual_command<'a>(alloc: Global) -> Result<Command<'a>, AllocError> {
    Ok(Command::new(alloc, "manual").about("Prints the manual page"))
}

fn version_command<'a>(alloc: Global) -> Result<Command<'a>, AllocError> {
    Ok(Command::new(alloc, "version").about("Tells the version"))
}

fn meet_command<'a>(alloc: Global) -> Result<Command<'a>, AllocError> {
    let value = Arg::new(alloc, "value")
        .required(true)
        .action(ArgAction::Set)
        .value_name("V")
        .value_parser(value_parser!(u32))
        .help("The number that is sent");
    Command::new(alloc, "meet")
        .about("Sends one number from a thread to another")
        .arg(value)
}

fn play_command<'a>(alloc: Global) -> Result<Command<'a>, AllocError> {
    let file = file_argument(alloc, "file", "FILE", "The schedule");
    Command::new(alloc, "play")
        .about("Plays the steps of a schedule")
        .arg(file)
}

/// The command with one more below it.
fn with<'a>(
    command: Result<Command<'a>, AllocError>,
    below: Result<Command<'a>, AllocError>,
) -> Result<Command<'a>, AllocError> {
    command?.subcommand(below?)
}

fn bare_command<'a>(alloc: Global) -> Result<Command<'a>, AllocError> {
    Command::new(alloc, "pcml")
        .about(
            "Runs scripts of Concurrent ML's events, and tells of any run what it was and why it stands where it does",
        )
        .no_binary_name(true)
        .subcommand_required(true)
        .bin_name("pcml")
}

/// All commands, those that are used most first.
pub(crate) fn command_line<'a>(alloc: Global) -> Result<Command<'a>, AllocError> {
    let command = with(bare_command(alloc), run_command(alloc));
    let command = with(command, check_command(alloc));
    let command = with(command, why_command(alloc));
    let command = with(command, chart_command(alloc));
    let command = with(command, replay_command(alloc));
    let command = with(command, outcomes_command(alloc));
    let command = with(command, next_command(alloc));
    let command = with(command, stats_command(alloc));
    let command = with(command, explain_command(alloc));
    let command = with(command, manual_command(alloc));
    let command = with(command, version_command(alloc));
    let command = with(command, meet_command(alloc));
    with(command, play_command(alloc))
}

fn check_request<'a>(check: &ArgMatches<'a>) -> Option<Request<'a>> {
    Some(Request::Check(check.get_str("file")?))
}

fn meet_request<'a>(meet: &ArgMatches<'a>) -> Option<Request<'a>> {
    Some(Request::Meet(meet.get_one("value")?))
}

fn play_request<'a>(play: &ArgMatches<'a>) -> Option<Request<'a>> {
    Some(Request::Play(play.get_str("file")?))
}

/// The request of the subcommand of this name, but for `outcomes`, by the words behind it.
fn plain_request<'a>(name: &str, behind: &ArgMatches<'a>) -> Option<Request<'a>> {
    match name {
        "run" => run_request(behind),
        "check" => check_request(behind),
        "why" => why_request(behind),
        "chart" => chart_request(behind),
        "replay" => of_journal(behind, Question::Replay),
        "next" => next_request(behind),
        "stats" => of_journal(behind, Question::Stats),
        "explain" => explain_request(behind),
        "manual" => Some(Request::Explain(Topic::Manual)),
        "version" => Some(Request::Version),
        "meet" => meet_request(behind),
        "play" => play_request(behind),
        _ => None,
    }
}

/// The request of the subcommand of this name, by the words behind it.
pub(crate) fn request_of<'a>(
    alloc: Global,
    name: &str,
    behind: &ArgMatches<'a>,
) -> Result<Option<Request<'a>>, AllocError> {
    match name {
        "outcomes" => outcomes_request(alloc, behind),
        _ => Ok(plain_request(name, behind)),
    }
}
