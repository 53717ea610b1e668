//! Arguments that several commands have.

use clap::{Arg, ArgAction, value_parser};
use std::alloc::{AllocError, Global};

pub(crate) fn file_argument<'a>(
    alloc: Global,
    id: &'a str,
    value_name: &'a str,
    help: &'a str,
) -> Arg<'a> {
    Arg::new(alloc, id)
        .required(true)
        .action(ArgAction::Set)
        .value_name(value_name)
        .help(help)
}

pub(crate) fn rows_argument<'a>(alloc: Global) -> Arg<'a> {
    Arg::new(alloc, "rows")
        .long("rows")
        .action(ArgAction::Set)
        .value_name("G")
        .value_parser(value_parser!(u16).range(1..=1024))
        .default_value("256")
        .help("How many syncs a process may make, 1 to 1024")
}

/// The rows of a search, which without them is of runs of any length.
pub(crate) fn bound_argument<'a>(alloc: Global) -> Arg<'a> {
    Arg::new(alloc, "rows")
        .long("rows")
        .action(ArgAction::Set)
        .value_name("G")
        .value_parser(value_parser!(u16).range(1..=1024))
        .help("Only of runs in which a process makes at most G syncs, 1 to 1024")
}

pub(crate) fn seasons_argument<'a>(alloc: Global) -> Arg<'a> {
    Arg::new(alloc, "seasons")
        .long("seasons")
        .action(ArgAction::Set)
        .value_name("K")
        .value_parser(value_parser!(u16).range(1..=65535))
        .help("How many times a process may make so many syncs, 1 to 65535")
}

pub(crate) fn kept_argument<'a>(alloc: Global, help: &'a str) -> Arg<'a> {
    Arg::new(alloc, "journal")
        .long("journal")
        .action(ArgAction::Set)
        .value_name("TO")
        .help(help)
}

pub(crate) fn flag_argument<'a>(alloc: Global, name: &'a str, help: &'a str) -> Arg<'a> {
    Arg::new(alloc, name)
        .long(name)
        .action(ArgAction::SetTrue)
        .help(help)
}

pub(crate) fn stamp_argument<'a>(
    alloc: Global,
    name: &'a str,
    stamp: &'a str,
    help: &'a str,
) -> Arg<'a> {
    Arg::new(alloc, name)
        .long(name)
        .action(ArgAction::Set)
        .value_name("S")
        .value_parser(value_parser!(u32).range(1..))
        .default_value(stamp)
        .help(help)
}

/// A file that need not be named.
pub(crate) fn optional_file_argument<'a>(
    alloc: Global,
    id: &'a str,
    value_name: &'a str,
    help: &'a str,
) -> Arg<'a> {
    Arg::new(alloc, id)
        .action(ArgAction::Set)
        .value_name(value_name)
        .help(help)
}

/// The arguments of what goes through a journal: its script, the journal, and how many rows a process has, in how many
/// seasons.
pub(crate) fn arguments_of_journal<'a>(alloc: Global) -> Result<Vec<Arg<'a>>, AllocError> {
    let file = file_argument(alloc, "file", "FILE", "The script");
    let journal = file_argument(alloc, "journal", "JOURNAL", "The journal");
    Ok(vec![in alloc;
        file,
        journal,
        rows_argument(alloc),
        seasons_argument(alloc),
    ]?)
}

pub(crate) fn limit_argument<'a>(alloc: Global) -> Arg<'a> {
    Arg::new(alloc, "limit")
        .long("limit")
        .action(ArgAction::Set)
        .value_name("C")
        .value_parser(value_parser!(u32).range(1..=4194304))
        .default_value("1048576")
        .help("How many configurations, or without --rows states, are seen, 1 to 4194304")
}

pub(crate) fn of_argument<'a>(alloc: Global) -> Result<Arg<'a>, AllocError> {
    Arg::new(alloc, "of")
        .long("of")
        .action(ArgAction::Set)
        .value_name("K")
        .value_parser(value_parser!(u32).range(1..))
        .help("The outcome whose journal is written, else the first that is printed")
        .requires_arg("journal")
}
