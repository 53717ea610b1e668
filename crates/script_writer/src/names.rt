//! Names, by their numbers.

ghost use Rattle.std.specs.Prelude.{OnOk};
ghost use Rattle.std.specs.Option.{option_map};
ghost use Rattle.script_tree.specs.Trees.{names_of as numbers_of};
ghost use Rattle.script_writer.specs.Texts.{variable_text, name_text, process_name_text, names_text, as_text, received_text};
ghost use Rattle.script_writer.specs.Sources.{source_names};
ghost use Rattle.script.specs.Appending.{Adds};

use script::Script;
use script_tree::{Name, Names, Proc};
use std::alloc::AllocError;

/// A process, and the script that it stands in.
#[derive(Clone, Copy)]
pub(crate) struct Source<'a> {
    pub(crate) script: &'a Script,
    pub(crate) process: &'a Proc,
}

pub(crate) fn put_variable(
    out: &mut String,
    source: &Source<'_>,
    variable: usize,
) -> Result<(), AllocError>
    ensures { OnOk result (Adds out.old out.new (variable_text (source_names source.now) variable)) }
{
    if let Some(text) = source.process.variable_name(variable) {
        out.push_str(text)?;
    }
    out.push_str(" ")
}

fn put_channel(out: &mut String, source: &Source<'_>, channel: usize) -> Result<(), AllocError>
    ensures { OnOk result (Adds out.old out.new (name_text (source_names source.now) (Name.Channel channel))) }
{
    if channel < source.script.channels() {
        out.push_str(source.script.channel_name(channel))?;
    }
    out.push_str(" ")
}

pub(crate) fn put_name(out: &mut String, source: &Source<'_>, name: Name) -> Result<(), AllocError>
    ensures { OnOk result (Adds out.old out.new (name_text (source_names source.now) name)) }
{
    match name {
        Name::Variable(variable) => put_variable(out, source, variable),
        Name::Channel(channel) => put_channel(out, source, usize::from(channel)),
    }
}

/// The name of a process of the script.
#[tactic(auto, using(crate::proofs::Lists::get_names))]
pub(crate) fn put_process_name(
    out: &mut String,
    source: &Source<'_>,
    process: usize,
) -> Result<(), AllocError>
    ensures { OnOk result (Adds out.old out.new (process_name_text (source_names source.now) process)) }
{
    if process < source.script.processes().len() {
        out.push_str(source.script.process_name(process))?;
    }
    out.push_str(" ")
}

fn put_names(out: &mut String, source: &Source<'_>, names: Names) -> Result<(), AllocError>
    ensures { OnOk result (Adds out.old out.new (names_text (source_names source.now) (numbers_of names))) }
{
    match names {
        Names::One(first) => put_variable(out, source, first),
        Names::Two(first, second) => {
            put_variable(out, source, first)?;
            out.push_str(", ")?;
            put_variable(out, source, second)
        }
        Names::Three(first, second, third) => {
            put_variable(out, source, first)?;
            out.push_str(", ")?;
            put_variable(out, source, second)?;
            out.push_str(", ")?;
            put_variable(out, source, third)
        }
    }
}

/// The names that a wrap binds.
pub(crate) fn put_as(
    out: &mut String,
    source: &Source<'_>,
    names: Option<Names>,
) -> Result<(), AllocError>
    ensures { OnOk result (Adds out.old out.new (as_text (source_names source.now) (option_map numbers_of names))) }
{
    if let Some(names) = names {
        out.push_str("as ")?;
        put_names(out, source, names)?;
    }
    Ok(())
}

/// The names that a sync binds.
pub(crate) fn put_received(
    out: &mut String,
    source: &Source<'_>,
    names: Option<Names>,
) -> Result<(), AllocError>
    ensures { OnOk result (Adds out.old out.new (received_text (source_names source.now) (option_map numbers_of names))) }
{
    if let Some(names) = names {
        put_names(out, source, names)?;
        out.push_str("<- ")?;
    }
    Ok(())
}
