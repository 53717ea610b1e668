//! The variables of a process, and what went wrong in one that faulted.

ghost use Rattle.std.specs.Prelude.{◌≡◌, [], OnOk, Some, get_or, length};
ghost use Rattle.script.specs.Scripts.{script_of};
ghost use Rattle.script_tree.specs.Processes.{proc_of};
ghost use Rattle.pcml_why.specs.Variables.{above_words, below_words, counted, fault_text, kind_word, lead, nacks_words, not_of_kind, some_set, trouble_text, variable_text, variables_below, variables_text, wrong_text};
ghost use Rattle.journal_text.specs.Names.{named};
ghost use Rattle.script.specs.Appending.{Adds};

use journal_text::push_atom;
use pcml_why_sites::{Kind, Stand, Trouble};
use protocol_values::Atom;
use script::Script;
use script_tree::{Name, Proc};
use std::alloc::AllocError;
use thread::Fault;

/// A process, and the script in whose names its values are told.
#[derive(Drop)]
pub(crate) struct Namer<'a> {
    pub(crate) script: &'a Script,
    pub(crate) process: &'a Proc,
}

fn some_set(variables: &[Option<Atom>]) -> bool
    ensures { result ≡ some_set variables.now }
{
    for value in variables {
        if value.is_some() {
            return true;
        }
    }
    false
}

fn lead(behind: bool) -> &'static str
    ensures { result.now ≡ lead behind }
{
    if behind { ", " } else { "  " }
}

fn kind_word(kind: Kind) -> &'static str
    ensures { result.now ≡ kind_word kind }
{
    match kind {
        Kind::Number => "number",
        Kind::Channel => "channel",
        Kind::Nack => "nack",
    }
}

fn fault_text(fault: Fault) -> &'static str
    ensures { result.now ≡ fault_text fault }
{
    match fault {
        Fault::Unset => "a name is read that is not set",
        Fault::Kind => "a value is not of the kind that is wanted",
        Fault::Range => "a number or a nack is out of range",
        Fault::Shape => "a message has more or fewer values than there are names",
    }
}

/// Appends a number of things, and the word for one or for several of them.
fn push_counted(out: &mut String, count: u8, word: &str) -> Result<(), AllocError>
    ensures { OnOk result (Adds out.old out.new (counted count word.now)) }
{
    write!(out, "{count}{word}")?;
    if count == 1 {
        return Ok(());
    }
    out.push_str("s")
}

#[tactic(auto, unfolding(crate::specs::Variables::below_words))]
fn below_words() -> &'static str
    ensures { result.now ≡ below_words }
{
    " is below 0"
}

#[tactic(auto, unfolding(crate::specs::Variables::above_words))]
fn above_words() -> &'static str
    ensures { result.now ≡ above_words }
{
    " is above 4294967295"
}

#[tactic(auto, unfolding(crate::specs::Variables::nacks_words))]
fn nacks_words() -> &'static str
    ensures { result.now ≡ nacks_words }
{
    "a process has 64 nacks"
}

impl Namer<'_> {
    fn push_name(&self, out: &mut String, variable: usize) -> Result<(), AllocError>
        ensures { OnOk result (Adds out.old out.new (get_or (proc_of self.now.process.now).variables variable [])) }
    {
        match self.process.variable_name(variable) {
            Some(name) => out.push_str(name),
            None => Ok(()),
        }
    }

    /// Appends a variable with its value, if it has one, behind others or as the first of its line.
    fn push_variable(
        &self,
        out: &mut String,
        behind: bool,
        variable: usize,
        value: Option<Atom>,
    ) -> Result<(), AllocError>
        ensures { OnOk result (Adds out.old out.new (variable_text (named (script_of self.now.script.now)) (proc_of self.now.process.now).variables behind variable (Some value))) }
    {
        let Some(atom) = value else {
            return Ok(());
        };
        out.push_str(lead(behind))?;
        self.push_name(out, variable)?;
        out.push_str(" = ")?;
        push_atom(out, self.script, atom)
    }

    fn push_each(&self, out: &mut String, variables: &[Option<Atom>]) -> Result<(), AllocError>
        ensures { OnOk result (Adds out.old out.new (variables_below (named (script_of self.now.script.now)) (proc_of self.now.process.now).variables variables.now (length variables.now))) }
    {
        for variable in 0..variables.len() {
            let behind = some_set(&variables[..variable]);
            self.push_variable(out, behind, variable, variables[variable])?;
        }
        Ok(())
    }

    /// Appends a line of the variables that are set, where some are.
    pub(crate) fn push_variables(
        &self,
        out: &mut String,
        variables: &[Option<Atom>],
    ) -> Result<(), AllocError>
        ensures { OnOk result (Adds out.old out.new (variables_text (named (script_of self.now.script.now)) (proc_of self.now.process.now).variables variables.now)) }
    {
        if !some_set(variables) {
            return Ok(());
        }
        self.push_each(out, variables)?;
        out.push_str("\n")
    }

    fn push_not_of_kind(
        &self,
        out: &mut String,
        name: Option<Name>,
        value: Atom,
        wanted: Kind,
    ) -> Result<(), AllocError>
        ensures { OnOk result (Adds out.old out.new (not_of_kind (named (script_of self.now.script.now)) (proc_of self.now.process.now).variables name value wanted)) }
    {
        match name {
            Some(Name::Variable(variable)) => {
                self.push_name(out, variable)?;
                out.push_str(" is ")?;
                push_atom(out, self.script, value)?;
                out.push_str(" and no ")?;
            }
            Some(Name::Channel(_)) | None => {
                push_atom(out, self.script, value)?;
                out.push_str(" is no ")?;
            }
        }
        out.push_str(kind_word(wanted))
    }

    fn push_trouble(&self, out: &mut String, trouble: Trouble) -> Result<(), AllocError>
        ensures { OnOk result (Adds out.old out.new (trouble_text (named (script_of self.now.script.now)) (proc_of self.now.process.now).variables trouble)) }
    {
        match trouble {
            Trouble::Unset { variable } => {
                self.push_name(out, variable)?;
                out.push_str(" is not set")
            }
            Trouble::NotOfKind {
                name,
                value,
                wanted,
            } => self.push_not_of_kind(out, name, value, wanted),
            Trouble::Below { left, right } => {
                write!(out, "{left}")?;
                out.push_str(" - ")?;
                write!(out, "{right}")?;
                out.push_str(below_words())
            }
            Trouble::Above { left, right } => {
                write!(out, "{left}")?;
                out.push_str(" + ")?;
                write!(out, "{right}")?;
                out.push_str(above_words())
            }
            Trouble::Nacks => out.push_str(nacks_words()),
            Trouble::Count { values, names } => {
                push_counted(out, values, " value")?;
                out.push_str(" for ")?;
                push_counted(out, names, " name")
            }
        }
    }

    /// Appends what went wrong in a process that faulted.
    pub(crate) fn push_wrong(
        &self,
        out: &mut String,
        fault: Fault,
        stand: &Stand,
    ) -> Result<(), AllocError>
        ensures { OnOk result (Adds out.old out.new (wrong_text (named (script_of self.now.script.now)) (proc_of self.now.process.now).variables fault stand.now)) }
    {
        match stand {
            Stand::Fails(_, trouble) => self.push_trouble(out, *trouble),
            Stand::Offers(_) | Stand::Finishes | Stand::Strays => out.push_str(fault_text(fault)),
        }
    }
}
