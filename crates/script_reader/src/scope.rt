//! What names stand for at a token of a process, and what the sync there has so far.

ghost use Rattle.std.specs.Prelude.{◌≡◌, ◌≤◌, length};
ghost use Rattle.script_reader.specs.Places.{texts};
ghost use Rattle.script_grammar.specs.Meaning.{channel_of};

use crate::table::Table;
use script_tree::Name;
use std::alloc::{AllocError, Global};

/// The longest name, in bytes.
pub const NAME_LEN: usize = 32;

/// How many base events and nacks a sync has so far.
#[derive(Clone, Copy, Debug)]
pub struct Counts {
    pub bases: u8,
    pub nacks: u8,
}

/// The names at a token of a process, and the counts of the sync there.
#[derive(Drop)]
pub struct Scope<'a> {
    pub channels: Table<'a>,
    /// The processes whose blocks have ended before.
    pub processes: Table<'a>,
    pub variables: Table<'a>,
    /// Which of the processes are spawned so far, in any block.
    pub spawned: Vec<u8>,
    pub counts: Counts,
    ghost few: { length (texts processes.names.items) ≤ 64 },
}

impl<'a> Scope<'a> {
    ghost use Rattle.std.specs.Prelude.{[], IfOk, is_some};
    ghost use Rattle.script_grammar.specs.Meaning.{place, is_among};
    ghost use Rattle.script_reader.specs.Steps.{here, start, meaning, bound};

    pub fn new(alloc: Global, channels: Table<'a>) -> Scope<'a>
        ensures { here result ≡ start (texts channels.entry.names.items) [] [] }
    {
        Scope {
            channels,
            processes: Table::new(alloc),
            variables: Table::new(alloc),
            spawned: Vec::new(alloc),
            counts: Counts { bases: 0, nacks: 0 },
        }
    }

    /// What the name stands for.
    #[tactic(auto, unfolding(crate::specs::Steps::meaning))]
    pub fn meaning(&self, name: &str) -> Option<Name>
        ensures { result ≡ meaning (here self.now) name.now }
    {
        if let Some(number) = self.channels.number(name) {
            return channel(number);
        }
        let number = self.variables.number(name)?;
        Some(Name::Variable(number))
    }

    /// The number of the process that the name stands for, if its block has ended before.
    #[tactic(auto, using(script_grammar::proofs::Places::place_in))]
    pub fn process(&self, name: &str) -> Option<u8>
        ensures { result ≡ place name.now (here self.now).processes }
    {
        let number = self.processes.number(name)?;
        Some(number as u8)
    }

    /// Whether the process is spawned already.
    pub fn is_spawned(&self, process: u8) -> bool
        ensures { result ≡ is_among (here self.now).spawned process }
    {
        self.spawned.contains(&process)
    }

    /// Whether the name stands for something.
    pub fn is_known(&self, name: &str) -> bool
        ensures { result ≡ is_some (meaning (here self.now) name.now) }
    {
        self.meaning(name).is_some()
    }

    /// The number of the variable that the name is bound to from here on.
    pub fn bind(&mut self, name: &'a str) -> Result<usize, AllocError>
        ensures { IfOk result (λ v. (v, here self.new) ≡ bound (here self.old) name.now) }
    {
        match self.variables.number(name) {
            Some(number) => Ok(number),
            None => {
                let number = self.variables.len();
                self.variables.add(name)?;
                Ok(number)
            }
        }
    }
}

fn channel(number: usize) -> Option<Name>
    ensures { result ≡ channel_of number }
{
    if number < 256 {
        Some(Name::Channel(number as u8))
    } else {
        None
    }
}
