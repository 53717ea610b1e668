//! A thread on its way over its tree.

ghost use Rattle.std.specs.Prelude.{◌≡◌, ◌∷◌, [], length};
ghost use Rattle.std.specs.Option.{option_map};
ghost use Rattle.script_tree.specs.Trees.{exprs_of, names_of};
ghost use Rattle.thread.specs.Values.{atoms};
ghost use Rattle.pcml_why_sites.specs.Walks.{came, view_in, walk_names, walk_nack, walk_wrap, with_set};
ghost use Rattle.pcml_why_sites.specs.declared.walk.Stop.TheVariants as stop;

use crate::trouble::Trouble;
use crate::value::message_of;
use protocol_values::{Atom, Message, NackName};
use script_tree::{Exprs, Names};

/// Why a walk went no further.
#[derive(Clone, Copy, Debug, PartialEq, Eq)]
pub(crate) enum Stop {
    /// No result was left for a sync.
    Offers,
    Finishes,
    Fails(Trouble),
    /// A result named no offer of its sync.
    Strays,
}

impl From<Trouble> for Stop {
    ghost from_gives = { λ trouble it. it ≡ stop.Fails trouble };

    fn from(trouble: Trouble) -> Stop {
        Stop::Fails(trouble)
    }
}

/// Where the base event that was chosen lies: within the event that was searched, so that its message
/// came through, or so many base events behind it.
#[derive(Clone, Copy)]
pub(crate) enum Passage {
    Through(Message),
    Past(u8),
}

/// What a thread knows on its way.
#[derive(Drop)]
pub(crate) struct Walk<'a> {
    pub(crate) thread: u8,
    pub(crate) variables: Vec<Option<Atom>>,
    /// How many nacks it made.
    pub(crate) nacks: u8,
    /// The results that are left to it.
    pub(crate) left: &'a [(u8, Message)],
}

fn name_count(names: Names) -> u8
    ensures { result ≡ length (names_of names) }
{
    match names {
        Names::One(_) => 1,
        Names::Two(_, _) => 2,
        Names::Three(_, _, _) => 3,
    }
}

fn value_count(message: Message) -> u8
    ensures { result ≡ length (atoms message) }
{
    match message {
        Message::Empty => 0,
        Message::One(_) => 1,
        Message::Two(_, _) => 2,
        Message::Three(_, _, _) => 3,
    }
}

impl Walk<'_> {
    pub(crate) fn set(&mut self, variable: usize, atom: Atom)
        ensures { view_in self.new ≡ with_set variable atom (view_in self.old) }
    {
        if variable < self.variables.len() {
            self.variables[variable] = Some(atom);
        }
    }

    /// Sets the names to the values of the message, if there are names.
    pub(crate) fn set_names(&mut self, names: Option<Names>, message: Message) -> Result<(), Stop>
        ensures { came result self.new ≡ walk_names (option_map names_of names) message (view_in self.old) }
    {
        let Some(names) = names else {
            return Ok(());
        };
        match (names, message) {
            (Names::One(x), Message::One(a)) => self.set(x, a),
            (Names::Two(x, y), Message::Two(a, b)) => {
                self.set(x, a);
                self.set(y, b);
            }
            (Names::Three(x, y, z), Message::Three(a, b, c)) => {
                self.set(x, a);
                self.set(y, b);
                self.set(z, c);
            }
            _ => {
                return Err(Stop::Fails(Trouble::Count {
                    values: value_count(message),
                    names: name_count(names),
                }));
            }
        }
        Ok(())
    }

    /// Makes the next nack, which the name is set to.
    pub(crate) fn make_nack(&mut self, name: usize) -> Result<(), Stop>
        ensures { came result self.new ≡ walk_nack name (view_in self.old) }
    {
        if self.nacks >= 64 {
            return Err(Stop::Fails(Trouble::Nacks));
        }
        let nack = NackName {
            thread: self.thread,
            k: self.nacks,
        };
        self.nacks += 1;
        self.set(name, Atom::Nack(nack));
        Ok(())
    }

    /// Takes a message through a wrap: it sets the names, and becomes what the list comes to.
    pub(crate) fn wrap(
        &mut self,
        names: Option<Names>,
        list: &Exprs,
        message: Message,
    ) -> Result<Passage, Stop>
        ensures { came result self.new ≡ walk_wrap (option_map names_of names) (exprs_of list.now) message (view_in self.old) }
    {
        self.set_names(names, message)?;
        let changed = message_of(list, &self.variables)?;
        Ok(Passage::Through(changed))
    }
}
