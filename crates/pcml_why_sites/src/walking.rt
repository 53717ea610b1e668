//! Walks over a tree: what a process does from its first statement on.
//!
//! Blocks and choices are gone through by loops, so that only depth takes stack.

ghost use Rattle.std.specs.Prelude.{◌≡◌};
ghost use Rattle.std.specs.Option.{option_map};
ghost use Rattle.script_tree.specs.Trees.{block_of, event_of, names_of, stmt_of, turn_of};
ghost use Rattle.pcml_why_sites.specs.Walks.{came, pass, times, view_in, walk_block, walk_event, walk_stmt, walk_sync, walk_turn};

use crate::value::{always, cancelled, holds, recv, send, value_of};
use crate::walk::{Passage, Stop, Walk};
use protocol_values::Message;
use script_tree::{Block, Event, Events, LoopBody, Names, Stmt};

impl Walk<'_> {
    #[cycle(walking)]
    pub(crate) fn run(&mut self, block: &Block) -> Result<(), Stop>
        ensures { came result self.new ≡ walk_block (block_of block.now) (view_in self.old) }
    {
        let mut rest = block;
        while let Block::Then(stmt, _, behind) = rest {
            self.step(stmt)?;
            rest = behind;
        }
        Ok(())
    }

    #[cycle(walking)]
    fn step(&mut self, stmt: &Stmt) -> Result<(), Stop>
        ensures { came result self.new ≡ walk_stmt (stmt_of stmt.now) (view_in self.old) }
    {
        match stmt {
            Stmt::Let(name, value) => {
                let atom = value_of(value, &self.variables)?;
                self.set(*name, atom);
                Ok(())
            }
            Stmt::Print(value) => {
                value_of(value, &self.variables)?;
                Ok(())
            }
            Stmt::Sync(names, event) => self.sync(*names, event),
            Stmt::If(test, first, second) => {
                if holds(test, &self.variables)? {
                    self.run(first)
                } else {
                    self.run(second)
                }
            }
            Stmt::Loop(times, turn) => self.repeat(*times as usize, turn),
            // Each turn takes a result, so there are no more turns than results and one.
            Stmt::Forever(turn) => self.repeat(self.left.len() + 1, turn),
            Stmt::End => Err(Stop::Finishes),
            Stmt::Spawn(_) => Ok(()),
        }
    }

    /// So many turns of a loop.
    #[cycle(walking)]
    fn repeat(&mut self, turns: usize, turn: &LoopBody) -> Result<(), Stop>
        ensures { came result self.new ≡ times turns (walk_turn (turn_of turn.now)) (view_in self.old) }
    {
        let mut left = turns;
        while left > 0 {
            self.sync(turn.names, &turn.event)?;
            self.run(&turn.rest)?;
            left -= 1;
        }
        Ok(())
    }

    /// Resolves the event, and commits it by the next result.
    #[cycle(walking)]
    fn sync(&mut self, names: Option<Names>, event: &Event) -> Result<(), Stop>
        ensures { came result self.new ≡ walk_sync (option_map names_of names) (event_of event.now) (view_in self.old) }
    {
        self.resolve(event)?;
        let Some((first, rest)) = self.left.split_first() else {
            return Err(Stop::Offers);
        };
        self.left = rest;
        let (offer, message) = *first;
        match self.pass(event, offer, message)? {
            Passage::Through(changed) => self.set_names(names, changed),
            Passage::Past(_) => Err(Stop::Strays),
        }
    }

    /// Runs the guards of an event, and evaluates its base events.
    #[cycle(walking)]
    fn resolve(&mut self, event: &Event) -> Result<(), Stop>
        ensures { came result self.new ≡ walk_event (event_of event.now) (view_in self.old) }
    {
        match event {
            Event::Send(channel, list) => {
                send(*channel, list, &self.variables)?;
            }
            Event::Recv(channel) => {
                recv(*channel, &self.variables)?;
            }
            Event::Always(list) => {
                always(list, &self.variables)?;
            }
            Event::Cancelled(nack) => {
                cancelled(*nack, &self.variables)?;
            }
            Event::Never | Event::Joined(_) => {}
            Event::Choose(members) => {
                let mut rest: &Events = members;
                while let Events::More(member, others) = rest {
                    self.resolve(member)?;
                    rest = others;
                }
            }
            Event::Wrap(inner, _, _) => self.resolve(inner)?,
            Event::Guard(guard, inner) => {
                self.run(guard)?;
                self.resolve(inner)?;
            }
            Event::Nack(name, body, inner) => {
                self.make_nack(*name)?;
                self.run(body)?;
                self.resolve(inner)?;
            }
        }
        Ok(())
    }

    /// Takes a message from base event n, if it lies within the event, out through the wraps round that.
    #[cycle(passing)]
    fn pass(&mut self, event: &Event, mut n: u8, message: Message) -> Result<Passage, Stop>
        ensures { came result self.new ≡ pass (event_of event.now) n message (view_in self.old) }
    {
        match event {
            Event::Choose(members) => {
                let mut rest: &Events = members;
                while let Events::More(member, others) = rest {
                    match self.pass(member, n, message)? {
                        Passage::Through(changed) => return Ok(Passage::Through(changed)),
                        Passage::Past(left) => n = left,
                    }
                    rest = others;
                }
                Ok(Passage::Past(n))
            }
            Event::Wrap(inner, names, list) => match self.pass(inner, n, message)? {
                Passage::Through(changed) => self.wrap(*names, list, changed),
                Passage::Past(left) => Ok(Passage::Past(left)),
            },
            Event::Guard(_, inner) => self.pass(inner, n, message),
            Event::Nack(_, _, inner) => self.pass(inner, n, message),
            _ => match n.checked_sub(1) {
                None => Ok(Passage::Through(message)),
                Some(left) => Ok(Passage::Past(left)),
            },
        }
    }
}
