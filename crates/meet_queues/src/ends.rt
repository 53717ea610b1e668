//! The ends of the ready queues, one for each worker.

ghost use Rattle.std.specs.Prelude.{◌≡◌, ◌↔◌, IsTrue, List, []};
ghost use Rattle.protocol_values.specs.declared.Row.{Row};
ghost use Rattle.meet_queues.specs.declared.entries.Entry.{Entry};
ghost use Rattle.meet_queues.specs.Hands.{Held};
ghost use Rattle.meet_queues.specs.declared.ready.Ready.{Ready};
ghost use Rattle.meet_queues.specs.Ends.{HasPutNothing, IsEndOf, all_got, end_count, own_hand};

use crate::entries::{Entry, QueueView};
use crate::ready_rule::{Holding, Stolen};
use crossbeam_deque::{InjectorPass, Pass, Stealer, Worker};
use protocol_values::Row;
use std::alloc::Global;

/// A deque of an end, from which the others steal.
pub(crate) type Deque = Worker<Entry<Row>, Global, QueueView<Row>, Stolen>;

/// A handle of a deque for the other ends.
pub(crate) type Thief = Stealer<Entry<Row>, Global, QueueView<Row>, Stolen>;

/// The deque of another end.
#[derive(Drop)]
pub(crate) struct Other {
    pub(crate) deque: Thief,
    pub(crate) hand: Pass<Entry<Row>, QueueView<Row>>,
}

/// One worker's end of the ready queues: it puts rows into its own deque, and gets them from there, from the
/// injector, and from the other ends' deques.
#[derive(Drop)]
pub struct ReadyEnd {
    pub(crate) number: u8,
    pub(crate) count: u64,
    pub(crate) own: Deque,
    pub(crate) inlet: InjectorPass<Entry<Row>, QueueView<Row>>,
    pub(crate) others: Vec<Other>,
}

impl ReadyEnd {
    /// How many rows the end has put.
    pub fn count(&self) -> u64
        ensures { result ≡ end_count self.now }
    {
        self.count
    }

    /// Whether the end's own deque is empty at the moment: then nothing waits there to be got.
    pub fn is_clear(&mut self) -> bool
        ensures here { (ready : Ready) → IsEndOf ready self.old → IsEndOf ready self.new }
        ensures nothing { HasPutNothing self.old self.new × (all_got self.new ≡ all_got self.old) }
        ensures clear { (entries : List (Entry Row)) × Held (own_hand self.old) entries × (IsTrue result ↔ (entries ≡ [])) }
    {
        self.own.len_as::<Holding>() == 0
    }
}
