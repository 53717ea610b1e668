//! The rule that each queue keeps between any two steps, and what its calls tell an end.

use crate::entries::{Entry, QueueView};
use crossbeam_deque::protocol::{Lesson, Outcome, Protocol};
use protocol_values::Row;

/// The rule of a deque and of the injector.
pub struct ReadyRule;

impl Protocol<Entry<Row>, QueueView<Row>> for ReadyRule {
    ghost use Rattle.meet_queues.specs.Hands.{HandsOver, dealer};

    ghost holds = { HandsOver };

    ghost first = { dealer };

    ghost guest = { dealer };
}

/// The rule of a deque and of the injector, where new hands have no number: they may take only.
pub struct Stolen;

impl Protocol<Entry<Row>, QueueView<Row>> for Stolen {
    ghost use Rattle.meet_queues.specs.Hands.{HandsOver, dealer, taker};

    ghost holds = { HandsOver };

    ghost first = { dealer };

    ghost guest = { taker };
}

/// One entry was put.
pub(crate) struct Put;

impl Outcome<Entry<Row>, QueueView<Row>> for Put {
    ghost use Rattle.meet_queues.specs.Hands.{PutsOne};

    ghost then = { PutsOne };
}

/// Entries were got.
pub(crate) struct Got;

impl Outcome<Entry<Row>, QueueView<Row>> for Got {
    ghost use Rattle.std.specs.Prelude.{◌≡◌};
    ghost use Rattle.meet_queues.specs.Hands.{gets, WasEmpty};

    ghost then = { λ v entries w. w ≡ gets v entries };

    ghost empty = { WasEmpty };
}

/// What the queue holds at a moment.
pub(crate) struct Holding;

impl Lesson<Entry<Row>, QueueView<Row>> for Holding {
    ghost use Rattle.meet_queues.specs.Hands.{Held};

    ghost fact = { Held };
}
