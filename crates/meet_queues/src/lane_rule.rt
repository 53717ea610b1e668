//! The rule that a lane keeps between any two steps.

use crate::entries::{Entry, QueueView};
use crossbeam_queue::protocol::{Lesson, Outcome, Protocol};
use protocol_values::Row;

/// A row that waits, with the number of one of its offers.
pub type WaitingOffer = (Row, u8);

/// The rule of a lane.
pub struct LaneRule;

impl Protocol<Entry<WaitingOffer>, QueueView<WaitingOffer>> for LaneRule {
    ghost use Rattle.meet_queues.specs.Hands.{HandsOver, dealer};

    ghost holds = { HandsOver };

    ghost first = { dealer };
}

/// An entry was put.
pub(crate) struct Put;

impl Outcome<Entry<WaitingOffer>, QueueView<WaitingOffer>> for Put {
    ghost use Rattle.std.specs.Prelude.{◌≡◌};
    ghost use Rattle.meet_queues.specs.Hands.{puts};

    ghost then = { λ v e w. w ≡ puts v e };
}

/// An entry was taken.
pub(crate) struct Taken;

impl Outcome<Entry<WaitingOffer>, QueueView<WaitingOffer>> for Taken {
    ghost use Rattle.std.specs.Prelude.{◌≡◌, [], ◌∷◌};
    ghost use Rattle.meet_queues.specs.Hands.{gets};

    ghost then = { λ v e w. w ≡ gets v (e ∷ []) };
}

impl Lesson<Entry<WaitingOffer>, QueueView<WaitingOffer>> for Taken {
    ghost use Rattle.meet_queues.specs.Hands.{Held};

    ghost fact = { Held };
}
