//! What the rules of the queues come to.

ghost use Rattle.meet_queues.specs.Laws.{HandedOverOnce};

use crate::entries::{Entry, QueueView};
use crate::lane_rule::{LaneRule, WaitingOffer};
use crate::ready_rule::{ReadyRule, Stolen};
use crossbeam_deque::protocol::Protocol as DequeProtocol;
use crossbeam_queue::protocol::Protocol as QueueProtocol;
use protocol_values::Row;

/// Between any two steps of any hands of a queue: of a lane, of an end's deque, and of the injector.
pub fn each_entry_is_handed_over_once()
    ensures lane { HandedOverOnce ⟦<LaneRule as QueueProtocol<Entry<WaitingOffer>, QueueView<WaitingOffer>>>⟧.holds }
    ensures deque { HandedOverOnce ⟦<Stolen as DequeProtocol<Entry<Row>, QueueView<Row>>>⟧.holds }
    ensures injector { HandedOverOnce ⟦<ReadyRule as DequeProtocol<Entry<Row>, QueueView<Row>>>⟧.holds }
{}
