//! How hands are made of one another.

use crate::entries::QueueView;
use atomic_table::Split;

/// A new hand gets the next number.
pub struct Dealt;

impl<T> Split<QueueView<T>> for Dealt {
    ghost use Rattle.meet_queues.specs.Hands.{after_deal, dealt};

    ghost left = { after_deal };

    ghost right = { dealt };
}

/// The dealer's own hand gets the next number.
pub struct Settled;

impl<T> Split<QueueView<T>> for Settled {
    ghost use Rattle.meet_queues.specs.Hands.{settled, taker};

    ghost left = { settled };

    ghost right = { λ v. taker };
}
