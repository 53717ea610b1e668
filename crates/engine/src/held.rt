//! What stands at the places of a table.

ghost use Rattle.std.specs.Prelude.{◌≡◌, [], OnOk, false};

use crate::offers::Offer;
use channels::Channel;
use std::alloc::{AllocError, Global};

/// The offers of a sync.
#[derive(Drop)]
pub(crate) struct Offered {
    pub(crate) offers: Vec<Offer>,
}

/// A latch, and who waits for it.
#[derive(Drop)]
pub(crate) struct Latch {
    pub(crate) fired: bool,
    /// Who waits stands to receive. Nobody stands to send.
    pub(crate) line: Channel,
}

impl Offered {
    /// No offers.
    #[inline]
    pub(crate) fn new(alloc: Global) -> Offered {
        Offered {
            offers: Vec::new(alloc),
        }
    }

    /// Holds these offers in place of those before.
    #[inline]
    pub(crate) fn fill(&mut self, offers: &[Offer]) -> Result<(), AllocError>
        ensures { OnOk result (self.new.offers.items ≡ offers.now) }
    {
        self.offers.clear();
        self.offers.extend_from_slice(offers)?;
        Ok(())
    }
}

impl Latch {
    /// A latch that is not fired, and for which nobody waits.
    pub(crate) fn new(alloc: Global) -> Latch
        ensures fired { result.fired ≡ false }
        ensures line { result.line.receives ≡ [] }
    {
        Latch {
            fired: false,
            line: Channel::new(alloc),
        }
    }
}
