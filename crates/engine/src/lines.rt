//! Who stands in the lines, and whether he still waits.

ghost use Rattle.std.specs.Prelude.{◌≡◌, ◌++◌, ◌∷◌, map, OnErr, OnOk};
ghost use Rattle.channels.specs.States.{line, with_line};
ghost use Rattle.engine.specs.Lines.{Adds, Pops, Sifts, lives};
ghost use Rattle.engine.specs.Places.{shown};
ghost use Rattle.engine.specs.Tables.{sync_of};

use crate::held::Offered;
use crate::places::Places;
use channels::{Channel, Side, StandFault, Waiting};

/// Whether the sync waits of which somebody stands in a line.
#[inline]
fn is_live(syncs: &Places<Offered>, waiting: Waiting) -> bool
    ensures { result ≡ lives (map (shown sync_of) syncs.now.slots.items) waiting }
{
    syncs.holds(waiting.who.place, waiting.ticket)
}

/// Takes the oldest of a side whose sync waits. Those before him are dropped.
#[inline]
pub(crate) fn take_live(
    channel: &mut Channel,
    side: Side,
    syncs: &Places<Offered>,
) -> Option<Waiting>
    ensures pops { Pops (map (shown sync_of) syncs.now.slots.items) (line side channel.old) (line side channel.new) result }
    ensures rest { channel.new ≡ with_line side channel.old (line side channel.new) }
{
    while let Some(waiting) = channel.oldest(side) {
        if is_live(syncs, waiting) {
            return Some(waiting);
        }
    }
    None
}

/// Sifts the line of a side that is at its limit.
#[inline]
fn make_room(channel: &mut Channel, side: Side, syncs: &Places<Offered>)
    ensures sifts { Sifts (map (shown sync_of) syncs.now.slots.items) (line side channel.old) (line side channel.new) }
    ensures rest { channel.new ≡ with_line side channel.old (line side channel.new) }
{
    if channel.is_full(side) {
        channel.sift(side, |waiting| is_live(syncs, *waiting));
    }
}

/// Lets somebody stand behind all of his side.
#[inline]
pub(crate) fn stand(
    channel: &mut Channel,
    side: Side,
    waiting: Waiting,
    syncs: &Places<Offered>,
) -> Result<(), StandFault>
    ensures ok { OnOk result (Adds (map (shown sync_of) syncs.now.slots.items) (line side channel.old) (line side channel.new) waiting) }
    ensures err { OnErr result (Sifts (map (shown sync_of) syncs.now.slots.items) (line side channel.old) (line side channel.new)) }
    ensures rest { channel.new ≡ with_line side channel.old (line side channel.new) }
{
    make_room(channel, side, syncs);
    channel.stand(side, waiting)
}
