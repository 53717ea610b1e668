//! What a search for a commit that may come next asks of the threads.

ghost use Rattle.std.specs.Prelude.{◌≡◌, MatchOption};
ghost use Rattle.protocol_values.specs.declared.Cause.{Cause};
ghost use Rattle.protocol_values.specs.declared.Message.{Message};
ghost use Rattle.journal_replay.specs.Searching.{HasRoom, IsAlone, IsBrought, NoCause, base_on, pair_of};
ghost use Rattle.journal_replay.specs.Standing.{Finds, base_for};

use crate::threads::Threads;
use crate::waiters::message_on;
use protocol_values::{Base, Cause, Commit, Message, Row, Side};

impl Threads {
    /// What the offer sends, where it is open and on this side of the channel.
    pub(crate) fn message_at(&self, at: (Row, u8), side: Side, chan: u8) -> Option<Message>
        ensures { MatchOption result ((m : Message) → Finds self.now.strands.items self.now.rows at (base_on side chan m) → ⊥) (λ m. Finds self.now.strands.items self.now.rows at (base_on side chan m)) }
    {
        message_on(self.offer(at)?.base, side, chan)
    }

    /// The cause that the offer waits for, where it is open and one on a nack or an end.
    pub(crate) fn cause_at(&self, at: (Row, u8)) -> Option<Cause>
        ensures { MatchOption result ((why : Cause) → IsBrought why → Finds self.now.strands.items self.now.rows at (base_for why) → ⊥) (λ why. IsBrought why × Finds self.now.strands.items self.now.rows at (base_for why)) }
    {
        match self.offer(at)?.base {
            Base::OnNack(nack) => Some(Cause::Nack(nack)),
            Base::OnEnd(thread) => Some(Cause::End(thread)),
            Base::Send(_, _) | Base::Recv(_) | Base::Always(_) | Base::Never => None,
        }
    }

    /// A commit alone by this offer, where its cause is there.
    pub(crate) fn alone(&self, at: (Row, u8), cause: Cause) -> Option<Commit>
        requires { HasRoom self.now.strands.items }
        ensures { MatchOption result (NoCause self.now.strands.items at cause) (IsAlone self.now.strands.items at cause) }
    {
        let below = self.below(at, cause)?;
        Some(Commit::Alone {
            at,
            cause,
            stamp: below + 1,
        })
    }

    /// The rendezvous of these two offers.
    pub(crate) fn pair(
        &self,
        sender: (Row, u8),
        receiver: (Row, u8),
        chan: u8,
        msg: Message,
    ) -> Commit
        requires { HasRoom self.now.strands.items }
        ensures { result ≡ pair_of self.now.strands.items sender receiver chan msg }
    {
        let below = self.last(sender.0.thread).max(self.last(receiver.0.thread));
        Commit::Pair {
            sender,
            receiver,
            chan,
            msg,
            stamp: below + 1,
        }
    }
}
