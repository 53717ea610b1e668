//! What the threads of a run offer, kept from one commit to the next.

ghost use Rattle.std.specs.Prelude.{◌≡◌, ◌≤◌, false, IfOk, OnOk, List, MatchOption, length};
ghost use Rattle.protocol_values.specs.declared.Commit.{Commit};
ghost use Rattle.thread_strand.specs.declared.strand.Strand.{Strand};
ghost use Rattle.journal_replay.specs.Searching.{Adds, Covers, FindsOther, HasChannels, HasRoom, Lists, NoneMay, NoneMayWith, Opens};
ghost use Rattle.journal_replay.specs.Standing.{MayBe, Takes};

use crate::threads::Threads;
use crate::waiters::Waiters;
use protocol_values::{Base, Cause, Commit, Message, Row, Side};
use std::alloc::{AllocError, Global};

/// How many numbers a channel can have.
const CHANNELS: usize = 256;

/// The offers of the threads' next syncs, among others that are closed by now: by channel those that
/// send and those that receive, and those whose cause another commit brings about, on nacks and on ends. Of an
/// offer that is not among the untried ones no commit comes, but with one of these or by such a cause.
#[derive(Drop)]
pub(crate) struct OpenOffers {
    senders: Vec<Waiters>,
    receivers: Vec<Waiters>,
    brought: Waiters,
    untried: Waiters,
}

/// One empty list for each channel.
fn channels(alloc: Global) -> Result<Vec<Waiters>, AllocError>
    ensures { IfOk result (λ lists. length lists.items ≡ 256) }
{
    let mut lists = Vec::new(alloc);
    for _ in 0..CHANNELS {
        lists.push(Waiters::new(alloc))?;
    }
    Ok(lists)
}

impl OpenOffers {
    /// All that the threads offer.
    pub(crate) fn of(alloc: Global, threads: &Threads) -> Result<OpenOffers, AllocError>
        requires { length threads.now.strands.items ≤ 64 }
        ensures { IfOk result (Covers threads.now.strands.items threads.now.rows) }
    {
        let mut open_offers = OpenOffers {
            senders: channels(alloc)?,
            receivers: channels(alloc)?,
            brought: Waiters::new(alloc),
            untried: Waiters::new(alloc),
        };
        open_offers.open_all(threads)?;
        Ok(open_offers)
    }

    /// Adds what the threads offer at their next syncs.
    fn open_all(&mut self, threads: &Threads) -> Result<(), AllocError>
        requires channels { HasChannels self.old }
        requires few { length threads.now.strands.items ≤ 64 }
        ensures { OnOk result (Covers threads.now.strands.items threads.now.rows self.new) }
    {
        for thread in 0..threads.strands.len() {
            self.open(threads, thread as u8)?;
        }
        Ok(())
    }

    /// Puts an offer into the list where its base event belongs.
    fn list(&mut self, at: (Row, u8), base: Base) -> Result<(), AllocError>
        requires { HasChannels self.old }
        ensures { OnOk result (Lists at base self.old self.new) }
    {
        match base {
            Base::Send(chan, _) => {
                self.senders[usize::from(chan)].add(at)?;
                Ok(())
            }
            Base::Recv(chan) => {
                self.receivers[usize::from(chan)].add(at)?;
                Ok(())
            }
            Base::OnNack(_) | Base::OnEnd(_) => {
                self.brought.add(at)?;
                Ok(())
            }
            Base::Always(_) | Base::Never => Ok(()),
        }
    }

    /// Adds an offer, of which nothing was tried.
    fn add(&mut self, at: (Row, u8), base: Base) -> Result<(), AllocError>
        requires { HasChannels self.old }
        ensures { OnOk result (Adds at base self.old self.new) }
    {
        self.list(at, base)?;
        self.untried.add(at)?;
        Ok(())
    }

    /// Adds what the thread offers at its next sync.
    fn open(&mut self, threads: &Threads, thread: u8) -> Result<(), AllocError>
        requires { HasChannels self.old }
        ensures { OnOk result (Opens threads.now.strands.items threads.now.rows thread self.old self.new) }
    {
        let Some(strand) = threads.strands.get(usize::from(thread)) else {
            return Ok(());
        };
        let Some(sync) = strand.next_sync(threads.rows) else {
            return Ok(());
        };
        let row = Row { thread, sync };
        for (number, offer) in strand.offers().iter().enumerate() {
            self.add((row, number as u8), offer.base)?;
        }
        Ok(())
    }

    /// Adds what the threads of a commit that was made offer now, and all where a thread started.
    pub(crate) fn follow(
        &mut self,
        threads: &Threads,
        commit: &Commit,
        woke: bool,
    ) -> Result<(), AllocError>
        requires channels { HasChannels self.old }
        requires few { length threads.now.strands.items ≤ 64 }
        ensures { OnOk result ((old : List Strand) → (woke ≡ false → Takes commit.now old threads.now.strands.items) → Covers old threads.now.rows self.old → Covers threads.now.strands.items threads.now.rows self.new) }
    {
        if woke {
            return self.open_all(threads);
        }
        match *commit {
            Commit::Pair {
                sender,
                receiver,
                ..
            } => {
                self.open(threads, sender.0.thread)?;
                self.open(threads, receiver.0.thread)?;
                Ok(())
            }
            Commit::Alone { at, .. } => {
                self.open(threads, at.0.thread)?;
                Ok(())
            }
        }
    }

    /// What another thread than this one offers on this side of the channel, with what it sends.
    fn partner(
        &mut self,
        threads: &Threads,
        side: Side,
        chan: u8,
        thread: u8,
    ) -> Option<((Row, u8), Message)>
        requires { Covers threads.now.strands.items threads.now.rows self.old }
        ensures covers { Covers threads.now.strands.items threads.now.rows self.new }
        ensures untried { self.new.untried ≡ self.old.untried }
        ensures found { FindsOther threads.now.strands.items threads.now.rows side chan thread result }
    {
        let channel = usize::from(chan);
        match side {
            Side::Sends => self.senders[channel].partner(threads, side, chan, thread),
            Side::Receives => self.receivers[channel].partner(threads, side, chan, thread),
        }
    }

    /// A commit that takes this offer, by no nack and no end.
    fn commit_with(&mut self, threads: &Threads, at: (Row, u8)) -> Option<Commit>
        requires room { HasRoom threads.now.strands.items }
        requires covers { Covers threads.now.strands.items threads.now.rows self.old }
        ensures covers { Covers threads.now.strands.items threads.now.rows self.new }
        ensures untried { self.new.untried ≡ self.old.untried }
        ensures found { MatchOption result (NoneMayWith threads.now.strands.items threads.now.rows at) (MayBe threads.now.strands.items threads.now.rows) }
    {
        match threads.offer(at)?.base {
            Base::Send(chan, msg) => {
                let (receiver, _) = self.partner(threads, Side::Receives, chan, at.0.thread)?;
                Some(threads.pair(at, receiver, chan, msg))
            }
            Base::Recv(chan) => {
                let (sender, msg) = self.partner(threads, Side::Sends, chan, at.0.thread)?;
                Some(threads.pair(sender, at, chan, msg))
            }
            Base::Always(message) => threads.alone(at, Cause::Always(message)),
            Base::OnNack(_) | Base::OnEnd(_) | Base::Never => None,
        }
    }

    /// Some commit that may come next, with its stamp.
    pub(crate) fn find(&mut self, threads: &Threads) -> Option<Commit>
        requires room { HasRoom threads.now.strands.items }
        requires covers { Covers threads.now.strands.items threads.now.rows self.old }
        ensures covers { Covers threads.now.strands.items threads.now.rows self.new }
        ensures found { MatchOption result (NoneMay threads.now.strands.items threads.now.rows) (MayBe threads.now.strands.items threads.now.rows) }
    {
        while let Some(at) = self.untried.last() {
            if let Some(commit) = self.commit_with(threads, at) {
                return Some(commit);
            }
            self.untried.remove_last();
        }
        self.brought.by_cause(threads)
    }
}
