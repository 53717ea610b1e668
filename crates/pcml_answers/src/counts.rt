//! Which commits are of a kind, and what one commit more does to the numbers of a kind.

ghost use Rattle.std.specs.Prelude.{◌≡◌, ◌<◌};
ghost use Rattle.pcml_answers.specs.Counts.{is_of};
ghost use Rattle.pcml_answers.specs.Tallies.{counted, greater, most};

use protocol_values::Commit;

/// A kind of commits.
#[derive(Clone, Copy)]
pub(crate) enum Kind {
    /// Those in which this process sends.
    Sends(u8),
    /// Those in which it receives.
    Receives(u8),
    /// Those that are its alone.
    Alone(u8),
    /// Those on this channel.
    Uses(u8),
    /// Those of this process.
    Of(u8),
    All,
}

fn is_of(kind: Kind, commit: &Commit) -> bool
    ensures { result ≡ is_of kind commit.now }
{
    match *commit {
        Commit::Pair {
            sender,
            receiver,
            chan,
            ..
        } => match kind {
            Kind::Sends(thread) => sender.0.thread == thread,
            Kind::Receives(thread) => receiver.0.thread == thread,
            Kind::Alone(_) => false,
            Kind::Uses(channel) => chan == channel,
            Kind::Of(thread) => sender.0.thread == thread || receiver.0.thread == thread,
            Kind::All => true,
        },
        Commit::Alone { at, .. } => match kind {
            Kind::Alone(thread) | Kind::Of(thread) => at.0.thread == thread,
            Kind::Sends(_) | Kind::Receives(_) | Kind::Uses(_) => false,
            Kind::All => true,
        },
    }
}

/// A number of commits of this kind with one commit more.
pub(crate) fn counted(kind: Kind, commit: &Commit, before: usize) -> usize
    requires { before < most }
    ensures { result ≡ counted kind commit.now before }
{
    if is_of(kind, commit) {
        before + 1
    } else {
        before
    }
}

/// The stamp of a commit of this kind, or another where that is greater.
pub(crate) fn greater(kind: Kind, commit: &Commit, before: u32) -> u32
    ensures { result ≡ greater kind commit.now before }
{
    if is_of(kind, commit) {
        commit.order().0.max(before)
    } else {
        before
    }
}
