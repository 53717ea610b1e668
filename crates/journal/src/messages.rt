//! The messages of one thread on a channel.

ghost use Rattle.std.specs.Prelude.{◌≡◌, IfOk};
ghost use Rattle.journal_order.specs.Messages.{named};

use protocol_values::{Commit, Message};
use std::alloc::{AllocError, Global};

/// The messages of the pairs on the channel that have this sender, in the order of the commits.
pub fn received_from(
    alloc: Global,
    commits: &[Commit],
    channel: u8,
    thread: u8,
) -> Result<Vec<Message>, AllocError>
    ensures { IfOk result (λ messages. messages.items ≡ named thread channel commits.now) }
{
    let mut messages = Vec::new(alloc);
    for commit in commits {
        if let Commit::Pair {
            sender,
            chan,
            msg,
            ..
        } = commit
        {
            if sender.0.thread == thread && *chan == channel {
                messages.push(*msg)?;
            }
        }
    }
    Ok(messages)
}
