//! Who takes part in a commit.

ghost use Rattle.std.specs.Prelude.{◌≡◌, ◌↔◌, IsTrue};
ghost use Rattle.journal_replay.specs.Starting.{HasThread};
ghost use Rattle.journal_replay.specs.Parts.{takes_part};

use protocol_values::Commit;

/// Whether the thread takes part in the commit: a row of it is the thread's.
pub fn takes_part(thread: u8, commit: &Commit) -> bool
    ensures value { result ≡ takes_part thread commit.now }
    ensures has { IsTrue result ↔ HasThread commit.now thread }
{
    match commit {
        Commit::Pair {
            sender,
            receiver,
            ..
        } => thread == sender.0.thread || thread == receiver.0.thread,
        Commit::Alone { at, .. } => thread == at.0.thread,
    }
}
