//! The reason for which commits are no run.

ghost use Rattle.std.specs.Prelude.{◌≡◌, ◌<◌, ℕ, List, Some, slice_get, take};
ghost use Rattle.protocol_values.specs.declared.Commit.{Commit as Made};
ghost use Rattle.script_tree.specs.Processes.{Proc};
ghost use Rattle.journal_replay.specs.Replays.{StandsAfter, thread_count};
ghost use Rattle.journal_replay.specs.Runs.{BreaksOffAt};
ghost use Rattle.journal_replay.specs.Starting.{HasThread};
ghost use Rattle.pcml_answers.specs.Reasons.{IsReasonAt};
ghost use Rattle.pcml_answers.specs.Telling.{TellsLegal, TellsNack, TellsEnd};

use crate::reason::Reason;
use crate::unlawful_row::row_reason;
use journal_replay::State;
use protocol_values::{Base, Cause, Commit, NackName};

/// Why no commit may stand for the nack, if none may.
fn nack_reason(state: &State, nack: NackName) -> Option<Reason>
    ensures { TellsNack state.now nack result }
{
    if state.fired(nack).is_none() {
        Some(Reason::NotFired(nack))
    } else {
        None
    }
}

/// Why no commit may stand for the end of the thread, if none may.
fn end_reason(state: &State, thread: u8) -> Option<Reason>
    ensures { TellsEnd state.now thread result }
{
    if state.ended(thread).is_none() {
        Some(Reason::NotEnded(thread))
    } else {
        None
    }
}

/// Why the commit may not come next with any stamp, if it may not: of its rows in their order, and then of its cause.
fn legal_reason(state: &State, earlier: &[Commit], commit: &Commit) -> Option<Reason>
    requires { (t : ℕ) → HasThread commit.now t → t < thread_count state.now }
    ensures { TellsLegal state.now earlier.now commit.now result }
{
    match *commit {
        Commit::Pair {
            sender,
            receiver,
            chan,
            msg,
            ..
        } => {
            if sender.0.thread == receiver.0.thread {
                return Some(Reason::OneThread(sender.0.thread));
            }
            if let Some(reason) = row_reason(state, earlier, sender, Base::Send(chan, msg)) {
                return Some(reason);
            }
            row_reason(state, earlier, receiver, Base::Recv(chan))
        }
        Commit::Alone { at, cause, .. } => match cause {
            Cause::Always(message) => row_reason(state, earlier, at, Base::Always(message)),
            Cause::Nack(nack) => match row_reason(state, earlier, at, Base::OnNack(nack)) {
                Some(reason) => Some(reason),
                None => nack_reason(state, nack),
            },
            Cause::End(thread) => match row_reason(state, earlier, at, Base::OnEnd(thread)) {
                Some(reason) => Some(reason),
                None => end_reason(state, thread),
            },
        },
    }
}

/// Why the commit with this number may not come next: the state stands where those before it lead, which are a run, and
/// with it they are none.
pub fn find_reason(state: &State, commits: &[Commit], index: usize) -> Reason
    requires threads { (c : Made) (t : ℕ) → slice_get commits.now index ≡ Some c → HasThread c t → t < thread_count state.now }
    requires breaks { (ps : List Proc) × (rows : ℕ) × StandsAfter ps rows (take index commits.now) state.now × BreaksOffAt ps rows commits.now index }
    ensures { (ps : List Proc) (rows : ℕ) → StandsAfter ps rows (take index commits.now) state.now → BreaksOffAt ps rows commits.now index → IsReasonAt ps rows commits.now index result }
{
    let earlier = &commits[..index];
    let commit = &commits[index];
    if let Some(reason) = legal_reason(state, earlier, commit) {
        return reason;
    }
    let Some(next) = state.stamped(commit) else {
        unreachable!()
    };
    Reason::Stamp(next.stamp())
}
