//! Why a row cannot take what a commit needs of it.

ghost use Rattle.std.specs.Prelude.{◌≡◌, ◌<◌, count_by};
ghost use Rattle.journal_replay.specs.Parts.{takes_part};
ghost use Rattle.journal_replay.specs.Replays.{thread_count};
ghost use Rattle.pcml_answers.specs.Telling.{TellsOffers, TellsRow, stopped_reason};

use crate::reason::Reason;
use journal_replay::{State, takes_part};
use protocol_values::{Base, Commit, Offer, Row};
use thread::End;

/// How many of the commits are of the thread: in a run, so many syncs it has made.
fn count_of(commits: &[Commit], thread: u8) -> usize
    ensures { result ≡ count_by (takes_part thread) commits.now }
{
    commits
        .iter()
        .filter(|commit| takes_part(thread, commit))
        .count()
}

/// Why a thread that stands so makes no sync, if it makes none.
fn stopped_reason(thread: u8, end: End) -> Option<Reason>
    ensures { result ≡ stopped_reason thread end }
{
    match end {
        End::Waiting => None,
        End::Unstarted => Some(Reason::Unstarted(thread)),
        End::Ended => Some(Reason::Ended(thread)),
        End::Faulted(_) => Some(Reason::Faulted(thread)),
        End::Spent => Some(Reason::Spent(thread)),
    }
}

/// Why a sync with these offers does not offer this under the number, if it does not.
fn offer_reason(offers: &[Offer], at: (Row, u8), needed: Base) -> Option<Reason>
    ensures { TellsOffers offers.now at needed result }
{
    let Some(offer) = offers.get(usize::from(at.1)) else {
        return Some(Reason::NoOffer {
            at,
            count: offers.len(),
        });
    };
    if offer.base == needed {
        return None;
    }
    Some(Reason::OtherOffer {
        at,
        offered: offer.base,
        needed,
    })
}

/// Why the row cannot take this where the earlier commits lead, if it cannot.
pub(crate) fn row_reason(
    state: &State,
    earlier: &[Commit],
    at: (Row, u8),
    needed: Base,
) -> Option<Reason>
    requires { at.0.thread < thread_count state.now }
    ensures { TellsRow state.now earlier.now at needed result }
{
    let (row, _) = at;
    let thread = usize::from(row.thread);
    if let Some(reason) = stopped_reason(row.thread, state.end(thread)) {
        return Some(reason);
    }
    let next = count_of(earlier, row.thread);
    if row.sync as usize != next {
        return Some(Reason::Sync { row, next });
    }
    let (offers, _) = state.open(thread);
    offer_reason(offers, at, needed)
}
