//! The commits that a chart shows.

ghost use Rattle.std.specs.Prelude.{◌≡◌, ◌↔◌, ◌<◌, ◌≤◌, IsTrue, IfOk, max};
ghost use Rattle.protocol_values.specs.Commits.{stamp_of};
ghost use Rattle.pcml_chart.specs.Range.{IsEnd, count_shown, greatest, shown};

use protocol_values::Commit;
use std::alloc::{AllocError, Global};

/// How many commits are shown at most.
const MOST: usize = 1250;

fn is_shown(commit: &Commit, from: u32, below: u64) -> bool
    ensures { IsTrue result ↔ ((from ≤ stamp_of commit.now) × (stamp_of commit.now < below)) }
{
    let stamp = commit.order().0;
    from <= stamp && u64::from(stamp) < below
}

fn count_shown(commits: &[Commit], from: u32, below: u64) -> usize
    ensures { result ≡ count_shown from below commits.now }
{
    let mut count = 0;
    for commit in commits {
        if is_shown(commit, from, below) {
            count += 1;
        }
    }
    count
}

/// The end of the range: one past `to`, or the last stamp that shows few enough commits.
pub(crate) fn range_end(commits: &[Commit], from: u32, to: u32) -> u64
    ensures { IsEnd from to commits.now result }
{
    let end = u64::from(to) + 1;
    if count_shown(commits, from, end) <= MOST {
        return end;
    }
    let mut few = u64::from(from);
    let mut many = end;
    while few + 1 < many {
        let middle = few + (many - few) / 2;
        if count_shown(commits, from, middle) <= MOST {
            few = middle;
        } else {
            many = middle;
        }
    }
    few
}

/// The commits that are shown, in their order.
pub(crate) fn shown(
    alloc: Global,
    commits: &[Commit],
    from: u32,
    below: u64,
) -> Result<Vec<Commit>, AllocError>
    ensures { IfOk result (λ found. found.items ≡ shown from below commits.now) }
{
    let mut found = Vec::new(alloc);
    for commit in commits {
        if is_shown(commit, from, below) {
            found.push(*commit)?;
        }
    }
    Ok(found)
}

/// The stamp of the commit, or another where that is greater.
fn greater(commit: &Commit, other: u32) -> u32
    ensures { result ≡ max (stamp_of commit.now) other }
{
    commit.order().0.max(other)
}

pub(crate) fn greatest(commits: &[Commit]) -> u32
    ensures { result ≡ greatest commits.now }
{
    let mut greatest = 0;
    for commit in commits {
        greatest = greater(commit, greatest);
    }
    greatest
}
