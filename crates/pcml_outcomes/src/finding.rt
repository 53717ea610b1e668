//! What was found of what was asked for.

ghost use Rattle.std.specs.Prelude.{◌≡◌, ◌&&◌, length};
ghost use Rattle.std.specs.List.{list_any, zip};
ghost use Rattle.pcml_outcomes.specs.Told.{finding, has_stuck, is_clear, is_cut, is_stuck, is_whole, shown};

use outcomes::{Asked, Extent, Outcome, Outcomes, Told};
use thread::End;

/// What was found of what was asked for.
#[derive(Clone, Copy, Debug, PartialEq, Eq)]
pub enum Finding {
    /// All was seen, and nothing of what was looked for is told; or each outcome was asked for.
    Clear,
    /// A process that has to end waits, has faulted or was never started in some outcome.
    Stuck,
    /// It does in none that was found, but is stranded in a run that goes on.
    Stranded,
    /// None of that is known: not all was seen, or some process is spent; or some process waits, where that was asked for.
    Open,
}

fn is_stuck(end: End) -> bool
    ensures { result ≡ is_stuck end }
{
    match end {
        End::Ended | End::Spent => false,
        End::Waiting | End::Faulted(_) | End::Unstarted => true,
    }
}

/// Whether some marked process stands where it will never end.
fn some_stuck(ends: &[End], marks: &[bool]) -> bool
    ensures { result ≡ list_any (λ p. p.1 && is_stuck p.0) (zip ends.now marks.now) }
{
    ends.iter()
        .zip(marks)
        .any(|(end, is_marked)| *is_marked && is_stuck(*end))
}

/// Whether some process that has to end stands so.
fn has_stuck(told: &Told, outcome: &Outcome) -> bool
    ensures { result ≡ has_stuck told.now outcome.now }
{
    match told {
        Told::Lacking(needed) => some_stuck(&outcome.ends, needed),
        Told::Each | Told::Waiting => false,
    }
}

fn any_stuck(told: &Told, outcomes: &[Outcome]) -> bool
    ensures { result ≡ list_any (has_stuck told.now) outcomes.now }
{
    for outcome in outcomes {
        if has_stuck(told, outcome) {
            return true;
        }
    }
    false
}

fn is_whole(extent: Extent) -> bool
    ensures { result ≡ is_whole extent }
{
    matches!(extent, Extent::Whole)
}

pub(crate) fn is_cut(extent: Extent) -> bool
    ensures { result ≡ is_cut extent }
{
    matches!(extent, Extent::Cut)
}

/// Whether all was seen, and nothing is told; and where what waits was asked for, no process is spent either.
fn is_clear(asked: &Asked, found: &Outcomes, count: usize) -> bool
    requires { count ≡ length (shown asked.now found.now.outcomes.items) }
    ensures { result ≡ is_clear asked.now found.now }
{
    let is_nothing = is_whole(found.extent) && count == 0;
    match &asked.told {
        Told::Each => true,
        Told::Waiting => is_nothing && !found.is_bounded,
        Told::Lacking(_) => is_nothing,
    }
}

/// What was found, where so many outcomes are told.
pub(crate) fn judge(asked: &Asked, found: &Outcomes, count: usize) -> Finding
    requires { count ≡ length (shown asked.now found.now.outcomes.items) }
    ensures { result ≡ finding asked.now found.now }
{
    if any_stuck(&asked.told, &found.outcomes) {
        return Finding::Stuck;
    }
    if is_clear(asked, found, count) {
        Finding::Clear
    } else {
        Finding::Open
    }
}
