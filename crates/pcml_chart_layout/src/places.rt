//! Which column a process has, which gap lies beside a column, and how high a commit stands.

ghost use Rattle.std.specs.Prelude.{◌≡◌, ◌≤◌, ◌<◌, ◌+◌, ◌^◌, length};
ghost use Rattle.pcml_chart_layout.specs.Places.{beside, bottom, column, height, is_own, owners, page_height};

/// Whether the process has a column of its own.
pub(crate) fn is_own(own: &[bool], thread: usize) -> bool
    ensures { result ≡ is_own own.now thread }
{
    if thread < own.len() {
        own[thread]
    } else {
        false
    }
}

/// How many processes have.
pub(crate) fn owners(own: &[bool]) -> usize
    ensures value { result ≡ owners own.now }
    ensures few { result ≤ length own.now }
{
    let mut count = 0;
    for owns in own {
        if *owns {
            count += 1;
        }
    }
    count
}

/// The column of a process, from 1 on.
pub(crate) fn column(own: &[bool], thread: usize) -> usize
    ensures value { result ≡ column own.now thread }
    ensures within { result ≤ owners own.now + 1 }
{
    if is_own(own, thread) {
        owners(&own[..thread]) + 1
    } else {
        owners(own) + 1
    }
}

/// The gap beside a column, on the side of the other, or to the right of a lone one.
pub(crate) fn beside(column: usize, other: usize) -> usize
    ensures value { result ≡ beside column other }
    ensures within { result ≤ column }
{
    if other < column { column - 1 } else { column }
}

/// The height of a commit by its place among those that are shown.
pub fn height(place: usize) -> u64
    requires { place ≤ 1250 }
    ensures { result ≡ height place }
{
    26 * place as u64 + 78
}

/// The foot of the lines of life, below so many commits.
pub fn bottom(count: usize) -> u64
    requires { count ≤ 1250 }
    ensures { result ≡ bottom count }
{
    height(count)
}

/// The height of a page with so many lines below the foot of the lines of life.
pub(crate) fn page_height(low: u64, lines: usize) -> u64
    requires { low < 2 ^ 60 }
    ensures { result ≡ page_height low lines }
{
    low + 32 + 16 * lines.min(8) as u64
}
