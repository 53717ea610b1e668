//! Ends that get from the deques of others, on one thread.

ghost use Rattle.std.specs.Prelude.{◌≡◌, All, IfOk, length};
ghost use Rattle.meet_queues.specs.Ends.{IsEndOf};

use super::queues::{get_rows, last, put, put_rows, row};
use meet_queues::{Ready, ReadyEnd};
use std::alloc::{AllocError, Global};
use std::sync::Wait;
use std::test::Fail;

/// Queues with two ends.
fn pair(alloc: Global) -> Result<(Ready, ReadyEnd, ReadyEnd), AllocError>
    ensures { IfOk result (λ r. IsEndOf r.0 r.1 × IsEndOf r.0 r.2) }
{
    let (ready, mut ends) = Ready::new(alloc, 2)?;
    let second = last(&ready, &mut ends);
    let first = last(&ready, &mut ends);
    Ok((ready, first, second))
}

/// Puts a row at each end, that of its number. Whether all were put.
fn put_at_each<R: Wait>(rt: &R, ready: &Ready, ends: &mut [ReadyEnd]) -> bool
    requires { All (IsEndOf ready.now) ends.old }
    ensures ends { All (IsEndOf ready.now) ends.new }
    ensures count { length ends.new ≡ length ends.old }
{
    let mut number = 0u16;
    for at in 0..ends.len() {
        if !put(rt, ready, &mut ends[at], row(number)) {
            return false;
        }
        number = number.saturating_add(1);
    }
    true
}

/// What the first of these ends gets until there is nothing left.
fn get_at_first<R: Wait>(
    rt: &R,
    alloc: Global,
    ready: &Ready,
    ends: &mut [ReadyEnd],
) -> Result<Vec<usize>, AllocError>
    requires { All (IsEndOf ready.now) ends.old }
{
    let Some(end) = ends.first_mut() else {
        return Ok(Vec::new(alloc));
    };
    get_rows(rt, alloc, ready, end)
}

#[test]
fn an_end_gets_its_own_rows_first(rt: HostRuntime) -> Result<(), Fail> {
    let (ready, mut first, mut second) = pair(rt.alloc())?;
    assert!(rt; put_rows(&rt, &ready, &mut second, 20..30));
    assert!(rt; put_rows(&rt, &ready, &mut first, 10..15));
    assert_eq!(rt; first.count(), 5);
    assert_eq!(rt; second.count(), 10);
    assert!(rt; ready.get(&rt, &mut second) == Some(row(20)));
    let got = get_rows(&rt, rt.alloc(), &ready, &mut first)?;
    let expected = [10, 11, 12, 13, 14, 21, 22, 23, 24, 25, 26, 27, 28, 29];
    assert_eq!(rt; got.as_slice(), expected.as_slice());
    assert!(rt; first.is_clear());
    assert!(rt; second.is_clear());
    assert!(rt; ready.get(&rt, &mut second).is_none());
    Ok(())
}

#[test]
fn the_first_end_gets_what_each_put(rt: HostRuntime) -> Result<(), Fail> {
    for workers in [1, 16] {
        let (ready, mut ends) = Ready::new(rt.alloc(), workers)?;
        assert_eq!(rt; ends.len(), usize::from(workers));
        assert!(rt; put_at_each(&rt, &ready, &mut ends));
        let got = get_at_first(&rt, rt.alloc(), &ready, &mut ends)?;
        assert!(rt;
            got.iter().copied().eq(0..usize::from(workers)),
            "{workers} ends"
        );
    }
    Ok(())
}
