//! Two passes on one thread.

use super::lanes::{pair, put, put_rows, row, take_rows};
use std::test::Fail;

#[test]
fn an_offer_comes_back(rt: HostRuntime) -> Result<(), Fail> {
    let (lane, mut first, mut second) = pair(rt.alloc())?;
    assert!(rt; lane.is_empty(&mut first) && lane.is_empty(&mut second));
    assert!(rt; lane.take_front(&rt, &mut first).is_none());
    assert!(rt; put(&rt, &lane, &mut first, row(99), 7));
    assert!(rt; !lane.is_empty(&mut first) && !lane.is_empty(&mut second));
    assert!(rt; lane.take_front(&rt, &mut second) == Some((row(99), 7)));
    assert!(rt; lane.is_empty(&mut first) && lane.is_empty(&mut second));
    assert!(rt; lane.take_front(&rt, &mut first).is_none());
    Ok(())
}

// More rows than a block of the queue holds, by turns.
#[test]
fn rows_come_in_the_order_in_which_they_were_put(rt: HostRuntime) -> Result<(), Fail> {
    let (lane, mut first, mut second) = pair(rt.alloc())?;
    assert!(rt; put_rows(&rt, &lane, &mut first, 0..100));
    assert!(rt; put_rows(&rt, &lane, &mut second, 100..150));
    assert!(rt; put_rows(&rt, &lane, &mut first, 150..200));
    let numbers = take_rows(&rt, rt.alloc(), &lane, &mut second)?;
    assert!(rt; numbers.iter().copied().eq(0..200));
    Ok(())
}

#[test]
fn a_pass_counts_what_it_put(rt: HostRuntime) -> Result<(), Fail> {
    let (lane, mut first, mut second) = pair(rt.alloc())?;
    assert_eq!(rt; first.count(), 0);
    assert!(rt; put_rows(&rt, &lane, &mut first, 0..3));
    assert!(rt; put_rows(&rt, &lane, &mut second, 3..5));
    assert_eq!(rt; first.count(), 3);
    assert!(rt; take_rows(&rt, rt.alloc(), &lane, &mut first)?.len() == 5);
    assert_eq!(rt; first.count(), 3);
    assert_eq!(rt; second.count(), 2);
    Ok(())
}
