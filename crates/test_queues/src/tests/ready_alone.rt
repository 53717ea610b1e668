//! One end by itself.

use super::queues::{alone, get_rows, put, put_rows, row};
use std::test::Fail;

#[test]
fn a_row_comes_back(rt: HostRuntime) -> Result<(), Fail> {
    let (ready, mut end) = alone(rt.alloc())?;
    assert!(rt; end.is_clear());
    assert!(rt; ready.get(&rt, &mut end).is_none());
    assert!(rt; put(&rt, &ready, &mut end, row(99)));
    assert!(rt; !end.is_clear());
    assert!(rt; ready.get(&rt, &mut end) == Some(row(99)));
    assert!(rt; end.is_clear());
    assert!(rt; ready.get(&rt, &mut end).is_none());
    Ok(())
}

// More rows than the slots with which a deque begins, and again once it is empty.
#[test]
fn rows_come_back_in_order(rt: HostRuntime) -> Result<(), Fail> {
    let (ready, mut end) = alone(rt.alloc())?;
    assert_eq!(rt; end.count(), 0);
    assert!(rt; put_rows(&rt, &ready, &mut end, 0..200));
    assert_eq!(rt; end.count(), 200);
    let first = get_rows(&rt, rt.alloc(), &ready, &mut end)?;
    assert!(rt; first.iter().copied().eq(0..200));
    assert!(rt; put_rows(&rt, &ready, &mut end, 200..300));
    assert_eq!(rt; end.count(), 300);
    let second = get_rows(&rt, rt.alloc(), &ready, &mut end)?;
    assert!(rt; second.iter().copied().eq(200..300));
    assert!(rt; end.is_clear());
    assert_eq!(rt; end.count(), 300);
    Ok(())
}
