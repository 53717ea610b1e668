//! A queue by itself.

use super::acts::check_same;
use super::table::{always, enter, receive, row, table};
use cell::Grant;
use meet::Queue;
use protocol_values::Row;
use std::test::Fail;

const FIRST: Row = Row { thread: 0, sync: 0 };

const SECOND: Row = Row { thread: 1, sync: 0 };

const THIRD: Row = Row { thread: 2, sync: 0 };

const FAR: Row = Row {
    thread: 63,
    sync: 1023,
};

const ENTRIES: [(Row, u8); 5] = [(THIRD, 0), (FIRST, 0), (FAR, 3), (SECOND, 0), (FIRST, 7)];

const LEFT: [(Row, u8); 3] = [(THIRD, 0), (FAR, 3), (SECOND, 0)];

#[test]
fn a_clean_up_drops_the_entries_of_committed_rows(rt: HostRuntime) -> Result<(), Fail> {
    let (cells, mut pass) = table(rt.alloc(), 3)?;
    enter(&cells, &mut pass, row(0), &[always()]);
    enter(&cells, &mut pass, row(1), &[receive(0, 0)]);
    let mut queue = Queue::new(rt.alloc());
    assert!(rt; queue.entries().is_empty());
    for (row, n) in &ENTRIES {
        queue.add(*row, *n)?;
    }
    queue.tidy(&cells, &mut pass);
    check_same(&rt, queue.entries().len(), 5, "the entries before");
    check_same(
        &rt,
        cells.grant(&mut pass, row(0), 0),
        Grant::Given,
        "the grant",
    );
    queue.tidy(&cells, &mut pass);
    check_same(&rt, queue.entries(), &LEFT, "the entries behind it");
    Ok(())
}
