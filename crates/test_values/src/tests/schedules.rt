use super::checks::check_same;
use protocol::{Size, read_schedule, schedule_text_laws};
use protocol_values::{Row, Seat, Step};
use std::process::Abort;
use std::test::Fail;

const TEXT: &[u8] = b"world 64 1024 16
0 draft 0.0 0 0
15 draft 63.1023 33 18446744073709551615
1 open 1.0
2 look 2.10
3 read 3.7 9
4 claim 40.100
5 yield 5.0
6 join 6.1 7 60.1000 0
7 seal 7.2
8 grant 8.9 7
9 take 9.1022
10 bind 63 10.11 3
11 start 63.1024 0
12 start 0.0 63
13 finish 11.1024
";

const SIZE: Size = Size {
    threads: 64,
    rows: 1024,
    seats: 16,
    started: None,
};

/// Worlds without a step.
const WORLDS: [(&str, Size); 4] = [
    (
        "world 2 1 1\n",
        Size {
            threads: 2,
            rows: 1,
            seats: 1,
            started: None,
        },
    ),
    (
        "world 2 1 1 1\n",
        Size {
            threads: 2,
            rows: 1,
            seats: 1,
            started: Some(1),
        },
    ),
    (
        "world 2 1 1 2\n",
        Size {
            threads: 2,
            rows: 1,
            seats: 1,
            started: Some(2),
        },
    ),
    (
        "world 64 1024 16 64\n",
        Size {
            threads: 64,
            rows: 1024,
            seats: 16,
            started: Some(64),
        },
    ),
];

const STEPS: [(Seat, Step); 15] = [
    (
        Seat(0),
        Step::Draft {
            row: Row { thread: 0, sync: 0 },
            place: 0,
            value: 0,
        },
    ),
    (
        Seat(15),
        Step::Draft {
            row: Row {
                thread: 63,
                sync: 1023,
            },
            place: 33,
            value: u64::MAX,
        },
    ),
    (
        Seat(1),
        Step::Open {
            row: Row { thread: 1, sync: 0 },
        },
    ),
    (
        Seat(2),
        Step::Look {
            row: Row {
                thread: 2,
                sync: 10,
            },
        },
    ),
    (
        Seat(3),
        Step::Read {
            row: Row { thread: 3, sync: 7 },
            place: 9,
        },
    ),
    (
        Seat(4),
        Step::Claim {
            row: Row {
                thread: 40,
                sync: 100,
            },
        },
    ),
    (
        Seat(5),
        Step::Yield {
            row: Row { thread: 5, sync: 0 },
        },
    ),
    (
        Seat(6),
        Step::Join {
            mine: Row { thread: 6, sync: 1 },
            own: 7,
            other: Row {
                thread: 60,
                sync: 1000,
            },
            partner: 0,
        },
    ),
    (
        Seat(7),
        Step::Seal {
            row: Row { thread: 7, sync: 2 },
        },
    ),
    (
        Seat(8),
        Step::Grant {
            row: Row { thread: 8, sync: 9 },
            offer: 7,
        },
    ),
    (
        Seat(9),
        Step::Take {
            row: Row {
                thread: 9,
                sync: 1022,
            },
        },
    ),
    (
        Seat(10),
        Step::Bind {
            k: 63,
            row: Row {
                thread: 10,
                sync: 11,
            },
            scope: 3,
        },
    ),
    (
        Seat(11),
        Step::Start {
            row: Row {
                thread: 63,
                sync: 1024,
            },
            thread: 0,
        },
    ),
    (
        Seat(12),
        Step::Start {
            row: Row { thread: 0, sync: 0 },
            thread: 63,
        },
    ),
    (
        Seat(13),
        Step::Finish {
            row: Row {
                thread: 11,
                sync: 1024,
            },
        },
    ),
];

#[test]
fn reads_every_kind_of_step(rt: HostRuntime) -> Result<(), Fail> {
    let schedule = read_schedule(rt.alloc(), TEXT)?;
    check_same(&rt, schedule.size, SIZE, "the size");
    check_same(&rt, schedule.steps.as_slice(), &STEPS, "the steps");
    Ok(())
}

#[test]
fn reads_how_many_threads_are_started(rt: HostRuntime) -> Result<(), Fail> {
    for (text, size) in WORLDS.iter() {
        let schedule = read_schedule(rt.alloc(), text.as_bytes())?;
        check_same(&rt, schedule.size, *size, text);
        check_same(&rt, schedule.steps.len(), 0, text);
    }
    Ok(())
}

#[test]
fn laws_hold() {
    schedule_text_laws();
}
