//! Two passes put, and two others take, each in a thread of its own: each row comes to one of them, and of one
//! putter's rows each taker gets those that it takes in their order.

ghost use Rattle.std.specs.Prelude.{◌≡◌, ◌+◌, ◌<◌, All, length};
ghost use Rattle.meet_queues.specs.Lanes.{IsLanePassOf};

use super::lanes::{last, number, put_rows};
use meet_queues::{Lane, LanePass};
use std::alloc::{AllocError, Global};
use std::ops::Range;
use std::sync::Wait;
use std::sync::atomic::{AtomicBool, AtomicU64, Ordering};
use std::test::Fail;
use std::thread;
use std::thread::Threads;

/// How many rows each putter puts.
const ROWS: u16 = 1_000;

/// How many rows are put.
const ALL: u16 = 2 * ROWS;

/// How often the game is played.
const GAMES: u32 = 20;

/// How many rows were taken together, and whether nobody is to wait for more.
#[derive(Drop)]
struct Game {
    taken: AtomicU64,
    is_over: AtomicBool,
}

impl Game {
    fn new() -> Game {
        Game {
            taken: AtomicU64::new(0),
            is_over: AtomicBool::new(false),
        }
    }

    /// One more row was taken. With the last one the game is over.
    fn count(&self) {
        if self.taken.fetch_add(1, Ordering::SeqCst) == u64::from(ALL) - 1 {
            self.is_over.store(true, Ordering::SeqCst);
        }
    }
}

/// A pass that takes: the numbers that came to it, in their order, and whether memory for one was lacking.
#[derive(Drop)]
struct Taker {
    pass: LanePass,
    numbers: Vec<usize>,
    lacked_memory: bool,
}

impl Taker {
    fn keep(&mut self, number: usize)
        ensures { self.new.pass ≡ self.old.pass }
    {
        if self.numbers.push(number).is_err() {
            self.lacked_memory = true;
        }
    }

    /// Whether the numbers of this range came in order.
    fn has_in_order(&self, range: Range<usize>) -> bool {
        let mut next = 0;
        for number in self.numbers.iter().copied() {
            if range.contains(&number) {
                if number < next {
                    return false;
                }
                next = number.saturating_add(1);
            }
        }
        true
    }

    /// Adds to each number's count how often it came.
    fn mark(&self, times: &mut [u8]) {
        for number in self.numbers.iter().copied() {
            if let Some(count) = times.get_mut(number) {
                *count = count.saturating_add(1);
            }
        }
    }
}

/// The last of these passes, which is to take.
fn last_taker(alloc: Global, lane: &Lane, passes: &mut Vec<LanePass>) -> Taker
    requires some { 0 < length passes.old.items }
    requires passes { All (IsLanePassOf lane.now) passes.old.items }
    ensures count { length passes.old.items ≡ length passes.new.items + 1 }
    ensures passes { All (IsLanePassOf lane.now) passes.new.items }
    ensures here { IsLanePassOf lane.now result.pass }
{
    Taker {
        pass: last(lane, passes),
        numbers: Vec::new(alloc),
        lacked_memory: false,
    }
}

/// Puts these rows. Whether they were put; if not, the game is over.
fn put_all<R: Wait>(
    rt: &R,
    lane: &Lane,
    game: &Game,
    mut pass: LanePass,
    numbers: Range<u16>,
) -> bool
    requires { IsLanePassOf lane.now pass }
{
    let were_put = put_rows(rt, lane, &mut pass, numbers);
    if !were_put {
        game.is_over.store(true, Ordering::SeqCst);
    }
    were_put
}

/// Takes rows until the game is over.
fn take_all<R: Wait>(rt: &R, lane: &Lane, game: &Game, mut taker: Taker) -> Taker
    requires { IsLanePassOf lane.now taker.pass }
    ensures { IsLanePassOf lane.now result.pass }
{
    for _ in rt.forever() {
        if game.is_over.load(Ordering::SeqCst) {
            break;
        }
        match lane.take_front(rt, &mut taker.pass) {
            Some((row, _)) => {
                taker.keep(number(row));
                game.count();
            }
            None => thread::yield_now(),
        }
    }
    taker
}

/// One pass puts these rows and one takes, side by side.
fn put_and_take<R: Threads + Wait + Sync>(
    rt: &R,
    lane: &Lane,
    game: &Game,
    putter: LanePass,
    numbers: Range<u16>,
    taker: Taker,
) -> (bool, Taker)
    requires { IsLanePassOf lane.now putter × IsLanePassOf lane.now taker.pass }
    ensures { IsLanePassOf lane.now result.1.pass }
{
    thread::join(
        rt,
        || -> bool
            requires { IsLanePassOf lane.now putter }
        { put_all(rt, lane, game, putter, numbers) },
        || -> Taker
            requires { IsLanePassOf lane.now taker.pass }
            ensures { IsLanePassOf lane.entry.now result.pass }
        { take_all(rt, lane, game, taker) },
    )
}

/// All four, side by side.
fn play<R: Threads + Wait + Sync>(
    rt: &R,
    lane: &Lane,
    game: &Game,
    putters: (LanePass, LanePass),
    takers: (Taker, Taker),
) -> ((bool, Taker), (bool, Taker))
    requires putters { IsLanePassOf lane.now putters.0 × IsLanePassOf lane.now putters.1 }
    requires takers { IsLanePassOf lane.now takers.0.pass × IsLanePassOf lane.now takers.1.pass }
    ensures { IsLanePassOf lane.now result.0.1.pass × IsLanePassOf lane.now result.1.1.pass }
{
    let (first, second) = putters;
    let (third, fourth) = takers;
    thread::join(
        rt,
        || -> (bool, Taker)
            requires { IsLanePassOf lane.now first × IsLanePassOf lane.now third.pass }
            ensures { IsLanePassOf lane.entry.now result.1.pass }
        { put_and_take(rt, lane, game, first, 0..ROWS, third) },
        || -> (bool, Taker)
            requires { IsLanePassOf lane.now second × IsLanePassOf lane.now fourth.pass }
            ensures { IsLanePassOf lane.entry.now result.1.pass }
        { put_and_take(rt, lane, game, second, ROWS..ALL, fourth) },
    )
}

#[test]
fn each_row_is_taken_once_and_in_order(rt: HostRuntime) -> Result<(), Fail> {
    for _ in 0..GAMES {
        let (lane, mut passes) = Lane::new(rt.alloc(), 4)?;
        let takers = (
            last_taker(rt.alloc(), &lane, &mut passes),
            last_taker(rt.alloc(), &lane, &mut passes),
        );
        let putters = (last(&lane, &mut passes), last(&lane, &mut passes));
        let game = Game::new();
        let ((first_put, mut first), (second_put, second)) = play(
            &rt, &lane, &game, putters, takers,
        );
        assert!(rt; first_put && second_put);
        assert!(rt; !first.lacked_memory && !second.lacked_memory);
        let (rows, all) = (usize::from(ROWS), usize::from(ALL));
        for taker in [&first, &second] {
            assert!(rt; taker.has_in_order(0..rows) && taker.has_in_order(rows..all));
        }
        assert_eq!(rt;
            first.numbers.len().saturating_add(second.numbers.len()),
            all
        );
        let mut times = vec![in rt.alloc(); 0; all]?;
        first.mark(&mut times);
        second.mark(&mut times);
        for (number, count) in times.iter().enumerate() {
            assert_eq!(rt; *count, 1, "row {number}");
        }
        assert!(rt; lane.is_empty(&mut first.pass));
    }
    Ok(())
}
