//! One end puts, and three others, each in a thread of its own, get: each row comes to one of them.

ghost use Rattle.std.specs.Prelude.{◌≡◌, ◌+◌, ◌<◌, ◌≤◌, All, IfOk, length};
ghost use Rattle.meet_queues.specs.Ends.{IsEndOf};

use super::queues::{last, number, put_rows};
use meet_queues::{Ready, ReadyEnd};
use std::alloc::{AllocError, Global};
use std::sync::Wait;
use std::sync::atomic::{AtomicBool, AtomicU64, Ordering};
use std::test::Fail;
use std::thread;
use std::thread::Threads;

/// How many rows are put.
const ROWS: u16 = 1_000;

/// How often the game is played.
const GAMES: u32 = 20;

/// How many rows were got together, and whether nobody is to wait for more.
#[derive(Drop)]
struct Game {
    got: AtomicU64,
    is_over: AtomicBool,
}

impl Game {
    fn new() -> Game {
        Game {
            got: AtomicU64::new(0),
            is_over: AtomicBool::new(false),
        }
    }

    /// One more row was got. With the last one the game is over.
    fn count(&self) {
        if self.got.fetch_add(1, Ordering::SeqCst) == u64::from(ROWS) - 1 {
            self.is_over.store(true, Ordering::SeqCst);
        }
    }
}

/// An end that gets: how often each number came to it, and whether another came than those that were put.
#[derive(Drop)]
struct Getter {
    end: ReadyEnd,
    marks: Vec<u8>,
    got_another: bool,
}

impl Getter {
    fn mark(&mut self, number: usize)
        ensures { self.new.end ≡ self.old.end }
    {
        match self.marks.get_mut(number) {
            Some(times) => *times = times.saturating_add(1),
            None => self.got_another = true,
        }
    }

    /// How often this number came.
    fn times(&self, number: usize) -> u32
        ensures { result ≤ 255 }
    {
        self.marks.get(number).map_or(0, |times| u32::from(*times))
    }
}

/// The last of these ends, which is to get.
fn last_getter(alloc: Global, ready: &Ready, ends: &mut Vec<ReadyEnd>) -> Result<Getter, AllocError>
    requires some { 0 < length ends.old.items }
    requires ends { All (IsEndOf ready.now) ends.old.items }
    ensures count { IfOk result (λ g. length ends.old.items ≡ length ends.new.items + 1) }
    ensures ends { IfOk result (λ g. All (IsEndOf ready.now) ends.new.items) }
    ensures here { IfOk result (λ g. IsEndOf ready.now g.end) }
{
    let marks = vec![in alloc; 0; usize::from(ROWS)]?;
    Ok(Getter {
        end: last(ready, ends),
        marks,
        got_another: false,
    })
}

/// Puts all the rows. Whether they were put; if not, the game is over.
fn put_all<R: Wait>(rt: &R, ready: &Ready, game: &Game, mut end: ReadyEnd) -> (bool, ReadyEnd)
    requires { IsEndOf ready.now end }
    ensures { IsEndOf ready.now result.1 }
{
    let were_put = put_rows(rt, ready, &mut end, 0..ROWS);
    if !were_put {
        game.is_over.store(true, Ordering::SeqCst);
    }
    (were_put, end)
}

/// Gets rows until the game is over.
fn get_all<R: Wait>(rt: &R, ready: &Ready, game: &Game, mut getter: Getter) -> Getter
    requires { IsEndOf ready.now getter.end }
    ensures { IsEndOf ready.now result.end }
{
    for _ in rt.forever() {
        if game.is_over.load(Ordering::SeqCst) {
            break;
        }
        match ready.get(rt, &mut getter.end) {
            Some(row) => {
                getter.mark(number(row));
                game.count();
            }
            None => thread::yield_now(),
        }
    }
    getter
}

/// One end puts and one gets, side by side.
fn put_and_get<R: Threads + Wait + Sync>(
    rt: &R,
    ready: &Ready,
    game: &Game,
    putter: ReadyEnd,
    getter: Getter,
) -> ((bool, ReadyEnd), Getter)
    requires { IsEndOf ready.now putter × IsEndOf ready.now getter.end }
    ensures { IsEndOf ready.now result.0.1 × IsEndOf ready.now result.1.end }
{
    thread::join(
        rt,
        || -> (bool, ReadyEnd)
            requires { IsEndOf ready.now putter }
            ensures { IsEndOf ready.entry.now result.1 }
        { put_all(rt, ready, game, putter) },
        || -> Getter
            requires { IsEndOf ready.now getter.end }
            ensures { IsEndOf ready.entry.now result.end }
        { get_all(rt, ready, game, getter) },
    )
}

/// Two ends get, side by side.
fn get_and_get<R: Threads + Wait + Sync>(
    rt: &R,
    ready: &Ready,
    game: &Game,
    first: Getter,
    second: Getter,
) -> (Getter, Getter)
    requires { IsEndOf ready.now first.end × IsEndOf ready.now second.end }
    ensures { IsEndOf ready.now result.0.end × IsEndOf ready.now result.1.end }
{
    thread::join(
        rt,
        || -> Getter
            requires { IsEndOf ready.now first.end }
            ensures { IsEndOf ready.entry.now result.end }
        { get_all(rt, ready, game, first) },
        || -> Getter
            requires { IsEndOf ready.now second.end }
            ensures { IsEndOf ready.entry.now result.end }
        { get_all(rt, ready, game, second) },
    )
}

/// All four, side by side.
fn play<R: Threads + Wait + Sync>(
    rt: &R,
    ready: &Ready,
    game: &Game,
    putter: ReadyEnd,
    getters: (Getter, Getter, Getter),
) -> (((bool, ReadyEnd), Getter), (Getter, Getter))
    requires putter { IsEndOf ready.now putter }
    requires getters { IsEndOf ready.now getters.0.end × IsEndOf ready.now getters.1.end × IsEndOf ready.now getters.2.end }
    ensures putter { IsEndOf ready.now result.0.0.1 }
    ensures getters { IsEndOf ready.now result.0.1.end × IsEndOf ready.now result.1.0.end × IsEndOf ready.now result.1.1.end }
{
    let (first, second, third) = getters;
    thread::join(
        rt,
        || -> ((bool, ReadyEnd), Getter)
            requires { IsEndOf ready.now putter × IsEndOf ready.now first.end }
            ensures { IsEndOf ready.entry.now result.0.1 × IsEndOf ready.entry.now result.1.end }
        { put_and_get(rt, ready, game, putter, first) },
        || -> (Getter, Getter)
            requires { IsEndOf ready.now second.end × IsEndOf ready.now third.end }
            ensures { IsEndOf ready.entry.now result.0.end × IsEndOf ready.entry.now result.1.end }
        { get_and_get(rt, ready, game, second, third) },
    )
}

#[test]
fn each_row_is_got_once(rt: HostRuntime) -> Result<(), Fail> {
    for _ in 0..GAMES {
        let (ready, mut ends) = Ready::new(rt.alloc(), 4)?;
        let third = last_getter(rt.alloc(), &ready, &mut ends)?;
        let second = last_getter(rt.alloc(), &ready, &mut ends)?;
        let first = last_getter(rt.alloc(), &ready, &mut ends)?;
        let putter = last(&ready, &mut ends);
        let game = Game::new();
        let (((were_put, mut putter), mut first), (second, third)) = play(
            &rt,
            &ready,
            &game,
            putter,
            (first, second, third),
        );
        assert!(rt; were_put);
        assert_eq!(rt; putter.count(), u64::from(ROWS));
        assert_eq!(rt; game.got.load(Ordering::SeqCst), u64::from(ROWS));
        assert!(rt; !first.got_another && !second.got_another && !third.got_another);
        for number in 0..usize::from(ROWS) {
            let times = first.times(number) + second.times(number) + third.times(number);
            assert_eq!(rt; times, 1, "row {number}");
        }
        assert!(rt; ready.get(&rt, &mut putter).is_none());
        assert!(rt; ready.get(&rt, &mut first.end).is_none());
    }
    Ok(())
}
