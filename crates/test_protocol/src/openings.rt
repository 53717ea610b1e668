//! What ledgers tell of their ends, and worlds that go on from there.

ghost use Rattle.std.specs.Prelude.{◌≤◌};

use crate::tests::{Move, RECEIVER, SENDER, check_ledger, check_same, draft, ended_first, open};
use protocol::{ProtoFault, World, play};
use protocol_ledger::{Ledger, Life, NackState, Opening};
use protocol_values::{Cause, Commit, Message, NackName, Row, Seat, Step};
use std::alloc::{AllocError, AllocGlobal, Global};
use std::process::Abort;
use std::test::Fail;

/// The greatest stamp that a commit can have.
const LAST: u32 = 4294967295;

/// An opening of these threads, in which the first nacks are so and no other is bound.
pub(crate) fn opening(
    alloc: Global,
    threads: &[(Life, u32)],
    nacks: &[NackState],
) -> Result<Opening, AllocError> {
    let mut opening = Opening {
        threads: Vec::new(alloc),
        nacks: Vec::new(alloc),
    };
    for thread in threads.iter() {
        opening.threads.push(*thread)?;
        for _ in 0..64 {
            let state = nacks.get(opening.nacks.len()).copied();
            opening.nacks.push(state.unwrap_or(NackState::Unbound))?;
        }
    }
    Ok(opening)
}

fn check_opening(
    rt: &(impl Abort + AllocGlobal),
    ledger: &Ledger,
    threads: &[(Life, u32)],
    nacks: &[NackState],
) -> Result<Opening, Fail> {
    let told = ledger.opening()?;
    let wanted = opening(rt.alloc(), threads, nacks)?;
    assert!(rt; told.threads == wanted.threads, "the threads");
    assert!(rt; told.nacks == wanted.nacks, "the nacks");
    Ok(told)
}

/// The world that goes on from the opening, with one row a thread.
fn next(rt: &(impl Abort + AllocGlobal), opening: &Opening, seats: u8) -> Result<World, ProtoFault>
    requires { (1 ≤ seats) × (seats ≤ 16) }
{
    assert!(rt; opening.leads_on(1), "the opening leads on");
    World::next(rt.alloc(), opening, 1, seats)
}

/// Plays the steps, and gives the number of the step that is refused.
fn refused(world: World, steps: &[Move]) -> Option<usize> {
    match play(world, steps) {
        Err(ProtoFault::NotAllowed(at)) => Some(at),
        _ => None,
    }
}

/// A row's one offer, by its head, is drafted and opened by the seat.
fn offers(seat: u8, row: Row, head: u64) -> [Move; 3] {
    [
        draft(seat, row, 1, 1),
        draft(seat, row, 2, head),
        (Seat(seat), Step::Open { row }),
    ]
}

fn grant(seat: u8, row: Row, offer: u8) -> Move {
    (Seat(seat), Step::Grant { row, offer })
}

fn bind(seat: u8, k: u8, row: Row) -> Move {
    (Seat(seat), Step::Bind { k, row, scope: 0 })
}

fn alone(row: Row, offer: u8, cause: Cause, stamp: u32) -> Commit {
    Commit::Alone {
        at: (row, offer),
        cause,
        stamp,
    }
}

/// The steps one after another.
fn all(alloc: Global, parts: &[&[Move]]) -> Result<Vec<Move>, AllocError> {
    let mut steps = Vec::new(alloc);
    for part in parts.iter() {
        for step in part.iter() {
            steps.push(*step)?;
        }
    }
    Ok(steps)
}

#[test]
fn a_thread_goes_on_behind_its_last_stamp(rt: HostRuntime) -> Result<(), Fail> {
    let ended = [(Life::Running, 1), (Life::Ended, 0)];
    let opening = check_opening(&rt, &ended_first(&rt)?, &ended, &[])?;
    let steps = all(rt.alloc(), &[&offers(0, SENDER, 3), &[grant(0, SENDER, 0)]])?;
    let ledger = play(next(&rt, &opening, 1)?, &steps)?.ledger();
    let commit = alone(SENDER, 0, Cause::Always(Message::Empty), 2);
    check_ledger(&rt, &ledger, &[commit], 0)?;
    // The other thread has ended, and is not started again.
    let again = (
        Seat(0),
        Step::Start {
            row: SENDER,
            thread: 1,
        },
    );
    for step in [open(RECEIVER), again].iter() {
        check_same(
            &rt,
            refused(next(&rt, &opening, 1)?, &[*step]),
            Some(0),
            "a step of the ended",
        );
    }
    Ok(())
}

/// A thread that offers under a nack, and another that waits for it; and then the first chooses outside.
fn cancelled(alloc: Global, with_grants: bool) -> Result<Vec<Move>, AllocError> {
    let mine = [
        bind(0, 0, SENDER),
        draft(0, SENDER, 1, 2),
        draft(0, SENDER, 2, 33_554_434),
        draft(0, SENDER, 6, 3),
        (Seat(0), Step::Open { row: SENDER }),
    ];
    let grants = [grant(0, SENDER, 1), grant(1, RECEIVER, 0)];
    let made = if with_grants { 2 } else { 0 };
    all(
        alloc,
        &[
            &mine,
            &offers(1, RECEIVER, 4),
            grants.get(..made).unwrap_or(&[]),
        ],
    )
}

#[test]
fn a_ledger_tells_what_became_of_a_nack(rt: HostRuntime) -> Result<(), Fail> {
    let both = [(Life::Running, 1), (Life::Running, 2)];
    let steps = cancelled(rt.alloc(), true)?;
    let ledger = play(World::start(rt.alloc(), 2, 1, 2)?, &steps)?.ledger();
    check_opening(&rt, &ledger, &both, &[NackState::Enabled(1)])?;
    let neither = [(Life::Running, 0), (Life::Running, 0)];
    let steps = cancelled(rt.alloc(), false)?;
    let ledger = play(World::start(rt.alloc(), 2, 1, 2)?, &steps)?.ledger();
    check_opening(&rt, &ledger, &neither, &[NackState::Unsettled])?;
    Ok(())
}

const THREADS: [(Life, u32); 2] = [(Life::Running, 2), (Life::Running, 0)];

const SETTLED: [NackState; 3] = [NackState::Enabled(2), NackState::Dead, NackState::Unsettled];

#[test]
fn only_an_enabled_nack_of_an_earlier_table_is_granted(rt: HostRuntime) -> Result<(), Fail> {
    let opening = opening(rt.alloc(), &THREADS, &SETTLED)?;
    let nacks = [(4, 0), (131_076, 1), (262_148, 2), (393_220, 3)];
    for (head, k) in nacks.iter() {
        let offered = offers(1, RECEIVER, *head);
        let steps = all(rt.alloc(), &[&offered, &[grant(1, RECEIVER, 0)]])?;
        let world = next(&rt, &opening, 2)?;
        if *k > 0 {
            check_same(&rt, refused(world, &steps), Some(3), "a grant");
            continue;
        }
        let ledger = play(world, &steps)?.ledger();
        let commit = alone(RECEIVER, 0, Cause::Nack(NackName { thread: 0, k: 0 }), 3);
        check_ledger(&rt, &ledger, &[commit], 0)?;
        // A later ledger tells it again.
        check_opening(
            &rt,
            &ledger,
            &[(Life::Running, 2), (Life::Running, 3)],
            &[NackState::Enabled(2), NackState::Dead],
        )?;
    }
    Ok(())
}

#[test]
fn only_an_unsettled_nack_is_bound_anew(rt: HostRuntime) -> Result<(), Fail> {
    let opening = opening(rt.alloc(), &THREADS, &SETTLED)?;
    for (k, answer) in [(0, Some(0)), (1, Some(0)), (2, None), (3, None)].iter() {
        let world = next(&rt, &opening, 2)?;
        check_same(
            &rt,
            refused(world, &[bind(0, *k, SENDER)]),
            *answer,
            "a bind",
        );
    }
    let mine = [
        bind(0, 2, SENDER),
        draft(0, SENDER, 1, 2),
        draft(0, SENDER, 2, 33_554_442),
        draft(0, SENDER, 6, 3),
        (Seat(0), Step::Open { row: SENDER }),
    ];
    let grants = [grant(0, SENDER, 1), grant(1, RECEIVER, 0)];
    let steps = all(rt.alloc(), &[&mine, &offers(1, RECEIVER, 262_148), &grants])?;
    let ledger = play(next(&rt, &opening, 2)?, &steps)?.ledger();
    let always = alone(SENDER, 1, Cause::Always(Message::Empty), 3);
    let nack = alone(RECEIVER, 0, Cause::Nack(NackName { thread: 0, k: 2 }), 4);
    check_ledger(&rt, &ledger, &[always, nack], 0)?;
    Ok(())
}

#[test]
fn an_opening_leads_on_while_its_stamps_have_room(rt: HostRuntime) -> Result<(), Fail> {
    // A stamp of four billion and more, the last that there is.
    let last = opening(rt.alloc(), &[(Life::Running, LAST - 1)], &[])?;
    check_same(&rt, last.greatest(), LAST - 1, "the greatest stamp");
    check_same(&rt, last.leads_on(2), false, "with two rows");
    let steps = all(rt.alloc(), &[&offers(0, SENDER, 3), &[grant(0, SENDER, 0)]])?;
    let ledger = play(next(&rt, &last, 1)?, &steps)?.ledger();
    let commit = alone(SENDER, 0, Cause::Always(Message::Empty), LAST);
    check_ledger(&rt, &ledger, &[commit], 0)?;
    let waits = opening(rt.alloc(), &[(Life::Unstarted, 1)], &[])?;
    check_same(
        &rt,
        waits.leads_on(1),
        false,
        "a stamp of a thread that waits",
    );
    let never = opening(rt.alloc(), &[(Life::Running, 1)], &[NackState::Enabled(0)])?;
    check_same(&rt, never.leads_on(1), false, "a nack enabled at no stamp");
    let nobody = opening(rt.alloc(), &[], &[])?;
    check_same(&rt, nobody.leads_on(1), false, "no threads");
    Ok(())
}
