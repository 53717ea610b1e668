//! The queues are made, with an end for each worker.

ghost use Rattle.std.specs.Prelude.{◌≡◌, ◌+◌, ◌<◌, ◌++◌, All, IfOk, None, Some, [], length, map};
ghost use Rattle.crossbeam_deque.specs.Handles.{stealer_deque, worker_flavor, worker_view};
ghost use Rattle.crossbeam_deque.specs.Injected.{injector_view, IsInjectorPassOf};
ghost use Rattle.meet_queues.specs.Hands.{hand};
ghost use Rattle.meet_queues.specs.Positions.{AllAt};
ghost use Rattle.meet_queues.specs.Ends.{IsAlone, IsEndOf, IsNewEnd, IsNewOther, IsThief, all_but, deque_of, own_deque_of};

use crate::ends::{Deque, Other, ReadyEnd, Thief};
use crate::entries::{Entry, QueueView};
use crate::ready::Ready;
use crate::splits::{Dealt, Settled};
use crossbeam_deque::{Injector, InjectorPass};
use protocol_values::Row;
use std::alloc::{AllocError, Global};

/// The slots with which a deque begins. A script has at most 64 threads, each with one row that is ready.
const SLOTS: usize = 64;

/// The deque of the end with this number: its hand leaves out the lower numbers and takes this one.
fn own_deque(alloc: Global, number: u8) -> Result<Deque, AllocError>
    ensures { IfOk result (λ own. (worker_flavor own ≡ 0) × (worker_view own ≡ hand (Some number) (Some (number + 1)) 0 [] [])) }
{
    let mut own = Deque::fifo_as(alloc, SLOTS)?;
    for _ in 0..number {
        drop(own.another::<Dealt>());
    }
    drop(own.another::<Settled>());
    Ok(own)
}

/// An end with no others to steal from.
fn lone_end(
    alloc: Global,
    ready: &Ready,
    dealer: &mut InjectorPass<Entry<Row>, QueueView<Row>>,
    number: u8,
) -> Result<ReadyEnd, AllocError>
    requires dealer { IsInjectorPassOf ready.now.inlet dealer.old × (injector_view dealer.old ≡ hand None (Some number) 0 [] []) }
    ensures dealer { IsInjectorPassOf ready.now.inlet dealer.new × IfOk result (λ e. injector_view dealer.new ≡ hand None (Some (number + 1)) 0 [] []) }
    ensures alone { IfOk result (IsAlone ready.now number) }
{
    Ok(ReadyEnd {
        number,
        count: 0,
        own: own_deque(alloc, number)?,
        inlet: ready.inlet.another::<Dealt>(dealer),
        others: Vec::new(alloc),
    })
}

/// A handle of each end's deque.
fn all_thieves(alloc: Global, ends: &[ReadyEnd]) -> Result<Vec<Thief>, AllocError>
    requires { All (λ e. worker_flavor e.own ≡ 0) ends.now }
    ensures fifo { IfOk result (λ thieves. All IsThief thieves.items) }
    ensures deques { IfOk result (λ thieves. (map stealer_deque thieves.items ≡ map own_deque_of ends.now) × (length thieves.items ≡ length ends.now)) }
{
    let mut thieves = Vec::with_capacity(alloc, ends.len())?;
    for end in ends {
        thieves.push(end.own.stealer()?)?;
    }
    Ok(thieves)
}

/// Handles of these deques, each with a hand that takes only, join the list.
fn add_others(others: &mut Vec<Other>, thieves: &[Thief]) -> Result<(), AllocError>
    requires { All IsThief thieves.now × All IsNewOther others.old.items }
    ensures others { IfOk result (λ u. All IsNewOther others.new.items) }
    ensures deques { IfOk result (λ u. map deque_of others.new.items ≡ map deque_of others.old.items ++ map stealer_deque thieves.now) }
{
    for thief in thieves {
        let deque = thief.clone()?;
        let hand = deque.pass();
        others.push(Other { deque, hand })?;
    }
    Ok(())
}

/// Those of all these deques but the one of this number, from the next one on.
fn other_deques(alloc: Global, thieves: &[Thief], number: usize) -> Result<Vec<Other>, AllocError>
    requires thieves { All IsThief thieves.now }
    requires number { number < length thieves.now }
    ensures others { IfOk result (λ others. All IsNewOther others.items) }
    ensures deques { IfOk result (λ others. map deque_of others.items ≡ all_but number (map stealer_deque thieves.now)) }
{
    let mut others = Vec::with_capacity(alloc, thieves.len())?;
    add_others(&mut others, &thieves[number + 1..])?;
    add_others(&mut others, &thieves[..number])?;
    Ok(others)
}

impl Ready {
    /// The queues of so many workers, all empty, with an end for each.
    pub fn new(alloc: Global, workers: u8) -> Result<(Ready, Vec<ReadyEnd>), AllocError>
        ensures ends { IfOk result (λ r. (length r.1.items ≡ workers) × All (IsEndOf r.0) r.1.items) }
        ensures new { IfOk result (λ r. AllAt (IsNewEnd r.1.items) r.1.items) }
    {
        let (inlet, mut dealer) = Injector::new_as(alloc)?;
        let ready = Ready { inlet };
        let mut ends = Vec::with_capacity(alloc, usize::from(workers))?;
        for number in 0..workers {
            ends.push(lone_end(alloc, &ready, &mut dealer, number)?)?;
        }
        let thieves = all_thieves(alloc, &ends)?;
        for number in 0..ends.len() {
            let others = other_deques(alloc, &thieves, number)?;
            ends[number].others = others;
        }
        Ok((ready, ends))
    }
}
