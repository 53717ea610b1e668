//! Worlds, and the schedules that are played on them.

ghost use Rattle.std.specs.Prelude.{◌≡◌, ◌≤◌, [], IfOk, IfErr};
ghost use Rattle.protocol_ledger.specs.Worlds.{Plays, start_world};
ghost use Rattle.protocol_ledger.specs.Ledgers.{commits_in, ledger_of};
ghost use Rattle.protocol_ledger.specs.Openings.{Begins, IsOpening, opening_of};
ghost use Rattle.protocol.specs.States.{Refuses};

use crate::ProtoFault;
use crate::state::State;
use protocol_ledger::{Ledger, Opening};
use protocol_values::{Seat, Step};
use std::alloc::Global;
use std::marker::Model;

/// A world: the words of a table, and who holds which row.
#[derive(Debug, Drop)]
pub struct World {
    state: State,
}

impl Model for World {
    ghost use Rattle.protocol_ledger.specs.Worlds.{World};

    ghost Value = { World };

    ghost use Rattle.protocol.specs.States.{world_of, IsSound};

    ghost view = { λ w. world_of w.state };

    ghost invariant = { λ w. IsSound w.state };
}

impl World {
    /// All threads started, all rows Fresh and no nack bound, so that the ledger has no commits; row 0 of
    /// thread t is held by seat t mod `seats`.
    pub fn start(alloc: Global, threads: u8, rows: u16, seats: u8) -> Result<World, ProtoFault>
        requires some_threads { 1 ≤ threads }
        requires few_threads { threads ≤ 64 }
        requires some_rows { 1 ≤ rows }
        requires few_rows { rows ≤ 1024 }
        requires some_seats { 1 ≤ seats }
        requires few_seats { seats ≤ 16 }
        ensures started { IfOk result (λ w. w ≡ start_world threads rows seats 0) }
        ensures empty { IfOk result (λ w. commits_in (ledger_of w.table) ≡ []) }
        ensures refused { IfErr result (λ e. e ≡ ProtoFault.Memory) }
    {
        World::start_later(alloc, threads, rows, seats, 0)
    }

    /// A world in which a thread whose bit is set in the mask `later` waits to be started, and nobody holds its row 0.
    /// All else is as by `start`. Bits of threads that the world has not change nothing.
    pub fn start_later(
        alloc: Global,
        threads: u8,
        rows: u16,
        seats: u8,
        later: u64,
    ) -> Result<World, ProtoFault>
        requires some_threads { 1 ≤ threads }
        requires few_threads { threads ≤ 64 }
        requires some_rows { 1 ≤ rows }
        requires few_rows { rows ≤ 1024 }
        requires some_seats { 1 ≤ seats }
        requires few_seats { seats ≤ 16 }
        ensures started { IfOk result (λ w. w ≡ start_world threads rows seats later) }
        ensures empty { IfOk result (λ w. commits_in (ledger_of w.table) ≡ []) }
        ensures refused { IfErr result (λ e. e ≡ ProtoFault.Memory) }
    {
        let state = State::start(
            alloc,
            usize::from(threads),
            usize::from(rows),
            usize::from(seats),
            later,
        )
        .map_err(|_| ProtoFault::Memory)?;
        Ok(World { state })
    }

    /// A world that goes on from an opening: each thread has its last stamp as its start stamp, each nack that was
    /// settled is carried, and all rows are Fresh, so that the ledger has no commits. Row 0 of thread t is held by seat
    /// t mod `seats` where the thread runs, and by nobody where it waits to be started or has ended. A thread
    /// that waits has no stamp, an enabled nack has one, and the stamps to come are at most 4294967295.
    pub fn next(alloc: Global, opening: &Opening, rows: u16, seats: u8) -> Result<World, ProtoFault>
        requires opening { IsOpening (opening_of opening.now) rows }
        requires some_rows { 1 ≤ rows }
        requires few_rows { rows ≤ 1024 }
        requires some_seats { 1 ≤ seats }
        requires few_seats { seats ≤ 16 }
        ensures begins { IfOk result (λ w. Begins (opening_of opening.now) rows seats w) }
        ensures empty { IfOk result (λ w. commits_in (ledger_of w.table) ≡ []) }
        ensures refused { IfErr result (λ e. e ≡ ProtoFault.Memory) }
    {
        let state = State::next(alloc, opening, usize::from(rows), usize::from(seats)).map_err(
            |_| ProtoFault::Memory,
        )?;
        Ok(World { state })
    }

    /// The words and the bound nacks as a ledger.
    pub fn ledger(self) -> Ledger
        ensures { result ≡ ledger_of self.table }
    {
        let World { state } = self;
        let State { sheet, .. } = state;
        Ledger::of_sheet(sheet)
    }
}

/// Plays the steps in turn. It takes no memory, and the world is gone after a refusal.
pub fn play(world: World, steps: &[(Seat, Step)]) -> Result<World, ProtoFault>
    ensures played { IfOk result (λ w. Plays world steps.now w) }
    ensures refused { IfErr result (λ e. Refuses world steps.now e) }
{
    let mut world = world;
    for (index, (seat, step)) in steps.iter().enumerate() {
        if !world.state.step(*seat, *step) {
            return Err(ProtoFault::NotAllowed(index));
        }
    }
    Ok(world)
}
