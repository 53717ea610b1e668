//! A thread is started from a place of another, and ended.

ghost use Rattle.std.specs.Prelude.{◌≡◌, ◌≢◌, ◌<◌, ◌≤◌, ◌∷◌, length};
ghost use Rattle.protocol_values.specs.declared.Step.TheVariants.{Finish};
ghost use Rattle.cell.specs.Attempts.{Finished, Started, start_made};
ghost use Rattle.cell_table.specs.declared.view.Stage.TheVariants.{Resting};
ghost use Rattle.cell_table.specs.Rule.{IsFinishing, IsStarting};
ghost use Rattle.cell_table.specs.Seats.{Sits, StaysSeated};
ghost use Rattle.cell_table.specs.Sight.{IsStand, SawEnded};
ghost use Rattle.cell_table.specs.Views.{stood_at, worked};

use crate::reading::last_at;
use atomic_table::Seat;
use cell_table::{Board, View};
use protocol_ledger::Resident;
use protocol_values::{Course, Row};

/// Starts the thread at the last stamp of the place at which the pass stands, where the thread has not started.
pub(crate) fn start_from<M: Resident>(
    board: &Board<M>,
    seat: &mut Seat<Option<M>, View<M>>,
    row: Row,
    thread: u8,
) -> bool
    requires starting { 0 < length board.now.shape.first.value.items → IsStarting M.stands board.now.shape.first.value.items seat.old.me.0.results row thread }
    requires sits { Sits board.now seat.old × (row.thread < board.now.shape.threads) × (row.sync ≤ board.now.shape.rows) }
    requires other { (thread < board.now.shape.threads) × (row.thread ≢ thread) }
    requires resting { seat.old.me.0.stage ≡ Resting }
    requires stands { IsStand board.now.shape.rows seat.old.me.0.seen row × (¬ SawEnded seat.old.me.0.seen row.thread) }
    ensures sits { StaysSeated board.now seat.old seat.new }
    ensures stays { seat.new.me.0 ≡ stood_at row (worked seat.old.me.0.stage seat.new.me.0.seen (start_made row thread result seat.old.me.0.made) seat.old.me.0) }
    ensures started { Started seat.old.me.0.seen seat.new.me.0.seen row thread result }
{
    let start = match board.stand(seat, row) {
        Course::Running(start) => start,
        Course::Unstarted | Course::Ended(..) => unreachable!(),
    };
    let last = last_at(board, seat, row, start);
    board.start_thread(seat, row, thread, last)
}

/// Ends the thread of the place at which the pass stands, there.
pub(crate) fn finish_at<M: Resident>(
    board: &Board<M>,
    seat: &mut Seat<Option<M>, View<M>>,
    row: Row,
)
    requires finishing { 0 < length board.now.shape.first.value.items → IsFinishing M.stands board.now.shape.first.value.items seat.old.me.0.results row }
    requires sits { Sits board.now seat.old × (row.thread < board.now.shape.threads) × (row.sync ≤ board.now.shape.rows) }
    requires resting { seat.old.me.0.stage ≡ Resting }
    requires stands { IsStand board.now.shape.rows seat.old.me.0.seen row × (¬ SawEnded seat.old.me.0.seen row.thread) }
    ensures sits { StaysSeated board.now seat.old seat.new }
    ensures stays { seat.new.me.0 ≡ worked seat.old.me.0.stage seat.new.me.0.seen (Finish row ∷ seat.old.me.0.made) seat.old.me.0 }
    ensures finished { Finished seat.old.me.0.seen seat.new.me.0.seen row }
{
    match board.look_life(seat, row.thread) {
        Course::Running(start) => board.finish(seat, row, start),
        Course::Unstarted | Course::Ended(..) => unreachable!(),
    }
}
