//! The steps on the word of a thread's life.

ghost use Rattle.std.specs.Prelude.{◌≡◌, ◌≢◌, ◌<◌, ◌≤◌, ◌↔◌, length, IsFalse, IsTrue};
ghost use Rattle.protocol_values.specs.declared.Course.{Course};
ghost use Rattle.protocol_values.specs.declared.Course.TheVariants.{Unstarted};
ghost use Rattle.protocol_ledger.specs.Short.{short_course_place};
ghost use Rattle.cell_table.specs.declared.view.Stage.TheVariants.{Resting};
ghost use Rattle.cell_table.specs.Rule.{IsFinishing, IsStarting};
ghost use Rattle.cell_table.specs.Told.{AgreesLife, course_read};
ghost use Rattle.cell_table.specs.Seats.{Sits, StaysSeated};
ghost use Rattle.cell_table.specs.Sight.{Has, HasSeenLast, IsExpectedCourse, IsStand, IsUnseen, SawEnded};
ghost use Rattle.cell_table.specs.Views.{ended_thread, saw_course, started_thread, stood_at};

use crate::board::Board;
use crate::plays::{Finish, LookLife, Stand, Start};
use crate::view::View;
use atomic_table::Seat;
use protocol_ledger::{NACKS, Resident};
use protocol_values::{Course, Row, pack_course, unpack_course};

impl<M: Resident> Board<M> {
    /// Whether the table has the thread.
    pub fn has_thread(&self, thread: u8) -> bool
        ensures { IsTrue result ↔ (thread < self.now.shape.threads) }
    {
        u64::from(thread) < self.shape.threads
    }

    // where the word of a thread's life lies
    fn life_place(&self, thread: u8) -> usize
        requires { thread < self.now.shape.threads }
        ensures { (result ≡ short_course_place self.now.shape.layout thread) × (result < self.now.words.shared.table_id.words) }
    {
        self.shape.layout.behind(&self.starts, usize::from(thread)) + NACKS
    }

    /// Reads where the thread is on its course.
    pub fn look_life(&self, seat: &mut Seat<Option<M>, View<M>>, thread: u8) -> Course
        requires { Sits self.now seat.old × (thread < self.now.shape.threads) }
        ensures sits { StaysSeated self.now seat.old seat.new }
        ensures saw { seat.new.me.0 ≡ saw_course thread result seat.old.me.0 }
        ensures agrees { AgreesLife seat.old.me.0 thread result }
    {
        course_in(
            self.words
                .shared
                .load::<LookLife>(seat, self.life_place(thread)),
        )
    }

    /// Turns to a place at which the pass stands, from which it is to start threads, and reads where that
    /// place's thread is on its course.
    pub fn stand(&self, seat: &mut Seat<Option<M>, View<M>>, row: Row) -> Course
        requires sits { Sits self.now seat.old × (row.thread < self.now.shape.threads) }
        requires stands { IsStand self.now.shape.rows seat.old.me.0.seen row }
        ensures sits { StaysSeated self.now seat.old seat.new }
        ensures stood { seat.new.me.0 ≡ stood_at row (saw_course row.thread result seat.old.me.0) }
        ensures agrees { AgreesLife seat.old.me.0 row.thread result }
    {
        course_in(
            self.words
                .shared
                .load::<Stand>(seat, self.life_place(row.thread)),
        )
    }

    /// Starts the thread from the place to which the pass has turned, with the place's last stamp, where it has
    /// not started; else false. In a table of machines somebody stands for the place's thread who starts it there.
    pub fn start_thread(
        &self,
        seat: &mut Seat<Option<M>, View<M>>,
        row: Row,
        thread: u8,
        stamp: u32,
    ) -> bool
        requires starting { 0 < length self.now.shape.first.value.items → IsStarting M.stands self.now.shape.first.value.items seat.old.me.0.results row thread }
        requires sits { Sits self.now seat.old × (row.thread < self.now.shape.threads) × (thread < self.now.shape.threads) × (row.thread ≢ thread) }
        requires resting { seat.old.me.0.stage ≡ Resting }
        requires stands { (seat.old.me.0.from ≡ row) × IsStand self.now.shape.rows seat.old.me.0.seen row × (¬ SawEnded seat.old.me.0.seen row.thread) }
        requires stamp { HasSeenLast seat.old.me.0.seen row stamp }
        ensures sits { StaysSeated self.now seat.old seat.new }
        ensures started { IsTrue result → (seat.new.me.0 ≡ started_thread thread stamp seat.old.me.0) × IsUnseen seat.old.me.0.seen thread }
        ensures found { IsFalse result → (course : Course) × (course ≢ Unstarted) × (seat.new.me.0 ≡ saw_course thread course seat.old.me.0) × IsExpectedCourse self.now.shape.rows seat.old.me.0.seen thread course }
    {
        let _ = row;
        let unstarted = pack_course(Course::Unstarted);
        let started = pack_course(Course::Running(stamp));
        let found = self
            .words
            .shared
            .compare_exchange::<Start>(seat, self.life_place(thread), unstarted, started);
        found == unstarted
    }

    /// Ends the row's thread at this place of it, at which the pass stands. In a table of machines somebody stands
    /// for the thread who ends there.
    pub fn finish(&self, seat: &mut Seat<Option<M>, View<M>>, row: Row, start: u32)
        requires finishing { 0 < length self.now.shape.first.value.items → IsFinishing M.stands self.now.shape.first.value.items seat.old.me.0.results row }
        requires sits { Sits self.now seat.old × (row.thread < self.now.shape.threads) × (row.sync ≤ self.now.shape.rows) }
        requires resting { seat.old.me.0.stage ≡ Resting }
        requires stands { IsStand self.now.shape.rows seat.old.me.0.seen row × (¬ SawEnded seat.old.me.0.seen row.thread) }
        requires started { Has seat.old.me.0.seen.started (row.thread, start) }
        ensures sits { StaysSeated self.now seat.old seat.new }
        ensures ended { seat.new.me.0 ≡ ended_thread row start seat.old.me.0 }
    {
        self.words.shared.store::<Finish>(
            seat,
            self.life_place(row.thread),
            pack_course(Course::Ended(start, row.sync as u16)),
        );
    }
}

// where a word of the table says that a thread is on its course
fn course_in(word: u64) -> Course
    ensures { result ≡ course_read word }
{
    unpack_course(word).unwrap_or(Course::Unstarted)
}
