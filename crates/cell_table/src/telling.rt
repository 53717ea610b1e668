//! One pass tells another what it has seen.

ghost use Rattle.std.specs.Prelude.{◌≡◌};
ghost use Rattle.protocol_values.specs.declared.Cell.TheVariants.{Fresh};
ghost use Rattle.protocol_values.specs.declared.Row.{Row};
ghost use Rattle.protocol_ledger.specs.Short.{HasWords};
ghost use Rattle.cell_table.specs.Told.{Agrees};
ghost use Rattle.cell_table.specs.Rule.{heard_pass, left_pass, told_last, told_pass};
ghost use Rattle.cell_table.specs.declared.view.Stage.TheVariants.{Resting};
ghost use Rattle.cell_table.specs.Seats.{HasRow, Sits, StaysSeated};
ghost use Rattle.cell_table.specs.Views.{opening_in};

use crate::board::Board;
use crate::plays::{Glance, Leave, Tell};
use crate::view::View;
use atomic_table::Seat;
use protocol_ledger::Resident;

impl<M: Resident> Board<M> {
    /// What `from` has seen, and what it drafted for its opened rows, is seen by `to` from now on.
    pub fn tell(&self, from: &mut Seat<Option<M>, View<M>>, to: &mut Seat<Option<M>, View<M>>)
        requires { Sits self.now from.old × Sits self.now to.old }
        ensures sits { (from.new.id ≡ from.old.id) × Sits self.now from.new × (to.new.id ≡ to.old.id) × Sits self.now to.new }
        ensures from { from.new.me.0 ≡ from.old.me.0 }
        ensures out { (from.new.me.1 ≡ from.old.me.1) × (to.new.me.1 ≡ to.old.me.1) }
        ensures to { to.new.me.0 ≡ heard_pass to.old.me.0 (told_pass from.old.me.0) }
    {
        let told = self.words.shared.split_seat::<Tell>(from);
        self.words.shared.join_seat::<Tell>(to, told);
        self.glance(to);
    }

    /// What `from` has seen, and what it drafted for its opened rows, is seen by `to` from now on, and `from` leaves
    /// the table by it: it makes no more steps. `to` has gathered its seat, and the steps that it made.
    pub fn leave(&self, from: &mut Seat<Option<M>, View<M>>, to: &mut Seat<Option<M>, View<M>>)
        requires sits { Sits self.now from.old × Sits self.now to.old }
        requires rests { from.old.me.0.stage ≡ Resting }
        ensures sits { (from.new.id ≡ from.old.id) × Sits self.now from.new × (to.new.id ≡ to.old.id) × Sits self.now to.new }
        ensures from { from.new.me.0 ≡ left_pass from.old.me.0 }
        ensures out { (from.new.me.1 ≡ from.old.me.1) × (to.new.me.1 ≡ to.old.me.1) }
        ensures to { to.new.me.0 ≡ heard_pass to.old.me.0 (told_last from.old.me.0) }
    {
        let told = self.words.shared.split_seat::<Leave>(from);
        self.words.shared.join_seat::<Tell>(to, told);
        self.glance(to);
    }

    /// Reads a word and learns nothing by it: a pass that was told something sees so that all that it
    /// has seen is of one table, and that rows that have no words are Fresh.
    #[inline(never)]
    pub(crate) fn glance(&self, seat: &mut Seat<Option<M>, View<M>>)
        requires sits { (seat.old.table_id ≡ self.now.words.shared.table_id) × (seat.old.me.0.threads ≡ self.now.shape.threads) × (seat.old.me.0.rows ≡ self.now.shape.rows) × (seat.old.me.0.first ≡ self.now.shape.first.value.items) × (seat.old.me.0.lives ≡ (opening_in self.now.shape).threads) × (seat.old.me.0.nacks ≡ (opening_in self.now.shape).nacks) × (seat.old.me.0.layout ≡ self.now.shape.layout) }
        ensures sits { StaysSeated self.now seat.old seat.new }
        ensures stays { seat.new.me.0 ≡ seat.old.me.0 }
        ensures missing { (r : Row) → HasRow self.now r → (¬ HasWords self.now.shape.layout r) → Agrees seat.old.me.0 r Fresh }
    {
        self.words.shared.load::<Glance>(seat, 0);
    }
}
