//! The end of a table by all of its passes.

ghost use Rattle.std.specs.Prelude.{◌≡◌, ◌<◌, ◌≤◌, [], ℕ, List, None, Some, All, Contains, false, length};
ghost use Rattle.protocol_values.specs.declared.Binding.{Binding};
ghost use Rattle.protocol_values.specs.declared.Course.TheVariants.{Unstarted};
ghost use Rattle.protocol_values.specs.declared.Joined.{Joined};
ghost use Rattle.protocol_values.specs.declared.NackName.{NackName};
ghost use Rattle.protocol_values.specs.declared.Offer.{Offer};
ghost use Rattle.protocol_values.specs.declared.Row.{Row};
ghost use Rattle.protocol_values.specs.declared.Step.TheVariants.{Open, Take};
ghost use Rattle.protocol_ledger.specs.Acting.{ActsAs, EndsAt, HasStart, acts_in, before_of};
ghost use Rattle.protocol_ledger.specs.Ledgers.{IsLawful, binding_in, carried_in, course_in, joined_in, offer_in};
ghost use Rattle.protocol_ledger.specs.Openings.{HadEnded, HadStarted, greatest, state_in, word_for};
ghost use Rattle.protocol_ledger.specs.Standing.{AreResults, Result};
ghost use Rattle.protocol_ledger.specs.Tables.{carried_by};
ghost use Rattle.cell_table.specs.Closings.{HandsOut, HandsOutWaiting, IsHandedOut};
ghost use Rattle.cell_table.specs.Sight.{Has, SeesNoOffer, SeesOffer};
ghost use Rattle.cell.specs.Calls.{IsHousing, IsNackOf, IsPassOf, PassOf, opening_at};
ghost use Rattle.cell.specs.Hearing.{HasGathered, HasHeard};

use crate::cells::{Cells, Gatherer, Pass};
use protocol_ledger::{Ledger, Resident};

impl<M: Resident + Drop> Cells<M> {
    /// Ends the table: its ledger has all that any of these passes has seen or was told. What stands for the threads of
    /// which a row is opened that nobody has taken is handed out: it offers what that row offers. One place for each
    /// thread, in a table of machines. What lies in other slots goes with the table. Where these are all passes of the
    /// table, one of them opened each row that offers something.
    pub fn close_all(self, passes: Vec<Pass<M>>) -> (Ledger, Vec<Option<M>>)
        requires here { All (λ p. IsPassOf self p) passes.items }
        requires some { 1 ≤ length passes.items }
        ensures size { (result.0.threads ≡ self.threads) × (result.0.rows ≡ self.rows) }
        ensures lawful { IsLawful result.0 }
        ensures opening { result.0.opening ≡ greatest (opening_at self) }
        ensures before { (t stamp : ℕ) → HadStarted (opening_at self) t stamp → HasStart (course_in result.0 t) stamp }
        ensures over { (t : ℕ) → HadEnded (opening_at self) t → EndsAt (course_in result.0 t) 0 }
        ensures carried { (n : NackName) → IsNackOf self n → carried_in result.0 n ≡ carried_by (word_for (state_in (opening_at self) n)) }
        ensures outside { (t : ℕ) → self.threads ≤ t → course_in result.0 t ≡ Unstarted }
        ensures started { (p : PassOf M) (t stamp : ℕ) → Contains passes.items p → Has p.seen.started (t, stamp) → HasStart (course_in result.0 t) stamp }
        ensures ended { (p : PassOf M) (t g : ℕ) → Contains passes.items p → Has p.seen.ended (t, g) → EndsAt (course_in result.0 t) g }
        ensures seen { (p : PassOf M) (r : Row) (j : Joined) → Contains passes.items p → Has p.seen.joined (r, j) → joined_in result.0 r ≡ Some j }
        ensures offers { (p : PassOf M) (r : Row) (n : ℕ) (o : Offer) → Contains passes.items p → SeesOffer p.seen r n o → offer_in result.0 r n ≡ Some o }
        ensures lacks { (p : PassOf M) (r : Row) (n : ℕ) → Contains passes.items p → SeesNoOffer p.seen r n → offer_in result.0 r n ≡ None }
        ensures bound { (p : PassOf M) (n : NackName) (b : Binding) → Contains passes.items p → Has p.seen.bound (n, b) → binding_in result.0 n ≡ Some b }
        ensures results { (p : PassOf M) (t : ℕ) (results : List Result) → Contains passes.items p → Has p.results (t, results) → AreResults result.0 t results }
        ensures count { length result.1.items ≡ length self.first }
        ensures machines { IsHousing self → HandsOut M.stands self.first result.0 result.1.items }
        ensures waiting { IsHousing self → HandsOutWaiting result.0 result.1.items }
        ensures opened { self.passes ≤ length passes.items → (r : Row) (n : ℕ) (o : Offer) → offer_in result.0 r n ≡ Some o → (p : PassOf M) × Contains passes.items p × Has p.made (Open r) }
        ensures handed { IsHousing self → self.passes ≤ length passes.items → (p : PassOf M) (r : Row) → Contains passes.items p → Has p.made (Open r) → ((q : PassOf M) → Contains passes.items q → Has q.made (Take r) → ⊥) → IsHandedOut result.1.items r.thread }
        ensures acts { IsHousing self → ActsAs (before_of (opening_at self)) (acts_in M.stands self.first) result.0 }
    {
        let told = self.told_one(passes);
        self.close_with(told)
    }

    /// One of the passes, to which all others have left the table: it has seen what they saw.
    fn told_one(&self, passes: Vec<Pass<M>>) -> Gatherer<M>
        requires here { All (λ p. IsPassOf self.now p) passes.items }
        requires some { 1 ≤ length passes.items }
        ensures here { IsPassOf self.now result.pass }
        ensures told { All (λ p. HasHeard p result.pass) passes.items }
        ensures gathered { HasGathered passes.items [] result }
    {
        let mut passes = passes;
        let Some(last) = passes.pop() else {
            unreachable!()
        };
        let mut told = last.into_gatherer();
        for pass in passes {
            self.leave(pass, &mut told);
        }
        told
    }
}
