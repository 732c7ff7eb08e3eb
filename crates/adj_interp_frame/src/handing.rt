//! What a unit that was called hands back.

ghost use Rattle.std.specs.Prelude.{◌≡◌, ◌<◌, ◌+◌, ℕ, [], Some, length, slice_get, slice_index_or, true, false};
ghost use Rattle.adj_tree.specs.Code.{Var};
ghost use Rattle.def_meaning.specs.Store.{Shape, size_of, Store};
ghost use Rattle.def_meaning.specs.Units.{copied_out};
ghost use Rattle.adj_interp_frame.specs.declared.actual.Actual.{Actual as AnActual};
ghost use Rattle.adj_interp_frame.specs.declared.actual.Actual.TheVariants as actual;
ghost use Rattle.adj_interp_frame.specs.declared.slot.Slot.{Slot as ASlot};
ghost use Rattle.adj_interp_frame.specs.Prepared.{var_at};
ghost use Rattle.adj_interp_frame.specs.Framed.{IsSlot, IsFrame, slot_shape, zero_in};
ghost use Rattle.adj_interp_frame.specs.Shown.{Shows};
ghost use Rattle.adj_interp_frame.specs.Called.{actuals_in, place_of, is_written_at, handed, IsLaidOut};
ghost use Rattle.adj_interp_frame.specs.Lent.{IsLent, IsFrameFrom, ShowsHeld, AreRead, sizes_in, AreActualsWithin};
ghost use Rattle.adj_interp_frame.specs.Suited.{counts_in, AreAsLarge};

use crate::actual::Actual;
use crate::frame::Frame;
use crate::routine::Routine;
use crate::slot::Slot;
use adj_number::Number;

// Whether the variable of a number is a dummy that is written.
fn is_written(routine: &Routine<'_>, i: usize) -> bool
    ensures { result ≡ is_written_at routine.now i }
{
    let writes = routine.writes.as_slice();
    i < routine.unit.dummies.as_slice().len() && i < writes.len() && writes[i]
}

impl<'a, N: Number> Frame<'a, N> {
    // Whether a whole variable gets the cells of the dummy of a number: where that is written, or the variable has lent its own.
    fn is_due(&self, routine: &Routine<'_>, actuals: &[Actual<N>], i: usize, k: usize) -> bool
        requires framed { IsFrameFrom routine.now actuals.now i self.now.names.now self.now.slots.items }
        requires there { k < length self.now.slots.items }
        requires given { slice_get actuals.now i ≡ Some (actual.Whole k) }
        ensures dummy { result ≡ true → i < length routine.now.unit.now.dummies }
        ensures lent { result ≡ true → is_written_at routine.now i ≡ false → IsLent routine.now actuals.now i k }
        ensures read { result ≡ false → is_written_at routine.now i ≡ false }
        ensures cells { result ≡ false → (d : ASlot N) → (slice_index_or self.now.slots.items k d).cells.items ≡ [] → ⊥ }
    {
        is_written(routine, i) || self.slots[k].is_empty()
    }

    // Hands the dummy of a number back to the place of its actual, where it is written. A whole variable gets its cells, and the dummy those of the
    // variable; so does one that isn't written and has lent its own. A variable without cells gets some later, and no cell of it is written before.
    fn hand_next(
        &mut self,
        routine: &Routine<'_>,
        actuals: &[Actual<N>],
        i: usize,
        slots: &mut [Slot<N>],
    )
        requires framed { IsFrameFrom routine.now actuals.now i self.old.names.now self.old.slots.items }
        requires below { AreActualsWithin self.old.slots.items actuals.now }
        requires next { i < length actuals.now }
        requires there { i < length routine.now.unit.now.dummies → i < length slots.old }
        requires sized { (d : ASlot N) → i < length routine.now.unit.now.dummies → IsSlot (slice_index_or slots.old i d) }
        requires large { (k : ℕ) (d e : ASlot N) → i < length routine.now.unit.now.dummies → slice_get actuals.now i ≡ Some (actual.Whole k)
            → size_of (slot_shape (slice_index_or self.old.slots.items k d)) ≡ length (slice_index_or slots.old i e).cells.items }
        ensures names { self.new.names.now ≡ self.old.names.now }
        ensures framed { IsFrameFrom routine.now actuals.now (i + 1) self.old.names.now self.new.slots.items }
        ensures shapes { (k : ℕ) (d : ASlot N) → slot_shape (slice_index_or self.new.slots.items k d) ≡ slot_shape (slice_index_or self.old.slots.items k d) }
        ensures many { length slots.new ≡ length slots.old }
        ensures others { (j : ℕ) (d : ASlot N) → (j ≡ i → ⊥) → slice_index_or slots.new j d ≡ slice_index_or slots.old j d }
        ensures handed { (a : AnActual N) (shape : Var → Shape) (s t : Store N) → ShowsHeld N.numbers self.old.names.now self.old.slots.items shape s
            → ((d : ASlot N) (j : ℕ) → i < length routine.now.unit.now.dummies → j < size_of (slot_shape (slice_index_or slots.old i d)) → t (var_at routine.now.names i) j ≡ slice_index_or (slice_index_or slots.old i d).cells.items j (zero_in N.numbers))
            → ((k j : ℕ) → is_written_at routine.now i ≡ false → IsLent routine.now actuals.now i k → t (var_at routine.now.names i) j ≡ s (var_at self.old.names.now k) j)
            → ShowsHeld N.numbers self.old.names.now self.new.slots.items shape (handed routine.now i (place_of self.old.names.now (slice_index_or actuals.now i a)) t s) }
    {
        let actual = actuals[i];
        match actual {
            Actual::Whole(k) => {
                if self.is_due(routine, actuals, i, k) {
                    let target = &mut self.slots[k];
                    target.take(&mut slots[i]);
                }
            }
            Actual::Cell(k, cell, _) => {
                if is_written(routine, i) {
                    let number = slots[i].first();
                    let target = &mut self.slots[k];
                    target.put(cell, number);
                }
            }
            Actual::Word(_) => {}
        }
    }

    /// Hands the dummies that are written back to their actuals, in order. A whole variable has as many cells as its dummy,
    /// and gets the dummy's in place of its own, which it may have lent.
    pub fn hand_back(&mut self, routine: &Routine<'_>, actuals: &[Actual<N>], slots: &mut [Slot<N>])
        requires framed { IsFrameFrom routine.now actuals.now 0 self.old.names.now self.old.slots.items }
        requires below { AreActualsWithin self.old.slots.items actuals.now }
        requires laid { IsLaidOut routine.now }
        requires inner { IsFrame routine.now.names slots.old }
        requires large { AreAsLarge (length routine.now.unit.now.dummies) (sizes_in self.old.slots.items) actuals.now (counts_in slots.old) }
        ensures names { self.new.names.now ≡ self.old.names.now }
        ensures framed { IsFrame self.old.names.now self.new.slots.items }
        ensures counts { counts_in self.new.slots.items ≡ sizes_in self.old.slots.items }
        ensures handed { (shape inside : Var → Shape) (s s0 t : Store N) → ShowsHeld N.numbers self.old.names.now self.old.slots.items shape s → Shows N.numbers routine.now.names slots.old inside t
            → AreRead routine.now actuals.now self.old.names.now t s
            → Shows N.numbers self.old.names.now self.new.slots.items shape (copied_out routine.now.unit.now.dummies routine.now.writes.now (actuals_in self.old.names.now shape s0 actuals.now) t s) }
    {
        for i in 0..actuals.len() {
            self.hand_next(routine, actuals, i, slots);
        }
    }
}
