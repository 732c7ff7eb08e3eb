//! Variables that are lent to dummies: while a unit runs, a dummy has the cells of its actual, and nothing is copied.

ghost use Rattle.std.specs.Prelude.{◌≡◌, ◌<◌, ◌⊎◌, ℕ, Some, IfOk, IfSome, length, slice_get, slice_index_or, true, false, [], Err};
ghost use Rattle.adj_interp_frame.specs.declared.actual.Actual.TheVariants as actual;
ghost use Rattle.adj_interp_frame.specs.declared.entry.Unfit.TheVariants as unfit;
ghost use Rattle.adj_interp_frame.specs.declared.layout.Area.TheVariants as extents;
ghost use Rattle.adj_interp_frame.specs.declared.routine.Routine.{Routine as ARoutine};
ghost use Rattle.adj_interp_frame.specs.declared.slot.Slot.{Slot as ASlot};
ghost use Rattle.adj_interp_frame.specs.Framed.{IsFrame, slot_shape};
ghost use Rattle.adj_interp_frame.specs.Called.{words_in, AreActualsBelow};
ghost use Rattle.def_meaning.specs.Units.{shape_fits};
ghost use Rattle.adj_interp_frame.specs.Lent.{IsPlaceIn, IsFirst, IsLent, AreLent, IsFilled, AreFilled, HaveCells, HaveLent};

use crate::actual::Actual;
use crate::entry::Unfit;
use crate::frame::Frame;
use crate::layout::Area;
use crate::routine::Routine;
use crate::slot::Slot;
use adj_number::Number;
use std::alloc::Global;

// How many dummies may have the cells of their actuals. Each looks at the actuals before it, so that a call stays linear.
const MOST_LENT: usize = 64;

// Whether an actual before the one of a number is the variable or one of its cells.
fn is_named_before<N: Number>(actuals: &[Actual<N>], i: usize, variable: usize) -> bool
    requires there { i < length actuals.now }
    ensures first { result ≡ false → IsFirst actuals.now i variable }
{
    for j in 0..i {
        if is_place_in(actuals[j], variable) {
            return true;
        }
    }
    false
}

// Whether an actual is the variable of a number or one of its cells.
fn is_place_in<N: Number>(actual: Actual<N>, variable: usize) -> bool
    ensures none { result ≡ false → IsPlaceIn actual variable → ⊥ }
{
    match actual {
        Actual::Whole(i) | Actual::Cell(i, _, _) => i == variable,
        Actual::Word(_) => false,
    }
}

impl<'a, N: Number> Frame<'a, N> {
    /// The whole variable that lends its cells to a dummy array with these extents: one which no actual before it names. A dummy scalar gets a copy of
    /// its actual's cell.
    pub(crate) fn lender(
        &self,
        routine: &Routine<'_>,
        actuals: &[Actual<N>],
        i: usize,
        area: Area,
    ) -> Option<usize>
        requires below { AreActualsBelow self.now.slots.items actuals.now }
        ensures lent { IfSome result (λ k. IsLent routine.now actuals.now i k) }
        ensures array { IfSome result (λ k. area ≡ extents.Scalar → ⊥) }
    {
        if let Area::Scalar = area {
            return None;
        }
        if i >= MOST_LENT || i >= routine.unit.dummies.as_slice().len() || i >= actuals.len() {
            return None;
        }
        let Actual::Whole(variable) = actuals[i] else {
            return None;
        };
        if is_named_before(actuals, i, variable) {
            return None;
        }
        Some(variable)
    }

    /// The slot of a dummy with these extents that gets the cells of a variable: it has none yet.
    pub(crate) fn borrower(
        &self,
        alloc: Global,
        variable: usize,
        area: Area,
    ) -> Result<Slot<N>, Unfit>
        requires framed { IsFrame self.now.names.now self.now.slots.items }
        requires there { variable < length self.now.slots.items }
        ensures shape { IfOk result (λ v. (d : ASlot N) → slot_shape v ≡ slot_shape (slice_index_or self.now.slots.items variable d)) }
        ensures empty { IfOk result (λ v. v.cells.items ≡ []) }
        ensures fits { IfOk result (λ v. shape_fits (words_in area) (slot_shape v) ≡ true) }
        ensures unfit { result ≡ Err unfit.Shape → (d : ASlot N) → shape_fits (words_in area) (slot_shape (slice_index_or self.now.slots.items variable d)) ≡ false }
    {
        let own = &self.slots[variable];
        if !area.fits(own) {
            return Err(Unfit::Shape);
        }
        Ok(Slot {
            rows: own.rows,
            cols: own.cols,
            cells: Vec::new(alloc),
        })
    }

    // Lends to the dummy of a number, where it has no cells.
    fn lend_next(&mut self, actuals: &[Actual<N>], i: usize, slots: &mut [Slot<N>])
        requires below { (k : ℕ) → slice_get actuals.now i ≡ Some (actual.Whole k) → k < length self.old.slots.items }
        requires there { i < length slots.old }
        ensures names { self.new.names.now ≡ self.old.names.now }
        ensures count { length self.new.slots.items ≡ length self.old.slots.items }
        ensures shapes { (k : ℕ) (d : ASlot N) → slot_shape (slice_index_or self.new.slots.items k d) ≡ slot_shape (slice_index_or self.old.slots.items k d) }
        ensures kept { (k : ℕ) (d : ASlot N) → ((slice_index_or self.new.slots.items k d).cells.items ≡ [] → ⊥) → slice_index_or self.new.slots.items k d ≡ slice_index_or self.old.slots.items k d }
        ensures come { (k : ℕ) (d : ASlot N) → (slice_index_or self.new.slots.items k d).cells.items ≡ []
            → ((slice_index_or self.old.slots.items k d).cells.items ≡ []) ⊎ (((e : ASlot N) → (slice_index_or slots.old i e).cells.items ≡ []) × (slice_get actuals.now i ≡ Some (actual.Whole k))) }
        ensures many { length slots.new ≡ length slots.old }
        ensures others { (j : ℕ) (d : ASlot N) → (j ≡ i → ⊥) → slice_index_or slots.new j d ≡ slice_index_or slots.old j d }
        ensures filled { (d e : ASlot N) → IsFilled self.old.slots.items actuals.now i (slice_index_or slots.old i d) (slice_index_or slots.new i e) }
    {
        if i >= actuals.len() || !slots[i].is_empty() {
            return;
        }
        if let Actual::Whole(variable) = actuals[i] {
            let own = &mut self.slots[variable];
            own.take(&mut slots[i]);
        }
    }

    /// Lends: each slot of an entry that has no cells gets those of the whole variable that is its actual, which has none then.
    pub fn lend(&mut self, actuals: &[Actual<N>], slots: &mut [Slot<N>])
        requires framed { IsFrame self.old.names.now self.old.slots.items }
        requires below { AreActualsBelow self.old.slots.items actuals.now }
        ensures names { self.new.names.now ≡ self.old.names.now }
        ensures filled { (r : ARoutine) → AreLent r actuals.now slots.old → AreFilled self.old.slots.items actuals.now slots.old slots.new }
        ensures lent { (r : ARoutine) → AreLent r actuals.now slots.old → HaveLent r actuals.now self.old.slots.items self.new.slots.items }
    {
        for i in 0..slots.len() {
            self.lend_next(actuals, i, slots);
        }
    }

    /// Lends to an entry, unless it is known that none of its slots is without cells: then there is nothing to lend.
    pub fn fill(&mut self, actuals: &[Actual<N>], slots: &mut [Slot<N>], is_full: bool)
        requires framed { IsFrame self.old.names.now self.old.slots.items }
        requires below { AreActualsBelow self.old.slots.items actuals.now }
        requires full { is_full ≡ true → HaveCells slots.old }
        ensures names { self.new.names.now ≡ self.old.names.now }
        ensures filled { (r : ARoutine) → AreLent r actuals.now slots.old → AreFilled self.old.slots.items actuals.now slots.old slots.new }
        ensures lent { (r : ARoutine) → AreLent r actuals.now slots.old → HaveLent r actuals.now self.old.slots.items self.new.slots.items }
    {
        if is_full {
            return;
        }
        self.lend(actuals, slots);
    }
}
