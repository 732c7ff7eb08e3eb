//! The entry of a unit that is called: its slots.

ghost use Rattle.std.specs.Prelude.{◌≡◌, ◌<◌, ◌+◌, ℕ, List, [], IfOk, OnOk, length, slice_index_or, true, false};
ghost use Rattle.adj_tree.specs.Code.{Var};
ghost use Rattle.adj_tree.specs.View.{procedure_of};
ghost use Rattle.def_meaning.specs.Store.{Shape, size_of, Store};
ghost use Rattle.def_meaning.specs.Units.{extent_in, extents_of, shape_of};
ghost use Rattle.adj_interp_frame.specs.declared.entry.Unfit.TheVariants as unfit;
ghost use Rattle.adj_interp_frame.specs.declared.slot.Slot.{Slot as ASlot};
ghost use Rattle.adj_interp_frame.specs.Prepared.{var_at};
ghost use Rattle.adj_interp_frame.specs.Framed.{IsSlot, IsFrame, slot_shape, zero_in};
ghost use Rattle.adj_interp_frame.specs.Shown.{Shows};
ghost use Rattle.adj_interp_frame.specs.Called.{actual_in, actuals_in, given_at, IsActualBelow, AreActualsBelow, extent_at, IsBoundBelow, words_in, IsLaidOut, entered_with, shapes_with, IsEntered, is_fit, fit_from};
ghost use Rattle.adj_interp_frame.specs.Lent.{HasLender, AreLent, IsFilled, AreFilled, HaveCells};

use crate::actual::Actual;
use crate::frame::Frame;
use crate::layout::{Area, Bound, Layout};
use crate::routine::Routine;
use crate::slot::Slot;
use adj_number::Number;
use adj_tree::Memory;
use std::alloc::{AllocError, AllocFailed, Global};

/// Why a unit can't be entered: a dummy array doesn't fit its actual, or memory ran out.
#[derive(Clone, Copy, Debug, PartialEq, Eq)]
pub enum Unfit {
    Shape,
    Memory,
}

impl From<AllocError> for Unfit {
    ghost from_gives = { λ _ e. e ≡ unfit.Memory };

    fn from(_error: AllocError) -> Unfit {
        Unfit::Memory
    }
}

impl<T: Drop> From<AllocFailed<T>> for Unfit {
    ghost from_gives = { λ _ e. e ≡ unfit.Memory };

    fn from(_error: AllocFailed<T>) -> Unfit {
        Unfit::Memory
    }
}

impl From<Memory> for Unfit {
    ghost from_gives = { λ _ e. e ≡ unfit.Memory };

    fn from(_error: Memory) -> Unfit {
        Unfit::Memory
    }
}

// The actual of a variable, where it is a dummy that gets one.
fn given<N: Number>(routine: &Routine<'_>, actuals: &[Actual<N>], i: usize) -> Option<Actual<N>>
    ensures { result ≡ given_at (length routine.now.unit.now.dummies) actuals.now i }
{
    if i < routine.unit.dummies.as_slice().len() {
        actuals.get(i).copied()
    } else {
        None
    }
}

// So many slots without cells.
fn blanks<N: Number>(alloc: Global, count: usize) -> Result<Vec<Slot<N>>, Memory>
    ensures { IfOk result (λ v. length v.items ≡ count) }
{
    let mut slots = Vec::with_capacity(alloc, count)?;
    for _i in 0..count {
        slots.push(Slot::blank(alloc))?;
    }
    Ok(slots)
}

impl<'a, N: Number> Frame<'a, N> {
    // The first number of a variable at the entry: that of its actual, and 0 where it has none.
    fn entry_word(&self, routine: &Routine<'_>, actuals: &[Actual<N>], i: usize) -> N
        requires framed { IsFrame self.now.names.now self.now.slots.items }
        requires below { AreActualsBelow self.now.slots.items actuals.now }
        requires laid { IsLaidOut routine.now }
        requires there { i < length routine.now.names }
        ensures { (shape : Var → Shape) (s : Store N) → Shows N.numbers self.now.names.now self.now.slots.items shape s
            → result ≡ entered_with N.numbers routine.now (actuals_in self.now.names.now shape s actuals.now) (var_at routine.now.names i) 0 }
    {
        match given(routine, actuals, i) {
            Some(actual) => self.first_of(actual),
            None => N::of_word(0),
        }
    }

    // An extent at the entry.
    fn extent(&self, routine: &Routine<'_>, actuals: &[Actual<N>], bound: Bound) -> i64
        requires framed { IsFrame self.now.names.now self.now.slots.items }
        requires below { AreActualsBelow self.now.slots.items actuals.now }
        requires laid { IsLaidOut routine.now }
        requires bound { IsBoundBelow (length routine.now.names) bound }
        ensures { (shape : Var → Shape) (s : Store N) → Shows N.numbers self.now.names.now self.now.slots.items shape s
            → result ≡ extent_in N.numbers (entered_with N.numbers routine.now (actuals_in self.now.names.now shape s actuals.now)) (extent_at routine.now.names bound) }
    {
        match bound {
            Bound::Fixed(word) => word,
            Bound::Given(i) => self.entry_word(routine, actuals, i).word(),
        }
    }

    // The extents of a variable at the entry.
    fn area(&self, routine: &Routine<'_>, actuals: &[Actual<N>], i: usize) -> Area
        requires framed { IsFrame self.now.names.now self.now.slots.items }
        requires below { AreActualsBelow self.now.slots.items actuals.now }
        requires laid { IsLaidOut routine.now }
        requires there { i < length routine.now.names }
        ensures { (shape : Var → Shape) (s : Store N) → Shows N.numbers self.now.names.now self.now.slots.items shape s
            → words_in result ≡ extents_of N.numbers (procedure_of routine.now.unit.now) (entered_with N.numbers routine.now (actuals_in self.now.names.now shape s actuals.now)) (var_at routine.now.names i) }
    {
        match routine.layouts[i] {
            Layout::Scalar => Area::Scalar,
            Layout::List(rows) => Area::List(self.extent(routine, actuals, rows)),
            Layout::Table(rows, cols) => {
                let first = self.extent(routine, actuals, rows);
                Area::Table(first, self.extent(routine, actuals, cols))
            }
        }
    }

    // The slot of a dummy with these extents that gets an actual.
    fn dummy(&self, alloc: Global, actual: Actual<N>, area: Area) -> Result<Slot<N>, Unfit>
        requires framed { IsFrame self.now.names.now self.now.slots.items }
        requires below { IsActualBelow self.now.slots.items actual }
        ensures sized { IfOk result (λ v. IsSlot v) }
        ensures shape { IfOk result (λ v. slot_shape v ≡ shape_of (words_in area)) }
        ensures cells { IfOk result (λ v. (shape : Var → Shape) (s : Store N) → Shows N.numbers self.now.names.now self.now.slots.items shape s
            → (j : ℕ) → j < size_of (slot_shape v) → (actual_in self.now.names.now shape s actual).cells j ≡ slice_index_or v.cells.items j (zero_in N.numbers)) }
        ensures fits { IfOk result (λ v. (shape : Var → Shape) (s : Store N) → Shows N.numbers self.now.names.now self.now.slots.items shape s
            → is_fit (words_in area) (actual_in self.now.names.now shape s actual).shape ≡ true) }
        ensures unfit { result ≡ Err unfit.Shape → (shape : Var → Shape) (s : Store N) → Shows N.numbers self.now.names.now self.now.slots.items shape s
            → is_fit (words_in area) (actual_in self.now.names.now shape s actual).shape ≡ false }
    {
        if let Area::Scalar = area {
            let mut cells = Vec::with_capacity(alloc, 1)?;
            cells.push(self.first_of(actual))?;
            return Ok(Slot {
                rows: 0,
                cols: 0,
                cells,
            });
        }
        let Actual::Whole(i) = actual else {
            return Err(Unfit::Shape);
        };
        if !area.fits(&self.slots[i]) {
            return Err(Unfit::Shape);
        }
        Ok(self.slots[i].copy(alloc)?)
    }

    // The slot of a variable at the entry, before it gets the cells that are lent to it.
    fn entry_slot(
        &self,
        alloc: Global,
        routine: &Routine<'_>,
        actuals: &[Actual<N>],
        i: usize,
    ) -> Result<Slot<N>, Unfit>
        requires framed { IsFrame self.now.names.now self.now.slots.items }
        requires below { AreActualsBelow self.now.slots.items actuals.now }
        requires laid { IsLaidOut routine.now }
        requires there { i < length routine.now.names }
        ensures lent { IfOk result (λ v. v.cells.items ≡ [] → HasLender routine.now actuals.now i) }
        ensures sized { IfOk result (λ v. (u : ASlot N) → IsFilled self.now.slots.items actuals.now i v u → IsSlot u) }
        ensures entered { IfOk result (λ v. (u : ASlot N) → IsFilled self.now.slots.items actuals.now i v u → (shape : Var → Shape) (s : Store N) → Shows N.numbers self.now.names.now self.now.slots.items shape s
            → IsEntered N.numbers routine.now (actuals_in self.now.names.now shape s actuals.now) i u) }
        ensures fits { IfOk result (λ v. (shape : Var → Shape) (s : Store N) → Shows N.numbers self.now.names.now self.now.slots.items shape s
            → fit_from N.numbers routine.now (actuals_in self.now.names.now shape s actuals.now) i ≡ fit_from N.numbers routine.now (actuals_in self.now.names.now shape s actuals.now) (i + 1)) }
        ensures unfit { result ≡ Err unfit.Shape → (shape : Var → Shape) (s : Store N) → Shows N.numbers self.now.names.now self.now.slots.items shape s
            → fit_from N.numbers routine.now (actuals_in self.now.names.now shape s actuals.now) i ≡ false }
    {
        let area = self.area(routine, actuals, i);
        if let Some(variable) = self.lender(routine, actuals, i, area) {
            let borrowed = self.borrower(alloc, variable, area)?;
            return Ok(borrowed);
        }
        match given(routine, actuals, i) {
            Some(actual) => {
                let slot = self.dummy(alloc, actual, area)?;
                Ok(slot)
            }
            None => Ok(area.zeros(alloc)?),
        }
    }

    // Makes the slot of a variable as it is at the entry, before it gets the cells that are lent to it. A scalar's slot that has its cell keeps it; the
    // result says whether it did.
    fn renew(
        &self,
        alloc: Global,
        routine: &Routine<'_>,
        actuals: &[Actual<N>],
        i: usize,
        slot: &mut Slot<N>,
    ) -> Result<bool, Unfit>
        requires framed { IsFrame self.now.names.now self.now.slots.items }
        requires below { AreActualsBelow self.now.slots.items actuals.now }
        requires laid { IsLaidOut routine.now }
        requires there { i < length routine.now.names }
        ensures cells { IfOk result (λ kept. kept ≡ true → slot.new.cells.items ≡ [] → ⊥) }
        ensures lent { OnOk result (slot.new.cells.items ≡ [] → HasLender routine.now actuals.now i) }
        ensures sized { OnOk result ((u : ASlot N) → IsFilled self.now.slots.items actuals.now i slot.new u → IsSlot u) }
        ensures entered { OnOk result ((u : ASlot N) → IsFilled self.now.slots.items actuals.now i slot.new u → (shape : Var → Shape) (s : Store N) → Shows N.numbers self.now.names.now self.now.slots.items shape s
            → IsEntered N.numbers routine.now (actuals_in self.now.names.now shape s actuals.now) i u) }
        ensures fits { OnOk result ((shape : Var → Shape) (s : Store N) → Shows N.numbers self.now.names.now self.now.slots.items shape s
            → fit_from N.numbers routine.now (actuals_in self.now.names.now shape s actuals.now) i ≡ fit_from N.numbers routine.now (actuals_in self.now.names.now shape s actuals.now) (i + 1)) }
        ensures unfit { result ≡ Err unfit.Shape → (shape : Var → Shape) (s : Store N) → Shows N.numbers self.now.names.now self.now.slots.items shape s
            → fit_from N.numbers routine.now (actuals_in self.now.names.now shape s actuals.now) i ≡ false }
    {
        if let (Layout::Scalar, true) = (routine.layouts[i], slot.has_one_cell()) {
            slot.hold(self.entry_word(routine, actuals, i));
            return Ok(true);
        }
        *slot = self.entry_slot(alloc, routine, actuals, i)?;
        Ok(false)
    }

    /// The slots at the entry of a unit that gets actuals: each dummy array must fit its actual. A slot to which cells are lent has none yet.
    /// A list is given for its room, as that of the last call of the unit, and loses what it has: its scalars keep their cells, so that they cost no more.
    /// Where all slots are such scalars the result says true: then none is without cells.
    pub fn entry(
        &self,
        alloc: Global,
        routine: &Routine<'_>,
        actuals: &[Actual<N>],
        mut slots: Vec<Slot<N>>,
    ) -> Result<(Vec<Slot<N>>, bool), Unfit>
        requires framed { IsFrame self.now.names.now self.now.slots.items }
        requires below { AreActualsBelow self.now.slots.items actuals.now }
        requires laid { IsLaidOut routine.now }
        ensures full { IfOk result (λ v. v.1 ≡ true → HaveCells v.0.items) }
        ensures lent { IfOk result (λ v. AreLent routine.now actuals.now v.0.items) }
        ensures framed { IfOk result (λ v. (us : List (ASlot N)) → AreFilled self.now.slots.items actuals.now v.0.items us → IsFrame routine.now.names us) }
        ensures shown { IfOk result (λ v. (us : List (ASlot N)) → AreFilled self.now.slots.items actuals.now v.0.items us → (shape : Var → Shape) (s : Store N) → Shows N.numbers self.now.names.now self.now.slots.items shape s
            → Shows N.numbers routine.now.names us (shapes_with N.numbers routine.now (actuals_in self.now.names.now shape s actuals.now)) (entered_with N.numbers routine.now (actuals_in self.now.names.now shape s actuals.now))) }
        ensures fits { IfOk result (λ v. (shape : Var → Shape) (s : Store N) → Shows N.numbers self.now.names.now self.now.slots.items shape s
            → fit_from N.numbers routine.now (actuals_in self.now.names.now shape s actuals.now) 0 ≡ true) }
        ensures unfit { result ≡ Err unfit.Shape → (shape : Var → Shape) (s : Store N) → Shows N.numbers self.now.names.now self.now.slots.items shape s
            → fit_from N.numbers routine.now (actuals_in self.now.names.now shape s actuals.now) 0 ≡ false }
    {
        let count = routine.names.as_slice().len();
        if slots.len() != count {
            slots = blanks(alloc, count)?;
        }
        let mut is_full = true;
        for i in 0..count {
            if !self.renew(alloc, routine, actuals, i, &mut slots[i])? {
                is_full = false;
            }
        }
        Ok((slots, is_full))
    }
}
