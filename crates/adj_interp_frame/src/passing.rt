//! Calls that hand whole variables to a unit of scalars, as most calls of small units do: their numbers are copied into the slots of the unit's last call,
//! and copied back.

ghost use Rattle.std.specs.Prelude.{◌≡◌, ◌≤◌, ◌<◌, ◌∷◌, ℕ, [], length, slice_index_or, true};
ghost use Rattle.adj_tree.specs.Code.{Var};
ghost use Rattle.def_meaning.specs.Store.{scalar, Shape, Store};
ghost use Rattle.def_meaning.specs.Units.{copied_out};
ghost use Rattle.adj_interp_frame.specs.declared.slot.Slot.{Slot as ASlot};
ghost use Rattle.adj_interp_frame.specs.Prepared.{AreTermsBelow};
ghost use Rattle.adj_interp_frame.specs.Framed.{IsFrame, slot_shape};
ghost use Rattle.adj_interp_frame.specs.Shown.{Shows};
ghost use Rattle.adj_interp_frame.specs.Suited.{counts_in, AreAsLarge};
ghost use Rattle.adj_interp_frame.specs.Called.{actuals_in, IsLaidOut};
ghost use Rattle.adj_interp_frame.specs.Passed.{AreWhole, wholes, IsPassed, ArePassed};

use crate::actual::Actual;
use crate::frame::Frame;
use crate::routine::Routine;
use crate::slot::Slot;
use crate::term::{Term, Terms};
use adj_number::Number;

// Makes a slot that has one cell that of a scalar, which holds a number. Where it hasn't the result is false.
fn hold_scalar<N: Number>(slot: &mut Slot<N>, number: N) -> bool
    ensures shape { result ≡ true → slot_shape slot.new ≡ scalar }
    ensures cells { result ≡ true → slot.new.cells.items ≡ number ∷ [] }
{
    if slot.has_one_cell() {
        slot.hold(number);
        return true;
    }
    false
}

impl<'a, N: Number> Frame<'a, N> {
    // Puts into the slots of dummies what they get, where they are scalars and get whole variables.
    fn pass_dummies(&self, routine: &Routine<'_>, terms: &Terms, slots: &mut [Slot<N>]) -> bool
        requires framed { IsFrame self.now.names.now self.now.slots.items }
        requires below { AreTermsBelow (length self.now.slots.items) terms.now }
        requires laid { IsLaidOut routine.now }
        requires plain { routine.now.is_plain ≡ true }
        requires many { length slots.old ≡ length routine.now.names }
        ensures many { length slots.new ≡ length slots.old }
        ensures whole { result ≡ true → AreWhole terms.now }
        ensures passed { result ≡ true → (j : ℕ) (d : ASlot N) → j < length routine.now.unit.now.dummies → IsPassed N.numbers routine.now self.now.names.now self.now.slots.items (wholes terms.now) j (slice_index_or slots.new j d) }
    {
        let mut current = terms;
        for i in 0..routine.unit.dummies.as_slice().len() {
            let Terms::More(first, rest) = current else {
                return false;
            };
            let Term::Var(variable) = **first else {
                return false;
            };
            let number = self.first_of(Actual::Whole(variable));
            if !hold_scalar(&mut slots[i], number) {
                return false;
            }
            current = rest;
        }
        matches!(current, Terms::Empty)
    }

    // Puts 0 into the slots of the other variables, where they are scalars.
    fn pass_others(&self, routine: &Routine<'_>, terms: &Terms, slots: &mut [Slot<N>]) -> bool
        requires laid { IsLaidOut routine.now }
        requires plain { routine.now.is_plain ≡ true }
        requires many { length slots.old ≡ length routine.now.names }
        ensures many { length slots.new ≡ length slots.old }
        ensures dummies { (j : ℕ) (d : ASlot N) → j < length routine.now.unit.now.dummies → slice_index_or slots.new j d ≡ slice_index_or slots.old j d }
        ensures passed { result ≡ true → (j : ℕ) (d : ASlot N) → length routine.now.unit.now.dummies ≤ j → j < length slots.new → IsPassed N.numbers routine.now self.now.names.now self.now.slots.items (wholes terms.now) j (slice_index_or slots.new j d) }
    {
        let (_self, _terms) = (self, terms);
        for i in routine.unit.dummies.as_slice().len()..slots.len() {
            if !hold_scalar(&mut slots[i], N::of_word(0)) {
                return false;
            }
        }
        true
    }

    /// Makes the slots of a unit's last call those of its entry, where its variables are scalars that have their cells and its dummies get whole
    /// variables. Otherwise the result is false, and the slots hold anything.
    pub fn pass(&self, routine: &Routine<'_>, terms: &Terms, slots: &mut [Slot<N>]) -> bool
        requires framed { IsFrame self.now.names.now self.now.slots.items }
        requires below { AreTermsBelow (length self.now.slots.items) terms.now }
        requires laid { IsLaidOut routine.now }
        ensures passed { result ≡ true → ArePassed N.numbers routine.now self.now.names.now self.now.slots.items terms.now slots.new }
    {
        if !routine.is_plain {
            return false;
        }
        if slots.len() != routine.names.as_slice().len() {
            return false;
        }
        if !self.pass_dummies(routine, terms, slots) {
            return false;
        }
        self.pass_others(routine, terms, slots)
    }

    /// Copies the dummies that are written back to the whole variables that they got.
    pub fn take_back(&mut self, routine: &Routine<'_>, terms: &Terms, slots: &[Slot<N>])
        requires framed { IsFrame self.old.names.now self.old.slots.items }
        requires below { AreTermsBelow (length self.old.slots.items) terms.now }
        requires laid { IsLaidOut routine.now }
        requires whole { AreWhole terms.now }
        requires inner { IsFrame routine.now.names slots.now }
        requires ones { (j : ℕ) → j < length routine.now.unit.now.dummies → slice_index_or (counts_in slots.now) j 0 ≡ 1 }
        requires large { AreAsLarge (length routine.now.unit.now.dummies) (counts_in self.old.slots.items) (wholes {C = N} terms.now) (counts_in slots.now) }
        ensures names { self.new.names.now ≡ self.old.names.now }
        ensures framed { IsFrame self.old.names.now self.new.slots.items }
        ensures counts { counts_in self.new.slots.items ≡ counts_in self.old.slots.items }
        ensures handed { (shape inside : Var → Shape) (s s0 t : Store N) → Shows N.numbers self.old.names.now self.old.slots.items shape s → Shows N.numbers routine.now.names slots.now inside t
            → Shows N.numbers self.old.names.now self.new.slots.items shape (copied_out routine.now.unit.now.dummies routine.now.writes.now (actuals_in self.old.names.now shape s0 (wholes terms.now)) t s) }
    {
        let writes = routine.writes.as_slice();
        let mut current = terms;
        for i in 0..routine.unit.dummies.as_slice().len().min(writes.len()) {
            let Terms::More(first, rest) = current else {
                return;
            };
            if writes[i] {
                let Term::Var(variable) = **first else {
                    return;
                };
                self.set(variable, 0, slots[i].first());
            }
            current = rest;
        }
    }
}
