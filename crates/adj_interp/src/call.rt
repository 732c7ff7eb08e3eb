//! What a call does before the unit that is called runs, and after. (docs/RUNNING.md, "Calls")

ghost use Rattle.std.specs.Prelude.{◌≡◌, ◌≤◌, ◌<◌, ◌==◌, ◌∷◌, ◌++◌, [], take, List, ℕ, suc, Option, None, IfOk, IfErr, OnOk, OnErr, length, slice_index_or, true, false};
ghost use Rattle.adj_tree.specs.Code.{Var};
ghost use Rattle.def_meaning.specs.Event.{Enter};
ghost use Rattle.def_meaning.specs.Scene.{Scene};
ghost use Rattle.def_meaning.specs.Store.{Shape, Store};
ghost use Rattle.def_meaning.specs.Units.{actual_of, actuals, copied_out};
ghost use Rattle.adj_interp_frame.specs.declared.slot.Slot.{Slot};
ghost use Rattle.adj_interp_frame.specs.declared.routine.Routine.{Routine as ARoutine};
ghost use Rattle.adj_interp_frame.specs.Prepared.{term_in, terms_in, IsTermBelow, AreTermsBelow};
ghost use Rattle.adj_interp_frame.specs.Framed.{IsFrame};
ghost use Rattle.adj_interp_frame.specs.Shown.{on_numbers, Shows};
ghost use Rattle.adj_interp_frame.specs.Suited.{counts_in, AreAsLarge};
ghost use Rattle.adj_interp_frame.specs.Called.{actual_in, actuals_in, IsActualBelow, AreActualsBelow, IsLaidOut, entered_with, shapes_with, fit_from};
ghost use Rattle.adj_interp_frame.specs.Passed.{AreWhole, wholes};
ghost use Rattle.adj_interp_frame.specs.Lent.{AreLent, AreFilled, HaveCells, HaveLent, IsFrameFrom, ShowsHeld, AreRead, sizes_in, AreActualsWithin};
ghost use Rattle.adj_interp.specs.declared.stop.Stop.TheVariants as stop;
ghost use Rattle.adj_interp.specs.Tallied.{with_event};
ghost use Rattle.adj_interp.specs.Held.{Entry, Holds};
ghost use Rattle.adj_interp.specs.Entered.{Gets, IsMisfit, inside};

use crate::machine::Machine;
use crate::stop::Stop;
use adj_interp_frame::{Actual, Frame, Routine, Slot, Term, Terms, Unfit};
use adj_number::Number;
use adj_tree::{Memory, Trap};
use std::mem;

/// What a caller has in hand while a unit runs that it called.
#[derive(Drop)]
pub(crate) struct Outer<'a, N: Number> {
    pub frame: Frame<'a, N>,
    pub base: usize,
    pub level: u64,
}

// Puts an actual behind the first ones of a list, in place of what stands there; gives how many there are then.
fn put_next<N: Number>(
    list: &mut Vec<Actual<N>>,
    count: usize,
    actual: Actual<N>,
) -> Result<usize, Memory>
    requires within { count ≤ length list.old.items }
    ensures within { IfOk result (λ n. n ≤ length list.new.items) }
    ensures items { IfOk result (λ n. take n list.new.items ≡ take count list.old.items ++ (actual ∷ [])) }
{
    if count < list.len() {
        list[count] = actual;
        return Ok(count + 1);
    }
    list.push(actual)?;
    Ok(list.len())
}

// The first ones of a list. Most lists have no others.
fn first_ones<N: Number>(mut list: Vec<Actual<N>>, count: usize) -> Vec<Actual<N>>
    ensures { result.items ≡ take count list.items }
{
    if list.len() <= count {
        return list;
    }
    list.truncate(count);
    list
}

impl<'a, N: Number> Machine<'a, N> {
    /// The actuals of a call, from left to right. They take the places of those of the call before, so that most calls ask for no room and clear none.
    pub(crate) fn actuals(&self, terms: &Terms, line: u32) -> Result<Vec<Actual<N>>, Stop>
        requires framed { IsFrame self.now.frame.names.now self.now.frame.slots.items }
        requires below { AreTermsBelow (length self.now.frame.names.now) terms.now }
        ensures actuals { (shape : Var → Shape) (room : Option ℕ) (level : ℕ) (s : Store N) → Shows N.numbers self.now.frame.names.now self.now.frame.slots.items shape s
            → Gets (λ v. actuals_in self.now.frame.names.now shape s v.items) line (actuals (on_numbers N.numbers shape room level) (terms_in self.now.frame.names.now terms.now) s) result }
        ensures below { IfOk result (λ v. AreActualsBelow self.now.frame.slots.items v.items) }
    {
        let mut list = self.spare_actuals.take(self.alloc);
        let mut count = 0;
        let mut current = terms;
        while let Terms::More(first, rest) = current {
            let actual = self.actual(first, line)?;
            count = put_next(&mut list, count, actual)?;
            current = rest;
        }
        Ok(first_ones(list, count))
    }

    // An actual.
    fn actual(&self, term: &Term, line: u32) -> Result<Actual<N>, Stop>
        requires framed { IsFrame self.now.frame.names.now self.now.frame.slots.items }
        requires below { IsTermBelow (length self.now.frame.names.now) term.now }
        ensures actual { (shape : Var → Shape) (room : Option ℕ) (level : ℕ) (s : Store N) → Shows N.numbers self.now.frame.names.now self.now.frame.slots.items shape s
            → Gets (actual_in self.now.frame.names.now shape s) line (actual_of (on_numbers N.numbers shape room level) (term_in self.now.frame.names.now term.now) s) result }
        ensures below { IfOk result (λ a. IsActualBelow self.now.frame.slots.items a) }
    {
        match self.frame.actual(term) {
            Ok(actual) => Ok(actual),
            Err(trap) => Err(Stop::Trap(trap, line)),
        }
    }

    /// The slots that the last call of the unit of a number left, if there are any.
    pub(crate) fn kept_slots(&self, number: usize) -> Vec<Slot<N>> {
        match self.spare_slots.get(number) {
            Some(spare) => spare.take(self.alloc),
            None => Vec::new(self.alloc),
        }
    }

    // Keeps the slots of a call of the unit of a number.
    #[inline(always)]
    fn keep_slots(&self, number: usize, slots: Vec<Slot<N>>) {
        if let Some(spare) = self.spare_slots.get(number) {
            spare.keep(slots);
        }
    }

    // Lets the cells of arrays go.
    fn release(&self, slots: &mut [Slot<N>]) {
        for i in 0..slots.len() {
            slots[i].release(self.alloc);
        }
    }

    /// The entry of a unit that gets actuals, in a list that is given for its room. A slot to which cells are lent has none yet.
    /// Where all slots are scalars that kept their cells the result says true: then none is without cells.
    pub(crate) fn entry(
        &self,
        routine: &'a Routine<'a>,
        actuals: &[Actual<N>],
        room: Vec<Slot<N>>,
        line: u32,
    ) -> Result<(Frame<'a, N>, bool), Stop>
        requires framed { IsFrame self.now.frame.names.now self.now.frame.slots.items }
        requires below { AreActualsBelow self.now.frame.slots.items actuals.now }
        requires laid { IsLaidOut routine.now }
        ensures names { IfOk result (λ v. v.0.names.now ≡ routine.now.names) }
        ensures full { IfOk result (λ v. v.1 ≡ true → HaveCells v.0.slots.items) }
        ensures lent { IfOk result (λ v. AreLent routine.now actuals.now v.0.slots.items) }
        ensures framed { IfOk result (λ v. (us : List (Slot N)) → AreFilled self.now.frame.slots.items actuals.now v.0.slots.items us → IsFrame routine.now.names us) }
        ensures fits { IfOk result (λ v. (shape : Var → Shape) (s : Store N) → Shows N.numbers self.now.frame.names.now self.now.frame.slots.items shape s
            → fit_from N.numbers routine.now (actuals_in self.now.frame.names.now shape s actuals.now) 0 ≡ true) }
        ensures shown { IfOk result (λ v. (us : List (Slot N)) → AreFilled self.now.frame.slots.items actuals.now v.0.slots.items us → (shape : Var → Shape) (s : Store N) → Shows N.numbers self.now.frame.names.now self.now.frame.slots.items shape s
            → Shows N.numbers routine.now.names us (shapes_with N.numbers routine.now (actuals_in self.now.frame.names.now shape s actuals.now)) (entered_with N.numbers routine.now (actuals_in self.now.frame.names.now shape s actuals.now))) }
        ensures misfit { IfErr result (λ x. IsMisfit x line ((shape : Var → Shape) (s : Store N) → Shows N.numbers self.now.frame.names.now self.now.frame.slots.items shape s
            → fit_from N.numbers routine.now (actuals_in self.now.frame.names.now shape s actuals.now) 0 ≡ false)) }
    {
        match self.frame.entry(self.alloc, routine, actuals, room) {
            Ok((slots, is_full)) => Ok((
                Frame {
                    names: &routine.names,
                    slots,
                },
                is_full,
            )),
            Err(Unfit::Shape) => Err(Stop::Trap(Trap::Shape, line)),
            Err(Unfit::Memory) => Err(Stop::Memory),
        }
    }

    /// Counts the entry of a unit that is called; gives its level.
    #[inline(always)]
    pub(crate) fn count_entry(&mut self) -> Result<u64, Stop>
        ensures memory { IfErr result (λ x. x ≡ stop.Memory) }
        ensures same { self.new ≡ record self.old { tally = self.new.tally } }
        ensures level { IfOk result (λ level. level ≡ suc self.old.level) }
        ensures told { OnOk result ((name : List ℕ) (shapes : List Shape) → self.new.tally ≡ with_event self.old.tally (Enter name (suc self.old.level) (length self.old.tape.words) shapes)) }
    {
        let Some(level) = self.level.checked_add(1) else {
            return Err(Stop::Memory);
        };
        let height = self.tape.len();
        self.tally.enter(level, height)?;
        Ok(level)
    }

    /// Goes into a unit whose entry was counted, with its slots; gives what the caller has in hand.
    #[inline(always)]
    pub(crate) fn step_in(&mut self, frame: Frame<'a, N>, level: u64) -> Outer<'a, N>
        ensures outer { result ≡ record { frame = self.old.frame; base = self.old.base; level = self.old.level } }
        ensures into { self.new ≡ record self.old { frame = frame.entry; base = length self.old.tally.begun; level = level } }
    {
        let open = self.tally.open();
        Outer {
            frame: mem::replace(&mut self.frame, frame),
            base: mem::replace(&mut self.base, open),
            level: mem::replace(&mut self.level, level),
        }
    }

    /// Goes into a unit that is called, and lends it the cells that its entry is to have, unless it is known to have all; gives what the caller has in hand.
    pub(crate) fn enter(
        &mut self,
        frame: Frame<'a, N>,
        actuals: &[Actual<N>],
        is_full: bool,
    ) -> Result<Outer<'a, N>, Stop>
        requires framed { IsFrame self.old.frame.names.now self.old.frame.slots.items }
        requires below { AreActualsBelow self.old.frame.slots.items actuals.now }
        requires full { is_full ≡ true → HaveCells frame.slots.items }
        ensures memory { IfErr result (λ x. x ≡ stop.Memory) }
        ensures kept { OnErr result (self.new.frame ≡ self.old.frame) }
        ensures names { OnOk result (self.new.frame.names.now ≡ frame.entry.names.now) }
        ensures filled { OnOk result ((r : ARoutine) → AreLent r actuals.now frame.entry.slots.items → AreFilled self.old.frame.slots.items actuals.now frame.entry.slots.items self.new.frame.slots.items) }
        ensures left { OnOk result (self.new.left ≡ self.old.left) }
        ensures outer { IfOk result (λ o. o ≡ record { frame = o.frame; base = self.old.base; level = self.old.level }) }
        ensures caller { IfOk result (λ o. o.frame.names.now ≡ self.old.frame.names.now) }
        ensures lent { IfOk result (λ o. (r : ARoutine) → AreLent r actuals.now frame.entry.slots.items → HaveLent r actuals.now self.old.frame.slots.items o.frame.slots.items) }
        ensures room { self.new.tape.room ≡ self.old.tape.room }
        ensures holds { OnOk result ((e : Entry N.numbers) (s : Scene N) (shape : Var → Shape) (t : Store N) (name : List ℕ) (shapes : List Shape) → Holds e self.old s → Shows N.numbers self.new.frame.names.now self.new.frame.slots.items shape t
            → Holds (inside e shape (length self.old.tally.begun)) self.new (record { store = t; tape = s.tape; opened = 0; events = Enter name (suc e.level) (length s.tape) shapes ∷ s.events })) }
    {
        let level = self.count_entry()?;
        let mut outer = self.step_in(frame, level);
        outer
            .frame
            .fill(actuals, self.frame.slots.as_mut_slice(), is_full);
        Ok(outer)
    }

    /// Goes back to the caller; gives the entry of the unit that was called, and whether none of its reversals is open.
    pub(crate) fn leave(&mut self, outer: Outer<'a, N>) -> (Frame<'a, N>, bool)
        ensures frame { result.0 ≡ self.old.frame }
        ensures closed { result.1 ≡ (length self.old.tally.begun == self.old.base) }
        ensures back { self.new ≡ record self.old { frame = outer.entry.frame; base = outer.entry.base; level = outer.entry.level } }
    {
        let is_closed = self.tally.open() == self.base;
        self.base = outer.base;
        self.level = outer.level;
        (mem::replace(&mut self.frame, outer.frame), is_closed)
    }

    /// Hands the dummies that are written back to their actuals, and lent cells to theirs. A whole variable has as many cells as its dummy.
    pub(crate) fn hand_back(
        &mut self,
        routine: &Routine<'a>,
        actuals: &[Actual<N>],
        number: usize,
        mut inner: Frame<'a, N>,
        is_full: bool,
    )
        requires framed { IsFrameFrom routine.now actuals.now 0 self.old.frame.names.now self.old.frame.slots.items }
        requires below { AreActualsWithin self.old.frame.slots.items actuals.now }
        requires laid { IsLaidOut routine.now }
        requires inner { IsFrame routine.now.names inner.slots.items }
        requires large { AreAsLarge (length routine.now.unit.now.dummies) (sizes_in self.old.frame.slots.items) actuals.now (counts_in inner.slots.items) }
        ensures names { self.new.frame.names.now ≡ self.old.frame.names.now }
        ensures framed { IsFrame self.old.frame.names.now self.new.frame.slots.items }
        ensures counts { counts_in self.new.frame.slots.items ≡ sizes_in self.old.frame.slots.items }
        ensures left { self.new.left ≡ self.old.left }
        ensures same { self.new ≡ record self.old { frame = self.new.frame } }
        ensures handed { (shape within : Var → Shape) (s s0 t : Store N) → ShowsHeld N.numbers self.old.frame.names.now self.old.frame.slots.items shape s → Shows N.numbers routine.now.names inner.entry.slots.items within t
            → AreRead routine.now actuals.now self.old.frame.names.now t s
            → Shows N.numbers self.old.frame.names.now self.new.frame.slots.items shape (copied_out routine.now.unit.now.dummies routine.now.writes.now (actuals_in self.old.frame.names.now shape s0 actuals.now) t s) }
    {
        self.frame
            .hand_back(routine, actuals, inner.slots.as_mut_slice());
        if !is_full {
            self.release(inner.slots.as_mut_slice());
        }
        self.keep_slots(number, inner.into_slots());
    }

    /// Copies the dummies that are written back to the variables that they got. The slots serve the next call.
    pub(crate) fn take_back(
        &mut self,
        routine: &Routine<'a>,
        terms: &Terms,
        number: usize,
        inner: Frame<'a, N>,
    )
        requires framed { IsFrame self.old.frame.names.now self.old.frame.slots.items }
        requires below { AreTermsBelow (length self.old.frame.slots.items) terms.now }
        requires laid { IsLaidOut routine.now }
        requires whole { AreWhole terms.now }
        requires inner { IsFrame routine.now.names inner.slots.items }
        requires ones { (j : ℕ) → j < length routine.now.unit.now.dummies → slice_index_or (counts_in inner.slots.items) j 0 ≡ 1 }
        requires large { AreAsLarge (length routine.now.unit.now.dummies) (counts_in self.old.frame.slots.items) (wholes {C = N} terms.now) (counts_in inner.slots.items) }
        ensures names { self.new.frame.names.now ≡ self.old.frame.names.now }
        ensures framed { IsFrame self.old.frame.names.now self.new.frame.slots.items }
        ensures counts { counts_in self.new.frame.slots.items ≡ counts_in self.old.frame.slots.items }
        ensures same { self.new ≡ record self.old { frame = self.new.frame } }
        ensures handed { (shape within : Var → Shape) (s s0 t : Store N) → Shows N.numbers self.old.frame.names.now self.old.frame.slots.items shape s → Shows N.numbers routine.now.names inner.entry.slots.items within t
            → Shows N.numbers self.old.frame.names.now self.new.frame.slots.items shape (copied_out routine.now.unit.now.dummies routine.now.writes.now (actuals_in self.old.frame.names.now shape s0 (wholes terms.now)) t s) }
    {
        self.frame.take_back(routine, terms, inner.slots.as_slice());
        self.keep_slots(number, inner.into_slots());
    }
}
