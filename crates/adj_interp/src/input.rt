//! The entry of a unit that gets an input.

ghost use Rattle.std.specs.Prelude.{◌≡◌, ◌<◌, ℕ, IfOk, length, map, slice_index_or, true};
ghost use Rattle.adj_tree.specs.View.{procedure_of};
ghost use Rattle.def_meaning.specs.Apart.{AreApart};
ghost use Rattle.def_meaning.specs.Units.{fits, input_store};
ghost use Rattle.adj_interp_frame.specs.declared.actual.Actual.{Actual as AnActual};
ghost use Rattle.adj_interp_frame.specs.declared.actual.Actual.TheVariants as actual;
ghost use Rattle.adj_interp_frame.specs.Framed.{IsFrame};
ghost use Rattle.adj_interp_frame.specs.Shown.{Shows};
ghost use Rattle.adj_interp_frame.specs.Called.{IsLaidOut};
ghost use Rattle.adj_interp.specs.Inputs.{entry_seen, input_shape};

use adj_interp_frame::{Actual, Frame, Routine, Slot, Unfit};
use adj_number::Number;
use adj_tree::{Memory, Unit};
use std::alloc::Global;

// The dummies of a unit with their input, as a caller's variables.
fn outside<'a, N: Number>(unit: &'a Unit, slots: Vec<Slot<N>>) -> Frame<'a, N>
    requires apart { AreApart unit.now.dummies }
    requires fits { fits N.numbers (procedure_of unit.now) (map entry_seen slots.items) ≡ true }
    ensures names { result.names.now ≡ unit.now.dummies }
    ensures slots { result.slots ≡ slots }
    ensures framed { IsFrame unit.now.dummies result.slots.items }
{
    Frame {
        names: &unit.dummies,
        slots,
    }
}

// The first variables as actuals.
fn wholes<N: Number>(alloc: Global, count: usize) -> Result<Vec<Actual<N>>, Memory>
    ensures count { IfOk result (λ all. length all.items ≡ count) }
    ensures each { IfOk result (λ all. (k : ℕ) (d : AnActual N) → k < count → slice_index_or all.items k d ≡ actual.Whole k) }
{
    let mut all = Vec::new(alloc);
    for i in 0..count {
        all.push(Actual::Whole(i))?;
    }
    Ok(all)
}

/// The entry of a unit that gets an input which fits it.
pub(crate) fn first_entry<'a, N: Number>(
    alloc: Global,
    routine: &'a Routine<'a>,
    input: Vec<Slot<N>>,
) -> Result<Frame<'a, N>, Memory>
    requires laid { IsLaidOut routine.now }
    requires fits { fits N.numbers (procedure_of routine.now.unit.now) (map entry_seen input.items) ≡ true }
    ensures names { IfOk result (λ f. f.names.now ≡ routine.now.names) }
    ensures framed { IfOk result (λ f. IsFrame routine.now.names f.slots.items) }
    ensures shown { IfOk result (λ f. let u = procedure_of routine.now.unit.now in let store = input_store N.numbers u (map entry_seen input.items) in
        Shows N.numbers routine.now.names f.slots.items (input_shape N.numbers u store) store) }
{
    let mut caller = outside(routine.unit, input);
    let actuals = wholes(alloc, caller.slots.len())?;
    let given = actuals.as_slice();
    match caller.entry(alloc, routine, given, Vec::new(alloc)) {
        Ok((mut slots, _)) => {
            caller.lend(given, slots.as_mut_slice());
            Ok(Frame {
                names: &routine.names,
                slots,
            })
        }
        Err(Unfit::Shape) => unreachable!(),
        Err(Unfit::Memory) => Err(Memory),
    }
}
