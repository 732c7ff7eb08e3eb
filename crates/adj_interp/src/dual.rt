//! Dual runs of a unit of a program: runs on words that each carry a tangent. (docs/RUNNING.md, "Dual runs")

ghost use Rattle.std.specs.Prelude.{◌≡◌, ◌<◌, [], Some, Err, IfOk, length, map, slice_get, true};
ghost use Rattle.std.specs.List.{zip};
ghost use Rattle.adj_tree.specs.Code.{Procedure};
ghost use Rattle.adj_tree.specs.View.{procedures_of};
ghost use Rattle.def_meaning.specs.Numbers.{words, duals};
ghost use Rattle.def_meaning.specs.Units.{fits, run_unit};
ghost use Rattle.adj_interp.specs.declared.stop.Stop.TheVariants as stop;
ghost use Rattle.adj_interp.specs.Concludes.{slot_seen};
ghost use Rattle.adj_interp.specs.Dually.{AreTangents, IsTangent, CallsNoRuntime, dual_slot, dual_slots, DualEnds};
ghost use Rattle.adj_interp.specs.Inputs.{entry_seen};

use crate::log::Log;
use crate::runs::run_over;
use crate::stop::Stop;
use adj_interp_frame::Slot;
use adj_number::Dual;
use adj_symbols::Checked;
use adj_tape::Tape;
use adj_tree::{Items, Memory, Slot as Value, Values};
use std::alloc::Global;

// Words, each with its tangent.
fn paired(alloc: Global, words: &[i64], tangents: &[i64]) -> Result<Vec<Dual>, Memory>
    requires { length tangents.now ≡ length words.now }
    ensures { IfOk result (λ cells. cells.items ≡ zip words.now tangents.now) }
{
    let mut cells = Vec::new(alloc);
    for i in 0..words.len() {
        cells.push(Dual {
            value: words[i],
            tangent: tangents[i],
        })?;
    }
    Ok(cells)
}

// A slot of an entry with the words of one and the tangents of the other.
fn slot_of(alloc: Global, value: &Value, tangent: &Value) -> Result<Slot<Dual>, Memory>
    requires { IsTangent value.now tangent.now }
    ensures { IfOk result (λ slot. entry_seen slot ≡ dual_slot (value.now, tangent.now)) }
{
    let cells = paired(alloc, value.cells.as_slice(), tangent.cells.as_slice())?;
    Ok(Slot {
        rows: value.rows as usize,
        cols: value.cols as usize,
        cells,
    })
}

// The slots of an input and its tangents.
fn slots_of(alloc: Global, input: &[Value], tangents: &[Value]) -> Result<Vec<Slot<Dual>>, Memory>
    requires { AreTangents input.now tangents.now }
    ensures { IfOk result (λ slots. map entry_seen slots.items ≡ dual_slots input.now tangents.now) }
{
    let mut slots = Vec::new(alloc);
    for i in 0..input.len() {
        let slot = slot_of(alloc, &input[i], &tangents[i])?;
        slots.push(slot)?;
    }
    Ok(slots)
}

// The words of a slot, and the tangents of a slot.
fn parted(alloc: Global, slot: &Slot<Dual>) -> Result<(Value, Value), Memory>
    ensures tangent { IfOk result (λ p. IsTangent p.0 p.1) }
    ensures same { IfOk result (λ p. dual_slot p ≡ entry_seen slot.now) }
{
    let mut words = Vec::new(alloc);
    let mut tangents = Vec::new(alloc);
    for cell in slot.cells.as_slice() {
        words.push(cell.value)?;
        tangents.push(cell.tangent)?;
    }
    let rows = slot.rows as u64;
    let cols = slot.cols as u64;
    let value = Value {
        rows,
        cols,
        cells: Items::new(words),
    };
    let tangent = Value {
        rows,
        cols,
        cells: Items::new(tangents),
    };
    Ok((value, tangent))
}

// The words of slots, and their tangents.
fn values_of(alloc: Global, slots: &[Slot<Dual>]) -> Result<(Values, Values), Memory>
    ensures tangents { IfOk result (λ r. AreTangents r.0 r.1) }
    ensures same { IfOk result (λ r. dual_slots r.0 r.1 ≡ map entry_seen slots.now) }
{
    let mut values = Vec::new(alloc);
    let mut tangents = Vec::new(alloc);
    for slot in slots {
        let (value, tangent) = parted(alloc, slot)?;
        values.push(value)?;
        tangents.push(tangent)?;
    }
    Ok((Items::new(values), Items::new(tangents)))
}

/// The dual run of a unit of a checked program on an input that fits it, with a tangent for each of its words, with at
/// most so many statements, on a tape without room: values and tangents of the dummies. `TapeFull` comes only where a call of
/// the runtime stands in the program.
pub fn run_dual(
    alloc: Global,
    program: &Checked,
    unit: usize,
    input: Values,
    tangents: Values,
    budget: u64,
) -> Result<(Values, Values), Stop>
    requires there { unit < length (procedures_of program.now.program) }
    requires tangents { AreTangents input tangents }
    requires fits { (u : Procedure) → slice_get (procedures_of program.now.program) unit ≡ Some u → fits words u (map slot_seen input) ≡ true }
    ensures ends { (u : Procedure) → slice_get (procedures_of program.now.program) unit ≡ Some u
        → DualEnds (run_unit duals (procedures_of program.now.program) u (dual_slots input tangents) [] (Some 0) budget) result }
    ensures full { CallsNoRuntime (procedures_of program.now.program) → result ≡ Err stop.TapeFull → ⊥ }
{
    let slots = slots_of(alloc, input.as_slice(), tangents.as_slice())?;
    let mut tape = Tape::with_room(alloc, 0)?;
    let mut log = Log {
        used: 0,
        reversals: 0,
        advances: 0,
        height: 0,
    };
    match run_over(alloc, program, unit, slots, budget, &mut tape, &mut log) {
        Ok(ends) => {
            let values = values_of(alloc, ends.as_slice())?;
            Ok(values)
        }
        Err(stop) => Err(stop),
    }
}
