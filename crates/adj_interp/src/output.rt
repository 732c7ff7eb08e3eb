//! Values and the slots of an entry.

ghost use Rattle.std.specs.Prelude.{◌≡◌, IfOk, map};
ghost use Rattle.adj_interp.specs.Concludes.{slot_seen};
ghost use Rattle.adj_interp.specs.Inputs.{entry_seen};

use adj_interp_frame::Slot;
use adj_tree::{Items, Memory, Slot as Value, Values};
use std::alloc::Global;

/// The slots of an input, whose cells they keep.
pub(crate) fn slots_of(alloc: Global, input: Values) -> Result<Vec<Slot<i64>>, Memory>
    ensures { IfOk result (λ slots. map entry_seen slots.items ≡ map slot_seen input) }
{
    let mut slots = Vec::new(alloc);
    for value in input.into_vec() {
        slots.push(Slot {
            rows: value.rows as usize,
            cols: value.cols as usize,
            cells: value.cells.into_vec(),
        })?;
    }
    Ok(slots)
}

/// Slots as values, whose cells they keep.
pub(crate) fn values_of(alloc: Global, slots: Vec<Slot<i64>>) -> Result<Values, Memory>
    ensures { IfOk result (λ values. map slot_seen values ≡ map entry_seen slots.items) }
{
    let mut values = Vec::new(alloc);
    for slot in slots {
        let rows = slot.rows as u64;
        let cols = slot.cols as u64;
        values.push(Value {
            rows,
            cols,
            cells: Items::new(slot.into_cells()),
        })?;
    }
    Ok(Items::new(values))
}
