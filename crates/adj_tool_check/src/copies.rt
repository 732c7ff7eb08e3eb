//! Copies of values: a run takes its input for its own.

ghost use Rattle.std.specs.Prelude.{◌≡◌, IfOk};

use adj_tree::{Items, Memory, Slot, Values};
use std::alloc::Global;

/// A copy of a slot.
pub(crate) fn copied(alloc: Global, slot: &Slot) -> Result<Slot, Memory>
    ensures { IfOk result (λ v. v ≡ slot.now) }
{
    Ok(Slot {
        rows: slot.rows,
        cols: slot.cols,
        cells: Items::new(slot.cells.as_slice().to_vec(alloc)?),
    })
}

/// A copy of each slot.
pub(crate) fn copies(alloc: Global, values: &Values) -> Result<Values, Memory>
    ensures { IfOk result (λ v. v ≡ values.now) }
{
    let mut slots = Vec::new(alloc);
    for slot in values.as_slice() {
        slots.push(copied(alloc, slot)?)?;
    }
    Ok(Items::new(slots))
}
