//! What an adjoint gets and gives: inputs with their shadows.

ghost use Rattle.std.specs.Prelude.{◌≡◌, map, IfOk};
ghost use Rattle.def_sweep.specs.Tangents.{cells_of, marked_cells};
ghost use Rattle.def_sweep.specs.MarkedAdjoint.{joined_by, shadow_cells};
ghost use Rattle.adj_data.specs.Given.{slot_seen};

use crate::copies::copied;
use adj_data::zeros_like;
use adj_tree::{Items, Memory, Slot, Values};
use std::alloc::Global;

/// Each input, followed by the adjoint at its place where the flag there is set.
pub(crate) fn joined(
    alloc: Global,
    flags: &[bool],
    inputs: &[Slot],
    adjoints: &[Slot],
) -> Result<Values, Memory>
    ensures { IfOk result (λ v. map slot_seen v ≡ joined_by flags.now (map slot_seen inputs.now) (map slot_seen adjoints.now)) }
{
    let mut slots = Vec::new(alloc);
    let mut unjoined = inputs;
    let mut rest = adjoints;
    for flag in flags {
        let [input, further @ ..] = unjoined else {
            return Ok(Items::new(slots));
        };
        let [adjoint, behind @ ..] = rest else {
            return Ok(Items::new(slots));
        };
        slots.push(copied(alloc, input)?)?;
        if *flag {
            slots.push(copied(alloc, adjoint)?)?;
        }
        unjoined = further;
        rest = behind;
    }
    Ok(Items::new(slots))
}

/// The shadows among what an adjoint gives, and zeros for what has none.
pub(crate) fn shadows(alloc: Global, flags: &[bool], values: &[Slot]) -> Result<Vec<Slot>, Memory>
    ensures { IfOk result (λ v. cells_of (map slot_seen v.items) ≡ shadow_cells flags.now (map slot_seen values.now)) }
{
    let mut made = Vec::new(alloc);
    let mut rest = values;
    for flag in flags {
        let [slot, behind @ ..] = rest else {
            return Ok(made);
        };
        if !*flag {
            made.push(zeros_like(alloc, slot)?)?;
            rest = behind;
            continue;
        }
        let [shadow, further @ ..] = behind else {
            return Ok(made);
        };
        made.push(copied(alloc, shadow)?)?;
        rest = further;
    }
    Ok(made)
}

/// The cells of the values that are flagged, one after the other.
pub(crate) fn marked_cells(
    alloc: Global,
    flags: &[bool],
    values: &[Slot],
) -> Result<Vec<i64>, Memory>
    ensures { IfOk result (λ v. v.items ≡ marked_cells flags.now (cells_of (map slot_seen values.now))) }
{
    let mut cells = Vec::new(alloc);
    let mut rest = values;
    for flag in flags {
        let [slot, behind @ ..] = rest else {
            return Ok(cells);
        };
        if *flag {
            cells.extend_from_slice(slot.cells.as_slice())?;
        }
        rest = behind;
    }
    Ok(cells)
}
