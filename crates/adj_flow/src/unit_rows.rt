//! The variables of units as rows of bits, so that an arc carries those of a whole unit over a way.

ghost use Rattle.std.specs.Prelude.{◌≡◌, ◌↔◌, ◌⊎◌, ◌+◌, ◌*◌, ◌<◌, ◌≤◌, ℕ, Some, IfOk, IfSome, length, map};
ghost use Rattle.adj_flow.specs.NodeView.{vars_of};
ghost use Rattle.adj_flow.specs.Rows.{row_of};
ghost use Rattle.adj_flow.specs.WayView.{deed_of};
ghost use Rattle.adj_tree.specs.Bits.{bit};
ghost use Rattle.adj_flow.specs.UnitRows.{IsPlace, HoldPlaces, AreNumbered, assigned_at};

use crate::deed::Deed;
use crate::row::Part;
use crate::units::Flow;
use adj_reach_rows::Rows;
use adj_tree::Memory;
use std::alloc::Global;

// Sets the bit of a place in a row, if there is one.
fn set_place(rows: &mut Rows, row: usize, place: Option<usize>)
    requires row { row < rows.old.count }
    requires place { IfSome place (λ j. j < 64 * rows.old.words) }
    ensures count { rows.new.count ≡ rows.old.count }
    ensures words { rows.new.words ≡ rows.old.words }
    ensures bits { (n : ℕ) → (bit rows.new.bits.items n ≡ 1) ↔ ((bit rows.old.bits.items n ≡ 1) ⊎ ((j : ℕ) × (place ≡ Some j) × (n ≡ row * rows.old.words * 64 + j))) }
{
    match place {
        Some(place) => rows.set(row, place),
        None => {}
    }
}

// Sets the bits of the places of a unit's variables in a row.
fn set_variables(rows: &mut Rows, row: usize, part: &Part<'_>)
    requires row { row < rows.old.count }
    requires wide { length part.now.variables.now ≤ 64 * rows.old.words }
    ensures count { rows.new.count ≡ rows.old.count }
    ensures words { rows.new.words ≡ rows.old.words }
    ensures bits { (n : ℕ) → (bit rows.new.bits.items n ≡ 1) ↔ ((bit rows.old.bits.items n ≡ 1) ⊎ ((j : ℕ) × IsPlace (vars_of (row_of part.now)) j × (n ≡ row * rows.old.words * 64 + j))) }
{
    for name in part.variables.as_slice() {
        set_place(rows, row, part.place(name));
    }
}

/// A row for each unit, with the bits of the places of its variables, of which there are at most so many.
pub fn variable_rows(alloc: Global, flow: &Flow<'_>, width: usize) -> Result<Rows, Memory>
    requires flow { AreNumbered flow.now width }
    ensures wide { IfOk result (λ r. width < 64 * r.words) }
    ensures places { IfOk result (λ r. HoldPlaces r (map row_of flow.now.parts.items)) }
{
    let mut rows = Rows::new(alloc, flow.parts.len(), width)?;
    for (row, part) in flow.parts.as_slice().iter().enumerate() {
        set_variables(&mut rows, row, part);
    }
    Ok(rows)
}

/// The place of the variable that is assigned whole on a way.
pub fn assigned_place(part: &Part<'_>, deed: Deed<'_>) -> Option<usize>
    ensures { result ≡ assigned_at (row_of part.now) (deed_of deed.entry) }
{
    match deed {
        Deed::Assigning(_, name) => part.place(name),
        Deed::Passing | Deed::Calling(_) => None,
    }
}
