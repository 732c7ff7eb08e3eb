//! The cells of flagged dummies.

ghost use Rattle.std.specs.Prelude.{◌≡◌, ◌++◌, IfOk, OnOk, map, if◌then◌else◌};
ghost use Rattle.def_jacobian.specs.Recovered.{from, places};
ghost use Rattle.adj_interp.specs.Concludes.{slot_seen};
ghost use Rattle.adj_jacobian_groups.specs.View.{place_of};

use adj_jacobian_groups::{Cell, Cells};
use adj_reach::flag_at;
use adj_tree::{Items, Memory, Slot};
use std::alloc::Global;

// The number of a dummy. An error means that it passes 32 bits.
fn number_of(place: usize) -> Result<u32, Memory>
    ensures { IfOk result (λ n. n ≡ place) }
{
    match u32::try_from(place) {
        Ok(number) => Ok(number),
        Err(_) => Err(Memory),
    }
}

// How many cells count: those of what is flagged.
fn counted(marked: bool, count: usize) -> usize
    ensures { result ≡ (if marked then count else 0) }
{
    if marked { count } else { 0 }
}

// Adds cells of a dummy, from the first on.
fn add_cells(dummy: u32, count: usize, cells: &mut Vec<Cell>) -> Result<(), Memory>
    ensures { OnOk result (map place_of cells.new.items ≡ map place_of cells.old.items ++ map (λ j. record { dummy = dummy; cell = j }) (from 0 count)) }
{
    for j in 0..count {
        cells.push(Cell {
            dummy,
            cell: j as u64,
        })?;
    }
    Ok(())
}

/// The cells of the flagged dummies, in the order of dummies and of storage. An error means also that the number of a dummy passes 32 bits.
pub(crate) fn places(alloc: Global, flags: &[bool], values: &[Slot]) -> Result<Cells, Memory>
    ensures { IfOk result (λ cells. map place_of cells ≡ places flags.now (map slot_seen values.now) 0) }
{
    let mut cells = Vec::new(alloc);
    for i in 0..values.len() {
        let dummy = number_of(i)?;
        let marked = flag_at(flags, i);
        let count = counted(marked, values[i].cells.as_slice().len());
        add_cells(dummy, count, &mut cells)?;
    }
    Ok(Items::new(cells))
}
