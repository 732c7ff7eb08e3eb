//! Rows of a pattern whose columns are few.

ghost use Rattle.std.specs.Prelude.{◌≡◌, ◌++◌, ◌∷◌, [], IfOk, OnOk, None, filter, is_none, map, if◌then◌else◌};
ghost use Rattle.std.specs.Vec.Iter.{into_iter_items};
ghost use Rattle.def_meaning.specs.Units.{nth_cell};
ghost use Rattle.def_jacobian.specs.Patterns.{held};
ghost use Rattle.adj_interp.specs.Inputs.{entry_seen};
ghost use Rattle.adj_jacobian_few.specs.Few.{few, list_of};
ghost use Rattle.adj_jacobian_groups.specs.View.{place_of, row_of, rows_of};
ghost use Rattle.adj_jacobian.specs.Lists.{is_open, left_in, row_in, woven};

use adj_interp_frame::Slot;
use adj_jacobian_few::{Few, Kept};
use adj_jacobian_groups::{Cell, Columns, Row};
use adj_tree::Memory;
use std::alloc::Global;
use std::vec::IntoIter;

// What a number keeps of its columns, none past the end.
fn kept_or_none(numbers: &[Few], place: u64) -> Kept
    ensures { result ≡ (nth_cell few numbers.now place).columns }
{
    match numbers.get(place as usize) {
        Some(number) => number.columns,
        None => Kept::NONE,
    }
}

// What the number of a cell keeps of its columns.
fn kept_at(slots: &[Slot<Few>], at: Cell) -> Kept
    ensures { result ≡ (held few (map entry_seen slots.now) at.dummy at.cell).columns }
{
    match slots.get(at.dummy as usize) {
        Some(slot) => kept_or_none(slot.cells.as_slice(), at.cell),
        None => Kept::NONE,
    }
}

// A row with the columns of a list.
fn listed_row(alloc: Global, at: Cell, numbers: &[u32]) -> Result<Row, Memory>
    ensures { IfOk result (λ r. row_of r ≡ record { at = place_of at; columns = numbers.now }) }
{
    let mut columns = Columns::new(alloc);
    for number in numbers {
        columns.push(u64::from(*number))?;
    }
    Ok(Row { at, columns })
}

// The next of some rows, or one without columns.
fn next_row(alloc: Global, at: Cell, others: &mut IntoIter<Row>) -> Row
    ensures row { row_of result ≡ row_in None (place_of at) (rows_of (into_iter_items others.old)) }
    ensures left { rows_of (into_iter_items others.new) ≡ left_in None (rows_of (into_iter_items others.old)) }
{
    match others.next() {
        Some(row) => row,
        None => Row {
            at,
            columns: Columns::new(alloc),
        },
    }
}

// The row of a cell: the list of its columns, or the next of the others where there is none.
fn row_at(alloc: Global, kept: &Kept, at: Cell, others: &mut IntoIter<Row>) -> Result<Row, Memory>
    ensures row { IfOk result (λ r. row_of r ≡ row_in (list_of kept.now) (place_of at) (rows_of (into_iter_items others.old))) }
    ensures left { OnOk result (rows_of (into_iter_items others.new) ≡ left_in (list_of kept.now) (rows_of (into_iter_items others.old))) }
{
    match kept.list() {
        Some(numbers) => listed_row(alloc, at, numbers),
        None => Ok(next_row(alloc, at, others)),
    }
}

// Adds a cell where it has no list.
fn add_open(kept: &Kept, at: Cell, all: &mut Vec<Cell>) -> Result<(), Memory>
    ensures { OnOk result (map place_of all.new.items ≡ map place_of all.old.items ++ (if is_none (list_of kept.now) then place_of at ∷ [] else [])) }
{
    match kept.list() {
        Some(_numbers) => Ok(()),
        None => {
            all.push(at)?;
            Ok(())
        }
    }
}

/// Those of some cells that have no list of columns.
pub(crate) fn open_cells(
    alloc: Global,
    slots: &[Slot<Few>],
    cells: &[Cell],
) -> Result<Vec<Cell>, Memory>
    ensures { IfOk result (λ all. map place_of all.items ≡ filter (is_open (map entry_seen slots.now)) (map place_of cells.now)) }
{
    let mut all = Vec::new(alloc);
    for at in cells {
        add_open(&kept_at(slots, *at), *at, &mut all)?;
    }
    Ok(all)
}

/// The row of each cell: its columns where it has a list of them, and else the next of the others.
pub(crate) fn all_rows(
    alloc: Global,
    slots: &[Slot<Few>],
    cells: &[Cell],
    others: Vec<Row>,
) -> Result<Vec<Row>, Memory>
    ensures { IfOk result (λ rows. rows_of rows.items ≡ woven (map entry_seen slots.now) (map place_of cells.now) (rows_of others.items)) }
{
    let mut rows = Vec::new(alloc);
    let mut left = others.into_iter();
    for at in cells {
        rows.push(row_at(alloc, &kept_at(slots, *at), *at, &mut left)?)?;
    }
    Ok(rows)
}
