//! The entries of a derivative from one dual run for each group of columns.

ghost use Rattle.std.specs.Prelude.{◌≡◌, ◌++◌, pos, IfOk, OnOk, map, slice_index_or};
ghost use Rattle.def_meaning.specs.Numbers.{words};
ghost use Rattle.def_jacobian.specs.Patterns.{held};
ghost use Rattle.def_jacobian.specs.Groups.{group_of};
ghost use Rattle.def_jacobian.specs.Recovered.{entries_of_row, entries, found};
ghost use Rattle.adj_interp.specs.Concludes.{slot_seen};
ghost use Rattle.adj_jacobian_groups.specs.View.{place_of, rows_of};
ghost use Rattle.adj_jacobian.specs.Products.{entry_of, tangent_in};

use crate::entry::{Entry, Jacobian};
use adj_jacobian_groups::{Cell, Grouping, Row, Sparsity};
use adj_tree::{Items, Memory, Slot, Values};
use std::alloc::Global;

// The word at a place, 0 past the end.
fn word_or_zero(words: &[i64], place: u64) -> i64
    ensures { result ≡ slice_index_or words.now place (pos 0) }
{
    words.get(place as usize).copied().unwrap_or(0)
}

// The word of a cell, 0 where there is no such cell.
fn word_at(values: &[Slot], at: Cell) -> i64
    ensures { result ≡ held words (map slot_seen values.now) at.dummy at.cell }
{
    match values.get(at.dummy as usize) {
        Some(slot) => word_or_zero(slot.cells.as_slice(), at.cell),
        None => 0,
    }
}

// The group of a column, 0 where it has none.
fn group_of(groups: &[u64], column: u64) -> u64
    ensures { result ≡ group_of groups.now column }
{
    groups.get(column as usize).copied().unwrap_or(0)
}

// The tangent of a cell in the product of a column's group.
fn found(groups: &[u64], products: &[Values], at: Cell, column: u64) -> i64
    ensures { result ≡ found groups.now (tangent_in products.now) (place_of at) column }
{
    let group = group_of(groups, column);
    match products.get(group as usize) {
        Some(product) => word_at(product.as_slice(), at),
        None => 0,
    }
}

// Adds the entries of a row.
fn add_row(
    groups: &[u64],
    products: &[Values],
    number: u64,
    row: &Row,
    all: &mut Vec<Entry>,
) -> Result<(), Memory>
    ensures { OnOk result (map entry_of all.new.items ≡ map entry_of all.old.items ++ entries_of_row (found groups.now (tangent_in products.now)) number (place_of row.now.at) row.now.columns) }
{
    for column in row.columns.as_slice() {
        all.push(Entry {
            row: number,
            col: *column,
            value: found(groups, products, row.at, *column),
        })?;
    }
    Ok(())
}

/// The entries of a pattern, by row and then column: the tangent of the row's cell in the product of the column's group. `products` are
/// the tangents that the dual runs of the groups leave, a group after the other.
pub fn recover(
    alloc: Global,
    sparsity: &Sparsity,
    grouping: &Grouping,
    products: &[Values],
) -> Result<Jacobian, Memory>
    ensures { IfOk result (λ j. map entry_of j.entries ≡ entries (found grouping.now.group (tangent_in products.now)) (rows_of sparsity.now.rows) 0) }
{
    let groups = grouping.group.as_slice();
    let rows = sparsity.rows.as_slice();
    let mut all = Vec::new(alloc);
    for i in 0..rows.len() {
        add_row(groups, products, i as u64, &rows[i], &mut all)?;
    }
    Ok(Jacobian {
        entries: Items::new(all),
    })
}
