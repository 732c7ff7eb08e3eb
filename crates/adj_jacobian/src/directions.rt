//! Directions of groups: tangents that are 1 at the columns of a group.

ghost use Rattle.std.specs.Prelude.{◌≡◌, ◌+◌, ◌<◌, ◌^◌, ◌==◌, ◌||◌, ℕ, ℤ, Bool, List, IfOk, length, map};
ghost use Rattle.def_jacobian.specs.Inputs.{as_columns, tangents};
ghost use Rattle.def_jacobian.specs.Groups.{in_group, seed};
ghost use Rattle.adj_reach.specs.Edges.{flag};
ghost use Rattle.adj_interp.specs.Concludes.{slot_seen};
ghost use Rattle.def_jacobian.specs.Recovered.{places};
ghost use Rattle.adj_jacobian_groups.specs.View.{place_of};
ghost use Rattle.adj_jacobian.specs.Walks.{one_by, cells_by, has_dummy, next_column, still_tangent};

use crate::walk::next_column;
use adj_jacobian_groups::{Cell, Grouping, Sparsity};
use adj_reach::flag_at;
use adj_tree::{Items, Memory, Slot, Values};
use std::alloc::Global;

// Whether a column is in a group.
fn is_in(groups: &[u64], group: u64, column: u64) -> bool
    ensures { result ≡ in_group groups.now group column }
{
    match groups.get(column as usize) {
        Some(own) => *own == group,
        None => false,
    }
}

// The tangent of a cell: 1 where it is a column of the group, 0 elsewhere.
fn seed_of(groups: &[u64], group: u64, marked: bool, column: u64) -> i64
    ensures { (z : ℤ) → result ≡ one_by still_tangent (λ z j. seed groups.now group j) marked z column }
{
    i64::from(marked && is_in(groups, group, column))
}

// The tangents of words that are columns from a number on, and of words that are none.
fn seed_cells(
    alloc: Global,
    groups: &[u64],
    group: u64,
    marked: bool,
    first: u64,
    words: &[i64],
) -> Result<Vec<i64>, Memory>
    requires { first + length words.now < 2 ^ 64 }
    ensures { IfOk result (λ cells. cells.items ≡ cells_by still_tangent (λ z j. seed groups.now group j) marked words.now first) }
{
    let mut cells = Vec::new(alloc);
    for j in 0..words.len() {
        cells.push(seed_of(groups, group, marked, first + j as u64))?;
    }
    Ok(cells)
}

// The tangents of a dummy, and the number of the column behind it.
fn seed_slot(
    alloc: Global,
    groups: &[u64],
    group: u64,
    marked: bool,
    first: u64,
    value: &Slot,
) -> Result<(Slot, u64), Memory>
    ensures slot { IfOk result (λ r. slot_seen r.0 ≡ record { shape = record { rows = value.now.rows; cols = value.now.cols }; cells = cells_by still_tangent (λ z j. seed groups.now group j) marked value.now.cells first }) }
    ensures next { IfOk result (λ r. r.1 ≡ next_column marked first (length value.now.cells)) }
{
    let words = value.cells.as_slice();
    let next = next_column(marked, first, words.len())?;
    let cells = seed_cells(alloc, groups, group, marked, first, words)?;
    let slot = Slot {
        rows: value.rows,
        cols: value.cols,
        cells: Items::new(cells),
    };
    Ok((slot, next))
}

// The direction of a group: tangents with the extents of the input, 1 at the cells of the group's columns and 0 elsewhere. The columns are the
// cells of the flagged dummies.
fn directed(
    alloc: Global,
    groups: &[u64],
    group: u64,
    vars: &[bool],
    input: &[Slot],
) -> Result<Values, Memory>
    ensures { IfOk result (λ v. map slot_seen v ≡ tangents (seed groups.now group) vars.now (map slot_seen input.now)) }
{
    let mut slots = Vec::new(alloc);
    let mut first = 0;
    for i in 0..input.len() {
        let marked = flag_at(vars, i);
        let (slot, next) = seed_slot(alloc, groups, group, marked, first, &input[i])?;
        slots.push(slot)?;
        first = next;
    }
    Ok(Items::new(slots))
}

// Flags a dummy, where there is one of that number.
fn flag_dummy(flags: &mut [bool], dummy: u32)
    ensures count { length flags.new ≡ length flags.old }
    ensures flagged { (i : ℕ) → i < length flags.old → flag flags.new i ≡ (dummy == i || flag flags.old i) }
{
    let dummy = dummy as usize;
    if dummy < flags.len() {
        flags[dummy] = true;
    }
}

// Which of so many dummies have columns.
fn flags_of(alloc: Global, columns: &[Cell], count: usize) -> Result<Vec<bool>, Memory>
    ensures count { IfOk result (λ flags. length flags.items ≡ count) }
    ensures flagged { IfOk result (λ flags. (i : ℕ) → i < count → flag flags.items i ≡ has_dummy (map place_of columns.now) i) }
{
    let mut flags = vec![in alloc; false; count]?;
    for column in columns {
        flag_dummy(flags.as_mut_slice(), column.dummy);
    }
    Ok(flags)
}

/// The direction of a group of a pattern's columns: tangents with the extents of the input, 1 at the cells of the group's columns and 0 elsewhere.
/// The columns are those of a pattern of the input: all cells of some dummies, in the order of dummies and of storage.
pub fn seeds(
    alloc: Global,
    pattern: &Sparsity,
    grouping: &Grouping,
    group: u64,
    input: &[Slot],
) -> Result<Values, Memory>
    ensures { IfOk result (λ v. (vars : List Bool) → map place_of pattern.now.cols ≡ places vars (map slot_seen input.now) 0 → map slot_seen v ≡ tangents (seed grouping.now.group group) vars (map slot_seen input.now)) }
{
    let columns = pattern.cols.as_slice();
    let groups = grouping.group.as_slice();
    let flags = flags_of(alloc, columns, input.len())?;
    let vars = flags.as_slice();
    directed(alloc, groups, group, vars, input)
}
