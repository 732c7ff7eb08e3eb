//! Groups of the columns of small patterns, worked out by hand.

ghost use Rattle.std.specs.Prelude.{◌<◌, All, IfOk};
ghost use Rattle.adj_jacobian_groups.specs.View.{AreNumbered};

use adj_jacobian_groups::{Cell, Columns, Row, Sparsity, groups};
use adj_tree::{Items, Memory};
use std::alloc::Global;

// How many columns a pattern has, and those of each row.
type Pattern = (u64, &'static [&'static [u64]]);

// Patterns, the group of each column, and how many groups there are.
const CASES: [(Pattern, &[u64], u64); 6] = [
    ((4, &[&[], &[0, 2], &[1, 3], &[]]), &[0, 0, 1, 1], 2),
    ((3, &[&[0], &[1], &[2]]), &[0, 0, 0], 1),
    ((3, &[&[0, 1], &[1, 2]]), &[0, 1, 0], 2),
    ((4, &[&[0, 1, 2, 3]]), &[0, 1, 2, 3], 4),
    ((2, &[]), &[0, 0], 1),
    ((0, &[&[], &[]]), &[], 0),
];

// The first cells of a dummy.
fn cells(alloc: Global, count: u64) -> Result<Vec<Cell>, Memory> {
    let mut cells = Vec::new(alloc);
    for cell in 0..count {
        cells.push(Cell { dummy: 0, cell })?;
    }
    Ok(cells)
}

// A row with those of some numbers that are columns.
fn row(alloc: Global, numbers: &[u64], count: usize) -> Result<Row, Memory>
    ensures { IfOk result (λ r. All (λ c. c < count) r.columns) }
{
    let mut columns = Columns::new(alloc);
    for number in numbers {
        if (*number as usize) < count {
            columns.push(*number)?;
        }
    }
    Ok(Row {
        at: Cell { dummy: 1, cell: 0 },
        columns,
    })
}

// A pattern with these rows.
fn pattern(alloc: Global, pattern: Pattern) -> Result<Sparsity, Memory>
    ensures { IfOk result (λ p. AreNumbered p) }
{
    let (count, columns) = pattern;
    let cols = cells(alloc, count)?;
    let mut rows = Vec::new(alloc);
    for numbers in columns {
        rows.push(row(alloc, numbers, cols.len())?)?;
    }
    Ok(Sparsity {
        cols: Items::new(cols),
        rows: Items::new(rows),
    })
}

// Whether the columns of a pattern have these groups, of which there are so many.
fn are_grouped(alloc: Global, columns: Pattern, group: &[u64], count: u64) -> Result<bool, Memory> {
    let pattern = pattern(alloc, columns)?;
    let found = groups(alloc, &pattern)?;
    Ok(found.group.as_slice() == group && found.count == count)
}

#[test]
fn each_column_has_the_least_group_that_is_free(rt: HostRuntime) {
    for case in &CASES {
        let (pattern, group, count) = *case;
        assert!(rt; are_grouped(rt.alloc(), pattern, group, count) == Ok(true));
    }
}
