//! The pattern of a unit's derivative on an input.

ghost use Rattle.std.specs.Prelude.{◌≡◌, ◌*◌, ◌<◌, ◌≤◌, ℕ, Some, IfOk, length, map, slice_get, true};
ghost use Rattle.adj_tree.specs.Code.{Procedure};
ghost use Rattle.adj_tree.specs.View.{procedures_of};
ghost use Rattle.def_meaning.specs.Numbers.{words};
ghost use Rattle.def_meaning.specs.Units.{fits};
ghost use Rattle.def_jacobian.specs.Patterns.{pattern_run};
ghost use Rattle.def_jacobian.specs.Recovered.{places};
ghost use Rattle.adj_interp.specs.Concludes.{slot_seen};
ghost use Rattle.adj_jacobian_groups.specs.View.{place_of, rows_of};
ghost use Rattle.adj_jacobian.specs.Parts.{bare};
ghost use Rattle.adj_jacobian.specs.Ends.{task_on, RowsSo, WholeSo, PatternSo};

use crate::blocks::{block_run, few_run};
use crate::cells::places;
use crate::listed::{all_rows, open_cells};
use crate::rows::rows_with;
use adj_interp::Stop;
use adj_jacobian_groups::{Cell, Columns, Row, Sparsity};
use adj_symbols::Checked;
use adj_tree::{Head, Items, Memory, Slot};
use std::alloc::Global;

// A row without columns at each cell.
fn bare_rows(alloc: Global, cells: &[Cell]) -> Result<Vec<Row>, Memory>
    ensures { IfOk result (λ rows. rows_of rows.items ≡ bare (map place_of cells.now)) }
{
    let mut rows = Vec::new(alloc);
    for at in cells {
        rows.push(Row {
            at: *at,
            columns: Columns::new(alloc),
        })?;
    }
    Ok(rows)
}

// How many blocks there are for so many columns: one at least.
fn blocks_for(total: u64) -> u64
    ensures some { 0 < result }
    ensures all { total ≤ 256 * result }
    ensures within { (k : ℕ) → k < result → 256 * k ≤ total }
{
    total.saturating_sub(1) / 256 + 1
}

// The rows with the columns of one block more.
fn next_rows(
    alloc: Global,
    program: &Checked,
    head: &Head,
    input: &[Slot],
    budget: u64,
    block: u64,
    total: u64,
    rows: Vec<Row>,
) -> Result<Vec<Row>, Stop>
    requires there { head.now.unit < length (procedures_of program.now.program) }
    requires fits { (u : Procedure) → slice_get (procedures_of program.now.program) head.now.unit ≡ Some u → fits words u (map slot_seen input.now) ≡ true }
    requires within { 256 * block ≤ total }
    ensures { (u : Procedure) → slice_get (procedures_of program.now.program) head.now.unit ≡ Some u
        → RowsSo block total (rows_of rows.items) (λ new. rows_of new.items) (pattern_run (task_on (procedures_of program.now.program) u head.now.vars (map slot_seen input.now) budget)) result }
{
    let slots = block_run(alloc, program, head, input, budget, block)?;
    let new = rows_with(alloc, block, total, slots.as_slice(), rows)?;
    Ok(new)
}

// The rows of some cells, block by block.
fn rows_by_blocks(
    alloc: Global,
    program: &Checked,
    head: &Head,
    input: &[Slot],
    budget: u64,
    total: u64,
    cells: &[Cell],
) -> Result<Vec<Row>, Stop>
    requires there { head.now.unit < length (procedures_of program.now.program) }
    requires fits { (u : Procedure) → slice_get (procedures_of program.now.program) head.now.unit ≡ Some u → fits words u (map slot_seen input.now) ≡ true }
    ensures { (u : Procedure) → slice_get (procedures_of program.now.program) head.now.unit ≡ Some u
        → WholeSo total (map place_of cells.now) (λ rows. rows_of rows.items) (pattern_run (task_on (procedures_of program.now.program) u head.now.vars (map slot_seen input.now) budget)) result }
{
    let mut rows = bare_rows(alloc, cells)?;
    for block in 0..blocks_for(total) {
        rows = next_rows(alloc, program, head, input, budget, block, total, rows)?;
    }
    Ok(rows)
}

// The rows of those cells that a run left open, by runs of blocks; no run where there is none.
fn open_rows(
    alloc: Global,
    program: &Checked,
    head: &Head,
    input: &[Slot],
    budget: u64,
    total: u64,
    cells: &[Cell],
) -> Result<Vec<Row>, Stop>
    requires there { head.now.unit < length (procedures_of program.now.program) }
    requires fits { (u : Procedure) → slice_get (procedures_of program.now.program) head.now.unit ≡ Some u → fits words u (map slot_seen input.now) ≡ true }
    ensures { (u : Procedure) → slice_get (procedures_of program.now.program) head.now.unit ≡ Some u
        → WholeSo total (map place_of cells.now) (λ rows. rows_of rows.items) (pattern_run (task_on (procedures_of program.now.program) u head.now.vars (map slot_seen input.now) budget)) result }
{
    if cells.is_empty() {
        Ok(Vec::new(alloc))
    } else {
        rows_by_blocks(alloc, program, head, input, budget, total, cells)
    }
}

/// The pattern of the derivative of a unit of a checked program on an input that fits it: the cells of its independents, and for each cell of its
/// dependents the columns on which it can depend along the path of the run. The run may take so many statements. A trap, and more to do, come as
/// in the dual runs. A dummy whose number passes 32 bits counts as too large for memory.
pub fn pattern(
    alloc: Global,
    program: &Checked,
    head: &Head,
    input: &[Slot],
    budget: u64,
) -> Result<Sparsity, Stop>
    requires there { head.now.unit < length (procedures_of program.now.program) }
    requires fits { (u : Procedure) → slice_get (procedures_of program.now.program) head.now.unit ≡ Some u → fits words u (map slot_seen input.now) ≡ true }
    ensures { (u : Procedure) → slice_get (procedures_of program.now.program) head.now.unit ≡ Some u
        → let p = task_on (procedures_of program.now.program) u head.now.vars (map slot_seen input.now) budget in PatternSo p head.now.outvars (pattern_run p) result }
{
    let vars = head.vars.as_slice();
    let outvars = head.outvars.as_slice();
    let cols = places(alloc, vars, input)?;
    let cells = places(alloc, outvars, input)?;
    let columns = cols.as_slice();
    let total = columns.len() as u64;
    let dependents = cells.as_slice();
    let slots = few_run(alloc, program, head, input, budget)?;
    let kept = slots.as_slice();
    let unlisted = open_cells(alloc, kept, dependents)?;
    let left = unlisted.as_slice();
    let others = open_rows(alloc, program, head, input, budget, total, left)?;
    let rows = all_rows(alloc, kept, dependents, others)?;
    Ok(Sparsity {
        cols,
        rows: Items::new(rows),
    })
}
