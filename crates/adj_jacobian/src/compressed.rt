//! The derivative of a unit on an input, from one dual run for each group of columns.

ghost use Rattle.std.specs.Prelude.{◌≡◌, ◌<◌, ◌++◌, ◌∷◌, [], Some, IfOk, OnOk, length, map, slice_get, true};
ghost use Rattle.adj_tree.specs.Code.{Procedure};
ghost use Rattle.adj_tree.specs.View.{procedures_of};
ghost use Rattle.def_meaning.specs.Numbers.{words};
ghost use Rattle.def_meaning.specs.Units.{fits};
ghost use Rattle.def_jacobian.specs.Patterns.{pattern_run, dual_run};
ghost use Rattle.def_jacobian.specs.Groups.{seed};
ghost use Rattle.def_jacobian.specs.Recovered.{places};
ghost use Rattle.adj_jacobian_groups.specs.View.{place_of};
ghost use Rattle.adj_interp.specs.Concludes.{slot_seen};
ghost use Rattle.adj_jacobian.specs.Ends.{task_on};
ghost use Rattle.adj_jacobian.specs.Derives.{ProductSo, ProductsSo, DerivesSo};

use crate::directions::seeds;
use crate::entry::Derivative;
use crate::patterns::pattern;
use crate::recovery::recover;
use adj_interp::{Stop, run_dual};
use adj_jacobian_groups::{Grouping, Sparsity, groups};
use adj_symbols::Checked;
use adj_tree::{Head, Items, Memory, Slot, Values};
use std::alloc::Global;

// A copy of each slot.
fn copies(alloc: Global, values: &[Slot]) -> Result<Values, Memory>
    ensures { IfOk result (λ v. v ≡ values.now) }
{
    let mut slots = Vec::new(alloc);
    for slot in values {
        let cells = slot.cells.as_slice().to_vec(alloc)?;
        slots.push(Slot {
            rows: slot.rows,
            cols: slot.cols,
            cells: Items::new(cells),
        })?;
    }
    Ok(Items::new(slots))
}

// The tangents that the dual run of a group leaves.
fn product(
    alloc: Global,
    program: &Checked,
    head: &Head,
    input: Values,
    sparsity: &Sparsity,
    grouping: &Grouping,
    group: u64,
    budget: u64,
) -> Result<Values, Stop>
    requires there { head.now.unit < length (procedures_of program.now.program) }
    requires fits { (u : Procedure) → slice_get (procedures_of program.now.program) head.now.unit ≡ Some u → fits words u (map slot_seen input) ≡ true }
    requires columns { map place_of sparsity.now.cols ≡ places head.now.vars (map slot_seen input) 0 }
    ensures { (u : Procedure) → slice_get (procedures_of program.now.program) head.now.unit ≡ Some u
        → let p = task_on (procedures_of program.now.program) u head.now.vars (map slot_seen input) budget in ProductSo (pattern_run p) (dual_run p (seed grouping.now.group group)) result }
{
    let tangents = seeds(alloc, sparsity, grouping, group, input.as_slice())?;
    match run_dual(alloc, program, head.unit, input, tangents, budget) {
        Ok((_values, tangents)) => Ok(tangents),
        Err(stop) => Err(stop),
    }
}

// Adds the product of a group.
fn add_product(all: &mut Vec<Values>, made: Values) -> Result<(), Memory>
    ensures { OnOk result (all.new.items ≡ all.old.items ++ made ∷ []) }
{
    all.push(made)?;
    Ok(())
}

// The tangents that the dual runs of all groups leave.
fn products(
    alloc: Global,
    program: &Checked,
    head: &Head,
    input: &[Slot],
    sparsity: &Sparsity,
    grouping: &Grouping,
    budget: u64,
) -> Result<Vec<Values>, Stop>
    requires there { head.now.unit < length (procedures_of program.now.program) }
    requires fits { (u : Procedure) → slice_get (procedures_of program.now.program) head.now.unit ≡ Some u → fits words u (map slot_seen input.now) ≡ true }
    requires columns { map place_of sparsity.now.cols ≡ places head.now.vars (map slot_seen input.now) 0 }
    ensures { (u : Procedure) → slice_get (procedures_of program.now.program) head.now.unit ≡ Some u
        → ProductsSo (task_on (procedures_of program.now.program) u head.now.vars (map slot_seen input.now) budget) grouping.now.group grouping.now.count (λ ps. ps.items) result }
{
    let mut all = Vec::new(alloc);
    for group in 0..grouping.count {
        let copy = copies(alloc, input)?;
        let made = product(
            alloc, program, head, copy, sparsity, grouping, group, budget,
        )?;
        add_product(&mut all, made)?;
    }
    Ok(all)
}

/// The derivative of a unit of a checked program on an input that fits it: its pattern, the least groups of its columns, and each entry of the
/// dense derivative within the pattern, from one dual run for each group. Each run may take so many statements. A stop is that of the pattern run.
pub fn derivative(
    alloc: Global,
    program: &Checked,
    head: &Head,
    input: Values,
    budget: u64,
) -> Result<Derivative, Stop>
    requires there { head.now.unit < length (procedures_of program.now.program) }
    requires fits { (u : Procedure) → slice_get (procedures_of program.now.program) head.now.unit ≡ Some u → fits words u (map slot_seen input) ≡ true }
    ensures { (u : Procedure) → slice_get (procedures_of program.now.program) head.now.unit ≡ Some u
        → let p = task_on (procedures_of program.now.program) u head.now.vars (map slot_seen input) budget in DerivesSo p head.now.outvars (pattern_run p) result }
{
    let values = input.as_slice();
    let sparsity = pattern(alloc, program, head, values, budget)?;
    let grouping = groups(alloc, &sparsity)?;
    let tangents = products(alloc, program, head, values, &sparsity, &grouping, budget)?;
    let products = tangents.as_slice();
    let jacobian = recover(alloc, &sparsity, &grouping, products)?;
    Ok(Derivative {
        sparsity,
        grouping,
        jacobian,
    })
}
