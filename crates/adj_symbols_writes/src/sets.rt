//! The dummies that units write, and those that they read.

ghost use Rattle.std.specs.Prelude.{◌≡◌, map, IfOk};
ghost use Rattle.adj_tree.specs.View.{procedure_of};
ghost use Rattle.def_meaning.specs.LeastSet.{least_rows};
ghost use Rattle.def_meaning.specs.Read.{read_rule};
ghost use Rattle.def_meaning.specs.Written.{write_rule};
ghost use Rattle.adj_reach.specs.Edges.{flag};
ghost use Rattle.adj_symbols_writes.specs.Graph.{placed_of, row};
ghost use Rattle.adj_symbols_writes.specs.Names.{rule_of};

use crate::dummies::{Dummies, numbered};
use crate::links::{edges, starts};
use crate::side::Side;
use crate::table::unit_numbers;
use adj_reach::reach;
use adj_tree::{Flags, Memory, Unit};
use std::alloc::Global;

// Which of its dummies a unit has in the set, by node.
fn row(alloc: Global, flags: &[bool], dummies: &Dummies<'_>) -> Result<Flags, Memory>
    ensures row { IfOk result (λ r. r ≡ row (flag flags.now) (placed_of dummies.now)) }
{
    let mut row = Vec::new(alloc);
    let mut node = dummies.first();
    let unit = dummies.unit();
    for _dummy in unit.dummies.as_slice() {
        row.push(flags.get(node).copied().unwrap_or(false))?;
        node += 1;
    }
    Ok(Flags::new(row))
}

// The same for all units.
fn rows(alloc: Global, flags: &[bool], units: &[Dummies<'_>]) -> Result<Vec<Flags>, Memory>
    ensures rows { IfOk result (λ v. v.items ≡ map (row (flag flags.now)) (map placed_of units.now)) }
{
    let mut rows = Vec::new(alloc);
    for dummies in units {
        rows.push(row(alloc, flags, dummies)?)?;
    }
    Ok(rows)
}

// The least set of a side. Its cost is linear in the text.
fn least(alloc: Global, side: Side, units: &[Unit]) -> Result<Vec<Flags>, Memory>
    ensures least { IfOk result (λ v. v.items ≡ least_rows (rule_of side) (map procedure_of units.now)) }
{
    let placed = numbered(alloc, units)?;
    let numbers = unit_numbers(alloc, units)?;
    let nodes = placed.units.as_slice();
    let starts = starts(alloc, side, nodes)?;
    let edges = edges(alloc, nodes, &numbers)?;
    let flags = reach(alloc, placed.count, edges.as_slice(), starts.as_slice())?;
    let rows = rows(alloc, flags.as_slice(), nodes)?;
    Ok(rows)
}

/// Which of its dummies each unit writes, in order: targets, variables of DOs, what runtime calls change, and the actuals of dummies
/// that a called unit writes.
pub fn written_dummies(alloc: Global, units: &[Unit]) -> Result<Vec<Flags>, Memory>
    ensures written { IfOk result (λ v. v.items ≡ least_rows write_rule (map procedure_of units.now)) }
{
    least(alloc, Side::Written, units)
}

/// Which of its dummies each unit reads, in order: those in its expressions, conditions, bounds and subscripts, the actuals of dummies that a
/// called unit reads, and the extents of its arrays.
pub fn read_dummies(alloc: Global, units: &[Unit]) -> Result<Vec<Flags>, Memory>
    ensures read { IfOk result (λ v. v.items ≡ least_rows read_rule (map procedure_of units.now)) }
{
    least(alloc, Side::Read, units)
}
