//! Which blocks units use.

ghost use Rattle.std.specs.Prelude.{◌≡◌, ◌++◌, ◌+◌, ◌↔◌, ◌∷◌, [], ℕ, map, flat_map, IsTrue, IfOk, OnOk, if◌then◌else◌};
ghost use Rattle.adj_tree.specs.View.{act_of, code_of};
ghost use Rattle.adj_tree.specs.CommonView.{shared_of};
ghost use Rattle.def_names.specs.Statements.{statements};
ghost use Rattle.adj_reach.specs.Edges.{ReachedBack, flag};
ghost use Rattle.adj_symbols_writes.specs.View.{seen};
ghost use Rattle.adj_common.specs.Views.{text_of};
ghost use Rattle.adj_common.specs.Layouts.{units_of_row};
ghost use Rattle.adj_common.specs.Using.{unit_numbers, act_edges, unit_edges, edges_from, AreReached, row_from, rows_from};

use crate::blocks::Blocks;
use crate::layouts::units_of_row;
use adj_reach::{flag_at, reached_back};
use adj_symbols_writes::statements::statements;
use adj_symbols_writes::table::Numbers;
use adj_tree::{Act, Flags, Memory, SharedUnit, Stmt, Stmts};
use std::alloc::Global;

/// The number of the first unit of each name.
pub(crate) fn unit_numbers<'a>(
    alloc: Global,
    units: &'a [SharedUnit],
) -> Result<Numbers<'a>, Memory>
    ensures numbers { IfOk result (λ n. n ≡ unit_numbers (map shared_of units.now)) }
{
    let mut numbers = Numbers::new(alloc);
    for (number, shared) in units.iter().enumerate() {
        numbers.add(&shared.unit.name, number)?;
    }
    Ok(numbers)
}

// Adds an edge from a unit to the one that a statement calls.
fn add_edge(
    numbers: &Numbers<'_>,
    unit: usize,
    act: &Act,
    edges: &mut Vec<(usize, usize)>,
) -> Result<(), Memory>
    ensures added { OnOk result (edges.new.items ≡ edges.old.items ++ act_edges numbers.now unit (act_of act.now)) }
{
    match act {
        Act::Call(name, _) => {
            if let Some(called) = numbers.get(name) {
                edges.push((unit, called))?;
            }
        }
        Act::Assign(_, _) | Act::If(_, _, _) | Act::Loop(_, _, _, _, _, _) | Act::While(_, _) => {}
        Act::Run(_) => {}
    }
    Ok(())
}

// Adds those of some statements.
fn add_all(
    numbers: &Numbers<'_>,
    unit: usize,
    stmts: &[&Stmt],
    edges: &mut Vec<(usize, usize)>,
) -> Result<(), Memory>
    ensures added { OnOk result (edges.new.items ≡ edges.old.items ++ flat_map (λ t. act_edges numbers.now unit t.1) (seen stmts.now)) }
{
    for stmt in stmts {
        add_edge(numbers, unit, &stmt.act, edges)?;
    }
    Ok(())
}

// Adds those of a unit.
fn add_unit(
    alloc: Global,
    numbers: &Numbers<'_>,
    unit: usize,
    body: &Stmts,
    edges: &mut Vec<(usize, usize)>,
) -> Result<(), Memory>
    ensures added { OnOk result (edges.new.items ≡ edges.old.items ++ flat_map (λ t. act_edges numbers.now unit t.1) (statements (code_of body.now))) }
{
    let stmts = statements(alloc, body)?;
    add_all(numbers, unit, stmts.as_slice(), edges)
}

/// An edge for each call, from the calling unit to the called one.
pub(crate) fn edges(
    alloc: Global,
    numbers: &Numbers<'_>,
    units: &[SharedUnit],
) -> Result<Vec<(usize, usize)>, Memory>
    ensures edges { IfOk result (λ v. v.items ≡ edges_from numbers.now 0 (map shared_of units.now)) }
{
    let mut edges = Vec::new(alloc);
    for (unit, shared) in units.iter().enumerate() {
        add_unit(alloc, numbers, unit, &shared.unit.body, &mut edges)?;
    }
    Ok(edges)
}

// The units that use a block.
fn flags_of(
    alloc: Global,
    edges: &[(usize, usize)],
    owners: &[usize],
    row: &[usize],
) -> Result<Flags, Memory>
    ensures reached { IfOk result (λ f. (u : ℕ) → IsTrue (flag f u) ↔ ReachedBack edges.now (units_of_row owners.now row.now) u) }
{
    let units = units_of_row(alloc, owners, row)?;
    reached_back(alloc, edges, units.as_slice())
}

/// Those of each block.
pub(crate) fn all_flags(
    alloc: Global,
    edges: &[(usize, usize)],
    blocks: &Blocks<'_>,
) -> Result<Vec<Flags>, Memory>
    ensures reached { IfOk result (λ v. AreReached edges.now (text_of blocks.now).owners (text_of blocks.now).table.rows v.items) }
{
    let mut all = Vec::new(alloc);
    for row in blocks.rows() {
        all.push(flags_of(alloc, edges, blocks.owners(), row.as_slice())?)?;
    }
    Ok(all)
}

// Adds the number of a block, if a unit has its flag.
fn add_flagged(
    flags: &[bool],
    block: usize,
    unit: usize,
    out: &mut Vec<usize>,
) -> Result<(), Memory>
    ensures added { OnOk result (out.new.items ≡ out.old.items ++ (if flag flags.now unit then block ∷ [] else [])) }
{
    if flag_at(flags, unit) {
        out.push(block)?;
    }
    Ok(())
}

// The numbers of the blocks that a unit uses.
fn used_row(alloc: Global, flags: &[Flags], unit: usize) -> Result<Vec<usize>, Memory>
    ensures row { IfOk result (λ v. v.items ≡ row_from 0 flags.now unit) }
{
    let mut row = Vec::new(alloc);
    for (block, flags) in flags.iter().enumerate() {
        add_flagged(flags.as_slice(), block, unit, &mut row)?;
    }
    Ok(row)
}

/// Those of all units.
pub(crate) fn used_rows(
    alloc: Global,
    flags: &[Flags],
    units: &[SharedUnit],
) -> Result<Vec<Vec<usize>>, Memory>
    ensures rows { IfOk result (λ v. map (λ r. r.items) v.items ≡ rows_from flags.now 0 (map shared_of units.now)) }
{
    let mut rows = Vec::new(alloc);
    for (unit, _shared) in units.iter().enumerate() {
        rows.push(used_row(alloc, flags, unit)?)?;
    }
    Ok(rows)
}
