//! The edges of the units that take part, but for those of flow along ways on which no unit is called.

ghost use Rattle.std.specs.Prelude.{◌≡◌, ◌++◌, IfOk, OnOk, map, flat_map};
ghost use Rattle.def_names.specs.VariableLists.{list_if};
ghost use Rattle.adj_flow.specs.Rows.{row_of};
ghost use Rattle.adj_symbols_writes.specs.Table.{value_of};
ghost use Rattle.adj_flow.specs.View.{standing_of};
ghost use Rattle.adj_flow.specs.NodeView.{found_at};
ghost use Rattle.adj_activity.specs.View.{standing_edges};
ghost use Rattle.adj_activity.specs.Arcs.{along_calls, other_edges, all_others};

use crate::adjoints::add_made;
use crate::calls::add_call;
use crate::statements::add_assignment;
use crate::steps::{Site, Steps};
use crate::ways::add_call_ways;
use adj_flow::actuals::Units;
use adj_flow::{Flow, Standing};
use adj_reach::flag_at;
use adj_tree::Memory;
use std::alloc::Global;

// Adds the edges of a statement of a unit.
fn add_standing(
    alloc: Global,
    edges: &mut Vec<(usize, usize)>,
    units: Units<'_, '_>,
    site: Site<'_, '_, '_>,
    standing: &Standing<'_>,
) -> Result<(), Memory>
    ensures added { OnOk result (edges.new.items ≡ edges.old.items ++ standing_edges site.entry.steps (λ x. found_at (map row_of units.entry.parts.now) (value_of x units.entry.numbers.now)) site.entry.width (row_of site.entry.part.now) (standing_of standing.now)) }
{
    let (number, act) = (standing.number, standing.act);
    match site.steps {
        Steps::Flow => {
            add_assignment(alloc, edges, site.width, site.part, number, act)?;
            add_call(alloc, edges, units, site, number, act)
        }
        Steps::Shadows(_) => add_call(alloc, edges, units, site, number, act),
        Steps::Adjoints => add_made(edges, units, site.part, standing),
    }
}

// Adds the edges of the statements of a unit.
fn add_statements(
    alloc: Global,
    edges: &mut Vec<(usize, usize)>,
    units: Units<'_, '_>,
    site: Site<'_, '_, '_>,
) -> Result<(), Memory>
    ensures added { OnOk result (edges.new.items ≡ edges.old.items ++ flat_map (standing_edges site.entry.steps (λ x. found_at (map row_of units.entry.parts.now) (value_of x units.entry.numbers.now)) site.entry.width (row_of site.entry.part.now)) (map standing_of site.entry.part.now.statements.items)) }
{
    for standing in site.part.statements.as_slice() {
        add_standing(alloc, edges, units, site, standing)?;
    }
    Ok(())
}

// Adds the edges of the ways of a unit on which a unit is called, where steps go along them.
fn add_along(
    alloc: Global,
    edges: &mut Vec<(usize, usize)>,
    site: Site<'_, '_, '_>,
) -> Result<(), Memory>
    ensures added { OnOk result (edges.new.items ≡ edges.old.items ++ along_calls site.entry.steps site.entry.width (row_of site.entry.part.now)) }
{
    match site.steps {
        Steps::Flow => add_call_ways(alloc, edges, site.width, site.part),
        Steps::Shadows(_) | Steps::Adjoints => Ok(()),
    }
}

// Adds the edges of a unit, if it takes part.
fn add_unit(
    alloc: Global,
    edges: &mut Vec<(usize, usize)>,
    units: Units<'_, '_>,
    site: Site<'_, '_, '_>,
    takes_part: bool,
) -> Result<(), Memory>
    ensures added { OnOk result (edges.new.items ≡ edges.old.items ++ list_if takes_part (other_edges site.entry.steps (λ x. found_at (map row_of units.entry.parts.now) (value_of x units.entry.numbers.now)) site.entry.width (row_of site.entry.part.now))) }
{
    if takes_part {
        add_along(alloc, edges, site)?;
        add_statements(alloc, edges, units, site)?;
    }
    Ok(())
}

/// The edges of the units that take part, by some steps, but for those that arcs carry.
pub(crate) fn edges(
    alloc: Global,
    flow: &Flow<'_>,
    steps: Steps<'_>,
) -> Result<Vec<(usize, usize)>, Memory>
    ensures edges { IfOk result (λ v. v.items ≡ all_others steps.entry (map row_of flow.now.parts.items) flow.now.numbers flow.now.taking flow.now.width) }
{
    let mut edges = Vec::new(alloc);
    let parts = flow.parts.as_slice();
    let units = Units {
        parts,
        numbers: &flow.numbers,
    };
    let taking = flow.taking.as_slice();
    for part in parts {
        let site = Site {
            steps,
            width: flow.width,
            part,
        };
        let takes_part = flag_at(taking, part.number);
        add_unit(alloc, &mut edges, units, site, takes_part)?;
    }
    Ok(edges)
}
