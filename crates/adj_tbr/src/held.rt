//! The arcs along which variables are held: those of ways, but for what kept statements replace there.

ghost use Rattle.std.specs.Prelude.{◌≡◌, ◌++◌, IfOk, OnOk, map};
ghost use Rattle.def_names.specs.VariableLists.{list_if};
ghost use Rattle.adj_flow.specs.Rows.{row_of};
ghost use Rattle.adj_flow.specs.WayView.{deed_of, way_of};
ghost use Rattle.adj_tbr.specs.View.{replaced_at, way_arc, unit_arcs, held_arcs};

use crate::found::Found;
use adj_flow::{Deed, Flow, Part, Way, assigned_place, number};
use adj_reach::flag_at;
use adj_reach_rows::Arc;
use adj_tree::Memory;
use std::alloc::Global;

// The place of the variable that a kept statement assigns whole on a way.
fn replaced(found: Found<'_>, part: &Part<'_>, deed: Deed<'_>) -> Option<usize>
    ensures replaced { result ≡ replaced_at found.entry (row_of part.now) (deed_of deed.entry) }
{
    match deed {
        Deed::Assigning(statement, _) => {
            if found.is_kept(statement) {
                assigned_place(part, deed)
            } else {
                None
            }
        }
        Deed::Passing | Deed::Calling(_) => None,
    }
}

// Adds the arc of a way.
fn add_way(
    arcs: &mut Vec<Arc>,
    found: Found<'_>,
    part: &Part<'_>,
    way: Way<'_>,
) -> Result<(), Memory>
    ensures added { OnOk result (arcs.new.items ≡ arcs.old.items ++ way_arc found.entry (row_of part.now) (way_of way.entry)) }
{
    let from = number(way.from);
    let to = number(way.to);
    let left = replaced(found, part, way.deed);
    let arc = Arc {
        from,
        to,
        kept: part.number,
        left,
    };
    arcs.push(arc)?;
    Ok(())
}

// Adds the arcs of a unit.
fn add_unit(arcs: &mut Vec<Arc>, found: Found<'_>, part: &Part<'_>) -> Result<(), Memory>
    ensures added { OnOk result (arcs.new.items ≡ arcs.old.items ++ unit_arcs found.entry (row_of part.now)) }
{
    for way in part.ways.as_slice() {
        add_way(arcs, found, part, *way)?;
    }
    Ok(())
}

// The same, if the unit takes part.
fn add_taking(
    arcs: &mut Vec<Arc>,
    found: Found<'_>,
    part: &Part<'_>,
    takes_part: bool,
) -> Result<(), Memory>
    ensures added { OnOk result (arcs.new.items ≡ arcs.old.items ++ list_if takes_part (unit_arcs found.entry (row_of part.now))) }
{
    if takes_part {
        add_unit(arcs, found, part)?;
    }
    Ok(())
}

/// The arcs of all units that take part.
pub(crate) fn held_arcs(
    alloc: Global,
    flow: &Flow<'_>,
    found: Found<'_>,
) -> Result<Vec<Arc>, Memory>
    ensures arcs { IfOk result (λ v. v.items ≡ held_arcs found.entry (map row_of flow.now.parts.items) flow.now.taking) }
{
    let mut arcs = Vec::new(alloc);
    let taking = flow.taking.as_slice();
    for part in flow.parts.as_slice() {
        let takes_part = flag_at(taking, part.number);
        add_taking(&mut arcs, found, part, takes_part)?;
    }
    Ok(arcs)
}
