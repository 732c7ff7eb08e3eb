//! The steps of flow: those along ways as arcs, which carry the variables of a unit, and the others as edges.

ghost use Rattle.std.specs.Prelude.{◌≡◌, ◌++◌, ◌∷◌, [], IfOk, OnOk, map};
ghost use Rattle.def_names.specs.VariableLists.{list_if};
ghost use Rattle.adj_flow.specs.Rows.{row_of};
ghost use Rattle.adj_flow.specs.WayView.{way_of};
ghost use Rattle.adj_flow.specs.UnitRows.{AreNumbered};
ghost use Rattle.adj_activity.specs.Arcs.{arc_of, way_arc, row_arcs, flow_arcs, AreAlong};

use crate::listing::edges;
use crate::steps::Steps;
use adj_flow::{Deed, Flow, Part, Way, assigned_place, number, variable_rows};
use adj_reach::flag_at;
use adj_reach_rows::{Arc, Rows};
use adj_tree::Memory;
use std::alloc::Global;

/// Rows of the variables of units, arcs that carry them along ways, and the other steps as edges. There are so many nodes for each point.
pub(crate) struct Along {
    pub width: usize,
    pub rows: Rows,
    pub arcs: Vec<Arc>,
    pub edges: Vec<(usize, usize)>,
}

impl Drop for Along {
    fn drop(self) {
        let Along {
            width: _,
            rows: _rows,
            arcs: _arcs,
            edges: _edges,
        } = self;
    }
}

// Adds the arc of a way on which no unit is called.
fn add_arc(arcs: &mut Vec<Arc>, part: &Part<'_>, way: Way<'_>) -> Result<(), Memory>
    ensures added { OnOk result (arcs.new.items ≡ arcs.old.items ++ arc_of (row_of part.now) (way_of way.entry) ∷ []) }
{
    let from = number(way.from);
    let to = number(way.to);
    let left = assigned_place(part, way.deed);
    let arc = Arc {
        from,
        to,
        kept: part.number,
        left,
    };
    arcs.push(arc)?;
    Ok(())
}

// Adds the arc of a way, if no unit is called on it.
fn add_way(arcs: &mut Vec<Arc>, part: &Part<'_>, way: Way<'_>) -> Result<(), Memory>
    ensures added { OnOk result (arcs.new.items ≡ arcs.old.items ++ way_arc (row_of part.now) (way_of way.entry)) }
{
    match way.deed {
        Deed::Passing | Deed::Assigning(_, _) => add_arc(arcs, part, way),
        Deed::Calling(_) => Ok(()),
    }
}

// Adds the arcs of the ways of a unit.
fn add_unit(arcs: &mut Vec<Arc>, part: &Part<'_>) -> Result<(), Memory>
    ensures added { OnOk result (arcs.new.items ≡ arcs.old.items ++ row_arcs (row_of part.now)) }
{
    for way in part.ways.as_slice() {
        add_way(arcs, part, *way)?;
    }
    Ok(())
}

// The same, if the unit takes part.
fn add_taking(arcs: &mut Vec<Arc>, part: &Part<'_>, takes_part: bool) -> Result<(), Memory>
    ensures added { OnOk result (arcs.new.items ≡ arcs.old.items ++ list_if takes_part (row_arcs (row_of part.now))) }
{
    if takes_part {
        add_unit(arcs, part)?;
    }
    Ok(())
}

// The arcs of the units that take part.
fn flow_arcs(alloc: Global, flow: &Flow<'_>) -> Result<Vec<Arc>, Memory>
    ensures arcs { IfOk result (λ v. v.items ≡ flow_arcs (map row_of flow.now.parts.items) flow.now.taking) }
{
    let mut arcs = Vec::new(alloc);
    let taking = flow.taking.as_slice();
    for part in flow.parts.as_slice() {
        let takes_part = flag_at(taking, part.number);
        add_taking(&mut arcs, part, takes_part)?;
    }
    Ok(arcs)
}

/// The steps of flow of the units that take part.
pub(crate) fn steps_of_flow(alloc: Global, flow: &Flow<'_>) -> Result<Along, Memory>
    requires { AreNumbered flow.now flow.now.width }
    ensures along { IfOk result (λ s. AreAlong flow.now s) }
{
    let width = flow.width.max(1);
    let rows = variable_rows(alloc, flow, width)?;
    let arcs = flow_arcs(alloc, flow)?;
    let edges = edges(alloc, flow, Steps::Flow)?;
    Ok(Along {
        width,
        rows,
        arcs,
        edges,
    })
}
