//! What is live in a program.

ghost use Rattle.std.specs.Prelude.{◌≡◌, ◌↔◌, ℕ, IfOk, IsTrue, map};
ghost use Rattle.def_meaning.specs.LeastSet.{least_rows};
ghost use Rattle.def_meaning.specs.Read.{read_rule};
ghost use Rattle.def_meaning.specs.Written.{write_rule};
ghost use Rattle.adj_flow.specs.Rows.{row_of};
ghost use Rattle.adj_flow.specs.Asked.{IsFlow, units_of, problem_of};
ghost use Rattle.adj_flow.specs.UnitRows.{AreNumbered};
ghost use Rattle.adj_reach.specs.Edges.{ReachedFrom, flag};
ghost use Rattle.adj_flow.specs.Marked.{activity_of};
ghost use Rattle.adj_live.specs.Listed.{all_nodes, all_edges};
ghost use Rattle.adj_live.specs.View.{here_in};
ghost use Rattle.adj_live.specs.Asked.{TellsLive};

use crate::begins::nodes;
use crate::known::Known;
use crate::site::stride;
use crate::steps::{arcs, edges};
use adj_flow::sides::Sides;
use adj_flow::{Flow, Units, picked, variable_rows};
use adj_reach_rows::reached_by_rows;
use adj_tree::{Activity, BitFlags, Head, Kept, Memory};
use std::alloc::Global;

// The facts that hold, by number.
fn facts(alloc: Global, flow: &Flow<'_>, known: Known<'_, '_>) -> Result<BitFlags, Memory>
    requires flow { AreNumbered flow.now flow.now.width }
    requires width { known.width ≡ flow.now.width }
    ensures facts { IfOk result (λ f. (m : ℕ) → IsTrue (flag f m) ↔ ReachedFrom (all_edges (here_in known.entry) (map row_of flow.now.parts.items) flow.now.taking) (all_nodes (here_in known.entry) (map row_of flow.now.parts.items) flow.now.taking) m) }
{
    let width = stride(flow.width);
    let rows = variable_rows(alloc, flow, width)?;
    let arcs = arcs(alloc, flow, known)?;
    let edges = edges(alloc, flow, known)?;
    let nodes = nodes(alloc, flow, known)?;
    reached_by_rows(
        alloc,
        width,
        &rows,
        arcs.as_slice(),
        edges.as_slice(),
        nodes.as_slice(),
    )
}

/// The statements that the forward sweep keeps, and the dummies whose values each adjoint unit needs when it begins, in the program of
/// which this is the flow, where its units read and write these of their dummies: kept statements by number, and dummies by unit and
/// variable. It is exact by whatever activity is given.
pub fn live(
    alloc: Global,
    flow: &Flow<'_>,
    sides: Sides<'_>,
    head: &Head,
    activity: &Activity,
) -> Result<Kept, Memory>
    requires flow { IsFlow flow.now head.now.unit }
    requires read { map (λ b. b.now) sides.read.now ≡ least_rows read_rule (units_of flow.now) }
    requires written { map (λ b. b.now) sides.written.now ≡ least_rows write_rule (units_of flow.now) }
    ensures live { IfOk result (λ t. TellsLive flow.now (problem_of flow.now head.now) (activity_of flow.now activity.now) t) }
{
    let known = Known {
        units: Units {
            parts: flow.parts.as_slice(),
            numbers: &flow.numbers,
        },
        width: flow.width,
        sides,
        activity,
        split: flow.split.as_slice(),
    };
    let facts = facts(alloc, flow, known)?;
    let stride = stride(flow.width);
    let kept = picked(alloc, &facts, stride, flow.width)?;
    let entry = picked(alloc, &facts, stride, stride - 1)?;
    Ok(Kept { kept, entry })
}
