//! The activity of a program, and which of its variables carry a tangent.

ghost use Rattle.std.specs.Prelude.{◌≡◌, ◌↔◌, ◌++◌, ◌<◌, ◌^◌, ◌*◌, ℕ, IfOk, IsTrue, map};
ghost use Rattle.def_flow.specs.Activity.{IsActivity};
ghost use Rattle.adj_flow.specs.Rows.{row_of};
ghost use Rattle.adj_reach.specs.Edges.{ReachedFrom, ReachedBack, flag};
ghost use Rattle.adj_activity.specs.View.{flow_listed, shadows_listed, adjoints_listed};
ghost use Rattle.adj_activity.specs.Starts.{point_nodes, all_active, all_outright};
ghost use Rattle.adj_activity.specs.Carried.{AreCarried};
ghost use Rattle.adj_flow.specs.Asked.{IsFlow, problem_of};
ghost use Rattle.adj_flow.specs.UnitRows.{AreNumbered};
ghost use Rattle.adj_activity.specs.Arcs.{AreAlong};
ghost use Rattle.adj_flow.specs.Marked.{activity_of};

use crate::adjointed::outright;
use crate::along::{Along, steps_of_flow};
use crate::found::{Found, Sets};
use crate::listing::edges;
use crate::starts::{add_all_active, add_flagged};
use crate::steps::Steps;
use adj_flow::{Flow, Part, picked};
use adj_reach::reached;
use adj_reach_rows::{Rows, reached_back_by_rows, reached_by_rows};
use adj_tree::{Activity, BitFlags, Flags, Head, Memory};
use std::alloc::Global;

// Where flow begins or ends: the flagged dummies of the head at a point.
fn point_nodes(
    alloc: Global,
    width: usize,
    part: &Part<'_>,
    point: usize,
    flags: &[bool],
) -> Result<Vec<usize>, Memory>
    requires width { width < 2 ^ 30 }
    requires point { point < 5 * 2 ^ 30 }
    ensures nodes { IfOk result (λ v. v.items ≡ point_nodes width (row_of part.now) point flags.now) }
{
    let mut nodes = Vec::new(alloc);
    add_flagged(&mut nodes, width, part, point, flags)?;
    Ok(nodes)
}

// The varied variables, by the steps of flow.
fn varied(
    alloc: Global,
    flow: &Flow<'_>,
    part: &Part<'_>,
    head: &Head,
    along: &Along,
) -> Result<BitFlags, Memory>
    requires flow { AreNumbered flow.now flow.now.width }
    requires along { AreAlong flow.now along.now }
    ensures varied { IfOk result (λ f. (m : ℕ) → IsTrue (flag f m) ↔ ReachedFrom (flow_listed (map row_of flow.now.parts.items) flow.now.numbers flow.now.taking flow.now.width) (point_nodes flow.now.width (row_of part.now) (row_of part.now).part.entry head.now.vars) m) }
{
    let entry = point_nodes(alloc, flow.width, part, part.entry, head.vars.as_slice())?;
    reached_by_rows(
        alloc,
        along.width,
        &along.rows,
        along.arcs.as_slice(),
        along.edges.as_slice(),
        entry.as_slice(),
    )
}

// The useful variables, by the same steps.
fn useful(
    alloc: Global,
    flow: &Flow<'_>,
    part: &Part<'_>,
    head: &Head,
    along: &Along,
) -> Result<BitFlags, Memory>
    requires flow { AreNumbered flow.now flow.now.width }
    requires along { AreAlong flow.now along.now }
    ensures useful { IfOk result (λ f. (m : ℕ) → IsTrue (flag f m) ↔ ReachedBack (flow_listed (map row_of flow.now.parts.items) flow.now.numbers flow.now.taking flow.now.width) (point_nodes flow.now.width (row_of part.now) (row_of part.now).part.end head.now.outvars) m) }
{
    let end = point_nodes(alloc, flow.width, part, part.end, head.outvars.as_slice())?;
    reached_back_by_rows(
        alloc,
        along.width,
        &along.rows,
        along.arcs.as_slice(),
        along.edges.as_slice(),
        end.as_slice(),
    )
}

// The varied and the useful variables.
fn flowing(
    alloc: Global,
    flow: &Flow<'_>,
    part: &Part<'_>,
    head: &Head,
) -> Result<(BitFlags, BitFlags), Memory>
    requires { AreNumbered flow.now flow.now.width }
    ensures varied { IfOk result (λ f. (m : ℕ) → IsTrue (flag f.0 m) ↔ ReachedFrom (flow_listed (map row_of flow.now.parts.items) flow.now.numbers flow.now.taking flow.now.width) (point_nodes flow.now.width (row_of part.now) (row_of part.now).part.entry head.now.vars) m) }
    ensures useful { IfOk result (λ f. (m : ℕ) → IsTrue (flag f.1 m) ↔ ReachedBack (flow_listed (map row_of flow.now.parts.items) flow.now.numbers flow.now.taking flow.now.width) (point_nodes flow.now.width (row_of part.now) (row_of part.now).part.end head.now.outvars) m) }
{
    let along = steps_of_flow(alloc, flow)?;
    let varied = varied(alloc, flow, part, head, &along)?;
    let useful = useful(alloc, flow, part, head, &along)?;
    Ok((varied, useful))
}

// The variables that have a shadow or a tangent outright.
fn shadow_nodes(
    alloc: Global,
    flow: &Flow<'_>,
    part: &Part<'_>,
    head: &Head,
    sets: Sets<'_>,
) -> Result<Vec<usize>, Memory>
    ensures nodes { IfOk result (λ v. v.items ≡ (point_nodes flow.now.width (row_of part.now) (row_of part.now).part.number head.now.vars ++ point_nodes flow.now.width (row_of part.now) (row_of part.now).part.number head.now.outvars) ++ all_active sets.entry.varied.now sets.entry.useful (map row_of flow.now.parts.items) flow.now.taking flow.now.width) }
{
    let mut nodes = point_nodes(alloc, flow.width, part, part.number, head.vars.as_slice())?;
    add_flagged(
        &mut nodes,
        flow.width,
        part,
        part.number,
        head.outvars.as_slice(),
    )?;
    add_all_active(alloc, &mut nodes, flow, sets)?;
    Ok(nodes)
}

// The variables that have a shadow or a tangent: those that have one outright, and those that are lent one.
fn shadowed(
    alloc: Global,
    flow: &Flow<'_>,
    part: &Part<'_>,
    head: &Head,
    sets: Sets<'_>,
) -> Result<Flags, Memory>
    ensures shadowed { IfOk result (λ f. (m : ℕ) → IsTrue (flag f m) ↔ ReachedFrom (shadows_listed sets.entry.varied (map row_of flow.now.parts.items) flow.now.numbers flow.now.taking flow.now.width) ((point_nodes flow.now.width (row_of part.now) (row_of part.now).part.number head.now.vars ++ point_nodes flow.now.width (row_of part.now) (row_of part.now).part.number head.now.outvars) ++ all_active sets.entry.varied.now sets.entry.useful (map row_of flow.now.parts.items) flow.now.taking flow.now.width) m) }
{
    let edges = edges(alloc, flow, Steps::Shadows(sets.varied))?;
    let nodes = shadow_nodes(alloc, flow, part, head, sets)?;
    reached(alloc, edges.as_slice(), nodes.as_slice())
}

// The statements that have an adjoint, and the units that hold one.
fn adjointed(alloc: Global, flow: &Flow<'_>, found: Found<'_>) -> Result<BitFlags, Memory>
    ensures adjointed { IfOk result (λ f. (m : ℕ) → IsTrue (flag f m) ↔ ReachedFrom (adjoints_listed (map row_of flow.now.parts.items) flow.now.numbers flow.now.taking flow.now.width) (all_outright found.entry (map row_of flow.now.parts.items) flow.now.taking flow.now.width) m) }
{
    let edges = edges(alloc, flow, Steps::Adjoints)?;
    let nodes = outright(alloc, flow, found)?;
    let rows = Rows::new(alloc, 0, 2)?;
    reached_by_rows(alloc, 2, &rows, &[], edges.as_slice(), nodes.as_slice())
}

/// The activity of the program of which this is the flow, for a head: varied and useful variables by node, which statements have an
/// adjoint, and which variables of units a shadow.
pub fn activity(alloc: Global, flow: &Flow<'_>, head: &Head) -> Result<Activity, Memory>
    requires flow { IsFlow flow.now head.now.unit }
    ensures activity { IfOk result (λ a. IsActivity (problem_of flow.now head.now) (activity_of flow.now a)) }
{
    let part = &flow.parts.as_slice()[head.unit];
    let (varied, useful) = flowing(alloc, flow, part, head)?;
    let sets = Sets {
        varied: &varied,
        useful: Some(&useful),
    };
    let shadowed = shadowed(alloc, flow, part, head, sets)?;
    let found = Found {
        varied: &varied,
        useful: &useful,
        shadowed: shadowed.as_slice(),
    };
    let reached = adjointed(alloc, flow, found)?;
    // Statements have the even numbers.
    let adjointed = picked(alloc, &reached, 2, 0)?;
    Ok(Activity {
        varied,
        useful,
        adjointed,
        shadowed,
    })
}

/// Which variables of units carry a tangent, in the program of which this is the flow, for a head: its independents and dependents, what is
/// varied at a point of its unit, and the actual of each dummy that carries one. The variable at place `j` of the unit of the number `u` has
/// the number `u * width + j`.
pub fn carried(alloc: Global, flow: &Flow<'_>, head: &Head) -> Result<Flags, Memory>
    requires flow { IsFlow flow.now head.now.unit }
    ensures carried { IfOk result (λ f. AreCarried flow.now head.now f) }
{
    let part = &flow.parts.as_slice()[head.unit];
    let along = steps_of_flow(alloc, flow)?;
    let varied = varied(alloc, flow, part, head, &along)?;
    // An actual lends only to a dummy that is varied at its unit's entry, and such a dummy carries one by itself.
    let sets = Sets {
        varied: &varied,
        useful: None,
    };
    let carried = shadowed(alloc, flow, part, head, sets)?;
    Ok(carried)
}
