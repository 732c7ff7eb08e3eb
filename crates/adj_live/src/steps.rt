//! The steps of the rules, as edges between facts, and as arcs that carry the facts about all variables of a unit.

ghost use Rattle.std.specs.Prelude.{◌≡◌, ◌++◌, ◌<◌, ◌^◌, ◌*◌, Some, IfOk, OnOk, map, flat_map};
ghost use Rattle.adj_tree.specs.Code.{plain};
ghost use Rattle.adj_tree.specs.View.{act_of};
ghost use Rattle.def_flow.specs.Rules.{holders};
ghost use Rattle.def_flow.specs.Uses.{use_point};
ghost use Rattle.def_names.specs.VariableLists.{list_if};
ghost use Rattle.adj_symbols_writes.specs.View.{vars_seen};
ghost use Rattle.adj_flow.specs.Low.{IsLow};
ghost use Rattle.adj_flow.specs.Rows.{row_of};
ghost use Rattle.adj_flow.specs.NodeView.{vars_of};
ghost use Rattle.adj_flow.specs.Nodes.{linked};
ghost use Rattle.adj_flow.specs.View.{place_of, standing_of};
ghost use Rattle.adj_flow.specs.WayView.{number_of, way_of};
ghost use Rattle.adj_live.specs.Numbers.{kept_at, wanted_at};
ghost use Rattle.adj_live.specs.Listed.{needed_here, entry_edges, used_edges, assigned_edges, held_edges, handed_edges, statement_edges, way_arc, row_arcs, all_arcs, other_edges, all_others};
ghost use Rattle.adj_live.specs.View.{here_at, here_in};

use crate::calls::add_call;
use crate::known::{Known, Site};
use crate::passing::{add_handed_by, add_used_by};
use crate::site::{kept, wanted};
use adj_flow::{Flow, Place, Point, Standing, Way, add_link, assigned_place, number};
use adj_reach::flag_at;
use adj_reach_rows::Arc;
use adj_tree::{Act, Memory, Name};
use std::alloc::Global;

// Adds the edges from a fact to variables that are needed at a point.
fn add_from(
    edges: &mut Vec<(usize, usize)>,
    site: Site<'_, '_>,
    from: usize,
    point: usize,
    names: &[&Name],
) -> Result<(), Memory>
    requires point { point < 5 * 2 ^ 30 }
    ensures added { OnOk result (edges.new.items ≡ edges.old.items ++ flat_map (λ v. linked (Some from) (needed_here (here_at site.entry) point v)) (vars_seen names.now)) }
{
    for name in names {
        let to = site.needed(point, name);
        add_link(edges, Some(from), to)?;
    }
    Ok(())
}

// Adds the edges from variables that are needed at a point to a fact.
fn add_to(
    edges: &mut Vec<(usize, usize)>,
    site: Site<'_, '_>,
    point: usize,
    names: &[&Name],
    to: usize,
) -> Result<(), Memory>
    requires point { point < 5 * 2 ^ 30 }
    ensures added { OnOk result (edges.new.items ≡ edges.old.items ++ flat_map (λ v. linked (needed_here (here_at site.entry) point v) (Some to)) (vars_seen names.now)) }
{
    for name in names {
        let from = site.needed(point, name);
        add_link(edges, from, Some(to))?;
    }
    Ok(())
}

// The point at which a statement uses what it does.
fn use_point(statement: usize, act: &Act) -> Point
    requires statement { statement < 2 ^ 30 }
    ensures low { number_of result < 5 * 2 ^ 30 }
    ensures is { number_of result ≡ use_point statement (act_of act.now) }
{
    match act {
        Act::While(_, _) => Point::Inside(statement),
        Act::Assign(_, _)
        | Act::If(_, _, _)
        | Act::Loop(_, _, _, _, _, _)
        | Act::Call(_, _)
        | Act::Run(_) => Point::Before(statement),
    }
}

// Adds the edges to what a kept statement uses.
fn add_used(
    alloc: Global,
    edges: &mut Vec<(usize, usize)>,
    site: Site<'_, '_>,
    statement: usize,
    act: &Act,
) -> Result<(), Memory>
    requires statement { statement < 2 ^ 30 }
    ensures added { OnOk result (edges.new.items ≡ edges.old.items ++ used_edges (here_at site.entry) statement (act_of act.now)) }
{
    let mut names = Vec::new(alloc);
    add_used_by(site, act, &mut names)?;
    let from = kept(site.known.width, statement);
    let point = number(use_point(statement, act));
    add_from(edges, site, from, point, names.as_slice())
}

// Adds the edge from a variable that is needed at a point to a statement that is kept for it.
fn add_target(
    edges: &mut Vec<(usize, usize)>,
    site: Site<'_, '_>,
    point: Point,
    name: &Name,
    statement: usize,
) -> Result<(), Memory>
    requires point { number_of point < 5 * 2 ^ 30 }
    requires statement { statement < 2 ^ 30 }
    ensures added { OnOk result (edges.new.items ≡ edges.old.items ++ linked (needed_here (here_at site.entry) (number_of point) (plain name.now)) (Some (kept_at site.entry.known.width statement))) }
{
    let from = site.needed(number(point), name);
    let to = kept(site.known.width, statement);
    add_link(edges, from, Some(to))
}

// Adds the edge to an assignment or a DO from its variable.
fn add_assigned(
    edges: &mut Vec<(usize, usize)>,
    site: Site<'_, '_>,
    statement: usize,
    act: &Act,
) -> Result<(), Memory>
    requires statement { statement < 2 ^ 30 }
    ensures added { OnOk result (edges.new.items ≡ edges.old.items ++ assigned_edges (here_at site.entry) statement (act_of act.now)) }
{
    match act {
        Act::Assign(target, _) => {
            let after = Point::After(statement);
            add_target(edges, site, after, &target.name, statement)
        }
        Act::Loop(x, _, _, _, _, _) => {
            let inside = Point::Inside(statement);
            add_target(edges, site, inside, x, statement)
        }
        Act::If(_, _, _) | Act::While(_, _) | Act::Call(_, _) | Act::Run(_) => Ok(()),
    }
}

// Adds the edge to what holds a statement.
fn add_held(
    edges: &mut Vec<(usize, usize)>,
    width: usize,
    statement: usize,
    place: Place<'_>,
) -> Result<(), Memory>
    requires width { width < 2 ^ 30 }
    requires statement { statement < 2 ^ 30 }
    requires low { IsLow place }
    ensures added { OnOk result (edges.new.items ≡ edges.old.items ++ map (λ n. (kept_at width statement, kept_at width n)) (holders (place_of place.entry))) }
{
    match place {
        Place::Outermost => Ok(()),
        Place::PartOf(holder) | Place::TurnOf(holder, _) => {
            let from = kept(width, statement);
            let to = kept(width, holder);
            edges.push((from, to))?;
            Ok(())
        }
    }
}

// Adds the edges to a call from what it may write.
fn add_handed(
    alloc: Global,
    edges: &mut Vec<(usize, usize)>,
    site: Site<'_, '_>,
    standing: &Standing<'_>,
) -> Result<(), Memory>
    ensures added { OnOk result (edges.new.items ≡ edges.old.items ++ handed_edges (here_at site.entry) (standing_of standing.now)) }
{
    let mut names = Vec::new(alloc);
    add_handed_by(site, standing.act, &mut names)?;
    let is_adjointed = site.is_adjointed(standing.number);
    let at = standing.place.site(is_adjointed, standing.number);
    let point = number(Point::After(at));
    let to = kept(site.known.width, standing.number);
    add_to(edges, site, point, names.as_slice(), to)
}

// Adds the edges of a statement.
fn add_statement(
    alloc: Global,
    edges: &mut Vec<(usize, usize)>,
    site: Site<'_, '_>,
    standing: &Standing<'_>,
) -> Result<(), Memory>
    ensures added { OnOk result (edges.new.items ≡ edges.old.items ++ statement_edges (here_at site.entry) (standing_of standing.now)) }
{
    let (number, act) = (standing.number, standing.act);
    add_used(alloc, edges, site, number, act)?;
    add_assigned(edges, site, number, act)?;
    add_held(edges, site.known.width, number, standing.place)?;
    add_handed(alloc, edges, site, standing)?;
    add_call(alloc, edges, site, standing)
}

// Adds the edges of the statements of a unit.
fn add_statements(
    alloc: Global,
    edges: &mut Vec<(usize, usize)>,
    site: Site<'_, '_>,
) -> Result<(), Memory>
    ensures added { OnOk result (edges.new.items ≡ edges.old.items ++ flat_map (statement_edges (here_at site.entry)) (map standing_of site.entry.part.now.statements.items)) }
{
    for standing in site.part.statements.as_slice() {
        add_statement(alloc, edges, site, standing)?;
    }
    Ok(())
}

// Adds the arc of a way, which goes against it.
fn add_way(arcs: &mut Vec<Arc>, site: Site<'_, '_>, way: Way<'_>) -> Result<(), Memory>
    ensures added { OnOk result (arcs.new.items ≡ arcs.old.items ++ way_arc (here_at site.entry) (way_of way.entry)) }
{
    let from = number(way.to);
    let to = number(way.from);
    let left = assigned_place(site.part, way.deed);
    let arc = Arc {
        from,
        to,
        kept: site.part.number,
        left,
    };
    arcs.push(arc)?;
    Ok(())
}

// Adds the arcs of the ways of a unit.
fn add_ways(arcs: &mut Vec<Arc>, site: Site<'_, '_>) -> Result<(), Memory>
    ensures added { OnOk result (arcs.new.items ≡ arcs.old.items ++ row_arcs (here_at site.entry)) }
{
    for way in site.part.ways.as_slice() {
        add_way(arcs, site, *way)?;
    }
    Ok(())
}

// The same, if the unit takes part.
fn add_taking(arcs: &mut Vec<Arc>, site: Site<'_, '_>, takes_part: bool) -> Result<(), Memory>
    ensures added { OnOk result (arcs.new.items ≡ arcs.old.items ++ list_if takes_part (row_arcs (here_at site.entry))) }
{
    if takes_part {
        add_ways(arcs, site)?;
    }
    Ok(())
}

/// The arcs of the ways of the units that take part.
pub(crate) fn arcs(alloc: Global, flow: &Flow<'_>, known: Known<'_, '_>) -> Result<Vec<Arc>, Memory>
    ensures arcs { IfOk result (λ v. v.items ≡ all_arcs (here_in known.entry) (map row_of flow.now.parts.items) flow.now.taking) }
{
    let mut arcs = Vec::new(alloc);
    let taking = flow.taking.as_slice();
    for part in flow.parts.as_slice() {
        let site = Site { known, part };
        let takes_part = flag_at(taking, part.number);
        add_taking(&mut arcs, site, takes_part)?;
    }
    Ok(arcs)
}

// Adds the edge from a dummy that is needed at the entry of its unit to that it is wanted.
fn add_dummy(
    edges: &mut Vec<(usize, usize)>,
    site: Site<'_, '_>,
    dummy: &Name,
) -> Result<(), Memory>
    ensures added { OnOk result (edges.new.items ≡ edges.old.items ++ linked (needed_here (here_at site.entry) (row_of site.entry.part.now).part.entry (plain dummy.now)) (wanted_at site.entry.known.width (vars_of (row_of site.entry.part.now)) (row_of site.entry.part.now).part.number dummy.now)) }
{
    let from = site.needed(site.part.entry, dummy);
    let to = wanted(site.known.width, site.part, dummy)?;
    add_link(edges, from, to)
}

// Adds these edges of the dummies of a unit.
fn add_entry(edges: &mut Vec<(usize, usize)>, site: Site<'_, '_>) -> Result<(), Memory>
    ensures added { OnOk result (edges.new.items ≡ edges.old.items ++ entry_edges (here_at site.entry)) }
{
    for dummy in site.part.unit.dummies.as_slice() {
        add_dummy(edges, site, dummy)?;
    }
    Ok(())
}

// Adds the edges of a unit but for those of ways, if it takes part.
fn add_unit(
    alloc: Global,
    edges: &mut Vec<(usize, usize)>,
    site: Site<'_, '_>,
    takes_part: bool,
) -> Result<(), Memory>
    ensures added { OnOk result (edges.new.items ≡ edges.old.items ++ list_if takes_part (other_edges (here_at site.entry))) }
{
    if takes_part {
        add_entry(edges, site)?;
        add_statements(alloc, edges, site)?;
    }
    Ok(())
}

/// The edges of the units that take part, but for those of ways.
pub(crate) fn edges(
    alloc: Global,
    flow: &Flow<'_>,
    known: Known<'_, '_>,
) -> Result<Vec<(usize, usize)>, Memory>
    ensures edges { IfOk result (λ v. v.items ≡ all_others (here_in known.entry) (map row_of flow.now.parts.items) flow.now.taking) }
{
    let mut edges = Vec::new(alloc);
    let taking = flow.taking.as_slice();
    for part in flow.parts.as_slice() {
        let site = Site { known, part };
        let takes_part = flag_at(taking, part.number);
        add_unit(alloc, &mut edges, site, takes_part)?;
    }
    Ok(edges)
}
