//! The edges of calls.

ghost use Rattle.std.specs.Prelude.{◌≡◌, ◌++◌, ◌&&◌, ◌<◌, ◌^◌, ◌*◌, not, true, OnOk, map, flat_map};
ghost use Rattle.adj_tree.specs.Code.{plain};
ghost use Rattle.adj_tree.specs.View.{act_of};
ghost use Rattle.def_names.specs.Numbering.{point_before};
ghost use Rattle.def_names.specs.VariableLists.{list_if};
ghost use Rattle.adj_flow.specs.Rows.{row_of};
ghost use Rattle.adj_flow.specs.NodeView.{vars_of};
ghost use Rattle.adj_flow.specs.Nodes.{linked};
ghost use Rattle.adj_flow.specs.View.{standing_of};
ghost use Rattle.adj_flow.specs.Pairs.{pair_of};
ghost use Rattle.adj_live.specs.Numbers.{wanted_at};
ghost use Rattle.adj_live.specs.Listed.{needed_here, member_edges, call_edges};
ghost use Rattle.adj_live.specs.View.{here_at};

use crate::known::Site;
use crate::site::wanted;
use adj_flow::{Part, Point, Standing, add_link, number, pairs};
use adj_tree::{Act, Memory, Name};
use std::alloc::Global;

// Adds the edge from a dummy of a called unit that is wanted to its actual, which is needed at a point.
fn add_actual(
    edges: &mut Vec<(usize, usize)>,
    site: Site<'_, '_>,
    called: &Part<'_>,
    point: usize,
    pair: (&Name, &Name),
) -> Result<(), Memory>
    requires point { point < 5 * 2 ^ 30 }
    ensures added { OnOk result (edges.new.items ≡ edges.old.items ++ linked (wanted_at (here_at site.entry).width (vars_of (row_of called.now)) (row_of called.now).part.number pair.entry.0.now) (needed_here (here_at site.entry) point (plain pair.entry.1.now))) }
{
    let (dummy, actual) = pair;
    let from = wanted(site.known.width, called, dummy)?;
    let to = site.needed(point, actual);
    add_link(edges, from, to)
}

// Adds this edge, if the call is adjointed and doesn't turn the actual.
fn add_member(
    edges: &mut Vec<(usize, usize)>,
    site: Site<'_, '_>,
    standing: &Standing<'_>,
    called: &Part<'_>,
    pair: (&Name, &Name),
) -> Result<(), Memory>
    ensures added { OnOk result (edges.new.items ≡ edges.old.items ++ member_edges (here_at site.entry) (standing_of standing.now) (row_of called.now) pair.entry.0.now (plain pair.entry.1.now)) }
{
    let is_member = site.is_adjointed(standing.number) && !standing.place.turns(pair.1);
    if is_member {
        let at = standing.place.site(true, standing.number);
        let before = number(Point::Before(at));
        add_actual(edges, site, called, before, pair)?;
    }
    Ok(())
}

// Adds these edges of the dummies of a called unit.
fn add_members(
    edges: &mut Vec<(usize, usize)>,
    site: Site<'_, '_>,
    standing: &Standing<'_>,
    called: &Part<'_>,
    pairs: &[(&Name, &Name)],
) -> Result<(), Memory>
    ensures added { OnOk result (edges.new.items ≡ edges.old.items ++ flat_map (λ b. member_edges (here_at site.entry) (standing_of standing.now) (row_of called.now) b.0 b.1) (map pair_of pairs.now)) }
{
    for pair in pairs {
        add_member(edges, site, standing, called, *pair)?;
    }
    Ok(())
}

/// Adds these edges of a call.
pub(crate) fn add_call(
    alloc: Global,
    edges: &mut Vec<(usize, usize)>,
    site: Site<'_, '_>,
    standing: &Standing<'_>,
) -> Result<(), Memory>
    ensures added { OnOk result (edges.new.items ≡ edges.old.items ++ call_edges (here_at site.entry) (standing_of standing.now) (act_of standing.now.act.now)) }
{
    match standing.act {
        Act::Call(name, actuals) => match site.known.units.find(name) {
            Some(called) => {
                let pairs = pairs(alloc, called.unit.dummies.as_slice(), actuals)?;
                add_members(edges, site, standing, called, pairs.as_slice())
            }
            None => Ok(()),
        },
        Act::Assign(_, _)
        | Act::If(_, _, _)
        | Act::Loop(_, _, _, _, _, _)
        | Act::While(_, _)
        | Act::Run(_) => Ok(()),
    }
}
