//! Where flow begins and ends, and which variables have a shadow or a tangent outright.

ghost use Rattle.std.specs.Prelude.{◌≡◌, ◌+◌, ◌*◌, ◌<◌, ◌≤◌, ◌++◌, ◌&&◌, ◌||◌, ◌^◌, true, ℕ, IfOk, OnOk, map, length};
ghost use Rattle.adj_tree.specs.Code.{plain};
ghost use Rattle.def_flow.specs.Rules.{somewhere};
ghost use Rattle.def_names.specs.VariableLists.{list_if};
ghost use Rattle.adj_flow.specs.Rows.{row_of};
ghost use Rattle.adj_flow.specs.WayView.{way_of};
ghost use Rattle.adj_reach.specs.Edges.{flag};
ghost use Rattle.adj_flow.specs.NodeView.{told_at};
ghost use Rattle.adj_activity.specs.Starts.{point_nodes, is_useful_in, active_nodes, all_active, AreSeen, AreUseful};

use crate::found::Sets;
use adj_flow::{End, Flow, Part, Way, add_node, number};
use adj_reach::flag_at;
use adj_tree::{BitFlags, Memory, Name};
use std::alloc::Global;

/// Adds the numbers at a point of those dummies of a unit that are flagged.
pub(crate) fn add_flagged(
    nodes: &mut Vec<usize>,
    width: usize,
    part: &Part<'_>,
    point: usize,
    flags: &[bool],
) -> Result<(), Memory>
    requires width { width < 2 ^ 30 }
    requires point { point < 5 * 2 ^ 30 }
    ensures added { OnOk result (nodes.new.items ≡ nodes.old.items ++ point_nodes width (row_of part.now) point flags.now) }
{
    let dummies = part.unit.dummies.as_slice();
    for (place, name) in dummies.iter().enumerate() {
        let end = End { part, point, name };
        add_node(nodes, width, end, flag_at(flags, place))?;
    }
    Ok(())
}

// The first place from this one on whose flag isn't set, where all before it are.
fn first_unset(seen: &[bool], from: usize) -> usize
    requires within { from ≤ length seen.now }
    requires set { (j : ℕ) → j < from → flag seen.now j ≡ true }
    ensures within { result ≤ length seen.now }
    ensures set { (j : ℕ) → j < result → flag seen.now j ≡ true }
{
    for place in from..seen.len() {
        if !seen[place] {
            return place;
        }
    }
    seen.len()
}

// Joins the flags at a point to those of some variables of a unit, of which the first are set.
fn join(
    seen: &mut [bool],
    set: usize,
    flags: &BitFlags,
    width: usize,
    point: usize,
) -> Result<(), Memory>
    requires set { (j : ℕ) → j < set → flag seen.old j ≡ true }
    ensures count { length seen.new ≡ length seen.old }
    ensures joined { OnOk result ((j : ℕ) → j < length seen.old → flag seen.new j ≡ (flag seen.old j || flag flags.now (point * width + j))) }
{
    let first = point.checked_mul(width).ok_or(Memory)?;
    for place in set..seen.len() {
        let node = first.checked_add(place).ok_or(Memory)?;
        seen[place] = seen[place] || flags.at(node);
    }
    Ok(())
}

// Joins those at the ends of a way.
fn join_ends(
    seen: &mut [bool],
    set: usize,
    flags: &BitFlags,
    width: usize,
    way: Way<'_>,
) -> Result<(), Memory>
    requires set { (j : ℕ) → j < set → flag seen.old j ≡ true }
    ensures count { length seen.new ≡ length seen.old }
    ensures joined { OnOk result ((j : ℕ) → j < length seen.old → flag seen.new j ≡ ((flag seen.old j || flag flags.now ((way_of way.entry).from * width + j)) || flag flags.now ((way_of way.entry).to * width + j))) }
{
    join(seen, set, flags, width, number(way.from))?;
    join(seen, set, flags, width, number(way.to))
}

// Which variables of a unit are flagged at one of its points, by place. Those that stand before the first that isn't yet found flagged are passed over.
fn seen(alloc: Global, flags: &BitFlags, width: usize, part: &Part<'_>) -> Result<Vec<bool>, Memory>
    ensures seen { IfOk result (λ v. AreSeen v.items flags.now width (row_of part.now)) }
{
    let mut seen = vec![in alloc; false; part.variables.as_slice().len()]?;
    let mut set = 0;
    for way in part.ways.as_slice() {
        set = first_unset(seen.as_slice(), set);
        if set == seen.len() {
            return Ok(seen);
        }
        join_ends(seen.as_mut_slice(), set, flags, width, *way)?;
    }
    Ok(seen)
}

// Which variables of a unit are useful at one of its points, by these flags; without flags all are.
fn useful(
    alloc: Global,
    flags: Option<&BitFlags>,
    width: usize,
    part: &Part<'_>,
) -> Result<Vec<bool>, Memory>
    ensures useful { IfOk result (λ v. AreUseful v.items flags.entry width (row_of part.now)) }
{
    match flags {
        Some(flags) => seen(alloc, flags, width, part),
        None => Ok(vec![in alloc; true; part.variables.as_slice().len()]?),
    }
}

// Whether a variable of a unit is varied at a point of it and useful at one.
fn is_active(
    width: usize,
    part: &Part<'_>,
    sets: Sets<'_>,
    varied: &[bool],
    useful: &[bool],
    name: &Name,
) -> bool
    requires varied { AreSeen varied.now sets.varied.now width (row_of part.now) }
    requires useful { AreUseful useful.now sets.useful width (row_of part.now) }
    ensures active { result ≡ (somewhere (map way_of part.now.ways.items) (λ p. told_at sets.entry.varied.now width (row_of part.now) p (plain name.now)) && is_useful_in sets.entry.useful width (row_of part.now) (plain name.now)) }
{
    let _width = width;
    let _sets = sets;
    match part.place(name) {
        Some(place) => flag_at(varied, place) && flag_at(useful, place),
        None => false,
    }
}

// Adds the numbers of the variables of a unit that are varied at a point of it and useful at one.
fn add_active(
    alloc: Global,
    nodes: &mut Vec<usize>,
    width: usize,
    part: &Part<'_>,
    sets: Sets<'_>,
) -> Result<(), Memory>
    requires width { width < 2 ^ 30 }
    ensures added { OnOk result (nodes.new.items ≡ nodes.old.items ++ active_nodes sets.entry.varied.now sets.entry.useful width (row_of part.now)) }
{
    let varied = seen(alloc, sets.varied, width, part)?;
    let useful = useful(alloc, sets.useful, width, part)?;
    for name in part.variables.as_slice() {
        let is_active = is_active(
            width,
            part,
            sets,
            varied.as_slice(),
            useful.as_slice(),
            name,
        );
        let end = End {
            part,
            point: part.number,
            name,
        };
        add_node(nodes, width, end, is_active)?;
    }
    Ok(())
}

// The same, if the unit takes part.
fn add_taking(
    alloc: Global,
    nodes: &mut Vec<usize>,
    width: usize,
    part: &Part<'_>,
    sets: Sets<'_>,
    takes_part: bool,
) -> Result<(), Memory>
    requires width { width < 2 ^ 30 }
    ensures added { OnOk result (nodes.new.items ≡ nodes.old.items ++ list_if takes_part (active_nodes sets.entry.varied.now sets.entry.useful width (row_of part.now))) }
{
    if takes_part {
        add_active(alloc, nodes, width, part, sets)?;
    }
    Ok(())
}

/// Adds these numbers of all units that take part.
pub(crate) fn add_all_active(
    alloc: Global,
    nodes: &mut Vec<usize>,
    flow: &Flow<'_>,
    sets: Sets<'_>,
) -> Result<(), Memory>
    ensures added { OnOk result (nodes.new.items ≡ nodes.old.items ++ all_active sets.entry.varied.now sets.entry.useful (map row_of flow.now.parts.items) flow.now.taking flow.now.width) }
{
    let taking = flow.taking.as_slice();
    for part in flow.parts.as_slice() {
        let takes_part = flag_at(taking, part.number);
        add_taking(alloc, nodes, flow.width, part, sets, takes_part)?;
    }
    Ok(())
}
