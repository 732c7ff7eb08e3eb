//! Numbers of variables at points, and edges between them.

ghost use Rattle.std.specs.Prelude.{◌≡◌, ◌+◌, ◌*◌, ◌<◌, ◌^◌, ◌++◌, OnOk};
ghost use Rattle.adj_tree.specs.Code.{plain};
ghost use Rattle.def_flow.specs.Rules.{list_of};
ghost use Rattle.def_names.specs.VariableLists.{list_if};
ghost use Rattle.adj_flow.specs.Rows.{row_of};
ghost use Rattle.adj_flow.specs.WayView.{number_of};
ghost use Rattle.adj_flow.specs.Nodes.{linked, node_in};
ghost use Rattle.adj_flow.specs.NodeView.{end_node, told_at, vars_of};

use crate::end::End;
use crate::row::Part;
use crate::way::Point;
use adj_reach::flag_at;
use adj_tree::{BitFlags, Memory, Name};

// The number of the variable at a place, at a point.
fn node_at(point: usize, width: usize, place: usize) -> usize
    requires point { point < 5 * 2 ^ 30 }
    requires width { width < 2 ^ 31 }
    requires place { place < 2 ^ 30 }
    ensures node { result ≡ point * width + place }
{
    point * width + place
}

impl End<'_, '_> {
    /// Its number, where so many numbers are of each point.
    pub fn node(self, width: usize) -> Option<usize>
        requires width { width < 2 ^ 31 }
        ensures node { result ≡ end_node width self.entry }
    {
        match self.part.place(self.name) {
            None => None,
            Some(place) => Some(node_at(self.point, width, place)),
        }
    }
}

/// The number of a point.
pub fn number(point: Point) -> usize
    requires low { number_of point < 5 * 2 ^ 30 }
    ensures number { result ≡ number_of point }
{
    match point {
        Point::Before(i) => 3 * i,
        Point::After(i) => 3 * i + 1,
        Point::Inside(i) => 3 * i + 2,
        Point::At(p) => p,
    }
}

/// The flag of a variable at a point.
pub fn told(flags: &[bool], width: usize, end: End<'_, '_>) -> bool
    requires width { width < 2 ^ 30 }
    ensures told { result ≡ told_at flags.now width (row_of end.entry.part.now) end.entry.point (plain end.entry.name.now) }
{
    match end.node(width) {
        Some(node) => flag_at(flags, node),
        None => false,
    }
}

/// The same, where each flag is a bit.
pub fn told_by_bit(flags: &BitFlags, width: usize, end: End<'_, '_>) -> bool
    requires width { width < 2 ^ 30 }
    ensures told { result ≡ told_at flags.now width (row_of end.entry.part.now) end.entry.point (plain end.entry.name.now) }
{
    match end.node(width) {
        Some(node) => flags.at(node),
        None => false,
    }
}

/// Adds an edge between two numbers, if both are there.
pub fn add_link(
    edges: &mut Vec<(usize, usize)>,
    from: Option<usize>,
    to: Option<usize>,
) -> Result<(), Memory>
    ensures added { OnOk result (edges.new.items ≡ edges.old.items ++ linked from to) }
{
    match (from, to) {
        (Some(from), Some(to)) => {
            edges.push((from, to))?;
            Ok(())
        }
        (Some(_), None) | (None, _) => Ok(()),
    }
}

/// Adds an edge between two variables at points.
pub fn add_edge(
    edges: &mut Vec<(usize, usize)>,
    width: usize,
    from: End<'_, '_>,
    to: End<'_, '_>,
) -> Result<(), Memory>
    requires width { width < 2 ^ 30 }
    ensures added { OnOk result (edges.new.items ≡ edges.old.items ++ linked (end_node width from.entry) (end_node width to.entry)) }
{
    add_link(edges, from.node(width), to.node(width))
}

/// Adds the edge of a variable of a unit from the point of one number to that of another, if it is carried.
pub fn add_carried(
    edges: &mut Vec<(usize, usize)>,
    width: usize,
    part: &Part<'_>,
    points: (usize, usize),
    name: &Name,
    is_carried: bool,
) -> Result<(), Memory>
    requires width { width < 2 ^ 30 }
    requires first { points.0 < 5 * 2 ^ 30 }
    requires second { points.1 < 5 * 2 ^ 30 }
    ensures added { OnOk result (edges.new.items ≡ edges.old.items ++ list_if is_carried (linked (node_in width (vars_of (row_of part.now)) (points.0, plain name.now)) (node_in width (vars_of (row_of part.now)) (points.1, plain name.now)))) }
{
    if is_carried {
        let (from, to) = points;
        let before = End {
            part,
            point: from,
            name,
        };
        let after = End {
            part,
            point: to,
            name,
        };
        add_edge(edges, width, before, after)?;
    }
    Ok(())
}

/// Adds the number of a variable at a point, if it is wanted.
pub fn add_node(
    nodes: &mut Vec<usize>,
    width: usize,
    end: End<'_, '_>,
    is_wanted: bool,
) -> Result<(), Memory>
    requires width { width < 2 ^ 30 }
    ensures added { OnOk result (nodes.new.items ≡ nodes.old.items ++ list_if is_wanted (list_of (end_node width end.entry))) }
{
    if is_wanted {
        if let Some(node) = end.node(width) {
            nodes.push(node)?;
        }
    }
    Ok(())
}
