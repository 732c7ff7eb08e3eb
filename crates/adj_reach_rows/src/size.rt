//! How many rows arcs, edges and nodes need.

ghost use Rattle.std.specs.Prelude.{◌≡◌, ◌+◌, ◌/◌, ◌<◌, ◌≤◌, ◌^◌, ℕ, All, IfOk};

use crate::arc::Arc;
use adj_tree::Memory;

// The greater of two numbers.
fn greater(a: usize, b: usize) -> usize
    ensures first { a ≤ result }
    ensures second { b ≤ result }
{
    a.max(b)
}

// The greatest point of some arcs, or 0.
fn of_arcs(arcs: &[Arc]) -> usize
    ensures greatest { All (λ a. (a.from ≤ result) × (a.to ≤ result)) arcs.now }
{
    let mut greatest = 0;
    for arc in arcs {
        greatest = greater(greater(greatest, arc.from), arc.to);
    }
    greatest
}

// The greatest row of the ends of some edges, or 0.
fn of_edges(width: usize, edges: &[(usize, usize)]) -> usize
    requires { 0 < width }
    ensures greatest { All (λ e. (e.0 / width ≤ result) × (e.1 / width ≤ result)) edges.now }
{
    let mut greatest = 0;
    for edge in edges {
        greatest = greater(greater(greatest, edge.0 / width), edge.1 / width);
    }
    greatest
}

// The greatest row of some nodes, or 0.
fn of_nodes(width: usize, nodes: &[usize]) -> usize
    requires { 0 < width }
    ensures greatest { All (λ x. x / width ≤ result) nodes.now }
{
    let mut greatest = 0;
    for node in nodes {
        greatest = greater(greatest, *node / width);
    }
    greatest
}

/// A number of rows that is enough. An error means that numbers don't reach so far.
pub(crate) fn rows(
    width: usize,
    arcs: &[Arc],
    edges: &[(usize, usize)],
    start: &[usize],
) -> Result<usize, Memory>
    requires some { 0 < width }
    ensures arcs { IfOk result (λ n. All (λ a. (a.from < n) × (a.to < n)) arcs.now) }
    ensures edges { IfOk result (λ n. All (λ e. (e.0 / width < n) × (e.1 / width < n)) edges.now) }
    ensures start { IfOk result (λ n. All (λ x. x / width < n) start.now) }
{
    let ends = greater(of_arcs(arcs), of_edges(width, edges));
    let greatest = greater(ends, of_nodes(width, start));
    greatest.checked_add(1).ok_or(Memory)
}
