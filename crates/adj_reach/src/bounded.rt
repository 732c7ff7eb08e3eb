//! What edges reach, where nobody says how many nodes there are.

ghost use Rattle.std.specs.Prelude.{◌≡◌, ◌↔◌, ◌+◌, ◌<◌, ◌≤◌, ◌^◌, ℕ, All, IfOk, IsTrue};
ghost use Rattle.adj_reach.specs.Edges.{AreBelow, ReachedFrom, ReachedBack, flag};

use crate::paths::{reach, reach_back};
use adj_tree::{Flags, Memory};
use std::alloc::Global;

/// The flag at a place. Past the end it is false.
pub fn flag_at(flags: &[bool], place: usize) -> bool
    ensures { result ≡ flag flags.now place }
{
    flags.get(place).copied().unwrap_or(false)
}

// The greater of two numbers.
fn greater(a: usize, b: usize) -> usize
    ensures first { a ≤ result }
    ensures second { b ≤ result }
{
    a.max(b)
}

// The greatest of some numbers, or 0.
fn greatest(numbers: &[usize]) -> usize
    ensures greatest { All (λ n. n ≤ result) numbers.now }
{
    let mut greatest = 0;
    for number in numbers {
        greatest = greater(greatest, *number);
    }
    greatest
}

// The greatest end of some edges, or 0.
fn greatest_end(edges: &[(usize, usize)]) -> usize
    ensures greatest { All (λ e. (e.0 ≤ result) × (e.1 ≤ result)) edges.now }
{
    let mut greatest = 0;
    for edge in edges {
        greatest = greater(greater(greatest, edge.0), edge.1);
    }
    greatest
}

// A number past these nodes and the ends of these edges. An error means that there is none in reach.
fn past(edges: &[(usize, usize)], start: &[usize]) -> Result<usize, Memory>
    ensures room { IfOk result (λ n. n + 1 < 2 ^ 64) }
    ensures edges { IfOk result (λ n. AreBelow n edges.now) }
    ensures start { IfOk result (λ n. All (λ x. x < n) start.now) }
{
    let greatest = greater(greatest_end(edges), greatest(start));
    let past = greatest.checked_add(1).ok_or(Memory)?;
    let _room = past.checked_add(1).ok_or(Memory)?;
    Ok(past)
}

/// Which nodes a path from one of `start` meets, `start` itself included, whatever numbers the nodes have. A flag past the end
/// counts as false.
pub fn reached(alloc: Global, edges: &[(usize, usize)], start: &[usize]) -> Result<Flags, Memory>
    ensures exact { IfOk result (λ flags. (x : ℕ) → IsTrue (flag flags x) ↔ ReachedFrom edges.now start.now x) }
{
    let nodes = past(edges, start)?;
    reach(alloc, nodes, edges, start)
}

/// Which nodes a path to one of `start` meets, `start` itself included, whatever numbers the nodes have. A flag past the end
/// counts as false.
pub fn reached_back(
    alloc: Global,
    edges: &[(usize, usize)],
    start: &[usize],
) -> Result<Flags, Memory>
    ensures exact { IfOk result (λ flags. (x : ℕ) → IsTrue (flag flags x) ↔ ReachedBack edges.now start.now x) }
{
    let nodes = past(edges, start)?;
    reach_back(alloc, nodes, edges, start)
}
