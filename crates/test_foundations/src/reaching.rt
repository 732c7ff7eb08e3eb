//! Worked graphs, and large ones that end at once.

ghost use Rattle.std.specs.Prelude.{◌<◌, All, IfOk, length};
ghost use Rattle.adj_reach.specs.Edges.{AreBelow};

use adj_reach::{reach, reach_back};
use adj_tree::Memory;
use std::alloc::Global;

// Five nodes: a cycle of 1 and 2 that 0 leads into, 3 behind it, and 4 that leads to 3 alone.
const CYCLE: [(usize, usize); 5] = [(0, 1), (1, 2), (2, 1), (2, 3), (4, 3)];

// Whether these nodes are reached from some of the first, along the edges.
fn leads(
    alloc: Global,
    edges: &[(usize, usize)],
    start: &[usize],
    wanted: &[bool],
) -> Result<bool, Memory>
    requires few { length wanted.now < 1000 }
    requires edges { AreBelow (length wanted.now) edges.now }
    requires start { All (λ x. x < length wanted.now) start.now }
{
    let found = reach(alloc, wanted.len(), edges, start)?;
    Ok(found.as_slice() == wanted)
}

// Whether these nodes lead to some of the first.
fn leads_back(
    alloc: Global,
    edges: &[(usize, usize)],
    start: &[usize],
    wanted: &[bool],
) -> Result<bool, Memory>
    requires few { length wanted.now < 1000 }
    requires edges { AreBelow (length wanted.now) edges.now }
    requires start { All (λ x. x < length wanted.now) start.now }
{
    let found = reach_back(alloc, wanted.len(), edges, start)?;
    Ok(found.as_slice() == wanted)
}

#[test]
fn along_and_against_the_edges_of_a_cycle(rt: HostRuntime) {
    let alloc = rt.alloc();
    let along = [
        leads(alloc, &CYCLE, &[0], &[true, true, true, true, false]),
        leads(alloc, &CYCLE, &[2], &[false, true, true, true, false]),
        leads(alloc, &CYCLE, &[3], &[false, false, false, true, false]),
        leads(alloc, &CYCLE, &[4], &[false, false, false, true, true]),
        leads(alloc, &CYCLE, &[4, 1], &[false, true, true, true, true]),
        leads(alloc, &[(0, 1)], &[], &[false, false]),
        leads(alloc, &[], &[], &[]),
    ];
    assert!(rt; along == [Ok(true); 7], "{along:?}");
    let against = [
        leads_back(alloc, &CYCLE, &[0], &[true, false, false, false, false]),
        leads_back(alloc, &CYCLE, &[2], &[true, true, true, false, false]),
        leads_back(alloc, &CYCLE, &[3], &[true, true, true, true, true]),
        leads_back(alloc, &CYCLE, &[4], &[false, false, false, false, true]),
    ];
    assert!(rt; against == [Ok(true); 4], "{against:?}");
}

// The edges of a chain of `nodes` nodes, the last first.
fn chain_backwards(alloc: Global, nodes: usize) -> Result<Vec<(usize, usize)>, Memory>
    requires { 0 < nodes }
    ensures { IfOk result (λ edges. AreBelow nodes edges.items) }
{
    let mut edges = Vec::new(alloc);
    for i in 1..nodes {
        edges.push((nodes - 1 - i, nodes - i))?;
    }
    Ok(edges)
}

// Whether the first node of a long chain leads to all, and all lead to the last.
fn leads_along(alloc: Global) -> Result<bool, Memory> {
    let edges = chain_backwards(alloc, 200_001)?;
    let forward = reach(alloc, 200_001, edges.as_slice(), &[0])?;
    if forward.as_slice().contains(&false) {
        return Ok(false);
    }
    let backward = reach_back(alloc, 200_001, edges.as_slice(), &[200_000])?;
    Ok(!backward.as_slice().contains(&false))
}

#[test]
fn a_long_chain_listed_backwards_ends_at_once(rt: HostRuntime) {
    assert!(rt; leads_along(rt.alloc()) == Ok(true));
}
