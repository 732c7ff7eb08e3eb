//! Places of a list by what stands there, in chains from the last to the first.

ghost use Rattle.std.specs.Prelude.{◌≡◌, ◌+◌, ◌-◌, ◌/◌, ◌<◌, ◌≤◌, ◌^◌, ℕ, All, IfOk, length, map, get_or};
ghost use Rattle.adj_reach_rows.specs.Chains.{AreChains, last_of};

use crate::arc::Arc;
use adj_tree::Memory;
use std::alloc::Global;

/// For each row the last of its places, and for each place the one before it in its row; counted from 1, and 0 for none.
#[derive(Drop)]
pub(crate) struct Chains {
    pub heads: Vec<usize>,
    pub next: Vec<usize>,
}

/// The arcs by their points.
pub(crate) fn arcs_by_row(alloc: Global, rows: usize, arcs: &[Arc]) -> Result<Chains, Memory>
    requires within { All (λ a. a.from < rows) arcs.now }
    ensures chains { IfOk result (λ c. AreChains rows (map (λ a. a.from) arcs.now) c.heads.items c.next.items) }
{
    let mut heads = vec![in alloc; 0usize; rows]?;
    let mut next = Vec::new(alloc);
    for (place, arc) in arcs.iter().enumerate() {
        next.push(heads[arc.from])?;
        heads[arc.from] = place + 1;
    }
    Ok(Chains { heads, next })
}

/// The edges by the rows that they come from.
pub(crate) fn edges_by_row(
    alloc: Global,
    rows: usize,
    width: usize,
    edges: &[(usize, usize)],
) -> Result<Chains, Memory>
    requires some { 0 < width }
    requires within { All (λ e. e.0 / width < rows) edges.now }
    ensures chains { IfOk result (λ c. AreChains rows (map (λ e. e.0 / width) edges.now) c.heads.items c.next.items) }
{
    let mut heads = vec![in alloc; 0usize; rows]?;
    let mut next = Vec::new(alloc);
    for (place, edge) in edges.iter().enumerate() {
        let row = edge.0 / width;
        next.push(heads[row])?;
        heads[row] = place + 1;
    }
    Ok(Chains { heads, next })
}
