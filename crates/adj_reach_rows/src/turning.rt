//! What is reached against edges and arcs: along them turned round.

ghost use Rattle.std.specs.Prelude.{◌≡◌, ◌↔◌, ◌*◌, ◌<◌, ℕ, IfOk, IsTrue, map};
ghost use Rattle.adj_reach.specs.Edges.{flag};
ghost use Rattle.adj_reach_rows.specs.Against.{ReachedBackByRows, turned_arc, turned_edge};

use crate::arc::Arc;
use crate::bits::Rows;
use crate::reaching::reached_by_rows;
use adj_tree::{BitFlags, Memory};
use std::alloc::Global;

// Arcs turned round.
fn turned_arcs(alloc: Global, arcs: &[Arc]) -> Result<Vec<Arc>, Memory>
    ensures turned { IfOk result (λ v. v.items ≡ map turned_arc arcs.now) }
{
    let mut turned = Vec::new(alloc);
    for arc in arcs {
        turned.push(Arc {
            from: arc.to,
            to: arc.from,
            kept: arc.kept,
            left: arc.left,
        })?;
    }
    Ok(turned)
}

// Edges turned round.
fn turned_edges(alloc: Global, edges: &[(usize, usize)]) -> Result<Vec<(usize, usize)>, Memory>
    ensures turned { IfOk result (λ v. v.items ≡ map turned_edge edges.now) }
{
    let mut turned = Vec::new(alloc);
    for edge in edges {
        turned.push((edge.1, edge.0))?;
    }
    Ok(turned)
}

/// From which nodes one of `start` is reached, along edges, and along arcs that carry the variables of `rows`; the node of variable `j` at point
/// `p` is `p * width + j`. A flag past the end counts as false.
pub fn reached_back_by_rows(
    alloc: Global,
    width: usize,
    rows: &Rows,
    arcs: &[Arc],
    edges: &[(usize, usize)],
    start: &[usize],
) -> Result<BitFlags, Memory>
    requires some { 0 < width }
    requires wide { width < 64 * rows.now.words }
    ensures exact { IfOk result (λ flags. (x : ℕ) → IsTrue (flag flags x) ↔ ReachedBackByRows width rows.now arcs.now edges.now start.now x) }
{
    let back = turned_arcs(alloc, arcs)?;
    let led = turned_edges(alloc, edges)?;
    reached_by_rows(alloc, width, rows, back.as_slice(), led.as_slice(), start)
}
