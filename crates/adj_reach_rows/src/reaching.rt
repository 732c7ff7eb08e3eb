//! What edges and arcs reach.

ghost use Rattle.std.specs.Prelude.{◌≡◌, ◌↔◌, ◌*◌, ◌<◌, ℕ, IfOk, IsTrue};
ghost use Rattle.adj_reach.specs.Edges.{flag};
ghost use Rattle.adj_reach_rows.specs.Arcs.{ReachedByRows};

use crate::arc::Arc;
use crate::bits::Rows;
use crate::chains::{arcs_by_row, edges_by_row};
use crate::flags::flags;
use crate::search::Search;
use crate::size::rows as rows_for;
use adj_tree::{BitFlags, Memory};
use std::alloc::Global;

/// Which nodes are reached from `start` along edges, and along arcs that carry the variables of `rows`; the node of variable `j` at point `p` is
/// `p * width + j`. A flag past the end counts as false.
pub fn reached_by_rows(
    alloc: Global,
    width: usize,
    rows: &Rows,
    arcs: &[Arc],
    edges: &[(usize, usize)],
    start: &[usize],
) -> Result<BitFlags, Memory>
    requires some { 0 < width }
    requires wide { width < 64 * rows.now.words }
    ensures exact { IfOk result (λ flags. (x : ℕ) → IsTrue (flag flags x) ↔ ReachedByRows width rows.now arcs.now edges.now start.now x) }
{
    let count = rows_for(width, arcs, edges, start)?;
    let arcs_from = arcs_by_row(alloc, count, arcs)?;
    let edges_from = edges_by_row(alloc, count, width, edges)?;
    let mut search = Search::new(alloc, count, rows.words)?;
    search.mark_nodes(width, start)?;
    let mut taken = vec![in alloc; 0u64; rows.words]?;
    while let Some(row) = search.next() {
        search.take(row, taken.as_mut_slice());
        search.follow_arcs(row, taken.as_slice(), rows, arcs, &arcs_from)?;
        search.follow_edges(row, width, taken.as_slice(), edges, &edges_from)?;
    }
    let seen = search.seen.as_slice();
    flags(alloc, count, rows.words, width, seen)
}
