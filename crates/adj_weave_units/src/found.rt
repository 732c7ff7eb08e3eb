//! The units that are found along calls.

ghost use Rattle.std.specs.Prelude.{◌≡◌, ◌<◌, ◌+◌, ◌^◌, IfOk};
ghost use Rattle.adj_weave_units.specs.Calls.{ends_of};

use adj_reach::flag_at;
use adj_tree::Memory;
use std::alloc::Global;

/// The ends of the edges that come from flagged nodes.
pub fn ends_of(
    alloc: Global,
    flags: &[bool],
    edges: &[(usize, usize)],
) -> Result<Vec<usize>, Memory>
    ensures ends { IfOk result (λ v. v.items ≡ ends_of flags.now edges.now) }
{
    let mut made = Vec::new(alloc);
    for edge in edges {
        if flag_at(flags, edge.0) {
            made.push(edge.1)?;
        }
    }
    Ok(made)
}

/// Whether there are few enough units for a search. More would not fit the memory.
pub fn fits(count: usize) -> Result<(), Memory>
    ensures fits { IfOk result (λ u. count + 1 < 2 ^ 64) }
{
    if count < usize::MAX {
        Ok(())
    } else {
        Err(Memory)
    }
}
