//! Every so many flags.

ghost use Rattle.std.specs.Prelude.{◌≡◌, ◌+◌, ◌*◌, ◌<◌, ℕ, IfOk};
ghost use Rattle.adj_reach.specs.Edges.{flag};

use adj_tree::{BitFlags, Flags, Memory};
use std::alloc::Global;

// The place so many further on.
fn further(place: usize, stride: usize) -> Result<usize, Memory>
    ensures further { IfOk result (λ n. n ≡ place + stride) }
{
    place.checked_add(stride).ok_or(Memory)
}

/// Of so many flags each the one at a place.
pub fn picked(alloc: Global, flags: &BitFlags, stride: usize, place: usize) -> Result<Flags, Memory>
    requires stride { 0 < stride }
    ensures picked { IfOk result (λ f. (n : ℕ) → flag f n ≡ flag flags.now (n * stride + place)) }
{
    let mut picked = Vec::new(alloc);
    let mut next = place;
    while next < flags.len() {
        picked.push(flags.at(next))?;
        next = further(next, stride)?;
    }
    Ok(Flags::new(picked))
}
