//! Extents once more, and compared.

ghost use Rattle.std.specs.Prelude.{◌≡◌, map, IfOk};
ghost use Rattle.adj_tree.specs.View.{extent_of};
ghost use Rattle.def_common.specs.Refused.{is_same_extent, are_same_extents};

use adj_tree::{Extent, Extents, Items, Memory};
use std::alloc::Global;

/// Equal extents once more.
pub(crate) fn copied(alloc: Global, extents: &[Extent]) -> Result<Extents, Memory>
    ensures same { IfOk result (λ es. map extent_of es ≡ map extent_of extents.now) }
{
    let mut made = Vec::new(alloc);
    for extent in extents {
        made.push(extent.copy(alloc)?)?;
    }
    Ok(Items::new(made))
}

// Whether both are one literal.
fn same_extent(one: &Extent, other: &Extent) -> bool
    ensures same { result ≡ is_same_extent (extent_of one.now) (extent_of other.now) }
{
    match (one, other) {
        (Extent::Lit(a), Extent::Lit(b)) => *a == *b,
        (Extent::Lit(_), Extent::Dummy(_)) => false,
        (Extent::Dummy(_), _) => false,
    }
}

/// Whether both have the same literals.
pub(crate) fn same_extents(one: &[Extent], other: &[Extent]) -> bool
    ensures same { result ≡ are_same_extents (map extent_of one.now) (map extent_of other.now) }
{
    if one.len() != other.len() {
        return false;
    }
    for (place, extent) in one.iter().enumerate() {
        if !same_extent(extent, &other[place]) {
            return false;
        }
    }
    true
}
