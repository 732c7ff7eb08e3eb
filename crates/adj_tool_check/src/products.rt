//! Products of adjoints and tangents.

ghost use Rattle.std.specs.Prelude.{◌≡◌, map, IfOk};
ghost use Rattle.adj_word.specs.Dot as Dot;
ghost use Rattle.def_sweep.specs.Tangents.{cells_of, product};
ghost use Rattle.adj_data.specs.Given.{slot_seen};

use crate::shadows::marked_cells;
use adj_tree::{Memory, Slot};
use adj_word::dot;
use std::alloc::Global;

// The product of two lists, as far as both go.
fn product_of(xs: &[i64], ys: &[i64]) -> i64
    ensures { result ≡ Dot.dot xs.now ys.now }
{
    let count = xs.len().min(ys.len());
    dot(&xs[..count], &ys[..count])
}

/// The product of the values that are flagged, modulo 2 ^ 64.
pub(crate) fn product(
    alloc: Global,
    flags: &[bool],
    xs: &[Slot],
    ys: &[Slot],
) -> Result<i64, Memory>
    ensures { IfOk result (λ z. z ≡ product flags.now (cells_of (map slot_seen xs.now)) (cells_of (map slot_seen ys.now))) }
{
    let xs = marked_cells(alloc, flags, xs)?;
    let ys = marked_cells(alloc, flags, ys)?;
    Ok(product_of(xs.as_slice(), ys.as_slice()))
}
