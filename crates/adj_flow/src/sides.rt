//! Which of their dummies units read and write.

ghost use Rattle.std.specs.Prelude.{◌≡◌, [], map, slice_index_or};
ghost use Rattle.adj_symbols_writes.specs.Table.{value_of};
ghost use Rattle.adj_flow.specs.Sides.{row_by};

use adj_symbols_writes::table::Numbers;
use adj_tree::{Flags, Name};

/// Which of its dummies each unit reads, and which it writes.
#[derive(Clone, Copy)]
pub struct Sides<'p> {
    pub read: &'p [&'p Flags],
    pub written: &'p [&'p Flags],
}

/// The flags of the dummies of the unit of a name; none where there is no such unit.
pub fn row<'p>(rows: &'p [&'p Flags], numbers: &Numbers<'_>, name: &Name) -> &'p [bool]
    ensures row { result.now ≡ row_by (map (λ b. b.now) rows.now) (value_of name.now numbers.now) }
{
    match numbers.get(name) {
        Some(number) => dummies_of(rows, number),
        None => &[],
    }
}

/// The flags of the dummies of the unit of a number; none where there is no such unit.
pub fn dummies_of<'p>(rows: &'p [&'p Flags], number: usize) -> &'p [bool]
    ensures dummies { result.now ≡ slice_index_or (map (λ b. b.now) rows.now) number [] }
{
    match rows.get(number) {
        Some(row) => row.as_slice(),
        None => &[],
    }
}
