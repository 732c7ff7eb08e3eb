//! Which dummies of the units of a program are written.

ghost use Rattle.std.specs.Prelude.{◌≡◌};
ghost use Rattle.adj_norm_statement.specs.Handed.{flags_of};

use adj_sets::NameSet;
use adj_tree::{Flags, Name};

/// A row of flags for each unit, in the order of their names. A unit that isn't there has none.
#[derive(Drop)]
pub struct Handed {
    pub units: NameSet,
    pub rows: Vec<Flags>,
}

impl Handed {
    ghost use Rattle.std.specs.Prelude.{◌≡◌};
    ghost use Rattle.adj_norm_statement.specs.Handed.{handed_by};

    /// The flags of the dummies of a unit.
    pub fn written(&self, unit: &Name) -> &[bool]
        ensures flags { result.now ≡ handed_by self.now unit.now }
    {
        match self.units.place(unit.bytes()) {
            Some(place) => flags_at(self.rows.as_slice(), place),
            None => &[],
        }
    }
}

// The flags at a place, or none.
fn flags_at(rows: &[Flags], place: usize) -> &[bool]
    ensures flags { result.now ≡ flags_of rows.now place }
{
    match rows.get(place) {
        Some(row) => row.as_slice(),
        None => &[],
    }
}
