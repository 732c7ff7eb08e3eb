//! Variables at points.

ghost use Rattle.std.specs.Prelude.{◌*◌, ◌<◌, ◌^◌};

use crate::row::Part;
use adj_tree::Name;

/// A variable of a unit at a point.
#[derive(Clone, Copy)]
pub struct End<'p, 'a> {
    pub part: &'p Part<'a>,
    pub point: usize,
    pub name: &'p Name,
    pub ghost low: { point < 5 * 2 ^ 30 },
}
