//! Variables in statements.

ghost use Rattle.std.specs.Prelude.{◌<◌, ◌^◌};

use crate::row::Part;
use adj_tree::BitFlags;

/// The occurrences of variables in the statement of a number of a unit, by the flags of varied variables at points and of the variables
/// of units that have a shadow, where no unit has more variables than the width.
#[derive(Clone, Copy)]
pub struct Occurrences<'f, 'p, 'a> {
    pub varied: &'f BitFlags,
    pub shadowed: &'f [bool],
    pub width: usize,
    pub part: &'p Part<'a>,
    pub statement: usize,
    pub ghost narrow: { width < 2 ^ 30 },
    pub ghost low: { statement < 2 ^ 30 },
}
