//! What the code goes by at every statement.

ghost use Rattle.std.specs.Prelude.{◌<◌, ◌^◌};

use crate::found::Found;
use adj_flow::{Sides, Units};

/// How many variables a unit has at most; what is found before; which of their dummies units read and write; and the units by name.
#[derive(Clone, Copy)]
pub(crate) struct Setting<'s, 'a> {
    pub width: usize,
    pub found: Found<'s>,
    pub sides: Sides<'s>,
    pub units: Units<'s, 'a>,
    pub ghost narrow: { width < 2 ^ 30 },
}
