//! A unit with what is known of the program.

ghost use Rattle.std.specs.Prelude.{◌<◌, ◌^◌};

use adj_flow::sides::Sides;
use adj_flow::{Part, Units};
use adj_tree::Activity;

/// The units of a program, how many variables one has at most, which of their dummies they read and write, the activity, and the flags of
/// the calls that are to be split.
#[derive(Clone, Copy)]
pub(crate) struct Known<'p, 'a> {
    pub units: Units<'p, 'a>,
    pub width: usize,
    pub sides: Sides<'p>,
    pub activity: &'p Activity,
    pub split: &'p [bool],
    pub ghost narrow: { width < 2 ^ 30 },
}

/// A unit of them.
#[derive(Clone, Copy)]
pub(crate) struct Site<'p, 'a> {
    pub known: Known<'p, 'a>,
    pub part: &'p Part<'a>,
}
