//! Ways between points.

ghost use Rattle.std.specs.Prelude.{◌*◌, ◌<◌, ◌^◌};
ghost use Rattle.adj_flow.specs.Points.{number_of};

use crate::deed::Deed;

/// A point of a program.
#[derive(Clone, Copy)]
pub enum Point {
    /// Before the statement of this number, after it, and inside it, a loop.
    Before(usize),
    After(usize),
    Inside(usize),
    /// The point of this number: the entry or the end of a unit.
    At(usize),
}

/// A way from a point to a next one. Points have numbers below 5 * 2^30.
#[derive(Clone, Copy)]
pub struct Way<'a> {
    pub from: Point,
    pub to: Point,
    pub deed: Deed<'a>,
    pub ghost low: { number_of from < 5 * 2 ^ 30 },
    pub ghost next_low: { number_of to < 5 * 2 ^ 30 },
}
