//! Statements where they stand.

ghost use Rattle.std.specs.Prelude.{◌<◌, ◌^◌};
ghost use Rattle.adj_flow.specs.Low.{IsLow};

use crate::place::Place;
use adj_tree::Act;

/// A statement where it stands. Statements have numbers below 2^30.
#[derive(Clone, Copy)]
pub struct Standing<'a> {
    pub number: usize,
    pub place: Place<'a>,
    pub act: &'a Act,
    pub ghost low: { number < 2 ^ 30 },
    pub ghost held: { IsLow place },
}
