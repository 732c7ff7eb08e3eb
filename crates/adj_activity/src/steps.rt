//! Which steps are listed as edges.

ghost use Rattle.std.specs.Prelude.{◌<◌, ◌^◌};

use adj_flow::Part;
use adj_tree::BitFlags;

/// The steps of a rule.
#[derive(Clone, Copy)]
pub(crate) enum Steps<'f> {
    /// Flow, between variables at points.
    Flow,
    /// Lent shadows, between variables of units, by the flags of varied variables at points.
    Shadows(&'f BitFlags),
    /// From what has an adjoint to what has one by that: statements, and units.
    Adjoints,
}

/// A unit whose edges are listed: by which steps, and how many variables a unit has at most.
#[derive(Clone, Copy)]
pub(crate) struct Site<'p, 'a, 'f> {
    pub steps: Steps<'f>,
    pub width: usize,
    pub part: &'p Part<'a>,
    pub ghost narrow: { width < 2 ^ 30 },
}
