//! The two sets of dummies of a unit.

/// The dummies that a unit writes, or those that it reads.
#[derive(Clone, Copy)]
pub(crate) enum Side {
    Written,
    Read,
}
