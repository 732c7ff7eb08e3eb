//! What a run counts.

/// The statements that a run used, the reversals that began, the calls in those that ended less their steps, and the
/// greatest number of words above a reversal's start at a call directly in it.
#[derive(Clone, Copy, Debug, PartialEq, Eq)]
pub struct Log {
    pub used: u64,
    pub reversals: u64,
    pub advances: u64,
    pub height: u64,
}
