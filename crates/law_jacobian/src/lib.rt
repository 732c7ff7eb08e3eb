//! What compressed columns give of a Jacobian: laws, and examples.
#![tactic(auto)]

pub mod laws;

pub use laws::{group_laws, pattern_laws, recovery_law, worked_patterns};
