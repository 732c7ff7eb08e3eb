//! What holds of the names and calls of a program: laws, and examples.
//!
//! A law about the definitions of `def_names` is the contract of an empty function here.
#![tactic(auto)]

pub mod laws;
pub mod worked;

pub use laws::{fault_laws, fresh_laws, variable_laws};
pub use worked::{call_examples, name_examples, standing_examples};
