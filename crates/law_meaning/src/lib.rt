//! What holds of runs and dual runs: laws, and examples.
//!
//! A law about the definitions of `def_meaning` is the contract of an empty function here. `specs/Laws.antt` has the statements.
#![tactic(auto)]

pub mod laws;
pub mod worked;

pub use laws::{dual_laws, line_laws, program_laws, run_laws, variable_laws};
pub use worked::worked_examples;
