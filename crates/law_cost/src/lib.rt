//! How many statements both sweeps have, and what runs of the emitted program take: laws.
//!
//! `cost` counts the sweeps and their runs, `spent` says what the run takes against the program of a user.
#![tactic(auto)]

mod cost;
mod spent;

pub use cost::{cost_laws, rows_law, run_laws, scheduled_laws};
pub use spent::{chains_law, kernel_chains_law, kernel_law, spent_law};
