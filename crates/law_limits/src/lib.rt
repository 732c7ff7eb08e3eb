//! What is emitted for the kernel of a program keeps the limits of a run, and a program that keeps them reads in Run mode: laws.
//!
//! `readable` says that a program that keeps the limits reads, `lengths` how long the names are that a kernel brings in, and `limits` that
//! what is emitted keeps them. The top call uses them where it reads what it wrote.
#![tactic(auto)]

mod lengths;
mod limits;
mod readable;

pub use lengths::{fresh_law, units_law, variables_law};
pub use limits::{emitted_law, kernel_law};
pub use readable::{kept_law, source_law};
