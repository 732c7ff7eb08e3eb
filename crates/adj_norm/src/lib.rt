//! The kernel of a program, as code: names, units and programs.
//!
//! `names` finds the variables of a unit, `unit` lowers it and declares its locals; `source`, `cutting` and `steps` make units of the
//! bodies of marked loops, `program` does all for a program, and `checked` finds what a check of that would give. The crate stands on
//! `adj_norm_statement`, which lowers statements, and on `adj_symbols` and `adj_symbols_writes` for the variables of units and the dummies
//! that they write and read; the layers above use that `kernel` gives exactly the kernel of `def_kernel`, and `checked_kernel` the same
//! with what is known of it.
#![tactic(auto)]

mod checked;
pub mod cutting;
pub mod handing;
pub mod marked;
pub mod names;
pub mod once;
pub mod program;
pub mod source;
pub mod steps;
pub mod unit;

pub use checked::checked_kernel;
pub use program::kernel;
