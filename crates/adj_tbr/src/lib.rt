//! To be recorded: which values a statement saves before it overwrites them.
//!
//! A variable is held at a point where a path leads there from a statement that reads it in its adjoint, unless a kept statement
//! replaces it on the way. Variables at points are nodes with numbers, and one search finds what is held or read. The crate stands on
//! the definitions of `def_flow` and on `adj_flow` and `adj_reach`; the layers above use that `tbr` gives exactly what is saved.
#![tactic(auto)]

mod bound;
mod finding;
mod found;
mod held;
mod reads;
mod saves;
mod setting;

pub use finding::tbr;
