//! The tangent of a checked program in kernel form, as code.
//!
//! `terms` gives the tangent of a term and the assignments of its parts, `assignments` what stands before an assignment, and `statements` and
//! `calls` the tangents of statements by a `plan`. `uses` finds the helpers that a unit declares, `unit` puts the tangent of a unit together and
//! `program` the whole; `carried` has which variables carry a tangent, `called` what calls know of units, and `found` which units are emitted.
//! Each clause says that the result is that of the definitions (`def_tangent/specs/Program.antt`), unless memory runs out. The crate stands on
//! those definitions, on the temporaries of an assignment (adj_sweep_assignment), and on what tangents and adjoints have in common
//! (adj_weave_units). The layer above uses `tangent`.
#![tactic(auto)]

pub mod assignments;
pub mod called;
pub mod calls;
pub mod carried;
pub mod found;
pub mod plan;
mod program;
pub mod statements;
pub mod terms;
pub mod unit;
pub mod uses;

pub use carried::Carried;
pub use program::tangent;
