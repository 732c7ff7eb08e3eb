//! A program with COMMON blocks becomes one without, in which the members of blocks are dummies that calls pass.
//!
//! `own` has a unit's own members by their blocks, `layouts` the refusal of blocks that units lay out otherwise than the first, `using` the
//! blocks that each unit uses, and `handing` and `lowering` the lowered units. The crate stands on the definitions of `def_common`.
//! The layer above uses `lower_common`: its result is the lowered program, or the refusal that the definition says.
#![tactic(auto)]

mod blocks;
mod by_name;
mod extents;
mod handing;
mod layouts;
mod lowering;
mod members;
mod naming;
mod own;
mod passing;
mod top;
mod using;

pub use top::lower_common;
