//! The names in an emitted unit.
//!
//! `derived` says what a unit is of, the adjoint or the tangent, and `role` what the variables are for that it brings in. `naming`
//! gives these and the shadows their names, and `names` looks them up; `taken`, `helper_set` and `declared` are the tables for that.
//! Each clause says that the result is that of the emission's definitions (`def_sweep/specs/Naming.antt` and `Fresh.antt`), unless
//! memory runs out.
//! The crate stands on those definitions; the layers above emit under the names of a `Names`.
#![tactic(auto)]

pub mod declared;
pub mod derived;
pub mod helper_set;
pub mod joining;
pub mod names;
pub mod naming;
pub mod role;
pub mod taken;
