//! The names and calls of a program: its variables, what a fault is, and which comes first.
//!
//! `specs/` says what the variables of a unit are, where names stand, what calls lead to, and which faults of names, calls
//! and writes a program has, each as a property of a place. It has lists of variables, and the numbers of statements and points.
//! The crate stands on the trees and on the meaning of programs, whose sets of written and read dummies it uses.
//! The layers above cite `specs/Check.antt` for which programs are accepted, and `specs/Variables.antt` for their variables.
#![tactic(auto)]

mod reserved;

pub use reserved::{intrinsic_names, is_reserved, is_runtime, runtime_names};
