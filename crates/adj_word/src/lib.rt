//! Words: arithmetic modulo 2^64, written as signed numbers.
//!
//! Every call is total, takes no memory and gives the residue that its name says.
//! It stands on nothing but std. The crates above cite the definitions of `specs/`
//! for what a program computes, and the laws of `proofs/` in place of unfolding residues.
#![tactic(auto)]

mod arithmetic;
mod dots;
mod laws;

pub use arithmetic::{add, mul, neg, pow, quot, rem, sub, trips};
pub use dots::dot;
pub use laws::{dot_laws, pairing_laws, quotient_laws, ring_laws};
