//! Tests of the crates that treat programs, by their public calls: kernels, the analyses, what is emitted, and runs.
//!
//! `forms` has programs that are and aren't in kernel form, `lowering` and `statements` have statements and what becomes of them, and `kernels` texts and the
//! kernels of their programs. `activities`, `points` and `plans` have programs and what the analyses say of them. `assignments` are the tests of the adjoint of an
//! assignment, `helpers` those of what a body uses, `sweeps` those of both sweeps of a body, and `spared`, `tangents` and `carryings` have what is emitted by marks.
//! `entries`, `running`, `dual` and `doubling` have data and runs. `built` and `programs` read statements, make names, and print what is emitted.
#![tactic(auto)]

#[cfg(test)]
mod activities;
#[cfg(test)]
mod assignments;
#[cfg(test)]
mod built;
#[cfg(test)]
mod carryings;
#[cfg(test)]
mod doubling;
#[cfg(test)]
mod dual;
#[cfg(test)]
mod entries;
#[cfg(test)]
mod forms;
#[cfg(test)]
mod helpers;
#[cfg(test)]
mod kernels;
#[cfg(test)]
mod lowering;
#[cfg(test)]
mod plans;
#[cfg(test)]
mod points;
#[cfg(test)]
mod programs;
#[cfg(test)]
mod running;
#[cfg(test)]
mod spared;
#[cfg(test)]
mod statements;
#[cfg(test)]
mod sweeps;
#[cfg(test)]
mod tangents;
