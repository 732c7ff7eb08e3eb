//! Patterns of derivatives: runs over words that each carry a set of columns, and the theorem on entries that are recovered from few dual runs.
//!
//! `specs/` has the numbers of the pattern run, its input, the groups of columns and the entries that are recovered from dual runs.
//! The crate holds definitions and laws, no code: no command computes a Jacobian yet.
//! A layer above uses `recovery_law`: the entries that are recovered from one dual run for each group are those of the dense derivative.
#![tactic(auto)]
