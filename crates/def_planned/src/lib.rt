//! The marks of a program, as exact analyses of its kernel say them: definitions, no code.
//!
//! `specs/ProgramFacts.antt` has what analyses say of a whole program, and `specs/Planned.antt` the marks of the kernel of a program and
//! what is emitted by them. The crate stands on what the analyses are to find (`def_flow`), the sweeps (`def_sweep`) and the kernel
//! (`def_kernel`).
#![tactic(auto)]
