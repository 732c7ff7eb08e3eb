//! What an adjoint of a program of a user is: definitions, no code.
//!
//! `specs/Adjoint.antt` says that a program is an adjoint, `specs/Shape.antt` and `specs/KernelShape.antt` what it looks like, and
//! `specs/Spends.antt` and `specs/KernelSpends.antt` what its run takes. The crate stands on the sweeps (`def_sweep`) and the kernel
//! (`def_kernel`).
#![tactic(auto)]
