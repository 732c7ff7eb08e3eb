//! What the kernel of a program is: definitions, no code.
//!
//! `specs/Stepped.antt` makes units of the bodies of marked loops, `specs/Lowered.antt` lowers statements, `specs/Kernel.antt` has
//! names, units and programs (docs/KERNEL.md), and `specs/Weights.antt` what statements weigh.
#![tactic(auto)]
