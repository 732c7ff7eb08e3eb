//! The sweeps by marks, the program that is emitted and the reversals of its marked loops: definitions, and lemmas that code needs.
//!
//! Variables of emitted code are told apart by what they hold; one renaming at the end (`specs/Naming.antt`) gives them names.
//! `specs/Tangents.antt` has inputs, shadows and directions, by which an adjoint is defined; `specs/Plan.antt` what the sweeps follow,
//! `specs/Emission.antt` both sweeps, and `specs/Program.antt` the emitted program. The crate stands on the trees, the words, the
//! meaning of programs and their names.
#![tactic(auto)]
