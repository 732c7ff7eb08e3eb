//! How long the names are that a kernel brings in: definitions and laws, no code.
//!
//! `specs/Lengths` says how long a fresh name is by the names that are taken, and how long the names of the units of a kernel are. The
//! layer above uses the laws for the limit that a run has on names.
#![tactic(auto)]

ghost use Rattle.law_limits.specs.Lengths.{FreshIsShort, KernelUnitsAreShort, KernelVariablesAreShort, LocalsAreVariables};

/// A fresh name is longer than the one that is wanted by an underscore and as many digits as count the candidates that are taken.
pub fn fresh_law()
    ensures { FreshIsShort }
{}

/// The kernel of a program that a text gives in Source mode has at most 402000 units, with names of at most 46 characters.
pub fn units_law()
    ensures { KernelUnitsAreShort }
{}

/// The variables of the kernel of an accepted program have at most 40 characters where those of the program have, and where it hasn't too many
/// locals in a unit; of which it has no more than variables.
pub fn variables_law()
    ensures short { KernelVariablesAreShort }
    ensures locals { LocalsAreVariables }
{}
