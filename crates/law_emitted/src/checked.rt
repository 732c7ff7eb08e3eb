//! What is emitted for a checked program in kernel form is its adjoint: definitions and laws, no code.
//!
//! `specs/Checked` says which programs are meant: those that can be written as a text, have no fault of names, calls, chains and
//! writes, and are in kernel form. Its premises are those that checks decide; the crate joins the names of programs and kernel
//! form with the theorem on both sweeps. The layers above use `checked_law` with full marks,
//! and `lawful_law` with any others.
#![tactic(auto)]

ghost use Rattle.law_emitted.specs.Checked.{LawfulFits, LawfulIsAdjoint, ReachedIsAdjoint, CheckedFits, CheckedIsAdjoint};

/// A checked program in kernel form meets all that the law on emitted programs asks.
pub fn premises_law()
    ensures { CheckedFits }
{}

/// What is emitted for it with full marks is its adjoint, with each of its units as the head.
pub fn checked_law()
    ensures { CheckedIsAdjoint }
{}

/// The same with any facts that meet the laws, of all units or of those that the head reaches, where these suit the head.
pub fn lawful_law()
    ensures fits { LawfulFits }
    ensures adjoint { LawfulIsAdjoint }
    ensures reached { ReachedIsAdjoint }
{}
