//! The marks of exact analyses meet the laws of the sweeps: definitions and laws, no code.
//!
//! `specs/Meets` takes what the analyses of `def_flow` say as marks and facts of a whole program, as the theorem of `def_sweep` does.
//! The crate joins the two: what is said there way by way and statement by statement is here said of lists, units and calls.
//! `meets_law` gives the premise on laws of `emitted_law`; the layer above uses `analysed_law`.
#![tactic(auto)]

pub mod shadows;

ghost use Rattle.law_analysed.specs.Meets.{MarkedCallsUnsplit, AnalysedMeets, AnalysedFits, AnalysedIsAdjoint, AnalysedFitsReversed, AnalysedReverses};

pub use shadows::shadows_law;

/// What exact analyses say of a program in kernel form meets the laws of each unit that takes part: where no loop is marked, or where marked
/// loops are reversed by schedules. Calls may be split, but no step call of a marked loop; the calls at the lines of directives are such.
pub fn meets_law()
    ensures meets { AnalysedMeets }
    ensures unsplit { MarkedCallsUnsplit }
{}

/// So a checked program in kernel form is a source with them, as the law on emitted programs asks for one: where no loop is marked, and where marked
/// loops are reversed by schedules.
pub fn fitting_law()
    ensures unmarked { AnalysedFits }
    ensures reversed { AnalysedFitsReversed }
{}

/// What is emitted by their marks for a checked program in kernel form is its adjoint: where no loop is marked, and where marked loops are reversed
/// by schedules.
pub fn analysed_law()
    ensures unmarked { AnalysedIsAdjoint }
    ensures reversed { AnalysedReverses }
{}
