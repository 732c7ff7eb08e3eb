//! What is emitted for a checked program can be written as a text and has no fault: definitions and laws, no code.
//!
//! `specs/Emitted` says what holds of the program that is emitted for a checked program in kernel form, for each of its units as
//! the head, whether marked loops are reversed by schedules or not. The marks may split calls: `specs/Splits` says which.
//! It stands on the theorem on both sweeps and on the names of programs. The layer above uses `written_law`, so that the
//! text that is written for an adjoint reads as that adjoint.
#![tactic(auto)]

ghost use Rattle.law_emitted.specs.Emitted.{MarkedIsWritten, EmittedIsWritten, LawfulHaveShadows, UnitsHaveNone, NamesHaveNone, CallsHaveNone, ActualsHaveNone, ChainsHaveNone, WritesHaveNone, MarkedIsSound, EmittedIsSound, KeepsNesting, KeepsDepth};

/// What is emitted can be written as a text, by any marks whose shadows are there and that split what may be split, and so by full marks.
pub fn written_law()
    ensures marked { MarkedIsWritten }
    ensures full { EmittedIsWritten }
{}

/// Marks of facts that meet the laws have the shadows that they use.
pub fn shadows_law()
    ensures { LawfulHaveShadows }
{}

/// It has no faults of units, by any marks: their names are apart, and none is reserved.
pub fn units_law()
    ensures { UnitsHaveNone }
{}

/// It has no faults of names as a text that is run: variables are declared once, have their ranks, and names of their own.
pub fn names_law()
    ensures { NamesHaveNone }
{}

/// It has no faults of calls: each is of a unit that is there, and its actuals fit.
pub fn calls_law()
    ensures { CallsHaveNone }
{}

/// It has no faults of actuals: no variable is handed to a unit twice, and what a unit hands back has a name.
pub fn actuals_law()
    ensures { ActualsHaveNone }
{}

/// It has no faults of chains: no calls lead back, and chains are no longer than in a source that keeps the limit of a run.
pub fn chains_law()
    ensures { ChainsHaveNone }
{}

/// It has no faults of writes: no variable of a DO is written in its body, and no extent.
pub fn writes_law()
    ensures { WritesHaveNone }
{}

/// So it has no fault as a text that is run, by any marks whose shadows are there and that split what may be split, and so by full marks.
pub fn sound_law()
    ensures marked { MarkedIsSound }
    ensures full { EmittedIsSound }
{}

/// It is nested no deeper than the source, or by two where marked loops are reversed by schedules.
pub fn nesting_law()
    ensures { KeepsNesting }
{}

/// Its expressions and conditions are at most 3 deeper than those of the source.
pub fn depth_law()
    ensures { KeepsDepth }
{}
