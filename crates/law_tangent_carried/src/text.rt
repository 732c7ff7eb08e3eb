//! What is emitted as a tangent can be written as a text, has no fault as a text that is run, and keeps the limits of a run: definitions and laws, no code.
//!
//! `specs/Emitted` says what has no fault, and `Limits` that the text reads in Run mode as what was emitted. The layer above uses `text_law`,
//! `sound_law` and `limits_law`.
#![tactic(auto)]

ghost use Rattle.law_tangent_carried.specs.Emitted.{TangentIsWritten, KeepsNesting, KeepsDepth, UnitsHaveNone, NamesHaveNone, CallsHaveNone, ActualsHaveNone, ChainsHaveNone, WritesHaveNone, TangentIsSound, CallerIsSound};
ghost use Rattle.law_tangent_carried.specs.Limits.{TangentIsShallow, TangentIsRunnable};

/// What is emitted for a checked program, by exact analyses, can be written as a text, is nested no deeper than what it is of, and its expressions are
/// at most 4 deeper. The worked program's has no fault as a text that is run.
pub fn text_law()
    ensures written { TangentIsWritten }
    ensures nesting { KeepsNesting }
    ensures depth { KeepsDepth }
    ensures worked { CallerIsSound }
{}

/// It has no faults of units: their names are apart, and none is reserved.
pub fn units_law()
    ensures { UnitsHaveNone }
{}

/// It has no faults of names: variables are declared once, have their ranks, and names of their own.
pub fn names_law()
    ensures { NamesHaveNone }
{}

/// It has no faults of calls: each is of a unit that is there, and its actuals fit.
pub fn calls_law()
    ensures { CallsHaveNone }
{}

/// It has no faults of actuals: no variable is handed to a unit twice, and what a unit hands back has a name.
pub fn actuals_law()
    ensures { ActualsHaveNone }
{}

/// It has no faults of chains: no calls lead back, and chains are no longer than in a source that keeps the limit of a run.
pub fn chains_law()
    ensures { ChainsHaveNone }
{}

/// It has no faults of writes: no variable of a DO is written in its body, and no extent.
pub fn writes_law()
    ensures { WritesHaveNone }
{}

/// So it has no fault as a text that is run.
pub fn sound_law()
    ensures { TangentIsSound }
{}

/// What is emitted for the kernel of a program that a text gives in Source mode is no deeper than a run takes, and its text reads in Run mode as it, or
/// has too many statements.
pub fn limits_law()
    ensures shallow { TangentIsShallow }
    ensures runnable { TangentIsRunnable }
{
    law_limits::kept_law();
    law_limits::source_law();
}
