//! COMMON blocks: the run of a program with blocks, and the theorem that the lowered program, which has none, has the same runs.
//!
//! `specs/Accepted` has the premises, which reading and checking give, `specs/Theorem` the theorem, and the other modules what its proof goes through and worked programs.
//! The crate stands on the definitions of `def_common`, and holds laws, no code.
//! A layer above uses `lowering_keeps_law`: a run of a unit with blocks is its run in the lowered program.
#![tactic(auto)]

ghost use Rattle.std.specs.Prelude.{◌≡◌};
ghost use Rattle.law_common.specs.Refused.{RefusedAtPlaces, LaidAlike, AMemberForEach};
ghost use Rattle.law_common.specs.LoweredTexts.{LoweredIsWritten};
ghost use Rattle.law_common.specs.Theorem.{LoweringKeeps, SourceKeeps};
ghost use Rattle.law_common.specs.EachRule.{WorkedRules, WorkedLayouts};
ghost use Rattle.law_common.specs.Examples.{WorkedLowering, WorkedRun, WorkedLoweredRun, WorkedPassing, WorkedArrays, WorkedAccepted, WorkedClash, WorkedNaming, WorkedRefusals};

/// A unit that sets a member of a block and one that reads it: the lowered program and the runs of both; and a block that is passed through a unit that doesn't declare it.
pub fn worked_blocks()
    ensures lowering { WorkedLowering }
    ensures run { WorkedRun }
    ensures lowered_run { WorkedLoweredRun }
    ensures passing { WorkedPassing }
{}

/// Each rule of lowering in one program that was worked out by hand, and its refusals where a layout is another.
pub fn worked_rules()
    ensures rules { WorkedRules }
    ensures layouts { WorkedLayouts }
{}

/// Where a program that was read has no refusal of layouts, and its lowered one no fault, each unit's run with blocks, in which no call copies a member, is its run in the lowered program: on words, and on words with tangents.
pub fn lowering_keeps_law()
    ensures keeps { LoweringKeeps }
    ensures source { SourceKeeps }
{}

/// The worked programs meet the premises.
pub fn premises_met()
    ensures accepted { WorkedAccepted }
    ensures arrays { WorkedArrays }
{}

/// A program with one variable as a member and as an actual that is written, on which the two runs differ: it is refused. And a fresh name is none of an extent.
pub fn premises_needed()
    ensures clash { WorkedClash }
    ensures naming { WorkedNaming }
{}

/// Refusal 26 comes exactly where two units lay out one block differently or a member's extent is a name; else layouts are equal and literal.
pub fn refused_law()
    ensures places { RefusedAtPlaces }
    ensures alike { LaidAlike }
    ensures members { AMemberForEach }
    ensures worked { WorkedRefusals }
{}

/// The lowered program of units that can be written can be written, where the names of units have no fault.
pub fn written_law()
    ensures { LoweredIsWritten }
{}
