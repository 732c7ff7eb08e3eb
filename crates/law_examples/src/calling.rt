//! A program with a checkpointed call whose analyses meet the laws.

ghost use Rattle.law_examples.specs.AnalysedWorked.{CallingIsAdjoint};

/// All that this asks can be met: by a program with a checkpointed call.
pub fn premises_met()
    ensures { CallingIsAdjoint }
{}
