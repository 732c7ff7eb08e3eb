//! The law on completeness.

ghost use Rattle.adj_tool.specs.Complete.{CheckIsDone, JacobianIsDone, RunIsDone, WantedIsDone};

use adj_tool_answer::reading_law;

/// Where a text and its data have no fault and each run of the command is done, so is the answer: its status is 0.
pub fn completeness_law()
    ensures wanted { WantedIsDone }
    ensures run { RunIsDone }
    ensures check { CheckIsDone }
    ensures jacobian { JacobianIsDone }
{
    reading_law();
}
