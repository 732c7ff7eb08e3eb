//! The flow of a program.

ghost use Rattle.std.specs.Prelude.{◌≡◌, ◌+◌, ◌<◌, ◌^◌, ℕ, IfOk, length, map};
ghost use Rattle.adj_tree.specs.View.{procedure_of};
ghost use Rattle.def_text.specs.Written.{IsWritten};
ghost use Rattle.def_names.specs.StatementsIn.{statements_in};
ghost use Rattle.def_names.specs.Variables as names;
ghost use Rattle.def_flow.specs.Splits.{is_line, split_calls};
ghost use Rattle.adj_reach.specs.Edges.{flag};
ghost use Rattle.adj_flow.specs.Low.{AreFew};
ghost use Rattle.adj_flow.specs.Asked.{IsFlow, units_of};

use adj_flow::Flow;
use adj_tree::{Memory, NameList, Unit};
use std::alloc::Global;

/// The flow of a written program with so many statements and with the variables of its units, where the unit of the number `head` is the head, and the calls at
/// these lines are to be split.
pub fn flow<'a>(
    alloc: Global,
    units: &'a [Unit],
    variables: &[&'a NameList],
    statements: usize,
    head: usize,
    splits: &[u32],
) -> Result<Flow<'a>, Memory>
    requires written { IsWritten (map procedure_of units.now) }
    requires variables { map (λ b. b.now) variables.now ≡ map names.variables (map procedure_of units.now) }
    requires few { AreFew (map (λ b. b.now) variables.now) (map procedure_of units.now) }
    requires statements { statements ≡ statements_in 0 (map procedure_of units.now) }
    requires head { head < length units.now }
    ensures units { IfOk result (λ f. units_of f ≡ map procedure_of units.now) }
    ensures flow { IfOk result (λ f. IsFlow f head) }
    ensures split { IfOk result (λ f. (n : ℕ) → flag f.split n ≡ split_calls (is_line splits.now) (map procedure_of units.now) n) }
{
    let flow = Flow::new(alloc, units, variables, statements, head, splits)?;
    Ok(flow)
}
