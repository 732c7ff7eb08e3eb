//! All marks of a program.

ghost use Rattle.std.specs.Prelude.{◌≡◌, ◌<◌, ℕ, IfOk, length, map};
ghost use Rattle.adj_tree.specs.View.{procedures_of};
ghost use Rattle.def_meaning.specs.LeastSet.{least_rows};
ghost use Rattle.def_meaning.specs.Read.{read_rule};
ghost use Rattle.def_meaning.specs.Written.{write_rule};
ghost use Rattle.def_flow.specs.Splits.{is_line, split_calls};
ghost use Rattle.adj_reach.specs.Edges.{flag};
ghost use Rattle.adj_symbols.specs.Checked.{AreFacts};
ghost use Rattle.adj_symbols.specs.Numbers.{Fits};
ghost use Rattle.adj_flow.specs.Asked.{IsFlow, problem_of, units_of};
ghost use Rattle.adj_plan.specs.Asked.{IsPlan};

use crate::lists::{reads, variables, writes};
use adj_activity::{activity, flow};
use adj_flow::{Flow, Sides};
use adj_live::live;
use adj_symbols::Checked;
use adj_tbr::tbr;
use adj_tree::{Head, Marks, Memory};
use std::alloc::Global;

/// The marks of a program, and its flow, over which their flags are numbered.
pub struct Planned<'c> {
    pub flow: Flow<'c>,
    pub marks: Marks,
}

impl Drop for Planned<'_> {
    fn drop(self) {
        let Planned {
            flow: _flow,
            marks: _marks,
        } = self;
    }
}

/// The flow of a checked program that fits, for the head of a number, where the calls at these lines are to be split.
pub(crate) fn flow_of<'c>(
    alloc: Global,
    checked: &'c Checked,
    head: usize,
    splits: &[u32],
) -> Result<Flow<'c>, Memory>
    requires fits { Fits checked.now }
    requires head { head < length checked.now.program.units }
    ensures facts { AreFacts checked.now }
    ensures units { IfOk result (λ f. units_of f ≡ procedures_of checked.now.program) }
    ensures flow { IfOk result (λ f. IsFlow f head) }
    ensures split { IfOk result (λ f. (n : ℕ) → flag f.split n ≡ split_calls (is_line splits.now) (procedures_of checked.now.program) n) }
{
    let units = checked.program().units.as_slice();
    let variables = variables(alloc, checked)?;
    flow(
        alloc,
        units,
        variables.as_slice(),
        checked.statement_count(),
        head,
        splits,
    )
}

// The marks of the program of which this is the flow.
fn marks(alloc: Global, flow: &Flow<'_>, sides: Sides<'_>, head: &Head) -> Result<Marks, Memory>
    requires flow { IsFlow flow.now head.now.unit }
    requires read { map (λ b. b.now) sides.read.now ≡ least_rows read_rule (units_of flow.now) }
    requires written { map (λ b. b.now) sides.written.now ≡ least_rows write_rule (units_of flow.now) }
    ensures plan { IfOk result (λ m. IsPlan flow.now (problem_of flow.now head.now) m) }
{
    let activity = activity(alloc, flow, head)?;
    let kept = live(alloc, flow, sides, head, &activity)?;
    let saved = tbr(alloc, flow, sides, head, &activity, &kept)?;
    Ok(Marks {
        activity,
        kept,
        saved,
    })
}

/// The marks of a checked program that fits, for a head, where the calls at these lines are to be split: its activity, the statements that
/// the forward sweep keeps with the dummies that are wanted at entries, and the values that are saved.
pub fn plan<'c>(
    alloc: Global,
    checked: &'c Checked,
    head: &Head,
    splits: &[u32],
) -> Result<Planned<'c>, Memory>
    requires fits { Fits checked.now }
    requires head { head.now.unit < length checked.now.program.units }
    ensures units { IfOk result (λ p. units_of p.flow ≡ procedures_of checked.now.program) }
    ensures flow { IfOk result (λ p. IsFlow p.flow head.now.unit) }
    ensures split { IfOk result (λ p. (n : ℕ) → flag p.flow.split n ≡ split_calls (is_line splits.now) (procedures_of checked.now.program) n) }
    ensures plan { IfOk result (λ p. IsPlan p.flow (problem_of p.flow head.now) p.marks) }
{
    let flow = flow_of(alloc, checked, head.unit, splits)?;
    let reads = reads(alloc, checked)?;
    let writes = writes(alloc, checked)?;
    let sides = Sides {
        read: reads.as_slice(),
        written: writes.as_slice(),
    };
    let marks = marks(alloc, &flow, sides, head)?;
    Ok(Planned { flow, marks })
}
