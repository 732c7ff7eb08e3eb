//! Marked loops, and the step calls of those that are reversed by schedules (docs/EMITTED.md, "Reversal of a marked loop").

ghost use Rattle.std.specs.Prelude.{◌≡◌, ℕ, List, suc};
ghost use Rattle.adj_tree.specs.View.{code_of, mark_of};
ghost use Rattle.def_names.specs.Numbers.{Vars};
ghost use Rattle.def_sweep.specs.Plan.{is_from_variable, step_in, reversed_by};
ghost use Rattle.adj_sweep_assignment.specs.View.{marks_of};
ghost use Rattle.adj_sweep.specs.HelperSteps.{schedules_for, step_of};

use adj_sweep_assignment::Marking;
use adj_tree::{Act, Exprs, Mark, Name, Stmts};

/// How the sweeps go through marked loops.
#[derive(Clone, Copy, PartialEq, Eq, Debug)]
pub enum MarkedLoops {
    /// As through others.
    Plain,
    /// Each whose step call is adjointed is reversed by a schedule.
    Reversed,
}

/// How a marked loop is reversed: each turn calls this unit with these actuals, and the mark tells how many snapshots there are.
#[derive(Clone, Copy)]
pub struct StepCall<'s> {
    pub name: &'s Name,
    pub actuals: &'s Exprs,
    pub mark: &'s Mark,
}

/// Whether the number of snapshots is the value of a variable.
pub fn is_from_variable(mark: &Mark) -> bool
    ensures from { result ≡ is_from_variable (mark_of mark.now) }
{
    match mark {
        Mark::Plain | Mark::Count(_) => false,
        Mark::From(_) => true,
    }
}

// The call that is the whole body of a loop with this mark, if it is one.
fn only_call<'s>(body: &'s Stmts, mark: &'s Mark) -> Option<StepCall<'s>>
    ensures step { (reads : List ℕ → Vars) → step_of reads result ≡ step_in reads (mark_of mark.now) (code_of body.now) }
{
    let Stmts::More(row) = body else {
        return None;
    };
    let Act::Call(name, actuals) = &row.first.act else {
        return None;
    };
    match &row.rest {
        Stmts::Empty => Some(StepCall {
            name,
            actuals,
            mark,
        }),
        Stmts::More(_) => None,
    }
}

/// The step call of a loop with this body and mark, where the loop is reversed by a schedule. `call` is the number of the statement
/// after the loop.
pub fn step_call<'s>(
    loops: MarkedLoops,
    marks: &Marking<'_>,
    call: usize,
    body: &'s Stmts,
    mark: &'s Mark,
) -> Option<StepCall<'s>>
    ensures step { (reads : List ℕ → Vars) (i : ℕ) → call ≡ suc i → step_of reads result ≡ reversed_by (schedules_for loops reads) (marks_of marks.now).adjointed i (code_of body.now) (mark_of mark.now) }
{
    let MarkedLoops::Reversed = loops else {
        return None;
    };
    match mark {
        Mark::Plain => None,
        Mark::Count(_) | Mark::From(_) => {
            if !marks.adjointed(call) {
                return None;
            }
            only_call(body, mark)
        }
    }
}
