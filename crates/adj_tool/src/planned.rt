//! What is written of a kernel: what is emitted for it, as its adjoint or as its tangent, or its plan.

ghost use Rattle.std.specs.Prelude.{◌≡◌, ◌<◌, ℕ, List, IfOk, length, true, false};
ghost use Rattle.adj_tree.specs.View.{procedures_of};
ghost use Rattle.def_kernel.specs.Form.{IsKernel};
ghost use Rattle.def_sweep.specs.Program.{emitted_program_with};
ghost use Rattle.def_flow.specs.Splits.{is_line, split_calls};
ghost use Rattle.adj_reach.specs.Edges.{flag};
ghost use Rattle.adj_symbols.specs.Checked.{AreFacts};
ghost use Rattle.adj_symbols.specs.Numbers.{Fits};
ghost use Rattle.adj_activity.specs.Carried.{AreCarried};
ghost use Rattle.adj_flow.specs.Asked.{IsFlow, problem_of, units_of};
ghost use Rattle.adj_plan.specs.Asked.{IsPlan};
ghost use Rattle.adj_weave.specs.Marked.{marks_told};
ghost use Rattle.adj_tool.specs.Planned.{IsAdjointText, IsEmittedFor, IsKnownFor, IsPlanText, IsTangentEmitted, IsTangentText, IsTextFor};

use crate::task::Wanted;
use adj_plan::{CarriedFlow, Planned, carrying, plan, plan_text};
use adj_print::into_text;
use adj_sweep::steps::MarkedLoops;
use adj_symbols::Checked;
use adj_tangent::{Carried, tangent};
use adj_tool_check::Emitted;
use adj_tree::{Head, Memory, Program};
use adj_weave::{FoundMarks, Marked, adjoint as emit, head_adjoint};
use std::alloc::Global;

// What is known of a checked program.
fn checked_law(checked: &Checked)
    ensures { AreFacts checked.now }
{
    let _program = checked.program();
}

// The program that is emitted for a kernel by the marks of its plan. Marked loops are reversed by schedules.
fn emitted(
    alloc: Global,
    kernel: &Checked,
    head: &Head,
    found: &Planned<'_>,
) -> Result<Program, Memory>
    requires head { head.now.unit < length kernel.now.program.units }
    requires kernel { IsKernel (procedures_of kernel.now.program) }
    requires units { units_of found.now.flow ≡ procedures_of kernel.now.program }
    requires flow { IsFlow found.now.flow head.now.unit }
    requires plan { IsPlan found.now.flow (problem_of found.now.flow head.now) found.now.marks }
    requires split { (lines : List ℕ) × ((n : ℕ) → flag found.now.flow.split n ≡ split_calls (is_line lines) (procedures_of kernel.now.program) n) }
    ensures emitted { IfOk result (λ p. procedures_of p ≡ emitted_program_with true (marks_told found.now.flow found.now.marks) (procedures_of kernel.now.program) head.now.unit head.now.vars head.now.outvars) }
{
    checked_law(kernel);
    let marked = Marked::Found(FoundMarks {
        marks: &found.marks,
        flow: &found.flow,
    });
    emit(alloc, kernel, head, marked, MarkedLoops::Reversed)
}

// What is emitted for a kernel by the marks of its plan, with what is to be known of the adjoint of its head.
fn known_by(
    alloc: Global,
    kernel: &Checked,
    head: &Head,
    found: &Planned<'_>,
) -> Result<Emitted, Memory>
    requires head { head.now.unit < length kernel.now.program.units }
    requires kernel { IsKernel (procedures_of kernel.now.program) }
    requires units { units_of found.now.flow ≡ procedures_of kernel.now.program }
    requires flow { IsFlow found.now.flow head.now.unit }
    requires plan { IsPlan found.now.flow (problem_of found.now.flow head.now) found.now.marks }
    requires split { (lines : List ℕ) × ((n : ℕ) → flag found.now.flow.split n ≡ split_calls (is_line lines) (procedures_of kernel.now.program) n) }
    ensures known { IfOk result (λ e. (lines : List ℕ) → ((n : ℕ) → flag found.now.flow.split n ≡ split_calls (is_line lines) (procedures_of kernel.now.program) n) → IsKnownFor lines (procedures_of kernel.now.program) head.now (procedures_of e.program) e.adjoint e.shadowed) }
{
    let (marks, flow) = (&found.marks, &found.flow);
    let by = Marked::Found(FoundMarks { marks, flow });
    let program = emitted(alloc, kernel, head, found)?;
    let adjoint = head_adjoint(alloc, kernel, head, by)?;
    Ok(Emitted {
        program,
        adjoint: adjoint.name,
        shadowed: adjoint.shadowed,
    })
}

/// What is emitted for a kernel by the marks that its analyses find, where the calls at these lines are split, with what is to be known of
/// the adjoint of its head. The kernel is gone then.
pub(crate) fn known(
    alloc: Global,
    kernel: Checked,
    head: &Head,
    splits: &[u32],
) -> Result<Emitted, Memory>
    requires fits { Fits kernel }
    requires head { head.now.unit < length kernel.program.units }
    requires kernel { IsKernel (procedures_of kernel.program) }
    ensures known { IfOk result (λ e. IsKnownFor splits.now (procedures_of kernel.program) head.now (procedures_of e.program) e.adjoint e.shadowed) }
{
    let found = plan(alloc, &kernel, head, splits)?;
    known_by(alloc, &kernel, head, &found)
}

// What is emitted for a kernel by the marks that its analyses find. These are gone then.
fn emitted_for(
    alloc: Global,
    kernel: &Checked,
    head: &Head,
    splits: &[u32],
) -> Result<Program, Memory>
    requires fits { Fits kernel.now }
    requires head { head.now.unit < length kernel.now.program.units }
    requires kernel { IsKernel (procedures_of kernel.now.program) }
    ensures emitted { IfOk result (λ p. IsEmittedFor splits.now (procedures_of kernel.now.program) head.now (procedures_of p)) }
{
    let found = plan(alloc, kernel, head, splits)?;
    let program = emitted(alloc, kernel, head, &found)?;
    Ok(program)
}

// The text of what is emitted for a kernel. The kernel is gone when the text is laid out.
fn adjoint_text(
    alloc: Global,
    kernel: Checked,
    head: &Head,
    splits: &[u32],
) -> Result<Vec<u8>, Memory>
    requires fits { Fits kernel }
    requires head { head.now.unit < length kernel.program.units }
    requires kernel { IsKernel (procedures_of kernel.program) }
    ensures text { IfOk result (λ v. IsAdjointText splits.now (procedures_of kernel.program) head.now v.items) }
{
    let program = emitted_for(alloc, &kernel, head, splits)?;
    drop(kernel);
    let text = into_text(alloc, program)?;
    Ok(text)
}

// The program that is emitted for the tangent of a kernel, by what carries a tangent in it.
fn tangent_by(
    alloc: Global,
    kernel: &Checked,
    head: &Head,
    found: &CarriedFlow<'_>,
) -> Result<Program, Memory>
    requires head { head.now.unit < length kernel.now.program.units }
    requires kernel { IsKernel (procedures_of kernel.now.program) }
    requires units { units_of found.now.flow ≡ procedures_of kernel.now.program }
    requires flow { IsFlow found.now.flow head.now.unit }
    requires carried { AreCarried found.now.flow head.now found.now.carried }
    requires split { (n : ℕ) → flag found.now.flow.split n ≡ false }
    ensures emitted { IfOk result (λ p. IsTangentEmitted (procedures_of kernel.now.program) head.now (procedures_of p)) }
{
    let flags = found.carried.as_slice();
    let flow = &found.flow;
    let carried = Carried { flags, flow };
    let program = tangent(alloc, kernel, head, carried)?;
    Ok(program)
}

// What is emitted for the tangent of a kernel. What carries a tangent is gone then.
fn tangent_for(alloc: Global, kernel: &Checked, head: &Head) -> Result<Program, Memory>
    requires fits { Fits kernel.now }
    requires head { head.now.unit < length kernel.now.program.units }
    requires kernel { IsKernel (procedures_of kernel.now.program) }
    ensures emitted { IfOk result (λ p. IsTangentEmitted (procedures_of kernel.now.program) head.now (procedures_of p)) }
{
    let found = carrying(alloc, kernel, head)?;
    tangent_by(alloc, kernel, head, &found)
}

// The text of the tangent of a kernel. The kernel is gone when the text is laid out.
fn tangent_text(alloc: Global, kernel: Checked, head: &Head) -> Result<Vec<u8>, Memory>
    requires fits { Fits kernel }
    requires head { head.now.unit < length kernel.program.units }
    requires kernel { IsKernel (procedures_of kernel.program) }
    ensures text { IfOk result (λ v. IsTangentText (procedures_of kernel.program) head.now v.items) }
{
    let program = tangent_for(alloc, &kernel, head)?;
    drop(kernel);
    let text = into_text(alloc, program)?;
    Ok(text)
}

// The text of a plan.
fn marks_text(
    alloc: Global,
    kernel: &Checked,
    head: &Head,
    found: &Planned<'_>,
) -> Result<Vec<u8>, Memory>
    requires units { units_of found.now.flow ≡ procedures_of kernel.now.program }
    requires flow { IsFlow found.now.flow head.now.unit }
    requires plan { IsPlan found.now.flow (problem_of found.now.flow head.now) found.now.marks }
    ensures text { IfOk result (λ v. (lines : List ℕ) → ((n : ℕ) → flag found.now.flow.split n ≡ split_calls (is_line lines) (procedures_of kernel.now.program) n) → IsPlanText lines (procedures_of kernel.now.program) head.now v.items) }
{
    let (_kernel, _head) = (kernel, head);
    let text = plan_text(alloc, found)?;
    Ok(text)
}

/// The text that is wanted of a kernel and its head, by the marks that its analyses find, where the calls at these lines are split.
pub(crate) fn text_wanted(
    alloc: Global,
    wanted: Wanted,
    kernel: Checked,
    head: &Head,
    splits: &[u32],
) -> Result<Vec<u8>, Memory>
    requires fits { Fits kernel }
    requires head { head.now.unit < length kernel.program.units }
    requires kernel { IsKernel (procedures_of kernel.program) }
    ensures text { IfOk result (λ v. IsTextFor wanted splits.now (procedures_of kernel.program) head.now v.items) }
{
    match wanted {
        Wanted::Adjoint => adjoint_text(alloc, kernel, head, splits),
        Wanted::Tangent => tangent_text(alloc, kernel, head),
        Wanted::Plan => {
            let found = plan(alloc, &kernel, head, splits)?;
            marks_text(alloc, &kernel, head, &found)
        }
    }
}
