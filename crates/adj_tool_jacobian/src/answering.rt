//! The derivative that is asked for, from the bytes of its text and data on.

ghost use Rattle.std.specs.Prelude.{◌≡◌, ◌<◌, ◌≤◌, None, Some, Ok, length, map, slice_get, true, IfOk};
ghost use Rattle.adj_tree.specs.Code.{Procedure};
ghost use Rattle.adj_tree.specs.View.{procedures_of};
ghost use Rattle.adj_symbols.specs.Checked.{IsWrittenIfNamed};
ghost use Rattle.def_meaning.specs.Numbers.{words};
ghost use Rattle.def_meaning.specs.Units.{fits};
ghost use Rattle.def_meaning.specs.Written.{find_unit};
ghost use Rattle.def_names.specs.HeadFaults.{first_head_fault, head_of};
ghost use Rattle.adj_data.specs.Given.{slot_seen};
ghost use Rattle.adj_jacobian_groups.specs.View.{place_of, rows_of};
ghost use Rattle.adj_jacobian.specs.Products.{entry_of};
ghost use Rattle.adj_tool_answer.specs.Views.{answer_of};
ghost use Rattle.adj_tool_answer.specs.EndingViews.{asked_of};
ghost use Rattle.adj_tool_jacobian.specs.Jacobian.{AnswersChecked, AnswersHead, AnswersHeaded, AnswersJacobian, AnswersRun, AnswersText, most_bytes, task_of};
ghost use Rattle.adj_tool_jacobian.specs.Written.{at_of, derivative_text};

use crate::lines::{push_entries, push_pattern};
use adj_data::values;
use adj_fixed::{Mode, data_part};
use adj_jacobian::{Derivative, derivative};
use adj_symbols::{Checked, check, head};
use adj_tool_answer::{Answer, RunRequest, Status, no_input, push_number, read, refused, stopped};
use adj_tree::{Fault, Head, Memory, Name, NameList, Program, Values};
use std::alloc::Global;

// The answer to a derivative that was found.
fn done(alloc: Global, names: &[Name], found: &Derivative) -> Result<Answer, Memory>
    ensures { IfOk result (λ a. answer_of a ≡ record { status = 0; text = derivative_text names.now (map at_of (rows_of found.now.sparsity.rows)) (map place_of found.now.sparsity.cols) (rows_of found.now.sparsity.rows) found.now.grouping.count (map entry_of found.now.jacobian.entries) }) }
{
    let mut text = Vec::new(alloc);
    push_pattern(&mut text, &found.sparsity)?;
    push_number(&mut text, b"GROUPS ", u128::from(found.grouping.count))?;
    text.push(b'\n')?;
    push_entries(
        &mut text,
        names,
        &found.sparsity,
        found.jacobian.entries.as_slice(),
    )?;
    Ok(Answer {
        status: Status::Done,
        text,
    })
}

// The answer for a head and its input.
fn answer_run(
    alloc: Global,
    request: &RunRequest,
    checked: &Checked,
    head: &Head,
    input: Values,
) -> Result<Answer, Memory>
    requires there { head.now.unit < length (procedures_of checked.now.program) }
    requires fits { (u : Procedure) → slice_get (procedures_of checked.now.program) head.now.unit ≡ Some u → fits words u (map slot_seen input) ≡ true }
    ensures { (u : Procedure) → slice_get (procedures_of checked.now.program) head.now.unit ≡ Some u
        → IfOk result (λ a. AnswersRun (asked_of request.now) head.now.outvars (task_of (asked_of request.now) (procedures_of checked.now.program) u head.now.vars (map slot_seen input)) (answer_of a)) }
{
    let names = &checked.program().units.as_slice()[head.unit].dummies;
    match derivative(alloc, checked, head, input, request.budget) {
        Ok(found) => done(alloc, names.as_slice(), &found),
        Err(stop) => stopped(alloc, request, stop),
    }
}

// The answer for a head, a unit of a number.
fn answer_head(
    alloc: Global,
    request: &RunRequest,
    bytes: &[u8],
    checked: &Checked,
    head: &Head,
) -> Result<Answer, Memory>
    requires is_head { find_unit (procedures_of checked.now.program) request.now.head ≡ slice_get (procedures_of checked.now.program) head.now.unit }
    requires there { head.now.unit < length (procedures_of checked.now.program) }
    ensures { IfOk result (λ a. AnswersHead (asked_of request.now) bytes.now (procedures_of checked.now.program) head.now (find_unit (procedures_of checked.now.program) request.now.head) (answer_of a)) }
{
    let (start, line) = data_part(bytes);
    let data = &bytes[start..];
    let unit = &checked.program().units.as_slice()[head.unit];
    match values(alloc, data, line, unit) {
        Ok(input) => answer_run(alloc, request, checked, head, input),
        Err(error) => no_input(alloc, error),
    }
}

// The answer for a program without faults of names, calls and writes.
fn answer_checked(
    alloc: Global,
    request: &RunRequest,
    vars: &NameList,
    outvars: &NameList,
    bytes: &[u8],
    checked: &Checked,
) -> Result<Answer, Memory>
    ensures { IfOk result (λ a. AnswersChecked None (asked_of request.now) vars.now outvars.now bytes.now (procedures_of checked.now.program) (answer_of a)) }
{
    match head(
        alloc,
        checked,
        &request.head,
        vars.as_slice(),
        outvars.as_slice(),
    ) {
        Ok(head) => answer_head(alloc, request, bytes, checked, &head),
        Err(Fault::Refused(refusal)) => refused(alloc, refusal),
        Err(Fault::Memory) => Err(Memory),
    }
}

// The answer for the program of a text.
fn answer_program(
    alloc: Global,
    request: &RunRequest,
    vars: &NameList,
    outvars: &NameList,
    bytes: &[u8],
    program: Program,
) -> Result<Answer, Memory>
    requires { IsWrittenIfNamed (procedures_of program) }
    ensures { IfOk result (λ a. AnswersText (asked_of request.now) vars.now outvars.now bytes.now (Ok (procedures_of program)) (answer_of a)) }
{
    match check(alloc, program, Mode::Source) {
        Ok(checked) => answer_checked(alloc, request, vars, outvars, bytes, &checked),
        Err(Fault::Refused(refusal)) => refused(alloc, refusal),
        Err(Fault::Memory) => Err(Memory),
    }
}

/// The answer of `jacobian` to an input within the limit: a text, and its data behind the line `$DATA`. `vars` are the names of the
/// independents, and `outvars` those of the dependents.
pub fn jacobian_answer(
    alloc: Global,
    request: &RunRequest,
    vars: &NameList,
    outvars: &NameList,
    bytes: &[u8],
) -> Result<Answer, Memory>
    requires { length bytes.now ≤ most_bytes }
    ensures { IfOk result (λ a. AnswersJacobian (asked_of request.now) vars.now outvars.now bytes.now (answer_of a)) }
{
    match read(alloc, bytes, Mode::Source) {
        Ok(program) => answer_program(alloc, request, vars, outvars, bytes, program),
        Err(Fault::Refused(refusal)) => refused(alloc, refusal),
        Err(Fault::Memory) => Err(Memory),
    }
}
