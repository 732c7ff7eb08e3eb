//! The run that is asked for, from the bytes of its text and data on.

ghost use Rattle.std.specs.Prelude.{◌≡◌, ◌<◌, ◌≤◌, None, Some, Ok, length, map, slice_get, true, IfOk};
ghost use Rattle.adj_tree.specs.Code.{Procedure};
ghost use Rattle.adj_tree.specs.View.{procedures_of};
ghost use Rattle.adj_symbols.specs.Checked.{IsWrittenIfNamed};
ghost use Rattle.def_meaning.specs.Numbers.{words};
ghost use Rattle.def_meaning.specs.Units.{fits};
ghost use Rattle.def_meaning.specs.Written.{find_unit};
ghost use Rattle.adj_data.specs.Given.{slot_seen};
ghost use Rattle.adj_tool_answer.specs.Views.{answer_of};
ghost use Rattle.adj_tool_run.specs.Running.{AnswersRun, checked_answer, ended, head_answer, most_bytes, run_asked, text_answer};
ghost use Rattle.adj_tool_answer.specs.EndingViews.{asked_of};

use adj_data::values;
use adj_fixed::{Mode, data_part};
use adj_interp::{Log, run};
use adj_symbols::{Checked, check, head};
use adj_tape::Tape;
use adj_tool_answer::ending::{done, no_input, stopped};
use adj_tool_answer::request::RunRequest;
use adj_tool_answer::{Answer, read, refused};
use adj_tree::{Fault, Memory, Program, Values};
use std::alloc::Global;

// The answer for a unit and its input.
fn answer_run(
    alloc: Global,
    request: &RunRequest,
    checked: &Checked,
    unit: usize,
    input: Values,
) -> Result<Answer, Memory>
    requires there { unit < length (procedures_of checked.now.program) }
    requires fits { (u : Procedure) → slice_get (procedures_of checked.now.program) unit ≡ Some u → fits words u (map slot_seen input) ≡ true }
    ensures { (u : Procedure) → slice_get (procedures_of checked.now.program) unit ≡ Some u → IfOk result (λ a. answer_of a ≡ ended (asked_of request.now) u.dummies (run_asked (asked_of request.now) (procedures_of checked.now.program) u (map slot_seen input))) }
{
    let Ok(mut tape) = Tape::with_room(alloc, request.room) else {
        return Err(Memory);
    };
    let mut log = Log {
        used: 0,
        reversals: 0,
        advances: 0,
        height: 0,
    };
    let names = &checked.program().units.as_slice()[unit].dummies;
    match run(
        alloc,
        checked,
        unit,
        input,
        request.budget,
        &mut tape,
        &mut log,
    ) {
        Ok(values) => done(alloc, names, &values, tape.len(), log.used),
        Err(stop) => stopped(alloc, request, stop),
    }
}

// The answer for the head, a unit of a number.
fn answer_head(
    alloc: Global,
    request: &RunRequest,
    bytes: &[u8],
    checked: &Checked,
    unit: usize,
) -> Result<Answer, Memory>
    requires is_head { find_unit (procedures_of checked.now.program) request.now.head ≡ slice_get (procedures_of checked.now.program) unit }
    requires there { unit < length (procedures_of checked.now.program) }
    ensures { IfOk result (λ a. answer_of a ≡ head_answer (asked_of request.now) bytes.now (procedures_of checked.now.program) (find_unit (procedures_of checked.now.program) request.now.head)) }
{
    let (start, line) = data_part(bytes);
    let data = &bytes[start..];
    match values(alloc, data, line, &checked.program().units.as_slice()[unit]) {
        Ok(input) => answer_run(alloc, request, checked, unit, input),
        Err(error) => no_input(alloc, error),
    }
}

// The answer for a program without faults of names, calls and writes.
fn answer_checked(
    alloc: Global,
    request: &RunRequest,
    bytes: &[u8],
    checked: &Checked,
) -> Result<Answer, Memory>
    ensures { IfOk result (λ a. answer_of a ≡ checked_answer None (asked_of request.now) bytes.now (procedures_of checked.now.program)) }
{
    match head(alloc, checked, &request.head, &[], &[]) {
        Ok(head) => answer_head(alloc, request, bytes, checked, head.unit),
        Err(Fault::Refused(refusal)) => refused(alloc, refusal),
        Err(Fault::Memory) => Err(Memory),
    }
}

// The answer for the program of a text.
fn answer_program(
    alloc: Global,
    request: &RunRequest,
    bytes: &[u8],
    program: Program,
) -> Result<Answer, Memory>
    requires { IsWrittenIfNamed (procedures_of program) }
    ensures { IfOk result (λ a. answer_of a ≡ text_answer (asked_of request.now) bytes.now (Ok (procedures_of program))) }
{
    match check(alloc, program, Mode::Run) {
        Ok(checked) => answer_checked(alloc, request, bytes, &checked),
        Err(Fault::Refused(refusal)) => refused(alloc, refusal),
        Err(Fault::Memory) => Err(Memory),
    }
}

/// The answer of `run` to an input within the limit: a text, and its data behind the line `$DATA`.
pub fn run_answer(alloc: Global, request: &RunRequest, bytes: &[u8]) -> Result<Answer, Memory>
    requires { length bytes.now ≤ most_bytes }
    ensures { IfOk result (λ a. AnswersRun (asked_of request.now) bytes.now (answer_of a)) }
{
    match read(alloc, bytes, Mode::Run) {
        Ok(program) => answer_program(alloc, request, bytes, program),
        Err(Fault::Refused(refusal)) => refused(alloc, refusal),
        Err(Fault::Memory) => Err(Memory),
    }
}
