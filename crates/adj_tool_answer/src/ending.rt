//! What is written of data that have a fault, and of runs that ended.

ghost use Rattle.std.specs.Prelude.{◌≡◌, length, map, Some, IfOk};
ghost use Rattle.adj_interp_frame.specs.Framed.{trap_of};
ghost use Rattle.adj_data.specs.DataCodes.{data_code_number};
ghost use Rattle.adj_data.specs.Given.{slot_seen};
ghost use Rattle.adj_tool_answer.specs.Answer.{line_of_one};
ghost use Rattle.adj_tool_answer.specs.Views.{answer_of, status_of};
ghost use Rattle.adj_tool_answer.specs.Endings.{bad_data, done, kind_text, trapped};
ghost use Rattle.adj_tool_answer.specs.EndingViews.{asked_of, error_answer, stop_answer};

use crate::answer::{Answer, Status, push_number};
use crate::request::RunRequest;
use adj_data::{DataCode, DataError, print_values};
use adj_interp::Stop;
use adj_tree::{Memory, NameList, Trap, Values};
use std::alloc::Global;

// The answer to data that have a fault.
fn bad_data(alloc: Global, code: DataCode, line: u32) -> Result<Answer, Memory>
    ensures { IfOk result (λ a. answer_of a ≡ bad_data (record { code = data_code_number code; line = line })) }
{
    let mut text = Vec::new(alloc);
    push_number(&mut text, b"DATA ", u128::from(code.number()))?;
    push_number(&mut text, b" LINE ", u128::from(line))?;
    text.push(b'\n')?;
    Ok(Answer {
        status: Status::Data,
        text,
    })
}

/// The answer to data that give no input.
pub fn no_input(alloc: Global, error: DataError) -> Result<Answer, Memory>
    ensures { IfOk result (λ a. Some (answer_of a) ≡ error_answer error) }
{
    match error {
        DataError::Data(code, line) => bad_data(alloc, code, line),
        DataError::Memory => Err(Memory),
    }
}

// The name of a kind of trap.
fn kind_name(kind: Trap) -> &'static [u8]
    ensures { result.now ≡ kind_text (trap_of kind) }
{
    match kind {
        Trap::Division => b"DIVISION",
        Trap::Index => b"INDEX",
        Trap::Step => b"STEP",
        Trap::Shape => b"SHAPE",
        Trap::Tape => b"TAPE",
        Trap::Schedule => b"SCHEDULE",
        Trap::Power => b"POWER",
    }
}

// The answer to a run that trapped at a line.
fn trapped(alloc: Global, kind: Trap, line: u32) -> Result<Answer, Memory>
    ensures { IfOk result (λ a. answer_of a ≡ trapped (trap_of kind) line) }
{
    let mut text = Vec::new(alloc);
    text.extend_from_slice(b"TRAP ")?;
    text.extend_from_slice(kind_name(kind))?;
    push_number(&mut text, b" LINE ", u128::from(line))?;
    text.push(b'\n')?;
    Ok(Answer {
        status: Status::Trap,
        text,
    })
}

// A line of a keyword and a number.
fn line_of_one(alloc: Global, status: Status, keyword: &[u8], number: u64) -> Result<Answer, Memory>
    ensures { IfOk result (λ a. answer_of a ≡ record { status = status_of status; text = line_of_one keyword.now number }) }
{
    let mut text = Vec::new(alloc);
    push_number(&mut text, keyword, u128::from(number))?;
    text.push(b'\n')?;
    Ok(Answer { status, text })
}

/// The answer to a run that stopped before its end.
pub fn stopped(alloc: Global, request: &RunRequest, stop: Stop) -> Result<Answer, Memory>
    ensures { IfOk result (λ a. Some (answer_of a) ≡ stop_answer (asked_of request.now) stop) }
{
    match stop {
        Stop::Trap(kind, line) => trapped(alloc, kind, line),
        Stop::Budget => line_of_one(alloc, Status::Budget, b"BUDGET ", request.budget),
        Stop::TapeFull => line_of_one(alloc, Status::Tape, b"TAPE ROOM ", request.room),
        Stop::Memory => Err(Memory),
    }
}

/// The answer to a run that is done, with so many words left on its tape and so many statements executed.
pub fn done(
    alloc: Global,
    names: &NameList,
    values: &Values,
    words: u64,
    used: u64,
) -> Result<Answer, Memory>
    requires { length names.now ≡ length values.now }
    ensures { IfOk result (λ a. answer_of a ≡ done names.now (map slot_seen values.now) words used) }
{
    let mut text = print_values(alloc, names, values)?;
    push_number(&mut text, b"TAPE ", u128::from(words))?;
    push_number(&mut text, b"\nUSED ", u128::from(used))?;
    text.push(b'\n')?;
    Ok(Answer {
        status: Status::Done,
        text,
    })
}
