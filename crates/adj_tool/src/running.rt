//! The command `run`.

ghost use Rattle.std.specs.Prelude.{◌≡◌, IfOk, IsErrOf};
ghost use Rattle.adj_io.specs.Faults.{Rose};
ghost use Rattle.adj_tool_answer.specs.Views.{answer_of};
ghost use Rattle.adj_tool_run.specs.Running.{AnswersRun, most_bytes};
ghost use Rattle.adj_tool_answer.specs.EndingViews.{asked_of};
ghost use Rattle.adj_tool.specs.Tool.{AnswersInput};

use crate::input::{MOST_BYTES_OF_RUN, input_bytes, too_long};
use crate::stop::Stop;
use adj_io::Source;
use adj_tool_answer::{Answer, RunRequest};
use adj_tool_run::run_answer;
use std::alloc::Global;

/// The answer of `run` to an input.
pub(crate) fn run_input<S: Source>(
    alloc: Global,
    request: &RunRequest,
    input: &mut S,
) -> Result<Answer, Stop>
    ensures answer { IfOk result (λ a. AnswersInput most_bytes (AnswersRun (asked_of request.now)) (S.left input.old) (S.left input.new) (answer_of a)) }
    ensures fault { IsErrOf result Stop.ReadFault → Rose (S.faults input.old) (S.faults input.new) }
{
    let Some(bytes) = input_bytes(alloc, input, MOST_BYTES_OF_RUN)? else {
        let answer = too_long(alloc, MOST_BYTES_OF_RUN)?;
        return Ok(answer);
    };
    let answer = run_answer(alloc, request, bytes.as_slice())?;
    Ok(answer)
}
