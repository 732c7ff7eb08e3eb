//! The command `jacobian`.

ghost use Rattle.std.specs.Prelude.{◌≡◌, IfOk, IsErrOf};
ghost use Rattle.adj_io.specs.Faults.{Rose};
ghost use Rattle.adj_tool_answer.specs.Views.{answer_of};
ghost use Rattle.adj_tool_answer.specs.EndingViews.{asked_of};
ghost use Rattle.adj_tool_jacobian.specs.Jacobian.{AnswersJacobian, most_bytes};
ghost use Rattle.adj_tool.specs.Tool.{AnswersInput};

use crate::input::{MOST_BYTES, input_bytes, too_long};
use crate::stop::Stop;
use crate::task::CheckRequest;
use adj_io::Source;
use adj_tool_answer::Answer;
use adj_tool_jacobian::jacobian_answer;
use std::alloc::Global;

/// The answer of `jacobian` to an input.
pub(crate) fn jacobian_input<S: Source>(
    alloc: Global,
    request: &CheckRequest,
    input: &mut S,
) -> Result<Answer, Stop>
    ensures answer { IfOk result (λ a. AnswersInput most_bytes (AnswersJacobian (asked_of request.now.run) request.now.vars request.now.outvars) (S.left input.old) (S.left input.new) (answer_of a)) }
    ensures fault { IsErrOf result Stop.ReadFault → Rose (S.faults input.old) (S.faults input.new) }
{
    let Some(bytes) = input_bytes(alloc, input, MOST_BYTES)? else {
        let answer = too_long(alloc, MOST_BYTES)?;
        return Ok(answer);
    };
    let answer = jacobian_answer(
        alloc,
        &request.run,
        &request.vars,
        &request.outvars,
        bytes.as_slice(),
    )?;
    Ok(answer)
}
