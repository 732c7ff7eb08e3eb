//! The call that does all that the program does.

ghost use Rattle.std.specs.Prelude.{◌≡◌, ◌<◌, ◌⊎◌, IfOk, IsErrOf};
ghost use Rattle.adj_io.specs.Faults.{Rose};
ghost use Rattle.adj_tool.specs.Arguments.{taken};
ghost use Rattle.adj_tool_answer.specs.Views.{answer_of};
ghost use Rattle.adj_tool.specs.Answer.{AnswersWanted, most_bytes};
ghost use Rattle.adj_tool.specs.Headline.{Writes};
ghost use Rattle.adj_tool.specs.Views.{request_of};
ghost use Rattle.adj_tool.specs.Tool.{AnswersInput, IsAnswer, IsComparedTo, IsComparison, IsEmitted, IsHeadline, IsTangent, IsWrittenTo, ReadsInput, TransformsInput, WritesAll, WritesFront};

use crate::answering::answer_wanted;
use crate::arguments::take;
use crate::checking::check_input;
use crate::input::{MOST_BYTES, input_bytes, too_long};
use crate::jacobian::jacobian_input;
use crate::running::run_input;
use crate::sampling::sample_answer;
use crate::schedule::schedule;
use crate::stop::Stop;
use crate::task::{Request, Task, Wanted};
use crate::text::Text;
use adj_io::{Sink, Source, WriteFault, write_all};
use adj_tool_answer::{Answer, usage};
use std::alloc::Global;

// The answer to an input of a command that is asked for a head.
fn answer_input<S: Source>(
    alloc: Global,
    wanted: Wanted,
    request: &Request,
    input: &mut S,
) -> Result<Answer, Stop>
    ensures answer { IfOk result (λ a. AnswersInput most_bytes (AnswersWanted wanted (request_of request.now)) (S.left input.old) (S.left input.new) (answer_of a)) }
    ensures transformed { IfOk result (λ a. (answer_of a).status ≡ 0 → TransformsInput (Writes wanted (request_of request.now)) (S.left input.old) (S.left input.new) a.text.items) }
    ensures fault { IsErrOf result Stop.ReadFault → Rose (S.faults input.old) (S.faults input.new) }
{
    let Some(bytes) = input_bytes(alloc, input, MOST_BYTES)? else {
        let answer = too_long(alloc, MOST_BYTES)?;
        return Ok(answer);
    };
    let answer = answer_wanted(alloc, wanted, request, bytes.as_slice())?;
    Ok(answer)
}

// The answer to the arguments, and to the input where they ask for a command that reads.
fn answer_arguments<S: Source>(
    alloc: Global,
    arguments: &[Text],
    input: &mut S,
) -> Result<Answer, Stop>
    ensures answer { IfOk result (λ a. IsAnswer (taken arguments.now) (S.left input.old) (S.left input.new) (answer_of a)) }
    ensures written { IfOk result (λ a. (answer_of a).status ≡ 0 → IsWrittenTo (taken arguments.now) (S.left input.old) (S.left input.new) a.text.items) }
    ensures compared { IfOk result (λ a. (answer_of a).status ≡ 0 → IsComparedTo (taken arguments.now) (S.left input.old) (S.left input.new) a.text.items) }
    ensures fault { IsErrOf result Stop.ReadFault → Rose (S.faults input.old) (S.faults input.new) }
    ensures reads { IsErrOf result Stop.ReadFault → ReadsInput (taken arguments.now) }
    ensures unread { (ReadsInput (taken arguments.now) → ⊥) → S.left input.new ≡ S.left input.old }
{
    let Some(task) = take(alloc, arguments)? else {
        let answer = usage(alloc)?;
        return Ok(answer);
    };
    match task {
        Task::Adjoint(request) => { answer_input(alloc, Wanted::Adjoint, &request, input) }
        Task::Tangent(request) => { answer_input(alloc, Wanted::Tangent, &request, input) }
        Task::Plan(request) => { answer_input(alloc, Wanted::Plan, &request, input) }
        Task::Run(request) => { run_input(alloc, &request, input) }
        Task::Check(request) => { check_input(alloc, &request, input) }
        Task::Jacobian(request) => { jacobian_input(alloc, &request, input) }
        Task::Schedule(reversal) => {
            let answer = schedule(alloc, &reversal)?;
            Ok(answer)
        }
        Task::Sample(number) => {
            let answer = sample_answer(alloc, number)?;
            Ok(answer)
        }
    }
}

/// Does what the arguments ask for, and answers the status of the program.
///
/// 0: done. 1: the arguments are no command. 2: the text is refused. 3: the data have a fault. 4: a run trapped. 5: a run used up its
/// statements. 6: a run found its tape full. 7: a read failed. 8: a write failed. 9: memory ran out.
pub fn tool<S: Source, K: Sink>(
    alloc: Global,
    arguments: &[Text],
    input: &mut S,
    output: &mut K,
) -> u8
    ensures answer { result < 7 → WritesAll (taken arguments.now) (S.left input.old) (S.left input.new) (K.taken output.old) (K.taken output.new) result }
    ensures read_fault { result ≡ 7 → Rose (S.faults input.old) (S.faults input.new) }
    ensures reads { result ≡ 7 → ReadsInput (taken arguments.now) }
    // A command that doesn't read, and arguments that are none, leave the input as it was, whatever the status.
    ensures unread { (ReadsInput (taken arguments.now) → ⊥) → S.left input.new ≡ S.left input.old }
    ensures write_fault { result ≡ 8 → Rose (K.faults output.old) (K.faults output.new) }
    ensures front { result ≡ 8 → WritesFront (taken arguments.now) (S.left input.old) (S.left input.new) (K.taken output.old) (K.taken output.new) }
    ensures unwritten { (result ≡ 7) ⊎ (result ≡ 9) → K.taken output.new ≡ K.taken output.old }
    // Where `adjoint` is done, what was written is an adjoint of what was read.
    ensures headline { result ≡ 0 → IsHeadline (taken arguments.now) (S.left input.old) (S.left input.new) (K.taken output.old) (K.taken output.new) }
    // Where `tangent` is done, it is the tangent of what was read.
    ensures tangent { result ≡ 0 → IsTangent (taken arguments.now) (S.left input.old) (S.left input.new) (K.taken output.old) (K.taken output.new) }
    // What both write is a canonical text that can be run, and an adjoint keeps, saves and pushes what its marks say.
    ensures emitted { result ≡ 0 → IsEmitted (taken arguments.now) (S.left input.old) (S.left input.new) (K.taken output.old) (K.taken output.new) }
    // Where `check` or `sample` is done, the two products that were written are equal, and the adjoint never trapped.
    ensures compared { result ≡ 0 → IsComparison (taken arguments.now) (S.left input.old) (S.left input.new) (K.taken output.old) (K.taken output.new) }
    ensures status { result < 10 }
{
    match answer_arguments(alloc, arguments, input) {
        Ok(answer) => match write_all(output, answer.text.as_slice()) {
            Ok(()) => answer.status.number(),
            Err(WriteFault) => 8,
        },
        Err(Stop::ReadFault) => 7,
        Err(Stop::Memory) => 9,
    }
}
