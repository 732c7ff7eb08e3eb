//! The command `check`.

ghost use Rattle.std.specs.Prelude.{◌≡◌, ◌≤◌, None, Ok, true, length, IfOk, IsErrOf};
ghost use Rattle.adj_io.specs.Faults.{Rose};
ghost use Rattle.adj_tree.specs.View.{procedures_of};
ghost use Rattle.def_common.specs.Source.{ReadsLowered};
ghost use Rattle.def_text.specs.Reads.{ReadsSplits};
ghost use Rattle.adj_symbols.specs.Checked.{IsWrittenIfNamed};
ghost use Rattle.def_text.specs.declared.mode.Mode.TheVariants.{Source};
ghost use Rattle.def_names.specs.Check.{IsSound};
ghost use Rattle.def_names.specs.Fault.{source_rules};
ghost use Rattle.def_names.specs.HeadFaults.{first_head_fault, head_of};
ghost use Rattle.def_kernel.specs.Stepped.{kernel_of};
ghost use Rattle.def_refused.specs.TextFaults.{program_of};
ghost use Rattle.adj_tool_answer.specs.Views.{answer_of};
ghost use Rattle.adj_tool_answer.specs.EndingViews.{asked_of};
ghost use Rattle.adj_tool.specs.Answer.{most_bytes};
ghost use Rattle.adj_tool.specs.Check.{AnswersAcceptedCheck, AnswersCheck, AnswersSoundCheck, AnswersTextCheck, ChecksAdjoint, IsCompared};
ghost use Rattle.adj_tool.specs.Exactly.{RunsWritten};
ghost use Rattle.adj_tool.specs.Fitting.{kernel_fits};
ghost use Rattle.adj_tool.specs.Tool.{AnswersInput, TransformsInput};

use crate::answering::{too_large, unit_number};
use crate::input::{MOST_BYTES, input_bytes, too_long};
use crate::planned::known;
use crate::stop::Stop;
use crate::task::CheckRequest;
use adj_fixed::Mode;
use adj_io::Source;
use adj_norm::checked_kernel;
use adj_symbols::{Checked, check, head};
use adj_tool_answer::{Answer, Reading, read_marked, reading_law, refused};
use adj_tool_check::{check_answer, check_law};
use adj_tree::{Fault, Head, Memory, Program};
use law_limits::emitted_law;
use std::alloc::Global;

// The answer where names, calls and writes have no fault, nor has the head.
fn answer_head(
    alloc: Global,
    request: &CheckRequest,
    program: &Checked,
    head: Head,
    splits: &[u32],
    bytes: &[u8],
) -> Result<Answer, Memory>
    requires sound { IsSound source_rules (procedures_of program.now.program) }
    requires sound_head { first_head_fault (procedures_of program.now.program) request.now.run.head request.now.vars request.now.outvars ≡ None }
    requires head { head ≡ head_of (procedures_of program.now.program) request.now.run.head request.now.vars request.now.outvars }
    requires given { program_of Source bytes.now ≡ Ok (procedures_of program.now.program) }
    requires reads { ReadsLowered bytes.now (procedures_of program.now.program) }
    requires splits { ReadsSplits bytes.now splits.now }
    requires few { length bytes.now ≤ most_bytes }
    ensures answer { IfOk result (λ a. AnswersAcceptedCheck (asked_of request.now.run) bytes.now splits.now (procedures_of program.now.program) head (answer_of a)) }
    ensures compared { IfOk result (λ a. IsCompared (asked_of request.now.run) request.now.vars request.now.outvars bytes.now (answer_of a)) }
    // The adjoint that was run is what `adjoint` writes.
    ensures written { IfOk result (λ a. kernel_fits (kernel_of (procedures_of program.now.program)) ≡ true → RunsWritten splits.now (procedures_of program.now.program) head (asked_of request.now.run) bytes.now (answer_of a)) }
{
    emitted_law();
    reading_law();
    check_law();
    let kernel = checked_kernel(alloc, program.program())?;
    if !kernel.fits() {
        return too_large(alloc);
    }
    let number = head.unit;
    let own = Head {
        unit: unit_number(kernel.program(), &request.run.head),
        vars: head.vars,
        outvars: head.outvars,
    };
    let emitted = known(alloc, kernel, &own, splits)?;
    let head = Head {
        unit: number,
        vars: own.vars,
        outvars: own.outvars,
    };
    let answer = check_answer(alloc, &request.run, program, &head, emitted, bytes)?;
    Ok(answer)
}

// The answer where names, calls and writes have no fault.
fn answer_checked(
    alloc: Global,
    request: &CheckRequest,
    program: &Checked,
    splits: &[u32],
    bytes: &[u8],
) -> Result<Answer, Memory>
    requires sound { IsSound source_rules (procedures_of program.now.program) }
    requires given { program_of Source bytes.now ≡ Ok (procedures_of program.now.program) }
    requires reads { ReadsLowered bytes.now (procedures_of program.now.program) }
    requires splits { ReadsSplits bytes.now splits.now }
    requires few { length bytes.now ≤ most_bytes }
    ensures answer { IfOk result (λ a. AnswersSoundCheck (asked_of request.now.run) request.now.vars request.now.outvars bytes.now splits.now (procedures_of program.now.program) (answer_of a)) }
    ensures compared { IfOk result (λ a. IsCompared (asked_of request.now.run) request.now.vars request.now.outvars bytes.now (answer_of a)) }
{
    let vars = request.vars.as_slice();
    let outvars = request.outvars.as_slice();
    match head(alloc, program, &request.run.head, vars, outvars) {
        Ok(head) => answer_head(alloc, request, program, head, splits, bytes),
        Err(Fault::Refused(refusal)) => refused(alloc, refusal),
        Err(Fault::Memory) => Err(Memory),
    }
}

// The answer for a program.
fn answer_program(
    alloc: Global,
    request: &CheckRequest,
    program: Program,
    splits: &[u32],
    bytes: &[u8],
) -> Result<Answer, Memory>
    requires written { IsWrittenIfNamed (procedures_of program) }
    requires given { program_of Source bytes.now ≡ Ok (procedures_of program) }
    requires reads { ReadsLowered bytes.now (procedures_of program) }
    requires splits { ReadsSplits bytes.now splits.now }
    requires few { length bytes.now ≤ most_bytes }
    ensures answer { IfOk result (λ a. AnswersTextCheck (asked_of request.now.run) request.now.vars request.now.outvars bytes.now (Ok (procedures_of program)) (answer_of a)) }
    ensures compared { IfOk result (λ a. IsCompared (asked_of request.now.run) request.now.vars request.now.outvars bytes.now (answer_of a)) }
{
    match check(alloc, program, Mode::Source) {
        Ok(checked) => answer_checked(alloc, request, &checked, splits, bytes),
        Err(Fault::Refused(refusal)) => refused(alloc, refusal),
        Err(Fault::Memory) => Err(Memory),
    }
}

// The answer to an input within the limit.
fn answer_bytes(alloc: Global, request: &CheckRequest, bytes: &[u8]) -> Result<Answer, Memory>
    requires { length bytes.now ≤ most_bytes }
    ensures answer { IfOk result (λ a. AnswersCheck (asked_of request.now.run) request.now.vars request.now.outvars bytes.now (answer_of a)) }
    ensures compared { IfOk result (λ a. IsCompared (asked_of request.now.run) request.now.vars request.now.outvars bytes.now (answer_of a)) }
{
    match read_marked(alloc, bytes, Mode::Source) {
        Ok(reading) => {
            let Reading { program, splits } = reading;
            answer_program(alloc, request, program, splits.as_slice(), bytes)
        }
        Err(Fault::Refused(refusal)) => refused(alloc, refusal),
        Err(Fault::Memory) => Err(Memory),
    }
}

/// The answer of `check` to a text with its data.
pub(crate) fn answer_text(
    alloc: Global,
    request: &CheckRequest,
    bytes: &[u8],
) -> Result<Answer, Memory>
    ensures answer { IfOk result (λ a. AnswersCheck (asked_of request.now.run) request.now.vars request.now.outvars bytes.now (answer_of a)) }
    ensures compared { IfOk result (λ a. IsCompared (asked_of request.now.run) request.now.vars request.now.outvars bytes.now (answer_of a)) }
{
    if bytes.len() > MOST_BYTES {
        too_long(alloc, MOST_BYTES)
    } else {
        answer_bytes(alloc, request, bytes)
    }
}

/// The answer of `check` to an input.
pub(crate) fn check_input<S: Source>(
    alloc: Global,
    request: &CheckRequest,
    input: &mut S,
) -> Result<Answer, Stop>
    ensures answer { IfOk result (λ a. AnswersInput most_bytes (AnswersCheck (asked_of request.now.run) request.now.vars request.now.outvars) (S.left input.old) (S.left input.new) (answer_of a)) }
    ensures compared { IfOk result (λ a. (answer_of a).status ≡ 0 → TransformsInput (ChecksAdjoint (asked_of request.now.run) request.now.vars request.now.outvars) (S.left input.old) (S.left input.new) a.text.items) }
    ensures fault { IsErrOf result Stop.ReadFault → Rose (S.faults input.old) (S.faults input.new) }
{
    let Some(bytes) = input_bytes(alloc, input, MOST_BYTES)? else {
        let answer = too_long(alloc, MOST_BYTES)?;
        return Ok(answer);
    };
    let answer = answer_bytes(alloc, request, bytes.as_slice())?;
    Ok(answer)
}
