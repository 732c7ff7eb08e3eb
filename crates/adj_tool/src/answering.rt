//! The commands that are asked for a head: `adjoint`, `tangent` and `plan`.

ghost use Rattle.std.specs.Prelude.{◌≡◌, ◌≤◌, ℕ, List, None, Ok, length, IfOk};
ghost use Rattle.adj_tree.specs.View.{procedures_of};
ghost use Rattle.def_common.specs.Source.{ReadsLowered};
ghost use Rattle.def_text.specs.Reads.{ReadsSplits};
ghost use Rattle.def_text.specs.Written.{IsWritten};
ghost use Rattle.adj_symbols.specs.Checked.{IsWrittenIfNamed};
ghost use Rattle.def_text.specs.declared.mode.Mode.TheVariants.{Source};
ghost use Rattle.def_names.specs.Check.{IsSound};
ghost use Rattle.def_names.specs.Fault.{source_rules};
ghost use Rattle.def_names.specs.HeadFaults.{first_head_fault, head_of, unit_number};
ghost use Rattle.law_kernel.specs.Sound.{IsAccepted};
ghost use Rattle.def_kernel.specs.Stepped.{kernel_of};
ghost use Rattle.def_refused.specs.TextFaults.{program_of};
ghost use Rattle.adj_tool_answer.specs.Views.{answer_of};
ghost use Rattle.adj_tool.specs.Answer.{AnswersAccepted, AnswersChecked, AnswersFitted, AnswersProgram, AnswersWanted, most_bytes, too_large};
ghost use Rattle.adj_tool.specs.Exactly.{ReadsBack};
ghost use Rattle.adj_tool.specs.Fitting.{kernel_fits};
ghost use Rattle.adj_tool.specs.Headline.{IsTransformed, IsUnit};
ghost use Rattle.adj_tool.specs.Views.{request_of};

use crate::planned::text_wanted;
use crate::task::{Request, Wanted};
use adj_fixed::Mode;
use adj_norm::checked_kernel;
use adj_symbols::{Checked, check, head};
use adj_tool_answer::{Answer, Reading, Status, read_marked, reading_law, refused};
use adj_tree::{Fault, Head, Memory, Name, Program, Refusal};
use law_limits::emitted_law;
use law_tangent_carried::limits_law;
use std::alloc::Global;

/// The refusal of a kernel that is too large.
pub(crate) fn too_large(alloc: Global) -> Result<Answer, Memory>
    ensures { IfOk result (λ a. answer_of a ≡ too_large) }
{
    refused(alloc, Refusal::passed(1_073_741_823, 0))
}

/// The number of the unit of a name.
pub(crate) fn unit_number(program: &Program, name: &Name) -> usize
    ensures { result ≡ unit_number (procedures_of program.now) name.now }
{
    let units = program.units.as_slice();
    for (number, unit) in units.iter().enumerate() {
        if unit.name.equals(name) {
            return number;
        }
    }
    units.len()
}

// The kernel of a program. The program is gone then.
fn kernel_alone(alloc: Global, program: Checked) -> Result<Checked, Memory>
    requires accepted { IsAccepted (procedures_of program.program) }
    ensures kernel { IfOk result (λ c. procedures_of c.program ≡ kernel_of (procedures_of program.program)) }
{
    checked_kernel(alloc, program.program())
}

// The text that is wanted of a program, for the unit of a name as its head, or the refusal of its kernel.
fn written(
    alloc: Global,
    wanted: Wanted,
    program: Checked,
    name: &Name,
    head: Head,
    splits: &[u32],
) -> Result<Answer, Memory>
    requires accepted { IsAccepted (procedures_of program.program) }
    requires there { IsUnit (procedures_of program.program) name.now }
    ensures answer { IfOk result (λ a. AnswersFitted (kernel_fits (kernel_of (procedures_of program.program))) wanted splits.now (procedures_of program.program) name.now head (answer_of a)) }
    ensures reads_back { IfOk result (λ a. ReadsBack wanted (answer_of a) splits.now (procedures_of program.program) name.now head) }
{
    let kernel = kernel_alone(alloc, program)?;
    if !kernel.fits() {
        return too_large(alloc);
    }
    let unit = unit_number(kernel.program(), name);
    let vars = head.vars;
    let outvars = head.outvars;
    let own = Head {
        unit,
        vars,
        outvars,
    };
    let text = text_wanted(alloc, wanted, kernel, &own, splits)?;
    Ok(Answer {
        status: Status::Done,
        text,
    })
}

// The answer for a program without faults of names, calls and writes, and for its head.
fn answer_head(
    alloc: Global,
    wanted: Wanted,
    request: &Request,
    program: Checked,
    head: Head,
    splits: &[u32],
) -> Result<Answer, Memory>
    requires written { IsWritten (procedures_of program.program) }
    requires sound { IsSound source_rules (procedures_of program.program) }
    requires sound_head { let r = request_of request.now in first_head_fault (procedures_of program.program) r.head r.vars r.outvars ≡ None }
    requires head { let r = request_of request.now in head ≡ head_of (procedures_of program.program) r.head r.vars r.outvars }
    ensures answer { IfOk result (λ a. AnswersAccepted wanted splits.now (procedures_of program.program) request.now.head head (answer_of a)) }
    ensures transformed { IfOk result (λ a. (bytes : List ℕ) → length bytes ≤ most_bytes → ReadsSplits bytes splits.now → ReadsLowered bytes (procedures_of program.program) → program_of Source bytes ≡ Ok (procedures_of program.program) → IsTransformed wanted (request_of request.now) bytes (answer_of a)) }
{
    emitted_law();
    limits_law();
    reading_law();
    let answer = written(alloc, wanted, program, &request.head, head, splits)?;
    Ok(answer)
}

// The answer for a program without faults of names, calls and writes.
fn answer_checked(
    alloc: Global,
    wanted: Wanted,
    request: &Request,
    checked: Checked,
    splits: &[u32],
) -> Result<Answer, Memory>
    requires written { IsWritten (procedures_of checked.program) }
    requires sound { IsSound source_rules (procedures_of checked.program) }
    ensures answer { IfOk result (λ a. AnswersChecked None wanted (request_of request.now) splits.now (procedures_of checked.program) (answer_of a)) }
    ensures transformed { IfOk result (λ a. (bytes : List ℕ) → length bytes ≤ most_bytes → ReadsSplits bytes splits.now → ReadsLowered bytes (procedures_of checked.program) → program_of Source bytes ≡ Ok (procedures_of checked.program) → IsTransformed wanted (request_of request.now) bytes (answer_of a)) }
{
    let vars = request.vars.as_slice();
    let outvars = request.outvars.as_slice();
    match head(alloc, &checked, &request.head, vars, outvars) {
        Ok(head) => answer_head(alloc, wanted, request, checked, head, splits),
        Err(Fault::Refused(refusal)) => refused(alloc, refusal),
        Err(Fault::Memory) => Err(Memory),
    }
}

/// The answer for a program.
pub(crate) fn answer_program(
    alloc: Global,
    wanted: Wanted,
    request: &Request,
    program: Program,
    splits: &[u32],
) -> Result<Answer, Memory>
    requires { IsWrittenIfNamed (procedures_of program) }
    ensures answer { IfOk result (λ a. AnswersProgram wanted (request_of request.now) splits.now (procedures_of program) (answer_of a)) }
    ensures transformed { IfOk result (λ a. (bytes : List ℕ) → length bytes ≤ most_bytes → ReadsSplits bytes splits.now → ReadsLowered bytes (procedures_of program) → program_of Source bytes ≡ Ok (procedures_of program) → IsTransformed wanted (request_of request.now) bytes (answer_of a)) }
{
    match check(alloc, program, Mode::Source) {
        Ok(checked) => answer_checked(alloc, wanted, request, checked, splits),
        Err(Fault::Refused(refusal)) => refused(alloc, refusal),
        Err(Fault::Memory) => Err(Memory),
    }
}

/// The answer to an input within the limit. Here the way of a text begins:
///
/// 1. `read_marked` (adj_tool_answer) makes lines, statements and trees of the bytes, and dummies of the members of blocks: a `Program` and the
///    lines of calls that are to be split, or the first fault of the text.
/// 2. `check` (adj_symbols) makes it a `Checked`: its names, calls, chains and writes have no fault.
/// 3. `head` (adj_symbols) finds the unit that is asked for, with its independents and its dependents.
/// 4. `checked_kernel` (adj_norm) writes the kernel, which a check would accept: one more `Checked`. The program is let go.
/// 5. `plan` (adj_plan) analyses the kernel: its flow, and the marks of activity, liveness and of values to be recorded.
/// 6. `adjoint` (adj_weave, here `emit`) writes the program of the adjoint by these marks. The marks and the kernel are let go.
/// 7. `text` (adj_print) lays it out. The command `plan` ends with `plan_text` (adj_plan) in place of 6 and 7.
///
/// In this crate `answer_wanted` does 1, `answer_program` 2, `answer_checked` 3, `written` 4, and `text_wanted` 5 to 7, with a clause each.
pub(crate) fn answer_wanted(
    alloc: Global,
    wanted: Wanted,
    request: &Request,
    bytes: &[u8],
) -> Result<Answer, Memory>
    requires { length bytes.now ≤ most_bytes }
    ensures answer { IfOk result (λ a. AnswersWanted wanted (request_of request.now) bytes.now (answer_of a)) }
    ensures transformed { IfOk result (λ a. IsTransformed wanted (request_of request.now) bytes.now (answer_of a)) }
{
    match read_marked(alloc, bytes, Mode::Source) {
        Ok(reading) => {
            let Reading { program, splits } = reading;
            answer_program(alloc, wanted, request, program, splits.as_slice())
        }
        Err(Fault::Refused(refusal)) => refused(alloc, refusal),
        Err(Fault::Memory) => Err(Memory),
    }
}
