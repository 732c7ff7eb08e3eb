//! The answer to a text with its data.

ghost use Rattle.std.specs.Prelude.{◌≡◌, ◌<◌, ◌++◌, Some, is_some, length, map, slice_get, true, codes, IfOk};
ghost use Rattle.adj_tree.specs.Code.{Procedure};
ghost use Rattle.adj_tree.specs.View.{procedures_of};
ghost use Rattle.def_meaning.specs.Log.{log_of};
ghost use Rattle.def_meaning.specs.Numbers.{words};
ghost use Rattle.def_meaning.specs.Units.{fits};
ghost use Rattle.def_meaning.specs.Written.{find_unit};
ghost use Rattle.def_sweep.specs.Tangents.{cells_of};
ghost use Rattle.def_sweep.specs.MarkedAdjoint.{joined_by};
ghost use Rattle.adj_data.specs.Given.{slot_seen};
ghost use Rattle.adj_tool_answer.specs.Answer.{line_of_one};
ghost use Rattle.adj_tool_answer.specs.Views.{answer_of};
ghost use Rattle.adj_tool_answer.specs.EndingViews.{asked_of};
ghost use Rattle.adj_tool_check.specs.Checking.{Sides, adjoint_run, adjoints_in, after, check_answer, compared, dual_run, flagged_lines, output_lines, products_line, runs_answer, tangents_in};
ghost use Rattle.adj_tool_check.specs.Emitted.{IsEmittedFor, IsRunnable, read_back};
ghost use Rattle.adj_tool_check.specs.Ready.{SuitsHead, given_in, sides_of};

use crate::copies::copies;
use crate::emitted::{Emitted, number_of, runnable};
use crate::lines::{push_flagged, push_outputs, push_products};
use crate::products::product;
use crate::runs::{run_dually, run_on};
use crate::shadows::{joined, shadows};
use adj_data::check_values;
use adj_fixed::data_part;
use adj_symbols::Checked;
use adj_tool_answer::{Answer, RunRequest, Status, no_input, push_number, stopped};
use adj_tree::{Head, Memory, Name, Slot, Values};
use std::alloc::Global;

/// A checked program and its head.
#[derive(Clone, Copy)]
pub(crate) struct Original<'a> {
    pub(crate) program: &'a Checked,
    pub(crate) head: &'a Head,
}

/// What the data are: a slot for each dummy of the head.
#[derive(Drop)]
pub struct Data {
    pub inputs: Values,
    pub tangents: Values,
    pub adjoints: Values,
}

/// What the runs gave: the outputs, and the tangents and the adjoints at their ends.
#[derive(Clone, Copy)]
pub(crate) struct Gained<'a> {
    pub(crate) outputs: &'a [Slot],
    pub(crate) tangents: &'a [Slot],
    pub(crate) adjoints: &'a [Slot],
    pub(crate) advances: u64,
}

// What is written of runs that are done, with both products.
fn compared_text(
    alloc: Global,
    names: &[Name],
    vars: &[bool],
    outvars: &[bool],
    gained: Gained<'_>,
    inputs: i64,
    outputs: i64,
) -> Result<Vec<u8>, Memory>
    ensures { IfOk result (λ v. v.items ≡ (output_lines names.now (map slot_seen gained.entry.outputs.now)
        ++ (flagged_lines (codes "TAN ") outvars.now names.now (cells_of (map slot_seen gained.entry.tangents.now)) ++ flagged_lines (codes "ADJ ") vars.now names.now (cells_of (map slot_seen gained.entry.adjoints.now))))
        ++ (products_line inputs outputs ++ line_of_one (codes "ADVANCES ") gained.entry.advances)) }
{
    let mut text = Vec::new(alloc);
    push_outputs(&mut text, names, gained.outputs)?;
    push_flagged(&mut text, b"TAN ", outvars, names, gained.tangents)?;
    push_flagged(&mut text, b"ADJ ", vars, names, gained.adjoints)?;
    push_products(&mut text, inputs, outputs)?;
    push_number(&mut text, b"ADVANCES ", u128::from(gained.advances))?;
    text.push(b'\n')?;
    Ok(text)
}

// The answer to runs that are done.
fn compared(
    alloc: Global,
    original: Original<'_>,
    given: &Data,
    gained: Gained<'_>,
) -> Result<Answer, Memory>
    requires there { original.head.now.unit < length (procedures_of original.program.now.program) }
    ensures { (p : Sides) → slice_get (procedures_of original.entry.program.now.program) original.entry.head.now.unit ≡ Some p.head → p.vars ≡ original.entry.head.now.vars → p.outvars ≡ original.entry.head.now.outvars
        → IfOk result (λ a. answer_of a ≡ compared p (given_in given.now) (map slot_seen gained.entry.outputs.now) (cells_of (map slot_seen gained.entry.tangents.now)) (cells_of (map slot_seen gained.entry.adjoints.now)) gained.entry.advances) }
{
    let unit = &original.program.program().units.as_slice()[original.head.unit];
    let names = unit.dummies.as_slice();
    let vars = original.head.vars.as_slice();
    let outvars = original.head.outvars.as_slice();
    let inputs = product(alloc, vars, gained.adjoints, given.tangents.as_slice())?;
    let outputs = product(alloc, outvars, given.adjoints.as_slice(), gained.tangents)?;
    let text = compared_text(alloc, names, vars, outvars, gained, inputs, outputs)?;
    Ok(Answer {
        status: Status::Done,
        text,
    })
}

// The answer after the dual run: the adjoint runs.
fn answer_adjoint(
    alloc: Global,
    request: &RunRequest,
    original: Original<'_>,
    emitted: Emitted,
    given: &Data,
    outputs: &[Slot],
    tangents: &[Slot],
) -> Result<Answer, Memory>
    requires there { original.head.now.unit < length (procedures_of original.program.now.program) }
    requires runnable { IsRunnable (procedures_of emitted.program) }
    requires adjoint { is_some (find_unit (read_back (procedures_of emitted.program)) emitted.adjoint) ≡ true }
    requires fits { (a : Procedure) → find_unit (read_back (procedures_of emitted.program)) emitted.adjoint ≡ Some a → fits words a (joined_by emitted.shadowed (map slot_seen given.now.inputs) (map slot_seen given.now.adjoints)) ≡ true }
    ensures { (u a : Procedure) → slice_get (procedures_of original.entry.program.now.program) original.entry.head.now.unit ≡ Some u → find_unit (read_back (procedures_of emitted.program)) emitted.adjoint ≡ Some a
        → let p = sides_of (procedures_of original.entry.program.now.program) u original.entry.head.now emitted a in
        IfOk result (λ x. answer_of x ≡ after (asked_of request.now) (adjoint_run (asked_of request.now) p (given_in given.now))
        (λ back. compared p (given_in given.now) (map slot_seen outputs.now) (cells_of (map slot_seen tangents.now)) (adjoints_in p back) (log_of back.events).advances)) }
{
    let Emitted {
        program,
        adjoint,
        shadowed,
    } = emitted;
    let program = runnable(alloc, program)?;
    let unit = number_of(alloc, &program, &adjoint)?;
    let flags = shadowed.as_slice();
    let input = joined(
        alloc,
        flags,
        given.inputs.as_slice(),
        given.adjoints.as_slice(),
    )?;
    match run_on(alloc, request, &program, unit, input) {
        Ok(ended) => {
            let adjoints = shadows(alloc, flags, ended.values.as_slice())?;
            let gained = Gained {
                outputs,
                tangents,
                adjoints: adjoints.as_slice(),
                advances: ended.advances,
            };
            compared(alloc, original, given, gained)
        }
        Err(stop) => stopped(alloc, request, stop),
    }
}

// The answer after the run of the original: its dual run, and then the adjoint.
fn answer_dual(
    alloc: Global,
    request: &RunRequest,
    original: Original<'_>,
    emitted: Emitted,
    given: &Data,
    outputs: &[Slot],
) -> Result<Answer, Memory>
    requires there { original.head.now.unit < length (procedures_of original.program.now.program) }
    requires runnable { IsRunnable (procedures_of emitted.program) }
    requires adjoint { is_some (find_unit (read_back (procedures_of emitted.program)) emitted.adjoint) ≡ true }
    requires fits { (a : Procedure) → find_unit (read_back (procedures_of emitted.program)) emitted.adjoint ≡ Some a → fits words a (joined_by emitted.shadowed (map slot_seen given.now.inputs) (map slot_seen given.now.adjoints)) ≡ true }
    requires suits { (p : Sides) → slice_get (procedures_of original.program.now.program) original.head.now.unit ≡ Some p.head → p.vars ≡ original.head.now.vars → SuitsHead p (given_in given.now) }
    ensures { (u a : Procedure) → slice_get (procedures_of original.entry.program.now.program) original.entry.head.now.unit ≡ Some u → find_unit (read_back (procedures_of emitted.program)) emitted.adjoint ≡ Some a
        → let p = sides_of (procedures_of original.entry.program.now.program) u original.entry.head.now emitted a in
        IfOk result (λ x. answer_of x ≡ after (asked_of request.now) (dual_run (asked_of request.now) p (given_in given.now)) (λ dual. after (asked_of request.now) (adjoint_run (asked_of request.now) p (given_in given.now))
        (λ back. compared p (given_in given.now) (map slot_seen outputs.now) (tangents_in dual) (adjoints_in p back) (log_of back.events).advances))) }
{
    let inputs = copies(alloc, &given.inputs)?;
    let tangents = copies(alloc, &given.tangents)?;
    let head = original.head.unit;
    match run_dually(alloc, request, original.program, head, inputs, tangents) {
        Ok(ends) => answer_adjoint(
            alloc,
            request,
            original,
            emitted,
            given,
            outputs,
            ends.as_slice(),
        ),
        Err(stop) => stopped(alloc, request, stop),
    }
}

// The answer to data: the original runs first.
fn answer_data(
    alloc: Global,
    request: &RunRequest,
    original: Original<'_>,
    emitted: Emitted,
    given: &Data,
) -> Result<Answer, Memory>
    requires there { original.head.now.unit < length (procedures_of original.program.now.program) }
    requires emitted { (u : Procedure) → slice_get (procedures_of original.program.now.program) original.head.now.unit ≡ Some u → IsEmittedFor (procedures_of original.program.now.program) u.name original.head.now.vars original.head.now.outvars (procedures_of emitted.program) emitted.adjoint emitted.shadowed }
    requires found { (u : Procedure) → slice_get (procedures_of original.program.now.program) original.head.now.unit ≡ Some u → find_unit (procedures_of original.program.now.program) u.name ≡ Some u }
    requires suits { (p : Sides) → slice_get (procedures_of original.program.now.program) original.head.now.unit ≡ Some p.head → p.vars ≡ original.head.now.vars → SuitsHead p (given_in given.now) }
    ensures { (u a : Procedure) → slice_get (procedures_of original.entry.program.now.program) original.entry.head.now.unit ≡ Some u → find_unit (read_back (procedures_of emitted.program)) emitted.adjoint ≡ Some a
        → IfOk result (λ x. answer_of x ≡ runs_answer (asked_of request.now) (sides_of (procedures_of original.entry.program.now.program) u original.entry.head.now emitted a) (given_in given.now)) }
{
    let inputs = copies(alloc, &given.inputs)?;
    match run_on(alloc, request, original.program, original.head.unit, inputs) {
        Ok(ended) => answer_dual(
            alloc,
            request,
            original,
            emitted,
            given,
            ended.values.as_slice(),
        ),
        Err(stop) => stopped(alloc, request, stop),
    }
}

/// The answer of `check` to a text with its data, where the text is a checked program with this head, for which a program was emitted.
pub fn check_answer(
    alloc: Global,
    request: &RunRequest,
    program: &Checked,
    head: &Head,
    emitted: Emitted,
    bytes: &[u8],
) -> Result<Answer, Memory>
    requires there { head.now.unit < length (procedures_of program.now.program) }
    requires vars { (u : Procedure) → slice_get (procedures_of program.now.program) head.now.unit ≡ Some u → length head.now.vars ≡ length u.dummies }
    requires outvars { (u : Procedure) → slice_get (procedures_of program.now.program) head.now.unit ≡ Some u → length head.now.outvars ≡ length u.dummies }
    requires emitted { (u : Procedure) → slice_get (procedures_of program.now.program) head.now.unit ≡ Some u → IsEmittedFor (procedures_of program.now.program) u.name head.now.vars head.now.outvars (procedures_of emitted.program) emitted.adjoint emitted.shadowed }
    requires found { (u : Procedure) → slice_get (procedures_of program.now.program) head.now.unit ≡ Some u → find_unit (procedures_of program.now.program) u.name ≡ Some u }
    ensures answer { (u a : Procedure) → slice_get (procedures_of program.now.program) head.now.unit ≡ Some u → find_unit (read_back (procedures_of emitted.program)) emitted.adjoint ≡ Some a
        → IfOk result (λ x. answer_of x ≡ check_answer (asked_of request.now) (sides_of (procedures_of program.now.program) u head.now emitted a) bytes.now) }
{
    let (start, line) = data_part(bytes);
    let unit = &program.program().units.as_slice()[head.unit];
    match check_values(alloc, &bytes[start..], line, unit, head) {
        Ok((inputs, tangents, adjoints)) => {
            let given = Data {
                inputs,
                tangents,
                adjoints,
            };
            let original = Original { program, head };
            answer_data(alloc, request, original, emitted, &given)
        }
        Err(error) => no_input(alloc, error),
    }
}
