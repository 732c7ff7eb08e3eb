//! Runs on a tape that is made for them.

ghost use Rattle.std.specs.Prelude.{◌≡◌, ◌<◌, [], Some, length, map, slice_get, true};
ghost use Rattle.adj_tree.specs.Code.{Procedure};
ghost use Rattle.adj_tree.specs.View.{procedures_of};
ghost use Rattle.def_meaning.specs.Numbers.{words, duals};
ghost use Rattle.def_meaning.specs.Units.{fits, run_unit};
ghost use Rattle.adj_data.specs.Given.{slot_seen};
ghost use Rattle.adj_interp.specs.Dually.{AreTangents, dual_slots};
ghost use Rattle.adj_tool_answer.specs.EndingViews.{asked_of};
ghost use Rattle.adj_tool_check.specs.Ending.{EndsSo, TellsOutput, TellsTangents};

use adj_interp::{Log, Stop, run, run_dual};
use adj_symbols::Checked;
use adj_tape::Tape;
use adj_tool_answer::RunRequest;
use adj_tree::Values;
use std::alloc::Global;

/// What a run that is done gives: its values, and how many step calls its reversals made beyond their steps.
pub struct Ended {
    pub values: Values,
    pub advances: u64,
}

impl Drop for Ended {
    fn drop(self) {
        let Ended {
            values: _values,
            advances: _,
        } = self;
    }
}

/// The run of a unit on an input, from an empty tape.
pub(crate) fn run_on(
    alloc: Global,
    request: &RunRequest,
    program: &Checked,
    unit: usize,
    input: Values,
) -> Result<Ended, Stop>
    requires there { unit < length (procedures_of program.now.program) }
    requires fits { (u : Procedure) → slice_get (procedures_of program.now.program) unit ≡ Some u → fits words u (map slot_seen input) ≡ true }
    ensures { (u : Procedure) → slice_get (procedures_of program.now.program) unit ≡ Some u
        → EndsSo TellsOutput (asked_of request.now) (run_unit words (procedures_of program.now.program) u (map slot_seen input) [] (Some request.now.room) request.now.budget) result }
{
    let mut tape = Tape::with_room(alloc, request.room)?;
    let mut log = Log {
        used: 0,
        reversals: 0,
        advances: 0,
        height: 0,
    };
    match run(
        alloc,
        program,
        unit,
        input,
        request.budget,
        &mut tape,
        &mut log,
    ) {
        Ok(values) => Ok(Ended {
            values,
            advances: log.advances,
        }),
        Err(stop) => Err(stop),
    }
}

/// The tangents that the dual run of a unit on an input with tangents gives.
pub(crate) fn run_dually(
    alloc: Global,
    request: &RunRequest,
    program: &Checked,
    unit: usize,
    input: Values,
    tangents: Values,
) -> Result<Values, Stop>
    requires there { unit < length (procedures_of program.now.program) }
    requires tangents { AreTangents input tangents }
    requires fits { (u : Procedure) → slice_get (procedures_of program.now.program) unit ≡ Some u → fits words u (map slot_seen input) ≡ true }
    ensures { (u : Procedure) → slice_get (procedures_of program.now.program) unit ≡ Some u
        → EndsSo TellsTangents (asked_of request.now) (run_unit duals (procedures_of program.now.program) u (dual_slots input tangents) [] (Some 0) request.now.budget) result }
{
    match run_dual(alloc, program, unit, input, tangents, request.budget) {
        Ok((_values, tangents)) => Ok(tangents),
        Err(stop) => Err(stop),
    }
}
