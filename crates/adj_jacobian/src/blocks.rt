//! Runs over the words of a block of columns, and over words with few columns.

ghost use Rattle.std.specs.Prelude.{◌≡◌, ◌<◌, Some, length, map, slice_get, true};
ghost use Rattle.adj_tree.specs.Code.{Procedure};
ghost use Rattle.adj_tree.specs.View.{procedures_of};
ghost use Rattle.def_meaning.specs.Numbers.{words};
ghost use Rattle.def_meaning.specs.Units.{fits};
ghost use Rattle.def_jacobian.specs.Patterns.{pattern_run};
ghost use Rattle.adj_interp.specs.Concludes.{slot_seen};
ghost use Rattle.adj_interp.specs.Inputs.{entry_seen};
ghost use Rattle.adj_jacobian.specs.Ends.{task_on, FewSo, PartSo};

use crate::start::{Alone, InBlock, start_slots};
use adj_interp::{Log, Stop, run_over};
use adj_interp_frame::Slot;
use adj_jacobian_block::Block;
use adj_jacobian_few::Few;
use adj_symbols::Checked;
use adj_tape::Tape;
use adj_tree::{Head, Slot as Value};
use std::alloc::Global;

/// The run of a unit over words with few columns, on a tape without room: what a pattern run leaves, with the columns of each cell where they are
/// few, or how it ends.
pub(crate) fn few_run(
    alloc: Global,
    program: &Checked,
    head: &Head,
    input: &[Value],
    budget: u64,
) -> Result<Vec<Slot<Few>>, Stop>
    requires there { head.now.unit < length (procedures_of program.now.program) }
    requires fits { (u : Procedure) → slice_get (procedures_of program.now.program) head.now.unit ≡ Some u → fits words u (map slot_seen input.now) ≡ true }
    ensures { (u : Procedure) → slice_get (procedures_of program.now.program) head.now.unit ≡ Some u
        → FewSo (λ slots. map entry_seen slots.items) (pattern_run (task_on (procedures_of program.now.program) u head.now.vars (map slot_seen input.now) budget)) result }
{
    let slots = start_slots(alloc, &Alone, head.vars.as_slice(), input)?;
    let mut tape = Tape::with_room(alloc, 0)?;
    let mut log = Log {
        used: 0,
        reversals: 0,
        advances: 0,
        height: 0,
    };
    run_over(
        alloc, program, head.unit, slots, budget, &mut tape, &mut log,
    )
}

/// The run of a unit over the words of a block of columns, on a tape without room: what a pattern run leaves, with the columns of the block,
/// or how it ends.
pub(crate) fn block_run(
    alloc: Global,
    program: &Checked,
    head: &Head,
    input: &[Value],
    budget: u64,
    block: u64,
) -> Result<Vec<Slot<Block>>, Stop>
    requires there { head.now.unit < length (procedures_of program.now.program) }
    requires fits { (u : Procedure) → slice_get (procedures_of program.now.program) head.now.unit ≡ Some u → fits words u (map slot_seen input.now) ≡ true }
    ensures { (u : Procedure) → slice_get (procedures_of program.now.program) head.now.unit ≡ Some u
        → PartSo block (λ slots. map entry_seen slots.items) (pattern_run (task_on (procedures_of program.now.program) u head.now.vars (map slot_seen input.now) budget)) result }
{
    let start = InBlock { block };
    let slots = start_slots(alloc, &start, head.vars.as_slice(), input)?;
    let mut tape = Tape::with_room(alloc, 0)?;
    let mut log = Log {
        used: 0,
        reversals: 0,
        advances: 0,
        height: 0,
    };
    run_over(
        alloc, program, head.unit, slots, budget, &mut tape, &mut log,
    )
}
