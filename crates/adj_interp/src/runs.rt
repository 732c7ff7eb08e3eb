//! Runs of a unit of a program on an input.

ghost use Rattle.std.specs.Prelude.{◌≡◌, ◌<◌, Some, Err, length, map, slice_get, true};
ghost use Rattle.adj_tree.specs.Code.{Procedure};
ghost use Rattle.adj_tree.specs.View.{procedure_of, procedures_of};
ghost use Rattle.def_meaning.specs.Numbers.{words};
ghost use Rattle.def_meaning.specs.Scene.{Scene, then_do};
ghost use Rattle.def_meaning.specs.Run.{Calls, run};
ghost use Rattle.def_meaning.specs.Units.{calls_of, fits, run_unit};
ghost use Rattle.adj_interp_frame.specs.Instructed.{steps_in};
ghost use Rattle.adj_interp_frame.specs.Framed.{IsFrame};
ghost use Rattle.adj_interp_frame.specs.Linked.{IsRoutine, units_in, AreRoutines};
ghost use Rattle.adj_interp_frame.specs.Suited.{AreSuited};
ghost use Rattle.adj_interp.specs.declared.stop.Stop.TheVariants as stop;
ghost use Rattle.adj_interp.specs.Concludes.{Concludes, Counts, slot_seen};
ghost use Rattle.adj_interp.specs.Ended.{EndsWith};
ghost use Rattle.adj_interp.specs.Inputs.{entry_seen};
ghost use Rattle.adj_interp.specs.Entered.{closed};
ghost use Rattle.adj_interp.specs.Held.{Entry, setting_at, Holds, OneCelled, Ends, used_at};

use crate::input::first_entry;
use crate::log::Log;
use crate::machine::Machine;
use crate::output::{slots_of, values_of};
use crate::preparing::prepared;
use crate::spare::{Spare, spares};
use crate::stop::Stop;
use crate::tally::Tally;
use adj_interp_frame::{Routine, Slot};
use adj_number::Number;
use adj_symbols::Checked;
use adj_tape::Tape;
use adj_tree::{Trap, Values};
use std::alloc::Global;
use std::mem;

impl<'a, N: Number> Machine<'a, N> {
    // Runs the unit whose entry it has in hand to its end, where no reversal may be open.
    fn finish(
        &mut self,
        program: &'a [Routine<'a>],
        depth: u64,
        routine: &Routine<'a>,
    ) -> Result<(), Stop>
        requires framed { IsFrame self.old.frame.names.now self.old.frame.slots.items }
        requires names { self.old.frame.names.now ≡ routine.now.names }
        requires program { AreRoutines program.now }
        requires routine { IsRoutine (units_in program.now) routine.now }
        requires suited { AreSuited (units_in program.now) (OneCelled self.old) (steps_in self.old.frame.names.now routine.now.body) }
        ensures names { self.new.frame.names.now ≡ self.old.frame.names.now }
        ensures framed { IsFrame self.old.frame.names.now self.new.frame.slots.items }
        ensures room { self.new.tape.room ≡ self.old.tape.room }
        ensures ends { let q : Calls N = calls_of (units_in program.now) depth in (e : Entry N.numbers) (s : Scene N) → Holds e self.old s
            → Ends e (λ k. then_do (run q (setting_at e) (procedure_of routine.now.unit.now).body s k) (closed (setting_at e) routine.now.unit.now.line)) self.old.left result self.new }
    {
        self.run(program, depth, &routine.body)?;
        if self.tally.open() != self.base {
            return Err(Stop::Trap(Trap::Schedule, routine.unit.line));
        }
        Ok(())
    }
}

// The statements that a run used: all of them where there is more to do.
fn used(budget: u64, left: u64, ended: &Result<(), Stop>) -> u64
    ensures { result ≡ used_at budget left ended.now }
{
    match ended {
        Err(Stop::Budget) => budget,
        _ => budget.saturating_sub(left),
    }
}

/// The run of a unit of a checked program on slots that fit it, over any numbers, from those on a tape, with at most so
/// many statements. The tape has then the numbers that the run leaves, and the log says what the run counted, unless
/// memory ran out.
pub fn run_over<N: Number>(
    alloc: Global,
    program: &Checked,
    unit: usize,
    input: Vec<Slot<N>>,
    budget: u64,
    tape: &mut Tape<N>,
    log: &mut Log,
) -> Result<Vec<Slot<N>>, Stop>
    requires there { unit < length (procedures_of program.now.program) }
    requires fits { (u : Procedure) → slice_get (procedures_of program.now.program) unit ≡ Some u → fits N.numbers u (map entry_seen input.items) ≡ true }
    ensures room { tape.new.room ≡ tape.old.room }
    ensures ends { (u : Procedure) → slice_get (procedures_of program.now.program) unit ≡ Some u
        → EndsWith N.numbers (λ slots. map entry_seen slots.items) (run_unit N.numbers (procedures_of program.now.program) u (map entry_seen input.items) tape.old.words (Some tape.old.room) budget) result tape.new log.new }
    ensures counted { (u : Procedure) → slice_get (procedures_of program.now.program) unit ≡ Some u
        → Counts (run_unit N.numbers (procedures_of program.now.program) u (map entry_seen input.items) tape.old.words (Some tape.old.room)) budget result log.new.used }
    ensures spent { result ≡ Err stop.Budget → log.new.used ≡ budget }
{
    let routines = prepared(alloc, program)?;
    let routine = &routines[unit];
    let frame = first_entry(alloc, routine, input)?;
    let empty = Tape::with_room(alloc, 0)?;
    let spare_slots = spares(alloc, routines.len())?;
    let mut machine = Machine {
        frame,
        base: 0,
        level: 1,
        tape: mem::replace(tape, empty),
        left: budget,
        tally: Tally::new(alloc),
        cursor: None,
        spare_actuals: Spare::new(alloc),
        spare_slots,
        alloc,
    };
    let ended = machine.finish(routines.as_slice(), budget, routine);
    *log = machine.tally.log(used(budget, machine.left, &ended));
    *tape = machine.tape;
    ended?;
    let count = routine.unit.dummies.as_slice().len();
    let mut slots = machine.frame.into_slots();
    slots.truncate(count);
    Ok(slots)
}

/// The run of a unit of a checked program on an input that fits it, from the words on a tape, with at most so many
/// statements. The tape has then the words that the run leaves, and the log says what the run counted, unless memory ran out.
/// The statements that were used are those with which the run comes to its end, and no fewer; where it has more to do, all of them.
pub fn run(
    alloc: Global,
    program: &Checked,
    unit: usize,
    input: Values,
    budget: u64,
    tape: &mut Tape<i64>,
    log: &mut Log,
) -> Result<Values, Stop>
    requires there { unit < length (procedures_of program.now.program) }
    requires fits { (u : Procedure) → slice_get (procedures_of program.now.program) unit ≡ Some u → fits words u (map slot_seen input) ≡ true }
    requires fresh { log.old ≡ record { used = 0; reversals = 0; advances = 0; height = 0 } }
    ensures room { tape.new.room ≡ tape.old.room }
    ensures ends { (u : Procedure) → slice_get (procedures_of program.now.program) unit ≡ Some u
        → Concludes (run_unit words (procedures_of program.now.program) u (map slot_seen input) tape.old.words (Some tape.old.room) budget) result tape.new log.new }
    ensures counted { (u : Procedure) → slice_get (procedures_of program.now.program) unit ≡ Some u
        → Counts (run_unit words (procedures_of program.now.program) u (map slot_seen input) tape.old.words (Some tape.old.room)) budget result log.new.used }
    ensures spent { result ≡ Err stop.Budget → log.new.used ≡ budget }
{
    let slots = slots_of(alloc, input)?;
    match run_over(alloc, program, unit, slots, budget, tape, log) {
        Ok(slots) => {
            let values = values_of(alloc, slots)?;
            Ok(values)
        }
        Err(stop) => Err(stop),
    }
}
