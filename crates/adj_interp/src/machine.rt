//! The machine that executes prepared statements. What is long stays out of `run` (`inline(never)`), whose own work for a statement is then short.

ghost use Rattle.std.specs.Prelude.{◌≡◌, ◌<◌, List, ℕ, Some, suc, true, false, length, slice_get, slice_index_or, IfOk};
ghost use Rattle.adj_tree.specs.Code.{Procedure};
ghost use Rattle.def_meaning.specs.Scene.{Scene};
ghost use Rattle.def_meaning.specs.Store.{set};
ghost use Rattle.def_meaning.specs.Value.{value, target, holds};
ghost use Rattle.def_meaning.specs.Units.{calls_of};
ghost use Rattle.def_meaning.specs.Written.{find_unit};
ghost use Rattle.def_meaning.specs.Run.{Calls, act, run, turns, with_turn, stepped, tests, most_tests};
ghost use Rattle.adj_interp_frame.specs.declared.slot.Slot.{Slot};
ghost use Rattle.adj_interp_frame.specs.declared.routine.Routine.{Routine as ARoutine};
ghost use Rattle.adj_interp_frame.specs.declared.step.Task.TheVariants as task;
ghost use Rattle.adj_interp_frame.specs.Prepared.{var_at, term_in, test_in, terms_in, IsTermBelow, AreTermsBelow, IsTestBelow};
ghost use Rattle.adj_interp_frame.specs.Instructed.{task_in, steps_in, marking_in, IsCellBelow, AreBoundsBelow, IsTaskBelow, AreStepsBelow};
ghost use Rattle.adj_interp_frame.specs.Linked.{IsTaskLinked, AreLinked, units_in, AreRoutines};
ghost use Rattle.adj_interp_frame.specs.Framed.{IsFrame};
ghost use Rattle.adj_interp_frame.specs.Passed.{ArePassed};
ghost use Rattle.adj_interp_frame.specs.Suited.{AreTermsSuited, IsSuited, AreSuited, counts_in};
ghost use Rattle.adj_interp.specs.Held.{Entry, setting_at, Holds, OneCelled, Ends, Finds, stopped_at, bounds_in};

use crate::cursor::Cursor;
use crate::spare::Spare;
use crate::stop::Stop;
use crate::tally::Tally;
use crate::trips::{most_tests, turns_of};
use adj_interp_frame::{
    Actual, Bounds, Cell, Frame, Marking, Routine, Slot, Steps, Task, Term, Terms, Test,
};
use adj_number::Number;
use adj_tape::Tape;
use adj_tree::Trap;
use adj_word::add;
use std::alloc::Global;

/// What a run has in hand: the entry of the unit that runs, how many reversals were open when it began, its level, the
/// tape, the statements that are left, what was counted, the schedule that was asked last, the actuals of the call that ended last, and for each unit the slots of its last call.
#[derive(Drop)]
pub struct Machine<'a, N: Number> {
    pub frame: Frame<'a, N>,
    pub base: usize,
    pub level: u64,
    pub tape: Tape<N>,
    pub left: u64,
    pub tally: Tally,
    pub cursor: Option<Box<Cursor>>,
    pub spare_actuals: Spare<Actual<N>>,
    pub spare_slots: Vec<Spare<Slot<N>>>,
    pub alloc: Global,
}

// The variable of a DO and its step.
#[derive(Drop)]
struct Course {
    variable: usize,
    by: i64,
}

// What was found in an entry. A trap stops the run at the line of the statement.
fn at_line<T>(found: Result<T, Trap>, line: u32) -> Result<T, Stop>
    ensures { result ≡ stopped_at line found }
{
    match found {
        Ok(value) => Ok(value),
        Err(trap) => Err(Stop::Trap(trap, line)),
    }
}

impl<'a, N: Number> Machine<'a, N> {
    // The value of an expression in a statement at a line.
    pub(crate) fn value(&self, term: &Term, line: u32) -> Result<N, Stop>
        requires framed { IsFrame self.now.frame.names.now self.now.frame.slots.items }
        requires below { IsTermBelow (length self.now.frame.names.now) term.now }
        ensures value { (e : Entry N.numbers) (s : Scene N) → Holds e self.now s → Finds line (value (setting_at e) (term_in self.now.frame.names.now term.now) s.store) result }
    {
        at_line(self.frame.value(term), line)
    }

    // The value that an assignment in a statement at a line gives.
    #[inline(always)]
    fn assigned(&self, term: &Term, line: u32) -> Result<N, Stop>
        requires framed { IsFrame self.now.frame.names.now self.now.frame.slots.items }
        requires below { IsTermBelow (length self.now.frame.names.now) term.now }
        ensures value { (e : Entry N.numbers) (s : Scene N) → Holds e self.now s → Finds line (value (setting_at e) (term_in self.now.frame.names.now term.now) s.store) result }
    {
        at_line(self.frame.evaluate(term), line)
    }

    // Whether a condition holds.
    fn holds(&self, test: &Test, line: u32) -> Result<bool, Stop>
        requires framed { IsFrame self.now.frame.names.now self.now.frame.slots.items }
        requires below { IsTestBelow (length self.now.frame.names.now) test.now }
        ensures holds { (e : Entry N.numbers) (s : Scene N) → Holds e self.now s → Finds line (holds (setting_at e) (test_in self.now.frame.names.now test.now) s.store) result }
    {
        at_line(self.frame.holds(test), line)
    }

    // The cell of a target.
    pub(crate) fn target(&self, cell: &Cell, line: u32) -> Result<usize, Stop>
        requires framed { IsFrame self.now.frame.names.now self.now.frame.slots.items }
        requires below { IsCellBelow (length self.now.frame.names.now) cell.now }
        ensures target { (e : Entry N.numbers) (s : Scene N) → Holds e self.now s → Finds line (target (setting_at e) (var_at self.now.frame.names.now cell.now.variable) (terms_in self.now.frame.names.now cell.now.subs) s.store) result }
        ensures within { IfOk result (λ j. (d : Slot N) → j < length (slice_index_or self.now.frame.slots.items cell.now.variable d).cells.items) }
    {
        at_line(self.frame.target(cell.variable, &cell.subs), line)
    }

    // First value, step and number of turns of a DO, which are words.
    #[inline(never)]
    fn bounds(&self, bounds: &Bounds, marking: &Marking, line: u32) -> Result<(i64, i64, u64), Stop>
        requires framed { IsFrame self.now.frame.names.now self.now.frame.slots.items }
        requires below { AreBoundsBelow (length self.now.frame.names.now) bounds.now }
        ensures bounds { (e : Entry N.numbers) (s : Scene N) → Holds e self.now s → Finds line (bounds_in (setting_at e) (term_in self.now.frame.names.now bounds.now.first) (term_in self.now.frame.names.now bounds.now.last) (term_in self.now.frame.names.now bounds.now.by) (marking_in self.now.frame.names.now marking.now) s.store) result }
    {
        let first = self.value(&bounds.first, line)?.word();
        let last = self.value(&bounds.last, line)?.word();
        let by = self.value(&bounds.by, line)?.word();
        let turns = turns_of(marking, first, last, by).map_err(|trap| Stop::Trap(trap, line))?;
        Ok((first, by, turns))
    }

    // Puts a number into a cell.
    pub(crate) fn put(&mut self, variable: usize, cell: usize, number: N)
        requires framed { IsFrame self.old.frame.names.now self.old.frame.slots.items }
        requires there { variable < length self.old.frame.names.now }
        requires within { (d : Slot N) → cell < length (slice_index_or self.old.frame.slots.items variable d).cells.items }
        ensures names { self.new.frame.names.now ≡ self.old.frame.names.now }
        ensures framed { IsFrame self.old.frame.names.now self.new.frame.slots.items }
        ensures counts { counts_in self.new.frame.slots.items ≡ counts_in self.old.frame.slots.items }
        ensures sized { (j : ℕ) (d : Slot N) → length (slice_index_or self.new.frame.slots.items j d).cells.items ≡ length (slice_index_or self.old.frame.slots.items j d).cells.items }
        ensures left { self.new.left ≡ self.old.left }
        ensures room { self.new.tape.room ≡ self.old.tape.room }
        ensures holds { (e : Entry N.numbers) (s : Scene N) → Holds e self.old s → Holds e self.new (record s { store = set s.store (var_at self.old.frame.names.now variable) cell number }) }
    {
        self.frame.set(variable, cell, number);
    }

    // Sets a scalar to a word, as the variable of a DO.
    pub(crate) fn turn(&mut self, variable: usize, word: i64)
        requires framed { IsFrame self.old.frame.names.now self.old.frame.slots.items }
        requires there { variable < length self.old.frame.names.now }
        ensures names { self.new.frame.names.now ≡ self.old.frame.names.now }
        ensures framed { IsFrame self.old.frame.names.now self.new.frame.slots.items }
        ensures counts { counts_in self.new.frame.slots.items ≡ counts_in self.old.frame.slots.items }
        ensures left { self.new.left ≡ self.old.left }
        ensures room { self.new.tape.room ≡ self.old.tape.room }
        ensures holds { (e : Entry N.numbers) (s : Scene N) → Holds e self.old s → Holds e self.new (with_turn (setting_at e) (var_at self.old.frame.names.now variable) word s) }
    {
        self.put(variable, 0, N::of_word(word));
    }

    // Adds the step to the variable of a DO.
    fn advance(&mut self, course: &Course)
        requires framed { IsFrame self.old.frame.names.now self.old.frame.slots.items }
        requires there { course.now.variable < length self.old.frame.names.now }
        ensures names { self.new.frame.names.now ≡ self.old.frame.names.now }
        ensures framed { IsFrame self.old.frame.names.now self.new.frame.slots.items }
        ensures counts { counts_in self.new.frame.slots.items ≡ counts_in self.old.frame.slots.items }
        ensures left { self.new.left ≡ self.old.left }
        ensures room { self.new.tape.room ≡ self.old.tape.room }
        ensures holds { (e : Entry N.numbers) (s : Scene N) → Holds e self.old s → Holds e self.new (stepped (setting_at e) (var_at self.old.frame.names.now course.now.variable) course.now.by s) }
    {
        let value = self.frame.slots[course.variable].first();
        let word = add(value.word(), course.by);
        self.turn(course.variable, word);
    }

    // Counts a statement, where one is left.
    fn count(&mut self) -> bool
        ensures none { result ≡ false → (self.new ≡ self.old) × (self.old.left ≡ 0) }
        ensures some { result ≡ true → self.old ≡ record self.new { left = suc self.new.left } }
    {
        if self.left == 0 {
            return false;
        }
        self.left -= 1;
        true
    }

    /// Executes statements in order, each counted before it is done. It ends as the run of the statements that they
    /// stand for.
    #[cycle(run)]
    pub fn run(&mut self, program: &'a [Routine<'a>], depth: u64, steps: &Steps) -> Result<(), Stop>
        requires framed { IsFrame self.old.frame.names.now self.old.frame.slots.items }
        requires below { AreStepsBelow (length self.old.frame.names.now) steps.now }
        requires program { AreRoutines program.now }
        requires linked { AreLinked (units_in program.now) steps.now }
        requires suited { AreSuited (units_in program.now) (OneCelled self.old) (steps_in self.old.frame.names.now steps.now) }
        ensures names { self.new.frame.names.now ≡ self.old.frame.names.now }
        ensures framed { IsFrame self.old.frame.names.now self.new.frame.slots.items }
        ensures counts { counts_in self.new.frame.slots.items ≡ counts_in self.old.frame.slots.items }
        ensures room { self.new.tape.room ≡ self.old.tape.room }
        ensures ends { let q : Calls N = calls_of (units_in program.now) depth in (e : Entry N.numbers) (s : Scene N) → Holds e self.old s → Ends e (run q (setting_at e) (steps_in self.old.frame.names.now steps.now) s) self.old.left result self.new }
    {
        let mut current = steps;
        while let Steps::More(step, rest) = current {
            if !self.count() {
                return Err(Stop::Budget);
            }
            self.perform(program, depth, &step.task, step.line)?;
            current = rest;
        }
        Ok(())
    }

    // Does one statement, which was counted.
    #[cycle(run)]
    fn perform(
        &mut self,
        program: &'a [Routine<'a>],
        depth: u64,
        task: &Task,
        line: u32,
    ) -> Result<(), Stop>
        requires framed { IsFrame self.old.frame.names.now self.old.frame.slots.items }
        requires below { IsTaskBelow (length self.old.frame.names.now) task.now }
        requires program { AreRoutines program.now }
        requires linked { IsTaskLinked (units_in program.now) task.now }
        requires suited { IsSuited (units_in program.now) (OneCelled self.old) (task_in self.old.frame.names.now task.now) }
        ensures names { self.new.frame.names.now ≡ self.old.frame.names.now }
        ensures framed { IsFrame self.old.frame.names.now self.new.frame.slots.items }
        ensures counts { counts_in self.new.frame.slots.items ≡ counts_in self.old.frame.slots.items }
        ensures room { self.new.tape.room ≡ self.old.tape.room }
        ensures ends { let q : Calls N = calls_of (units_in program.now) depth in (e : Entry N.numbers) (s : Scene N) → Holds e self.old s → Ends e (act q (setting_at e) (task_in self.old.frame.names.now task.now) line s) self.old.left result self.new }
    {
        match task {
            Task::Assign(cell, term) => {
                let number = self.assigned(term, line)?;
                let place = self.target(cell, line)?;
                self.put(cell.variable, place, number);
                Ok(())
            }
            Task::If(test, first, second) => {
                if self.holds(test, line)? {
                    self.run(program, depth, first)
                } else {
                    self.run(program, depth, second)
                }
            }
            Task::Loop(variable, bounds, body, marking) => {
                self.repeat(program, depth, *variable, bounds, marking, body, line)
            }
            Task::While(test, body) => self.tests(program, depth, body, test, line),
            Task::Run(service) => self.serve(service, line),
            Task::Call(number, _name, terms) => self.call(program, depth, *number, terms, line),
        }
    }

    // Does a DO.
    #[inline(never)]
    #[cycle(run)]
    fn repeat(
        &mut self,
        program: &'a [Routine<'a>],
        depth: u64,
        variable: usize,
        bounds: &Bounds,
        marking: &Marking,
        body: &Steps,
        line: u32,
    ) -> Result<(), Stop>
        requires framed { IsFrame self.old.frame.names.now self.old.frame.slots.items }
        requires there { variable < length self.old.frame.names.now }
        requires bounds { AreBoundsBelow (length self.old.frame.names.now) bounds.now }
        requires below { AreStepsBelow (length self.old.frame.names.now) body.now }
        requires program { AreRoutines program.now }
        requires linked { AreLinked (units_in program.now) body.now }
        requires suited { AreSuited (units_in program.now) (OneCelled self.old) (steps_in self.old.frame.names.now body.now) }
        ensures names { self.new.frame.names.now ≡ self.old.frame.names.now }
        ensures framed { IsFrame self.old.frame.names.now self.new.frame.slots.items }
        ensures counts { counts_in self.new.frame.slots.items ≡ counts_in self.old.frame.slots.items }
        ensures room { self.new.tape.room ≡ self.old.tape.room }
        ensures ends { let q : Calls N = calls_of (units_in program.now) depth in (e : Entry N.numbers) (s : Scene N) → Holds e self.old s → Ends e (act q (setting_at e) (task_in self.old.frame.names.now (task.Loop variable bounds.now body.now marking.now)) line s) self.old.left result self.new }
    {
        let (first, by, turns) = self.bounds(bounds, marking, line)?;
        self.turn(variable, first);
        let course = Course { variable, by };
        self.turns(program, depth, &course, turns, body)
    }

    // Does a call of the unit of a number, where calls may go so deep.
    #[inline(never)]
    #[cycle(run)]
    fn call(
        &mut self,
        program: &'a [Routine<'a>],
        depth: u64,
        number: usize,
        terms: &Terms,
        line: u32,
    ) -> Result<(), Stop>
        requires framed { IsFrame self.old.frame.names.now self.old.frame.slots.items }
        requires below { AreTermsBelow (length self.old.frame.names.now) terms.now }
        requires program { AreRoutines program.now }
        requires suited { (u : Procedure) → slice_get (units_in program.now) number ≡ Some u → AreTermsSuited (OneCelled self.old) u u.dummies (terms_in self.old.frame.names.now terms.now) }
        ensures names { self.new.frame.names.now ≡ self.old.frame.names.now }
        ensures framed { IsFrame self.old.frame.names.now self.new.frame.slots.items }
        ensures counts { counts_in self.new.frame.slots.items ≡ counts_in self.old.frame.slots.items }
        ensures room { self.new.tape.room ≡ self.old.tape.room }
        ensures ends { (name : List ℕ) → find_unit (units_in program.now) name ≡ slice_get (units_in program.now) number → (e : Entry N.numbers) (s : Scene N) → Holds e self.old s
            → Ends e (calls_of (units_in program.now) depth (setting_at e) name (terms_in self.old.frame.names.now terms.now) line s) self.old.left result self.new }
    {
        if depth == 0 {
            return Err(Stop::Budget);
        }
        if number >= program.len() {
            return Err(Stop::Trap(Trap::Shape, line));
        }
        let routine = &program[number];
        let mut slots = self.kept_slots(number);
        if self.frame.pass(routine, terms, slots.as_mut_slice()) {
            return self.call_passed(program, depth, number, terms, slots, line);
        }
        self.call_given(program, depth, number, terms, slots, line)
    }

    // Does a call that hands whole variables to a unit of scalars, whose slots were passed their numbers.
    #[inline(always)]
    #[cycle(run)]
    fn call_passed(
        &mut self,
        program: &'a [Routine<'a>],
        depth: u64,
        number: usize,
        terms: &Terms,
        slots: Vec<Slot<N>>,
        line: u32,
    ) -> Result<(), Stop>
        requires framed { IsFrame self.old.frame.names.now self.old.frame.slots.items }
        requires below { AreTermsBelow (length self.old.frame.names.now) terms.now }
        requires program { AreRoutines program.now }
        requires deep { 0 < depth }
        requires number { number < length program.now }
        requires passed { (d : ARoutine) → ArePassed N.numbers (slice_index_or program.now number d) self.old.frame.names.now self.old.frame.slots.items terms.now slots.items }
        requires suited { (u : Procedure) → slice_get (units_in program.now) number ≡ Some u → AreTermsSuited (OneCelled self.old) u u.dummies (terms_in self.old.frame.names.now terms.now) }
        ensures names { self.new.frame.names.now ≡ self.old.frame.names.now }
        ensures framed { IsFrame self.old.frame.names.now self.new.frame.slots.items }
        ensures counts { counts_in self.new.frame.slots.items ≡ counts_in self.old.frame.slots.items }
        ensures room { self.new.tape.room ≡ self.old.tape.room }
        ensures ends { (name : List ℕ) → find_unit (units_in program.now) name ≡ slice_get (units_in program.now) number → (e : Entry N.numbers) (s : Scene N) → Holds e self.old s
            → Ends e (calls_of (units_in program.now) depth (setting_at e) name (terms_in self.old.frame.names.now terms.now) line s) self.old.left result self.new }
    {
        let routine = &program[number];
        let level = self.count_entry()?;
        let frame = Frame {
            names: &routine.names,
            slots,
        };
        let outer = self.step_in(frame, level);
        let ended = self.run(program, depth - 1, &routine.body);
        let (inner, is_closed) = self.leave(outer);
        self.take_back(routine, terms, number, inner);
        ended?;
        if !is_closed {
            return Err(Stop::Trap(Trap::Schedule, line));
        }
        Ok(())
    }

    // Does a call whose actuals are evaluated one by one.
    #[inline(never)]
    #[cycle(run)]
    fn call_given(
        &mut self,
        program: &'a [Routine<'a>],
        depth: u64,
        number: usize,
        terms: &Terms,
        room: Vec<Slot<N>>,
        line: u32,
    ) -> Result<(), Stop>
        requires framed { IsFrame self.old.frame.names.now self.old.frame.slots.items }
        requires below { AreTermsBelow (length self.old.frame.names.now) terms.now }
        requires program { AreRoutines program.now }
        requires deep { 0 < depth }
        requires number { number < length program.now }
        requires suited { (u : Procedure) → slice_get (units_in program.now) number ≡ Some u → AreTermsSuited (OneCelled self.old) u u.dummies (terms_in self.old.frame.names.now terms.now) }
        ensures names { self.new.frame.names.now ≡ self.old.frame.names.now }
        ensures framed { IsFrame self.old.frame.names.now self.new.frame.slots.items }
        ensures counts { counts_in self.new.frame.slots.items ≡ counts_in self.old.frame.slots.items }
        ensures room { self.new.tape.room ≡ self.old.tape.room }
        ensures ends { (name : List ℕ) → find_unit (units_in program.now) name ≡ slice_get (units_in program.now) number → (e : Entry N.numbers) (s : Scene N) → Holds e self.old s
            → Ends e (calls_of (units_in program.now) depth (setting_at e) name (terms_in self.old.frame.names.now terms.now) line s) self.old.left result self.new }
    {
        let routine = &program[number];
        let actuals = self.actuals(terms, line)?;
        let given = actuals.as_slice();
        let entered = self.entry(routine, given, room, line)?;
        let (frame, is_full) = entered;
        let outer = self.enter(frame, given, is_full)?;
        let ended = self.run(program, depth - 1, &routine.body);
        let (inner, is_closed) = self.leave(outer);
        self.hand_back(routine, given, number, inner, is_full);
        self.spare_actuals.keep(actuals);
        ended?;
        if !is_closed {
            return Err(Stop::Trap(Trap::Schedule, line));
        }
        Ok(())
    }

    // Makes some turns of a DO, each counted, with the step after each.
    #[cycle(run)]
    fn turns(
        &mut self,
        program: &'a [Routine<'a>],
        depth: u64,
        course: &Course,
        count: u64,
        body: &Steps,
    ) -> Result<(), Stop>
        requires framed { IsFrame self.old.frame.names.now self.old.frame.slots.items }
        requires there { course.now.variable < length self.old.frame.names.now }
        requires below { AreStepsBelow (length self.old.frame.names.now) body.now }
        requires program { AreRoutines program.now }
        requires linked { AreLinked (units_in program.now) body.now }
        requires suited { AreSuited (units_in program.now) (OneCelled self.old) (steps_in self.old.frame.names.now body.now) }
        ensures names { self.new.frame.names.now ≡ self.old.frame.names.now }
        ensures framed { IsFrame self.old.frame.names.now self.new.frame.slots.items }
        ensures counts { counts_in self.new.frame.slots.items ≡ counts_in self.old.frame.slots.items }
        ensures room { self.new.tape.room ≡ self.old.tape.room }
        ensures ends { let q : Calls N = calls_of (units_in program.now) depth in (e : Entry N.numbers) (s : Scene N) → Holds e self.old s → Ends e (turns (setting_at e) count (run q (setting_at e) (steps_in self.old.frame.names.now body.now)) (stepped (setting_at e) (var_at self.old.frame.names.now course.now.variable) course.now.by) s) self.old.left result self.new }
    {
        let mut remaining = count;
        while remaining > 0 {
            if !self.count() {
                return Err(Stop::Budget);
            }
            self.run(program, depth, body)?;
            self.advance(course);
            remaining -= 1;
        }
        Ok(())
    }

    // Makes the turns of a DO WHILE, whose first test was counted.
    #[inline(never)]
    #[cycle(run)]
    fn tests(
        &mut self,
        program: &'a [Routine<'a>],
        depth: u64,
        body: &Steps,
        test: &Test,
        line: u32,
    ) -> Result<(), Stop>
        requires framed { IsFrame self.old.frame.names.now self.old.frame.slots.items }
        requires test { IsTestBelow (length self.old.frame.names.now) test.now }
        requires below { AreStepsBelow (length self.old.frame.names.now) body.now }
        requires program { AreRoutines program.now }
        requires linked { AreLinked (units_in program.now) body.now }
        requires suited { AreSuited (units_in program.now) (OneCelled self.old) (steps_in self.old.frame.names.now body.now) }
        ensures names { self.new.frame.names.now ≡ self.old.frame.names.now }
        ensures framed { IsFrame self.old.frame.names.now self.new.frame.slots.items }
        ensures counts { counts_in self.new.frame.slots.items ≡ counts_in self.old.frame.slots.items }
        ensures room { self.new.tape.room ≡ self.old.tape.room }
        ensures ends { let q : Calls N = calls_of (units_in program.now) depth in (e : Entry N.numbers) (s : Scene N) → Holds e self.old s → Ends e (tests (setting_at e) most_tests (λ s1. holds (setting_at e) (test_in self.old.frame.names.now test.now) s1.store) line (run q (setting_at e) (steps_in self.old.frame.names.now body.now)) s) self.old.left result self.new }
    {
        let mut remaining = most_tests();
        while self.holds(test, line)? {
            if remaining == 0 {
                return Err(Stop::Trap(Trap::Step, line));
            }
            self.run(program, depth, body)?;
            if !self.count() {
                return Err(Stop::Budget);
            }
            remaining -= 1;
        }
        Ok(())
    }
}
