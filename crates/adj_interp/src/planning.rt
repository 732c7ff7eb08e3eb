//! Calls of the runtime that speak of schedules. (docs/RUNNING.md, "Runtime calls")

ghost use Rattle.std.specs.Prelude.{◌≡◌, ◌<◌, ◌≤◌, ◌-◌, ◌^◌, List, IfOk, pos, length, slice_get};
ghost use Rattle.adj_revolve.specs.declared.machine.Action.{Action as AnAction};
ghost use Rattle.adj_revolve.specs.Schedule.{schedule_of};
ghost use Rattle.adj_tree.specs.Code.{begin_reversal, count_actions, give_action, end_reversal};
ghost use Rattle.def_meaning.specs.Trap.{schedule_trap, then_ok, or_trap};
ghost use Rattle.def_meaning.specs.Scene.{Scene};
ghost use Rattle.def_meaning.specs.Runtime.{steps_of, snapshots_of, actions_of, action_at, kind_of, lower_of, upper_of, runtime_act};
ghost use Rattle.adj_interp_frame.specs.Prepared.{var_at, term_in, IsTermBelow};
ghost use Rattle.adj_interp_frame.specs.Framed.{result_of, IsFrame};
ghost use Rattle.adj_interp_frame.specs.Suited.{counts_in};
ghost use Rattle.adj_interp.specs.Held.{Entry, setting_at, Holds, Ends, Finds, plan_in, action_in, given_in};

use crate::cursor::action_by;
use crate::machine::Machine;
use crate::stop::Stop;
use adj_interp_frame::Term;
use adj_number::Number;
use adj_revolve::Action;
use adj_revolve_count::count;
use adj_tree::Trap;

// A number of steps.
fn steps_of(number: i64) -> Result<u64, Trap>
    ensures steps { result_of result ≡ steps_of number }
    ensures within { IfOk result (λ steps. steps ≤ 2 ^ 40) }
{
    match u64::try_from(number) {
        Ok(steps) if steps <= 1099511627776 => Ok(steps),
        _ => Err(Trap::Schedule),
    }
}

// A number of snapshots.
fn snapshots_of(number: i64) -> Result<u32, Trap>
    ensures snapshots { result_of result ≡ snapshots_of number }
    ensures some { IfOk result (λ snapshots. 0 < snapshots) }
    ensures few { IfOk result (λ snapshots. snapshots ≤ 64) }
{
    match u32::try_from(number) {
        Ok(snapshots) if snapshots > 0 && snapshots <= 64 => Ok(snapshots),
        _ => Err(Trap::Schedule),
    }
}

// The number of an action.
fn ordinal(number: i64) -> Result<u64, Trap>
    ensures ordinal { (list : List AnAction) → action_at number list ≡ then_ok (result_of result) (λ n. or_trap schedule_trap (slice_get list (n - 1))) }
    ensures some { IfOk result (λ n. 0 < n) }
{
    match u64::try_from(number) {
        Ok(number) if number > 0 => Ok(number),
        _ => Err(Trap::Schedule),
    }
}

// The number by which a program knows a kind of action.
fn kind_of(action: &Action) -> i64
    ensures { result ≡ pos (kind_of action.now) }
{
    match action {
        Action::Store(_) => 1,
        Action::Advance(_, _) => 2,
        Action::Turn(_) => 3,
        Action::Keep(_) => 4,
        Action::Drop(_) => 5,
    }
}

// The place at which an action begins.
fn lower_of(action: &Action) -> i64
    requires { lower_of action.now ≤ 2 ^ 40 }
    ensures { result ≡ pos (lower_of action.now) }
{
    match action {
        Action::Store(place)
        | Action::Advance(place, _)
        | Action::Turn(place)
        | Action::Keep(place)
        | Action::Drop(place) => *place as i64,
    }
}

// The place at which it ends.
fn upper_of(action: &Action) -> i64
    requires { upper_of action.now ≤ 2 ^ 40 }
    ensures { result ≡ pos (upper_of action.now) }
{
    match action {
        Action::Turn(place) => *place as i64 + 1,
        Action::Advance(_, place)
        | Action::Store(place)
        | Action::Keep(place)
        | Action::Drop(place) => *place as i64,
    }
}

impl<'a, N: Number> Machine<'a, N> {
    // The steps and snapshots of a schedule.
    fn plan(&self, steps: &Term, snapshots: &Term, line: u32) -> Result<(u64, u32), Stop>
        requires framed { IsFrame self.now.frame.names.now self.now.frame.slots.items }
        requires steps_below { IsTermBelow (length self.now.frame.names.now) steps.now }
        requires snapshots_below { IsTermBelow (length self.now.frame.names.now) snapshots.now }
        ensures plan { (e : Entry N.numbers) (s : Scene N) → Holds e self.now s → Finds line (plan_in (setting_at e) (term_in self.now.frame.names.now steps.now) (term_in self.now.frame.names.now snapshots.now) s.store) result }
        ensures within { IfOk result (λ p. (p.0 ≤ 2 ^ 40) × (0 < p.1) × (p.1 ≤ 64)) }
    {
        let length = self.value(steps, line)?.word();
        let places = self.value(snapshots, line)?.word();
        let steps = steps_of(length).map_err(|trap| Stop::Trap(trap, line))?;
        let snapshots = snapshots_of(places).map_err(|trap| Stop::Trap(trap, line))?;
        Ok((steps, snapshots))
    }

    // An action by the words that ask for it.
    fn looked_up(&mut self, steps: i64, snapshots: i64, number: i64) -> Result<Action, Trap>
        ensures rest { self.new ≡ record self.old { cursor = self.new.cursor } }
        ensures action { result_of result ≡ then_ok (actions_of steps snapshots) (λ list. action_at number list) }
        ensures within { IfOk result (λ a. (lower_of a ≤ 2 ^ 40) × (upper_of a ≤ 2 ^ 40)) }
    {
        let steps = steps_of(steps)?;
        let snapshots = snapshots_of(snapshots)?;
        let number = ordinal(number)?;
        action_by(self.alloc, &mut self.cursor, steps, snapshots, number).ok_or(Trap::Schedule)
    }

    // The action that is asked for.
    fn asked(
        &mut self,
        steps: &Term,
        snapshots: &Term,
        number: &Term,
        line: u32,
    ) -> Result<Action, Stop>
        requires framed { IsFrame self.old.frame.names.now self.old.frame.slots.items }
        requires steps_below { IsTermBelow (length self.old.frame.names.now) steps.now }
        requires snapshots_below { IsTermBelow (length self.old.frame.names.now) snapshots.now }
        requires number_below { IsTermBelow (length self.old.frame.names.now) number.now }
        ensures rest { self.new ≡ record self.old { cursor = self.new.cursor } }
        ensures action { (e : Entry N.numbers) (s : Scene N) → Holds e self.old s → Finds line (action_in (setting_at e) (term_in self.old.frame.names.now steps.now) (term_in self.old.frame.names.now snapshots.now) (term_in self.old.frame.names.now number.now) s.store) result }
        ensures within { IfOk result (λ a. (lower_of a ≤ 2 ^ 40) × (upper_of a ≤ 2 ^ 40)) }
    {
        let length = self.value(steps, line)?.word();
        let places = self.value(snapshots, line)?.word();
        let at = self.value(number, line)?.word();
        match self.looked_up(length, places, at) {
            Ok(action) => Ok(action),
            Err(trap) => Err(Stop::Trap(trap, line)),
        }
    }

    /// Begins a reversal.
    pub(crate) fn begin(&mut self, steps: &Term, snapshots: &Term, line: u32) -> Result<(), Stop>
        requires framed { IsFrame self.old.frame.names.now self.old.frame.slots.items }
        requires steps_below { IsTermBelow (length self.old.frame.names.now) steps.now }
        requires snapshots_below { IsTermBelow (length self.old.frame.names.now) snapshots.now }
        ensures frame { self.new.frame ≡ self.old.frame }
        ensures room { self.new.tape.room ≡ self.old.tape.room }
        ensures ends { (e : Entry N.numbers) (s : Scene N) → Holds e self.old s
            → Ends e (runtime_act (setting_at e) (begin_reversal (term_in self.old.frame.names.now steps.now) (term_in self.old.frame.names.now snapshots.now)) line s) self.old.left result self.new }
    {
        let plan = self.plan(steps, snapshots, line)?;
        let height = self.tape.len();
        match self.tally.begin(plan.0, self.level, height) {
            Ok(()) => Ok(()),
            Err(_) => Err(Stop::Memory),
        }
    }

    /// Ends the innermost reversal of the entry.
    pub(crate) fn end(&mut self, line: u32) -> Result<(), Stop>
        ensures frame { self.new.frame ≡ self.old.frame }
        ensures room { self.new.tape.room ≡ self.old.tape.room }
        ensures ends { (e : Entry N.numbers) (s : Scene N) → Holds e self.old s
            → Ends e (runtime_act (setting_at e) end_reversal line s) self.old.left result self.new }
    {
        if self.tally.open() == self.base {
            return Err(Stop::Trap(Trap::Schedule, line));
        }
        match self.tally.end() {
            Ok(()) => Ok(()),
            Err(_) => Err(Stop::Memory),
        }
    }

    /// Sets a variable to the number of actions of a schedule.
    pub(crate) fn count_actions(
        &mut self,
        steps: &Term,
        snapshots: &Term,
        variable: usize,
        line: u32,
    ) -> Result<(), Stop>
        requires framed { IsFrame self.old.frame.names.now self.old.frame.slots.items }
        requires steps_below { IsTermBelow (length self.old.frame.names.now) steps.now }
        requires snapshots_below { IsTermBelow (length self.old.frame.names.now) snapshots.now }
        requires there { variable < length self.old.frame.names.now }
        ensures names { self.new.frame.names.now ≡ self.old.frame.names.now }
        ensures framed { IsFrame self.old.frame.names.now self.new.frame.slots.items }
        ensures counts { counts_in self.new.frame.slots.items ≡ counts_in self.old.frame.slots.items }
        ensures room { self.new.tape.room ≡ self.old.tape.room }
        ensures ends { (e : Entry N.numbers) (s : Scene N) → Holds e self.old s
            → Ends e (runtime_act (setting_at e) (count_actions (term_in self.old.frame.names.now steps.now) (term_in self.old.frame.names.now snapshots.now) (var_at self.old.frame.names.now variable)) line s) self.old.left result self.new }
    {
        let plan = self.plan(steps, snapshots, line)?;
        let actions = count(plan.0, plan.1);
        self.turn(variable, actions as i64);
        Ok(())
    }

    // Sets three variables to the kind and the places of an action.
    fn give(&mut self, action: &Action, kind: usize, lower: usize, upper: usize)
        requires framed { IsFrame self.old.frame.names.now self.old.frame.slots.items }
        requires kind_there { kind < length self.old.frame.names.now }
        requires lower_there { lower < length self.old.frame.names.now }
        requires upper_there { upper < length self.old.frame.names.now }
        requires within { (lower_of action.now ≤ 2 ^ 40) × (upper_of action.now ≤ 2 ^ 40) }
        ensures names { self.new.frame.names.now ≡ self.old.frame.names.now }
        ensures framed { IsFrame self.old.frame.names.now self.new.frame.slots.items }
        ensures counts { counts_in self.new.frame.slots.items ≡ counts_in self.old.frame.slots.items }
        ensures left { self.new.left ≡ self.old.left }
        ensures room { self.new.tape.room ≡ self.old.tape.room }
        ensures holds { (e : Entry N.numbers) (s : Scene N) → Holds e self.old s → Holds e self.new (given_in (setting_at e) (var_at self.old.frame.names.now kind) (var_at self.old.frame.names.now lower) (var_at self.old.frame.names.now upper) action.now s) }
    {
        self.turn(kind, kind_of(action));
        self.turn(lower, lower_of(action));
        self.turn(upper, upper_of(action));
    }

    /// Sets three variables to an action of a schedule.
    pub(crate) fn give_action(
        &mut self,
        steps: &Term,
        snapshots: &Term,
        number: &Term,
        targets: (usize, usize, usize),
        line: u32,
    ) -> Result<(), Stop>
        requires framed { IsFrame self.old.frame.names.now self.old.frame.slots.items }
        requires steps_below { IsTermBelow (length self.old.frame.names.now) steps.now }
        requires snapshots_below { IsTermBelow (length self.old.frame.names.now) snapshots.now }
        requires number_below { IsTermBelow (length self.old.frame.names.now) number.now }
        requires kind_there { targets.0 < length self.old.frame.names.now }
        requires lower_there { targets.1 < length self.old.frame.names.now }
        requires upper_there { targets.2 < length self.old.frame.names.now }
        ensures names { self.new.frame.names.now ≡ self.old.frame.names.now }
        ensures framed { IsFrame self.old.frame.names.now self.new.frame.slots.items }
        ensures counts { counts_in self.new.frame.slots.items ≡ counts_in self.old.frame.slots.items }
        ensures room { self.new.tape.room ≡ self.old.tape.room }
        ensures ends { (e : Entry N.numbers) (s : Scene N) → Holds e self.old s
            → Ends e (runtime_act (setting_at e) (give_action (term_in self.old.frame.names.now steps.now) (term_in self.old.frame.names.now snapshots.now) (term_in self.old.frame.names.now number.now) (var_at self.old.frame.names.now targets.0) (var_at self.old.frame.names.now targets.1) (var_at self.old.frame.names.now targets.2)) line s) self.old.left result self.new }
    {
        let action = self.asked(steps, snapshots, number, line)?;
        self.give(&action, targets.0, targets.1, targets.2);
        Ok(())
    }
}
