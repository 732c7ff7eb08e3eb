//! Calls of the runtime. Those of schedules stand in `planning`. (docs/RUNNING.md, "Runtime calls")

ghost use Rattle.std.specs.Prelude.{◌≡◌, ◌<◌, ℕ, length, slice_index_or};
ghost use Rattle.adj_tree.specs.Code.{push_word, pop_word, push_array, pop_array, push_control};
ghost use Rattle.def_meaning.specs.Scene.{Scene, pushed, popped};
ghost use Rattle.def_meaning.specs.Store.{set_all};
ghost use Rattle.def_meaning.specs.Runtime.{runtime_act};
ghost use Rattle.adj_interp_frame.specs.declared.slot.Slot.{Slot};
ghost use Rattle.adj_interp_frame.specs.Prepared.{var_at, term_in, terms_in, IsTermBelow};
ghost use Rattle.adj_interp_frame.specs.Instructed.{service_in, IsCellBelow, IsServiceBelow};
ghost use Rattle.adj_interp_frame.specs.Framed.{IsFrame, zero_in};
ghost use Rattle.adj_interp_frame.specs.Suited.{counts_in};
ghost use Rattle.adj_interp.specs.Held.{Entry, setting_at, Holds, Ends};

use crate::machine::Machine;
use crate::stop::Stop;
use adj_interp_frame::{Cell, Service, Term};
use adj_number::Number;
use adj_tree::Trap;

impl<'a, N: Number> Machine<'a, N> {
    // Pushes a number, where the tape has room for it.
    fn push(&mut self, number: N) -> Result<(), Stop>
        ensures frame { self.new.frame ≡ self.old.frame }
        ensures room { self.new.tape.room ≡ self.old.tape.room }
        ensures ends { (e : Entry N.numbers) (s : Scene N) → Holds e self.old s → Ends e (pushed (setting_at e) number s) self.old.left result self.new }
    {
        match self.tape.push(number) {
            Ok(()) => Ok(()),
            Err(_) => Err(Stop::TapeFull),
        }
    }

    // Pops a number into a cell.
    fn pop(&mut self, variable: usize, cell: usize, line: u32) -> Result<(), Stop>
        requires framed { IsFrame self.old.frame.names.now self.old.frame.slots.items }
        requires there { variable < length self.old.frame.names.now }
        requires within { (d : Slot N) → cell < length (slice_index_or self.old.frame.slots.items variable d).cells.items }
        ensures names { self.new.frame.names.now ≡ self.old.frame.names.now }
        ensures framed { IsFrame self.old.frame.names.now self.new.frame.slots.items }
        ensures counts { counts_in self.new.frame.slots.items ≡ counts_in self.old.frame.slots.items }
        ensures sized { (j : ℕ) (d : Slot N) → length (slice_index_or self.new.frame.slots.items j d).cells.items ≡ length (slice_index_or self.old.frame.slots.items j d).cells.items }
        ensures room { self.new.tape.room ≡ self.old.tape.room }
        ensures ends { (e : Entry N.numbers) (s : Scene N) → Holds e self.old s → Ends e (popped (setting_at e) (var_at self.old.frame.names.now variable) cell line s) self.old.left result self.new }
    {
        match self.tape.pop() {
            Some(number) => {
                self.put(variable, cell, number);
                Ok(())
            }
            None => Err(Stop::Trap(Trap::Tape, line)),
        }
    }

    // Pushes a scalar or an element.
    fn push_word(&mut self, cell: &Cell, line: u32) -> Result<(), Stop>
        requires framed { IsFrame self.old.frame.names.now self.old.frame.slots.items }
        requires below { IsCellBelow (length self.old.frame.names.now) cell.now }
        ensures names { self.new.frame.names.now ≡ self.old.frame.names.now }
        ensures framed { IsFrame self.old.frame.names.now self.new.frame.slots.items }
        ensures counts { counts_in self.new.frame.slots.items ≡ counts_in self.old.frame.slots.items }
        ensures room { self.new.tape.room ≡ self.old.tape.room }
        ensures ends { (e : Entry N.numbers) (s : Scene N) → Holds e self.old s
            → Ends e (runtime_act (setting_at e) (push_word (var_at self.old.frame.names.now cell.now.variable) (terms_in self.old.frame.names.now cell.now.subs)) line s) self.old.left result self.new }
    {
        let place = self.target(cell, line)?;
        let number = self.frame.slots[cell.variable].cells[place];
        self.push(number)
    }

    // Pops a scalar or an element. Its subscripts come before the tape.
    fn pop_word(&mut self, cell: &Cell, line: u32) -> Result<(), Stop>
        requires framed { IsFrame self.old.frame.names.now self.old.frame.slots.items }
        requires below { IsCellBelow (length self.old.frame.names.now) cell.now }
        ensures names { self.new.frame.names.now ≡ self.old.frame.names.now }
        ensures framed { IsFrame self.old.frame.names.now self.new.frame.slots.items }
        ensures counts { counts_in self.new.frame.slots.items ≡ counts_in self.old.frame.slots.items }
        ensures room { self.new.tape.room ≡ self.old.tape.room }
        ensures ends { (e : Entry N.numbers) (s : Scene N) → Holds e self.old s
            → Ends e (runtime_act (setting_at e) (pop_word (var_at self.old.frame.names.now cell.now.variable) (terms_in self.old.frame.names.now cell.now.subs)) line s) self.old.left result self.new }
    {
        let place = self.target(cell, line)?;
        self.pop(cell.variable, place, line)
    }

    // Pushes all elements in storage order.
    fn push_array(&mut self, variable: usize) -> Result<(), Stop>
        requires framed { IsFrame self.old.frame.names.now self.old.frame.slots.items }
        requires there { variable < length self.old.frame.names.now }
        ensures frame { self.new.frame ≡ self.old.frame }
        ensures room { self.new.tape.room ≡ self.old.tape.room }
        ensures ends { (line : ℕ) (e : Entry N.numbers) (s : Scene N) → Holds e self.old s
            → Ends e (runtime_act (setting_at e) (push_array (var_at self.old.frame.names.now variable)) line s) self.old.left result self.new }
    {
        let count = self.frame.slots[variable].cells.len();
        for cell in 0..count {
            let number = self.frame.slots[variable].cells[cell];
            self.push(number)?;
        }
        Ok(())
    }

    // Pops all elements, the last one first.
    fn pop_array(&mut self, variable: usize, line: u32) -> Result<(), Stop>
        requires framed { IsFrame self.old.frame.names.now self.old.frame.slots.items }
        requires there { variable < length self.old.frame.names.now }
        ensures names { self.new.frame.names.now ≡ self.old.frame.names.now }
        ensures framed { IsFrame self.old.frame.names.now self.new.frame.slots.items }
        ensures counts { counts_in self.new.frame.slots.items ≡ counts_in self.old.frame.slots.items }
        ensures room { self.new.tape.room ≡ self.old.tape.room }
        ensures ends { (e : Entry N.numbers) (s : Scene N) → Holds e self.old s
            → Ends e (runtime_act (setting_at e) (pop_array (var_at self.old.frame.names.now variable)) line s) self.old.left result self.new }
    {
        let mut remaining = self.frame.slots[variable].cells.len();
        while remaining > 0 {
            remaining -= 1;
            self.pop(variable, remaining, line)?;
        }
        Ok(())
    }

    // Pushes the word of a branch.
    fn push_control(&mut self, term: &Term, line: u32) -> Result<(), Stop>
        requires framed { IsFrame self.old.frame.names.now self.old.frame.slots.items }
        requires below { IsTermBelow (length self.old.frame.names.now) term.now }
        ensures frame { self.new.frame ≡ self.old.frame }
        ensures room { self.new.tape.room ≡ self.old.tape.room }
        ensures ends { (e : Entry N.numbers) (s : Scene N) → Holds e self.old s
            → Ends e (runtime_act (setting_at e) (push_control (term_in self.old.frame.names.now term.now)) line s) self.old.left result self.new }
    {
        let number = self.value(term, line)?;
        self.push(number)
    }

    // Puts 0 into each cell of a variable.
    fn clear(&mut self, variable: usize)
        requires framed { IsFrame self.old.frame.names.now self.old.frame.slots.items }
        requires there { variable < length self.old.frame.names.now }
        ensures names { self.new.frame.names.now ≡ self.old.frame.names.now }
        ensures framed { IsFrame self.old.frame.names.now self.new.frame.slots.items }
        ensures counts { counts_in self.new.frame.slots.items ≡ counts_in self.old.frame.slots.items }
        ensures left { self.new.left ≡ self.old.left }
        ensures room { self.new.tape.room ≡ self.old.tape.room }
        ensures holds { (e : Entry N.numbers) (s : Scene N) → Holds e self.old s → Holds e self.new (record s { store = set_all s.store (var_at self.old.frame.names.now variable) (λ j. zero_in N.numbers) }) }
    {
        self.frame.clear(variable);
    }

    /// Does a call of the runtime, which was counted.
    #[inline(never)]
    pub(crate) fn serve(&mut self, service: &Service, line: u32) -> Result<(), Stop>
        requires framed { IsFrame self.old.frame.names.now self.old.frame.slots.items }
        requires below { IsServiceBelow (length self.old.frame.names.now) service.now }
        ensures names { self.new.frame.names.now ≡ self.old.frame.names.now }
        ensures framed { IsFrame self.old.frame.names.now self.new.frame.slots.items }
        ensures counts { counts_in self.new.frame.slots.items ≡ counts_in self.old.frame.slots.items }
        ensures room { self.new.tape.room ≡ self.old.tape.room }
        ensures ends { (e : Entry N.numbers) (s : Scene N) → Holds e self.old s
            → Ends e (runtime_act (setting_at e) (service_in self.old.frame.names.now service.now) line s) self.old.left result self.new }
    {
        match service {
            Service::PushWord(cell) => self.push_word(cell, line),
            Service::PopWord(cell) => self.pop_word(cell, line),
            Service::PushArray(variable) => self.push_array(*variable),
            Service::PopArray(variable) => self.pop_array(*variable, line),
            Service::PushControl(term) => self.push_control(term, line),
            Service::PopControl(variable) => self.pop(*variable, 0, line),
            Service::Zero(variable) => {
                self.clear(*variable);
                Ok(())
            }
            Service::Begin(steps, snapshots) => self.begin(steps, snapshots, line),
            Service::Actions(steps, snapshots, variable) => {
                self.count_actions(steps, snapshots, *variable, line)
            }
            Service::Action(steps, snapshots, number, kind, lower, upper) => {
                self.give_action(steps, snapshots, number, (*kind, *lower, *upper), line)
            }
            Service::End => self.end(line),
        }
    }
}
