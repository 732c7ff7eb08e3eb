//! What a run counts of its reversals.

ghost use Rattle.std.specs.Prelude.{◌≡◌, List, ℕ, [], map, reverse, length, OnOk};
ghost use Rattle.def_meaning.specs.Event.{Enter, Begin, End};
ghost use Rattle.def_meaning.specs.Store.{Shape};
ghost use Rattle.adj_interp.specs.Concludes.{counted_in};
ghost use Rattle.adj_interp.specs.Tallied.{Tallied, with_event, reversal_of};

use crate::log::Log;
use adj_tree::Memory;
use std::alloc::Global;
use std::cmp;
use std::marker::Model;

/// A reversal that is open: the level of its unit, its steps, the words on the tape when it began, and the calls directly in it so far.
#[derive(Clone, Copy)]
pub struct Reversal {
    pub level: u64,
    pub steps: u64,
    pub start: u64,
    pub calls: u64,
}

/// The reversals that are open, and what was counted: reversals that began, calls in those that ended less their steps,
/// and the greatest number of words above a reversal's start at a call directly in it. It is seen with the innermost
/// reversal first.
pub struct Tally {
    begun: Vec<Reversal>,
    reversals: u64,
    advances: u64,
    height: u64,
}

impl Drop for Tally {
    fn drop(self) {
        let Tally {
            begun: _begun,
            reversals: _,
            advances: _,
            height: _,
        } = self;
    }
}

impl Model for Tally {
    ghost Value = { Tallied };

    ghost view = { λ t. record {
      begun = map reversal_of (reverse t.begun.items);
      log = record { reversals = t.reversals; advances = t.advances; height = t.height };
    } };
}

impl Tally {
    /// Nothing was counted.
    pub fn new(alloc: Global) -> Tally
        ensures { result ≡ record { begun = []; log = record { reversals = 0; advances = 0; height = 0 } } }
    {
        Tally {
            begun: Vec::new(alloc),
            reversals: 0,
            advances: 0,
            height: 0,
        }
    }

    /// How many reversals are open.
    pub fn open(&self) -> usize
        ensures { result ≡ length self.now.begun }
    {
        self.begun.len()
    }

    /// A reversal of so many steps begins in a unit at a level, with so many words on the tape. No count passes the end
    /// of its type, since each event costs a statement; where one did, memory would be said to have run out.
    pub fn begin(&mut self, steps: u64, level: u64, height: u64) -> Result<(), Memory>
        ensures { OnOk result ((snapshots : ℕ) → self.new ≡ with_event self.old (Begin steps snapshots level height)) }
    {
        self.reversals = self.reversals.checked_add(1).ok_or(Memory)?;
        self.begun.push(Reversal {
            level,
            steps,
            start: height,
            calls: 0,
        })?;
        Ok(())
    }

    /// A unit is entered at a level, with so many words on the tape.
    pub fn enter(&mut self, level: u64, height: u64) -> Result<(), Memory>
        ensures { OnOk result ((name : List ℕ) (shapes : List Shape) → self.new ≡ with_event self.old (Enter name level height shapes)) }
    {
        if self.begun.is_empty() {
            return Ok(());
        }
        self.enter_within(level, height)
    }

    // A unit is entered while a reversal is open, so that most calls need no more than a look at whether one is.
    #[inline(never)]
    fn enter_within(&mut self, level: u64, height: u64) -> Result<(), Memory>
        ensures { OnOk result ((name : List ℕ) (shapes : List Shape) → self.new ≡ with_event self.old (Enter name level height shapes)) }
    {
        let Some(last) = self.begun.pop() else {
            return Ok(());
        };
        if last.level < level && level - last.level == 1 {
            self.height = cmp::max(self.height, height.saturating_sub(last.start));
            let calls = last.calls.checked_add(1).ok_or(Memory)?;
            self.begun.push(Reversal { calls, ..last })?;
        } else {
            self.begun.push(last)?;
        }
        Ok(())
    }

    /// The innermost reversal ends, where one is open.
    pub fn end(&mut self) -> Result<(), Memory>
        ensures { OnOk result ((level : ℕ) → self.new ≡ with_event self.old (End level)) }
    {
        if let Some(last) = self.begun.pop() {
            let advances = last.calls.saturating_sub(last.steps);
            self.advances = self.advances.checked_add(advances).ok_or(Memory)?;
        }
        Ok(())
    }

    /// What was counted, with the statements that were used.
    pub(crate) fn log(&self, used: u64) -> Log
        ensures counted { counted_in result ≡ self.now.log }
        ensures used { result.used ≡ used }
    {
        Log {
            used,
            reversals: self.reversals,
            advances: self.advances,
            height: self.height,
        }
    }
}
