//! The depths at which loops have turns that are gone through backward.

ghost use Rattle.std.specs.Prelude.{◌≡◌, ◌++◌, [], false, not, map, OnOk};
ghost use Rattle.adj_tree.specs.View.{mark_of};
ghost use Rattle.def_sweep.specs.Plan.{is_from_variable};
ghost use Rattle.def_sweep.specs.Program.{helpers_among};
ghost use Rattle.adj_naming.specs.Roles.{role_of, variable_of};
ghost use Rattle.adj_sweep.specs.Depths.{has_depth, IsAdded, IsSame};

use crate::steps::is_from_variable;
use adj_naming::role::{Helper, Role};
use adj_tree::{Mark, Memory};
use std::alloc::Global;

/// The depths of loops that go back: of those that are a DO, of all, of those that are reversed by a schedule, and of those among them
/// whose number of snapshots is the value of a variable. A set has a flag for each depth up to its greatest.
pub struct Depths {
    pub dos: Vec<bool>,
    pub loops: Vec<bool>,
    pub reversed: Vec<bool>,
    pub slots: Vec<bool>,
}

impl Drop for Depths {
    fn drop(self) {
        let Depths {
            dos: _dos,
            loops: _loops,
            reversed: _reversed,
            slots: _slots,
        } = self;
    }
}

// Adds a depth, unless the loop that has it is idle.
fn add(flags: &mut Vec<bool>, depth: usize, idle: bool) -> Result<(), Memory>
    ensures added { OnOk result (IsAdded depth idle flags.old.items flags.new.items) }
{
    if idle {
        return Ok(());
    }
    while flags.len() <= depth {
        flags.push(false)?;
    }
    flags[depth] = true;
    Ok(())
}

impl Depths {
    /// No depths.
    pub fn new(alloc: Global) -> Depths
        ensures dos { result.dos.items ≡ [] }
        ensures loops { result.loops.items ≡ [] }
        ensures reversed { result.reversed.items ≡ [] }
        ensures slots { result.slots.items ≡ [] }
    {
        Depths {
            dos: Vec::new(alloc),
            loops: Vec::new(alloc),
            reversed: Vec::new(alloc),
            slots: Vec::new(alloc),
        }
    }

    /// Adds the depth of a DO, unless it is idle.
    pub fn add_do(&mut self, depth: usize, idle: bool) -> Result<(), Memory>
        ensures dos { OnOk result (IsAdded depth idle self.old.dos.items self.new.dos.items) }
        ensures loops { OnOk result (IsAdded depth idle self.old.loops.items self.new.loops.items) }
        ensures reversed { OnOk result (IsSame self.old.reversed.items self.new.reversed.items) }
        ensures slots { OnOk result (IsSame self.old.slots.items self.new.slots.items) }
    {
        add(&mut self.dos, depth, idle)?;
        add(&mut self.loops, depth, idle)?;
        Ok(())
    }

    /// Adds the depth of a DO with this mark that is reversed by a schedule.
    pub fn add_reversed(&mut self, depth: usize, mark: &Mark) -> Result<(), Memory>
        ensures dos { OnOk result (IsAdded depth false self.old.dos.items self.new.dos.items) }
        ensures loops { OnOk result (IsAdded depth false self.old.loops.items self.new.loops.items) }
        ensures reversed { OnOk result (IsAdded depth false self.old.reversed.items self.new.reversed.items) }
        ensures slots { OnOk result (IsAdded depth (not (is_from_variable (mark_of mark.now))) self.old.slots.items self.new.slots.items) }
    {
        add(&mut self.dos, depth, false)?;
        add(&mut self.loops, depth, false)?;
        add(&mut self.reversed, depth, false)?;
        add(&mut self.slots, depth, !is_from_variable(mark))?;
        Ok(())
    }

    /// Adds the depth of a DO WHILE, unless it is idle.
    pub fn add_while(&mut self, depth: usize, idle: bool) -> Result<(), Memory>
        ensures dos { OnOk result (IsSame self.old.dos.items self.new.dos.items) }
        ensures loops { OnOk result (IsAdded depth idle self.old.loops.items self.new.loops.items) }
        ensures reversed { OnOk result (IsSame self.old.reversed.items self.new.reversed.items) }
        ensures slots { OnOk result (IsSame self.old.slots.items self.new.slots.items) }
    {
        add(&mut self.loops, depth, idle)?;
        Ok(())
    }
}

// Adds the helper of a role and a depth, if that is in the set.
fn push_at(made: &mut Vec<Helper>, role: Role, flags: &[bool], depth: usize) -> Result<(), Memory>
    ensures helpers { OnOk result (map variable_of made.new.items ≡ map variable_of made.old.items ++ helpers_among (has_depth flags.now) (role_of role) depth 1) }
{
    if flags.get(depth).copied().unwrap_or(false) {
        made.push(Helper {
            role,
            number: depth,
        })?;
    }
    Ok(())
}

/// The helpers of a role with the depths of a set, from 1 to the greatest, behind the others.
pub fn push_among(
    made: &mut Vec<Helper>,
    role: Role,
    flags: &[bool],
    greatest: usize,
) -> Result<(), Memory>
    ensures helpers { OnOk result (map variable_of made.new.items ≡ map variable_of made.old.items ++ helpers_among (has_depth flags.now) (role_of role) 1 greatest) }
{
    for done in 0..greatest {
        push_at(made, role, flags, done + 1)?;
    }
    Ok(())
}
