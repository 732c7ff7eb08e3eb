//! The helpers that the adjoint of a unit uses, and those of a forward unit (docs/EMITTED.md, "The units"). Lists are gone through by loops.

ghost use Rattle.std.specs.Prelude.{◌≡◌, ◌++◌, ℕ, List, map, IfOk, OnOk};
ghost use Rattle.adj_tree.specs.View.{act_of, code_of, mark_of};
ghost use Rattle.def_names.specs.Numbers.{Vars};
ghost use Rattle.def_sweep.specs.Plan.{Callee};
ghost use Rattle.def_sweep.specs.Program.{helpers_used_with, helpers_forth};
ghost use Rattle.adj_naming.specs.Roles.{variable_of};
ghost use Rattle.adj_sweep.specs.Callees.{KnowsAll};
ghost use Rattle.adj_sweep.specs.Depths.{AddsAct, AddsList, AddsLoop};
ghost use Rattle.adj_sweep.specs.Uses.{plan_by, schedules_by, UsesAct, UsesList, UsesLoop, reversal_helpers_of, helpers_of, forth_helpers_of};

use crate::depths::{Depths, push_among};
use crate::measure::plus;
use crate::steps::step_call;
use crate::uses::{Known, Used};
use adj_naming::role::{Helper, Role, push_helpers};
use adj_tree::{Act, Mark, Memory, Name, Stmt, Stmts};
use std::alloc::Global;

// The variable of a DO, its body and its mark.
#[derive(Clone, Copy)]
struct Turns<'s> {
    variable: &'s Name,
    body: &'s Stmts,
    mark: &'s Mark,
}

impl<'a> Known<'a> {
    // What a DO of this depth uses, where its body uses what is given. Its depth is added, if it goes back.
    fn around(
        &self,
        number: usize,
        depth: usize,
        turns: &Turns,
        inner: Used,
        depths: &mut Depths,
    ) -> Result<Used, Memory>
        ensures uses { IfOk result (λ u. (arrays : Vars) (callees : List ℕ → Callee) (reads : List ℕ → Vars) → UsesLoop (schedules_by self.now reads) (plan_by self.now arrays callees) depth number turns.now.variable.now (code_of turns.now.body.now) (mark_of turns.now.mark.now) inner u) }
        ensures adds { OnOk result ((arrays : Vars) (callees : List ℕ → Callee) (reads : List ℕ → Vars) → AddsLoop (schedules_by self.now reads) (plan_by self.now arrays callees) depth number turns.now.variable.now (code_of turns.now.body.now) (mark_of turns.now.mark.now) inner.idle depths.old depths.new) }
    {
        let call = plus(number, 1)?;
        match step_call(self.loops, self.marks, call, turns.body, turns.mark) {
            Some(step) => {
                depths.add_reversed(depth, step.mark)?;
                Ok(self.reversed_loop(number, depth, turns.variable, inner))
            }
            None => {
                depths.add_do(depth, inner.idle)?;
                Ok(self.do_loop(number, depth, turns.variable, inner))
            }
        }
    }

    // What a statement uses, in as many loops as the depth says. The depths of its loops that go back are added.
    #[cycle(walk)]
    fn statement(
        &self,
        stmt: &Stmt,
        number: usize,
        depth: usize,
        depths: &mut Depths,
    ) -> Result<Used, Memory>
        ensures uses { IfOk result (λ u. (arrays : Vars) (callees : List ℕ → Callee) (reads : List ℕ → Vars) → KnowsAll self.now.callees.now callees reads → UsesAct (schedules_by self.now reads) (plan_by self.now arrays callees) depth number (act_of stmt.now.act) u) }
        ensures adds { OnOk result ((arrays : Vars) (callees : List ℕ → Callee) (reads : List ℕ → Vars) → KnowsAll self.now.callees.now callees reads → AddsAct (schedules_by self.now reads) (plan_by self.now arrays callees) depth number (act_of stmt.now.act) depths.old depths.new) }
    {
        match &stmt.act {
            Act::Assign(place, e) => {
                let used = self.assignment(number, place, e)?;
                Ok(used)
            }
            Act::If(_, a, b) => {
                let begun = plus(number, 1)?;
                let first = self.list(a, begun, depth, depths)?;
                let second = self.list(b, first.number, depth, depths)?;
                Ok(self.branch(number, first, second))
            }
            Act::Loop(x, _, _, _, body, mark) => {
                let begun = plus(number, 1)?;
                let inside = plus(depth, 1)?;
                let inner = self.list(body, begun, inside, depths)?;
                let turns = Turns {
                    variable: x,
                    body,
                    mark,
                };
                let used = self.around(number, inside, &turns, inner, depths)?;
                Ok(used)
            }
            Act::While(_, body) => {
                let begun = plus(number, 1)?;
                let inside = plus(depth, 1)?;
                let inner = self.list(body, begun, inside, depths)?;
                depths.add_while(inside, inner.idle)?;
                Ok(self.while_loop(number, inside, inner))
            }
            Act::Call(name, actuals) => {
                let used = self.call(number, name, actuals)?;
                Ok(used)
            }
            Act::Run(_) => {
                let next = plus(number, 1)?;
                Ok(Used::nothing(next))
            }
        }
    }

    // The same of a list whose first statement has this number.
    #[cycle(walk)]
    fn list(
        &self,
        body: &Stmts,
        number: usize,
        depth: usize,
        depths: &mut Depths,
    ) -> Result<Used, Memory>
        ensures uses { IfOk result (λ u. (arrays : Vars) (callees : List ℕ → Callee) (reads : List ℕ → Vars) → KnowsAll self.now.callees.now callees reads → UsesList (schedules_by self.now reads) (plan_by self.now arrays callees) depth number (code_of body.now) u) }
        ensures adds { OnOk result ((arrays : Vars) (callees : List ℕ → Callee) (reads : List ℕ → Vars) → KnowsAll self.now.callees.now callees reads → AddsList (schedules_by self.now reads) (plan_by self.now arrays callees) depth number (code_of body.now) depths.old depths.new) }
    {
        let mut made = Used::nothing(number);
        let mut current = body;
        while let Stmts::More(row) = current {
            let used = self.statement(&row.first, made.number, depth, depths)?;
            made = made.with_next(used);
            current = &row.rest;
        }
        Ok(made)
    }
}

// The helpers of loops that are reversed by a schedule, behind the others. `slots` are the depths of those whose number of snapshots is
// the value of a variable.
fn push_reversed(
    made: &mut Vec<Helper>,
    flags: &[bool],
    slots: &[bool],
    greatest: usize,
) -> Result<(), Memory>
    ensures helpers { OnOk result (map variable_of made.new.items ≡ map variable_of made.old.items ++ reversal_helpers_of greatest flags.now slots.now) }
{
    push_among(made, Role::Entry, flags, greatest)?;
    push_among(made, Role::Entries, flags, greatest)?;
    push_among(made, Role::Kind, flags, greatest)?;
    push_among(made, Role::Lower, flags, greatest)?;
    push_among(made, Role::Upper, flags, greatest)?;
    push_among(made, Role::Slots, slots, greatest)?;
    Ok(())
}

// The helpers of what is used, in the order of their declarations.
fn helpers(alloc: Global, used: &Used, depths: &Depths) -> Result<Vec<Helper>, Memory>
    ensures helpers { IfOk result (λ v. map variable_of v.items ≡ helpers_of used.now depths.now) }
{
    let mut made = Vec::new(alloc);
    if used.tells {
        made.push(Helper {
            role: Role::Control,
            number: 0,
        })?;
    }
    push_among(&mut made, Role::Count, depths.loops.as_slice(), used.depth)?;
    push_among(&mut made, Role::First, depths.dos.as_slice(), used.depth)?;
    push_among(&mut made, Role::Stride, depths.dos.as_slice(), used.depth)?;
    push_among(&mut made, Role::Turn, depths.loops.as_slice(), used.depth)?;
    let slots = depths.slots.as_slice();
    push_reversed(&mut made, depths.reversed.as_slice(), slots, used.depth)?;
    push_helpers(&mut made, Role::Work, used.works)?;
    push_helpers(&mut made, Role::Temp, used.temps)?;
    Ok(made)
}

/// The helpers that the adjoint of a unit uses, in the order of their declarations, where the first statement of its body has this number.
pub fn helpers_used(
    alloc: Global,
    known: &Known,
    number: usize,
    body: &Stmts,
) -> Result<Vec<Helper>, Memory>
    ensures helpers { IfOk result (λ v. (arrays : Vars) (callees : List ℕ → Callee) (reads : List ℕ → Vars) → KnowsAll known.now.callees.now callees reads → map variable_of v.items ≡ helpers_used_with (schedules_by known.now reads) (plan_by known.now arrays callees) number (code_of body.now)) }
{
    let mut depths = Depths::new(alloc);
    let used = known.list(body, number, 0, &mut depths)?;
    let made = helpers(alloc, &used, &depths)?;
    Ok(made)
}

// Those of what is used by a forward sweep, in this order.
fn forth_helpers(alloc: Global, used: &Used, depths: &Depths) -> Result<Vec<Helper>, Memory>
    ensures helpers { IfOk result (λ v. map variable_of v.items ≡ forth_helpers_of used.now depths.now) }
{
    let mut made = Vec::new(alloc);
    push_among(&mut made, Role::Count, depths.loops.as_slice(), used.depth)?;
    push_among(&mut made, Role::First, depths.dos.as_slice(), used.depth)?;
    push_among(&mut made, Role::Stride, depths.dos.as_slice(), used.depth)?;
    push_among(&mut made, Role::Slots, depths.slots.as_slice(), used.depth)?;
    Ok(made)
}

/// The helpers that the forward unit of split calls uses, in the order of their declarations.
pub fn helpers_forth(
    alloc: Global,
    known: &Known,
    number: usize,
    body: &Stmts,
) -> Result<Vec<Helper>, Memory>
    ensures helpers { IfOk result (λ v. (arrays : Vars) (callees : List ℕ → Callee) (reads : List ℕ → Vars) → KnowsAll known.now.callees.now callees reads → map variable_of v.items ≡ helpers_forth (schedules_by known.now reads) (plan_by known.now arrays callees) number (code_of body.now)) }
{
    let mut depths = Depths::new(alloc);
    let used = known.list(body, number, 0, &mut depths)?;
    let made = forth_helpers(alloc, &used, &depths)?;
    Ok(made)
}
