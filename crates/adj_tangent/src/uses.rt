//! The helpers that the tangent of a unit uses (docs/EMITTED.md, "The tangent text"). Lists are gone through by loops.

ghost use Rattle.std.specs.Prelude.{◌≡◌, ◌+◌, ◌||◌, false, max, map, IfOk};
ghost use Rattle.adj_tree.specs.Code.{plain, times, bin, pow, assign};
ghost use Rattle.adj_tree.specs.View.{term_of, terms_of, act_of, code_of};
ghost use Rattle.def_sweep.specs.Marked.{count_of};
ghost use Rattle.def_tangent.specs.Program.{helpers_used};
ghost use Rattle.adj_naming.specs.Roles.{variable_of};
ghost use Rattle.adj_tangent.specs.Plans.{active_by};
ghost use Rattle.adj_tangent.specs.Counts.{AreCounts, UsesAct, UsesList};

use adj_naming::role::{Helper, Role, push_helpers};
use adj_sweep_assignment::Marking;
use adj_sweep_assignment::sizes::{has_own_beside, plus};
use adj_tree::{Act, Expr, Memory, Name, Op, Place, Stmt, Stmts};
use std::alloc::Global;

/// How many parts and temporaries a term has, and whether it is active.
#[derive(Clone, Copy, PartialEq, Eq, Debug)]
pub struct Counts {
    pub parts: usize,
    pub temps: usize,
    pub active: bool,
}

/// The greatest numbers of parts and of temporaries before an assignment.
#[derive(Clone, Copy, PartialEq, Eq, Debug)]
pub struct Used {
    pub parts: usize,
    pub temps: usize,
}

// A term with nothing in it that is active.
fn idle() -> Counts
    ensures parts { result.parts ≡ 0 }
    ensures temps { result.temps ≡ 0 }
    ensures active { result.active ≡ false }
{
    Counts {
        parts: 0,
        temps: 0,
        active: false,
    }
}

// A name or an element.
fn leaf(marking: &Marking<'_>, x: &Name) -> Counts
    ensures parts { result.parts ≡ 0 }
    ensures temps { result.temps ≡ 0 }
    ensures active { result.active ≡ active_by marking.now (plain x.now) }
{
    Counts {
        parts: 0,
        temps: 0,
        active: marking.active(0, x),
    }
}

// One more, if something is so.
fn and_one(number: usize, more: bool) -> Result<usize, Memory>
    ensures sum { IfOk result (λ n. n ≡ number + count_of more) }
{
    if more { plus(number, 1) } else { Ok(number) }
}

impl Counts {
    // A term that is active where one with these counts is, which has a part of its own.
    fn around(self) -> Result<Counts, Memory>
        ensures parts { IfOk result (λ c. c.parts ≡ self.parts + count_of self.active) }
        ensures temps { IfOk result (λ c. c.temps ≡ self.temps) }
        ensures active { IfOk result (λ c. c.active ≡ self.active) }
    {
        Ok(Counts {
            parts: and_one(self.parts, self.active)?,
            temps: self.temps,
            active: self.active,
        })
    }

    // A sum or a difference.
    fn beside(self, other: Counts) -> Result<Counts, Memory>
        ensures parts { IfOk result (λ c. c.parts ≡ self.parts + other.parts + count_of (self.active || other.active)) }
        ensures temps { IfOk result (λ c. c.temps ≡ self.temps + other.temps) }
        ensures active { IfOk result (λ c. c.active ≡ (self.active || other.active)) }
    {
        let active = self.active || other.active;
        let parts = plus(self.parts, other.parts)?;
        Ok(Counts {
            parts: and_one(parts, active)?,
            temps: plus(self.temps, other.temps)?,
            active,
        })
    }

    // With a temporary more, if an operand has its own.
    fn with_own(self, own: bool) -> Result<Counts, Memory>
        ensures parts { IfOk result (λ c. c.parts ≡ self.parts) }
        ensures temps { IfOk result (λ c. c.temps ≡ self.temps + count_of own) }
        ensures active { IfOk result (λ c. c.active ≡ self.active) }
    {
        Ok(Counts {
            parts: self.parts,
            temps: and_one(self.temps, own)?,
            active: self.active,
        })
    }
}

// The counts of a term.
#[cycle(counts)]
fn counted(marking: &Marking<'_>, e: &Expr) -> Result<Counts, Memory>
    ensures counts { IfOk result (λ c. AreCounts (active_by marking.now) (term_of e.now) c) }
{
    match e {
        Expr::Lit(_) | Expr::Abs(_) => Ok(idle()),
        Expr::Var(x) | Expr::Elem(x, _) => Ok(leaf(marking, x)),
        Expr::Neg(a) => counted(marking, a)?.around(),
        Expr::Bin(op, a, b) => match op {
            Op::Add | Op::Sub => {
                let left = counted(marking, a)?;
                let right = counted(marking, b)?;
                left.beside(right)
            }
            Op::Mul => counted_product(marking, a, b),
            Op::Quot | Op::Mod | Op::Max | Op::Min => Ok(idle()),
        },
        Expr::Pow(a, power) => counted_power(marking, a, *power),
        Expr::Power(a, b) => {
            let base = counted(marking, a)?;
            let with_base = base.with_own(has_own_beside(a, base.active))?;
            let with_both = with_base.with_own(has_own_beside(b, base.active))?;
            with_both.around()
        }
    }
}

#[cycle(counts)]
fn counted_product(marking: &Marking<'_>, a: &Expr, b: &Expr) -> Result<Counts, Memory>
    ensures counts { IfOk result (λ c. AreCounts (active_by marking.now) (bin times (term_of a.now) (term_of b.now)) c) }
{
    let left = counted(marking, a)?;
    let right = counted(marking, b)?;
    let first = left.with_own(has_own_beside(a, right.active))?;
    let second = right.with_own(has_own_beside(b, left.active))?;
    first.beside(second)
}

#[cycle(counts)]
fn counted_power(marking: &Marking<'_>, a: &Expr, power: u32) -> Result<Counts, Memory>
    ensures counts { IfOk result (λ c. AreCounts (active_by marking.now) (pow (term_of a.now) power) c) }
{
    match power {
        0 => Ok(idle()),
        1 => counted(marking, a)?.around(),
        _ => {
            let base = counted(marking, a)?;
            let with_base = base.with_own(has_own_beside(a, base.active))?;
            with_base.around()
        }
    }
}

impl Used {
    // Nothing.
    fn nothing() -> Used
        ensures parts { result.parts ≡ 0 }
        ensures temps { result.temps ≡ 0 }
    {
        Used { parts: 0, temps: 0 }
    }

    // The greatest numbers of both.
    fn with(self, other: Used) -> Used
        ensures parts { result.parts ≡ max self.parts other.parts }
        ensures temps { result.temps ≡ max self.temps other.temps }
    {
        Used {
            parts: self.parts.max(other.parts),
            temps: self.temps.max(other.temps),
        }
    }
}

// What stands before an assignment.
fn used_before(marking: &Marking<'_>, target: &Place, e: &Expr) -> Result<Used, Memory>
    ensures used { IfOk result (λ u. UsesAct (active_by marking.now) (assign (plain target.now.name) (terms_of target.now.subs) (term_of e.now)) u) }
{
    if !marking.active(0, &target.name) {
        return Ok(Used::nothing());
    }
    let counts = counted(marking, e)?;
    Ok(Used {
        parts: counts.parts,
        temps: counts.temps,
    })
}

// What is used before a statement, and in it.
#[cycle(used)]
fn used_by(marking: &Marking<'_>, stmt: &Stmt) -> Result<Used, Memory>
    ensures used { IfOk result (λ u. UsesAct (active_by marking.now) (act_of stmt.now.act) u) }
{
    match &stmt.act {
        Act::Assign(target, e) => used_before(marking, target, e),
        Act::If(_, a, b) => {
            let first = used_in(marking, a)?;
            let second = used_in(marking, b)?;
            Ok(first.with(second))
        }
        Act::Loop(_, _, _, _, body, _) | Act::While(_, body) => used_in(marking, body),
        Act::Call(_, _) | Act::Run(_) => Ok(Used::nothing()),
    }
}

#[cycle(used)]
fn used_in(marking: &Marking<'_>, list: &Stmts) -> Result<Used, Memory>
    ensures used { IfOk result (λ u. UsesList (active_by marking.now) (code_of list.now) u) }
{
    let mut used = Used::nothing();
    let mut current = list;
    while let Stmts::More(row) = current {
        let more = used_by(marking, &row.first)?;
        used = used.with(more);
        current = &row.rest;
    }
    Ok(used)
}

/// The helpers that the tangent of a unit with this body uses, in the order of their declarations.
pub fn helpers_used(
    alloc: Global,
    marking: &Marking<'_>,
    body: &Stmts,
) -> Result<Vec<Helper>, Memory>
    ensures helpers { IfOk result (λ v. map variable_of v.items ≡ helpers_used (active_by marking.now) (code_of body.now)) }
{
    let used = used_in(marking, body)?;
    let mut made = Vec::new(alloc);
    push_helpers(&mut made, Role::Work, used.parts)?;
    push_helpers(&mut made, Role::Temp, used.temps)?;
    Ok(made)
}
