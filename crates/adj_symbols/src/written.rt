//! The variables that statements may write, and which of their dummies units write.

ghost use Rattle.std.specs.Prelude.{◌≡◌, ◌++◌, Bool, List, Some, None, map, IfOk, OnOk, MatchOption};
ghost use Rattle.adj_tree.specs.Code.{plain};
ghost use Rattle.adj_tree.specs.View.{term_of, act_of, procedure_of};
ghost use Rattle.def_meaning.specs.LeastSet.{row_of, least_rows};
ghost use Rattle.def_meaning.specs.Written.{write_rule};
ghost use Rattle.def_meaning.specs.Apart.{has_name};
ghost use Rattle.def_names.specs.Variables.{Name};
ghost use Rattle.def_names.specs.WriteFaults.{named_by};
ghost use Rattle.adj_symbols_writes.specs.View.{names_seen, vars_seen};
ghost use Rattle.adj_symbols.specs.Writes.{written_in, written_names, writes_one};

use crate::scope::Scope;
use adj_sets::BorrowedNames;
use adj_symbols_writes::names::add_changed;
use adj_symbols_writes::variables::add_handed;
use adj_symbols_writes::written_dummies;
use adj_tree::{Act, Expr, Flags, Memory, Name, Unit};
use std::alloc::Global;
use std::marker::Model;

/// For each unit which of its dummies are written, seen as these rows.
pub(crate) struct Written {
    rows: Vec<Flags>,
}

impl Drop for Written {
    fn drop(self) {
        let Written { rows: _rows } = self;
    }
}

impl Model for Written {
    ghost Value = { List (List Bool) };

    ghost view = { λ w. w.rows.items };
}

impl Written {
    /// Which dummies of the first unit of a name are written.
    pub(crate) fn row(&self, scope: &Scope<'_>, name: &Name) -> &[bool]
        ensures row { result.now ≡ row_of (map procedure_of scope.now) self.now name.now }
    {
        match scope.number(name) {
            Some(number) => match self.rows.as_slice().get(number) {
                Some(flags) => flags.as_slice(),
                None => &[],
            },
            None => &[],
        }
    }

    /// The rows of all units.
    pub(crate) fn into_rows(self) -> Vec<Flags>
        ensures rows { result.items ≡ self }
    {
        let Written { rows } = self;
        rows
    }
}

/// The variable that an actual names, whole or by an element.
pub(crate) fn variable<'a>(actual: &'a Expr) -> Option<&'a Name>
    ensures { MatchOption result (named_by (term_of actual.now) ≡ None) (λ x. named_by (term_of actual.now) ≡ Some (plain x.now)) }
{
    match actual {
        Expr::Var(name) | Expr::Elem(name, _) => Some(name),
        Expr::Lit(_)
        | Expr::Neg(_)
        | Expr::Bin(_, _, _)
        | Expr::Pow(_, _)
        | Expr::Power(_, _)
        | Expr::Abs(_) => None,
    }
}

// Adds the variables that a statement may write itself.
fn add_written<'a>(
    scope: &Scope<'_>,
    written: &Written,
    act: &'a Act,
    out: &mut Vec<&'a Name>,
) -> Result<(), Memory>
    ensures { OnOk result (vars_seen out.new.items ≡ vars_seen out.old.items ++ written_in (row_of (map procedure_of scope.now) written.now) (act_of act.now)) }
{
    match act {
        Act::Assign(place, _) => {
            out.push(&place.name)?;
            Ok(())
        }
        Act::Loop(name, _, _, _, _, _) => {
            out.push(name)?;
            Ok(())
        }
        Act::Call(name, actuals) => add_handed(written.row(scope, name), actuals, out),
        Act::Run(call) => add_changed(call, out),
        Act::If(_, _, _) | Act::While(_, _) => Ok(()),
    }
}

// The names of the variables that a statement may write itself, those in it left aside.
#[tactic(auto, using(crate::proofs::Writing::seen_among))]
fn written_by<'a>(
    alloc: Global,
    scope: &Scope<'_>,
    written: &Written,
    act: &'a Act,
) -> Result<Vec<&'a Name>, Memory>
    ensures { IfOk result (λ v. names_seen v.items ≡ written_names (row_of (map procedure_of scope.now) written.now) (act_of act.now)) }
{
    let mut names = Vec::new(alloc);
    add_written(scope, written, act, &mut names)?;
    Ok(names)
}

/// Whether a statement may write one of some variables itself.
pub(crate) fn writes_one(
    alloc: Global,
    scope: &Scope<'_>,
    written: &Written,
    act: &Act,
    chosen: &BorrowedNames<'_>,
) -> Result<bool, Memory>
    ensures { IfOk result (λ b. b ≡ writes_one (row_of (map procedure_of scope.now) written.now) chosen.now (act_of act.now)) }
{
    let names = written_by(alloc, scope, written, act)?;
    for name in names.as_slice() {
        if chosen.contains(name) {
            return Ok(true);
        }
    }
    Ok(false)
}

/// Which of some names are in a set.
pub(crate) fn flags_of(
    alloc: Global,
    names: &[Name],
    chosen: &BorrowedNames<'_>,
) -> Result<Flags, Memory>
    ensures { IfOk result (λ f. f ≡ map (λ x. has_name x chosen.now) names.now) }
{
    let mut flags = Vec::new(alloc);
    for name in names {
        flags.push(chosen.contains(name))?;
    }
    Ok(Flags::new(flags))
}

/// Which dummies of each unit are written, and so handed back at the end of a call.
pub(crate) fn handed_back(alloc: Global, units: &[Unit]) -> Result<Written, Memory>
    ensures { IfOk result (λ w. w ≡ least_rows write_rule (map procedure_of units.now)) }
{
    let rows = written_dummies(alloc, units)?;
    Ok(Written { rows })
}
