//! The faults of the names in a unit.

ghost use Rattle.std.specs.Prelude.{◌≡◌, ◌++◌, ◌==◌, ◌||◌, ◌&&◌, not, is_some, ℕ, List, map, flat_map, IfOk, OnOk, if◌then◌else◌};
ghost use Rattle.adj_tree.specs.View.{terms_of, act_of, declaration_of, procedure_of};
ghost use Rattle.def_meaning.specs.Written.{find_unit};
ghost use Rattle.def_names.specs.Reserved.{is_reserved};
ghost use Rattle.def_names.specs.Standing.{count_of};
ghost use Rattle.std.specs.List.{list_any};
ghost use Rattle.def_names.specs.Variables.{dummy_places, declared_places, first_places, is_integer};
ghost use Rattle.def_names.specs.NameFaults.{has_rank, calls_runtime};
ghost use Rattle.def_names.specs.Fault.{fault, faults_if, first_of, sooner};
ghost use Rattle.adj_symbols_writes.specs.View.{seen};
ghost use Rattle.adj_symbols.specs.View.{use_of, uses_of, used_place, place_of, places_of};

use crate::first::First;
use crate::outline::Outline;
use crate::places::Placed;
use crate::scope::Scope;
use crate::standing::{Stands, Use};
use adj_tree::{Act, Code, Exprs, Memory, Name, Stmt, Unit};
use def_names::{is_reserved, is_runtime};

/// Adds the dummies, which stand in the SUBROUTINE.
pub(crate) fn add_dummies<'a>(unit: &'a Unit, out: &mut Vec<Placed<'a>>) -> Result<(), Memory>
    ensures { OnOk result (places_of out.new.items ≡ places_of out.old.items ++ dummy_places (procedure_of unit.now)) }
{
    for name in unit.dummies.as_slice() {
        out.push(Placed {
            line: unit.line,
            name,
        })?;
    }
    Ok(())
}

/// Adds the declared variables.
pub(crate) fn add_declared<'a>(unit: &'a Unit, out: &mut Vec<Placed<'a>>) -> Result<(), Memory>
    ensures { OnOk result (places_of out.new.items ≡ places_of out.old.items ++ declared_places (procedure_of unit.now)) }
{
    for decl in unit.decls.as_slice() {
        out.push(Placed {
            line: decl.line,
            name: &decl.name,
        })?;
    }
    Ok(())
}

/// Adds the names that stand in statements.
pub(crate) fn add_used<'a>(uses: &[Use<'a>], out: &mut Vec<Placed<'a>>) -> Result<(), Memory>
    ensures { OnOk result (places_of out.new.items ≡ places_of out.old.items ++ map used_place (uses_of uses.now)) }
{
    for used in uses {
        out.push(Placed {
            line: used.line,
            name: used.name,
        })?;
    }
    Ok(())
}

/// Adds a fault at each name that isn't declared and is no integer by its first letter.
pub(crate) fn add_undeclared(outline: &Outline<'_>, places: &[Placed<'_>], first: &mut First)
    ensures { first.new ≡ sooner first.old (first_of (flat_map (λ p. faults_if (not (is_integer (procedure_of outline.now) p.1)) (fault 7 p.0)) (places_of places.now))) }
{
    for place in places {
        first.add_if(
            !outline.is_integer(place.name),
            Code::Undeclared,
            place.line,
        );
    }
}

// Whether a name at one of the places isn't declared and is no integer by its first letter.
fn has_undeclared(outline: &Outline<'_>, places: &[Placed<'_>]) -> bool
    ensures { result ≡ list_any (λ p. not (is_integer (procedure_of outline.now) p.1)) (places_of places.now) }
{
    for place in places {
        if !outline.is_integer(place.name) {
            return true;
        }
    }
    false
}

/// The same where the first places of these names are known: all are looked at only where one of the first ones has a fault.
pub(crate) fn add_undeclared_variables(
    outline: &Outline<'_>,
    variables: &[Placed<'_>],
    places: &[Placed<'_>],
    first: &mut First,
)
    requires { places_of variables.now ≡ first_places (places_of places.now) }
    ensures { first.new ≡ sooner first.old (first_of (flat_map (λ p. faults_if (not (is_integer (procedure_of outline.now) p.1)) (fault 7 p.0)) (places_of places.now))) }
{
    if has_undeclared(outline, variables) {
        add_undeclared(outline, places, first);
    }
}

// Whether an intrinsic, a runtime call or a unit has the name.
fn is_taken(scope: &Scope<'_>, name: &Name) -> bool
    ensures { result ≡ (is_reserved name.now || is_some (find_unit (map procedure_of scope.now) name.now)) }
{
    is_reserved(name) || scope.has(name)
}

// Whether the name at one of the places is such a name.
fn has_taken(scope: &Scope<'_>, places: &[Placed<'_>]) -> bool
    ensures { result ≡ list_any (λ p. is_reserved p.1 || is_some (find_unit (map procedure_of scope.now) p.1)) (places_of places.now) }
{
    for place in places {
        if is_taken(scope, place.name) {
            return true;
        }
    }
    false
}

// Adds a fault at each such name.
fn add_taken(scope: &Scope<'_>, places: &[Placed<'_>], first: &mut First)
    ensures { first.new ≡ sooner first.old (first_of (flat_map (λ p. faults_if (is_reserved p.1 || is_some (find_unit (map procedure_of scope.now) p.1)) (fault 18 p.0)) (places_of places.now))) }
{
    for place in places {
        first.add_if(is_taken(scope, place.name), Code::ReservedName, place.line);
    }
}

/// Adds a fault at each name that an intrinsic, a runtime call or a unit has, where the first places of these names are known: all are
/// looked at only where one of the first ones has a fault.
pub(crate) fn add_reserved_variables(
    scope: &Scope<'_>,
    variables: &[Placed<'_>],
    places: &[Placed<'_>],
    first: &mut First,
)
    requires { places_of variables.now ≡ first_places (places_of places.now) }
    ensures { first.new ≡ sooner first.old (first_of (flat_map (λ p. faults_if (is_reserved p.1 || is_some (find_unit (map procedure_of scope.now) p.1)) (fault 18 p.0)) (places_of places.now))) }
{
    if has_taken(scope, variables) {
        add_taken(scope, places, first);
    }
}

// Whether there are so many expressions.
fn counts(list: &Exprs, count: usize) -> bool
    ensures { result ≡ (count_of (terms_of list.now) == count) }
{
    let mut rest = list;
    let mut left = count;
    while let Exprs::More(_, next) = rest {
        if left == 0 {
            return false;
        }
        left -= 1;
        rest = next;
    }
    left == 0
}

// Whether a name stands with as many subscripts as it has extents, or as a whole.
fn has_rank(outline: &Outline<'_>, used: &Use<'_>) -> bool
    ensures { result ≡ has_rank (procedure_of outline.now) (use_of used.now).1 }
{
    match used.stands {
        Stands::Scalar => outline.rank(used.name) == 0,
        Stands::Element(subs) => counts(subs, outline.rank(used.name)),
        Stands::Whole => true,
    }
}

/// Adds a fault at each name that stands with another number of subscripts than it has extents.
pub(crate) fn add_misused(outline: &Outline<'_>, uses: &[Use<'_>], first: &mut First)
    ensures { first.new ≡ sooner first.old (first_of (flat_map (λ u. faults_if (not (has_rank (procedure_of outline.now) u.1)) (fault 9 u.0)) (uses_of uses.now))) }
{
    for used in uses {
        first.add_if(!has_rank(outline, used), Code::Rank, used.line);
    }
}

// Whether a statement is a CALL of a runtime name.
fn calls_runtime(act: &Act) -> bool
    ensures { result ≡ calls_runtime (act_of act.now) }
{
    match act {
        Act::Call(name, _) => is_runtime(name),
        Act::Run(_) => true,
        Act::Assign(_, _) | Act::If(_, _, _) | Act::Loop(_, _, _, _, _, _) | Act::While(_, _) => {
            false
        }
    }
}

// Whether a statement is one, where none is taken.
fn is_stray(takes_runtime: bool, act: &Act) -> bool
    ensures { result ≡ (not takes_runtime && calls_runtime (act_of act.now)) }
{
    !takes_runtime && calls_runtime(act)
}

/// Adds a fault at each CALL of a runtime name, where none is taken.
pub(crate) fn add_runtime_calls(takes_runtime: bool, stmts: &[&Stmt], first: &mut First)
    ensures { first.new ≡ sooner first.old (first_of (flat_map (λ s. faults_if (not takes_runtime && calls_runtime s.1) (fault 18 s.0)) (seen stmts.now))) }
{
    for stmt in stmts {
        first.add_if(
            is_stray(takes_runtime, &stmt.act),
            Code::ReservedName,
            stmt.line,
        );
    }
}
