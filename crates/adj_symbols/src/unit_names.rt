//! All faults of the names in units, and the variables of units.

ghost use Rattle.std.specs.Prelude.{◌≡◌, ◌++◌, [], ◌∷◌, ℕ, List, map, IfOk, OnOk, if◌then◌else◌};
ghost use Rattle.adj_tree.specs.View.{procedure_of};
ghost use Rattle.def_meaning.specs.Apart.{has_name};
ghost use Rattle.def_names.specs.Variables.{places, first_places, variables};
ghost use Rattle.def_names.specs.NameFaults.{undeclared, declared_twice, misused, passed_in, faults_of_names, name_faults};
ghost use Rattle.def_names.specs.Fault.{first_of, sooner};
ghost use Rattle.adj_symbols.specs.Rules.{rules_of};
ghost use Rattle.adj_sets.specs.Sets.{with_name};
ghost use Rattle.adj_symbols.specs.View.{place_of, places_of, names_at};

use crate::extents::{add_bad_extents, add_extent_places};
use crate::first::First;
use crate::name_faults::{
    add_declared, add_dummies, add_misused, add_reserved_variables, add_runtime_calls,
    add_undeclared, add_undeclared_variables, add_used,
};
use crate::outline::Outline;
use crate::places::{Placed, add_again};
use crate::rules::Rules;
use crate::scope::Scope;
use crate::standing::names_in;
use adj_sets::BorrowedNames;
use adj_tree::{Code, Memory, NameList, Refusal, Unit};
use std::alloc::Global;

// The names in a unit, with their lines.
fn unit_places<'a>(alloc: Global, outline: &Outline<'a>) -> Result<Vec<Placed<'a>>, Memory>
    ensures { IfOk result (λ v. places_of v.items ≡ places (procedure_of outline.now)) }
{
    let unit = outline.unit();
    let mut found = Vec::new(alloc);
    add_dummies(unit, &mut found)?;
    add_declared(unit, &mut found)?;
    let uses = names_in(alloc, true, outline.statements())?;
    add_used(uses.as_slice(), &mut found)?;
    Ok(found)
}

// Adds a place where its name isn't known yet.
fn add_new<'a>(
    names: &mut BorrowedNames<'a>,
    place: &Placed<'a>,
    found: &mut Vec<Placed<'a>>,
) -> Result<(), Memory>
    ensures names { OnOk result (names.new ≡ with_name names.old place.now.name.now) }
    ensures found { OnOk result (places_of found.new.items ≡ places_of found.old.items ++ (if has_name place.now.name.now names.old then [] else place_of place.now ∷ [])) }
{
    if names.insert(place.name)? {
        found.push(Placed {
            line: place.line,
            name: place.name,
        })?;
    }
    Ok(())
}

// Each name once, where it first stands.
fn first_places<'a>(alloc: Global, places: &[Placed<'a>]) -> Result<Vec<Placed<'a>>, Memory>
    ensures { IfOk result (λ v. places_of v.items ≡ first_places (places_of places.now)) }
{
    let mut names = BorrowedNames::new(alloc)?;
    let mut found = Vec::new(alloc);
    for place in places {
        add_new(&mut names, place, &mut found)?;
    }
    Ok(found)
}

// The names at these places.
fn names_of(alloc: Global, places: &[Placed<'_>]) -> Result<NameList, Memory>
    ensures { IfOk result (λ v. v ≡ names_at (places_of places.now)) }
{
    let mut names = Vec::new(alloc);
    for place in places {
        names.push(place.name.copy(alloc)?)?;
    }
    Ok(NameList::new(names))
}

// Adds a fault at each name that isn't declared and is no integer by its first letter.
fn add_all_undeclared(
    alloc: Global,
    outline: &Outline<'_>,
    variables: &[Placed<'_>],
    found: &[Placed<'_>],
    first: &mut First,
) -> Result<(), Memory>
    requires variables { places_of variables.now ≡ first_places (places_of found.now) }
    requires found { places_of found.now ≡ places (procedure_of outline.now) }
    ensures { OnOk result (first.new ≡ sooner first.old (first_of (undeclared (procedure_of outline.now)))) }
{
    add_undeclared_variables(outline, variables, found, first);
    let mut extents = Vec::new(alloc);
    add_extent_places(outline.unit().decls.as_slice(), &mut extents)?;
    add_undeclared(outline, extents.as_slice(), first);
    Ok(())
}

// Adds a fault at each dummy and at each declaration that repeats one.
fn add_declared_twice(alloc: Global, unit: &Unit, first: &mut First) -> Result<(), Memory>
    ensures { OnOk result (first.new ≡ sooner first.old (first_of (declared_twice (procedure_of unit.now)))) }
{
    let mut dummies = Vec::new(alloc);
    add_dummies(unit, &mut dummies)?;
    add_again(alloc, Code::Redeclared, dummies.as_slice(), first)?;
    let mut declared = Vec::new(alloc);
    add_declared(unit, &mut declared)?;
    add_again(alloc, Code::Redeclared, declared.as_slice(), first)?;
    Ok(())
}

// Adds a fault at each name that stands with another number of subscripts than it has extents.
fn add_all_misused(
    alloc: Global,
    rules: Rules,
    outline: &Outline<'_>,
    first: &mut First,
) -> Result<(), Memory>
    ensures { OnOk result (first.new ≡ sooner first.old (first_of (misused (rules_of rules) (procedure_of outline.now)))) }
{
    let uses = names_in(alloc, rules.takes_runtime, outline.statements())?;
    add_misused(outline, uses.as_slice(), first);
    Ok(())
}

// Adds a fault where the first variable stands that is one too many.
fn add_too_many(limit: Option<usize>, variables: &[Placed<'_>], first: &mut First)
    ensures { first.new ≡ sooner first.old (first_of (passed_in limit (places_of variables.now))) }
{
    let Some(limit) = limit else { return };
    if let Some(place) = variables.get(limit) {
        first.add(Refusal::passed(limit as u64, place.line));
    }
}

// The variables of a unit whose tables are known.
fn variables_in(alloc: Global, outline: &Outline<'_>) -> Result<NameList, Memory>
    ensures { IfOk result (λ v. v ≡ variables (procedure_of outline.now)) }
{
    let found = unit_places(alloc, outline)?;
    let chosen = first_places(alloc, found.as_slice())?;
    names_of(alloc, chosen.as_slice())
}

/// The variables of a unit: dummies, then declared locals, then implicit locals by first appearance.
pub fn variables(alloc: Global, unit: &Unit) -> Result<NameList, Memory>
    ensures variables { IfOk result (λ v. v ≡ variables (procedure_of unit.now)) }
{
    let outline = Outline::new(alloc, unit)?;
    variables_in(alloc, &outline)
}

// Adds the faults of the names in a unit, and gives its variables.
fn add_unit_names(
    alloc: Global,
    rules: Rules,
    scope: &Scope<'_>,
    outline: &Outline<'_>,
    first: &mut First,
) -> Result<NameList, Memory>
    ensures faults { OnOk result (first.new ≡ sooner first.old (first_of (faults_of_names (rules_of rules) (map procedure_of scope.now) (procedure_of outline.now)))) }
    ensures variables { IfOk result (λ v. v ≡ variables (procedure_of outline.now)) }
{
    let found = unit_places(alloc, outline)?;
    let places = found.as_slice();
    let chosen = first_places(alloc, places)?;
    let variables = chosen.as_slice();
    let unit = outline.unit();
    add_all_undeclared(alloc, outline, variables, places, first)?;
    add_declared_twice(alloc, unit, first)?;
    add_all_misused(alloc, rules, outline, first)?;
    add_bad_extents(outline, unit.decls.as_slice(), first);
    add_reserved_variables(scope, variables, places, first);
    add_runtime_calls(rules.takes_runtime, outline.statements(), first);
    add_too_many(rules.variables, variables, first);
    let names = names_of(alloc, variables)?;
    Ok(names)
}

/// Adds the faults of all names, and gives the variables of each unit.
pub(crate) fn add_names(
    alloc: Global,
    rules: Rules,
    scope: &Scope<'_>,
    first: &mut First,
) -> Result<Vec<NameList>, Memory>
    ensures faults { OnOk result (first.new ≡ sooner first.old (first_of (name_faults (rules_of rules) (map procedure_of scope.now)))) }
    ensures variables { IfOk result (λ v. v.items ≡ map variables (map procedure_of scope.now)) }
{
    let mut variables = Vec::new(alloc);
    for outline in scope.outlines() {
        variables.push(add_unit_names(alloc, rules, scope, outline, first)?)?;
    }
    Ok(variables)
}
