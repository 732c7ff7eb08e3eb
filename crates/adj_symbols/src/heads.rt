//! The head of a differentiation, found in a checked program.

ghost use Rattle.std.specs.Prelude.{◌≡◌, ◌++◌, Some, None, not, map, flat_map, IfOk, IfErr, OnOk};
ghost use Rattle.adj_tree.specs.View.{procedure_of, procedures_of};
ghost use Rattle.def_names.specs.Fault.{fault, faults_if, first_of, sooner};
ghost use Rattle.def_meaning.specs.Apart.{has_name};
ghost use Rattle.def_names.specs.HeadFaults.{listed_faults, first_head_fault, head_of};
ghost use Rattle.def_names.specs.Variables.{is_dummy};
ghost use Rattle.adj_symbols.specs.Checked.{IfRefused};
ghost use Rattle.adj_symbols.specs.View.{places_of};

use crate::checked::Checked;
use crate::first::First;
use crate::outline::Outline;
use crate::passes::stop_at;
use crate::places::{Placed, add_again};
use crate::scope::Scope;
use crate::written::flags_of;
use adj_tree::{Code, Fault, Flags, Head, Memory, Name};
use std::alloc::Global;

// Names that stand at no line.
fn listed<'a>(alloc: Global, names: &'a [Name]) -> Result<Vec<Placed<'a>>, Memory>
    ensures { IfOk result (λ v. places_of v.items ≡ map (λ x. (0, x)) names.now) }
{
    let mut places = Vec::new(alloc);
    for name in names {
        places.push(Placed { line: 0, name })?;
    }
    Ok(places)
}

// Adds a fault at each name that isn't a dummy.
fn add_strange(outline: &Outline<'_>, places: &[Placed<'_>], first: &mut First)
    ensures { first.new ≡ sooner first.old (first_of (flat_map (λ p. faults_if (not (is_dummy (procedure_of outline.now) p.1)) (fault 23 p.0)) (places_of places.now))) }
{
    for place in places {
        first.add_if(!outline.is_dummy(place.name), Code::ListedName, place.line);
    }
}

// Adds a fault at each listed name that isn't a dummy of the head or stands twice, and gives which dummies are listed.
fn add_listed(
    alloc: Global,
    outline: &Outline<'_>,
    names: &[Name],
    first: &mut First,
) -> Result<Flags, Memory>
    ensures faults { OnOk result (first.new ≡ sooner first.old (first_of (listed_faults (procedure_of outline.now) names.now))) }
    ensures flags { IfOk result (λ f. f ≡ map (λ d. has_name d names.now) outline.now.dummies) }
{
    let found = listed(alloc, names)?;
    let places = found.as_slice();
    add_strange(outline, places, first);
    let set = add_again(alloc, Code::ListedName, places, first)?;
    let dummies = outline.unit().dummies.as_slice();
    let flags = flags_of(alloc, dummies, &set)?;
    Ok(flags)
}

// The head in a unit of a number; adds the faults of the listed names.
fn head_listed(
    alloc: Global,
    outline: &Outline<'_>,
    unit: usize,
    vars: &[Name],
    outvars: &[Name],
    first: &mut First,
) -> Result<Head, Memory>
    ensures faults { OnOk result (first.new ≡ sooner first.old (first_of (listed_faults (procedure_of outline.now) vars.now ++ listed_faults (procedure_of outline.now) outvars.now))) }
    ensures head { IfOk result (λ h. h ≡ record { unit = unit; vars = map (λ d. has_name d vars.now) outline.now.dummies; outvars = map (λ d. has_name d outvars.now) outline.now.dummies }) }
{
    let vars = add_listed(alloc, outline, vars, first)?;
    let outvars = add_listed(alloc, outline, outvars, first)?;
    Ok(Head {
        unit,
        vars,
        outvars,
    })
}

// The same where the listed names have no fault.
fn head_in(
    alloc: Global,
    outline: &Outline<'_>,
    unit: usize,
    vars: &[Name],
    outvars: &[Name],
) -> Result<Head, Fault>
    ensures none { IfOk result (λ _. first_of (listed_faults (procedure_of outline.now) vars.now ++ listed_faults (procedure_of outline.now) outvars.now) ≡ None) }
    ensures head { IfOk result (λ h. h ≡ record { unit = unit; vars = map (λ d. has_name d vars.now) outline.now.dummies; outvars = map (λ d. has_name d outvars.now) outline.now.dummies }) }
    ensures refused { IfErr result (λ f. IfRefused f (λ e. first_of (listed_faults (procedure_of outline.now) vars.now ++ listed_faults (procedure_of outline.now) outvars.now) ≡ Some e)) }
{
    let mut first = First::new();
    let found = head_listed(alloc, outline, unit, vars, outvars, &mut first)?;
    stop_at(first.fault())?;
    Ok(found)
}

/// The unit to be differentiated, with its independent and its dependent dummies, or the first fault: no unit has the name
/// (code 22), or a listed name isn't a dummy of it or stands twice in its list (code 23). These stand at no line.
pub fn head(
    alloc: Global,
    checked: &Checked,
    name: &Name,
    vars: &[Name],
    outvars: &[Name],
) -> Result<Head, Fault>
    ensures none { IfOk result (λ _. first_head_fault (procedures_of checked.now.program) name.now vars.now outvars.now ≡ None) }
    ensures head { IfOk result (λ h. h ≡ head_of (procedures_of checked.now.program) name.now vars.now outvars.now) }
    ensures refused { IfErr result (λ f. IfRefused f (λ e. first_head_fault (procedures_of checked.now.program) name.now vars.now outvars.now ≡ Some e)) }
{
    let scope = Scope::new(alloc, checked.program().units.as_slice())?;
    let unit = scope.number(name).unwrap_or(0);
    match scope.find(name) {
        None => Err(Fault::refused(Code::MissingHead, 0)),
        Some(outline) => {
            let found = head_in(alloc, outline, unit, vars, outvars)?;
            Ok(found)
        }
    }
}
