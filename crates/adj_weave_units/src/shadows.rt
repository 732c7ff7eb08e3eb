//! Variables with their shadows.

ghost use Rattle.std.specs.Prelude.{◌≡◌, ◌++◌, ◌∷◌, [], IfOk, OnOk};
ghost use Rattle.def_sweep.specs.Marked.{names_in};
ghost use Rattle.def_sweep.specs.MarkedProgram.{shadows_behind};
ghost use Rattle.def_sweep.specs.MarkedAdjoint.{shadow_flags};
ghost use Rattle.def_sweep.specs.Declared.{unmarked};
ghost use Rattle.adj_naming.specs.Table.{table_of};
ghost use Rattle.adj_sweep_assignment.specs.View.{marks_of};

use adj_naming::names::Names;
use adj_sweep_assignment::Marking;
use adj_tree::{Memory, Name};
use std::alloc::Global;

// The name behind the others, if it has a shadow.
fn push_shadowed(
    alloc: Global,
    marking: &Marking<'_>,
    x: &Name,
    made: &mut Vec<Name>,
) -> Result<(), Memory>
    ensures names { OnOk result (made.new.items ≡ made.old.items ++ names_in (marks_of marking.now).shadowed (x.now ∷ [])) }
{
    if marking.shadowed(x) {
        made.push(x.copy(alloc)?)?;
    }
    Ok(())
}

/// Those of the variables that have a shadow, in order.
pub fn shadowed(
    alloc: Global,
    marking: &Marking<'_>,
    variables: &[Name],
) -> Result<Vec<Name>, Memory>
    ensures names { IfOk result (λ v. v.items ≡ names_in (marks_of marking.now).shadowed variables.now) }
{
    let mut made = Vec::new(alloc);
    for x in variables {
        push_shadowed(alloc, marking, x, &mut made)?;
    }
    Ok(made)
}

// The name, and that of its shadow, if it has one, behind the others.
fn push_with_shadow(
    alloc: Global,
    n: &Names,
    marking: &Marking<'_>,
    x: &Name,
    made: &mut Vec<Name>,
) -> Result<(), Memory>
    ensures names { OnOk result (made.new.items ≡ made.old.items ++ shadows_behind (marks_of marking.now).shadowed (table_of n.now) (x.now ∷ [])) }
{
    made.push(x.copy(alloc)?)?;
    if marking.shadowed(x) {
        made.push(n.shadow(alloc, x)?)?;
    }
    Ok(())
}

/// The dummies, each followed by its shadow, if it has one.
pub fn with_shadows(
    alloc: Global,
    n: &Names,
    marking: &Marking<'_>,
    dummies: &[Name],
) -> Result<Vec<Name>, Memory>
    ensures names { IfOk result (λ v. v.items ≡ shadows_behind (marks_of marking.now).shadowed (table_of n.now) dummies.now) }
{
    let mut made = Vec::new(alloc);
    for x in dummies {
        push_with_shadow(alloc, n, marking, x, &mut made)?;
    }
    Ok(made)
}

// The name behind the others, unless it is marked.
fn push_unmarked(
    alloc: Global,
    name: &Name,
    marked: bool,
    made: &mut Vec<Name>,
) -> Result<(), Memory>
    ensures names { OnOk result (made.new.items ≡ made.old.items ++ unmarked (name.now ∷ []) (marked ∷ [])) }
{
    if !marked {
        made.push(name.copy(alloc)?)?;
    }
    Ok(())
}

/// The names whose mark is missing.
pub fn unmarked(alloc: Global, names: &[Name], marks: &[bool]) -> Result<Vec<Name>, Memory>
    ensures names { IfOk result (λ v. v.items ≡ unmarked names.now marks.now) }
{
    let mut made = Vec::new(alloc);
    for (k, name) in names.iter().enumerate() {
        let marked = marks.get(k).copied().unwrap_or(false);
        push_unmarked(alloc, name, marked, &mut made)?;
    }
    Ok(made)
}

/// Which of the variables have a shadow.
pub fn shadow_flags(
    alloc: Global,
    marking: &Marking<'_>,
    names: &[Name],
) -> Result<Vec<bool>, Memory>
    ensures flags { IfOk result (λ v. v.items ≡ shadow_flags (marks_of marking.now).shadowed names.now) }
{
    let mut flags = Vec::new(alloc);
    for name in names {
        flags.push(marking.shadowed(name))?;
    }
    Ok(flags)
}
