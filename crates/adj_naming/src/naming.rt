//! Giving the variables of an emitted unit their names (docs/EMITTED.md, "Fresh names").

ghost use Rattle.std.specs.Prelude.{◌≡◌, ◌++◌, [], List, ℕ, IfOk, OnOk, map};
ghost use Rattle.adj_tree.specs.Code.{Var, shadow};
ghost use Rattle.def_names.specs.Reserved.{reserved};
ghost use Rattle.def_meaning.specs.Apart.{AreApart};
ghost use Rattle.def_sweep.specs.Naming.{named_for, unit_names_for};
ghost use Rattle.adj_naming.specs.Roles.{variable_of};
ghost use Rattle.adj_naming.specs.Texts.{derived_of};
ghost use Rattle.adj_sets.specs.Sets.{all_added};
ghost use Rattle.adj_naming.specs.Sets.{AreDifferent};
ghost use Rattle.adj_naming.specs.Table.{paired, table_of};

use crate::derived::Derived;
use crate::helper_set::helper_set;
use crate::joining::joined;
use crate::names::Names;
use crate::role::Helper;
use crate::taken::Taken;
use adj_sets::{NameSet, add_names, add_texts};
use adj_tree::{Items, Memory, Name};
use def_names::{intrinsic_names, runtime_names};
use std::alloc::Global;

// Adds the names of intrinsics and of runtime calls to a set.
fn add_reserved(alloc: Global, set: &mut NameSet) -> Result<(), Memory>
    ensures added { OnOk result (set.new ≡ all_added set.old reserved) }
{
    add_texts(alloc, set, &intrinsic_names())?;
    add_texts(alloc, set, &runtime_names())?;
    Ok(())
}

/// What no variable made for an emitted unit may be called: the units of these names, and what is reserved.
pub fn not_free(alloc: Global, units: &[Name]) -> Result<NameSet, Memory>
    ensures names { IfOk result (λ s. s ≡ all_added [] (units.now ++ reserved)) }
{
    let mut set = NameSet::new(alloc)?;
    add_names(alloc, &mut set, units)?;
    add_reserved(alloc, &mut set)?;
    Ok(set)
}

// The name of the shadow of each variable, which is taken from then on.
fn shadow_names(
    alloc: Global,
    derived: Derived,
    shadowed: &[Name],
    taken: &mut Taken,
) -> Result<Vec<Name>, Memory>
    ensures shadows { IfOk result (λ v. (rest : List Var) → paired (map shadow shadowed.now) v.items ++ named_for (derived_of derived) taken.new rest ≡ named_for (derived_of derived) taken.old (map shadow shadowed.now ++ rest)) }
{
    let mut made = Vec::new(alloc);
    for x in shadowed {
        let base = joined(alloc, x.bytes(), derived.mark())?;
        let name = taken.give(alloc, base.bytes())?;
        made.push(name)?;
    }
    Ok(made)
}

// The name of each helper, which is taken from then on.
fn helper_names(
    alloc: Global,
    derived: Derived,
    helpers: &[Helper],
    taken: &mut Taken,
) -> Result<Vec<Name>, Memory>
    ensures helpers { IfOk result (λ v. (rest : List Var) → paired (map variable_of helpers.now) v.items ++ named_for (derived_of derived) taken.new rest ≡ named_for (derived_of derived) taken.old (map variable_of helpers.now ++ rest)) }
{
    let mut made = Vec::new(alloc);
    for helper in helpers {
        let base = helper.wanted(alloc, derived)?;
        let name = taken.give(alloc, base.bytes())?;
        made.push(name)?;
    }
    Ok(made)
}

// The same names once more.
fn copied(alloc: Global, names: &[Name]) -> Result<Vec<Name>, Memory>
    ensures same { IfOk result (λ v. v.items ≡ names.now) }
{
    let mut made = Vec::new(alloc);
    for name in names {
        made.push(name.copy(alloc)?)?;
    }
    Ok(made)
}

/// The names in an emitted unit that has these variables, shadows of those that are to have one, and these helpers. What units
/// and reserved names leave free is told by `taken`, the set that `not_free` makes once for all units.
pub fn names(
    alloc: Global,
    derived: Derived,
    taken: &NameSet,
    variables: &[Name],
    shadowed: &[Name],
    helpers: &[Helper],
) -> Result<Names, Memory>
    requires shadowed { AreApart shadowed.now }
    requires helpers { AreDifferent (map variable_of helpers.now) }
    ensures names { IfOk result (λ n. (units : List (List ℕ)) → taken.now ≡ all_added [] (units ++ reserved) → table_of n ≡ unit_names_for (derived_of derived) variables.now units (map shadow shadowed.now ++ map variable_of helpers.now)) }
{
    let mut all = Taken::new(alloc, taken, variables)?;
    let own = copied(alloc, variables)?;
    let mut places = NameSet::new(alloc)?;
    add_names(alloc, &mut places, shadowed)?;
    let shadows = shadow_names(alloc, derived, shadowed, &mut all)?;
    let given = helper_names(alloc, derived, helpers, &mut all)?;
    Ok(Names {
        variables: Items::new(own),
        shadowed: places,
        shadows: Items::new(shadows),
        helpers: helper_set(alloc, helpers)?,
        helper_names: Items::new(given),
    })
}
