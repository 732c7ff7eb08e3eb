//! The names of an emitted unit.

ghost use Rattle.std.specs.Prelude.{◌≡◌, IfOk, slice_get, unwrap_or};
ghost use Rattle.adj_tree.specs.Code.{shadow};
ghost use Rattle.def_sweep.specs.Naming.{outside};
ghost use Rattle.adj_naming.specs.Roles.{variable_of};

use crate::helper_set::HelperSet;
use crate::joining::joined;
use crate::role::{Helper, Role};
use adj_sets::NameSet;
use adj_tree::{Memory, Name, NameList};
use std::alloc::Global;

/// The names of one emitted unit: its own variables, the shadows of those that have one and the helpers, each list in the order
/// of its names. What the unit doesn't have gets a name that no text has. Look-ups take constant time.
pub struct Names {
    pub variables: NameList,
    pub shadowed: NameSet,
    pub shadows: NameList,
    pub helpers: HelperSet,
    pub helper_names: NameList,
}

impl Drop for Names {
    fn drop(self) {
        let Names {
            variables: _variables,
            shadowed: _shadowed,
            shadows: _shadows,
            helpers: _helpers,
            helper_names: _helper_names,
        } = self;
    }
}

impl Names {
    ghost use Rattle.std.specs.Prelude.{◌≡◌, IfOk};
    ghost use Rattle.adj_tree.specs.Code.{shadow, helper};
    ghost use Rattle.def_sweep.specs.Naming.{name_in};
    ghost use Rattle.adj_naming.specs.Roles.{role_of};
    ghost use Rattle.adj_naming.specs.Table.{table_of};

    /// The name of the shadow of a variable.
    pub fn shadow(&self, alloc: Global, x: &Name) -> Result<Name, Memory>
        ensures name { IfOk result (λ y. y ≡ name_in (table_of self.now) (shadow x.now)) }
    {
        match self.shadowed.place(x.bytes()) {
            Some(place) => {
                let name = shadow_at(alloc, self.shadows.as_slice(), place, x)?;
                Ok(name)
            }
            None => {
                let name = outside_shadow(alloc, x)?;
                Ok(name)
            }
        }
    }

    /// The name of the helper of this role and number.
    pub fn helper(&self, alloc: Global, role: Role, number: usize) -> Result<Name, Memory>
        ensures name { IfOk result (λ y. y ≡ name_in (table_of self.now) (helper (role_of role) number)) }
    {
        let helper = Helper { role, number };
        match self.helpers.place(helper) {
            Some(place) => {
                let name = helper_at(alloc, self.helper_names.as_slice(), place, helper)?;
                Ok(name)
            }
            None => {
                let name = helper.outside(alloc)?;
                Ok(name)
            }
        }
    }
}

// The name at the place; where there is none, one outside all texts.
fn shadow_at(alloc: Global, names: &[Name], place: usize, x: &Name) -> Result<Name, Memory>
    ensures name { IfOk result (λ y. y ≡ unwrap_or (slice_get names.now place) (outside (shadow x.now))) }
{
    match names.get(place) {
        Some(name) => { name.copy(alloc) }
        None => { outside_shadow(alloc, x) }
    }
}

// A name that no text has, for the shadow of a variable.
fn outside_shadow(alloc: Global, x: &Name) -> Result<Name, Memory>
    ensures name { IfOk result (λ y. y ≡ outside (shadow x.now)) }
{
    joined(alloc, &[0, 1], x.bytes())
}

// The same of a helper.
fn helper_at(alloc: Global, names: &[Name], place: usize, helper: Helper) -> Result<Name, Memory>
    ensures name { IfOk result (λ y. y ≡ unwrap_or (slice_get names.now place) (outside (variable_of helper))) }
{
    match names.get(place) {
        Some(name) => { name.copy(alloc) }
        None => { helper.outside(alloc) }
    }
}
