//! Sets of helpers.

ghost use Rattle.std.specs.Prelude.{◌≡◌, ◌++◌, ◌∷◌, [], List, map, position, is_some, IfOk, OnOk, if◌then◌else◌};
ghost use Rattle.adj_tree.specs.Code.{var_eq};
ghost use Rattle.adj_naming.specs.declared.role.Helper.{Helper};
ghost use Rattle.adj_naming.specs.Roles.{variable_of};
ghost use Rattle.adj_naming.specs.Sets.{has_variable, AreDifferent};

use crate::role::Helper;
use adj_tree::Memory;
use indexmap::IndexSet;
use std::alloc::Global;
use std::marker::Model;

/// Helpers in the order in which they came, none of them twice, seen as their list. Look-ups take constant time.
pub struct HelperSet {
    helpers: IndexSet<Helper>,
}

impl Drop for HelperSet {
    fn drop(self) {
        let HelperSet { helpers: _helpers } = self;
    }
}

impl Model for HelperSet {
    ghost Value = { List Helper };

    ghost view = { λ s. s.helpers.keys };
}

impl HelperSet {
    /// No helpers.
    pub fn new(alloc: Global) -> HelperSet
        ensures empty { result ≡ [] }
    {
        HelperSet {
            helpers: IndexSet::new(alloc),
        }
    }

    /// Where the helper stands.
    pub fn place(&self, helper: Helper) -> Option<usize>
        ensures place { result ≡ position (var_eq (variable_of helper)) (map variable_of self.now) }
        ensures found { is_some result ≡ has_variable (variable_of helper) (map variable_of self.now) }
    {
        self.helpers.get_index_of(&helper)
    }

    /// Adds the helper as the last one, unless it is there.
    pub fn add(&mut self, helper: Helper) -> Result<(), Memory>
        ensures added { OnOk result (self.new ≡ (if has_variable (variable_of helper) (map variable_of self.old) then self.old else self.old ++ (helper ∷ []))) }
    {
        self.helpers.insert(helper)?;
        Ok(())
    }
}

/// The set of some helpers, which are different.
pub fn helper_set(alloc: Global, helpers: &[Helper]) -> Result<HelperSet, Memory>
    requires different { AreDifferent (map variable_of helpers.now) }
    ensures helpers { IfOk result (λ s. s ≡ helpers.now) }
{
    let mut set = HelperSet::new(alloc);
    for helper in helpers {
        set.add(*helper)?;
    }
    Ok(set)
}
