//! Names in the order in which they came, each once.

ghost use Rattle.std.specs.Prelude.{◌≡◌, List, ℕ, [], false, IfOk, OnOk};
ghost use Rattle.def_meaning.specs.Apart.{has_name};
ghost use Rattle.adj_sets.specs.Sets.{with_added};

use adj_sets::NameSet;
use adj_tree::{Memory, Name};
use std::alloc::Global;
use std::marker::Model;
use std::mem;

/// Names, none of them twice, seen as their list. Look-ups take constant time.
pub struct Once {
    known: NameSet,
    names: Vec<Name>,
    ghost same: { names.items ≡ known },
}

impl Drop for Once {
    fn drop(self) {
        let Once {
            known: _known,
            names: _names,
        } = self;
    }
}

impl Model for Once {
    ghost Value = { List (List ℕ) };

    ghost view = { λ o. o.names.items };
}

impl Once {
    /// No names.
    pub fn new(alloc: Global) -> Result<Once, Memory>
        ensures empty { IfOk result (λ s. s ≡ []) }
    {
        let known = NameSet::new(alloc)?;
        Ok(Once {
            known,
            names: Vec::new(alloc),
        })
    }

    /// The names.
    pub fn as_slice(&self) -> &[Name]
        ensures names { result.now ≡ self.now }
    {
        self.names.as_slice()
    }

    /// Whether the name is there.
    pub fn has(&self, name: &Name) -> bool
        ensures found { result ≡ has_name name.now self.now }
    {
        self.known.has(name.bytes())
    }

    /// Adds the name as the last one, unless it is there. After an error there are none.
    #[tactic(auto, using(crate::proofs::Adding::added_there, crate::proofs::Adding::added_behind))]
    pub fn add(&mut self, alloc: Global, name: &Name) -> Result<(), Memory>
        ensures added { OnOk result (self.new ≡ with_added name.now self.old) }
    {
        if self.has(name) {
            return Ok(());
        }
        let old = mem::replace(self, Once::new(alloc)?);
        *self = old.with(alloc, name)?;
        Ok(())
    }

    // With one more name, which isn't there.
    #[tactic(auto, using(crate::proofs::Adding::added_there, crate::proofs::Adding::added_behind))]
    fn with(self, alloc: Global, name: &Name) -> Result<Once, Memory>
        requires absent { has_name name.now self ≡ false }
        ensures added { IfOk result (λ o. o ≡ with_added name.now self) }
    {
        let Once {
            mut known,
            mut names,
        } = self;
        known.add(alloc, name.bytes())?;
        names.push(name.copy(alloc)?)?;
        Ok(Once { known, names })
    }
}
