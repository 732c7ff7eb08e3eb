//! Names that are taken.

ghost use Rattle.std.specs.Prelude.{◌≡◌, ◌++◌, ◌∷◌, [], List, ℕ, length, IfOk};
ghost use Rattle.def_meaning.specs.Apart.{has_name};
ghost use Rattle.def_names.specs.Fresh.{fresh};
ghost use Rattle.adj_sets.specs.Sets.{all_added};

use crate::joining::candidate;
use adj_sets::{NameSet, add_names};
use adj_tree::{Memory, Name};
use std::alloc::Global;
use std::marker::Model;

/// Names that are taken, seen as their list: some that stand in a set that several units share, and others of a unit's own.
pub struct Taken<'a> {
    shared: &'a NameSet,
    own: NameSet,
}

impl Drop for Taken<'_> {
    fn drop(self) {
        let Taken {
            shared: _,
            own: _own,
        } = self;
    }
}

impl<'a> Model for Taken<'a> {
    ghost Value = { List (List ℕ) };

    ghost view = { λ t. t.shared.now ++ t.own };
}

impl<'a> Taken<'a> {
    /// The names of a set, and then some others, each once.
    pub fn new(alloc: Global, shared: &'a NameSet, others: &[Name]) -> Result<Taken<'a>, Memory>
        ensures names { IfOk result (λ t. t ≡ shared.now ++ all_added [] others.now) }
    {
        let mut own = NameSet::new(alloc)?;
        add_names(alloc, &mut own, others)?;
        Ok(Taken { shared, own })
    }

    // Whether the name is taken.
    fn has(&self, name: &[u8]) -> bool
        ensures found { result ≡ has_name name.now self.now }
    {
        self.shared.has(name) || self.own.has(name)
    }

    // How many there are. Sets whose counts don't fit a word would not fit the memory.
    fn count(&self) -> Result<usize, Memory>
        ensures count { IfOk result (λ n. n ≡ length self.now) }
    {
        match self.shared.len().checked_add(self.own.len()) {
            Some(count) => Ok(count),
            None => Err(Memory),
        }
    }

    /// The base, or the first of `base_1`, `base_2` and on that isn't taken (docs/EMITTED.md, "Fresh names").
    pub fn fresh(&self, alloc: Global, base: &[u8]) -> Result<Name, Memory>
        ensures name { IfOk result (λ y. y ≡ fresh base.now self.now) }
    {
        let count = self.count()?;
        for number in 0..count {
            let name = candidate(alloc, base, number)?;
            if !self.has(name.bytes()) {
                return Ok(name);
            }
        }
        let name = candidate(alloc, base, count)?;
        Ok(name)
    }

    /// A fresh name, which is taken from then on.
    pub fn give(&mut self, alloc: Global, base: &[u8]) -> Result<Name, Memory>
        ensures name { IfOk result (λ y. y ≡ fresh base.now self.old) }
        ensures taken { IfOk result (λ y. self.new ≡ self.old ++ (y ∷ [])) }
    {
        let name = self.fresh(alloc, base)?;
        self.own.add(alloc, name.bytes())?;
        Ok(name)
    }
}
