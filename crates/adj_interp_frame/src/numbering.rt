//! Numbers for names.

ghost use Rattle.std.specs.Prelude.{◌≡◌, ◌<◌, ◌≤◌, ◌+◌, List, ℕ, [], map, length, slice_index_or, IfOk, OnOk};
ghost use Rattle.def_meaning.specs.Apart.{AreApart};
ghost use Rattle.adj_interp_frame.specs.Numbered.{Extends};

use adj_tree::{Items, Memory, Name, NameList};
use indexmap::IndexSet;
use std::alloc::Global;
use std::marker::Model;

/// Different names in the order in which they came, seen as their list. The number of a name is its place.
pub struct Numbering<'a> {
    names: IndexSet<&'a [u8]>,
}

impl Drop for Numbering<'_> {
    fn drop(self) {
        let Numbering { names: _names } = self;
    }
}

impl<'a> Model for Numbering<'a> {
    ghost Value = { List (List ℕ) };

    ghost view = { λ n. map (λ k. k.now) n.names.keys };
}

impl<'a> Numbering<'a> {
    /// No names.
    pub fn new(alloc: Global) -> Numbering<'a>
        ensures empty { result ≡ [] }
    {
        Numbering {
            names: IndexSet::new(alloc),
        }
    }

    /// The number of a name, which comes behind the others where it has none.
    pub fn number(&mut self, name: &'a Name) -> Result<usize, Memory>
        ensures extends { OnOk result (Extends self.old self.new) }
        ensures within { IfOk result (λ i. i < length self.new) }
        ensures few { OnOk result (length self.new ≤ length self.old + 1) }
        ensures named { IfOk result (λ i. slice_index_or self.new i [] ≡ name.now) }
        ensures apart { OnOk result (AreApart self.old → AreApart self.new) }
    {
        let (number, _) = self.names.insert_full(name.bytes())?;
        Ok(number)
    }

    /// How many names there are.
    pub(crate) fn len(&self) -> usize
        ensures { result ≡ length self.now }
    {
        self.names.len()
    }

    /// The names, with copies of their bytes.
    pub(crate) fn list(&self, alloc: Global) -> Result<NameList, Memory>
        ensures same { IfOk result (λ names. names ≡ self.now) }
        ensures apart { IfOk result (λ names. AreApart names) }
    {
        let mut names = Vec::new(alloc);
        for name in self.names.as_slice() {
            names.push(Name::from_slice(alloc, name)?)?;
        }
        Ok(Items::new(names))
    }
}
