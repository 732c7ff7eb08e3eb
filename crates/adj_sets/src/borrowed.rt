//! Sets of names that stand elsewhere.

ghost use Rattle.std.specs.Prelude.{◌≡◌, [], ℕ, List, not, map, length, position, IfOk, OnOk};
ghost use Rattle.adj_tree.specs.Code.{name_eq};
ghost use Rattle.def_meaning.specs.Apart.{has_name};
ghost use Rattle.def_names.specs.Variables.{Name};
ghost use Rattle.adj_sets.specs.Sets.{with_name};

use adj_tree::{Memory, Name, boxed};
use indexmap::IndexSet;
use std::alloc::Global;
use std::marker::Model;

/// Names in the order in which they came, none of them twice, seen as their list. Look-ups take constant time, and no text is copied.
pub struct BorrowedNames<'a> {
    names: Box<IndexSet<&'a [u8]>>,
}

impl Drop for BorrowedNames<'_> {
    fn drop(self) {
        let BorrowedNames { names: _names } = self;
    }
}

impl<'a> Model for BorrowedNames<'a> {
    ghost Value = { List (List ℕ) };

    ghost view = { λ s. map (λ k. k.now) s.names.value.keys };
}

impl<'a> BorrowedNames<'a> {
    /// No names.
    pub fn new(alloc: Global) -> Result<BorrowedNames<'a>, Memory>
        ensures empty { IfOk result (λ s. s ≡ []) }
    {
        let names = boxed(alloc, IndexSet::new(alloc))?;
        Ok(BorrowedNames { names })
    }

    /// How many there are.
    pub fn len(&self) -> usize
        ensures len { result ≡ length self.now }
    {
        self.names.len()
    }

    /// Whether the name is among them.
    pub fn contains(&self, name: &Name) -> bool
        ensures contains { result ≡ has_name name.now self.now }
    {
        self.names.contains(name.bytes())
    }

    /// Where the name stands among them.
    pub fn place(&self, name: &Name) -> Option<usize>
        ensures place { result ≡ position (name_eq name.now) self.now }
    {
        self.names.get_index_of(name.bytes())
    }

    /// Adds a name behind the others where it isn't among them, and says whether it was added.
    pub fn insert(&mut self, name: &'a Name) -> Result<bool, Memory>
        ensures added { IfOk result (λ added. added ≡ not (has_name name.now self.old)) }
        ensures names { OnOk result (self.new ≡ with_name self.old name.now) }
    {
        let added = self.names.insert(name.bytes())?;
        Ok(added)
    }

    /// Takes the name back that was inserted last, if that added it.
    pub fn take_back(&mut self, added: bool)
        ensures back { (xs : List Name) (x : Name) → self.old ≡ with_name xs x → added ≡ not (has_name x xs) → self.new ≡ xs }
    {
        if added {
            self.names.pop();
        }
    }
}
