//! Sets of names.

ghost use Rattle.std.specs.Prelude.{◌≡◌, List, ℕ, [], map, length, position, is_some, IfOk, OnErr, OnOk};
ghost use Rattle.adj_tree.specs.Code.{name_eq};
ghost use Rattle.def_meaning.specs.Apart.{has_name};
ghost use Rattle.adj_sets.specs.Sets.{with_added, all_added};

use adj_tree::{Memory, Name, boxed};
use indexmap::IndexSet;
use std::alloc::Global;
use std::marker::Model;

/// Names in the order in which they came, none of them twice, seen as their list. Look-ups take constant time.
pub struct NameSet {
    texts: Box<IndexSet<Vec<u8>>>,
}

impl Drop for NameSet {
    fn drop(self) {
        let NameSet { texts: _texts } = self;
    }
}

impl Model for NameSet {
    ghost Value = { List (List ℕ) };

    ghost view = { λ s. map (λ k. k.items) s.texts.value.keys };
}

impl NameSet {
    /// No names.
    pub fn new(alloc: Global) -> Result<NameSet, Memory>
        ensures empty { IfOk result (λ s. s ≡ []) }
    {
        let texts = boxed(alloc, IndexSet::new(alloc))?;
        Ok(NameSet { texts })
    }

    /// How many names there are.
    pub fn len(&self) -> usize
        ensures len { result ≡ length self.now }
    {
        self.texts.len()
    }

    /// Whether the name is there.
    pub fn has(&self, name: &[u8]) -> bool
        ensures found { result ≡ has_name name.now self.now }
    {
        self.texts.contains(name)
    }

    /// Where the name stands.
    pub fn place(&self, name: &[u8]) -> Option<usize>
        ensures place { result ≡ position (name_eq name.now) self.now }
        ensures found { is_some result ≡ has_name name.now self.now }
    {
        self.texts.get_index_of(name)
    }

    /// Adds the name as the last one, unless it is there.
    pub fn add(&mut self, alloc: Global, name: &[u8]) -> Result<(), Memory>
        ensures unchanged { OnErr result (self.new ≡ self.old) }
        ensures added { OnOk result (self.new ≡ with_added name.now self.old) }
    {
        self.texts.insert(name.to_vec(alloc)?)?;
        Ok(())
    }
}

/// Adds the names to a set.
pub fn add_names(alloc: Global, set: &mut NameSet, names: &[Name]) -> Result<(), Memory>
    ensures added { OnOk result (set.new ≡ all_added set.old names.now) }
{
    for name in names {
        set.add(alloc, name.bytes())?;
    }
    Ok(())
}

/// Adds names of these texts to a set.
pub fn add_texts(alloc: Global, set: &mut NameSet, texts: &[&[u8]]) -> Result<(), Memory>
    ensures added { OnOk result (set.new ≡ all_added set.old (map (λ t. t.now) texts.now)) }
{
    for text in texts {
        set.add(alloc, text)?;
    }
    Ok(())
}
