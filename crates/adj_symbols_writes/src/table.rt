//! Names looked up in constant time.

ghost use Rattle.std.specs.Prelude.{◌≡◌, [], ℕ, List, map, IfOk, OnErr, OnOk};
ghost use Rattle.adj_tree.specs.View.{procedure_of};
ghost use Rattle.adj_symbols_writes.specs.Graph.{number_from};
ghost use Rattle.adj_symbols_writes.specs.Table.{value_of, with_value};

use adj_tree::{Memory, Name, Unit};
use indexmap::IndexMap;
use std::alloc::Global;
use std::marker::Model;

/// A number for each of some different names, seen as their list in the order in which they were added.
pub struct Numbers<'a> {
    numbers: IndexMap<&'a [u8], usize>,
}

impl Drop for Numbers<'_> {
    fn drop(self) {
        let Numbers { numbers: _numbers } = self;
    }
}

impl<'a> Model for Numbers<'a> {
    ghost Value = { List (List ℕ × ℕ) };

    ghost view = { λ s. map (λ e. (e.0.now, e.1)) s.numbers.entries };
}

impl<'a> Numbers<'a> {
    /// No names.
    pub fn new(alloc: Global) -> Numbers<'a>
        ensures empty { result ≡ [] }
    {
        Numbers {
            numbers: IndexMap::new(alloc),
        }
    }

    /// The number of a name.
    pub fn get(&self, name: &Name) -> Option<usize>
        ensures number { result ≡ value_of name.now self.now }
    {
        self.numbers.get(name.bytes()).copied()
    }

    /// Adds a number where the name has none.
    pub fn add(&mut self, name: &'a Name, number: usize) -> Result<(), Memory>
        ensures unchanged { OnErr result (self.new ≡ self.old) }
        ensures added { OnOk result (self.new ≡ with_value self.old name.now number) }
    {
        if self.get(name).is_none() {
            self.numbers.insert(name.bytes(), number)?;
        }
        Ok(())
    }
}

/// The number of the first unit of each name.
pub fn unit_numbers<'a>(alloc: Global, units: &'a [Unit]) -> Result<Numbers<'a>, Memory>
    ensures numbers { IfOk result (λ r. (x : List ℕ) → value_of x r ≡ number_from 0 (map procedure_of units.now) x) }
{
    let mut numbers = Numbers::new(alloc);
    for (number, unit) in units.iter().enumerate() {
        numbers.add(&unit.name, number)?;
    }
    Ok(numbers)
}
