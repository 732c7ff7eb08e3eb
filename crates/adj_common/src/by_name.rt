//! Places by the names that stand there.

ghost use Rattle.std.specs.Prelude.{◌≡◌, List, ℕ, map, length, position, IfOk, OnOk};
ghost use Rattle.adj_tree.specs.Code.{name_eq};
ghost use Rattle.adj_common.specs.Tables.{no_names, add_at, noted, tabled};

use adj_sets::NameSet;
use adj_tree::{Memory, Name};
use std::alloc::Global;
use std::marker::Model;

/// Names, each once in the order in which they first stand, and the places of each.
pub(crate) struct ByName {
    names: NameSet,
    rows: Vec<Vec<usize>>,
}

impl Drop for ByName {
    fn drop(self) {
        let ByName {
            names: _names,
            rows: _rows,
        } = self;
    }
}

impl Model for ByName {
    ghost use Rattle.std.specs.Prelude.{map};
    ghost use Rattle.adj_common.specs.Tables.{Table};

    ghost Value = { Table };

    ghost view = { λ t. record { names = t.names; rows = map (λ r. r.items) t.rows.items } };
}

impl ByName {
    // No names.
    fn empty(alloc: Global) -> Result<ByName, Memory>
        ensures empty { IfOk result (λ t. t ≡ no_names) }
    {
        let names = NameSet::new(alloc)?;
        Ok(ByName {
            names,
            rows: Vec::new(alloc),
        })
    }

    // Adds a place to a row.
    fn add_at(&mut self, at: usize, place: usize) -> Result<(), Memory>
        ensures added { OnOk result (self.new ≡ record self.old { rows = add_at at place self.old.rows }) }
    {
        if at >= self.rows.len() {
            return Ok(());
        }
        self.rows[at].push(place)?;
        Ok(())
    }

    // Notes that a name stands at a place.
    fn note(&mut self, alloc: Global, name: &Name, place: usize) -> Result<(), Memory>
        ensures noted { OnOk result (self.new ≡ noted self.old name.now place) }
    {
        match self.names.place(name.bytes()) {
            Some(at) => self.add_at(at, place),
            None => {
                self.names.add(alloc, name.bytes())?;
                let mut row = Vec::new(alloc);
                row.push(place)?;
                self.rows.push(row)?;
                Ok(())
            }
        }
    }

    /// The places of each of some names.
    pub(crate) fn new(alloc: Global, names: &[&Name]) -> Result<ByName, Memory>
        ensures table { IfOk result (λ t. t ≡ tabled (map (λ n. n.now) names.now)) }
    {
        let mut table = ByName::empty(alloc)?;
        for (place, name) in names.iter().enumerate() {
            table.note(alloc, name, place)?;
        }
        Ok(table)
    }

    /// How many names there are.
    pub(crate) fn len(&self) -> usize
        ensures len { result ≡ length self.now.rows }
    {
        self.rows.len()
    }

    /// The rows of places, by the names.
    pub(crate) fn rows(&self) -> &[Vec<usize>]
        ensures rows { map (λ r. r.items) result.now ≡ self.now.rows }
    {
        self.rows.as_slice()
    }

    /// Where a name stands among them.
    pub(crate) fn place(&self, name: &Name) -> Option<usize>
        ensures place { result ≡ position (name_eq name.now) self.now.names }
    {
        self.names.place(name.bytes())
    }
}
