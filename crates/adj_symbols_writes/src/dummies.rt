//! The dummies of units, numbered one after another.

ghost use Rattle.std.specs.Prelude.{◌≡◌, ◌+◌, ◌<◌, ◌^◌, Some, None, map, length, IfOk, OnOk, MatchOption};
ghost use Rattle.std.specs.Coded.{codes};
ghost use Rattle.adj_tree.specs.contracts.unit.Unit as unit_row;
ghost use Rattle.adj_tree.specs.View.{procedure_of};
ghost use Rattle.def_meaning.specs.LeastSet.{dummies_in_all};
ghost use Rattle.adj_symbols_writes.specs.Graph.{Placed, placed_of, numbered, place_from, found_at, AreNodes};
ghost use Rattle.adj_symbols_writes.specs.Table.{value_of};

use crate::table::Numbers;
use adj_tree::{Memory, Name, Unit};
use std::alloc::Global;
use std::marker::Model;

/// A unit and the nodes of its dummies, which are numbered from `first` on, by name.
#[derive(Drop)]
pub(crate) struct Dummies<'a> {
    unit: &'a Unit,
    first: usize,
    nodes: Numbers<'a>,
}

impl<'a> Model for Dummies<'a> {
    ghost Value = { Placed };

    ghost coded = { Prim.hlevel (codes, unit_row.the_row.coded) };

    ghost view = { λ d. record { unit = d.unit.now; first = d.first } };

    ghost invariant = { λ d. AreNodes d.first d.unit.now.dummies d.nodes };
}

impl<'a> Dummies<'a> {
    // The dummies of a unit, behind those of the units before it.
    fn new(alloc: Global, unit: &'a Unit, all: &mut Vec<&'a Name>) -> Result<Dummies<'a>, Memory>
        ensures placed { IfOk result (λ d. d ≡ record { unit = unit.now; first = length all.old.items }) }
        ensures count { OnOk result (length all.new.items ≡ length all.old.items + length unit.now.dummies) }
    {
        let first = all.len();
        let mut nodes = Numbers::new(alloc);
        for name in unit.dummies.as_slice() {
            nodes.add(name, all.len())?;
            all.push(name)?;
        }
        Ok(Dummies { unit, first, nodes })
    }

    /// The unit itself.
    pub(crate) fn unit(&self) -> &'a Unit
        ensures unit { result.now ≡ self.now.unit }
    {
        self.unit
    }

    /// The node of the first dummy.
    pub(crate) fn first(&self) -> usize
        ensures first { result ≡ self.now.first }
        ensures room { result + length self.now.unit.dummies < 2 ^ 64 }
    {
        self.first
    }

    /// The node of the first dummy of a name.
    pub(crate) fn node(&self, name: &Name) -> Option<usize>
        ensures node { result ≡ place_from self.now.first self.now.unit.dummies name.now }
    {
        self.nodes.get(name)
    }
}

/// The dummies of all units, and how many there are.
pub(crate) struct Nodes<'a> {
    pub units: Vec<Dummies<'a>>,
    pub count: usize,
}

impl Drop for Nodes<'_> {
    fn drop(self) {
        let Nodes {
            units: _units,
            count: _,
        } = self;
    }
}

/// The dummies of all units.
pub(crate) fn numbered<'a>(alloc: Global, units: &'a [Unit]) -> Result<Nodes<'a>, Memory>
    ensures units { IfOk result (λ n. map placed_of n.units.items ≡ numbered 0 (map procedure_of units.now)) }
    ensures count { IfOk result (λ n. n.count ≡ dummies_in_all (map procedure_of units.now)) }
    ensures room { IfOk result (λ n. n.count + 1 < 2 ^ 64) }
{
    let mut all = Vec::new(alloc);
    let mut placed = Vec::new(alloc);
    for unit in units {
        placed.push(Dummies::new(alloc, unit, &mut all)?)?;
    }
    Ok(Nodes {
        units: placed,
        count: all.len(),
    })
}

/// The first unit of a name.
pub(crate) fn find<'s, 'a>(
    units: &'s [Dummies<'a>],
    numbers: &Numbers<'_>,
    name: &Name,
) -> Option<&'s Dummies<'a>>
    ensures found { MatchOption result (found_at (map placed_of units.now) (value_of name.now numbers.now) ≡ None) (λ d. found_at (map placed_of units.now) (value_of name.now numbers.now) ≡ Some (placed_of d.now)) }
{
    match numbers.get(name) {
        Some(number) => units.get(number),
        None => None,
    }
}
