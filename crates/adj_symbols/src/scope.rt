//! All units of a program, looked up by name.

ghost use Rattle.std.specs.Prelude.{◌≡◌, ℕ, List, map, is_some, Some, None, IfOk, MatchOption};
ghost use Rattle.std.specs.Coded.{codes};
ghost use Rattle.adj_tree.specs.declared.unit.Unit.{Unit};
ghost use Rattle.adj_tree.specs.contracts.unit.Unit as unit_row;
ghost use Rattle.adj_tree.specs.View.{procedure_of};
ghost use Rattle.def_meaning.specs.Written.{find_unit};
ghost use Rattle.def_names.specs.Variables.{Name};
ghost use Rattle.adj_symbols_writes.specs.Table.{value_of};
ghost use Rattle.adj_symbols_writes.specs.Graph.{number_from};
ghost use Rattle.adj_symbols.specs.Scope.{AreNumbers};

use crate::outline::Outline;
use adj_symbols_writes::table::{Numbers, unit_numbers};
use adj_tree::{Memory, Name, Unit, boxed};
use std::alloc::Global;
use std::marker::Model;

/// The units of a program with their tables, seen as the units.
pub(crate) struct Scope<'a> {
    outlines: Vec<Outline<'a>>,
    numbers: Box<Numbers<'a>>,
}

impl Drop for Scope<'_> {
    fn drop(self) {
        let Scope {
            outlines: _outlines,
            numbers: _numbers,
        } = self;
    }
}

impl<'a> Model for Scope<'a> {
    ghost Value = { List Unit };

    ghost coded = { Prim.hlevel (codes, unit_row.the_row.coded) };

    ghost view = { λ s. s.outlines.items };

    ghost invariant = { λ s. AreNumbers (map procedure_of s.outlines.items) s.numbers.value };
}

// The units with their tables.
fn outlines_of<'a>(alloc: Global, units: &'a [Unit]) -> Result<Vec<Outline<'a>>, Memory>
    ensures { IfOk result (λ v. v.items ≡ units.now) }
{
    let mut outlines = Vec::new(alloc);
    for unit in units {
        outlines.push(Outline::new(alloc, unit)?)?;
    }
    Ok(outlines)
}

impl<'a> Scope<'a> {
    /// The units with their tables.
    pub(crate) fn new(alloc: Global, units: &'a [Unit]) -> Result<Scope<'a>, Memory>
        ensures units { IfOk result (λ s. s ≡ units.now) }
    {
        let outlines = outlines_of(alloc, units)?;
        let numbers = boxed(alloc, unit_numbers(alloc, units)?)?;
        Ok(Scope { outlines, numbers })
    }

    /// Each unit by itself, in order.
    pub(crate) fn outlines(&self) -> &[Outline<'a>]
        ensures outlines { result.now ≡ self.now }
    {
        self.outlines.as_slice()
    }

    /// The number of the first unit of a name, from 0 on.
    pub(crate) fn number(&self, name: &Name) -> Option<usize>
        ensures number { result ≡ number_from 0 (map procedure_of self.now) name.now }
    {
        self.numbers.get(name)
    }

    /// Whether a unit has the name.
    pub(crate) fn has(&self, name: &Name) -> bool
        ensures has { result ≡ is_some (find_unit (map procedure_of self.now) name.now) }
    {
        self.number(name).is_some()
    }

    /// The first unit of a name.
    pub(crate) fn find(&self, name: &Name) -> Option<&Outline<'a>>
        ensures found { MatchOption result (find_unit (map procedure_of self.now) name.now ≡ None) (λ o. find_unit (map procedure_of self.now) name.now ≡ Some (procedure_of o.now)) }
    {
        match self.number(name) {
            Some(number) => self.outlines.as_slice().get(number),
            None => None,
        }
    }
}
