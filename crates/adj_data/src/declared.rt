//! Declarations that are found by the names of their variables.

ghost use Rattle.std.specs.Prelude.{◌≡◌, ℕ, List, map, IfOk};
ghost use Rattle.adj_tree.specs.Code.{plain};
ghost use Rattle.adj_tree.specs.View.{extent_of, declaration_of};
ghost use Rattle.def_meaning.specs.Units.{declared as declared_in};

use adj_sets::NameSet;
use adj_tree::{Decl, Extent, Memory, Unit};
use std::alloc::Global;

/// The first declaration of each variable of a unit, in order. Look-ups take constant time.
pub(crate) struct Declared {
    names: NameSet,
    firsts: Vec<Decl>,
    pub(crate) ghost alike: { names ≡ map (λ d. d.name) firsts.items },
}

impl Drop for Declared {
    fn drop(self) {
        let Declared {
            names: _names,
            firsts: _firsts,
        } = self;
    }
}

/// The first declaration of each variable of a unit.
pub(crate) fn first_declarations(alloc: Global, unit: &Unit) -> Result<Declared, Memory>
    ensures same { IfOk result (λ t. (x : List ℕ) → declared_in (map declaration_of t.firsts.items) (plain x) ≡ declared_in (map declaration_of unit.now.decls) (plain x)) }
{
    let mut names = NameSet::new(alloc)?;
    let mut firsts = Vec::new(alloc);
    for decl in unit.decls.as_slice() {
        if !names.has(decl.name.bytes()) {
            names.add(alloc, decl.name.bytes())?;
            firsts.push(decl.copy(alloc)?)?;
        }
    }
    Ok(Declared { names, firsts })
}

/// The extents of a variable, none where it is a scalar.
pub(crate) fn extents<'a>(declared: &'a Declared, name: &[u8]) -> &'a [Extent]
    ensures { map extent_of result.now ≡ declared_in (map declaration_of declared.now.firsts.items) (plain name.now) }
{
    match declared.names.place(name) {
        Some(place) => declared.firsts[place].extents.as_slice(),
        None => &[],
    }
}
