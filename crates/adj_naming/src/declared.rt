//! Declarations by the names of their variables.

ghost use Rattle.std.specs.Prelude.{◌≡◌, ℕ, List, IfOk, map};
ghost use Rattle.adj_tree.specs.View.{declaration_of};
ghost use Rattle.def_sweep.specs.Declared.{scalar, declaration};

use adj_sets::NameSet;
use adj_tree::{Decl, Items, Memory, Name, Unit};
use std::alloc::Global;

/// The first declaration of each variable of a unit, in order. Look-ups take constant time.
pub struct Declared {
    pub names: NameSet,
    pub firsts: Vec<Decl>,
    pub ghost alike: { names ≡ map (λ d. d.name) firsts.items },
}

impl Drop for Declared {
    fn drop(self) {
        let Declared {
            names: _names,
            firsts: _firsts,
        } = self;
    }
}

/// The first declaration of each variable of a unit.
pub fn first_declarations(alloc: Global, unit: &Unit) -> Result<Declared, Memory>
    ensures same { IfOk result (λ t. (line : ℕ) (x : List ℕ) → declaration line (map declaration_of t.firsts.items) x ≡ declaration line (map declaration_of unit.now.decls) x) }
{
    let mut names = NameSet::new(alloc)?;
    let mut firsts = Vec::new(alloc);
    for decl in unit.decls.as_slice() {
        if !names.has(decl.name.bytes()) {
            names.add(alloc, decl.name.bytes())?;
            firsts.push(decl.copy(alloc)?)?;
        }
    }
    Ok(Declared { names, firsts })
}

/// A scalar with its line.
pub fn scalar(alloc: Global, line: u32, name: Name) -> Decl
    ensures declaration { declaration_of result ≡ scalar line name }
{
    Decl {
        line,
        name,
        extents: Items::new(Vec::new(alloc)),
    }
}

/// The declaration of a variable; one that isn't declared is a scalar with the given line.
pub fn declaration(alloc: Global, line: u32, declared: &Declared, x: &Name) -> Result<Decl, Memory>
    ensures declaration { IfOk result (λ d. declaration_of d ≡ declaration line (map declaration_of declared.now.firsts.items) x.now) }
{
    match declared.names.place(x.bytes()) {
        Some(place) => {
            let found = declared.firsts[place].copy(alloc)?;
            Ok(found)
        }
        None => {
            let name = x.copy(alloc)?;
            Ok(scalar(alloc, line, name))
        }
    }
}
