//! Equal units and programs once more.

ghost use Rattle.std.specs.Prelude.{◌≡◌, IfOk, map};
ghost use Rattle.adj_tree.specs.View.{extent_of, declaration_of, procedure_of, procedures_of};

use crate::fault::Memory;
use crate::list::{Decls, Extents, Items, NameList, Units};
use crate::unit::{Decl, Extent, Program, Unit};
use std::alloc::Global;

impl Extent {
    /// An equal extent.
    pub fn copy(&self, alloc: Global) -> Result<Extent, Memory>
        ensures equal { IfOk result (λ e. extent_of e ≡ extent_of self.now) }
    {
        match self {
            Extent::Lit(n) => Ok(Extent::Lit(*n)),
            Extent::Dummy(x) => Ok(Extent::Dummy(x.copy(alloc)?)),
        }
    }
}

impl Decl {
    /// An equal declaration.
    pub fn copy(&self, alloc: Global) -> Result<Decl, Memory>
        ensures equal { IfOk result (λ d. declaration_of d ≡ declaration_of self.now) }
    {
        Ok(Decl {
            line: self.line,
            name: self.name.copy(alloc)?,
            extents: copy_extents(alloc, &self.extents)?,
        })
    }
}

impl Unit {
    /// An equal unit.
    pub fn copy(&self, alloc: Global) -> Result<Unit, Memory>
        ensures equal { IfOk result (λ u. procedure_of u ≡ procedure_of self.now) }
    {
        Ok(Unit {
            line: self.line,
            name: self.name.copy(alloc)?,
            dummies: copy_names(alloc, &self.dummies)?,
            none: self.none,
            decls: copy_decls(alloc, &self.decls)?,
            body: self.body.copy(alloc)?,
        })
    }
}

impl Program {
    /// An equal program.
    pub fn copy(&self, alloc: Global) -> Result<Program, Memory>
        ensures equal { IfOk result (λ p. procedures_of p ≡ procedures_of self.now) }
    {
        let mut made = Vec::new(alloc);
        for unit in self.units.as_slice() {
            made.push(unit.copy(alloc)?)?;
        }
        let units: Units = Items::new(made);
        Ok(Program { units })
    }
}

fn copy_names(alloc: Global, names: &NameList) -> Result<NameList, Memory>
    ensures equal { IfOk result (λ all. all ≡ names.now) }
{
    let mut made = Vec::new(alloc);
    for name in names.as_slice() {
        made.push(name.copy(alloc)?)?;
    }
    Ok(Items::new(made))
}

fn copy_extents(alloc: Global, extents: &Extents) -> Result<Extents, Memory>
    ensures equal { IfOk result (λ all. map extent_of all ≡ map extent_of extents.now) }
{
    let mut made = Vec::new(alloc);
    for extent in extents.as_slice() {
        made.push(extent.copy(alloc)?)?;
    }
    Ok(Items::new(made))
}

fn copy_decls(alloc: Global, decls: &Decls) -> Result<Decls, Memory>
    ensures equal { IfOk result (λ all. map declaration_of all ≡ map declaration_of decls.now) }
{
    let mut made = Vec::new(alloc);
    for decl in decls.as_slice() {
        made.push(decl.copy(alloc)?)?;
    }
    Ok(Items::new(made))
}
