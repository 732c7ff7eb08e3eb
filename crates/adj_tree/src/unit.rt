//! Declarations, units and programs.

ghost use Rattle.std.specs.Prelude.{◌≡◌};

use crate::list::{Decls, Extents, NameList, Units};
use crate::name::Name;
use crate::stmt::Stmts;

/// An extent of an array: a number, or a scalar dummy.
pub enum Extent {
    Lit(i64),
    Dummy(Name),
}

impl Drop for Extent {
    fn drop(self) {
        match self {
            Extent::Lit(_) => {}
            Extent::Dummy(_name) => {}
        }
    }
}

/// A declared variable with its line; a scalar has no extents, an array one or two.
pub struct Decl {
    pub line: u32,
    pub name: Name,
    pub extents: Extents,
}

impl Decl {
    /// Its extents, of which none is copied.
    pub fn into_extents(self) -> Extents
        ensures extents { result ≡ self.extents }
    {
        let Decl {
            line: _line,
            name: _name,
            extents,
        } = self;
        extents
    }
}

impl Drop for Decl {
    fn drop(self) {
        let Decl {
            line: _line,
            name: _name,
            extents: _extents,
        } = self;
    }
}

/// A SUBROUTINE. `none` says whether it has IMPLICIT NONE.
pub struct Unit {
    pub line: u32,
    pub name: Name,
    pub dummies: NameList,
    pub none: bool,
    pub decls: Decls,
    pub body: Stmts,
}

impl Unit {
    /// Its statements, of which none is copied.
    pub fn into_body(self) -> Stmts
        ensures body { result ≡ self.body }
    {
        let Unit {
            line: _line,
            name: _name,
            dummies: _dummies,
            none: _none,
            decls: _decls,
            body,
        } = self;
        body
    }
}

impl Drop for Unit {
    fn drop(self) {
        let Unit {
            line: _line,
            name: _name,
            dummies: _dummies,
            none: _none,
            decls: _decls,
            body: _body,
        } = self;
    }
}

/// The units of a text, in order.
pub struct Program {
    pub units: Units,
}

impl Program {
    /// Its units, of which none is copied.
    pub fn into_units(self) -> Units
        ensures units { result ≡ self.units }
    {
        let Program { units } = self;
        units
    }
}

impl Drop for Program {
    fn drop(self) {
        let Program { units: _units } = self;
    }
}
