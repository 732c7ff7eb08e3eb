//! COMMON statements, and units and programs with them.

ghost use Rattle.std.specs.Prelude.{◌≡◌};

use crate::list::{Decls, Items};
use crate::name::Name;
use crate::unit::Unit;

/// A COMMON statement: its line, the name of its block, and its items with the extents that it gives them.
pub struct Common {
    pub line: u32,
    pub block: Name,
    pub members: Decls,
}

impl Drop for Common {
    fn drop(self) {
        let Common {
            line: _line,
            block: _block,
            members: _members,
        } = self;
    }
}

/// COMMON statements in order.
pub type Commons = Items<Common>;

/// A unit with its COMMON statements.
pub struct SharedUnit {
    pub unit: Unit,
    pub commons: Commons,
}

impl SharedUnit {
    /// The unit without its COMMON statements; no part of it is copied.
    pub fn into_unit(self) -> Unit
        ensures unit { result ≡ self.unit }
    {
        let SharedUnit {
            unit,
            commons: _commons,
        } = self;
        unit
    }
}

impl Drop for SharedUnit {
    fn drop(self) {
        let SharedUnit {
            unit: _unit,
            commons: _commons,
        } = self;
    }
}

/// Units with their COMMON statements, in the order of the text.
pub type SharedUnits = Items<SharedUnit>;

/// The units of a text that may have COMMON blocks, in order.
pub struct SharedProgram {
    pub units: SharedUnits,
}

impl SharedProgram {
    /// Its units, of which none is copied.
    pub fn into_units(self) -> SharedUnits
        ensures units { result ≡ self.units }
    {
        let SharedProgram { units } = self;
        units
    }
}

impl Drop for SharedProgram {
    fn drop(self) {
        let SharedProgram { units: _units } = self;
    }
}
