//! Numbers of units.

ghost use Rattle.std.specs.Prelude.{◌≡◌, IfOk, OnOk, map, slice_get};
ghost use Rattle.adj_tree.specs.View.{procedure_of};
ghost use Rattle.def_meaning.specs.Apart.{AreApart};
ghost use Rattle.def_meaning.specs.Written.{find_unit};
ghost use Rattle.adj_interp_frame.specs.Listed.{names_of, IsDirectory};

use crate::numbering::Numbering;
use adj_tree::{Memory, Name, Unit};
use std::alloc::Global;

/// The units of a program and numbers for their names. Names that no unit has get numbers behind them.
pub struct Directory<'a> {
    pub units: &'a [Unit],
    pub numbers: Numbering<'a>,
}

impl Drop for Directory<'_> {
    fn drop(self) {
        let Directory {
            units: _,
            numbers: _numbers,
        } = self;
    }
}

impl<'a> Directory<'a> {
    /// The directory of units whose names are apart.
    pub fn new(alloc: Global, units: &'a [Unit]) -> Result<Directory<'a>, Memory>
        requires { AreApart (names_of units.now) }
        ensures units { IfOk result (λ d. d.units.now ≡ units.now) }
        ensures directory { IfOk result (λ d. IsDirectory d) }
    {
        let mut numbers = Numbering::new(alloc);
        for unit in units {
            let _number = numbers.number(&unit.name)?;
        }
        Ok(Directory { units, numbers })
    }

    /// The number of the unit of a name; a number above all units where no unit has it.
    pub fn number(&mut self, name: &'a Name) -> Result<usize, Memory>
        requires { IsDirectory self.old }
        ensures units { self.new.units.now ≡ self.old.units.now }
        ensures directory { OnOk result (IsDirectory self.new) }
        ensures found { IfOk result (λ i. find_unit (map procedure_of self.old.units.now) name.now ≡ slice_get (map procedure_of self.old.units.now) i) }
    {
        let number = self.numbers.number(name)?;
        Ok(number)
    }
}
