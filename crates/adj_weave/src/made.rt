//! The names of the units that are made of those of a program (docs/EMITTED.md, "Fresh names").

ghost use Rattle.std.specs.Prelude.{◌≡◌, ◌++◌, ◌∷◌, [], IfOk, OnOk, length, map};
ghost use Rattle.adj_tree.specs.View.{procedures_of};
ghost use Rattle.def_sweep.specs.Declared.{unit_name};
ghost use Rattle.adj_weave.specs.Named.{AreMade, flagged_names, made_flagged};

use crate::found::Found;
use adj_sets::{NameSet, add_names};
use adj_symbols::Checked;
use adj_tree::{Memory, Name};
use adj_weave_units::source::{made_names, source_names, units_of};
use std::alloc::Global;

/// The names of the adjoint, of the forward and of the backward unit of each unit, in their order.
pub struct MadeNames {
    pub adjoints: Vec<Name>,
    pub forths: Vec<Name>,
    pub backs: Vec<Name>,
}

impl Drop for MadeNames {
    fn drop(self) {
        let MadeNames {
            adjoints: _adjoints,
            forths: _forths,
            backs: _backs,
        } = self;
    }
}

/// The names that are made for the units of a checked program, of which these are the names: adjoints are named first, then forward
/// units, and then backward units.
pub fn all_made(alloc: Global, checked: &Checked, names: &[Name]) -> Result<MadeNames, Memory>
    requires names { names.now ≡ map unit_name (procedures_of checked.now.program) }
    ensures made { IfOk result (λ m. AreMade (procedures_of checked.now.program) m) }
{
    let units = units_of(checked);
    let mut taken: NameSet = source_names(alloc, names, checked)?;
    let adjoints = made_names(alloc, units, b"_B", &taken)?;
    add_names(alloc, &mut taken, adjoints.as_slice())?;
    let forths = made_names(alloc, units, b"_FWD", &taken)?;
    add_names(alloc, &mut taken, forths.as_slice())?;
    let backs = made_names(alloc, units, b"_BWD", &taken)?;
    Ok(MadeNames {
        adjoints,
        forths,
        backs,
    })
}

// The name behind the others, if it is flagged.
fn add_name(alloc: Global, flag: bool, name: &Name, all: &mut Vec<Name>) -> Result<(), Memory>
    ensures names { OnOk result (all.new.items ≡ all.old.items ++ flagged_names flag (name.now ∷ [])) }
{
    if flag {
        all.push(name.copy(alloc)?)?;
    }
    Ok(())
}

impl MadeNames {
    /// The names behind the others of the units that are emitted, in their order.
    pub fn add_emitted(
        &self,
        alloc: Global,
        found: &Found,
        all: &mut Vec<Name>,
    ) -> Result<(), Memory>
        requires forths { length self.now.forths.items ≡ length self.now.adjoints.items }
        requires backs { length self.now.backs.items ≡ length self.now.adjoints.items }
        requires adjointed { length found.now.adjointed ≡ length self.now.adjoints.items }
        requires paired { length found.now.paired ≡ length self.now.adjoints.items }
        ensures names { OnOk result (all.new.items ≡ all.old.items ++ made_flagged found.now.adjointed found.now.paired self.now.adjoints.items self.now.forths.items self.now.backs.items) }
    {
        let (adjointed, paired) = (found.adjointed.as_slice(), found.paired.as_slice());
        let (forths, backs) = (self.forths.as_slice(), self.backs.as_slice());
        for (k, adjoint) in self.adjoints.iter().enumerate() {
            add_name(alloc, adjointed[k], adjoint, all)?;
            add_name(alloc, paired[k], &forths[k], all)?;
            add_name(alloc, paired[k], &backs[k], all)?;
        }
        Ok(())
    }
}
