//! The locals of a unit (docs/KERNEL.md, "The steps").

ghost use Rattle.std.specs.Prelude.{◌≡◌, ◌++◌, ◌∷◌, [], IfOk, codes};
ghost use Rattle.def_names.specs.Fresh.{fresh, digits};
ghost use Rattle.adj_norm_statement.specs.Made.{AreMade};

use adj_naming::joining::with_number;
use adj_naming::taken::Taken;
use adj_sets::NameSet;
use adj_tree::{Memory, Name};
use std::alloc::Global;
use std::mem;

/// The names of a unit's locals, by number, counted from 0. Each is made where it is first asked for.
pub struct Locals<'a> {
    /// The names that no local of any unit may have.
    shared: &'a NameSet,
    taken: Taken<'a>,
    names: Vec<Name>,
    ghost made: { AreMade taken names.items },
}

impl Drop for Locals<'_> {
    fn drop(self) {
        let Locals {
            shared: _,
            taken: _taken,
            names: _names,
        } = self;
    }
}

impl<'a> Locals<'a> {
    ghost use Rattle.std.specs.Prelude.{◌≡◌, ◌+◌, ◌++◌, [], IfOk, OnOk, vec_len};
    ghost use Rattle.adj_tree.specs.Code.{plain};
    ghost use Rattle.def_kernel.specs.Kernel.{local_of};
    ghost use Rattle.adj_sets.specs.Sets.{all_added};
    ghost use Rattle.adj_norm_statement.specs.Locals.{local_by};

    /// Locals that may not have the names of a set, nor those of the unit's variables.
    pub fn new(alloc: Global, shared: &'a NameSet, variables: &[Name]) -> Result<Locals<'a>, Memory>
        ensures locals { IfOk result (λ l. local_by l ≡ local_of (shared.now ++ all_added [] variables.now)) }
    {
        let taken = Taken::new(alloc, shared, variables)?;
        let names = Vec::new(alloc);
        Ok(Locals {
            shared,
            taken,
            names,
        })
    }

    /// The name of the local of a number.
    pub fn name(&mut self, alloc: Global, number: usize) -> Result<Name, Memory>
        ensures name { IfOk result (λ y. plain y ≡ local_by self.old number) }
        ensures same { OnOk result (local_by self.new ≡ local_by self.old) }
    {
        while self.names.len() <= number {
            self.grow(alloc)?;
        }
        let name = self.names[number].copy(alloc)?;
        Ok(name)
    }

    // One more local has its name; after an error there are none.
    fn grow(&mut self, alloc: Global) -> Result<(), Memory>
        ensures grown { OnOk result (vec_len self.new.names ≡ vec_len self.old.names + 1) }
        ensures same { OnOk result (local_by self.new ≡ local_by self.old) }
    {
        let none = Locals::new(alloc, self.shared, &[])?;
        let old = mem::replace(self, none);
        *self = old.grown(alloc)?;
        Ok(())
    }

    // With one more local.
    fn grown(self, alloc: Global) -> Result<Locals<'a>, Memory>
        ensures grown { IfOk result (λ l. vec_len l.names ≡ vec_len self.entry.names + 1) }
        ensures same { IfOk result (λ l. local_by l ≡ local_by self.entry) }
    {
        let Locals {
            shared,
            mut taken,
            mut names,
        } = self;
        let name = named(alloc, &mut taken, names.len() + 1)?;
        names.push(name)?;
        Ok(Locals {
            shared,
            taken,
            names,
        })
    }
}

// The name of the local of a number that is counted from 1, taken from then on.
fn named(alloc: Global, taken: &mut Taken<'_>, number: usize) -> Result<Name, Memory>
    ensures name { IfOk result (λ y. y ≡ fresh (codes "ADV" ++ digits number) taken.old) }
    ensures taken { IfOk result (λ y. taken.new ≡ taken.old ++ (y ∷ [])) }
{
    let base = with_number(alloc, b"ADV", number)?;
    taken.give(alloc, base.bytes())
}
