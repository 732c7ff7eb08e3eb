//! What the sweeps of calls know of the units that are called.

ghost use Rattle.std.specs.Prelude.{◌≡◌};
ghost use Rattle.adj_sweep.specs.Callees.{callee_named};

use adj_sets::NameSet;
use adj_tree::Name;

/// A dummy of a unit: whether the unit writes it, whether it reads it, whether the unit's adjoint needs it at its entry, and whether it
/// has a shadow.
#[derive(Clone, Copy, PartialEq, Eq, Debug)]
pub struct Dummy {
    pub written: bool,
    pub read: bool,
    pub member: bool,
    pub shadowed: bool,
}

/// The names of a unit's adjoint and of its forward and its backward unit, and the unit's dummies.
pub struct Callee {
    pub adjoint: Name,
    pub forth: Name,
    pub back: Name,
    pub dummies: Vec<Dummy>,
}

impl Drop for Callee {
    fn drop(self) {
        let Callee {
            adjoint: _adjoint,
            forth: _forth,
            back: _back,
            dummies: _dummies,
        } = self;
    }
}

/// What is known of units, each at the place of its name, and what is said of those that aren't there. Look-ups take constant time.
pub struct Callees {
    pub names: NameSet,
    pub known: Vec<Callee>,
    pub other: Callee,
}

impl Drop for Callees {
    fn drop(self) {
        let Callees {
            names: _names,
            known: _known,
            other: _other,
        } = self;
    }
}

impl Callees {
    /// What is known of the unit of a name.
    pub fn find(&self, name: &Name) -> &Callee
        ensures found { result.now ≡ callee_named self.now name.now }
    {
        let Some(place) = self.names.place(name.bytes()) else {
            return &self.other;
        };
        match self.known.get(place) {
            Some(callee) => callee,
            None => &self.other,
        }
    }
}
