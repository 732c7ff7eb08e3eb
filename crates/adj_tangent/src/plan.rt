//! What the tangent of a unit goes by.

ghost use Rattle.std.specs.Prelude.{◌≡◌, option_map};
ghost use Rattle.adj_tree.specs.Code.{plain};
ghost use Rattle.adj_sweep_assignment.specs.Sites.{naming_of, active_in};
ghost use Rattle.adj_tangent.specs.Plans.{active_by, naming_in, has_some, taking_of};

use adj_naming::names::Names;
use adj_sets::NameSet;
use adj_sweep_assignment::Marking;
use adj_sweep_assignment::site::Site;
use adj_tree::{Flags, Name};

/// The name of a unit's tangent, and which of the unit's dummies carry one.
pub struct Callee {
    pub tangent: Name,
    pub carried: Flags,
}

impl Drop for Callee {
    fn drop(self) {
        let Callee {
            tangent: _tangent,
            carried: _carried,
        } = self;
    }
}

/// What is known of units, each at the place of its name. Look-ups take constant time.
pub struct Callees {
    pub names: NameSet,
    pub known: Vec<Callee>,
}

impl Drop for Callees {
    fn drop(self) {
        let Callees {
            names: _names,
            known: _known,
        } = self;
    }
}

/// The names of a unit, its variables that carry a tangent, and what is known of the units that it calls.
#[derive(Clone, Copy)]
pub struct Plan<'a> {
    pub names: &'a Names,
    pub marking: &'a Marking<'a>,
    pub callees: &'a Callees,
}

// Whether a flag is set.
pub(crate) fn has_some(flags: &[bool]) -> bool
    ensures some { result ≡ has_some flags.now }
{
    for flag in flags {
        if *flag {
            return true;
        }
    }
    false
}

impl Callees {
    /// What is known of the unit of a name, if one of its dummies carries a tangent.
    pub fn taking(&self, name: &Name) -> Option<&Callee>
        ensures callee { option_map (λ k. k.now) result ≡ taking_of self.now name.now }
    {
        let Some(place) = self.names.place(name.bytes()) else {
            return None;
        };
        let Some(callee) = self.known.get(place) else {
            return None;
        };
        if has_some(callee.carried.as_slice()) {
            Some(callee)
        } else {
            None
        }
    }
}

impl<'a> Plan<'a> {
    // Whether the variable carries a tangent.
    pub(crate) fn carries(&self, x: &Name) -> bool
        ensures carries { result ≡ active_by self.now.marking.now (plain x.now) }
    {
        self.marking.active(0, x)
    }

    // Where the tangent of a statement of this line is written.
    pub(crate) fn site(&self, line: u32) -> Site<'a>
        ensures naming { naming_of result ≡ naming_in self.now }
        ensures active { active_in result ≡ active_by self.now.marking.now }
        ensures line { result.line ≡ line }
    {
        Site {
            names: self.names,
            marks: self.marking,
            number: 0,
            line,
        }
    }
}
