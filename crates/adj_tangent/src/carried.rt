//! Which variables carry a tangent, by flags over the flow of a program.

ghost use Rattle.std.specs.Prelude.{◌≡◌, ◌<◌, [], length, if◌then◌else◌};
ghost use Rattle.adj_reach.specs.Edges.{flag};
ghost use Rattle.adj_sweep_assignment.specs.View.{marks_of};
ghost use Rattle.adj_tangent.specs.Flagged.{carried_told};
ghost use Rattle.adj_tangent.specs.Plans.{active_by};

use adj_flow::Flow;
use adj_reach::flag_at;
use adj_sweep_assignment::{Carried as Flagged, Marking};

/// Which variables of each unit carry a tangent. The flag of a variable stands where its unit has its number times the width of the flow, and
/// the variable its place in the unit.
#[derive(Clone, Copy)]
pub struct Carried<'a> {
    pub flags: &'a [bool],
    pub flow: &'a Flow<'a>,
}

impl<'a> Carried<'a> {
    // The flags, where the unit of a number takes part.
    fn flags_of(&self, unit: usize) -> &'a [bool]
        ensures flags { result.now ≡ (if flag self.now.flow.now.taking unit then self.now.flags.now else []) }
    {
        if flag_at(self.flow.taking.as_slice(), unit) {
            self.flags
        } else {
            &[]
        }
    }

    /// What the unit of a number sees of them.
    pub fn of_unit(&self, unit: usize) -> Marking<'a>
        requires unit { unit < length self.now.flow.now.parts.items }
        ensures active { active_by result ≡ carried_told self.now unit }
        ensures carried { (marks_of result).shadowed ≡ carried_told self.now unit }
    {
        let parts = self.flow.parts.as_slice();
        Marking::Carried(Flagged {
            flags: self.flags_of(unit),
            unit,
            places: &parts[unit].places,
            width: self.flow.width,
        })
    }
}
