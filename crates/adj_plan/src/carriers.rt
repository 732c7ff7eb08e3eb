//! Which variables of a program carry a tangent.

ghost use Rattle.std.specs.Prelude.{◌≡◌, ◌<◌, ℕ, false, IfOk, length};
ghost use Rattle.adj_tree.specs.View.{procedures_of};
ghost use Rattle.adj_reach.specs.Edges.{flag};
ghost use Rattle.adj_symbols.specs.Numbers.{Fits};
ghost use Rattle.adj_flow.specs.Asked.{IsFlow, units_of};
ghost use Rattle.adj_activity.specs.Carried.{AreCarried};

use crate::planning::flow_of;
use adj_activity::carried;
use adj_flow::Flow;
use adj_symbols::Checked;
use adj_tree::{Flags, Head, Memory};
use std::alloc::Global;

/// Which variables of units carry a tangent, and the flow over which their flags are numbered.
pub struct CarriedFlow<'c> {
    pub flow: Flow<'c>,
    pub carried: Flags,
}

impl Drop for CarriedFlow<'_> {
    fn drop(self) {
        let CarriedFlow {
            flow: _flow,
            carried: _carried,
        } = self;
    }
}

/// Which variables of a checked program that fits carry a tangent, for a head.
pub fn carrying<'c>(
    alloc: Global,
    checked: &'c Checked,
    head: &Head,
) -> Result<CarriedFlow<'c>, Memory>
    requires fits { Fits checked.now }
    requires head { head.now.unit < length checked.now.program.units }
    ensures units { IfOk result (λ c. units_of c.flow ≡ procedures_of checked.now.program) }
    ensures flow { IfOk result (λ c. IsFlow c.flow head.now.unit) }
    ensures carried { IfOk result (λ c. AreCarried c.flow head.now c.carried) }
    ensures split { IfOk result (λ c. (n : ℕ) → flag c.flow.split n ≡ false) }
{
    let flow = flow_of(alloc, checked, head.unit, &[])?;
    let carried = carried(alloc, &flow, head)?;
    Ok(CarriedFlow { flow, carried })
}
