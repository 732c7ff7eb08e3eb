//! The units of a program, prepared.

ghost use Rattle.std.specs.Prelude.{◌≡◌, ◌<◌, IfOk};
ghost use Rattle.adj_tree.specs.View.{procedures_of};
ghost use Rattle.adj_interp_frame.specs.Linked.{units_in, AreRoutines};

use adj_interp_frame::{Directory, Routine, routine_of};
use adj_symbols::Checked;
use adj_tree::Memory;
use std::alloc::Global;

/// Each unit of a checked program is prepared, in order.
pub(crate) fn prepared<'a>(alloc: Global, program: &'a Checked) -> Result<Vec<Routine<'a>>, Memory>
    ensures routines { IfOk result (λ rs. AreRoutines rs.items) }
    ensures units { IfOk result (λ rs. units_in rs.items ≡ procedures_of program.now.program) }
{
    let units = program.program().units.as_slice();
    let mut directory = Directory::new(alloc, units)?;
    let mut routines = Vec::new(alloc);
    for i in 0..units.len() {
        let unit = &units[i];
        let writes = program.writes(i);
        let routine = routine_of(alloc, &mut directory, unit, writes)?;
        routines.push(routine)?;
    }
    Ok(routines)
}
