//! The kernel of an accepted program, as a checked program.

ghost use Rattle.std.specs.Prelude.{◌≡◌, IfOk, map};
ghost use Rattle.adj_tree.specs.View.{procedure_of, procedures_of};
ghost use Rattle.def_names.specs.Variables as names;
ghost use Rattle.def_kernel.specs.Stepped.{kernel_of};
ghost use Rattle.law_kernel.specs.Sound.{IsAccepted};

use crate::program::kernel;
use adj_symbols::{Checked, variables};
use adj_symbols_writes::{read_dummies, written_dummies};
use adj_tree::{Memory, NameList, Program, Unit};
use std::alloc::Global;

// The variables of each unit.
fn all_variables(alloc: Global, units: &[Unit]) -> Result<Vec<NameList>, Memory>
    ensures variables { IfOk result (λ v. v.items ≡ map names.variables (map procedure_of units.now)) }
{
    let mut made = Vec::new(alloc);
    for unit in units {
        made.push(variables(alloc, unit)?)?;
    }
    Ok(made)
}

/// The kernel of a program that is accepted as a text of a user, as a checked program. A check of it as a text that is run would find
/// no fault, so none is made: its variables and dummies are found alone.
pub fn checked_kernel(alloc: Global, program: &Program) -> Result<Checked, Memory>
    requires accepted { IsAccepted (procedures_of program.now) }
    ensures kernel { IfOk result (λ c. procedures_of c.program ≡ kernel_of (procedures_of program.now)) }
{
    let lowered = kernel(alloc, program)?;
    let units = lowered.units.as_slice();
    let variables = all_variables(alloc, units)?;
    let writes = written_dummies(alloc, units)?;
    let reads = read_dummies(alloc, units)?;
    Ok(Checked::new(lowered, variables, writes, reads))
}
