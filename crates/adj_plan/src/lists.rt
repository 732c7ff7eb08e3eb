//! What a checked program has of each unit, in their order.

ghost use Rattle.std.specs.Prelude.{◌≡◌, IfOk, map};

use adj_symbols::Checked;
use adj_tree::{Flags, Memory, NameList};
use std::alloc::Global;

/// The variables of each unit.
#[tactic(auto, using(crate::proofs::Rows::variables_each))]
pub(crate) fn variables<'c>(
    alloc: Global,
    checked: &'c Checked,
) -> Result<Vec<&'c NameList>, Memory>
    ensures all { IfOk result (λ v. map (λ b. b.now) v.items ≡ checked.now.variables) }
{
    let count = checked.program().units.as_slice().len();
    let mut variables = Vec::new(alloc);
    for unit in 0..count {
        variables.push(checked.variables(unit))?;
    }
    Ok(variables)
}

/// Which of its dummies each unit reads.
#[tactic(auto, using(crate::proofs::Rows::reads_each))]
pub(crate) fn reads<'c>(alloc: Global, checked: &'c Checked) -> Result<Vec<&'c Flags>, Memory>
    ensures all { IfOk result (λ v. map (λ b. b.now) v.items ≡ checked.now.reads) }
{
    let count = checked.program().units.as_slice().len();
    let mut reads = Vec::new(alloc);
    for unit in 0..count {
        reads.push(checked.reads(unit))?;
    }
    Ok(reads)
}

/// Which of its dummies each unit writes.
#[tactic(auto, using(crate::proofs::Rows::writes_each))]
pub(crate) fn writes<'c>(alloc: Global, checked: &'c Checked) -> Result<Vec<&'c Flags>, Memory>
    ensures all { IfOk result (λ v. map (λ b. b.now) v.items ≡ checked.now.writes) }
{
    let count = checked.program().units.as_slice().len();
    let mut writes = Vec::new(alloc);
    for unit in 0..count {
        writes.push(checked.writes(unit))?;
    }
    Ok(writes)
}
