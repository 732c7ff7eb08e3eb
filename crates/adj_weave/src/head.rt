//! The adjoint of a head.

ghost use Rattle.std.specs.Prelude.{◌≡◌, ◌<◌, Some, IfOk, length, map, slice_get};
ghost use Rattle.adj_tree.specs.Code.{Procedure};
ghost use Rattle.adj_tree.specs.View.{procedures_of};
ghost use Rattle.def_sweep.specs.MarkedAdjoint.{shadow_flags};
ghost use Rattle.def_sweep.specs.Names.{adjoint_name};
ghost use Rattle.adj_weave.specs.Marked.{program_marks, IsOver};

use crate::marks::Marked;
use adj_symbols::Checked;
use adj_tree::{Flags, Head, Items, Memory, Name};
use adj_weave_units::shadows::shadow_flags;
use adj_weave_units::source::{made_names, source_names, unit_names, units_of};
use std::alloc::Global;

/// The name of the adjoint of a head, and for each dummy of the head whether it has a shadow.
#[derive(Drop)]
pub struct HeadAdjoint {
    pub name: Name,
    pub shadowed: Flags,
}

// The name of the adjoint of each unit.
fn adjoint_names(alloc: Global, checked: &Checked) -> Result<Vec<Name>, Memory>
    ensures names { IfOk result (λ v. v.items ≡ map (adjoint_name (procedures_of checked.now.program)) (procedures_of checked.now.program)) }
{
    let units = units_of(checked);
    let own = unit_names(alloc, units)?;
    let source = source_names(alloc, own.as_slice(), checked)?;
    let names = made_names(alloc, units, b"_B", &source)?;
    Ok(names)
}

/// The adjoint of the head in what is emitted for it by these marks, found over the flow of the program.
pub fn head_adjoint(
    alloc: Global,
    checked: &Checked,
    head: &Head,
    marked: Marked<'_>,
) -> Result<HeadAdjoint, Memory>
    requires head { head.now.unit < length checked.now.program.units }
    requires flow { IsOver marked (procedures_of checked.now.program) head.now.unit }
    ensures name { (u : Procedure) → slice_get (procedures_of checked.now.program) head.now.unit ≡ Some u → IfOk result (λ a. a.name ≡ adjoint_name (procedures_of checked.now.program) u) }
    ensures shadowed { (u : Procedure) → slice_get (procedures_of checked.now.program) head.now.unit ≡ Some u → IfOk result (λ a. a.shadowed ≡ shadow_flags ((program_marks marked.entry).shadowed u.name) u.dummies) }
{
    let units = units_of(checked);
    let number = head.unit;
    let names = adjoint_names(alloc, checked)?;
    let name = names[number].copy(alloc)?;
    let marking = marked.of_unit(number);
    let flags = shadow_flags(alloc, &marking, units[number].dummies.as_slice())?;
    Ok(HeadAdjoint {
        name,
        shadowed: Items::new(flags),
    })
}
