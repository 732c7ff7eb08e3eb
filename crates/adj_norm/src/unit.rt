//! Units lowered (docs/KERNEL.md, "The steps").

ghost use Rattle.std.specs.Prelude.{◌≡◌, ◌++◌, ℕ, [], List, IfOk, OnOk, map};
ghost use Rattle.adj_tree.specs.Code.{Procedure};
ghost use Rattle.adj_tree.specs.View.{declaration_of, procedure_of};
ghost use Rattle.def_meaning.specs.Written.{handed_back};
ghost use Rattle.def_names.specs.Reserved.{reserved};
ghost use Rattle.def_kernel.specs.Kernel.{unit_name, scalar_at, local_names, local_of, lowered_unit};
ghost use Rattle.adj_sets.specs.Sets.{all_added};
ghost use Rattle.adj_norm_statement.specs.Handed.{handed_by};
ghost use Rattle.adj_norm_statement.specs.Locals.{local_by};

use crate::names::unit_names;
use adj_norm_statement::handed::Handed;
use adj_norm_statement::locals::Locals;
use adj_norm_statement::statement::lower;
use adj_sets::NameSet;
use adj_tree::{Decl, Items, Memory, Name, Unit};
use std::alloc::Global;

/// The same names once more.
pub fn copied_names(alloc: Global, names: &[Name]) -> Result<Vec<Name>, Memory>
    ensures same { IfOk result (λ v. v.items ≡ names.now) }
{
    let mut made = Vec::new(alloc);
    for name in names {
        made.push(name.copy(alloc)?)?;
    }
    Ok(made)
}

/// Equal declarations once more.
pub fn copied(alloc: Global, decls: &[Decl]) -> Result<Vec<Decl>, Memory>
    ensures equal { IfOk result (λ v. map declaration_of v.items ≡ map declaration_of decls.now) }
{
    let mut made = Vec::new(alloc);
    for decl in decls {
        made.push(decl.copy(alloc)?)?;
    }
    Ok(made)
}

// Declares the first locals behind other declarations.
fn declare_locals(
    alloc: Global,
    locals: &mut Locals<'_>,
    line: u32,
    count: usize,
    made: &mut Vec<Decl>,
) -> Result<(), Memory>
    ensures declared { OnOk result ((taken : List (List ℕ)) → local_by locals.old ≡ local_of taken → map declaration_of made.new.items ≡ map declaration_of made.old.items ++ map (scalar_at line) (local_names taken count)) }
{
    for number in 0..count {
        let name = locals.name(alloc, number)?;
        let extents = Items::new(Vec::new(alloc));
        made.push(Decl {
            line,
            name,
            extents,
        })?;
    }
    Ok(())
}

/// The unit lowered, where it is known which dummies of units are written, and what no variable of any unit may be called.
pub fn lower_unit(
    alloc: Global,
    handed: &Handed,
    shared: &NameSet,
    unit: &Unit,
) -> Result<Unit, Memory>
    ensures unit { IfOk result (λ u. (units : List Procedure) → shared.now ≡ all_added [] (map unit_name units ++ reserved) → handed_by handed.now ≡ handed_back units → procedure_of u ≡ lowered_unit units (procedure_of unit.now)) }
{
    let variables = unit_names(alloc, unit)?;
    let mut locals = Locals::new(alloc, shared, variables.as_slice())?;
    let lowered = lower(alloc, &mut locals, handed, &unit.body)?;
    let mut decls = copied(alloc, unit.decls.as_slice())?;
    declare_locals(alloc, &mut locals, unit.line, lowered.most, &mut decls)?;
    let name = unit.name.copy(alloc)?;
    let dummies = copied_names(alloc, unit.dummies.as_slice())?;
    Ok(Unit {
        line: unit.line,
        name,
        dummies: Items::new(dummies),
        none: unit.none,
        decls: Items::new(decls),
        body: lowered.code,
    })
}
