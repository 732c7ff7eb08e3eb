//! The declarations of an adjoint unit.

ghost use Rattle.std.specs.Prelude.{◌≡◌, ◌++◌, ◌∷◌, [], IfOk, OnOk, map};
ghost use Rattle.adj_tree.specs.Code.{shadow};
ghost use Rattle.adj_tree.specs.View.{declaration_of, procedure_of};
ghost use Rattle.def_sweep.specs.Naming.{name_in};
ghost use Rattle.def_sweep.specs.MarkedProgram.{declared_behind};
ghost use Rattle.def_sweep.specs.Declared.{declaration, declared_helpers};
ghost use Rattle.adj_naming.specs.Roles.{variable_of};
ghost use Rattle.adj_naming.specs.Table.{table_of};
ghost use Rattle.adj_sweep_assignment.specs.View.{marks_of};
ghost use Rattle.adj_weave_units.specs.Parts.{with_name, declared_among};

use adj_naming::declared::{Declared, declaration, first_declarations, scalar};
use adj_naming::names::Names;
use adj_naming::role::Helper;
use adj_sweep_assignment::Marking;
use adj_tree::{Decl, Memory, Name, Unit};
use std::alloc::Global;

// The declaration of a shadow, which has its variable's extents.
fn shadow_declaration(alloc: Global, n: &Names, decl: &Decl, x: &Name) -> Result<Decl, Memory>
    ensures declaration { IfOk result (λ d. declaration_of d ≡ with_name (declaration_of decl.now) (name_in (table_of n.now) (shadow x.now))) }
{
    let copy = decl.copy(alloc)?;
    let name = n.shadow(alloc, x)?;
    Ok(Decl {
        line: decl.line,
        name,
        extents: copy.into_extents(),
    })
}

// The declaration of a variable, and that of its shadow, if it has one, behind the others.
fn declare_variable(
    alloc: Global,
    n: &Names,
    marking: &Marking<'_>,
    own: Decl,
    x: &Name,
    made: &mut Vec<Decl>,
) -> Result<(), Memory>
    ensures declarations { OnOk result (map declaration_of made.new.items ≡ map declaration_of made.old.items ++ declared_among (marks_of marking.now).shadowed (λ y. declaration_of own) (table_of n.now) (x.now ∷ [])) }
{
    if !marking.shadowed(x) {
        made.push(own)?;
        return Ok(());
    }
    let other = shadow_declaration(alloc, n, &own, x)?;
    made.push(own)?;
    made.push(other)?;
    Ok(())
}

/// The declarations of variables, each followed by that of its shadow, if it has one, behind the others.
pub fn declare_variables(
    alloc: Global,
    n: &Names,
    marking: &Marking<'_>,
    line: u32,
    declared: &Declared,
    names: &[Name],
    made: &mut Vec<Decl>,
) -> Result<(), Memory>
    ensures declarations { OnOk result (map declaration_of made.new.items ≡ map declaration_of made.old.items ++ declared_among (marks_of marking.now).shadowed (declaration line (map declaration_of declared.now.firsts.items)) (table_of n.now) names.now) }
{
    for x in names {
        let own = declaration(alloc, line, declared, x)?;
        declare_variable(alloc, n, marking, own, x, made)?;
    }
    Ok(())
}

/// The declarations of helpers behind the others.
pub fn declare_helpers(
    alloc: Global,
    n: &Names,
    line: u32,
    helpers: &[Helper],
    made: &mut Vec<Decl>,
) -> Result<(), Memory>
    ensures declarations { OnOk result (map declaration_of made.new.items ≡ map declaration_of made.old.items ++ declared_helpers (table_of n.now) line (map variable_of helpers.now)) }
{
    for helper in helpers {
        let name = n.helper(alloc, helper.role, helper.number)?;
        made.push(scalar(alloc, line, name))?;
    }
    Ok(())
}

/// The declarations of an adjoint unit: of the variables of a unit, of their shadows, and of the helpers.
pub fn declarations(
    alloc: Global,
    n: &Names,
    marking: &Marking<'_>,
    unit: &Unit,
    variables: &[Name],
    helpers: &[Helper],
) -> Result<Vec<Decl>, Memory>
    ensures declarations { IfOk result (λ v. map declaration_of v.items ≡ declared_behind (marks_of marking.now).shadowed (table_of n.now) (procedure_of unit.now) variables.now ++ declared_helpers (table_of n.now) unit.now.line (map variable_of helpers.now)) }
{
    let mut made = Vec::new(alloc);
    let declared = first_declarations(alloc, unit)?;
    declare_variables(
        alloc, n, marking, unit.line, &declared, variables, &mut made,
    )?;
    declare_helpers(alloc, n, unit.line, helpers, &mut made)?;
    Ok(made)
}
