//! The dummies of step units, and their declarations (docs/KERNEL.md, "The steps").

ghost use Rattle.std.specs.Prelude.{◌≡◌, ◌++◌, ◌||◌, ◌∷◌, [], ℕ, List, map, IfOk, OnOk, if◌then◌else◌};
ghost use Rattle.adj_tree.specs.Code.{Var, Declaration, Procedure, plain};
ghost use Rattle.adj_tree.specs.View.{extent_of, declaration_of, code_of, terms_of};
ghost use Rattle.def_meaning.specs.Apart.{has_name};
ghost use Rattle.def_kernel.specs.Kernel.{names_in_code};
ghost use Rattle.def_kernel.specs.Stepped.{used_among, step_dummies, as_actuals, step_declarations};
ghost use Rattle.adj_sets.specs.Sets.{all_added};
ghost use Rattle.adj_norm.specs.Source.{extents_in, all_extents_in, kept_among, Declares, Knows};

use crate::names::add_code;
use crate::once::Once;
use adj_naming::declared::{Declared, declaration};
use adj_tree::{Decl, Expr, Exprs, Extent, Memory, Name, Stmts};
use std::alloc::Global;

/// What the step units of a unit are made of.
#[derive(Clone, Copy)]
pub struct Source<'a> {
    /// The unit's variables, in order.
    pub variables: &'a Once,
    /// The first declaration of each variable.
    pub declared: &'a Declared,
    /// The names of the step units.
    pub names: &'a [Name],
}

// Adds the names among extents.
fn add_extents(alloc: Global, names: &mut Once, extents: &[Extent]) -> Result<(), Memory>
    ensures added { OnOk result (names.new ≡ all_added names.old (extents_in (map extent_of extents.now))) }
{
    for extent in extents {
        add_extent(alloc, names, extent)?;
    }
    Ok(())
}

// Adds the name that is an extent.
fn add_extent(alloc: Global, names: &mut Once, extent: &Extent) -> Result<(), Memory>
    ensures added { OnOk result (names.new ≡ all_added names.old (extents_in (extent_of extent.now ∷ []))) }
{
    match extent {
        Extent::Lit(_) => Ok(()),
        Extent::Dummy(x) => names.add(alloc, x),
    }
}

// The names among the extents of some variables.
fn extents_of(alloc: Global, declared: &Declared, used: &[Name]) -> Result<Once, Memory>
    ensures names { IfOk result (λ n. (ds : List Declaration) → Declares declared.now ds → n ≡ all_added [] (all_extents_in ds used.now)) }
{
    let mut names = Once::new(alloc)?;
    for x in used {
        let decl = declaration(alloc, 0, declared, x)?;
        add_extents(alloc, &mut names, decl.extents.as_slice())?;
    }
    Ok(names)
}

// The variable of a loop, and those in its body.
fn used_names(alloc: Global, x: &Name, body: &Stmts) -> Result<Once, Memory>
    ensures names { IfOk result (λ n. n ≡ all_added [] (x.now ∷ names_in_code (code_of body.now))) }
{
    let mut names = Once::new(alloc)?;
    names.add(alloc, x)?;
    add_code(alloc, &mut names, body)?;
    Ok(names)
}

// Adds a name where it is in one of two sets.
fn add_where(
    alloc: Global,
    used: &Once,
    extents: &Once,
    x: &Name,
    made: &mut Vec<Name>,
) -> Result<(), Memory>
    ensures added { OnOk result (made.new.items ≡ made.old.items ++ (if has_name x.now used.now || has_name x.now extents.now then x.now ∷ [] else [])) }
{
    if used.has(x) || extents.has(x) {
        made.push(x.copy(alloc)?)?;
    }
    Ok(())
}

// The variables that are used, or are extents of those that are.
fn kept(alloc: Global, used: &Once, extents: &Once, variables: &[Name]) -> Result<Vec<Name>, Memory>
    ensures kept { IfOk result (λ v. v.items ≡ kept_among used.now extents.now variables.now) }
{
    let mut made = Vec::new(alloc);
    for variable in variables {
        add_where(alloc, used, extents, variable, &mut made)?;
    }
    Ok(made)
}

/// The dummies of the step unit of a loop with this variable and body.
pub fn step_dummies(
    alloc: Global,
    source: Source<'_>,
    x: &Name,
    body: &Stmts,
) -> Result<Vec<Name>, Memory>
    ensures dummies { IfOk result (λ v. (taken : List (List ℕ)) (u : Procedure) → Knows source.entry taken u → v.items ≡ step_dummies u (plain x.now) (code_of body.now)) }
{
    let used = used_names(alloc, x, body)?;
    let extents = extents_of(alloc, source.declared, used.as_slice())?;
    let made = kept(alloc, &used, &extents, source.variables.as_slice())?;
    Ok(made)
}

/// The actuals of the call of a step unit.
pub fn as_actuals(alloc: Global, names: &[Name]) -> Result<Exprs, Memory>
    ensures actuals { IfOk result (λ es. terms_of es ≡ as_actuals names.now) }
{
    let mut actuals = Vec::new(alloc);
    for name in names {
        actuals.push(Expr::Var(name.copy(alloc)?))?;
    }
    let listed = Exprs::from_vec(alloc, actuals)?;
    Ok(listed)
}

// The declaration of a dummy at a line, with its extents.
fn step_declaration(alloc: Global, line: u32, declared: &Declared, x: &Name) -> Result<Decl, Memory>
    ensures declaration { IfOk result (λ d. (ds : List Declaration) → Declares declared.now ds → (declaration_of d ∷ []) ≡ step_declarations ds line (x.now ∷ [])) }
{
    let decl = declaration(alloc, line, declared, x)?;
    let name = x.copy(alloc)?;
    Ok(Decl {
        line,
        name,
        extents: decl.into_extents(),
    })
}

/// The declarations of the dummies of a step unit.
pub fn step_declarations(
    alloc: Global,
    line: u32,
    declared: &Declared,
    dummies: &[Name],
) -> Result<Vec<Decl>, Memory>
    ensures declarations { IfOk result (λ v. (ds : List Declaration) → Declares declared.now ds → map declaration_of v.items ≡ step_declarations ds line dummies.now) }
{
    let mut made = Vec::new(alloc);
    for x in dummies {
        made.push(step_declaration(alloc, line, declared, x)?)?;
    }
    Ok(made)
}
