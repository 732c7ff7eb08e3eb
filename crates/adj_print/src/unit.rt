//! Units and programs.

ghost use Rattle.std.specs.Prelude.{◌≡◌, ◌++◌, codes, IfOk, OnOk};
ghost use Rattle.std.specs.List.{flat_map};
ghost use Rattle.std.specs.Prelude.{map};
ghost use Rattle.adj_tree.specs.View.{declaration_of, procedure_of, procedures_of};
ghost use Rattle.def_text.specs.ReadsAs.{ReadsAs};
ghost use Rattle.def_text.specs.Written.{IsWritten};
ghost use Rattle.def_text.specs.Text.{statement, bracketed, declaration_text, implicit_text, procedure_text, text_of};
ghost use Rattle.adj_print.specs.Opening.{opening_text};

use crate::layout::push_statement;
use crate::list::{push_extents, push_name, push_names};
use crate::statement::{push_each, push_stmts};
use adj_tree::{Decl, Memory, Name, Program, Unit};
use std::alloc::Global;

fn push_heading(
    chars: &mut Vec<u8>,
    out: &mut Vec<u8>,
    name: &Name,
    dummies: &[Name],
) -> Result<(), Memory>
    ensures lines { OnOk result (out.new.items ≡ out.old.items ++ statement (codes "SUBROUTINE " ++ name.now ++ bracketed dummies.now)) }
{
    chars.clear();
    chars.extend_from_slice(b"SUBROUTINE ")?;
    push_name(chars, name)?;
    push_names(chars, dummies)?;
    push_statement(out, chars.as_slice())
}

fn push_implicit(out: &mut Vec<u8>, none: bool) -> Result<(), Memory>
    ensures lines { OnOk result (out.new.items ≡ out.old.items ++ implicit_text none) }
{
    if none {
        push_statement(out, b"IMPLICIT NONE")?;
    }
    Ok(())
}

fn push_decl(chars: &mut Vec<u8>, out: &mut Vec<u8>, decl: &Decl) -> Result<(), Memory>
    ensures lines { OnOk result (out.new.items ≡ out.old.items ++ declaration_text (declaration_of decl.now)) }
{
    chars.clear();
    chars.extend_from_slice(b"INTEGER*8 ")?;
    push_name(chars, &decl.name)?;
    push_extents(chars, decl.extents.as_slice())?;
    push_statement(out, chars.as_slice())
}

fn push_decls(chars: &mut Vec<u8>, out: &mut Vec<u8>, decls: &[Decl]) -> Result<(), Memory>
    ensures lines { OnOk result (out.new.items ≡ out.old.items ++ flat_map declaration_text (map declaration_of decls.now)) }
{
    for decl in decls {
        push_decl(chars, out, decl)?;
    }
    Ok(())
}

// The lines of a unit before its statements.
fn push_opening(chars: &mut Vec<u8>, out: &mut Vec<u8>, unit: &Unit) -> Result<(), Memory>
    ensures lines { OnOk result (out.new.items ≡ out.old.items ++ opening_text (procedure_of unit.now)) }
{
    push_heading(chars, out, &unit.name, unit.dummies.as_slice())?;
    push_implicit(out, unit.none)?;
    push_decls(chars, out, unit.decls.as_slice())
}

fn push_unit(chars: &mut Vec<u8>, out: &mut Vec<u8>, unit: &Unit) -> Result<(), Memory>
    ensures lines { OnOk result (out.new.items ≡ out.old.items ++ procedure_text (procedure_of unit.now)) }
{
    push_opening(chars, out, unit)?;
    push_stmts(chars, out, &unit.body)?;
    push_statement(out, b"END")
}

// A unit, whose statements are let go as they are written.
fn push_last(
    alloc: Global,
    chars: &mut Vec<u8>,
    out: &mut Vec<u8>,
    unit: Unit,
) -> Result<(), Memory>
    ensures lines { OnOk result (out.new.items ≡ out.old.items ++ procedure_text (procedure_of unit)) }
{
    push_opening(chars, out, &unit)?;
    push_each(alloc, chars, out, unit.into_body())?;
    push_statement(out, b"END")
}

fn all_lines(alloc: Global, p: &Program) -> Result<Vec<u8>, Memory>
    ensures text { IfOk result (λ v. v.items ≡ text_of (procedures_of p.now)) }
{
    let mut chars = Vec::new(alloc);
    let mut out = Vec::new(alloc);
    for unit in p.units.as_slice() {
        push_unit(&mut chars, &mut out, unit)?;
    }
    Ok(out)
}

/// The canonical text of a program, whether or not it is written. Where it is, the text reads as the program, up to line numbers.
pub fn text(alloc: Global, p: &Program) -> Result<Vec<u8>, Memory>
    ensures text { IfOk result (λ v. v.items ≡ text_of (procedures_of p.now)) }
    ensures reads { IsWritten (procedures_of p.now) → IfOk result (λ v. ReadsAs v.items (procedures_of p.now)) }
{
    let bytes = all_lines(alloc, p)?;
    Ok(bytes)
}

/// The text of a program that isn't needed any more: each statement of a unit is let go when its lines are there, so that the text takes the place of the tree.
pub fn into_text(alloc: Global, p: Program) -> Result<Vec<u8>, Memory>
    ensures text { IfOk result (λ v. v.items ≡ text_of (procedures_of p)) }
{
    let mut chars = Vec::new(alloc);
    let mut out = Vec::new(alloc);
    for unit in p.into_units().into_vec() {
        push_last(alloc, &mut chars, &mut out, unit)?;
    }
    Ok(out)
}
