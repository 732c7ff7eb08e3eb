//! The variables that units write or read themselves, in one list.

ghost use Rattle.std.specs.Prelude.{◌≡◌, ◌++◌, map, flat_map, IfOk, OnOk};
ghost use Rattle.adj_tree.specs.Code.{plain};
ghost use Rattle.adj_tree.specs.View.{runtime_of, act_of, extent_of, declaration_of, procedure_of};
ghost use Rattle.def_names.specs.NameFaults.{extent_names};
ghost use Rattle.adj_symbols_writes.specs.Names.{changed_by, looked_in, own_written, own_read, own, extents_read, declared_read, direct};
ghost use Rattle.adj_symbols_writes.specs.View.{seen, names_seen, vars_seen};

use crate::side::Side;
use crate::statements::statements;
use crate::variables::{add_mark, add_others, add_term, add_terms, add_test};
use adj_tree::{Act, Decl, Extent, Memory, Name, RunCall, Stmt, Unit};
use std::alloc::Global;

// Adds what a runtime call reads.
fn add_looked<'a>(call: &'a RunCall, out: &mut Vec<&'a Name>) -> Result<(), Memory>
    ensures added { OnOk result (vars_seen out.new.items ≡ vars_seen out.old.items ++ looked_in (runtime_of call.now)) }
{
    match call {
        RunCall::PushWord(place) => {
            out.push(&place.name)?;
            add_terms(&place.subs, out)
        }
        RunCall::PopWord(place) => add_terms(&place.subs, out),
        RunCall::PushArray(name) => {
            out.push(name)?;
            Ok(())
        }
        RunCall::PushControl(e) => add_term(e, out),
        RunCall::Begin(l, s) | RunCall::Actions(l, s, _) => {
            add_term(l, out)?;
            add_term(s, out)
        }
        RunCall::Action(l, s, k, _, _, _) => {
            add_term(l, out)?;
            add_term(s, out)?;
            add_term(k, out)
        }
        RunCall::PopArray(_) | RunCall::PopControl(_) | RunCall::Zero(_) | RunCall::End => Ok(()),
    }
}

/// Adds what a runtime call changes.
pub fn add_changed<'a>(call: &'a RunCall, out: &mut Vec<&'a Name>) -> Result<(), Memory>
    ensures added { OnOk result (vars_seen out.new.items ≡ vars_seen out.old.items ++ changed_by (runtime_of call.now)) }
{
    match call {
        RunCall::PopWord(place) => out.push(&place.name)?,
        RunCall::PopArray(name)
        | RunCall::PopControl(name)
        | RunCall::Zero(name)
        | RunCall::Actions(_, _, name) => out.push(name)?,
        RunCall::Action(_, _, _, action, from, to) => {
            out.push(action)?;
            out.push(from)?;
            out.push(to)?;
        }
        RunCall::PushWord(_)
        | RunCall::PushArray(_)
        | RunCall::PushControl(_)
        | RunCall::Begin(_, _)
        | RunCall::End => {}
    }
    Ok(())
}

// Adds what a statement writes itself.
fn add_own_written<'a>(act: &'a Act, out: &mut Vec<&'a Name>) -> Result<(), Memory>
    ensures added { OnOk result (vars_seen out.new.items ≡ vars_seen out.old.items ++ own_written (act_of act.now)) }
{
    match act {
        Act::Assign(place, _) => {
            out.push(&place.name)?;
            Ok(())
        }
        Act::Loop(name, _, _, _, _, _) => {
            out.push(name)?;
            Ok(())
        }
        Act::Run(call) => add_changed(call, out),
        Act::Call(_, _) | Act::If(_, _, _) | Act::While(_, _) => Ok(()),
    }
}

// Adds what a statement reads itself.
fn add_own_read<'a>(act: &'a Act, out: &mut Vec<&'a Name>) -> Result<(), Memory>
    ensures added { OnOk result (vars_seen out.new.items ≡ vars_seen out.old.items ++ own_read (act_of act.now)) }
{
    match act {
        Act::Assign(place, e) => {
            add_term(e, out)?;
            add_terms(&place.subs, out)
        }
        Act::If(test, _, _) | Act::While(test, _) => add_test(test, out),
        Act::Loop(_, first, last, by, _, mark) => {
            add_term(first, out)?;
            add_term(last, out)?;
            add_term(by, out)?;
            add_mark(mark, out)
        }
        Act::Call(_, actuals) => add_others(actuals, out),
        Act::Run(call) => add_looked(call, out),
    }
}

// Adds what a statement writes or reads itself.
fn add_own<'a>(side: Side, act: &'a Act, out: &mut Vec<&'a Name>) -> Result<(), Memory>
    ensures added { OnOk result (vars_seen out.new.items ≡ vars_seen out.old.items ++ own side (act_of act.now)) }
{
    match side {
        Side::Written => add_own_written(act, out),
        Side::Read => add_own_read(act, out),
    }
}

// Adds what statements write or read themselves.
fn add_all<'a>(side: Side, stmts: &[&'a Stmt], out: &mut Vec<&'a Name>) -> Result<(), Memory>
    ensures added { OnOk result (vars_seen out.new.items ≡ vars_seen out.old.items ++ flat_map (λ s. own side s.1) (seen stmts.now)) }
{
    for stmt in stmts {
        add_own(side, &stmt.act, out)?;
    }
    Ok(())
}

// Adds the names among the extents of a declaration.
fn add_extent_names<'a>(decl: &'a Decl, out: &mut Vec<&'a Name>) -> Result<(), Memory>
    ensures added { OnOk result (vars_seen out.new.items ≡ vars_seen out.old.items ++ map plain (extent_names (map extent_of decl.now.extents))) }
{
    for extent in decl.extents.as_slice() {
        if let Extent::Dummy(name) = extent {
            out.push(name)?;
        }
    }
    Ok(())
}

// Adds the names among all extents.
fn add_extents<'a>(decls: &'a [Decl], out: &mut Vec<&'a Name>) -> Result<(), Memory>
    ensures added { OnOk result (vars_seen out.new.items ≡ vars_seen out.old.items ++ extents_read (map declaration_of decls.now)) }
{
    for decl in decls {
        add_extent_names(decl, out)?;
    }
    Ok(())
}

// Adds what the declarations of a unit read.
fn add_declared<'a>(side: Side, decls: &'a [Decl], out: &mut Vec<&'a Name>) -> Result<(), Memory>
    ensures added { OnOk result (vars_seen out.new.items ≡ vars_seen out.old.items ++ declared_read side (map declaration_of decls.now)) }
{
    match side {
        Side::Written => Ok(()),
        Side::Read => add_extents(decls, out),
    }
}

/// The names of what a unit writes or reads without its calls.
#[tactic(auto, using(crate::proofs::Naming::seen_among))]
pub(crate) fn direct<'a>(alloc: Global, side: Side, unit: &'a Unit) -> Result<Vec<&'a Name>, Memory>
    ensures direct { IfOk result (λ v. names_seen v.items ≡ direct side (procedure_of unit.now)) }
{
    let mut names = Vec::new(alloc);
    let stmts = statements(alloc, &unit.body)?;
    add_all(side, stmts.as_slice(), &mut names)?;
    add_declared(side, unit.decls.as_slice(), &mut names)?;
    Ok(names)
}
