//! The names of members that a unit passes through.

ghost use Rattle.std.specs.Prelude.{◌≡◌, ◌++◌, map, flat_map, IfOk, OnOk};
ghost use Rattle.adj_tree.specs.Code.{plain};
ghost use Rattle.adj_tree.specs.View.{extent_of, declaration_of, runtime_of, act_of, code_of};
ghost use Rattle.adj_tree.specs.CommonView.{common_of, shared_of};
ghost use Rattle.def_names.specs.NameFaults.{extent_names};
ghost use Rattle.def_names.specs.Statements.{statements};
ghost use Rattle.adj_symbols_writes.specs.Names.{names_among};
ghost use Rattle.adj_symbols_writes.specs.View.{seen, names_seen, vars_seen};
ghost use Rattle.adj_common.specs.Naming.{vars_in_runtime, vars_in_act, vars_of_names, vars_declared, vars_in_extents, vars_of_items, text_vars};

use adj_symbols_writes::statements::statements;
use adj_symbols_writes::variables::{add_mark, add_term, add_terms, add_test};
use adj_tree::{Act, Common, Decl, Extent, Memory, Name, RunCall, SharedUnit, Stmt, Stmts};
use std::alloc::Global;

// Adds the variables in a call of the runtime.
fn add_runtime<'a>(call: &'a RunCall, out: &mut Vec<&'a Name>) -> Result<(), Memory>
    ensures added { OnOk result (vars_seen out.new.items ≡ vars_seen out.old.items ++ vars_in_runtime (runtime_of call.now)) }
{
    match call {
        RunCall::PushWord(place) | RunCall::PopWord(place) => {
            out.push(&place.name)?;
            add_terms(&place.subs, out)
        }
        RunCall::PushArray(name)
        | RunCall::PopArray(name)
        | RunCall::PopControl(name)
        | RunCall::Zero(name) => {
            out.push(name)?;
            Ok(())
        }
        RunCall::PushControl(e) => add_term(e, out),
        RunCall::Begin(l, s) => {
            add_term(l, out)?;
            add_term(s, out)
        }
        RunCall::Actions(l, s, n) => {
            add_term(l, out)?;
            add_term(s, out)?;
            out.push(n)?;
            Ok(())
        }
        RunCall::Action(l, s, k, a, f, t) => {
            add_term(l, out)?;
            add_term(s, out)?;
            add_term(k, out)?;
            out.push(a)?;
            out.push(f)?;
            out.push(t)?;
            Ok(())
        }
        RunCall::End => Ok(()),
    }
}

// Adds the variables in a statement itself.
fn add_act<'a>(act: &'a Act, out: &mut Vec<&'a Name>) -> Result<(), Memory>
    ensures added { OnOk result (vars_seen out.new.items ≡ vars_seen out.old.items ++ vars_in_act (act_of act.now)) }
{
    match act {
        Act::Assign(place, e) => {
            out.push(&place.name)?;
            add_terms(&place.subs, out)?;
            add_term(e, out)
        }
        Act::If(test, _, _) | Act::While(test, _) => add_test(test, out),
        Act::Loop(name, first, last, by, _, mark) => {
            add_mark(mark, out)?;
            out.push(name)?;
            add_term(first, out)?;
            add_term(last, out)?;
            add_term(by, out)
        }
        Act::Call(_, actuals) => add_terms(actuals, out),
        Act::Run(call) => add_runtime(call, out),
    }
}

// Adds those in some statements.
fn add_acts<'a>(stmts: &[&'a Stmt], out: &mut Vec<&'a Name>) -> Result<(), Memory>
    ensures added { OnOk result (vars_seen out.new.items ≡ vars_seen out.old.items ++ flat_map (λ t. vars_in_act t.1) (seen stmts.now)) }
{
    for stmt in stmts {
        add_act(&stmt.act, out)?;
    }
    Ok(())
}

// Adds the variables in a list of statements.
fn add_body<'a>(alloc: Global, body: &'a Stmts, out: &mut Vec<&'a Name>) -> Result<(), Memory>
    ensures added { OnOk result (vars_seen out.new.items ≡ vars_seen out.old.items ++ flat_map (λ t. vars_in_act t.1) (statements (code_of body.now))) }
{
    let stmts = statements(alloc, body)?;
    add_acts(stmts.as_slice(), out)
}

// Adds the names among some extents.
fn add_extents<'a>(extents: &'a [Extent], out: &mut Vec<&'a Name>) -> Result<(), Memory>
    ensures added { OnOk result (vars_seen out.new.items ≡ vars_seen out.old.items ++ map plain (extent_names (map extent_of extents.now))) }
{
    for extent in extents {
        if let Extent::Dummy(name) = extent {
            out.push(name)?;
        }
    }
    Ok(())
}

// Adds some names.
fn add_names<'a>(names: &'a [Name], out: &mut Vec<&'a Name>) -> Result<(), Memory>
    ensures added { OnOk result (vars_seen out.new.items ≡ vars_seen out.old.items ++ vars_of_names names.now) }
{
    for name in names {
        out.push(name)?;
    }
    Ok(())
}

// Adds the names of some declarations.
fn add_declared<'a>(decls: &'a [Decl], out: &mut Vec<&'a Name>) -> Result<(), Memory>
    ensures added { OnOk result (vars_seen out.new.items ≡ vars_seen out.old.items ++ vars_declared (map declaration_of decls.now)) }
{
    for decl in decls {
        out.push(&decl.name)?;
    }
    Ok(())
}

// Adds the names among the extents of some declarations.
fn add_all_extents<'a>(decls: &'a [Decl], out: &mut Vec<&'a Name>) -> Result<(), Memory>
    ensures added { OnOk result (vars_seen out.new.items ≡ vars_seen out.old.items ++ vars_in_extents (map declaration_of decls.now)) }
{
    for decl in decls {
        add_extents(decl.extents.as_slice(), out)?;
    }
    Ok(())
}

// Adds the names of the items of COMMON statements.
fn add_items<'a>(commons: &'a [Common], out: &mut Vec<&'a Name>) -> Result<(), Memory>
    ensures added { OnOk result (vars_seen out.new.items ≡ vars_seen out.old.items ++ vars_of_items (map common_of commons.now)) }
{
    for common in commons {
        add_declared(common.members.as_slice(), out)?;
    }
    Ok(())
}

// The same names as those that stand elsewhere.
fn copied(alloc: Global, names: &[&Name]) -> Result<Vec<Name>, Memory>
    ensures same { IfOk result (λ v. v.items ≡ names_seen names.now) }
{
    let mut out = Vec::new(alloc);
    for name in names {
        out.push(name.copy(alloc)?)?;
    }
    Ok(out)
}

/// The names in a unit's text.
pub(crate) fn names_in(alloc: Global, shared: &SharedUnit) -> Result<Vec<Name>, Memory>
    ensures names { IfOk result (λ v. v.items ≡ names_among (text_vars (shared_of shared.now))) }
{
    let mut names = Vec::new(alloc);
    add_names(shared.unit.dummies.as_slice(), &mut names)?;
    add_declared(shared.unit.decls.as_slice(), &mut names)?;
    add_body(alloc, &shared.unit.body, &mut names)?;
    add_items(shared.commons.as_slice(), &mut names)?;
    add_all_extents(shared.unit.decls.as_slice(), &mut names)?;
    copied(alloc, names.as_slice())
}
