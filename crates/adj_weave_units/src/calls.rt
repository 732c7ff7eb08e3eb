//! Which units call which, and in which statements.

ghost use Rattle.std.specs.Prelude.{◌≡◌, ◌++◌, IfOk, OnOk, map, option_map, position, true, false};
ghost use Rattle.adj_tree.specs.Code.{name_eq};
ghost use Rattle.adj_tree.specs.View.{mark_of, act_of, code_of, procedure_of};
ghost use Rattle.def_names.specs.Numbers.{next, behind};
ghost use Rattle.adj_weave_units.specs.Calls.{only_called, turned, call_to, listed_act, listed_in, listed_from, edges_of};

use crate::numbers::after;
use adj_sets::NameSet;
use adj_tree::{Act, Mark, Memory, Name, Stmts, Unit};
use std::alloc::Global;

/// A call: the number of its statement, the places of the calling and of the called unit, and whether it is the step call of a marked loop.
#[derive(Clone, Copy, PartialEq, Eq, Debug)]
pub struct Call {
    pub number: usize,
    pub from: usize,
    pub to: usize,
    pub turns: bool,
}

// The unit that a list calls, if a call is all that it is.
fn only_called(body: &Stmts) -> Option<&Name>
    ensures called { option_map (λ r. r.now) result ≡ only_called (code_of body.now) }
{
    let Stmts::More(row) = body else {
        return None;
    };
    let Act::Call(name, _) = &row.first.act else {
        return None;
    };
    match &row.rest {
        Stmts::Empty => Some(name),
        Stmts::More(_) => None,
    }
}

// The unit that the turns of a marked loop call, if a call is all that they do.
fn turned<'s>(body: &'s Stmts, mark: &Mark) -> Option<&'s Name>
    ensures turned { option_map (λ r. r.now) result ≡ turned (mark_of mark.now) (code_of body.now) }
{
    match mark {
        Mark::Plain => None,
        Mark::Count(_) | Mark::From(_) => only_called(body),
    }
}

// Adds the call of the unit of a name.
fn add_call(
    names: &NameSet,
    from: usize,
    number: usize,
    name: &Name,
    turns: bool,
    calls: &mut Vec<Call>,
) -> Result<(), Memory>
    ensures calls { OnOk result (calls.new.items ≡ calls.old.items ++ call_to number from turns (position (name_eq name.now) names.now)) }
{
    if let Some(to) = names.place(name.bytes()) {
        calls.push(Call {
            number,
            from,
            to,
            turns,
        })?;
    }
    Ok(())
}

// Adds each call in a statement, and gives the number that comes after those of the statement.
#[cycle(calls)]
fn add_act(
    names: &NameSet,
    from: usize,
    number: usize,
    act: &Act,
    calls: &mut Vec<Call>,
) -> Result<usize, Memory>
    ensures next { IfOk result (λ n. n ≡ next number (act_of act.now)) }
    ensures calls { OnOk result (calls.new.items ≡ calls.old.items ++ listed_act names.now from number (act_of act.now)) }
{
    let inside = after(number)?;
    match act {
        Act::If(_, a, b) => {
            let second = add_list(names, from, inside, a, calls)?;
            add_list(names, from, second, b, calls)
        }
        Act::Loop(_, _, _, _, body, mark) => match turned(body, mark) {
            Some(name) => {
                add_call(names, from, inside, name, true, calls)?;
                after(inside)
            }
            None => { add_list(names, from, inside, body, calls) }
        },
        Act::While(_, body) => { add_list(names, from, inside, body, calls) }
        Act::Call(name, _) => {
            add_call(names, from, number, name, false, calls)?;
            Ok(inside)
        }
        Act::Assign(_, _) | Act::Run(_) => Ok(inside),
    }
}

// Adds each call in a list, and gives the number that comes after those of the list.
#[cycle(calls)]
fn add_list(
    names: &NameSet,
    from: usize,
    first: usize,
    list: &Stmts,
    calls: &mut Vec<Call>,
) -> Result<usize, Memory>
    ensures behind { IfOk result (λ n. n ≡ behind first (code_of list.now)) }
    ensures calls { OnOk result (calls.new.items ≡ calls.old.items ++ listed_in names.now from first (code_of list.now)) }
{
    let mut number = first;
    let mut current = list;
    while let Stmts::More(row) = current {
        number = add_act(names, from, number, &row.first.act, calls)?;
        current = &row.rest;
    }
    Ok(number)
}

/// Each call of the units, where units have these names.
pub fn listed_calls(alloc: Global, units: &[Unit], names: &NameSet) -> Result<Vec<Call>, Memory>
    ensures calls { IfOk result (λ v. v.items ≡ listed_from names.now 0 0 (map procedure_of units.now)) }
{
    let mut calls = Vec::new(alloc);
    let mut number = 0;
    for (place, unit) in units.iter().enumerate() {
        number = add_list(names, place, number, &unit.body, &mut calls)?;
    }
    Ok(calls)
}

/// An edge for each call, from the unit that calls to the one that is called.
pub fn all_edges(alloc: Global, calls: &[Call]) -> Result<Vec<(usize, usize)>, Memory>
    ensures edges { IfOk result (λ v. v.items ≡ edges_of (λ i turns. true) calls.now) }
{
    let mut made = Vec::new(alloc);
    for call in calls {
        made.push((call.from, call.to))?;
    }
    Ok(made)
}
