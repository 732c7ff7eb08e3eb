//! The statements of a text, the names of a unit, and the text of what is emitted.

use adj_common::lower_common;
use adj_fixed::{Mode, statements};
use adj_naming::helper_set::HelperSet;
use adj_naming::names::Names;
use adj_naming::role::{Helper, Role};
use adj_parse::program;
use adj_print::text;
use adj_sets::{NameSet, add_texts};
use adj_sweep::callees::{Callee, Callees, Dummy};
use adj_tree::{Fault, Items, Memory, Name, Program, Stmts, Unit, boxed};
use std::alloc::Global;

/// The program of a text.
pub(crate) fn read_program(alloc: Global, source: &[u8]) -> Result<Box<Program>, Fault> {
    let stated = statements(alloc, source, Mode::Source)?;
    let read = program(alloc, stated.as_slice(), Mode::Source)?;
    let lowered = boxed(alloc, lower_common(alloc, read)?)?;
    Ok(lowered)
}

/// The body of a unit that has these statements.
pub(crate) fn read(alloc: Global, lines: &str) -> Result<Stmts, Fault> {
    let all = format!(in alloc; "      SUBROUTINE P\n{lines}      END\n")?;
    let read = read_program(alloc, all.as_bytes())?;
    let mut units = Box::into_inner(read).into_units().into_vec();
    match units.pop() {
        Some(unit) => Ok(unit.into_body()),
        None => Ok(Stmts::Empty),
    }
}

fn name(alloc: Global, text: &[u8]) -> Result<Name, Memory> {
    Name::from_slice(alloc, text)
}

pub(crate) fn listed(alloc: Global, texts: &[&[u8]]) -> Result<Vec<Name>, Memory> {
    let mut made = Vec::new(alloc);
    for text in texts {
        made.push(name(alloc, text)?)?;
    }
    Ok(made)
}

fn set_of(alloc: Global, texts: &[&[u8]]) -> Result<NameSet, Memory> {
    let mut set = NameSet::new(alloc)?;
    add_texts(alloc, &mut set, texts)?;
    Ok(set)
}

fn helper_set_of(alloc: Global, helpers: &[(Role, usize)]) -> Result<HelperSet, Memory> {
    let mut set = HelperSet::new(alloc);
    for (role, number) in helpers {
        set.add(Helper {
            role: *role,
            number: *number,
        })?;
    }
    Ok(set)
}

/// What a unit's variables, their shadows and its helpers are called.
#[derive(Clone, Copy)]
pub(crate) struct Called<'a> {
    pub variables: &'a [&'a [u8]],
    pub shadows: &'a [&'a [u8]],
    pub helpers: &'a [(Role, usize)],
    pub helper_names: &'a [&'a [u8]],
}

pub(crate) fn names(alloc: Global, called: &Called) -> Result<Box<Names>, Memory> {
    let variables = Items::new(listed(alloc, called.variables)?);
    let shadowed = set_of(alloc, called.variables)?;
    let shadows = Items::new(listed(alloc, called.shadows)?);
    let helpers = helper_set_of(alloc, called.helpers)?;
    let helper_names = Items::new(listed(alloc, called.helper_names)?);
    let names = Names {
        variables,
        shadowed,
        shadows,
        helpers,
        helper_names,
    };
    boxed(alloc, names)
}

/// No unit is known.
pub(crate) fn no_callees(alloc: Global) -> Result<Box<Callees>, Memory> {
    let names = NameSet::new(alloc)?;
    let other = callee(alloc, b"", Vec::new(alloc))?;
    let callees = Callees {
        names,
        known: Vec::new(alloc),
        other,
    };
    boxed(alloc, callees)
}

// A unit with this adjoint, which isn't split.
fn callee(alloc: Global, adjoint: &[u8], dummies: Vec<Dummy>) -> Result<Callee, Memory> {
    let adjoint = name(alloc, adjoint)?;
    let forth = name(alloc, b"")?;
    let back = name(alloc, b"")?;
    Ok(Callee {
        adjoint,
        forth,
        back,
        dummies,
    })
}

/// One unit is known: its name, that of its adjoint, and its dummies.
pub(crate) fn one_callee(
    alloc: Global,
    unit: &[u8],
    adjoint: &[u8],
    dummies: &[Dummy],
) -> Result<Box<Callees>, Memory> {
    let known = callee(alloc, adjoint, Vec::from_slice(alloc, dummies)?)?;
    let mut callees = no_callees(alloc)?;
    callees.known.push(known)?;
    callees.names = set_of(alloc, &[unit])?;
    Ok(callees)
}

fn unit(alloc: Global, body: Stmts) -> Result<Unit, Memory> {
    Ok(Unit {
        line: 1,
        name: name(alloc, b"P")?,
        dummies: Items::new(Vec::new(alloc)),
        none: false,
        decls: Items::new(Vec::new(alloc)),
        body,
    })
}

/// Whether statements are printed as these lines.
pub(crate) fn is_text(alloc: Global, code: Stmts, lines: &str) -> Result<bool, Memory> {
    let mut units = Vec::new(alloc);
    units.push(unit(alloc, code)?)?;
    let program = Program {
        units: Items::new(units),
    };
    let printed = text(alloc, &program)?;
    let wanted = format!(in alloc; "      SUBROUTINE P\n{lines}      END\n")?;
    Ok(printed.as_slice() == wanted.as_bytes())
}
