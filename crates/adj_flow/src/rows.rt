//! The units of a program with their statements, ways and variables.

ghost use Rattle.std.specs.Prelude.{◌≡◌, ◌+◌, ◌*◌, ◌<◌, ◌^◌, ℕ, List, [], map, length, IfOk, OnOk};
ghost use Rattle.adj_tree.specs.View.{code_of, procedure_of};
ghost use Rattle.def_names.specs.Numbers.{behind};
ghost use Rattle.def_flow.specs.Parts.{part};
ghost use Rattle.def_names.specs.StatementsIn.{statements_in};
ghost use Rattle.adj_symbols_writes.specs.Graph.{place_from};
ghost use Rattle.adj_symbols_writes.specs.Table.{value_of};
ghost use Rattle.adj_flow.specs.Low.{AreFew};
ghost use Rattle.adj_flow.specs.Rows.{row_of, row_at, rows};

use crate::deed::Deed;
use crate::outline::{Outline, add_list};
use crate::place::Place;
use crate::row::Part;
use crate::standing::Standing;
use crate::way::Point;
use adj_symbols_writes::table::Numbers;
use adj_tree::{Memory, NameList, Unit};
use std::alloc::Global;
use std::mem;

// The places of names.
fn places<'a>(alloc: Global, names: &'a NameList) -> Result<Numbers<'a>, Memory>
    ensures places { IfOk result (λ r. (x : List ℕ) → value_of x r ≡ place_from 0 names.now x) }
{
    let mut places = Numbers::new(alloc);
    for (place, name) in names.as_slice().iter().enumerate() {
        places.add(name, place)?;
    }
    Ok(places)
}

// The points of entry and end of a unit of a program with so many statements.
fn ends(count: usize, number: usize) -> (usize, usize)
    requires count { count < 2 ^ 30 }
    requires number { number < 2 ^ 30 }
    ensures ends { (result.0 ≡ 3 * count + 2 * number) × (result.1 ≡ 3 * count + 2 * number + 1) }
{
    let entry = 3 * count + 2 * number;
    (entry, entry + 1)
}

// These statements once more.
fn copied<'a>(alloc: Global, statements: &[Standing<'a>]) -> Result<Vec<Standing<'a>>, Memory>
    ensures same { IfOk result (λ v. v.items ≡ statements.now) }
{
    let copy = statements.iter().copied().collect(alloc)?;
    Ok(copy)
}

// A unit, whose statements are added to those of the units before it.
fn part<'a>(
    alloc: Global,
    outline: &mut Outline<'a>,
    unit: &'a Unit,
    variables: &'a NameList,
    number: usize,
    count: usize,
) -> Result<Part<'a>, Memory>
    requires none { outline.old.ways.items ≡ [] }
    requires room { behind (length outline.old.statements.items) (code_of unit.now.body) < 2 ^ 30 }
    requires count { count < 2 ^ 30 }
    requires number { number < 2 ^ 30 }
    requires narrow { length variables.now < 2 ^ 30 }
    ensures row { IfOk result (λ p. row_of p ≡ row_at variables.now (part count number (length outline.old.statements.items) (procedure_of unit.now))) }
    ensures statements { OnOk result (length outline.new.statements.items ≡ behind (length outline.old.statements.items) (code_of unit.now.body)) }
    ensures ways { OnOk result (outline.new.ways.items ≡ []) }
{
    let points = ends(count, number);
    let first = outline.statements.len();
    let deed = Deed::Passing;
    add_list(
        outline,
        Place::Outermost,
        Point::At(points.0),
        Point::At(points.1),
        deed,
        &unit.body,
    )?;
    let ways = mem::replace(&mut outline.ways, Vec::new(alloc));
    let statements = copied(alloc, &outline.statements[first..])?;
    let places = places(alloc, variables)?;
    Ok(Part {
        number,
        unit,
        first,
        entry: points.0,
        end: points.1,
        statements,
        ways,
        variables,
        places,
    })
}

/// The units, which have so many statements, with their variables.
pub fn parts<'a>(
    alloc: Global,
    units: &'a [Unit],
    variables: &[&'a NameList],
    count: usize,
) -> Result<Vec<Part<'a>>, Memory>
    requires variables { length variables.now ≡ length units.now }
    requires few { AreFew (map (λ b. b.now) variables.now) (map procedure_of units.now) }
    requires count { count ≡ statements_in 0 (map procedure_of units.now) }
    ensures rows { IfOk result (λ v. map row_of v.items ≡ rows (map (λ b. b.now) variables.now) (map procedure_of units.now)) }
{
    let mut outline = Outline {
        statements: Vec::new(alloc),
        ways: Vec::new(alloc),
    };
    let mut parts = Vec::new(alloc);
    for (number, unit) in units.iter().enumerate() {
        let variables = variables[number];
        let part = part(alloc, &mut outline, unit, variables, number, count)?;
        parts.push(part)?;
    }
    Ok(parts)
}
