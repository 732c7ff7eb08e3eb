//! Names with the lines where they stand.

ghost use Rattle.std.specs.Prelude.{◌≡◌, ◌++◌, ◌∷◌, [], ℕ, List, map, flat_map, fold, not, IfOk, OnOk};
ghost use Rattle.adj_tree.specs.Codes.{code_number};
ghost use Rattle.adj_tree.specs.View.{declaration_of, procedure_of};
ghost use Rattle.def_names.specs.Statements.{At};
ghost use Rattle.def_names.specs.Variables.{Name};
ghost use Rattle.def_names.specs.Fault.{fault, faults_if, again, first_of, sooner};
ghost use Rattle.def_names.specs.Reserved.{is_reserved};
ghost use Rattle.def_names.specs.UnitFaults.{unit_places, reserved_units, repeated_units, unit_faults};
ghost use Rattle.adj_sets.specs.Sets.{with_name};
ghost use Rattle.adj_symbols.specs.Table.{once};
ghost use Rattle.adj_symbols.specs.View.{places_of, names_at};

use crate::first::First;
use adj_sets::BorrowedNames;
use adj_tree::{Code, Memory, Name, Unit};
use def_names::is_reserved;
use std::alloc::Global;

/// A name that stands at a line.
#[derive(Drop)]
pub(crate) struct Placed<'a> {
    pub line: u32,
    pub name: &'a Name,
}

/// Adds a fault at each name that is among those before it, and gives the names, each once.
pub(crate) fn add_again<'a>(
    alloc: Global,
    code: Code,
    places: &[Placed<'a>],
    first: &mut First,
) -> Result<BorrowedNames<'a>, Memory>
    ensures first { OnOk result (first.new ≡ sooner first.old (first_of (again (code_number code) [] (places_of places.now)))) }
    ensures names { IfOk result (λ s. s ≡ once (names_at (places_of places.now))) }
{
    let mut names = BorrowedNames::new(alloc)?;
    for place in places {
        let added = names.insert(place.name)?;
        first.add_if(!added, code, place.line);
    }
    Ok(names)
}

/// Adds a fault at each name that an intrinsic or a runtime call has.
pub(crate) fn add_reserved(places: &[Placed<'_>], first: &mut First)
    ensures { first.new ≡ sooner first.old (first_of (flat_map (λ p. faults_if (is_reserved p.1) (fault 18 p.0)) (places_of places.now))) }
{
    for place in places {
        first.add_if(is_reserved(place.name), Code::ReservedName, place.line);
    }
}

// The names of units, each in its SUBROUTINE.
fn unit_places<'a>(alloc: Global, units: &'a [Unit]) -> Result<Vec<Placed<'a>>, Memory>
    ensures { IfOk result (λ v. places_of v.items ≡ unit_places (map procedure_of units.now)) }
{
    let mut places = Vec::new(alloc);
    for unit in units {
        places.push(Placed {
            line: unit.line,
            name: &unit.name,
        })?;
    }
    Ok(places)
}

/// Adds the faults of units, and gives their names, each once.
pub(crate) fn add_unit_faults<'a>(
    alloc: Global,
    units: &'a [Unit],
    first: &mut First,
) -> Result<BorrowedNames<'a>, Memory>
    ensures first { OnOk result (first.new ≡ sooner first.old (first_of (unit_faults (map procedure_of units.now)))) }
    ensures names { IfOk result (λ s. s ≡ once (names_at (unit_places (map procedure_of units.now)))) }
{
    let found = unit_places(alloc, units)?;
    let places = found.as_slice();
    add_reserved(places, first);
    let names = add_again(alloc, Code::RepeatedUnit, places, first)?;
    Ok(names)
}
