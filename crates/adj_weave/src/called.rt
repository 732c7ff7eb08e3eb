//! What the sweeps of calls know of the units of a program.

ghost use Rattle.std.specs.Prelude.{◌≡◌, ◌+◌, IfOk, map, length};
ghost use Rattle.adj_tree.specs.View.{procedures_of};
ghost use Rattle.def_meaning.specs.Apart.{AreApart};
ghost use Rattle.def_meaning.specs.LeastSet.{least_rows};
ghost use Rattle.def_meaning.specs.Read.{read_rule};
ghost use Rattle.def_meaning.specs.Written.{write_rule};
ghost use Rattle.def_sweep.specs.Declared.{unit_name};
ghost use Rattle.def_sweep.specs.Marking.{callee_in};
ghost use Rattle.adj_sweep.specs.Callees.{KnowsAll};
ghost use Rattle.adj_weave.specs.Marked.{program_marks, reads_in, HasUnits, KnowsUnits};
ghost use Rattle.adj_weave.specs.Named.{AreMade};
ghost use Rattle.adj_weave.specs.Orders.{dummies_said, names_of, said, said_of};

use crate::made::MadeNames;
use crate::marks::Marked;
use adj_reach::flag_at;
use adj_sets::{NameSet, add_names};
use adj_sweep::callees::{Callee, Callees, Dummy};
use adj_symbols::Checked;
use adj_tree::{Memory, Name};
use adj_weave_units::source::units_of;
use std::alloc::Global;

// What the sweeps of calls know of the dummies of the unit at a place, of which flags say whether it writes them, and whether it reads
// them.
fn dummies_of(
    alloc: Global,
    marked: &Marked<'_>,
    place: usize,
    names: &[Name],
    written: &[bool],
    read: &[bool],
) -> Result<Vec<Dummy>, Memory>
    requires unit { HasUnits marked.now (place + 1) }
    ensures dummies { IfOk result (λ v. v.items ≡ dummies_said marked.now place names.now written.now read.now) }
{
    let mut made = Vec::new(alloc);
    for (k, name) in names.iter().enumerate() {
        let told = marked.dummy(place, name, flag_at(written, k))?;
        let Dummy {
            written: writes,
            read: _,
            member,
            shadowed,
        } = told;
        made.push(Dummy {
            written: writes,
            read: flag_at(read, k),
            member,
            shadowed,
        })?;
    }
    Ok(made)
}

// What is known of each unit of a checked program, by the names of what is made of them.
fn known_units(
    alloc: Global,
    marked: &Marked<'_>,
    checked: &Checked,
    names: &MadeNames,
) -> Result<Vec<Callee>, Memory>
    requires units { HasUnits marked.now (length checked.now.program.units) }
    requires named { length names.now.adjoints.items ≡ length checked.now.program.units }
    requires forths { length names.now.forths.items ≡ length checked.now.program.units }
    requires backs { length names.now.backs.items ≡ length checked.now.program.units }
    ensures known { IfOk result (λ v. map said v.items ≡ said_of marked.now 0 (procedures_of checked.now.program) (names_of names.now.adjoints.items names.now.forths.items names.now.backs.items) (least_rows write_rule (procedures_of checked.now.program)) (least_rows read_rule (procedures_of checked.now.program))) }
{
    let units = units_of(checked);
    let adjoints = names.adjoints.as_slice();
    let forths = names.forths.as_slice();
    let backs = names.backs.as_slice();
    let mut made = Vec::new(alloc);
    for (k, unit) in units.iter().enumerate() {
        let own = unit.dummies.as_slice();
        let written = checked.writes(k).as_slice();
        let read = checked.reads(k).as_slice();
        let dummies = dummies_of(alloc, marked, k, own, written, read)?;
        made.push(Callee {
            adjoint: adjoints[k].copy(alloc)?,
            forth: forths[k].copy(alloc)?,
            back: backs[k].copy(alloc)?,
            dummies,
        })?;
    }
    Ok(made)
}

/// What the sweeps of calls know of the units of a checked program, by the names of the units and of what is made of them.
pub fn known_callees(
    alloc: Global,
    marked: &Marked<'_>,
    checked: &Checked,
    names: &[Name],
    made: &MadeNames,
) -> Result<Callees, Memory>
    requires units { KnowsUnits marked.now (procedures_of checked.now.program) }
    requires names { names.now ≡ map unit_name (procedures_of checked.now.program) }
    requires apart { AreApart names.now }
    requires made { AreMade (procedures_of checked.now.program) made.now }
    ensures known { IfOk result (λ c. KnowsAll c (callee_in (program_marks marked.now) (procedures_of checked.now.program)) (reads_in (procedures_of checked.now.program))) }
{
    let mut set = NameSet::new(alloc)?;
    add_names(alloc, &mut set, names)?;
    let known = known_units(alloc, marked, checked, made)?;
    let other = Callee {
        adjoint: Name::from_slice(alloc, b"")?,
        forth: Name::from_slice(alloc, b"")?,
        back: Name::from_slice(alloc, b"")?,
        dummies: Vec::new(alloc),
    };
    Ok(Callees {
        names: set,
        known,
        other,
    })
}
