//! Which dummies the units of a program write, as a table.

ghost use Rattle.std.specs.Prelude.{◌≡◌, ℕ, List, [], length, map, IfOk, if◌then◌else◌};
ghost use Rattle.adj_tree.specs.Code.{name_eq};
ghost use Rattle.adj_tree.specs.View.{procedure_of};
ghost use Rattle.def_meaning.specs.LeastSet.{row_of};
ghost use Rattle.def_meaning.specs.Written.{handed_back};
ghost use Rattle.def_meaning.specs.Apart.{has_name};
ghost use Rattle.adj_sets.specs.Sets.{with_added};
ghost use Rattle.adj_norm_statement.specs.Handed.{flags_of, handed_by};
ghost use Rattle.adj_norm.specs.Rows.{at_name};

use adj_norm_statement::handed::Handed;
use adj_sets::NameSet;
use adj_symbols::written_dummies;
use adj_tree::{Flags, Items, Memory, Name, Unit};
use std::alloc::Global;

// The row at a place, or none.
fn row_at(rows: &[Flags], place: usize) -> &[bool]
    ensures row { result.now ≡ flags_of rows.now place }
{
    match rows.get(place) {
        Some(row) => row.as_slice(),
        None => &[],
    }
}

// The table with a row for a name, unless it has one.
fn with_row(alloc: Global, table: Handed, name: &Name, row: &[bool]) -> Result<Handed, Memory>
    requires alike { length table.units ≡ length table.rows.items }
    ensures alike { IfOk result (λ h. length h.units ≡ length h.rows.items) }
    ensures names { IfOk result (λ h. h.units ≡ with_added name.now table.units) }
    ensures rows { IfOk result (λ h. (x : List ℕ) → at_name h.units h.rows.items x ≡ (if has_name x table.units then at_name table.units table.rows.items x else (if name_eq x name.now then row.now else []))) }
{
    if table.units.has(name.bytes()) {
        return Ok(table);
    }
    let Handed {
        mut units,
        mut rows,
    } = table;
    units.add(alloc, name.bytes())?;
    let same = row.to_vec(alloc)?;
    rows.push(Items::new(same))?;
    Ok(Handed { units, rows })
}

// The table of the rows of some units. Of units of one name the first counts.
fn tabled(alloc: Global, units: &[Unit], rows: &[Flags]) -> Result<Handed, Memory>
    ensures table { IfOk result (λ h. (x : List ℕ) → handed_by h x ≡ row_of (map procedure_of units.now) rows.now x) }
{
    let known = NameSet::new(alloc)?;
    let mut table = Handed {
        units: known,
        rows: Vec::new(alloc),
    };
    for place in 0..units.len() {
        table = with_row(alloc, table, &units[place].name, row_at(rows, place))?;
    }
    Ok(table)
}

/// Which dummies of units are written, and so handed back at the end of a call.
pub fn handed_back(alloc: Global, units: &[Unit]) -> Result<Handed, Memory>
    ensures handed { IfOk result (λ h. handed_by h ≡ handed_back (map procedure_of units.now)) }
{
    let rows = written_dummies(alloc, units)?;
    let table = tabled(alloc, units, rows.as_slice())?;
    Ok(table)
}
