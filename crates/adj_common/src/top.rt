//! The lowered program.

ghost use Rattle.std.specs.Prelude.{◌≡◌, ◌↔◌, [], map, IsTrue, IfOk};
ghost use Rattle.adj_tree.specs.View.{procedure_of, procedures_of};
ghost use Rattle.adj_tree.specs.CommonView.{shared_of, shared_units_of};
ghost use Rattle.def_text.specs.Refused.{Gives};
ghost use Rattle.def_common.specs.Blocks.{all_blocks};
ghost use Rattle.def_common.specs.Members.{unit_names};
ghost use Rattle.def_common.specs.Lowering.{lowered_program};
ghost use Rattle.def_common.specs.Source.{without_blocks};
ghost use Rattle.adj_common.specs.Entries.{AreOwn};
ghost use Rattle.adj_common.specs.Views.{own_of, text_of, known_of};
ghost use Rattle.adj_common.specs.Texts.{text_blocks};
ghost use Rattle.adj_common.specs.Lowering.{all_lowered};

use crate::blocks::Blocks;
use crate::layouts::refused_line;
use crate::lowering::{Text, lower_unit};
use crate::own::{Own, all_own};
use crate::using::{all_flags, edges, unit_numbers, used_rows};
use adj_naming::naming::not_free;
use adj_tree::{
    Code, Fault, Items, Memory, Name, Program, Refusal, SharedProgram, SharedUnit, Unit,
};
use std::alloc::Global;

// Whether no unit has a COMMON statement.
fn has_none(units: &[SharedUnit]) -> bool
    ensures none { IsTrue result ↔ (all_blocks (map shared_of units.now) ≡ []) }
{
    for shared in units {
        if !shared.commons.as_slice().is_empty() {
            return false;
        }
    }
    true
}

// The units without their COMMON statements.
fn units_alone(alloc: Global, units: Vec<SharedUnit>) -> Result<Vec<Unit>, Memory>
    ensures units { IfOk result (λ v. map procedure_of v.items ≡ map (λ s. s.unit) (map shared_of units.items)) }
{
    let mut out = Vec::new(alloc);
    for shared in units {
        out.push(shared.into_unit())?;
    }
    Ok(out)
}

// The names of units.
fn unit_names(alloc: Global, units: &[SharedUnit]) -> Result<Vec<Name>, Memory>
    ensures names { IfOk result (λ v. v.items ≡ unit_names (map shared_of units.now)) }
{
    let mut out = Vec::new(alloc);
    for shared in units {
        out.push(shared.unit.name.copy(alloc)?)?;
    }
    Ok(out)
}

// All units lowered.
fn lowered(alloc: Global, text: Text<'_>, units: &[SharedUnit]) -> Result<Vec<Unit>, Memory>
    ensures lowered { IfOk result (λ v. map procedure_of v.items ≡ all_lowered (known_of text.entry) (known_of text.entry).owns (map shared_of units.now)) }
{
    let mut out = Vec::new(alloc);
    for (unit, shared) in units.iter().enumerate() {
        if let Some(own) = text.owns.get(unit) {
            out.push(lower_unit(alloc, text, own, shared)?)?;
        }
    }
    Ok(out)
}

// The units of a program whose blocks are laid out alike, lowered.
fn lower_alike(
    alloc: Global,
    units: &[SharedUnit],
    owns: &[Own],
    blocks: &Blocks<'_>,
) -> Result<Vec<Unit>, Memory>
    ensures lowered { IfOk result (λ v. AreOwn (map shared_of units.now) (map own_of owns.now) → text_of blocks.now ≡ text_blocks (map shared_of units.now) → map procedure_of v.items ≡ lowered_program (map shared_of units.now)) }
{
    let numbers = unit_numbers(alloc, units)?;
    let edges = edges(alloc, &numbers, units)?;
    let flags = all_flags(alloc, edges.as_slice(), blocks)?;
    let used = used_rows(alloc, flags.as_slice(), units)?;
    let names = unit_names(alloc, units)?;
    let not_free = not_free(alloc, names.as_slice())?;
    let text = Text {
        owns,
        blocks,
        units: &numbers,
        used: used.as_slice(),
        not_free: &not_free,
    };
    lowered(alloc, text, units)
}

// The lowered units of a program.
fn lower(alloc: Global, units: &[SharedUnit]) -> Result<Vec<Unit>, Fault>
    ensures lowered { Gives (λ v. map procedure_of v.items) result (without_blocks (map shared_of units.now)) }
{
    let owns = all_own(alloc, units)?;
    let blocks = Blocks::new(alloc, units)?;
    match refused_line(alloc, owns.as_slice(), &blocks)? {
        Some(line) => Err(Fault::Refused(Refusal::new(Code::Layout, line))),
        None => {
            let made = lower_alike(alloc, units, owns.as_slice(), &blocks)?;
            Ok(made)
        }
    }
}

/// The program without blocks, in which their members are dummies that calls pass; or the refusal of a block that a unit lays out otherwise than
/// the first that declares it, or with a name as an extent. Units of a program without blocks are given on as they are.
pub fn lower_common(alloc: Global, program: SharedProgram) -> Result<Program, Fault>
    ensures lowered { Gives procedures_of result (without_blocks (shared_units_of program)) }
{
    let units = program.into_units();
    if has_none(units.as_slice()) {
        let made = units_alone(alloc, units.into_vec())?;
        return Ok(Program {
            units: Items::new(made),
        });
    }
    let made = lower(alloc, units.as_slice())?;
    Ok(Program {
        units: Items::new(made),
    })
}
