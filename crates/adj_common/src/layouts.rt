//! Blocks that units lay out otherwise than the first.

ghost use Rattle.std.specs.Prelude.{◌≡◌, None, Some, map, not, slice_get, IfOk, OnOk, MatchOption};
ghost use Rattle.adj_common.specs.Views.{entry_of, own_of, text_of};
ghost use Rattle.adj_common.specs.Texts.{name_of_block};
ghost use Rattle.adj_common.specs.Layouts.{layout_of, alike_in, with_unit, units_of_row, is_odd_own, odd_among, line_in, odd_line, odd_line_of, earlier_line, refused_line};
ghost use Rattle.def_common.specs.Refused.{is_same_layout};

use crate::blocks::Blocks;
use crate::extents::same_extents;
use crate::members::Member;
use crate::own::Own;
use adj_tree::{Memory, Name};
use std::alloc::Global;

// Whether both lay out a block alike, by literals.
fn same_layout(one: &[Member], other: &[Member]) -> bool
    ensures same { result ≡ is_same_layout (layout_of (map entry_of one.now)) (layout_of (map entry_of other.now)) }
{
    if one.len() != other.len() {
        return false;
    }
    for (place, member) in one.iter().enumerate() {
        if !same_extents(member.extents.as_slice(), other[place].extents.as_slice()) {
            return false;
        }
    }
    true
}

// Whether two units lay out a block alike, by literals.
fn are_alike(one: &Own, other: &Own, block: &Name) -> bool
    ensures alike { result ≡ alike_in (own_of one.now) (own_of other.now) block.now }
{
    match one.group(block) {
        Some(left) => match other.group(block) {
            Some(right) => same_layout(left, right),
            None => false,
        },
        None => true,
    }
}

// Adds a unit, unless it is the last.
fn add_unit(units: &mut Vec<usize>, unit: usize) -> Result<(), Memory>
    ensures added { OnOk result (units.new.items ≡ with_unit units.old.items (Some unit)) }
{
    if let Some(last) = units.as_slice().last() {
        if *last == unit {
            return Ok(());
        }
    }
    units.push(unit)?;
    Ok(())
}

// Adds the unit of a statement, unless it is the last.
fn add_owner(units: &mut Vec<usize>, owners: &[usize], place: usize) -> Result<(), Memory>
    ensures added { OnOk result (units.new.items ≡ with_unit units.old.items (slice_get owners.now place)) }
{
    match owners.get(place) {
        Some(unit) => add_unit(units, *unit),
        None => Ok(()),
    }
}

/// The units of the statements at the places of a row.
pub(crate) fn units_of_row(
    alloc: Global,
    owners: &[usize],
    row: &[usize],
) -> Result<Vec<usize>, Memory>
    ensures units { IfOk result (λ v. v.items ≡ units_of_row owners.now row.now) }
{
    let mut units = Vec::new(alloc);
    for place in row {
        add_owner(&mut units, owners, *place)?;
    }
    Ok(units)
}

// Whether a unit lays out a block otherwise than the first.
fn is_odd(owns: &[Own], first: &Own, block: &Name, unit: usize) -> bool
    ensures odd { result ≡ is_odd_own (own_of first.now) block.now (slice_get (map own_of owns.now) unit) }
{
    match owns.get(unit) {
        Some(own) => !are_alike(own, first, block),
        None => false,
    }
}

// The first of some units that does.
fn find_odd(owns: &[Own], first: &Own, block: &Name, units: &[usize]) -> Option<usize>
    ensures odd { result ≡ odd_among (map own_of owns.now) (own_of first.now) block.now units.now }
{
    for unit in units {
        if is_odd(owns, first, block, *unit) {
            return Some(*unit);
        }
    }
    None
}

// The line of a unit's last statement of a block.
fn line_of(owns: &[Own], block: &Name, unit: usize) -> u32
    ensures line { result ≡ line_in block.now (slice_get (map own_of owns.now) unit) }
{
    match owns.get(unit) {
        Some(own) => own.line(0, block),
        None => 0,
    }
}

// The line of the refusal of a block that some units declare.
fn odd_line(owns: &[Own], block: &Name, units: &[usize]) -> Option<u32>
    ensures line { result ≡ odd_line (map own_of owns.now) block.now units.now }
{
    match units.first() {
        Some(unit) => match owns.get(*unit) {
            Some(first) => match find_odd(owns, first, block, units) {
                Some(odd) => Some(line_of(owns, block, odd)),
                None => None,
            },
            None => None,
        },
        None => None,
    }
}

// The lesser of two lines.
fn earlier(line: Option<u32>, other: Option<u32>) -> Option<u32>
    ensures line { result ≡ earlier_line line other }
{
    match line {
        Some(n) => match other {
            Some(m) => { if m < n { other } else { line } }
            None => line,
        },
        None => other,
    }
}

// The line of the refusal of the block of a number, where its statements stand at the places of a row.
fn block_line(
    alloc: Global,
    owns: &[Own],
    blocks: &Blocks<'_>,
    block: usize,
    row: &[usize],
) -> Result<Option<u32>, Memory>
    ensures line { IfOk result (λ o. o ≡ odd_line_of (map own_of owns.now) (text_of blocks.now) row.now (name_of_block (text_of blocks.now) block)) }
{
    match blocks.name(block) {
        Some(name) => {
            let units = units_of_row(alloc, blocks.owners(), row)?;
            Ok(odd_line(owns, name, units.as_slice()))
        }
        None => Ok(None),
    }
}

/// The line of the refusal of layouts, the first in the text.
pub(crate) fn refused_line(
    alloc: Global,
    owns: &[Own],
    blocks: &Blocks<'_>,
) -> Result<Option<u32>, Memory>
    ensures line { IfOk result (λ o. o ≡ refused_line (map own_of owns.now) (text_of blocks.now)) }
{
    let mut line = None;
    for (block, row) in blocks.rows().iter().enumerate() {
        line = earlier(
            line,
            block_line(alloc, owns, blocks, block, row.as_slice())?,
        );
    }
    Ok(line)
}
