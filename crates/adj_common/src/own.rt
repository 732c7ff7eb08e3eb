//! The members of the blocks that a unit declares.

ghost use Rattle.std.specs.Prelude.{◌≡◌, ◌++◌, None, Some, map, unwrap_or, slice_get, IfOk, OnOk, MatchOption};
ghost use Rattle.adj_tree.specs.CommonView.{common_of, shared_of};
ghost use Rattle.adj_symbols_writes.specs.View.{names_seen};
ghost use Rattle.adj_common.specs.Tables.{beside};
ghost use Rattle.adj_common.specs.Entries.{entries_at, line_at, entries_of_row, line_of_row, block_names, IsOwn, AreOwn};
ghost use Rattle.adj_common.specs.Views.{entry_of, firsts_of, own_of};

use crate::by_name::ByName;
use crate::members::{Member, add_members};
use adj_naming::declared::{Declared, first_declarations};
use adj_tree::{Common, Memory, Name, SharedUnit};
use std::alloc::Global;

/// The members of each block that a unit declares, and the line of its last statement of the block.
pub(crate) struct Own {
    pub declared: Declared,
    pub table: ByName,
    pub groups: Vec<Vec<Member>>,
    pub lines: Vec<u32>,
}

impl Drop for Own {
    fn drop(self) {
        let Own {
            declared: _declared,
            table: _table,
            groups: _groups,
            lines: _lines,
        } = self;
    }
}

/// The names of the blocks of COMMON statements, in order.
pub(crate) fn add_blocks<'a>(commons: &'a [Common], out: &mut Vec<&'a Name>) -> Result<(), Memory>
    ensures added { OnOk result (names_seen out.new.items ≡ names_seen out.old.items ++ block_names (map common_of commons.now)) }
{
    for common in commons {
        out.push(&common.block)?;
    }
    Ok(())
}

// Adds the members of the COMMON statement at a place, if there is one.
fn add_members_at(
    alloc: Global,
    declared: &Declared,
    commons: &[Common],
    place: usize,
    out: &mut Vec<Member>,
) -> Result<(), Memory>
    ensures added { OnOk result (map entry_of out.new.items ≡ map entry_of out.old.items ++ entries_at (firsts_of declared.now) (slice_get (map common_of commons.now) place)) }
{
    match commons.get(place) {
        Some(common) => add_members(alloc, declared, common, out),
        None => Ok(()),
    }
}

// The members of the COMMON statements at some places.
fn group(
    alloc: Global,
    declared: &Declared,
    commons: &[Common],
    row: &[usize],
) -> Result<Vec<Member>, Memory>
    ensures group { IfOk result (λ v. map entry_of v.items ≡ entries_of_row (firsts_of declared.now) (map common_of commons.now) row.now) }
{
    let mut out = Vec::new(alloc);
    for place in row {
        add_members_at(alloc, declared, commons, *place, &mut out)?;
    }
    Ok(out)
}

// Those of each row.
fn groups(
    alloc: Global,
    declared: &Declared,
    commons: &[Common],
    rows: &[Vec<usize>],
) -> Result<Vec<Vec<Member>>, Memory>
    ensures groups { IfOk result (λ v. map (λ g. map entry_of g.items) v.items ≡ map (entries_of_row (firsts_of declared.now) (map common_of commons.now)) (map (λ r. r.items) rows.now)) }
{
    let mut out = Vec::new(alloc);
    for row in rows {
        out.push(group(alloc, declared, commons, row.as_slice())?)?;
    }
    Ok(out)
}

// The line of the COMMON statement at a place, or another where there is none.
fn line_at(line: u32, commons: &[Common], place: usize) -> u32
    ensures line { result ≡ line_at line (slice_get (map common_of commons.now) place) }
{
    match commons.get(place) {
        Some(common) => common.line,
        None => line,
    }
}

// The line of the last of the COMMON statements at some places, or another where there are none.
fn last_line(line: u32, commons: &[Common], row: &[usize]) -> u32
    ensures line { result ≡ line_of_row line (map common_of commons.now) row.now }
{
    let mut last = line;
    for place in row {
        last = line_at(last, commons, *place);
    }
    last
}

// That of each row.
fn lines(
    alloc: Global,
    line: u32,
    commons: &[Common],
    rows: &[Vec<usize>],
) -> Result<Vec<u32>, Memory>
    ensures lines { IfOk result (λ v. v.items ≡ map (line_of_row line (map common_of commons.now)) (map (λ r. r.items) rows.now)) }
{
    let mut out = Vec::new(alloc);
    for row in rows {
        out.push(last_line(line, commons, row.as_slice()))?;
    }
    Ok(out)
}

impl Own {
    /// Those of a unit.
    pub(crate) fn new(alloc: Global, shared: &SharedUnit) -> Result<Own, Memory>
        ensures own { IfOk result (λ o. IsOwn (shared_of shared.now) (own_of o)) }
    {
        let declared = first_declarations(alloc, &shared.unit)?;
        let commons = shared.commons.as_slice();
        let mut names = Vec::new(alloc);
        add_blocks(commons, &mut names)?;
        let table = ByName::new(alloc, names.as_slice())?;
        let groups = groups(alloc, &declared, commons, table.rows())?;
        let lines = lines(alloc, shared.unit.line, commons, table.rows())?;
        Ok(Own {
            declared,
            table,
            groups,
            lines,
        })
    }

    /// The members of a block, if the unit declares it.
    pub(crate) fn group(&self, block: &Name) -> Option<&[Member]>
        ensures group { MatchOption result (beside (own_of self.now).names (own_of self.now).groups block.now ≡ None) (λ g. beside (own_of self.now).names (own_of self.now).groups block.now ≡ Some (map entry_of g.now)) }
    {
        match self.table.place(block) {
            Some(at) => match self.groups.get(at) {
                Some(group) => Some(group.as_slice()),
                None => None,
            },
            None => None,
        }
    }

    /// The line of the unit's last statement of a block, or another where it declares none.
    pub(crate) fn line(&self, line: u32, block: &Name) -> u32
        ensures line { result ≡ unwrap_or (beside (own_of self.now).names (own_of self.now).lines block.now) line }
    {
        match self.table.place(block) {
            Some(at) => match self.lines.get(at) {
                Some(last) => *last,
                None => line,
            },
            None => line,
        }
    }
}

/// Those of all units.
pub(crate) fn all_own(alloc: Global, units: &[SharedUnit]) -> Result<Vec<Own>, Memory>
    ensures own { IfOk result (λ v. AreOwn (map shared_of units.now) (map own_of v.items)) }
{
    let mut out = Vec::new(alloc);
    for unit in units {
        out.push(Own::new(alloc, unit)?)?;
    }
    Ok(out)
}
