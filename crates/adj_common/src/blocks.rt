//! The blocks of a text.

ghost use Rattle.std.specs.Prelude.{◌≡◌, ◌++◌, None, Some, map, IfOk, OnOk, MatchOption};
ghost use Rattle.adj_tree.specs.CommonView.{common_of, shared_of};
ghost use Rattle.adj_symbols_writes.specs.View.{names_seen};
ghost use Rattle.adj_common.specs.Entries.{block_names};
ghost use Rattle.adj_common.specs.Texts.{text_blocks, first_place, name_of_block, first_unit};
ghost use Rattle.adj_common.specs.Views.{text_of};

use crate::by_name::ByName;
use adj_tree::{Common, Memory, Name, SharedUnit};
use std::alloc::Global;

/// The blocks of a text in the order of their first statements, with the names and the units of all COMMON statements.
pub(crate) struct Blocks<'a> {
    pub table: ByName,
    pub names: Vec<&'a Name>,
    pub owners: Vec<usize>,
}

impl Drop for Blocks<'_> {
    fn drop(self) {
        let Blocks {
            table: _table,
            names: _names,
            owners: _owners,
        } = self;
    }
}

// Adds the blocks of a unit's COMMON statements.
fn add_owned<'a>(
    unit: usize,
    commons: &'a [Common],
    names: &mut Vec<&'a Name>,
    owners: &mut Vec<usize>,
) -> Result<(), Memory>
    ensures names { OnOk result (names_seen names.new.items ≡ names_seen names.old.items ++ block_names (map common_of commons.now)) }
    ensures owners { OnOk result (owners.new.items ≡ owners.old.items ++ map (λ c. unit) (map common_of commons.now)) }
{
    for common in commons {
        names.push(&common.block)?;
        owners.push(unit)?;
    }
    Ok(())
}

impl<'a> Blocks<'a> {
    /// Those of some units.
    pub(crate) fn new(alloc: Global, units: &'a [SharedUnit]) -> Result<Blocks<'a>, Memory>
        ensures blocks { IfOk result (λ b. text_of b ≡ text_blocks (map shared_of units.now)) }
    {
        let mut names = Vec::new(alloc);
        let mut owners = Vec::new(alloc);
        for (unit, shared) in units.iter().enumerate() {
            add_owned(unit, shared.commons.as_slice(), &mut names, &mut owners)?;
        }
        let table = ByName::new(alloc, names.as_slice())?;
        Ok(Blocks {
            table,
            names,
            owners,
        })
    }

    /// The places of the statements of each block.
    pub(crate) fn rows(&self) -> &[Vec<usize>]
        ensures rows { map (λ r. r.items) result.now ≡ (text_of self.now).table.rows }
    {
        self.table.rows()
    }

    /// The units of all statements.
    pub(crate) fn owners(&self) -> &[usize]
        ensures owners { result.now ≡ (text_of self.now).owners }
    {
        self.owners.as_slice()
    }

    // The place of the first statement of a block.
    fn first_place(&self, block: usize) -> Option<usize>
        ensures place { result ≡ first_place (text_of self.now) block }
    {
        match self.table.rows().get(block) {
            Some(row) => row.first().copied(),
            None => None,
        }
    }

    /// The name of a block.
    pub(crate) fn name(&self, block: usize) -> Option<&'a Name>
        ensures name { MatchOption result (name_of_block (text_of self.now) block ≡ None) (λ n. name_of_block (text_of self.now) block ≡ Some n.now) }
    {
        match self.first_place(block) {
            Some(place) => self.names.get(place).copied(),
            None => None,
        }
    }

    /// The first unit that declares a block.
    pub(crate) fn first(&self, block: usize) -> Option<usize>
        ensures unit { result ≡ first_unit (text_of self.now) block }
    {
        match self.first_place(block) {
            Some(place) => self.owners.get(place).copied(),
            None => None,
        }
    }
}
