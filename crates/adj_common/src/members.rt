//! Members of blocks.

ghost use Rattle.std.specs.Prelude.{◌≡◌, ◌++◌, map, IfOk, OnOk};
ghost use Rattle.adj_tree.specs.View.{extent_of, declaration_of};
ghost use Rattle.adj_tree.specs.CommonView.{common_of};
ghost use Rattle.def_sweep.specs.Declared.{declaration};
ghost use Rattle.adj_common.specs.Entries.{or_else, item_entry, statement_entries};
ghost use Rattle.adj_common.specs.Views.{entry_of, firsts_of};

use crate::extents::copied;
use adj_naming::declared::{Declared, declaration};
use adj_tree::{Common, Decl, Extents, Items, Memory, Name};
use std::alloc::Global;

/// A member of a block in a unit: its name there, its extents, those that the COMMON item gives, its line, and whether the unit declares the block.
pub(crate) struct Member {
    pub name: Name,
    pub extents: Extents,
    pub item: Extents,
    pub line: u32,
    pub own: bool,
}

impl Drop for Member {
    fn drop(self) {
        let Member {
            name: _name,
            extents: _extents,
            item: _item,
            line: _,
            own: _,
        } = self;
    }
}

impl Member {
    /// An equal member.
    pub(crate) fn copy(&self, alloc: Global) -> Result<Member, Memory>
        ensures same { IfOk result (λ m. entry_of m ≡ entry_of self.now) }
    {
        Ok(Member {
            name: self.name.copy(alloc)?,
            extents: copied(alloc, self.extents.as_slice())?,
            item: copied(alloc, self.item.as_slice())?,
            line: self.line,
            own: self.own,
        })
    }
}

// The extents of an item: those of the unit's declaration, where it gives any, else its own.
fn extents_in(alloc: Global, declared: &Declared, item: &Decl) -> Result<Extents, Memory>
    ensures extents { IfOk result (λ es. map extent_of es ≡ or_else (declaration 0 (firsts_of declared.now) item.now.name).extents (map extent_of item.now.extents)) }
{
    let found = declaration(alloc, 0, declared, &item.name)?;
    if found.extents.as_slice().is_empty() {
        copied(alloc, item.extents.as_slice())
    } else {
        Ok(found.into_extents())
    }
}

// The member that an item of a COMMON statement declares.
fn declared_member(
    alloc: Global,
    declared: &Declared,
    line: u32,
    item: &Decl,
) -> Result<Member, Memory>
    ensures member { IfOk result (λ m. entry_of m ≡ item_entry (firsts_of declared.now) line (declaration_of item.now)) }
{
    Ok(Member {
        name: item.name.copy(alloc)?,
        extents: extents_in(alloc, declared, item)?,
        item: copied(alloc, item.extents.as_slice())?,
        line,
        own: true,
    })
}

/// Adds the members that a COMMON statement declares.
pub(crate) fn add_members(
    alloc: Global,
    declared: &Declared,
    common: &Common,
    out: &mut Vec<Member>,
) -> Result<(), Memory>
    ensures added { OnOk result (map entry_of out.new.items ≡ map entry_of out.old.items ++ statement_entries (firsts_of declared.now) (common_of common.now)) }
{
    for item in common.members.as_slice() {
        out.push(declared_member(alloc, declared, common.line, item)?)?;
    }
    Ok(())
}
