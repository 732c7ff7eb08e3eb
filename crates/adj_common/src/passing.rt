//! The members of a unit: its own, and those that it passes through.

ghost use Rattle.std.specs.Prelude.{◌≡◌, ◌++◌, ◌∷◌, [], map, IfOk, OnOk};
ghost use Rattle.def_names.specs.Fresh.{fresh};
ghost use Rattle.adj_common.specs.Views.{entry_of, seen_group};
ghost use Rattle.adj_common.specs.Members.{entry_names, passed_entry, passed_entries, members_from, taken_from};

use crate::extents::copied;
use crate::members::Member;
use adj_naming::taken::Taken;
use adj_tree::{Items, Memory};
use std::alloc::Global;

// A member under another name, in a unit that passes it through.
fn passed(
    alloc: Global,
    line: u32,
    taken: &mut Taken<'_>,
    member: &Member,
) -> Result<Member, Memory>
    ensures member { IfOk result (λ m. entry_of m ≡ passed_entry line taken.old (entry_of member.now)) }
    ensures taken { OnOk result (taken.new ≡ taken.old ++ fresh member.now.name taken.old ∷ []) }
{
    let name = taken.give(alloc, member.name.bytes())?;
    Ok(Member {
        name,
        extents: copied(alloc, member.extents.as_slice())?,
        item: Items::new(Vec::new(alloc)),
        line,
        own: false,
    })
}

// Members of a block that a unit passes through.
fn all_passed(
    alloc: Global,
    line: u32,
    taken: &mut Taken<'_>,
    members: &[Member],
) -> Result<Vec<Member>, Memory>
    ensures members { IfOk result (λ v. map entry_of v.items ≡ passed_entries line taken.old (map entry_of members.now)) }
    ensures taken { OnOk result (taken.new ≡ taken.old ++ entry_names (passed_entries line taken.old (map entry_of members.now))) }
{
    let mut out = Vec::new(alloc);
    for member in members {
        out.push(passed(alloc, line, taken, member)?)?;
    }
    Ok(out)
}

// The same members once more.
fn all_own(alloc: Global, members: &[Member]) -> Result<Vec<Member>, Memory>
    ensures same { IfOk result (λ v. map entry_of v.items ≡ map entry_of members.now) }
{
    let mut out = Vec::new(alloc);
    for member in members {
        out.push(member.copy(alloc)?)?;
    }
    Ok(out)
}

/// The members of a block in a unit: its own, or those of the first unit that declares the block, under fresh names.
pub(crate) fn members_of(
    alloc: Global,
    line: u32,
    taken: &mut Taken<'_>,
    own: Option<&[Member]>,
    first: Option<&[Member]>,
) -> Result<Vec<Member>, Memory>
    ensures members { IfOk result (λ v. map entry_of v.items ≡ members_from line taken.old (seen_group own.entry) (seen_group first.entry)) }
    ensures taken { OnOk result (taken.new ≡ taken_from line taken.old (seen_group own.entry) (seen_group first.entry)) }
{
    match own {
        Some(group) => all_own(alloc, group),
        None => match first {
            Some(group) => all_passed(alloc, line, taken, group),
            None => Ok(Vec::new(alloc)),
        },
    }
}
