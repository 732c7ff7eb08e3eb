//! Units without blocks.

ghost use Rattle.std.specs.Prelude.{◌≡◌, ◌++◌, ◌∷◌, [], None, Some, map, length, not, ◌==◌, IfOk, OnOk, MatchOption};
ghost use Rattle.adj_tree.specs.View.{extent_of, declaration_of, code_of, procedure_of};
ghost use Rattle.adj_tree.specs.CommonView.{shared_of};
ghost use Rattle.def_names.specs.Variables.{is_integer_name};
ghost use Rattle.adj_symbols_writes.specs.Table.{value_of};
ghost use Rattle.adj_common.specs.Views.{entry_of, firsts_of, own_of, seen_group, text_of, known_of};
ghost use Rattle.adj_common.specs.Texts.{at_place, name_of_block};
ghost use Rattle.adj_common.specs.Handing.{row_or, passed_names, handed_code};
ghost use Rattle.adj_common.specs.Members.{entry_names, item_by, first_group, own_group, members_from, taken_from, groups_from, all_entries, item_of, with_item, gets_declared, entry_declaration, entry_declarations};
ghost use Rattle.adj_common.specs.Lowering.{handing_by, groups_by, places_from, unit_with, lowered_by};

use crate::blocks::Blocks;
use crate::extents::copied;
use crate::handing::Handing;
use crate::members::Member;
use crate::naming::names_in;
use crate::own::Own;
use crate::passing::members_of;
use adj_naming::declared::{Declared, declaration};
use adj_naming::taken::Taken;
use adj_sets::NameSet;
use adj_symbols_writes::table::Numbers;
use adj_tree::{Decl, Extents, Items, Memory, Name, SharedUnit, Stmts, Unit};
use std::alloc::Global;

/// What is known of a text with blocks.
#[derive(Clone, Copy)]
pub(crate) struct Text<'a> {
    pub owns: &'a [Own],
    pub blocks: &'a Blocks<'a>,
    pub units: &'a Numbers<'a>,
    pub used: &'a [Vec<usize>],
    pub not_free: &'a NameSet,
}

// The members of a block in the first unit that declares it.
fn first_group<'a>(
    owns: &'a [Own],
    blocks: &Blocks<'_>,
    block: usize,
    name: &Name,
) -> Option<&'a [Member]>
    ensures group { seen_group result ≡ first_group (map own_of owns.now) (text_of blocks.now) block (Some name.now) }
{
    match blocks.first(block) {
        Some(unit) => match owns.get(unit) {
            Some(first) => first.group(name),
            None => None,
        },
        None => None,
    }
}

// The members of a block in a unit.
fn members_at(
    alloc: Global,
    text: Text<'_>,
    own: &Own,
    line: u32,
    taken: &mut Taken<'_>,
    block: usize,
) -> Result<Vec<Member>, Memory>
    ensures members { IfOk result (λ v. map entry_of v.items ≡ members_from line taken.old (own_group (own_of own.now) (name_of_block (known_of text.entry).text block)) (first_group (known_of text.entry).owns (known_of text.entry).text block (name_of_block (known_of text.entry).text block))) }
    ensures taken { OnOk result (taken.new ≡ taken_from line taken.old (own_group (own_of own.now) (name_of_block (known_of text.entry).text block)) (first_group (known_of text.entry).owns (known_of text.entry).text block (name_of_block (known_of text.entry).text block))) }
{
    match text.blocks.name(block) {
        Some(name) => {
            let first = first_group(text.owns, text.blocks, block, name);
            members_of(alloc, line, taken, own.group(name), first)
        }
        None => members_of(alloc, line, taken, None, None),
    }
}

// The members of a unit for each block of a row.
fn groups(
    alloc: Global,
    text: Text<'_>,
    own: &Own,
    shared: &SharedUnit,
    row: &[usize],
) -> Result<Vec<Vec<Member>>, Memory>
    ensures groups { IfOk result (λ v. map (λ g. map entry_of g.items) v.items ≡ groups_by (known_of text.entry) (own_of own.now) (shared_of shared.now) row.now) }
{
    let names = names_in(alloc, shared)?;
    let mut taken = Taken::new(alloc, text.not_free, names.as_slice())?;
    let mut out = Vec::new(alloc);
    for block in row {
        out.push(members_at(alloc, text, own, shared.unit.line, &mut taken, *block)?)?;
    }
    Ok(out)
}

// The names of members.
fn names_of(alloc: Global, members: &[Member]) -> Result<Vec<Name>, Memory>
    ensures names { IfOk result (λ v. v.items ≡ entry_names (map entry_of members.now)) }
{
    let mut out = Vec::new(alloc);
    for member in members {
        out.push(member.name.copy(alloc)?)?;
    }
    Ok(out)
}

// Those of each group.
fn all_names(alloc: Global, groups: &[Vec<Member>]) -> Result<Vec<Vec<Name>>, Memory>
    ensures names { IfOk result (λ v. map (λ g. g.items) v.items ≡ map entry_names (map (λ g. map entry_of g.items) groups.now)) }
{
    let mut out = Vec::new(alloc);
    for group in groups {
        out.push(names_of(alloc, group.as_slice())?)?;
    }
    Ok(out)
}

// Adds members once more.
fn add_members(alloc: Global, members: &[Member], out: &mut Vec<Member>) -> Result<(), Memory>
    ensures added { OnOk result (map entry_of out.new.items ≡ map entry_of out.old.items ++ map entry_of members.now) }
{
    for member in members {
        out.push(member.copy(alloc)?)?;
    }
    Ok(())
}

// All members in one list.
fn joined(alloc: Global, groups: &[Vec<Member>]) -> Result<Vec<Member>, Memory>
    ensures joined { IfOk result (λ v. map entry_of v.items ≡ all_entries (map (λ g. map entry_of g.items) groups.now)) }
{
    let mut out = Vec::new(alloc);
    for group in groups {
        add_members(alloc, group.as_slice(), &mut out)?;
    }
    Ok(out)
}

// The unit's dummies, and then its members.
fn dummies(alloc: Global, own: &[Name], members: &[Member]) -> Result<Vec<Name>, Memory>
    ensures dummies { IfOk result (λ v. v.items ≡ own.now ++ entry_names (map entry_of members.now)) }
{
    let mut out = Vec::new(alloc);
    for name in own {
        out.push(name.copy(alloc)?)?;
    }
    for member in members {
        out.push(member.name.copy(alloc)?)?;
    }
    Ok(out)
}

// The numbers of members by their names.
fn numbers<'a>(alloc: Global, members: &'a [Member]) -> Result<Numbers<'a>, Memory>
    ensures numbers { IfOk result (λ n. item_by n (map entry_of members.now) ≡ item_of (map entry_of members.now)) }
{
    let mut numbers = Numbers::new(alloc);
    for (place, member) in members.iter().enumerate() {
        numbers.add(&member.name, place)?;
    }
    Ok(numbers)
}

// The extents of the item of the first member of a name.
fn item(
    alloc: Global,
    numbers: &Numbers<'_>,
    members: &[Member],
    name: &Name,
) -> Result<Extents, Memory>
    ensures item { IfOk result (λ es. map extent_of es ≡ item_by numbers.now (map entry_of members.now) name.now) }
{
    match numbers.get(name) {
        Some(place) => match members.get(place) {
            Some(member) => copied(alloc, member.item.as_slice()),
            None => Ok(Items::new(Vec::new(alloc))),
        },
        None => Ok(Items::new(Vec::new(alloc))),
    }
}

// A declaration, which takes the extents of the unit's item where it has none itself.
fn with_item(
    alloc: Global,
    numbers: &Numbers<'_>,
    members: &[Member],
    decl: &Decl,
) -> Result<Decl, Memory>
    ensures declaration { IfOk result (λ d. item_by numbers.now (map entry_of members.now) ≡ item_of (map entry_of members.now) → declaration_of d ≡ with_item (map entry_of members.now) (declaration_of decl.now)) }
{
    if decl.extents.as_slice().is_empty() {
        let extents = item(alloc, numbers, members, &decl.name)?;
        let name = decl.name.copy(alloc)?;
        Ok(Decl {
            line: decl.line,
            name,
            extents,
        })
    } else {
        decl.copy(alloc)
    }
}

// Whether a name begins with I to N.
fn is_integer_name(name: &[u8]) -> bool
    ensures integer { result ≡ is_integer_name name.now }
{
    match name.first() {
        Some(c) => b'I' <= *c && *c <= b'N',
        None => false,
    }
}

// Whether a member gets a declaration.
fn gets_declared(
    alloc: Global,
    declared: &Declared,
    none: bool,
    member: &Member,
) -> Result<bool, Memory>
    ensures gets { IfOk result (λ b. b ≡ gets_declared (firsts_of declared.now) none (entry_of member.now)) }
{
    let item = !member.item.as_slice().is_empty();
    if declared.names.has(member.name.bytes()) {
        let found = declaration(alloc, 0, declared, &member.name)?;
        Ok(item && !found.extents.as_slice().is_empty())
    } else {
        Ok(!member.own || (item && is_integer_name(member.name.bytes()) && !none))
    }
}

// The declaration of a member.
fn member_declaration(alloc: Global, member: &Member) -> Result<Decl, Memory>
    ensures declaration { IfOk result (λ d. declaration_of d ≡ entry_declaration (entry_of member.now)) }
{
    let extents = if member.own {
        &member.item
    } else {
        &member.extents
    };
    Ok(Decl {
        line: member.line,
        name: member.name.copy(alloc)?,
        extents: copied(alloc, extents.as_slice())?,
    })
}

// Adds the declaration of a member, if it gets one.
fn add_declaration(
    alloc: Global,
    declared: &Declared,
    none: bool,
    member: &Member,
    out: &mut Vec<Decl>,
) -> Result<(), Memory>
    ensures added { OnOk result (map declaration_of out.new.items ≡ map declaration_of out.old.items ++ entry_declarations (firsts_of declared.now) none (entry_of member.now ∷ [])) }
{
    if gets_declared(alloc, declared, none, member)? {
        out.push(member_declaration(alloc, member)?)?;
    }
    Ok(())
}

// Adds those of members.
fn add_declarations(
    alloc: Global,
    declared: &Declared,
    none: bool,
    members: &[Member],
    out: &mut Vec<Decl>,
) -> Result<(), Memory>
    ensures added { OnOk result (map declaration_of out.new.items ≡ map declaration_of out.old.items ++ entry_declarations (firsts_of declared.now) none (map entry_of members.now)) }
{
    for member in members {
        add_declaration(alloc, declared, none, member, out)?;
    }
    Ok(())
}

// The unit's declarations with the extents of items.
fn with_items(alloc: Global, decls: &[Decl], members: &[Member]) -> Result<Vec<Decl>, Memory>
    ensures declarations { IfOk result (λ v. map declaration_of v.items ≡ map (with_item (map entry_of members.now)) (map declaration_of decls.now)) }
{
    let numbers = numbers(alloc, members)?;
    let mut out = Vec::new(alloc);
    for decl in decls {
        out.push(with_item(alloc, &numbers, members, decl)?)?;
    }
    Ok(out)
}

// The places of blocks in a row.
fn places<'a>(alloc: Global, blocks: &'a Blocks<'_>, row: &[usize]) -> Result<Numbers<'a>, Memory>
    ensures places { IfOk result (λ n. n ≡ places_from (text_of blocks.now) [] 0 row.now) }
{
    let mut places = Numbers::new(alloc);
    for (place, block) in row.iter().enumerate() {
        if let Some(name) = blocks.name(*block) {
            places.add(name, place)?;
        }
    }
    Ok(places)
}

// The numbers of the blocks that a unit uses.
fn used_row<'a>(units: &Numbers<'_>, used: &'a [Vec<usize>], name: &Name) -> &'a [usize]
    ensures row { result.now ≡ row_or (at_place (map (λ v. v.items) used.now) (value_of name.now units.now)) }
{
    match units.get(name) {
        Some(unit) => match used.get(unit) {
            Some(row) => row.as_slice(),
            None => &[],
        },
        None => &[],
    }
}

// The unit's statements, in which calls pass members.
fn body(
    alloc: Global,
    text: Text<'_>,
    shared: &SharedUnit,
    row: &[usize],
    groups: &[Vec<Member>],
) -> Result<Stmts, Memory>
    ensures body { IfOk result (λ c. code_of c ≡ handed_code (passed_names (handing_by (known_of text.entry) (map (λ g. map entry_of g.items) groups.now) row.now)) (code_of shared.now.unit.body)) }
{
    let names = all_names(alloc, groups)?;
    let places = places(alloc, text.blocks, row)?;
    let handing = Handing {
        groups: &places,
        names: names.as_slice(),
        blocks: text.blocks,
        units: text.units,
        used: text.used,
    };
    handing.handed(alloc, &shared.unit.body)
}

// The unit with its members by the blocks of a row.
fn unit_with(
    alloc: Global,
    text: Text<'_>,
    own: &Own,
    shared: &SharedUnit,
    row: &[usize],
    groups: &[Vec<Member>],
) -> Result<Unit, Memory>
    ensures unit { IfOk result (λ u. procedure_of u ≡ unit_with (known_of text.entry) (own_of own.now) (shared_of shared.now) row.now (map (λ g. map entry_of g.items) groups.now)) }
{
    let body = body(alloc, text, shared, row, groups)?;
    let members = joined(alloc, groups)?;
    let dummies = dummies(alloc, shared.unit.dummies.as_slice(), members.as_slice())?;
    let mut decls = with_items(alloc, shared.unit.decls.as_slice(), members.as_slice())?;
    add_declarations(
        alloc,
        &own.declared,
        shared.unit.none,
        members.as_slice(),
        &mut decls,
    )?;
    let name = shared.unit.name.copy(alloc)?;
    Ok(Unit {
        line: shared.unit.line,
        name,
        dummies: Items::new(dummies),
        none: shared.unit.none,
        decls: Items::new(decls),
        body,
    })
}

/// The lowered unit.
pub(crate) fn lower_unit(
    alloc: Global,
    text: Text<'_>,
    own: &Own,
    shared: &SharedUnit,
) -> Result<Unit, Memory>
    ensures unit { IfOk result (λ u. procedure_of u ≡ lowered_by (known_of text.entry) (own_of own.now) (shared_of shared.now)) }
{
    let row = used_row(text.units, text.used, &shared.unit.name);
    let groups = groups(alloc, text, own, shared, row)?;
    unit_with(alloc, text, own, shared, row, groups.as_slice())
}
