//! The values that statements save, as numbers of variables at statements.

ghost use Rattle.std.specs.Prelude.{◌≡◌, ◌++◌, ◌||◌, ◌<◌, ◌^◌, IfOk, OnOk, Some, map, flat_map};
ghost use Rattle.adj_tree.specs.Code.{plain};
ghost use Rattle.adj_tree.specs.View.{act_of, terms_of};
ghost use Rattle.def_names.specs.VariableLists.{list_if};
ghost use Rattle.adj_symbols_writes.specs.View.{vars_seen};
ghost use Rattle.adj_flow.specs.Rows.{row_of};
ghost use Rattle.adj_flow.specs.View.{standing_of};
ghost use Rattle.adj_tbr.specs.View.{find, kept_by};
ghost use Rattle.adj_tbr.specs.Saves.{saved_node, own_saves, found_saves, call_saves, standing_saves, unit_saves, save_nodes};

use crate::setting::Setting;
use adj_flow::{End, Flow, Part, Point, Standing, add_node, dummies_of, number, told_by_bit};
use adj_reach::flag_at;
use adj_symbols_writes::variables::add_handed;
use adj_tree::{Act, BitFlags, Exprs, Memory, Name};
use std::alloc::Global;

// Adds a variable that the statement of a number replaces, if it is held before it.
fn add_saved(
    nodes: &mut Vec<usize>,
    held: &BitFlags,
    width: usize,
    part: &Part<'_>,
    statement: usize,
    name: &Name,
) -> Result<(), Memory>
    requires width { width < 2 ^ 30 }
    requires statement { statement < 2 ^ 30 }
    ensures added { OnOk result (nodes.new.items ≡ nodes.old.items ++ saved_node held.now width (row_of part.now) statement (plain name.now)) }
{
    let before = End {
        part,
        point: number(Point::Before(statement)),
        name,
    };
    let at = End {
        part,
        point: statement,
        name,
    };
    let is_held = told_by_bit(held, width, before);
    add_node(nodes, width, at, is_held)
}

// The same of some variables.
fn add_all_saved(
    nodes: &mut Vec<usize>,
    held: &BitFlags,
    width: usize,
    part: &Part<'_>,
    statement: usize,
    names: &[&Name],
) -> Result<(), Memory>
    requires width { width < 2 ^ 30 }
    requires statement { statement < 2 ^ 30 }
    ensures added { OnOk result (nodes.new.items ≡ nodes.old.items ++ flat_map (saved_node held.now width (row_of part.now) statement) (vars_seen names.now)) }
{
    for name in names {
        add_saved(nodes, held, width, part, statement, name)?;
    }
    Ok(())
}

// Adds the variable of a statement, if the statement is kept.
fn add_kept(
    nodes: &mut Vec<usize>,
    held: &BitFlags,
    setting: Setting<'_, '_>,
    part: &Part<'_>,
    statement: usize,
    name: &Name,
) -> Result<(), Memory>
    requires statement { statement < 2 ^ 30 }
    ensures added { OnOk result (nodes.new.items ≡ nodes.old.items ++ list_if (kept_by setting.entry.found statement) (saved_node held.now setting.entry.width (row_of part.now) statement (plain name.now))) }
{
    if setting.found.is_kept(statement) {
        add_saved(nodes, held, setting.width, part, statement, name)?;
    }
    Ok(())
}

// Adds what an assignment or a DO saves.
fn add_own(
    nodes: &mut Vec<usize>,
    held: &BitFlags,
    setting: Setting<'_, '_>,
    part: &Part<'_>,
    standing: &Standing<'_>,
) -> Result<(), Memory>
    ensures added { OnOk result (nodes.new.items ≡ nodes.old.items ++ own_saves held.now setting.entry.found setting.entry.width (row_of part.now) standing.now.number (act_of standing.now.act.now)) }
{
    let number = standing.number;
    match standing.act {
        Act::Assign(target, _) => add_kept(nodes, held, setting, part, number, &target.name),
        Act::Loop(x, _, _, _, _, _) => add_kept(nodes, held, setting, part, number, x),
        Act::If(_, _, _) | Act::While(_, _) | Act::Call(_, _) | Act::Run(_) => Ok(()),
    }
}

// Adds what a call of a unit saves: nothing, where it is split.
fn add_found(
    alloc: Global,
    nodes: &mut Vec<usize>,
    held: &BitFlags,
    setting: Setting<'_, '_>,
    part: &Part<'_>,
    standing: &Standing<'_>,
    actuals: &Exprs,
    called: &Part<'_>,
) -> Result<(), Memory>
    ensures added { OnOk result (nodes.new.items ≡ nodes.old.items ++ found_saves held.now setting.entry.found setting.entry.sides setting.entry.width (row_of part.now) (standing_of standing.now) (terms_of actuals.now) (Some (row_of called.now))) }
{
    let is_adjointed = setting.found.is_adjointed(standing.number);
    let is_kept = setting.found.is_kept(standing.number);
    let is_split = setting.found.is_split(standing.number) && is_adjointed;
    if !is_split && (is_kept || is_adjointed) {
        let written = dummies_of(setting.sides.written, called.number);
        let mut names = Vec::new(alloc);
        add_handed(written, actuals, &mut names)?;
        let at = standing.place.site(is_adjointed, standing.number);
        add_all_saved(nodes, held, setting.width, part, at, names.as_slice())?;
    }
    Ok(())
}

// Adds what a statement saves that is a call.
fn add_call(
    alloc: Global,
    nodes: &mut Vec<usize>,
    held: &BitFlags,
    setting: Setting<'_, '_>,
    part: &Part<'_>,
    standing: &Standing<'_>,
) -> Result<(), Memory>
    ensures added { OnOk result (nodes.new.items ≡ nodes.old.items ++ call_saves held.now setting.entry.found setting.entry.sides (find (map row_of setting.entry.units.parts.now) setting.entry.units.numbers.now) setting.entry.width (row_of part.now) (standing_of standing.now) (act_of standing.now.act.now)) }
{
    match standing.act {
        Act::Call(name, actuals) => match setting.units.find(name) {
            Some(called) => add_found(alloc, nodes, held, setting, part, standing, actuals, called),
            None => Ok(()),
        },
        Act::Assign(_, _)
        | Act::If(_, _, _)
        | Act::Loop(_, _, _, _, _, _)
        | Act::While(_, _)
        | Act::Run(_) => Ok(()),
    }
}

// Adds what a statement saves.
fn add_standing(
    alloc: Global,
    nodes: &mut Vec<usize>,
    held: &BitFlags,
    setting: Setting<'_, '_>,
    part: &Part<'_>,
    standing: &Standing<'_>,
) -> Result<(), Memory>
    ensures added { OnOk result (nodes.new.items ≡ nodes.old.items ++ standing_saves held.now setting.entry.found setting.entry.sides (find (map row_of setting.entry.units.parts.now) setting.entry.units.numbers.now) setting.entry.width (row_of part.now) (standing_of standing.now)) }
{
    add_own(nodes, held, setting, part, standing)?;
    add_call(alloc, nodes, held, setting, part, standing)
}

// Adds what the statements of a unit save.
fn add_unit(
    alloc: Global,
    nodes: &mut Vec<usize>,
    held: &BitFlags,
    setting: Setting<'_, '_>,
    part: &Part<'_>,
) -> Result<(), Memory>
    ensures added { OnOk result (nodes.new.items ≡ nodes.old.items ++ unit_saves held.now setting.entry.found setting.entry.sides (find (map row_of setting.entry.units.parts.now) setting.entry.units.numbers.now) setting.entry.width (row_of part.now)) }
{
    for standing in part.statements.as_slice() {
        add_standing(alloc, nodes, held, setting, part, standing)?;
    }
    Ok(())
}

// The same, if the unit takes part.
fn add_taking(
    alloc: Global,
    nodes: &mut Vec<usize>,
    held: &BitFlags,
    setting: Setting<'_, '_>,
    part: &Part<'_>,
    takes_part: bool,
) -> Result<(), Memory>
    ensures added { OnOk result (nodes.new.items ≡ nodes.old.items ++ list_if takes_part (unit_saves held.now setting.entry.found setting.entry.sides (find (map row_of setting.entry.units.parts.now) setting.entry.units.numbers.now) setting.entry.width (row_of part.now))) }
{
    if takes_part {
        add_unit(alloc, nodes, held, setting, part)?;
    }
    Ok(())
}

/// What the statements of all units save that take part, by the flags of what is held or read.
pub(crate) fn save_nodes(
    alloc: Global,
    flow: &Flow<'_>,
    held: &BitFlags,
    setting: Setting<'_, '_>,
) -> Result<Vec<usize>, Memory>
    ensures nodes { IfOk result (λ v. v.items ≡ save_nodes held.now setting.entry.found setting.entry.sides (find (map row_of setting.entry.units.parts.now) setting.entry.units.numbers.now) (map row_of flow.now.parts.items) flow.now.taking setting.entry.width) }
{
    let mut nodes = Vec::new(alloc);
    let taking = flow.taking.as_slice();
    for part in flow.parts.as_slice() {
        let takes_part = flag_at(taking, part.number);
        add_taking(alloc, &mut nodes, held, setting, part, takes_part)?;
    }
    Ok(nodes)
}
