//! The adjoint reads of statements, as numbers of variables before them.

ghost use Rattle.std.specs.Prelude.{◌≡◌, ◌++◌, ◌&&◌, ◌||◌, ◌<◌, ◌^◌, true, Some, IfOk, OnOk, map, flat_map};
ghost use Rattle.adj_tree.specs.Code.{plain};
ghost use Rattle.adj_tree.specs.View.{act_of, term_of, terms_of};
ghost use Rattle.def_flow.specs.Uses.{site, is_turn};
ghost use Rattle.def_names.specs.VariableLists.{list_if};
ghost use Rattle.def_flow.specs.AdjointReads.{adjoint_reads_in};
ghost use Rattle.adj_symbols_writes.specs.View.{vars_seen};
ghost use Rattle.adj_flow.specs.Active.{active_by};
ghost use Rattle.adj_flow.specs.NodeView.{told_at};
ghost use Rattle.adj_flow.specs.Rows.{row_of};
ghost use Rattle.adj_flow.specs.View.{place_of, standing_of};
ghost use Rattle.adj_reach.specs.Edges.{flag};
ghost use Rattle.adj_tbr.specs.Bound.{passed_of, dummies_at};
ghost use Rattle.adj_tbr.specs.View.{find, split_by};
ghost use Rattle.adj_tbr.specs.Reads.{node_before, assigned_reads, is_wanted, found_reads, call_reads, standing_reads, unit_reads, read_nodes};

use crate::bound::{Bound, bounds};
use crate::found::Found;
use crate::setting::Setting;
use adj_flow::variables::add_terms_if;
use adj_flow::{End, Flow, Occurrences, Part, Point, Standing, add_node, dummies_of, number, told};
use adj_reach::flag_at;
use adj_tree::{Act, Expr, Exprs, Memory, Name};
use std::alloc::Global;

// ---- assignments

// Adds the variables that the adjoint of a right side reads, if it is wanted.
fn add_reads_if<'t>(
    occurrences: Occurrences<'_, '_, '_>,
    term: &'t Expr,
    is_wanted: bool,
    out: &mut Vec<&'t Name>,
) -> Result<(), Memory>
    ensures added { OnOk result (vars_seen out.new.items ≡ vars_seen out.old.items ++ list_if is_wanted (adjoint_reads_in (active_by occurrences.entry) (term_of term.now))) }
{
    if is_wanted {
        occurrences.add_reads(term, out)?;
    }
    Ok(())
}

// The adjoint reads of a statement that is an assignment.
fn assigned<'t>(
    alloc: Global,
    found: Found<'_>,
    width: usize,
    part: &Part<'_>,
    standing: &Standing<'t>,
) -> Result<Vec<&'t Name>, Memory>
    requires width { width < 2 ^ 30 }
    ensures reads { IfOk result (λ v. vars_seen v.items ≡ assigned_reads found.entry width (row_of part.now) standing.now.number (act_of standing.now.act.now)) }
{
    let statement = standing.number;
    let mut names = Vec::new(alloc);
    match standing.act {
        Act::Assign(target, right) => {
            let occurrences = Occurrences {
                varied: found.varied,
                shadowed: found.shadowed,
                width,
                part,
                statement,
            };
            let is_adjointed = found.is_adjointed(statement);
            let is_kept = found.is_kept(statement);
            add_reads_if(occurrences, right, is_adjointed, &mut names)?;
            add_terms_if(&target.subs, is_kept || is_adjointed, &mut names)?;
            Ok(names)
        }
        Act::If(_, _, _)
        | Act::Loop(_, _, _, _, _, _)
        | Act::While(_, _)
        | Act::Call(_, _)
        | Act::Run(_) => Ok(names),
    }
}

// Adds the numbers of variables of a unit before the statement of a number.
fn add_before(
    nodes: &mut Vec<usize>,
    width: usize,
    part: &Part<'_>,
    statement: usize,
    names: &[&Name],
) -> Result<(), Memory>
    requires width { width < 2 ^ 30 }
    requires statement { statement < 2 ^ 30 }
    ensures added { OnOk result (nodes.new.items ≡ nodes.old.items ++ flat_map (node_before width (row_of part.now) statement) (vars_seen names.now)) }
{
    let point = number(Point::Before(statement));
    for name in names {
        let end = End { part, point, name };
        add_node(nodes, width, end, true)?;
    }
    Ok(())
}

// Adds the adjoint reads of a statement that is an assignment.
fn add_assigned(
    alloc: Global,
    nodes: &mut Vec<usize>,
    setting: Setting<'_, '_>,
    part: &Part<'_>,
    standing: &Standing<'_>,
) -> Result<(), Memory>
    ensures added { OnOk result (nodes.new.items ≡ nodes.old.items ++ flat_map (node_before setting.entry.width (row_of part.now) standing.now.number) (assigned_reads setting.entry.found setting.entry.width (row_of part.now) standing.now.number (act_of standing.now.act.now))) }
{
    let names = assigned(alloc, setting.found, setting.width, part, standing)?;
    add_before(
        nodes,
        setting.width,
        part,
        standing.number,
        names.as_slice(),
    )
}

// ---- calls

// Whether the dummy of a call's unit is in the entry set, or read in a turn or by a split call.
fn is_looked_at(
    setting: Setting<'_, '_>,
    standing: &Standing<'_>,
    called: &Part<'_>,
    bound: Bound<'_>,
) -> bool
    ensures looked { result ≡ (told_at setting.entry.found.entry.now setting.entry.width (row_of called.now) (row_of called.now).part.number (plain bound.entry.dummy.now) || ((split_by setting.entry.found standing.now.number || is_turn (place_of standing.now.place)) && flag (dummies_at setting.entry.sides.read.now (row_of called.now)) bound.entry.place)) }
{
    let dummy = End {
        part: called,
        point: called.number,
        name: bound.dummy,
    };
    let is_wanted = told(setting.found.entry, setting.width, dummy);
    let read = dummies_of(setting.sides.read, called.number);
    let is_read = flag_at(read, bound.place);
    let is_split = setting.found.is_split(standing.number);
    let is_turn = standing.place.is_turn();
    is_wanted || (is_split || is_turn) && is_read
}

// Whether an adjointed call reads the actual of a dummy.
fn is_wanted(
    setting: Setting<'_, '_>,
    standing: &Standing<'_>,
    called: &Part<'_>,
    bound: Bound<'_>,
) -> bool
    ensures wanted { result ≡ is_wanted setting.entry.found setting.entry.sides setting.entry.width (standing_of standing.now) (row_of called.now) (passed_of bound.entry) }
{
    let is_looked_at = is_looked_at(setting, standing, called, bound);
    let written = dummies_of(setting.sides.written, called.number);
    let is_written = flag_at(written, bound.place);
    let is_turned = standing.place.turns(bound.actual);
    !is_turned && (is_looked_at && !is_written)
}

// Adds the adjoint reads among the actuals of an adjointed call.
fn add_actuals(
    nodes: &mut Vec<usize>,
    setting: Setting<'_, '_>,
    part: &Part<'_>,
    standing: &Standing<'_>,
    called: &Part<'_>,
    bounds: &[Bound<'_>],
) -> Result<(), Memory>
    ensures added { OnOk result (nodes.new.items ≡ nodes.old.items ++ flat_map (λ b. list_if (is_wanted setting.entry.found setting.entry.sides setting.entry.width (standing_of standing.now) (row_of called.now) b) (node_before setting.entry.width (row_of part.now) (site true standing.now.number (place_of standing.now.place)) b.2)) (map passed_of bounds.now)) }
{
    let point = number(Point::Before(standing.place.site(true, standing.number)));
    for bound in bounds {
        let is_wanted = is_wanted(setting, standing, called, *bound);
        let end = End {
            part,
            point,
            name: bound.actual,
        };
        add_node(nodes, setting.width, end, is_wanted)?;
    }
    Ok(())
}

// Adds the adjoint reads of a call of a unit, if it is adjointed.
fn add_found(
    alloc: Global,
    nodes: &mut Vec<usize>,
    setting: Setting<'_, '_>,
    part: &Part<'_>,
    standing: &Standing<'_>,
    actuals: &Exprs,
    called: &Part<'_>,
) -> Result<(), Memory>
    ensures added { OnOk result (nodes.new.items ≡ nodes.old.items ++ found_reads setting.entry.found setting.entry.sides setting.entry.width (row_of part.now) (standing_of standing.now) (terms_of actuals.now) (Some (row_of called.now))) }
{
    if setting.found.is_adjointed(standing.number) {
        let bounds = bounds(alloc, called.unit.dummies.as_slice(), actuals)?;
        add_actuals(nodes, setting, part, standing, called, bounds.as_slice())?;
    }
    Ok(())
}

// Adds the adjoint reads of a statement that is a call.
fn add_call(
    alloc: Global,
    nodes: &mut Vec<usize>,
    setting: Setting<'_, '_>,
    part: &Part<'_>,
    standing: &Standing<'_>,
) -> Result<(), Memory>
    ensures added { OnOk result (nodes.new.items ≡ nodes.old.items ++ call_reads setting.entry.found setting.entry.sides (find (map row_of setting.entry.units.parts.now) setting.entry.units.numbers.now) setting.entry.width (row_of part.now) (standing_of standing.now) (act_of standing.now.act.now)) }
{
    match standing.act {
        Act::Call(name, actuals) => match setting.units.find(name) {
            Some(called) => add_found(alloc, nodes, setting, part, standing, actuals, called),
            None => Ok(()),
        },
        Act::Assign(_, _)
        | Act::If(_, _, _)
        | Act::Loop(_, _, _, _, _, _)
        | Act::While(_, _)
        | Act::Run(_) => Ok(()),
    }
}

// ---- all

// Adds the adjoint reads of a statement.
fn add_standing(
    alloc: Global,
    nodes: &mut Vec<usize>,
    setting: Setting<'_, '_>,
    part: &Part<'_>,
    standing: &Standing<'_>,
) -> Result<(), Memory>
    ensures added { OnOk result (nodes.new.items ≡ nodes.old.items ++ standing_reads setting.entry.found setting.entry.sides (find (map row_of setting.entry.units.parts.now) setting.entry.units.numbers.now) setting.entry.width (row_of part.now) (standing_of standing.now)) }
{
    add_assigned(alloc, nodes, setting, part, standing)?;
    add_call(alloc, nodes, setting, part, standing)
}

// Adds the adjoint reads of a unit.
fn add_unit(
    alloc: Global,
    nodes: &mut Vec<usize>,
    setting: Setting<'_, '_>,
    part: &Part<'_>,
) -> Result<(), Memory>
    ensures added { OnOk result (nodes.new.items ≡ nodes.old.items ++ unit_reads setting.entry.found setting.entry.sides (find (map row_of setting.entry.units.parts.now) setting.entry.units.numbers.now) setting.entry.width (row_of part.now)) }
{
    for standing in part.statements.as_slice() {
        add_standing(alloc, nodes, setting, part, standing)?;
    }
    Ok(())
}

// The same, if the unit takes part.
fn add_taking(
    alloc: Global,
    nodes: &mut Vec<usize>,
    setting: Setting<'_, '_>,
    part: &Part<'_>,
    takes_part: bool,
) -> Result<(), Memory>
    ensures added { OnOk result (nodes.new.items ≡ nodes.old.items ++ list_if takes_part (unit_reads setting.entry.found setting.entry.sides (find (map row_of setting.entry.units.parts.now) setting.entry.units.numbers.now) setting.entry.width (row_of part.now))) }
{
    if takes_part {
        add_unit(alloc, nodes, setting, part)?;
    }
    Ok(())
}

/// The adjoint reads of all units that take part.
pub(crate) fn read_nodes(
    alloc: Global,
    flow: &Flow<'_>,
    setting: Setting<'_, '_>,
) -> Result<Vec<usize>, Memory>
    ensures nodes { IfOk result (λ v. v.items ≡ read_nodes setting.entry.found setting.entry.sides (find (map row_of setting.entry.units.parts.now) setting.entry.units.numbers.now) (map row_of flow.now.parts.items) flow.now.taking setting.entry.width) }
{
    let mut nodes = Vec::new(alloc);
    let taking = flow.taking.as_slice();
    for part in flow.parts.as_slice() {
        let takes_part = flag_at(taking, part.number);
        add_taking(alloc, &mut nodes, setting, part, takes_part)?;
    }
    Ok(nodes)
}
