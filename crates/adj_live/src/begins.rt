//! Where the rules begin: the facts that hold by the activity alone.

ghost use Rattle.std.specs.Prelude.{◌≡◌, ◌++◌, ◌∷◌, ◌<◌, ◌^◌, ◌*◌, [], IfOk, OnOk, map, flat_map};
ghost use Rattle.adj_tree.specs.Code.{plain, assign};
ghost use Rattle.adj_tree.specs.View.{term_of, terms_of, act_of};
ghost use Rattle.def_names.specs.VariableLists.{list_if};
ghost use Rattle.def_flow.specs.Rules.{list_of, holders};
ghost use Rattle.adj_symbols_writes.specs.View.{vars_seen};
ghost use Rattle.adj_flow.specs.Low.{IsLow};
ghost use Rattle.adj_flow.specs.Rows.{row_of};
ghost use Rattle.adj_flow.specs.NodeView.{vars_of};
ghost use Rattle.adj_flow.specs.View.{place_of, standing_of};
ghost use Rattle.adj_live.specs.Numbers.{kept_at, wanted_at};
ghost use Rattle.adj_live.specs.Listed.{needed_here, needed_nodes, own_nodes, turned_nodes, held_nodes, statement_nodes, extent_nodes, unit_nodes, all_nodes};
ghost use Rattle.adj_live.specs.View.{here_at, here_in};

use crate::extents::{extents, is_among};
use crate::known::{Known, Site};
use crate::passing::add_passed_by;
use crate::reads::{add_reads, resets};
use crate::site::{add_number, kept, wanted};
use adj_flow::{Flow, Place, Point, Standing, number};
use adj_reach::flag_at;
use adj_symbols_writes::variables::add_terms;
use adj_tree::{Act, Expr, Memory, Name, Place as Target};
use std::alloc::Global;

// Adds that a variable is needed at a point, if it is wanted.
fn add_variable(
    nodes: &mut Vec<usize>,
    site: Site<'_, '_>,
    point: usize,
    name: &Name,
    is_wanted: bool,
) -> Result<(), Memory>
    requires point { point < 5 * 2 ^ 30 }
    ensures added { OnOk result (nodes.new.items ≡ nodes.old.items ++ list_if is_wanted (list_of (needed_here (here_at site.entry) point (plain name.now)))) }
{
    if is_wanted {
        add_number(nodes, site.needed(point, name))?;
    }
    Ok(())
}

// Adds that variables are needed at a point, but for the one that is turned by a place.
fn add_needed(
    nodes: &mut Vec<usize>,
    site: Site<'_, '_>,
    point: usize,
    place: Place<'_>,
    names: &[&Name],
) -> Result<(), Memory>
    requires point { point < 5 * 2 ^ 30 }
    ensures added { OnOk result (nodes.new.items ≡ nodes.old.items ++ needed_nodes (here_at site.entry) point (place_of place.entry) (vars_seen names.now)) }
{
    for name in names {
        let is_wanted = !place.turns(name);
        add_variable(nodes, site, point, name, is_wanted)?;
    }
    Ok(())
}

// Adds what the adjoint of an assignment reads.
fn add_assignment(
    alloc: Global,
    nodes: &mut Vec<usize>,
    site: Site<'_, '_>,
    statement: usize,
    target: &Target,
    right: &Expr,
) -> Result<(), Memory>
    requires statement { statement < 2 ^ 30 }
    ensures added { OnOk result (nodes.new.items ≡ nodes.old.items ++ own_nodes (here_at site.entry) statement (assign (plain target.now.name) (terms_of target.now.subs) (term_of right.now))) }
{
    if site.is_adjointed(statement) {
        let mut names = Vec::new(alloc);
        add_reads(site, statement, right, &mut names)?;
        add_terms(&target.subs, &mut names)?;
        let before = number(Point::Before(statement));
        add_needed(nodes, site, before, Place::Outermost, names.as_slice())?;
    }
    Ok(())
}

// Adds that a statement is kept, if it is.
fn add_kept(
    nodes: &mut Vec<usize>,
    width: usize,
    statement: usize,
    is_kept: bool,
) -> Result<(), Memory>
    requires width { width < 2 ^ 30 }
    requires statement { statement < 2 ^ 30 }
    ensures added { OnOk result (nodes.new.items ≡ nodes.old.items ++ list_if is_kept (kept_at width statement ∷ [])) }
{
    if is_kept {
        nodes.push(kept(width, statement))?;
    }
    Ok(())
}

// Adds what a statement begins itself.
fn add_own(
    alloc: Global,
    nodes: &mut Vec<usize>,
    site: Site<'_, '_>,
    statement: usize,
    act: &Act,
) -> Result<(), Memory>
    requires statement { statement < 2 ^ 30 }
    ensures added { OnOk result (nodes.new.items ≡ nodes.old.items ++ own_nodes (here_at site.entry) statement (act_of act.now)) }
{
    match act {
        Act::Assign(target, right) => add_assignment(alloc, nodes, site, statement, target, right),
        Act::Loop(x, _, _, _, _, _) => {
            let is_kept = resets(site, statement, x);
            add_kept(nodes, site.known.width, statement, is_kept)
        }
        Act::If(_, _, _) | Act::While(_, _) | Act::Call(_, _) | Act::Run(_) => Ok(()),
    }
}

// Adds that the statement is kept that holds what stands at a place.
fn add_holder(nodes: &mut Vec<usize>, width: usize, place: Place<'_>) -> Result<(), Memory>
    requires width { width < 2 ^ 30 }
    requires low { IsLow place }
    ensures added { OnOk result (nodes.new.items ≡ nodes.old.items ++ map (kept_at width) (holders (place_of place.entry))) }
{
    match place {
        Place::Outermost => Ok(()),
        Place::PartOf(holder) | Place::TurnOf(holder, _) => {
            nodes.push(kept(width, holder))?;
            Ok(())
        }
    }
}

// Adds what the step call of a marked loop passes to dummies that are read.
fn add_turned(
    alloc: Global,
    nodes: &mut Vec<usize>,
    site: Site<'_, '_>,
    place: Place<'_>,
    act: &Act,
) -> Result<(), Memory>
    requires low { IsLow place }
    ensures added { OnOk result (nodes.new.items ≡ nodes.old.items ++ turned_nodes (here_at site.entry) (place_of place.entry) (act_of act.now)) }
{
    match place {
        Place::TurnOf(holder, _) => {
            let mut names = Vec::new(alloc);
            add_passed_by(site, act, &mut names)?;
            let before = number(Point::Before(holder));
            add_needed(nodes, site, before, place, names.as_slice())
        }
        Place::Outermost | Place::PartOf(_) => Ok(()),
    }
}

// Adds what an adjointed statement begins: it is kept, if it is to be split, and so is what holds it.
fn add_held(
    alloc: Global,
    nodes: &mut Vec<usize>,
    site: Site<'_, '_>,
    standing: &Standing<'_>,
) -> Result<(), Memory>
    ensures added { OnOk result (nodes.new.items ≡ nodes.old.items ++ list_if ((here_at site.entry).activity.adjointed (standing_of standing.now).number) (held_nodes (here_at site.entry) (standing_of standing.now))) }
{
    if site.is_adjointed(standing.number) {
        add_kept(
            nodes,
            site.known.width,
            standing.number,
            site.is_split(standing.number),
        )?;
        add_holder(nodes, site.known.width, standing.place)?;
        add_turned(alloc, nodes, site, standing.place, standing.act)?;
    }
    Ok(())
}

// Adds what a statement begins.
fn add_statement(
    alloc: Global,
    nodes: &mut Vec<usize>,
    site: Site<'_, '_>,
    standing: &Standing<'_>,
) -> Result<(), Memory>
    ensures added { OnOk result (nodes.new.items ≡ nodes.old.items ++ statement_nodes (here_at site.entry) (standing_of standing.now)) }
{
    add_own(alloc, nodes, site, standing.number, standing.act)?;
    add_held(alloc, nodes, site, standing)
}

// Adds what the statements of a unit begin.
fn add_statements(alloc: Global, nodes: &mut Vec<usize>, site: Site<'_, '_>) -> Result<(), Memory>
    ensures added { OnOk result (nodes.new.items ≡ nodes.old.items ++ flat_map (statement_nodes (here_at site.entry)) (map standing_of site.entry.part.now.statements.items)) }
{
    for standing in site.part.statements.as_slice() {
        add_statement(alloc, nodes, site, standing)?;
    }
    Ok(())
}

// Adds that a dummy of a unit is wanted, if it is.
fn add_extent(
    nodes: &mut Vec<usize>,
    site: Site<'_, '_>,
    dummy: &Name,
    is_extent: bool,
) -> Result<(), Memory>
    ensures added { OnOk result (nodes.new.items ≡ nodes.old.items ++ list_if is_extent (list_of (wanted_at site.entry.known.width (vars_of (row_of site.entry.part.now)) (row_of site.entry.part.now).part.number dummy.now))) }
{
    if is_extent {
        add_number(nodes, wanted(site.known.width, site.part, dummy)?)?;
    }
    Ok(())
}

// Adds that the extents of the dummy arrays of a unit are wanted.
fn add_extents(alloc: Global, nodes: &mut Vec<usize>, site: Site<'_, '_>) -> Result<(), Memory>
    ensures added { OnOk result (nodes.new.items ≡ nodes.old.items ++ extent_nodes (here_at site.entry)) }
{
    let extents = extents(alloc, site.part.unit.decls.as_slice())?;
    for dummy in site.part.unit.dummies.as_slice() {
        let is_extent = is_among(&extents, dummy);
        add_extent(nodes, site, dummy, is_extent)?;
    }
    Ok(())
}

// Adds what a unit begins, if it takes part.
fn add_unit(
    alloc: Global,
    nodes: &mut Vec<usize>,
    site: Site<'_, '_>,
    takes_part: bool,
) -> Result<(), Memory>
    ensures added { OnOk result (nodes.new.items ≡ nodes.old.items ++ list_if takes_part (unit_nodes (here_at site.entry))) }
{
    if takes_part {
        add_extents(alloc, nodes, site)?;
        add_statements(alloc, nodes, site)?;
    }
    Ok(())
}

/// What the units begin that take part.
pub(crate) fn nodes(
    alloc: Global,
    flow: &Flow<'_>,
    known: Known<'_, '_>,
) -> Result<Vec<usize>, Memory>
    ensures nodes { IfOk result (λ v. v.items ≡ all_nodes (here_in known.entry) (map row_of flow.now.parts.items) flow.now.taking) }
{
    let mut nodes = Vec::new(alloc);
    let taking = flow.taking.as_slice();
    for part in flow.parts.as_slice() {
        let site = Site { known, part };
        let takes_part = flag_at(taking, part.number);
        add_unit(alloc, &mut nodes, site, takes_part)?;
    }
    Ok(nodes)
}
