//! What is saved.

ghost use Rattle.std.specs.Prelude.{◌≡◌, ◌↔◌, ℕ, [], IfOk, IsTrue, map};
ghost use Rattle.def_meaning.specs.LeastSet.{least_rows};
ghost use Rattle.def_meaning.specs.Read.{read_rule};
ghost use Rattle.def_meaning.specs.Written.{write_rule};
ghost use Rattle.adj_flow.specs.Asked.{IsFlow, problem_of, units_of};
ghost use Rattle.adj_flow.specs.Rows.{row_of};
ghost use Rattle.adj_flow.specs.UnitRows.{AreNumbered};
ghost use Rattle.adj_reach.specs.Edges.{ReachedFrom, flag};
ghost use Rattle.adj_flow.specs.Marked.{activity_of};
ghost use Rattle.adj_tbr.specs.Asked.{TellsSaved};
ghost use Rattle.adj_tbr.specs.Bound.{seen};
ghost use Rattle.adj_tbr.specs.Reads.{read_nodes};
ghost use Rattle.adj_tbr.specs.Saves.{save_nodes};
ghost use Rattle.adj_tbr.specs.View.{find, held_edges};

use crate::found::Found;
use crate::held::held_arcs;
use crate::reads::read_nodes;
use crate::saves::save_nodes;
use crate::setting::Setting;
use adj_flow::{Flow, Sides, Units, variable_rows};
use adj_reach_rows::{Rows, reached_by_rows};
use adj_tree::{Activity, BitFlags, Head, Kept, Memory, Saved};
use std::alloc::Global;

// The variables that are held at points, or read by the adjoint of the statement behind them.
fn held(alloc: Global, flow: &Flow<'_>, setting: Setting<'_, '_>) -> Result<BitFlags, Memory>
    requires { AreNumbered flow.now flow.now.width }
    ensures held { IfOk result (λ f. (m : ℕ) → IsTrue (flag f m) ↔ ReachedFrom (held_edges setting.entry.found (map row_of flow.now.parts.items) flow.now.taking flow.now.width) (read_nodes setting.entry.found setting.entry.sides (find (map row_of setting.entry.units.parts.now) setting.entry.units.numbers.now) (map row_of flow.now.parts.items) flow.now.taking setting.entry.width) m) }
{
    let width = flow.width.max(1);
    let rows = variable_rows(alloc, flow, width)?;
    let arcs = held_arcs(alloc, flow, setting.found)?;
    // The search takes the last one first, and a row is complete before it is handed on where that is the first of the text.
    let mut reads = read_nodes(alloc, flow, setting)?;
    reads.reverse();
    reached_by_rows(alloc, width, &rows, arcs.as_slice(), &[], reads.as_slice())
}

// The variables that statements save, where these are held.
fn saved(
    alloc: Global,
    flow: &Flow<'_>,
    held: &BitFlags,
    setting: Setting<'_, '_>,
) -> Result<BitFlags, Memory>
    ensures saved { IfOk result (λ f. (m : ℕ) → IsTrue (flag f m) ↔ ReachedFrom [] (save_nodes held.now setting.entry.found setting.entry.sides (find (map row_of setting.entry.units.parts.now) setting.entry.units.numbers.now) (map row_of flow.now.parts.items) flow.now.taking setting.entry.width) m) }
{
    let width = flow.width.max(1);
    let rows = Rows::new(alloc, 0, width)?;
    let nodes = save_nodes(alloc, flow, held, setting)?;
    reached_by_rows(alloc, width, &rows, &[], &[], nodes.as_slice())
}

/// The values that are saved, by statement and variable: the variable at place `j` among those of its unit has the number
/// `i * width + j` at statement `i`. `sides` says which of their dummies units read and write.
pub fn tbr(
    alloc: Global,
    flow: &Flow<'_>,
    sides: Sides<'_>,
    head: &Head,
    activity: &Activity,
    kept: &Kept,
) -> Result<Saved, Memory>
    requires flow { IsFlow flow.now head.now.unit }
    requires read { seen sides.read.now ≡ least_rows read_rule (units_of flow.now) }
    requires written { seen sides.written.now ≡ least_rows write_rule (units_of flow.now) }
    ensures saved { IfOk result (λ s. TellsSaved flow.now (problem_of flow.now head.now) (activity_of flow.now activity.now) kept.now s) }
{
    let _head = head;
    let setting = Setting {
        width: flow.width,
        found: Found {
            adjointed: activity.adjointed.as_slice(),
            varied: &activity.varied,
            shadowed: activity.shadowed.as_slice(),
            kept: kept.kept.as_slice(),
            entry: kept.entry.as_slice(),
            split: flow.split.as_slice(),
        },
        sides,
        units: Units {
            parts: flow.parts.as_slice(),
            numbers: &flow.numbers,
        },
    };
    let held = held(alloc, flow, setting)?;
    let saved = saved(alloc, flow, &held, setting)?;
    Ok(Saved { saved })
}
