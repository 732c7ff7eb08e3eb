//! The numbers of facts about a unit.

ghost use Rattle.std.specs.Prelude.{◌≡◌, ◌+◌, ◌*◌, ◌++◌, ◌<◌, ◌^◌, IfOk, OnOk};
ghost use Rattle.adj_tree.specs.Code.{plain};
ghost use Rattle.def_flow.specs.Rules.{list_of};
ghost use Rattle.adj_reach.specs.Edges.{flag};
ghost use Rattle.adj_flow.specs.Rows.{row_of};
ghost use Rattle.adj_flow.specs.NodeView.{vars_of};
ghost use Rattle.adj_live.specs.Numbers.{kept_at, wanted_at};
ghost use Rattle.adj_live.specs.Listed.{needed_here};
ghost use Rattle.adj_live.specs.View.{here_at};

use crate::known::Site;
use adj_flow::{End, Part};
use adj_reach::flag_at;
use adj_tree::{Memory, Name};

/// How many numbers there are at each point and for each statement.
pub(crate) fn stride(width: usize) -> usize
    requires width { width < 2 ^ 30 }
    ensures stride { result ≡ width + 2 }
{
    width + 2
}

/// The number of a statement that is kept.
pub(crate) fn kept(width: usize, statement: usize) -> usize
    requires width { width < 2 ^ 30 }
    requires statement { statement < 2 ^ 30 }
    ensures number { result ≡ kept_at width statement }
{
    statement * stride(width) + width
}

/// The number of a dummy of a unit that is wanted: a row for each of so many variables. An error means that numbers don't reach so far,
/// since there are more than the memory has room for.
pub(crate) fn wanted(width: usize, part: &Part<'_>, name: &Name) -> Result<Option<usize>, Memory>
    requires width { width < 2 ^ 30 }
    ensures number { IfOk result (λ n. n ≡ wanted_at width (vars_of (row_of part.now)) (row_of part.now).part.number name.now) }
{
    let end = End {
        part,
        point: part.number,
        name,
    };
    match end.node(width) {
        None => Ok(None),
        Some(node) => {
            let row = node.checked_mul(stride(width)).ok_or(Memory)?;
            Ok(Some(row.checked_add(width + 1).ok_or(Memory)?))
        }
    }
}

impl Site<'_, '_> {
    /// The number of a variable that is needed at a point.
    pub(crate) fn needed(self, point: usize, name: &Name) -> Option<usize>
        requires point { point < 5 * 2 ^ 30 }
        ensures number { result ≡ needed_here (here_at self.entry) point (plain name.now) }
    {
        let end = End {
            part: self.part,
            point,
            name,
        };
        end.node(stride(self.known.width))
    }

    /// Whether a statement has an adjoint.
    pub(crate) fn is_adjointed(self, statement: usize) -> bool
        requires statement { statement < 2 ^ 30 }
        ensures is { result ≡ (here_at self.entry).activity.adjointed statement }
    {
        flag_at(self.known.activity.adjointed.as_slice(), statement)
    }

    /// Whether a statement is a call that is to be split, if it is adjointed.
    pub(crate) fn is_split(self, statement: usize) -> bool
        ensures is { result ≡ (here_at self.entry).split statement }
    {
        flag_at(self.known.split, statement)
    }
}

/// Adds a number, if there is one.
pub(crate) fn add_number(nodes: &mut Vec<usize>, number: Option<usize>) -> Result<(), Memory>
    ensures added { OnOk result (nodes.new.items ≡ nodes.old.items ++ list_of number) }
{
    if let Some(number) = number {
        nodes.push(number)?;
    }
    Ok(())
}
