//! What is varied and has a shadow, and what the adjoint of an assignment reads.

ghost use Rattle.std.specs.Prelude.{◌≡◌, ◌++◌, ◌<◌, ◌^◌, OnOk};
ghost use Rattle.adj_tree.specs.Code.{plain};
ghost use Rattle.adj_tree.specs.View.{term_of};
ghost use Rattle.def_flow.specs.Activity.{resets};
ghost use Rattle.def_flow.specs.AdjointReads.{adjoint_reads_in};
ghost use Rattle.adj_live.specs.Listed.{active_here};
ghost use Rattle.adj_live.specs.View.{here_at};
ghost use Rattle.adj_symbols_writes.specs.View.{vars_seen};

use crate::known::Site;
use adj_flow::Occurrences;
use adj_tree::{Expr, Memory, Name};

/// Whether a DO resets the shadow of its variable.
pub(crate) fn resets(site: Site<'_, '_>, statement: usize, name: &Name) -> bool
    requires statement { statement < 2 ^ 30 }
    ensures resets { result ≡ resets (here_at site.entry).activity (here_at site.entry).row.part.number statement (plain name.now) }
{
    let occurrences = Occurrences {
        varied: &site.known.activity.varied,
        shadowed: site.known.activity.shadowed.as_slice(),
        width: site.known.width,
        part: site.part,
        statement,
    };
    occurrences.resets(name)
}

/// Adds the variables whose values the adjoint of a part of the right side of an assignment reads.
pub(crate) fn add_reads<'a>(
    site: Site<'_, '_>,
    statement: usize,
    term: &'a Expr,
    out: &mut Vec<&'a Name>,
) -> Result<(), Memory>
    requires statement { statement < 2 ^ 30 }
    ensures added { OnOk result (vars_seen out.new.items ≡ vars_seen out.old.items ++ adjoint_reads_in (active_here (here_at site.entry) statement) (term_of term.now)) }
{
    let occurrences = Occurrences {
        varied: &site.known.activity.varied,
        shadowed: site.known.activity.shadowed.as_slice(),
        width: site.known.width,
        part: site.part,
        statement,
    };
    occurrences.add_reads(term, out)
}
