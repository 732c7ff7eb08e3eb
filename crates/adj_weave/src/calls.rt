//! Which calls between units count by marks.

ghost use Rattle.std.specs.Prelude.{◌≡◌, IfOk};
ghost use Rattle.adj_weave_units.specs.Calls.{edges_of};
ghost use Rattle.adj_sweep.specs.HelperSteps.{are_reversed};
ghost use Rattle.adj_weave.specs.Marked.{program_marks};
ghost use Rattle.adj_weave.specs.Orders.{is_edge, is_step_call};

use crate::marks::Marked;
use adj_sweep::steps::MarkedLoops;
use adj_tree::Memory;
use adj_weave_units::calls::Call;
use std::alloc::Global;

/// Which calls count.
#[derive(Clone, Copy, PartialEq, Eq, Debug)]
pub enum Counting {
    /// Those that an adjoint makes as they are: kept calls that aren't split, and adjointed step calls where marked loops are reversed.
    Plain(MarkedLoops),
    /// Those that a forward or a backward unit makes as they are: the same, where each call is kept.
    Paired(MarkedLoops),
    Adjointed,
    /// Those that name an adjoint: adjointed calls that aren't split.
    Whole,
    Split,
}

// Whether a call is the step call of a marked loop that is reversed by a schedule.
fn is_reversed_step(marked: &Marked<'_>, loops: MarkedLoops, call: &Call) -> bool
    ensures is { result ≡ is_step_call (program_marks marked.now) (are_reversed loops) call.now.number call.now.turns }
{
    match loops {
        MarkedLoops::Plain => false,
        MarkedLoops::Reversed => call.turns && marked.adjointed(call.number),
    }
}

impl Counting {
    // Whether a call counts.
    fn counts(self, marked: &Marked<'_>, call: &Call) -> bool
        ensures counts { result ≡ is_edge marked.now self call.now.number call.now.turns }
    {
        let number = call.number;
        match self {
            Counting::Plain(loops) => {
                marked.kept(number) && !marked.split(number)
                    || is_reversed_step(marked, loops, call)
            }
            Counting::Paired(loops) => {
                !marked.split(number) || is_reversed_step(marked, loops, call)
            }
            Counting::Adjointed => marked.adjointed(number),
            Counting::Whole => marked.adjointed(number) && !marked.split(number),
            Counting::Split => marked.adjointed(number) && marked.split(number),
        }
    }
}

/// An edge for each call that counts, from the unit that calls to the one that is called.
pub fn edges(
    alloc: Global,
    marked: &Marked<'_>,
    counting: Counting,
    calls: &[Call],
) -> Result<Vec<(usize, usize)>, Memory>
    ensures edges { IfOk result (λ v. v.items ≡ edges_of (is_edge marked.now counting) calls.now) }
{
    let mut made = Vec::new(alloc);
    for call in calls {
        if counting.counts(marked, call) {
            made.push((call.from, call.to))?;
        }
    }
    Ok(made)
}
