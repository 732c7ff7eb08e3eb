//! The whole schedule as a list.

ghost use Rattle.std.specs.Prelude.{◌≡◌, ℕ, ◌*◌, ◌<◌, ◌≤◌, ◌^◌, IfOk, vec_len};
ghost use Rattle.adj_revolve.specs.Binomial.{beta};
ghost use Rattle.adj_revolve.specs.LeastCost.{least_cost};
ghost use Rattle.adj_revolve.specs.Machine.{Plays, total_cost, advances_over};
ghost use Rattle.adj_revolve.specs.Schedule.{schedule_of};

use crate::{Action, Schedule};
use std::alloc::{AllocFailed, Global};

/// No memory was left.
#[derive(Clone, Copy, Debug, PartialEq, Eq)]
pub struct Memory;

impl<T: Drop> From<AllocFailed<T>> for Memory {
    fn from(_refused: AllocFailed<T>) -> Memory {
        Memory
    }
}

/// All actions of the schedule. (docs/SCHEDULES.md, "The schedule")
pub fn actions(alloc: Global, steps: u64, snapshots: u32) -> Result<Vec<Action>, Memory>
    requires some { 0 < snapshots }
    requires few { snapshots ≤ 64 }
    requires within { steps ≤ 2 ^ 40 }
    ensures list { IfOk result (λ list. list.items ≡ schedule_of 0 steps snapshots) }
    ensures plays { IfOk result (λ list. Plays steps snapshots list.items) }
    ensures cost { IfOk result (λ list. total_cost list.items ≡ least_cost steps snapshots) }
    ensures short { IfOk result (λ list. vec_len list ≤ 4 * steps) }
    ensures over { IfOk result
        (λ list. (step r : ℕ) → steps ≤ beta snapshots r → advances_over step list.items ≤ r) }
{
    let mut list = Vec::new(alloc);
    let mut schedule = Schedule::new(steps, snapshots);
    while let Some(action) = schedule.next() {
        list.push(action)?;
    }
    Ok(list)
}
