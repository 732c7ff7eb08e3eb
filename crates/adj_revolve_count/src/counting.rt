//! The number of a schedule's actions.

ghost use Rattle.std.specs.Prelude.{◌≡◌, ◌+◌, ◌-◌, ◌*◌, ◌^◌, ◌<◌, ◌≤◌, length, min};
ghost use Rattle.adj_revolve.specs.Binomial.{beta};
ghost use Rattle.adj_revolve.specs.Schedule.{schedule_of};
ghost use Rattle.adj_revolve_count.specs.Stores.{stores};

use adj_revolve::beta;

/// How many steps so many snapshots and repetitions turn, or `cap` where that is less.
pub(crate) fn steps_up_to(snapshots: u32, repetitions: u64, cap: u64) -> u64
    ensures { result ≡ min cap (beta snapshots repetitions) }
{
    match beta(snapshots, repetitions) {
        Some(steps) => u128::from(cap).min(steps) as u64,
        None => cap,
    }
}

/// The most repetitions that turn no more than the steps. Its time grows with the logarithm of the steps.
pub(crate) fn repetitions_within(steps: u64, snapshots: u32) -> u64
    requires some { 0 < snapshots }
    requires one { 1 ≤ steps }
    requires within { steps ≤ 2 ^ 40 }
    ensures fits { beta snapshots result ≤ steps }
    ensures most { steps < beta snapshots (result + 1) }
{
    let mut low = 0;
    let mut high = steps;
    while high - low > 1 {
        let middle = low + (high - low) / 2;
        if steps_up_to(snapshots, middle, steps + 1) <= steps {
            low = middle;
        } else {
            high = middle;
        }
    }
    low
}

/// How many snapshots are taken where the steps are turned.
pub(crate) fn stores(steps: u64, snapshots: u32) -> u64
    requires some { 0 < snapshots }
    requires few { snapshots ≤ 64 }
    requires within { steps ≤ 2 ^ 40 }
    ensures { result ≡ stores snapshots steps }
{
    let mut left = steps;
    let mut slots = snapshots;
    let mut taken = 0;
    while left > 1 {
        let repetitions = repetitions_within(left, slots);
        let full = steps_up_to(slots, repetitions, left);
        slots -= 1;
        taken += steps_up_to(slots, repetitions, left);
        left -= full;
    }
    taken
}

/// How many actions the schedule has. (docs/SCHEDULES.md, "How many actions")
pub fn count(steps: u64, snapshots: u32) -> u64
    requires some { 0 < snapshots }
    requires few { snapshots ≤ 64 }
    requires within { steps ≤ 2 ^ 40 }
    ensures count { result ≡ length (schedule_of 0 steps snapshots) }
    ensures closed { 0 < steps → result ≡ 3 * steps - 2 + stores snapshots steps }
    ensures within { result ≤ 2 ^ 42 }
{
    if steps == 0 {
        return 0;
    }
    3 * steps - 2 + stores(steps, snapshots)
}
