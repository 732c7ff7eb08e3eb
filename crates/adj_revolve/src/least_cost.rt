//! The least cost of a schedule, and where it splits its steps.

ghost use Rattle.std.specs.Prelude.{◌≡◌, ℕ, ◌+◌, ◌-◌, ◌*◌, ◌/◌, ◌^◌, ◌<◌, ◌≤◌, ◌↔◌, IsTrue, min};
ghost use Rattle.adj_revolve.specs.Binomial.{beta, choose_before};
ghost use Rattle.adj_revolve.specs.LeastCost.{IsGreatest, bound_at, least_cost};
ghost use Rattle.adj_revolve.specs.Split.{IsRepetitions, repetitions, split_of};

use crate::binomial::beta_up_to;

/// Whether the steps can be reversed with at most so many advances over each.
fn suffices(steps: u64, snapshots: u32, repetitions: u64) -> bool
    ensures { IsTrue result ↔ (steps ≤ beta snapshots repetitions) }
{
    let steps = u128::from(steps);
    steps == beta_up_to(snapshots, repetitions, steps)
}

/// The first power of two that suffices, as a number of repetitions.
fn enough(steps: u64, snapshots: u32) -> u64
    requires some { 0 < snapshots }
    requires within { steps ≤ 2 ^ 40 }
    ensures enough { steps ≤ beta snapshots result }
    ensures half_fails { 1 < result → beta snapshots (result / 2) < steps }
{
    let mut repetitions = 1;
    while !suffices(steps, snapshots, repetitions) {
        repetitions *= 2;
    }
    repetitions
}

/// The least number of repetitions that suffices. Its time grows with the logarithm of that number.
fn repetitions(steps: u64, snapshots: u32) -> u64
    requires some { 0 < snapshots }
    requires within { steps ≤ 2 ^ 40 }
    ensures value { result ≡ repetitions steps snapshots }
    ensures no_more { result ≤ steps }
{
    let mut high = enough(steps, snapshots);
    let mut low = high / 2;
    while low < high {
        let middle = low + (high - low) / 2;
        if suffices(steps, snapshots, middle) {
            high = middle;
        } else {
            low = middle + 1;
        }
    }
    low
}

/// The least cost of reversing the steps. (docs/SCHEDULES.md, "The numbers")
pub fn least(steps: u64, snapshots: u32) -> u128
    requires some { 0 < snapshots }
    requires few { snapshots ≤ 64 }
    requires within { steps ≤ 2 ^ 40 }
    ensures value { result ≡ least_cost steps snapshots }
    ensures greatest { IsGreatest (bound_at steps snapshots) result }
    ensures closed { (r : ℕ) → IsRepetitions steps snapshots r → result ≡ r * steps - choose_before (snapshots + r) r }
{
    let repetitions = repetitions(steps, snapshots);
    if repetitions == 0 {
        return 0;
    }
    let advances = u128::from(repetitions) * u128::from(steps);
    advances - beta_up_to(snapshots + 1, repetitions - 1, advances)
}

/// How many of the steps come before the place of the next snapshot. (docs/SCHEDULES.md, "The split")
pub fn split(steps: u64, snapshots: u32) -> u64
    requires some { 0 < snapshots }
    requires few { snapshots ≤ 64 }
    requires two { 2 ≤ steps }
    requires within { steps ≤ 2 ^ 40 }
    ensures value { result ≡ split_of steps snapshots }
    ensures closed { (r : ℕ) → IsRepetitions steps snapshots r
        → result ≡ min (beta snapshots (r - 1)) (steps - beta (snapshots - 1) (r - 1)) }
    ensures some { 0 < result }
    ensures less { result < steps }
{
    let repetitions = repetitions(steps, snapshots);
    let most = beta_up_to(snapshots, repetitions - 1, u128::from(steps));
    let above = beta_up_to(snapshots - 1, repetitions - 1, u128::from(steps));
    most.min(u128::from(steps) - above) as u64
}
