//! The binomial numbers, computed without overflow.

ghost use Rattle.std.specs.Prelude.{◌≡◌, ℕ, ◌+◌, ◌*◌, ◌/◌, ◌^◌, ◌<◌, ◌≤◌, min, MatchOption};
ghost use Rattle.adj_revolve.specs.Binomial.{beta};

/// The greatest number that `beta` answers, 2^127.
const LIMIT: u128 = 1 << 127;

/// Below this a number times a total fits, and one division serves.
const SMALL: u128 = 1 << 62;

/// `ways * total / taken`, or `cap` where that is less.
fn grown_up_to(ways: u128, total: u128, taken: u128, cap: u128) -> u128
    requires taken { 0 < taken }
    requires taken_small { taken ≤ 2 ^ 33 }
    requires total { 0 < total }
    requires total_small { total ≤ 2 ^ 65 }
    requires cap_small { cap ≤ 2 ^ 127 + 1 }
    ensures { result ≡ min cap (ways * total / taken) }
{
    if ways < SMALL {
        return cap.min(ways * total / taken);
    }
    let whole = ways / taken;
    if whole > cap / total {
        return cap;
    }
    cap.min(whole * total + ways % taken * total / taken)
}

/// In how many ways `few` of `many + few` things are chosen, or `cap` where that is less.
fn ways_up_to(many: u64, few: u64, cap: u128) -> u128
    requires few { few ≤ 2 ^ 32 }
    requires cap_small { cap ≤ 2 ^ 127 + 1 }
    ensures { result ≡ min cap (beta many few) }
{
    let mut ways = cap.min(1);
    for i in 0..few {
        if ways == cap {
            return cap;
        }
        let taken = u128::from(i) + 1;
        ways = grown_up_to(ways, u128::from(many) + taken, taken, cap);
    }
    ways
}

/// `beta`, or `cap` where that is less.
pub(crate) fn beta_up_to(snapshots: u32, repetitions: u64, cap: u128) -> u128
    requires { cap ≤ 2 ^ 127 + 1 }
    ensures { result ≡ min cap (beta snapshots repetitions) }
{
    let snapshots = u64::from(snapshots);
    if snapshots <= repetitions {
        ways_up_to(repetitions, snapshots, cap)
    } else {
        ways_up_to(snapshots, repetitions, cap)
    }
}

/// How many steps can be reversed with so many snapshots where at most so many advances lead over each: the binomial
/// number of their sum over either. None where it is above 2^127. (docs/SCHEDULES.md, "The numbers"; Griewank and
/// Walther 2000)
pub fn beta(snapshots: u32, repetitions: u64) -> Option<u128>
    ensures { MatchOption result
        (2 ^ 127 < beta snapshots repetitions)
        (λ steps. (steps ≡ beta snapshots repetitions) × (steps ≤ 2 ^ 127)) }
{
    let steps = beta_up_to(snapshots, repetitions, LIMIT + 1);
    if steps > LIMIT { None } else { Some(steps) }
}
