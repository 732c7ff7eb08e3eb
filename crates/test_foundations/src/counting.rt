//! Counts and single actions of schedules, against the whole list and at their greatest.

ghost use Rattle.std.specs.Prelude.{◌<◌, ◌≤◌, ◌^◌};

use adj_revolve::{Action, Memory, actions};
use adj_revolve_count::{action, count};
use std::alloc::Global;

// Whether the count and the single actions of a schedule are those of its list.
fn agree_with(steps: u64, snapshots: u32, list: &[Action]) -> bool
    requires some { 0 < snapshots }
    requires few { snapshots ≤ 64 }
    requires within { steps ≤ 2 ^ 40 }
{
    let length = list.len() as u64;
    if count(steps, snapshots) != length {
        return false;
    }
    for (i, wanted) in list.iter().enumerate() {
        if action(steps, snapshots, i as u64 + 1) != Some(*wanted) {
            return false;
        }
    }
    action(steps, snapshots, length + 1).is_none()
}

fn agree(alloc: Global, steps: u64, snapshots: u32) -> Result<bool, Memory>
    requires some { 0 < snapshots }
    requires few { snapshots ≤ 64 }
    requires within { steps ≤ 2 ^ 40 }
{
    let list = actions(alloc, steps, snapshots)?;
    Ok(agree_with(steps, snapshots, list.as_slice()))
}

const PLANS: [(u64, u32); 9] = [
    (0, 3),
    (1, 1),
    (2, 1),
    (5, 1),
    (3, 2),
    (21, 2),
    (22, 2),
    (57, 3),
    (40, 64),
];

#[test]
fn counts_and_single_actions_are_those_of_the_list(rt: HostRuntime) {
    for plan in &PLANS {
        let (steps, snapshots) = *plan;
        assert!(rt;
            agree(rt.alloc(), steps, snapshots) == Ok(true),
            "{steps} steps"
        );
    }
}

// Whether 2^40 steps have so many actions, the last of which turns the first step.
fn are_counted(snapshots: u32, wanted: u64) -> bool
    requires some { 0 < snapshots }
    requires few { snapshots ≤ 64 }
    requires counted { 0 < wanted }
    requires within { wanted < 2 ^ 63 }
{
    count(1 << 40, snapshots) == wanted
        && action(1 << 40, snapshots, wanted) == Some(Action::Turn(0))
        && action(1 << 40, snapshots, wanted + 1).is_none()
}

#[test]
fn the_greatest_schedules_are_counted_at_once(rt: HostRuntime) {
    let found = [
        are_counted(1, 3_298_534_883_327),
        are_counted(2, 3_298_536_366_236),
        are_counted(64, 4_251_930_342_795),
    ];
    assert_eq!(rt; found, [true; 3]);
    let later = action(1 << 40, 1, 3_000_000_000_000);
    assert!(rt; later == Some(Action::Turn(99_511_627_776)));
}
