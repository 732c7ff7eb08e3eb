//! Numbers of schedules, plays, and the first actions of a schedule. Whole schedules stand in the golden cases of tests/.

use adj_revolve::{Action, Memory, Schedule, actions, beta, least, play, split};
use std::alloc::Global;

#[test]
fn numbers_of_the_closed_form(rt: HostRuntime) {
    let costs = [
        least(0, 4),
        least(1, 1),
        least(3, 2),
        least(3, 1),
        least(10, 3),
        least(100, 5),
        least(1000, 10),
    ];
    assert!(rt; costs == [0, 0, 2, 3, 15, 316, 3636], "{costs:?}");
    let steps = [
        beta(3, 4),
        beta(1, 9),
        beta(0, u64::MAX),
        beta(u32::MAX, 0),
        beta(64, 1 << 40),
        beta(u32::MAX, u64::MAX),
    ];
    assert!(rt;
        steps == [Some(35), Some(10), Some(1), Some(1), None, None],
        "{steps:?}"
    );
    let first = [
        split(2, 1),
        split(3, 1),
        split(3, 2),
        split(10, 3),
        split(1 << 40, 1),
    ];
    assert!(rt; first == [1, 2, 1, 4, (1 << 40) - 1], "{first:?}");
}

// What plays of three steps with two snapshots come to: of a list that turns too early, of one that ends early, and of the schedule.
fn plays(alloc: Global) -> Result<[Result<u128, usize>; 3], Memory> {
    let early_turn = [Action::Store(0), Action::Advance(0, 1), Action::Turn(2)];
    let ends_early = [Action::Store(0)];
    let schedule = actions(alloc, 3, 2)?;
    Ok([
        play(3, 2, early_turn.as_slice()),
        play(3, 2, ends_early.as_slice()),
        play(3, 2, schedule.as_slice()),
    ])
}

#[test]
fn a_play_tells_the_cost_or_where_the_list_fails(rt: HostRuntime) {
    assert_eq!(rt; plays(rt.alloc()), Ok([Err(2), Err(1), Ok(2)]));
}

// Whether a schedule begins with these actions.
fn begins_with(schedule: &mut Schedule, first: &[Action]) -> bool {
    for action in first {
        if schedule.next() != Some(*action) {
            return false;
        }
    }
    true
}

// It has more steps than a list can hold.
#[test]
fn a_long_schedule_begins_at_once_and_a_short_one_ends_for_good(rt: HostRuntime) {
    let first = [
        Action::Store(0),
        Action::Advance(0, 1_099_510_144_867),
        Action::Store(1_099_510_144_867),
        Action::Advance(1_099_510_144_867, 1_099_511_627_775),
        Action::Turn(1_099_511_627_775),
        Action::Keep(1_099_510_144_867),
    ];
    assert!(rt; begins_with(&mut Schedule::new(1 << 40, 2), &first));
    let mut short = Schedule::new(1, 1);
    assert!(rt; begins_with(&mut short, &[Action::Turn(0)]));
    assert!(rt; [short.next(), short.next(), short.next()] == [None; 3]);
}
