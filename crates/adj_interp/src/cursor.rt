//! How far a run has come in a schedule.

ghost use Rattle.std.specs.Prelude.{◌≡◌, ◌<◌, ◌≤◌, ◌^◌, ◌-◌, ◌==◌, ◌&&◌, ◌+◌, ◌↔◌, ◌⊎◌, IsTrue, drop, slice_get};
ghost use Rattle.adj_revolve.specs.Schedule.{schedule_of};
ghost use Rattle.adj_interp.specs.Tallied.{Plan, planned};

use adj_revolve::{Action, Schedule};
use adj_revolve_count::action;
use std::alloc::Global;
use std::marker::Model;

/// The most actions that are gone through to one of them.
const NEAR: u64 = 64;

/// The actions of a schedule that come behind those that were given, seen as the schedule. An action far from these is
/// found without it.
pub struct Cursor {
    steps: u64,
    snapshots: u32,
    given: u64,
    rest: Schedule,
}

impl Drop for Cursor {
    fn drop(self) {
        let Cursor {
            steps: _,
            snapshots: _,
            given: _,
            rest: _rest,
        } = self;
    }
}

impl Model for Cursor {
    ghost Value = { Plan };

    ghost view = { λ c. record { steps = c.steps; snapshots = c.snapshots } };

    ghost invariant = { λ c. (0 < c.snapshots) × (c.snapshots ≤ 64) × (c.steps ≤ 2 ^ 40) × (c.rest ≡ drop c.given (schedule_of 0 c.steps c.snapshots)) };
}

// Leaves actions out, as far as there are any.
#[tactic(auto, using(crate::proofs::Plans::drop_one, crate::proofs::Plans::drop_none))]
fn skip(schedule: &mut Schedule, count: u64)
    ensures { schedule.new ≡ drop count schedule.old }
{
    let mut left = count;
    'each: while left > 0 {
        let Some(_action) = schedule.next() else {
            return;
        };
        left -= 1;
    }
}

// Begins a schedule anew, where the action of a number was given already, and says how many come before that action.
#[tactic(auto, using(crate::proofs::Plans::dropped_more))]
fn resume(rest: &mut Schedule, plan: (u64, u32), given: u64, number: u64) -> u64
    requires some { 0 < plan.1 }
    requires few { plan.1 ≤ 64 }
    requires within { plan.0 ≤ 2 ^ 40 }
    requires at { rest.old ≡ drop given (schedule_of 0 plan.0 plan.1) }
    requires counted { 0 < number }
    ensures { drop result rest.new ≡ drop (number - 1) (schedule_of 0 plan.0 plan.1) }
{
    if given < number {
        return number - 1 - given;
    }
    *rest = Schedule::new(plan.0, plan.1);
    number - 1
}

// Whether few actions lie before the action of a number, where so many were given or from the start.
fn is_near(given: u64, number: u64) -> bool
    ensures { IsTrue result ↔ ((number ≤ 64) ⊎ ((given < number) × (number ≤ given + 64))) }
{
    number <= NEAR || given < number && number - given <= NEAR
}

impl Cursor {
    /// Before the first action.
    pub fn new(steps: u64, snapshots: u32) -> Cursor
        requires some { 0 < snapshots }
        requires few { snapshots ≤ 64 }
        requires within { steps ≤ 2 ^ 40 }
        ensures { result ≡ record { steps = steps; snapshots = snapshots } }
    {
        Cursor {
            steps,
            snapshots,
            given: 0,
            rest: Schedule::new(steps, snapshots),
        }
    }

    /// Whether it goes through the schedule of so many steps and snapshots.
    pub fn is_of(&self, steps: u64, snapshots: u32) -> bool
        ensures { result ≡ (self.now.steps == steps && self.now.snapshots == snapshots) }
    {
        self.steps == steps && self.snapshots == snapshots
    }

    /// The action of a number, counted from 1.
    pub fn action(&mut self, number: u64) -> Option<Action>
        requires { 0 < number }
        ensures same { self.new ≡ self.old }
        ensures action { result ≡ slice_get (planned self.old) (number - 1) }
    {
        if !is_near(self.given, number) {
            return action(self.steps, self.snapshots, number);
        }
        let before = resume(
            &mut self.rest,
            (self.steps, self.snapshots),
            self.given,
            number,
        );
        skip(&mut self.rest, before);
        self.given = number;
        self.rest.next()
    }
}

/// The action of a number, counted from 1, in the schedule of so many steps and snapshots: by the cursor that is kept, where
/// it goes through this schedule, and else by another, which is kept in its place as far as memory allows. It stands on the
/// heap, so that a call moves no more than its place.
pub(crate) fn action_by(
    alloc: Global,
    kept: &mut Option<Box<Cursor>>,
    steps: u64,
    snapshots: u32,
    number: u64,
) -> Option<Action>
    requires some { 0 < snapshots }
    requires few { snapshots ≤ 64 }
    requires within { steps ≤ 2 ^ 40 }
    requires counted { 0 < number }
    ensures { result ≡ slice_get (planned (record { steps = steps; snapshots = snapshots })) (number - 1) }
{
    match kept.take() {
        Some(mut cursor) if cursor.is_of(steps, snapshots) => {
            let action = cursor.action(number);
            *kept = Some(cursor);
            action
        }
        _ => {
            let mut cursor = Cursor::new(steps, snapshots);
            let action = cursor.action(number);
            *kept = Box::new(alloc, cursor).ok();
            action
        }
    }
}
