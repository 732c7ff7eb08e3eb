//! The schedule, action by action, from a fixed number of frames.

ghost use Rattle.std.specs.Prelude.{◌≡◌, ℕ, ◌+◌, ◌*◌, ◌<◌, ◌≤◌, ◌^◌, List, [], ◌∷◌, length, MatchOption};
ghost use Rattle.adj_revolve.specs.declared.machine.Action.{Action as AnAction};
ghost use Rattle.adj_revolve.specs.Binomial.{beta};
ghost use Rattle.adj_revolve.specs.Frames.{IsGoing, remaining};
ghost use Rattle.adj_revolve.specs.LeastCost.{least_cost};
ghost use Rattle.adj_revolve.specs.Machine.{Plays, total_cost, advances_over};
ghost use Rattle.adj_revolve.specs.Schedule.{schedule_of};

use crate::Action;
use crate::least_cost::split;
use arrayvec::ArrayVec;
use std::marker::Model;

/// The most snapshots of a schedule.
const MOST: usize = 64;

/// A stored place, and how many steps from it on come after those that are being given.
#[derive(Clone, Copy, Default)]
pub(crate) struct Frame {
    low: u64,
    first: u64,
}

/// What is given before the last frame goes on.
#[derive(Clone, Copy)]
pub(crate) enum Pending {
    /// The schedule of so many steps from a place on.
    Part(u64, u64),
    /// The same from where the place is stored.
    Body(u64, u64),
    /// The turn of a place whose snapshot was dropped.
    LastTurn(u64),
    /// Nothing: the last frame goes on.
    Return,
}

/// The actions of a schedule that were not given yet. It takes no memory, however many steps there are.
pub struct Schedule {
    slots: u32,
    frames: ArrayVec<Frame, MOST>,
    pending: Pending,
}

impl Drop for Schedule {
    fn drop(self) {
        let Schedule {
            slots: _,
            frames: _frames,
            pending: _pending,
        } = self;
    }
}

impl Model for Schedule {
    ghost Value = { List AnAction };

    ghost view = { λ s. remaining s.slots s.frames.items s.pending };

    ghost invariant = { λ s. IsGoing s.slots s.frames.items s.pending };
}

impl Schedule {
    /// The whole schedule of the steps. (docs/SCHEDULES.md, "The schedule")
    pub fn new(steps: u64, snapshots: u32) -> Schedule
        requires some { 0 < snapshots }
        requires few { snapshots ≤ 64 }
        requires within { steps ≤ 2 ^ 40 }
        ensures list { result ≡ schedule_of 0 steps snapshots }
        ensures plays { Plays steps snapshots result }
        ensures cost { total_cost result ≡ least_cost steps snapshots }
        ensures short { length result ≤ 4 * steps }
        ensures over { (step r : ℕ) → steps ≤ beta snapshots r → advances_over step result ≤ r }
    {
        Schedule {
            slots: snapshots,
            frames: ArrayVec::new(),
            pending: if steps == 0 {
                Pending::Return
            } else {
                Pending::Part(0, steps)
            },
        }
    }

    /// The next action, or none where all were given.
    pub fn next(&mut self) -> Option<Action>
        ensures { MatchOption result
            ((self.old ≡ []) × (self.new ≡ []))
            (λ action. self.old ≡ action ∷ self.new) }
    {
        match self.pending {
            Pending::Part(low, steps) => {
                if steps == 1 {
                    self.pending = Pending::Return;
                    return Some(Action::Turn(low));
                }
                self.pending = Pending::Body(low, steps);
                Some(Action::Store(low))
            }
            Pending::Body(low, steps) => {
                let first = split(steps, self.slots - self.frames.len() as u32);
                self.frames.push(Frame { low, first });
                self.pending = Pending::Part(low + first, steps - first);
                Some(Action::Advance(low, low + first))
            }
            Pending::LastTurn(low) => {
                self.pending = Pending::Return;
                Some(Action::Turn(low))
            }
            Pending::Return => {
                let frame = self.frames.pop()?;
                if frame.first == 1 {
                    self.pending = Pending::LastTurn(frame.low);
                    return Some(Action::Drop(frame.low));
                }
                self.pending = Pending::Body(frame.low, frame.first);
                Some(Action::Keep(frame.low))
            }
        }
    }
}
