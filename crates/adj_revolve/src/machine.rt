//! The snapshot machine, which judges and prices a list of actions.

ghost use Rattle.std.specs.Prelude.{◌≡◌, ℕ, ◌+◌, ◌-◌, ◌<◌, ◌≤◌, ◌↔◌, length, IsOk, IsTrue, IfOk, Err, Some, MatchOption};
ghost use Rattle.std.specs.List.{remove};
ghost use Rattle.adj_revolve.specs.LeastCost.{least_cost};
ghost use Rattle.adj_revolve.specs.Machine.{IsAmong, without, Allowed, next_state, action_cost, total_cost, Plays, FailsAt};
ghost use Rattle.adj_revolve.specs.Playing.{state_of};

use arrayvec::ArrayVec;

/// The most places that a machine can hold.
const MOST: usize = 64;

/// An action of the snapshot machine. A place is the number of the step that begins there.
#[derive(Clone, Copy, Debug, PartialEq, Eq)]
pub enum Action {
    /// Take a snapshot at the place where the program stands.
    Store(u64),
    /// Run from the first place to the second.
    Advance(u64, u64),
    /// Reverse the step at the place, which is the last one left.
    Turn(u64),
    /// Restore the snapshot of the place, and keep it.
    Keep(u64),
    /// Restore the snapshot of the place, and give up its slot.
    Drop(u64),
}

/// Where the program stands, if anywhere, the places that are stored, and how many steps are left.
#[derive(Drop)]
struct Machine {
    working: Option<u64>,
    stored: ArrayVec<u64, MOST>,
    left: u64,
}

/// The first index of the place, if it is among the places.
fn index_of(places: &[u64], place: u64) -> Option<usize>
    ensures { MatchOption result
        (IsAmong place places.now → ⊥)
        (λ i. (i < length places.now) × IsAmong place places.now × (remove places.now i ≡ without place places.now)) }
{
    for (i, stored) in places.iter().enumerate() {
        if *stored == place {
            return Some(i);
        }
    }
    None
}

/// What the action costs.
fn cost_of(action: Action) -> u64
    ensures { result ≡ action_cost action }
{
    match action {
        Action::Advance(from, to) => to.saturating_sub(from),
        _ => 0,
    }
}

impl Machine {
    /// Whether the program stands at the place.
    fn stands_at(&self, place: u64) -> bool
        ensures { IsTrue result ↔ (self.now.working ≡ Some place) }
    {
        match self.working {
            Some(working) => working == place,
            None => false,
        }
    }

    /// Whether the place is stored.
    fn has_stored(&self, place: u64) -> bool
        ensures { IsTrue result ↔ IsAmong place self.now.stored.items }
    {
        index_of(self.stored.as_slice(), place).is_some()
    }

    /// Whether the machine with so many slots allows the action.
    fn allows(&self, slots: usize, action: Action) -> bool
        ensures { IsTrue result ↔ Allowed slots (state_of self.now) action }
    {
        match action {
            Action::Store(place) => self.stands_at(place)
                && !self.has_stored(place)
                && self.stored.len() < slots,
            Action::Advance(from, to) => self.stands_at(from) && from < to && to < self.left,
            Action::Turn(place) => self.stands_at(place)
                && place < self.left
                && self.left - place == 1,
            Action::Keep(place) | Action::Drop(place) => self.has_stored(place),
        }
    }

    /// Does an action that the machine allows.
    fn act(&mut self, action: Action)
        requires { Allowed 64 (state_of self.old) action }
        ensures { state_of self.new ≡ next_state (state_of self.old) action }
    {
        match action {
            Action::Store(place) => self.stored.insert(0, place),
            Action::Advance(_, to) => self.working = Some(to),
            Action::Turn(place) => {
                self.working = None;
                self.left = place;
            }
            Action::Keep(place) => self.working = Some(place),
            Action::Drop(place) => {
                if let Some(i) = index_of(self.stored.as_slice(), place) {
                    self.stored.remove(i);
                }
                self.working = Some(place);
            }
        }
    }
}

/// Plays the actions on the steps, on a machine with so many slots. `Ok` has their cost where the machine allows each and
/// leaves no step. `Err` has the index of the first action that is not allowed, or how many there are where all are
/// allowed and steps are left. (docs/SCHEDULES.md, "The machine")
pub fn play(steps: u64, snapshots: u32, actions: &[Action]) -> Result<u128, usize>
    requires some { 0 < snapshots }
    requires few { snapshots ≤ 64 }
    ensures plays { IsOk result ↔ Plays steps snapshots actions.now }
    ensures cost { IfOk result (λ cost. cost ≡ total_cost actions.now) }
    ensures fails { (i : ℕ) → (result ≡ Err i) ↔ FailsAt steps snapshots actions.now i }

    // No list costs less, whatever its order.
    ensures least { IfOk result (λ cost. least_cost steps snapshots ≤ cost) }
{
    let mut machine = Machine {
        working: Some(0),
        stored: ArrayVec::new(),
        left: steps,
    };
    let mut cost = 0u128;
    for (i, action) in actions.iter().enumerate() {
        if !machine.allows(snapshots as usize, *action) {
            return Err(i);
        }
        machine.act(*action);
        cost += u128::from(cost_of(*action));
    }
    if machine.left == 0 {
        Ok(cost)
    } else {
        Err(actions.len())
    }
}
