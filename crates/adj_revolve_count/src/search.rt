//! The action of a number.

ghost use Rattle.std.specs.Prelude.{◌≡◌, ◌+◌, ◌-◌, ◌*◌, ◌^◌, ◌<◌, ◌≤◌, [], ◌∷◌, length, slice_get, Some};
ghost use Rattle.adj_revolve.specs.Schedule.{schedule_of};
ghost use Rattle.adj_revolve.specs.declared.machine.Action.TheVariants.{Turn, Drop};
ghost use Rattle.adj_revolve_count.specs.Rows.{IsRow, IsSought, from_end, row_actions, row_steps, search_steps, sought};

use crate::counting::count;
use crate::row::Row;
use adj_revolve::Action;

/// What a step of the search comes to.
#[derive(Clone, Copy)]
pub(crate) enum Search {
    /// The action.
    Found(Action),
    /// The action that stands so far from the end of those that come from where the program goes back to the row's place.
    Within(Row, u64),
}

/// The search in a part that begins with its snapshot and has so many actions.
fn in_part(low: u64, steps: u64, snapshots: u32, actions: u64, left: u64) -> Search
    requires one { 1 ≤ steps }
    requires slot { 2 ≤ steps → 0 < snapshots }
    requires few { snapshots ≤ 64 }
    requires within { low + steps ≤ 2 ^ 40 }
    requires actions { actions ≡ length (schedule_of low steps snapshots) }
    requires some { 0 < left }
    requires left { left ≤ actions }
    ensures sought { sought result ≡ from_end (schedule_of low steps snapshots) left }
    ensures sound { IsSought result }
    ensures steps { search_steps result ≤ steps }
{
    if steps == 1 {
        return Search::Found(Action::Turn(low));
    }
    if left == actions {
        return Search::Found(Action::Store(low));
    }
    let row = Row::new(low, steps, snapshots, actions + 2 - 3 * steps);
    Search::Within(row, left)
}

/// The search in a row of one step.
fn in_last(low: u64, left: u64) -> Action
    requires some { 0 < left }
    requires left { left ≤ 2 }
    ensures { Some result ≡ from_end (Drop low ∷ Turn low ∷ []) left }
{
    if left == 1 {
        Action::Turn(low)
    } else {
        Action::Drop(low)
    }
}

/// One step of the search in a row.
fn in_row(row: Row, left: u64) -> Search
    requires row { IsRow row }
    requires some { 0 < left }
    requires left { left ≤ length (row_actions row) }
    ensures sought { sought result ≡ from_end (row_actions row) left }
    ensures sound { IsSought result }
    ensures less { search_steps result < row_steps row }
{
    let steps = row.steps();
    if steps == 1 {
        return Search::Found(in_last(row.low, left));
    }
    let actions = row.actions();
    if left == actions {
        return Search::Found(Action::Keep(row.low));
    }
    let lower = row.lower();
    let first = lower.steps();
    if left + 1 == actions {
        return Search::Found(Action::Advance(row.low, row.low + first));
    }
    let again = lower.actions();
    if left <= again {
        return Search::Within(lower, left);
    }
    in_part(
        row.low + first,
        steps - first,
        row.snapshots - 1,
        actions - 2 - again,
        left - again,
    )
}

/// The action that a search is for.
fn found(start: Search) -> Action
    requires { IsSought start }
    ensures { Some result ≡ sought start }
{
    let mut search = start;
    'each: loop {
        match search {
            Search::Found(action) => return action,
            Search::Within(row, left) => search = in_row(row.shortened(left), left),
        }
    }
}

/// The action of a number, counted from 1, where the schedule has so many. (docs/SCHEDULES.md, "How many actions")
pub fn action(steps: u64, snapshots: u32, number: u64) -> Option<Action>
    requires some { 0 < snapshots }
    requires few { snapshots ≤ 64 }
    requires within { steps ≤ 2 ^ 40 }
    requires counted { 0 < number }
    ensures { result ≡ slice_get (schedule_of 0 steps snapshots) (number - 1) }
{
    let actions = count(steps, snapshots);
    if number > actions {
        return None;
    }
    let search = in_part(0, steps, snapshots, actions, actions - number + 1);
    Some(found(search))
}
