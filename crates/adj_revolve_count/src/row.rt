//! Rows of steps that a schedule's part ends with, one below the other.

ghost use Rattle.std.specs.Prelude.{◌≡◌, ◌+◌, ◌-◌, ◌*◌, ◌^◌, ◌<◌, ◌≤◌, length, IsTrue};
ghost use Rattle.adj_revolve.specs.Binomial.{beta};
ghost use Rattle.adj_revolve.specs.Split.{split_of};
ghost use Rattle.adj_revolve_count.specs.Rows.{IsRow, IsEndOf, row_steps, row_actions};
ghost use Rattle.adj_revolve_count.specs.Stores.{stores};

use crate::counting::{repetitions_within, steps_up_to};

/// The most steps of a schedule, 2^40.
const MOST: u64 = 1 << 40;

/// Steps from a stored place on: as many as the snapshots turn in so many repetitions, and extra ones, too few for a
/// repetition more. `stores` is how many snapshots the extra steps take with one slot fewer.
#[derive(Clone, Copy)]
pub(crate) struct Row {
    pub(crate) low: u64,
    pub(crate) snapshots: u32,
    pub(crate) repetitions: u64,
    pub(crate) extra: u64,
    pub(crate) stores: u64,
}

impl Row {
    /// The row of so many steps, for which so many snapshots are taken.
    pub(crate) fn new(low: u64, steps: u64, snapshots: u32, taken: u64) -> Row
        requires some { 0 < snapshots }
        requires few { snapshots ≤ 64 }
        requires two { 2 ≤ steps }
        requires within { low + steps ≤ 2 ^ 40 }
        requires taken { taken ≡ stores snapshots steps }
        ensures row { IsRow result }
        ensures low { result.low ≡ low }
        ensures snapshots { result.snapshots ≡ snapshots }
        ensures steps { row_steps result ≡ steps }
    {
        let repetitions = repetitions_within(steps, snapshots);
        let full = steps_up_to(snapshots, repetitions, steps);
        let again = steps_up_to(snapshots - 1, repetitions, steps);
        Row {
            low,
            snapshots,
            repetitions,
            extra: steps - full,
            stores: taken - again,
        }
    }

    /// The row with other repetitions.
    fn with(self, repetitions: u64) -> Row
        ensures { result ≡ record self { repetitions = repetitions } }
    {
        Row {
            repetitions,
            ..self
        }
    }

    /// How many steps it has.
    pub(crate) fn steps(self) -> u64
        requires { IsRow self }
        ensures { result ≡ row_steps self }
    {
        steps_up_to(self.snapshots, self.repetitions, MOST) + self.extra
    }

    /// How many actions come from where the program goes back to its place.
    pub(crate) fn actions(self) -> u64
        requires { IsRow self }
        ensures { result ≡ length (row_actions self) }
    {
        let again = steps_up_to(self.snapshots - 1, self.repetitions, MOST);
        3 * self.steps() - 2 + again + self.stores
    }

    /// Whether the row with fewer repetitions is the end of this one and has so many last actions.
    fn ends_with(self, repetitions: u64, left: u64) -> bool
        requires row { IsRow self }
        requires fewer { repetitions ≤ self.repetitions }
        ensures { IsTrue result → IsEndOf (record self { repetitions = repetitions }) self left }
    {
        let next = steps_up_to(self.snapshots - 1, repetitions + 1, MOST);
        if self.extra >= next {
            return false;
        }
        left <= self.with(repetitions).actions()
    }

    /// The row with the fewest repetitions that is the end of this one and has so many last actions.
    pub(crate) fn shortened(self, left: u64) -> Row
        requires row { IsRow self }
        requires left { left ≤ length (row_actions self) }
        ensures { IsEndOf result self left }
    {
        let mut low = 0;
        let mut high = self.repetitions;
        while low < high {
            let middle = low + (high - low) / 2;
            if self.ends_with(middle, left) {
                high = middle;
            } else {
                low = middle + 1;
            }
        }
        self.with(high)
    }

    /// The row of the steps below its split.
    pub(crate) fn lower(self) -> Row
        requires row { IsRow self }
        requires two { 2 ≤ row_steps self }
        ensures row { IsRow result }
        ensures low { result.low ≡ self.low }
        ensures snapshots { result.snapshots ≡ self.snapshots }
        ensures steps { row_steps result ≡ split_of (row_steps self) self.snapshots }
    {
        let again = steps_up_to(self.snapshots - 1, self.repetitions, MOST);
        if self.extra < again {
            return self.with(self.repetitions - 1);
        }
        Row {
            extra: 0,
            stores: 0,
            ..self
        }
    }
}
