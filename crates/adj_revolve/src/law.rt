//! A law of the schedule's definition.

ghost use Rattle.std.specs.Prelude.{◌≡◌, ◌+◌, ◌-◌, ◌<◌, ◌≤◌, ◌∷◌, ◌++◌};
ghost use Rattle.adj_revolve.specs.Schedule.{body, from_snapshot, schedule_of};
ghost use Rattle.adj_revolve.specs.Split.{split_of};
ghost use Rattle.adj_revolve.specs.declared.machine.Action.TheVariants.{Advance};

/// The recursion of the schedule: past its first snapshot come an advance to the split, the schedule of the steps above
/// it with one snapshot fewer, and the return to the steps below it. The depth that bounds the definition is gone.
pub fn schedule_recursion(low: u64, steps: u64, snapshots: u32)
    requires some { 0 < snapshots }
    requires two { 2 ≤ steps }
    ensures { let first = split_of steps snapshots in
        body steps low steps snapshots
        ≡ Advance low (low + first) ∷ (schedule_of (low + first) (steps - first) (snapshots - 1)
        ++ from_snapshot low first (body first low first snapshots)) }
{}
