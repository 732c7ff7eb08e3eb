//! Words, schedules and small runs.

ghost use Rattle.law_examples.specs.Runs.{ControlPopped, Difference, Shapes, Logs, Fitting, UnlinedEvents, UnlinedEnds};
ghost use Rattle.law_examples.specs.Sharing.{MembersInOrder, TurnedIsRefused};
ghost use Rattle.law_examples.specs.Schedules.{BinomialNumbers, Splits, WholeSchedules, Costs};
ghost use Rattle.law_examples.specs.Words.{Wrapped, Quotients, TripCounts, Products};

/// Arithmetic at its edges.
pub fn word_cases()
    ensures wrapped { Wrapped }
    ensures quotients { Quotients }
    ensures trip_counts { TripCounts }
    ensures products { Products }
{}

/// Schedules, their numbers and their costs.
pub fn schedule_cases()
    ensures numbers { BinomialNumbers }
    ensures splits { Splits }
    ensures schedules { WholeSchedules }
    ensures costs { Costs }
{}

/// Small runs, and what they tell.
pub fn run_cases()
    ensures control_popped { ControlPopped }
    ensures difference { Difference }
    ensures shapes { Shapes }
    ensures logs { Logs }
    ensures fitting { Fitting }
    ensures unlined_events { UnlinedEvents }
    ensures unlined_ends { UnlinedEnds }
{}

/// Two members of a block that a CALL passes: in order, the runs are those with blocks; the other way round, the definitions tell them apart.
pub fn sharing_cases()
    ensures in_order { MembersInOrder }
    ensures turned { TurnedIsRefused }
{}
