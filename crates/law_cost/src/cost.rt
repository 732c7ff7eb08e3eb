//! How many statements both sweeps have, and what runs of them take: definitions and laws, no code.
//!
//! `specs/Sweeps.antt` counts the statements of both sweeps, and `specs/CostTheorem.antt` compares them with what the statements of
//! the kernel weigh: 1 more than the nodes of their expressions and conditions (`def_kernel`, `specs/Weights.antt`). These laws hold
//! for any marks, and ask nothing of the program. `specs/RunTheorem.antt` compares runs, calls of any depth among them: it stands on
//! the theorem on sweeps (`def_sweep`), whose values say that both sweeps go the way of the unit's run. `specs/Rows.antt` counts what
//! both sweeps of a marked loop take that is reversed by a schedule, and `specs/ScheduledRuns.antt` compares runs where some are, and
//! where calls are split.
#![tactic(auto)]

ghost use Rattle.law_cost.specs.CostTheorem.{StatementsCost, ListsCost, AdjointsCost, LoopsCost};
ghost use Rattle.law_cost.specs.RunTheorem.{RunsCost, EmittedCosts};
ghost use Rattle.law_cost.specs.Rows.{ReversedRowsCost};
ghost use Rattle.law_cost.specs.ScheduledRuns.{ScheduledCosts, ScheduledSpends, SplitSpends, ReadBackSpends, ReadBackSplitSpends, BoundIsWithin};

/// Both sweeps have at most four statements to each unit of weight, and no constant below four would do.
pub fn cost_laws()
    ensures statements { StatementsCost }
    ensures lists { ListsCost }
    ensures adjoints { AdjointsCost }
    ensures loops_in_loops { LoopsCost }
{}

/// Where marked loops are loops as others, runs of both sweeps of a unit take at most four statements to each unit of what the unit's run costs
/// at the weights of its statements, and one more for each call that a chain has. So does the run of the head's adjoint, and two statements
/// for each dummy. No call is split.
pub fn run_laws()
    ensures units { RunsCost }
    ensures emitted { EmittedCosts }
{}

/// What both sweeps of one reversed loop take: of l steps with r repetitions, whose step call has g actuals, `row_takes` at most.
pub fn rows_law()
    ensures { ReversedRowsCost }
{}

/// Whether marked loops are reversed by schedules or not, the run of the head's adjoint takes at most 15 + (calls + 1) * (repetitions + 1)
/// statements to each unit of what the head's run costs at the nodes of its statements, and two for each dummy. That is at most twice the
/// greatest weight for each statement of the head's run, so within 100 * (weight + variables) * (calls + 2) * (repetitions + 2) for each. Where
/// calls are split, it is so with weight + variables in place of the weight: a forward unit pushes at most the variables of its unit, and the
/// backward unit pops them.
pub fn scheduled_laws()
    ensures emitted { ScheduledCosts }
    ensures spends { ScheduledSpends }
    ensures split_spends { SplitSpends }
    ensures read_back { ReadBackSpends }
    ensures read_back_split { ReadBackSplitSpends }
    ensures within { BoundIsWithin }
{}
