//! What the emitted program takes, against the program of a user: definitions and laws, no code.
//!
//! `specs/Spent.antt` says it of the statements that both runs count, and of the weight of the program's statements, where no loop is marked. The
//! crate joins the law on what the run of an adjoint takes (`law_cost`) with the law on what the kernel's statements weigh (`def_kernel`).
//! `specs/KernelSpent.antt` says it against the kernel's run, whether loops are marked or not: what a step call weighs grows with the
//! variables of its unit, of which the source's statements know nothing. The layer above uses `spent_law` and `kernel_law`, for the marks by which
//! it emits.
#![tactic(auto)]

ghost use Rattle.law_cost.specs.Spent.{EmittedSpends, BoundIsWithin, ChainsAreCounted};
ghost use Rattle.law_cost.specs.KernelSpent.{KernelKeepsBound, KernelKeepsSplitBound, RoundBoundIsKept, RoundSplitBoundIsKept, KernelChainsAreCounted};

/// Where no loop is marked, no statement weighs more than m, and no chain of calls from the head has more than d calls, the run of the head's
/// adjoint takes at most (36 + 9 * d) * m statements for each one of the head's run, and two for each dummy: within 40 * m * (d + 2).
pub fn spent_law()
    ensures emitted { EmittedSpends }
    ensures within { BoundIsWithin }
{}

/// How many calls a chain has at most is counted where a program is checked.
pub fn chains_law()
    ensures { ChainsAreCounted }
{}

/// Whether loops are marked or not, with m and d of the kernel, and with a number r of repetitions that serves each run of a reversed loop: at most
/// (30 + 2 * (d + 1) * (r + 1)) * m statements for each one of the kernel's run of the head, and two for each dummy. That is within
/// 100 * (m + w) * (d + 2) * (r + 2), where w is the greatest number of variables of a unit of the kernel. Where calls are split, m + w stands
/// in place of m in the first, and the second holds as it is.
pub fn kernel_law()
    ensures keeps { KernelKeepsBound }
    ensures keeps_split { KernelKeepsSplitBound }
    ensures round { RoundBoundIsKept }
    ensures round_split { RoundSplitBoundIsKept }
{}

/// How many calls a chain has at most in the kernel is counted where the program is checked.
pub fn kernel_chains_law()
    ensures { KernelChainsAreCounted }
{}
