//! What is emitted by the marks of exact analyses for the kernel of an accepted program is an adjoint of the program: definitions and
//! laws, no code.
//!
//! `specs/Planned` says it of programs without marked loops, and of those whose marked loops are reversed by schedules. The crate joins
//! the law on exact analyses with those on kernels and on what is emitted by any marks. The layer above that emits by found marks uses
//! `planned_law`, and where it reverses marked loops by schedules `reversed_law`, and `unscheduled_law` for programs without any.
#![tactic(auto)]

ghost use Rattle.law_planned.specs.Planned.{KernelIsUnmarked, KernelKeepsLines, ReadHaveLinesApart, PlannedIsAdjoint, PlannedSpends, PlannedIsWritten, PlannedIsSound, ReversedIsAdjoint, ReversedIsWritten, ReversedIsSound, ReversedHaveOwnNames, ReversedKernelSpends, ReversedKernelSpendsSplit, SchedulesAddNothing, ReversedIsPlanned, NoneIsReversed, ReversedSpends};

/// In the kernel of a program without marked loops none is marked.
pub fn unmarked_law()
    ensures { KernelIsUnmarked }
{}

/// Where no two marked loops of a program stand at one line no two of its kernel do.
pub fn marks_law()
    ensures { KernelKeepsLines }
{}

/// No two marked loops of a program that a text gives stand at one line.
pub fn lines_law()
    ensures { ReadHaveLinesApart }
{}

/// What is emitted by the marks of exact analyses of the kernel of an accepted program without marked loops is an adjoint of the program
/// whose run keeps a bound, can be written as a text, and has no fault as a text that is run.
pub fn planned_law()
    ensures adjoint { PlannedIsAdjoint }
    ensures spends { PlannedSpends }
    ensures written { PlannedIsWritten }
    ensures sound { PlannedIsSound }
{}

/// What is emitted by them where marked loops are reversed by schedules is an adjoint of a program no two of whose marked loops stand at one
/// line, and its run keeps a bound by that of the kernel; and of each accepted program it can be written as a text, and has no fault as a text that is run.
pub fn reversed_law()
    ensures adjoint { ReversedIsAdjoint }
    ensures own_names { ReversedHaveOwnNames }
    ensures spends { ReversedKernelSpends }
    ensures spends_split { ReversedKernelSpendsSplit }
    ensures written { ReversedIsWritten }
    ensures sound { ReversedIsSound }
{}

/// Where no loop of a program is marked, the same is emitted for it, and for its kernel, whether marked loops are reversed by schedules or not. No
/// loop of it is reversed, and the run of what is emitted keeps the bound.
pub fn unscheduled_law()
    ensures same { SchedulesAddNothing }
    ensures kernel { ReversedIsPlanned }
    ensures none_reversed { NoneIsReversed }
    ensures spends { ReversedSpends }
{}
