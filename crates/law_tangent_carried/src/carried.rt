//! What is emitted by what carries a tangent is the tangent: definitions and laws, no code.
//!
//! `specs/Carried` says this of checked programs in kernel form, `Source` and `Lines` what it means that a program is the tangent of one that
//! isn't in kernel form, `Weighing` how many statements its run takes, and `Computed` how what carries a tangent is computed. The layer above uses
//! `source_law` and `weight_law`.
#![tactic(auto)]

ghost use Rattle.law_tangent_carried.specs.Carried.{CarryingFits, CarryingIsTangent};
ghost use Rattle.law_tangent_carried.specs.Source.{KernelsTangent, AcceptedIsTangent};
ghost use Rattle.law_tangent_carried.specs.Lines.{OtherLines, AcceptedReads};
ghost use Rattle.law_tangent_carried.specs.Weighing.{WeighsIsLight, HasWeight, AcceptedByWeight};
ghost use Rattle.law_tangent_carried.specs.Computed.{ComputedIsExact};
ghost use Rattle.law_tangent_carried.specs.Worked.{CallerIsTangent, LoopIsTangent};

/// A checked program in kernel form is, with exact analyses, all that the law on tangents asks.
pub fn fitting_law()
    ensures { CarryingFits }
{}

/// So what is emitted for it is its tangent.
pub fn tangent_law()
    ensures { CarryingIsTangent }
{}

/// A tangent of the kernel of an accepted program is one of the program, and so is what is emitted for the kernel; and what differs from that in line
/// numbers alone.
pub fn source_law()
    ensures kernels { KernelsTangent }
    ensures accepted { AcceptedIsTangent }
    ensures other_lines { OtherLines }
    ensures read { AcceptedReads }
{}

/// The bound on the statements of a tangent's run may be said by what the kernel's statements weigh, and each program's weigh at most something; so
/// what differs in line numbers alone from what is emitted for an accepted program is its tangent within this bound, whatever the weight.
pub fn weight_law()
    ensures light { WeighsIsLight }
    ensures weighed { HasWeight }
    ensures read { AcceptedByWeight }
{}

/// What is computed in passes that came to their end is exact; so all that this asks can be met: by a unit that calls one unit with tangents and
/// one without, and by a program with a marked loop, whose kernel has two units.
pub fn premises_met()
    ensures computed { ComputedIsExact }
    ensures caller { CallerIsTangent }
    ensures of_loop { LoopIsTangent }
{}
