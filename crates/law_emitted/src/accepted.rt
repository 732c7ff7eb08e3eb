//! What is emitted for the kernel of an accepted program is an adjoint of the program: definitions and laws, no code.
//!
//! `specs/Accepted` says what it means that a program is an adjoint of one that isn't in kernel form: what it says of names is said
//! of the kernel, and what it says of runs of the program itself. The crate joins the laws on kernels with those on what is emitted
//! for a checked program in kernel form. The layer above uses `accepted_law`, for the text of a user.
#![tactic(auto)]

ghost use Rattle.law_emitted.specs.Accepted.{KernelIsChecked, KernelsAdjoint, EmittedIsAdjoint, EmittedIsWritten, EmittedIsSound};

/// The kernel of an accepted program is a checked program in kernel form.
pub fn kernel_law()
    ensures { KernelIsChecked }
{}

/// An adjoint of the kernel of an accepted program is one of the program, by any marks.
pub fn adjoint_law()
    ensures { KernelsAdjoint }
{}

/// What is emitted for the kernel of an accepted program with full marks is its adjoint, can be written as a text, and has no fault as a
/// text that is run.
pub fn accepted_law()
    ensures adjoint { EmittedIsAdjoint }
    ensures written { EmittedIsWritten }
    ensures sound { EmittedIsSound }
{}
