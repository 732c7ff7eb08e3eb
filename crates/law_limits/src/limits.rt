//! What is emitted for the kernel of a program keeps the limits of a run: definitions and laws, no code.
//!
//! `specs/Limits` says how deep a kernel is, and what is emitted for it. The crate joins that with the law on texts in Run mode. The
//! layer above uses `emitted_law` for the text that is written.
#![tactic(auto)]

ghost use Rattle.law_limits.specs.Limits.{KernelKeepsNesting, KernelKeepsDepth, EmittedIsShallowWith, EmittedIsShallow, EmittedIsRunnableWith, EmittedIsRunnable};
ghost use Rattle.std.specs.Prelude.{true};

use crate::readable::{kept_law, source_law};

/// The kernel of a program is nested at most one deeper than the program, and its expressions are no deeper, or 2 deep.
pub fn kernel_law()
    ensures nesting { KernelKeepsNesting }
    ensures depth { KernelKeepsDepth }
{}

/// What is emitted for the kernel of a program that a text gives in Source mode is no deeper than a run takes. Where the program is accepted and its
/// kernel has no more variables than there are numbers for, the text of what is emitted by marks that split no call reads in Run mode as it, or has
/// too many statements.
/// So it is where marked loops are reversed by schedules.
pub fn emitted_law()
    ensures shallow { EmittedIsShallow }
    ensures runnable { EmittedIsRunnable }
    ensures reversed_shallow { EmittedIsShallowWith true }
    ensures reversed_runnable { EmittedIsRunnableWith true }
{
    kept_law();
    source_law();
}
