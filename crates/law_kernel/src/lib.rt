//! What the kernel of a program is, and that it means what the program means.
//!
//! The crate holds no code that does work. `specs/` has the kernel as a function of the program: `Stepped.antt` makes units of
//! the bodies of marked loops, `Lowered.antt` lowers statements, `Kernel.antt` has names, units and programs (docs/KERNEL.md).
//! `proofs/` has the simulation, over any numbers whose words are shown as they are. The layer above uses `whole_kernel_laws`.
#![tactic(auto)]

ghost use Rattle.std.specs.Prelude.{ℤ};
ghost use Rattle.law_meaning.specs.Laws.{ForBoth};
ghost use Rattle.law_kernel.specs.Theorem.{BothShowWords, KernelMeansTheSame, KernelFitsTheSame, KernelWritesTheSame, KernelStatementsWriteTheSame, KernelHasItsForm};
ghost use Rattle.law_kernel.specs.StepMeans.{WholeKernelHasUnits, WholeKernelMeansAlike, WholeKernelHasItsForm, WholeKernelWritesTheSame};
ghost use Rattle.law_kernel.specs.WrittenTheorem.{KernelIsWritten, WholeKernelIsWritten};
ghost use Rattle.law_kernel.specs.Sound.{AcceptedIsSource, AcceptedMeansAlike, AcceptedHasItsForm, AcceptedIsWritten, AcceptedWritesTheSame, AcceptedCostsItsWeight, VariablesAreThose, KernelUnitsStand, KernelNamesStand, KernelCallsStand, KernelChainsStand, KernelWritesStand, KernelIsSound};
ghost use Rattle.law_kernel.specs.Worked.{OneEach, MaximumInMaximum, InOperations, LeftAlone, InPowers, TargetsApart, NamesOfCalls, ElementsOfCalls, ValuesOfCalls, BodiesLowered, LocalsNamed, WorkedExample, StepUnits, StepUnitsAccepted};
ghost use Rattle.law_kernel.specs.WeighTheorem.{StatementsWeigh, ListsWeigh, TowersWeigh, NothingToStep, KernelCostsItsWeight, CappedAreWeights};

/// The kernel by all its steps means what the program means, but for the events of the calls of step units; it is in kernel form.
pub fn whole_kernel_laws()
    ensures units { WholeKernelHasUnits }
    ensures shown { BothShowWords }
    ensures means_alike { ForBoth WholeKernelMeansAlike }
    ensures form { WholeKernelHasItsForm ℤ }
    ensures written_same { WholeKernelWritesTheSame ℤ }
{}

/// The lowered program of a program that fits means what the program means, over words and over words with tangents.
pub fn kernel_laws()
    ensures means_the_same { ForBoth KernelMeansTheSame }
    ensures fits_the_same { ForBoth KernelFitsTheSame }
{}

/// The lowered units and statements write what the source's write; the lowered program is in kernel form.
pub fn form_laws()
    ensures units_write_the_same { KernelWritesTheSame }
    ensures statements_write_the_same { KernelStatementsWriteTheSame }
    ensures form { KernelHasItsForm }
{}

/// What a statement becomes weighs at most nine times what it weighs; so does a run of the kernel with statements at their weights.
pub fn weight_laws()
    ensures statements { StatementsWeigh }
    ensures lists { ListsWeigh }
    ensures towers { TowersWeigh }
    ensures no_step { NothingToStep }
    ensures cost { ForBoth KernelCostsItsWeight }
    ensures capped { CappedAreWeights }
{}

/// The kernel of a written program whose CALLs are of units is written, and so is the lowered program.
pub fn written_laws()
    ensures kernel { WholeKernelIsWritten }
    ensures lowered { KernelIsWritten }
{}

/// The laws on kernels hold of each program that is accepted as a text of a user: it is what they ask for.
pub fn accepted_laws()
    ensures source { ForBoth AcceptedIsSource }
    ensures means_alike { ForBoth AcceptedMeansAlike }
    ensures form { AcceptedHasItsForm }
    ensures written { AcceptedIsWritten }
    ensures writes { AcceptedWritesTheSame }
    ensures cost { ForBoth AcceptedCostsItsWeight }
    ensures variables { VariablesAreThose }
{}

/// The kernel of an accepted program has no fault itself, pass by pass.
pub fn kernel_stands()
    ensures units { KernelUnitsStand }
    ensures names { KernelNamesStand }
    ensures calls { KernelCallsStand }
    ensures chains { KernelChainsStand }
    ensures writes { KernelWritesStand }
    ensures sound { KernelIsSound }
{}

/// The kernels of statements and programs that were worked out by hand.
pub fn worked_kernels()
    ensures one_each { OneEach }
    ensures maximum_in_maximum { MaximumInMaximum }
    ensures in_operations { InOperations }
    ensures left_alone { LeftAlone }
    ensures in_powers { InPowers }
    ensures targets_apart { TargetsApart }
    ensures names_of_calls { NamesOfCalls }
    ensures elements_of_calls { ElementsOfCalls }
    ensures values_of_calls { ValuesOfCalls }
    ensures bodies_lowered { BodiesLowered }
    ensures locals_named { LocalsNamed }
    ensures worked_example { WorkedExample }
    ensures step_units { StepUnits }
    ensures step_units_accepted { StepUnitsAccepted }
{}
