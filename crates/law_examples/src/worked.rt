//! Worked programs: what is emitted for them, what its runs give, and that with a fault it is no adjoint. Definitions and laws, no code.
//!
//! `specs/Programs` has a program for each kind of statement with its adjoint as it is written. `specs/Faulty` changes one thing in
//! what is emitted by marks, and `specs/Sources` has the programs that show it. The crate stands on what is emitted and what an
//! adjoint is (`def_sweep`). Each faulty program is refused by that property on one input, where it is computed: its products
//! differ, or its run traps.
#![tactic(auto)]

ghost use Rattle.std.specs.Prelude.{◌≡◌, ℕ, pos, List, ◌∷◌, [], Bool, true, false, codes};
ghost use Rattle.adj_tree.specs.Code.{Procedure};
ghost use Rattle.def_sweep.specs.Marking.{ProgramMarks, full_marks};
ghost use Rattle.def_sweep.specs.Program.{emitted_program};
ghost use Rattle.law_examples.specs.Programs.{array_sum, sum_marks, sum_adjoint, resetting, resetting_marks, resetting_adjoint, calling, squaring_itself, calling_marks, calling_adjoint, squaring_adjoint, repeating, repeating_marks, repeating_adjoint, powered, powered_marks, powered_adjoint, word, three_words, words_after, scalars_after, named_after};
ghost use Rattle.law_examples.specs.Sources.{sparing, raising, calls_after};

/// What is emitted, statement by statement, for the sum of an array by a loop whose variable is implicit, for a branch that resets a shadow, for
/// a checkpointed call, for a DO WHILE and for a power with a variable exponent, by marks that spare what they can.
pub fn worked_programs()
    ensures array_sum { emitted_program sum_marks (array_sum ∷ []) 0 (false ∷ true ∷ false ∷ []) (false ∷ false ∷ true ∷ []) ≡ sum_adjoint ∷ [] }
    ensures branch { emitted_program resetting_marks (resetting ∷ []) 0 (true ∷ false ∷ false ∷ []) (false ∷ false ∷ true ∷ []) ≡ resetting_adjoint ∷ [] }
    ensures called { emitted_program calling_marks (calling ∷ squaring_itself ∷ []) 0 (true ∷ false ∷ []) (false ∷ true ∷ []) ≡ calling_adjoint ∷ squaring_itself ∷ squaring_adjoint ∷ [] }
    ensures do_while { emitted_program repeating_marks (repeating ∷ []) 0 (false ∷ true ∷ false ∷ []) (false ∷ false ∷ true ∷ []) ≡ repeating_adjoint ∷ [] }
    ensures power { emitted_program powered_marks (powered ∷ []) 0 (true ∷ false ∷ false ∷ []) (false ∷ false ∷ true ∷ []) ≡ powered_adjoint ∷ [] }
{}

/// What their dummies hold after runs: each derivative, as the mathematics of the program says, stands in the shadow of an independent.
pub fn worked_runs()
    ensures array_sum { words_after (sum_adjoint ∷ []) sum_adjoint (word (pos 3) ∷ three_words (pos 7) (pos 8) (pos 9) ∷ three_words (pos 4) (pos 4) (pos 4) ∷ word (pos 0) ∷ word (pos 1) ∷ []) 90 ≡ (pos 3 ∷ []) ∷ (pos 7 ∷ pos 8 ∷ pos 9 ∷ []) ∷ (pos 1 ∷ pos 1 ∷ pos 1 ∷ []) ∷ (pos 0 ∷ []) ∷ (pos 0 ∷ []) ∷ [] }
    ensures branch_taken { scalars_after (resetting_adjoint ∷ []) resetting_adjoint (pos 3 ∷ pos 4 ∷ pos 1 ∷ pos 0 ∷ pos 1 ∷ []) 90 ≡ (pos 3 ∷ []) ∷ (pos 0 ∷ []) ∷ (pos 1 ∷ []) ∷ (pos 0 ∷ []) ∷ (pos 0 ∷ []) ∷ [] }
    ensures branch_left { scalars_after (resetting_adjoint ∷ []) resetting_adjoint (pos 3 ∷ pos 4 ∷ pos 0 ∷ pos 0 ∷ pos 1 ∷ []) 90 ≡ (pos 3 ∷ []) ∷ (pos 6 ∷ []) ∷ (pos 0 ∷ []) ∷ (pos 0 ∷ []) ∷ (pos 0 ∷ []) ∷ [] }
    ensures called { scalars_after (calling_adjoint ∷ squaring_itself ∷ squaring_adjoint ∷ []) calling_adjoint (pos 2 ∷ pos 4 ∷ pos 0 ∷ pos 1 ∷ []) 90 ≡ (pos 2 ∷ []) ∷ (pos 12 ∷ []) ∷ (pos 2 ∷ []) ∷ (pos 0 ∷ []) ∷ [] }
    ensures do_while { scalars_after (repeating_adjoint ∷ []) repeating_adjoint (pos 5 ∷ pos 2 ∷ pos 4 ∷ pos 0 ∷ pos 1 ∷ []) 200 ≡ (pos 5 ∷ []) ∷ (pos 2 ∷ []) ∷ (pos 80 ∷ []) ∷ (pos 1 ∷ []) ∷ (pos 0 ∷ []) ∷ [] }
    ensures fourth_power { scalars_after (powered_adjoint ∷ []) powered_adjoint (pos 3 ∷ pos 5 ∷ pos 4 ∷ pos 0 ∷ pos 1 ∷ []) 90 ≡ (pos 3 ∷ []) ∷ (pos 108 ∷ []) ∷ (pos 4 ∷ []) ∷ (pos 0 ∷ []) ∷ (pos 0 ∷ []) ∷ [] }
    ensures power_of_zero { scalars_after (powered_adjoint ∷ []) powered_adjoint (pos 3 ∷ pos 5 ∷ pos 0 ∷ pos 0 ∷ pos 1 ∷ []) 90 ≡ (pos 3 ∷ []) ∷ (pos 0 ∷ []) ∷ (pos 0 ∷ []) ∷ (pos 0 ∷ []) ∷ (pos 0 ∷ []) ∷ [] }
    ensures zero_to_one { scalars_after (powered_adjoint ∷ []) powered_adjoint (pos 0 ∷ pos 5 ∷ pos 1 ∷ pos 0 ∷ pos 1 ∷ []) 90 ≡ (pos 0 ∷ []) ∷ (pos 1 ∷ []) ∷ (pos 1 ∷ []) ∷ (pos 0 ∷ []) ∷ (pos 0 ∷ []) ∷ [] }
    ensures saved_by_the_call { named_after (emitted_program sparing (raising ∷ calls_after ∷ []) 1 (true ∷ false ∷ []) (false ∷ true ∷ [])) (codes "P_B") (pos 3 ∷ pos 4 ∷ pos 0 ∷ pos 1 ∷ []) 90 ≡ (pos 3 ∷ []) ∷ (pos 6 ∷ []) ∷ (pos 0 ∷ []) ∷ (pos 0 ∷ []) ∷ [] }
{}

ghost use Rattle.law_sweep.specs.Examples.{branch, powers, power};
ghost use Rattle.law_examples.specs.Faulty.{faulty_program, Serve, Fail, unchanged, pushed_after, unreversed, assigned, unsigned, uncleared, unpopped, replayed, untold, unturned, unrestored, unreset, uncounted, unsnapped, popped_before, unguarded};
ghost use Rattle.law_examples.specs.Sources.{squared, fourth, square, cube, difference, saving_nothing, keeping_nothing, sums, scaled, growing, squaring, caller, calls_before, unsaved, unsaved_call, unvaried, memberless, unadjointed, unkept, left_out};

/// Emitted programs with a fault are no adjoints: the definition of an adjoint tells them from the emitted one.
pub fn wrong_adjoints()
    ensures without_fault { (m : ProgramMarks) (ps : List Procedure) (head : ℕ) (vars outvars : List Bool) → faulty_program unchanged m ps head vars outvars ≡ emitted_program m ps head vars outvars }
    ensures pushed_after { Serve pushed_after full_marks (squared ∷ []) 0 (true ∷ []) (true ∷ []) → ⊥ }
    ensures unreversed { Serve unreversed full_marks (cube ∷ []) 0 (true ∷ true ∷ []) (true ∷ true ∷ []) → ⊥ }
    ensures assigned { Serve assigned full_marks (square ∷ []) 0 (true ∷ false ∷ []) (false ∷ true ∷ []) → ⊥ }
    ensures unsigned { Serve unsigned full_marks (difference ∷ []) 0 (true ∷ true ∷ []) (false ∷ true ∷ []) → ⊥ }
    ensures uncleared { Serve uncleared full_marks (squared ∷ []) 0 (true ∷ []) (true ∷ []) → ⊥ }
    ensures unpopped { Serve unpopped full_marks (square ∷ []) 0 (true ∷ false ∷ []) (false ∷ true ∷ []) → ⊥ }
    ensures replayed { Serve replayed full_marks (square ∷ []) 0 (true ∷ false ∷ []) (false ∷ true ∷ []) → ⊥ }
    ensures untold { Serve untold full_marks (branch ∷ []) 0 (true ∷ false ∷ []) (false ∷ true ∷ []) → ⊥ }
    ensures unturned { Serve unturned full_marks (sums ∷ []) 0 (true ∷ false ∷ false ∷ []) (false ∷ true ∷ false ∷ []) → ⊥ }
    ensures unrestored { Serve (unrestored (codes "I")) full_marks (scaled ∷ []) 0 (true ∷ false ∷ false ∷ []) (false ∷ true ∷ false ∷ []) → ⊥ }
    ensures unreset { Serve unreset full_marks (growing ∷ []) 0 (false ∷ true ∷ []) (true ∷ false ∷ []) → ⊥ }
    ensures uncounted { Serve (uncounted (codes "ADL1")) full_marks (powers ∷ []) 0 (false ∷ true ∷ false ∷ false ∷ []) (false ∷ false ∷ true ∷ false ∷ []) → ⊥ }
    ensures unsnapped { Serve unsnapped full_marks (squaring ∷ caller ∷ []) 1 (true ∷ []) (true ∷ []) → ⊥ }
    ensures popped_before { Serve popped_before sparing (raising ∷ calls_after ∷ []) 1 (true ∷ false ∷ []) (false ∷ true ∷ []) → ⊥ }
    ensures unguarded { Serve unguarded full_marks (power ∷ []) 0 (true ∷ false ∷ false ∷ []) (false ∷ false ∷ true ∷ []) → ⊥ }
{}

/// Marks that break a law give programs that are no adjoints: an assignment doesn't save its value or isn't kept, a DO doesn't save its variable, or isn't known to reset its shadow, a
/// unit's adjoint has no members, a call isn't adjointed, isn't kept or doesn't save its actual, or an IF is left out.
pub fn open_marks()
    ensures value_unsaved { Fail saving_nothing (fourth ∷ []) 0 (true ∷ []) (true ∷ []) }
    ensures assignment_unkept { Fail keeping_nothing (fourth ∷ []) 0 (true ∷ []) (true ∷ []) }
    ensures variable_unsaved { Fail unsaved (scaled ∷ []) 0 (true ∷ false ∷ false ∷ []) (false ∷ true ∷ false ∷ []) }
    ensures variable_unvaried { Fail unvaried (growing ∷ []) 0 (false ∷ true ∷ []) (true ∷ false ∷ []) }
    ensures memberless { Fail memberless (squaring ∷ caller ∷ []) 1 (true ∷ []) (true ∷ []) }
    ensures call_unadjointed { Fail unadjointed (squaring ∷ caller ∷ []) 1 (true ∷ []) (true ∷ []) }
    ensures call_unkept { Fail unkept (squaring ∷ calls_before ∷ []) 1 (true ∷ false ∷ []) (false ∷ true ∷ []) }
    ensures call_unsaved { Fail unsaved_call (raising ∷ calls_after ∷ []) 1 (true ∷ false ∷ []) (false ∷ true ∷ []) }
    ensures branch_left_out { Fail left_out (branch ∷ []) 0 (true ∷ false ∷ []) (false ∷ true ∷ []) }
{}

ghost use Rattle.law_examples.specs.SplitShape.{SplitUnits, CheckpointedIsRefused};

/// A split call: its unit has a forward and a backward unit. A program that treats it as checkpointed hasn't the shape that the marks say.
pub fn split_shape()
    ensures units { SplitUnits }
    ensures checkpointed { CheckpointedIsRefused }
{}
