//! Worked programs whose marked loops are reversed by schedules: what is emitted for them, what its runs give, and that with a fault it is
//! no adjoint. Definitions and laws, no code.
//!
//! `specs/Sources` has the programs, `specs/Written` what is emitted for one, statement by statement, and `specs/Told` what is told of a
//! run. `specs/Faulty` changes one thing in a reversal. The crate stands on what is emitted and what an adjoint is (`def_sweep`), and
//! changes programs as `law_examples` does. Each faulty program is refused on one input, where it is computed: its run traps, words are
//! left on its tape, or its reversals are not those of its source's loops.
#![tactic(auto)]

ghost use Rattle.std.specs.Prelude.{◌≡◌, ℕ, ◌+◌, pos, nat_lt, nat_le, List, ◌∷◌, [], Bool, true, false, codes};
ghost use Rattle.adj_revolve.specs.Binomial.{beta};
ghost use Rattle.def_meaning.specs.Padded.{own_nodes};
ghost use Rattle.def_kernel.specs.Kernel.{EachUnit};
ghost use Rattle.def_kernel.specs.Weights.{WeighsAtMost};
ghost use Rattle.def_adjoint.specs.Calls.{CallsWithin};
ghost use Rattle.law_cost.specs.ScheduledRuns.{row_nodes};
ghost use Rattle.def_adjoint.specs.Scheduled.{most_scheduled};
ghost use Rattle.law_cost.specs.Rows.{row_takes};
ghost use Rattle.law_examples.specs.Costs.{taken_by, Keeps, bound_priced, idling, wide, long};
ghost use Rattle.def_sweep.specs.Marking.{full_marks};
ghost use Rattle.def_sweep.specs.Program.{emitted_program_with};
ghost use Rattle.law_examples.specs.Faulty.{unchanged, unrestored};
ghost use Rattle.law_examples.specs.ReversalSources.{repeated, repeating, numbering, numbering_twice, nested, divided, leaving_fewer, clearing_arrays, sparing, one_loop, loops_of_both};
ghost use Rattle.law_examples.specs.ReversalFaulty.{faulty_program, Serve, unpopped, unkept, farther, unended, enclosed, unheld, late, unbounded, enlarged};
ghost use Rattle.law_examples.specs.ReversalTold.{told_after};
ghost use Rattle.law_examples.specs.ReversalWritten.{repeating_adjoint, numbering_adjoint};

/// What is emitted for a loop of n steps that is reversed with m snapshots, by full marks, for each n and m; and with as many as a variable says.
pub fn worked_rows()
    ensures repeated { (n m : ℕ) → emitted_program_with true full_marks (repeating n m) 1 (true ∷ false ∷ []) (true ∷ false ∷ []) ≡ repeating_adjoint n m }
    ensures numbered { (n : ℕ) → emitted_program_with true full_marks (numbering n) 1 (true ∷ false ∷ false ∷ []) (true ∷ false ∷ false ∷ []) ≡ numbering_adjoint n }
{}

/// What runs leave, for X = 2: the derivative of X to the power 2^n after n squares in the shadow of X, and X, the loops' variables and their
/// shadows as they were. Of each reversal in the order of their begins: its steps, its snapshots, and how often it calls each of these units: the
/// step unit as often as the least cost says, and the step unit's adjoint once for each step.
pub fn worked_reversals()
    ensures no_step { told_after (codes "S" ∷ codes "S_B" ∷ []) (repeating_adjoint 0 1) (codes "P_B") (pos 2 ∷ pos 1 ∷ pos 7 ∷ pos 0 ∷ []) 200 ≡ ((pos 2 ∷ []) ∷ (pos 1 ∷ []) ∷ (pos 7 ∷ []) ∷ (pos 0 ∷ []) ∷ [], (0 ∷ 1 ∷ 0 ∷ 0 ∷ []) ∷ []) }
    ensures one_step { told_after (codes "S" ∷ codes "S_B" ∷ []) (repeating_adjoint 1 1) (codes "P_B") (pos 2 ∷ pos 1 ∷ pos 7 ∷ pos 0 ∷ []) 200 ≡ ((pos 2 ∷ []) ∷ (pos 4 ∷ []) ∷ (pos 7 ∷ []) ∷ (pos 0 ∷ []) ∷ [], (1 ∷ 1 ∷ 0 ∷ 1 ∷ []) ∷ []) }
    ensures two_steps { told_after (codes "S" ∷ codes "S_B" ∷ []) (repeating_adjoint 2 1) (codes "P_B") (pos 2 ∷ pos 1 ∷ pos 7 ∷ pos 0 ∷ []) 300 ≡ ((pos 2 ∷ []) ∷ (pos 32 ∷ []) ∷ (pos 7 ∷ []) ∷ (pos 0 ∷ []) ∷ [], (2 ∷ 1 ∷ 1 ∷ 2 ∷ []) ∷ []) }
    ensures three_steps { told_after (codes "S" ∷ codes "S_B" ∷ []) (repeating_adjoint 3 1) (codes "P_B") (pos 2 ∷ pos 1 ∷ pos 7 ∷ pos 0 ∷ []) 300 ≡ ((pos 2 ∷ []) ∷ (pos 1024 ∷ []) ∷ (pos 7 ∷ []) ∷ (pos 0 ∷ []) ∷ [], (3 ∷ 1 ∷ 3 ∷ 3 ∷ []) ∷ []) }
    ensures two_snapshots { told_after (codes "S" ∷ codes "S_B" ∷ []) (repeating_adjoint 3 2) (codes "P_B") (pos 2 ∷ pos 1 ∷ pos 7 ∷ pos 0 ∷ []) 300 ≡ ((pos 2 ∷ []) ∷ (pos 1024 ∷ []) ∷ (pos 7 ∷ []) ∷ (pos 0 ∷ []) ∷ [], (3 ∷ 2 ∷ 2 ∷ 3 ∷ []) ∷ []) }
    ensures five_steps { told_after (codes "S" ∷ codes "S_B" ∷ []) (repeating_adjoint 5 2) (codes "P_B") (pos 2 ∷ pos 1 ∷ pos 7 ∷ pos 0 ∷ []) 600 ≡ ((pos 2 ∷ []) ∷ (pos 68719476736 ∷ []) ∷ (pos 7 ∷ []) ∷ (pos 0 ∷ []) ∷ [], (5 ∷ 2 ∷ 6 ∷ 5 ∷ []) ∷ []) }
    ensures one_in_one { told_after (codes "T" ∷ codes "T_B" ∷ codes "S" ∷ codes "S_B" ∷ []) (emitted_program_with true full_marks (nested 1 1 1 1) 2 (true ∷ false ∷ false ∷ []) (true ∷ false ∷ false ∷ [])) (codes "P_B") (pos 2 ∷ pos 1 ∷ pos 7 ∷ pos 0 ∷ pos 8 ∷ pos 0 ∷ []) 400 ≡ ((pos 2 ∷ []) ∷ (pos 4 ∷ []) ∷ (pos 7 ∷ []) ∷ (pos 0 ∷ []) ∷ (pos 8 ∷ []) ∷ (pos 0 ∷ []) ∷ [], (1 ∷ 1 ∷ 0 ∷ 1 ∷ 0 ∷ 0 ∷ []) ∷ (1 ∷ 1 ∷ 0 ∷ 0 ∷ 0 ∷ 1 ∷ []) ∷ []) }
    ensures schedule_in_schedule { told_after (codes "T" ∷ codes "T_B" ∷ codes "S" ∷ codes "S_B" ∷ []) (emitted_program_with true full_marks (nested 2 1 2 1) 2 (true ∷ false ∷ false ∷ []) (true ∷ false ∷ false ∷ [])) (codes "P_B") (pos 2 ∷ pos 1 ∷ pos 7 ∷ pos 0 ∷ pos 8 ∷ pos 0 ∷ []) 900 ≡ ((pos 2 ∷ []) ∷ (pos 524288 ∷ []) ∷ (pos 7 ∷ []) ∷ (pos 0 ∷ []) ∷ (pos 8 ∷ []) ∷ (pos 0 ∷ []) ∷ [], (2 ∷ 1 ∷ 1 ∷ 2 ∷ 0 ∷ 0 ∷ []) ∷ (2 ∷ 1 ∷ 0 ∷ 0 ∷ 1 ∷ 2 ∷ []) ∷ (2 ∷ 1 ∷ 0 ∷ 0 ∷ 1 ∷ 2 ∷ []) ∷ []) }
    ensures read_by_steps { told_after (codes "S" ∷ codes "S_B" ∷ []) (emitted_program_with true sparing divided 1 (true ∷ false ∷ false ∷ []) (true ∷ false ∷ false ∷ [])) (codes "P_B") (pos 2 ∷ pos 1 ∷ pos 2 ∷ pos 0 ∷ pos 7 ∷ pos 0 ∷ []) 400 ≡ ((pos 2 ∷ []) ∷ (pos 32 ∷ []) ∷ (pos 2 ∷ []) ∷ (pos 0 ∷ []) ∷ (pos 7 ∷ []) ∷ (pos 0 ∷ []) ∷ [], (2 ∷ 1 ∷ 1 ∷ 2 ∷ []) ∷ []) }
{}

/// The same where a variable says how many snapshots there are: 0 stands for 1, and 100 for 64. The variable that the loop's steps change says it
/// before the loop.
pub fn worked_numbers()
    ensures none { told_after (codes "S" ∷ codes "S_B" ∷ []) (numbering_adjoint 3) (codes "P_B") (pos 2 ∷ pos 1 ∷ pos 7 ∷ pos 0 ∷ pos 0 ∷ pos 0 ∷ []) 300 ≡ ((pos 2 ∷ []) ∷ (pos 1024 ∷ []) ∷ (pos 7 ∷ []) ∷ (pos 0 ∷ []) ∷ (pos 0 ∷ []) ∷ (pos 0 ∷ []) ∷ [], (3 ∷ 1 ∷ 3 ∷ 3 ∷ []) ∷ []) }
    ensures three { told_after (codes "S" ∷ codes "S_B" ∷ []) (numbering_adjoint 3) (codes "P_B") (pos 2 ∷ pos 1 ∷ pos 7 ∷ pos 0 ∷ pos 3 ∷ pos 0 ∷ []) 300 ≡ ((pos 2 ∷ []) ∷ (pos 1024 ∷ []) ∷ (pos 7 ∷ []) ∷ (pos 0 ∷ []) ∷ (pos 3 ∷ []) ∷ (pos 0 ∷ []) ∷ [], (3 ∷ 3 ∷ 2 ∷ 3 ∷ []) ∷ []) }
    ensures many { told_after (codes "S" ∷ codes "S_B" ∷ []) (numbering_adjoint 3) (codes "P_B") (pos 2 ∷ pos 1 ∷ pos 7 ∷ pos 0 ∷ pos 100 ∷ pos 0 ∷ []) 300 ≡ ((pos 2 ∷ []) ∷ (pos 1024 ∷ []) ∷ (pos 7 ∷ []) ∷ (pos 0 ∷ []) ∷ (pos 100 ∷ []) ∷ (pos 0 ∷ []) ∷ [], (3 ∷ 64 ∷ 2 ∷ 3 ∷ []) ∷ []) }
    ensures changed { told_after (codes "S" ∷ codes "S_B" ∷ []) (emitted_program_with true full_marks leaving_fewer 1 (true ∷ false ∷ false ∷ []) (true ∷ false ∷ false ∷ [])) (codes "P_B") (pos 2 ∷ pos 1 ∷ pos 2 ∷ pos 0 ∷ pos 7 ∷ pos 0 ∷ []) 400 ≡ ((pos 2 ∷ []) ∷ (pos 32 ∷ []) ∷ (pos 2 ∷ []) ∷ (pos 0 ∷ []) ∷ (pos 7 ∷ []) ∷ (pos 0 ∷ []) ∷ [], (2 ∷ 2 ∷ 1 ∷ 2 ∷ []) ∷ []) }
    ensures two_loops { told_after (codes "S" ∷ codes "S_B" ∷ []) (emitted_program_with true full_marks numbering_twice 1 (true ∷ false ∷ false ∷ false ∷ []) (true ∷ false ∷ false ∷ false ∷ [])) (codes "P_B") (pos 2 ∷ pos 1 ∷ pos 7 ∷ pos 0 ∷ pos 1 ∷ pos 0 ∷ pos 2 ∷ pos 0 ∷ []) 600 ≡ ((pos 2 ∷ []) ∷ (pos 524288 ∷ []) ∷ (pos 7 ∷ []) ∷ (pos 0 ∷ []) ∷ (pos 1 ∷ []) ∷ (pos 0 ∷ []) ∷ (pos 2 ∷ []) ∷ (pos 0 ∷ []) ∷ [], (2 ∷ 2 ∷ 1 ∷ 2 ∷ []) ∷ (2 ∷ 1 ∷ 1 ∷ 2 ∷ []) ∷ []) }
{}

/// Emitted programs whose reversals have a fault are no adjoints: a snapshot stays on the tape, or isn't pushed again; an advance makes a step too
/// many; a reversal doesn't end; a marked loop is a loop as others, alone or within a reversal; a snapshot has not what the step unit reads; the
/// number of snapshots of a variable isn't held on the tape, is taken behind the loop, or isn't brought between 1 and 64; the adjoint of the step unit
/// is called by a larger array than the step unit, though what it leaves is right and each unit is called as often as it should.
pub fn wrong_reversals()
    ensures unpopped { Serve true unpopped (one_loop full_marks (repeating 1 1)) full_marks (repeating 1 1) 1 (true ∷ false ∷ []) (true ∷ false ∷ []) → ⊥ }
    ensures unkept { Serve true unkept (one_loop full_marks (repeating 3 1)) full_marks (repeating 3 1) 1 (true ∷ false ∷ []) (true ∷ false ∷ []) → ⊥ }
    ensures farther { Serve true farther (one_loop full_marks (repeating 2 1)) full_marks (repeating 2 1) 1 (true ∷ false ∷ []) (true ∷ false ∷ []) → ⊥ }
    ensures unended { Serve true unended (one_loop full_marks (repeating 1 1)) full_marks (repeating 1 1) 1 (true ∷ false ∷ []) (true ∷ false ∷ []) → ⊥ }
    ensures plain { Serve false unchanged (one_loop full_marks (repeating 2 1)) full_marks (repeating 2 1) 1 (true ∷ false ∷ []) (true ∷ false ∷ []) → ⊥ }
    ensures enclosed { Serve false enclosed (one_loop full_marks (repeating 2 1)) full_marks (repeating 2 1) 1 (true ∷ false ∷ []) (true ∷ false ∷ []) → ⊥ }
    ensures unread { Serve true (unrestored (codes "E")) (one_loop sparing divided) sparing divided 1 (true ∷ false ∷ false ∷ []) (true ∷ false ∷ false ∷ []) → ⊥ }
    ensures unheld { Serve true unheld (loops_of_both full_marks numbering_twice) full_marks numbering_twice 1 (true ∷ false ∷ false ∷ false ∷ []) (true ∷ false ∷ false ∷ false ∷ []) → ⊥ }
    ensures late { Serve true (late (codes "E")) (one_loop full_marks leaving_fewer) full_marks leaving_fewer 1 (true ∷ false ∷ false ∷ []) (true ∷ false ∷ false ∷ []) → ⊥ }
    ensures unbounded { Serve true (unbounded (codes "N")) (one_loop full_marks (numbering 1)) full_marks (numbering 1) 1 (true ∷ false ∷ false ∷ []) (true ∷ false ∷ false ∷ []) → ⊥ }
    ensures enlarged { Serve true enlarged (one_loop full_marks clearing_arrays) full_marks clearing_arrays 1 (true ∷ false ∷ false ∷ false ∷ []) (true ∷ false ∷ false ∷ false ∷ []) → ⊥ }
    ensures enlarged_leaves { told_after (codes "S" ∷ codes "S_B" ∷ []) (faulty_program true enlarged full_marks clearing_arrays 1 (true ∷ false ∷ false ∷ false ∷ []) (true ∷ false ∷ false ∷ false ∷ [])) (codes "P_B") (pos 2 ∷ pos 1 ∷ pos 7 ∷ pos 0 ∷ pos 1 ∷ pos 0 ∷ pos 2 ∷ pos 0 ∷ []) 400 ≡ ((pos 2 ∷ []) ∷ (pos 32 ∷ []) ∷ (pos 7 ∷ []) ∷ (pos 0 ∷ []) ∷ (pos 1 ∷ []) ∷ (pos 0 ∷ []) ∷ (pos 2 ∷ []) ∷ (pos 0 ∷ []) ∷ [], (2 ∷ 1 ∷ 1 ∷ 2 ∷ []) ∷ []) }
{}

/// What five steps with two snapshots take: 16 statements in the program, where no chain has more than one call and no statement weighs more than 4.
/// Two repetitions serve, and one doesn't. The adjoint takes 246 statements, and the bound is 2692.
pub fn worked_costs()
    ensures chains { CallsWithin (repeating 5 2) (codes "P") 1 }
    ensures weights { EachUnit (λ u. WeighsAtMost 4 u.body) (repeating 5 2) }
    ensures run { taken_by (repeating 5 2) (codes "P") (pos 2 ∷ pos 7 ∷ []) 100 ≡ 16 }
    ensures serve { nat_le 5 (beta 2 2) ≡ true }
    ensures least { nat_le 5 (beta 2 1) ≡ false }
    ensures spent { taken_by (repeating_adjoint 5 2) (codes "P_B") (pos 2 ∷ pos 1 ∷ pos 7 ∷ pos 0 ∷ []) 600 ≡ 246 }
    ensures bound { most_scheduled 4 1 2 16 2 ≡ 2692 }
{}

/// Bounds that are passed. A loop of no turns whose step has 20 variables passes the bound where it isn't paid at its step call's actuals, and keeps it
/// where it is. Two steps of 60 statements with one snapshot, each of which one repetition serves, pass what both sweeps of their loop take with none,
/// and keep it with one. An adjoint that runs through an empty loop of 600 turns before a reversal of one step ends passes the bound.
pub fn wrong_costs()
    ensures own_nodes_alone { nat_lt (bound_priced own_nodes 1 0 (wide 20) (codes "P") (pos 7 ∷ []) 200) (taken_by (emitted_program_with true full_marks (wide 20) 1 (true ∷ []) (true ∷ [])) (codes "P_B") (pos 7 ∷ pos 0 ∷ []) 300) ≡ true }
    ensures with_actuals { nat_le (taken_by (emitted_program_with true full_marks (wide 20) 1 (true ∷ []) (true ∷ [])) (codes "P_B") (pos 7 ∷ pos 0 ∷ []) 300) (bound_priced row_nodes 1 0 (wide 20) (codes "P") (pos 7 ∷ []) 200) ≡ true }
    ensures one_repetition_less { nat_lt (7 + row_takes 1 (λ i. 60) (λ i. taken_by (emitted_program_with true full_marks (long 60) 1 (true ∷ false ∷ []) (true ∷ false ∷ [])) (codes "S_B") (pos 1 ∷ pos 1 ∷ []) 600) 2 0) (taken_by (emitted_program_with true full_marks (long 60) 1 (true ∷ false ∷ []) (true ∷ false ∷ [])) (codes "P_B") (pos 1 ∷ pos 1 ∷ pos 7 ∷ pos 0 ∷ []) 2000) ≡ true }
    ensures with_one { nat_le (taken_by (emitted_program_with true full_marks (long 60) 1 (true ∷ false ∷ []) (true ∷ false ∷ [])) (codes "P_B") (pos 1 ∷ pos 1 ∷ pos 7 ∷ pos 0 ∷ []) 2000) (7 + row_takes 1 (λ i. 60) (λ i. taken_by (emitted_program_with true full_marks (long 60) 1 (true ∷ false ∷ []) (true ∷ false ∷ [])) (codes "S_B") (pos 1 ∷ pos 1 ∷ []) 600) 2 1) ≡ true }
    ensures idle { Keeps (one_loop full_marks (repeating 1 1)) full_marks (repeating 1 1) (repeated 1 1) (faulty_program true (idling 600) full_marks (repeating 1 1) 1 (true ∷ false ∷ []) (true ∷ false ∷ [])) (codes "P_B") (λ reps used dummies. most_scheduled 4 1 reps used dummies) → ⊥ }
{}
