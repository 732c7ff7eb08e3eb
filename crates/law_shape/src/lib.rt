//! What an emitted program looks like: definitions and laws, no code.
//!
//! `specs/Shape` says it of the text alone: which units a program has, and what each adjoint, forward and backward unit keeps, saves, pushes and sets.
//! `specs/Closed` says by which marks what is emitted looks so. The crate stands on what is emitted (`def_sweep`) for checked programs
//! (`law_emitted`) and on the marks of exact analyses (`law_analysed`). The layer above uses `accepted_law`. `specs/Worked` and `specs/Reversed`
//! are examples.
#![tactic(auto)]

ghost use Rattle.std.specs.Prelude.{◌≡◌, ◌∷◌, [], true, false};
ghost use Rattle.def_sweep.specs.Marking.{full_marks};
ghost use Rattle.def_sweep.specs.Program.{emitted_program, emitted_program_with};
ghost use Rattle.law_shape.specs.Accepted.{AcceptedHasShape};
ghost use Rattle.law_shape.specs.Laws.{AnalysedAreClosed, EmittedHasShape, FullAreClosed};
ghost use Rattle.law_shape.specs.Reversed.{counting_itself, dropped, dropping, numbered, numbered_program, numbered_reversed, only_second, pushing_in_steps, reversed, reversing, setting_outside, stepping_back, taking_twice, turning, turning_program, zeroing_own};
ghost use Rattle.def_adjoint.specs.Shape.{HasShape};
ghost use Rattle.law_shape.specs.Worked.{emitted, fourth_power, keeping_all, pushing_helpers, pushing_more, sparing, twice_forward};

/// What is emitted for a checked program in kernel form by closed marks that split what may be split has its shape, whether marked loops are reversed by schedules or not.
pub fn shape_law()
    ensures { EmittedHasShape }
{}

/// Full marks are closed, and so are those of exact analyses.
pub fn closed_law()
    ensures full { FullAreClosed }
    ensures analysed { AnalysedAreClosed }
{}

/// So what is emitted for the kernel of an accepted program by the marks of exact analyses has its shape.
pub fn accepted_law()
    ensures { AcceptedHasShape }
{}

/// What is emitted for a program that squares its argument twice, as it is written, and that it has the shape.
pub fn worked_shapes()
    ensures emitted { emitted_program sparing (fourth_power ∷ []) 0 (true ∷ []) (true ∷ []) ≡ emitted }
    ensures shaped { HasShape false sparing (fourth_power ∷ []) fourth_power (true ∷ []) (true ∷ []) emitted }
    ensures all_kept { emitted_program full_marks (fourth_power ∷ []) 0 (true ∷ []) (true ∷ []) ≡ keeping_all }
{}

/// Other forms of it haven't: with every statement kept and saved, with one more word pushed at each assignment, and with two forward sweeps.
pub fn wrong_shapes()
    ensures keeping_all { HasShape false sparing (fourth_power ∷ []) fourth_power (true ∷ []) (true ∷ []) keeping_all → ⊥ }
    ensures pushing_more { HasShape false sparing (fourth_power ∷ []) fourth_power (true ∷ []) (true ∷ []) pushing_more → ⊥ }
    ensures pushing_helpers { HasShape false sparing (fourth_power ∷ []) fourth_power (true ∷ []) (true ∷ []) pushing_helpers → ⊥ }
    ensures twice_forward { HasShape false sparing (fourth_power ∷ []) fourth_power (true ∷ []) (true ∷ []) twice_forward → ⊥ }
{}

/// What is emitted for a program whose marked loop is reversed by a schedule, as it is written, and that it has the shape; what is emitted where the call of its step unit isn't kept; and the same where a variable says how many snapshots there are.
pub fn worked_reversal()
    ensures emitted { emitted_program_with true reversing turning_program 0 only_second only_second ≡ reversed }
    ensures shaped { HasShape true reversing turning_program turning only_second only_second reversed }
    ensures dropped { emitted_program_with true dropping turning_program 0 only_second only_second ≡ dropped }
    ensures numbered { emitted_program_with true reversing numbered_program 0 only_second only_second ≡ numbered_reversed }
    ensures numbered_shaped { HasShape true reversing numbered_program numbered only_second only_second numbered_reversed }
{}

/// These forms don't have the shape: a push where steps are made; a snapshot that is pushed twice; the step unit called where a step is
/// reversed; a backward sweep that assigns the loop's variable outside any loop, or sets a variable of the unit to 0 as an array; no step call in the forward sweep; the marked loop emitted like any other loop; and a reversal whose number of snapshots is
/// the variable of the directive itself.
pub fn wrong_reversals()
    ensures pushing_in_steps { HasShape true reversing turning_program turning only_second only_second pushing_in_steps → ⊥ }
    ensures taking_twice { HasShape true reversing turning_program turning only_second only_second taking_twice → ⊥ }
    ensures stepping_back { HasShape true reversing turning_program turning only_second only_second stepping_back → ⊥ }
    ensures setting_outside { HasShape true reversing turning_program turning only_second only_second setting_outside → ⊥ }
    ensures zeroing_own { HasShape true reversing turning_program turning only_second only_second zeroing_own → ⊥ }
    ensures dropped { HasShape true reversing turning_program turning only_second only_second dropped → ⊥ }
    ensures as_others { HasShape true reversing turning_program turning only_second only_second (emitted_program_with false reversing turning_program 0 only_second only_second) → ⊥ }
    ensures itself { HasShape true reversing numbered_program numbered only_second only_second counting_itself → ⊥ }
{}
