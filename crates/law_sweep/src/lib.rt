//! The theorem on both sweeps of statements of every kind and of calls, by marks: definitions and laws, no code.
//!
//! `specs/Plan` and `Emission` say what the sweeps are, `Program` what is emitted, `Laws` which marks are closed, `Lists` and
//! `Theorem` that the sweeps of a unit transpose its derivative along each run that is done, `Adjoint` and `Source` that the
//! emitted program is an adjoint. It stands on the meaning of programs, and cites names, helpers and the pairing of slots from
//! `def_sweep`.
#![tactic(auto)]

ghost use Rattle.std.specs.Prelude.{◌≡◌, ◌∷◌, [], List, map, true, false, None};
ghost use Rattle.adj_tree.specs.Code.{Procedure};
ghost use Rattle.def_sweep.specs.Declared.{unit_name};
ghost use Rattle.law_sweep.specs.Theorem.{UnitsTranspose, ListsTranspose, PairsTranspose, CallsSplit};
ghost use Rattle.law_sweep.specs.Steps.{ReversalsTurn};
ghost use Rattle.law_sweep.specs.ReversedRow.{ReversedRowsTurn};
ghost use Rattle.law_sweep.specs.Source.{EmittedIsAdjoint, FullIsAdjoint, SourceFits};
ghost use Rattle.def_sweep.specs.Adjoint.{IsAdjoint, OtherLines};
ghost use Rattle.def_sweep.specs.Emission.{forward, backward};
ghost use Rattle.def_sweep.specs.Marking.{full_marks, plan_in};
ghost use Rattle.def_sweep.specs.Program.{emitted_program, split_plan, left_by};
ghost use Rattle.def_meaning.specs.Append.{◌+++◌};
ghost use Rattle.def_sweep.specs.SplitRows.{forth_body, back_body};
ghost use Rattle.law_sweep.specs.Examples.{squares, twice, squares_forward, squares_backward, twice_forward, twice_backward, emitted_names, lean_facts, pair_facts, pair_names, pair_forward, pair_backward, pair_left, pair_taken, branch, branch_forward, branch_backward, powers, powers_forward, powers_backward, power, power_backward};

/// The sweeps of each unit of a program in kernel form, by marks that meet the local laws, transpose the derivative of its body along each run that is done.
pub fn units_law()
    ensures { UnitsTranspose }
{}

/// So do the sweeps of each list of statements in such a unit.
pub fn lists_law()
    ensures { ListsTranspose }
{}

/// The same of the sweeps of the forward and the backward unit of each unit that split calls call, and that these units are a split pair.
pub fn pairs_law()
    ensures lists { PairsTranspose }
    ensures calls { CallsSplit }
{}

/// The program that is emitted for a source in kernel form, by marks that meet the local laws and suit the head, is an adjoint of it.
pub fn emitted_law()
    ensures { EmittedIsAdjoint }
{}

/// With full marks every head is suited.
pub fn full_marks_law()
    ensures adjoint { FullIsAdjoint }
{}

/// Line numbers don't matter: where a program is an adjoint, so is each that differs from it in these alone.
pub fn lines_law()
    ensures other_lines { OtherLines }
{}

/// The code of a reversal turns the steps of its marked loop: it transposes them from the last to the first, by as few calls of the step unit
/// as any schedule and one call of its adjoint a step, leaves the tape as it was, and holds at most its snapshots above that.
pub fn reversal_law()
    ensures { ReversalsTurn }
{}

/// The row of such a loop in both sweeps, by facts that meet its laws, gives back what is held before it, turns the shadows through its
/// steps, and reverses it once.
pub fn reversed_rows_law()
    ensures { ReversedRowsTurn }
{}

/// The sweeps of a loop over an array, of a call, of a branch, of a DO WHILE and of a power, with full marks, as they are written.
pub fn worked_sweeps()
    ensures loop_forward { forward (plan_in full_marks (squares ∷ twice ∷ []) squares) 0 0 squares.body ≡ squares_forward }
    ensures loop_backward { backward (plan_in full_marks (squares ∷ twice ∷ []) squares) 0 0 squares.body ≡ squares_backward }
    ensures call_forward { forward (plan_in full_marks (squares ∷ twice ∷ []) twice) 2 0 twice.body ≡ twice_forward }
    ensures call_backward { backward (plan_in full_marks (squares ∷ twice ∷ []) twice) 2 0 twice.body ≡ twice_backward }
    ensures names { map unit_name (emitted_program full_marks (squares ∷ twice ∷ []) 1 (true ∷ false ∷ []) (true ∷ false ∷ [])) ≡ emitted_names }
    ensures branch_forward { forward (plan_in full_marks (branch ∷ []) branch) 0 0 branch.body ≡ branch_forward }
    ensures branch_backward { backward (plan_in full_marks (branch ∷ []) branch) 0 0 branch.body ≡ branch_backward }
    ensures while_forward { forward (plan_in full_marks (powers ∷ []) powers) 0 0 powers.body ≡ powers_forward }
    ensures while_backward { backward (plan_in full_marks (powers ∷ []) powers) 0 0 powers.body ≡ powers_backward }
    ensures power_backward { backward (plan_in full_marks (power ∷ []) power) 0 0 power.body ≡ power_backward }
{}

/// Where the call is split, what is emitted: the sweeps of the caller, and those of both units with what is left on the tape between them.
pub fn worked_pairs()
    ensures names { map unit_name (emitted_program pair_facts.marks (squares ∷ twice ∷ []) 1 (true ∷ false ∷ []) (true ∷ false ∷ [])) ≡ pair_names }
    ensures call_forward { forward (plan_in pair_facts.marks (squares ∷ twice ∷ []) twice) 2 0 twice.body ≡ pair_forward }
    ensures call_backward { backward (plan_in pair_facts.marks (squares ∷ twice ∷ []) twice) 2 0 twice.body ≡ pair_backward }
    ensures unit_forward { forth_body None (split_plan pair_facts.marks (squares ∷ twice ∷ []) squares) 0 1 (left_by (squares ∷ twice ∷ []) squares) squares.body ≡ squares_forward +++ pair_left }
    ensures unit_backward { back_body None (split_plan pair_facts.marks (squares ∷ twice ∷ []) squares) 0 1 (left_by (squares ∷ twice ∷ []) squares) squares.body ≡ pair_taken +++ squares_backward }
{}

/// All that the law on emitted programs asks can be met by a split call: of a loop over an array.
pub fn split_premises_met()
    ensures fits { SourceFits (λ line. None) pair_facts (squares ∷ twice ∷ []) twice }
    ensures adjoint { IsAdjoint (λ line. None) pair_facts.marks (squares ∷ twice ∷ []) 1 (true ∷ false ∷ []) (true ∷ false ∷ []) (emitted_program pair_facts.marks (squares ∷ twice ∷ []) 1 (true ∷ false ∷ []) (true ∷ false ∷ [])) }
{}

/// All that the law on emitted programs asks can be met: by a loop over an array, called by a unit whose call is adjointed and not kept.
pub fn premises_met()
    ensures fits { SourceFits (λ line. None) lean_facts (squares ∷ twice ∷ []) twice }
    ensures adjoint { IsAdjoint (λ line. None) lean_facts.marks (squares ∷ twice ∷ []) 1 (true ∷ false ∷ []) (true ∷ false ∷ []) (emitted_program lean_facts.marks (squares ∷ twice ∷ []) 1 (true ∷ false ∷ []) (true ∷ false ∷ [])) }
{}
