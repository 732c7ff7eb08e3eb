//! The tangent of a program in kernel form: what is emitted, and that a run of it is the program's dual run. Definitions and laws, no code.
//!
//! `specs/TangentOf` and `Forward` say what becomes of assignments and of the other statements, `Program` what is emitted, and `IsTangent`
//! what it means that a program is the tangent of another. `Laws`, `Units` and `Source` say what is asked of a kernel and of what carries a
//! tangent in it, `Theorem` what the run of each unit's tangent has to do with the unit's dual run. It stands on the meaning of programs, and
//! takes names, slots, temporaries and texts from `def_sweep` and `def_sweep`. The layer above uses `tangent_law`.
#![tactic(auto)]

ghost use Rattle.std.specs.Prelude.{◌≡◌, ◌∷◌, [], pos, true, false};
ghost use Rattle.law_tangent.specs.Theorem.{UnitsFollow, HeadFollows};
ghost use Rattle.law_tangent.specs.Carries.{LawsFlow};
ghost use Rattle.law_tangent.specs.Emitted.{TangentsThere, StillThere};
ghost use Rattle.law_tangent.specs.Sizes.{TwiceTheWeight};
ghost use Rattle.law_tangent.specs.Premises.{ProductIsLight};
ghost use Rattle.law_tangent.specs.Source.{EmittedIsTangent};
ghost use Rattle.def_tangent.specs.Program.{tangent_program};
ghost use Rattle.law_tangent.specs.Premises.{UnitsFit, CalledFit};
ghost use Rattle.law_tangent.specs.Refused.{BehindIsRefused};
ghost use Rattle.law_tangent.specs.Examples.{square, square_carried, square_tangent, powers, powers_carried, powers_tangent, caller, scales, counts, caller_carried, caller_tangent, scales_tangent, branches, branches_carried, branches_tangent, forms, forms_carried, forms_tangent};

/// The run of each unit's tangent follows the unit's dual run: it gives the same values and tangents where that is done, traps where that traps, and takes at most w times as many statements.
pub fn units_follow_law()
    ensures { UnitsFollow }
{}

/// So does that of the head, which clears the tangents of some variables first: one statement more for each.
pub fn head_follows_law()
    ensures { HeadFollows }
{}

/// The laws of the sweeps give the flow of tangents that is asked of units.
pub fn laws_flow_law()
    ensures { LawsFlow }
{}

/// The emitted program has the tangent of each unit that is to have one, under names of its own, and each unit that stays.
pub fn emitted_law()
    ensures tangents { TangentsThere }
    ensures others { StillThere }
{}

/// Where no assignment has m nodes or more, w may be 2 * m. The product has 3 nodes: m may be 4, and no less.
pub fn counts_law()
    ensures weight { TwiceTheWeight }
    ensures of_product { ProductIsLight }
{}

/// What is emitted for a kernel that was checked, where tangents flow as its units say and what may have one carries one, is its tangent for the
/// head: run on an input with tangents, it gives the values and the tangents of the dual run, or traps where that traps.
pub fn tangent_law()
    ensures { EmittedIsTangent }
{}

/// Tangents as they are written: of a product, of a loop, of branches that need more helpers than what is beside them, of statements and expressions of every kind, and of a unit that calls one unit with tangents and one without.
pub fn worked_tangents()
    ensures of_product { tangent_program square_carried (square ∷ []) 0 (true ∷ false ∷ []) ≡ (square_tangent ∷ []) }
    ensures of_loop { tangent_program powers_carried (powers ∷ []) 0 (false ∷ true ∷ false ∷ []) ≡ (powers_tangent ∷ []) }
    ensures of_branches { tangent_program branches_carried (branches ∷ []) 0 (true ∷ false ∷ []) ≡ (branches_tangent ∷ []) }
    ensures of_forms { tangent_program forms_carried (forms ∷ []) 0 (true ∷ false ∷ false ∷ false ∷ false ∷ []) ≡ (forms_tangent ∷ []) }
    ensures of_calls { tangent_program caller_carried (caller ∷ scales ∷ counts ∷ []) 0 (true ∷ false ∷ false ∷ []) ≡ (caller_tangent ∷ scales_tangent ∷ counts ∷ []) }
{}

/// What the law on units asks can be met, by the least w: two statements stand before the product.
pub fn premises_met()
    ensures alone { UnitsFit }
    ensures with_call { CalledFit }
{}

/// A body that puts the tangent after the assignment is no tangent.
pub fn wrong_refused()
    ensures { BehindIsRefused }
{}
