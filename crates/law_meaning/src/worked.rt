//! Worked programs, whose runs are the contract of an empty function.

ghost use Rattle.law_meaning.specs.Samples.{SquareOfThree, SquareOfLeast, SumOfOneElement, PowersOfTwo, LongSteps, QuotientsAndTraps, CubeByCall, SquaredElement, ArrayPassed, ShapesTold, AdjointOfSquares, PopFromEmpty, ArraySaved, LastAction, OpenReversal, EventsInOrder, ChosenTangents};
ghost use Rattle.law_meaning.specs.Cases.{EachRelation, SignsCompared, ConditionsJoined, RowsAndColumns, ExtentsThatFit, EachAction, NoOtherAction, EndsOfReversals, LongLoops, NoTurn, OtherTangents, PoppedInPart, PowerOfVariable, ExponentsThatTrap, PowersDuring, LastTests, CountsInForce};

/// What the worked programs give, as worked out by hand.
pub fn worked_examples()
    ensures square { SquareOfThree }
    ensures square_of_least { SquareOfLeast }
    ensures elements { SumOfOneElement }
    ensures powers { PowersOfTwo }
    ensures long_steps { LongSteps }
    ensures quotients { QuotientsAndTraps }
    ensures call { CubeByCall }
    ensures call_of_element { SquaredElement }
    ensures call_with_array { ArrayPassed }
    ensures shapes_told { ShapesTold }
    ensures adjoint { AdjointOfSquares }
    ensures pop_from_empty { PopFromEmpty }
    ensures saved_array { ArraySaved }
    ensures last_action { LastAction }
    ensures open_reversal { OpenReversal }
    ensures events { EventsInOrder }
    ensures chosen_tangents { ChosenTangents }
{}

/// The corners of the definitions.
pub fn corner_cases()
    ensures each_relation { EachRelation }
    ensures signs_compared { SignsCompared }
    ensures conditions_joined { ConditionsJoined }
    ensures rows_and_columns { RowsAndColumns }
    ensures extents_that_fit { ExtentsThatFit }
    ensures each_action { EachAction }
    ensures no_other_action { NoOtherAction }
    ensures ends_of_reversals { EndsOfReversals }
    ensures long_loops { LongLoops }
    ensures no_turn { NoTurn }
    ensures other_tangents { OtherTangents }
    ensures popped_in_part { PoppedInPart }
    ensures power_of_variable { PowerOfVariable }
    ensures exponents_that_trap { ExponentsThatTrap }
    ensures powers_during { PowersDuring }
    ensures last_tests { LastTests }
    ensures counts_in_force { CountsInForce }
{}
