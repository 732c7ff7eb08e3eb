//! Worked programs, whose marks are the contracts of empty functions.

ghost use Rattle.law_flow.specs.Examples.{Square, Constant, OneBranch, ResetByConstant, Factor, Unused, KeptForARead, SavedForItself, Held, HeldNoFurther, HeldPastDropped, BackEdge, Power, Index, CounterSaved, CounterReset, DroppedInABranch, Quotient, FirstPower, Cube, NoPower, PowerByVariable, VariedExponent, While, SquareByCall, ResetByCall, PlainCall, CallThatSaves, NotCalled, Extent, MarkedLoop, NamedCount};

/// What exact analyses say of lists of assignments, as worked out by hand.
pub fn worked_assignments()
    ensures square { Square }
    ensures constant { Constant }
    ensures reset_by_constant { ResetByConstant }
    ensures factor { Factor }
    ensures unused { Unused }
    ensures kept_for_a_read { KeptForARead }
    ensures saved_for_itself { SavedForItself }
    ensures held { Held }
    ensures held_no_further { HeldNoFurther }
    ensures held_past_dropped { HeldPastDropped }
    ensures quotient { Quotient }
    ensures first_power { FirstPower }
    ensures cube { Cube }
    ensures no_power { NoPower }
    ensures power_by_variable { PowerByVariable }
    ensures varied_exponent { VariedExponent }
{}

/// The same of branches and loops.
pub fn worked_blocks()
    ensures one_branch { OneBranch }
    ensures back_edge { BackEdge }
    ensures power { Power }
    ensures index { Index }
    ensures counter_saved { CounterSaved }
    ensures counter_reset { CounterReset }
    ensures dropped_in_a_branch { DroppedInABranch }
    ensures while_loop { While }
{}

/// The same of calls and marked loops.
pub fn worked_calls()
    ensures square_by_call { SquareByCall }
    ensures reset_by_call { ResetByCall }
    ensures plain_call { PlainCall }
    ensures call_that_saves { CallThatSaves }
    ensures not_called { NotCalled }
    ensures extent { Extent }
    ensures marked_loop { MarkedLoop }
    ensures named_count { NamedCount }
{}
