//! Worked programs, each claim about them the contract of an empty function.

ghost use Rattle.law_names.specs.Samples.{InAssignment, InTests, InLoops, InCall, InRuntime, AtAnyDepth, VariablesInOrder, EachReserved, FreshNames, Numbers};
ghost use Rattle.law_names.specs.NameSamples.{UnitNames, UndeclaredNames, RepeatedNames, Subscripts, Extents, ReservedVariables, RuntimeCalls, TooManyVariables, ManyVariables, Letters};
ghost use Rattle.law_names.specs.CallSamples.{Actuals, ArrayArguments, Cycles, Chains, LongChains, WrittenVariables, WrittenExtents, SharedVariables, WrittenValues, Passes, Heads, NoArrays, NoPlaces, AllKinds, Ends};

/// Where names stand in statements, the variables of a unit, reserved and fresh names, and numbers.
pub fn standing_examples()
    ensures in_assignment { InAssignment }
    ensures in_tests { InTests }
    ensures in_loops { InLoops }
    ensures in_call { InCall }
    ensures in_runtime { InRuntime }
    ensures at_any_depth { AtAnyDepth }
    ensures variables_in_order { VariablesInOrder }
    ensures each_reserved { EachReserved }
    ensures fresh_names { FreshNames }
    ensures numbers { Numbers }
{}

/// Units and names that are refused, and such that aren't.
pub fn name_examples()
    ensures unit_names { UnitNames }
    ensures undeclared_names { UndeclaredNames }
    ensures repeated_names { RepeatedNames }
    ensures subscripts { Subscripts }
    ensures extents { Extents }
    ensures reserved_variables { ReservedVariables }
    ensures runtime_calls { RuntimeCalls }
    ensures too_many_variables { TooManyVariables }
    ensures many_variables { ManyVariables }
    ensures letters { Letters }
{}

/// Calls, chains and writes that are refused, and such that aren't, and heads.
pub fn call_examples()
    ensures actuals { Actuals }
    ensures array_arguments { ArrayArguments }
    ensures cycles { Cycles }
    ensures chains { Chains }
    ensures long_chains { LongChains }
    ensures written_variables { WrittenVariables }
    ensures written_extents { WrittenExtents }
    ensures shared_variables { SharedVariables }
    ensures written_values { WrittenValues }
    ensures passes { Passes }
    ensures heads { Heads }
    ensures no_arrays { NoArrays }
    ensures no_places { NoPlaces }
    ensures all_kinds { AllKinds }
    ensures ends { Ends }
{}
