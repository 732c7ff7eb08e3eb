//! Laws of faults and of names, each the contract of an empty function.

ghost use Rattle.def_names.specs.Laws.{FirstIsFirst, NoFirst, FirstOfSame, SoundHasNone, SoundByLines, VariablesApart, VariablesStand, FreshIsFree, FreshAsWanted, FreshNumbered, DigitsAreDecimal};

/// The first of some faults is before all others, however they are listed; and what has none is free of faults. Whether a program
/// has one doesn't depend on its line numbers.
pub fn fault_laws()
    ensures is_first { FirstIsFirst }
    ensures no_first { NoFirst }
    ensures of_same { FirstOfSame }
    ensures sound { SoundHasNone }
    ensures lines { SoundByLines }
{}

/// The variables of a unit are apart, and just the names that stand in it.
pub fn variable_laws()
    ensures apart { VariablesApart }
    ensures stand { VariablesStand }
{}

/// A fresh name isn't taken, and is the name wanted where that is free. Numbers in it have std's digits.
pub fn fresh_laws()
    ensures is_free { FreshIsFree }
    ensures as_wanted { FreshAsWanted }
    ensures numbered { FreshNumbered }
    ensures decimal { DigitsAreDecimal }
{}
