//! The laws of runs, each the contract of an empty function.

ghost use Rattle.std.specs.Prelude.{ℤ};
ghost use Rattle.law_meaning.specs.Laws.{ForBoth, RunsPartByPart, DoneWithMore, DeepEnough, LeadsWhereDone, EndsAlike, OneEnd, MoreBefore, RunRenamed, RunProjected, TangentsForgotten, LeastWritten, HandsBackWritten, KeepsOthers, KeepsDummies, LeastRead, DependsOnReads, ExtendsPrograms, ExtendsWritten, ExtendsRead, RunUnlined, RunsAlike, FitsAlike, RunsPadded, PadsPay, PadsNothing};

/// How runs are put together, and how many statements they take.
pub fn run_laws()
    ensures part_by_part { ForBoth RunsPartByPart }
    ensures done_with_more { ForBoth DoneWithMore }
    ensures deep_enough { ForBoth DeepEnough }
    ensures leads { ForBoth LeadsWhereDone }
    ensures ends_alike { ForBoth EndsAlike }
    ensures one_end { ForBoth OneEnd }
    ensures more_before { ForBoth MoreBefore }
{}

/// That names don't matter, what statements and units leave alone, and what they depend on.
pub fn variable_laws()
    ensures renamed { ForBoth RunRenamed }
    ensures written { LeastWritten }
    ensures handed_back { HandsBackWritten }
    ensures others { ForBoth KeepsOthers }
    ensures dummies { ForBoth KeepsDummies }
    ensures read { LeastRead }
    ensures depends { ForBoth DependsOnReads }
{}

/// A unit is the same in every program that holds it and all that it calls.
pub fn program_laws()
    ensures runs { ForBoth ExtendsPrograms }
    ensures written { ExtendsWritten }
    ensures read { ExtendsRead }
{}

/// Runs don't depend on line numbers, but for the lines that traps and marked loops name.
pub fn line_laws()
    ensures unlined { ForBoth RunUnlined }
    ensures runs_alike { ForBoth RunsAlike }
    ensures fits_alike { ForBoth FitsAlike }
{}

/// Runs over other numbers: a dual run without its tangents is the run.
pub fn dual_laws()
    ensures projected { RunProjected (ℤ × ℤ) ℤ }
    ensures forgotten { TangentsForgotten }
{}

/// Programs whose statements are weighed run as before, at their own price.
pub fn price_laws()
    ensures padded { ForBoth RunsPadded }
    ensures pays { ForBoth PadsPay }
    ensures nothing { PadsNothing }
{}
