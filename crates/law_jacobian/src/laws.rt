//! The laws of patterns.

ghost use Rattle.std.specs.Prelude.{ℕ, ℤ};
ghost use Rattle.def_jacobian.specs.Laws.{ColumnsForgotten, EndsAsDual, DirectionPaired, TangentsByColumns, OutsideIsZero, PatternByParts, GroupGivesEntry, SharesNone, OneGrouping, GroupsCounted, RecoversDense};
ghost use Rattle.law_jacobian.specs.Examples.{NeighboursPattern, SquaresPattern, ChosenColumns, OneGroupRefused};

/// A pattern run goes as the run and as every dual run, and the columns of a cell are all on which its tangent depends.
pub fn pattern_laws()
    ensures forgotten { ColumnsForgotten }
    ensures ends { EndsAsDual }
    ensures paired { DirectionPaired }
    ensures by_columns { TangentsByColumns }
    ensures outside { OutsideIsZero }
    ensures parts { PatternByParts (ℤ × ℕ) }
{}

/// Least groups share no row, and there is one such grouping.
pub fn group_laws()
    ensures apart { SharesNone }
    ensures one { OneGrouping }
    ensures counted { GroupsCounted }
    ensures tells { GroupGivesEntry }
{}

/// What is recovered from one dual run for each group is the dense derivative.
pub fn recovery_law()
    ensures dense { RecoversDense }
{}

/// Patterns and groups of small programs, as worked out by hand.
pub fn worked_patterns()
    ensures neighbours { NeighboursPattern }
    ensures squares { SquaresPattern }
    ensures chosen { ChosenColumns }
    ensures one_group { OneGroupRefused }
{}
