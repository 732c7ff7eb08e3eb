//! Texts, with the programs that they are and with the first fault of those that are refused.

ghost use Rattle.law_examples.specs.Texts.{Orders, Exponents, Applications, Conditions, Calls, OtherActuals, LoopForms};
ghost use Rattle.law_examples.specs.Blocks.{Branches, LoopBlocks, Directives, SplitCalls, Lines, Declared, Likenesses, DataPlaces, Labels, Keywords};
ghost use Rattle.law_examples.specs.Depths.{Depths, Counts, TestDepths, Flaws, DeepStatements};
ghost use Rattle.law_examples.specs.Limits.{Bounds};
ghost use Rattle.law_examples.specs.FirstFaults.{Passes, OfLines, OfTexts, OfStatements};
ghost use Rattle.law_examples.specs.Printed.{Terms, Tests, Programs, Literals, WrittenBounds, WrittenTerms, CutLines};
ghost use Rattle.law_examples.specs.Refusals.{InitialLines, Characters, WrongDirectives, WrongSplits, Unknown, Malformed, Misplaced, Unended, TooLarge, LongNames, WrongExponents};

/// What expressions and conditions are.
pub fn expression_cases()
    ensures orders { Orders }
    ensures exponents { Exponents }
    ensures applications { Applications }
    ensures conditions { Conditions }
{}

/// What simple statements are, and how loops begin.
pub fn statement_cases()
    ensures calls { Calls }
    ensures other_actuals { OtherActuals }
    ensures loop_forms { LoopForms }
{}

/// What texts with blocks, directives, lines of all sorts and declarations are.
pub fn block_cases()
    ensures branches { Branches }
    ensures loop_blocks { LoopBlocks }
    ensures directives { Directives }
    ensures split_calls { SplitCalls }
    ensures lines { Lines }
    ensures declared { Declared }
    ensures likenesses { Likenesses }
    ensures data_places { DataPlaces }
    ensures labels { Labels }
    ensures keywords { Keywords }
{}

/// Texts whose lines are refused.
pub fn line_refusals()
    ensures initial_lines { InitialLines }
    ensures characters { Characters }
    ensures directives { WrongDirectives }
    ensures splits { WrongSplits }
{}

/// Texts with a statement that is none.
pub fn statement_refusals()
    ensures unknown { Unknown }
    ensures malformed { Malformed }
    ensures long_names { LongNames }
{}

/// Texts whose statements are no units, or hold what no statement may hold.
pub fn tree_refusals()
    ensures misplaced { Misplaced }
    ensures unended { Unended }
    ensures too_large { TooLarge }
    ensures exponents { WrongExponents }
{}

/// Which of several faults of a text is told.
pub fn first_faults()
    ensures passes { Passes }
    ensures of_lines { OfLines }
    ensures of_texts { OfTexts }
    ensures of_statements { OfStatements }
{}

/// Texts at the limits of their mode and past them, and the limits.
pub fn limit_cases()
    ensures bounds { Bounds }
{}

/// The canonical texts of trees.
pub fn printed_cases()
    ensures terms { Terms }
    ensures tests { Tests }
    ensures programs { Programs }
    ensures literals { Literals }
    ensures written_bounds { WrittenBounds }
    ensures written_terms { WrittenTerms }
    ensures cut_lines { CutLines }
{}

/// How deep expressions, conditions and statements are, and which of their flaws comes first.
pub fn depth_cases()
    ensures depths { Depths }
    ensures counts { Counts }
    ensures test_depths { TestDepths }
    ensures flaws { Flaws }
    ensures deep_statements { DeepStatements }
{}
