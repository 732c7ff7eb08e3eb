//! Laws of conditions at the front of some lexemes.

ghost use Rattle.std.specs.Prelude.{◌≡◌, List, Some, IfSome};
ghost use Rattle.def_text.specs.Condition.{Condition, Whole, DerivesCondition};
ghost use Rattle.def_text.specs.Lexeme.{Lexeme};
ghost use Rattle.adj_parse_expression.specs.ConditionMachine.{Ends};
ghost use Rattle.adj_parse_expression.specs.Reading.{read_condition};

/// The machine that reads a condition at the front of some lexemes reads exactly what is derived there, up to what ends a
/// condition; and that is one condition with one rest.
pub fn conditions_are_read()
    ensures complete { (lexemes rest : List Lexeme) (c : Condition) → DerivesCondition Whole lexemes rest c → Ends rest → read_condition lexemes ≡ Some (c, rest) }
    ensures sound { (lexemes : List Lexeme) → IfSome (read_condition lexemes) (λ r. DerivesCondition Whole lexemes r.1 r.0) }
    ensures one { (lexemes rest others : List Lexeme) (c d : Condition) → DerivesCondition Whole lexemes rest c → DerivesCondition Whole lexemes others d → Ends rest → Ends others → (c ≡ d) × (rest ≡ others) }
{}
