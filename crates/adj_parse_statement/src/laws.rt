//! Laws of what statements say.

ghost use Rattle.std.specs.Prelude.{◌≡◌, ◌⊎◌, ℕ, List, Some, Ok, Err, IfSome};
ghost use Rattle.adj_tree.specs.Code.{Mark, unmarked};
ghost use Rattle.def_text.specs.Form.{Form, ReadsForm};
ghost use Rattle.def_text.specs.Lexeme.{Lexeme};
ghost use Rattle.def_text.specs.declared.stated.Kind.{Kind};
ghost use Rattle.def_text.specs.declared.stated.Kind.TheVariants.{Do};
ghost use Rattle.adj_parse_statement.specs.Phrase.{Phrase, Says};
ghost use Rattle.adj_parse_statement.specs.Phrases.{phrase_of};
ghost use Rattle.adj_parse_expression.specs.declared.flaw.Flaw.TheVariants.{Large, Deep};
ghost use Rattle.adj_parse_statement.specs.FormFits.{FitsForm};
ghost use Rattle.adj_parse_statement.specs.Said.{form, said};

/// What is read of the lexemes of a statement is what they say, which is one phrase; and its form is what the grammar of texts gives the lexemes.
pub fn statements_are_said()
    ensures complete { (kind : Kind) (lexemes : List Lexeme) (p : Phrase) → Says kind lexemes p → phrase_of kind lexemes ≡ Some p }
    ensures sound { (kind : Kind) (lexemes : List Lexeme) → IfSome (phrase_of kind lexemes) (Says kind lexemes) }
    ensures one { (kind : Kind) (lexemes : List Lexeme) (p q : Phrase) → Says kind lexemes p → Says kind lexemes q → p ≡ q }
    ensures forms { (mark : Mark) (kind : Kind) (lexemes : List Lexeme) (p : Phrase) (f : Form) → Says kind lexemes p → form mark p ≡ Some f → (mark ≡ unmarked) ⊎ (kind ≡ Do) → ReadsForm mark kind lexemes f }
    ensures phrases { (mark : Mark) (kind : Kind) (lexemes : List Lexeme) (f : Form) → ReadsForm mark kind lexemes f → (p : Phrase) × Says kind lexemes p × (form mark p ≡ Some f) }
{}

/// What `said` gives is what the grammar of texts reads of the lexemes, which is one form at most; its literals and extents are words. Where the grammar reads a form, it gives that, or says that a literal is
/// too large or an expression too deep.
pub fn forms_are_said()
    ensures reads { (limit : ℕ) (mark : Mark) (kind : Kind) (lexemes : List Lexeme) (f : Form) → said limit mark kind lexemes ≡ Some (Ok f) → (mark ≡ unmarked) ⊎ (kind ≡ Do) → ReadsForm mark kind lexemes f }
    ensures fits { (limit : ℕ) (mark : Mark) (kind : Kind) (lexemes : List Lexeme) (f : Form) → said limit mark kind lexemes ≡ Some (Ok f) → FitsForm f }
    ensures answers { (limit : ℕ) (mark : Mark) (kind : Kind) (lexemes : List Lexeme) (f : Form) → ReadsForm mark kind lexemes f →
        (said limit mark kind lexemes ≡ Some (Ok f)) ⊎ ((said limit mark kind lexemes ≡ Some (Err Large)) ⊎ (said limit mark kind lexemes ≡ Some (Err Deep))) }
    ensures one { (mark : Mark) (kind : Kind) (lexemes : List Lexeme) (f g : Form) → ReadsForm mark kind lexemes f → ReadsForm mark kind lexemes g → f ≡ g }
{}
