//! Laws of texts.

ghost use Rattle.std.specs.Prelude.{◌≡◌, ℕ, List, [], Some, IfSome};
ghost use Rattle.adj_tree.specs.Code.{Procedure};
ghost use Rattle.adj_tree.specs.Lines.{unlined};
ghost use Rattle.def_text.specs.Grammar.{Syntax, Sum, Derives};
ghost use Rattle.def_text.specs.Machine.{Stops, wanting, read, syntaxes};
ghost use Rattle.adj_tree.specs.Common.{Shared};
ghost use Rattle.def_text.specs.Fits.{Fits, AllFit};
ghost use Rattle.def_text.specs.Reads.{ReadsShared, ReadsSplits, Reads};
ghost use Rattle.def_text.specs.ReadsAs.{ReadsAs};
ghost use Rattle.def_text.specs.Text.{text_of};
ghost use Rattle.def_text.specs.Lexeme.{Lexeme};
ghost use Rattle.def_text.specs.Written.{IsWritten, AreWritten};

/// The canonical text of a written program reads as that program, up to line numbers.
pub fn text_reads_back()
    ensures reads { (program : List Procedure) → IsWritten program → ReadsAs (text_of program) program }
{}

/// Programs that differ in line numbers alone have one canonical text.
pub fn texts_name_no_lines()
    ensures one { (program other : List Procedure) → unlined program ≡ unlined other → text_of program ≡ text_of other }
{}

/// The calls of a text that directives split stand on one list of lines, and the canonical text of a written program has no such directive.
pub fn splits_are_read()
    ensures one { (bytes lines others : List ℕ) → ReadsSplits bytes lines → ReadsSplits bytes others → lines ≡ others }
    ensures none { (program : List Procedure) → IsWritten program → ReadsSplits (text_of program) [] }
{}

/// The machine that reads an expression at the front of some lexemes reads exactly what is derived there, up to what ends an
/// expression; and that is one expression with one rest.
pub fn expressions_are_read()
    ensures complete { (lexemes rest : List Lexeme) (s : Syntax) → Derives Sum lexemes rest s → Stops rest → read syntaxes (wanting []) lexemes ≡ Some (s, rest) }
    ensures sound { (lexemes : List Lexeme) → IfSome (read syntaxes (wanting []) lexemes) (λ r. Derives Sum lexemes r.1 r.0) }
    ensures one { (lexemes rest others : List Lexeme) (s t : Syntax) → Derives Sum lexemes rest s → Derives Sum lexemes others t → Stops rest → Stops others → (s ≡ t) × (rest ≡ others) }
{}

/// What a text reads as is written, where its literals and extents are words, and so are its COMMON statements. The canonical text of a program
/// without these reads as the same program, up to line numbers.
pub fn readings_are_written()
    ensures written { (bytes : List ℕ) (program : List Procedure) → Reads bytes program → Fits program → IsWritten program }
    ensures shared { (bytes : List ℕ) (program : List Shared) → ReadsShared bytes program → AllFit program → AreWritten program }
    ensures rewritten { (bytes : List ℕ) (program : List Procedure) → Reads bytes program → Fits program → ReadsAs (text_of program) program }
{}
