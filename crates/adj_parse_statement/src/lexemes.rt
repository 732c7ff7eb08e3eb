//! The tokens of a statement that are still to be read.

ghost use Rattle.std.specs.Prelude.{◌≡◌, ◌<◌, false, map, IfOk, option_map};
ghost use Rattle.adj_tree.specs.View.{term_of, test_of};
ghost use Rattle.adj_parse_expression.specs.Front.{AreSlices};
ghost use Rattle.adj_parse_expression.specs.View.{seen};
ghost use Rattle.adj_parse_statement.specs.Phrases.{inside_behind, is_inner_name, has_inner_name};

use adj_parse_expression::{Flaw, condition, expression};
use adj_tree::{Cond, Expr, Memory, Name};
use def_text::{Token, TokenKind};
use std::alloc::Global;

// Whether what stands behind a token of this kind stands in parentheses.
fn inside_behind(inside: bool, kind: TokenKind) -> bool
    ensures { result ≡ inside_behind inside kind }
{
    match kind {
        TokenKind::Left => true,
        TokenKind::Right => false,
        _ => inside,
    }
}

// Whether a token of this kind is a name in parentheses.
fn is_inner_name(inside: bool, kind: TokenKind) -> bool
    ensures { result ≡ is_inner_name inside kind }
{
    inside && kind == TokenKind::Name
}

// Whether a name among some tokens stands in parentheses.
fn has_inner_name(tokens: &[Token]) -> bool
    ensures { result ≡ has_inner_name false (map (λ t. t.kind) tokens.now) }
{
    let mut inside = false;
    for token in tokens {
        if is_inner_name(inside, token.kind) {
            return true;
        }
        inside = inside_behind(inside, token.kind);
    }
    false
}

/// Tokens of a text.
#[derive(Clone, Copy)]
pub(crate) struct Lexemes<'t> {
    text: &'t [u8],
    tokens: &'t [Token],
    ghost slices: { AreSlices text.now tokens.now },
}

impl<'t> Lexemes<'t> {
    ghost use Rattle.def_text.specs.Lexeme.{lexemes_of};
    ghost use Rattle.adj_parse_expression.specs.Front.{front_expression, front_condition};
    ghost use Rattle.adj_parse_statement.specs.Phrases.{are_none, ended, name_at, digits_at, behind, have_inner_name};
    ghost use Rattle.adj_parse_statement.specs.LexemesView.{lexemes_in};

    /// Tokens of a text.
    pub fn new(text: &'t [u8], tokens: &'t [Token]) -> Lexemes<'t>
        requires { AreSlices text.now tokens.now }
        ensures { lexemes_in result ≡ lexemes_of text.now tokens.now }
    {
        Lexemes { text, tokens }
    }

    /// Whether none is left.
    pub fn are_none(self) -> bool
        ensures { result ≡ are_none (lexemes_in self.entry) }
    {
        self.tokens.is_empty()
    }

    /// What was read before, where none is left.
    pub fn ended<A: Drop>(self, read: A) -> Option<A>
        ensures { result ≡ ended read (lexemes_in self.entry) }
    {
        match self.tokens {
            [] => Some(read),
            [..] => None,
        }
    }

    /// What stands behind a token of a kind.
    pub fn behind(self, kind: TokenKind) -> Option<Lexemes<'t>>
        ensures { option_map lexemes_in result ≡ behind kind (lexemes_in self.entry) }
    {
        match self.tokens {
            [first, rest @ ..] if first.kind == kind => Some(Lexemes::new(self.text, rest)),
            _ => None,
        }
    }

    /// Whether a name stands in parentheses.
    #[tactic(auto, using(crate::proofs::Inner::inner_names_stay))]
    pub fn have_inner_name(self) -> bool
        ensures { result ≡ have_inner_name (lexemes_in self.entry) }
    {
        has_inner_name(self.tokens)
    }

    /// The name at the front, and what stands behind it.
    pub fn name(self, alloc: Global) -> Result<Option<(Name, Lexemes<'t>)>, Memory>
        ensures { IfOk result (λ found. option_map (λ f. (f.0, lexemes_in f.1)) found ≡ name_at (lexemes_in self.entry)) }
    {
        match self.tokens {
            [first, rest @ ..] if first.kind == TokenKind::Name => {
                let name = Name::from_slice(alloc, &self.text[first.start..first.end])?;
                Ok(Some((name, Lexemes::new(self.text, rest))))
            }
            _ => Ok(None),
        }
    }

    /// The digits at the front, and what stands behind them.
    pub fn digits(self) -> Option<(&'t [u8], Lexemes<'t>)>
        ensures { option_map (λ f. (f.0.now, lexemes_in f.1)) result ≡ digits_at (lexemes_in self.entry) }
    {
        match self.tokens {
            [first, rest @ ..] if first.kind == TokenKind::Number => {
                let digits = &self.text[first.start..first.end];
                Some((digits, Lexemes::new(self.text, rest)))
            }
            _ => None,
        }
    }

    /// The expression at the front, or what is wrong with it, and what stands behind it.
    pub fn expression(
        self,
        alloc: Global,
        limit: u32,
    ) -> Result<Option<(Result<Box<Expr>, Flaw>, Lexemes<'t>)>, Memory>
        requires { limit < 1000 }
        ensures { IfOk result (λ found. option_map (λ f. (seen (λ e. term_of e.value) f.0, lexemes_in f.1)) found ≡ front_expression limit (lexemes_in self.entry)) }
    {
        match expression(alloc, self.text, self.tokens, limit)? {
            Some((found, rest)) => Ok(Some((found, Lexemes::new(self.text, rest)))),
            None => Ok(None),
        }
    }

    /// The condition at the front, or what is wrong with it, and what stands behind it.
    pub fn condition(
        self,
        alloc: Global,
        limit: u32,
    ) -> Result<Option<(Result<Box<Cond>, Flaw>, Lexemes<'t>)>, Memory>
        requires { limit < 1000 }
        ensures { IfOk result (λ found. option_map (λ f. (seen (λ c. test_of c.value) f.0, lexemes_in f.1)) found ≡ front_condition limit (lexemes_in self.entry)) }
    {
        match condition(alloc, self.text, self.tokens, limit)? {
            Some((found, rest)) => Ok(Some((found, Lexemes::new(self.text, rest)))),
            None => Ok(None),
        }
    }
}
