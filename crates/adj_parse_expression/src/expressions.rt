//! Expressions.

ghost use Rattle.std.specs.Prelude.{◌≡◌, ◌<◌, ℕ, List, IfOk, IfSome, option_map};
ghost use Rattle.adj_tree.specs.View.{term_of};
ghost use Rattle.def_text.specs.Lexeme.{lexeme, lexemes_of};
ghost use Rattle.def_text.specs.Machine.{finish, is_stop};
ghost use Rattle.adj_parse_expression.specs.Front.{AreSlices, front_expression};
ghost use Rattle.adj_parse_expression.specs.Partial.{algebra, ended};
ghost use Rattle.adj_parse_expression.specs.Stack.{stack_of, seen_of};
ghost use Rattle.adj_parse_expression.specs.View.{seen};

use crate::flaw::Flaw;
use crate::frame::{Frame, Seen};
use crate::machine::{Stepped, finish, step};
use adj_tree::{Expr, Memory};
use def_text::{Token, TokenKind};
use std::alloc::Global;

/// Whether the lexeme may stand behind an expression: no name, no number and nothing that goes on with one.
pub(crate) fn is_stop(kind: TokenKind) -> bool
    ensures { (text : List ℕ) → result ≡ is_stop (lexeme kind text) }
{
    !matches!(
        kind,
        TokenKind::Name
            | TokenKind::Number
            | TokenKind::Power
            | TokenKind::Star
            | TokenKind::Slash
            | TokenKind::Plus
            | TokenKind::Minus
            | TokenKind::Left
    )
}

// What is found where the expression ends before these tokens.
fn ended<'t>(
    alloc: Global,
    frames: Vec<Frame>,
    left: Seen,
    rest: &'t [Token],
    limit: u32,
) -> Result<Option<(Result<Box<Expr>, Flaw>, &'t [Token])>, Memory>
    requires { limit < 1000 }
    ensures front { IfOk result (λ found. option_map (λ f. (seen (λ e. term_of e.value) f.0, f.1.now)) found ≡ ended rest.now (finish (algebra limit) (stack_of frames.items, seen_of left))) }
    ensures behind { IfOk result (λ found. IfSome found (λ f. f.1.now ≡ rest.now)) }
{
    match finish(alloc, frames, left, limit)? {
        Some(operand) => Ok(Some((operand.into_found(), rest))),
        None => Ok(None),
    }
}

/// The longest expression at the front of the tokens, or what is wrong with it, and the tokens behind it; none where no expression stands there.
/// Its depth is at most the limit.
pub fn expression<'t>(
    alloc: Global,
    text: &[u8],
    tokens: &'t [Token],
    limit: u32,
) -> Result<Option<(Result<Box<Expr>, Flaw>, &'t [Token])>, Memory>
    requires slices { AreSlices text.now tokens.now }
    requires limit { limit < 1000 }
    ensures front { IfOk result (λ found. option_map (λ f. (seen (λ e. term_of e.value) f.0, lexemes_of text.now f.1.now)) found ≡ front_expression limit (lexemes_of text.now tokens.now)) }
    ensures behind { IfOk result (λ found. IfSome found (λ f. AreSlices text.now f.1.now)) }
{
    let mut frames = Vec::new(alloc);
    let mut seen = Seen::Nothing;
    let mut rest = tokens;
    while let Some((token, behind)) = rest.split_first() {
        let lexeme = &text[token.start..token.end];
        match step(alloc, &mut frames, seen, token.kind, lexeme, limit)? {
            Stepped::On(next) => seen = next,
            Stepped::Stuck(last) => {
                if is_stop(token.kind) {
                    return ended(alloc, frames, last, rest, limit);
                }
                return Ok(None);
            }
        }
        rest = behind;
    }
    ended(alloc, frames, seen, rest, limit)
}
