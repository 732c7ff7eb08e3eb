//! Conditions.

ghost use Rattle.std.specs.Prelude.{◌≡◌, ◌<◌, [], IfOk, IfSome, option_map};
ghost use Rattle.adj_tree.specs.View.{test_of};
ghost use Rattle.def_text.specs.Lexeme.{Mark, lexemes_of};
ghost use Rattle.adj_parse_expression.specs.ConditionMachine.{beginning, is_end, read_test};
ghost use Rattle.adj_parse_expression.specs.Front.{AreSlices, front_condition};
ghost use Rattle.adj_parse_expression.specs.PartialCondition.{test_algebra, proposition_of};
ghost use Rattle.adj_parse_expression.specs.View.{seen};

use crate::flaw::Flaw;
use crate::inside::{Advanced, Inside, advance, conclude};
use crate::proposition::Proposition;
use adj_tree::{Cond, Memory};
use def_text::{Token, TokenKind};
use std::alloc::Global;

// Whether a token may stand behind a condition.
fn is_end(kind: TokenKind) -> bool
    ensures { result ≡ is_end (Mark kind) }
{
    matches!(
        kind,
        TokenKind::Right | TokenKind::Comma | TokenKind::Equals | TokenKind::Not | TokenKind::Call
    )
}

// A condition, where there is one, with the tokens behind it.
fn before<'t>(found: Option<Proposition>, rest: &'t [Token]) -> Option<(Proposition, &'t [Token])>
    ensures same { option_map (λ f. proposition_of f.0) result ≡ option_map proposition_of found }
    ensures behind { IfSome result (λ f. f.1.now ≡ rest.now) }
{
    match found {
        Some(made) => Some((made, rest)),
        None => None,
    }
}

// The longest condition at the front of the tokens, and the tokens behind it.
fn read<'t>(
    alloc: Global,
    text: &[u8],
    tokens: &'t [Token],
    limit: u32,
) -> Result<Option<(Proposition, &'t [Token])>, Memory>
    requires slices { AreSlices text.now tokens.now }
    requires limit { limit < 1000 }
    ensures front { IfOk result (λ found. option_map (λ f. (proposition_of f.0, lexemes_of text.now f.1.now)) found ≡ read_test (test_algebra limit) (beginning []) (lexemes_of text.now tokens.now)) }
    ensures behind { IfOk result (λ found. IfSome found (λ f. AreSlices text.now f.1.now)) }
{
    let mut waits = Vec::new(alloc);
    let mut inside = Inside::Fresh;
    let mut rest = tokens;
    while let Some((token, behind)) = rest.split_first() {
        let lexeme = &text[token.start..token.end];
        match advance(alloc, &mut waits, inside, token.kind, lexeme, limit)? {
            Advanced::On(next) => inside = next,
            Advanced::Stuck(found) => {
                if !is_end(token.kind) {
                    return Ok(None);
                }
                return Ok(before(found, rest));
            }
        }
        rest = behind;
    }
    let found = conclude(alloc, &mut waits, inside, limit)?;
    Ok(before(found, rest))
}

/// The longest condition at the front of the tokens, or what is wrong with it, and the tokens behind it; none where no condition stands there.
/// Its depth is at most the limit.
pub fn condition<'t>(
    alloc: Global,
    text: &[u8],
    tokens: &'t [Token],
    limit: u32,
) -> Result<Option<(Result<Box<Cond>, Flaw>, &'t [Token])>, Memory>
    requires slices { AreSlices text.now tokens.now }
    requires limit { limit < 1000 }
    ensures front { IfOk result (λ found. option_map (λ f. (seen (λ c. test_of c.value) f.0, lexemes_of text.now f.1.now)) found ≡ front_condition limit (lexemes_of text.now tokens.now)) }
    ensures behind { IfOk result (λ found. IfSome found (λ f. AreSlices text.now f.1.now)) }
{
    match read(alloc, text, tokens, limit)? {
        Some((made, rest)) => Ok(Some((made.into_found(), rest))),
        None => Ok(None),
    }
}
