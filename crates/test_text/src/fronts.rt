//! Trees at the front of texts.

ghost use Rattle.std.specs.Prelude.{◌<◌, IfOk};
ghost use Rattle.adj_parse_expression.specs.Front.{AreSlices};

use crate::trees::Tree;
use adj_tree::Memory;
use def_text::{Token, TokenKind};
use std::alloc::{AllocError, Global};

// Tokens that aren't numbers or names.
const KINDS: [(&[u8], TokenKind); 18] = [
    (b"**", TokenKind::Power),
    (b"*", TokenKind::Star),
    (b"/", TokenKind::Slash),
    (b"+", TokenKind::Plus),
    (b"-", TokenKind::Minus),
    (b"(", TokenKind::Left),
    (b")", TokenKind::Right),
    (b",", TokenKind::Comma),
    (b"=", TokenKind::Equals),
    (b".LT.", TokenKind::Lt),
    (b".LE.", TokenKind::Le),
    (b".EQ.", TokenKind::Eq),
    (b".NE.", TokenKind::Ne),
    (b".GT.", TokenKind::Gt),
    (b".GE.", TokenKind::Ge),
    (b".NOT.", TokenKind::Not),
    (b".AND.", TokenKind::And),
    (b".OR.", TokenKind::Or),
];

fn kind_of(lexeme: &[u8]) -> TokenKind {
    for (text, kind) in &KINDS {
        if *text == lexeme {
            return *kind;
        }
    }
    if lexeme.first().is_some_and(u8::is_ascii_digit) {
        TokenKind::Number
    } else {
        TokenKind::Name
    }
}

// The tokens of a text in which one blank stands between two.
fn tokens(alloc: Global, text: &[u8]) -> Result<Vec<Token>, AllocError>
    ensures { IfOk result (λ v. AreSlices text.now v.items) }
{
    let mut tokens = Vec::new(alloc);
    let mut start = 0;
    for end in 0..text.len() {
        if text[end] == b' ' {
            let kind = kind_of(&text[start..end]);
            tokens.push(Token { kind, start, end })?;
            start = end + 1;
        }
    }
    let end = text.len();
    let kind = kind_of(&text[start..end]);
    tokens.push(Token { kind, start, end })?;
    Ok(tokens)
}

/// Whether a text has this at its front, and so many tokens after it: a tree, by its text, the name of its flaw, or "none".
pub(crate) fn is_found<T: Tree>(
    alloc: Global,
    text: &str,
    limit: u32,
    wanted: &str,
    after: usize,
) -> Result<bool, Memory>
    requires { limit < 1000 }
{
    let tokens = tokens(alloc, text.as_bytes())?;
    let Some((found, rest)) = T::read(alloc, text.as_bytes(), &tokens, limit)? else {
        return Ok(wanted == "none");
    };
    let is_wanted = match found {
        Ok(tree) => tree.is_printed(alloc, wanted)?,
        Err(flaw) => format!(in alloc; "{flaw:?}")?.as_str() == wanted,
    };
    Ok(is_wanted && rest.len() == after)
}

/// What stands 20,000 times at the front, what is in it, what stands as often after it, and what is found, as for `is_found`.
pub(crate) type Deep = (
    &'static str,
    &'static str,
    &'static str,
    &'static str,
    usize,
);

fn push_times(out: &mut String, part: &str) -> Result<(), AllocError> {
    for _ in 0..20_000 {
        out.push_str(part)?;
    }
    Ok(())
}

// A text with 20,000 times one in front and another after it.
fn deep(alloc: Global, front: &str, inner: &str, back: &str) -> Result<String, AllocError> {
    let mut text = String::new(alloc);
    push_times(&mut text, front)?;
    text.push_str(inner)?;
    push_times(&mut text, back)?;
    Ok(text)
}

/// Whether such a text has that at its front.
pub(crate) fn is_found_deep<T: Tree>(alloc: Global, case: &Deep) -> Result<bool, Memory> {
    let (front, inner, back, wanted, after) = *case;
    let text = deep(alloc, front, inner, back)?;
    is_found::<T>(alloc, text.as_str(), 100, wanted, after)
}
