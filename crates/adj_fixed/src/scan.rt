//! Tokens of a statement's text.

ghost use Rattle.std.specs.Prelude.{◌≡◌, ◌+◌, ◌^◌, ◌<◌, ◌≤◌, length, IfOk, IfSome, option_map};
ghost use Rattle.std.specs.List.{prefix_len};
ghost use Rattle.def_text.specs.Char.{is_digit, is_name_char};
ghost use Rattle.def_text.specs.Line.{is_name_part};
ghost use Rattle.def_text.specs.Token.{dotted, mark_of, stars, first_token, token_here, tokens_from};

use def_text::{Token, TokenKind};
use std::alloc::{AllocError, Global};

// What a name in capitals goes on with.
fn is_name_char(c: u8) -> bool
    ensures { result ≡ is_name_char c }
{
    c.is_ascii_uppercase() || c.is_ascii_digit() || c == b'_'
}

/// What a name in either case goes on with.
pub fn is_name_part(c: u8) -> bool
    ensures { result ≡ is_name_part c }
{
    is_name_char(c.to_ascii_uppercase())
}

/// How many characters from the front a name may go on with.
pub(crate) fn name_len(text: &[u8]) -> usize
    ensures value { result ≡ prefix_len is_name_char text.now }
    ensures within { result ≤ length text.now }
{
    text.iter().take_while(|c| is_name_char(**c)).count()
}

/// How many digits stand at the front.
pub(crate) fn number_len(text: &[u8]) -> usize
    ensures value { result ≡ prefix_len is_digit text.now }
    ensures within { result ≤ length text.now }
{
    text.iter().take_while(|c| c.is_ascii_digit()).count()
}

// The name between dots, and its length with them.
fn dotted(text: &[u8]) -> Option<(TokenKind, usize)>
    ensures value { result ≡ dotted text.now }
    ensures within { IfSome result (λ t. (0 < t.1) × (t.1 ≤ length text.now)) }
{
    if text.starts_with(b".LT.") {
        Some((TokenKind::Lt, 4))
    } else if text.starts_with(b".LE.") {
        Some((TokenKind::Le, 4))
    } else if text.starts_with(b".EQ.") {
        Some((TokenKind::Eq, 4))
    } else if text.starts_with(b".NE.") {
        Some((TokenKind::Ne, 4))
    } else if text.starts_with(b".GT.") {
        Some((TokenKind::Gt, 4))
    } else if text.starts_with(b".GE.") {
        Some((TokenKind::Ge, 4))
    } else if text.starts_with(b".NOT.") {
        Some((TokenKind::Not, 5))
    } else if text.starts_with(b".AND.") {
        Some((TokenKind::And, 5))
    } else if text.starts_with(b".OR.") {
        Some((TokenKind::Or, 4))
    } else {
        None
    }
}

// The kind of a mark of one character.
fn mark_of(c: u8) -> Option<TokenKind>
    ensures { result ≡ mark_of c }
{
    match c {
        b'/' => Some(TokenKind::Slash),
        b'+' => Some(TokenKind::Plus),
        b'-' => Some(TokenKind::Minus),
        b'(' => Some(TokenKind::Left),
        b')' => Some(TokenKind::Right),
        b',' => Some(TokenKind::Comma),
        b'=' => Some(TokenKind::Equals),
        _ => None,
    }
}

// `**` or `*`, with its length.
fn stars(behind: &[u8]) -> (TokenKind, usize)
    ensures value { result ≡ stars behind.now }
    ensures within { (0 < result.1) × (result.1 ≤ length behind.now + 1) }
{
    if behind.starts_with(b"*") {
        (TokenKind::Power, 2)
    } else {
        (TokenKind::Star, 1)
    }
}

// The kind of the first token, and how many characters it has.
fn first_token(text: &[u8]) -> Option<(TokenKind, usize)>
    ensures value { result ≡ first_token text.now }
    ensures within { IfSome result (λ t. (0 < t.1) × (t.1 ≤ length text.now)) }
{
    let (first, behind) = text.split_first()?;
    match first {
        c if c.is_ascii_uppercase() => Some((TokenKind::Name, 1 + name_len(behind))),
        c if c.is_ascii_digit() => Some((TokenKind::Number, 1 + number_len(behind))),
        b'.' => dotted(text),
        b'*' => Some(stars(behind)),
        _ => Some((mark_of(*first)?, 1)),
    }
}

// The first token of what stands at a place: the keyword CALL at its own.
fn token_here(call: Option<usize>, here: usize, text: &[u8]) -> Option<(TokenKind, usize)>
    requires { IfSome call (λ place. here ≡ place → 4 ≤ length text.now) }
    ensures value { result ≡ token_here call here text.now }
    ensures within { IfSome result (λ t. (0 < t.1) × (t.1 ≤ length text.now)) }
{
    if call == Some(here) {
        Some((TokenKind::Call, 4))
    } else {
        first_token(text)
    }
}

/// The tokens of a part of a statement's text that begins at `from`, where `call` may be the place of the keyword CALL;
/// none where the part isn't cut into tokens.
pub(crate) fn tokens(
    alloc: Global,
    part: &[u8],
    from: usize,
    call: Option<usize>,
) -> Result<Option<Vec<Token>>, AllocError>
    requires fits { from + length part.now < 2 ^ 63 }
    requires whole { IfSome call (λ place. place + 4 ≤ from + length part.now) }
    ensures { IfOk result (λ found. option_map (λ v. v.items) found ≡ tokens_from call 0 from part.now) }
{
    let mut tokens = Vec::new(alloc);
    let mut done = 0;
    while done < part.len() {
        let start = from + done;
        let Some((kind, len)) = token_here(call, start, &part[done..]) else {
            return Ok(None);
        };
        tokens.push(Token {
            kind,
            start,
            end: start + len,
        })?;
        done += len;
    }
    Ok(Some(tokens))
}
