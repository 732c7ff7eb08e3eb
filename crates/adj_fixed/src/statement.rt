//! Statements with their classes and tokens.

ghost use Rattle.std.specs.Prelude.{◌≡◌, ◌+◌, ◌≤◌, Ok, Some, length, All, IfOk, IfSome, option_map};
ghost use Rattle.std.specs.List.{list_any};
ghost use Rattle.def_text.specs.Limits.{no_limits, limits_of};
ghost use Rattle.def_text.specs.Refused.{Gives};
ghost use Rattle.def_text.specs.Stated.{keyword_len, ending_len, call_place, tokens_of, is_too_long, is_marked_long, stated, all_stated, statements_of, IsCovered};
ghost use Rattle.adj_fixed.specs.View.{lines_of, all_lines};

use crate::class::{class_of, condition_end, inner, is_matched, kind_of, width_of};
use crate::lined::{Lined, lines_of};
use crate::scan::tokens;
use adj_tree::{Bytes, Code, Fault, Mark};
use def_text::{Kind, Mode, Stated, Token, TokenKind, Tokens};
use std::alloc::{AllocError, Global};

// How many characters a name may have.
fn name_limit(mode: Mode) -> usize
    ensures { (limits_of mode).name ≡ Some result }
{
    match mode {
        Mode::Source => 31,
        Mode::Run => 63,
    }
}

fn integer_len(text: &[u8]) -> usize
    ensures { result ≡ keyword_len Kind.Integer text.now }
{
    let digits = width_of(text);
    if digits.is_empty() {
        7
    } else {
        8 + digits.len()
    }
}

// How many characters the keyword has.
fn keyword_len(kind: Kind, text: &[u8]) -> usize
    ensures { result ≡ keyword_len kind text.now }
{
    match kind {
        Kind::Assign => 0,
        Kind::Do | Kind::BlockIf | Kind::LogicalIf => 2,
        Kind::End => 3,
        Kind::Else | Kind::Call => 4,
        Kind::EndIf | Kind::EndDo => 5,
        Kind::Return | Kind::ElseIf | Kind::Common => 6,
        Kind::DoWhile => 7,
        Kind::Continue => 8,
        Kind::Subroutine => 10,
        Kind::ImplicitNone => 12,
        Kind::Integer => integer_len(text),
    }
}

// How many characters the final THEN has.
fn ending_len(kind: Kind) -> usize
    ensures { result ≡ ending_len kind }
{
    match kind {
        Kind::BlockIf | Kind::ElseIf => 4,
        _ => 0,
    }
}

// The place of the keyword CALL behind the condition of a logical IF.
fn call_place(kind: Kind, text: &[u8]) -> Option<usize>
    ensures value { result ≡ call_place kind text.now }
    ensures whole { IfSome result (λ place. place + 4 ≤ length text.now) }
{
    match kind {
        Kind::LogicalIf => match kind_of(inner(text)) {
            Some(Kind::Call) => condition_end(text),
            _ => None,
        },
        _ => None,
    }
}

// The tokens of a statement's text, or none where it isn't cut into tokens.
fn tokens_of(alloc: Global, kind: Kind, text: &[u8]) -> Result<Option<Vec<Token>>, AllocError>
    requires fits { keyword_len kind text.now + ending_len kind ≤ length text.now }
    ensures { IfOk result (λ found. option_map (λ v. v.items) found ≡ tokens_of kind text.now) }
{
    let start = keyword_len(kind, text);
    let end = text.len() - ending_len(kind);
    tokens(alloc, &text[start..end], start, call_place(kind, text))
}

fn is_too_long(limit: usize, token: &Token) -> bool
    ensures { result ≡ is_too_long (Some limit) token.now }
{
    token.kind == TokenKind::Name && token.end.saturating_sub(token.start) > limit
}

fn any_too_long(limit: usize, tokens: &[Token]) -> bool
    ensures { result ≡ list_any (is_too_long (Some limit)) tokens.now }
{
    tokens.iter().any(|token| is_too_long(limit, token))
}

// Whether the directive before a DO has a name above the limit.
fn is_marked_long(limit: usize, kind: Kind, mark: &Mark) -> bool
    ensures { result ≡ is_marked_long (Some limit) kind mark.now }
{
    match mark {
        Mark::From(name) => kind == Kind::Do && name.bytes().len() > limit,
        Mark::Plain | Mark::Count(_) => false,
    }
}

// A statement with its class and tokens, or its first fault.
#[tactic(auto, unfolding(def_text::specs::Stated::stated))]
fn stated(alloc: Global, mode: Mode, lined: Lined) -> Result<Stated, Fault>
    ensures { Gives (λ s. s) result (stated (limits_of mode) (lines_of lined)) }
{
    let text = lined.text.as_slice();
    if text.is_empty() {
        return Err(Fault::refused(Code::Malformed, lined.line));
    }
    let Some(kind) = class_of(text) else {
        return Err(Fault::refused(Code::Unsupported, lined.line));
    };
    if !is_matched(text) {
        return Err(Fault::refused(Code::Malformed, lined.line));
    }
    let Some(tokens) = tokens_of(alloc, kind, text)? else {
        return Err(Fault::refused(Code::Malformed, lined.line));
    };
    let limit = name_limit(mode);
    if any_too_long(limit, tokens.as_slice()) || is_marked_long(limit, kind, &lined.advice.mark) {
        return Err(Fault::refused(Code::LongName, lined.line));
    }
    Ok(Stated {
        line: lined.line,
        label: lined.label,
        mark: lined.advice.mark,
        split: lined.advice.split,
        mark_line: lined.mark_line,
        kind,
        text: Bytes::new(lined.text),
        tokens: Tokens::new(tokens),
    })
}

// Statements in order, or their first fault.
fn all_stated(alloc: Global, mode: Mode, lines: Vec<Lined>) -> Result<Vec<Stated>, Fault>
    ensures { Gives (λ v. v.items) result (all_stated (limits_of mode) (all_lines lines.items)) }
{
    let mut all = Vec::new(alloc);
    for lined in lines {
        all.push(stated(alloc, mode, lined)?)?;
    }
    Ok(all)
}

/// The statements of a text before `$DATA`, in order, or its first fault: of all its lines first (codes 1, 2, 20 and
/// 21), then of its statements (codes 3, 4 and 6). docs/LANGUAGE.md and docs/REFUSALS.md say both in words.
pub fn statements(alloc: Global, bytes: &[u8], mode: Mode) -> Result<Vec<Stated>, Fault>
    ensures exact { Gives (λ v. v.items) result (statements_of (limits_of mode) bytes.now) }
    ensures unlimited { IfOk result (λ v. statements_of no_limits bytes.now ≡ Ok v.items) }
    ensures covered { IfOk result (λ v. All IsCovered v.items) }
{
    all_stated(alloc, mode, lines_of(alloc, mode, bytes)?)
}
