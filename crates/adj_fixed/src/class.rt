//! Classes of statements.

ghost use Rattle.std.specs.Prelude.{◌≡◌, ◌==◌, ◌+◌, ◌^◌, ◌<◌, ◌≤◌, bytes_eq, length, IfSome};
ghost use Rattle.std.specs.List.{prefix_len};
ghost use Rattle.def_text.specs.Char.{nought};
ghost use Rattle.def_text.specs.Stated.{keyword_len, ending_len};
ghost use Rattle.def_text.specs.Class.{depth_behind, has_open, is_matched, group_len, begins_with_letter, behind_label, is_control, is_do, condition_end, inner, is_if, if_kind, whole, width_of, is_eight, is_integer, is_group, begun, kind_of, class_of};

use crate::line::behind;
use crate::scan::{name_len, number_len};
use def_text::Kind;

// How many parentheses are open behind a character, of so many before it.
fn depth_behind(depth: usize, c: u8) -> usize
    requires { depth < 2 ^ 63 }
    ensures value { result ≡ depth_behind depth c }
    ensures within { result ≤ depth + 1 }
{
    match c {
        b'(' => depth + 1,
        b')' => depth.saturating_sub(1),
        _ => depth,
    }
}

// Whether a character stands outside parentheses.
fn has_open(text: &[u8], sought: u8) -> bool
    ensures { result ≡ has_open sought 0 text.now }
{
    let mut depth = 0usize;
    for c in text {
        if *c == sought && depth == 0 {
            return true;
        }
        depth = depth_behind(depth, *c);
    }
    false
}

/// Whether each parenthesis has its other one.
pub(crate) fn is_matched(text: &[u8]) -> bool
    ensures { result ≡ is_matched 0 text.now }
{
    let mut depth = 0usize;
    for c in text {
        if *c == b')' && depth == 0 {
            return false;
        }
        depth = depth_behind(depth, *c);
    }
    depth == 0
}

// How many characters stand up to the parenthesis that closes the last open one, itself included.
fn group_len(text: &[u8]) -> Option<usize>
    ensures value { result ≡ group_len 0 text.now }
    ensures within { IfSome result (λ n. n ≤ length text.now) }
{
    let mut depth = 0usize;
    for (i, c) in text.iter().enumerate() {
        if *c == b')' && depth == 1 {
            return Some(i + 1);
        }
        depth = depth_behind(depth, *c);
    }
    None
}

fn begins_with_letter(text: &[u8]) -> bool
    ensures { result ≡ begins_with_letter text.now }
{
    match text.first() {
        Some(c) => c.is_ascii_uppercase(),
        None => false,
    }
}

// What stands behind the digits of a label, and behind a comma after these.
fn behind_label(text: &[u8]) -> &[u8]
    ensures { result.now ≡ behind_label text.now }
{
    let count = number_len(text);
    if count > 0 && behind(text, count).starts_with(b",") {
        behind(text, count + 1)
    } else {
        behind(text, count)
    }
}

// A name, `=`, and an open comma behind it.
fn is_control(text: &[u8]) -> bool
    ensures { result ≡ is_control text.now }
{
    let count = name_len(text);
    begins_with_letter(text)
        && behind(text, count).starts_with(b"=")
        && has_open(behind(text, count + 1), b',')
}

fn is_do(text: &[u8]) -> bool
    ensures { result ≡ is_do text.now }
{
    text.starts_with(b"DO") && is_control(behind_label(behind(text, 2)))
}

/// The place behind the parenthesis that closes the condition of an IF, where there is one.
pub(crate) fn condition_end(text: &[u8]) -> Option<usize>
    ensures { result ≡ condition_end text.now }
{
    let count = group_len(behind(text, 2))?;
    Some(count + 2)
}

/// What stands behind the condition of an IF.
pub(crate) fn inner(text: &[u8]) -> &[u8]
    ensures { result.now ≡ inner text.now }
{
    behind(text, condition_end(text).unwrap_or(text.len()))
}

fn is_if(text: &[u8]) -> bool
    ensures { result ≡ is_if text.now }
{
    text.starts_with(b"IF(") && begins_with_letter(inner(text))
}

fn is_keyword(text: &[u8], keyword: &[u8]) -> bool
    ensures { result ≡ bytes_eq text.now keyword.now }
{
    text == keyword
}

// The statements that are a keyword alone.
fn whole(text: &[u8]) -> Option<Kind>
    ensures { result ≡ whole text.now }
{
    if is_keyword(text, b"CONTINUE") {
        Some(Kind::Continue)
    } else if is_keyword(text, b"RETURN") {
        Some(Kind::Return)
    } else if is_keyword(text, b"END") {
        Some(Kind::End)
    } else if is_keyword(text, b"ENDIF") {
        Some(Kind::EndIf)
    } else if is_keyword(text, b"ENDDO") {
        Some(Kind::EndDo)
    } else if is_keyword(text, b"ELSE") {
        Some(Kind::Else)
    } else if is_keyword(text, b"IMPLICITNONE") {
        Some(Kind::ImplicitNone)
    } else {
        None
    }
}

/// The digits of `INTEGER*8`; none where no star stands, or no digit behind it.
pub(crate) fn width_of(text: &[u8]) -> &[u8]
    ensures { result.now ≡ width_of text.now }
{
    if behind(text, 7).starts_with(b"*") {
        let digits = behind(text, 8);
        &digits[..number_len(digits)]
    } else {
        &[]
    }
}

fn zeros(digits: &[u8]) -> usize
    ensures value { result ≡ prefix_len (λ d. d == nought) digits.now }
    ensures within { result ≤ length digits.now }
{
    digits.iter().take_while(|d| **d == b'0').count()
}

// Leading zeros, then an 8.
fn is_eight(digits: &[u8]) -> bool
    ensures { result ≡ is_eight digits.now }
{
    is_keyword(behind(digits, zeros(digits)), b"8")
}

fn is_integer(text: &[u8]) -> bool
    ensures { result ≡ is_integer text.now }
{
    let digits = width_of(text);
    digits.is_empty() || is_eight(digits)
}

// Whether the parenthesis that opens a text closes at its end.
fn is_group(text: &[u8]) -> bool
    ensures { result ≡ is_group text.now }
{
    group_len(text).unwrap_or(0) == text.len()
}

// The statements that begin with their keyword.
fn begun(text: &[u8]) -> Option<Kind>
    ensures { result ≡ begun text.now }
{
    if text.starts_with(b"ELSEIF(") && text.ends_with(b")THEN") {
        Some(Kind::ElseIf)
    } else if text.starts_with(b"DOWHILE(") && is_group(behind(text, 7)) {
        Some(Kind::DoWhile)
    } else if text.starts_with(b"SUBROUTINE") {
        Some(Kind::Subroutine)
    } else if text.starts_with(b"INTEGER") {
        is_integer(text).then_some(Kind::Integer)
    } else if text.starts_with(b"CALL") {
        Some(Kind::Call)
    } else if text.starts_with(b"COMMON/") {
        Some(Kind::Common)
    } else {
        None
    }
}

fn if_kind(text: &[u8]) -> Kind
    ensures { result ≡ if_kind text.now }
{
    if is_keyword(inner(text), b"THEN") {
        Kind::BlockIf
    } else {
        Kind::LogicalIf
    }
}

/// The class of a text, the first that fits; none where it has none.
#[tactic(auto, using(def_text::proofs::Fitting::kind_fits), unfolding(def_text::specs::Class::kind_of))]
pub(crate) fn kind_of(text: &[u8]) -> Option<Kind>
    ensures value { result ≡ kind_of text.now }
    ensures fits { IfSome result (λ kind. keyword_len kind text.now + ending_len kind ≤ length text.now) }
{
    if is_do(text) {
        Some(Kind::Do)
    } else if is_if(text) {
        Some(if_kind(text))
    } else if has_open(text, b'=') {
        Some(Kind::Assign)
    } else {
        whole(text).or(begun(text))
    }
}

/// The class of a statement: what stands behind the condition of a logical IF has one too.
pub(crate) fn class_of(text: &[u8]) -> Option<Kind>
    ensures value { result ≡ class_of text.now }
    ensures fits { IfSome result (λ kind. keyword_len kind text.now + ending_len kind ≤ length text.now) }
{
    match kind_of(text)? {
        Kind::LogicalIf => {
            kind_of(inner(text))?;
            Some(Kind::LogicalIf)
        }
        kind => Some(kind),
    }
}
