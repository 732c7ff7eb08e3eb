//! Lines, and what they are.

ghost use Rattle.std.specs.Prelude.{◌≡◌, ◌≢◌, ◌||◌, ◌+◌, ◌-◌, ◌<◌, ◌≤◌, ◌∷◌, ◌++◌, ℕ, MatchOption, OnOk, length, take, drop, slice_index};
ghost use Rattle.std.specs.List.{list_all};
ghost use Rattle.def_text.specs.Char.{is_blank, are_blank, is_digit, is_allowed, folded, digits_of, number_of};
ghost use Rattle.def_text.specs.Line.{cut_lines, without_cr, next_number, is_data, column, is_comment, is_continuation, body, label_of};

use std::alloc::AllocError;

// Where the first line feed stands.
fn find_end(bytes: &[u8]) -> Option<usize>
    ensures { MatchOption result
        ((k : ℕ) → k < length bytes.now → slice_index bytes.now k ≢ 10)
        (λ n. (n < length bytes.now) × (slice_index bytes.now n ≡ 10) × ((k : ℕ) → k < n → slice_index bytes.now k ≢ 10)) }
{
    bytes.iter().position(|c| *c == b'\n')
}

/// The first line, up to its line feed, and what follows it.
pub fn split_line(bytes: &[u8]) -> (&[u8], &[u8])
    requires { 0 < length bytes.now }
    ensures lines { cut_lines bytes.now ≡ result.0.now ∷ cut_lines result.1.now }
    ensures rest { length result.1.now ≡ length bytes.now - (length result.0.now + 1) }
{
    match find_end(bytes) {
        Some(end) => (&bytes[..end], &bytes[end + 1..]),
        None => (bytes, &[]),
    }
}

/// A line without the carriage return at its end.
pub fn without_cr(line: &[u8]) -> &[u8]
    ensures { result.now ≡ without_cr line.now }
{
    let len = line.len();
    if len > 0 && line[len - 1] == b'\r' {
        &line[..len - 1]
    } else {
        line
    }
}

/// The number of the next line.
pub fn next_number(number: u32) -> u32
    ensures { result ≡ next_number number }
{
    number.saturating_add(1)
}

/// At most so many characters from the front.
pub(crate) fn front(line: &[u8], count: usize) -> &[u8]
    ensures { result.now ≡ take count line.now }
{
    &line[..count.min(line.len())]
}

/// What stands behind so many characters.
#[tactic(auto, using(std::proofs::lemmas::List::drop_min))]
pub(crate) fn behind(line: &[u8], count: usize) -> &[u8]
    ensures { result.now ≡ drop count line.now }
{
    let (_, rest) = line.split_at(count.min(line.len()));
    rest
}

/// Whether all characters are blanks.
pub(crate) fn are_blank(chars: &[u8]) -> bool
    ensures { result ≡ are_blank chars.now }
{
    chars.iter().all(|c| *c == b' ')
}

/// Whether the line is `$DATA`.
pub(crate) fn is_data(line: &[u8]) -> bool
    ensures { result ≡ is_data line.now }
{
    line.starts_with(b"$DATA") && are_blank(behind(line, 5))
}

/// A column, which counts from 1 and is blank where it is missing.
pub(crate) fn column(line: &[u8], number: usize) -> u8
    requires { 0 < number }
    ensures { result ≡ column line.now number }
{
    if number - 1 < line.len() {
        line[number - 1]
    } else {
        b' '
    }
}

/// Whether the line is a comment, where it is no directive.
pub(crate) fn is_comment(line: &[u8]) -> bool
    ensures { result ≡ is_comment line.now }
{
    matches!(column(line, 1), b'C' | b'c' | b'*') || are_blank(front(line, 72))
}

/// Whether the line is a continuation, where it is neither a directive nor a comment.
pub(crate) fn is_continuation(line: &[u8]) -> bool
    ensures { result ≡ is_continuation line.now }
{
    are_blank(front(line, 5)) && column(line, 6) != b' ' && column(line, 6) != b'0'
}

/// Columns 7 to 72.
pub(crate) fn body(line: &[u8]) -> &[u8]
    ensures { result.now ≡ body line.now }
{
    front(behind(line, 6), 66)
}

fn is_allowed(c: u8) -> bool
    ensures { result ≡ is_allowed c }
{
    c.is_ascii_alphanumeric() || matches!(c, b' ' | b'=' | b'('..=b'/' | b'_')
}

/// Whether columns 7 to 72 may hold all these characters.
pub(crate) fn are_allowed(chars: &[u8]) -> bool
    ensures { result ≡ list_all is_allowed chars.now }
{
    chars.iter().all(|c| is_allowed(*c))
}

/// Adds characters without blanks, in capitals.
pub(crate) fn push_folded(text: &mut Vec<u8>, chars: &[u8]) -> Result<(), AllocError>
    ensures { OnOk result (text.new.items ≡ text.old.items ++ folded chars.now) }
{
    for c in chars {
        if *c != b' ' {
            text.push(c.to_ascii_uppercase())?;
        }
    }
    Ok(())
}

/// The number that the digits among a few characters write.
pub(crate) fn number(chars: &[u8]) -> u32
    requires { length chars.now ≤ 5 }
    ensures { result ≡ number_of (digits_of chars.now) }
{
    let mut number = 0u32;
    for c in chars {
        if c.is_ascii_digit() {
            number = number * 10 + u32::from(*c - b'0');
        }
    }
    number
}

fn are_label(columns: &[u8]) -> bool
    ensures { result ≡ list_all (λ c. is_blank c || is_digit c) columns.now }
{
    columns.iter().all(|c| *c == b' ' || c.is_ascii_digit())
}

/// The label in columns 1 to 5, or 0 where they are blank; none where they hold something else.
pub(crate) fn label_of(line: &[u8]) -> Option<u32>
    ensures { result ≡ label_of line.now }
{
    let columns = front(line, 5);
    if are_blank(columns) {
        return Some(0);
    }
    let label = number(columns);
    if are_label(columns) && label > 0 {
        Some(label)
    } else {
        None
    }
}
