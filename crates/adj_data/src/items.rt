//! Items of a line.

ghost use Rattle.std.specs.Prelude.{◌≡◌, ◌∷◌, [], ◌<◌, ◌≤◌, not, length, map, MatchOption, IfOk};
ghost use Rattle.std.specs.List.{list_all, prefix_len};
ghost use Rattle.def_text.specs.Char.{is_digit, is_blank};
ghost use Rattle.def_text.specs.Line.{is_name_part};
ghost use Rattle.adj_data.specs.Titles.{takes_marks};
ghost use Rattle.adj_data.specs.Items.{texts_in, is_name, is_mark, is_marked, is_title, name_of, are_digits, is_number};

use adj_fixed::is_name_part;
use adj_tree::Memory;
use std::alloc::Global;

// How many blanks stand at the front.
fn blanks(line: &[u8]) -> usize
    ensures value { result ≡ prefix_len is_blank line.now }
    ensures within { result ≤ length line.now }
{
    line.iter().take_while(|c| **c == b' ').count()
}

// How many characters stand before the first blank.
fn others(line: &[u8]) -> usize
    ensures value { result ≡ prefix_len (λ c. not (is_blank c)) line.now }
    ensures within { result ≤ length line.now }
{
    line.iter().take_while(|c| **c != b' ').count()
}

/// The first item of a line, and what stands behind it.
pub(crate) fn next_item(line: &[u8]) -> Option<(&[u8], &[u8])>
    ensures { MatchOption result
        (texts_in line.now ≡ [])
        (λ t. (texts_in line.now ≡ t.0.now ∷ texts_in t.1.now) × (length t.1.now < length line.now)) }
{
    let rest = &line[blanks(line)..];
    let len = others(rest);
    if len == 0 {
        None
    } else {
        Some((&rest[..len], &rest[len..]))
    }
}

fn go_on_a_name(chars: &[u8]) -> bool
    ensures { result ≡ list_all is_name_part chars.now }
{
    chars.iter().all(|c| is_name_part(*c))
}

/// Which items begin entries.
#[derive(Clone, Copy, Debug, PartialEq, Eq)]
pub enum Titles {
    /// Names.
    Names,
    /// Names, and names with `.D` or `.B` behind them.
    NamesAndMarks,
}

/// Whether an item is a name, in either case.
pub fn is_name(item: &[u8]) -> bool
    ensures { result ≡ is_name item.now }
{
    match item.split_first() {
        Some((first, rest)) => first.is_ascii_alphabetic() && go_on_a_name(rest),
        None => false,
    }
}

/// A name in capitals.
pub(crate) fn name_of(alloc: Global, item: &[u8]) -> Result<Vec<u8>, Memory>
    ensures { IfOk result (λ v. v.items ≡ name_of item.now) }
{
    let name = item.iter().map(|c| c.to_ascii_uppercase()).collect(alloc)?;
    Ok(name)
}

// Whether that is `.D` or `.B`.
fn is_mark(item: &[u8]) -> bool
    ensures { result ≡ is_mark item.now }
{
    match item {
        [point, kind] => {
            let kind = kind.to_ascii_uppercase();
            *point == b'.' && (kind == b'D' || kind == b'B')
        }
        _ => false,
    }
}

// Whether an item is a name with a mark behind it.
fn is_marked(item: &[u8]) -> bool
    ensures { result ≡ is_marked item.now }
{
    let end = item.len().saturating_sub(2);
    is_name(&item[..end]) && is_mark(&item[end..])
}

/// Whether an item begins an entry.
pub(crate) fn is_title(titles: Titles, item: &[u8]) -> bool
    ensures { result ≡ is_title (takes_marks titles) item.now }
{
    match titles {
        Titles::Names => is_name(item),
        Titles::NamesAndMarks => is_name(item) || is_marked(item),
    }
}

fn go_on_a_number(chars: &[u8]) -> bool
    ensures { result ≡ list_all is_digit chars.now }
{
    chars.iter().all(|c| c.is_ascii_digit())
}

/// Whether an item is one digit or more.
pub fn are_digits(item: &[u8]) -> bool
    ensures { result ≡ are_digits item.now }
{
    match item.split_first() {
        Some((first, rest)) => first.is_ascii_digit() && go_on_a_number(rest),
        None => false,
    }
}

/// Whether an item is a number.
pub(crate) fn is_number(item: &[u8]) -> bool
    ensures { result ≡ is_number item.now }
{
    match item {
        [b'-', digits @ ..] => are_digits(digits),
        _ => are_digits(item),
    }
}
