//! Checks on the values of arguments: names, lists of names, and numbers.

ghost use Rattle.std.specs.Prelude.{◌≡◌, ◌≢◌, ◌<◌, ◌≤◌, ℕ, List, ◌∷◌, length, slice_index, IfOk, IfSome, MatchOption, Option, option_map, map};
ghost use Rattle.def_text.specs.Char.{upper, number_of};
ghost use Rattle.adj_tool.specs.Arguments.{is_name_argument, name_of, pieces, pieces_behind, names_of, number_argument};

use adj_data::{are_digits, is_name};
use adj_tree::{Memory, Name, NameList};
use std::alloc::Global;

fn is_name_argument(argument: &[u8]) -> bool
    ensures { result ≡ is_name_argument argument.now }
{
    is_name(argument) && argument.len() <= 63
}

// The name of a name argument, in upper case.
fn folded(alloc: Global, argument: &[u8]) -> Result<Name, Memory>
    ensures { IfOk result (λ n. n ≡ map upper argument.now) }
{
    let mut bytes = Vec::new(alloc);
    for c in argument {
        bytes.push(c.to_ascii_uppercase())?;
    }
    Name::from_slice(alloc, bytes.as_slice())
}

// Where the first comma stands.
fn find_comma(argument: &[u8]) -> Option<usize>
    ensures { MatchOption result
        ((k : ℕ) → k < length argument.now → slice_index argument.now k ≢ 44)
        (λ n. (n < length argument.now) × (slice_index argument.now n ≡ 44) × ((k : ℕ) → k < n → slice_index argument.now k ≢ 44)) }
{
    argument.iter().position(|c| *c == b',')
}

// The first piece of a list argument, and what stands behind its comma.
fn split_piece(argument: &[u8]) -> (&[u8], Option<&[u8]>)
    ensures pieces { pieces argument.now ≡ result.0.now ∷ pieces_behind (option_map (λ r. r.now) result.1) }
    ensures shorter { IfSome result.1 (λ r. length r.now < length argument.now) }
{
    match find_comma(argument) {
        Some(end) => (&argument[..end], Some(&argument[end + 1..])),
        None => (argument, None),
    }
}

/// The names of a list argument, in upper case, or none where it is no list argument.
pub(crate) fn names_of(alloc: Global, argument: &[u8]) -> Result<Option<NameList>, Memory>
    ensures { IfOk result (λ r. r ≡ names_of argument.now) }
{
    let mut names = Vec::new(alloc);
    let mut rest = argument;
    loop {
        let (piece, behind) = split_piece(rest);
        if !is_name_argument(piece) {
            return Ok(None);
        }
        let name = folded(alloc, piece)?;
        names.push(name)?;
        match behind {
            Some(next) => rest = next,
            None => return Ok(Some(NameList::new(names))),
        }
    }
}

/// The name of a name argument, in upper case, or none where it is no name argument.
pub(crate) fn name_of(alloc: Global, argument: &[u8]) -> Result<Option<Name>, Memory>
    ensures { IfOk result (λ r. r ≡ name_of argument.now) }
{
    if !is_name_argument(argument) {
        return Ok(None);
    }
    let name = folded(alloc, argument)?;
    Ok(Some(name))
}

// The number that at most 20 digits write.
fn number_of(digits: &[u8]) -> u128
    requires { length digits.now ≤ 20 }
    ensures { result ≡ number_of digits.now }
{
    let mut value = 0u128;
    for c in digits {
        value = value * 10 + u128::from(c.saturating_sub(b'0'));
    }
    value
}

/// The number of a number argument, 1 to 20 digits, where it lies from `least` to `most`.
pub(crate) fn number_argument(least: u64, most: u64, argument: &[u8]) -> Option<u64>
    ensures value { result ≡ number_argument least most argument.now }
    ensures within { IfSome result (λ n. (least ≤ n) × (n ≤ most)) }
{
    if argument.len() > 20 || !are_digits(argument) {
        return None;
    }
    let value = number_of(argument);
    if u128::from(least) <= value && value <= u128::from(most) {
        Some(value as u64)
    } else {
        None
    }
}
