//! Directives.

ghost use Rattle.std.specs.Prelude.{◌≡◌, ◌≤◌, IfOk, Some, length, option_map};
ghost use Rattle.std.specs.List.{prefix_len};
ghost use Rattle.def_text.specs.Char.{is_blank};
ghost use Rattle.def_text.specs.Line.{begins_in_either_case, is_directive, behind_blanks, behind_name, snapshots_of, is_name_part, is_named, name_of, mark_in, operand, operand_of, is_no_checkpoint, splits_call, advice_of};

use crate::line::{are_blank, behind, front, number, push_folded};
use crate::scan::{is_name_part, number_len};
use adj_tree::{Mark, Memory, Name};
use def_text::Advice;
use std::alloc::Global;

// Whether a line begins with a keyword of capitals, in either case.
fn begins_in_either_case(line: &[u8], keyword: &[u8]) -> bool
    ensures { result ≡ begins_in_either_case keyword.now line.now }
{
    for (i, w) in keyword.iter().enumerate() {
        if i >= line.len() || line[i].to_ascii_uppercase() != *w {
            return false;
        }
    }
    true
}

/// Whether the line is a directive.
pub(crate) fn is_directive(line: &[u8]) -> bool
    ensures { result ≡ is_directive line.now }
{
    begins_in_either_case(line, b"C$AD")
}

fn blanks(text: &[u8]) -> usize
    ensures value { result ≡ prefix_len is_blank text.now }
    ensures within { result ≤ length text.now }
{
    text.iter().take_while(|c| **c == b' ').count()
}

// What stands behind blanks, of which there is one at least.
fn behind_blanks(text: &[u8]) -> Option<&[u8]>
    ensures { option_map (λ r. r.now) result ≡ behind_blanks text.now }
{
    let count = blanks(text);
    if count > 0 {
        Some(behind(text, count))
    } else {
        None
    }
}

// What stands behind the name of a directive that gives snapshots.
fn behind_name(text: &[u8]) -> Option<&[u8]>
    ensures { option_map (λ r. r.now) result ≡ behind_name text.now }
{
    if begins_in_either_case(text, b"BINOMIAL-CKP") {
        Some(behind(text, 12))
    } else {
        None
    }
}

// A number of snapshots from 1 to 64, in one or two digits with blanks alone behind them.
fn snapshots_of(text: &[u8]) -> Option<u32>
    ensures { result ≡ snapshots_of text.now }
{
    let count = number_len(text);
    if !(1..=2).contains(&count) || !are_blank(behind(text, count)) {
        return None;
    }
    let snapshots = number(&text[..count]);
    if (1..=64).contains(&snapshots) {
        Some(snapshots)
    } else {
        None
    }
}

// How many characters from the front a name in either case may go on with.
fn name_len(text: &[u8]) -> usize
    ensures value { result ≡ prefix_len is_name_part text.now }
    ensures within { result ≤ length text.now }
{
    text.iter().take_while(|c| is_name_part(**c)).count()
}

// Whether a name stands here, in either case, with blanks alone behind it.
fn is_named(text: &[u8]) -> bool
    ensures { result ≡ is_named text.now }
{
    match text.first() {
        Some(c) => c.is_ascii_alphabetic() && are_blank(behind(text, name_len(text))),
        None => false,
    }
}

// That name, in capitals.
fn name_of(alloc: Global, text: &[u8]) -> Result<Option<Name>, Memory>
    ensures { IfOk result (λ found. found ≡ name_of text.now) }
{
    if !is_named(text) {
        return Ok(None);
    }
    let mut name = Vec::new(alloc);
    push_folded(&mut name, front(text, name_len(text)))?;
    let name = Name::from_slice(alloc, name.as_slice())?;
    Ok(Some(name))
}

// A number of snapshots, or the name of a variable that says it.
fn mark_in(alloc: Global, text: &[u8]) -> Result<Option<Mark>, Memory>
    ensures { IfOk result (λ found. found ≡ mark_in text.now) }
{
    if let Some(snapshots) = snapshots_of(text) {
        return Ok(Some(Mark::Count(snapshots)));
    }
    match name_of(alloc, text)? {
        Some(name) => Ok(Some(Mark::From(name))),
        None => Ok(None),
    }
}

// What stands behind that name and the blanks behind it.
fn operand(line: &[u8]) -> Option<&[u8]>
    ensures { option_map (λ r. r.now) result ≡ operand line.now }
{
    let name = behind_blanks(behind(line, 4))?;
    behind_blanks(behind_name(name)?)
}

// The snapshots that a directive gives.
fn operand_of(alloc: Global, line: &[u8]) -> Result<Option<Mark>, Memory>
    ensures { IfOk result (λ found. found ≡ operand_of line.now) }
{
    match operand(line) {
        Some(text) => mark_in(alloc, text),
        None => Ok(None),
    }
}

// Whether the name of a directive that splits a call stands here, in either case, with blanks alone behind it.
fn is_no_checkpoint(text: &[u8]) -> bool
    ensures { result ≡ is_no_checkpoint (Some text.now) }
{
    begins_in_either_case(text, b"NOCHECKPOINT") && are_blank(behind(text, 12))
}

// Whether a directive splits a call.
fn splits_call(line: &[u8]) -> bool
    ensures { result ≡ splits_call line.now }
{
    match behind_blanks(behind(line, 4)) {
        Some(text) => is_no_checkpoint(text),
        None => false,
    }
}

/// What a directive says, where it has one of its two forms.
pub(crate) fn advice_of(alloc: Global, line: &[u8]) -> Result<Option<Advice>, Memory>
    ensures { IfOk result (λ found. found ≡ advice_of line.now) }
{
    if splits_call(line) {
        return Ok(Some(Advice {
            mark: Mark::Plain,
            split: true,
        }));
    }
    match operand_of(alloc, line)? {
        Some(mark) => Ok(Some(Advice { mark, split: false })),
        None => Ok(None),
    }
}
