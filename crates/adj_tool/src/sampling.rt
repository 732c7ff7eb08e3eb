//! The command `sample`.

ghost use Rattle.std.specs.Prelude.{◌≡◌, [], ◌∷◌, ◌++◌, IfOk, OnOk};
ghost use Rattle.adj_tool_answer.specs.Views.{answer_of};
ghost use Rattle.adj_tool_answer.specs.EndingViews.{asked_of};
ghost use Rattle.adj_tool.specs.Sample.{AnswersSample, SamplesAdjoint, last_lines, line_ends, sample_asked, sample_heading, sample_outvars, sample_vars, field_and_steps, snapshots_at_end, summary};

use crate::checking::answer_text;
use crate::task::CheckRequest;
use adj_data::{sample, sample_field, sample_snapshots, sample_steps};
use adj_tool_answer::{Answer, RunRequest, Status, push_number};
use adj_tree::{Memory, Name, NameList};
use std::alloc::Global;

// A list of one name.
fn only(alloc: Global, name: &[u8]) -> Result<NameList, Memory>
    ensures { IfOk result (λ names. names ≡ name.now ∷ []) }
{
    let name = Name::from_slice(alloc, name)?;
    let mut names = Vec::new(alloc);
    names.push(name)?;
    Ok(NameList::new(names))
}

// How the sample is checked.
fn request(alloc: Global) -> Result<CheckRequest, Memory>
    ensures run { IfOk result (λ r. asked_of r.run ≡ sample_asked) }
    ensures vars { IfOk result (λ r. r.vars ≡ sample_vars) }
    ensures outvars { IfOk result (λ r. r.outvars ≡ sample_outvars) }
{
    let run = RunRequest {
        head: Name::from_slice(alloc, b"SAMPLE")?,
        budget: 100_000_000,
        room: 16_777_216,
    };
    let vars = only(alloc, b"U")?;
    let outvars = only(alloc, b"S")?;
    Ok(CheckRequest { run, vars, outvars })
}

// How many lines end in a text.
fn line_ends(text: &[u8]) -> usize
    ensures { result ≡ line_ends text.now }
{
    let mut ends = 0;
    for c in text {
        if *c == b'\n' {
            ends += 1;
        }
    }
    ends
}

// The last two lines of a text.
fn last_two(text: &[u8]) -> &[u8]
    ensures { result.now ≡ last_lines 2 text.now }
{
    let mut ends = line_ends(text);
    let mut rest = text;
    while ends > 2 {
        match rest.split_first() {
            Some((c, behind)) => {
                if *c == b'\n' {
                    ends -= 1;
                }
                rest = behind;
            }
            None => return rest,
        }
    }
    rest
}

// Adds the sizes of the sample.
fn push_sizes(text: &mut Vec<u8>, number: u64) -> Result<(), Memory>
    ensures { OnOk result (text.new.items ≡ text.old.items ++ field_and_steps number) }
{
    push_number(text, b"\nFIELD ", u128::from(sample_field(number)))?;
    push_number(text, b" STEPS ", u128::from(sample_steps(number)))?;
    Ok(())
}

// Adds the number of its snapshots, and ends the line.
fn push_snapshots(text: &mut Vec<u8>, number: u64) -> Result<(), Memory>
    ensures { OnOk result (text.new.items ≡ text.old.items ++ snapshots_at_end number) }
{
    push_number(text, b" SNAPSHOTS ", u128::from(sample_snapshots(number)))?;
    text.push(b'\n')?;
    Ok(())
}

// Adds the number and the sizes of the sample.
fn push_heading(text: &mut Vec<u8>, number: u64) -> Result<(), Memory>
    ensures { OnOk result (text.new.items ≡ text.old.items ++ sample_heading number) }
{
    push_number(text, b"SAMPLE ", u128::from(number))?;
    push_sizes(text, number)?;
    push_snapshots(text, number)?;
    Ok(())
}

// The answer in short, where the check is done.
fn summary(alloc: Global, number: u64, checked: Answer) -> Result<Answer, Memory>
    ensures { IfOk result (λ a. answer_of a ≡ summary number (answer_of checked)) }
{
    if checked.status.number() != 0 {
        return Ok(checked);
    }
    let mut text = Vec::new(alloc);
    push_heading(&mut text, number)?;
    text.extend_from_slice(last_two(checked.text.as_slice()))?;
    Ok(Answer {
        status: Status::Done,
        text,
    })
}

/// The answer of `sample` to a number.
pub(crate) fn sample_answer(alloc: Global, number: u64) -> Result<Answer, Memory>
    ensures answer { IfOk result (λ a. AnswersSample number (answer_of a)) }
    ensures compared { IfOk result (λ a. (answer_of a).status ≡ 0 → SamplesAdjoint number a.text.items) }
{
    let request = request(alloc)?;
    let bytes = sample(alloc, number)?;
    let checked = answer_text(alloc, &request, bytes.as_slice())?;
    summary(alloc, number, checked)
}
