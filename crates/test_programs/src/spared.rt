//! What is emitted by exact activity, and by flags that are given of what is kept, saved and needed. What is emitted by the flags of a plan stands in the golden
//! cases of tests/.

ghost use Rattle.std.specs.Prelude.{◌≡◌, ◌<◌, ℕ, false, length};
ghost use Rattle.adj_tree.specs.View.{procedures_of};
ghost use Rattle.adj_reach.specs.Edges.{flag};
ghost use Rattle.def_names.specs.Fault.{run_rules};
ghost use Rattle.law_emitted.specs.Checked.{IsChecked};
ghost use Rattle.adj_weave_units.specs.Flowing.{IsFlowOf};

use crate::programs::{checked, flags, head};
use adj_activity::activity;
use adj_flow::Flow;
use adj_norm_statement::is_kernel;
use adj_plan::carrying;
use adj_print::text;
use adj_sweep::steps::MarkedLoops;
use adj_symbols::Checked;
use adj_tree::{BitFlags, Fault, Head, Kept, Marks, Memory, Saved};
use adj_weave::{FoundMarks, Marked, adjoint};
use std::alloc::Global;

// A bit for each digit.
fn bits(alloc: Global, digits: &[u8]) -> Result<BitFlags, Memory> {
    let mut bits = BitFlags::new(alloc, digits.len())?;
    for (place, digit) in digits.iter().enumerate() {
        if *digit == b'1' && place < bits.len() {
            bits.set(place);
        }
    }
    Ok(bits)
}

// A digit for each dummy of the head, whether it is independent and whether it is dependent; for each statement, whether it is kept;
// and for each place of a variable in each unit, and in each statement, whether it is needed at the entry, and saved.
#[derive(Clone, Copy)]
struct Given<'a> {
    vars: &'a [u8],
    outvars: &'a [u8],
    kept: &'a [u8],
    entry: &'a [u8],
    saved: &'a [u8],
}

// The text of what is emitted for a checked program in kernel form, of which this is the flow, where no call is split.
fn emitted(
    alloc: Global,
    checked: &Checked,
    flow: &Flow<'_>,
    head: &Head,
    given: Given<'_>,
) -> Result<Vec<u8>, Memory>
    requires head { head.now.unit < length checked.now.program.units }
    requires checked { IsChecked run_rules (procedures_of checked.now.program) }
    requires flow { IsFlowOf (procedures_of checked.now.program) head.now.unit flow.now }
    requires unsplit { (n : ℕ) → flag flow.now.split n ≡ false }
{
    let activity = activity(alloc, flow, head)?;
    let marks = Marks {
        activity,
        kept: Kept {
            kept: flags(alloc, given.kept)?,
            entry: flags(alloc, given.entry)?,
        },
        saved: Saved {
            saved: bits(alloc, given.saved)?,
        },
    };
    let found = FoundMarks {
        marks: &marks,
        flow,
    };
    let marked = Marked::Found(found);
    let emitted = adjoint(alloc, checked, head, marked, MarkedLoops::Reversed)?;
    text(alloc, &emitted)
}

// The same of a checked program, if it is in kernel form, with its first unit as the head.
fn answer(alloc: Global, checked: &Checked, given: Given<'_>) -> Result<Vec<u8>, Memory> {
    let program = checked.program();
    let head = head(alloc, given.vars, given.outvars)?;
    if program.units.as_slice().len() == 0 || !checked.fits() || !is_kernel(program) {
        return Ok(Vec::new(alloc));
    }
    let carrying = carrying(alloc, checked, &head)?;
    emitted(alloc, checked, &carrying.flow, &head, given)
}

// Whether this is emitted for the program of a text.
fn emits(alloc: Global, source: &[u8], given: Given<'_>, expected: &[u8]) -> Result<bool, Fault> {
    let checked = checked(alloc, source)?;
    let answer = answer(alloc, &checked, given)?;
    Ok(answer.as_slice() == expected)
}

// The last assignment isn't kept; the first saves Y, since the flag says so; N has no shadow.
#[test]
fn a_unit_by_marks(rt: HostRuntime) {
    let source: &[u8] = b"      SUBROUTINE P(X,N,Y)
      INTEGER*8 X,N,Y
      Y=X*N
      Y=Y*X
      END
";
    let given = Given {
        vars: b"100",
        outvars: b"001",
        kept: b"10",
        entry: b"110",
        saved: b"001000",
    };
    let expected: &[u8] = b"      SUBROUTINE P_B(X,XB,N,Y,YB)
      INTEGER*8 X
      INTEGER*8 XB
      INTEGER*8 N
      INTEGER*8 Y
      INTEGER*8 YB
      INTEGER*8 ADW1
      INTEGER*8 ADW2
      CALL PUSHINTEGER8(Y)
      Y=X*N
      XB=0
      ADW1=YB
      YB=0
      ADW2=ADW1*X
      YB=YB+ADW2
      ADW2=ADW1*Y
      XB=XB+ADW2
      CALL POPINTEGER8(Y)
      ADW1=YB
      YB=0
      ADW2=ADW1*N
      XB=XB+ADW2
      YB=0
      END
";
    assert!(rt; emits(rt.alloc(), source, given, expected) == Ok(true));
}
