//! What is emitted as the tangent of a program, by flags that are given of what carries one. More tangents stand in the golden cases of tests/.

ghost use Rattle.std.specs.Prelude.{◌<◌, length};
ghost use Rattle.adj_tree.specs.View.{procedures_of};
ghost use Rattle.def_kernel.specs.Form.{IsKernel};
ghost use Rattle.adj_weave_units.specs.Flowing.{IsFlowOf};

use crate::programs::{checked, flags, head};
use adj_flow::Flow;
use adj_norm_statement::is_kernel;
use adj_plan::carrying;
use adj_print::text;
use adj_symbols::Checked;
use adj_tangent::{Carried, tangent};
use adj_tree::{Fault, Flags, Head, Memory};
use std::alloc::Global;

// The text of the tangent of a checked program in kernel form, of which this is the flow.
fn emitted(
    alloc: Global,
    checked: &Checked,
    flow: &Flow<'_>,
    head: &Head,
    carried: &Flags,
) -> Result<Vec<u8>, Memory>
    requires head { head.now.unit < length checked.now.program.units }
    requires kernel { IsKernel (procedures_of checked.now.program) }
    requires flow { IsFlowOf (procedures_of checked.now.program) head.now.unit flow.now }
{
    let flags = carried.as_slice();
    let emitted = tangent(alloc, checked, head, Carried { flags, flow })?;
    text(alloc, &emitted)
}

// The same of a checked program, if it is in kernel form, with its first unit as the head. A digit for each dummy of the head tells whether
// it is independent, and one for each place of a variable in each unit whether it carries a tangent.
fn answer(
    alloc: Global,
    checked: &Checked,
    vars: &[u8],
    carried: &[u8],
) -> Result<Vec<u8>, Memory> {
    let program = checked.program();
    let head = head(alloc, vars, b"")?;
    if program.units.as_slice().len() == 0 || !checked.fits() || !is_kernel(program) {
        return Ok(Vec::new(alloc));
    }
    let carrying = carrying(alloc, checked, &head)?;
    let carried = flags(alloc, carried)?;
    emitted(alloc, checked, &carrying.flow, &head, &carried)
}

// Whether this is the tangent of the program of a text.
fn emits(
    alloc: Global,
    source: &[u8],
    vars: &[u8],
    carried: &[u8],
    expected: &[u8],
) -> Result<bool, Fault> {
    let checked = checked(alloc, source)?;
    let answer = answer(alloc, &checked, vars, carried)?;
    Ok(answer.as_slice() == expected)
}

// The tangent of Y is handed back alone, and so is cleared first.
#[test]
fn a_square(rt: HostRuntime) {
    let source: &[u8] = b"      SUBROUTINE P(X,Y)
      INTEGER*8 X,Y
      Y=X*X
      END
";
    let expected: &[u8] = b"      SUBROUTINE P_D(X,XD,Y,YD)
      INTEGER*8 X
      INTEGER*8 XD
      INTEGER*8 Y
      INTEGER*8 YD
      INTEGER*8 ADY1
      YD=0
      ADY1=XD*X+X*XD
      YD=ADY1
      Y=X*X
      END
";
    assert!(rt; emits(rt.alloc(), source, b"10", b"11", expected) == Ok(true));
}
