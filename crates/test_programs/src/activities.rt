//! Texts, and the activity of their programs.

use crate::programs::{begin_with, checked, head};
use adj_activity::activity;
use adj_plan::carrying;
use adj_symbols::Checked;
use adj_tree::{Fault, Head, Memory};
use std::alloc::Global;

// A text with a digit for each dummy of its first unit that is 1 where it is independent, and where it is dependent; and its activity: a digit for each
// statement, which is 1 where it has an adjoint, and one for each variable, which is 1 where it has a shadow: dummies, declared locals, and implicit ones as they
// appear, of one unit behind those of the other.
type Case = (
    &'static [u8],
    &'static [u8],
    &'static [u8],
    &'static [u8],
    &'static [u8],
);

const CONSTANT: &[u8] = b"      SUBROUTINE P(X,Y)
      INTEGER*8 X,Y
      Y=1
      END
";

const CASES: [Case; 5] = [
    // Y isn't varied, so nothing is to be done;
    (CONSTANT, b"10", b"01", b"0", b"11"),
    // but if it is independent, its shadow is reset.
    (CONSTANT, b"11", b"01", b"1", b"11"),
    // A branch may have no adjoint.
    (
        b"      SUBROUTINE P(X,Y)
      INTEGER*8 X,Y
      IF (X.LT.1) THEN
      Y=X
      ELSE
      Y=1
      END IF
      END
",
        b"10",
        b"01",
        b"110",
        b"11",
    ),
    // Z is varied before Y=Z, and useful after Z=X, by the step of the loop alone.
    (
        b"      SUBROUTINE P(X,Y,N)
      INTEGER*8 X,Y,Z
      DO I=1,N
      Y=Z
      Z=X
      END DO
      END
",
        b"100",
        b"010",
        b"111",
        b"11010",
    ),
    // A is varied at the entry of G and no longer after its statement, so that X isn't varied behind the call.
    (
        b"      SUBROUTINE P(X,Y)
      INTEGER*8 X,Y
      CALL G(X)
      Y=X
      END
      SUBROUTINE G(A)
      INTEGER*8 A
      A=1
      END
",
        b"10",
        b"01",
        b"101",
        b"111",
    ),
];

// Whether a checked program has this activity.
fn is_active(
    alloc: Global,
    checked: &Checked,
    head: &Head,
    adjointed: &[u8],
    shadowed: &[u8],
) -> Result<bool, Memory> {
    if head.unit >= checked.program().units.as_slice().len() || !checked.fits() {
        return Ok(false);
    }
    let carrying = carrying(alloc, checked, head)?;
    let activity = activity(alloc, &carrying.flow, head)?;
    Ok(begin_with(&activity.adjointed, adjointed) && begin_with(&activity.shadowed, shadowed))
}

fn holds(alloc: Global, case: &Case) -> Result<bool, Fault> {
    let (source, vars, outvars, adjointed, shadowed) = *case;
    let checked = checked(alloc, source)?;
    let head = head(alloc, vars, outvars)?;
    let holds = is_active(alloc, &checked, &head, adjointed, shadowed)?;
    Ok(holds)
}

#[test]
fn activity_is_what_was_worked_out_by_hand(rt: HostRuntime) {
    for case in &CASES {
        assert!(rt; holds(rt.alloc(), case) == Ok(true));
    }
}
