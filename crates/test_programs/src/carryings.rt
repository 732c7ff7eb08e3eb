//! A table of texts with the variables that carry a tangent, worked out by hand.

use crate::plans::text_of;
use crate::programs::{begin_with, checked, head};
use adj_plan::carrying;
use adj_symbols::Checked;
use adj_tree::{Fault, Head, Memory};
use std::alloc::Global;

// The statements of P(X,N,Y), X being independent and Y dependent, behind declarations of X, Y and T; those of another unit; and a digit for each of
// X, N, Y and T and those of the other unit, which is 1 where the variable carries a tangent.
const PROGRAMS: [(&str, &str, &[u8]); 7] = [
    // The independent and the dependent one.
    ("Y=2", "", b"1010"),
    // T is varied, though it serves nothing.
    ("T=X;Y=2", "", b"1011"),
    // T isn't varied, though it is useful.
    ("T=N;Y=X*T", "", b"1010"),
    // T is varied after the assignment alone.
    ("T=X;T=1;Y=T", "", b"1011"),
    // A is varied at the entry of Q, and hands N a tangent back.
    (
        "CALL Q(X);CALL Q(N)",
        "SUBROUTINE Q(A);INTEGER*8 A;A=1;END",
        b"11101",
    ),
    // An actual that carries one gives its dummy none.
    (
        "Y=1;CALL Q(Y)",
        "SUBROUTINE Q(A);INTEGER*8 A;A=A*A;END",
        b"10100",
    ),
    // A unit that isn't called.
    ("Y=X", "SUBROUTINE R(A);INTEGER*8 A,B;B=A;END", b"101000"),
];

// Whether these variables of a checked program carry a tangent.
fn are_carried(
    alloc: Global,
    checked: &Checked,
    head: &Head,
    expected: &[u8],
) -> Result<bool, Memory> {
    if head.unit >= checked.program().units.as_slice().len() || !checked.fits() {
        return Ok(false);
    }
    let carrying = carrying(alloc, checked, head)?;
    Ok(begin_with(&carrying.carried, expected))
}

fn holds(alloc: Global, statements: &str, other: &str, expected: &[u8]) -> Result<bool, Fault> {
    let text = text_of(alloc, statements, other)?;
    let checked = checked(alloc, text.as_slice())?;
    let head = head(alloc, b"100", b"001")?;
    let holds = are_carried(alloc, &checked, &head, expected)?;
    Ok(holds)
}

#[test]
fn what_carries_a_tangent_is_what_was_worked_out_by_hand(rt: HostRuntime) {
    for case in &PROGRAMS {
        let (statements, other, expected) = *case;
        assert!(rt;
            holds(rt.alloc(), statements, other, expected) == Ok(true),
            "{statements}"
        );
    }
}
