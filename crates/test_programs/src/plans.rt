//! A table of texts with all marks of their programs, worked out by hand (docs/ANALYSES.md).

use crate::programs::{checked, head, is_set};
use adj_flow::{Flow, Part};
use adj_plan::plan;
use adj_symbols::Checked;
use adj_tree::{BitFlags, Fault, Flags, Head, Marks, Memory, Name};
use std::alloc::Global;

// The statements of P(X,N,Y), X being independent and Y dependent, behind declarations of X, Y and T; those of another unit; and the marks: each statement's K where it
// is kept and A where it has an adjoint, and the variables that it saves; then of each unit the variables that have a shadow; and then
// of each the dummies that are wanted at its entry.
const PROGRAMS: [(&str, &str, &str); 32] = [
    // Y=X*X: its adjoint reads X.
    ("Y=X*X", "", "-A | XY | X"),
    // Nothing varies, so nothing is adjointed.
    ("Y=2", "", "-- | XY | -"),
    // The constant of a branch has nothing to set to 0.
    (
        "IF (N.LT.1) THEN;Y=X*X;ELSE;Y=2;END IF",
        "",
        "KA -A -- | XY | XN",
    ),
    // The second sets the derivative to 0, and the first serves nothing.
    ("Y=X;Y=1", "", "-- -A | XY | -"),
    // The adjoint reads the other factor alone.
    ("Y=X*N", "", "-A | XY | N"),
    // T serves nothing.
    ("T=X+1;Y=X*X", "", "-- -A | XY | X"),
    // T is read by the adjoint, so it is kept.
    ("T=N+1;Y=X*T", "", "K- -A | XY | N"),
    // T is saved where it is overwritten by what reads it.
    ("T=X*X;T=T*T;Y=T*T", "", "KA KA:T -A | XYT | X"),
    // N is held from its first read on.
    ("Y=X*N;N=N+1;Y=Y*N", "", "-A K-:N -A | XY | N"),
    // N is saved once, where it is first overwritten.
    ("Y=X*N;N=N+1;N=N*2;Y=Y*N", "", "-A K-:N K- -A | XY | N"),
    // What is dropped overwrites nothing.
    ("Y=X*N;N=2;N=3;Y=Y*N", "", "-A -- K-:N -A | XY | N"),
    // Y varies by the turn before.
    ("DO I=1,N;Y=Y+T;T=X;END DO", "", "KA -A -A | XYT | N"),
    // Y is read and overwritten in each turn.
    ("Y=1;DO I=1,N;Y=Y*X;END DO", "", "K- KA KA:Y | XY | XN"),
    // The element and its subscript are read.
    (
        "INTEGER*8 X,A(5);DO I=1,N;Y=Y+A(I)*X;END DO",
        "",
        "KA -A | XY | N",
    ),
    // The entry of the loop overwrites an I that is held.
    ("Y=X*I;DO I=1,N;Y=Y*2;END DO", "", "-A KA:I -A | XY | N"),
    // The DO sets the derivative of I to 0.
    ("I=X;Y=I;DO I=1,N;K=K+1;END DO", "", "-A -A KA -- | XYI | N"),
    // The IF is kept for what it holds.
    (
        "T=1;IF (N.LT.1) THEN;T=2;END IF;Y=X*T",
        "",
        "K- K- K- -A | XY | N",
    ),
    // No derivative goes through a quotient.
    ("Y=X/N", "", "-- | XY | -"),
    // The adjoint reads nothing.
    ("Y=X**1", "", "-A | XY | -"),
    // The adjoint reads the base.
    ("Y=X**3", "", "-A | XY | X"),
    // This power is a constant.
    ("Y=X**0", "", "-- | XY | -"),
    // The adjoint reads base and exponent.
    ("Y=X**N", "", "-A | XY | XN"),
    // The exponent carries no derivative.
    ("Y=N**X", "", "-- | XY | -"),
    // The condition is used at each test.
    (
        "Y=1;K=0;DO WHILE (K.LT.N);Y=Y*X;K=K+1;END DO",
        "",
        "K- K- KA KA:Y K- | XY | XN",
    ),
    // The unit wants its dummy as it was.
    (
        "Y=X;CALL Q(Y)",
        "SUBROUTINE Q(A);INTEGER*8 A;A=A*A;END",
        "KA -A -A | XY A | X A",
    ),
    // The unit overwrites a dummy that varies.
    (
        "Y=X;CALL Q(Y)",
        "SUBROUTINE Q(A);INTEGER*8 A;A=1;END",
        "-- -A -A | XY A | - -",
    ),
    // The call is kept and has no adjoint.
    (
        "CALL Q(N);Y=X*N",
        "SUBROUTINE Q(A);INTEGER*8 A;A=A+1;END",
        "K- -A -- | XY - | N -",
    ),
    // The call overwrites an N that is held.
    (
        "Y=X*N;CALL Q(N);Y=Y*N",
        "SUBROUTINE Q(A);INTEGER*8 A;A=A+1;END",
        "-A K-:N -A -- | XY - | N -",
    ),
    // A unit that isn't called.
    (
        "Y=X",
        "SUBROUTINE R(A);INTEGER*8 A;A=A*A;END",
        "-A -- | XY - | - -",
    ),
    // Extents are wanted.
    (
        "INTEGER*8 X(N);CALL Q(X,N);Y=X(1)",
        "SUBROUTINE Q(A,M);INTEGER*8 A(M);A(1)=A(1)*2;END",
        "-A -A -A | XY A | N M",
    ),
    // The loop is reversed, and its members are needed before it.
    (
        "C$AD BINOMIAL-CKP 2;DO I=1,N;CALL Q(I,X,Y);END DO",
        "SUBROUTINE Q(J,A,B);INTEGER*8 A,B;B=B*A;END",
        "KA -A -A | XY AB | XNY AB",
    ),
    // A kept DO uses the name of its number of snapshots.
    (
        "K=2;C$AD BINOMIAL-CKP K;DO I=1,N;CALL Q(I,X,Y);END DO",
        "SUBROUTINE Q(J,A,B);INTEGER*8 A,B;B=B*A;END",
        "K- KA -A -A | XY AB | XNY AB",
    ),
];

// Adds lines with these statements.
fn add_lines(text: &mut Vec<u8>, statements: &[u8]) -> Result<(), Memory> {
    for line in statements.split(|c| *c == b';') {
        if !line.starts_with(b"C$AD") {
            text.extend_from_slice(b"      ")?;
        }
        text.extend_from_slice(line)?;
        text.push(b'\n')?;
    }
    Ok(())
}

// The text of P with these statements, and of another unit.
pub(crate) fn text_of(alloc: Global, statements: &str, other: &str) -> Result<Vec<u8>, Memory> {
    let mut text = Vec::new(alloc);
    add_lines(&mut text, b"SUBROUTINE P(X,N,Y);INTEGER*8 Y,T")?;
    if !statements.starts_with("INTEGER*8") {
        add_lines(&mut text, b"INTEGER*8 X")?;
    }
    add_lines(&mut text, statements.as_bytes())?;
    add_lines(&mut text, b"END")?;
    if !other.is_empty() {
        add_lines(&mut text, other.as_bytes())?;
    }
    Ok(text)
}

// Adds the names whose flags are set, the first at a place.
fn add_names(out: &mut Vec<u8>, names: &[Name], flags: &Flags, first: usize) -> Result<(), Memory> {
    for (number, name) in names.iter().enumerate() {
        let place = first.checked_add(number).ok_or(Memory)?;
        if is_set(flags, place) {
            out.extend_from_slice(name.bytes())?;
        }
    }
    Ok(())
}

// The same, or a `-` if none is.
fn add_set(out: &mut Vec<u8>, names: &[Name], flags: &Flags, first: usize) -> Result<(), Memory> {
    let before = out.len();
    add_names(out, names, flags, first)?;
    if out.len() == before {
        out.push(b'-')?;
    }
    Ok(())
}

// Adds the variables that a statement saves, behind a colon, if it saves any.
fn add_saved(
    out: &mut Vec<u8>,
    names: &[Name],
    flags: &BitFlags,
    first: usize,
) -> Result<(), Memory> {
    out.push(b':')?;
    let before = out.len();
    for (number, name) in names.iter().enumerate() {
        let place = first.checked_add(number).ok_or(Memory)?;
        if flags.at(place) {
            out.extend_from_slice(name.bytes())?;
        }
    }
    if out.len() == before {
        out.pop();
    }
    Ok(())
}

// Adds the marks of the statement of a number.
fn add_statement(
    out: &mut Vec<u8>,
    width: usize,
    part: &Part<'_>,
    number: usize,
    marks: &Marks,
) -> Result<(), Memory> {
    let first = number.checked_mul(width).ok_or(Memory)?;
    let kept = is_set(&marks.kept.kept, number);
    let adjointed = is_set(&marks.activity.adjointed, number);
    out.push(if kept { b'K' } else { b'-' })?;
    out.push(if adjointed { b'A' } else { b'-' })?;
    add_saved(out, part.variables.as_slice(), &marks.saved.saved, first)?;
    out.push(b' ')?;
    Ok(())
}

// Adds those of the statements of a unit.
fn add_statements(
    out: &mut Vec<u8>,
    width: usize,
    part: &Part<'_>,
    marks: &Marks,
) -> Result<(), Memory> {
    for standing in part.statements.as_slice() {
        add_statement(out, width, part, standing.number, marks)?;
    }
    Ok(())
}

// The marks of a program, as the table has them.
fn shown(alloc: Global, flow: &Flow<'_>, marks: &Marks) -> Result<Vec<u8>, Memory> {
    let mut out = Vec::new(alloc);
    for part in flow.parts.as_slice() {
        add_statements(&mut out, flow.width, part, marks)?;
    }
    out.push(b'|')?;
    for part in flow.parts.as_slice() {
        let first = part.number.checked_mul(flow.width).ok_or(Memory)?;
        out.push(b' ')?;
        add_set(
            &mut out,
            part.variables.as_slice(),
            &marks.activity.shadowed,
            first,
        )?;
    }
    out.extend_from_slice(b" |")?;
    for part in flow.parts.as_slice() {
        let first = part.number.checked_mul(flow.width).ok_or(Memory)?;
        out.push(b' ')?;
        add_set(
            &mut out,
            part.unit.dummies.as_slice(),
            &marks.kept.entry,
            first,
        )?;
    }
    Ok(out)
}

// The marks of a checked program, whose first unit is the head, where the calls at these lines are to be split.
fn answer(
    alloc: Global,
    checked: &Checked,
    head: &Head,
    splits: &[u32],
) -> Result<Vec<u8>, Memory> {
    if head.unit >= checked.program().units.as_slice().len() || !checked.fits() {
        return Ok(Vec::new(alloc));
    }
    let planned = plan(alloc, checked, head, splits)?;
    shown(alloc, &planned.flow, &planned.marks)
}

// Whether the program of these statements has these marks, where the calls at these lines are to be split.
fn has_marks(
    alloc: Global,
    statements: &str,
    other: &str,
    splits: &[u32],
    expected: &str,
) -> Result<bool, Fault> {
    let text = text_of(alloc, statements, other)?;
    let checked = checked(alloc, text.as_slice())?;
    let head = head(alloc, b"100", b"001")?;
    let answer = answer(alloc, &checked, &head, splits)?;
    Ok(answer.as_slice() == expected.as_bytes())
}

#[test]
fn the_marks_are_those_worked_out_by_hand(rt: HostRuntime) {
    for case in &PROGRAMS {
        let (statements, other, expected) = *case;
        assert!(rt;
            has_marks(rt.alloc(), statements, other, &[], expected) == Ok(true),
            "{statements}"
        );
    }
}

// Statements of P and of Q, and their marks where the call in line 5 is to be split, and where it isn't.
const SPLIT: [(&str, &str, &str, &str); 3] = [
    // The call is kept, and needs what Q reads.
    (
        "Y=X;CALL Q(Y)",
        "SUBROUTINE Q(A);INTEGER*8 A;A=A*A;END",
        "KA KA -A | XY A | X A",
        "KA -A -A | XY A | X A",
    ),
    // N is held from the call on, which reads it.
    (
        "Y=X;CALL Q(Y,N);N=N+1;Y=Y*N",
        "SUBROUTINE Q(A,M);INTEGER*8 A,M;A=A*2;K=M;END",
        "KA KA K-:N -A -A -- | XY A | XN -",
        "-A -A K- -A -A -- | XY A | N -",
    ),
    // It has no adjoint, so it isn't split.
    (
        "K=N;CALL Q(K);Y=X*K",
        "SUBROUTINE Q(A);INTEGER*8 A;A=A+1;END",
        "K- K- -A -- | XY - | N -",
        "K- K- -A -- | XY - | N -",
    ),
];

#[test]
fn a_split_call_is_kept_and_saves_nothing(rt: HostRuntime) {
    let alloc = rt.alloc();
    for case in &SPLIT {
        let (statements, other, split, whole) = *case;
        assert!(rt;
            has_marks(alloc, statements, other, &[5], split) == Ok(true),
            "{statements}"
        );
        assert!(rt;
            has_marks(alloc, statements, other, &[4], whole) == Ok(true),
            "{statements}"
        );
    }
}
