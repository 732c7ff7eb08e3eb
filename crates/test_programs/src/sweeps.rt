//! The sweeps of small bodies with full marks, against statements that were worked out by the rules of docs/EMITTED.md.

use crate::built::{Called, is_text, listed, names, no_callees, one_callee, read};
use adj_naming::role::Role;
use adj_sets::NameSet;
use adj_sweep::bodies::{Body, PairBody};
use adj_sweep::callees::{Callees, Dummy};
use adj_sweep::plan::Plan;
use adj_sweep::steps::MarkedLoops;
use adj_sweep_assignment::Marking;
use adj_tree::{Fault, Memory, Stmts, boxed};
use std::alloc::Global;

// The scalars X, Y and I are the variables, and there are an IF and a loop.
const SCALARS: Called<'static> = Called {
    variables: &[b"X", b"Y", b"I"],
    shadows: &[b"XB", b"YB", b"IB"],
    helpers: &[
        (Role::Control, 0),
        (Role::Count, 1),
        (Role::First, 1),
        (Role::Stride, 1),
        (Role::Turn, 1),
    ],
    helper_names: &[b"ADC", b"ADL1", b"ADM1", b"ADI1", b"ADJ1"],
};

// Whether these lines are the adjoint of a body, where the shadow of Y is cleared between the sweeps and that of X at the end.
fn is_adjoint(
    alloc: Global,
    called: &Called,
    callees: &Callees,
    statements: &Stmts,
    lines: &str,
) -> Result<bool, Memory> {
    let names = names(alloc, called)?;
    let arrays = boxed(alloc, NameSet::new(alloc)?)?;
    let marks: Marking<'static> = Marking::Full;
    let plan = Plan {
        names: &names,
        marks: &marks,
        loops: MarkedLoops::Reversed,
        arrays: &arrays,
        callees,
    };
    let at_turn = listed(alloc, &[b"Y"])?;
    let at_end = listed(alloc, &[b"X"])?;
    let body = Body {
        statements,
        number: 0,
        line: 1,
        at_turn: at_turn.as_slice(),
        at_end: at_end.as_slice(),
    };
    is_text(alloc, plan.adjoint_body(alloc, &body)?, lines)
}

// The same of statements where no unit is known.
fn has_adjoint(alloc: Global, statements: &str, lines: &str) -> Result<bool, Fault> {
    let body = read(alloc, statements)?;
    let callees = no_callees(alloc)?;
    Ok(is_adjoint(alloc, &SCALARS, &callees, &body, lines)?)
}

// Statements and their adjoint.
const BODIES: [(&str, &str); 2] = [
    // the part of an IF that ran is told
    (
        "      IF (Y.GT.0) THEN\n      X=1\n      END IF\n",
        "      IF (Y.GT.0) THEN
      CALL PUSHINTEGER8(X)
      X=1
      CALL PUSHCONTROL1B(1)
      ELSE
      CALL PUSHCONTROL1B(0)
      END IF
      YB=0
      CALL POPCONTROL1B(ADC)
      IF (ADC.EQ.1) THEN
      CALL POPINTEGER8(X)
      XB=0
      END IF
      XB=0
",
    ),
    // the turns of a loop are counted
    (
        "      DO I=1,3,2\n      X=1\n      END DO\n",
        "      CALL PUSHINTEGER8(I)
      ADM1=1
      ADI1=2
      ADL1=0
      DO I=ADM1,3,ADI1
      CALL PUSHINTEGER8(X)
      X=1
      ADL1=ADL1+1
      END DO
      CALL PUSHINTEGER8(ADM1)
      CALL PUSHINTEGER8(ADI1)
      CALL PUSHINTEGER8(ADL1)
      YB=0
      CALL POPINTEGER8(ADL1)
      CALL POPINTEGER8(ADI1)
      CALL POPINTEGER8(ADM1)
      DO ADJ1=ADL1-1,0,-1
      I=ADM1+ADJ1*ADI1
      CALL POPINTEGER8(X)
      XB=0
      END DO
      CALL POPINTEGER8(I)
      IB=0
      XB=0
",
    ),
];

#[test]
fn each_body_has_its_adjoint(rt: HostRuntime) {
    for case in &BODIES {
        let (statements, lines) = *case;
        assert!(rt;
            has_adjoint(rt.alloc(), statements, lines) == Ok(true),
            "{statements}"
        );
    }
}

// Whether these lines are the forward body for split calls that a plan makes of a body.
fn is_forth(
    alloc: Global,
    plan: &Plan<'_>,
    body: &PairBody<'_>,
    lines: &str,
) -> Result<bool, Memory> {
    is_text(alloc, plan.forth_body(alloc, body)?, lines)
}

// The same of the backward body.
fn is_back(
    alloc: Global,
    plan: &Plan<'_>,
    body: &PairBody<'_>,
    lines: &str,
) -> Result<bool, Memory> {
    is_text(alloc, plan.back_body(alloc, body)?, lines)
}

// Whether these lines are both bodies that are made of a body for split calls, where Y and I are left on the tape.
fn is_pair(alloc: Global, statements: &str, forth: &str, back: &str) -> Result<bool, Fault> {
    let read = read(alloc, statements)?;
    let names = names(alloc, &SCALARS)?;
    let arrays = boxed(alloc, NameSet::new(alloc)?)?;
    let callees = no_callees(alloc)?;
    let marks: Marking<'static> = Marking::Full;
    let plan = Plan {
        names: &names,
        marks: &marks,
        loops: MarkedLoops::Reversed,
        arrays: &arrays,
        callees: &callees,
    };
    let left = listed(alloc, &[b"Y", b"I"])?;
    let body = PairBody {
        statements: &read,
        number: 0,
        line: 1,
        left: left.as_slice(),
    };
    Ok(
        is_forth(alloc, &plan, &body, forth) == Ok(true)
            && is_back(alloc, &plan, &body, back) == Ok(true),
    )
}

// What is pushed at the end of the forward body is popped at the beginning of the backward one, in the opposite order.
const PAIRED: &str = "      DO I=1,3,2\n      X=1\n      END DO\n";

const FORTH: &str = "      CALL PUSHINTEGER8(I)
      ADM1=1
      ADI1=2
      ADL1=0
      DO I=ADM1,3,ADI1
      CALL PUSHINTEGER8(X)
      X=1
      ADL1=ADL1+1
      END DO
      CALL PUSHINTEGER8(ADM1)
      CALL PUSHINTEGER8(ADI1)
      CALL PUSHINTEGER8(ADL1)
      CALL PUSHINTEGER8(Y)
      CALL PUSHINTEGER8(I)
";

const BACK: &str = "      CALL POPINTEGER8(I)
      CALL POPINTEGER8(Y)
      CALL POPINTEGER8(ADL1)
      CALL POPINTEGER8(ADI1)
      CALL POPINTEGER8(ADM1)
      DO ADJ1=ADL1-1,0,-1
      I=ADM1+ADJ1*ADI1
      CALL POPINTEGER8(X)
      XB=0
      END DO
      CALL POPINTEGER8(I)
      IB=0
";

#[test]
fn a_body_has_a_forward_and_a_backward_body(rt: HostRuntime) {
    assert!(rt; is_pair(rt.alloc(), PAIRED, FORTH, BACK) == Ok(true));
}

// The scalars X, Y, Z and I are the variables, and there are marked loops.
const STEPS: Called<'static> = Called {
    variables: &[b"X", b"Y", b"Z", b"I"],
    shadows: &[b"XB", b"YB", b"ZB", b"IB"],
    helpers: &[
        (Role::Count, 1),
        (Role::First, 1),
        (Role::Stride, 1),
        (Role::Turn, 1),
        (Role::Entry, 1),
        (Role::Entries, 1),
        (Role::Kind, 1),
        (Role::Lower, 1),
        (Role::Upper, 1),
        (Role::Slots, 1),
    ],
    helper_names: &[
        b"ADL1", b"ADM1", b"ADI1", b"ADJ1", b"ADK1", b"ADN1", b"ADA1", b"ADF1", b"ADT1", b"ADS1",
    ],
};

// The dummies of the step unit: the first is written and read, the second is written and needed by the adjoint, the third is written
// alone, and the fourth isn't written and has no shadow.
const STEP: [Dummy; 4] = [
    Dummy {
        written: true,
        read: true,
        member: false,
        shadowed: true,
    },
    Dummy {
        written: true,
        read: false,
        member: true,
        shadowed: true,
    },
    Dummy {
        written: true,
        read: false,
        member: false,
        shadowed: true,
    },
    Dummy {
        written: false,
        read: true,
        member: true,
        shadowed: false,
    },
];

// Marked loops, and their adjoints: one with a number of snapshots, and one with the variable Z for it, which its turns write.
const MARKED: [(&str, &str); 2] = [
    (
        "C$AD BINOMIAL-CKP 5\n      DO I=1,3\n      CALL G(X,Y,Z,I)\n      END DO\n",
        "      CALL PUSHINTEGER8(I)
      ADM1=1
      ADI1=1
      ADL1=0
      CALL PUSHINTEGER8(X)
      CALL PUSHINTEGER8(Y)
      CALL PUSHINTEGER8(Z)
      CALL PUSHINTEGER8(X)
      CALL PUSHINTEGER8(Y)
      DO I=ADM1,3,ADI1
      CALL G(X,Y,Z,I)
      ADL1=ADL1+1
      END DO
      CALL PUSHINTEGER8(ADM1)
      CALL PUSHINTEGER8(ADI1)
      CALL PUSHINTEGER8(ADL1)
      YB=0
      CALL POPINTEGER8(ADL1)
      CALL POPINTEGER8(ADI1)
      CALL POPINTEGER8(ADM1)
      CALL POPINTEGER8(Y)
      CALL POPINTEGER8(X)
      CALL ADBEG(ADL1,5)
      CALL ADACTN(ADL1,5,ADN1)
      DO ADK1=1,ADN1
      CALL ADACT(ADL1,5,ADK1,ADA1,ADF1,ADT1)
      IF (ADA1.EQ.1) THEN
      CALL PUSHINTEGER8(X)
      CALL PUSHINTEGER8(Y)
      END IF
      IF (ADA1.EQ.2) THEN
      DO ADJ1=ADF1,ADT1-1
      I=ADM1+ADJ1*ADI1
      CALL G(X,Y,Z,I)
      END DO
      END IF
      IF (ADA1.EQ.3) THEN
      I=ADM1+ADF1*ADI1
      CALL G_B(X,XB,Y,YB,Z,ZB,I)
      END IF
      IF (ADA1.EQ.4) THEN
      CALL POPINTEGER8(Y)
      CALL POPINTEGER8(X)
      CALL PUSHINTEGER8(X)
      CALL PUSHINTEGER8(Y)
      END IF
      IF (ADA1.EQ.5) THEN
      CALL POPINTEGER8(Y)
      CALL POPINTEGER8(X)
      END IF
      END DO
      CALL ADEND
      CALL POPINTEGER8(Z)
      CALL POPINTEGER8(Y)
      CALL POPINTEGER8(X)
      CALL POPINTEGER8(I)
      IB=0
      XB=0
",
    ),
    (
        "C$AD BINOMIAL-CKP Z\n      DO I=1,3\n      CALL G(X,Y,Z,I)\n      END DO\n",
        "      CALL PUSHINTEGER8(I)
      ADM1=1
      ADI1=1
      ADS1=MIN(MAX(Z,1),64)
      ADL1=0
      CALL PUSHINTEGER8(X)
      CALL PUSHINTEGER8(Y)
      CALL PUSHINTEGER8(Z)
      CALL PUSHINTEGER8(X)
      CALL PUSHINTEGER8(Y)
      DO I=ADM1,3,ADI1
      CALL G(X,Y,Z,I)
      ADL1=ADL1+1
      END DO
      CALL PUSHINTEGER8(ADM1)
      CALL PUSHINTEGER8(ADI1)
      CALL PUSHINTEGER8(ADS1)
      CALL PUSHINTEGER8(ADL1)
      YB=0
      CALL POPINTEGER8(ADL1)
      CALL POPINTEGER8(ADS1)
      CALL POPINTEGER8(ADI1)
      CALL POPINTEGER8(ADM1)
      CALL POPINTEGER8(Y)
      CALL POPINTEGER8(X)
      CALL ADBEG(ADL1,ADS1)
      CALL ADACTN(ADL1,ADS1,ADN1)
      DO ADK1=1,ADN1
      CALL ADACT(ADL1,ADS1,ADK1,ADA1,ADF1,ADT1)
      IF (ADA1.EQ.1) THEN
      CALL PUSHINTEGER8(X)
      CALL PUSHINTEGER8(Y)
      END IF
      IF (ADA1.EQ.2) THEN
      DO ADJ1=ADF1,ADT1-1
      I=ADM1+ADJ1*ADI1
      CALL G(X,Y,Z,I)
      END DO
      END IF
      IF (ADA1.EQ.3) THEN
      I=ADM1+ADF1*ADI1
      CALL G_B(X,XB,Y,YB,Z,ZB,I)
      END IF
      IF (ADA1.EQ.4) THEN
      CALL POPINTEGER8(Y)
      CALL POPINTEGER8(X)
      CALL PUSHINTEGER8(X)
      CALL PUSHINTEGER8(Y)
      END IF
      IF (ADA1.EQ.5) THEN
      CALL POPINTEGER8(Y)
      CALL POPINTEGER8(X)
      END IF
      END DO
      CALL ADEND
      CALL POPINTEGER8(Z)
      CALL POPINTEGER8(Y)
      CALL POPINTEGER8(X)
      CALL POPINTEGER8(I)
      IB=0
      XB=0
",
    ),
];

// Whether these lines are the adjoint of statements, where G is known.
fn has_adjoint_with_steps(alloc: Global, statements: &str, lines: &str) -> Result<bool, Fault> {
    let body = read(alloc, statements)?;
    let callees = one_callee(alloc, b"G", b"G_B", &STEP)?;
    Ok(is_adjoint(alloc, &STEPS, &callees, &body, lines)?)
}

#[test]
fn marked_loops_are_reversed_by_schedules(rt: HostRuntime) {
    for case in &MARKED {
        let (statements, lines) = *case;
        let holds = has_adjoint_with_steps(rt.alloc(), statements, lines);
        assert!(rt; holds == Ok(true), "{statements}");
    }
}
