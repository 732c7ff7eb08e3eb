//! Statements and what becomes of them, worked out by hand by docs/KERNEL.md.

use crate::built::{is_text, read};
use adj_norm_statement::call::lower_call;
use adj_norm_statement::locals::Locals;
use adj_norm_statement::target::lower_assignment;
use adj_sets::NameSet;
use adj_tree::{Act, Fault, Memory, Stmt, Stmts};
use std::alloc::Global;

// Writes what becomes of an assignment or of a CALL of G, which writes its first dummy alone.
fn lower_act(
    alloc: Global,
    locals: &mut Locals<'_>,
    act: &Act,
    steps: &mut Vec<Stmt>,
) -> Result<usize, Memory> {
    match act {
        Act::Assign(place, e) => lower_assignment(alloc, locals, 5, place, e, steps),
        Act::Call(unit, actuals) => {
            lower_call(alloc, locals, 5, &[true, false], unit, actuals, steps)
        }
        _ => Ok(0),
    }
}

// Writes what becomes of the first two statements of a list.
fn lower_two(
    alloc: Global,
    locals: &mut Locals<'_>,
    body: &Stmts,
    steps: &mut Vec<Stmt>,
) -> Result<(), Memory> {
    if let Stmts::More(one) = body {
        let _ = lower_act(alloc, locals, &one.first.act, steps)?;
        if let Stmts::More(two) = &one.rest {
            let _ = lower_act(alloc, locals, &two.first.act, steps)?;
        }
    }
    Ok(())
}

fn taken(alloc: Global) -> Result<NameSet, Memory> {
    let mut taken = NameSet::new(alloc)?;
    taken.add(alloc, b"X")?;
    taken.add(alloc, b"ADV2")?;
    Ok(taken)
}

// What the first two statements of a list become, where ADV2 is taken.
fn lowered(alloc: Global, body: &Stmts) -> Result<Stmts, Memory> {
    let taken = taken(alloc)?;
    let mut locals = Locals::new(alloc, &taken, &[])?;
    let mut steps = Vec::new(alloc);
    lower_two(alloc, &mut locals, body, &mut steps)?;
    Stmts::from_vec(alloc, steps)
}

// Whether two statements become these lines.
fn become_those(alloc: Global, statements: &str, lines: &str) -> Result<bool, Fault> {
    let body = read(alloc, statements)?;
    let lowered = lowered(alloc, &body)?;
    Ok(is_text(alloc, lowered, lines)?)
}

// What two statements show, their text and that of what they become.
const STATEMENTS: [(&str, &str, &str); 3] = [
    (
        "choices become IFs, and locals begin again",
        "      X=MAX(X,Y)\n      X=ABS(Y)*MIN(1,Y)\n",
        "      ADV1=X
      ADV2_1=Y
      IF (ADV1.LT.ADV2_1) THEN
      ADV1=ADV2_1
      END IF
      X=ADV1
      ADV1=Y
      IF (ADV1.LT.0) THEN
      ADV1=-ADV1
      END IF
      ADV2_1=1
      ADV3=Y
      IF (ADV3.LT.ADV2_1) THEN
      ADV2_1=ADV3
      END IF
      X=ADV1*ADV2_1
",
    ),
    (
        "elements are set apart and put back",
        "      A(A(I))=A(J)\n      CALL G(A(I),A(J))\n",
        "      ADV1=A(I)
      A(ADV1)=A(J)
      ADV1=I
      ADV2_1=A(ADV1)
      ADV3=A(J)
      CALL G(ADV2_1,ADV3)
      A(ADV1)=ADV2_1
",
    ),
    (
        "a name stands once in a call",
        "      CALL G(X,X)\n      CALL G(MAX(X,Y),X)\n",
        "      ADV1=X
      CALL G(X,ADV1)
      ADV1=X
      ADV2_1=Y
      IF (ADV1.LT.ADV2_1) THEN
      ADV1=ADV2_1
      END IF
      CALL G(ADV1,X)
",
    ),
];

#[test]
fn each_statement_becomes_others(rt: HostRuntime) {
    for case in &STATEMENTS {
        let (shows, source, expected) = *case;
        assert!(rt;
            become_those(rt.alloc(), source, expected) == Ok(true),
            "{shows}"
        );
    }
}
