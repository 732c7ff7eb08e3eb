//! The adjoints of small assignments with full marks, against statements that were worked out by the rules of docs/EMITTED.md.

use crate::built::{Called, is_text, names, read};
use adj_naming::role::Role;
use adj_sweep_assignment::Marking;
use adj_sweep_assignment::site::Site;
use adj_tree::{Act, Fault, Memory, Stmts};
use std::alloc::Global;

// X, Y and the array A are the variables.
const PLAIN: Called<'static> = Called {
    variables: &[b"X", b"Y", b"A"],
    shadows: &[b"XB", b"YB", b"AB"],
    helpers: &[
        (Role::Work, 1),
        (Role::Work, 2),
        (Role::Work, 3),
        (Role::Work, 4),
        (Role::Temp, 1),
        (Role::Temp, 2),
    ],
    helper_names: &[b"ADW1", b"ADW2", b"ADW3", b"ADW4", b"ADZ1", b"ADZ2"],
};

// Whether these lines are the adjoint of the first of these statements, which is an assignment.
fn is_adjoint(alloc: Global, body: &Stmts, lines: &str) -> Result<bool, Memory> {
    let names = names(alloc, &PLAIN)?;
    let marks: Marking<'static> = Marking::Full;
    let site = Site {
        names: &names,
        marks: &marks,
        number: 0,
        line: 1,
    };
    let Stmts::More(row) = body else {
        return Ok(false);
    };
    let Act::Assign(target, e) = &row.first.act else {
        return Ok(false);
    };
    let code = site.adjoint(alloc, target, e, Stmts::Empty)?;
    is_text(alloc, code, lines)
}

// Assignments and their adjoints.
const ASSIGNMENTS: [(&str, &str); 2] = [
    // a product of sums uses temporaries
    (
        "      A(X)=-((X-Y)*(X+Y))\n",
        "      ADZ1=X-Y
      ADZ2=X+Y
      ADW1=AB(X)
      AB(X)=0
      ADW2=-ADW1
      ADW3=ADW2*ADZ2
      XB=XB+ADW3
      ADW4=-ADW3
      YB=YB+ADW4
      ADW3=ADW2*ADZ1
      XB=XB+ADW3
      YB=YB+ADW3
",
    ),
    // the exponent of a power is guarded
    (
        "      Y=A(X)**(Y+1)\n",
        "      ADZ1=Y+1
      ADW1=YB
      YB=0
      ADW2=ADW1*ADZ1*A(X)**MAX(ADZ1-1,0)
      AB(X)=AB(X)+ADW2
",
    ),
];

fn has_adjoint(alloc: Global, statement: &str, lines: &str) -> Result<bool, Fault> {
    let body = read(alloc, statement)?;
    Ok(is_adjoint(alloc, &body, lines)?)
}

#[test]
fn each_assignment_has_its_adjoint(rt: HostRuntime) {
    for case in &ASSIGNMENTS {
        let (statement, lines) = *case;
        assert!(rt;
            has_adjoint(rt.alloc(), statement, lines) == Ok(true),
            "{statement}"
        );
    }
}
