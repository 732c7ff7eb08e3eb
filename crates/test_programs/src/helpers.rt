//! The helpers of small bodies with full marks, against those that the rules of docs/EMITTED.md say.

use crate::built::{no_callees, read};
use adj_naming::role::{Helper, Role};
use adj_sweep::steps::MarkedLoops;
use adj_sweep::used::helpers_used;
use adj_sweep::uses::Known;
use adj_sweep_assignment::Marking;
use adj_tree::{Fault, Memory, Stmts};
use std::alloc::Global;

// Whether a body uses these helpers.
fn uses(
    alloc: Global,
    loops: MarkedLoops,
    body: &Stmts,
    wanted: &[(Role, usize)],
) -> Result<bool, Memory> {
    let marks: Marking<'static> = Marking::Full;
    let callees = no_callees(alloc)?;
    let known = Known {
        marks: &marks,
        loops,
        callees: &callees,
    };
    let mut helpers = Vec::new(alloc);
    for (role, number) in wanted {
        helpers.push(Helper {
            role: *role,
            number: *number,
        })?;
    }
    let found = helpers_used(alloc, &known, 0, body)?;
    Ok(found.as_slice() == helpers.as_slice())
}

// Statements, and the helpers of their adjoint.
const BODIES: [(MarkedLoops, &str, &[(Role, usize)]); 5] = [
    // a branch in a loop
    (
        MarkedLoops::Reversed,
        "      DO I=1,3\n      IF (X.LT.1) THEN\n      X=X*(-X)\n      END IF\n      END DO\n",
        &[
            (Role::Control, 0),
            (Role::Count, 1),
            (Role::First, 1),
            (Role::Stride, 1),
            (Role::Turn, 1),
            (Role::Work, 1),
            (Role::Work, 2),
            (Role::Work, 3),
            (Role::Temp, 1),
        ],
    ),
    // The turns of the DO WHILE are gone through backward, since the DO saves its variable; those of the DO aren't.
    (
        MarkedLoops::Reversed,
        "      DO WHILE (X.LT.1)\n      DO I=1,3\n      END DO\n      END DO\n",
        &[(Role::Count, 1), (Role::Turn, 1)],
    ),
    // a marked loop whose turns call a step unit, reversed by a schedule
    (
        MarkedLoops::Reversed,
        "C$AD BINOMIAL-CKP 5\n      DO I=1,3\n      CALL G(X,I)\n      END DO\n",
        &[
            (Role::Count, 1),
            (Role::First, 1),
            (Role::Stride, 1),
            (Role::Turn, 1),
            (Role::Entry, 1),
            (Role::Entries, 1),
            (Role::Kind, 1),
            (Role::Lower, 1),
            (Role::Upper, 1),
        ],
    ),
    // the same where a variable gives the number of snapshots, and beside it one with a number of its own
    (
        MarkedLoops::Reversed,
        "C$AD BINOMIAL-CKP N\n      DO I=1,3\n      CALL G(X,I)\n      END DO\nC$AD BINOMIAL-CKP 5\n      DO I=1,3\n      CALL G(X,I)\n      END DO\n",
        &[
            (Role::Count, 1),
            (Role::First, 1),
            (Role::Stride, 1),
            (Role::Turn, 1),
            (Role::Entry, 1),
            (Role::Entries, 1),
            (Role::Kind, 1),
            (Role::Lower, 1),
            (Role::Upper, 1),
            (Role::Slots, 1),
        ],
    ),
    // the first as a loop as others
    (
        MarkedLoops::Plain,
        "C$AD BINOMIAL-CKP 5\n      DO I=1,3\n      CALL G(X,I)\n      END DO\n",
        &[
            (Role::Count, 1),
            (Role::First, 1),
            (Role::Stride, 1),
            (Role::Turn, 1),
        ],
    ),
];

fn has_helpers(
    alloc: Global,
    loops: MarkedLoops,
    statements: &str,
    wanted: &[(Role, usize)],
) -> Result<bool, Fault> {
    let body = read(alloc, statements)?;
    Ok(uses(alloc, loops, &body, wanted)?)
}

#[test]
fn each_body_uses_its_helpers(rt: HostRuntime) {
    for case in &BODIES {
        let (loops, statements, wanted) = *case;
        assert!(rt;
            has_helpers(rt.alloc(), loops, statements, wanted) == Ok(true),
            "{statements}"
        );
    }
}
