//! Dual runs of the first unit of a text. (docs/RUNNING.md, "Dual runs") More stand in the golden cases of `check` in tests/.

use crate::running::{checked, first_words, scalars, suits};
use adj_interp::{Stop, run_dual};
use adj_symbols::Checked;
use adj_tree::{Memory, Trap};
use std::alloc::Global;

// How a dual run ends: its stop, or the words of the dummies and their tangents.
#[derive(Drop)]
struct Ended {
    stop: Option<Stop>,
    words: Vec<i64>,
    tangents: Vec<i64>,
}

// A dual run of the first unit, where it has as many dummies as there are words and tangents, and declares no variable.
fn run_first(
    alloc: Global,
    checked: &Checked,
    words: &[i64],
    tangents: &[i64],
) -> Result<Ended, Memory> {
    let Some(unit) = checked.program().units.as_slice().first() else {
        return Err(Memory);
    };
    if !suits(unit, words.len()) {
        return Err(Memory);
    }
    if tangents.len() != words.len() {
        return Err(Memory);
    }
    let input = scalars(alloc, words)?;
    let given = scalars(alloc, tangents)?;
    match run_dual(alloc, checked, 0, input, given, 99) {
        Ok((values, tangents)) => Ok(Ended {
            stop: None,
            words: first_words(alloc, &values)?,
            tangents: first_words(alloc, &tangents)?,
        }),
        Err(stop) => Ok(Ended {
            stop: Some(stop),
            words: Vec::new(alloc),
            tangents: Vec::new(alloc),
        }),
    }
}

// What is expected of a dual run.
struct Case {
    text: &'static str,
    words: &'static [i64],
    tangents: &'static [i64],
    stop: Option<Stop>,
    ends: &'static [i64],
    moves: &'static [i64],
}

// Whether a dual run ends as it is expected to.
fn holds(alloc: Global, case: &Case) -> Result<bool, Memory> {
    let Ok(checked) = checked(alloc, case.text) else {
        return Ok(false);
    };
    let ended = run_first(alloc, &checked, case.words, case.tangents)?;
    Ok(
        ended.stop == case.stop
            && ended.words.as_slice() == case.ends
            && ended.tangents.as_slice() == case.moves,
    )
}

const CASES: [Case; 4] = [
    // the least word, whose negation it is itself, as a word and as a tangent
    Case {
        text: "SUBROUTINE P(I,J)\nJ=-I\nEND",
        words: &[-9223372036854775808, 0],
        tangents: &[-9223372036854775808, 0],
        stop: None,
        ends: &[-9223372036854775808, -9223372036854775808],
        moves: &[-9223372036854775808, -9223372036854775808],
    },
    // an element added to itself, in a unit that is called
    Case {
        text: "SUBROUTINE P(I,J)\nCALL Q(I,J)\nEND\nSUBROUTINE Q(I,J)\nINTEGER*8 A(2)\nA(2)=I\nA(2)=A(2)+A(2)\nJ=A(2)\nEND",
        words: &[5, 0],
        tangents: &[7, 0],
        stop: None,
        ends: &[5, 10],
        moves: &[7, 14],
    },
    // a power by a loop, whose variable has no tangent
    Case {
        text: "SUBROUTINE P(I,J,K)\nJ=1\nDO K=1,3\nJ=J*I\nEND DO\nEND",
        words: &[2, 0, 0],
        tangents: &[1, 9, 9],
        stop: None,
        ends: &[2, 8, 4],
        moves: &[1, 12, 0],
    },
    // a trap, at its line
    Case {
        text: "SUBROUTINE P(I,J)\nJ=I\nJ=J/I\nEND",
        words: &[0, 0],
        tangents: &[1, 1],
        stop: Some(Stop::Trap(Trap::Division, 3)),
        ends: &[],
        moves: &[],
    },
];

#[test]
fn tangents_follow_the_run(rt: HostRuntime) {
    for case in &CASES {
        assert!(rt; holds(rt.alloc(), case) == Ok(true));
    }
}
