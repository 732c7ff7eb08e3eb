//! Runs of the first unit of a text (docs/RUNNING.md), with what no command writes: the words on the tape, and what was counted where a run stops.

ghost use Rattle.std.specs.Prelude.{◌≡◌, IfOk, length, map, true};
ghost use Rattle.test_programs.specs.Scalars.{scalar_of};

use adj_fixed::Mode;
use adj_interp::{Log, Stop, run};
use adj_symbols::{Checked, check};
use adj_tape::Tape;
use adj_tool_answer::read;
use adj_tree::{Fault, Items, Memory, Slot, Trap, Unit, Values};
use std::alloc::Global;

// How a run ends: its stop, the words of the dummies, what it counted, and how many words stand on the tape.
#[derive(Drop)]
struct Ended {
    stop: Option<Stop>,
    words: Vec<i64>,
    log: Log,
    tape: Vec<i64>,
}

/// The program of a text whose lines begin in column 7, checked as one that is run.
pub(crate) fn checked(alloc: Global, text: &str) -> Result<Checked, Fault> {
    let mut bytes = Vec::new(alloc);
    for line in text.split('\n') {
        bytes.extend_from_slice(b"      ")?;
        bytes.extend_from_slice(line.as_bytes())?;
        bytes.push(b'\n')?;
    }
    let program = read(alloc, bytes.as_slice(), Mode::Run)?;
    check(alloc, program, Mode::Run)
}

/// Scalars with these words.
pub(crate) fn scalars(alloc: Global, words: &[i64]) -> Result<Values, Memory>
    ensures { IfOk result (λ vs. vs ≡ map scalar_of words.now) }
{
    let mut slots = Vec::new(alloc);
    for word in words {
        let cells = vec![in alloc; *word]?;
        slots.push(Slot {
            rows: 0,
            cols: 0,
            cells: Items::new(cells),
        })?;
    }
    Ok(Items::new(slots))
}

/// The first cells of values.
pub(crate) fn first_words(alloc: Global, values: &Values) -> Result<Vec<i64>, Memory> {
    let mut words = Vec::new(alloc);
    for value in values.as_slice() {
        if let Some(word) = value.cells.as_slice().first() {
            words.push(*word)?;
        }
    }
    Ok(words)
}

// The words of a tape, from the top down.
fn taken(alloc: Global, tape: &mut Tape<i64>) -> Result<Vec<i64>, Memory> {
    let mut words = Vec::new(alloc);
    for _ in 0..tape.len() {
        if let Some(word) = tape.pop() {
            words.push(word)?;
        }
    }
    Ok(words)
}

/// Whether a unit declares no variable, and has so many dummies.
pub(crate) fn suits(unit: &Unit, count: usize) -> bool
    ensures { result ≡ true → (length unit.now.decls ≡ 0) × (length unit.now.dummies ≡ count) }
{
    unit.decls.as_slice().len() == 0 && unit.dummies.as_slice().len() == count
}

// A run of the first unit, where it has as many dummies as there are words, and declares no variable.
fn run_first(
    alloc: Global,
    checked: &Checked,
    words: &[i64],
    budget: u64,
    room: u64,
) -> Result<Ended, Memory> {
    let Some(unit) = checked.program().units.as_slice().first() else {
        return Err(Memory);
    };
    if !suits(unit, words.len()) || room > 1000 {
        return Err(Memory);
    }
    let mut tape = Tape::with_room(alloc, room).map_err(|_| Memory)?;
    let mut log = Log {
        used: 0,
        reversals: 0,
        advances: 0,
        height: 0,
    };
    let input = scalars(alloc, words)?;
    let result = run(alloc, checked, 0, input, budget, &mut tape, &mut log);
    let (stop, words) = match result {
        Ok(values) => (None, first_words(alloc, &values)?),
        Err(stop) => (Some(stop), Vec::new(alloc)),
    };
    Ok(Ended {
        stop,
        words,
        log,
        tape: taken(alloc, &mut tape)?,
    })
}

// What is expected of a run.
struct Case {
    text: &'static str,
    words: &'static [i64],
    budget: u64,
    room: u64,
    stop: Option<Stop>,
    ends: &'static [i64],
    log: Log,
    tape: &'static [i64],
}

// Whether a run ends as it is expected to.
fn holds(alloc: Global, case: &Case) -> Result<bool, Memory> {
    let Ok(checked) = checked(alloc, case.text) else {
        return Ok(false);
    };
    let ended = run_first(alloc, &checked, case.words, case.budget, case.room)?;
    Ok(
        ended.stop == case.stop
            && ended.words.as_slice() == case.ends
            && ended.tape.as_slice() == case.tape
            && ended.log == case.log,
    )
}

const CASES: [Case; 4] = [
    // a trap in a called unit, at its line
    Case {
        text: "SUBROUTINE P(I)\nCALL Q(I)\nEND\nSUBROUTINE Q(K)\nK=1/K\nEND",
        words: &[0],
        budget: 9,
        room: 0,
        stop: Some(Stop::Trap(Trap::Division, 5)),
        ends: &[],
        log: Log {
            used: 2,
            reversals: 0,
            advances: 0,
            height: 0,
        },
        tape: &[],
    },
    // the statements run out in a called unit
    Case {
        text: "SUBROUTINE P(I)\nCALL Q(I)\nEND\nSUBROUTINE Q(K)\nCALL PUSHINTEGER8(K)\nK=1\nEND",
        words: &[8],
        budget: 2,
        room: 9,
        stop: Some(Stop::Budget),
        ends: &[],
        log: Log {
            used: 2,
            reversals: 0,
            advances: 0,
            height: 0,
        },
        tape: &[8],
    },
    // an array is pushed in storage order, and popped in the opposite one
    Case {
        text: "SUBROUTINE P(I)\nCALL Q(I)\nEND\nSUBROUTINE Q(I)\nINTEGER*8 A(2)\nA(1)=1\nA(2)=2\nCALL PUSHINTEGER8ARRAY(A)\nCALL PUSHINTEGER8ARRAY(A)\nCALL ADZERO8(A)\nI=A(1)+A(2)\nCALL POPINTEGER8ARRAY(A)\nI=I+10*A(1)+A(2)\nEND",
        words: &[0],
        budget: 9,
        room: 4,
        stop: None,
        ends: &[12],
        log: Log {
            used: 9,
            reversals: 0,
            advances: 0,
            height: 0,
        },
        tape: &[2, 1],
    },
    // calls directly in a reversal are counted, less its steps, and the words above its start
    Case {
        text: "SUBROUTINE P(I)\nCALL PUSHINTEGER8(I)\nCALL ADBEG(1,1)\nCALL Q(I)\nCALL PUSHINTEGER8(I)\nCALL Q(I)\nCALL Q(I)\nCALL ADEND\nEND\nSUBROUTINE Q(K)\nK=K+1\nEND",
        words: &[0],
        budget: 20,
        room: 9,
        stop: None,
        ends: &[3],
        log: Log {
            used: 10,
            reversals: 1,
            advances: 2,
            height: 1,
        },
        tape: &[1, 0],
    },
];

#[test]
fn a_run_tells_its_words_its_tape_and_what_it_counted(rt: HostRuntime) {
    for case in &CASES {
        assert!(rt; holds(rt.alloc(), case) == Ok(true));
    }
}
