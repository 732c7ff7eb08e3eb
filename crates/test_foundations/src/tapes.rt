//! A tape at work.

use adj_tape::{Full, Memory, Tape};

// Whether a tape with room for two words gives them back in the other order, and takes no third.
fn gives_back(tape: &mut Tape<i64>) -> bool {
    let room = tape.room();
    let pushed = [tape.push(7), tape.push(-8), tape.push(9)];
    let held = tape.len();
    let popped = [tape.pop(), tape.pop(), tape.pop()];
    pushed == [Ok(()), Ok(()), Err(Full)]
        && popped == [Some(-8), Some(7), None]
        && [room, held, tape.len()] == [2, 2, 0]
}

#[test]
fn words_come_back_in_the_other_order(rt: HostRuntime) -> Result<(), Memory> {
    let mut tape = Tape::with_room(rt.alloc(), 2)?;
    assert!(rt; gives_back(&mut tape));
    Ok(())
}
