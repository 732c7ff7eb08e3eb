//! The sample: a program with data that is made from a number.

ghost use Rattle.std.specs.Prelude.{◌≡◌, ◌++◌, IfOk, OnOk};
ghost use Rattle.adj_data.specs.Sample.{drawn, draws_text, field_of, item_drawn, sample_body, sample_bytes, sample_data, sample_front, sample_program, snapshots_of, state_after, steps_of, with_number};

use adj_tree::Memory;
use itoa::Buffer;
use std::alloc::Global;

/// The length of the field of the sample of a number.
pub fn sample_field(number: u64) -> u64
    ensures field { result ≡ field_of number }
{
    16 + number % 241
}

/// The number of its time steps.
pub fn sample_steps(number: u64) -> u64
    ensures steps { result ≡ steps_of number }
{
    32 + (number / 241) % 481
}

/// The number of snapshots with which they are reversed.
pub fn sample_snapshots(number: u64) -> u64
    ensures snapshots { result ≡ snapshots_of number }
{
    3 + number % 6
}

// The state of the generator after a draw.
fn drawn(state: u64) -> u64
    ensures { result ≡ drawn state }
{
    state
        .wrapping_mul(6_364_136_223_846_793_005)
        .wrapping_add(1_442_695_040_888_963_407)
}

// Adds some bytes and a number.
fn push_number(out: &mut Vec<u8>, front: &[u8], number: u64) -> Result<(), Memory>
    ensures { OnOk result (out.new.items ≡ out.old.items ++ with_number front.now number) }
{
    let mut buffer = Buffer::new();
    out.extend_from_slice(front)?;
    out.extend_from_slice(buffer.format(number).as_bytes())?;
    Ok(())
}

// Adds the numbers of some draws, and gives the state after them.
fn push_draws(out: &mut Vec<u8>, first: u64, count: u64) -> Result<u64, Memory>
    ensures text { OnOk result (out.new.items ≡ out.old.items ++ draws_text first count) }
    ensures state { IfOk result (λ z. z ≡ state_after first count) }
{
    let mut state = first;
    for _ in 0..count {
        state = drawn(state);
        push_number(out, b" ", state >> 33)?;
    }
    Ok(state)
}

// Adds a title with the numbers of some draws, and gives the state after them.
fn push_item(out: &mut Vec<u8>, title: &[u8], first: u64, count: u64) -> Result<u64, Memory>
    ensures text { OnOk result (out.new.items ≡ out.old.items ++ item_drawn title.now first count) }
    ensures state { IfOk result (λ z. z ≡ state_after first count) }
{
    out.extend_from_slice(title)?;
    push_draws(out, first, count)
}

// Adds the program as far as its directive.
fn push_front(out: &mut Vec<u8>, number: u64) -> Result<(), Memory>
    ensures { OnOk result (out.new.items ≡ out.old.items ++ sample_front number) }
{
    push_number(
        out,
        b"      SUBROUTINE SAMPLE(N,U,S)\n      INTEGER*8 N,U(N),S,V(",
        sample_field(number),
    )?;
    push_number(out, b"),K,I\nC$AD BINOMIAL-CKP ", sample_snapshots(number))?;
    Ok(())
}

// Adds the rest of the program, and the line before its data.
fn push_body(out: &mut Vec<u8>, number: u64) -> Result<(), Memory>
    ensures { OnOk result (out.new.items ≡ out.old.items ++ sample_body number) }
{
    push_number(out, b"\n      DO K=1,", sample_steps(number))?;
    out.extend_from_slice(
        b"\n      DO I=2,N\n      V(I)=U(I-1)*U(I)+K\n      END DO\n      DO I=2,N\n      U(I)=V(I)\n      END DO\n      END DO\n      S=0\n      DO I=1,N\n      S=S+U(I)*U(I)\n      END DO\n      END\n$DATA\n",
    )?;
    Ok(())
}

// Adds the program and the line before its data.
fn push_program(out: &mut Vec<u8>, number: u64) -> Result<(), Memory>
    ensures { OnOk result (out.new.items ≡ out.old.items ++ sample_program number) }
{
    push_front(out, number)?;
    push_body(out, number)?;
    Ok(())
}

// Adds its data.
fn push_data(out: &mut Vec<u8>, number: u64) -> Result<(), Memory>
    ensures { OnOk result (out.new.items ≡ out.old.items ++ sample_data number) }
{
    let field = sample_field(number);
    push_number(out, b"N ", field)?;
    let state = push_item(out, b"\nU", number, field)?;
    let state = push_item(out, b"\nS 0\nU.D", state, field)?;
    push_item(out, b"\nS.B", state, 1)?;
    out.push(b'\n')?;
    Ok(())
}

/// The text of the sample of a number with its data. (docs/COMMANDS.md, "`sample`")
pub fn sample(alloc: Global, number: u64) -> Result<Vec<u8>, Memory>
    ensures bytes { IfOk result (λ out. out.items ≡ sample_bytes number) }
{
    let mut out = Vec::new(alloc);
    push_program(&mut out, number)?;
    push_data(&mut out, number)?;
    Ok(out)
}
