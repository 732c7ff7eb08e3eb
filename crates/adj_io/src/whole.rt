//! Reading to the end, and writing all.

ghost use Rattle.std.specs.Prelude.{◌≡◌, ◌≤◌, ◌<◌, ◌+◌, ℕ, length, take, vec_len, IfOk, OnOk, OnErr, IsErrOf, ◌↔◌};
ghost use Rattle.adj_io.specs.Bytes.{HasRead, IsAtEnd, extended_by, followed_by};
ghost use Rattle.adj_io.specs.Faults.{Rose};

use crate::streams::{Failed, Sink, Source};
use std::alloc::Global;
use thiserror::Error;

/// Why a source wasn't read to its end.
#[derive(Clone, Copy, Debug, PartialEq, Eq, Error)]
pub enum ReadError {
    /// A read failed.
    #[error("a read failed")]
    ReadFault,
    /// There is more than the limit allows.
    #[error("the input is too long")]
    TooLong,
    /// Memory ran out.
    #[error("out of memory")]
    Memory,
}

/// A write failed.
#[derive(Clone, Copy, Debug, PartialEq, Eq)]
pub struct WriteFault;

/// How many bytes a call of `read` is asked for at most.
const PIECE: usize = 4096;

/// Reads a source to its end, up to `limit` bytes.
///
/// Bytes that were read before a refusal stay taken from the source.
pub fn read_all<S: Source>(
    alloc: Global,
    source: &mut S,
    limit: usize,
) -> Result<Vec<u8>, ReadError>
    requires { limit < usize.MAX }
    // On success these bytes were left, at most `limit`, and now none are.
    ensures bytes { IfOk result (λ v. S.left source.old ≡ followed_by v.items (S.left source.new)) }
    ensures end { OnOk result (IsAtEnd (S.left source.new)) }
    ensures limit { IfOk result (λ v. vec_len v ≤ limit) }
    // Some number of bytes was read, and the input is too long exactly where it is `limit + 1`.
    ensures read { (n : ℕ) × (n ≤ limit + 1) × HasRead n (S.left source.old) (S.left source.new)
        × (IsErrOf result ReadError.TooLong ↔ (n ≡ limit + 1)) }
    // A fault comes only where the source's count rose.
    ensures risen { IsErrOf result ReadError.ReadFault → Rose (S.faults source.old) (S.faults source.new) }
    ensures count { S.faults source.old ≤ S.faults source.new }
{
    let mut bytes = Vec::new(alloc);
    let mut piece = [0; PIECE];
    loop {
        let room = limit - bytes.len();
        let wanted = PIECE.min(room + 1);
        match source.read(&mut piece[..wanted]) {
            Err(Failed) => return Err(ReadError::ReadFault),
            Ok(0) => return Ok(bytes),
            Ok(count) if count > room => return Err(ReadError::TooLong),
            Ok(count) => {
                if bytes.extend_from_slice(&piece[..count]).is_err() {
                    return Err(ReadError::Memory);
                }
            }
        }
    }
}

/// Writes all of `bytes` to a sink. Takes no memory of its own.
///
/// After a fault the sink took a front of them, and not all.
pub fn write_all<K: Sink>(sink: &mut K, bytes: &[u8]) -> Result<(), WriteFault>
    ensures bytes { OnOk result (K.taken sink.new ≡ extended_by (K.taken sink.old) bytes.now) }
    ensures front { OnErr result ((k : ℕ) × (k < length bytes.now) × (K.taken sink.new ≡ extended_by (K.taken sink.old) (take k bytes.now))) }
    ensures risen { OnErr result (Rose (K.faults sink.old) (K.faults sink.new)) }
    ensures count { K.faults sink.old ≤ K.faults sink.new }
{
    let mut done = 0;
    while done < bytes.len() {
        match sink.write(&bytes[done..]) {
            Ok(count) => done += count,
            Err(Failed) => return Err(WriteFault),
        }
    }
    Ok(())
}
