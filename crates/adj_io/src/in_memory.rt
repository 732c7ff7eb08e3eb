//! A source and a sink in memory, whose calls fail as they are told.

ghost use Rattle.std.specs.Prelude.{◌≡◌, ◌≤◌, ◌<◌, [], ◌++◌, Some, length, take, drop, vec_len, vec_capacity, IfOk, IsErr, OnErr, IsTrue, ◌↔◌};
ghost use Rattle.adj_io.specs.Bytes.{IsAtEnd, extended_by, followed_by};
ghost use Rattle.adj_io.specs.Faults.{Rose};
ghost use Rattle.adj_io.specs.InMemory.{Feed, Store, untouched, is_failing, given, fed, unfed, is_refused, accepted, stored, unstored};

use crate::call_count::Calls;
use crate::streams::{Failed, Sink, Source};
use std::alloc::{AllocError, Global};
use std::marker::Model;

/// Memory ran out.
#[derive(Clone, Copy, Debug, PartialEq, Eq)]
pub struct Memory;

impl From<AllocError> for Memory {
    fn from(_: AllocError) -> Memory {
        Memory
    }
}

/// A source of given bytes.
#[derive(Drop)]
pub struct MemSource {
    bytes: Vec<u8>,
    given: usize,
    piece: usize,
    calls: Calls,
}

impl Model for MemSource {
    ghost Value = { Feed };

    ghost view = { λ s. record { left = drop s.given s.bytes.items; piece = s.piece; calls = s.calls } };

    ghost invariant = { λ s. (s.given ≤ vec_len s.bytes) × (0 < s.piece) };
}

impl MemSource {
    /// Gives `bytes`, at most `piece` of them in a call, and fails at the calls whose numbers stand in `fail`.
    ///
    /// The first call is 1.
    pub fn new(bytes: Vec<u8>, fail: Vec<u64>, piece: usize) -> MemSource
        requires { 0 < piece }
        ensures { result ≡ record { left = bytes.items; piece = piece; calls = untouched fail.items } }
    {
        MemSource {
            bytes,
            given: 0,
            piece,
            calls: Calls::new(fail),
        }
    }
}

impl Source for MemSource {
    ghost left = { λ s. Some s.left };

    ghost faults = { λ s. s.calls.faults };

    fn read(&mut self, into: &mut [u8]) -> Result<usize, Failed>
        ensures within { IfOk result (λ k. k ≤ length into.new) }
        ensures bytes { IfOk result (λ k. Some self.old.left ≡ followed_by (take k into.new) (Some self.new.left)) }
        ensures end { IfOk result (λ k. k ≡ 0 → 0 < length into.new → IsAtEnd (Some self.new.left)) }
        ensures unread { OnErr result (Some self.new.left ≡ Some self.old.left) }
        ensures count { self.old.calls.faults ≤ self.new.calls.faults }
        ensures risen { OnErr result (Rose self.old.calls.faults self.new.calls.faults) }
        ensures fails { IsErr result ↔ IsTrue (is_failing self.old.calls) }
        ensures given { IfOk result (λ k. k ≡ length (given self.old (length into.old))) }
        ensures into { IfOk result (λ k. into.new ≡ given self.old (length into.old) ++ drop k into.old) }
        ensures fed { IfOk result (λ k. self.new ≡ fed self.old k) }
        ensures unfed { OnErr result (self.new ≡ unfed self.old) }
    {
        if self.calls.is_next_failing() {
            self.calls.fail();
            return Err(Failed);
        }
        self.calls.succeed();
        let left = &self.bytes[self.given..];
        let count = self.piece.min(into.len()).min(left.len());
        into[..count].copy_from_slice(&left[..count]);
        self.given += count;
        Ok(count)
    }
}

/// A sink that keeps what it takes.
#[derive(Drop)]
pub struct MemSink {
    taken: Vec<u8>,
    room: usize,
    piece: usize,
    calls: Calls,
}

impl Model for MemSink {
    ghost Value = { Store };

    ghost view = { λ s. record { taken = s.taken.items; room = s.room; piece = s.piece; calls = s.calls } };

    ghost invariant = { λ s. (vec_len s.taken ≤ s.room) × (s.room ≤ vec_capacity s.taken) × (0 < s.piece) };
}

impl MemSink {
    /// Has room for `room` bytes, which is taken here, and takes at most `piece` of them in a call.
    ///
    /// A write of bytes fails at the calls whose numbers stand in `fail`, and where the room is used up. The first call is 1.
    pub fn new(alloc: Global, room: usize, fail: Vec<u64>, piece: usize) -> Result<MemSink, Memory>
        requires { 0 < piece }
        ensures { IfOk result (λ s. s ≡ record { taken = []; room = room; piece = piece; calls = untouched fail.items }) }
    {
        let taken = Vec::with_capacity(alloc, room)?;
        Ok(MemSink {
            taken,
            room,
            piece,
            calls: Calls::new(fail),
        })
    }

    /// What was taken.
    pub fn bytes(&self) -> &[u8]
        ensures { result.now ≡ self.now.taken }
    {
        self.taken.as_slice()
    }
}

impl Sink for MemSink {
    ghost taken = { λ s. Some s.taken };

    ghost faults = { λ s. s.calls.faults };

    fn write(&mut self, bytes: &[u8]) -> Result<usize, Failed>
        ensures within { IfOk result (λ k. k ≤ length bytes.now) }
        ensures some { IfOk result (λ k. 0 < length bytes.now → 0 < k) }
        ensures bytes { IfOk result (λ k. Some self.new.taken ≡ extended_by (Some self.old.taken) (take k bytes.now)) }
        ensures untaken { OnErr result (Some self.new.taken ≡ Some self.old.taken) }
        ensures count { self.old.calls.faults ≤ self.new.calls.faults }
        ensures risen { OnErr result (Rose self.old.calls.faults self.new.calls.faults) }
        ensures fails { IsErr result ↔ IsTrue (is_refused self.old bytes.now) }
        ensures accepted { IfOk result (λ k. k ≡ length (accepted self.old bytes.now)) }
        ensures stored { IfOk result (λ _. self.new ≡ stored self.old (accepted self.old bytes.now)) }
        ensures unstored { OnErr result (self.new ≡ unstored self.old) }
    {
        let room = self.room - self.taken.len();
        if !bytes.is_empty() && (room == 0 || self.calls.is_next_failing()) {
            self.calls.fail();
            return Err(Failed);
        }
        self.calls.succeed();
        let count = self.piece.min(room).min(bytes.len());
        self.taken.extend_from_slice(&bytes[..count]).unwrap();
        Ok(count)
    }
}
