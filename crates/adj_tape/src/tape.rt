//! A tape of words.

ghost use Rattle.std.specs.Prelude.{◌≡◌, ◌≤◌, ◌<◌, [], ◌∷◌, length, reverse, vec_len, vec_capacity, IfOk, IsOk, IsErr, OnErr, OnOk, ◌↔◌, MatchOption};
ghost use Rattle.adj_tape.specs.Held.{Held};

use std::alloc::{AllocError, Global};
use std::marker::Model;

/// Memory ran out.
#[derive(Clone, Copy, Debug, PartialEq, Eq)]
pub struct Memory;

impl From<AllocError> for Memory {
    fn from(_: AllocError) -> Memory {
        Memory
    }
}

/// The tape has no room for one more word.
#[derive(Clone, Copy, Debug, PartialEq, Eq)]
pub struct Full;

/// Words on top of one another, and how many of them there may be. A word is of any type that is copied: in a dual run it
/// carries a tangent.
pub struct Tape<N: Copy> {
    words: Vec<N>,
    room: usize,
}

impl<N: Copy> Drop for Tape<N> {
    fn drop(self) {
        let Tape {
            words: _words,
            room: _,
        } = self;
    }
}

impl<N: Copy> Model for Tape<N> {
    ghost Value = { Held N };

    ghost view = { λ t. record { words = reverse t.words.items; room = t.room } };

    ghost invariant = { λ t. (vec_len t.words ≤ t.room) × (t.room ≤ vec_capacity t.words) };
}

impl<N: Copy> Tape<N> {
    /// An empty tape for so many words, at most 134217728. Their memory is taken here.
    pub fn with_room(alloc: Global, words: u64) -> Result<Tape<N>, Memory>
        requires { words ≤ 134217728 }
        ensures empty { IfOk result (λ tape. tape.words ≡ []) }
        ensures room { IfOk result (λ tape. tape.room ≡ words) }
    {
        let room = words as usize;
        Ok(Tape {
            words: Vec::with_capacity(alloc, room)?,
            room,
        })
    }

    /// Puts a word on top. `Full` where the room is used up; the tape is then as it was.
    pub fn push(&mut self, word: N) -> Result<(), Full>
        ensures full { IsErr result ↔ (length self.old.words ≡ self.old.room) }
        ensures room { IsOk result ↔ (length self.old.words < self.old.room) }
        ensures pushed { OnOk result (self.new ≡ record self.old { words = word ∷ self.old.words }) }
        ensures unchanged { OnErr result (self.new ≡ self.old) }
    {
        if self.words.len() == self.room {
            return Err(Full);
        }
        self.words.push(word).unwrap();
        Ok(())
    }

    /// Takes the word on top, which is the last that was pushed and not popped. None where there is no word.
    pub fn pop(&mut self) -> Option<N>
        ensures { MatchOption result
            ((self.old.words ≡ []) × (self.new ≡ self.old))
            (λ word. self.old ≡ record self.new { words = word ∷ self.new.words }) }
    {
        self.words.pop()
    }

    /// How many words it holds.
    pub fn len(&self) -> u64
        ensures { result ≡ length self.now.words }
    {
        self.words.len() as u64
    }

    /// How many words it can hold.
    pub fn room(&self) -> u64
        ensures { result ≡ self.now.room }
    {
        self.room as u64
    }
}
