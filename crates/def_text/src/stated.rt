//! Statements of a text, before their grammar is looked at.

use crate::token::Tokens;
use adj_tree::{Bytes, Mark};

/// The class of a statement (docs/LANGUAGE.md).
#[derive(Clone, Copy, PartialEq, Eq, Debug)]
pub enum Kind {
    Do,
    BlockIf,
    LogicalIf,
    Assign,
    Continue,
    Return,
    End,
    EndIf,
    EndDo,
    Else,
    ImplicitNone,
    ElseIf,
    DoWhile,
    Subroutine,
    Integer,
    Call,
    Common,
}

/// What a directive says of the statement behind it.
#[derive(Drop)]
pub struct Advice {
    /// How many snapshots a loop has: a number or a name in capitals; plain where it doesn't say so.
    pub mark: Mark,
    /// Whether a call is split.
    pub split: bool,
}

/// A statement of a text.
pub struct Stated {
    /// The line of its initial line.
    pub line: u32,
    /// Its label, or 0 where it has none.
    pub label: u32,
    /// What the directive directly before it says: a number of snapshots or a name in capitals; plain where it says neither.
    pub mark: Mark,
    /// Whether that directive says that a call is split.
    pub split: bool,
    /// The line of that directive, or 0.
    pub mark_line: u32,
    pub kind: Kind,
    /// Its characters without blanks, in capitals.
    pub text: Bytes,
    /// What stands after its keyword, cut into tokens; the final THEN of a block IF or an ELSE IF is left out.
    pub tokens: Tokens,
}

impl Drop for Stated {
    fn drop(self) {
        let Stated {
            line: _,
            label: _,
            mark: _mark,
            split: _,
            mark_line: _,
            kind: _kind,
            text: _text,
            tokens: _tokens,
        } = self;
    }
}
