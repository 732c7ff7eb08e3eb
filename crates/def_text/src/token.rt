//! Tokens of a statement.

use adj_tree::Items;

/// What a token is.
#[derive(Clone, Copy, PartialEq, Eq, Debug)]
pub enum TokenKind {
    /// A letter, then letters, digits and `_`.
    Name,
    /// Digits.
    Number,
    /// `**`
    Power,
    Star,
    Slash,
    Plus,
    Minus,
    Left,
    Right,
    Comma,
    Equals,
    /// `.LT.`
    Lt,
    Le,
    Eq,
    Ne,
    Gt,
    Ge,
    /// `.NOT.`
    Not,
    And,
    Or,
    /// The lexeme `CALL` of the call in a logical IF.
    Call,
}

/// A token, whose characters are those of its statement's text from `start` up to `end`.
#[derive(Clone, Copy, PartialEq, Eq, Debug)]
pub struct Token {
    pub kind: TokenKind,
    pub start: usize,
    pub end: usize,
}

/// Tokens in order.
pub type Tokens = Items<Token>;
