//! Open blocks.

ghost use Rattle.std.specs.Prelude.{◌≡◌};
ghost use Rattle.adj_tree.specs.View.{code_of, act_of};
ghost use Rattle.adj_parse.specs.Blocks.{whole, turned};
ghost use Rattle.adj_parse.specs.NestView.{part_of, is_shape, other_part};

use adj_parse_statement::{Label, Range};
use adj_tree::{Act, Cond, Mark, Stmt, Stmts};

/// The part of a DO or an IF whose statements are being read.
pub(crate) enum Part {
    /// The body of a DO, with its label where it has one, and its mark.
    Loop(Option<Label>, Range, Box<Mark>),
    /// The body of a DO WHILE.
    While(Cond),
    /// The statements behind IF.
    If(Cond),
    /// Those behind ELSE, and the ones before it.
    Else(Cond, Stmts),
    /// The IF that an ELSE IF is, and the statements before it.
    Chain(Cond, Stmts),
}

impl Drop for Part {
    fn drop(self) {
        match self {
            Part::Loop(_part0, _part1, _part2) => {}
            Part::While(_part) => {}
            Part::If(_part) => {}
            Part::Else(_part0, _part1) => {}
            Part::Chain(_part0, _part1) => {}
        }
    }
}

/// What a block may be.
#[derive(Clone, Copy, PartialEq, Eq, Debug)]
pub(crate) enum Shape {
    /// A loop with a label.
    Labelled,
    /// A loop without one; a DO WHILE is such.
    Unlabelled,
    /// The loop of a label; 0 is none.
    LoopOf(u32),
    /// An IF that has no ELSE yet.
    First,
    /// An IF.
    Either,
    /// An IF whose ELSE IF is open.
    Chain,
}

/// Which other part of an IF begins.
#[derive(Clone, Copy, PartialEq, Eq, Debug)]
pub(crate) enum Turn {
    Else,
    ElseIf,
}

/// An open block: the line of its DO or IF, the statements before that, and the part that is being read.
#[derive(Drop)]
pub(crate) struct Block {
    pub line: u32,
    pub before: Vec<Stmt>,
    pub part: Part,
}

impl Part {
    /// The DO or IF whose last part has these statements.
    pub(crate) fn whole(self, body: Stmts) -> Act
        ensures { act_of result ≡ whole (part_of self) (code_of body) }
    {
        match self {
            Part::Loop(_own, range, mark) => range.into_loop(body, mark),
            Part::While(cond) => Act::While(cond, body),
            Part::If(cond) => Act::If(cond, body, Stmts::Empty),
            Part::Else(cond, first) => Act::If(cond, first, body),
            Part::Chain(cond, first) => Act::If(cond, first, body),
        }
    }

    /// The other part of an IF whose first part has these statements.
    pub(crate) fn turned(self, turn: Turn, first: Stmts) -> Part
        ensures { part_of result ≡ other_part turn (part_of self) (code_of first) }
    {
        match self {
            Part::If(cond) => match turn {
                Turn::Else => Part::Else(cond, first),
                Turn::ElseIf => Part::Chain(cond, first),
            },
            part => part,
        }
    }

    fn is_loop_of(&self, label: u32) -> bool
        ensures { result ≡ is_shape (Shape.LoopOf label) (part_of self.now) }
    {
        match self {
            Part::Loop(Some(own), _, _) => label != 0 && own.is(label),
            _ => false,
        }
    }

    /// Whether the part is of a block of this shape.
    pub(crate) fn is(&self, shape: Shape) -> bool
        ensures { result ≡ is_shape shape (part_of self.now) }
    {
        match shape {
            Shape::Labelled => matches!(self, Part::Loop(Some(_), _, _)),
            Shape::Unlabelled => matches!(self, Part::Loop(None, _, _) | Part::While(_)),
            Shape::LoopOf(label) => self.is_loop_of(label),
            Shape::First => matches!(self, Part::If(_)),
            Shape::Either => matches!(self, Part::If(_) | Part::Else(_, _)),
            Shape::Chain => matches!(self, Part::Chain(_, _)),
        }
    }
}
