//! What a statement says.

ghost use Rattle.std.specs.Prelude.{◌≡◌};
ghost use Rattle.adj_tree.specs.View.{declaration_of, mark_of, act_of, code_of};
ghost use Rattle.def_text.specs.Block.{loop_of};
ghost use Rattle.def_text.specs.Unit as unit;
ghost use Rattle.adj_parse_statement.specs.View.{item_of, range_of};

use crate::label::Label;
use adj_tree::{Act, Cond, Decl, Expr, Extents, Mark, Name, NameList, Stmts};

/// A declared name with its extents, none where it is a scalar.
pub struct Item {
    pub name: Name,
    pub extents: Extents,
}

impl Item {
    /// Its declaration in a statement of this line.
    pub fn into_decl(self, line: u32) -> Decl
        ensures { declaration_of result ≡ unit.declaration_of line (item_of self) }
    {
        let Item { name, extents } = self;
        Decl {
            line,
            name,
            extents,
        }
    }
}

impl Drop for Item {
    fn drop(self) {
        let Item {
            name: _name,
            extents: _extents,
        } = self;
    }
}

/// A loop's variable, first value, limit and step.
pub struct Range {
    pub counter: Name,
    pub from: Box<Expr>,
    pub to: Box<Expr>,
    pub by: Box<Expr>,
}

impl Range {
    /// The loop over it with this body.
    pub fn into_loop(self, body: Stmts, mark: Box<Mark>) -> Act
        ensures { act_of result ≡ loop_of (range_of self) (code_of body) (mark_of mark.value) }
    {
        let Range {
            counter,
            from,
            to,
            by,
        } = self;
        Act::Loop(counter, from, to, by, body, mark)
    }
}

impl Drop for Range {
    fn drop(self) {
        let Range {
            counter: _counter,
            from: _from,
            to: _to,
            by: _by,
        } = self;
    }
}

/// What a statement says, by its class.
#[derive(Drop)]
pub enum Said {
    /// The name of a unit and its dummies.
    Subroutine(Name, NameList),
    ImplicitNone,
    Integers(Vec<Item>),
    /// The block of a COMMON statement and its items, whose extents are literals.
    Common(Name, Vec<Item>),
    /// An assignment or a CALL.
    Simple(Act),
    /// A logical IF with its assignment or CALL.
    Guarded(Cond, Act),
    /// A DO with its label, where it has one.
    Do(Option<Label>, Range),
    /// A DO WHILE with its condition.
    While(Cond),
    EndDo,
    Continue,
    If(Cond),
    Else,
    ElseIf(Cond),
    EndIf,
    Return,
    End,
}
