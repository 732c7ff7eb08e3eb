//! Expressions and conditions, as they are read and as a unit with one of them is printed.

ghost use Rattle.std.specs.Prelude.{◌<◌};
ghost use Rattle.adj_parse_expression.specs.Front.{AreSlices};

use adj_parse_expression::{Flaw, condition, expression};
use adj_print::text;
use adj_tree::{Act, Cond, Expr, Exprs, Items, Memory, Name, Place, Program, Stmt, Stmts, Unit};
use def_text::Token;
use std::alloc::Global;

// An assignment to X.
fn assignment(alloc: Global, expr: Box<Expr>) -> Result<Stmts, Memory> {
    let place = Place {
        name: Name::from_slice(alloc, b"X")?,
        subs: Exprs::Empty,
    };
    let act = Act::Assign(place, Box::into_inner(expr));
    Stmts::Empty.behind(alloc, Stmt { line: 1, act })
}

// An IF of no statement.
fn branch(alloc: Global, cond: Box<Cond>) -> Result<Stmts, Memory> {
    let act = Act::If(Box::into_inner(cond), Stmts::Empty, Stmts::Empty);
    Stmts::Empty.behind(alloc, Stmt { line: 1, act })
}

// The unit P with this body.
fn unit(alloc: Global, body: Stmts) -> Result<Unit, Memory> {
    Ok(Unit {
        line: 1,
        name: Name::from_slice(alloc, b"P")?,
        dummies: Items::new(Vec::new(alloc)),
        none: false,
        decls: Items::new(Vec::new(alloc)),
        body,
    })
}

// Its text.
fn printed(alloc: Global, body: Stmts) -> Result<Vec<u8>, Memory> {
    let mut units = Vec::new(alloc);
    units.push(unit(alloc, body)?)?;
    let program = Program {
        units: Items::new(units),
    };
    text(alloc, &program)
}

/// A tree that a text has at its front, and that can stand in a unit.
pub(crate) trait Tree: Sized + Drop {
    /// The tree at the front of the tokens of a text, of which a limit bounds the depth, or its flaw, and the tokens after it.
    fn read<'t>(
        alloc: Global,
        text: &[u8],
        tokens: &'t [Token],
        limit: u32,
    ) -> Result<Option<(Result<Self, Flaw>, &'t [Token])>, Memory>
        requires slices { AreSlices text.now tokens.now }
        requires limit { limit < 1000 };

    /// Whether it is printed so.
    fn is_printed(self, alloc: Global, wanted: &str) -> Result<bool, Memory>;
}

impl Tree for Box<Expr> {
    fn read<'t>(
        alloc: Global,
        text: &[u8],
        tokens: &'t [Token],
        limit: u32,
    ) -> Result<Option<(Result<Box<Expr>, Flaw>, &'t [Token])>, Memory> {
        expression(alloc, text, tokens, limit)
    }

    fn is_printed(self, alloc: Global, wanted: &str) -> Result<bool, Memory> {
        let text = printed(alloc, assignment(alloc, self)?)?;
        let whole = format!(in alloc; "      SUBROUTINE P\n      X={wanted}\n      END\n")?;
        Ok(text.as_slice() == whole.as_bytes())
    }
}

impl Tree for Box<Cond> {
    fn read<'t>(
        alloc: Global,
        text: &[u8],
        tokens: &'t [Token],
        limit: u32,
    ) -> Result<Option<(Result<Box<Cond>, Flaw>, &'t [Token])>, Memory> {
        condition(alloc, text, tokens, limit)
    }

    fn is_printed(self, alloc: Global, wanted: &str) -> Result<bool, Memory> {
        let text = printed(alloc, branch(alloc, self)?)?;
        let whole = format!(in alloc;
            "      SUBROUTINE P\n      IF ({wanted}) THEN\n      END IF\n      END\n"
        )?;
        Ok(text.as_slice() == whole.as_bytes())
    }
}
