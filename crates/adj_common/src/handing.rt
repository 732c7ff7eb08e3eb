//! Calls that pass members of blocks.

ghost use Rattle.std.specs.Prelude.{◌≡◌, IfOk};
ghost use Rattle.adj_tree.specs.View.{terms_of, act_of, code_of};
ghost use Rattle.def_common.specs.Lowering.{behind};
ghost use Rattle.adj_common.specs.Handing.{group_names, used_row, names_for, passed_names, turned_before, handed_act, handed_code};
ghost use Rattle.adj_common.specs.Views.{tables_of};

use crate::blocks::Blocks;
use adj_symbols_writes::table::Numbers;
use adj_tree::{Act, Expr, Exprs, Memory, Name, Stmt, Stmts, boxed};
use std::alloc::Global;

/// What the calls of a unit pass: its names for the members of each block that it uses, by the number of the block, and the blocks that units use.
#[derive(Clone, Copy)]
pub(crate) struct Handing<'a> {
    pub groups: &'a Numbers<'a>,
    pub names: &'a [Vec<Name>],
    pub blocks: &'a Blocks<'a>,
    pub units: &'a Numbers<'a>,
    pub used: &'a [Vec<usize>],
}

// Puts variables before actuals, the last of them first.
fn turned_before(alloc: Global, names: &[Name], actuals: Exprs) -> Result<Exprs, Memory>
    ensures turned { IfOk result (λ all. terms_of all ≡ turned_before names.now (terms_of actuals)) }
{
    let mut made = actuals;
    for name in names {
        let actual = boxed(alloc, Expr::Var(name.copy(alloc)?))?;
        made = Exprs::More(actual, boxed(alloc, made)?);
    }
    Ok(made)
}

impl Handing<'_> {
    ghost use Rattle.std.specs.Prelude.{◌≡◌, IfOk};
    ghost use Rattle.adj_tree.specs.View.{terms_of, act_of, code_of};
    ghost use Rattle.def_common.specs.Lowering.{behind};
    ghost use Rattle.adj_common.specs.Texts.{name_of_block};
    ghost use Rattle.adj_common.specs.Handing.{group_names, used_row, names_for, passed_names, handed_act, handed_code};
    ghost use Rattle.adj_common.specs.Views.{tables_of};

    // The unit's names for the members of a block.
    fn group(&self, block: &Name) -> &[Name]
        ensures names { result.now ≡ group_names (tables_of self.now) block.now }
    {
        match self.groups.get(block) {
            Some(place) => match self.names.get(place) {
                Some(names) => names.as_slice(),
                None => &[],
            },
            None => &[],
        }
    }

    // The same of a block by its number.
    fn group_at(&self, block: usize) -> &[Name]
        ensures names { result.now ≡ names_for (tables_of self.now) (name_of_block (tables_of self.now).text block) }
    {
        match self.blocks.name(block) {
            Some(name) => self.group(name),
            None => &[],
        }
    }

    // The numbers of the blocks that the unit of a name uses.
    fn row(&self, name: &Name) -> &[usize]
        ensures row { result.now ≡ used_row (tables_of self.now) name.now }
    {
        match self.units.get(name) {
            Some(unit) => match self.used.get(unit) {
                Some(row) => row.as_slice(),
                None => &[],
            },
            None => &[],
        }
    }

    // The actuals, and behind them the unit's members of the blocks that a unit uses which is called.
    fn passed(&self, alloc: Global, name: &Name, actuals: &Exprs) -> Result<Exprs, Memory>
        ensures passed { IfOk result (λ all. terms_of all ≡ behind (terms_of actuals.now) (passed_names (tables_of self.now) name.now)) }
    {
        let copied = actuals.copy(alloc)?;
        let mut made = copied.turned();
        for block in self.row(name) {
            made = turned_before(alloc, self.group_at(*block), made)?;
        }
        Ok(made.turned())
    }

    // The statement, in which calls pass these members.
    #[cycle(handing)]
    fn handed_stmt(&self, alloc: Global, stmt: &Stmt) -> Result<Stmt, Memory>
        ensures line { IfOk result (λ s. s.line ≡ stmt.now.line) }
        ensures act { IfOk result (λ s. act_of s.act ≡ handed_act (passed_names (tables_of self.now)) (act_of stmt.now.act)) }
    {
        let act = match &stmt.act {
            Act::Assign(place, e) => Act::Assign(place.copy(alloc)?, e.copy(alloc)?),
            Act::If(c, a, b) => {
                Act::If(
                    c.copy(alloc)?,
                    self.handed(alloc, a)?,
                    self.handed(alloc, b)?,
                )
            }
            Act::Loop(x, a, b, c, body, mark) => Act::Loop(
                x.copy(alloc)?,
                a.copy_boxed(alloc)?,
                b.copy_boxed(alloc)?,
                c.copy_boxed(alloc)?,
                self.handed(alloc, body)?,
                mark.copy_boxed(alloc)?,
            ),
            Act::While(c, body) => Act::While(c.copy(alloc)?, self.handed(alloc, body)?),
            Act::Call(name, actuals) => {
                Act::Call(name.copy(alloc)?, self.passed(alloc, name, actuals)?)
            }
            Act::Run(call) => Act::Run(call.copy(alloc)?),
        };
        Ok(Stmt {
            line: stmt.line,
            act,
        })
    }

    /// The statements, in which calls pass the unit's members of the blocks that the unit uses which they call.
    #[cycle(handing)]
    pub(crate) fn handed(&self, alloc: Global, code: &Stmts) -> Result<Stmts, Memory>
        ensures handed { IfOk result (λ all. code_of all ≡ handed_code (passed_names (tables_of self.now)) (code_of code.now)) }
    {
        let mut made = Stmts::Empty;
        let mut current = code;
        while let Stmts::More(row) = current {
            let copied = self.handed_stmt(alloc, &row.first)?;
            made = made.behind(alloc, copied)?;
            current = &row.rest;
        }
        let all = made.turned();
        Ok(all)
    }
}
