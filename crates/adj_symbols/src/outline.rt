//! A unit with what is looked up in it.

ghost use Rattle.std.specs.Prelude.{◌≡◌, [], ℕ, map, IfOk, OnOk, unwrap_or, is_some};
ghost use Rattle.std.specs.Coded.{codes};
ghost use Rattle.adj_tree.specs.declared.unit.Unit.{Unit};
ghost use Rattle.adj_tree.specs.contracts.unit.Unit as unit_row;
ghost use Rattle.adj_tree.specs.View.{code_of, declaration_of, procedure_of};
ghost use Rattle.def_meaning.specs.Apart.{has_name};
ghost use Rattle.def_names.specs.Statements.{statements};
ghost use Rattle.def_names.specs.Variables.{Name, declared_names, is_integer_name, is_integer, rank, is_dummy};
ghost use Rattle.adj_symbols_writes.specs.Table.{value_of};
ghost use Rattle.adj_symbols_writes.specs.View.{seen};
ghost use Rattle.adj_symbols.specs.Outline.{declared_rank, AreTables};
ghost use Rattle.adj_symbols.specs.Table.{once};

use adj_sets::BorrowedNames;
use adj_symbols_writes::statements::statements;
use adj_symbols_writes::table::Numbers;
use adj_tree::{Decl, Memory, Name, Stmt, Unit, boxed};
use std::alloc::Global;
use std::marker::Model;

/// A unit, whose statements at any depth stand in one list and whose names are looked up in
/// constant time.
pub(crate) struct Outline<'a> {
    unit: &'a Unit,
    stmts: Vec<&'a Stmt>,
    ranks: Box<Numbers<'a>>,
    dummies: BorrowedNames<'a>,
}

impl Drop for Outline<'_> {
    fn drop(self) {
        let Outline {
            unit: _,
            stmts: _stmts,
            ranks: _ranks,
            dummies: _dummies,
        } = self;
    }
}

impl<'a> Model for Outline<'a> {
    ghost Value = { Unit };

    ghost coded = { Prim.hlevel (codes, unit_row.the_row.coded) };

    ghost view = { λ o. o.unit.now };

    ghost invariant = { λ o. AreTables (procedure_of o.unit.now) o.stmts.items o.ranks.value o.dummies };
}

// The number of extents that each declared name has at first.
fn declared_ranks<'a>(alloc: Global, decls: &'a [Decl]) -> Result<Box<Numbers<'a>>, Memory>
    ensures { IfOk result (λ r. (x : Name) → value_of x r.value ≡ declared_rank (map declaration_of decls.now) x) }
{
    let mut ranks = boxed(alloc, Numbers::new(alloc))?;
    for decl in decls {
        ranks.add(&decl.name, decl.extents.as_slice().len())?;
    }
    Ok(ranks)
}

// The names, each once.
fn names_once<'a>(alloc: Global, names: &'a [Name]) -> Result<BorrowedNames<'a>, Memory>
    ensures { IfOk result (λ s. s ≡ once names.now) }
{
    let mut set = BorrowedNames::new(alloc)?;
    for name in names {
        set.insert(name)?;
    }
    Ok(set)
}

impl<'a> Outline<'a> {
    /// The unit with its tables.
    pub(crate) fn new(alloc: Global, unit: &'a Unit) -> Result<Outline<'a>, Memory>
        ensures unit { IfOk result (λ o. o ≡ unit.now) }
    {
        let stmts = statements(alloc, &unit.body)?;
        let ranks = declared_ranks(alloc, unit.decls.as_slice())?;
        let dummies = names_once(alloc, unit.dummies.as_slice())?;
        Ok(Outline {
            unit,
            stmts,
            ranks,
            dummies,
        })
    }

    /// The unit itself.
    pub(crate) fn unit(&self) -> &'a Unit
        ensures unit { result.now ≡ self.now }
    {
        self.unit
    }

    /// Its statements at any depth, in text order.
    pub(crate) fn statements(&self) -> &[&'a Stmt]
        ensures statements { seen result.now ≡ statements (code_of self.now.body) }
    {
        self.stmts.as_slice()
    }

    /// The number of extents of a variable, 0 for a scalar.
    pub(crate) fn rank(&self, name: &Name) -> usize
        ensures rank { result ≡ rank (procedure_of self.now) name.now }
    {
        self.ranks.get(name).unwrap_or(0)
    }

    /// Whether the name is that of a dummy.
    pub(crate) fn is_dummy(&self, name: &Name) -> bool
        ensures dummy { result ≡ is_dummy (procedure_of self.now) name.now }
    {
        self.dummies.contains(name)
    }

    // Whether the name is declared.
    fn is_declared(&self, name: &Name) -> bool
        ensures declared { result ≡ has_name name.now (declared_names (procedure_of self.now)) }
    {
        self.ranks.get(name).is_some()
    }

    /// Whether the name is declared, or an integer by its first letter where the unit hasn't IMPLICIT NONE.
    pub(crate) fn is_integer(&self, name: &Name) -> bool
        ensures integer { result ≡ is_integer (procedure_of self.now) name.now }
    {
        self.is_declared(name) || (!self.unit.none && is_integer_name(name))
    }
}

// Whether the name begins with I to N.
fn is_integer_name(name: &Name) -> bool
    ensures { result ≡ is_integer_name name.now }
{
    match name.bytes() {
        [first, ..] => matches!(*first, b'I'..=b'N'),
        [] => false,
    }
}
