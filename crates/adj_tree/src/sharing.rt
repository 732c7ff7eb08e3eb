//! Names of a tree, of which each is one block however often it stands there.

ghost use Rattle.std.specs.Prelude.{◌≡◌, IfOk, OnOk};
ghost use Rattle.adj_tree.specs.View.{term_of, terms_of, test_of, runtime_of, mark_of, act_of, code_of};

use crate::expr::{Cond, Expr, Exprs, Place};
use crate::fault::Memory;
use crate::name::Name;
use crate::stmt::{Act, Mark, RunCall, Stmts};
use indexmap::IndexSet;
use std::alloc::Global;
use std::mem;

/// The names that were met, each once.
pub struct NameTable {
    texts: IndexSet<Vec<u8>>,
    names: Vec<Name>,
}

impl Drop for NameTable {
    fn drop(self) {
        let NameTable {
            texts: _texts,
            names: _names,
        } = self;
    }
}

impl NameTable {
    /// None yet.
    pub fn new(alloc: Global) -> NameTable {
        NameTable {
            texts: IndexSet::new(alloc),
            names: Vec::new(alloc),
        }
    }

    // The name that was met with these bytes, if one was.
    fn met(&self, name: &Name) -> Option<&Name>
        ensures same { (known : _) → result ≡ Some known → known.now ≡ name.now }
    {
        let place = self.texts.get_index_of(name.bytes())?;
        let known = self.names.get(place)?;
        if known.equals(name) {
            Some(known)
        } else {
            None
        }
    }

    // The name, as the one that was met with its bytes, if one was.
    pub(crate) fn share(&mut self, alloc: Global, name: &mut Name) -> Result<(), Memory>
        ensures same { OnOk result (name.new ≡ name.old) }
    {
        if let Some(known) = self.met(name) {
            *name = known.copy(alloc)?;
            return Ok(());
        }
        self.texts.insert(name.bytes().to_vec(alloc)?)?;
        self.names.push(name.copy(alloc)?)?;
        Ok(())
    }
}

impl Expr {
    // The same expression, of which each name is one block with those that were met.
    #[cycle(sharing)]
    pub(crate) fn share(&mut self, alloc: Global, names: &mut NameTable) -> Result<(), Memory>
        ensures same { OnOk result (term_of self.new ≡ term_of self.old) }
    {
        match self {
            Expr::Lit(_) => Ok(()),
            Expr::Var(x) => names.share(alloc, x),
            Expr::Elem(x, subs) => {
                names.share(alloc, x)?;
                subs.share(alloc, names)
            }
            Expr::Neg(a) => a.share(alloc, names),
            Expr::Bin(_, a, b) => {
                a.share(alloc, names)?;
                b.share(alloc, names)
            }
            Expr::Pow(a, _) => a.share(alloc, names),
            Expr::Power(a, b) => {
                a.share(alloc, names)?;
                b.share(alloc, names)
            }
            Expr::Abs(a) => a.share(alloc, names),
        }
    }
}

impl Exprs {
    // The same list.
    #[cycle(sharing)]
    pub(crate) fn share(&mut self, alloc: Global, names: &mut NameTable) -> Result<(), Memory>
        ensures same { OnOk result (terms_of self.new ≡ terms_of self.old) }
    {
        let whole = mem::replace(self, Exprs::Empty);
        *self = whole.shared(alloc, names)?;
        Ok(())
    }
}

impl Place {
    pub(crate) fn share(&mut self, alloc: Global, names: &mut NameTable) -> Result<(), Memory>
        ensures name { OnOk result (self.new.name ≡ self.old.name) }
        ensures subscripts { OnOk result (terms_of self.new.subs ≡ terms_of self.old.subs) }
    {
        names.share(alloc, &mut self.name)?;
        self.subs.share(alloc, names)
    }
}

impl Cond {
    #[cycle(sharing_conditions)]
    pub(crate) fn share(&mut self, alloc: Global, names: &mut NameTable) -> Result<(), Memory>
        ensures same { OnOk result (test_of self.new ≡ test_of self.old) }
    {
        match self {
            Cond::Cmp(_, a, b) => {
                a.share(alloc, names)?;
                b.share(alloc, names)
            }
            Cond::Not(c) => c.share(alloc, names),
            Cond::And(c, d) => {
                c.share(alloc, names)?;
                d.share(alloc, names)
            }
            Cond::Or(c, d) => {
                c.share(alloc, names)?;
                d.share(alloc, names)
            }
        }
    }
}

impl Mark {
    pub(crate) fn share(&mut self, alloc: Global, names: &mut NameTable) -> Result<(), Memory>
        ensures same { OnOk result (mark_of self.new ≡ mark_of self.old) }
    {
        match self {
            Mark::Plain | Mark::Count(_) => Ok(()),
            Mark::From(x) => names.share(alloc, x),
        }
    }
}

impl RunCall {
    pub(crate) fn share(&mut self, alloc: Global, names: &mut NameTable) -> Result<(), Memory>
        ensures same { OnOk result (runtime_of self.new ≡ runtime_of self.old) }
    {
        match self {
            RunCall::PushWord(place) => place.share(alloc, names),
            RunCall::PopWord(place) => place.share(alloc, names),
            RunCall::PushArray(x) => names.share(alloc, x),
            RunCall::PopArray(x) => names.share(alloc, x),
            RunCall::PopControl(x) => names.share(alloc, x),
            RunCall::Zero(x) => names.share(alloc, x),
            RunCall::PushControl(e) => e.share(alloc, names),
            RunCall::Begin(l, s) => {
                l.share(alloc, names)?;
                s.share(alloc, names)
            }
            RunCall::Actions(l, s, n) => {
                l.share(alloc, names)?;
                s.share(alloc, names)?;
                names.share(alloc, n)
            }
            RunCall::Action(l, s, k, a, f, t) => {
                l.share(alloc, names)?;
                s.share(alloc, names)?;
                k.share(alloc, names)?;
                names.share(alloc, a)?;
                names.share(alloc, f)?;
                names.share(alloc, t)
            }
            RunCall::End => Ok(()),
        }
    }
}

impl Act {
    #[cycle(sharing_statements)]
    pub(crate) fn share(&mut self, alloc: Global, names: &mut NameTable) -> Result<(), Memory>
        ensures same { OnOk result (act_of self.new ≡ act_of self.old) }
    {
        match self {
            Act::Assign(place, e) => {
                place.share(alloc, names)?;
                e.share(alloc, names)
            }
            Act::If(c, a, b) => {
                c.share(alloc, names)?;
                a.share(alloc, names)?;
                b.share(alloc, names)
            }
            Act::Loop(x, a, b, c, body, mark) => {
                names.share(alloc, x)?;
                a.share(alloc, names)?;
                b.share(alloc, names)?;
                c.share(alloc, names)?;
                mark.share(alloc, names)?;
                body.share(alloc, names)
            }
            Act::While(c, body) => {
                c.share(alloc, names)?;
                body.share(alloc, names)
            }
            Act::Call(name, actuals) => {
                names.share(alloc, name)?;
                actuals.share(alloc, names)
            }
            Act::Run(call) => call.share(alloc, names),
        }
    }
}

impl Stmts {
    /// The same statements, in which each name is one block with those that are equal to it, and with those that were met.
    #[cycle(sharing_statements)]
    pub fn share(&mut self, alloc: Global, names: &mut NameTable) -> Result<(), Memory>
        ensures same { OnOk result (code_of self.new ≡ code_of self.old) }
    {
        let whole = mem::replace(self, Stmts::Empty);
        *self = whole.shared(alloc, names)?;
        Ok(())
    }
}
