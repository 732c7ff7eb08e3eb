//! The unit that is being read.

ghost use Rattle.std.specs.Prelude.{◌≡◌, ◌++◌, ◌∷◌, [], map, not, ◌&&◌, ◌||◌, OnOk, IfOk};
ghost use Rattle.adj_tree.specs.View.{declaration_of, mark_of};
ghost use Rattle.adj_tree.specs.CommonView.{common_of, shared_of};
ghost use Rattle.def_text.specs.Unit as unit;
ghost use Rattle.adj_parse.specs.Order.{may_follow, suits, leaves_loop};
ghost use Rattle.adj_parse.specs.Unit.{begun, finished, continued};
ghost use Rattle.adj_parse.specs.CurrentView.{current_of};
ghost use Rattle.adj_parse_statement.specs.View.{item_of, form_of};

use crate::nest::Nest;
use crate::phase::Phase;
use adj_parse_statement::{Item, Said};
use adj_tree::{
    Common, Commons, Decl, Decls, Mark, Memory, Name, NameList, NameTable, SharedUnit, Unit,
};
use def_text::Kind;
use std::alloc::Global;

/// A unit before its END.
pub(crate) struct Current {
    line: u32,
    name: Name,
    dummies: NameList,
    none: bool,
    decls: Vec<Decl>,
    commons: Vec<Common>,
    phase: Phase,
    pub nest: Nest,
}

impl Drop for Current {
    fn drop(self) {
        let Current {
            line: _,
            name: _name,
            dummies: _dummies,
            none: _,
            decls: _decls,
            commons: _commons,
            phase: _phase,
            nest: _nest,
        } = self;
    }
}

// Adds the items of an INTEGER or a COMMON statement as declarations.
fn declare(decls: &mut Vec<Decl>, line: u32, items: Vec<Item>) -> Result<(), Memory>
    ensures { OnOk result (map declaration_of decls.new.items ≡ map declaration_of decls.old.items ++ map (unit.declaration_of line) (map item_of items.items)) }
{
    for item in items {
        decls.push(item.into_decl(line))?;
    }
    Ok(())
}

// Adds a COMMON statement.
fn share(
    alloc: Global,
    commons: &mut Vec<Common>,
    line: u32,
    block: Name,
    items: Vec<Item>,
) -> Result<(), Memory>
    ensures { OnOk result (map common_of commons.new.items ≡ map common_of commons.old.items ++ unit.common_of line block (map item_of items.items) ∷ []) }
{
    let mut decls = Vec::new(alloc);
    declare(&mut decls, line, items)?;
    let members = Decls::new(decls);
    commons.push(Common {
        line,
        block,
        members,
    })?;
    Ok(())
}

impl Current {
    /// A unit behind its SUBROUTINE.
    pub(crate) fn new(alloc: Global, line: u32, name: Name, dummies: NameList) -> Current
        ensures { current_of result ≡ begun line name dummies }
    {
        Current {
            line,
            name,
            dummies,
            none: false,
            decls: Vec::new(alloc),
            commons: Vec::new(alloc),
            phase: Phase::Heading,
            nest: Nest::new(alloc),
        }
    }

    /// Whether a statement of this class may stand here, if only by closing a block round a loop with a label.
    pub(crate) fn admits(&self, kind: Kind) -> bool
        ensures { result ≡ (may_follow kind (current_of self.now).phase && (suits kind (current_of self.now).nest.blocks || leaves_loop kind (current_of self.now).nest.blocks)) }
    {
        self.phase.admits(kind) && (self.nest.suits(kind) || self.nest.leaves_loop(kind))
    }

    /// Takes another statement of this line and label than SUBROUTINE and END, with the mark of the directive before it.
    pub(crate) fn follow(
        &mut self,
        alloc: Global,
        line: u32,
        label: u32,
        mark: Mark,
        said: Said,
    ) -> Result<(), Memory>
        ensures { OnOk result (current_of self.new ≡ continued (current_of self.old) line label (form_of (mark_of mark) said)) }
    {
        match said {
            Said::ImplicitNone => {
                self.none = true;
                self.phase = Phase::Declaring;
                Ok(())
            }
            Said::Integers(items) => {
                self.phase = Phase::Declaring;
                declare(&mut self.decls, line, items)
            }
            Said::Common(block, items) => {
                self.phase = Phase::Declaring;
                share(alloc, &mut self.commons, line, block, items)
            }
            Said::Return => {
                self.phase = Phase::Leaving;
                Ok(())
            }
            said => {
                self.phase = Phase::Acting;
                self.nest.follow(alloc, line, label, mark, said)
            }
        }
    }

    /// The unit at its END.
    pub(crate) fn finished(self, alloc: Global) -> Result<SharedUnit, Memory>
        ensures { IfOk result (λ u. shared_of u ≡ finished (current_of self)) }
    {
        let Current {
            line,
            name,
            dummies,
            none,
            decls,
            commons,
            phase: _,
            nest,
        } = self;
        let mut body = nest.into_body(alloc)?;
        body.share(alloc, &mut NameTable::new(alloc))?;
        let unit = Unit {
            line,
            name,
            dummies,
            none,
            decls: Decls::new(decls),
            body,
        };
        let commons = Commons::new(commons);
        Ok(SharedUnit { unit, commons })
    }
}
