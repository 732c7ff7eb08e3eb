//! The statements of a text in order.

ghost use Rattle.std.specs.Prelude.{◌≡◌, ◌==◌, ℕ, List, Some, None, nat_le, ◌&&◌, length, IfOk, IfErr, OnOk, option_map};
ghost use Rattle.adj_tree.specs.Code as code;
ghost use Rattle.adj_tree.specs.View.{mark_of};
ghost use Rattle.adj_tree.specs.Common.{Shared};
ghost use Rattle.adj_tree.specs.CommonView.{shared_units_of};
ghost use Rattle.def_text.specs.Refused.{Gives, Fails};
ghost use Rattle.adj_parse_expression.specs.Front.{AreSlices};
ghost use Rattle.adj_parse_expression.specs.View.{seen};
ghost use Rattle.adj_parse.specs.Order.{breaks_loop, is_heading, opens_block};
ghost use Rattle.adj_parse.specs.Unit.{followed, open_blocks, is_misplaced};
ghost use Rattle.adj_parse.specs.Trees as trees;
ghost use Rattle.adj_parse.specs.Trees.{is_marked, has_stray_mark, is_large, is_deep, is_astray, is_full, with_form, checked, behind, start};
ghost use Rattle.adj_parse.specs.CurrentView.{current_of, units_of, state_of};
ghost use Rattle.adj_parse_statement.specs.View.{form_of};

use crate::bounds::Bounds;
use crate::current::Current;
use adj_parse_expression::Flaw;
use adj_parse_statement::{Said, said};
use adj_tree::{Code, Fault, Mark, Memory, SharedProgram, SharedUnit, SharedUnits};
use def_text::{Kind, Mode, Stated};
use std::alloc::Global;

/// The units so far, and how many more statements the text may have.
pub(crate) struct Parser {
    units: Vec<SharedUnit>,
    current: Option<Current>,
    room: u32,
}

impl Drop for Parser {
    fn drop(self) {
        let Parser {
            units: _units,
            current: _current,
            room: _,
        } = self;
    }
}

fn opens_block(kind: Kind) -> bool
    ensures { result ≡ opens_block kind }
{
    matches!(
        kind,
        Kind::Do | Kind::DoWhile | Kind::BlockIf | Kind::LogicalIf | Kind::ElseIf
    )
}

fn is_marked(mark: &Mark) -> bool
    ensures { result ≡ is_marked (mark_of mark.now) }
{
    !matches!(mark, Mark::Plain)
}

// Whether the directive before a statement isn't for one of its kind.
fn has_stray_mark(stated: &Stated) -> bool
    ensures { result ≡ has_stray_mark stated.now }
{
    (is_marked(&stated.mark) && stated.kind != Kind::Do)
        || (stated.split && stated.kind != Kind::Call)
}

fn is_large(found: &Option<Result<Said, Flaw>>) -> bool
    ensures { result ≡ is_large found.now }
{
    matches!(found, Some(Err(Flaw::Large)))
}

fn is_deep(found: &Option<Result<Said, Flaw>>) -> bool
    ensures { result ≡ is_deep found.now }
{
    matches!(found, Some(Err(Flaw::Deep)))
}

fn with_form(found: Option<Result<Said, Flaw>>, line: u32) -> Result<Said, Fault>
    ensures { Gives (λ said. said) result (with_form found line) }
{
    match found {
        Some(Ok(said)) => Ok(said),
        _ => Err(Fault::refused(Code::Exponent, line)),
    }
}

fn is_full(limit: Option<usize>, count: usize) -> bool
    ensures { result ≡ is_full limit count }
{
    match limit {
        None => false,
        Some(limit) => limit <= count,
    }
}

// The unit that a statement outside of units begins.
fn heading(alloc: Global, line: u32, said: Said) -> Option<Current>
    ensures { (label : ℕ) (mark : code.Mark) (done : List Shared) → followed done None line label (form_of mark said) ≡ record { done = done; current = option_map current_of result } }
{
    match said {
        Said::Subroutine(name, dummies) => Some(Current::new(alloc, line, name, dummies)),
        other => {
            drop(other);
            None
        }
    }
}

impl Parser {
    /// Before the first statement.
    pub(crate) fn new(alloc: Global, mode: Mode) -> Parser
        ensures { state_of result ≡ start mode }
    {
        Parser {
            units: Vec::new(alloc),
            current: None,
            room: Bounds::of(mode).statements,
        }
    }

    // Whether a statement of this class can't stand here.
    fn is_misplaced(&self, kind: Kind) -> bool
        ensures { result ≡ is_misplaced kind (state_of self.now).units.current }
    {
        match &self.current {
            None => kind != Kind::Subroutine,
            Some(current) => !current.admits(kind),
        }
    }

    // Whether a statement stands wrongly; a text ends with END.
    fn is_astray(&self, stated: &Stated, left: usize) -> bool
        ensures { result ≡ is_astray stated.now left (state_of self.now).units.current }
    {
        self.is_misplaced(stated.kind) || (left == 0 && stated.kind != Kind::End)
    }

    // Whether a loop with a label doesn't end on its CONTINUE.
    fn breaks_loop(&self, kind: Kind, label: u32) -> bool
        ensures { result ≡ breaks_loop kind label (open_blocks (state_of self.now).units.current) }
    {
        match &self.current {
            None => false,
            Some(current) => current.nest.breaks_loop(kind, label),
        }
    }

    // How many blocks are open.
    fn depth(&self) -> usize
        ensures { result ≡ length (open_blocks (state_of self.now).units.current) }
    {
        match &self.current {
            None => 0,
            Some(current) => current.nest.depth(),
        }
    }

    // Takes a statement of a unit.
    fn within(
        &mut self,
        alloc: Global,
        current: Current,
        line: u32,
        label: u32,
        mark: Mark,
        said: Said,
    ) -> Result<(), Memory>
        requires { self.old.current ≡ None }
        ensures placed { OnOk result (units_of self.new.units.items self.new.current ≡ followed (state_of self.old).units.done (Some (current_of current)) line label (form_of (mark_of mark) said)) }
        ensures room { self.new.room ≡ self.old.room }
    {
        let mut current = current;
        match said {
            Said::End => {
                self.units.push(current.finished(alloc)?)?;
                Ok(())
            }
            said => {
                current.follow(alloc, line, label, mark, said)?;
                self.current = Some(current);
                Ok(())
            }
        }
    }

    // Takes a statement of this line and label, where it may stand, with the mark of the directive before it.
    fn place(
        &mut self,
        alloc: Global,
        line: u32,
        label: u32,
        mark: Mark,
        said: Said,
    ) -> Result<(), Memory>
        ensures placed { OnOk result (units_of self.new.units.items self.new.current ≡ followed (state_of self.old).units.done (state_of self.old).units.current line label (form_of (mark_of mark) said)) }
        ensures room { self.new.room ≡ self.old.room }
    {
        match self.current.take() {
            None => {
                self.current = heading(alloc, line, said);
                Ok(())
            }
            Some(current) => self.within(alloc, current, line, label, mark, said),
        }
    }

    // The first limit that the next statement passes; where it passes none, the rest is its form.
    fn limit(
        &self,
        bounds: Bounds,
        stated: &Stated,
        found: &Option<Result<Said, Flaw>>,
    ) -> Result<(), Fault>
        ensures within { IfOk result (λ _. trees.limited_by bounds (state_of self.now) stated.now found.now ≡ with_form found.now stated.now.line) }
        ensures fault { IfErr result (λ e. Fails e (trees.limited_by bounds (state_of self.now) stated.now found.now)) }
    {
        let line = stated.line;
        if stated.kind == Kind::Subroutine && is_full(bounds.units, self.units.len()) {
            return Err(Fault::limited(bounds.units.unwrap_or(0) as u64, line));
        }
        if self.room == 0 {
            return Err(Fault::limited(u64::from(bounds.statements), line));
        }
        if is_deep(found) {
            return Err(Fault::limited(u64::from(bounds.depth), line));
        }
        if opens_block(stated.kind) && bounds.nesting <= self.depth() {
            return Err(Fault::limited(bounds.nesting as u64, line));
        }
        Ok(())
    }

    // The first fault of the next statement before that of its form.
    fn fault(
        &self,
        bounds: Bounds,
        stated: &Stated,
        left: usize,
        found: &Option<Result<Said, Flaw>>,
    ) -> Result<(), Fault>
        ensures within { IfOk result (λ _. checked bounds (state_of self.now) stated.now left found.now ≡ with_form found.now stated.now.line) }
        ensures fault { IfErr result (λ e. Fails e (checked bounds (state_of self.now) stated.now left found.now)) }
    {
        if has_stray_mark(stated) {
            return Err(Fault::refused(Code::Directive, stated.mark_line));
        }
        if found.is_none() || self.is_astray(stated, left) {
            return Err(Fault::refused(Code::Malformed, stated.line));
        }
        if is_large(found) {
            return Err(Fault::refused(Code::LargeNumber, stated.line));
        }
        if self.breaks_loop(stated.kind, stated.label) {
            return Err(Fault::refused(Code::LoopEnd, stated.line));
        }
        self.limit(bounds, stated, found)
    }

    // What the next statement says, behind which some are left, or its first fault.
    fn checked(
        &self,
        bounds: Bounds,
        stated: &Stated,
        left: usize,
        found: Option<Result<Said, Flaw>>,
    ) -> Result<Said, Fault>
        ensures { Gives (λ said. said) result (checked bounds (state_of self.now) stated.now left found) }
    {
        self.fault(bounds, stated, left, &found)?;
        with_form(found, stated.line)
    }

    /// Reads the next statement, behind which some are left, or refuses it.
    pub(crate) fn follow(
        &mut self,
        alloc: Global,
        mode: Mode,
        stated: &Stated,
        left: usize,
    ) -> Result<(), Fault>
        requires slices { AreSlices stated.now.text stated.now.tokens }
        ensures { Gives (λ _. state_of self.new) result (trees.follow mode (state_of self.old) stated.now left) }
    {
        let bounds = Bounds::of(mode);
        let mark = stated.mark.copy(alloc)?;
        let found = said(alloc, stated, bounds.depth)?;
        let said = self.checked(bounds, stated, left, found)?;
        self.place(alloc, stated.line, stated.label, mark, said)?;
        self.room = self.room.saturating_sub(1);
        Ok(())
    }

    /// The units behind the last statement.
    pub(crate) fn finish(self) -> SharedProgram
        ensures { shared_units_of result ≡ (state_of self).units.done }
    {
        let Parser {
            units,
            current: _current,
            room: _,
        } = self;
        SharedProgram {
            units: SharedUnits::new(units),
        }
    }
}
