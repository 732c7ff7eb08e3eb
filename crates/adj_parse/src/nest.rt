//! The blocks that are open in a unit.
#![tactic(auto, using(crate::proofs::Stacks::stacks))]

ghost use Rattle.std.specs.Prelude.{◌≡◌, ◌-◌, length, OnOk, IfOk};
ghost use Rattle.std.specs.List.{list_any};
ghost use Rattle.adj_tree.specs.Code.{choose, stop, step};
ghost use Rattle.adj_tree.specs.Listed.{code_listed};
ghost use Rattle.adj_tree.specs.View.{test_of, mark_of, act_of, code_of};
ghost use Rattle.adj_parse.specs.Blocks.{no_blocks, add, begin, turn, close, close_while, acted};
ghost use Rattle.adj_parse.specs.Order.{innermost_is, some_is, awaits_else, suits, reaches_out, leaves_loop, breaks_loop};
ghost use Rattle.adj_parse.specs.NestView.{part_of, is_shape, turn_of, blocks_of, nest_of};
ghost use Rattle.adj_parse_statement.specs.View.{form_of};

use crate::block::{Block, Part, Shape, Turn};
use adj_parse_statement::Said;
use adj_tree::{Act, Cond, Mark, Memory, Stmt, Stmts, boxed};
use def_text::Kind;
use std::alloc::Global;
use std::mem;

/// The open blocks, the innermost last, and the statements of the innermost so far.
pub(crate) struct Nest {
    blocks: Vec<Block>,
    acts: Vec<Stmt>,
}

impl Drop for Nest {
    fn drop(self) {
        let Nest {
            blocks: _blocks,
            acts: _acts,
        } = self;
    }
}

fn last_is(blocks: &[Block], shape: Shape) -> bool
    ensures { result ≡ innermost_is (is_shape shape) (blocks_of blocks.now) }
{
    match blocks.last() {
        Some(block) => block.part.is(shape),
        None => false,
    }
}

fn any_is(blocks: &[Block], shape: Shape) -> bool
    ensures { result ≡ list_any (λ b. is_shape shape (part_of b.part)) blocks.now }
{
    blocks.iter().any(|block| block.part.is(shape))
}

fn awaits_else(blocks: &[Block]) -> bool
    ensures { result ≡ awaits_else (blocks_of blocks.now) }
{
    let mut outer = blocks;
    while let Some((block, rest)) = outer.split_last() {
        match block.part {
            Part::If(_) => return true,
            Part::Else(_, _) => return false,
            _ => outer = rest,
        }
    }
    false
}

impl Nest {
    /// No block is open, and no statement came.
    pub(crate) fn new(alloc: Global) -> Nest
        ensures { nest_of result ≡ no_blocks }
    {
        Nest {
            blocks: Vec::new(alloc),
            acts: Vec::new(alloc),
        }
    }

    /// How many blocks are open.
    pub(crate) fn depth(&self) -> usize
        ensures { result ≡ length (nest_of self.now).blocks }
    {
        self.blocks.len()
    }

    // Adds a statement to those of the innermost block.
    fn add(&mut self, line: u32, act: Act) -> Result<(), Memory>
        ensures { OnOk result (nest_of self.new ≡ add (nest_of self.old) line (act_of act)) }
    {
        self.acts.push(Stmt { line, act })?;
        Ok(())
    }

    // Opens a block.
    fn begin(&mut self, alloc: Global, line: u32, part: Part) -> Result<(), Memory>
        ensures { OnOk result (nest_of self.new ≡ begin (nest_of self.old) line (part_of part)) }
    {
        let before = mem::replace(&mut self.acts, Vec::new(alloc));
        self.blocks.push(Block { line, before, part })?;
        Ok(())
    }

    // Begins another part of the innermost IF.
    fn turn(&mut self, alloc: Global, to: Turn) -> Result<(), Memory>
        ensures { OnOk result (nest_of self.new ≡ turn (turn_of to) (nest_of self.old).blocks (nest_of self.old).acts) }
    {
        let Some(block) = self.blocks.pop() else {
            return Ok(());
        };
        let acts = mem::replace(&mut self.acts, Vec::new(alloc));
        let first = Stmts::from_vec(alloc, acts)?;
        self.blocks.push(Block {
            line: block.line,
            before: block.before,
            part: block.part.turned(to, first),
        })?;
        Ok(())
    }

    // Ends the innermost block.
    fn close(&mut self, alloc: Global) -> Result<(), Memory>
        ensures closed { OnOk result (nest_of self.new ≡ close (nest_of self.old).blocks (nest_of self.old).acts) }
        ensures fewer { OnOk result (length self.new.blocks.items ≡ length self.old.blocks.items - 1) }
    {
        let Some(block) = self.blocks.pop() else {
            return Ok(());
        };
        let acts = mem::replace(&mut self.acts, block.before);
        let body = Stmts::from_vec(alloc, acts)?;
        self.add(block.line, block.part.whole(body))
    }

    // Whether the innermost block is of this shape.
    fn innermost_is(&self, shape: Shape) -> bool
        ensures { result ≡ innermost_is (is_shape shape) (nest_of self.now).blocks }
    {
        last_is(self.blocks.as_slice(), shape)
    }

    // Ends the innermost blocks as long as they are of this shape.
    fn close_while(&mut self, alloc: Global, shape: Shape) -> Result<(), Memory>
        ensures { OnOk result (nest_of self.new ≡ close_while (is_shape shape) (nest_of self.old).blocks (nest_of self.old).acts) }
    {
        while self.innermost_is(shape) {
            self.close(alloc)?;
        }
        Ok(())
    }

    // Whether a block of this shape is open.
    fn some_is(&self, shape: Shape) -> bool
        ensures { result ≡ some_is (is_shape shape) (nest_of self.now).blocks }
    {
        any_is(self.blocks.as_slice(), shape)
    }

    // Whether the innermost open IF has no ELSE yet.
    fn awaits_else(&self) -> bool
        ensures { result ≡ awaits_else (nest_of self.now).blocks }
    {
        awaits_else(self.blocks.as_slice())
    }

    /// Whether the innermost open block is the one that a statement of this class ends or turns.
    pub(crate) fn suits(&self, kind: Kind) -> bool
        ensures { result ≡ suits kind (nest_of self.now).blocks }
    {
        match kind {
            Kind::Return | Kind::End => self.blocks.is_empty(),
            Kind::EndDo => self.innermost_is(Shape::Unlabelled),
            Kind::EndIf => self.innermost_is(Shape::Either),
            Kind::Else | Kind::ElseIf => self.innermost_is(Shape::First),
            _ => true,
        }
    }

    // Whether a statement of this class ends or turns a block that is open further out.
    fn reaches_out(&self, kind: Kind) -> bool
        ensures { result ≡ reaches_out kind (nest_of self.now).blocks }
    {
        match kind {
            Kind::End => true,
            Kind::EndDo => self.some_is(Shape::Unlabelled),
            Kind::EndIf => self.some_is(Shape::Either),
            Kind::Else | Kind::ElseIf => self.awaits_else(),
            _ => false,
        }
    }

    /// Whether a statement of this class closes an outer block while a loop with a label is the innermost.
    pub(crate) fn leaves_loop(&self, kind: Kind) -> bool
        ensures { result ≡ leaves_loop kind (nest_of self.now).blocks }
    {
        self.innermost_is(Shape::Labelled) && self.reaches_out(kind)
    }

    /// Whether a loop with a label doesn't end on its CONTINUE.
    pub(crate) fn breaks_loop(&self, kind: Kind, label: u32) -> bool
        ensures { result ≡ breaks_loop kind label (nest_of self.now).blocks }
    {
        let own = Shape::LoopOf(label);
        self.leaves_loop(kind)
            || self.some_is(own) && !(kind == Kind::Continue && self.innermost_is(own))
    }

    // Adds an IF with one statement.
    fn add_guarded(&mut self, alloc: Global, line: u32, cond: Cond, act: Act) -> Result<(), Memory>
        ensures { OnOk result (nest_of self.new ≡ add (nest_of self.old) line (choose (test_of cond) (step line (act_of act) stop) stop)) }
    {
        let body = Stmts::Empty.behind(alloc, Stmt { line, act })?;
        self.add(line, Act::If(cond, body, Stmts::Empty))
    }

    /// Takes an executable statement of this line and label, where it may stand, with the mark of the directive before it.
    pub(crate) fn follow(
        &mut self,
        alloc: Global,
        line: u32,
        label: u32,
        mark: Mark,
        said: Said,
    ) -> Result<(), Memory>
        ensures { OnOk result (nest_of self.new ≡ acted (nest_of self.old) line label (form_of (mark_of mark) said)) }
    {
        match said {
            Said::Simple(act) => self.add(line, act),
            Said::Guarded(cond, act) => self.add_guarded(alloc, line, cond, act),
            Said::Do(own, range) => {
                let kept = boxed(alloc, mark)?;
                self.begin(alloc, line, Part::Loop(own, range, kept))
            }
            Said::While(cond) => self.begin(alloc, line, Part::While(cond)),
            Said::EndDo => self.close(alloc),
            Said::Continue => self.close_while(alloc, Shape::LoopOf(label)),
            Said::If(cond) => self.begin(alloc, line, Part::If(cond)),
            Said::Else => self.turn(alloc, Turn::Else),
            Said::ElseIf(cond) => {
                self.turn(alloc, Turn::ElseIf)?;
                self.begin(alloc, line, Part::If(cond))
            }
            Said::EndIf => {
                self.close(alloc)?;
                self.close_while(alloc, Shape::Chain)
            }
            _ => Ok(()),
        }
    }

    /// The statements of a unit without an open block.
    pub(crate) fn into_body(self, alloc: Global) -> Result<Stmts, Memory>
        ensures { IfOk result (λ body. code_of body ≡ code_listed (nest_of self).acts) }
    {
        let Nest {
            blocks: _blocks,
            acts,
        } = self;
        Stmts::from_vec(alloc, acts)
    }
}
