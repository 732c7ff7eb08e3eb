//! Operands that wait for what stands to their right.
#![tactic(auto, using(crate::proofs::StackLemmas::stacks))]

ghost use Rattle.std.specs.Prelude.{◌≡◌, ◌<◌, IfOk};
ghost use Rattle.def_text.specs.Machine.{close_product, close_sum, is_sum_start};
ghost use Rattle.adj_parse_expression.specs.Partial.{algebra, operand_of};
ghost use Rattle.adj_parse_expression.specs.Stack.{stack_of};

use crate::operand::Operand;
use crate::stack::push;
use adj_tree::{Memory, Name, Op};
use std::alloc::Global;

/// What waits for its right operand, or for its next argument.
#[derive(Drop)]
pub(crate) enum Frame {
    /// Behind an open parenthesis.
    Group,
    /// A name, behind its open parenthesis, with the arguments that are read.
    Called(Name, Vec<Operand>),
    Signed(Op),
    Added(Op, Operand),
    Multiplied(Op, Operand),
    /// Behind `**`.
    Base(Operand),
}

impl Frame {
    ghost use Rattle.adj_parse_expression.specs.Stack.{frame_of, is_open, is_tight, bound};

    // Whether it waits for a parenthesis.
    fn is_open(&self) -> bool
        ensures { result ≡ is_open (frame_of self.now) }
    {
        matches!(self, Frame::Group | Frame::Called(_, _))
    }

    // Whether it waits for the rest of a product.
    fn is_tight(&self) -> bool
        ensures { result ≡ is_tight (frame_of self.now) }
    {
        matches!(self, Frame::Multiplied(_, _) | Frame::Base(_))
    }

    // The operand, with what waits for it.
    fn bound(self, alloc: Global, operand: Operand, limit: u32) -> Result<Operand, Memory>
        requires { limit < 1000 }
        ensures { IfOk result (λ x. operand_of x ≡ bound (algebra limit) (frame_of self) (operand_of operand)) }
    {
        match self {
            Frame::Base(left) => left.powered(alloc, operand, limit),
            Frame::Multiplied(op, left) => left.combined(alloc, op, operand, limit),
            Frame::Added(op, left) => left.combined(alloc, op, operand, limit),
            Frame::Signed(op) => operand.with_sign(alloc, op, limit),
            Frame::Group | Frame::Called(_, _) => Ok(operand),
        }
    }
}

/// What stands to the left.
#[derive(Drop)]
pub(crate) enum Seen {
    Nothing,
    /// A name that arguments may follow.
    Callee(Name),
    Operand(Operand),
}

/// The operand to the left, once its powers and products are made.
pub(crate) fn close_product(
    alloc: Global,
    frames: &mut Vec<Frame>,
    operand: Operand,
    limit: u32,
) -> Result<Operand, Memory>
    requires { limit < 1000 }
    ensures { IfOk result (λ x. (stack_of frames.new.items, operand_of x) ≡ close_product (algebra limit) (stack_of frames.old.items) (operand_of operand)) }
{
    let mut operand = operand;
    while let Some(frame) = frames.pop() {
        if !frame.is_tight() {
            push(frames, frame)?;
            return Ok(operand);
        }
        operand = frame.bound(alloc, operand, limit)?;
    }
    Ok(operand)
}

/// The operand to the left, once its sums are made.
pub(crate) fn close_sum(
    alloc: Global,
    frames: &mut Vec<Frame>,
    operand: Operand,
    limit: u32,
) -> Result<Operand, Memory>
    requires { limit < 1000 }
    ensures { IfOk result (λ x. (stack_of frames.new.items, operand_of x) ≡ close_sum (algebra limit) (stack_of frames.old.items) (operand_of operand)) }
{
    let mut operand = operand;
    while let Some(frame) = frames.pop() {
        if frame.is_open() {
            push(frames, frame)?;
            return Ok(operand);
        }
        operand = frame.bound(alloc, operand, limit)?;
    }
    Ok(operand)
}

/// Whether a sign may stand here.
pub(crate) fn is_sum_start(frames: &[Frame]) -> bool
    ensures { result ≡ is_sum_start (stack_of frames.now) }
{
    matches!(
        frames.last(),
        None | Some(Frame::Group) | Some(Frame::Called(_, _))
    )
}
