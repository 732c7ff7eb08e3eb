//! Expressions, read from left to right with a stack.
#![tactic(auto, using(crate::proofs::StackLemmas::stacks))]

ghost use Rattle.std.specs.Prelude.{◌≡◌, ◌<◌, ◌∷◌, Some, map, IfOk, option_map};
ghost use Rattle.adj_tree.specs.View.{op_of};
ghost use Rattle.def_text.specs.Lexeme.{Mark, lexeme};
ghost use Rattle.def_text.specs.Machine as machine;
ghost use Rattle.def_text.specs.Machine.{begin_sign, begin, end_group, next_argument, add, multiply, go_on, behind_name, close_product, close_sum, step, finish};
ghost use Rattle.adj_parse_expression.specs.Partial.{algebra, operand_of};
ghost use Rattle.adj_parse_expression.specs.Stack.{stack_of, seen_of, closed, Makes, Steps};

use crate::frame::{Frame, Seen, close_product, close_sum, is_sum_start};
use crate::intrinsic::takes;
use crate::operand::Operand;
use crate::stack::push;
use adj_tree::{Memory, Name, Op};
use def_text::TokenKind;
use std::alloc::Global;

/// What a lexeme makes of what stands to the left.
#[derive(Drop)]
pub(crate) enum Stepped {
    On(Seen),
    /// No expression goes on with the lexeme. Sums may have been made.
    Stuck(Seen),
}

fn begin_sign(frames: &mut Vec<Frame>, op: Op, limit: u32) -> Result<Stepped, Memory>
    ensures { IfOk result (λ next. Makes (algebra limit) (begin_sign (op_of op) (stack_of frames.old.items)) None frames.new.items next) }
{
    if !is_sum_start(frames) {
        return Ok(Stepped::Stuck(Seen::Nothing));
    }
    push(frames, Frame::Signed(op))?;
    Ok(Stepped::On(Seen::Nothing))
}

// A lexeme where an operand is wanted.
fn begin(
    alloc: Global,
    frames: &mut Vec<Frame>,
    kind: TokenKind,
    text: &[u8],
    limit: u32,
) -> Result<Stepped, Memory>
    requires { limit < 1000 }
    ensures { IfOk result (λ next. Makes (algebra limit) (begin (algebra limit) (stack_of frames.old.items) (lexeme kind text.now)) None frames.new.items next) }
{
    match kind {
        TokenKind::Name => {
            let name = Name::from_slice(alloc, text)?;
            Ok(Stepped::On(Seen::Callee(name)))
        }
        TokenKind::Number => {
            let literal = Operand::literal(alloc, text, limit)?;
            Ok(Stepped::On(Seen::Operand(literal)))
        }
        TokenKind::Left => {
            push(frames, Frame::Group)?;
            Ok(Stepped::On(Seen::Nothing))
        }
        TokenKind::Plus => begin_sign(frames, Op::Add, limit),
        TokenKind::Minus => begin_sign(frames, Op::Sub, limit),
        _ => Ok(Stepped::Stuck(Seen::Nothing)),
    }
}

// The last argument, and the parenthesis behind it.
fn end_call(
    alloc: Global,
    frames: &mut Vec<Frame>,
    name: Name,
    before: Vec<Operand>,
    last: Operand,
    limit: u32,
) -> Result<Stepped, Memory>
    requires { limit < 1000 }
    ensures { IfOk result (λ next. Makes (algebra limit) (end_group (algebra limit) (machine.Called name (map operand_of before.items) ∷ stack_of frames.old.items, operand_of last)) (Some (machine.Called name (map operand_of before.items) ∷ stack_of frames.old.items, operand_of last)) frames.new.items next) }
{
    if !takes(name.bytes(), before.len() + 1) {
        push(frames, Frame::Called(name, before))?;
        return Ok(Stepped::Stuck(Seen::Operand(last)));
    }
    let applied = Operand::application(name, alloc, before, last, limit)?;
    Ok(Stepped::On(Seen::Operand(applied)))
}

// A parenthesis behind a sum.
fn end_group(
    alloc: Global,
    frames: &mut Vec<Frame>,
    operand: Operand,
    limit: u32,
) -> Result<Stepped, Memory>
    requires { limit < 1000 }
    ensures { IfOk result (λ next. Makes (algebra limit) (end_group (algebra limit) (stack_of frames.old.items, operand_of operand)) (Some (close_sum (algebra limit) (stack_of frames.old.items) (operand_of operand))) frames.new.items next) }
{
    match frames.pop() {
        Some(Frame::Group) => Ok(Stepped::On(Seen::Operand(operand))),
        Some(Frame::Called(name, before)) => end_call(alloc, frames, name, before, operand, limit),
        Some(outer) => {
            push(frames, outer)?;
            Ok(Stepped::Stuck(Seen::Operand(operand)))
        }
        None => Ok(Stepped::Stuck(Seen::Operand(operand))),
    }
}

// A comma behind a sum.
fn next_argument(frames: &mut Vec<Frame>, operand: Operand, limit: u32) -> Result<Stepped, Memory>
    ensures { IfOk result (λ next. Makes (algebra limit) (next_argument (stack_of frames.old.items, operand_of operand)) (Some (close_sum (algebra limit) (stack_of frames.old.items) (operand_of operand))) frames.new.items next) }
{
    match frames.pop() {
        Some(Frame::Called(name, before)) => {
            let mut before = before;
            push(&mut before, operand)?;
            push(frames, Frame::Called(name, before))?;
            Ok(Stepped::On(Seen::Nothing))
        }
        Some(outer) => {
            push(frames, outer)?;
            Ok(Stepped::Stuck(Seen::Operand(operand)))
        }
        None => Ok(Stepped::Stuck(Seen::Operand(operand))),
    }
}

fn add(
    alloc: Global,
    frames: &mut Vec<Frame>,
    operand: Operand,
    op: Op,
    limit: u32,
) -> Result<Stepped, Memory>
    requires { limit < 1000 }
    ensures { IfOk result (λ next. Makes (algebra limit) (Some (add (op_of op) (close_sum (algebra limit) (stack_of frames.old.items) (operand_of operand)))) None frames.new.items next) }
{
    let left = close_sum(alloc, frames, operand, limit)?;
    push(frames, Frame::Added(op, left))?;
    Ok(Stepped::On(Seen::Nothing))
}

fn multiply(
    alloc: Global,
    frames: &mut Vec<Frame>,
    operand: Operand,
    op: Op,
    limit: u32,
) -> Result<Stepped, Memory>
    requires { limit < 1000 }
    ensures { IfOk result (λ next. Makes (algebra limit) (Some (multiply (op_of op) (close_product (algebra limit) (stack_of frames.old.items) (operand_of operand)))) None frames.new.items next) }
{
    let left = close_product(alloc, frames, operand, limit)?;
    push(frames, Frame::Multiplied(op, left))?;
    Ok(Stepped::On(Seen::Nothing))
}

// A lexeme behind an operand.
fn go_on(
    alloc: Global,
    frames: &mut Vec<Frame>,
    operand: Operand,
    kind: TokenKind,
    limit: u32,
) -> Result<Stepped, Memory>
    requires { limit < 1000 }
    ensures { IfOk result (λ next. Makes (algebra limit) (go_on (algebra limit) (stack_of frames.old.items) (operand_of operand) (Mark kind)) (Some (close_sum (algebra limit) (stack_of frames.old.items) (operand_of operand))) frames.new.items next) }
{
    match kind {
        TokenKind::Plus => add(alloc, frames, operand, Op::Add, limit),
        TokenKind::Minus => add(alloc, frames, operand, Op::Sub, limit),
        TokenKind::Star => multiply(alloc, frames, operand, Op::Mul, limit),
        TokenKind::Slash => multiply(alloc, frames, operand, Op::Quot, limit),
        TokenKind::Power => {
            push(frames, Frame::Base(operand))?;
            Ok(Stepped::On(Seen::Nothing))
        }
        TokenKind::Right => {
            let sum = close_sum(alloc, frames, operand, limit)?;
            end_group(alloc, frames, sum, limit)
        }
        TokenKind::Comma => {
            let sum = close_sum(alloc, frames, operand, limit)?;
            next_argument(frames, sum, limit)
        }
        _ => Ok(Stepped::Stuck(Seen::Operand(operand))),
    }
}

// A lexeme behind a name.
fn behind_name(
    alloc: Global,
    frames: &mut Vec<Frame>,
    name: Name,
    kind: TokenKind,
    limit: u32,
) -> Result<Stepped, Memory>
    requires { limit < 1000 }
    ensures { IfOk result (λ next. Makes (algebra limit) (behind_name (algebra limit) (stack_of frames.old.items) name (Mark kind)) (closed (algebra limit) (stack_of frames.old.items, machine.Callee name)) frames.new.items next) }
{
    if kind == TokenKind::Left {
        push(frames, Frame::Called(name, Vec::new(alloc)))?;
        return Ok(Stepped::On(Seen::Nothing));
    }
    let operand = Operand::scalar(name, alloc, limit)?;
    go_on(alloc, frames, operand, kind, limit)
}

/// The next lexeme, with its characters.
pub(crate) fn step(
    alloc: Global,
    frames: &mut Vec<Frame>,
    seen: Seen,
    kind: TokenKind,
    text: &[u8],
    limit: u32,
) -> Result<Stepped, Memory>
    requires { limit < 1000 }
    ensures { IfOk result (λ next. Steps (algebra limit) (stack_of frames.old.items, seen_of seen) (lexeme kind text.now) frames.new.items next) }
{
    match seen {
        Seen::Nothing => begin(alloc, frames, kind, text, limit),
        Seen::Callee(name) => behind_name(alloc, frames, name, kind, limit),
        Seen::Operand(operand) => go_on(alloc, frames, operand, kind, limit),
    }
}

/// The operand behind the frames that are left open, once all sums are made; none where an operand is wanted.
pub(crate) fn close(
    alloc: Global,
    frames: &mut Vec<Frame>,
    seen: Seen,
    limit: u32,
) -> Result<Option<Operand>, Memory>
    requires { limit < 1000 }
    ensures { IfOk result (λ found. option_map (λ x. (stack_of frames.new.items, operand_of x)) found ≡ closed (algebra limit) (stack_of frames.old.items, seen_of seen)) }
{
    let operand = match seen {
        Seen::Nothing => return Ok(None),
        Seen::Callee(name) => Operand::scalar(name, alloc, limit)?,
        Seen::Operand(operand) => operand,
    };
    Ok(Some(close_sum(alloc, frames, operand, limit)?))
}

/// The expression, at its end; none where it isn't whole.
pub(crate) fn finish(
    alloc: Global,
    mut frames: Vec<Frame>,
    seen: Seen,
    limit: u32,
) -> Result<Option<Operand>, Memory>
    requires { limit < 1000 }
    ensures { IfOk result (λ found. option_map operand_of found ≡ finish (algebra limit) (stack_of frames.items, seen_of seen)) }
{
    let Some(operand) = close(alloc, &mut frames, seen, limit)? else {
        return Ok(None);
    };
    if frames.is_empty() {
        Ok(Some(operand))
    } else {
        Ok(None)
    }
}
