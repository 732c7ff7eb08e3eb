//! Conditions, read from left to right with a stack.
#![tactic(auto, using(crate::proofs::WaitLemmas::waits))]

ghost use Rattle.std.specs.Prelude.{◌≡◌, ◌<◌, [], None, IfOk, option_map};
ghost use Rattle.adj_tree.specs.View.{rel_of};
ghost use Rattle.def_text.specs.Lexeme.{lexeme, Mark};
ghost use Rattle.def_text.specs.Machine.{wanting};
ghost use Rattle.adj_parse_expression.specs.ConditionMachine.{First, Made, beginning, end_condition, end_operand, relation_of, behind_left, compare_with, begin_not, alone, conclude};
ghost use Rattle.adj_parse_expression.specs.Partial.{operand_of};
ghost use Rattle.adj_parse_expression.specs.PartialCondition.{test_algebra, proposition_of};
ghost use Rattle.adj_parse_expression.specs.Waits.{reading_of, comparison_of, waits_of, inside_of, Turns, Advances};

use crate::frame::{Frame, Seen};
use crate::machine::{Stepped, finish, step};
use crate::operand::Operand;
use crate::proposition::Proposition;
use crate::stack::push;
use crate::waiting::{Waiting, alone, close_all, conjoin, deny};
use adj_tree::{Memory, Rel};
use def_text::TokenKind;
use std::alloc::Global;

/// An expression that is being read.
#[derive(Drop)]
pub(crate) struct Reading {
    frames: Vec<Frame>,
    seen: Seen,
}

/// A comparison whose right operand is being read.
#[derive(Drop)]
pub(crate) struct Comparison {
    rel: Rel,
    left: Operand,
    right: Reading,
}

/// What is being read.
#[derive(Drop)]
pub(crate) enum Inside {
    /// Nothing yet: a comparison, `.NOT.` or a parenthesis is wanted.
    Fresh,
    /// The left operand of a comparison, or an expression in parentheses before it.
    First(Reading),
    /// The right operand of a comparison.
    Second(Comparison),
    /// A condition that is whole.
    Made(Proposition),
}

/// What a lexeme makes of what stands to the left.
#[derive(Drop)]
pub(crate) enum Advanced {
    On(Inside),
    /// No condition goes on with the lexeme. The condition that is whole here, if there is one.
    Stuck(Option<Proposition>),
}

impl Reading {
    // Nothing is read yet.
    fn begin(alloc: Global) -> Reading
        ensures { reading_of result ≡ wanting [] }
    {
        Reading {
            frames: Vec::new(alloc),
            seen: Seen::Nothing,
        }
    }
}

// A parenthesis is closed behind a condition.
fn end_condition(
    alloc: Global,
    waits: &mut Vec<Waiting>,
    made: Proposition,
    limit: u32,
) -> Result<Advanced, Memory>
    requires { limit < 1000 }
    ensures { IfOk result (λ next. Turns (end_condition (test_algebra limit) (waits_of waits.old.items, proposition_of made)) (alone (waits_of waits.old.items, proposition_of made)) waits.new.items next) }
{
    match waits.pop() {
        Some(Waiting::Opened) => Ok(Advanced::On(Inside::Made(deny(alloc, waits, made, limit)?))),
        Some(_) => Ok(Advanced::Stuck(None)),
        None => Ok(Advanced::Stuck(Some(made))),
    }
}

// A lexeme behind a condition.
fn behind_condition(
    alloc: Global,
    waits: &mut Vec<Waiting>,
    made: Proposition,
    kind: TokenKind,
    limit: u32,
) -> Result<Advanced, Memory>
    requires { limit < 1000 }
    ensures { IfOk result (λ next. Advances limit (waits_of waits.old.items, Made (proposition_of made)) (Mark kind) waits.new.items next) }
{
    match kind {
        TokenKind::And => {
            let made = conjoin(alloc, waits, made, limit)?;
            push(waits, Waiting::Anded(made))?;
            Ok(Advanced::On(Inside::Fresh))
        }
        TokenKind::Or => {
            let made = close_all(alloc, waits, made, limit)?;
            push(waits, Waiting::Ored(made))?;
            Ok(Advanced::On(Inside::Fresh))
        }
        TokenKind::Right => {
            let made = close_all(alloc, waits, made, limit)?;
            end_condition(alloc, waits, made, limit)
        }
        _ => Ok(Advanced::Stuck(alone(alloc, waits, made, limit)?)),
    }
}

fn relation_of(kind: TokenKind) -> Option<Rel>
    ensures { option_map rel_of result ≡ relation_of kind }
{
    match kind {
        TokenKind::Lt => Some(Rel::Lt),
        TokenKind::Le => Some(Rel::Le),
        TokenKind::Eq => Some(Rel::Eq),
        TokenKind::Ne => Some(Rel::Ne),
        TokenKind::Gt => Some(Rel::Gt),
        TokenKind::Ge => Some(Rel::Ge),
        _ => None,
    }
}

// A parenthesis is closed behind an expression.
fn end_operand(alloc: Global, waits: &mut Vec<Waiting>, operand: Operand) -> Advanced
    ensures { Turns (end_operand (waits_of waits.old.items) (operand_of operand)) None waits.new.items result }
{
    match waits.pop() {
        Some(Waiting::Opened) => Advanced::On(Inside::First(Reading {
            frames: Vec::new(alloc),
            seen: Seen::Operand(operand),
        })),
        _ => Advanced::Stuck(None),
    }
}

// A lexeme that doesn't go on with the left operand.
fn behind_left(alloc: Global, waits: &mut Vec<Waiting>, left: Operand, kind: TokenKind) -> Advanced
    ensures { Turns (behind_left (waits_of waits.old.items) (Mark kind) (operand_of left)) None waits.new.items result }
{
    if kind == TokenKind::Right {
        return end_operand(alloc, waits, left);
    }
    match relation_of(kind) {
        Some(rel) => Advanced::On(Inside::Second(Comparison {
            rel,
            left,
            right: Reading::begin(alloc),
        })),
        None => Advanced::Stuck(None),
    }
}

// The next lexeme, where a left operand is read.
fn go_on_left(
    alloc: Global,
    waits: &mut Vec<Waiting>,
    left: Reading,
    kind: TokenKind,
    text: &[u8],
    limit: u32,
) -> Result<Advanced, Memory>
    requires { limit < 1000 }
    ensures { IfOk result (λ next. Advances limit (waits_of waits.old.items, First (reading_of left)) (lexeme kind text.now) waits.new.items next) }
{
    let Reading { mut frames, seen } = left;
    match step(alloc, &mut frames, seen, kind, text, limit)? {
        Stepped::On(seen) => Ok(Advanced::On(Inside::First(Reading { frames, seen }))),
        Stepped::Stuck(seen) => match finish(alloc, frames, seen, limit)? {
            Some(operand) => Ok(behind_left(alloc, waits, operand, kind)),
            None => Ok(Advanced::Stuck(None)),
        },
    }
}

// The comparison of two expressions, once the `.NOT.` before it is made.
fn compare_with(
    alloc: Global,
    waits: &mut Vec<Waiting>,
    rel: Rel,
    left: Operand,
    right: Operand,
    limit: u32,
) -> Result<Proposition, Memory>
    requires { limit < 1000 }
    ensures { IfOk result (λ c. (waits_of waits.new.items, proposition_of c) ≡ compare_with (test_algebra limit) (waits_of waits.old.items) (rel_of rel) (operand_of left) (operand_of right)) }
{
    let made = Proposition::compared(alloc, rel, left, right, limit)?;
    deny(alloc, waits, made, limit)
}

// The next lexeme, where a right operand is read.
fn go_on_right(
    alloc: Global,
    waits: &mut Vec<Waiting>,
    comparison: Comparison,
    kind: TokenKind,
    text: &[u8],
    limit: u32,
) -> Result<Advanced, Memory>
    requires { limit < 1000 }
    ensures { IfOk result (λ next. Advances limit (waits_of waits.old.items, comparison_of comparison) (lexeme kind text.now) waits.new.items next) }
{
    let Comparison { rel, left, right } = comparison;
    let Reading { mut frames, seen } = right;
    match step(alloc, &mut frames, seen, kind, text, limit)? {
        Stepped::On(seen) => {
            let right = Reading { frames, seen };
            Ok(Advanced::On(Inside::Second(Comparison { rel, left, right })))
        }
        Stepped::Stuck(seen) => match finish(alloc, frames, seen, limit)? {
            Some(operand) => {
                let made = compare_with(alloc, waits, rel, left, operand, limit)?;
                behind_condition(alloc, waits, made, kind, limit)
            }
            None => Ok(Advanced::Stuck(None)),
        },
    }
}

fn begin_not(waits: &mut Vec<Waiting>) -> Result<Advanced, Memory>
    ensures { IfOk result (λ next. Turns (begin_not (waits_of waits.old.items)) None waits.new.items next) }
{
    if let Some(Waiting::Denied) = waits.last() {
        return Ok(Advanced::Stuck(None));
    }
    push(waits, Waiting::Denied)?;
    Ok(Advanced::On(Inside::Fresh))
}

// A lexeme where a comparison, `.NOT.` or a parenthesis is wanted.
fn begin_item(
    alloc: Global,
    waits: &mut Vec<Waiting>,
    kind: TokenKind,
    text: &[u8],
    limit: u32,
) -> Result<Advanced, Memory>
    requires { limit < 1000 }
    ensures { IfOk result (λ next. Advances limit (beginning (waits_of waits.old.items)) (lexeme kind text.now) waits.new.items next) }
{
    match kind {
        TokenKind::Left => {
            push(waits, Waiting::Opened)?;
            Ok(Advanced::On(Inside::Fresh))
        }
        TokenKind::Not => begin_not(waits),
        _ => {
            let left = Reading::begin(alloc);
            go_on_left(alloc, waits, left, kind, text, limit)
        }
    }
}

/// The next lexeme, with its characters.
pub(crate) fn advance(
    alloc: Global,
    waits: &mut Vec<Waiting>,
    inside: Inside,
    kind: TokenKind,
    text: &[u8],
    limit: u32,
) -> Result<Advanced, Memory>
    requires { limit < 1000 }
    ensures { IfOk result (λ next. Advances limit (waits_of waits.old.items, inside_of inside) (lexeme kind text.now) waits.new.items next) }
{
    match inside {
        Inside::Fresh => begin_item(alloc, waits, kind, text, limit),
        Inside::First(left) => go_on_left(alloc, waits, left, kind, text, limit),
        Inside::Second(comparison) => go_on_right(alloc, waits, comparison, kind, text, limit),
        Inside::Made(made) => behind_condition(alloc, waits, made, kind, limit),
    }
}

/// The condition, at its end; none where it isn't whole.
pub(crate) fn conclude(
    alloc: Global,
    waits: &mut Vec<Waiting>,
    inside: Inside,
    limit: u32,
) -> Result<Option<Proposition>, Memory>
    requires { limit < 1000 }
    ensures { IfOk result (λ found. option_map proposition_of found ≡ conclude (test_algebra limit) (waits_of waits.old.items, inside_of inside)) }
{
    match inside {
        Inside::Fresh => Ok(None),
        Inside::First(_) => Ok(None),
        Inside::Second(Comparison { rel, left, right }) => {
            match finish(alloc, right.frames, right.seen, limit)? {
                Some(operand) => {
                    let made = compare_with(alloc, waits, rel, left, operand, limit)?;
                    alone(alloc, waits, made, limit)
                }
                None => Ok(None),
            }
        }
        Inside::Made(made) => alone(alloc, waits, made, limit),
    }
}
