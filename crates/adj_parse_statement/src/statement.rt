//! One statement.

ghost use Rattle.std.specs.Prelude.{◌≡◌, ◌<◌, IfOk, Ok, option_map};
ghost use Rattle.adj_tree.specs.Code.{Term, plain};
ghost use Rattle.adj_tree.specs.View.{term_of, test_of, mark_of, act_of};
ghost use Rattle.def_text.specs.Lexeme.{lexemes_of};
ghost use Rattle.adj_parse_expression.specs.Front.{AreSlices};
ghost use Rattle.adj_parse_expression.specs.View.{seen};
ghost use Rattle.adj_parse_expression.specs.Flaws.{both};
ghost use Rattle.adj_parse_statement.specs.Fronts.{front_guard, front_test, front_guarded, front_logical, front_step, front_bounds, front_label, front_do};
ghost use Rattle.adj_parse_statement.specs.Said.{said};
ghost use Rattle.adj_parse_statement.specs.View.{label_of, range_of, loop_seen, form_of};
ghost use Rattle.adj_parse_statement.specs.LexemesView.{lexemes_in};
ghost use Rattle.adj_parse_statement.specs.Phrases.{ended};
ghost use Rattle.adj_parse_statement.specs.declared.content.Said.TheVariants.{Subroutine, Integers, Common, Simple, Guarded, Do, While, If, ElseIf};

use crate::content::{Item, Range, Said};
use crate::declaration::{items, shared};
use crate::deed::{assignment, call};
use crate::heading::head;
use crate::label::Label;
use crate::lexemes::Lexemes;
use adj_parse_expression::{Flaw, both};
use adj_tree::{Act, Cond, Expr, Memory, Name, NameList, boxed};
use def_text::{Kind, Stated, TokenKind};
use std::alloc::Global;

// A condition in parentheses, and what stands behind it.
#[tactic(auto, using(crate::proofs::Guards::front_guard_on))]
fn guard(
    alloc: Global,
    lexemes: Lexemes,
    limit: u32,
) -> Result<Option<(Result<Box<Cond>, Flaw>, Lexemes)>, Memory>
    requires { limit < 1000 }
    ensures { IfOk result (λ found. option_map (λ f. (seen (λ c. test_of c.value) f.0, lexemes_in f.1)) found ≡ front_guard limit (lexemes_in lexemes.entry)) }
{
    let Some(inner) = lexemes.behind(TokenKind::Left) else {
        return Ok(None);
    };
    let Some((condition, rest)) = inner.condition(alloc, limit)? else {
        return Ok(None);
    };
    match rest.behind(TokenKind::Right) {
        Some(rest) => Ok(Some((condition, rest))),
        None => Ok(None),
    }
}

// A condition in parentheses up to the end.
#[tactic(auto, using(crate::proofs::Guards::front_test_on))]
fn test(
    alloc: Global,
    lexemes: Lexemes,
    limit: u32,
) -> Result<Option<Result<Box<Cond>, Flaw>>, Memory>
    requires { limit < 1000 }
    ensures { IfOk result (λ found. option_map (seen (λ c. test_of c.value)) found ≡ front_test limit (lexemes_in lexemes.entry)) }
{
    match guard(alloc, lexemes, limit)? {
        Some((condition, rest)) => Ok(rest.ended(condition)),
        None => Ok(None),
    }
}

// What a logical IF guards.
#[tactic(auto, using(crate::proofs::Guards::front_guarded_on))]
fn guarded(alloc: Global, lexemes: Lexemes, limit: u32) -> Result<Option<Result<Act, Flaw>>, Memory>
    requires { limit < 1000 }
    ensures { IfOk result (λ found. option_map (seen act_of) found ≡ front_guarded limit (lexemes_in lexemes.entry)) }
{
    match lexemes.behind(TokenKind::Call) {
        Some(rest) => call(alloc, rest, limit),
        None => assignment(alloc, lexemes, limit),
    }
}

// The condition of a logical IF and what it guards, or what is wrong with them.
fn joined(
    condition: Result<Box<Cond>, Flaw>,
    act: Result<Act, Flaw>,
) -> Result<(Box<Cond>, Act), Flaw>
    ensures { seen (λ p. (test_of p.0.value, act_of p.1)) result ≡ both (seen (λ c. test_of c.value) condition) (seen act_of act) }
{
    both(condition, act)
}

// The condition of a logical IF and what it guards, of the lexemes behind IF.
#[tactic(auto, using(crate::proofs::Guards::front_logical_on))]
fn logical(
    alloc: Global,
    lexemes: Lexemes,
    limit: u32,
) -> Result<Option<Result<(Box<Cond>, Act), Flaw>>, Memory>
    requires { limit < 1000 }
    ensures { IfOk result (λ found. option_map (seen (λ p. (test_of p.0.value, act_of p.1))) found ≡ front_logical limit (lexemes_in lexemes.entry)) }
{
    let Some((condition, rest)) = guard(alloc, lexemes, limit)? else {
        return Ok(None);
    };
    match guarded(alloc, rest, limit)? {
        Some(act) => Ok(Some(joined(condition, act))),
        None => Ok(None),
    }
}

// The step of a loop, 1 where it has none.
#[tactic(auto, using(crate::proofs::Loops::front_step_on))]
fn step(
    alloc: Global,
    lexemes: Lexemes,
    limit: u32,
) -> Result<Option<Result<Box<Expr>, Flaw>>, Memory>
    requires { limit < 1000 }
    ensures { IfOk result (λ found. option_map (seen (λ e. term_of e.value)) found ≡ front_step limit (lexemes_in lexemes.entry)) }
{
    if lexemes.are_none() {
        let one = boxed(alloc, Expr::Lit(1))?;
        return Ok(Some(Ok(one)));
    }
    let Some(lexemes) = lexemes.behind(TokenKind::Comma) else {
        return Ok(None);
    };
    match lexemes.expression(alloc, limit)? {
        Some((step, rest)) => Ok(rest.ended(step)),
        None => Ok(None),
    }
}

// The bounds of a loop, or what is wrong with them.
fn ranged(
    counter: Name,
    from: Result<Box<Expr>, Flaw>,
    to: Result<Box<Expr>, Flaw>,
    by: Result<Box<Expr>, Flaw>,
) -> Result<Range, Flaw>
    ensures { seen range_of result ≡ seen (λ (q : (Term × Term) × Term). record { counter = plain counter; from = q.0.0; to = q.0.1; by = q.1 }) (both (both (seen (λ e. term_of e.value) from) (seen (λ e. term_of e.value) to)) (seen (λ e. term_of e.value) by)) }
{
    match both(both(from, to), by) {
        Ok(((from, to), by)) => Ok(Range {
            counter,
            from,
            to,
            by,
        }),
        Err(flaw) => Err(flaw),
    }
}

// The bounds of a loop, of the lexemes behind its label.
#[tactic(auto, using(crate::proofs::Loops::front_bounds_on))]
fn bounds(
    alloc: Global,
    lexemes: Lexemes,
    limit: u32,
) -> Result<Option<Result<Range, Flaw>>, Memory>
    requires { limit < 1000 }
    ensures { IfOk result (λ found. option_map (seen range_of) found ≡ front_bounds limit (lexemes_in lexemes.entry)) }
{
    let Some((counter, rest)) = lexemes.name(alloc)? else {
        return Ok(None);
    };
    let Some(rest) = rest.behind(TokenKind::Equals) else {
        return Ok(None);
    };
    let Some((from, rest)) = rest.expression(alloc, limit)? else {
        return Ok(None);
    };
    let Some(rest) = rest.behind(TokenKind::Comma) else {
        return Ok(None);
    };
    let Some((to, rest)) = rest.expression(alloc, limit)? else {
        return Ok(None);
    };
    match step(alloc, rest, limit)? {
        Some(by) => Ok(Some(ranged(counter, from, to, by))),
        None => Ok(None),
    }
}

// The label behind DO, where there is one, and what stands behind it and a comma.
#[tactic(auto, unfolding(crate::specs::Phrases::read_label, crate::specs::Fronts::front_label))]
fn label(alloc: Global, lexemes: Lexemes) -> Result<(Option<Label>, Lexemes), Memory>
    ensures { IfOk result (λ found. (option_map label_of found.0, lexemes_in found.1) ≡ front_label (lexemes_in lexemes.entry)) }
{
    match lexemes.digits() {
        Some((digits, rest)) => {
            let label = Label::new(alloc, digits)?;
            Ok((Some(label), rest.behind(TokenKind::Comma).unwrap_or(rest)))
        }
        None => Ok((None, lexemes)),
    }
}

// The label and the bounds of a loop, of the lexemes behind DO.
#[tactic(auto, using(crate::proofs::Loops::front_do_on))]
fn looped(
    alloc: Global,
    lexemes: Lexemes,
    limit: u32,
) -> Result<Option<Result<(Option<Label>, Range), Flaw>>, Memory>
    requires { limit < 1000 }
    ensures { IfOk result (λ found. option_map (seen loop_seen) found ≡ front_do limit (lexemes_in lexemes.entry)) }
{
    let (label, rest) = label(alloc, lexemes)?;
    match bounds(alloc, rest, limit)? {
        Some(Ok(range)) => Ok(Some(Ok((label, range)))),
        Some(Err(flaw)) => Ok(Some(Err(flaw))),
        None => Ok(None),
    }
}

// A heading.
fn heading(found: Option<(Name, NameList)>) -> Option<Result<Said, Flaw>>
    ensures { result ≡ option_map (λ f. Ok (Subroutine f.0 f.1)) found }
{
    match found {
        Some((name, dummies)) => Some(Ok(Said::Subroutine(name, dummies))),
        None => None,
    }
}

// A declaration.
fn integers(found: Option<Result<Vec<Item>, Flaw>>) -> Option<Result<Said, Flaw>>
    ensures { result ≡ option_map (seen Integers) found }
{
    match found {
        Some(Ok(items)) => Some(Ok(Said::Integers(items))),
        Some(Err(flaw)) => Some(Err(flaw)),
        None => None,
    }
}

// A COMMON statement.
fn in_block(found: Option<Result<(Name, Vec<Item>), Flaw>>) -> Option<Result<Said, Flaw>>
    ensures { result ≡ option_map (seen (λ p. Common p.0 p.1)) found }
{
    match found {
        Some(Ok((block, items))) => Some(Ok(Said::Common(block, items))),
        Some(Err(flaw)) => Some(Err(flaw)),
        None => None,
    }
}

// An assignment or a CALL.
fn simple(found: Option<Result<Act, Flaw>>) -> Option<Result<Said, Flaw>>
    ensures { result ≡ option_map (seen Simple) found }
{
    match found {
        Some(Ok(act)) => Some(Ok(Said::Simple(act))),
        Some(Err(flaw)) => Some(Err(flaw)),
        None => None,
    }
}

// A logical IF.
fn guards(found: Option<Result<(Box<Cond>, Act), Flaw>>) -> Option<Result<Said, Flaw>>
    ensures { result ≡ option_map (seen (λ p. Guarded p.0.value p.1)) found }
{
    match found {
        Some(Ok((condition, act))) => Some(Ok(Said::Guarded(Box::into_inner(condition), act))),
        Some(Err(flaw)) => Some(Err(flaw)),
        None => None,
    }
}

// A DO.
fn repeats(found: Option<Result<(Option<Label>, Range), Flaw>>) -> Option<Result<Said, Flaw>>
    ensures { result ≡ option_map (seen (λ p. Do p.0 p.1)) found }
{
    match found {
        Some(Ok((label, range))) => Some(Ok(Said::Do(label, range))),
        Some(Err(flaw)) => Some(Err(flaw)),
        None => None,
    }
}

// A DO WHILE.
fn goes_while(found: Option<Result<Box<Cond>, Flaw>>) -> Option<Result<Said, Flaw>>
    ensures { result ≡ option_map (seen (λ c. While c.value)) found }
{
    match found {
        Some(Ok(condition)) => Some(Ok(Said::While(Box::into_inner(condition)))),
        Some(Err(flaw)) => Some(Err(flaw)),
        None => None,
    }
}

// An IF with a THEN.
fn opens(found: Option<Result<Box<Cond>, Flaw>>) -> Option<Result<Said, Flaw>>
    ensures { result ≡ option_map (seen (λ c. If c.value)) found }
{
    match found {
        Some(Ok(condition)) => Some(Ok(Said::If(Box::into_inner(condition)))),
        Some(Err(flaw)) => Some(Err(flaw)),
        None => None,
    }
}

// An ELSE IF.
fn turns(found: Option<Result<Box<Cond>, Flaw>>) -> Option<Result<Said, Flaw>>
    ensures { result ≡ option_map (seen (λ c. ElseIf c.value)) found }
{
    match found {
        Some(Ok(condition)) => Some(Ok(Said::ElseIf(Box::into_inner(condition)))),
        Some(Err(flaw)) => Some(Err(flaw)),
        None => None,
    }
}

// A statement that its keyword says alone.
fn alone(lexemes: Lexemes, said: Said) -> Option<Result<Said, Flaw>>
    ensures { result ≡ ended (Ok said) (lexemes_in lexemes.entry) }
{
    lexemes.ended(Ok(said))
}

/// What a statement says, or what is wrong with its expressions; none where its lexemes aren't of the form of its class.
/// Its expressions and conditions are at most as deep as the limit. What is wrong is the least flaw of all of them, in the order large, deep, exponent.
#[tactic(auto, using(crate::proofs::Phrased::classes))]
pub fn said(
    alloc: Global,
    stated: &Stated,
    limit: u32,
) -> Result<Option<Result<Said, Flaw>>, Memory>
    requires slices { AreSlices stated.now.text stated.now.tokens }
    requires limit { limit < 1000 }
    ensures said { IfOk result (λ found. option_map (seen (form_of (mark_of stated.now.mark))) found ≡ said limit (mark_of stated.now.mark) stated.now.kind (lexemes_of stated.now.text stated.now.tokens)) }
{
    let lexemes = Lexemes::new(stated.text.as_slice(), stated.tokens.as_slice());
    match stated.kind {
        Kind::Subroutine => Ok(heading(head(alloc, lexemes)?)),
        Kind::Integer => Ok(integers(items(alloc, lexemes)?)),
        Kind::Common => Ok(in_block(shared(alloc, lexemes)?)),
        Kind::Assign => Ok(simple(assignment(alloc, lexemes, limit)?)),
        Kind::Call => Ok(simple(call(alloc, lexemes, limit)?)),
        Kind::LogicalIf => Ok(guards(logical(alloc, lexemes, limit)?)),
        Kind::Do => Ok(repeats(looped(alloc, lexemes, limit)?)),
        Kind::DoWhile => Ok(goes_while(test(alloc, lexemes, limit)?)),
        Kind::BlockIf => Ok(opens(test(alloc, lexemes, limit)?)),
        Kind::ElseIf => Ok(turns(test(alloc, lexemes, limit)?)),
        Kind::ImplicitNone => Ok(alone(lexemes, Said::ImplicitNone)),
        Kind::EndDo => Ok(alone(lexemes, Said::EndDo)),
        Kind::Continue => Ok(alone(lexemes, Said::Continue)),
        Kind::Else => Ok(alone(lexemes, Said::Else)),
        Kind::EndIf => Ok(alone(lexemes, Said::EndIf)),
        Kind::Return => Ok(alone(lexemes, Said::Return)),
        Kind::End => Ok(alone(lexemes, Said::End)),
    }
}
