//! Assignments and CALLs.

ghost use Rattle.std.specs.Prelude.{◌≡◌, ◌<◌, ℕ, List, map, IfOk, option_map};
ghost use Rattle.adj_tree.specs.Code.{Term, Terms, plain, assign};
ghost use Rattle.adj_tree.specs.Listed.{terms_listed};
ghost use Rattle.adj_tree.specs.View.{term_of, act_of};
ghost use Rattle.adj_parse_expression.specs.Front.{front_expression};
ghost use Rattle.adj_parse_expression.specs.View.{seen};
ghost use Rattle.adj_parse_statement.specs.Called.{call_of};
ghost use Rattle.adj_parse_expression.specs.Flaws.{both};
ghost use Rattle.adj_parse_statement.specs.Flaws.{with_part};
ghost use Rattle.adj_parse_statement.specs.Fronts.{front_list, front_subscripts, front_inner, front_place, front_assignment, front_actuals, front_call};
ghost use Rattle.adj_parse_statement.specs.View.{place_seen};
ghost use Rattle.adj_parse_statement.specs.LexemesView.{lexemes_in};

use crate::called::called;
use crate::flaws::with_boxed;
use crate::lexemes::Lexemes;
use adj_parse_expression::{Flaw, both};
use adj_tree::{Act, Expr, Exprs, Memory, Name, Place};
use def_text::TokenKind;
use std::alloc::Global;

// Expressions with one more.
fn with_expression(
    all: Result<Vec<Expr>, Flaw>,
    next: Result<Box<Expr>, Flaw>,
) -> Result<Result<Vec<Expr>, Flaw>, Memory>
    ensures { IfOk result (λ r. seen (λ v. map term_of v.items) r ≡ with_part (seen (λ v. map term_of v.items) all) (seen (λ e. term_of e.value) next)) }
{
    with_boxed(all, next)
}

// One or two subscripts, and what stands behind them.
#[tactic(auto, using(crate::proofs::Deeds::front_subscripts_on))]
fn subscripts(
    alloc: Global,
    lexemes: Lexemes,
    limit: u32,
) -> Result<Option<(Result<Vec<Expr>, Flaw>, Lexemes)>, Memory>
    requires { limit < 1000 }
    ensures { IfOk result (λ found. option_map (λ f. (seen (λ v. map term_of v.items) f.0, lexemes_in f.1)) found ≡ front_subscripts limit (lexemes_in lexemes.entry)) }
{
    let Some((first, rest)) = lexemes.expression(alloc, limit)? else {
        return Ok(None);
    };
    let all = with_expression(Ok(Vec::new(alloc)), first)?;
    let Some(behind) = rest.behind(TokenKind::Comma) else {
        return Ok(Some((all, rest)));
    };
    match behind.expression(alloc, limit)? {
        Some((second, rest)) => Ok(Some((with_expression(all, second)?, rest))),
        None => Ok(None),
    }
}

// A place with these subscripts, or what is wrong with them.
fn placed(
    alloc: Global,
    name: Name,
    subscripts: Result<Vec<Expr>, Flaw>,
) -> Result<Result<Place, Flaw>, Memory>
    ensures { IfOk result (λ r. seen place_seen r ≡ seen (λ ts. (name, terms_listed ts)) (seen (λ v. map term_of v.items) subscripts)) }
{
    match subscripts {
        Ok(all) => {
            let subs = Exprs::from_vec(alloc, all)?;
            Ok(Ok(Place { name, subs }))
        }
        Err(flaw) => Ok(Err(flaw)),
    }
}

// The subscripts behind a name, none where there are no parentheses, and what stands behind them.
#[tactic(auto, unfolding(crate::specs::Fronts::front_inner))]
fn inner(
    alloc: Global,
    lexemes: Lexemes,
    limit: u32,
) -> Result<Option<(Result<Vec<Expr>, Flaw>, Lexemes)>, Memory>
    requires { limit < 1000 }
    ensures { IfOk result (λ found. option_map (λ f. (seen (λ v. map term_of v.items) f.0, lexemes_in f.1)) found ≡ front_inner limit (lexemes_in lexemes.entry)) }
{
    let Some(inside) = lexemes.behind(TokenKind::Left) else {
        return Ok(Some((Ok(Vec::new(alloc)), lexemes)));
    };
    let Some((subs, rest)) = subscripts(alloc, inside, limit)? else {
        return Ok(None);
    };
    match rest.behind(TokenKind::Right) {
        Some(rest) => Ok(Some((subs, rest))),
        None => Ok(None),
    }
}

// A variable, or one with one or two subscripts, and what stands behind it.
#[tactic(auto, using(crate::proofs::Deeds::front_place_on))]
fn place(
    alloc: Global,
    lexemes: Lexemes,
    limit: u32,
) -> Result<Option<(Result<Place, Flaw>, Lexemes)>, Memory>
    requires { limit < 1000 }
    ensures { IfOk result (λ found. option_map (λ f. (seen place_seen f.0, lexemes_in f.1)) found ≡ front_place limit (lexemes_in lexemes.entry)) }
{
    let Some((name, rest)) = lexemes.name(alloc)? else {
        return Ok(None);
    };
    match inner(alloc, rest, limit)? {
        Some((subs, rest)) => Ok(Some((placed(alloc, name, subs)?, rest))),
        None => Ok(None),
    }
}

// An assignment to a place, or what is wrong with its parts.
fn assigned(place: Result<Place, Flaw>, value: Result<Box<Expr>, Flaw>) -> Result<Act, Flaw>
    ensures { seen act_of result ≡ seen (λ (q : (List ℕ × Terms) × Term). assign (plain q.0.0) q.0.1 q.1) (both (seen place_seen place) (seen (λ e. term_of e.value) value)) }
{
    match both(place, value) {
        Ok((place, value)) => Ok(Act::Assign(place, Box::into_inner(value))),
        Err(flaw) => Err(flaw),
    }
}

/// The assignment that the lexemes are, or what is wrong with it.
#[tactic(auto, using(crate::proofs::Deeds::front_assignment_on))]
pub(crate) fn assignment(
    alloc: Global,
    lexemes: Lexemes,
    limit: u32,
) -> Result<Option<Result<Act, Flaw>>, Memory>
    requires { limit < 1000 }
    ensures { IfOk result (λ found. option_map (seen act_of) found ≡ front_assignment limit (lexemes_in lexemes.entry)) }
{
    let Some((place, rest)) = place(alloc, lexemes, limit)? else {
        return Ok(None);
    };
    let Some(rest) = rest.behind(TokenKind::Equals) else {
        return Ok(None);
    };
    match rest.expression(alloc, limit)? {
        Some((value, rest)) => Ok(rest.ended(assigned(place, value))),
        None => Ok(None),
    }
}

// Expressions separated by commas, and what stands behind them.
#[tactic(auto, using(crate::proofs::Lists::expressions_on), unfolding(crate::specs::Fronts::front_list))]
fn arguments(
    alloc: Global,
    lexemes: Lexemes,
    limit: u32,
) -> Result<Option<(Result<Vec<Expr>, Flaw>, Lexemes)>, Memory>
    requires { limit < 1000 }
    ensures { IfOk result (λ found. option_map (λ f. (seen (λ v. map term_of v.items) f.0, lexemes_in f.1)) found ≡ front_list (front_expression limit) (lexemes_in lexemes.entry)) }
{
    let Some((first, mut rest)) = lexemes.expression(alloc, limit)? else {
        return Ok(None);
    };
    let mut all = with_expression(Ok(Vec::new(alloc)), first)?;
    while let Some(behind) = rest.behind(TokenKind::Comma) {
        let Some((next, others)) = behind.expression(alloc, limit)? else {
            return Ok(None);
        };
        all = with_expression(all, next)?;
        rest = others;
    }
    Ok(Some((all, rest)))
}

// The actuals behind the name up to the end: none where there are no parentheses, or nothing in them.
#[tactic(auto, using(crate::proofs::Deeds::front_actuals_on))]
fn actuals(
    alloc: Global,
    lexemes: Lexemes,
    limit: u32,
) -> Result<Option<Result<Vec<Expr>, Flaw>>, Memory>
    requires { limit < 1000 }
    ensures { IfOk result (λ found. option_map (seen (λ v. map term_of v.items)) found ≡ front_actuals limit (lexemes_in lexemes.entry)) }
{
    if lexemes.are_none() {
        return Ok(Some(Ok(Vec::new(alloc))));
    }
    let Some(lexemes) = lexemes.behind(TokenKind::Left) else {
        return Ok(None);
    };
    if let Some(rest) = lexemes.behind(TokenKind::Right) {
        return Ok(rest.ended(Ok(Vec::new(alloc))));
    }
    let Some((all, rest)) = arguments(alloc, lexemes, limit)? else {
        return Ok(None);
    };
    match rest.behind(TokenKind::Right) {
        Some(rest) => Ok(rest.ended(all)),
        None => Ok(None),
    }
}

/// The CALL that the lexemes behind the lexeme CALL are, or what is wrong with it.
#[tactic(auto, using(crate::proofs::Deeds::front_call_on))]
pub(crate) fn call(
    alloc: Global,
    lexemes: Lexemes,
    limit: u32,
) -> Result<Option<Result<Act, Flaw>>, Memory>
    requires { limit < 1000 }
    ensures { IfOk result (λ found. option_map (seen act_of) found ≡ front_call limit (lexemes_in lexemes.entry)) }
{
    let Some((name, rest)) = lexemes.name(alloc)? else {
        return Ok(None);
    };
    match actuals(alloc, rest, limit)? {
        Some(Ok(all)) => Ok(Some(Ok(called(alloc, name, all)?))),
        Some(Err(flaw)) => Ok(Some(Err(flaw))),
        None => Ok(None),
    }
}
