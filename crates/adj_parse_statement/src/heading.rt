//! The heading of a unit.

ghost use Rattle.std.specs.Prelude.{◌≡◌, IfOk, option_map};
ghost use Rattle.def_text.specs.Form.{subroutine};
ghost use Rattle.adj_parse_statement.specs.Phrases.{read_names, read_dummies, read_head};
ghost use Rattle.adj_parse_statement.specs.LexemesView.{lexemes_in};

use crate::lexemes::Lexemes;
use adj_tree::{Memory, Name, NameList};
use def_text::TokenKind;
use std::alloc::Global;

// Names separated by commas, and what stands behind them.
#[tactic(auto, using(crate::proofs::Lists::names_on), unfolding(crate::specs::Phrases::read_names))]
fn names(alloc: Global, lexemes: Lexemes) -> Result<Option<(Vec<Name>, Lexemes)>, Memory>
    ensures { IfOk result (λ found. option_map (λ f. (f.0.items, lexemes_in f.1)) found ≡ read_names (lexemes_in lexemes.entry)) }
{
    let Some((first, mut rest)) = lexemes.name(alloc)? else {
        return Ok(None);
    };
    let mut names = vec![in alloc; first]?;
    while let Some(behind) = rest.behind(TokenKind::Comma) {
        let Some((next, others)) = behind.name(alloc)? else {
            return Ok(None);
        };
        names.push(next)?;
        rest = others;
    }
    Ok(Some((names, rest)))
}

// The dummies behind the name up to the end: none where there are no parentheses, or nothing in them.
#[tactic(auto, unfolding(crate::specs::Phrases::read_dummies))]
fn dummies(alloc: Global, lexemes: Lexemes) -> Result<Option<NameList>, Memory>
    ensures { IfOk result (λ found. found ≡ read_dummies (lexemes_in lexemes.entry)) }
{
    if lexemes.are_none() {
        return Ok(Some(NameList::new(Vec::new(alloc))));
    }
    let Some(lexemes) = lexemes.behind(TokenKind::Left) else {
        return Ok(None);
    };
    if let Some(rest) = lexemes.behind(TokenKind::Right) {
        return Ok(rest.ended(NameList::new(Vec::new(alloc))));
    }
    let Some((names, rest)) = names(alloc, lexemes)? else {
        return Ok(None);
    };
    match rest.behind(TokenKind::Right) {
        Some(rest) => Ok(rest.ended(NameList::new(names))),
        None => Ok(None),
    }
}

/// The name of a unit and its dummies, of the lexemes behind SUBROUTINE.
#[tactic(auto, unfolding(crate::specs::Phrases::read_head))]
pub(crate) fn head(alloc: Global, lexemes: Lexemes) -> Result<Option<(Name, NameList)>, Memory>
    ensures { IfOk result (λ found. option_map (λ f. subroutine f.0 f.1) found ≡ read_head (lexemes_in lexemes.entry)) }
{
    let Some((name, rest)) = lexemes.name(alloc)? else {
        return Ok(None);
    };
    match dummies(alloc, rest)? {
        Some(dummies) => Ok(Some((name, dummies))),
        None => Ok(None),
    }
}
