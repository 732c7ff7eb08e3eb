//! Declarations.

ghost use Rattle.std.specs.Prelude.{◌≡◌, map, IfOk, option_map};
ghost use Rattle.adj_tree.specs.View.{extent_of};
ghost use Rattle.adj_parse_expression.specs.View.{seen};
ghost use Rattle.adj_parse_statement.specs.Flaws.{with_part};
ghost use Rattle.adj_parse_statement.specs.Fronts.{judged_size, judged_items, judged_common, front_size, front_sizes, front_extents, front_item, front_list};
ghost use Rattle.adj_parse_statement.specs.Phrase.{numbered};
ghost use Rattle.adj_parse_statement.specs.Phrases.{read_items, block_at, read_common};
ghost use Rattle.adj_parse_statement.specs.View.{item_of, InBlock};
ghost use Rattle.adj_parse_statement.specs.LexemesView.{lexemes_in};

use crate::content::Item;
use crate::flaws::with_part;
use crate::lexemes::Lexemes;
use crate::number::number;
use adj_parse_expression::Flaw;
use adj_tree::{Extent, Extents, Memory, Name};
use def_text::TokenKind;
use std::alloc::Global;

// The extent that digits write.
fn literal(digits: &[u8]) -> Result<Extent, Flaw>
    ensures { seen extent_of result ≡ judged_size (numbered digits.now) }
{
    match i64::try_from(number(digits)) {
        Ok(extent) => Ok(Extent::Lit(extent)),
        Err(_) => Err(Flaw::Large),
    }
}

// An extent, and what stands behind it.
#[tactic(auto, unfolding(crate::specs::Phrases::size_at, crate::specs::Fronts::front_size))]
fn size(alloc: Global, lexemes: Lexemes) -> Result<Option<(Result<Extent, Flaw>, Lexemes)>, Memory>
    ensures { IfOk result (λ found. option_map (λ f. (seen extent_of f.0, lexemes_in f.1)) found ≡ front_size (lexemes_in lexemes.entry)) }
{
    if let Some((digits, rest)) = lexemes.digits() {
        return Ok(Some((literal(digits), rest)));
    }
    match lexemes.name(alloc)? {
        Some((name, rest)) => Ok(Some((Ok(Extent::Dummy(name)), rest))),
        None => Ok(None),
    }
}

// Extents with one more.
fn with_extent(
    extents: Result<Vec<Extent>, Flaw>,
    next: Result<Extent, Flaw>,
) -> Result<Result<Vec<Extent>, Flaw>, Memory>
    ensures { IfOk result (λ r. seen (λ v. map extent_of v.items) r ≡ with_part (seen (λ v. map extent_of v.items) extents) (seen extent_of next)) }
{
    with_part(extents, next)
}

// The extents of an item, one or two, and what stands behind them.
#[tactic(auto, using(crate::proofs::Declared::front_sizes_on))]
fn sizes(
    alloc: Global,
    lexemes: Lexemes,
) -> Result<Option<(Result<Vec<Extent>, Flaw>, Lexemes)>, Memory>
    ensures { IfOk result (λ found. option_map (λ f. (seen (λ v. map extent_of v.items) f.0, lexemes_in f.1)) found ≡ front_sizes (lexemes_in lexemes.entry)) }
{
    let Some((first, rest)) = size(alloc, lexemes)? else {
        return Ok(None);
    };
    let sizes = with_extent(Ok(Vec::new(alloc)), first)?;
    let Some(behind) = rest.behind(TokenKind::Comma) else {
        return Ok(Some((sizes, rest)));
    };
    match size(alloc, behind)? {
        Some((second, rest)) => Ok(Some((with_extent(sizes, second)?, rest))),
        None => Ok(None),
    }
}

// A declared name with its extents, or what is wrong with them.
fn declared(name: Name, sizes: Result<Vec<Extent>, Flaw>) -> Result<Item, Flaw>
    ensures { seen item_of result ≡ seen (λ extents. record { name = name; extents = extents }) (seen (λ v. map extent_of v.items) sizes) }
{
    match sizes {
        Ok(sizes) => Ok(Item {
            name,
            extents: Extents::new(sizes),
        }),
        Err(flaw) => Err(flaw),
    }
}

// The extents behind a name, none where there are no parentheses, and what stands behind them.
#[tactic(auto, unfolding(crate::specs::Fronts::front_extents))]
fn extents(
    alloc: Global,
    lexemes: Lexemes,
) -> Result<Option<(Result<Vec<Extent>, Flaw>, Lexemes)>, Memory>
    ensures { IfOk result (λ found. option_map (λ f. (seen (λ v. map extent_of v.items) f.0, lexemes_in f.1)) found ≡ front_extents (lexemes_in lexemes.entry)) }
{
    let Some(inner) = lexemes.behind(TokenKind::Left) else {
        return Ok(Some((Ok(Vec::new(alloc)), lexemes)));
    };
    let Some((sizes, rest)) = sizes(alloc, inner)? else {
        return Ok(None);
    };
    match rest.behind(TokenKind::Right) {
        Some(rest) => Ok(Some((sizes, rest))),
        None => Ok(None),
    }
}

// A declared name with its extents, and what stands behind it.
#[tactic(auto, using(crate::proofs::Declared::front_item_on))]
fn item(alloc: Global, lexemes: Lexemes) -> Result<Option<(Result<Item, Flaw>, Lexemes)>, Memory>
    ensures { IfOk result (λ found. option_map (λ f. (seen item_of f.0, lexemes_in f.1)) found ≡ front_item (lexemes_in lexemes.entry)) }
{
    let Some((name, rest)) = lexemes.name(alloc)? else {
        return Ok(None);
    };
    match extents(alloc, rest)? {
        Some((sizes, rest)) => Ok(Some((declared(name, sizes), rest))),
        None => Ok(None),
    }
}

// Items with one more.
fn with_item(
    items: Result<Vec<Item>, Flaw>,
    next: Result<Item, Flaw>,
) -> Result<Result<Vec<Item>, Flaw>, Memory>
    ensures { IfOk result (λ r. seen (λ v. map item_of v.items) r ≡ with_part (seen (λ v. map item_of v.items) items) (seen item_of next)) }
{
    with_part(items, next)
}

// Items separated by commas, and what stands behind them.
#[tactic(auto, using(crate::proofs::Lists::items_on), unfolding(crate::specs::Fronts::front_list))]
fn listed(
    alloc: Global,
    lexemes: Lexemes,
) -> Result<Option<(Result<Vec<Item>, Flaw>, Lexemes)>, Memory>
    ensures { IfOk result (λ found. option_map (λ f. (seen (λ v. map item_of v.items) f.0, lexemes_in f.1)) found ≡ front_list front_item (lexemes_in lexemes.entry)) }
{
    let Some((first, mut rest)) = item(alloc, lexemes)? else {
        return Ok(None);
    };
    let mut items = with_item(Ok(Vec::new(alloc)), first)?;
    while let Some(behind) = rest.behind(TokenKind::Comma) {
        let Some((next, others)) = item(alloc, behind)? else {
            return Ok(None);
        };
        items = with_item(items, next)?;
        rest = others;
    }
    Ok(Some((items, rest)))
}

/// The items of the lexemes behind INTEGER, or what is wrong with them.
#[tactic(auto, using(crate::proofs::Declared::judged_items_on))]
pub(crate) fn items(
    alloc: Global,
    lexemes: Lexemes,
) -> Result<Option<Result<Vec<Item>, Flaw>>, Memory>
    ensures { IfOk result (λ found. option_map (seen (λ v. map item_of v.items)) found ≡ option_map judged_items (read_items (lexemes_in lexemes.entry))) }
{
    match listed(alloc, lexemes)? {
        Some((items, rest)) => Ok(rest.ended(items)),
        None => Ok(None),
    }
}

// The name of a block between slashes, and what stands behind it.
fn block(alloc: Global, lexemes: Lexemes) -> Result<Option<(Name, Lexemes)>, Memory>
    ensures { IfOk result (λ found. option_map (λ f. (f.0, lexemes_in f.1)) found ≡ block_at (lexemes_in lexemes.entry)) }
{
    let Some(lexemes) = lexemes.behind(TokenKind::Slash) else {
        return Ok(None);
    };
    let Some((name, rest)) = lexemes.name(alloc)? else {
        return Ok(None);
    };
    match rest.behind(TokenKind::Slash) {
        Some(rest) => Ok(Some((name, rest))),
        None => Ok(None),
    }
}

// A block with its items.
fn sharing(
    block: Name,
    items: Option<Result<Vec<Item>, Flaw>>,
) -> Option<Result<(Name, Vec<Item>), Flaw>>
    ensures { option_map (seen {B = InBlock} (λ p. (p.0, map item_of p.1.items))) result ≡ option_map (seen {B = InBlock} (λ is. (block, is))) (option_map (seen (λ v. map item_of v.items)) items) }
{
    match items {
        Some(Ok(items)) => Some(Ok((block, items))),
        Some(Err(flaw)) => Some(Err(flaw)),
        None => None,
    }
}

/// The block and the items of the lexemes behind COMMON, or what is wrong with the items. Their extents are literals.
#[tactic(auto, using(crate::proofs::Sharing::judged_common_on))]
pub(crate) fn shared(
    alloc: Global,
    lexemes: Lexemes,
) -> Result<Option<Result<(Name, Vec<Item>), Flaw>>, Memory>
    ensures { IfOk result (λ found. option_map (seen {B = InBlock} (λ p. (p.0, map item_of p.1.items))) found ≡ option_map judged_common (read_common (lexemes_in lexemes.entry))) }
{
    let Some((block, rest)) = block(alloc, lexemes)? else {
        return Ok(None);
    };
    if rest.have_inner_name() {
        return Ok(None);
    }
    Ok(sharing(block, items(alloc, rest)?))
}
